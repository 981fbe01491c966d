//! Why the program refuses what it is asked for.
ghost use Rattle.std.specs.Prelude.{◌≡◌, ◌++◌, OnOk};
ghost use Rattle.itip_desk.specs.Refusals.{number_of, number_of_file, refused_text};

use itip_message::MessageRefusal;
use std::alloc::AllocError;
use std::fmt;

/// Why the file of a desk is not read, or not written.
#[derive(Clone, Copy, PartialEq, Eq, Debug)]
pub enum FileRefusal {
    /// The file names a form other than the one that is read (70).
    OtherForm,
    /// It is the file of no desk (71): the message with this number, from 1, can't be read as one of such a file; or, with `None`, one
    /// isn't written as it would be in such a file, or the messages don't fit together.
    Broken { message: Option<u64> },
    /// The file could not be written; what was there before still is (72).
    Unwritten { desk: u64 },
}

impl FileRefusal {
    /// The number under which it is shown.
    pub fn number(self) -> u32
        ensures { result ≡ number_of_file self }
    {
        match self {
            FileRefusal::OtherForm => 70,
            FileRefusal::Broken { .. } => 71,
            FileRefusal::Unwritten { .. } => 72,
        }
    }
}

/// What is wrong: `the file is of no desk: message 3`.
impl fmt::Display for FileRefusal {
    fn fmt<W: fmt::Write>(&self, f: &mut fmt::Formatter<W>) -> fmt::Result {
        match self {
            FileRefusal::OtherForm => f.write_str("the file is of another form"),
            FileRefusal::Broken { message: None } => f.write_str("the file is of no desk"),
            FileRefusal::Broken {
                message: Some(message),
            } => write!(f, "the file is of no desk: message {message}"),
            FileRefusal::Unwritten { desk } => write!(f, "desk {desk} could not be written"),
        }
    }
}

/// Why a message, a command, a job or a list is refused. Nothing has changed then. Desks and packets are numbered from 0.
#[derive(Clone, Copy, PartialEq, Eq, Debug)]
pub enum Refusal {
    /// The text is not a message that is read (1 to 15).
    Message(MessageRefusal),
    /// A UID would move, but this desk is at the last tick (21).
    TicksSpent { desk: u64 },
    /// There are more than 100,000 rows (31).
    TooManyRows,
    /// There is no desk with this number (50).
    NoDesk(u64),
    /// There is no packet with this number (51).
    NoPacket(u64),
    /// The line is not a command, or lines belong to no command (60).
    NoCommand,
    /// The script has more than 16,777,216 bytes (61).
    LongScript,
    /// The delta has more than 67,108,864 bytes (62).
    LongDelta,
    /// A desk is not read from a file, or not written to one (70 to 72).
    File(FileRefusal),
}

impl Refusal {
    /// The number under which it is shown.
    pub fn number(self) -> u32
        ensures { result ≡ number_of self }
    {
        match self {
            Refusal::Message(refusal) => refusal.number(),
            Refusal::TicksSpent { .. } => 21,
            Refusal::TooManyRows => 31,
            Refusal::NoDesk(_) => 50,
            Refusal::NoPacket(_) => 51,
            Refusal::NoCommand => 60,
            Refusal::LongScript => 61,
            Refusal::LongDelta => 62,
            Refusal::File(refusal) => refusal.number(),
        }
    }

    /// Appends the line `refused N`. If an allocation fails, part of it may have been appended.
    pub fn append(self, output: &mut Vec<u8>) -> Result<(), AllocError>
        ensures { OnOk result (output.new.items ≡ output.old.items ++ refused_text (number_of self)) }
    {
        let number = self.number();
        let line = format!(in *output.allocator(); "refused {number}\n")?;
        output.extend_from_slice(line.as_bytes())
    }
}

/// What is wrong, and where: `DUE has a bad value in to-do 2, line 14`.
impl fmt::Display for Refusal {
    fn fmt<W: fmt::Write>(&self, f: &mut fmt::Formatter<W>) -> fmt::Result {
        match self {
            Refusal::Message(refusal) => write!(f, "{refusal}"),
            Refusal::TicksSpent { desk } => write!(f, "desk {desk} has no tick left"),
            Refusal::TooManyRows => f.write_str("there are more than 100,000 rows"),
            Refusal::NoDesk(desk) => write!(f, "desk {desk} does not exist"),
            Refusal::NoPacket(packet) => write!(f, "packet {packet} does not exist"),
            Refusal::NoCommand => f.write_str("there is no such command"),
            Refusal::LongScript => f.write_str("the script has more than 16,777,216 octets"),
            Refusal::LongDelta => f.write_str("the delta has more than 67,108,864 octets"),
            Refusal::File(refusal) => write!(f, "{refusal}"),
        }
    }
}
