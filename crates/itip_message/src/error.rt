//! Why a text isn't a message, and where.
ghost use Rattle.std.specs.Prelude.{◌≡◌};
ghost use Rattle.itip_message.specs.declared.error.ReadError.TheVariants.{NoMemory};
ghost use Rattle.itip_message.specs.RefusalNumbers.{line_number, todo_number, method_number};
ghost use Rattle.itip_message.specs.Refusals.{line_gives, todo_gives, form_gives, of_lines, of_todo};

use itip_items::{FormError, MethodCause};
use itip_lines::{LineCause, LineError, LineRefusal};
use itip_todo::{TodoCause, TodoError, TodoRefusal};
use std::alloc::{AllocError, AllocFailed};
use std::fmt;
use thiserror::Error;

/// What is wrong with a text: the first cause, in the order of reading.
#[derive(Clone, Copy, PartialEq, Eq, Debug, Drop, Error)]
pub enum MessageCause {
    /// The text doesn't consist of content lines.
    #[error("{0}")]
    Lines(LineCause),
    /// An END is missing or doesn't match, components are nested more than 32 deep, a line follows END:VCALENDAR, or a line given to a
    /// `TodoBuilder` begins or ends a component.
    #[error("components are badly nested")]
    Nesting,
    /// There is no line, or the first isn't BEGIN:VCALENDAR.
    #[error("no calendar begins")]
    NoCalendar,
    /// VERSION doesn't appear exactly once, with 2.0.
    #[error("the version isn't 2.0")]
    Version,
    /// METHOD doesn't appear exactly once, with one of the five methods.
    #[error("the method isn't one that is read")]
    Method,
    /// No VTODO is directly in the VCALENDAR.
    #[error("there is no to-do")]
    NoTodo,
    /// There are more than 1,000 to-dos.
    #[error("there are more than 1,000 to-dos")]
    ManyTodos,
    /// A VTODO can't be read as a to-do.
    #[error("{0}")]
    Todo(TodoCause),
    /// A to-do is not what its method needs.
    #[error("{0}")]
    Misfit(MethodCause),
    /// A canonical form is too large.
    #[error("a canonical form has more than 262,144 octets or 20,000 lines")]
    LargeForm,
}

impl MessageCause {
    ghost use Rattle.itip_message.specs.RefusalNumbers.{number_of_cause};

    /// The number under which the refusal is shown, 1 to 15.
    pub fn number(self) -> u32
        ensures { result ≡ number_of_cause self }
    {
        match self {
            MessageCause::Lines(cause) => line_number(cause),
            MessageCause::Nesting => 4,
            MessageCause::NoCalendar => 5,
            MessageCause::Version => 6,
            MessageCause::Method => 7,
            MessageCause::NoTodo => 8,
            MessageCause::Todo(cause) => todo_number(cause),
            MessageCause::Misfit(cause) => method_number(cause),
            MessageCause::ManyTodos | MessageCause::LargeForm => 14,
        }
    }
}

fn line_number(cause: LineCause) -> u32
    ensures { result ≡ line_number cause }
{
    match cause {
        LineCause::TooLong => 1,
        LineCause::BadLine => 2,
        LineCause::NotUtf8 => 3,
        LineCause::TooMany => 14,
    }
}

fn todo_number(cause: TodoCause) -> u32
    ensures { result ≡ todo_number cause }
{
    match cause {
        TodoCause::Missing(_) => 9,
        TodoCause::Twice(_) => 10,
        TodoCause::BadValue(_) => 11,
        TodoCause::Range => 12,
        TodoCause::TooMany => 14,
        TodoCause::SameAttendee => 15,
    }
}

fn method_number(cause: MethodCause) -> u32
    ensures { result ≡ method_number cause }
{
    match cause {
        MethodCause::Missing(_) => 9,
        MethodCause::Twice(_) => 10,
        MethodCause::Range => 12,
        MethodCause::AddForm => 13,
    }
}

/// Why a text isn't a message: what is wrong, and where.
#[derive(Clone, Copy, PartialEq, Eq, Debug)]
pub struct MessageRefusal {
    /// What is wrong.
    pub cause: MessageCause,
    /// The number of the to-do, from 1, if the cause is one of a to-do.
    pub todo: Option<usize>,
    /// The number of the line in the text, from 1, counting folded and empty lines; of a folded line, that of its beginning. `None` if no
    /// single line is at fault: something is missing, or the text or a canonical form is too large.
    pub line: Option<usize>,
}

impl MessageRefusal {
    ghost use Rattle.itip_message.specs.RefusalNumbers.{number_of};
    ghost use Rattle.itip_message.specs.Refusals.{at_line};

    /// The refusal for this cause in a line, or in none.
    pub(crate) fn at_line(cause: MessageCause, line: Option<usize>) -> MessageRefusal
        ensures { result ≡ at_line cause line }
    {
        MessageRefusal {
            cause,
            todo: None,
            line,
        }
    }

    /// The number under which the refusal is shown, 1 to 15.
    pub fn number(self) -> u32
        ensures { result ≡ number_of self }
    {
        self.cause.number()
    }
}

/// The cause, then the to-do and the line, if known: `DUE has a bad value in to-do 2, line 14`. A fault of content lines is shown as a
/// [`LineRefusal`].
impl fmt::Display for MessageRefusal {
    fn fmt<W: fmt::Write>(&self, f: &mut fmt::Formatter<W>) -> fmt::Result {
        let MessageRefusal { cause, todo, line } = *self;
        if let MessageCause::Lines(cause) = cause {
            let refusal = LineRefusal { cause, line };
            return write!(f, "{refusal}");
        }
        write!(f, "{cause}")?;
        if let Some(todo) = todo {
            write!(f, " in to-do {todo}")?;
        }
        if let Some(line) = line {
            write!(f, ", line {line}")?;
        }
        Ok(())
    }
}

impl std::error::Error for MessageRefusal {}

/// Why a message, a draft or a to-do of a `TodoBuilder` wasn't read.
#[derive(Debug, Drop, Error)]
pub enum ReadError {
    /// An allocation failed.
    #[error("no memory to read a message")]
    NoMemory,
    /// The text was refused.
    #[error("{0}")]
    Refused(MessageRefusal),
}

impl From<AllocError> for ReadError {
    ghost from_gives = { λ _ e. e ≡ NoMemory };

    fn from(_e: AllocError) -> ReadError {
        ReadError::NoMemory
    }
}

impl<T: Drop> From<AllocFailed<T>> for ReadError {
    ghost from_gives = { λ _ e. e ≡ NoMemory };

    fn from(_e: AllocFailed<T>) -> ReadError {
        ReadError::NoMemory
    }
}

impl From<LineRefusal> for MessageRefusal {
    ghost from_gives = { λ refusal r. r ≡ of_lines refusal };

    fn from(refusal: LineRefusal) -> MessageRefusal {
        MessageRefusal::at_line(MessageCause::Lines(refusal.cause), refusal.line)
    }
}

impl From<LineError> for ReadError {
    ghost from_gives = { λ error e. e ≡ line_gives error };

    fn from(error: LineError) -> ReadError {
        match error {
            LineError::NoMemory => ReadError::NoMemory,
            LineError::Refused(refusal) => ReadError::Refused(MessageRefusal::from(refusal)),
        }
    }
}

impl From<FormError> for ReadError {
    ghost from_gives = { λ error e. e ≡ form_gives error };

    fn from(error: FormError) -> ReadError {
        match error {
            FormError::NoMemory => ReadError::NoMemory,
            FormError::TooLarge { todo } => ReadError::Refused(MessageRefusal {
                cause: MessageCause::LargeForm,
                todo: Some(todo),
                line: None,
            }),
        }
    }
}

/// The error of the to-do with this number, from 1, as an error of its message.
pub(crate) fn todo_gives(number: usize, error: TodoError) -> ReadError
    ensures { result ≡ todo_gives number error }
{
    match error {
        TodoError::NoMemory => ReadError::NoMemory,
        TodoError::Refused(refusal) => ReadError::Refused(of_todo(number, refusal)),
    }
}

fn of_todo(number: usize, refusal: TodoRefusal) -> MessageRefusal
    ensures { result ≡ of_todo number refusal }
{
    MessageRefusal {
        cause: MessageCause::Todo(refusal.cause),
        todo: Some(number),
        line: refusal.line,
    }
}
