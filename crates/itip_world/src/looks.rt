//! The answers to the commands that ask a desk for its list, its entries, reports, messages to send again or sequences, and leave it
//! unchanged. A script and a stream give the same answers.
ghost use Rattle.std.specs.Prelude.{◌≡◌, ◌≢◌, IfOk, IfErr, OnErr};
ghost use Rattle.std.specs.Option.{option_map};
ghost use Rattle.itip_view.specs.ByUid.{AreAsked};
ghost use Rattle.itip_view.specs.Showing.{Shows};
ghost use Rattle.itip_report.specs.Named.{AreRowsFor};
ghost use Rattle.itip_report.specs.Resending.{IsResendOf};
ghost use Rattle.itip_report.specs.NextSequence.{IsNext};
ghost use Rattle.itip_script.specs.Orders.{order_of, lists, lists_for, counts, reports, resends, asks_next};
ghost use Rattle.itip_world.specs.Running.{answer_of, IsTold};
ghost use Rattle.itip_world.specs.Looking.{Looks, LookReplies, LookFront, OnlyAsks, AsksBriefly};

use crate::answer::Answer;
use crate::watch::Refused;
use itip_desk::{Desk, Refusal, write_listed};
use itip_report::{ReportName, next_seq, no_rows, report_lines};
use itip_script::Command;
use itip_state::State;
use itip_streams::StreamFault;
use itip_todo::Uid;
use itip_view::{MostRows, RowCount, RowsByUid, Window};
use std::alloc::{AllocError, Global};
use std::io::Write;

/// Desks that are looked at, and the window of lists.
#[derive(Clone, Copy)]
pub(crate) struct Look<'a> {
    pub(crate) alloc: Global,
    pub(crate) desks: &'a [Desk],
    pub(crate) window: Window,
}

impl<'a> Look<'a> {
    ghost use Rattle.std.specs.Prelude.{◌≤◌, Some, MatchOption, length, slice_get};
    ghost use Rattle.std.specs.Option.{option_copied};

    /// Answers a command that only asks a desk, and returns why it was refused, if it was. The answer is appended to the bytes in `kept`,
    /// which are to be written; if it is a list, they are written once there are 65,536 or more. On an error, a prefix of `kept` has been
    /// written, or of `kept` and the answer.
    pub(crate) fn reply<W: Write>(
        &self,
        command: &Command<'_>,
        writer: &mut W,
        kept: &mut Vec<u8>,
    ) -> Result<Option<Refused>, StreamFault>
        requires { OnlyAsks (order_of command.now) }
        ensures replies { IfOk result (LookReplies self.now.window (order_of command.now) self.now.desks.now
            (W.contents writer.old) (W.contents writer.new) kept.old.items kept.new.items) }
        ensures front { OnErr result (LookFront self.now.window (order_of command.now) self.now.desks.now
            (W.contents writer.old) (W.contents writer.new) kept.old.items) }
        ensures fault { IfErr result (λ fault. fault ≢ StreamFault.Read) }
    {
        match command {
            Command::List { desk } => self.list(*desk, writer, kept),
            Command::Mine { desk, address } => self.list_for(*desk, address, writer, kept),
            _ => told(self.answer(command)?, kept),
        }
    }

    /// Answers a command that asks a desk, but not for a list.
    fn answer(&self, command: &Command<'_>) -> Result<Answer, StreamFault>
        requires { AsksBriefly (order_of command.now) }
        ensures answers { IfOk result (λ answer. Looks self.now.window self.now.desks.now (order_of command.now) (answer_of answer)) }
        ensures fault { IfErr result (λ fault. fault ≡ StreamFault.Memory) }
    {
        match command {
            Command::Entries { desk } => Ok(self.entries(*desk)),
            Command::Report { desk, name } => self.report(*desk, *name),
            Command::Resend { desk, uid } => self.resend(*desk, uid),
            Command::Next { desk, uid } => self.next(*desk, uid),
            _ => unreachable!(),
        }
    }

    /// The desk with this number, if there is one.
    pub(crate) fn desk(&self, desk: u64) -> Option<&Desk>
        ensures { MatchOption (option_copied result) (length self.now.desks.now ≤ desk)
            (λ shown. slice_get self.now.desks.now desk ≡ Some shown) }
    {
        self.desks.get(desk as usize)
    }

    /// Writes the list of a desk.
    fn list<W: Write>(
        &self,
        desk: u64,
        writer: &mut W,
        kept: &mut Vec<u8>,
    ) -> Result<Option<Refused>, StreamFault>
        ensures replies { IfOk result (LookReplies self.now.window (lists desk) self.now.desks.now
            (W.contents writer.old) (W.contents writer.new) kept.old.items kept.new.items) }
        ensures front { OnErr result (LookFront self.now.window (lists desk) self.now.desks.now
            (W.contents writer.old) (W.contents writer.new) kept.old.items) }
        ensures fault { IfErr result (λ fault. fault ≢ StreamFault.Read) }
    {
        let Some(listed) = self.desk(desk) else {
            return told(Answer::Refused(Refusal::NoDesk(desk)), kept);
        };
        let rows = listed.rows(self.window)?;
        let most = write_listed("list", desk, rows, writer, kept)?;
        Ok(refused_for(most))
    }

    /// Writes the list of a desk, with the rows that show the attendee with this address.
    fn list_for<W: Write>(
        &self,
        desk: u64,
        address: &[u8],
        writer: &mut W,
        kept: &mut Vec<u8>,
    ) -> Result<Option<Refused>, StreamFault>
        ensures replies { IfOk result (LookReplies self.now.window (lists_for desk address.now) self.now.desks.now
            (W.contents writer.old) (W.contents writer.new) kept.old.items kept.new.items) }
        ensures front { OnErr result (LookFront self.now.window (lists_for desk address.now) self.now.desks.now
            (W.contents writer.old) (W.contents writer.new) kept.old.items) }
        ensures fault { IfErr result (λ fault. fault ≢ StreamFault.Read) }
    {
        let Some(listed) = self.desk(desk) else {
            return told(Answer::Refused(Refusal::NoDesk(desk)), kept);
        };
        let rows = rows_for(self.alloc, listed, self.window, address)?;
        let most = write_listed("mine", desk, rows, writer, kept)?;
        Ok(refused_for(most))
    }

    /// Answers with the number of items that a desk keeps.
    fn entries(&self, desk: u64) -> Answer
        ensures { Looks self.now.window self.now.desks.now (counts desk) (answer_of result) }
    {
        match self.desk(desk) {
            Some(asked) => Answer::Counted {
                desk,
                entries: asked.entries(),
            },
            None => Answer::Refused(Refusal::NoDesk(desk)),
        }
    }

    /// Answers with the lines of a report of a desk.
    fn report(&self, desk: u64, name: ReportName) -> Result<Answer, StreamFault>
        ensures answers { IfOk result (λ answer. Looks self.now.window self.now.desks.now (reports desk name) (answer_of answer)) }
        ensures fault { IfErr result (λ fault. fault ≡ StreamFault.Memory) }
    {
        let Some(asked) = self.desk(desk) else {
            return Ok(Answer::Refused(Refusal::NoDesk(desk)));
        };
        let rows = report_rows(self.alloc, asked, self.window, name)?;
        match rows.count()? {
            RowCount::Few(_) => {
                let lines = report_lines(self.alloc, asked.state(), name, rows)?;
                Ok(Answer::Reported { desk, name, lines })
            }
            RowCount::TooMany(most) => Ok(Answer::TooMany(most)),
        }
    }

    /// Answers with the messages that a desk sends again for a UID.
    fn resend(&self, desk: u64, uid: &[u8]) -> Result<Answer, StreamFault>
        ensures answers { IfOk result (λ answer. Looks self.now.window self.now.desks.now (resends desk uid.now) (answer_of answer)) }
        ensures fault { IfErr result (λ fault. fault ≡ StreamFault.Memory) }
    {
        let Some(asked) = self.desk(desk) else {
            return Ok(Answer::Refused(Refusal::NoDesk(desk)));
        };
        let messages = messages_of(self.alloc, asked.state(), uid)?;
        Ok(Answer::Resent { desk, messages })
    }

    /// Answers with the next sequence of a UID at a desk.
    fn next(&self, desk: u64, uid: &[u8]) -> Result<Answer, StreamFault>
        ensures answers { IfOk result (λ answer. Looks self.now.window self.now.desks.now (asks_next desk uid.now) (answer_of answer)) }
        ensures fault { IfErr result (λ fault. fault ≡ StreamFault.Memory) }
    {
        let Some(asked) = self.desk(desk) else {
            return Ok(Answer::Refused(Refusal::NoDesk(desk)));
        };
        let sequence = sequence_of(self.alloc, asked.state(), uid)?;
        Ok(Answer::Next { desk, sequence })
    }
}

/// Appends an answer to the bytes in `kept`, which are to be written, and returns why the command was refused, if it was.
pub(crate) fn told(answer: Answer, kept: &mut Vec<u8>) -> Result<Option<Refused>, StreamFault>
    ensures told { IfOk result (IsTold (answer_of answer) kept.old.items kept.new.items) }
    ensures fault { IfErr result (λ fault. fault ≢ StreamFault.Read) }
{
    answer.append(kept)?;
    Ok(answer.refused())
}

/// Why a command is refused, if there are too many rows, of which this to-do has the most.
fn refused_for(most: Option<MostRows>) -> Option<Refused>
    ensures { option_map (λ r. r.refusal) result ≡ option_map (λ _. Refusal.TooManyRows) most }
{
    Some(Refused::of_most(most?))
}

/// The rows of a desk that a report is about: none if it isn't about rows.
fn report_rows(
    alloc: Global,
    desk: &Desk,
    window: Window,
    name: ReportName,
) -> Result<RowsByUid<'_, '_>, AllocError>
    ensures { IfOk result (AreRowsFor name desk.now.kept window) }
{
    if name.is_of_rows() {
        desk.rows(window)
    } else {
        no_rows(alloc, desk.state(), window)
    }
}

// The address of an attendee is UTF-8, so no row shows one that isn't.
fn rows_for<'a>(
    alloc: Global,
    desk: &'a Desk,
    window: Window,
    address: &'a [u8],
) -> Result<RowsByUid<'a, 'a>, AllocError>
    ensures { IfOk result (AreAsked (Shows address.now) desk.now.kept window) }
{
    match str::from_utf8(address) {
        Ok(text) => desk.rows_for(window, text),
        Err(_) => no_rows(alloc, desk.state(), window),
    }
}

// The UID of an item is UTF-8, so bytes that aren't name no to-do.
fn messages_of(alloc: Global, state: &State, uid: &[u8]) -> Result<Option<Vec<u8>>, AllocError>
    ensures { IfOk result (λ messages. IsResendOf state.now uid.now (option_map (λ bytes. bytes.items) messages)) }
{
    match str::from_utf8(uid) {
        Ok(text) => itip_report::resend(alloc, state, &Uid::copy(alloc, text)?),
        Err(_) => Ok(None),
    }
}

// The UID of an item is UTF-8, so bytes that aren't name no to-do, and no sequence was used for it.
fn sequence_of(alloc: Global, state: &State, uid: &[u8]) -> Result<Option<u32>, AllocError>
    ensures { IfOk result (λ sequence. IsNext state.now uid.now sequence) }
{
    match str::from_utf8(uid) {
        Ok(text) => Ok(next_seq(state, &Uid::copy(alloc, text)?)),
        Err(_) => Ok(Some(0)),
    }
}
