//! Copies of a to-do's parts, each equal to the original.
ghost use Rattle.std.specs.Prelude.{◌≡◌, IfOk};

use crate::property::Property;
use crate::todo::Todo;
use crate::uid::Uid;
use itip_lines::{LineList, ListOf, NoMemory, TextList};
use itip_moment::Moment;

/// The times of a to-do, and its recurrence id.
#[derive(Drop)]
pub(crate) struct Times {
    pub rid: Option<Moment>,
    pub start: Option<Moment>,
    pub due: Option<Moment>,
}

fn copy_times(todo: &Todo) -> Result<Times, NoMemory>
    ensures { IfOk result (λ copy. copy ≡ record { rid = todo.now.rid; start = todo.now.start; due = todo.now.due }) }
{
    Ok(Times {
        rid: todo.rid.clone()?,
        start: todo.start.clone()?,
        due: todo.due.clone()?,
    })
}

/// What a to-do is about, and whom it concerns.
#[derive(Drop)]
pub(crate) struct Subject {
    pub summary: Option<Property>,
    pub organizer: Option<Property>,
    pub attendees: ListOf<Property>,
}

fn copy_subject(todo: &Todo) -> Result<Subject, NoMemory>
    ensures { IfOk result (λ copy. copy
        ≡ record { summary = todo.now.summary; organizer = todo.now.organizer; attendees = todo.now.attendees }) }
{
    Ok(Subject {
        summary: todo.summary.clone()?,
        organizer: todo.organizer.clone()?,
        attendees: todo.attendees.clone()?,
    })
}

/// Copies the UID, the times and the subject of a to-do.
pub(crate) fn copy_head(todo: &Todo) -> Result<(Uid, Times, Subject), NoMemory>
    ensures uid { IfOk result (λ copy. copy.0 ≡ todo.now.uid) }
    ensures times { IfOk result (λ copy. copy.1 ≡ record { rid = todo.now.rid; start = todo.now.start; due = todo.now.due }) }
    ensures subject { IfOk result (λ copy. copy.2
        ≡ record { summary = todo.now.summary; organizer = todo.now.organizer; attendees = todo.now.attendees }) }
{
    let uid = todo.uid.clone()?;
    let times = copy_times(todo)?;
    // An explicit call: an implicit drop would be proved anew, field by field and case by case.
    match copy_subject(todo) {
        Ok(subject) => Ok((uid, times, subject)),
        Err(refused) => {
            drop(times);
            Err(refused)
        }
    }
}

/// How a to-do recurs, and its lines of all other properties.
#[derive(Drop)]
pub(crate) struct Lists {
    pub rule: TextList,
    pub rdates: ListOf<Moment>,
    pub exdates: ListOf<Moment>,
    pub others: LineList,
}

pub(crate) fn copy_lists(todo: &Todo) -> Result<Lists, NoMemory>
    ensures { IfOk result (λ copy. copy
        ≡ record { rule = todo.now.rule; rdates = todo.now.rdates; exdates = todo.now.exdates; others = todo.now.others }) }
{
    Ok(Lists {
        rule: todo.rule.clone()?,
        rdates: todo.rdates.clone()?,
        exdates: todo.exdates.clone()?,
        others: todo.others.clone()?,
    })
}
