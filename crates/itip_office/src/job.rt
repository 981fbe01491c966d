//! What an office is asked to do.
ghost use Rattle.std.specs.Prelude.{◌≡◌, ◌↔◌, IsTrue};

use itip_lines::Bytes;
use itip_view::Window;
use std::alloc::AllocError;

/// A job of an office, with its number.
#[derive(Debug, Drop)]
pub struct Job {
    pub number: u64,
    pub work: Work,
}

/// What a job asks for. Desks are numbered from 0; the number may be of a desk that isn't there.
#[derive(Debug, Drop)]
pub enum Work {
    /// The desk takes a message.
    Text { desk: u64, bytes: Bytes },
    /// All that one desk keeps is brought to another.
    Carry { from: u64, to: u64 },
    /// A look at the task list of the desk in a window.
    Look { desk: u64, window: Window },
}

impl Job {
    /// Whether two jobs are the same.
    pub(crate) fn is_same(&self, other: &Job) -> bool
        ensures { IsTrue result → self.now ≡ other.now }
    {
        self.number == other.number && self.work.is_same(&other.work)
    }

    pub(crate) fn desk(&self) -> u64
        ensures { result ≡ desk_of self.now.work }
    {
        match self.work {
            Work::Text { desk, .. } => desk,
            Work::Carry { to, .. } => to,
            Work::Look { desk, .. } => desk,
        }
    }

    /// Whether the desks that the job names are there, if there are `desks` of them.
    pub(crate) fn is_within(&self, desks: u64) -> bool
        ensures { IsTrue result ↔ AreThere desks self.now.work }
    {
        match self.work {
            Work::Text { desk, .. } => desk < desks,
            Work::Carry { from, to } => from < desks && to < desks,
            Work::Look { desk, .. } => desk < desks,
        }
    }

    /// Whether the job reads a running desk.
    pub(crate) fn needs_pass(&self) -> bool {
        !self.work.is_text()
    }

    ghost use Rattle.itip_office.specs.Texts.{desk_of, AreThere};
}

impl Work {
    ghost use Rattle.itip_office.specs.Texts.{IsText};

    /// Whether it is a text.
    pub(crate) fn is_text(&self) -> bool
        ensures { IsTrue result → IsText self.now }
    {
        matches!(self, Work::Text { .. })
    }

    fn is_same(&self, other: &Work) -> bool
        ensures { IsTrue result → self.now ≡ other.now }
    {
        match (self, other) {
            (
                Work::Text { desk, bytes },
                Work::Text {
                    desk: at,
                    bytes: others,
                },
            ) => { desk == at && bytes == others }
            (
                Work::Carry { from, to },
                Work::Carry {
                    from: start,
                    to: end,
                },
            ) => { from == start && to == end }
            (
                Work::Look { desk, window },
                Work::Look {
                    desk: at,
                    window: other,
                },
            ) => { desk == at && is_same_window(*window, *other) }
            _ => false,
        }
    }
}

fn is_same_window(one: Window, other: Window) -> bool
    ensures { IsTrue result → one ≡ other }
{
    has_same_days(one, other)
}

fn has_same_days(one: Window, other: Window) -> bool
    ensures { IsTrue result → (one.from ≡ other.from) × (one.to ≡ other.to) }
{
    one == other
}

impl Clone for Job {
    ghost is_clone = { λ job copy. copy ≡ job };

    fn clone(&self) -> Result<Job, AllocError> {
        let work = self.work.clone()?;
        Ok(Job {
            number: self.number,
            work,
        })
    }
}

impl Clone for Work {
    ghost is_clone = { λ work copy. copy ≡ work };

    fn clone(&self) -> Result<Work, AllocError> {
        match self {
            Work::Text { desk, bytes } => {
                let bytes = bytes.clone()?;
                Ok(Work::Text { desk: *desk, bytes })
            }
            Work::Carry { from, to } => Ok(Work::Carry {
                from: *from,
                to: *to,
            }),
            Work::Look { desk, window } => Ok(Work::Look {
                desk: *desk,
                window: *window,
            }),
        }
    }
}
