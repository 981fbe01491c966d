//! The outcome of a job.

use itip_desk::Refusal;

/// What came of a job.
#[derive(Debug, Drop)]
pub enum Outcome {
    /// The desk took the text, which has `items` different items.
    Took { desk: u64, items: usize },
    /// `items` items were brought from one desk to another.
    Carried { from: u64, to: u64, items: usize },
    /// The task list of a prefix, perhaps empty, of the batches that the keeper of the desk published.
    Looked { text: Vec<u8> },
    /// The job was refused: its text is no message (1 to 15), its list has more than 100,000 rows (31), or a desk that it names isn't there
    /// (50).
    Refused(Refusal),
}

impl Outcome {
    ghost use Rattle.std.specs.Prelude.{◌≡◌};
    ghost use Rattle.itip_office.specs.Answers.{refusal_of};

    /// Why the job was refused, if it was.
    pub fn refusal(&self) -> Option<Refusal>
        ensures { result ≡ refusal_of self.now }
    {
        match self {
            Outcome::Refused(refusal) => Some(*refusal),
            _ => None,
        }
    }
}
