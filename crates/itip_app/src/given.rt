//! The words and the moment that the program is given.
ghost use Rattle.std.specs.Prelude.{List, ℕ, Option, Result, Ok, Err, IfOk, IfErr, map};
ghost use Rattle.std.specs.String.{string_bytes};

use itip_moment::Stamp;
use itip_words::now;
use std::rt::{Clock, Env};
use std::{env, io};

/// Why the program has no words.
#[derive(Clone, Copy)]
pub(crate) enum NoWords {
    /// One of them is no text.
    NoText,
    /// An allocation failed.
    NoMemory,
}

/// What gives the program its words, and tells it the time. Generic code knows nothing of these relations, so a function that ensures one
/// must have asked by the method that gives it.
pub(crate) trait Gives: AllocGlobal + Env + Clock {
    ghost use Rattle.itip_app.specs.declared.given.NoWords.{NoWords};
    ghost use Rattle.itip_moment.specs.declared.stamp.Stamp.{Stamp};

    /// It gave these words, or this is why it gave none.
    ghost gives: { Self → Result (List (List ℕ)) NoWords → Type 0 };

    /// Its clock showed this moment, or none.
    ghost ticks: { Self → Option Stamp → Type 0 };

    /// The words of the command line.
    fn words(&self) -> Result<Vec<String>, NoWords>
        ensures given { IfOk result (λ words. gives self.now (Ok (map string_bytes words.items))) }
        ensures none { IfErr result (λ why. gives self.now (Err why)) };

    /// The moment of the clock, in UTC. `None` if it can't be read, or shows a time before 1970 or after the year 9999.
    fn moment(&self) -> Option<Stamp>
        ensures { ticks self.now result };
}

impl<R: AllocGlobal + Env + Clock> Gives for R {
    ghost gives = { λ _ _. Unit {0} };

    ghost ticks = { λ _ _. Unit {0} };

    fn words(&self) -> Result<Vec<String>, NoWords> {
        match env::args(self).map(|words| words.collect(self.alloc())) {
            Ok(Ok(words)) => Ok(words),
            Ok(Err(_)) => Err(NoWords::NoMemory),
            Err(error) if error.kind() == io::ErrorKind::OutOfMemory => Err(NoWords::NoMemory),
            Err(_) => Err(NoWords::NoText),
        }
    }

    fn moment(&self) -> Option<Stamp> {
        now(self)
    }
}
