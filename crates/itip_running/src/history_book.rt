//! The book of a desk's history: its rule, and the step that adds what a call of `publish` was to show. It exists only in the proofs.

use crate::history::History;
use logbook::{Gain, Plain, Play, Rule};
use std::snapshot::Snapshot;

/// The rule of the history's book: its first word is the length of the history.
pub(crate) struct Law;

impl Rule<History, u64> for Law {
    ghost use Rattle.std.specs.Prelude.{[]};
    ghost use base.Fml.{ftrue};
    ghost use Rattle.itip_running.specs.History.{IsCounted};

    ghost holds = { λ cells log. IsCounted cells log };

    ghost first = { [] };

    ghost hinted = { λ n log. Unit {0} };

    ghost shows = { λ log. [] };

    ghost keeps = { λ names log. ftrue };

    ghost moves = { λ ask before after answer. Unit {0} };
}

/// Adding to the history gains nothing.
pub(crate) struct Nothing;

impl Gain<History, u64> for Nothing {
    ghost use base.Fml.{ftrue};

    ghost after = { λ names about answer. ftrue };
}

/// The step that adds a group of batches.
pub(crate) struct Add;

impl Play<History, u64> for Add {
    ghost use Rattle.itip_running.specs.History.{Adds};

    ghost then = { Adds };
}

impl Plain<Snapshot<History>, History, u64> for Add {
    ghost use Rattle.std.specs.Prelude.{None};

    ghost ask = { λ s. s.value };

    ghost state = { λ s. None };
}
