//! The rule of the pair.

use crate::published::{KnownHistory, Op, Published};
use atomic_table::{Join, Split};
use crossbeam_utils::rule::{Outcome, Protocol};
use left_right::reader::{Reader, Reading};
use left_right::writer::Writer;

/// The batches of the value are those of its groups, and every seat that knows a history knows this one.
pub(crate) struct Ties;

impl Protocol<Published, KnownHistory> for Ties {
    ghost use Rattle.std.specs.Prelude.{false};
    ghost use Rattle.itip_running.specs.Pair.{Tied};

    ghost holds = { Tied };

    ghost first = { record { known = false; number = 0; log_name = 0; cells_name = 0 } };
}

/// A look at the value, or its exchange.
pub(crate) struct Sees;

impl Outcome<Published, KnownHistory> for Sees {
    ghost use Rattle.itip_running.specs.Pair.{Sights};

    ghost then = { Sights };
}

/// A reader of the pair.
pub(crate) type PublishedReader = Reader<Published, KnownHistory, Ties>;

/// An open read.
pub(crate) type PublishedReading = Reading<Published, KnownHistory, Ties>;

/// The writer of the pair.
pub(crate) type PublishedWriter = Writer<Published, Op, KnownHistory, Ties>;

/// Tells a reader what the keeper knows.
pub(crate) struct Tells;

impl Split<KnownHistory> for Tells {
    ghost left = { λ v. v };

    ghost right = { λ v. v };
}

impl Join<KnownHistory> for Tells {
    ghost use Rattle.std.specs.Prelude.{false};

    ghost both = { λ v w. w };

    ghost spent = { record { known = false; number = 0; log_name = 0; cells_name = 0 } };
}
