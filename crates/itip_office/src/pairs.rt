//! Which running desks an office has.

use std::marker::Brand;

/// The pair of the running desk with each number. A function that is generic in it is called with [`Brand`], and the call picks the pairs.
/// This puts the pairs into the types of what crosses threads: of what comes out of a channel nothing but the type is known.
pub trait Pairs {
    ghost use Rattle.std.specs.Prelude.{ℕ, Option};
    ghost use Rattle.logbook.specs.Pages.{Book};

    ghost pair: { ℕ → Option Book };
}

impl Pairs for Brand {
    ghost use Rattle.std.specs.Prelude.{None};

    ghost pair = { λ desk. None };
}
