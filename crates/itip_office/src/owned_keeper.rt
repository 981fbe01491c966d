//! What the keeper of a desk owns.

use itip_desk::Desk;
use itip_running::{Keeper, meet};
use std::sync::Wait;

/// A desk that takes only texts; if jobs look or carry, also a running desk, which shows everything that is merged; and the handle by which
/// the keeper waits. Dropping it takes the pair apart.
pub(crate) struct OwnedKeeper<R: AllocGlobal + Wait + Copy> {
    pub(crate) texts: Desk,
    pub(crate) shown: Option<Keeper>,
    pub(crate) rt: R,
}

impl<R: AllocGlobal + Wait + Copy> OwnedKeeper<R> {
    ghost use Rattle.std.specs.Prelude.{◌≡◌};

    pub(crate) fn into_parts(self) -> (Desk, Option<Keeper>, R)
        ensures texts { result.0 ≡ self.texts }
        ensures shown { result.1 ≡ self.shown }
    {
        let Self { texts, shown, rt } = self;
        (texts, shown, rt)
    }

    /// Takes the pair apart, and returns the desk of texts.
    pub(crate) fn into_texts(self) -> Desk
        ensures { result ≡ self.texts }
    {
        let (texts, shown, rt) = self.into_parts();
        close(&rt, shown);
        texts
    }
}

impl<R: AllocGlobal + Wait + Copy> Drop for OwnedKeeper<R> {
    fn drop(self) {
        let Self {
            texts: _,
            shown,
            rt,
        } = self;
        close(&rt, shown);
    }
}

/// Takes a pair apart, if there is one.
pub(crate) fn close<R: AllocGlobal + Wait>(rt: &R, shown: Option<Keeper>) {
    match shown {
        Some(keeper) => {
            let _ = meet(rt, keeper, Vec::new(rt.alloc()));
        }
        None => {}
    }
}
