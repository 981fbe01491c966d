//! A pass that lists while its keeper publishes.

use itip_running::Pass;
use itip_view::Window;

/// How often a pass lists at most while its keeper publishes.
const LOOKS: u64 = 1_000_000;

/// A pass, and whether each list so far was that of a prefix of the batches, none shorter than the one before.
#[derive(Drop)]
pub(crate) struct Watch {
    pass: Pass,
    is_right: bool,
}

impl Watch {
    pub(crate) fn new(pass: Pass) -> Watch {
        Watch {
            pass,
            is_right: true,
        }
    }

    /// Lists without a pause, at most [`LOOKS`] times, until all is seen or a list is wrong.
    pub(crate) fn look_on(&mut self, lists: &[Vec<u8>], window: Window) {
        for _ in 0..LOOKS {
            if self.has_seen_all(lists) || !self.is_right {
                return;
            }
            self.look(lists, window);
        }
    }

    /// Lists once.
    fn look(&mut self, lists: &[Vec<u8>], window: Window) {
        let before = self.pass.seen();
        self.is_right = match self.pass.list(window) {
            Ok(list) => before <= self.pass.seen() && self.is_seen(lists, &list),
            Err(_) => false,
        };
    }

    /// Whether this is the list of as many batches as the pass has seen.
    fn is_seen(&self, lists: &[Vec<u8>], list: &[u8]) -> bool {
        match lists.get(self.pass.seen() as usize) {
            Some(wanted) => wanted.as_slice() == list,
            None => false,
        }
    }

    fn has_seen_all(&self, lists: &[Vec<u8>]) -> bool {
        self.pass.seen().saturating_add(1) == lists.len() as u64
    }

    /// Whether all was right, and the next list, once nothing more is published, is that of all batches.
    pub(crate) fn ends_well(&mut self, lists: &[Vec<u8>], window: Window) -> bool {
        if self.is_right {
            self.look(lists, window);
        }
        self.is_right && self.has_seen_all(lists)
    }
}
