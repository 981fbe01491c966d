//! Items, and where they are told.
use itip_items::Item;

/// Where a message is.
#[derive(Clone, Copy, Debug, PartialEq, Eq)]
pub struct Place {
    /// The place of its source among the sources, from 0.
    pub source: usize,
    /// Its number among the messages of this source, from 1.
    pub message: u64,
}

/// An item, and the place of a message that tells it.
#[derive(Debug, Drop)]
pub struct ToldItem {
    pub place: Place,
    pub item: Item,
}
