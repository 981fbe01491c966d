//! Who is told how far reading has come, and what was refused.
use crate::refusals::Refusals;
use itip_view::MostRows;

/// What is told of sources besides the output. Nothing that is read or written depends on it.
///
/// If two lists of sources are read, as for [`news`](crate::news), the places of the second list follow those of the first.
pub trait Watch {
    /// The source at this place, counted from 0, is read from now on.
    fn opens(&mut self, source: usize);

    /// How many messages were heard or refused so far, and how many bytes were read, of all sources.
    fn read(&mut self, messages: u64, octets: u64);

    /// These messages were refused, if there are any. Their sources come after `before` others.
    fn refused(&mut self, before: usize, refusals: &Refusals);

    /// No message was refused, but there were too many rows; this to-do has the most of them.
    fn too_many_rows(&mut self, most: &MostRows);
}

impl Watch for () {
    fn opens(&mut self, _source: usize) {}

    fn read(&mut self, _messages: u64, _octets: u64) {}

    fn refused(&mut self, _before: usize, _refusals: &Refusals) {}

    fn too_many_rows(&mut self, _most: &MostRows) {}
}
