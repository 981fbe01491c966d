//! The watch, which is told what an office refused.

use itip_desk::Refusal;
use itip_view::MostRows;

/// Receives the refusals of a script, in addition to the output: those of jobs, in the order of their numbers, then those of lists, in the
/// order of desks. Nothing that is read or written depends on it.
pub trait Watch {
    /// The job with this number was refused.
    fn refused_job(&mut self, number: u64, refusal: Refusal);

    /// The list of the desk with this number was refused: it has too many rows, and `most` is the to-do that has the most of them.
    fn too_many_rows(&mut self, desk: u64, most: &MostRows);

    /// The script was refused as a whole.
    fn refused_script(&mut self, refusal: Refusal);
}

impl Watch for () {
    fn refused_job(&mut self, _number: u64, _refusal: Refusal) {}

    fn too_many_rows(&mut self, _desk: u64, _most: &MostRows) {}

    fn refused_script(&mut self, _refusal: Refusal) {}
}
