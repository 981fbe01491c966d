//! Where desks are saved.
use itip_desk::Desk;
use itip_streams::StreamFault;

/// Where desks are saved, each under a name.
pub trait Shelf {
    /// Writes a desk by [`write_desk`](itip_desk::write_desk), and once it is stored durably replaces what has this name with it. On an
    /// error, what was there before is unchanged.
    fn save(&mut self, name: &str, desk: &Desk) -> Result<(), StreamFault>;
}
