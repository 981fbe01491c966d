//! Where the octets of a line are stored.
ghost use Rattle.std.specs.Prelude.{◌≡◌, IfOk};
ghost use Rattle.itip_lines.specs.SeenOctets.{octets_of};

use std::alloc::{AllocError, Global};

/// The octets of a line: borrowed from the text that is read, or owned.
#[derive(Drop)]
pub(crate) enum LineOctets<'a> {
    InText(&'a [u8]),
    Own(Vec<u8>),
}

impl<'a> LineOctets<'a> {
    pub(crate) fn as_slice(&self) -> &[u8]
        ensures { result.now ≡ octets_of self.now }
    {
        match self {
            LineOctets::InText(octets) => octets,
            LineOctets::Own(octets) => octets.as_slice(),
        }
    }

    /// The same octets, owned.
    pub(crate) fn into_own(self, alloc: Global) -> Result<LineOctets<'static>, AllocError>
        ensures { IfOk result (λ own. octets_of own ≡ octets_of self.entry) }
    {
        match self {
            LineOctets::InText(octets) => Ok(LineOctets::Own(octets.to_vec(alloc)?)),
            LineOctets::Own(octets) => Ok(LineOctets::Own(octets)),
        }
    }
}
