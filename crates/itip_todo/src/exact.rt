//! UIDs as keys of joined maps.
ghost use Rattle.std.proofs.lemmas.Map.Lookups.{exact_bytes};

use crate::Uid;
use itip_join::Exact;
use itip_lines::NoMemory;

impl Exact for Uid {
    ghost exact = { exact_bytes };

    fn copy(&self) -> Result<Uid, NoMemory> {
        self.clone()
    }
}
