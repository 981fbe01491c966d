//! What a desk posts.
ghost use Rattle.std.specs.Prelude.{◌≡◌, [], IfOk, IsOk};

use crate::NoMemory;
use itip_desk::{Batch, write_delta};
use std::alloc::Global;
use std::marker::Model;

/// The bytes of a batch: reading them gives this batch, and is never refused. A packet holds the batch, and its bytes are written when
/// they are asked for.
#[derive(Debug, Drop)]
pub struct Packet {
    batch: Batch,
}

impl Model for Packet {
    ghost use Rattle.std.specs.Prelude.{List, ℕ};

    ghost Value = { List ℕ };

    ghost use Rattle.itip_desk.specs.DeltaFormat.{delta_octets};

    ghost view = { λ p. delta_octets p.batch };

    ghost use Rattle.itip_desk.specs.Octets.{AscendOctets};

    ghost invariant = { λ p. AscendOctets p.batch };
}

impl Packet {
    ghost use Rattle.itip_desk.specs.Octets.{AscendOctets};
    ghost use Rattle.itip_desk.specs.DeltaFormat.{delta_octets, IsDelta};

    /// The bytes of a batch. Doesn't allocate.
    pub(crate) fn of_batch(batch: Batch) -> Packet
        ensures { result ≡ delta_octets batch }
    {
        // No code: this tells the proof that the items ascend.
        batch.lawful();
        Packet { batch }
    }

    /// Returns the bytes, written by [`write_delta`](itip_desk::write_delta). If there are none, it doesn't fail.
    pub fn octets(&self, alloc: Global) -> Result<Vec<u8>, NoMemory>
        ensures octets { IfOk result (λ octets. octets.items ≡ self.now) }
        ensures delta { IsDelta self.now }
        ensures succeeds { self.now ≡ [] → IsOk result }
    {
        write_delta(alloc, &self.batch)
    }

    /// Returns the batch, which is what [`read_delta`](itip_desk::read_delta) reads from the bytes.
    pub fn batch(&self) -> &Batch
        ensures octets { self.now ≡ delta_octets result.now }
        ensures ascend { AscendOctets result.now }
    {
        &self.batch
    }
}
