//! An item.
ghost use Rattle.itip_items.specs.Items.{IsItem};

use crate::key::Key;
use crate::kind::Kind;
use crate::octets::Octets;
use itip_lines::NoMemory;
use itip_moment::Stamp;
use itip_todo::Todo;

/// What one to-do of a message says to a desk.
///
/// Every item is one that a message gives: its key, kind, sequences and stamp are those of its to-do, and its octets
/// are the canonical ones of that to-do under the method of its kind, within the limits.
#[derive(Debug, Drop)]
pub struct Item {
    /// What the item speaks of.
    pub key: Key,
    /// The item's own SEQUENCE.
    pub own: u32,
    /// The effective sequence (our own rule).
    pub eff: u32,
    /// DTSTAMP.
    pub stamp: Stamp,
    /// The canonical octets, at most 262,144. The items of one to-do's attendees share those up to ORGANIZER.
    pub bytes: Octets,
    /// The to-do in canonical form.
    pub todo: Todo,
    pub kind: Kind,
    pub ghost canonical: { ∥ IsItem key own eff stamp bytes todo kind ∥₁ },
}

impl Clone for Item {
    ghost use Rattle.std.specs.Prelude.{◌≡◌};

    ghost is_clone = { λ item copy. copy ≡ item };

    fn clone(&self) -> Result<Item, NoMemory> {
        let bytes = self.bytes.clone()?;
        let key = self.key.clone()?;
        match self.todo.clone() {
            Ok(todo) => Ok(Item {
                key,
                own: self.own,
                eff: self.eff,
                stamp: self.stamp,
                bytes,
                todo,
                kind: self.kind,
            }),
            Err(refused) => {
                // An explicit call: an implicit drop would be proved anew, field by field and case by case.
                drop(key);
                Err(refused)
            }
        }
    }
}
