//! A list of batches that takes up no bytes.
ghost use Rattle.std.specs.Prelude.{◌≡◌, [], ◌∷◌, ◌++◌};

use itip_desk::Batch;
use logbook::{Opening, Rule, Seen, Start};
use std::marker::Model;
use std::snapshot::Snapshot;

/// The rule of a book that may hold anything.
pub(crate) struct Free;

impl Rule<Batch, u64> for Free {
    ghost use Rattle.std.specs.Prelude.{[]};
    ghost use base.Fml.{ftrue};

    ghost holds = { λ cells log. Unit {0} };

    ghost first = { [] };

    ghost hinted = { λ n log. Unit {0} };

    ghost shows = { λ log. [] };

    ghost keeps = { λ names log. ftrue };

    ghost moves = { λ ask before after answer. Unit {0} };
}

/// A list of batches, as clauses see it.
#[derive(Drop)]
pub(crate) struct History {
    seen: Seen<Batch, u64, Free>,
}

impl Model for History {
    ghost use Rattle.std.specs.Prelude.{List};
    ghost use Rattle.std.specs.Coded.{coded_list};
    ghost use Rattle.itip_items.specs.declared.item.Item.{Item};
    ghost use Rattle.itip_items.specs.contracts.item.Item as item;

    ghost Value = { List (List Item) };

    ghost coded = { coded_list (coded_list item.the_row.coded) };

    ghost view = { λ h. h.seen.log };
}

/// A list, and a batch to append to it.
#[derive(Drop)]
pub(crate) struct OneMore {
    before: Snapshot<History>,
    batch: Snapshot<Batch>,
}

struct Nil;

impl Opening<u64, Batch> for Nil {
    ghost use Rattle.std.specs.Prelude.{[]};

    ghost log = { λ n x. [] };
}

struct Push;

impl Opening<OneMore, Batch> for Push {
    ghost use Rattle.std.specs.Prelude.{[], ◌∷◌, ◌++◌};

    ghost log = { λ n x. x.before.value ++ x.batch.value ∷ [] };
}

impl History {
    /// The empty list.
    pub(crate) fn empty() -> History
        ensures { result ≡ [] }
    {
        let (seen, _pens) = Seen::open_row::<u64, Nil>(&0, Start::alone(), 0);
        History { seen }
    }

    /// The list with one more batch.
    pub(crate) fn followed_by(&self, batch: &Batch) -> History
        ensures { result ≡ self.now ++ batch.now ∷ [] }
    {
        let more = OneMore {
            before: Snapshot::of(self),
            batch: Snapshot::of(batch),
        };
        let (seen, _pens) = Seen::open_row::<OneMore, Push>(&more, Start::alone(), 0);
        History { seen }
    }
}
