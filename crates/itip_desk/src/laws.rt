//! The laws of convergence, of deltas and of a desk's file. Each function is empty: its contract is the law.
ghost use Rattle.std.specs.Prelude.{◌≡◌, ◌⊎◌, List, ◌++◌, ℕ};
ghost use Rattle.std.specs.List.{Contains};
ghost use Rattle.itip_todo.specs.Limits.{before_ranges};
ghost use Rattle.itip_items.specs.declared.item.Item.{Item};
ghost use Rattle.itip_state.specs.Kept.{AreKept, SameItems, IsItemsOf};
ghost use Rattle.itip_state.specs.Order.{IsBelow};
ghost use Rattle.itip_message.specs.Several.{ReadsMessagesWithin};
ghost use Rattle.itip_message.specs.declared.error.MessageRefusal.{MessageRefusal};
ghost use Rattle.itip_desk.specs.Octets.{AscendOctets};
ghost use Rattle.itip_desk.specs.DeltaFormat.{delta_octets, ReadsDelta, RefusesDelta};
ghost use Rattle.itip_desk.specs.HeardSteps.{heard, AreHeard};
ghost use Rattle.itip_desk.specs.Ticks.{TellsAfter};
ghost use Rattle.itip_desk.specs.Desk.{Shown, IsDeskOf, IsDeltaOf};
ghost use Rattle.itip_desk.specs.DeskFile.{TellsDesk, AreAlike, RefusesFile};
ghost use Rattle.itip_desk.specs.declared.refusal.FileRefusal.{FileRefusal};

/// Desks that have heard the same items keep the same items, however these arrived: late, repeated or in any order (our own rule).
pub fn desks_converge()
    ensures { (steps others : List (List Item)) (start beginning : ℕ) (desk other : Shown) →
        IsDeskOf steps start desk → IsDeskOf others beginning other →
        SameItems (heard steps) (heard others) → SameItems desk.kept other.kept }
{}

/// A batch that a desk has heard, as one step or each of its items in some step, is below what the desk keeps: hearing it again adds
/// nothing, so `take` doesn't refuse it (our own rule).
pub fn heard_before_is_below()
    ensures step { (steps : List (List Item)) (start : ℕ) (desk : Shown) (batch : List Item) →
        IsDeskOf steps start desk → Contains steps batch → IsBelow batch desk.kept }
    ensures items { (steps : List (List Item)) (start : ℕ) (desk : Shown) (batch : List Item) →
        IsDeskOf steps start desk → AreHeard batch steps → IsBelow batch desk.kept }
{}

/// An older state of a desk, joined with the desk's delta since then, is what the desk keeps now. The same holds with everything that
/// the desk has heard of the UIDs that moved since then in place of the delta (our own rule).
pub fn delta_brings_up_to_date()
    ensures kept { (steps more : List (List Item)) (start : ℕ) (older newer : Shown) (delta : List Item) →
        IsDeskOf steps start older → IsDeskOf (steps ++ more) start newer → IsDeltaOf newer older.tick delta →
        AreKept newer.kept (older.kept ++ delta) }
    ensures told { (steps more : List (List Item)) (start : ℕ) (older newer : Shown) (told : List Item) →
        IsDeskOf steps start older → IsDeskOf (steps ++ more) start newer → TellsAfter start (steps ++ more) older.tick told →
        AreKept newer.kept (older.kept ++ told) }
{}

/// What is written of a batch is read back as this batch.
pub fn delta_read_again()
    ensures { (batch : List Item) → AscendOctets batch → ReadsDelta (delta_octets batch) batch }
{}

/// What was read as a delta before instances had ranges is read as a delta with the same items. Back then, each message was read within
/// narrower limits (our own rule).
pub fn deltas_are_read_as_before()
    ensures { (bytes : List ℕ) (given : List (List Item)) (batch : List Item) →
        ReadsMessagesWithin before_ranges bytes given → IsItemsOf batch (heard given) → ReadsDelta bytes batch }
{}

/// Bytes are read as one batch or refused for one cause, and never both.
pub fn one_delta()
    ensures some { (bytes : List ℕ)
        → ((batch : List Item) × ReadsDelta bytes batch) ⊎ ((refusal : MessageRefusal) × RefusesDelta bytes refusal) }
    ensures batch { (bytes : List ℕ) (batch other : List Item) → ReadsDelta bytes batch → ReadsDelta bytes other → batch ≡ other }
    ensures refusal { (bytes : List ℕ) (refusal other : MessageRefusal)
        → RefusesDelta bytes refusal → RefusesDelta bytes other → refusal ≡ other }
    ensures apart { (bytes : List ℕ) (batch : List Item) (refusal : MessageRefusal)
        → ReadsDelta bytes batch → RefusesDelta bytes refusal → ⊥ }
{}

/// The file of a desk is read as that desk: as one that keeps the same items, is at the same tick and has the same last moves, so
/// that it is the desk of the same steps and has the same delta since every tick (our own rule). A reader of messages reads the file
/// as the compaction of what the desk keeps.
pub fn desk_read_again()
    ensures alike { (octets : List ℕ) (desk other : Shown) → TellsDesk octets desk → TellsDesk octets other → AreAlike desk other }
    ensures apart { (octets : List ℕ) (desk : Shown) (refusal : FileRefusal) → TellsDesk octets desk → RefusesFile octets refusal → ⊥ }
    ensures steps { (steps : List (List Item)) (start : ℕ) (desk other : Shown) →
        AreAlike desk other → IsDeskOf steps start desk → IsDeskOf steps start other }
    ensures delta { (desk other : Shown) (since : ℕ) (delta : List Item) →
        AreAlike desk other → IsDeltaOf desk since delta → IsDeltaOf other since delta }
    ensures messages { (octets : List ℕ) (desk : Shown) (batch : List Item) →
        TellsDesk octets desk → AscendOctets batch → SameItems batch desk.kept → ReadsDelta octets batch }
{}
