//! The laws of compactions, lists, reports and news. They need no code: each function is empty.
ghost use Rattle.std.specs.Prelude.{◌≡◌, ◌≢◌, ◌∷◌, ◌++◌, [], ℕ, Bool, false, List};
ghost use Rattle.std.specs.List.{concat};
ghost use Rattle.itip_items.specs.declared.item.Item.{Item};
ghost use Rattle.itip_view.specs.Blocks.{Block, AreBlocksWhere, AreMerged};
ghost use Rattle.itip_view.specs.ListText.{list_text};
ghost use Rattle.itip_view.specs.Wanting.{Wants};
ghost use Rattle.itip_view.specs.declared.row.Row.{Row};
ghost use Rattle.itip_view.specs.declared.wanted.Wanted.{Wanted};
ghost use Rattle.itip_view.specs.declared.window.Window.{Window};
ghost use Rattle.itip_report.specs.declared.report_name.ReportName.{ReportName};
ghost use Rattle.itip_desk.specs.DeltaFormat.{delta_octets};
ghost use Rattle.itip_inbox.specs.Compaction.{IsCompaction, AreCompactions, IsPartedInto, all_inputs};
ghost use Rattle.itip_inbox.specs.Compaction.{HaveSameMessages, TellsItem, TellSameItems};
ghost use Rattle.itip_inbox.specs.Gaps.{IsPartedInGaps, HaveShortMessages};
ghost use Rattle.itip_inbox.specs.News.{IsNews};
ghost use Rattle.itip_inbox.specs.PartsByUid.{ArePartedByUid, IsOfHeard, AreOfHeard, IsTextOfBlocks};
ghost use Rattle.itip_inbox.specs.PartsByUid.{IsKeptBatch, AreMergedBatches};
ghost use Rattle.itip_inbox.specs.Reports.{IsReport};
ghost use Rattle.itip_inbox.specs.TaskList.{IsTaskList};

/// Inputs have exactly one compaction: its bytes, and whether a message was refused.
pub fn one_compaction()
    ensures some { (inputs : List (List ℕ)) → (octets : List ℕ) × (refused : Bool) × IsCompaction inputs octets refused }
    ensures octets { (inputs : List (List ℕ)) (octets others : List ℕ) (refused other : Bool) →
        IsCompaction inputs octets refused → IsCompaction inputs others other → octets ≡ others }
    ensures refused { (inputs : List (List ℕ)) (octets others : List ℕ) (refused other : Bool) →
        IsCompaction inputs octets refused → IsCompaction inputs others other → refused ≡ other }
{}

/// Only the items that inputs tell matter. Inputs that tell the same items, in any order and number and cut into any messages, have
/// the same compaction; in each window the same reports and the same task list, whichever rows are wanted and in each form; and the
/// same news beside others that tell the same items. Whether a message was refused may differ.
pub fn only_items_matter()
    ensures compaction { (inputs others : List (List ℕ)) (octets again : List ℕ) (refused other : Bool) → TellSameItems inputs others →
        IsCompaction inputs octets refused → IsCompaction others again other → again ≡ octets }
    ensures list { (inputs others : List (List ℕ)) (octets : Window → List Row → List ℕ) (wanted : Wanted) (window : Window)
        (text again : List ℕ) (refused other : Bool) →
        TellSameItems inputs others → IsTaskList octets (Wants wanted) inputs window text refused →
        IsTaskList octets (Wants wanted) others window again other → again ≡ text }
    ensures report { (inputs others : List (List ℕ)) (name : ReportName) (window : Window) (text again : List ℕ) (refused other : Bool) →
        TellSameItems inputs others → IsReport name inputs window text refused → IsReport name others window again other →
        again ≡ text }
    ensures news { (than known inputs others : List (List ℕ)) (octets again : List ℕ) (refused other : Bool) →
        TellSameItems than known → TellSameItems inputs others → IsNews than inputs octets refused →
        IsNews known others again other → again ≡ octets }
{}

/// If parts tell the items that the whole tells, compacting the parts apart and then their results gives the bytes of the whole's
/// compaction. The results may be inputs of their own, or one input that has them one after another. None of their messages is
/// refused.
pub fn compaction_of_compactions()
    ensures octets { (parts : List (List (List ℕ))) (compacted whole : List (List ℕ)) (octets again : List ℕ) (refused other : Bool) →
        TellSameItems whole (all_inputs parts) → AreCompactions parts compacted →
        IsCompaction whole octets refused → IsCompaction compacted again other → again ≡ octets }
    ensures joined { (parts : List (List (List ℕ))) (compacted whole : List (List ℕ)) (octets again : List ℕ) (refused other : Bool) →
        TellSameItems whole (all_inputs parts) → AreCompactions parts compacted →
        IsCompaction whole octets refused → IsCompaction (concat compacted ∷ []) again other → again ≡ octets }
    ensures refused { (parts : List (List (List ℕ))) (compacted : List (List ℕ)) (again : List ℕ) (other : Bool) →
        AreCompactions parts compacted → IsCompaction compacted again other → other ≡ false }
    ensures joined_refused { (parts : List (List (List ℕ))) (compacted : List (List ℕ)) (again : List ℕ) (other : Bool) →
        AreCompactions parts compacted → IsCompaction (concat compacted ∷ []) again other → other ≡ false }
{}

/// Inputs that have the same messages, in any order and each once or more often, tell the same items. The parts of an input that is
/// cut between messages have its messages: there each part but the last consists of whole calendars, each up to the break after its
/// END:VCALENDAR, and no blank follows a calendar. If each part but the last may also have empty lines before, between or after its
/// calendars, and no blank follows any of these, the parts tell each item that the whole tells. They tell no other if no message of
/// the whole has more bytes than a text may have. The empty lines before a message count, as they are part of it.
pub fn items_of_parts()
    ensures messages { (inputs others : List (List ℕ)) → HaveSameMessages inputs others → TellSameItems inputs others }
    ensures parted { (whole : List ℕ) (parts : List (List ℕ)) → IsPartedInto whole parts → HaveSameMessages (whole ∷ []) parts }
    ensures told { (whole : List ℕ) (parts : List (List ℕ)) (item : Item) → IsPartedInGaps whole parts →
        TellsItem (whole ∷ []) item → TellsItem parts item }
    ensures spaced { (whole : List ℕ) (parts : List (List ℕ)) → IsPartedInGaps whole parts → HaveShortMessages (whole ∷ []) →
        TellSameItems (whole ∷ []) parts }
{}

/// Inputs have exactly one batch of news beside others: its bytes, and whether a message was refused.
pub fn one_news()
    ensures some { (than inputs : List (List ℕ)) → (octets : List ℕ) × (refused : Bool) × IsNews than inputs octets refused }
    ensures octets { (than inputs : List (List ℕ)) (octets others : List ℕ) (refused other : Bool) →
        IsNews than inputs octets refused → IsNews than inputs others other → octets ≡ others }
    ensures refused { (than inputs : List (List ℕ)) (octets others : List ℕ) (refused other : Bool) →
        IsNews than inputs octets refused → IsNews than inputs others other → refused ≡ other }
{}

/// The news that inputs have beside others, compacted with these others, give the bytes that all of them give, and no message of the
/// news is refused. No item of the news can be left out: whatever doesn't tell it gives other bytes with these others.
pub fn compaction_with_news()
    ensures octets { (than inputs : List (List ℕ)) (news octets again : List ℕ) (lacking refused other : Bool) →
        IsNews than inputs news lacking → IsCompaction (than ++ inputs) octets refused →
        IsCompaction (than ++ news ∷ []) again other → again ≡ octets }
    ensures refused { (than inputs : List (List ℕ)) (news octets again : List ℕ) (lacking refused other : Bool) →
        IsNews than inputs news lacking → IsCompaction than octets refused →
        IsCompaction (than ++ news ∷ []) again other → other ≡ refused }
    ensures least { (than inputs others : List (List ℕ)) (news octets again : List ℕ) (lacking refused other : Bool) (item : Item) →
        IsNews than inputs news lacking → TellsItem (news ∷ []) item → (¬ TellsItem others item) →
        IsCompaction (than ++ inputs) octets refused → IsCompaction (than ++ others) again other → again ≢ octets }
{}

/// The text of a list is that of its blocks, one for each UID, one after another, or `refused 31` if they have too many rows. If parts
/// together have the compaction of the whole, and no two of them tell of one UID, the blocks of the parts' lists, sorted by UID, are
/// those of the list of the whole; and the items of the parts' compactions, sorted by bytes, are the compaction of the whole (our own
/// rules).
pub fn outputs_of_parts()
    ensures text { (inputs : List (List ℕ)) (wanted : Wanted) (window : Window) (blocks : List Block) (text : List ℕ) (refused : Bool)
        → IsOfHeard (AreBlocksWhere (Wants wanted) window) inputs blocks
        → IsTaskList (λ _ rows. list_text rows) (Wants wanted) inputs window text refused → IsTextOfBlocks blocks text }
    ensures list { (parts : List (List (List ℕ))) (whole : List (List ℕ)) → ArePartedByUid parts whole → (wanted : Wanted)
        (window : Window) (lists : List (List Block)) (merged : List Block)
        → AreOfHeard (AreBlocksWhere (Wants wanted) window) parts lists → AreMerged lists merged
        → IsOfHeard (AreBlocksWhere (Wants wanted) window) whole merged }
    ensures compaction { (parts : List (List (List ℕ))) (whole : List (List ℕ)) → ArePartedByUid parts whole
        → (batches : List (List Item)) (merged : List Item) (octets : List ℕ) (refused : Bool) → AreOfHeard IsKeptBatch parts batches
        → AreMergedBatches batches merged → IsCompaction whole octets refused → octets ≡ delta_octets merged }
{}
