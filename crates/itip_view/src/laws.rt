//! The laws of views, for every finite set of items. They are about the definitions alone: each function is empty.
ghost use Rattle.std.specs.Prelude.{List, ℕ, Option, Some, None, ◌↔◌, ◌≡◌, ◌≤◌, ◌<◌, length};
ghost use Rattle.std.specs.List.{Contains};
ghost use Rattle.itip_items.specs.declared.item.Item.{Item};
ghost use Rattle.itip_state.specs.Kept.{AreKept, ArePartOf};
ghost use Rattle.std.specs.declared.cmp.Ordering.TheVariants.{Equal};
ghost use Rattle.itip_moment.specs.declared.moment.Moment.{Moment};
ghost use Rattle.itip_items.specs.declared.key.Key.TheVariants.{Answer};
ghost use Rattle.itip_view.specs.OfKept.{NeedsOnlyKept, FollowsFromKept};
ghost use Rattle.itip_view.specs.InQuestion.{IsInQuestion, NoneInQuestion, ShowsInQuestion, IsRowInQuestion};
ghost use Rattle.itip_view.specs.Standing.{Stands, StandsFrom, Rules, NoneRules, Governs, IsLiveSeries};
ghost use Rattle.itip_view.specs.Answers.{Counts};
ghost use Rattle.itip_view.specs.Blocks.{Block, AreBlocksWhere, AreBlocksOfParts, AreMerged, ArePartsByUid, number_of_rows, rows_of_blocks};
ghost use Rattle.itip_view.specs.Rows.{IsRow, AreRows, AreTooMany, ShowsGoverning, row_cmp, row_limit};
ghost use Rattle.itip_view.specs.ListText.{IsListText};
ghost use Rattle.itip_todo.specs.Table.{attendee_key};
ghost use Rattle.itip_view.specs.RowDays.{HasRowsIn, NamesIn};
ghost use Rattle.itip_view.specs.Showing.{Shows, AreRowsWhere, AreTooManyWhere, IsListTextFor};
ghost use Rattle.itip_view.specs.UidWithMostRows.{IsMostOf};
ghost use Rattle.itip_view.specs.Wanting.{Wants};
ghost use Rattle.itip_view.specs.declared.row_count.MostRows.{MostRows};
ghost use Rattle.itip_view.specs.declared.row.Row.{Row};
ghost use Rattle.itip_view.specs.declared.row.ShownAttendee.{ShownAttendee};
ghost use Rattle.itip_view.specs.declared.wanted.Wanted.{Wanted};
ghost use Rattle.itip_view.specs.declared.window.Window.{Window};

/// What stands and what governs depends only on what is kept (our own rules).
pub fn standing_of_kept()
    ensures stands { (uid : List ℕ) (id : Moment) (item : Item) → NeedsOnlyKept (λ heard. Stands heard uid id item) }
    ensures stands_from { (uid : List ℕ) (id : Moment) (item : Item) → NeedsOnlyKept (λ heard. StandsFrom heard uid id item) }
    ensures rules { (uid : List ℕ) (at id : Moment) (item : Item) → NeedsOnlyKept (λ heard. Rules heard uid at id item) }
    ensures none_rules { (uid : List ℕ) (at : Moment) → NeedsOnlyKept (λ heard. NoneRules heard uid at) }
    ensures governs { (uid : List ℕ) (id : Option Moment) (item : Item) → NeedsOnlyKept (λ heard. Governs heard uid id item) }
{}

/// Which answers count depends only on what is kept: an answer to an instance never dies, and one to the to-do as a whole that is
/// no earlier than the live series isn't dead (our own rules).
pub fn answers_of_kept()
    ensures to_instance { (uid : List ℕ) (id : Moment) (attendee : List ℕ) (since : ℕ) (answer : Item)
        → NeedsOnlyKept (λ heard. Counts heard (record { key = Answer uid (Some id) attendee; since = since }) answer) }
    ensures to_series { (kept heard : List Item) → AreKept kept heard → (series : Item) (uid attendee : List ℕ) (since : ℕ) (answer : Item)
        → IsLiveSeries heard uid series → series.own ≤ since
        → Counts kept (record { key = Answer uid None attendee; since = since }) answer
        ↔ Counts heard (record { key = Answer uid None attendee; since = since }) answer }
{}

/// The view of what is kept is the view of all that was heard (our own rule).
pub fn view_of_kept()
    ensures row { (window : Window) (row : Row) → NeedsOnlyKept (λ heard. IsRow heard window row) }
    ensures rows { (window : Window) (rows : List Row) → FollowsFromKept (λ heard. AreRows heard window rows) }
    ensures text { (window : Window) (text : List ℕ) → FollowsFromKept (λ heard. IsListText heard window text) }
    ensures many { (window : Window) → FollowsFromKept (λ heard. AreTooMany heard window) }
    ensures text_for { (window : Window) (address text : List ℕ) → FollowsFromKept (λ heard. IsListTextFor address heard window text) }
    ensures many_for { (window : Window) (address : List ℕ) → FollowsFromKept (λ heard. AreTooManyWhere (Shows address) heard window) }
    ensures rows_where { (window : Window) (wanted : Wanted) (rows : List Row)
        → FollowsFromKept (λ heard. AreRowsWhere (Wants wanted) heard window rows) }
    ensures many_where { (window : Window) (wanted : Wanted) → FollowsFromKept (λ heard. AreTooManyWhere (Wants wanted) heard window) }
    ensures most { (window : Window) (wanted : Wanted) (most : Option MostRows)
        → FollowsFromKept (λ heard. IsMostOf (Wants wanted) heard window most) }
{}

/// What was heard has at most one list in a window, and none if it has too many rows for one. The same holds for the rows that are
/// asked for, and at most one to-do has the most of these. A UID and an identifier have at most one row, and the order tells all
/// rows apart (our own rules).
pub fn one_list()
    ensures row { (heard : List Item) (window : Window) (row other : Row) → IsRow heard window row → IsRow heard window other
        → row.uid ≡ other.uid → row.id ≡ other.id → row ≡ other }
    ensures order { (heard : List Item) (window : Window) (row other : Row) → IsRow heard window row → IsRow heard window other
        → row_cmp row other ≡ Equal → row ≡ other }
    ensures rows { (heard : List Item) (window : Window) (rows others : List Row) → AreRows heard window rows
        → AreRows heard window others → rows ≡ others }
    ensures text { (heard : List Item) (window : Window) (text other : List ℕ) → IsListText heard window text
        → IsListText heard window other → text ≡ other }
    ensures apart { (heard : List Item) (window : Window) (text : List ℕ) → IsListText heard window text → AreTooMany heard window → ⊥ }
    ensures rows_for { (heard : List Item) (window : Window) (address : List ℕ) (rows others : List Row)
        → AreRowsWhere (Shows address) heard window rows → AreRowsWhere (Shows address) heard window others → rows ≡ others }
    ensures text_for { (heard : List Item) (window : Window) (address text other : List ℕ) → IsListTextFor address heard window text
        → IsListTextFor address heard window other → text ≡ other }
    ensures apart_for { (heard : List Item) (window : Window) (address text : List ℕ) → IsListTextFor address heard window text
        → AreTooManyWhere (Shows address) heard window → ⊥ }
    ensures rows_where { (heard : List Item) (window : Window) (wanted : Wanted) (rows others : List Row)
        → AreRowsWhere (Wants wanted) heard window rows → AreRowsWhere (Wants wanted) heard window others → rows ≡ others }
    ensures apart_where { (heard : List Item) (window : Window) (wanted : Wanted) (rows : List Row)
        → AreRowsWhere (Wants wanted) heard window rows → length rows ≤ row_limit → AreTooManyWhere (Wants wanted) heard window → ⊥ }
    ensures most { (heard : List Item) (window : Window) (wanted : Wanted) (most other : Option MostRows)
        → IsMostOf (Wants wanted) heard window most → IsMostOf (Wants wanted) heard window other → most ≡ other }
{}

/// At most one item governs a to-do as a whole, or an instance; a row shows the one that governs what it names (our own rules).
pub fn rows_are_governed()
    ensures row { (heard : List Item) (window : Window) (row : Row) → IsRow heard window row → ShowsGoverning heard row }
    ensures one { (heard : List Item) (uid : List ℕ) (id : Option Moment) (item other : Item) → Governs heard uid id item
        → Governs heard uid id other → item ≡ other }
{}

/// A row of any window is the row in question for its identifier. The item that governs a row in question governs what the row
/// names; at most one item does, and the row shows one list of attendees (our own rules).
pub fn rows_are_in_question()
    ensures row { (heard : List Item) (window : Window) (row : Row) → IsRow heard window row → IsRowInQuestion heard row }
    ensures shows { (heard : List Item) (uid : List ℕ) (id : Option Moment) (item : Item) (shown : List ShownAttendee)
        → ShowsInQuestion heard uid id item shown → IsInQuestion heard uid id item }
    ensures governs { (heard : List Item) (uid : List ℕ) (id : Option Moment) (item : Item) → IsInQuestion heard uid id item
        → Governs heard uid id item }
    ensures one { (heard : List Item) (uid : List ℕ) (id : Option Moment) (item other : Item) → IsInQuestion heard uid id item
        → IsInQuestion heard uid id other → item ≡ other }
    ensures one_shown { (heard : List Item) (uid : List ℕ) (id : Option Moment) (item other : Item) (shown others : List ShownAttendee)
        → ShowsInQuestion heard uid id item shown → ShowsInQuestion heard uid id other others → shown ≡ others }
{}

/// What is in question, and what it shows, depends only on what is kept (our own rules).
pub fn question_of_kept()
    ensures is_in { (uid : List ℕ) (id : Option Moment) (item : Item) → NeedsOnlyKept (λ heard. IsInQuestion heard uid id item) }
    ensures none { (uid : List ℕ) (id : Option Moment) → NeedsOnlyKept (λ heard. NoneInQuestion heard uid id) }
    ensures shows { (uid : List ℕ) (id : Option Moment) (item : Item) (shown : List ShownAttendee)
        → NeedsOnlyKept (λ heard. ShowsInQuestion heard uid id item shown) }
{}

/// A row needs an item of its UID whose rows can fall in the window, and each attendee that it shows is named by an item of its UID
/// that can have rows (our own rules).
pub fn rows_need_items()
    ensures days { (heard : List Item) (window : Window) (row : Row) → IsRow heard window row → HasRowsIn heard window row.uid }
    ensures names { (heard : List Item) (window : Window) (address : List ℕ) (row : Row) → IsRow heard window row → Shows address row
        → NamesIn heard (attendee_key address) row.uid }
{}

/// The rows of some UIDs depend only on the items of these UIDs, and these items have no row of another UID (our own rule).
pub fn rows_of_part()
    ensures row { (part whole : List Item) (uids : List (List ℕ)) → ArePartOf part whole uids → (window : Window) (row : Row)
        → Contains uids row.uid → IsRow part window row ↔ IsRow whole window row }
    ensures uids { (part whole : List Item) (uids : List (List ℕ)) → ArePartOf part whole uids → (window : Window) (row : Row)
        → IsRow part window row → Contains uids row.uid }
{}

/// A list is cut by UID into blocks of rows. If no UID is in two parts of a set, the blocks of the parts' lists, sorted by UID, are
/// the list of the whole. The whole has too many rows for a list exactly when the rows of the parts add up to too many, in
/// particular if one part has too many (our own rules).
pub fn lists_of_parts()
    ensures blocks { (heard : List Item) (window : Window) (wanted : Wanted) (rows : List Row)
        → AreRowsWhere (Wants wanted) heard window rows
        → (blocks : List Block) × AreBlocksWhere (Wants wanted) window heard blocks × (rows ≡ rows_of_blocks blocks) }
    ensures merged { (parts : List (List Item)) (whole : List Item) → ArePartsByUid parts whole → (window : Window) (wanted : Wanted)
        (lists : List (List Block)) (merged : List Block) → AreBlocksOfParts (Wants wanted) window parts lists → AreMerged lists merged
        → AreBlocksWhere (Wants wanted) window whole merged }
    ensures many { (parts : List (List Item)) (whole : List Item) → ArePartsByUid parts whole → (window : Window) (wanted : Wanted)
        (lists : List (List Block)) (merged : List Block) → AreBlocksOfParts (Wants wanted) window parts lists → AreMerged lists merged
        → AreTooManyWhere (Wants wanted) whole window ↔ (row_limit < number_of_rows lists) }
    ensures part { (parts : List (List Item)) (whole : List Item) → ArePartsByUid parts whole → (window : Window) (wanted : Wanted)
        (part : List Item) → Contains parts part → AreTooManyWhere (Wants wanted) part window
        → AreTooManyWhere (Wants wanted) whole window }
{}
