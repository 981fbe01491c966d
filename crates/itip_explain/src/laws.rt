//! The laws of what becomes of items, whatever is told. The functions do nothing: their contracts are the laws.
ghost use Rattle.std.specs.Prelude.{◌≡◌, ◌↔◌, ℕ, List, Option};
ghost use Rattle.itip_moment.specs.declared.moment.Moment.{Moment};
ghost use Rattle.itip_items.specs.declared.item.Item.{Item};
ghost use Rattle.itip_streams.specs.declared.source_name.SourceName.{SourceName};
ghost use Rattle.itip_view.specs.InQuestion.{IsInQuestion};
ghost use Rattle.itip_view.specs.Rows.{IsRow, ShowsGoverning};
ghost use Rattle.itip_view.specs.Standing.{Governs};
ghost use Rattle.itip_view.specs.declared.row.Row.{Row};
ghost use Rattle.itip_view.specs.declared.window.Window.{Window};
ghost use Rattle.itip_report.specs.Reports.{IsWanted};
ghost use Rattle.itip_explain.specs.Deciding.{DecidesOn};
ghost use Rattle.itip_explain.specs.Explanation.{IsExplanation};
ghost use Rattle.itip_explain.specs.Fates.{IsFate};
ghost use Rattle.itip_explain.specs.Told.{heard_of, IsFirstToTell};
ghost use Rattle.itip_explain.specs.declared.fate.Fate.{Fate};
ghost use Rattle.itip_explain.specs.declared.fate.Fate.TheVariants.{Stands, Counts, Waits};
ghost use Rattle.itip_explain.specs.declared.told.Place.{Place};
ghost use Rattle.itip_explain.specs.declared.told.ToldItem.{ToldItem};

/// An item has at most one fate and is first told at one place at most, and what was told has at most one explanation (our own rules).
pub fn one_explanation()
    ensures fate { (told : List ToldItem) (item : Item) (became other : Fate) → IsFate told item became → IsFate told item other
        → became ≡ other }
    ensures first { (told : List ToldItem) (item : Item) (place other : Place) → IsFirstToTell told item place
        → IsFirstToTell told item other → place ≡ other }
    ensures text { (uid : List ℕ) (told : List ToldItem) (names : List SourceName) (text other : List ℕ)
        → IsExplanation uid told names text → IsExplanation uid told names other → text ≡ other }
{}

/// What governs a row of any window stands, and so does all that governs a to-do as a whole or an instance; an answer that decides what
/// a row shows of an attendee counts; and an item waits exactly if the refresh report has it (our own rules).
pub fn fates_and_rows()
    ensures row { (told : List ToldItem) (window : Window) (row : Row) → IsRow (heard_of told) window row
        → (shows : ShowsGoverning (heard_of told) row) × IsFate told shows.item Stands }
    ensures governs { (told : List ToldItem) (uid : List ℕ) (id : Option Moment) (item : Item) → Governs (heard_of told) uid id item
        → IsFate told item Stands }
    ensures in_question { (told : List ToldItem) (uid : List ℕ) (id : Option Moment) (item : Item)
        → IsInQuestion (heard_of told) uid id item → IsFate told item Stands }
    ensures decides { (told : List ToldItem) (window : Window) (row : Row) (answer : Item)
        → DecidesOn (heard_of told) window row answer → IsFate told answer Counts }
    ensures waits { (told : List ToldItem) (item : Item) → IsFate told item Waits ↔ IsWanted (heard_of told) item }
{}
