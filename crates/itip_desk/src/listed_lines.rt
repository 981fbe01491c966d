//! The law of what the head of a list tells. The function is empty: its contract is the law.
ghost use Rattle.std.specs.Prelude.{◌≡◌, ℕ, List, length};
ghost use Rattle.std.specs.List.{AllByRecursion, Contains};
ghost use Rattle.itip_desk.specs.Listed.{listed_text, listed_for_text};
ghost use Rattle.itip_items.specs.declared.item.Item.{Item};
ghost use Rattle.itip_view.specs.Rows.{IsRow};
ghost use Rattle.itip_view.specs.TodoLines.{HasUnbrokenTexts, IsSmallNumber, todo_lines};
ghost use Rattle.itip_view.specs.declared.row.Row.{Row};
ghost use Rattle.itip_view.specs.declared.window.Window.{Window};

/// The number in the head of a list is the number of its lines that begin with TODO, if each row is one of a view, or no text of a row has
/// a line break, and both numbers fit into 64 bits (our own format).
pub fn heads_count_lines()
    ensures listed { (desk : ℕ) (rows : List Row) → IsSmallNumber desk → IsSmallNumber (length rows) →
        AllByRecursion HasUnbrokenTexts rows → todo_lines (listed_text desk rows) ≡ length rows }
    ensures mine { (desk : ℕ) (rows : List Row) → IsSmallNumber desk → IsSmallNumber (length rows) →
        AllByRecursion HasUnbrokenTexts rows → todo_lines (listed_for_text desk rows) ≡ length rows }
    ensures of_view { (desk : ℕ) (heard : List Item) (window : Window) (rows : List Row) → IsSmallNumber desk →
        IsSmallNumber (length rows) → ((row : Row) → Contains rows row → IsRow heard window row) →
        (todo_lines (listed_text desk rows) ≡ length rows) × (todo_lines (listed_for_text desk rows) ≡ length rows) }
{}
