//! The laws of the lines of a list that begin with TODO. They are about the definitions alone: each function is empty.
ghost use Rattle.std.specs.Prelude.{◌≡◌, ℕ, List, length};
ghost use Rattle.std.specs.List.{AllByRecursion, Contains};
ghost use Rattle.itip_items.specs.declared.item.Item.{Item};
ghost use Rattle.itip_view.specs.ListText.{IsListText, list_text};
ghost use Rattle.itip_view.specs.Rows.{IsRow};
ghost use Rattle.itip_view.specs.Showing.{IsListTextFor};
ghost use Rattle.itip_view.specs.TodoLines.{HasUnbrokenTexts, todo_lines};
ghost use Rattle.itip_view.specs.declared.row.Row.{Row};
ghost use Rattle.itip_view.specs.declared.window.Window.{Window};

/// A list has as many lines that begin with TODO as it has rows, if no text of the rows has a line break (our own format).
pub fn todo_lines_of_rows()
    ensures { (rows : List Row) → AllByRecursion HasUnbrokenTexts rows → todo_lines (list_text rows) ≡ length rows }
{}

/// No text of a row of any view has a line break, since no value of a content line has one. So the text of a view has as many lines
/// that begin with TODO as it has rows, and so has that of the rows that show an attendee (our own format).
pub fn rows_have_unbroken_texts()
    ensures row { (heard : List Item) (window : Window) (row : Row) → IsRow heard window row → HasUnbrokenTexts row }
    ensures rows { (heard : List Item) (window : Window) (rows : List Row)
        → ((row : Row) → Contains rows row → IsRow heard window row) → AllByRecursion HasUnbrokenTexts rows }
    ensures text { (heard : List Item) (window : Window) (text : List ℕ) (is : IsListText heard window text)
        → todo_lines text ≡ length is.rows }
    ensures text_for { (heard : List Item) (window : Window) (address text : List ℕ) (is : IsListTextFor address heard window text)
        → todo_lines text ≡ length is.rows }
{}
