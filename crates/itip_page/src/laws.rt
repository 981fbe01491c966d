//! What an HTML parser makes of a page, and of the texts in it. These laws need no code: each function is empty.
ghost use Rattle.std.specs.Prelude.{◌≡◌, ◌++◌, ℕ, List, [], Some, true};
ghost use Rattle.std.specs.List.{All, list_all};
ghost use Rattle.std.specs.Str.{IsUtf8};
ghost use Rattle.itip_moment.specs.declared.day.Day.{Day};
ghost use Rattle.itip_streams.specs.Visible.{visible};
ghost use Rattle.itip_view.specs.declared.row.Row.{Row};
ghost use Rattle.itip_view.specs.declared.window.Window.{Window};
ghost use Rattle.itip_page.specs.Escaped.{escaped};
ghost use Rattle.itip_page.specs.Page.{page_markup};
ghost use Rattle.itip_page.specs.PageTokens.{page_tokens, shown, value_tokens, style_sheet, is_of_page, fetches_nothing};
ghost use Rattle.itip_page.specs.Tokens.{Tag, tokens, data_state, attribute_value, IsReadAs, IsHarmless};
ghost use Rattle.itip_page.specs.Value.{value_markup};

/// A page is read as its elements, each in its place, with the texts of messages as characters between them or as the value of a
/// `title`. The names of its elements and attributes are from two lists, which have no `script`, no `src` and no `href`.
pub fn page_has_its_tokens()
    ensures read { (window : Window) (today : Day) (rows : List Row)
        → tokens (page_markup window today.number rows) ≡ Some (page_tokens window today.number rows) }
    ensures names { (window : Window) (today : Day) (rows : List Row)
        → list_all is_of_page (page_tokens window today.number rows) ≡ true }
{}

/// The style of a page has none of the words with which a style sheet fetches something.
pub fn style_fetches_nothing()
    ensures { fetches_nothing style_sheet ≡ true }
{}

/// Between the tags of an element a parser reads an escaped text as the text itself, with its control characters shown as bytes.
pub fn values_stay_in_elements()
    ensures { (text : List ℕ) → IsReadAs data_state (escaped text) (shown text) data_state }
{}

/// The same in an attribute value between double quotes: an escaped text is read as more of the value, after what there is of it.
pub fn values_stay_in_attributes()
    ensures { (tag : Tag) (name value text : List ℕ)
        → IsReadAs (attribute_value tag name value) (escaped text) [] (attribute_value tag name (value ++ visible text)) }
{}

/// A value of type TEXT is read as its lines, with a tag `br` between each two and no other tag.
pub fn values_are_lines()
    ensures { (value : List ℕ) → IsReadAs data_state (value_markup value) (value_tokens value) data_state }
{}

/// An escaped text has no `<`, no `>`, no double quote, and no control character of one byte.
pub fn values_have_no_markup()
    ensures { (text : List ℕ) → All IsHarmless (escaped text) }
{}

/// An escaped text is UTF-8 if the text is.
pub fn values_stay_utf8()
    ensures { (text : List ℕ) → IsUtf8 text → IsUtf8 (escaped text) }
{}
