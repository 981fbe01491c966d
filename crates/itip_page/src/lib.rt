//! The task list as a page: one HTML file without scripts and without anything from outside, for a screen, a phone and print.
//!
//! A page shows the window, the day that is taken as today, and the rows, and nothing else. Each text of a message is escaped in it,
//! between tags or in a double-quoted attribute value. What an HTML parser makes of the whole page is a law ([`page_has_its_tokens`]):
//! its elements, each in its place, and each of these texts as that text and as nothing else.
#![tactic(auto)]

mod dates;
mod escape;
mod frame;
mod laws;
mod put;
mod row;
mod style;
mod value;
mod who;

pub use escape::put_escaped;
pub use frame::{put_foot, put_head};
pub use laws::{
    page_has_its_tokens, style_fetches_nothing, values_are_lines, values_have_no_markup,
    values_stay_in_attributes, values_stay_in_elements, values_stay_utf8,
};
pub use row::PageRows;
pub use value::put_value;
