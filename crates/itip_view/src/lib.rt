//! The task list of a state: its rows in a window of days, and their text. What is shown follows our own rules.
#![tactic(auto)]

mod answers;
mod between;
mod by_uid;
mod dates;
mod days;
mod error;
mod governs;
mod in_question;
mod keyed_item;
mod laws;
mod list_within_limit;
mod live_rows;
mod occurring_whole;
mod progress;
mod ranges;
mod row;
mod row_count;
mod row_form;
mod row_text;
mod standing;
mod state_rows;
mod todo_lines;
mod uid_order;
mod unmade_row;
mod wanted;
mod wanted_rows;
mod whole;
mod window;

pub use by_uid::RowsByUid;
pub use dates::have_one_form;
pub use days::{RowDays, has_rows, row_days};
pub use error::{BadWindow, ViewError};
pub use governs::governing;
pub use in_question::{InQuestion, RowInQuestion};
pub use laws::{
    answers_of_kept, lists_of_parts, one_list, question_of_kept, rows_are_governed,
    rows_are_in_question, rows_need_items, rows_of_part, standing_of_kept, view_of_kept,
};
pub use ranges::Ranges;
pub use row::{Row, RowId, ShownAttendee};
pub use row_count::{MostRows, RowCount};
pub use row_form::{PlainRows, RowForm};
pub use row_text::{write_list, write_row};
pub use standing::{if_live, is_live, stands_beside};
pub use state_rows::{rows, rows_of};
pub use std::alloc::AllocError as NoMemory;
pub use todo_lines::{rows_have_unbroken_texts, todo_lines_of_rows};
pub use uid_order::sorted_uids;
pub use wanted::{Wanted, is_overdue};
pub use window::Window;
