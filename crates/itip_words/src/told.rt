//! What is said if there are too many rows.
ghost use Rattle.std.specs.Prelude.{◌≡◌, IfOk};
ghost use Rattle.std.specs.String.{string_bytes};
ghost use Rattle.itip_streams.specs.Visible.{visible};
ghost use Rattle.itip_words.specs.Told.{most_of};

use itip_streams::visible_text;
use std::alloc::{AllocError, Global};

/// The line, without its end, that says which to-do has the most rows of a list or a report that is refused with `number`:
/// `list: refused 31: 366 rows of u1, the most of one to-do`. Control characters are shown as their bytes.
pub fn most_line(
    alloc: Global,
    word: &str,
    number: u32,
    uid: &str,
    rows: usize,
) -> Result<String, AllocError>
    ensures { IfOk result (λ line. string_bytes line ≡ visible (most_of word.now number uid.now rows)) }
{
    let line = most_of(alloc, word, number, uid, rows)?;
    visible_text(alloc, line.as_str())
}

fn most_of(
    alloc: Global,
    word: &str,
    number: u32,
    uid: &str,
    rows: usize,
) -> Result<String, AllocError>
    ensures { IfOk result (λ line. string_bytes line ≡ most_of word.now number uid.now rows) }
{
    Ok(format!(in alloc; "{word}: refused {number}: {rows} rows of {uid}, the most of one to-do")?)
}
