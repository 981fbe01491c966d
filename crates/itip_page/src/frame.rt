//! What comes before and after the rows of a page.
ghost use Rattle.std.specs.Prelude.{◌≡◌, ◌++◌, OnOk, OnErr};
ghost use Rattle.itip_page.specs.Page.{head_markup, foot_markup, title_markup, heading_markup, counted_markup};
ghost use Rattle.itip_page.specs.Page.{count_text, days_text, nearest};

use crate::dates::put_day;
use crate::put::{put, put_number};
use crate::style::STYLE;
use itip_moment::Day;
use itip_view::Window;
use std::alloc::AllocError;

// The policy allows nothing but the styles in the file; a browser that knows it enforces that, whatever the file has.
const OPENING: &str = "<!DOCTYPE html>
<html lang=\"en\">
<head>
<meta charset=\"utf-8\">
<meta name=\"viewport\" content=\"width=device-width, initial-scale=1\">
<meta http-equiv=\"Content-Security-Policy\" content=\"default-src 'none'; style-src 'unsafe-inline'\">
<title>To-dos ";

const COLUMNS: &str = "<table>
<thead>
<tr>
<th scope=\"col\">To-do</th>
<th scope=\"col\">When</th>
<th scope=\"col\">Due</th>
<th scope=\"col\">Status</th>
<th scope=\"col\">How far</th>
<th scope=\"col\">Who</th>
</tr>
</thead>
<tbody>
";

const CLOSING: &str = "</tbody>
</table>
</body>
</html>
";

// 0000-01-01
const FIRST_DAY: i32 = -719_528;

// 9999-12-31
const LAST_DAY: i32 = 2_932_896;

/// Appends what comes before the rows: the style, the first and the last day of the window, how many rows there are, today, and the
/// names of the columns. If an allocation fails, `out` is unchanged.
pub fn put_head(
    out: &mut Vec<u8>,
    window: Window,
    today: Day,
    number: usize,
) -> Result<(), AllocError>
    ensures ok { OnOk result (out.new.items ≡ out.old.items ++ head_markup window today.number number) }
    ensures err { OnErr result (out.new.items ≡ out.old.items) }
{
    let mut markup = Vec::new(*out.allocator());
    put_head_parts(&mut markup, window, today, number)?;
    out.extend_from_slice(markup.as_slice())
}

/// Appends what comes after the rows. If an allocation fails, `out` is unchanged.
pub fn put_foot(out: &mut Vec<u8>) -> Result<(), AllocError>
    ensures ok { OnOk result (out.new.items ≡ out.old.items ++ foot_markup) }
    ensures err { OnErr result (out.new.items ≡ out.old.items) }
{
    out.extend_from_slice(CLOSING.as_bytes())
}

/// Appends the parts of a head. If an allocation fails, some of them may have been appended.
fn put_head_parts(
    out: &mut Vec<u8>,
    window: Window,
    today: Day,
    number: usize,
) -> Result<(), AllocError>
    ensures { OnOk result (out.new.items ≡ out.old.items ++ head_markup window today.number number) }
{
    put_title(out, window)?;
    put_heading(out, window)?;
    put_counted(out, today, number)?;
    put(out, COLUMNS)
}

fn put_title(out: &mut Vec<u8>, window: Window) -> Result<(), AllocError>
    ensures { OnOk result (out.new.items ≡ out.old.items ++ title_markup window) }
{
    put(out, OPENING)?;
    put_days(out, window)?;
    put(out, "</title>\n<style>\n")?;
    put(out, STYLE)?;
    put(out, "</style>\n</head>\n")
}

fn put_heading(out: &mut Vec<u8>, window: Window) -> Result<(), AllocError>
    ensures { OnOk result (out.new.items ≡ out.old.items ++ heading_markup window) }
{
    put(out, "<body>\n<h1>To-dos <span>")?;
    put_days(out, window)?;
    put(out, "</span></h1>\n")
}

/// Appends how many rows there are, and the day that is taken as today.
fn put_counted(out: &mut Vec<u8>, today: Day, number: usize) -> Result<(), AllocError>
    ensures { OnOk result (out.new.items ≡ out.old.items ++ counted_markup today.number number) }
{
    put(out, "<p>")?;
    put_count(out, number)?;
    put(out, " Today is ")?;
    put_day(out, today)?;
    put(out, ".</p>\n")
}

fn put_count(out: &mut Vec<u8>, number: usize) -> Result<(), AllocError>
    ensures { OnOk result (out.new.items ≡ out.old.items ++ count_text number) }
{
    if number == 1 {
        return put(out, "1 row.");
    }
    put_number(out, number)?;
    put(out, " rows.")
}

/// Appends the first and the last day of a window.
fn put_days(out: &mut Vec<u8>, window: Window) -> Result<(), AllocError>
    ensures { OnOk result (out.new.items ≡ out.old.items ++ days_text window) }
{
    put_day(out, nearest(window.from))?;
    put(out, " to ")?;
    put_day(out, nearest(window.to - 1))
}

/// The day of a number, or the nearest one in the years 0000 to 9999.
fn nearest(number: i32) -> Day
    ensures { result.number ≡ nearest number }
{
    if number < FIRST_DAY {
        Day { number: FIRST_DAY }
    } else if number > LAST_DAY {
        Day { number: LAST_DAY }
    } else {
        Day { number }
    }
}
