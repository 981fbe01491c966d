//! The head of a desk's list.
ghost use Rattle.std.specs.Prelude.{◌≡◌, ◌++◌, OnOk};
ghost use Rattle.itip_desk.specs.Listed.{head_text};

use std::alloc::AllocError;

/// Appends a line with a word, the number of the desk and the number of rows: `list D rows N`. If an allocation fails, part of it may
/// have been appended.
pub fn write_head(
    word: &str,
    desk: u64,
    number: usize,
    output: &mut Vec<u8>,
) -> Result<(), AllocError>
    ensures { OnOk result (output.new.items ≡ output.old.items ++ head_text word.now desk number) }
{
    let head = format!(in *output.allocator(); "{word} {desk} rows {number}\n")?;
    output.extend_from_slice(head.as_bytes())
}
