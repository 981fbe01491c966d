//! The text of a desk's file: canonical messages in which parameters of PRODID and VERSION tell the tick and what moved when.
ghost use Rattle.std.specs.Prelude.{◌≡◌, ◌++◌, OnOk};
ghost use Rattle.itip_desk.specs.DeskFile.{message_text, product_text, version_text, parameter_text};
ghost use Rattle.itip_desk.specs.DeskFile.{product_parameters, tick_parameters};

use itip_items::Item;
use std::alloc::AllocError;

/// What each message begins with, up to the parameters of PRODID.
pub(crate) const BEGINS: &str = "BEGIN:VCALENDAR\r\nPRODID";

/// What is between the parameters of PRODID and those of VERSION.
pub(crate) const PRODUCT: &str = ":-//itipdesk//1//EN\r\nVERSION";

/// What follows the parameters of VERSION on its line.
const VERSION: &str = ":2.0\r\n";

// How many bytes at the front of a canonical message are written anew: the lines up to VERSION.
const HEAD_OCTETS: usize = 57;

/// The form that is written and read.
pub(crate) const FORM: u64 = 1;

// The parameters of the first message: the form, the number of messages, and the tick of the desk.
pub(crate) const FORM_NAME: &str = ";X-FORM=";

pub(crate) const ITEMS_NAME: &str = ";X-ITEMS=";

pub(crate) const TICK_NAME: &str = ";X-TICK=";

/// The parameter of each message: the tick at which its UID last moved.
pub(crate) const MOVED_NAME: &str = ";X-MOVED=";

/// What the first message of a desk's file tells about the desk.
#[derive(Clone, Copy)]
pub(crate) struct FileHead {
    /// The number of messages.
    pub(crate) items: usize,
    pub(crate) tick: u64,
}

/// Appends the message of an item, with the head in a file's first one. If an allocation fails, part of it may have been appended.
pub(crate) fn append_message(
    file: &mut Vec<u8>,
    head: Option<FileHead>,
    moved: u64,
    item: &Item,
) -> Result<(), AllocError>
    ensures { OnOk result (file.new.items ≡ file.old.items ++ message_text head moved item.now.bytes) }
{
    append_product(file, head)?;
    append_version(file, head, moved)?;
    let mut canonical = Vec::new(*file.allocator());
    item.bytes.append_to(&mut canonical)?;
    let bytes = canonical.as_slice();
    file.extend_from_slice(&bytes[HEAD_OCTETS.min(bytes.len())..])?;
    Ok(())
}

/// Appends the lines up to PRODID, and the name VERSION.
fn append_product(file: &mut Vec<u8>, head: Option<FileHead>) -> Result<(), AllocError>
    ensures { OnOk result (file.new.items ≡ file.old.items ++ product_text head) }
{
    file.extend_from_slice(BEGINS.as_bytes())?;
    append_form(file, head)?;
    file.extend_from_slice(PRODUCT.as_bytes())?;
    Ok(())
}

/// Appends the parameters of PRODID.
fn append_form(file: &mut Vec<u8>, head: Option<FileHead>) -> Result<(), AllocError>
    ensures { OnOk result (file.new.items ≡ file.old.items ++ product_parameters head) }
{
    let Some(head) = head else {
        return Ok(());
    };
    append_parameter(file, FORM_NAME, FORM)?;
    append_parameter(file, ITEMS_NAME, head.items as u64)
}

/// Appends the rest of the VERSION line.
fn append_version(file: &mut Vec<u8>, head: Option<FileHead>, moved: u64) -> Result<(), AllocError>
    ensures { OnOk result (file.new.items ≡ file.old.items ++ version_text head moved) }
{
    append_tick(file, head)?;
    append_parameter(file, MOVED_NAME, moved)?;
    file.extend_from_slice(VERSION.as_bytes())?;
    Ok(())
}

/// Appends the parameter of VERSION that tells the tick of the desk.
fn append_tick(file: &mut Vec<u8>, head: Option<FileHead>) -> Result<(), AllocError>
    ensures { OnOk result (file.new.items ≡ file.old.items ++ tick_parameters head) }
{
    match head {
        Some(head) => append_parameter(file, TICK_NAME, head.tick),
        None => Ok(()),
    }
}

/// Appends a parameter whose value is a number.
fn append_parameter(file: &mut Vec<u8>, name: &str, number: u64) -> Result<(), AllocError>
    ensures { OnOk result (file.new.items ≡ file.old.items ++ parameter_text name.now number) }
{
    let text = format!(in *file.allocator(); "{name}{number}")?;
    file.extend_from_slice(text.as_bytes())
}
