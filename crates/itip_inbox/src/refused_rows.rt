//! What is written if there are too many rows.
ghost use Rattle.std.specs.Prelude.{◌≢◌, OnOk, OnErr, IfErr};
ghost use Rattle.std.specs.Io.KnownBytes.{Appends};
ghost use Rattle.itip_desk.specs.Refusals.{refused_text};
ghost use Rattle.itip_streams.specs.Written.{AppendsFront};

use crate::inbox::Inbox;
use crate::refused::refusal_text;
use crate::watch::Watch;
use itip_desk::Refusal;
use itip_streams::{StreamFault, write_output};
use itip_view::MostRows;
use std::alloc::Global;
use std::io::Write;

/// Writes `refused 31`. If no message was refused, the watch is told before that which to-do has the most rows. On an error a prefix
/// has been written.
pub(crate) fn refuse_rows<W: Write, S: Watch>(
    alloc: Global,
    inbox: &Inbox,
    most: MostRows,
    writer: &mut W,
    watch: &mut S,
) -> Result<(), StreamFault>
    ensures all { OnOk result (Appends (W.contents writer.old) (W.contents writer.new) (refused_text 31)) }
    ensures front { OnErr result (AppendsFront (W.contents writer.old) (W.contents writer.new) (refused_text 31)) }
    ensures fault { IfErr result (λ fault. fault ≢ StreamFault.Read) }
{
    tell_most(inbox, most, watch);
    let text = refusal_text(alloc, Refusal::TooManyRows)?;
    write_output(writer, text.as_slice())
}

fn tell_most<S: Watch>(inbox: &Inbox, most: MostRows, watch: &mut S) {
    if !inbox.has_refusals() {
        watch.too_many_rows(&most);
    }
}
