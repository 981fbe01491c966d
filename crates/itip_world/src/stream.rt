//! A stream of commands from the first to the last.
ghost use Rattle.std.specs.Prelude.{IfOk, OnErr};
ghost use Rattle.itip_world.specs.Serving.{IsStream, IsStreamFront};

use crate::served::Served;
use crate::shelf::Shelf;
use crate::watch::Watch;
use itip_desk::Desk;
use itip_streams::StreamFault;
use itip_view::Window;
use std::alloc::Global;
use std::io::{Read, Write};

/// Serves a stream of commands over these desks until its end, and returns whether any answer was a refusal.
///
/// Each command is answered, and its answer written, before any byte after it is read; neither is held afterwards. `watch` is told of
/// each command that was answered. On an error, the answers so far have been written, and at most a prefix of the next.
pub fn run_stream<R: Read, W: Write, S: Shelf, T: Watch>(
    alloc: Global,
    reader: &mut R,
    writer: &mut W,
    desks: Vec<Desk>,
    window: Window,
    shelf: &mut S,
    watch: &mut T,
) -> Result<bool, StreamFault>
    ensures all { IfOk result (IsStream window desks.items (R.remaining reader.old) (R.remaining reader.new)
        (W.contents writer.old) (W.contents writer.new)) }
    ensures front { OnErr result (IsStreamFront window desks.items (R.remaining reader.old) (R.remaining reader.new)
        (W.contents writer.old) (W.contents writer.new)) }
{
    let mut served = Served {
        alloc,
        desks,
        window,
    };
    let mut is_refused = false;
    for _ in 0..u64::MAX {
        let Some(refused) = served.step(reader, writer, shelf, watch)? else {
            return Ok(is_refused);
        };
        is_refused |= refused;
    }
    Err(StreamFault::Read)
}
