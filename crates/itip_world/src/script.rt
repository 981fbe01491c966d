//! A script from its first command to its last.
ghost use Rattle.std.specs.Prelude.{ℕ, ◌≡◌, ◌≢◌, ◌≤◌, true, IfOk, IfErr, OnOk, OnErr, IsErrOf, IfSome};
ghost use Rattle.std.specs.Io.KnownBytes.{Keeps, Appends};
ghost use Rattle.itip_world.specs.Worlds.{no_past, IsWorldOf};
ghost use Rattle.itip_world.specs.Running.{IsOutput, Writes, WritesRunFront, WritesSome};
ghost use Rattle.itip_desk.specs.Refusals.{refused_text};
ghost use Rattle.itip_script.specs.Script.{orders_of};
ghost use Rattle.itip_streams.specs.Written.{AppendsFront, WritesOutput};

use crate::asked::Desks;
use crate::watch::Watch;
use itip_desk::Refusal;
use itip_script::{Commands, read_script};
use itip_streams::{StreamFault, write_if_many, write_output};
use itip_view::Window;
use std::alloc::Global;
use std::io::{Read, Write};

/// Runs a script over 1 to 16 desks that have heard nothing, and returns whether any answer was a refusal.
///
/// The whole script is read before anything is written. A script of more than [`MAX_OCTETS`](itip_script::MAX_OCTETS) bytes is refused as
/// a whole (61). On [`StreamFault::Read`] nothing has been written; on another error, a prefix of the output has.
pub fn run_script<R: Read, W: Write>(
    alloc: Global,
    reader: &mut R,
    writer: &mut W,
    desks: usize,
    window: Window,
) -> Result<bool, StreamFault>
    requires some { 1 ≤ desks }
    requires few { desks ≤ 16 }
    ensures output { IfOk result (λ refusal. IfSome (R.remaining reader.old) (λ script.
        WritesOutput (IsOutput window desks script) (W.contents writer.old) (W.contents writer.new) refusal)) }
    ensures front { OnErr result (IfSome (R.remaining reader.old) (λ script.
        WritesRunFront window desks (W.contents writer.old) (W.contents writer.new) script)) }
    ensures unread { IsErrOf result StreamFault.Read → Keeps (W.contents writer.old) (W.contents writer.new) }
{
    run_script_watched(alloc, reader, writer, desks, window, &mut ())
}

/// Runs a script as [`run_script`] does. `watch` is told of each command that was answered, or that the script was refused as a whole; on
/// [`StreamFault::Read`], of nothing.
pub fn run_script_watched<R: Read, W: Write, T: Watch>(
    alloc: Global,
    reader: &mut R,
    writer: &mut W,
    desks: usize,
    window: Window,
    watch: &mut T,
) -> Result<bool, StreamFault>
    requires some { 1 ≤ desks }
    requires few { desks ≤ 16 }
    ensures output { IfOk result (λ refusal. IfSome (R.remaining reader.old) (λ script.
        WritesOutput (IsOutput window desks script) (W.contents writer.old) (W.contents writer.new) refusal)) }
    ensures front { OnErr result (IfSome (R.remaining reader.old) (λ script.
        WritesRunFront window desks (W.contents writer.old) (W.contents writer.new) script)) }
    ensures unread { IsErrOf result StreamFault.Read → Keeps (W.contents writer.old) (W.contents writer.new) }
    ensures untold { IsErrOf result StreamFault.Read → watch.new ≡ watch.old }
{
    let Some(script) = read_script(alloc, reader)? else {
        watch.refused_script(Refusal::LongScript);
        return refuse_whole(alloc, writer);
    };
    let mut asked = Desks::start(alloc, desks, window)?;
    run_commands(&mut asked, script.as_slice(), writer, watch)
}

fn refuse_whole<W: Write>(alloc: Global, writer: &mut W) -> Result<bool, StreamFault>
    ensures all { IfOk result (λ refusal.
        (refusal ≡ true) × Appends (W.contents writer.old) (W.contents writer.new) (refused_text 61)) }
    ensures front { OnErr result (AppendsFront (W.contents writer.old) (W.contents writer.new) (refused_text 61)) }
    ensures fault { IfErr result (λ fault. fault ≢ StreamFault.Read) }
{
    let mut answer = Vec::new(alloc);
    Refusal::LongScript.append(&mut answer)?;
    write_output(writer, answer.as_slice())?;
    Ok(true)
}

// Runs the commands of a script over desks that have heard nothing. Lists are never held whole; reports and messages to send again are.
fn run_commands<W: Write, T: Watch>(
    asked: &mut Desks,
    script: &[u8],
    writer: &mut W,
    watch: &mut T,
) -> Result<bool, StreamFault>
    ensures all { IfOk result (λ refusal. (desks : ℕ) → IsWorldOf (no_past desks) asked.old.world →
        WritesOutput (Writes asked.old.window desks (orders_of script.now)) (W.contents writer.old) (W.contents writer.new) refusal) }
    ensures front { OnErr result ((desks : ℕ) → IsWorldOf (no_past desks) asked.old.world →
        WritesSome asked.old.window desks (W.contents writer.old) (W.contents writer.new) (orders_of script.now)) }
    ensures fault { IfErr result (λ fault. fault ≢ StreamFault.Read) }
{
    let mut kept = Vec::new(asked.alloc);
    let mut is_refused = false;
    for command in Commands::new(script) {
        let refused = asked.reply(&command, writer, &mut kept)?;
        is_refused |= refused.is_some();
        watch.answered(command.word(), refused.as_ref());
        drop(refused);
        write_if_many(writer, &mut kept)?;
    }
    write_output(writer, kept.as_slice())?;
    Ok(is_refused)
}
