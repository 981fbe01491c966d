//! A script of jobs, from its first command to the last list.
ghost use Rattle.std.specs.Prelude.{◌≡◌, ◌≢◌, ◌≤◌, ◌++◌, true, IfOk, IfErr, OnOk, OnErr, IsErrOf, IfSome, IsPermutation, is_some};
ghost use Rattle.std.specs.List.{flat_map};
ghost use Rattle.std.specs.List.Sorted.{IsNonDecreasingBy};
ghost use Rattle.std.specs.Io.KnownBytes.{Keeps, Appends};
ghost use Rattle.itip_desk.specs.Refusals.{refused_text};
ghost use Rattle.itip_streams.specs.Written.{AppendsFront, WritesOutput};
ghost use Rattle.itip_script.specs.Jobs.{errands_of};
ghost use Rattle.itip_office.specs.declared.error.OfficeError.{OfficeError};
ghost use Rattle.itip_office.specs.Scripts.{refused_of, refused_job_text, WritesList, WritesListFront, IsEndedText, WritesEndedFront};
ghost use Rattle.itip_office.specs.Scripts.{EndsWith, IsScriptOutput, WritesScriptFront};

use crate::error::ScriptError;
use crate::gate::OpenGate;
use crate::office::run_office;
use crate::outcome::Outcome;
use crate::script_jobs::{ScriptJobs, script_jobs};
use crate::watch::Watch;
use itip_desk::{Desk, Refusal, write_listed};
use itip_script::read_script;
use itip_streams::{StreamFault, write_if_many, write_output};
use itip_view::{MostRows, Window};
use std::alloc::{AllocError, Global};
use std::io::{Read, Write};
use std::sync::Wait;
use std::thread::Threads;

/// Runs the jobs of a script on threads, as [`run_office`] does: one for each worker, and one for each keeper. Writes `job N refused C` for
/// each job that is refused, in the order of the jobs, and then the list of each desk, or `refused 31` if it has too many rows. Returns
/// whether anything written was a refusal. In addition to the output, `watch` is told what is refused; it is told nothing if the script
/// could not be read or the jobs ended in an error.
///
/// Jobs are numbered from 0, by their commands. The whole script is read before anything is done. A script of more than
/// [`MAX_OCTETS`](itip_script::MAX_OCTETS) bytes is refused as a whole (61). On an error, a prefix of the output has been written: nothing
/// of it unless a write or an allocation failed.
pub fn run_jobs<
    R: AllocGlobal + Threads + Wait + Copy + Send + Sync + 'static,
    I: Read,
    W: Write,
    T: Watch,
>(
    rt: &R,
    reader: &mut I,
    writer: &mut W,
    desks: usize,
    workers: usize,
    window: Window,
    watch: &mut T,
) -> Result<bool, ScriptError>
    requires desks { (1 ≤ desks) × (desks ≤ 16) }
    requires workers { (1 ≤ workers) × (workers ≤ 8) }
    ensures output { IfOk result (λ refusal. IfSome (I.remaining reader.old) (λ script.
        WritesOutput (IsScriptOutput window desks script) (W.contents writer.old) (W.contents writer.new) refusal)) }
    ensures front { OnErr result (IfSome (I.remaining reader.old) (λ script.
        WritesScriptFront window desks (W.contents writer.old) (W.contents writer.new) script)) }
    ensures unread { IsErrOf result (ScriptError.Stream StreamFault.Read) → Keeps (W.contents writer.old) (W.contents writer.new) }
    ensures unended { (error : OfficeError) → IsErrOf result (ScriptError.Office error) →
        Keeps (W.contents writer.old) (W.contents writer.new) }
    ensures gate { IsErrOf result (ScriptError.Office OfficeError.GateClosed) → ⊥ }
    ensures channel { IsErrOf result (ScriptError.Office OfficeError.ChannelClosed) → ⊥ }
    ensures unread_untold { IsErrOf result (ScriptError.Stream StreamFault.Read) → watch.new ≡ watch.old }
    ensures unended_untold { (error : OfficeError) → IsErrOf result (ScriptError.Office error) → watch.new ≡ watch.old }
{
    let alloc = rt.alloc();
    let Some(script) = read_script(alloc, reader)? else {
        watch.refused_script(Refusal::LongScript);
        return Ok(refuse_whole(alloc, writer)?);
    };
    let (refused, ended) = run_script(rt, desks, workers, window, script)?;
    Ok(end_script(alloc, writer, refused, ended, window, watch)?)
}

// The refused jobs of a script, in the order of their numbers, and the desks that the others end with. The script is dropped before they
// run.
fn run_script<R: AllocGlobal + Threads + Wait + Copy + Send + Sync + 'static>(
    rt: &R,
    desks: usize,
    workers: usize,
    window: Window,
    script: Vec<u8>,
) -> Result<(Vec<(u64, Refusal)>, Vec<Desk>), ScriptError>
    requires desks { (1 ≤ desks) × (desks ≤ 16) }
    requires workers { (1 ≤ workers) × (workers ≤ 8) }
    ensures ends { IfOk result (λ r. EndsWith window desks (errands_of script.items) r.0.items r.1.items) }
    ensures read { IsErrOf result (ScriptError.Stream StreamFault.Read) → ⊥ }
    ensures gate { IsErrOf result (ScriptError.Office OfficeError.GateClosed) → ⊥ }
    ensures channel { IsErrOf result (ScriptError.Office OfficeError.ChannelClosed) → ⊥ }
{
    let ScriptJobs { jobs, others } = script_jobs(rt.alloc(), script.as_slice(), window)?;
    drop(script);
    let ended = run_office(rt, desks, workers, jobs, OpenGate)?;
    let refused = refused_jobs(others, &ended.replies)?;
    Ok((refused, ended.desks))
}

// Tells the watch and writes what a script ends with. `refused` and `ended` are dropped here, whatever is returned.
fn end_script<W: Write, T: Watch>(
    alloc: Global,
    writer: &mut W,
    refused: Vec<(u64, Refusal)>,
    ended: Vec<Desk>,
    window: Window,
    watch: &mut T,
) -> Result<bool, StreamFault>
    ensures all { IfOk result (λ refusal.
        WritesOutput (IsEndedText window refused.items ended.items) (W.contents writer.old) (W.contents writer.new) refusal) }
    ensures front { OnErr result (WritesEndedFront window (W.contents writer.old) (W.contents writer.new) refused.items ended.items) }
    ensures fault { IfErr result (λ fault. fault ≢ StreamFault.Read) }
{
    tell_refused(&refused, watch);
    write_ended(alloc, writer, &refused, &ended, window, watch)
}

fn refuse_whole<W: Write>(alloc: Global, writer: &mut W) -> Result<bool, StreamFault>
    ensures all { IfOk result (λ refusal.
        (refusal ≡ true) × Appends (W.contents writer.old) (W.contents writer.new) (refused_text 61)) }
    ensures front { OnErr result (AppendsFront (W.contents writer.old) (W.contents writer.new) (refused_text 61)) }
    ensures fault { IfErr result (λ fault. fault ≢ StreamFault.Read) }
{
    let mut line = Vec::new(alloc);
    Refusal::LongScript.append(&mut line)?;
    write_output(writer, line.as_slice())?;
    Ok(true)
}

/// These refused jobs and those among the replies, in the order of their numbers.
fn refused_jobs(
    others: Vec<(u64, Refusal)>,
    replies: &[(u64, Outcome)],
) -> Result<Vec<(u64, Refusal)>, AllocError>
    ensures all { IfOk result (λ refused. IsPermutation (others.items ++ refused_of replies.now) refused.items) }
    ensures ascend { IfOk result (λ refused. IsNonDecreasingBy (λ r. r.0) refused.items) }
{
    let mut refused = others;
    for reply in replies {
        if let Some(refusal) = reply.1.refusal() {
            refused.push((reply.0, refusal))?;
        }
    }
    refused.sort_by_key(|one| one.0)?;
    Ok(refused)
}

fn tell_refused<T: Watch>(refused: &[(u64, Refusal)], watch: &mut T) {
    for job in refused {
        watch.refused_job(job.0, job.1);
    }
}

/// Writes the refused jobs, and the list of each desk. Returns whether anything written was a refusal.
fn write_ended<W: Write, T: Watch>(
    alloc: Global,
    writer: &mut W,
    refused: &[(u64, Refusal)],
    desks: &[Desk],
    window: Window,
    watch: &mut T,
) -> Result<bool, StreamFault>
    ensures all { IfOk result (λ refusal.
        WritesOutput (IsEndedText window refused.now desks.now) (W.contents writer.old) (W.contents writer.new) refusal) }
    ensures front { OnErr result (WritesEndedFront window (W.contents writer.old) (W.contents writer.new) refused.now desks.now) }
    ensures fault { IfErr result (λ fault. fault ≢ StreamFault.Read) }
{
    let mut output = Vec::new(alloc);
    append_refused(&mut output, refused)?;
    let mut is_refused = !refused.is_empty();
    for (number, desk) in desks.iter().enumerate() {
        let most = write_list(number as u64, desk, window, writer, &mut output)?;
        is_refused |= most.is_some();
        tell_most(number as u64, most.as_ref(), watch);
        drop(most);
        write_if_many(writer, &mut output)?;
    }
    write_output(writer, output.as_slice())?;
    Ok(is_refused)
}

/// Appends `job N refused C` for each of these jobs.
fn append_refused(output: &mut Vec<u8>, refused: &[(u64, Refusal)]) -> Result<(), AllocError>
    ensures { OnOk result (output.new.items ≡ output.old.items ++ flat_map refused_job_text refused.now) }
{
    for job in refused {
        append_job(output, job.0, job.1)?;
    }
    Ok(())
}

fn append_job(output: &mut Vec<u8>, number: u64, refusal: Refusal) -> Result<(), AllocError>
    ensures { OnOk result (output.new.items ≡ output.old.items ++ refused_job_text (number, refusal)) }
{
    let cause = refusal.number();
    let line = format!(in *output.allocator(); "job {number} refused {cause}\n")?;
    output.extend_from_slice(line.as_bytes())
}

/// Writes the list of a desk, or the refusal that it has too many rows; in that case returns the to-do that has the most of them. What is
/// written follows the bytes in `kept`, which wait to be written. No list is held as a whole.
fn write_list<W: Write>(
    number: u64,
    desk: &Desk,
    window: Window,
    writer: &mut W,
    kept: &mut Vec<u8>,
) -> Result<Option<MostRows>, StreamFault>
    ensures list { IfOk result (λ most. WritesList window number desk.now (W.contents writer.old) (W.contents writer.new)
        kept.old.items kept.new.items (is_some most)) }
    ensures front { OnErr result (WritesListFront window number desk.now (W.contents writer.old) (W.contents writer.new) kept.old.items) }
    ensures fault { IfErr result (λ fault. fault ≢ StreamFault.Read) }
{
    let rows = desk.rows(window)?;
    write_listed("list", number, rows, writer, kept)
}

fn tell_most<T: Watch>(number: u64, most: Option<&MostRows>, watch: &mut T) {
    if let Some(most) = most {
        watch.too_many_rows(number, most);
    }
}
