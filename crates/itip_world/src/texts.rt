//! The texts of answers.
ghost use Rattle.std.specs.Prelude.{◌≡◌, ◌++◌, map, OnOk};
ghost use Rattle.std.specs.List.{flat_map};
ghost use Rattle.std.specs.Option.{option_map};
ghost use Rattle.std.specs.String.{string_bytes};
ghost use Rattle.itip_world.specs.AnswerTexts.{taken_text, posted_text, arrived_text, counted_text};
ghost use Rattle.itip_world.specs.AnswerTexts.{reported_text, resent_text, next_text, ended};
ghost use Rattle.itip_world.specs.AnswerTexts.{sent_head, sent_text, reached_text, saved_text};
ghost use Rattle.itip_world.specs.Running.{answer_of, answer_text};

use crate::answer::{Answer, Heard};
use itip_desk::Refusal;
use itip_report::ReportName;
use std::alloc::AllocError;

impl Answer {
    /// Appends the text of the answer. If an allocation fails, a part of it may have been appended.
    pub(crate) fn append(&self, output: &mut Vec<u8>) -> Result<(), AllocError>
        ensures { OnOk result (output.new.items ≡ output.old.items ++ answer_text (answer_of self.now)) }
    {
        match self {
            Answer::Refused(refusal) => refusal.append(output),
            Answer::TooMany(_) => Refusal::TooManyRows.append(output),
            Answer::Took { desk, heard } => append_taken(output, *desk, *heard),
            Answer::Posted { packet, items } => append_posted(output, *packet, *items),
            Answer::Arrived {
                packet,
                desk,
                heard,
            } => append_arrived(output, *packet, *desk, *heard),
            Answer::Counted { desk, entries } => append_counted(output, *desk, *entries),
            Answer::Reported { desk, name, lines } => append_reported(output, *desk, *name, lines),
            Answer::Resent { desk, messages } => append_resent(output, *desk, messages.as_deref()),
            Answer::Sent {
                desk,
                tick,
                items,
                octets,
            } => append_sent(output, *desk, *tick, *items, octets),
            Answer::Reached { desk, heard } => append_reached(output, *desk, *heard),
            Answer::Saved { desk, tick } => append_saved(output, *desk, *tick),
            Answer::Next { desk, sequence } => append_next(output, *desk, *sequence),
        }
    }
}

fn append_taken(output: &mut Vec<u8>, desk: usize, heard: Heard) -> Result<(), AllocError>
    ensures { OnOk result (output.new.items ≡ output.old.items ++ taken_text desk heard.tick heard.changed) }
{
    let Heard { tick, changed } = heard;
    let line = format!(in *output.allocator(); "take {desk} tick {tick} changed {changed}\n")?;
    output.extend_from_slice(line.as_bytes())
}

fn append_posted(output: &mut Vec<u8>, packet: usize, items: usize) -> Result<(), AllocError>
    ensures { OnOk result (output.new.items ≡ output.old.items ++ posted_text packet items) }
{
    let line = format!(in *output.allocator(); "post {packet} items {items}\n")?;
    output.extend_from_slice(line.as_bytes())
}

fn append_arrived(
    output: &mut Vec<u8>,
    packet: usize,
    desk: usize,
    heard: Heard,
) -> Result<(), AllocError>
    ensures { OnOk result (output.new.items ≡ output.old.items ++ arrived_text packet desk heard.tick heard.changed) }
{
    let Heard { tick, changed } = heard;
    let line = format!(in *output.allocator();
        "arrive {packet} {desk} tick {tick} changed {changed}\n"
    )?;
    output.extend_from_slice(line.as_bytes())
}

fn append_counted(output: &mut Vec<u8>, desk: u64, entries: usize) -> Result<(), AllocError>
    ensures { OnOk result (output.new.items ≡ output.old.items ++ counted_text desk entries) }
{
    let line = format!(in *output.allocator(); "entries {desk} {entries}\n")?;
    output.extend_from_slice(line.as_bytes())
}

/// Appends the lines of a report, after a line that says how many there are.
fn append_reported(
    output: &mut Vec<u8>,
    desk: u64,
    name: ReportName,
    lines: &[String],
) -> Result<(), AllocError>
    ensures { OnOk result (output.new.items ≡ output.old.items ++ reported_text desk name (map string_bytes lines.now)) }
{
    let named = name.as_str();
    let count = lines.len();
    let head = format!(in *output.allocator(); "report {desk} {named} {count}\n")?;
    output.extend_from_slice(head.as_bytes())?;
    append_lines(output, lines)
}

fn append_lines(output: &mut Vec<u8>, lines: &[String]) -> Result<(), AllocError>
    ensures { OnOk result (output.new.items ≡ output.old.items ++ flat_map ended (map string_bytes lines.now)) }
{
    for line in lines {
        output.extend_from_slice(line.as_bytes())?;
        output.push(b'\n')?;
    }
    Ok(())
}

/// Appends the messages that a desk sends again, after a line with their length in bytes, or a line that says that there are none.
fn append_resent(output: &mut Vec<u8>, desk: u64, messages: Option<&[u8]>) -> Result<(), AllocError>
    ensures { OnOk result (output.new.items ≡ output.old.items ++ resent_text desk (option_map (λ bytes. bytes.now) messages.entry)) }
{
    let alloc = *output.allocator();
    let Some(bytes) = messages else {
        let line = format!(in alloc; "resend {desk} none\n")?;
        return output.extend_from_slice(line.as_bytes());
    };
    let count = bytes.len();
    let line = format!(in alloc; "resend {desk} bytes {count}\n")?;
    output.extend_from_slice(line.as_bytes())?;
    output.extend_from_slice(bytes)
}

/// Appends the next sequence of a UID, or that none is left.
fn append_next(output: &mut Vec<u8>, desk: u64, next: Option<u32>) -> Result<(), AllocError>
    ensures { OnOk result (output.new.items ≡ output.old.items ++ next_text desk next) }
{
    let alloc = *output.allocator();
    let line = match next {
        Some(sequence) => format!(in alloc; "next {desk} {sequence}\n")?,
        None => format!(in alloc; "next {desk} none\n")?,
    };
    output.extend_from_slice(line.as_bytes())
}

/// Appends the bytes of a delta, after a line that says how many there are.
fn append_sent(
    output: &mut Vec<u8>,
    desk: u64,
    tick: u64,
    items: usize,
    octets: &[u8],
) -> Result<(), AllocError>
    ensures { OnOk result (output.new.items ≡ output.old.items ++ sent_text desk tick items octets.now) }
{
    append_sent_head(output, desk, tick, items, octets.len())?;
    output.extend_from_slice(octets)
}

fn append_sent_head(
    output: &mut Vec<u8>,
    desk: u64,
    tick: u64,
    items: usize,
    count: usize,
) -> Result<(), AllocError>
    ensures { OnOk result (output.new.items ≡ output.old.items ++ sent_head desk tick items count) }
{
    let line = format!(in *output.allocator();
        "post {desk} tick {tick} items {items} bytes {count}\n"
    )?;
    output.extend_from_slice(line.as_bytes())
}

fn append_reached(output: &mut Vec<u8>, desk: u64, heard: Heard) -> Result<(), AllocError>
    ensures { OnOk result (output.new.items ≡ output.old.items ++ reached_text desk heard.tick heard.changed) }
{
    let Heard { tick, changed } = heard;
    let line = format!(in *output.allocator(); "arrive {desk} tick {tick} changed {changed}\n")?;
    output.extend_from_slice(line.as_bytes())
}

fn append_saved(output: &mut Vec<u8>, desk: u64, tick: u64) -> Result<(), AllocError>
    ensures { OnOk result (output.new.items ≡ output.old.items ++ saved_text desk tick) }
{
    let line = format!(in *output.allocator(); "save {desk} tick {tick}\n")?;
    output.extend_from_slice(line.as_bytes())
}
