//! The splitting of an input into lines, and the handling of each line.
//!
//! A line feed ends a line and is not part of it; a carriage return is an ordinary byte. The bytes
//! after the last line feed are a line unless there are none.
ghost use Rattle.std.specs.Prelude.{◌≡◌, ℕ, ◌+◌, ◌^◌, ◌≤◌, ◌<◌, ◌⊎◌, [], ◌∷◌, ◌++◌, None, true, false, length, take, drop, OnOk, OnErr, IfOk, IfSome, IfNone, vec_len, IsErrOf, All, ◌≢◌};
ghost use Rattle.std.specs.Io.KnownBytes.{Appends};
ghost use Rattle.sdb_lines.specs.Limits.{max_partial_len};
ghost use Rattle.sdb_lines.specs.Lines.{readable_text, readable_lines_from};
ghost use Rattle.sdb_lines.specs.Chunks.{lines_ended_by, partial_line_after, kept_prefix};
ghost use Rattle.sdb_lines.specs.Counts.{is_counted_step, counts_after};
ghost use Rattle.sdb_lines.specs.Streams.{failures_after};
ghost use Rattle.sdb_lines.specs.Prefixes.{AppendsPrefix, WroteUpTo};
ghost use Rattle.sdb_lines.specs.Runs.{AppendsWhere, AnswersLine, AppendsAnswers, AppendsAnswersUpTo, AppendsAnswerPrefix};
ghost use Rattle.sdb_lines.specs.declared.runner.RunFault.{RunFault};

use crate::line_handler::{LineHandler, LineProgress};
use crate::runner::{Counts, RunFault};
use crate::streams::Sink;
use memchr::memchr;
use std::alloc::{AllocError, Global};

/// The maximum length of a line in bytes, without its line feed: 1,048,576.
pub const LINE_LIMIT: usize = 1_048_576;

// The number of bytes kept of a line, one more than the limit so that a longer line is recognized.
const PARTIAL_LINE_LIMIT: usize = 1_048_577;

// The length of the output, in bytes, at which it is written before the chunk is finished.
const OUTPUT_LIMIT: usize = 65_536;

// The state of a run between two chunks of its input.
#[derive(Drop)]
pub(crate) struct LineBuffer {
    // The bytes of the unfinished line, up to the limit.
    pub partial_line: Vec<u8>,
    // The answers that are not written yet.
    pub out: Vec<u8>,
    pub counts: Counts,
    ghost partial_line_bounded: { vec_len partial_line ≤ max_partial_len },
    ghost output_ordered: { counts.steps ≤ counts.lines },
}

impl LineBuffer {
    pub fn new(alloc: Global) -> LineBuffer
        ensures partial_line { result.partial_line.items ≡ [] }
        ensures out { result.out.items ≡ [] }
        ensures lines { result.counts.lines ≡ 0 }
        ensures steps { result.counts.steps ≡ 0 }
    {
        LineBuffer {
            partial_line: Vec::new(alloc),
            out: Vec::new(alloc),
            counts: Counts { lines: 0, steps: 0 },
        }
    }
}

// Handles a line of arbitrary bytes, and appends its answer or the first part of it.
fn handle_line<M: LineHandler>(
    alloc: Global,
    machine: &mut M,
    line: &[u8],
    out: &mut Vec<u8>,
) -> Result<LineProgress, AllocError>
    ensures answer { IfOk result (λ p. AppendsWhere out.old.items out.new.items (λ bytes.
        AnswersLine M.handles M.is_answering M.state p.is_done (M.state machine.old)
        (readable_text line.now) bytes machine.new)) }
    ensures step { IfOk result (λ p. p.is_step ≡ is_counted_step M.counts_as_step (readable_text line.now)) }
{
    if line.len() > LINE_LIMIT {
        return handle_unreadable(alloc, machine, out);
    }
    match str::from_utf8(line) {
        Ok(text) => machine.handle(alloc, text, out),
        Err(_) => handle_unreadable(alloc, machine, out),
    }
}

fn handle_unreadable<M: LineHandler>(
    alloc: Global,
    machine: &mut M,
    out: &mut Vec<u8>,
) -> Result<LineProgress, AllocError>
    ensures answer { OnOk result (AppendsWhere out.old.items out.new.items
        (λ answer. M.handles (M.state machine.old) None answer (M.state machine.new))) }
    ensures progress { IfOk result (λ p. p ≡ record { is_step = false; is_done = true }) }
{
    machine.handle_unreadable(alloc, out)?;
    Ok(LineProgress::done(false))
}

// Appends the chunk to the kept bytes of the line, up to the limit.
fn append_partial(partial: &mut Vec<u8>, input: &[u8]) -> Result<(), AllocError>
    requires { vec_len partial.old ≤ PARTIAL_LINE_LIMIT }
    ensures items { OnOk result (partial.new.items ≡ kept_prefix (partial.old.items ++ input.now)) }
    ensures bound { vec_len partial.new ≤ PARTIAL_LINE_LIMIT }
{
    let room = PARTIAL_LINE_LIMIT - partial.len();
    let taken = input.len().min(room);
    partial.extend_from_slice(&input[..taken])
}

/// Writes all of the output and empties it.
///
/// # Errors
///
/// [`RunFault::WriteFailed`] if a write fails or writes 0 bytes; a prefix of the output is then
/// written.
pub fn flush_buffer<W: Sink>(out: &mut Vec<u8>, writer: &mut W) -> Result<(), RunFault>
    ensures empty { OnOk result (out.new.items ≡ []) }
    ensures wrote { OnOk result (Appends (W.bytes_written writer.old) (W.bytes_written writer.new) out.old.items) }
    ensures prefix_on_err { OnErr result (AppendsPrefix (W.bytes_written writer.old)
        (W.bytes_written writer.new) out.old.items) }
    ensures no_failure { OnOk result (W.failures writer.new ≡ W.failures writer.old) }
    ensures fault { OnErr result (IsErrOf result RunFault.WriteFailed
        × (W.failures writer.new ≡ failures_after true (W.failures writer.old))) }
{
    let mut at = 0;
    while at < out.len() {
        match writer.write_from(&out[at..]) {
            Ok(0) => return Err(RunFault::WriteFailed),
            Ok(n) => at += n,
            Err(_) => return Err(RunFault::WriteFailed),
        }
    }
    out.clear();
    Ok(())
}

/// Returns the index of the first line feed.
pub fn first_line_feed(bytes: &[u8]) -> Option<usize>
    ensures found { IfSome result (λ at. (at < length bytes.now) × All (λ x. x ≢ 10) (take at bytes.now)
        × (bytes.now ≡ take at bytes.now ++ 10 ∷ drop (at + 1) bytes.now)) }
    ensures fits { IfSome result (λ at. at + 1 < 2 ^ 64) }
    ensures none { IfNone result (All (λ x. x ≢ 10) bytes.now) }
{
    memchr(b'\n', bytes)
}

// Writes the output once it reaches the limit.
fn write_long_output<W: Sink>(out: &mut Vec<u8>, writer: &mut W) -> Result<(), RunFault>
    ensures wrote { OnOk result (WroteUpTo out.new.items (W.bytes_written writer.old)
        (W.bytes_written writer.new) out.old.items) }
    ensures prefix_on_err { OnErr result (AppendsPrefix (W.bytes_written writer.old)
        (W.bytes_written writer.new) out.old.items) }
    ensures no_failure { OnOk result (W.failures writer.new ≡ W.failures writer.old) }
    ensures fault { OnErr result (IsErrOf result RunFault.WriteFailed
        × (W.failures writer.new ≡ failures_after true (W.failures writer.old))) }
{
    if out.len() < OUTPUT_LIMIT {
        return Ok(());
    }
    flush_buffer(out, writer)
}

// Handles a line, and writes the output each time it reaches the limit. Returns whether the line is
// a step.
fn answer_line<M: LineHandler, W: Sink>(
    alloc: Global,
    machine: &mut M,
    line: &[u8],
    out: &mut Vec<u8>,
    writer: &mut W,
) -> Result<bool, RunFault>
    ensures step { IfOk result (λ b. b ≡ is_counted_step M.counts_as_step (readable_text line.now)) }
    ensures wrote_answers { OnOk result (AppendsAnswersUpTo M.handles out.new.items
        (M.state machine.old) (readable_text line.now ∷ []) (M.state machine.new)
        out.old.items (W.bytes_written writer.old) (W.bytes_written writer.new)) }
    ensures prefix_on_err { OnErr result (AppendsAnswerPrefix M.handles
        (M.state machine.old) (readable_text line.now ∷ [])
        out.old.items (W.bytes_written writer.old) (W.bytes_written writer.new)) }
    ensures write_failures { (W.failures writer.new ≡ W.failures writer.old) ⊎ IsErrOf result RunFault.WriteFailed }
    ensures write_failed { IsErrOf result RunFault.WriteFailed →
        W.failures writer.new ≡ failures_after true (W.failures writer.old) }
    ensures never_read_failed { IsErrOf result RunFault.ReadFailed → ⊥ }
{
    let LineProgress {
        is_step,
        mut is_done,
    } = handle_line(alloc, machine, line, out)?;
    while !is_done {
        write_long_output(out, writer)?;
        is_done = machine.continue_answer(alloc, out)?;
    }
    write_long_output(out, writer)?;
    Ok(is_step)
}

// Handles and counts the line that ends with this chunk, and writes the output once it reaches the
// limit.
fn handle_partial<M: LineHandler, W: Sink>(
    alloc: Global,
    machine: &mut M,
    line_buffer: &mut LineBuffer,
    writer: &mut W,
    input: &[u8],
) -> Result<(), RunFault>
    requires counter_bound { line_buffer.old.counts.lines + 1 < 2 ^ 64 }
    ensures partial_line { OnOk result (line_buffer.new.partial_line.items ≡ []) }
    ensures count { OnOk result (line_buffer.new.counts
        ≡ counts_after M.counts_as_step line_buffer.old.counts (readable_text
        (line_buffer.old.partial_line.items ++ input.now)
        ∷ [])) }
    ensures wrote_answers { OnOk result (AppendsAnswersUpTo M.handles line_buffer.new.out.items
        (M.state machine.old) (readable_text (line_buffer.old.partial_line.items ++ input.now) ∷ [])
        (M.state machine.new)
        line_buffer.old.out.items (W.bytes_written writer.old) (W.bytes_written writer.new)) }
    ensures prefix_on_err { OnErr result (AppendsAnswerPrefix M.handles
        (M.state machine.old) (readable_text (line_buffer.old.partial_line.items ++ input.now) ∷ [])
        line_buffer.old.out.items (W.bytes_written writer.old) (W.bytes_written writer.new)) }
    ensures write_failures { (W.failures writer.new ≡ W.failures writer.old) ⊎ IsErrOf result RunFault.WriteFailed }
    ensures write_failed { IsErrOf result RunFault.WriteFailed →
        W.failures writer.new ≡ failures_after true (W.failures writer.old) }
    ensures never_read_failed { IsErrOf result RunFault.ReadFailed → ⊥ }
{
    append_partial(&mut line_buffer.partial_line, input)?;
    let is_step = answer_line(
        alloc,
        machine,
        line_buffer.partial_line.as_slice(),
        &mut line_buffer.out,
        writer,
    )?;
    line_buffer.partial_line.clear();
    line_buffer.counts.count_line(is_step);
    Ok(())
}

// Handles the lines that end in this chunk, and keeps the rest of it.
fn handle_chunk_lines<M: LineHandler, W: Sink>(
    alloc: Global,
    machine: &mut M,
    line_buffer: &mut LineBuffer,
    writer: &mut W,
    input: &[u8],
) -> Result<(), RunFault>
    requires counter_bound { line_buffer.old.counts.lines + length input.now < 2 ^ 64 }
    ensures partial_line { OnOk result (line_buffer.new.partial_line.items
        ≡ kept_prefix (partial_line_after input.now line_buffer.old.partial_line.items)) }
    ensures count { OnOk result (line_buffer.new.counts
        ≡ counts_after M.counts_as_step line_buffer.old.counts
        (lines_ended_by input.now line_buffer.old.partial_line.items)) }
    ensures wrote_answers { OnOk result (AppendsAnswersUpTo M.handles line_buffer.new.out.items
        (M.state machine.old) (lines_ended_by input.now line_buffer.old.partial_line.items) (M.state machine.new)
        line_buffer.old.out.items (W.bytes_written writer.old) (W.bytes_written writer.new)) }
    ensures prefix_on_err { OnErr result (AppendsAnswerPrefix M.handles (M.state machine.old)
        (lines_ended_by input.now line_buffer.old.partial_line.items)
        line_buffer.old.out.items (W.bytes_written writer.old) (W.bytes_written writer.new)) }
    ensures write_failures { (W.failures writer.new ≡ W.failures writer.old) ⊎ IsErrOf result RunFault.WriteFailed }
    ensures write_failed { IsErrOf result RunFault.WriteFailed →
        W.failures writer.new ≡ failures_after true (W.failures writer.old) }
    ensures never_read_failed { IsErrOf result RunFault.ReadFailed → ⊥ }
{
    let mut rest = input;
    while let Some(at) = first_line_feed(rest) {
        handle_partial(alloc, machine, line_buffer, writer, &rest[..at])?;
        rest = &rest[at + 1..];
    }
    append_partial(&mut line_buffer.partial_line, rest)?;
    Ok(())
}

// Writes all of the output and flushes the writer.
fn write_and_flush<W: Sink>(out: &mut Vec<u8>, writer: &mut W) -> Result<(), RunFault>
    ensures empty { OnOk result (out.new.items ≡ []) }
    ensures wrote { OnOk result (Appends (W.bytes_written writer.old) (W.bytes_written writer.new) out.old.items) }
    ensures prefix_on_err { OnErr result (AppendsPrefix (W.bytes_written writer.old)
        (W.bytes_written writer.new) out.old.items) }
    ensures no_failure { OnOk result (W.failures writer.new ≡ W.failures writer.old) }
    ensures fault { OnErr result (IsErrOf result RunFault.WriteFailed
        × (W.failures writer.new ≡ failures_after true (W.failures writer.old))) }
{
    flush_buffer(out, writer)?;
    writer.flush_all().map_err(|_| RunFault::WriteFailed)
}

// Writes the opening text and flushes the writer.
pub(crate) fn write_opening<M: LineHandler, W: Sink>(
    alloc: Global,
    machine: &M,
    writer: &mut W,
) -> Result<(), RunFault>
    ensures wrote { OnOk result (Appends (W.bytes_written writer.old) (W.bytes_written writer.new)
        (M.opening machine.now)) }
    ensures prefix_on_err { OnErr result
        (AppendsPrefix (W.bytes_written writer.old) (W.bytes_written writer.new) (M.opening machine.now)) }
    ensures write_failures { (W.failures writer.new ≡ W.failures writer.old) ⊎ IsErrOf result RunFault.WriteFailed }
    ensures write_failed { IsErrOf result RunFault.WriteFailed →
        W.failures writer.new ≡ failures_after true (W.failures writer.old) }
    ensures never_read_failed { IsErrOf result RunFault.ReadFailed → ⊥ }
{
    let mut out = Vec::new(alloc);
    machine.write_opening(alloc, &mut out)?;
    write_and_flush(&mut out, writer)
}

// Handles the lines that end in this chunk, writes their answers and flushes the writer.
pub(crate) fn handle_chunk<M: LineHandler, W: Sink>(
    alloc: Global,
    machine: &mut M,
    line_buffer: &mut LineBuffer,
    writer: &mut W,
    input: &[u8],
) -> Result<(), RunFault>
    requires empty { line_buffer.old.out.items ≡ [] }
    requires counter_bound { line_buffer.old.counts.lines + length input.now < 2 ^ 64 }
    ensures empty { OnOk result (line_buffer.new.out.items ≡ []) }
    ensures partial_line { OnOk result (line_buffer.new.partial_line.items
        ≡ kept_prefix (partial_line_after input.now line_buffer.old.partial_line.items)) }
    ensures count { OnOk result (line_buffer.new.counts
        ≡ counts_after M.counts_as_step line_buffer.old.counts
        (lines_ended_by input.now line_buffer.old.partial_line.items)) }
    ensures wrote_answers { OnOk result (AppendsAnswers M.handles (M.state machine.old)
        (lines_ended_by input.now line_buffer.old.partial_line.items) (M.state machine.new)
        [] (W.bytes_written writer.old) (W.bytes_written writer.new)) }
    ensures prefix_on_err { OnErr result (AppendsAnswerPrefix M.handles (M.state machine.old)
        (lines_ended_by input.now line_buffer.old.partial_line.items)
        [] (W.bytes_written writer.old) (W.bytes_written writer.new)) }
    ensures write_failures { (W.failures writer.new ≡ W.failures writer.old) ⊎ IsErrOf result RunFault.WriteFailed }
    ensures write_failed { IsErrOf result RunFault.WriteFailed →
        W.failures writer.new ≡ failures_after true (W.failures writer.old) }
    ensures never_read_failed { IsErrOf result RunFault.ReadFailed → ⊥ }
{
    handle_chunk_lines(alloc, machine, line_buffer, writer, input)?;
    write_and_flush(&mut line_buffer.out, writer)
}

// Handles a last line without a line feed.
pub(crate) fn handle_rest<M: LineHandler, W: Sink>(
    alloc: Global,
    machine: &mut M,
    line_buffer: &mut LineBuffer,
    writer: &mut W,
) -> Result<(), RunFault>
    requires empty { line_buffer.old.out.items ≡ [] }
    requires counter_bound { line_buffer.old.counts.lines + 1 < 2 ^ 64 }
    ensures count { OnOk result (line_buffer.new.counts
        ≡ counts_after M.counts_as_step line_buffer.old.counts
        (readable_lines_from [] line_buffer.old.partial_line.items)) }
    ensures wrote_answers { OnOk result (AppendsAnswers M.handles (M.state machine.old)
        (readable_lines_from [] line_buffer.old.partial_line.items) (M.state machine.new)
        [] (W.bytes_written writer.old) (W.bytes_written writer.new)) }
    ensures prefix_on_err { OnErr result (AppendsAnswerPrefix M.handles (M.state machine.old)
        (readable_lines_from [] line_buffer.old.partial_line.items)
        [] (W.bytes_written writer.old) (W.bytes_written writer.new)) }
    ensures write_failures { (W.failures writer.new ≡ W.failures writer.old) ⊎ IsErrOf result RunFault.WriteFailed }
    ensures write_failed { IsErrOf result RunFault.WriteFailed →
        W.failures writer.new ≡ failures_after true (W.failures writer.old) }
    ensures never_read_failed { IsErrOf result RunFault.ReadFailed → ⊥ }
{
    if line_buffer.partial_line.is_empty() {
        return Ok(());
    }
    let is_step = answer_line(
        alloc,
        machine,
        line_buffer.partial_line.as_slice(),
        &mut line_buffer.out,
        writer,
    )?;
    line_buffer.counts.count_line(is_step);
    write_and_flush(&mut line_buffer.out, writer)
}
