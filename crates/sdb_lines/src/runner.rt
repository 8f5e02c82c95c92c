//! The loop that reads, handles and counts the lines of a whole input.
//!
//! All pending output is written and flushed before the next read. A client that writes a line and
//! waits therefore gets the answer without sending more.
ghost use Rattle.std.specs.Prelude.{◌≡◌, ◌+◌, ◌-◌, ◌^◌, ◌≤◌, ◌<◌, ◌⊎◌, ◌++◌, true, if◌then◌else◌, length, min, map, OnOk, OnErr, IfOk, IfSome, vec_len, IsErrOf};
ghost use Rattle.sdb_lines.specs.Lines.{readable_text, lines_of};
ghost use Rattle.sdb_lines.specs.Counts.{AreCountsOf};
ghost use Rattle.sdb_lines.specs.Runs.{AppendsAnswers, AppendsAnswerPrefix};
ghost use Rattle.sdb_lines.specs.Streams.{ReadFaultIsCounted, WriteFaultIsCounted};

use crate::line_handler::LineHandler;
use crate::line_reader::{LineBuffer, handle_chunk, handle_rest, write_opening};
use crate::streams::{Sink, Source};
use std::alloc::{AllocError, Global};
use thiserror::Error;

/// The maximum number of reads in one run: 2^40.
pub const READ_LIMIT: u64 = 1_099_511_627_776;

// The size of the read buffer: 64 KiB.
const BUFFER_LEN: usize = 65_536;

/// The number of lines and of steps in an input.
#[derive(Clone, Copy, Debug, PartialEq, Eq)]
pub struct Counts {
    /// The number of lines, including those that are too long or not UTF-8.
    pub lines: u64,
    /// The number of lines that count as steps.
    pub steps: u64,
}

impl Counts {
    // Counts one more line.
    pub(crate) fn count_line(&mut self, is_step: bool)
        requires counter_bound { self.old.lines + 1 < 2 ^ 64 }
        requires ordered { self.old.steps ≤ self.old.lines }
        ensures lines { self.new.lines ≡ self.old.lines + 1 }
        ensures steps { self.new.steps ≡ self.old.steps + (if is_step then 1 else 0) }
    {
        self.lines += 1;
        if is_step {
            self.steps += 1;
        }
    }
}

/// The reason why a run stopped before the end of its input.
#[derive(Clone, Copy, Debug, PartialEq, Eq, Error)]
pub enum RunFault {
    /// A read failed, or [`READ_LIMIT`] reads did not reach the end of the input.
    #[error("reading the input failed")]
    ReadFailed,
    /// A write or a flush failed, or a write of one or more bytes wrote 0.
    #[error("writing the output failed")]
    WriteFailed,
    /// An allocation failed: for the read buffer of 64 KiB, a line or its answer.
    #[error("out of memory")]
    OutOfMemory,
}

impl From<AllocError> for RunFault {
    ghost use Rattle.sdb_lines.specs.declared.runner.RunFault.TheVariants.{OutOfMemory};

    ghost from_gives = { λ _ fault. fault ≡ OutOfMemory };

    fn from(_error: AllocError) -> RunFault {
        RunFault::OutOfMemory
    }
}

/// Writes the opening text, reads the input to its end, and writes the answer to each of its lines.
/// Returns the number of lines and of steps. A last line needs no line feed.
///
/// The output is written and flushed before each read and at the end, and written without a flush
/// once it reaches 64 KiB. A read takes at most 64 KiB. At most 1,048,577 bytes of a line are kept,
/// however long it is.
///
/// # Errors
///
/// [`RunFault::ReadFailed`] if a read fails or [`READ_LIMIT`] reads do not reach the end.
/// [`RunFault::WriteFailed`] if a write or a flush fails. [`RunFault::OutOfMemory`] if an
/// allocation fails.
///
/// The bytes written are then a prefix of the opening text and the answers in order. The reader may
/// have returned bytes of lines that were not handled, and the handler may have handled lines whose
/// answers were not written.
///
/// ```
/// // The handler answers a line with the length of the longest line so far.
/// let mut reader = CountingReader::new(b"abc\nhello\n".as_slice());
/// let mut writer = CountingWriter::new(Vec::new(alloc));
/// let counts = run_lines(alloc, &mut handler, &mut reader, &mut writer)?;
/// assert_eq!(rt; counts, Counts { lines: 2, steps: 2 });
/// assert_eq!(rt; writer.stream.as_slice(), b"0\n3\n5\n".as_slice());
/// ```
pub fn run_lines<M: LineHandler, R: Source, W: Sink>(
    alloc: Global,
    machine: &mut M,
    reader: &mut R,
    writer: &mut W,
) -> Result<Counts, RunFault>
    // The handler took exactly the lines of the input, in order, and all answers were written.
    ensures wrote_all { OnOk result (IfSome (R.remaining_input reader.old) (λ input.
        AppendsAnswers M.handles (M.state machine.old) (map readable_text (lines_of input))
        (M.state machine.new) (M.opening machine.old) (W.bytes_written writer.old) (W.bytes_written writer.new))) }
    ensures counts { IfOk result (λ counts. IfSome (R.remaining_input reader.old)
        (λ input. AreCountsOf M.counts_as_step input counts)) }
    // After an error a prefix of the opening text and the answers was written.
    ensures prefix_on_err { OnErr result (IfSome (R.remaining_input reader.old) (λ input.
        AppendsAnswerPrefix M.handles (M.state machine.old) (map readable_text (lines_of input))
        (M.opening machine.old) (W.bytes_written writer.old) (W.bytes_written writer.new))) }
    // No read, write or flush failed, except the one that is the error.
    ensures read_failures { ReadFaultIsCounted result (R.calls reader.old) (R.failures reader.old)
        (R.calls reader.new) (R.failures reader.new) }
    ensures write_failures { WriteFaultIsCounted result (W.failures writer.old) (W.failures writer.new) }
{
    let mut space = read_buffer(alloc)?;
    let buffer = space.as_mut_slice();
    write_opening(alloc, machine, writer)?;
    let mut line_buffer = LineBuffer::new(alloc);
    for _turn in 0..READ_LIMIT {
        match reader.read_into(buffer) {
            Ok(0) => {
                handle_rest(alloc, machine, &mut line_buffer, writer)?;
                return Ok(line_buffer.counts);
            }
            Ok(n) => handle_chunk(alloc, machine, &mut line_buffer, writer, &buffer[..n])?,
            Err(_) => return Err(RunFault::ReadFailed),
        }
    }
    Err(RunFault::ReadFailed)
}

// Allocates the read buffer.
fn read_buffer(alloc: Global) -> Result<Vec<u8>, AllocError>
    ensures { IfOk result (λ buffer. vec_len buffer ≡ BUFFER_LEN) }
{
    vec![in alloc; 0u8; BUFFER_LEN]
}
