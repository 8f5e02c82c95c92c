//! Tests of `sdb_lines`: the behavior of a run that no clause states.
ghost use Rattle.std.specs.Prelude.{◌∷◌, []};
ghost use Rattle.sdb_model_tests.specs.LongestLine.{TakesLine, has_bytes};

use crate::helpers::displays_as;
use sdb_lines::{
    CountingReader, CountingWriter, Counts, LineHandler, LineProgress, RunFault, run_lines,
};
use std::alloc::{AllocError, Global};
use std::cell::Cell;
use std::io;
use std::io::{ErrorKind, Read, Write};

// A handler that answers with the length of the longest line so far as a digit, at most 9. It
// answers `bad` to an unreadable line.
#[derive(Drop)]
struct LongestLineHandler {
    digit: u8,
}

impl LineHandler for LongestLineHandler {
    ghost use Rattle.std.specs.Prelude.{ℕ};

    ghost State = { ℕ };

    ghost state = { λ s. s.digit };

    ghost opening = { λ s. s.digit ∷ 10 ∷ [] };

    ghost handles = { λ s line answer t. TakesLine s line answer t };

    // Each answer is appended whole.
    ghost is_answering = { λ s line bytes t. ⊥ };

    ghost parts_left = { λ s. 0 };

    ghost counts_as_step = { has_bytes };

    fn write_opening(&self, _alloc: Global, out: &mut Vec<u8>) -> Result<(), AllocError> {
        out.extend_from_slice(&[self.digit, b'\n'])
    }

    fn handle(
        &mut self,
        _alloc: Global,
        line: &str,
        out: &mut Vec<u8>,
    ) -> Result<LineProgress, AllocError> {
        self.digit = self.digit.max(b'0' + line.len().min(9) as u8);
        out.extend_from_slice(&[self.digit, b'\n'])?;
        Ok(LineProgress::done(!line.is_empty()))
    }

    fn continue_answer(&mut self, _alloc: Global, _out: &mut Vec<u8>) -> Result<bool, AllocError> {
        Ok(true)
    }

    fn handle_unreadable(&mut self, _alloc: Global, out: &mut Vec<u8>) -> Result<(), AllocError> {
        out.extend_from_slice(b"bad\n")
    }
}

// A reader of two bytes per call, whose call of this number fails.
#[derive(Drop)]
struct SlowReader {
    bytes: &'static [u8],
    at: usize,
    fails_at: Option<u64>,
    calls: u64,
}

impl SlowReader {
    fn new(bytes: &'static [u8], fails_at: Option<u64>) -> SlowReader {
        SlowReader {
            bytes,
            at: 0,
            fails_at,
            calls: 0,
        }
    }
}

impl Read for SlowReader {
    fn read(&mut self, buf: &mut [u8]) -> io::Result<usize> {
        self.calls = self.calls.saturating_add(1);
        if self.fails_at == Some(self.calls) {
            return Err(io::Error::from(ErrorKind::ConnectionReset));
        }
        let rest = self.bytes.get(self.at..).unwrap_or(&[]);
        let n = buf.len().min(rest.len()).min(2);
        buf[..n].copy_from_slice(&rest[..n]);
        self.at = self.at.saturating_add(n);
        Ok(n)
    }
}

// The failure of a writer, and the number of the call that fails.
#[derive(Clone, Copy)]
enum WriterFault {
    NoFault,
    WriteFails(u64),
    WriteTakesNone(u64),
    FlushFails(u64),
}

// A writer that accepts one byte per call, up to its failure.
#[derive(Drop)]
struct ByteWriter {
    accepted: Vec<u8>,
    flushed: usize,
    fault: WriterFault,
    writes: u64,
    flushes: u64,
}

impl ByteWriter {
    fn new(alloc: Global, fault: WriterFault) -> ByteWriter {
        ByteWriter {
            accepted: Vec::new(alloc),
            flushed: 0,
            fault,
            writes: 0,
            flushes: 0,
        }
    }
}

impl Write for ByteWriter {
    fn write(&mut self, buf: &[u8]) -> io::Result<usize> {
        self.writes = self.writes.saturating_add(1);
        match self.fault {
            WriterFault::WriteFails(k) if k == self.writes => {
                return Err(io::Error::from(ErrorKind::BrokenPipe));
            }
            WriterFault::WriteTakesNone(k) if k == self.writes => return Ok(0),
            _ => {}
        }
        let n = buf.len().min(1);
        self.accepted.extend_from_slice(&buf[..n])?;
        Ok(n)
    }

    fn flush(&mut self) -> io::Result<()> {
        self.flushes = self.flushes.saturating_add(1);
        if let WriterFault::FlushFails(k) = self.fault {
            if k == self.flushes {
                return Err(io::Error::from(ErrorKind::BrokenPipe));
            }
        }
        self.flushed = self.accepted.len();
        Ok(())
    }
}

const INPUT: &[u8] = b"abc\nhello\n\n\xff\nlast";

const OUTPUT: &[u8] = b"0\n3\n5\n5\nbad\n5\n";

const COUNTS: Counts = Counts { lines: 5, steps: 3 };

// Runs over the input with two bytes per read.
fn run_with_fault(
    alloc: Global,
    fails_at: Option<u64>,
    fault: WriterFault,
) -> (Result<Counts, RunFault>, ByteWriter) {
    let mut handler = LongestLineHandler { digit: b'0' };
    let mut reader = CountingReader::new(SlowReader::new(INPUT, fails_at));
    let mut writer = CountingWriter::new(ByteWriter::new(alloc, fault));
    let outcome = run_lines(alloc, &mut handler, &mut reader, &mut writer);
    (outcome, writer.stream)
}

// Runs over these bytes.
fn run_on(alloc: Global, input: &[u8]) -> (Result<Counts, RunFault>, Vec<u8>) {
    let mut handler = LongestLineHandler { digit: b'0' };
    let mut reader = CountingReader::new(input);
    let mut writer = CountingWriter::new(Vec::new(alloc));
    let outcome = run_lines(alloc, &mut handler, &mut reader, &mut writer);
    (outcome, writer.stream)
}

#[test]
fn every_line_is_answered(rt: HostRuntime) {
    let (outcome, writer) = run_with_fault(rt.alloc(), None, WriterFault::NoFault);
    assert!(rt;
        outcome == Ok(COUNTS)
            && writer.accepted.as_slice() == OUTPUT
            && writer.flushed == OUTPUT.len()
    );
}

// Returns whether the run on these bytes has this output and these counts.
fn is_answered(alloc: Global, input: &[u8], output: &[u8], lines: u64, steps: u64) -> bool {
    let (outcome, written) = run_on(alloc, input);
    outcome == Ok(Counts { lines, steps }) && written.as_slice() == output
}

#[test]
fn lines_end_at_line_feeds(rt: HostRuntime) {
    assert!(rt;
        is_answered(rt.alloc(), b"", b"0\n", 0, 0)
            && is_answered(rt.alloc(), b"\n", b"0\n0\n", 1, 0)
            && is_answered(rt.alloc(), b"ab\r\n\n", b"0\n3\n3\n", 2, 1)
            && is_answered(rt.alloc(), b"a\n\nb", b"0\n1\n1\n1\n", 3, 2)
            && is_answered(rt.alloc(), b"\xc3\n\xc3\xa9\n", b"0\nbad\n2\n", 2, 1)
    );
}

// Returns whether the read of this number fails after this output is written and flushed.
fn fails_at_read(alloc: Global, k: u64, output: &[u8]) -> bool {
    let (outcome, writer) = run_with_fault(alloc, Some(k), WriterFault::NoFault);
    outcome == Err(RunFault::ReadFailed)
        && writer.accepted.as_slice() == output
        && writer.flushed == output.len()
}

#[test]
fn a_failed_read_ends_the_run(rt: HostRuntime) {
    assert!(rt;
        fails_at_read(rt.alloc(), 1, b"0\n")
            && fails_at_read(rt.alloc(), 2, b"0\n")
            && fails_at_read(rt.alloc(), 3, b"0\n3\n")
            && fails_at_read(rt.alloc(), 6, b"0\n3\n5\n")
            && fails_at_read(rt.alloc(), 7, b"0\n3\n5\n5\n")
            && fails_at_read(rt.alloc(), 10, b"0\n3\n5\n5\nbad\n")
    );
}

// Returns the number of bytes written before the failure, if they are a prefix of the output.
fn fails_to_write(alloc: Global, fault: WriterFault) -> Option<u64> {
    let (outcome, writer) = run_with_fault(alloc, None, fault);
    if outcome == Err(RunFault::WriteFailed) && OUTPUT.starts_with(writer.accepted.as_slice()) {
        return Some(writer.accepted.len() as u64);
    }
    None
}

#[test]
fn a_failed_write_ends_the_run(rt: HostRuntime) {
    for k in 1..=14u64 {
        let written = fails_to_write(rt.alloc(), WriterFault::WriteFails(k));
        assert!(rt; written == Some(k - 1), "at write {k}");
        let written = fails_to_write(rt.alloc(), WriterFault::WriteTakesNone(k));
        assert!(rt; written == Some(k - 1), "at write {k}");
    }
}

#[test]
fn a_failed_flush_ends_the_run(rt: HostRuntime) {
    for k in 1..=11u64 {
        let written = fails_to_write(rt.alloc(), WriterFault::FlushFails(k));
        assert!(rt; written.is_some(), "at flush {k}");
    }
}

// The number of bytes written, and the number of those flushed.
#[derive(Drop)]
struct OutputCounts {
    written: Cell<usize>,
    flushed: Cell<usize>,
}

// A reader of four bytes per call that records a read with unflushed output.
#[derive(Drop)]
struct FlushCheckingReader<'a> {
    bytes: &'static [u8],
    counts: &'a OutputCounts,
    is_early: bool,
}

impl<'a> Read for FlushCheckingReader<'a> {
    fn read(&mut self, buf: &mut [u8]) -> io::Result<usize> {
        let flushed = self.counts.flushed.get();
        if flushed == 0 || flushed != self.counts.written.get() {
            self.is_early = true;
        }
        let n = buf.len().min(self.bytes.len()).min(4);
        buf[..n].copy_from_slice(&self.bytes[..n]);
        self.bytes = &self.bytes[n..];
        Ok(n)
    }
}

// A writer that accepts all bytes and records the longest buffer.
#[derive(Drop)]
struct UnlimitedWriter<'a> {
    counts: &'a OutputCounts,
    longest: usize,
}

impl<'a> Write for UnlimitedWriter<'a> {
    fn write(&mut self, buf: &[u8]) -> io::Result<usize> {
        self.longest = self.longest.max(buf.len());
        self.counts
            .written
            .set(self.counts.written.get().saturating_add(buf.len()));
        Ok(buf.len())
    }

    fn flush(&mut self) -> io::Result<()> {
        self.counts.flushed.set(self.counts.written.get());
        Ok(())
    }
}

// Runs over the input, and returns whether a read came before a flush.
fn run_checking_flushes<'a>(
    alloc: Global,
    counts: &'a OutputCounts,
) -> (Result<Counts, RunFault>, bool) {
    let mut handler = LongestLineHandler { digit: b'0' };
    let mut reader = CountingReader::new(FlushCheckingReader {
        bytes: INPUT,
        counts,
        is_early: false,
    });
    let mut writer = CountingWriter::new(UnlimitedWriter { counts, longest: 0 });
    let outcome = run_lines(alloc, &mut handler, &mut reader, &mut writer);
    (outcome, reader.stream.is_early)
}

#[test]
fn output_is_flushed_before_each_read(rt: HostRuntime) {
    let counts = OutputCounts {
        written: Cell::new(0),
        flushed: Cell::new(0),
    };
    let (outcome, is_early) = run_checking_flushes(rt.alloc(), &counts);
    assert!(rt; outcome == Ok(COUNTS) && !is_early && counts.flushed.get() == OUTPUT.len());
}

// Runs over these bytes, and returns the length of the longest write.
fn run_measuring_writes(
    alloc: Global,
    input: &[u8],
    counts: &OutputCounts,
) -> (Result<Counts, RunFault>, usize) {
    let mut handler = LongestLineHandler { digit: b'0' };
    let mut reader = CountingReader::new(input);
    let mut writer = CountingWriter::new(UnlimitedWriter { counts, longest: 0 });
    let outcome = run_lines(alloc, &mut handler, &mut reader, &mut writer);
    (outcome, writer.stream.longest)
}

#[test]
fn at_most_64_kib_of_output_are_pending(rt: HostRuntime) {
    let counts = OutputCounts {
        written: Cell::new(0),
        flushed: Cell::new(0),
    };
    // One read returns all these lines, each with an answer of two bytes.
    let input = vec![in rt.alloc(); b'\n'; 50_000].expect(&rt, "out of memory");
    let (outcome, longest) = run_measuring_writes(rt.alloc(), input.as_slice(), &counts);
    assert!(rt; outcome.is_ok() && (counts.written.get(), longest) == (100_002, 65_536));
}

#[test]
fn faults_display_their_texts(rt: HostRuntime) {
    let read = "reading the input failed";
    assert!(rt; displays_as(&rt, rt.alloc(), &RunFault::ReadFailed, read));
    let write = "writing the output failed";
    assert!(rt;
        displays_as(&rt, rt.alloc(), &RunFault::WriteFailed, write)
            && displays_as(&rt, rt.alloc(), &RunFault::OutOfMemory, "out of memory")
    );
}
