//! Tests of dumps over streams that fail, and of the flush at their end.
use crate::dump::{CREATE, CREATED};
use sdb_dump::{DumpFault, check_dump};
use sdb_lines::{CountingReader, CountingWriter, RunFault};
use sdb_steps::{World, dump, read_step, run_dump};
use std::alloc::Global;
use std::io;
use std::io::{Read, Write};
use std::process::Abort;

// A reader of at most 100 bytes per call that fails after so many calls.
#[derive(Drop)]
struct FailingReader {
    bytes: &'static [u8],
    calls: u64,
}

impl FailingReader {
    fn new(text: &'static str, calls: u64) -> FailingReader {
        FailingReader {
            bytes: text.as_bytes(),
            calls,
        }
    }
}

impl Read for FailingReader {
    fn read(&mut self, buf: &mut [u8]) -> io::Result<usize> {
        if self.calls == 0 {
            return Err(io::Error::from(io::ErrorKind::ConnectionReset));
        }
        self.calls -= 1;
        let limit = buf.len().min(100);
        self.bytes.read(&mut buf[..limit])
    }
}

// The call at which a writer fails.
#[derive(Clone, Copy)]
enum WriterFault {
    NoFault,
    WriteFails(u64),
    WriteTakesNone(u64),
    FlushFails,
}

// A writer that accepts at most 100 bytes per call, up to its failure, and notes how many bytes are
// flushed.
#[derive(Drop)]
struct NotingWriter {
    accepted: Vec<u8>,
    flushed: usize,
    writes: u64,
    fault: WriterFault,
}

impl NotingWriter {
    fn new(alloc: Global, fault: WriterFault) -> NotingWriter {
        NotingWriter {
            accepted: Vec::new(alloc),
            flushed: 0,
            writes: 0,
            fault,
        }
    }
}

impl Write for NotingWriter {
    fn write(&mut self, buf: &[u8]) -> io::Result<usize> {
        self.writes = self.writes.saturating_add(1);
        match self.fault {
            WriterFault::WriteFails(k) if k == self.writes => {
                return Err(io::Error::from(io::ErrorKind::BrokenPipe));
            }
            WriterFault::WriteTakesNone(k) if k == self.writes => return Ok(0),
            _ => {}
        }
        let n = buf.len().min(100);
        self.accepted.extend_from_slice(&buf[..n])?;
        Ok(n)
    }

    fn flush(&mut self) -> io::Result<()> {
        if let WriterFault::FlushFails = self.fault {
            return Err(io::Error::from(io::ErrorKind::BrokenPipe));
        }
        self.flushed = self.accepted.len();
        Ok(())
    }
}

// Returns the number of entries or the fault of a dump after the steps, and its writer.
fn run_with_failures(
    alloc: Global,
    reads: u64,
    fault: WriterFault,
) -> (Result<u128, RunFault>, NotingWriter) {
    let mut reader = CountingReader::new(FailingReader::new(CREATE, reads));
    let mut writer = CountingWriter::new(NotingWriter::new(alloc, fault));
    let outcome = run_dump(alloc, &mut reader, &mut writer);
    (outcome, writer.stream)
}

// Returns the same of a dump of the world after the steps.
fn dump_with_failures(
    rt: &impl Abort,
    alloc: Global,
    fault: WriterFault,
) -> (Result<u128, RunFault>, NotingWriter) {
    let mut world = World::new(alloc).expect(rt, "out of memory");
    for line in CREATE.lines() {
        if let Ok(step) = read_step(alloc, line) {
            drop(world.step(step));
        }
    }
    let mut writer = CountingWriter::new(NotingWriter::new(alloc, fault));
    let outcome = dump(alloc, &world, &mut writer);
    (outcome, writer.stream)
}

fn is_flushed_dump(outcome: &Result<u128, RunFault>, writer: &NotingWriter) -> bool {
    *outcome == Ok(1)
        && writer.accepted.as_slice() == CREATED.as_bytes()
        && writer.flushed == CREATED.len()
}

#[test]
fn a_dump_is_flushed(rt: HostRuntime) {
    let (outcome, writer) = run_with_failures(rt.alloc(), 100, WriterFault::NoFault);
    assert!(rt; is_flushed_dump(&outcome, &writer));
    let (outcome, writer) = dump_with_failures(&rt, rt.alloc(), WriterFault::NoFault);
    assert!(rt; is_flushed_dump(&outcome, &writer));
}

// Returns whether a write failed after a prefix of the dump.
fn is_prefix(outcome: &Result<u128, RunFault>, writer: &NotingWriter, length: usize) -> bool {
    *outcome == Err(RunFault::WriteFailed)
        && writer.accepted.len() == length
        && CREATED.as_bytes().starts_with(writer.accepted.as_slice())
}

#[test]
fn a_prefix_is_written_before_a_failed_write(rt: HostRuntime) {
    for k in 1..=3u64 {
        let length = (k as usize).saturating_sub(1).saturating_mul(100);
        for fault in [WriterFault::WriteFails(k), WriterFault::WriteTakesNone(k)] {
            let (outcome, writer) = run_with_failures(rt.alloc(), 100, fault);
            assert!(rt; is_prefix(&outcome, &writer, length), "at write {k}");
            let (outcome, writer) = dump_with_failures(&rt, rt.alloc(), fault);
            assert!(rt; is_prefix(&outcome, &writer, length), "at write {k}");
        }
    }
}

#[test]
fn a_failed_flush_fails_the_dump(rt: HostRuntime) {
    let (outcome, writer) = run_with_failures(rt.alloc(), 100, WriterFault::FlushFails);
    assert!(rt; is_prefix(&outcome, &writer, writer.accepted.len()));
    let (outcome, writer) = dump_with_failures(&rt, rt.alloc(), WriterFault::FlushFails);
    assert!(rt; is_prefix(&outcome, &writer, CREATED.len()));
}

#[test]
fn nothing_is_written_after_a_failed_read(rt: HostRuntime) {
    for reads in 0..3 {
        let (outcome, writer) = run_with_failures(rt.alloc(), reads, WriterFault::NoFault);
        assert!(rt; outcome == Err(RunFault::ReadFailed) && writer.accepted.is_empty());
    }
}

// Returns the number of documents and entries of the dump, or the fault.
fn check_with_failure(
    alloc: Global,
    dump: &'static str,
    reads: u64,
) -> Result<(u64, u128), DumpFault> {
    let mut reader = CountingReader::new(FailingReader::new(dump, reads));
    let checked = check_dump(alloc, &mut reader)?;
    Ok((checked.documents, checked.entries))
}

#[test]
fn a_failed_read_fails_the_check(rt: HostRuntime) {
    for reads in 0..4 {
        let checked = check_with_failure(rt.alloc(), CREATED, reads);
        assert!(rt; checked == Err(DumpFault::ReadFailed), "after {reads}");
    }
    assert!(rt; check_with_failure(rt.alloc(), CREATED, 100) == Ok((1, 1)));
    let wrong = Err(DumpFault::WrongLine { line: 1 });
    assert!(rt; check_with_failure(rt.alloc(), "{}\n{}\n", 1) == wrong);
}
