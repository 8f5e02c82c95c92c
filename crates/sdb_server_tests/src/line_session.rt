//! Tests of line sessions with failing streams and a list clock. Their other answers are tested by
//! the lines of the program.
use sdb_lines::{CountingReader, CountingWriter, Counts, RunFault, Sink, Source};
use sdb_oplog::Moment;
use sdb_projection::Table;
use sdb_server::{LineSession, ListClock, run_lines};
use std::alloc::{AllocError, Global};
use std::io;
use std::io::{ErrorKind, Read, Write};

// An output that accepts seven bytes per call, and writes 0 bytes after so many calls, as with a
// full disk.
#[derive(Drop)]
struct FailingWriter {
    bytes: Vec<u8>,
    calls: usize,
}

impl io::Write for FailingWriter {
    fn write(&mut self, buf: &[u8]) -> io::Result<usize> {
        if self.calls == 0 {
            return Ok(0);
        }
        self.calls -= 1;
        self.bytes.write(&buf[..buf.len().min(7)])
    }

    fn flush(&mut self) -> io::Result<()> {
        Ok(())
    }
}

// An input that returns seven bytes per call and fails after so many calls.
#[derive(Drop)]
struct FailingReader {
    bytes: &'static [u8],
    calls: usize,
}

impl io::Read for FailingReader {
    fn read(&mut self, buf: &mut [u8]) -> io::Result<usize> {
        if self.calls == 0 {
            return Err(io::Error::from(ErrorKind::ConnectionReset));
        }
        self.calls -= 1;
        let limit = buf.len().min(7);
        self.bytes.read(&mut buf[..limit])
    }
}

const FETCH: &str = r#"{"a":"f","c":"b","d":"1"}"#;

const COMPLETE_OUTPUT: &str =
    r#"{"a":"init","id":"s1","protocol":1,"protocolMinor":1,"type":"http://sharejs.org/types/JSONv0"}
{"a":"f","c":"b","d":"1","data":{"type":null,"v":0}}
"#;

// Runs a new session over the reader's lines.
fn run_session<R: Source, W: Sink>(
    alloc: Global,
    clock: ListClock,
    reader: &mut R,
    writer: &mut W,
) -> Result<Counts, RunFault> {
    let table = Table::new(alloc);
    let mut session = LineSession::new(alloc, &table, clock)?;
    run_lines(alloc, &mut session, reader, writer)
}

// Returns the output for the fetch, if the streams fail after so many calls, and the fault that
// ended the run.
fn run(alloc: Global, reads: usize, calls: usize) -> (Vec<u8>, Option<RunFault>) {
    let bytes = FETCH.as_bytes();
    let mut reader = CountingReader::new(FailingReader {
        bytes,
        calls: reads,
    });
    let bytes = Vec::new(alloc);
    let mut writer = CountingWriter::new(FailingWriter { bytes, calls });
    let clock = ListClock::new(Vec::new(alloc));
    let outcome = run_session(alloc, clock, &mut reader, &mut writer);
    (writer.stream.bytes, outcome.err())
}

// Returns whether the run ends with this fault and the output is a prefix of the complete one.
fn ends_with(alloc: Global, reads: usize, calls: usize, fault: RunFault) -> bool {
    let (written, outcome) = run(alloc, reads, calls);
    outcome == Some(fault) && COMPLETE_OUTPUT.as_bytes().starts_with(written.as_slice())
}

#[test]
fn a_failed_stream_ends_the_run_after_a_prefix(rt: HostRuntime) {
    for calls in 0..20 {
        assert!(rt;
            ends_with(rt.alloc(), 100, calls, RunFault::WriteFailed),
            "after {calls}"
        );
    }
    for reads in 0..5 {
        assert!(rt;
            ends_with(rt.alloc(), reads, 100, RunFault::ReadFailed),
            "after {reads}"
        );
    }
    let (written, fault) = run(rt.alloc(), 100, 100);
    assert!(rt; fault.is_none() && written.as_slice() == COMPLETE_OUTPUT.as_bytes());
}

// Three submissions, the second with a clock reading below that of the first, and fetches by time.
const TIMESTAMP_LINES: &str =
    r#"{"a":"op","c":"b","d":"1","src":"w","seq":1,"create":{"type":"json0","data":{"n":0}}}
{"a":"op","c":"b","d":"1","src":"w","seq":2,"op":[{"p":["n"],"na":1}]}
{"a":"op","c":"b","d":"1","src":"w","seq":3,"op":[{"p":["n"],"na":1}]}
{"a":"nt","c":"b","d":"1","id":1,"ts":100}
{"a":"nt","c":"b","d":"1","id":2,"ts":99}
{"a":"nt","c":"b","d":"1","id":3,"ts":199}
{"a":"nt","c":"b","d":"1","id":4,"ts":200}
{"a":"nt","c":"b","d":"1","id":5}
"#;

const TIMESTAMP_ANSWERS: &str = r#"{"a":"op","c":"b","d":"1","seq":3,"src":"w","v":2}
{"a":"nt","data":{"n":1},"id":1,"type":"http://sharejs.org/types/JSONv0","v":2}
{"a":"nt","id":2,"type":null,"v":0}
{"a":"nt","data":{"n":1},"id":3,"type":"http://sharejs.org/types/JSONv0","v":2}
{"a":"nt","data":{"n":2},"id":4,"type":"http://sharejs.org/types/JSONv0","v":3}
{"a":"nt","data":{"n":2},"id":5,"type":"http://sharejs.org/types/JSONv0","v":3}
"#;

// Returns the output for these lines with this clock.
fn output_of(alloc: Global, clock: ListClock, lines: &str) -> Vec<u8> {
    let mut reader = CountingReader::new(lines.as_bytes());
    let mut writer = CountingWriter::new(Vec::new(alloc));
    let _ = run_session(alloc, clock, &mut reader, &mut writer);
    writer.stream
}

#[test]
fn documents_are_fetched_at_timestamps(rt: HostRuntime) {
    let mut moments = Vec::new(rt.alloc());
    for milliseconds in [100, 90, 200] {
        let moment = Moment::new(milliseconds).expect(&rt, "a moment");
        moments.push(moment).expect(&rt, "out of memory");
    }
    let written = output_of(rt.alloc(), ListClock::new(moments), TIMESTAMP_LINES);
    assert!(rt; written.as_slice().ends_with(TIMESTAMP_ANSWERS.as_bytes()));
}

// An output that keeps the number of its bytes and the length of its longest write.
#[derive(Drop)]
struct MeasuringWriter {
    written: usize,
    longest: usize,
}

impl io::Write for MeasuringWriter {
    fn write(&mut self, buf: &[u8]) -> io::Result<usize> {
        self.written = self.written.saturating_add(buf.len());
        self.longest = self.longest.max(buf.len());
        Ok(buf.len())
    }

    fn flush(&mut self) -> io::Result<()> {
        Ok(())
    }
}

const CREATION: &str =
    r#"{"a":"op","c":"b","d":"1","src":"w","seq":1,"create":{"type":"json0","data":{"n":0}}}
"#;

const OPERATION_PREFIX: &str = r#"{"a":"op","c":"b","d":"1","src":"w","seq":"#;

const OPERATION_SUFFIX: &str = r#","op":[{"p":["n"],"na":1}]}
"#;

// Returns the lines of a creation, of so many operations, and of the request.
fn long_input(alloc: Global, count: u64, request: &str) -> Result<String, AllocError> {
    let mut lines = String::from_str(alloc, CREATION)?;
    for seq in 2..=count {
        let line = format!(in alloc; "{OPERATION_PREFIX}{seq}{OPERATION_SUFFIX}")?;
        lines.push_str(line.as_str())?;
    }
    lines.push_str(request)?;
    Ok(lines)
}

// Returns the number of bytes of all answers, and the longest write.
fn measured(alloc: Global, count: u64, request: &str) -> Result<MeasuringWriter, RunFault> {
    let lines = long_input(alloc, count, request)?;
    let mut reader = CountingReader::new(lines.as_bytes());
    let mut writer = CountingWriter::new(MeasuringWriter {
        written: 0,
        longest: 0,
    });
    let clock = ListClock::new(Vec::new(alloc));
    run_session(alloc, clock, &mut reader, &mut writer)?;
    Ok(writer.stream)
}

// The answers to 3,000 operations and to a listing of them have more than 350,000 bytes, and no
// write has more than the 65,536 bytes of a full buffer and 64 operations.
#[test]
fn a_listing_is_written_while_it_is_read(rt: HostRuntime) {
    for request in [
        r#"{"a":"f","c":"b","d":"1","v":0}"#,
        r#"{"a":"s","c":"b","d":"1","v":0}"#,
    ] {
        let writer = measured(rt.alloc(), 3_000, request);
        let writer = writer.ok().expect(&rt, "a run to the end");
        assert!(rt; 350_000 < writer.written, "{}", writer.written);
        assert!(rt; writer.longest < 75_000, "{}", writer.longest);
    }
}
