//! Tests of `sdb_steps`: lists of steps, and streams that fail. The lines of the program test the
//! rest.
use sdb_desk::Reply;
use sdb_lines::{CountingReader, CountingWriter, RunFault};
use sdb_steps::{Step, StepAnswer, read_step, run, run_steps};
use std::alloc::Global;
use std::io;
use std::io::{Read, Write};
use std::process::Abort;

// Parses each line as a step.
fn parse_steps(rt: &impl Abort, alloc: Global, lines: &[&str]) -> Vec<Step> {
    let mut steps = Vec::new(alloc);
    for line in lines {
        let step = read_step(alloc, line).expect(rt, "a step");
        steps.push(step).expect(rt, "out of memory");
    }
    steps
}

const THREE_STEPS: [&str; 3] = [
    r#"{"s":7,"do":"begin","c":"b","d":"1","src":"x","seq":1,"create":{"type":"json0","data":5}}"#,
    r#"{"s":7,"do":"commit"}"#,
    r#"{"s":9,"do":"fetch","c":"b","d":"1"}"#,
];

// Returns whether these are the answers to the three steps.
fn are_answers_to_three(answers: &[StepAnswer]) -> bool {
    match answers {
        [
            StepAnswer::Began,
            StepAnswer::Decided(Reply::Stored { v, missed }),
            StepAnswer::Fetched(found),
        ] => *v == 0 && missed.is_empty() && found.version == 1 && found.snapshot.is_some(),
        _ => false,
    }
}

// A reader that returns seven bytes per call and fails after so many calls.
#[derive(Drop)]
struct FailingReader {
    bytes: &'static [u8],
    calls: u64,
}

impl Read for FailingReader {
    fn read(&mut self, buf: &mut [u8]) -> io::Result<usize> {
        if self.calls == 0 {
            return Err(io::Error::from(io::ErrorKind::ConnectionReset));
        }
        self.calls -= 1;
        let limit = buf.len().min(7);
        self.bytes.read(&mut buf[..limit])
    }
}

// A writer that accepts seven bytes per call, and writes 0 bytes after so many calls.
#[derive(Drop)]
struct FailingWriter {
    accepted: Vec<u8>,
    calls: u64,
}

impl Write for FailingWriter {
    fn write(&mut self, buf: &[u8]) -> io::Result<usize> {
        if self.calls == 0 {
            return Ok(0);
        }
        self.calls -= 1;
        self.accepted.write(&buf[..buf.len().min(7)])
    }

    fn flush(&mut self) -> io::Result<()> {
        Ok(())
    }
}

// The first line has twenty bytes with its line feed, the second nineteen without one.
const LINES: &[u8] = b"{\"s\":3,\"do\":\"work\"}\n{\"s\":5,\"do\":\"work\"}";

const FIRST_ANSWER: &[u8] = b"{\"do\":\"idle\",\"s\":3}\n";

const BOTH_ANSWERS: &[u8] = b"{\"do\":\"idle\",\"s\":3}\n{\"do\":\"idle\",\"s\":5}\n";

// Runs over streams that fail after so many calls; returns the fault and the output.
fn run_with_failures(alloc: Global, reads: u64, writes: u64) -> (Option<RunFault>, Vec<u8>) {
    let mut reader = CountingReader::new(FailingReader {
        bytes: LINES,
        calls: reads,
    });
    let mut writer = CountingWriter::new(FailingWriter {
        accepted: Vec::new(alloc),
        calls: writes,
    });
    let outcome = run(alloc, &mut reader, &mut writer);
    (outcome.err(), writer.stream.accepted)
}

#[test]
fn the_lines_before_a_failed_read_are_answered(rt: HostRuntime) {
    for reads in 0..7 {
        let (fault, written) = run_with_failures(rt.alloc(), reads, 100);
        let answered = if reads < 3 {
            &[] as &[u8]
        } else {
            FIRST_ANSWER
        };
        assert!(rt; fault == Some(RunFault::ReadFailed), "after {reads}");
        assert!(rt; written.as_slice() == answered, "after {reads}");
    }
    let (fault, written) = run_with_failures(rt.alloc(), 100, 100);
    assert!(rt; fault.is_none() && written.as_slice() == BOTH_ANSWERS);
}

#[test]
fn a_prefix_is_written_before_a_failed_write(rt: HostRuntime) {
    for writes in 0..6 {
        let (fault, written) = run_with_failures(rt.alloc(), 100, writes);
        assert!(rt; fault == Some(RunFault::WriteFailed), "after {writes}");
        assert!(rt;
            BOTH_ANSWERS.starts_with(written.as_slice()),
            "after {writes}"
        );
    }
}

#[test]
fn run_steps_runs_the_steps_in_order(rt: HostRuntime) {
    let steps = parse_steps(&rt, rt.alloc(), &THREE_STEPS);
    let run = run_steps(rt.alloc(), steps.as_slice()).expect(&rt, "out of memory");
    assert!(rt; are_answers_to_three(run.answers.as_slice()));
}
