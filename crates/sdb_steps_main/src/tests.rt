//! Tests of command lines, and of the output and the exit status of each job.
use crate::command::{Job, parse_job, print_check, run_job};
use sdb_cli::terminal::{ClosedStreams, TerminalBuffer, argument_list};
use sdb_cli::{STATUS_FAULT, STATUS_OK, STATUS_USAGE, print_help_or_error};
use sdb_dump::DumpFault;
use std::alloc::Global;
use std::io;
use std::test::Fail;

// Returns the exit status of a command line that starts no run.
fn status_without_job(alloc: Global, terminal: &TerminalBuffer, words: &[String]) -> Option<u8> {
    match parse_job(alloc, words) {
        Ok(_) => None,
        Err(error) => print_help_or_error(terminal, &error).ok(),
    }
}

#[test]
fn each_job_is_parsed(rt: HostRuntime) -> Result<(), Fail> {
    for (line, job) in [
        ("sdb_steps_main", Job::Run),
        ("sdb_steps_main --dump", Job::Dump),
        ("sdb_steps_main --check", Job::Check),
    ] {
        let words = argument_list(rt.alloc(), line)?;
        assert!(rt;
            parse_job(rt.alloc(), words.as_slice()).ok() == Some(job),
            "{line}"
        );
    }
    Ok(())
}

const HELP: &str =
    r#"Run the steps of up to 64 sessions on JSON documents, one per line of standard input

Usage: sdb_steps_main [OPTIONS]

Options:
      --dump   Write no answers, but a dump of all logs at the end
      --check  Check that standard input is such a dump
  -h, --help   Print help
"#;

#[test]
fn help_is_printed(rt: HostRuntime) -> Result<(), Fail> {
    let words = argument_list(rt.alloc(), "sdb_steps_main --help")?;
    let terminal = TerminalBuffer::new(rt.alloc());
    assert!(rt; status_without_job(rt.alloc(), &terminal, words.as_slice()) == Some(STATUS_OK));
    assert!(rt; terminal.out.into_inner().as_str() == HELP);
    assert!(rt; terminal.err.into_inner().is_empty());
    Ok(())
}

#[test]
fn a_refused_command_line_is_printed_on_standard_error(rt: HostRuntime) -> Result<(), Fail> {
    for line in [
        "sdb_steps_main --lines",
        "sdb_steps_main more",
        "sdb_steps_main --dump --check",
        "sdb_steps_main -",
    ] {
        let words = argument_list(rt.alloc(), line)?;
        let terminal = TerminalBuffer::new(rt.alloc());
        assert!(rt;
            status_without_job(rt.alloc(), &terminal, words.as_slice()) == Some(STATUS_USAGE),
            "{line}"
        );
        assert!(rt; terminal.out.into_inner().is_empty(), "{line}");
        assert!(rt;
            terminal
                .err
                .into_inner()
                .as_str()
                .contains("For more information, try '--help'."),
            "{line}"
        );
    }
    Ok(())
}

const STEPS: &[u8] =
    br#"{"s":0,"do":"begin","c":"b","d":"1","src":"w","seq":1,"create":{"type":"json0","data":5}}
{"s":0,"do":"commit","ms":7}
{"s":0,"do":"begin","c":"b","d":"1","src":"w","seq":2,"op":[{"p":[],"na":1}]}
{"s":0,"do":"commit","ms":7}
{"s":0,"do":"begin","c":"b","d":"2","src":"w","seq":3,"create":{"type":"json0"}}
{"s":0,"do":"commit","ms":8}
"#;

const ANSWERS: &str = r#"{"do":"begin","s":0}
{"do":"commit","missed":[],"s":0,"v":0}
{"do":"begin","s":0}
{"do":"commit","missed":[],"s":0,"v":1}
{"do":"begin","s":0}
{"do":"commit","missed":[],"s":0,"v":0}
"#;

const DUMP: &str = r#"{"dump":2}
{"arrived":{"create":{"data":5,"type":"http://sharejs.org/types/JSONv0"},"v":null},"by":0,"c":"b","create":{"data":5,"type":"http://sharejs.org/types/JSONv0"},"d":"1","m":7,"seq":1,"src":"w","v":0,"via":"b"}
{"arrived":{"op":[{"na":1,"p":[]}],"v":null},"by":0,"c":"b","d":"1","m":7,"op":[{"na":1,"p":[]}],"seq":2,"src":"w","v":1,"via":"b"}
{"arrived":{"create":{"data":null,"type":"http://sharejs.org/types/JSONv0"},"v":null},"by":0,"c":"b","create":{"data":null,"type":"http://sharejs.org/types/JSONv0"},"d":"2","m":8,"seq":3,"src":"w","v":0,"via":"b"}
{"entries":3}
"#;

// Returns whether the job on the input prints this text and ends with this status.
fn prints(alloc: Global, job: Job, input: impl io::Read + Drop, text: &str, status: u8) -> bool {
    let terminal = TerminalBuffer::new(alloc);
    let ended = run_job(&terminal, job, input);
    let out = terminal.out.into_inner();
    let err = terminal.err.into_inner();
    ended == status && out.as_str() == text && err.is_empty()
}

#[test]
fn each_job_prints_its_output(rt: HostRuntime) {
    let alloc = rt.alloc();
    assert!(rt; prints(alloc, Job::Run, STEPS, ANSWERS, STATUS_OK));
    assert!(rt; prints(alloc, Job::Dump, STEPS, DUMP, STATUS_OK));
    let accepted = "accepted 2 documents, 3 entries\n";
    assert!(rt; prints(alloc, Job::Check, DUMP.as_bytes(), accepted, STATUS_OK));
}

#[test]
fn a_wrong_dump_is_refused_at_its_line(rt: HostRuntime) {
    let alloc = rt.alloc();
    for (dump, text) in [
        ("", "wrong at line 1\n"),
        ("{\"dump\":2}\n{\"entries\":1}\n", "wrong at line 2\n"),
        ("{\"dump\":2}\n{\"entries\":0}", "wrong at line 2\n"),
        ("{\"dump\":2}\n{\"entries\":0}\n\n", "wrong at line 3\n"),
    ] {
        assert!(rt;
            prints(alloc, Job::Check, dump.as_bytes(), text, STATUS_FAULT),
            "{text}"
        );
    }
}

#[test]
fn a_failed_read_is_printed(rt: HostRuntime) {
    let alloc = rt.alloc();
    for job in [Job::Run, Job::Dump, Job::Check] {
        let input = ClosedStreams::new(alloc);
        assert!(rt; prints(alloc, job, input, "fault: read\n", STATUS_FAULT));
    }
}

#[test]
fn a_failed_write_ends_with_status_1(rt: HostRuntime) {
    let alloc = rt.alloc();
    let output = ClosedStreams::new(alloc);
    assert!(rt; run_job(&output, Job::Run, STEPS) == STATUS_FAULT);
    assert!(rt; run_job(&output, Job::Dump, STEPS) == STATUS_FAULT);
    assert!(rt; run_job(&output, Job::Check, DUMP.as_bytes()) == STATUS_FAULT);
    assert!(rt; run_job(&output, Job::Check, STEPS) == STATUS_FAULT);
}

#[test]
fn a_check_without_memory_is_printed(rt: HostRuntime) {
    let terminal = TerminalBuffer::new(rt.alloc());
    assert!(rt; print_check(&terminal, Err(DumpFault::OutOfMemory)) == STATUS_FAULT);
    assert!(rt; terminal.out.into_inner().as_str() == "fault: memory\n");
}
