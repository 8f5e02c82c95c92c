//! Tests of what no clause states: limits, texts of faults, unreadable lines, failing streams, and
//! the command line.
use crate::command_line::{check_words, run_commands};
use crate::fault::CommandFault;
use sdb_cli::terminal::{ClosedStreams, TerminalBuffer, argument_list};
use sdb_cli::{STATUS_FAULT, STATUS_OK, STATUS_USAGE, print_help_or_error};
use sdb_client::{ProcessFault, ReferenceClient, SendFault};
use sdb_component::Op;
use sdb_oplog::{Content, Entry, Moment, Submission};
use sdb_value::Json;
use std::alloc::Global;
use std::io;
use std::test::Fail;

// Returns whether the program on the input prints this text and ends with this status.
fn prints(alloc: Global, input: impl io::Read + Drop, text: &str, status: u8) -> bool {
    let terminal = TerminalBuffer::new(alloc);
    let ended = run_commands(&terminal, input);
    let out = terminal.out.into_inner();
    let err = terminal.err.into_inner();
    ended == status && out.as_str() == text && err.is_empty()
}

const STARTED: &str = r#"{"data":null,"pending":[],"seq":4,"sent":null,"shown":null,"v":3}
"#;

const START: &[u8] = br#"{"a":"start","src":"ada","v":3,"seq":4,"create":{"type":"json0"}}"#;

const UNREADABLE: &str = r#"{"error":"badly formed"}
"#;

#[test]
fn a_line_is_answered(rt: HostRuntime) {
    let alloc = rt.alloc();
    assert!(rt; prints(alloc, START, STARTED, STATUS_OK));
    assert!(rt; prints(alloc, b"\xff\n".as_slice(), UNREADABLE, STATUS_OK));
    assert!(rt; prints(alloc, b"".as_slice(), "", STATUS_OK));
}

// Returns an entry of a source, without a component.
fn entry_of(alloc: Global, source: &str, seq: u64) -> Result<Entry, Fail> {
    let content = Content::edit(alloc, Op::new(Vec::new(alloc)))?;
    let src = String::from_str(alloc, source)?;
    let submission = Submission::new(alloc, src, seq, None, content, String::new(alloc), 0)?;
    Ok(Entry::new(0, Moment::zero(), None, submission))
}

#[test]
fn each_call_is_made(rt: HostRuntime) -> Result<(), Fail> {
    let alloc = rt.alloc();
    let source = String::from_str(alloc, "ada")?;
    let mut client = ReferenceClient::new(alloc, source, 7, Json::Bool(true), u64::MAX - 1);
    assert!(rt; client.source() == "ada" && client.sent().is_none());
    client.make_edit(Op::new(Vec::new(alloc)))?;
    client.make_edit(Op::new(Vec::new(alloc)))?;
    let sent = client.send()?;
    assert!(rt; sent.is_some_and(|it| it.seq() == u64::MAX - 1 && it.base() == 7));
    assert!(rt; client.send()?.is_none());
    client.process(&entry_of(alloc, "ben", u64::MAX - 1)?)?;
    assert!(rt; client.sent().is_some() && client.pending().len() == 2);
    client.process(&entry_of(alloc, "ada", u64::MAX - 1)?)?;
    assert!(rt; client.sent().is_none() && client.pending().len() == 1);
    assert!(rt; client.version() == 9 && client.next_seq() == u64::MAX);
    assert!(rt; matches!(client.document(), Json::Bool(true)));
    let shown = client.shown()?;
    assert!(rt; matches!(&shown, Json::Bool(true)));
    assert!(rt; matches!(client.send(), Err(SendFault::SeqLimit)));
    Ok(())
}

#[test]
fn the_last_version_is_kept(rt: HostRuntime) -> Result<(), Fail> {
    let alloc = rt.alloc();
    let source = String::from_str(alloc, "ada")?;
    let mut client = ReferenceClient::new(alloc, source, u64::MAX, Json::Null, 0);
    let refused = client.process(&entry_of(alloc, "ben", 1)?);
    assert!(rt; matches!(refused, Err(ProcessFault::VersionLimit)));
    assert!(rt; client.version() == u64::MAX);
    Ok(())
}

#[test]
fn texts_of_faults_are_those_of_the_library(rt: HostRuntime) -> Result<(), Fail> {
    let alloc = rt.alloc();
    for fault in [SendFault::SeqLimit, SendFault::OutOfMemory] {
        let text = format!(in alloc; "{fault}")?;
        assert!(rt; text.as_str() == CommandFault::Send(fault).text());
    }
    for fault in [
        ProcessFault::NotProcessed,
        ProcessFault::VersionLimit,
        ProcessFault::OutOfMemory,
    ] {
        let text = format!(in alloc; "{fault}")?;
        assert!(rt; text.as_str() == CommandFault::Process(fault).text());
    }
    Ok(())
}

#[test]
fn a_failed_stream_ends_with_status_1(rt: HostRuntime) {
    let alloc = rt.alloc();
    let input = ClosedStreams::new(alloc);
    assert!(rt; prints(alloc, input, "fault: read\n", STATUS_FAULT));
    let output = ClosedStreams::new(alloc);
    assert!(rt; run_commands(&output, START) == STATUS_FAULT);
}

// Returns the exit status of a command line that starts no run.
fn status_of(terminal: &TerminalBuffer, words: &[String]) -> Option<u8> {
    match check_words(terminal, words) {
        Ok(()) => None,
        Err(error) => print_help_or_error(terminal, &error).ok(),
    }
}

#[test]
fn words_are_refused(rt: HostRuntime) -> Result<(), Fail> {
    for (line, status) in [
        ("sdb_client_main", None),
        ("sdb_client_main --help", Some(STATUS_OK)),
        ("sdb_client_main more", Some(STATUS_USAGE)),
    ] {
        let words = argument_list(rt.alloc(), line)?;
        let terminal = TerminalBuffer::new(rt.alloc());
        assert!(rt; status_of(&terminal, words.as_slice()) == status, "{line}");
        assert!(rt;
            terminal.out.into_inner().is_empty() == (status != Some(STATUS_OK)),
            "{line}"
        );
        assert!(rt;
            terminal.err.into_inner().is_empty() == (status != Some(STATUS_USAGE)),
            "{line}"
        );
    }
    Ok(())
}
