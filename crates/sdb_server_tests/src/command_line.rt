//! Tests of command lines, their output and the exit statuses of runs.
use crate::clients::{FIRST_INIT, open_session};
use crate::connections::close_session;
use sdb_cli::terminal::{ClosedStreams, TerminalBuffer, argument_list};
use sdb_cli::{STATUS_FAULT, STATUS_OK, STATUS_USAGE};
use sdb_projection::{Projection, Table, TableFault};
use sdb_server::ListClock;
use sdb_server_cli::{
    Options, ParsedArgs, ProjectionOptionError, RunMode, ServeOptions, StopCondition, answer_input,
    parse_options, parse_run, run, serve_at, serve_until_end, table_of,
};
use std::alloc::Global;
use std::net::TcpListener;
use std::process::Abort;
use std::{io, thread};

fn split_words(rt: &impl Abort, alloc: Global, line: &str) -> Vec<String> {
    argument_list(alloc, line).expect(rt, "out of memory")
}

fn parse(rt: &impl Abort, alloc: Global, line: &str) -> Option<Options> {
    parse_options(alloc, split_words(rt, alloc, line).as_slice()).ok()
}

// Returns the number of fields of a projection.
fn field_count(table: &Table, name: &str) -> Option<usize> {
    let projection: Option<&Projection> = table.find(name);
    Some(projection?.fields.len())
}

#[test]
fn projections_are_parsed(rt: HostRuntime) {
    let line = "sdb_server --lines --projection t=b:title,,n --projection u=c:x";
    let options = parse(&rt, rt.alloc(), line).expect(&rt, "a run");
    assert!(rt; options.job == Ok(RunMode::Lines));
    let table = options.table.ok().expect(&rt, "a table");
    assert!(rt; field_count(&table, "t") == Some(2) && field_count(&table, "u") == Some(1));
}

// Returns whether the log has forwarded addresses, or `None` without a log.
fn log_of(options: ServeOptions) -> Option<bool> {
    match options.is_logging {
        true => Some(options.is_proxied),
        false => None,
    }
}

// Returns the port, the stop condition and the log of a command line with `--listen`.
fn parse_listen(
    rt: &impl Abort,
    alloc: Global,
    line: &str,
) -> Option<(u16, StopCondition, Option<bool>)> {
    match parse(rt, alloc, line)?.job.ok()? {
        RunMode::Listen {
            address,
            until,
            options,
        } => Some((address.port(), until, log_of(options))),
        _ => None,
    }
}

#[test]
fn addresses_and_stop_conditions_are_parsed(rt: HostRuntime) {
    for (line, wanted) in [
        (
            "sdb_server --listen 127.0.0.1:8080 --connections 2",
            Some((8080, StopCondition::Served(2), None)),
        ),
        ("sdb_server --listen nowhere --connections 2", None),
        (
            "sdb_server --listen 127.0.0.1:0",
            Some((0, StopCondition::Never, None)),
        ),
        (
            "sdb_server --listen 127.0.0.1:0 --log",
            Some((0, StopCondition::Never, Some(false))),
        ),
        (
            "sdb_server --until-eof --log --listen 127.0.0.1:0",
            Some((0, StopCondition::Eof { is_dumping: false }, Some(false))),
        ),
        (
            "sdb_server --dump --until-eof --listen 127.0.0.1:0",
            Some((0, StopCondition::Eof { is_dumping: true }, None)),
        ),
        (
            "sdb_server --listen 127.0.0.1:0 --log --proxy",
            Some((0, StopCondition::Never, Some(true))),
        ),
        ("sdb_server --listen 127.0.0.1:0 --proxy", None),
        ("sdb_server --listen 127.0.0.1:0 --dump", None),
        ("sdb_server --listen 127.0.0.1:0 --connections 0", None),
        (
            "sdb_server --listen 127.0.0.1:0 --connections 1",
            Some((0, StopCondition::Served(1), None)),
        ),
        (
            "sdb_server --listen 127.0.0.1:0 --connections 1001",
            Some((0, StopCondition::Served(1_001), None)),
        ),
        (
            "sdb_server --listen 127.0.0.1:0 --connections 1000000",
            Some((0, StopCondition::Served(1_000_000), None)),
        ),
        (
            "sdb_server --listen 127.0.0.1:0 --connections 1000001",
            None,
        ),
    ] {
        assert!(rt; parse_listen(&rt, rt.alloc(), line) == wanted, "{line}");
    }
}

#[test]
fn modes_of_a_store_are_parsed(rt: HostRuntime) {
    for (line, wanted) in [
        ("sdb_server --store f --lines", Some(RunMode::Lines)),
        ("sdb_server --store f --check", Some(RunMode::Check)),
        ("sdb_server --dump --store f", Some(RunMode::Dump)),
        ("sdb_server --store f --load", Some(RunMode::Load)),
        ("sdb_server --store f --recover g", Some(RunMode::Recover)),
        ("sdb_server --store f --backup g", Some(RunMode::Backup)),
        ("sdb_server --load", None),
        ("sdb_server --recover g", None),
        ("sdb_server --backup g", None),
        ("sdb_server --check --recover g --store f", None),
        ("sdb_server --check --load --store f", None),
        (
            "sdb_server --store f --listen 127.0.0.1:0 --until-eof --dump",
            None,
        ),
        ("sdb_server --store f", None),
    ] {
        let mode = match parse(&rt, rt.alloc(), line) {
            Some(options) => options.job.ok(),
            None => None,
        };
        assert!(rt; mode == wanted, "{line}");
    }
}

// Returns the numbers of loops and clients of a command line.
fn parse_loops(
    rt: &impl Abort,
    alloc: Global,
    line: &str,
) -> Option<(Option<usize>, Option<usize>)> {
    match parse(rt, alloc, line)?.job.ok()? {
        RunMode::Listen { options, .. } => Some((options.loops, options.clients)),
        _ => None,
    }
}

#[test]
fn loops_are_parsed(rt: HostRuntime) {
    for (line, wanted) in [
        ("sdb_server --listen 127.0.0.1:0", Some((None, None))),
        (
            "sdb_server --listen 127.0.0.1:0 --loops 2",
            Some((Some(2), None)),
        ),
        (
            "sdb_server --listen 127.0.0.1:0 --loops 64 --clients 16384",
            Some((Some(64), Some(16_384))),
        ),
        (
            "sdb_server --listen 127.0.0.1:0 --clients 8 --connections 1",
            Some((None, Some(8))),
        ),
        ("sdb_server --listen 127.0.0.1:0 --loops 0", None),
        ("sdb_server --listen 127.0.0.1:0 --loops 65", None),
        ("sdb_server --listen 127.0.0.1:0 --clients 0", None),
        ("sdb_server --listen 127.0.0.1:0 --clients 16385", None),
        ("sdb_server --lines --loops 1", None),
        ("sdb_server --lines --clients 1", None),
    ] {
        assert!(rt; parse_loops(&rt, rt.alloc(), line) == wanted, "{line}");
    }
}

// Appends a letter `count` times.
fn push_repeated(rt: &impl Abort, text: &mut String, letter: char, count: usize) {
    for _ in 0..count {
        text.push(letter).expect(rt, "out of memory");
    }
}

// Returns a projection with the field x and names of these lengths in bytes.
fn projection_with_names(rt: &impl Abort, alloc: Global, name: usize, collection: usize) -> String {
    let mut text = String::new(alloc);
    push_repeated(rt, &mut text, 'p', name);
    push_repeated(rt, &mut text, '=', 1);
    push_repeated(rt, &mut text, 'c', collection);
    push_repeated(rt, &mut text, ':', 1);
    push_repeated(rt, &mut text, 'x', 1);
    text
}

// Returns the reason why a projection is refused.
fn table_error(alloc: Global, text: &str) -> Option<ProjectionOptionError> {
    table_of(alloc, &[text]).err()
}

#[test]
fn invalid_projections_are_refused(rt: HostRuntime) {
    for (text, refusal) in [
        ("t", ProjectionOptionError::Form),
        ("t=b", ProjectionOptionError::Form),
        ("t:b=x", ProjectionOptionError::Form),
        ("=b:x", ProjectionOptionError::Name),
        ("t=:x", ProjectionOptionError::Name),
        ("t=b:,", ProjectionOptionError::Table(TableFault::NoField)),
    ] {
        assert!(rt; table_error(rt.alloc(), text) == Some(refusal), "{text}");
    }
}

#[test]
fn names_of_projections_have_at_most_200_bytes(rt: HostRuntime) {
    for (name, collection, refusal) in [
        (200, 200, None),
        (201, 200, Some(ProjectionOptionError::Name)),
        (200, 201, Some(ProjectionOptionError::Name)),
    ] {
        let text = projection_with_names(&rt, rt.alloc(), name, collection);
        assert!(rt;
            table_error(rt.alloc(), text.as_str()) == refusal,
            "{name} and {collection}"
        );
    }
}

const TWO_MODES: &str = "error: the argument '--lines' cannot be used with '--listen <ADDR>'\n";

const INVALID_ADDRESS: &str = "error: --listen takes an address, such as 127.0.0.1:8080\n";

const INVALID_FORM: &str = "error: a projection is NAME=COLLECTION:FIELD,..\n";

const INVALID_NAME: &str =
    "error: the name of a projection and that of its collection have 1 to 200 bytes\n";

// Returns the exit status of a command line that starts no run.
fn status_of(rt: &impl Abort, terminal: &TerminalBuffer, words: &[String]) -> Option<u8> {
    match parse_run(terminal, words).expect(rt, "out of memory") {
        ParsedArgs::Run(..) => None,
        ParsedArgs::Help(status) => Some(status),
    }
}

// Returns the exit status, standard output and standard error of a command line that starts no run.
fn run_without_job(rt: &impl Abort, alloc: Global, line: &str) -> (Option<u8>, String, String) {
    let words = split_words(rt, alloc, line);
    let terminal = TerminalBuffer::new(alloc);
    let status = status_of(rt, &terminal, words.as_slice());
    (status, terminal.out.into_inner(), terminal.err.into_inner())
}

// Each refusal is on standard error: that of an option names the help, any other is one line. The
// options are checked first, then the address, then the projections in order.
#[test]
fn a_refused_command_line_is_printed_on_standard_error(rt: HostRuntime) {
    for (line, expected) in [
        (
            "sdb_server --listen nowhere --projection t",
            INVALID_ADDRESS,
        ),
        (
            "sdb_server --listen 127.0.0.1:0 --projection t",
            INVALID_FORM,
        ),
        (
            "sdb_server --lines --projection t --projection =b:x",
            INVALID_FORM,
        ),
        (
            "sdb_server --lines --projection =b:x --projection t",
            INVALID_NAME,
        ),
        (
            "sdb_server --lines --listen nowhere --projection t",
            TWO_MODES,
        ),
        ("sdb_server --lines --port", ""),
        ("sdb_server", ""),
        ("sdb_server --lines --listen 127.0.0.1:0", TWO_MODES),
        ("sdb_server --lines --connections 1", ""),
        ("sdb_server --lines --until-eof", ""),
        ("sdb_server --lines --log", ""),
        ("sdb_server --until-eof", ""),
        (
            "sdb_server --listen 127.0.0.1:0 --until-eof --connections 1",
            "",
        ),
        ("sdb_server --listen 127.0.0.1:0 --connections 0", ""),
        ("sdb_server more", ""),
    ] {
        let (status, out, err) = run_without_job(&rt, rt.alloc(), line);
        let text = err.as_str();
        let names_help = text.contains("For more information, try '--help'.");
        assert!(rt; (text.lines().count() == 1) != names_help, "{line}");
        assert!(rt;
            status == Some(STATUS_USAGE) && out.is_empty() && text.starts_with(expected),
            "{line}"
        );
    }
}

// The options and their texts in the help.
const OPTIONS: [&str; 14] = [
    "--lines",
    "--listen <ADDR>",
    "--connections <N>",
    "With --listen, exit after serving N clients",
    "--until-eof",
    "With --listen, exit at the end of standard input",
    "--dump",
    "With --until-eof, write a dump of all logs at exit",
    "--log",
    "With --listen, log connections to standard error",
    "--proxy",
    "With --log, take the clients' addresses from X-Forwarded-For",
    "--projection <NAME=COLLECTION:FIELD,..>",
    "Project these fields of a collection under another name",
];

// The version is one line.
#[test]
fn help_and_the_version_are_printed(rt: HostRuntime) {
    let (status, out, err) = run_without_job(&rt, rt.alloc(), "sdb_server --help");
    assert!(rt; status == Some(STATUS_OK) && err.is_empty());
    for option in OPTIONS {
        assert!(rt; out.as_str().contains(option), "{option}");
    }
    let (status, out, err) = run_without_job(&rt, rt.alloc(), "sdb_server --version");
    assert!(rt;
        status == Some(STATUS_OK) && err.is_empty() && out.as_str() == "sdb_server 0.1.0\n"
    );
}

const TWO_LINES: &[u8] = b"one\ntwo\n";

// A server for 0 connections, and one whose input has ended.
#[test]
fn a_server_ends_at_the_end_of_its_input(rt: HostRuntime) {
    let listener = TcpListener::bind(&rt, "127.0.0.1:0").expect(&rt, "a port");
    let options = ServeOptions {
        loops: None,
        clients: None,
        memory: None,
        is_logging: false,
        is_proxied: false,
    };
    let table = Table::new(rt.alloc());
    let status = serve_until_end(rt, listener, TWO_LINES, options, true, table);
    assert!(rt; status.ok() == Some(STATUS_OK));
}

// Logs too.
#[test]
fn a_server_ends_after_its_number_of_sessions(rt: HostRuntime) {
    let alloc = rt.alloc();
    let listener = TcpListener::bind(&rt, "127.0.0.1:0").expect(&rt, "a port");
    let address = listener.local_addr().expect(&rt, "an address");
    let client = thread::spawn(&rt, move || {
        close_session(&rt, open_session(&rt, rt, alloc, address, FIRST_INIT));
    });
    let client = client.expect(&rt, "a thread");
    let options = ServeOptions {
        loops: Some(1),
        clients: None,
        memory: None,
        is_logging: true,
        is_proxied: true,
    };
    let status = serve_at(
        rt,
        listener,
        StopCondition::Served(1),
        options,
        Table::new(alloc),
    );
    assert!(rt; status.ok() == Some(STATUS_OK));
    client.join(&rt);
}

#[test]
fn a_port_in_use_ends_with_status_1(rt: HostRuntime) {
    let alloc = rt.alloc();
    let listener = TcpListener::bind(&rt, "127.0.0.1:0").expect(&rt, "a port");
    let address = listener.local_addr().expect(&rt, "an address");
    let line = format!(in alloc; "sdb_server --listen {address} --connections 1");
    let words = split_words(&rt, alloc, line.expect(&rt, "out of memory").as_str());
    assert!(rt; run(rt, words.as_slice()).ok() == Some(STATUS_FAULT));
}

// Returns a clock that always reads 0.
fn clock_at_zero(alloc: Global) -> ListClock {
    ListClock::new(Vec::new(alloc))
}

const LINE: &[u8] = br#"{"a":"f","c":"b","d":"1"}"#;

const FETCHED: &str = r#"{"a":"f","c":"b","d":"1","data":{"type":null,"v":0}}
"#;

// Returns whether the run on the input ends with this status and its output with this text.
fn ends_with(alloc: Global, input: impl io::Read + Drop, status: u8, expected: &str) -> bool {
    let terminal = TerminalBuffer::new(alloc);
    answer_input(&terminal, clock_at_zero(alloc), input, &Table::new(alloc)) == status
        && terminal.out.into_inner().as_str().ends_with(expected)
}

#[test]
fn a_line_session_returns_its_status(rt: HostRuntime) {
    let (alloc, table) = (rt.alloc(), Table::new(rt.alloc()));
    assert!(rt; ends_with(alloc, LINE, STATUS_OK, FETCHED));
    assert!(rt;
        ends_with(
            alloc,
            ClosedStreams::new(alloc),
            STATUS_FAULT,
            "fault: read\n"
        )
    );
    assert!(rt;
        answer_input(
            &ClosedStreams::new(alloc),
            clock_at_zero(alloc),
            LINE,
            &table
        ) == STATUS_FAULT
    );
}
