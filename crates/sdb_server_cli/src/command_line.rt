//! The command line and its run.
use crate::clients::serve_clients;
use crate::options::{Options, RunMode, StorePaths, parse_options};
use crate::projection_option::ProjectionOptionError;
use sdb_cli::{STATUS_OK, exit_status, print_help_or_error, print_refusal};
use sdb_lines::{CountingReader, CountingWriter, RunFault};
use sdb_projection::{Table, TableFault};
use sdb_server::{LineSession, SystemClock, run_lines};
use std::alloc::AllocError;
use std::io;
use std::io::{Read, StdinLock};
use std::mem::forget;
use std::net::{Net, TcpListener, TcpStream};
use std::sync::Wait;
use std::thread::Threads;
use std::time::Clock;

const NO_STORE: &str = "error: --check, --dump, --load, --recover and --backup need --store";

const NO_FILE: &str = "error: --store is an option of the program that opens files";

/// The outcome of parsing a command line.
#[derive(Drop)]
pub enum ParsedArgs {
    /// A run in this mode with these projections, and with the store at these paths if there is one.
    Run(RunMode, Table, Option<StorePaths>),
    /// No run; the program ends with this exit status.
    Help(u8),
}

/// Runs the program with the words of a command line, and returns the exit status. It is 0 for a
/// complete run, help and version, 1 for a run that failed, and 2 for a refused command line. The
/// documents are in memory only, and `--store` is refused: [`serve_stored`](crate::serve_stored) serves
/// those of a store.
///
/// # Errors
///
/// [`AllocError`] if an allocation fails before the run. The errors of
/// [`serve_at`](crate::serve_at), or of printing a line.
pub fn run<R>(rt: R, words: &[String]) -> anyhow::Result<u8>
where
    R: AllocGlobal + Input<Reader = StdinLock<'static>> + Print + Eprint,
    R: Net<Listener = TcpListener, Stream = TcpStream> + Threads + Wait + Clock,
    R: Copy + Drop + Send + Sync + 'static,
{
    match parse_run(&rt, words)? {
        ParsedArgs::Run(mode, table, None) => run_mode(rt, mode, table),
        ParsedArgs::Run(_, _, Some(_)) => Ok(print_refusal(&rt, NO_FILE)?),
        ParsedArgs::Help(status) => Ok(status),
    }
}

/// Parses the words of a command line. Prints help, the version or the refusal if they start no
/// run.
///
/// # Errors
///
/// [`AllocError`] if an allocation fails, or the error of printing a line.
pub fn parse_run<R>(rt: &R, words: &[String]) -> anyhow::Result<ParsedArgs>
where
    R: AllocGlobal + Print + Eprint,
{
    let options = match parse_options(rt.alloc(), words) {
        Ok(options) => options,
        Err(error) => return Ok(ParsedArgs::Help(print_help_or_error(rt, &error)?)),
    };
    let Options { job, table, store } = options;
    let job = match job {
        Ok(job) => job,
        Err(refusal) => return Ok(ParsedArgs::Help(print_refusal(rt, refusal)?)),
    };
    match table {
        Ok(table) => Ok(ParsedArgs::Run(job, table, store)),
        Err(refusal) => Ok(ParsedArgs::Help(refuse_projections(rt, refusal)?)),
    }
}

/// Runs in a mode, with documents in memory only, and returns the exit status.
///
/// # Errors
///
/// As [`serve_at`](crate::serve_at).
pub fn run_mode<R>(rt: R, mode: RunMode, table: Table) -> anyhow::Result<u8>
where
    R: AllocGlobal + Input<Reader = StdinLock<'static>> + Print + Eprint,
    R: Net<Listener = TcpListener, Stream = TcpStream> + Threads + Wait + Clock,
    R: Copy + Drop + Send + Sync + 'static,
{
    match mode {
        RunMode::Lines => Ok(answer_input(&rt, SystemClock::new(&rt), rt.reader(), &table)),
        RunMode::Listen {
            address,
            until,
            options,
        } => serve_clients(rt, address, until, options, table),
        RunMode::Check | RunMode::Dump | RunMode::Load | RunMode::Recover | RunMode::Backup => Ok(
            print_refusal(&rt, NO_STORE)?,
        ),
    }
}

// Prints the reason why the projections are refused, or returns an allocation failure as an error.
fn refuse_projections<R>(rt: &R, refusal: ProjectionOptionError) -> anyhow::Result<u8>
where
    R: AllocGlobal + Eprint,
{
    if refusal == ProjectionOptionError::Table(TableFault::OutOfMemory) {
        return Err(AllocError.into());
    }
    let text = format!(in rt.alloc(); "{refusal}")?;
    Ok(print_refusal(rt, text.as_str())?)
}

/// Serves one session whose messages are the lines of the input, writes the answers to standard
/// output, and returns the exit status.
pub fn answer_input<R, C, I>(rt: &R, clock: C, input: I, table: &Table) -> u8
where
    R: AllocGlobal + Print,
    C: sdb_server::Clock + Drop,
    I: Read + Drop,
{
    match run_to_end(rt, clock, input, table) {
        Ok(()) => STATUS_OK,
        Err(fault) => exit_status(rt, fault),
    }
}

// Answers the lines, and leaks the documents, since the program ends.
fn run_to_end<R, C, I>(rt: &R, clock: C, input: I, table: &Table) -> Result<(), RunFault>
where
    R: AllocGlobal + Print,
    C: sdb_server::Clock + Drop,
    I: Read + Drop,
{
    let mut reader = CountingReader::new(input);
    let mut writer = CountingWriter::new(io::writer(rt));
    let mut session = LineSession::new(rt.alloc(), table, clock)?;
    let counts = run_lines(rt.alloc(), &mut session, &mut reader, &mut writer);
    forget(session);
    counts?;
    Ok(())
}
