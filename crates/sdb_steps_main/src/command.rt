//! The command line and its options.
use clap::{Arg, ArgAction, Command, Error};
use sdb_cli::{STATUS_FAULT, STATUS_OK, exit_status, print_help_or_error};
use sdb_dump::{CheckedDump, DumpFault, check_dump};
use sdb_lines::{CountingReader, CountingWriter, RunFault};
use std::alloc::{AllocError, Global};
use std::io;
use std::io::Read;

// The mode in which the program runs.
#[derive(Clone, Copy, PartialEq, Eq, Drop)]
pub(crate) enum Job {
    // Writes the answers to the steps.
    Run,
    // Writes the dump of the documents after the steps.
    Dump,
    // Checks whether the input is such a dump.
    Check,
}

fn command<'a>(alloc: Global) -> Result<Command<'a>, AllocError> {
    let dump = Arg::new(alloc, "dump")
        .long("dump")
        .help("Write no answers, but a dump of all logs at the end")
        .action(ArgAction::SetTrue);
    let check = Arg::new(alloc, "check")
        .long("check")
        .help("Check that standard input is such a dump")
        .action(ArgAction::SetTrue)
        .conflicts_with("dump")?;
    Command::new(alloc, "sdb_steps_main")
        .about(
            "Run the steps of up to 64 sessions on JSON documents, one per line of standard input",
        )
        .arg(dump)?
        .arg(check)
}

// Parses a command line; help and refusals are errors.
pub(crate) fn parse_job(alloc: Global, words: &[String]) -> Result<Job, Error> {
    let matches = command(alloc)?.try_get_matches_from(words)?;
    if matches.get_flag("dump") {
        return Ok(Job::Dump);
    }
    if matches.get_flag("check") {
        return Ok(Job::Check);
    }
    Ok(Job::Run)
}

// Runs the program with these words, and returns the exit status.
pub(crate) fn run<R>(rt: &R, words: &[String]) -> anyhow::Result<u8>
where
    R: AllocGlobal + Input + Print + Eprint,
{
    match parse_job(rt.alloc(), words) {
        Ok(job) => Ok(run_job(rt, job, rt.reader())),
        Err(error) => print_help_or_error(rt, &error),
    }
}

// Runs a job over the input, and returns the exit status.
pub(crate) fn run_job<R, I>(rt: &R, job: Job, input: I) -> u8
where
    R: AllocGlobal + Print,
    I: Read + Drop,
{
    let mut reader = CountingReader::new(input);
    let mut writer = CountingWriter::new(io::writer(rt));
    let fault = match job {
        Job::Check => return print_check(rt, check_dump(rt.alloc(), &mut reader)),
        Job::Dump => sdb_steps::run_dump(rt.alloc(), &mut reader, &mut writer).err(),
        Job::Run => sdb_steps::run(rt.alloc(), &mut reader, &mut writer).err(),
    };
    match fault {
        Some(fault) => exit_status(rt, fault),
        None => STATUS_OK,
    }
}

// Prints the outcome of a check, and returns the exit status.
pub(crate) fn print_check(rt: &impl Print, checked: Result<CheckedDump, DumpFault>) -> u8 {
    match checked {
        Ok(
            CheckedDump {
                documents,
                entries,
                ..
            },
        ) => match println!(rt; "accepted {documents} documents, {entries} entries") {
            Ok(()) => STATUS_OK,
            Err(_) => STATUS_FAULT,
        },
        Err(DumpFault::ReadFailed) => exit_status(rt, RunFault::ReadFailed),
        Err(DumpFault::OutOfMemory) => exit_status(rt, RunFault::OutOfMemory),
        Err(wrong) => {
            let _ = println!(rt; "{wrong}");
            STATUS_FAULT
        }
    }
}
