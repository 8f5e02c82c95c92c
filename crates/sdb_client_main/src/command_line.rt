//! The command line, which has no options.
use crate::runner::ClientRunner;
use clap::{Command, Error};
use sdb_cli::{STATUS_OK, exit_status, print_help_or_error};
use sdb_lines::{CountingReader, CountingWriter, run_lines};
use std::io;
use std::io::Read;

pub(crate) fn check_words<R: AllocGlobal>(rt: &R, words: &[String]) -> Result<(), Error> {
    let about = "Run a client of one document by the commands of standard input, one per line";
    let command = Command::new(rt.alloc(), "sdb_client_main").about(about);
    command.try_get_matches_from(words)?;
    Ok(())
}

// Runs the program with these words, and returns the exit status.
pub(crate) fn run<R>(rt: &R, words: &[String]) -> anyhow::Result<u8>
where
    R: AllocGlobal + Input + Print + Eprint,
{
    match check_words(rt, words) {
        Ok(()) => Ok(run_commands(rt, rt.reader())),
        Err(error) => print_help_or_error(rt, &error),
    }
}

// Executes the commands of the input, and returns the exit status.
pub(crate) fn run_commands<R, I>(rt: &R, input: I) -> u8
where
    R: AllocGlobal + Print,
    I: Read + Drop,
{
    let mut reader = CountingReader::new(input);
    let mut writer = CountingWriter::new(io::writer(rt));
    let mut runner = ClientRunner::new();
    match run_lines(rt.alloc(), &mut runner, &mut reader, &mut writer) {
        Ok(_) => STATUS_OK,
        Err(fault) => exit_status(rt, fault),
    }
}
