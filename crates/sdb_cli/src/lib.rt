//! What the programs have in common: exit statuses, and the messages for refused command lines and
//! for runs that fail.
#![tactic(auto)]

pub mod terminal;

ghost use Rattle.std.specs.Prelude.{◌≡◌, ◌⊎◌, IfOk};

use clap::Error;
use clap::error::ErrorKind;
use sdb_lines::RunFault;
use std::alloc::AllocError;
use std::io;

/// The exit status of a run that reached the end of its input, and of help.
pub const STATUS_OK: u8 = 0;

/// The exit status of a run that failed.
pub const STATUS_FAULT: u8 = 1;

/// The exit status of a refused command line.
pub const STATUS_USAGE: u8 = 2;

/// Prints the outcome of a command line that starts no run, and returns the exit status. Help and
/// the version go to standard output; a refusal goes to standard error.
///
/// # Errors
///
/// [`AllocError`] if an allocation fails or was the reason of `error`. The error of the stream if
/// the text cannot be printed.
pub fn print_help_or_error<R: Print + Eprint>(rt: &R, error: &Error) -> anyhow::Result<u8>
    ensures { IfOk result (λ status. (status ≡ STATUS_OK) ⊎ (status ≡ STATUS_USAGE)) }
{
    if let ErrorKind::OutOfMemory = error.kind() {
        return Err(AllocError.into());
    }
    error.print(rt)?;
    match error.exit_code() {
        0 => Ok(STATUS_OK),
        _ => Ok(STATUS_USAGE),
    }
}

/// Prints the first line of `why` to standard error, and returns [`STATUS_USAGE`].
///
/// # Errors
///
/// The error of standard error if the line cannot be printed.
pub fn print_refusal(rt: &impl Eprint, why: &str) -> io::Result<u8>
    ensures { IfOk result (λ status. status ≡ STATUS_USAGE) }
{
    let line = why.lines().next().unwrap_or("error: refused");
    eprintln!(rt; "{line}")?;
    Ok(STATUS_USAGE)
}

/// Prints the fault that ended a run to standard output, and returns [`STATUS_FAULT`]. It prints
/// nothing for a failed write, and ignores a failure to print.
pub fn exit_status(rt: &impl Print, fault: RunFault) -> u8
    ensures { result ≡ STATUS_FAULT }
{
    let _ = match fault {
        RunFault::ReadFailed => println!(rt; "fault: read"),
        RunFault::WriteFailed => Ok(()),
        RunFault::OutOfMemory => println!(rt; "fault: memory"),
    };
    STATUS_FAULT
}
