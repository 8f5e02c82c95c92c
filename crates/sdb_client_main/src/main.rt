//! The program of a reference client. Each line of standard input is a command, and each has one
//! answer line on standard output: the client after it.
#![tactic(auto)]

mod command;
mod command_line;
mod execute;
mod fault;
mod runner;
#[cfg(test)]
mod tests;
mod write_answer;

use std::env;
use std::process::ExitCode;

fn main(rt: HostRuntime) -> anyhow::Result<ExitCode> {
    let words: Vec<String> = env::args(&rt)?.collect(rt.alloc())?;
    let status = command_line::run(&rt, words.as_slice())?;
    Ok(ExitCode::from(status))
}
