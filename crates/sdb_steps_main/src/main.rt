//! The program that executes the steps of up to 64 sessions on shared documents. Each line of
//! standard input is a step, and each has one answer line on standard output.
#![tactic(auto)]

mod command;
#[cfg(test)]
mod tests;

use std::env;
use std::process::ExitCode;

fn main(rt: HostRuntime) -> anyhow::Result<ExitCode> {
    let words: Vec<String> = env::args(&rt)?.collect(rt.alloc())?;
    let status = command::run(&rt, words.as_slice())?;
    Ok(ExitCode::from(status))
}
