//! Measurements of the lower crates, of parsing and printing JSON, and a WebSocket server that only
//! echoes. The input is read from standard input. The scripts `bench/run` and `bench/sockets` build
//! the program, generate its input and name the results.
#![tactic(auto)]

mod applying;
mod echoing;
mod fetching;
mod input;
mod json;
mod locking;
mod timing;
mod transforming;

use std::env;
use std::process::ExitCode;

fn main(rt: HostRuntime) -> anyhow::Result<ExitCode> {
    let alloc = rt.alloc();
    let words: Vec<String> = env::args(&rt)?.collect(alloc)?;
    let measurement = match words.get(1) {
        Some(word) => word.as_str(),
        None => "",
    };
    match (measurement, words.get(2)) {
        ("json", None) => json::parse_and_print(&rt)?,
        ("read", None) => json::parse(&rt)?,
        ("apply", None) => applying::measure(&rt)?,
        ("fetch", None) => fetching::measure(&rt)?,
        ("transform", None) => transforming::transform_repeatedly(&rt)?,
        ("cross", None) => transforming::cross_once(&rt)?,
        ("lock", None) => locking::measure(&rt, &rt)?,
        ("echo", Some(address)) => echoing::serve(rt, address.as_str())?,
        _ => {
            eprintln!(rt;
                "sdb_bench: json, read, apply, fetch, transform, cross, lock or echo ADDR"
            )?;
            return Ok(ExitCode::from(2));
        }
    }
    Ok(ExitCode::SUCCESS)
}
