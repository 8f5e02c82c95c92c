//! The output of a measurement.
use std::io;
use std::time::Instant;

/// Prints the mean time of a call, for this number of calls since the start.
pub(crate) fn report(rt: &HostRuntime, name: &str, start: Instant, calls: u64) -> io::Result<()> {
    let nanos = start.elapsed(rt)?.as_nanos();
    let each = if calls == 0 { 0 } else { nanos / calls as u128 };
    println!(rt; "{name}: {each} ns for each of {calls}")
}
