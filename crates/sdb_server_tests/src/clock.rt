//! Tests of the system's clock, read from a time that the test sets.
use sdb_server::{Clock, SystemClock, moment_since};
use std::time::Duration;
use std::{io, time};

// A system whose time since the beginning of 1970 is this one. It can't be read if it is `None`.
#[derive(Drop)]
struct FixedTime {
    since_1970: Option<Duration>,
}

impl time::Clock for FixedTime {
    fn monotonic(&self) -> io::Result<Duration> {
        Ok(Duration::from_secs(0))
    }

    fn since_1970(&self) -> io::Result<Duration> {
        match self.since_1970 {
            Some(time) => Ok(time),
            None => Err(io::Error::from(io::ErrorKind::Unsupported)),
        }
    }
}

// Returns the clock's milliseconds at this time.
fn milliseconds_at(since_1970: Option<Duration>) -> u64 {
    let time = FixedTime { since_1970 };
    SystemClock::new(&time).now().milliseconds()
}

// The time is before 1970 or can't be read, is a part of a millisecond, or is too large.
#[test]
fn the_clock_counts_whole_milliseconds(rt: HostRuntime) {
    for (time, wanted) in [
        (None, 0),
        (Some(Duration::new(0, 999_999)), 0),
        (Some(Duration::new(0, 1_000_000)), 1),
        (Some(Duration::new(1_234, 567_899_999)), 1_234_567),
        (
            Some(Duration::new(9_007_199_254_740, 991_000_000)),
            9_007_199_254_740_991,
        ),
        (
            Some(Duration::new(9_007_199_254_740, 992_000_000)),
            9_007_199_254_740_991,
        ),
        (
            Some(Duration::new(9_223_372_036_854_775_807, 0)),
            9_007_199_254_740_991,
        ),
    ] {
        assert!(rt; milliseconds_at(time) == wanted, "{wanted}");
    }
}

// The system clock counts milliseconds since the beginning of 1970.
#[test]
fn the_system_clock_counts_milliseconds_since_1970(rt: HostRuntime) {
    let milliseconds = SystemClock::new(&rt).now().milliseconds();
    assert!(rt; milliseconds > 1_700_000_000_000 && milliseconds < 17_000_000_000_000);
}

// The moment of a time since 1970 is its whole milliseconds, within the range of moments.
#[test]
fn a_time_since_1970_has_a_moment(rt: HostRuntime) {
    for (elapsed, milliseconds) in [
        (None, 0),
        (Some(Duration::from_micros(1_999)), 1),
        (
            Some(Duration::from_millis(1_700_000_000_123)),
            1_700_000_000_123,
        ),
        (Some(Duration::MAX), 9_007_199_254_740_991),
    ] {
        assert!(rt; moment_since(elapsed).milliseconds() == milliseconds);
    }
}
