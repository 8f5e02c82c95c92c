//! Clocks of sessions.
ghost use Rattle.std.specs.Prelude.{◌≡◌, ℕ, List, Option, Some};
ghost use Rattle.sdb_server.specs.Clocks.{ClockReturns, moment_since};

use sdb_oplog::Moment;
use std::marker::Model;
use std::time::{Duration, SystemTime};

/// A clock. A session reads it once for each line or message.
pub trait Clock {
    // The moments that the clock returns next, in order and then 0. `None` if they aren't known; each
    // is then at most 9007199254740991.
    ghost remaining_moments: { Self → Option (List ℕ) };

    /// Returns the current moment.
    fn now(&mut self) -> Moment
        ensures { ClockReturns (remaining_moments self.old) result (remaining_moments self.new) };
}

/// A clock that returns the moments of a list in order, and then 0.
#[derive(Drop)]
pub struct ListClock {
    moments: Vec<Moment>,
    next_index: usize,
}

impl Model for ListClock {
    ghost use Rattle.std.specs.Prelude.{ℕ, List, drop};
    ghost use Rattle.std.specs.Coded.{coded_list, coded_ℕ};

    ghost Value = { List ℕ };

    ghost coded = { coded_list coded_ℕ };

    // the moments that are left
    ghost view = { λ c. drop c.next_index c.moments.items };
}

impl ListClock {
    /// Creates a clock from a list of moments.
    pub fn new(moments: Vec<Moment>) -> ListClock
        ensures { result ≡ moments.items }
    {
        ListClock {
            moments,
            next_index: 0,
        }
    }
}

impl Clock for ListClock {
    ghost remaining_moments = { Some };

    fn now(&mut self) -> Moment {
        match self.moments.get(self.next_index) {
            Some(moment) => {
                self.next_index += 1;
                *moment
            }
            None => Moment::zero(),
        }
    }
}

/// The system's clock, in milliseconds since the beginning of 1970. It returns 0 if it is set
/// before that or can't be read.
#[derive(Clone, Copy, Drop)]
pub struct SystemClock<'a, T> {
    time: &'a T,
}

impl<'a, T> SystemClock<'a, T> {
    /// Creates a clock that reads the time of a runtime.
    pub fn new(time: &'a T) -> SystemClock<'a, T> {
        SystemClock { time }
    }
}

/// Its moments aren't known to the contracts.
impl<T: std::time::Clock> Clock for SystemClock<'_, T> {
    ghost use Rattle.std.specs.Prelude.{None};

    ghost remaining_moments = { λ c. None };

    fn now(&mut self) -> Moment {
        match SystemTime::now(self.time) {
            Ok(time) => moment_since(time.duration_since(SystemTime::UNIX_EPOCH).ok()),
            Err(_) => moment_since(None),
        }
    }
}

/// Returns the moment at a time after the beginning of 1970: its whole milliseconds, at most
/// 9007199254740991. Without a time, as before 1970, it is 0.
pub fn moment_since(elapsed: Option<Duration>) -> Moment
    ensures { result ≡ moment_since elapsed }
{
    let Some(elapsed) = elapsed else {
        return Moment::zero();
    };
    Moment::saturating_new(u64::try_from(elapsed.as_millis()).unwrap_or(u64::MAX))
}
