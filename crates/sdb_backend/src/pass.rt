//! The passes of a backend's callers.
ghost use Rattle.std.specs.Prelude.{◌≡◌};
ghost use Rattle.sdb_backend.specs.PassModel.{pass_number, next_pass_number};

use crate::shard_value::Held;
use sdb_striped_lock::{RootSeats, SeatSet};

/// A caller's handle of a backend: one seat per lock. It has a unique number, and records the last
/// history of each shard that it observed.
#[derive(Drop)]
pub struct Pass {
    pub(crate) seats: SeatSet<Held>,
}

impl Pass {
    /// Returns the pass's number, 1 or more.
    pub fn number(&self) -> u64
        ensures { result ≡ pass_number self.now }
    {
        self.seats.number()
    }

    // Returns the seats.
    pub(crate) fn into_seats(self) -> SeatSet<Held>
        ensures { result ≡ self.seats }
    {
        let Self { seats } = self;
        seats
    }
}

/// The creator of a backend's passes, with the first seat of each lock.
#[derive(Drop)]
pub struct Host {
    pub(crate) seats: RootSeats<Held>,
}

impl Host {
    /// Returns the number of the next pass.
    pub fn next(&self) -> u64
        ensures { result ≡ next_pass_number self.now }
    {
        self.seats.next()
    }

    // Returns the seats.
    pub(crate) fn into_seats(self) -> RootSeats<Held>
        ensures { result ≡ self.seats }
    {
        let Self { seats } = self;
        seats
    }
}
