//! The locks, and the seats of a caller.
ghost use Rattle.std.specs.Prelude.{◌≡◌, length};

use sdb_growlock::{GrowLock, Grows, Seat};

/// Eight locks, each around a value that only grows.
///
/// ```
/// // `CountTurn` is a `Job` that adds 1 to a `Count` and returns the sum.
/// let (lock, mut root): (StripedLock<Count>, _) = StripedLock::new(alloc)?;
/// let mut seats = lock.split(alloc, &mut root)?;
/// assert_eq!(rt; lock.with(&rt, &mut seats, 0, CountTurn), 1);
/// assert_eq!(rt; lock.with(&rt, &mut seats, 7, CountTurn), 1);
/// ```
#[derive(Drop)]
pub struct StripedLock<T: Grows> {
    pub(crate) locks: Vec<GrowLock<T>>,
    ghost has_every_stripe: { length locks.items ≡ 8 },
}

/// The seats of one caller: one per lock, all with one number.
#[derive(Drop)]
pub struct SeatSet<T> {
    pub(crate) number: u64,
    pub(crate) seats: Vec<Seat<T>>,
    ghost has_every_stripe: { length seats.items ≡ 8 },
}

impl<T> SeatSet<T> {
    // Returns the seats in order.
    pub(crate) fn into_seats(self) -> Vec<Seat<T>>
        ensures { result ≡ self.seats }
    {
        let Self { number: _, seats } = self;
        seats
    }
}

/// The first seats: one per lock, all with number 0. All other seats are split from them.
#[derive(Drop)]
pub struct RootSeats<T> {
    pub(crate) next: u64,
    pub(crate) seats: Vec<Seat<T>>,
    ghost has_every_stripe: { length seats.items ≡ 8 },
}

impl<T> RootSeats<T> {
    // Returns the seats in order.
    pub(crate) fn into_seats(self) -> Vec<Seat<T>>
        ensures { result ≡ self.seats }
    {
        let Self { next: _, seats } = self;
        seats
    }
}
