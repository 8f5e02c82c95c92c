//! The operations of eight locks.
ghost use Rattle.std.specs.Prelude.{◌≡◌, ◌≢◌, ℕ, ◌+◌, ◌<◌, ◌≤◌, [], List, Vec, IfOk, IfErr, length, slice_index_or, vec_len, vec_capacity};
ghost use Rattle.std.specs.Global.{Global};
ghost use Rattle.sdb_growlock.specs.LockRule.{ForEach};
ghost use Rattle.sdb_growlock.specs.SeatModel.{BelongsTo, SeeSameBlankValue};
ghost use Rattle.sdb_growlock.specs.declared.grow_lock.Seat.{Seat as LockSeat};
ghost use Rattle.sdb_striped_lock.specs.CloseModel.{AreCloseResults, HasEverySeat, IsValueAfterClose};
ghost use Rattle.sdb_striped_lock.specs.AtIndex.{AtEachIndex};
ghost use Rattle.sdb_striped_lock.specs.Capacity.{HasCapacity};
ghost use Rattle.sdb_striped_lock.specs.SeatSetModel.{seat_set_number, next_seat_set_number, SeatSetBelongsTo, AreRootSeatsOf, IsSeatNumbered, IsRootSeat, SeatSetHasSeen, RootSeatsHaveSeen, HasNumber, IsSameSeatSet, IsNewSeatSet, IsSplitRefusal};

use crate::close_buffers::{CloseBuffers, STRIPES, gather_stripes};
use crate::striped_lock::{RootSeats, SeatSet, StripedLock};
use sdb_growlock::{GrowLock, Grows, Job, Seat};
use std::alloc::{AllocError, Global};
use std::sync::Wait;

/// A type of growing values that has an empty value.
pub trait Empty: Grows {
    /// Returns a value without a part of any number.
    fn empty(alloc: Global) -> Self
        ensures { (k : ℕ) → Self.blank k result };
}

/// The reason why a split fails.
#[derive(Clone, Copy, PartialEq, Eq, Debug, Drop)]
pub enum SplitFault {
    /// All numbers below the greatest `u64` are used up.
    OutOfNumbers,
    /// The allocation of the list of seats failed.
    OutOfMemory,
}

impl<T: Empty + Drop> StripedLock<T> {
    /// Creates eight locks, each around an empty value, and their first seats.
    ///
    /// # Errors
    ///
    /// [`AllocError`] if an allocation fails.
    pub fn new(alloc: Global) -> Result<(StripedLock<T>, RootSeats<T>), AllocError>
        ensures belongs { IfOk result (λ made. AreRootSeatsOf made.1 made.0 × (next_seat_set_number made.1 ≡ 1)) }
        ensures seen { IfOk result (λ made. (i : ℕ) → i < 8 → (x : T) × RootSeatsHaveSeen made.1 i x
            × ((k : ℕ) → T.blank k x)) }
    {
        let mut values = Vec::with_capacity(alloc, STRIPES)?;
        for _index in 0..STRIPES {
            values.push_reserved(T::empty(alloc));
        }
        StripedLock::restored(alloc, values, 1)
    }
}

impl<T: Grows + Drop> StripedLock<T> {
    /// Creates eight locks around the values, in order, and their first seats. The first caller gets
    /// the number `next`. Parts of lower numbers belong to no caller.
    ///
    /// # Errors
    ///
    /// [`AllocError`] if an allocation fails.
    pub fn restored(
        alloc: Global,
        values: Vec<T>,
        next: u64,
    ) -> Result<(StripedLock<T>, RootSeats<T>), AllocError>
        requires length { length values.items ≡ 8 }
        requires first { 0 < next }
        requires blank { ForEach (λ v. (k : ℕ) → next ≤ k → T.blank k v) values.items }
        ensures belongs { IfOk result (λ made. AreRootSeatsOf made.1 made.0 × (next_seat_set_number made.1 ≡ next)) }
        ensures seen { IfOk result (λ made. (i : ℕ) (d : T) → i < 8
            → RootSeatsHaveSeen made.1 i (slice_index_or values.items i d)) }
    {
        let mut locks = Vec::with_capacity(alloc, STRIPES)?;
        let mut seats = Vec::with_capacity(alloc, STRIPES)?;
        for value in values {
            match GrowLock::new(alloc, value, next) {
                Ok((lock, seat)) => {
                    locks.push_reserved(lock);
                    seats.push_reserved(seat);
                }
                Err(_value) => return Err(AllocError),
            }
        }
        Ok((StripedLock { locks }, RootSeats { next, seats }))
    }
}

impl<T: Grows> StripedLock<T> {
    /// Runs the job once, on the value of the lock at an index. It extends the value that the seat
    /// of this lock observed last and has the same part of the seats' number. This seat then
    /// observes the job's result; the other seats are unchanged. Waits until the lock is free.
    pub fn with<J: Job<T>, R: Wait>(
        &self,
        rt: &R,
        seats: &mut SeatSet<T>,
        index: usize,
        job: J,
    ) -> J::Answer
        requires index { index < 8 }
        requires belongs { SeatSetBelongsTo seats.old self.now }
        requires ready { (x v : T) → SeatSetHasSeen seats.old index x → T.extends v x
            → T.same (seat_set_number seats.old) x v
            → J.precondition job (seat_set_number seats.old) v }
        ensures seats { IsSameSeatSet self.now index seats.old seats.new }
        ensures ran { (x v w : T) × SeatSetHasSeen seats.old index x × T.extends v x
            × T.same (seat_set_number seats.old) x v
            × J.postcondition job (seat_set_number seats.old) v w result × T.extends w v
            × ((k : ℕ) → k ≢ seat_set_number seats.old → T.same k v w) × SeatSetHasSeen seats.new index w }
    {
        self.locks[index].with(rt, &mut seats.seats[index], job)
    }

    /// Compares what two callers have observed of the lock at an index: one value extends both.
    /// Neither observes anything new. It doesn't wait.
    pub fn compare(&self, first: &mut SeatSet<T>, second: &mut SeatSet<T>, index: usize)
        requires index { index < 8 }
        requires belongs { SeatSetBelongsTo first.old self.now × SeatSetBelongsTo second.old self.now }
        ensures first { IsSameSeatSet self.now index first.old first.new }
        ensures second { IsSameSeatSet self.now index second.old second.new }
        ensures extended { (x y v : T) × SeatSetHasSeen first.old index x × SeatSetHasSeen first.new index x
            × SeatSetHasSeen second.old index y × SeatSetHasSeen second.new index y
            × T.extends v x × T.extends v y }
    {
        self.locks[index].compare(&mut first.seats[index], &mut second.seats[index]);
    }

    /// Creates the seats of a new caller, with the next number, from the first seats. Each has
    /// observed what the first seat of its lock has, a value without a part of the new number.
    ///
    /// # Errors
    ///
    /// [`SplitFault::OutOfNumbers`] if all numbers are used up, [`SplitFault::OutOfMemory`] if an
    /// allocation fails. The first seats are then unchanged.
    pub fn split(&self, alloc: Global, first: &mut RootSeats<T>) -> Result<SeatSet<T>, SplitFault>
        requires { AreRootSeatsOf first.old self.now }
        ensures belongs { AreRootSeatsOf first.new self.now }
        ensures ok { IfOk result (λ s. IsNewSeatSet T.blank self.now first.old first.new s) }
        ensures err { IfErr result (λ e. IsSplitRefusal first.old first.new e) }
    {
        let number = first.next;
        if number == u64::MAX {
            return Err(SplitFault::OutOfNumbers);
        }
        let Ok(seats) = Vec::with_capacity(alloc, STRIPES) else {
            return Err(SplitFault::OutOfMemory);
        };
        let seats = self.split_stripes(number, &mut first.seats, seats);
        first.next = number + 1;
        Ok(SeatSet { number, seats })
    }

    // Splits each first seat and puts the new seats into the empty list.
    fn split_stripes(
        &self,
        number: u64,
        firsts: &mut Vec<Seat<T>>,
        mut seats: Vec<Seat<T>>,
    ) -> Vec<Seat<T>>
        requires length { length firsts.old.items ≡ 8 }
        requires capacity { (vec_len seats ≡ 0) × (8 ≤ vec_capacity seats) }
        requires number { (0 < number) × (number < u64.MAX) }
        requires first { AtEachIndex (IsRootSeat number) firsts.old.items self.now.locks.items 0 8 }
        ensures length { (length firsts.new.items ≡ 8) × (length result.items ≡ 8) }
        ensures first { AtEachIndex (IsRootSeat (number + 1)) firsts.new.items self.now.locks.items 0 8 }
        ensures split_seat { AtEachIndex (IsSeatNumbered number) result.items self.now.locks.items 0 8 }
        ensures seen { (i : ℕ) (s : LockSeat T) → i < 8
            → SeeSameBlankValue T.blank (slice_index_or firsts.old.items i s)
            (slice_index_or firsts.new.items i s) (slice_index_or result.items i s) }
    {
        for index in 0..STRIPES {
            let Ok(seat) = self.locks[index].split(&mut firsts[index]) else {
                unreachable!()
            };
            seats.push_reserved(seat);
        }
        seats
    }

    /// Returns the values of all locks in order, given all seats. Each extends what the callers
    /// have observed, has each caller's part unchanged, and has no part of any other number. It
    /// doesn't allocate.
    pub fn close(
        self,
        first: RootSeats<T>,
        callers: Vec<SeatSet<T>>,
        places: CloseBuffers<T>,
    ) -> Vec<T>
        requires first { AreRootSeatsOf first self }
        requires callers { ForEach (λ c. SeatSetBelongsTo c self) callers.items }
        requires all { (k : ℕ) → 0 < k → k < next_seat_set_number first → HasNumber k callers.items }
        requires bound { HasCapacity (length callers.items) places }
        ensures { AreCloseResults T.extends T.same T.blank first callers.items result.items }
    {
        let CloseBuffers {
            seats_by_stripe: mut columns,
            values,
        } = places;
        gather_stripes(&mut columns, first, callers);
        let StripedLock { locks } = self;
        close_stripes(locks, columns, values)
    }
}

// Closes each lock with its seats, and puts the values into the empty list.
fn close_stripes<T: Grows>(
    mut locks: Vec<GrowLock<T>>,
    mut columns: Vec<Vec<Seat<T>>>,
    mut values: Vec<T>,
) -> Vec<T>
    requires length { (length locks.items ≡ 8) × (length columns.items ≡ 8) }
    requires capacity { (vec_len values ≡ 0) × (8 ≤ vec_capacity values) }
    requires belongs { AtEachIndex (λ l c. ForEach (λ s. BelongsTo s l) c.items) locks.items columns.items 0 8 }
    requires all { (i : ℕ) (c : Vec (LockSeat T) Global) → i < 8
        → HasEverySeat (slice_index_or columns.items i c).items }
    ensures length { length result.items ≡ 8 }
    ensures values { AtEachIndex (λ c v. IsValueAfterClose T.extends T.same T.blank c.items v) columns.items
        result.items 0 8 }
{
    while let Some(lock) = locks.pop() {
        let Some(column) = columns.pop() else {
            unreachable!()
        };
        values.push_reserved(lock.close(column));
    }
    locks.destroy_empty();
    values.reverse();
    values
}

impl<T> SeatSet<T> {
    /// Returns the number under which jobs of these seats run.
    pub fn number(&self) -> u64
        ensures { result ≡ seat_set_number self.now }
    {
        self.number
    }
}

impl<T> RootSeats<T> {
    /// Returns the number of the next caller.
    pub fn next(&self) -> u64
        ensures { result ≡ next_seat_set_number self.now }
    {
        self.next
    }
}
