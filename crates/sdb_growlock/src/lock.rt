//! The operations of a lock and its seats.
ghost use Rattle.std.specs.Prelude.{◌≡◌, ◌≢◌, ℕ, ◌+◌, ◌<◌, ◌≤◌, map, [], ◌∷◌, IfOk, IfErr, IsTrue, IsFalse};
ghost use Rattle.sdb_growlock.specs.LockRule.{ForEach, AcquiresValue, idle_view, observation, holder_view, released_view, splitter_view, split_off_view, join_views, join_all_views};
ghost use Rattle.sdb_growlock.specs.SeatModel.{BelongsTo, HasSeen, number, next, seat_count, HasNumber, IsFirstSeat, IsSameSeat, IsNewSeat};

use crate::grow_lock::{GrowLock, Seat};
use crate::grows::{Grows, Job};
use crate::rule::{
    AcquireStep, CompareStep, NewLock, NoteStep, ReadStep, ReleaseStep, SplitJoinStep, TableSeat,
};
use atomic_table::{Refused, Table};
use std::alloc::Global;
use std::hint::spin_loop;
use std::snapshot::Snapshot;
use std::sync::Wait;
use std::sync::atomic::AtomicU64;
use std::sync::atomic::Ordering::SeqCst;

// Number of spins before a thread parks, as in `std`'s `Mutex`.
const SPIN_LIMIT: u64 = 100;

/// The reason why a split fails. A split doesn't allocate.
#[derive(Debug, Drop)]
pub enum SplitFault {
    /// All numbers below the greatest `u64` are used up.
    OutOfNumbers,
}

impl<T: Grows> GrowLock<T> {
    /// Creates a lock around the value, and its first seat. The first split creates the seat with
    /// the number `next`. Parts of lower numbers belong to no seat.
    ///
    /// # Errors
    ///
    /// The value, if an allocation fails.
    pub fn new(alloc: Global, value: T, next: u64) -> Result<(GrowLock<T>, Seat<T>), T>
        requires first { 0 < next }
        requires blank { (k : ℕ) → next ≤ k → T.blank k value }
        ensures ok { IfOk result (λ made. IsFirstSeat made.0 next value made.1) }
        ensures err { IfErr result (λ given. given ≡ value) }
    {
        let mut slots = match Vec::with_capacity(alloc, 1) {
            Ok(slots) => slots,
            Err(_) => return Err(value),
        };
        let about = NewLock {
            value: Snapshot::of(&value),
            next,
        };
        slots.push_reserved(Some(value));
        match Table::new(alloc, &[0], slots, &about) {
            Ok((table, inner)) => {
                let first = Seat {
                    number: 0,
                    next,
                    inner,
                };
                let waiting = AtomicU64::new(0);
                Ok((GrowLock { table, waiting }, first))
            }
            Err(Refused { mut slots }) => {
                let value = slots.pop().unwrap().unwrap();
                slots.destroy_empty();
                Err(value)
            }
        }
    }

    /// Runs the job once, on a value that extends the last one that the seat observed and has the
    /// same part of its number. The seat then observes the job's result. Waits until the lock is
    /// free.
    pub fn with<J: Job<T>, R: Wait>(&self, rt: &R, seat: &mut Seat<T>, job: J) -> J::Answer
        requires belongs { BelongsTo seat.old self.now }
        requires ready { (x v : T) → HasSeen seat.old x → T.extends v x → T.same (number seat.old) x v
            → J.precondition job (number seat.old) v }
        ensures seat { IsSameSeat self.now seat.old seat.new }
        ensures ran { (x v w : T) × HasSeen seat.old x × T.extends v x × T.same (number seat.old) x v
            × J.postcondition job (number seat.old) v w result × T.extends w v
            × ((k : ℕ) → k ≢ number seat.old → T.same k v w) × HasSeen seat.new w }
    {
        self.acquire(rt, &mut seat.inner);
        let Some(mut value) = self.table.shared.exchange(&mut seat.inner, 0, None) else {
            unreachable!()
        };
        let answer = job.run(seat.number, &mut value);
        let left = self.table.shared.exchange(&mut seat.inner, 0, Some(value));
        let None = left else { unreachable!() };
        self.release(&mut seat.inner);
        answer
    }

    /// Creates a seat with the next number from the first seat. It has observed what the first seat
    /// has, a value without a part of the new number.
    ///
    /// # Errors
    ///
    /// [`SplitFault::OutOfNumbers`] if all numbers are used up. The first seat is then unchanged.
    pub fn split(&self, seat: &mut Seat<T>) -> Result<Seat<T>, SplitFault>
        requires belongs { BelongsTo seat.old self.now }
        requires first { 0 < next seat.old }
        ensures belongs { BelongsTo seat.new self.now }
        ensures ok { IfOk result (λ s. IsNewSeat T.blank self.now seat.old seat.new s) }
        ensures err { IfErr result (λ _. (next seat.old ≡ u64.MAX) × (seat.new ≡ seat.old)) }
    {
        if seat.next == u64::MAX {
            return Err(SplitFault::OutOfNumbers);
        }
        let number = seat.next;
        let inner = self.split_table_seat(&mut seat.inner);
        seat.next = number + 1;
        Ok(Seat {
            number,
            next: 0,
            inner,
        })
    }

    /// Compares what two seats have observed: one value extends both. Neither seat observes anything
    /// new. It doesn't wait.
    pub fn compare(&self, first: &mut Seat<T>, second: &mut Seat<T>)
        requires belongs { BelongsTo first.old self.now × BelongsTo second.old self.now }
        ensures first { IsSameSeat self.now first.old first.new }
        ensures second { IsSameSeat self.now second.old second.new }
        ensures extended { (x y v : T) × HasSeen first.old x × HasSeen first.new x × HasSeen second.old y
            × HasSeen second.new y × T.extends v x × T.extends v y }
    {
        let note = self.table.shared.split_seat::<NoteStep>(&mut first.inner);
        self.table
            .shared
            .join_seat::<SplitJoinStep>(&mut second.inner, note);
        self.table.shared.load::<CompareStep>(&mut second.inner, 0);
    }

    /// Returns the value, given all seats of the lock. It extends what each seat has observed, has
    /// each seat's part unchanged, and has no part of any other number.
    ///
    /// These are the seats of all numbers from 0 on, so a lock that was created with a `next` above 1
    /// can't be closed.
    pub fn close(self, mut seats: Vec<Seat<T>>) -> T
        requires belongs { ForEach (λ s. BelongsTo s self) seats.items }
        requires first { 0 < seat_count seats.items }
        requires all { (k : ℕ) → k < seat_count seats.items → HasNumber k seats.items }
        ensures seen { ForEach (λ s. (x : T) → HasSeen s x → T.extends result x
            × T.same (number s) x result) seats.items }
        ensures blank { (k : ℕ) → seat_count seats.items ≤ k → T.blank k result }
    {
        let Some(last) = seats.pop() else {
            unreachable!()
        };
        let mut table_seat = last.into_table_seat();
        self.join_all_table_seats(&mut table_seat, seats);
        let GrowLock { table, waiting: _ } = self;
        let mut closed = table.close_with(table_seat);
        let slot = closed.take(0);
        closed.free();
        let Some(value) = slot else { unreachable!() };
        value
    }

    // Acquires the lock. The seat then holds the value.
    fn acquire<R: Wait>(&self, rt: &R, table_seat: &mut TableSeat<T>)
        requires belongs { table_seat.old.table_id ≡ self.now.table.shared.table_id }
        requires one { (n : ℕ) × (x : T) × (table_seat.old.me.0.seen ≡ observation n x ∷ []) }
        ensures belongs { (table_seat.new.table_id ≡ table_seat.old.table_id)
            × (table_seat.new.id ≡ table_seat.old.id) }
        ensures taken { AcquiresValue T.extends T.same T.blank table_seat.old.me table_seat.new.me }
    {
        if self.try_acquire(table_seat) {
            return;
        }
        for _ in rt.forever() {
            self.spin();
            if self.try_acquire(table_seat) {
                return;
            }
            self.waiting.fetch_add(1, SeqCst);
            self.table.shared.park(rt, 0, 1);
            self.waiting.fetch_sub(1, SeqCst);
        }
        unreachable!()
    }

    // Acquires the lock if it is free. Returns whether it did.
    fn try_acquire(&self, table_seat: &mut TableSeat<T>) -> bool
        requires belongs { table_seat.old.table_id ≡ self.now.table.shared.table_id }
        requires one { (n : ℕ) × (x : T) × (table_seat.old.me.0.seen ≡ observation n x ∷ []) }
        ensures belongs { (table_seat.new.table_id ≡ table_seat.old.table_id)
            × (table_seat.new.id ≡ table_seat.old.id) }
        ensures taken { IsTrue result → AcquiresValue T.extends T.same T.blank table_seat.old.me table_seat.new.me }
        ensures unchanged_on_false { IsFalse result → table_seat.new.me ≡ table_seat.old.me }
    {
        self.table.shared.swap::<AcquireStep>(table_seat, 0, 1) == 0
    }

    // Polls the word while the lock is held, for the time of a short job: parking and waking take
    // longer.
    fn spin(&self) {
        for _ in 0..SPIN_LIMIT {
            if self.table.shared.peek(0) == 0 {
                return;
            }
            spin_loop();
        }
    }

    // Stores the value and releases the lock. A waiter increments `waiting` before it parks and
    // parks only while the lock is held, so no thread needs a wake-up if `waiting` is 0.
    fn release(&self, table_seat: &mut TableSeat<T>)
        requires belongs { table_seat.old.table_id ≡ self.now.table.shared.table_id }
        requires extended { (n k : ℕ) × (v w : T) × (table_seat.old.me ≡ (holder_view n v k, (0, Some w) ∷ []))
            × T.extends w v
            × ((j : ℕ) → j ≢ n → T.same j v w) }
        ensures belongs { (table_seat.new.table_id ≡ table_seat.old.table_id)
            × (table_seat.new.id ≡ table_seat.old.id) }
        ensures released { (w : T) → table_seat.old.me.1 ≡ (0, Some w) ∷ []
            → table_seat.new.me ≡ (released_view table_seat.old.me.0 w, []) }
    {
        self.table.shared.store::<ReleaseStep>(table_seat, 0, 0);
        if self.waiting.load(SeqCst) > 0 {
            self.table.shared.wake_one(0);
        }
    }

    // Splits the table seat; the new one has the next number.
    fn split_table_seat(&self, table_seat: &mut TableSeat<T>) -> TableSeat<T>
        requires belongs { table_seat.old.table_id ≡ self.now.table.shared.table_id }
        requires first { (n k : ℕ) × (x : T) × (table_seat.old.me ≡ (idle_view n x k, [])) × (0 < k) }
        ensures belongs { (table_seat.new.table_id ≡ table_seat.old.table_id) × (table_seat.new.id ≡ table_seat.old.id)
            × (result.table_id ≡ table_seat.old.table_id) }
        ensures parts { (table_seat.new.me ≡ (splitter_view table_seat.old.me.0, table_seat.old.me.1))
            × (result.me ≡ (split_off_view table_seat.old.me.0, [])) }
        ensures blank { ForEach (λ p. T.blank table_seat.old.me.0.next p.value) table_seat.old.me.0.seen }
    {
        self.table.shared.load::<ReadStep>(table_seat, 0);
        self.table.shared.split_seat::<SplitJoinStep>(table_seat)
    }

    // Joins `other` into `table_seat`.
    fn join_table_seat(&self, table_seat: &mut TableSeat<T>, other: TableSeat<T>)
        requires belongs { (table_seat.old.table_id ≡ self.now.table.shared.table_id)
            × (other.table_id ≡ self.now.table.shared.table_id) }
        requires idle { (other.me.1 ≡ []) × (other.me.0.out ≡ None) }
        ensures belongs { (table_seat.new.table_id ≡ table_seat.old.table_id)
            × (table_seat.new.id ≡ table_seat.old.id) }
        ensures joined { table_seat.new.me ≡ (join_views table_seat.old.me.0 other.me.0, table_seat.old.me.1) }
    {
        self.table
            .shared
            .join_seat::<SplitJoinStep>(table_seat, other);
    }

    // Joins all seats into `table_seat`.
    fn join_all_table_seats(&self, table_seat: &mut TableSeat<T>, mut seats: Vec<Seat<T>>)
        requires belongs { table_seat.old.table_id ≡ self.now.table.shared.table_id }
        requires same_table { ForEach (λ s. s.inner.table_id ≡ self.now.table.shared.table_id) seats.items }
        ensures belongs { (table_seat.new.table_id ≡ table_seat.old.table_id)
            × (table_seat.new.id ≡ table_seat.old.id) }
        ensures all { table_seat.new.me ≡ (
          join_all_views table_seat.old.me.0 (map
              (λ s. s.inner.me.0) seats.items),
          table_seat.old.me.1,
        ) }
    {
        while let Some(seat) = seats.pop() {
            self.join_table_seat(table_seat, seat.into_table_seat());
        }
        seats.destroy_empty();
    }
}

impl<T> Seat<T> {
    /// Returns the number under which the seat's jobs run.
    pub fn number(&self) -> u64
        ensures { result ≡ number self.now }
    {
        self.number
    }
}
