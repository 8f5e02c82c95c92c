//! The lock and its seats.
ghost use Rattle.std.specs.Prelude.{◌≡◌, false, map, length, [], ◌∷◌};
ghost use Rattle.sdb_growlock.specs.LockRule.{number_of, is_out};

use crate::grows::Grows;
use crate::rule::{LockTable, TableSeat};
use std::sync::atomic::AtomicU64;

/// A lock around a value that only grows. It is created with its first seat; each thread needs its
/// own seat.
///
/// ```
/// // `CountTurn` is a `Job` that adds 1 to a `Count` and returns the sum.
/// let Ok((lock, mut seat)) = GrowLock::new(alloc, Count { turns: 0 }, 1) else {
///     return Err(AllocError);
/// };
/// assert_eq!(rt; lock.with(&rt, &mut seat, CountTurn), 1);
/// assert_eq!(rt; lock.with(&rt, &mut seat, CountTurn), 2);
/// ```
#[derive(Drop)]
pub struct GrowLock<T: Grows> {
    pub(crate) table: LockTable<T>,
    // Number of threads that wait for the lock or are about to.
    pub(crate) waiting: AtomicU64,
    ghost one_word_one_slot: { (table.shared.table_id.words ≡ 1) × (table.shared.table_id.slots ≡ 1) },
}

/// The right to acquire one lock, under a unique number: 0 for the first seat, then from the lock's
/// `next` on, one more for each split. A seat records the last value that it observed (`HasSeen`),
/// which each later value extends.
///
/// ```
/// // One seat for each thread, split from the lock's first seat.
/// let one = lock.split(&mut first)?;
/// let two = lock.split(&mut first)?;
/// assert_eq!(rt; (first.number(), one.number(), two.number()), (0, 1, 2));
/// ```
pub struct Seat<T> {
    pub(crate) number: u64,
    pub(crate) next: u64,
    pub(crate) inner: TableSeat<T>,
    ghost is_idle: { (length inner.me.1 ≡ 0) × (map number_of inner.me.0.seen ≡ number ∷ [])
        × (is_out inner.me.0.out ≡ false) × (inner.me.0.next ≡ next) × (length inner.me.0.notes ≡ 0) },
}

impl<T> Seat<T> {
    // Returns the seat's part of the atomic table.
    pub(crate) fn into_table_seat(self) -> TableSeat<T>
        ensures { result ≡ self.inner }
    {
        let Self {
            number: _,
            next: _,
            inner,
        } = self;
        inner
    }
}

impl<T> Drop for Seat<T> {
    fn drop(self) {
        let Self {
            number: _,
            next: _,
            inner: _,
        } = self;
    }
}
