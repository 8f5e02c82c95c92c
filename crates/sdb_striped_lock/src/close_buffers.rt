//! Buffers for the seats and values of a close.
ghost use Rattle.std.specs.Prelude.{◌≡◌, ℕ, ◌+◌, ◌<◌, ◌≤◌, ◌++◌, ◌∷◌, [], List, Vec, IfOk, length, map, slice_index_or, vec_len, vec_capacity};
ghost use Rattle.std.specs.Global.{Global};
ghost use Rattle.sdb_growlock.specs.declared.grow_lock.Seat.{Seat as LockSeat};
ghost use Rattle.sdb_striped_lock.specs.Capacity.{ColumnsHaveCapacity, HasCapacity};

use crate::striped_lock::{RootSeats, SeatSet};
use sdb_growlock::Seat;
use std::alloc::{AllocError, Global};

// Number of locks.
pub(crate) const STRIPES: usize = 8;

/// Buffers for the seats of all callers and the values of all locks. They are allocated before a
/// close, which itself doesn't allocate.
#[derive(Drop)]
pub struct CloseBuffers<T> {
    pub(crate) seats_by_stripe: Vec<Vec<Seat<T>>>,
    pub(crate) values: Vec<T>,
}

impl<T> CloseBuffers<T> {
    /// Allocates buffers for the first seats and the seats of `callers` callers.
    ///
    /// # Errors
    ///
    /// [`AllocError`] if an allocation fails.
    pub fn new(alloc: Global, callers: usize) -> Result<CloseBuffers<T>, AllocError>
        ensures { IfOk result (λ p. HasCapacity callers p) }
    {
        let Some(room) = callers.checked_add(1) else {
            return Err(AllocError);
        };
        let mut columns = Vec::with_capacity(alloc, STRIPES)?;
        for _index in 0..STRIPES {
            columns.push_reserved(Vec::with_capacity(alloc, room)?);
        }
        let values = Vec::with_capacity(alloc, STRIPES)?;
        Ok(CloseBuffers {
            seats_by_stripe: columns,
            values,
        })
    }
}

// Appends each seat to the seats of its lock.
pub(crate) fn gather_stripe<T>(columns: &mut Vec<Vec<Seat<T>>>, mut seats: Vec<Seat<T>>)
    requires length { (length columns.old.items ≡ 8) × (length seats.items ≡ 8) }
    requires room { (i : ℕ) (d : Vec (LockSeat T) Global) → i < 8 → vec_len (slice_index_or columns.old.items i d) <
        vec_capacity (slice_index_or columns.old.items i d) }
    ensures length { length columns.new.items ≡ 8 }
    ensures capacity { (i : ℕ) (d : Vec (LockSeat T) Global) → i < 8
        → vec_capacity (slice_index_or columns.new.items i d) ≡
        vec_capacity (slice_index_or columns.old.items i d) }
    ensures columns { (i : ℕ) (d : Vec (LockSeat T) Global) (s : LockSeat T) → i < 8
        → (slice_index_or columns.new.items i d).items ≡
        (slice_index_or columns.old.items i d).items ++ slice_index_or seats.items i s ∷ [] }
{
    while let Some(seat) = seats.pop() {
        let index = seats.len();
        columns[index].push_reserved(seat);
    }
}

// Appends the first seats, and then the seats of all callers.
pub(crate) fn gather_stripes<T>(
    columns: &mut Vec<Vec<Seat<T>>>,
    first: RootSeats<T>,
    callers: Vec<SeatSet<T>>,
)
    requires capacity { ColumnsHaveCapacity (length callers.items) columns.old.items }
    ensures length { length columns.new.items ≡ 8 }
    ensures columns { (i : ℕ) (d : Vec (LockSeat T) Global) (s : LockSeat T) → i < 8
        → (slice_index_or columns.new.items i d).items ≡
        slice_index_or first.seats.items i s ∷ map (λ c. slice_index_or c.seats.items i s) callers.items }
{
    gather_stripe(columns, first.into_seats());
    for caller in callers {
        gather_stripe(columns, caller.into_seats());
    }
}
