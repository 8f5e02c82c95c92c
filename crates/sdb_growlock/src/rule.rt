//! The rule of the table, and the effect of each step on the seat that makes it.
ghost use Rattle.sdb_growlock.specs.LockRule.{LockInvariant, idle_view, acquire_step, release_step, read_step, compare_step, splitter_view, split_off_view, join_views, empty_view, note_view};

use crate::grows::Grows;
use crate::view::View;
use atomic_table::{Join, Play, Seat, Split, Table, TableRule};
use std::alloc::Global;
use std::snapshot::Snapshot;

/// The value of a new lock, and the number of the first seat that is split off.
#[derive(Drop)]
pub struct NewLock<T> {
    pub value: Snapshot<T>,
    pub next: u64,
}

/// The rule: the value extends all that was observed, and has the observed part of each number.
pub struct GrowthRule;

impl<T: Grows> TableRule<Option<T>, View<T>, NewLock<T>> for GrowthRule {
    ghost holds = { λ _. LockInvariant T.extends T.same T.blank };

    ghost first = { λ key. idle_view 0 key.value.value key.next };
}

/// Sets the word to 1. If it was 0, the value moves to the seat.
pub struct AcquireStep;

impl<T: Grows> Play<Option<T>, View<T>> for AcquireStep {
    ghost then = { acquire_step T.extends T.same T.blank };
}

/// Sets the word to 0. The value moves back to the slot.
pub struct ReleaseStep;

impl<T: Grows> Play<Option<T>, View<T>> for ReleaseStep {
    ghost then = { release_step T.extends T.same T.blank };
}

/// Reads the word. The first seat then also observes that the value has no part of the next number.
pub struct ReadStep;

impl<T: Grows> Play<Option<T>, View<T>> for ReadStep {
    ghost then = { read_step T.extends T.same T.blank };
}

/// Reads the word. The seat also observes that one value extends what it has observed and its notes.
/// The notes are then gone.
pub struct CompareStep;

impl<T: Grows> Play<Option<T>, View<T>> for CompareStep {
    ghost then = { compare_step T.extends T.same T.blank };
}

/// Splits off a seat that has the observed values as notes.
pub struct NoteStep;

impl<T> Split<View<T>> for NoteStep {
    ghost left = { λ d. d };

    ghost right = { note_view };
}

/// Splits a seat in two, and joins two seats.
pub struct SplitJoinStep;

impl<T> Split<View<T>> for SplitJoinStep {
    ghost left = { splitter_view };

    ghost right = { split_off_view };
}

impl<T> Join<View<T>> for SplitJoinStep {
    ghost both = { join_views };

    ghost spent = { empty_view };
}

pub type LockTable<T> = Table<Option<T>, View<T>, NewLock<T>, GrowthRule, Global>;

pub type TableSeat<T> = Seat<Option<T>, View<T>>;
