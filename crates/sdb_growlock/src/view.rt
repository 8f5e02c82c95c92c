//! The view of a seat.
use std::collections::LinkedList;

/// A value observed under a number.
pub struct Observation<T> {
    pub number: u64,
    pub value: T,
}

/// The view of a seat: the observation of each of its numbers, the value that it holds, and the
/// next number (0 unless it is the first seat), and values that another seat has observed. It
/// exists in proofs only; no value of it is ever created.
pub struct View<T> {
    pub seen: LinkedList<Observation<T>>,
    pub out: Option<T>,
    pub next: u64,
    pub notes: LinkedList<T>,
}
