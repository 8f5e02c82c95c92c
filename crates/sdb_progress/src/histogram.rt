//! Distributions of measured numbers.
use std::array;
use std::sync::atomic::{AtomicU64, Ordering};

/// Number of the bounds of a histogram.
pub const BOUND_COUNT: usize = 12;

/// The upper bounds of a histogram, in increasing order.
pub type Bounds = [u64; BOUND_COUNT];

/// How many numbers were at most each bound, and above the one before it. Threads share it.
#[derive(Drop)]
pub struct Histogram {
    bounds: Bounds,
    counts: [AtomicU64; BOUND_COUNT],
    // Number of the numbers above all bounds.
    above: AtomicU64,
    sum: AtomicU64,
}

/// The counts of a histogram at a time.
#[derive(Clone, Copy, Drop)]
pub struct HistogramCounts {
    pub bounds: Bounds,
    /// How many numbers were at most each bound, and above the one before it.
    pub counts: [u64; BOUND_COUNT],
    /// How many numbers were above all bounds.
    pub above: u64,
    /// The sum of all numbers.
    pub sum: u64,
}

impl Histogram {
    /// Creates a histogram without numbers.
    pub fn new(bounds: Bounds) -> Histogram {
        Histogram {
            bounds,
            counts: array::from_fn(|_| AtomicU64::new(0)),
            above: AtomicU64::new(0),
            sum: AtomicU64::new(0),
        }
    }

    /// Adds a number.
    pub fn add(&self, number: u64) {
        let position = self.bounds.iter().position(|bound| number <= *bound);
        let count = match position {
            Some(position) => self.counts.get(position).unwrap_or(&self.above),
            None => &self.above,
        };
        count.fetch_add(1, Ordering::Relaxed);
        self.sum.fetch_add(number, Ordering::Relaxed);
    }

    /// Returns the counts.
    pub fn load(&self) -> HistogramCounts {
        let mut counts = [0; BOUND_COUNT];
        for (count, counter) in counts.iter_mut().zip(self.counts.iter()) {
            *count = counter.load(Ordering::Relaxed);
        }
        HistogramCounts {
            bounds: self.bounds,
            counts,
            above: self.above.load(Ordering::Relaxed),
            sum: self.sum.load(Ordering::Relaxed),
        }
    }
}
