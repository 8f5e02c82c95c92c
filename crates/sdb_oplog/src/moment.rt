//! The moments at which operations are stored.
ghost use Rattle.std.specs.Prelude.{◌≡◌, min, max, if◌then◌else◌, nat_lt, Some, None};

use sdb_value::MAX;
use std::marker::Model;

/// A moment: a number of milliseconds from 0 to [`MAX`]. By a system's clock it counts from the
/// beginning of 1970.
#[derive(Clone, Copy, Drop)]
pub struct Moment {
    milliseconds: u64,
}

impl Model for Moment {
    ghost use Rattle.std.specs.Prelude.{ℕ, ◌≤◌};

    ghost Value = { ℕ };

    ghost view = { λ m. m.milliseconds };

    ghost invariant = { λ m. m.milliseconds ≤ 9007199254740991 };

    ghost inverse = { λ n. record { milliseconds = n } };
}

impl Moment {
    /// Creates a moment, or returns `None` if the milliseconds exceed [`MAX`].
    pub fn new(milliseconds: u64) -> Option<Moment>
        ensures { result ≡ (if nat_lt MAX milliseconds then None else Some milliseconds) }
    {
        if milliseconds > MAX {
            return None;
        }
        Some(Moment { milliseconds })
    }

    /// Creates a moment, at most [`MAX`].
    pub fn saturating_new(milliseconds: u64) -> Moment
        ensures { result ≡ min milliseconds MAX }
    {
        Moment {
            milliseconds: milliseconds.min(MAX),
        }
    }

    /// Returns the first moment, 0.
    pub fn zero() -> Moment
        ensures { result ≡ 0 }
    {
        Moment { milliseconds: 0 }
    }

    /// Returns the milliseconds.
    pub fn milliseconds(self) -> u64
        ensures { result ≡ self }
    {
        self.milliseconds
    }

    /// Returns the later of two moments.
    pub fn max(self, other: Moment) -> Moment
        ensures { result ≡ max self other }
    {
        Moment {
            milliseconds: self.milliseconds.max(other.milliseconds),
        }
    }
}
