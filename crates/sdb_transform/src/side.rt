//! Sides and faults.
ghost use Rattle.std.specs.Prelude.{◌≡◌};
ghost use Rattle.sdb_transform.specs.ActModel.{opposite};

use std::alloc::{AllocError, AllocFailed};
use thiserror::Error;

/// The side of one of two concurrent operations.
#[derive(Clone, Copy, PartialEq, Eq, Debug, Drop)]
pub enum Side {
    /// The side that wins a tie: its insert comes first, and its value stays.
    Left,
    /// The side that loses a tie.
    Right,
}

impl Side {
    // Returns the other side.
    pub(crate) fn opposite(self) -> Side
        ensures { result ≡ opposite self }
    {
        match self {
            Side::Left => Side::Right,
            Side::Right => Side::Left,
        }
    }
}

/// The reason why a transform fails.
#[derive(Clone, Copy, PartialEq, Eq, Debug, Drop, Error)]
pub enum Fault {
    /// A deletion would be cut inside a surrogate pair, or an index or offset would exceed
    /// 9007199254740991 (E8).
    #[error("operation can not be applied")]
    NotTransformed,
    /// An allocation failed (E10).
    #[error("out of memory")]
    OutOfMemory,
}

impl From<AllocError> for Fault {
    ghost use Rattle.std.specs.Prelude.{◌≡◌};
    ghost use Rattle.sdb_transform.specs.declared.side.Fault.TheVariants.{OutOfMemory};

    ghost from_gives = { λ _ f. f ≡ OutOfMemory };

    fn from(_error: AllocError) -> Fault {
        Fault::OutOfMemory
    }
}

impl<T: Drop> From<AllocFailed<T>> for Fault {
    ghost use Rattle.std.specs.Prelude.{◌≡◌};
    ghost use Rattle.sdb_transform.specs.declared.side.Fault.TheVariants.{OutOfMemory};

    ghost from_gives = { λ _ f. f ≡ OutOfMemory };

    fn from(_error: AllocFailed<T>) -> Fault {
        Fault::OutOfMemory
    }
}
