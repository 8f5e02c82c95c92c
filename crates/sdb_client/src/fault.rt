//! The faults of a client.
use sdb_apply::ApplyFault;
use sdb_transform::Fault;
use std::alloc::AllocError;
use thiserror::Error;

/// The reason why a client doesn't send an edit.
#[derive(Clone, Copy, PartialEq, Eq, Debug, Drop, Error)]
pub enum SendFault {
    /// No seq is left.
    #[error("too many edits")]
    SeqLimit,
    /// An allocation failed.
    #[error("out of memory")]
    OutOfMemory,
}

impl From<AllocError> for SendFault {
    ghost use Rattle.std.specs.Prelude.{◌≡◌};
    ghost use Rattle.sdb_client.specs.declared.fault.SendFault.TheVariants.{OutOfMemory};

    ghost from_gives = { λ _ fault. fault ≡ OutOfMemory };

    fn from(_error: AllocError) -> SendFault {
        SendFault::OutOfMemory
    }
}

/// The reason why a client doesn't process an entry.
#[derive(Clone, Copy, PartialEq, Eq, Debug, Drop, Error)]
pub enum ProcessFault {
    /// The entry is a create or a delete, or its operation doesn't apply or can't be transformed.
    #[error("entry can not be processed")]
    NotProcessed,
    /// No version is left.
    #[error("too many entries")]
    VersionLimit,
    /// An allocation failed.
    #[error("out of memory")]
    OutOfMemory,
}

impl From<ApplyFault> for ProcessFault {
    ghost use Rattle.std.specs.Prelude.{◌≡◌};
    ghost use Rattle.sdb_client.specs.Fault.{fault_of_apply};

    ghost from_gives = { λ fault process_fault. process_fault ≡ fault_of_apply fault };

    fn from(fault: ApplyFault) -> ProcessFault {
        match fault {
            ApplyFault::NotApplied => ProcessFault::NotProcessed,
            ApplyFault::OutOfMemory => ProcessFault::OutOfMemory,
        }
    }
}

impl From<Fault> for ProcessFault {
    ghost use Rattle.std.specs.Prelude.{◌≡◌};
    ghost use Rattle.sdb_client.specs.Fault.{fault_of_transform};

    ghost from_gives = { λ fault process_fault. process_fault ≡ fault_of_transform fault };

    fn from(fault: Fault) -> ProcessFault {
        match fault {
            Fault::NotTransformed => ProcessFault::NotProcessed,
            Fault::OutOfMemory => ProcessFault::OutOfMemory,
        }
    }
}
