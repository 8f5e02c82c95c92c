//! The codes of refusals.
ghost use Rattle.std.specs.Prelude.{◌≡◌};

use sdb_apply::ApplyFault;
use sdb_component::OpFault;
use sdb_transform::Fault;
use sdb_value::ValueFault;
use std::alloc::AllocError;

/// The reason why a message, a step or a submission is refused. `sdb_wire` has the name and the
/// text of each.
#[derive(Clone, Copy, Debug, PartialEq, Eq, Drop)]
pub enum Code {
    /// The message is no valid JSON, or a member is missing, has the wrong type or exceeds a limit.
    E1,
    /// The type of a create is neither json0 nor its URI.
    E2,
    /// An operation or a value is outside the profile.
    E3,
    /// The version is above the current one.
    E4,
    /// The document was deleted since the base version.
    E5,
    /// The document exists already, or was created since the base version.
    E6,
    /// There is no document to edit.
    E7,
    /// A component doesn't apply to the document, or can't be transformed.
    E8,
    /// The projection doesn't permit the operation.
    E9,
    /// An allocation failed.
    E10,
    /// A limit of the server is reached.
    E11,
}

impl From<AllocError> for Code {
    ghost use Rattle.sdb_oplog.specs.declared.codes.Code.TheVariants.{E10};

    ghost from_gives = { λ _ f. f ≡ E10 };

    fn from(_error: AllocError) -> Code {
        Code::E10
    }
}

impl From<ValueFault> for Code {
    ghost use Rattle.sdb_oplog.specs.FaultCodes.{code_of_value_fault};

    ghost from_gives = { λ fault code. code ≡ code_of_value_fault fault };

    fn from(fault: ValueFault) -> Code {
        match fault {
            ValueFault::NumberOutOfRange => Code::E3,
            ValueFault::TooDeep => Code::E3,
            ValueFault::OutOfMemory => Code::E10,
        }
    }
}

impl From<OpFault> for Code {
    ghost use Rattle.sdb_oplog.specs.FaultCodes.{code_of_op_fault};

    ghost from_gives = { λ fault code. code ≡ code_of_op_fault fault };

    fn from(fault: OpFault) -> Code {
        match fault {
            OpFault::BadlyFormed => Code::E3,
            OpFault::OutOfMemory => Code::E10,
        }
    }
}

impl From<ApplyFault> for Code {
    ghost use Rattle.sdb_oplog.specs.FaultCodes.{code_of_apply_fault};

    ghost from_gives = { λ fault code. code ≡ code_of_apply_fault fault };

    fn from(fault: ApplyFault) -> Code {
        match fault {
            ApplyFault::NotApplied => Code::E8,
            ApplyFault::OutOfMemory => Code::E10,
        }
    }
}

impl From<Fault> for Code {
    ghost use Rattle.sdb_oplog.specs.FaultCodes.{code_of_transform_fault};

    ghost from_gives = { λ fault code. code ≡ code_of_transform_fault fault };

    fn from(fault: Fault) -> Code {
        match fault {
            Fault::NotTransformed => Code::E8,
            Fault::OutOfMemory => Code::E10,
        }
    }
}
