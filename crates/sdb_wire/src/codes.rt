//! The names and texts of codes, and the split of refusals from allocation failures.
ghost use Rattle.std.specs.Prelude.{◌≡◌, IfOk, OnOk, OnErr};
ghost use Rattle.sdb_oplog.specs.declared.codes.Code.TheVariants.{E10};
ghost use Rattle.sdb_wire.specs.Answers.{code_name, code_text};

use sdb_oplog::Code;
use std::alloc::AllocError;

/// Returns the code of a refusal.
///
/// # Errors
///
/// [`AllocError`] for [`Code::E10`], which is an allocation failure and no refusal.
pub fn refusal_code(code: Code) -> Result<Code, AllocError>
    ensures code { IfOk result (λ c. c ≡ code) }
    ensures refuses { OnOk result (code ≡ E10 → ⊥) }
    ensures memory { OnErr result (code ≡ E10) }
{
    match code {
        Code::E10 => Err(AllocError),
        code => Ok(code),
    }
}

/// Returns the name of a code, as an error reply has it.
///
/// ```
/// assert_eq!(rt; code_name(Code::E4), "ERR_OP_VERSION_NEWER_THAN_CURRENT_SNAPSHOT");
/// ```
pub fn code_name(code: Code) -> &'static str
    ensures { result.now ≡ code_name code }
{
    match code {
        Code::E1 => "ERR_MESSAGE_BADLY_FORMED",
        Code::E2 => "ERR_DOC_TYPE_NOT_RECOGNIZED",
        Code::E3 => "ERR_OT_OP_BADLY_FORMED",
        Code::E4 => "ERR_OP_VERSION_NEWER_THAN_CURRENT_SNAPSHOT",
        Code::E5 => "ERR_DOC_WAS_DELETED",
        Code::E6 => "ERR_DOC_ALREADY_CREATED",
        Code::E7 => "ERR_DOC_DOES_NOT_EXIST",
        Code::E8 => "ERR_OT_OP_NOT_APPLIED",
        Code::E9 => "ERR_OP_NOT_ALLOWED_IN_PROJECTION",
        Code::E10 => "ERR_OUT_OF_MEMORY",
        Code::E11 => "ERR_LIMIT",
    }
}

pub(crate) fn code_text(code: Code) -> &'static str
    ensures { result.now ≡ code_text code }
{
    match code {
        Code::E1 => "message is badly formed",
        Code::E2 => "document type is not recognized",
        Code::E3 => "operation is badly formed",
        Code::E4 => "version is newer than the current snapshot",
        Code::E5 => "document was deleted",
        Code::E6 => "document was already created",
        Code::E7 => "document does not exist",
        Code::E8 => "operation can not be applied",
        Code::E9 => "operation is not allowed in the projection",
        Code::E10 => "out of memory",
        Code::E11 => "limit reached",
    }
}
