//! The work on an attempt: its content transformed against the entries of its look, and applied.
ghost use Rattle.std.specs.Prelude.{◌≡◌, true, IfOk, IfErr, OnErr};
ghost use Rattle.sdb_desk.specs.Machine.{work_allocates};
ghost use Rattle.sdb_desk.specs.View.{plain_attempt, plain_look};

use sdb_desk::{Attempt, Look, Work};
use std::alloc::Global;

/// Computes the work of an attempt, without a lock.
///
/// # Errors
///
/// The attempt, unchanged, if an allocation fails. It allocates only to transform an edit against
/// an edit, and to change a document.
pub fn work(alloc: Global, attempt: Attempt) -> Result<Work, Attempt>
    ensures ok { IfOk result (λ w. w ≡ plain_attempt attempt) }
    ensures err { IfErr result (λ a. plain_attempt a ≡ plain_attempt attempt) }
    ensures memory { OnErr result (work_allocates (plain_attempt attempt) ≡ true) }
{
    Work::compute(alloc, attempt)
}

/// Computes the work of a submission for a newer look from its last work, as [`Work::resume`] does.
///
/// # Errors
///
/// The attempt with the newer look if an allocation fails. The last work is then lost. It allocates
/// only to transform an edit against an edit, and to change a document.
pub fn resume_work(alloc: Global, last: Work, look: Look) -> Result<Work, Attempt>
    ensures ok { IfOk result (λ w. w ≡ record { submission = last.submission; look = plain_look look }) }
    ensures err { IfErr result
        (λ a. plain_attempt a ≡ record { submission = last.submission; look = plain_look look }) }
    ensures memory { OnErr result
        (work_allocates (record { submission = last.submission; look = plain_look look }) ≡ true) }
{
    last.resume(alloc, look)
}
