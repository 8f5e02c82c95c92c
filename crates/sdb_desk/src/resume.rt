//! Work resumed with a newer look.
ghost use Rattle.std.specs.Prelude.{◌≡◌, ◌≤◌, ◌++◌, List, true, IfOk, IfErr, IfSome, IfNone, OnErr, IsTrue, IsFalse, length, take, drop};
ghost use Rattle.sdb_oplog.specs.Plain.{PlainEntry};
ghost use Rattle.sdb_oplog.specs.Rebase.{rebase, rebase_allocates};
ghost use Rattle.sdb_oplog.specs.Refusal.{result_and_then};
ghost use Rattle.sdb_desk.specs.Machine.{work_allocates, look_before};
ghost use Rattle.sdb_desk.specs.View.{rebased_content_of, plain_attempt, plain_look};

use crate::document::entries_after;
use crate::work::{Attempt, Look, RebasedContent, Work};
use sdb_oplog::{Code, Content, Entry, Submission, entries_equal, rebase};
use std::alloc::Global;

impl Work {
    /// Computes the work of the submission for a newer look. It transforms the content only against
    /// entries that are new in it, and applies the result to its snapshot. It starts again if the
    /// old entries aren't a prefix of the new ones, or if the submission has no version.
    ///
    /// # Errors
    ///
    /// The attempt with the newer look if an allocation fails. The old work is then lost. It
    /// allocates only to transform an edit against an edit, and to change a document.
    pub fn resume(self, alloc: Global, look: Look) -> Result<Work, Attempt>
        ensures ok { IfOk result
            (λ w. w ≡ record { submission = self.submission; look = plain_look look }) }
        ensures err { IfErr result
            (λ a. plain_attempt a ≡
            record { submission = self.submission; look = plain_look look }) }
        ensures memory { OnErr result
            (work_allocates (record { submission = self.submission; look = plain_look look }) ≡
            true) }
    {
        let (attempt, worked) = self.into_parts();
        let is_front = is_prefix(attempt.look.missed.as_slice(), look.missed.as_slice());
        let known = attempt.look.missed.len();
        let attempt = Attempt {
            submission: attempt.submission,
            look,
        };
        if attempt.submission.version().is_none() || !is_front {
            return Work::compute(alloc, attempt);
        }
        let fresh = entries_after(attempt.look.missed.as_slice(), known);
        match rebase_rest(alloc, attempt.submission.content(), worked, fresh) {
            Some(worked) => Work::from_content(alloc, attempt, worked),
            None => Err(attempt),
        }
    }

    /// Computes the work of the submission for a newer look, whose missed entries come after those
    /// of this one. It transforms the content only against them, and applies the result to the
    /// newer snapshot.
    ///
    /// # Errors
    ///
    /// The submission, if an allocation fails. The old work is then lost.
    pub(crate) fn extend(self, alloc: Global, newer: Look) -> Result<Work, Submission>
        ensures ok { IfOk result (λ w. w ≡ record {
          submission = self.submission;
          look = look_before self.look.missed (plain_look newer);
        }) }
        ensures err { IfErr result (λ s. s ≡ self.submission) }
    {
        let (Attempt { submission, look }, worked) = self.into_parts();
        let Look { mut missed, .. } = look;
        let Look {
            version,
            repeat,
            missed: mut fresh,
            snapshot,
        } = newer;
        let Some(worked) = rebase_rest(alloc, submission.content(), worked, fresh.as_slice()) else {
            return Err(submission);
        };
        if missed.append(&mut fresh).is_err() {
            return Err(submission);
        }
        let look = Look {
            version,
            repeat,
            missed,
            snapshot,
        };
        match Work::from_content(alloc, Attempt { submission, look }, worked) {
            Ok(work) => Ok(work),
            Err(attempt) => Err(attempt.submission),
        }
    }
}

// Returns whether `first` is a prefix of `all`.
fn is_prefix(first: &[Entry], all: &[Entry]) -> bool
    ensures long { IsTrue result → length first.now ≤ length all.now }
    ensures on_true { IsTrue result → first.now ≡ take (length first.now) all.now }
    ensures on_false { IsFalse result → first.now ≡ take (length first.now) all.now → ⊥ }
{
    first.len() <= all.len() && entries_equal(first, &all[..first.len()])
}

// Transforms the rebased content against further entries. Returns `None` if an allocation fails.
fn rebase_rest(
    alloc: Global,
    arrived: &Content,
    worked: RebasedContent,
    entries: &[Entry],
) -> Option<RebasedContent>
    ensures rebased { IfSome result
        (λ r. rebased_content_of arrived.now r
        ≡ result_and_then (λ k. rebase k entries.now) (rebased_content_of arrived.now worked)) }
    ensures memory { (missed : List PlainEntry)
        → rebased_content_of arrived.now worked ≡ rebase arrived.now missed
        → IfNone result (rebase_allocates arrived.now (missed ++ entries.now) ≡ true) }
{
    let current = match &worked {
        RebasedContent::Unchanged => arrived,
        RebasedContent::Changed(content) => content,
        RebasedContent::Refused(_) => return Some(worked),
    };
    match rebase(alloc, current, entries) {
        Ok(None) => Some(worked),
        Ok(Some(content)) => Some(RebasedContent::Changed(content)),
        Err(Code::E10) => None,
        Err(code) => Some(RebasedContent::Refused(code)),
    }
}
