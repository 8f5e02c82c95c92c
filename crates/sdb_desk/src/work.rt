//! Looks, attempts and works.
ghost use Rattle.std.specs.Prelude.{◌≡◌, true, IfOk, IfErr, IsErrOf, Ok, Err, OnErr, option_map, unwrap_or};
ghost use Rattle.sdb_oplog.specs.Rebase.{rebase};
ghost use Rattle.sdb_oplog.specs.Refusal.{IsRefusalOrOutOfMemory};
ghost use Rattle.sdb_oplog.specs.Snap.{apply_content};
ghost use Rattle.sdb_oplog.specs.declared.codes.Code.TheVariants.{E10};
ghost use Rattle.sdb_value.specs.View.{value_of};
ghost use Rattle.sdb_desk.specs.Machine.{WorkAfterCommit, work_result, work_allocates};
ghost use Rattle.sdb_desk.specs.View.{rebased_content_of, plain_document_result, plain_attempt, plain_outcome, outcome_of_decision};

use crate::document::{Reply, entries_after};
use crate::rebase_size::rebase_pairs;
use crate::shard::{CommitDecision, Outcome};
use sdb_oplog::{Code, Content, Entry, Kind, Submission, rebase};
use sdb_value::Json;
use std::alloc::Global;
use std::marker::Model;
use std::mem;

/// The facts that a submission's work needs, read at one version of the log.
#[derive(Drop)]
pub struct Look {
    /// The current version.
    pub version: u64,
    /// The version of the submission's duplicate, if it has one.
    pub repeat: Option<u64>,
    /// The entries stored since the submission's base version. Empty if the version is too new.
    pub missed: Vec<Entry>,
    /// The current document, shared with the shard.
    pub snapshot: Option<Json>,
}

/// A look whose first missed entries the caller has, or entries that come before such a look.
#[derive(Drop)]
pub enum LookPart {
    /// The look, with the other missed entries.
    Last(Look),
    /// The next missed entries, of more that follow.
    Entries(Vec<Entry>),
}

/// A submission with its look.
#[derive(Drop)]
pub struct Attempt {
    pub submission: Submission,
    pub look: Look,
}

/// The content of a submission, transformed against its missed entries.
#[derive(Drop)]
pub(crate) enum RebasedContent {
    /// Equal to the submitted content.
    Unchanged,
    /// Another content.
    Changed(Content),
    /// Refused with a code.
    Refused(Code),
}

/// An attempt with its rebased content and the new document, or with the code of their refusal.
#[derive(Drop)]
pub struct Work {
    attempt: Attempt,
    rebased: RebasedContent,
    new_document: Result<Option<Json>, Code>,
}

impl Model for Work {
    ghost use Rattle.std.specs.Prelude.{◌≡◌};
    ghost use Rattle.sdb_desk.specs.Machine.{PlainAttempt};
    ghost use Rattle.sdb_desk.specs.Coding.{attempt_code};

    ghost Value = { PlainAttempt };

    ghost coded = { attempt_code };

    ghost use Rattle.sdb_desk.specs.View.{rebased_content_of, plain_document_result, plain_attempt};
    ghost use Rattle.sdb_desk.specs.WorkInvariant.{WorkInvariant};

    ghost view = { λ w. plain_attempt w.attempt };

    ghost invariant = { λ w. WorkInvariant (plain_attempt w.attempt)
        (rebased_content_of w.attempt.submission.content w.rebased)
        (plain_document_result w.new_document) };
}

impl Work {
    /// Creates a work from results that the caller computed. `worked` is the content transformed
    /// against `look.missed`, or its refusal. `snapshot` is that content applied to
    /// `look.snapshot`, or its refusal, which is the code of `worked` if that is refused.
    ///
    /// A snapshot that isn't frozen is copied by each look until the document changes.
    pub fn new(
        attempt: Attempt,
        worked: Result<Content, Code>,
        snapshot: Result<Option<Json>, Code>,
    ) -> Work
        requires content { worked ≡ rebase attempt.submission.content attempt.look.missed.items }
        requires snapshot { plain_document_result snapshot ≡ work_result (plain_attempt attempt) }
        ensures { result ≡ plain_attempt attempt }
    {
        let worked = match worked {
            Ok(content) => RebasedContent::Changed(content),
            Err(code) => RebasedContent::Refused(code),
        };
        Work {
            attempt,
            rebased: worked,
            new_document: snapshot,
        }
    }

    /// Computes the work of the attempt: transforms its content against the missed entries, and
    /// applies the result to a copy-on-write copy of the look's document.
    ///
    /// # Errors
    ///
    /// The attempt, unchanged, if an allocation fails. It allocates only to transform an edit
    /// against an edit, and to change a document.
    pub fn compute(alloc: Global, attempt: Attempt) -> Result<Work, Attempt>
        ensures ok { IfOk result (λ w. w ≡ plain_attempt attempt) }
        ensures err { IfErr result (λ a. plain_attempt a ≡ plain_attempt attempt) }
        ensures memory { OnErr result (work_allocates (plain_attempt attempt) ≡ true) }
    {
        let missed = attempt.look.missed.as_slice();
        let worked = match rebase(alloc, attempt.submission.content(), missed) {
            Ok(None) => RebasedContent::Unchanged,
            Ok(Some(content)) => RebasedContent::Changed(content),
            Err(Code::E10) => return Err(attempt),
            Err(code) => RebasedContent::Refused(code),
        };
        Work::from_content(alloc, attempt, worked)
    }

    /// Creates the work of an attempt with this rebased content, and applies it to a copy of the
    /// look's document.
    ///
    /// # Errors
    ///
    /// The attempt, unchanged, if an allocation fails. It allocates only to change a document.
    pub(crate) fn from_content(
        alloc: Global,
        attempt: Attempt,
        worked: RebasedContent,
    ) -> Result<Work, Attempt>
        requires { rebased_content_of attempt.submission.content worked ≡
            rebase attempt.submission.content attempt.look.missed.items }
        ensures ok { IfOk result (λ w. w ≡ plain_attempt attempt) }
        ensures err { IfErr result (λ a. plain_attempt a ≡ plain_attempt attempt) }
        ensures memory { OnErr result (work_allocates (plain_attempt attempt) ≡ true) }
    {
        let next_document = match apply_rebased(alloc, &attempt, &worked) {
            Ok(next_document) => Ok(next_document),
            Err(Code::E10) => return Err(attempt),
            Err(code) => Err(code),
        };
        Ok(Work {
            attempt,
            rebased: worked,
            new_document: next_document,
        })
    }

    /// Returns the submission.
    pub fn submission(&self) -> &Submission
        ensures { result.now ≡ self.now.submission }
    {
        &self.attempt.submission
    }

    /// Returns the version of the look.
    pub fn version(&self) -> u64
        ensures { result ≡ self.now.look.version }
    {
        self.attempt.look.version
    }

    /// Returns the missed entries of the look.
    pub fn missed(&self) -> &[Entry]
        ensures { result.now ≡ self.now.look.missed }
    {
        self.attempt.look.missed.as_slice()
    }

    /// Returns the rebased content, or `None` if it equals the submitted one.
    ///
    /// # Errors
    ///
    /// The code with which the rebase refused the content.
    pub fn content(&self) -> Result<Option<&Content>, Code>
        ensures ok { IfOk result (λ c. rebase self.now.submission.content self.now.look.missed ≡
            Ok (unwrap_or (option_map (λ k. k.now) c) self.now.submission.content)) }
        ensures err { IfErr result
            (λ code. rebase self.now.submission.content self.now.look.missed ≡ Err code) }
    {
        match &self.rebased {
            RebasedContent::Unchanged => Ok(None),
            RebasedContent::Changed(content) => Ok(Some(content)),
            RebasedContent::Refused(code) => Err(*code),
        }
    }

    /// Returns the new document.
    ///
    /// # Errors
    ///
    /// The code with which the rebase or the document refused the content.
    pub fn snapshot(&self) -> Result<Option<&Json>, Code>
        ensures ok { IfOk result
            (λ d. work_result self.now ≡ Ok (option_map (λ v. value_of v.now) d)) }
        ensures err { IfErr result (λ code. work_result self.now ≡ Err code) }
    {
        match &self.new_document {
            Ok(next_document) => Ok(next_document.as_ref()),
            Err(code) => Err(*code),
        }
    }

    /// Returns a bound on the number of pairs of components that it takes to rebase this work on
    /// those of the missed entries of a newer look that this one hasn't, as [`rebase_pairs`] does.
    ///
    /// [`rebase_pairs`]: crate::rebase_pairs
    pub fn newer_pairs(&self, missed: &[Entry], max: usize) -> usize {
        let newer = entries_after(missed, self.attempt.look.missed.len());
        match &self.rebased {
            RebasedContent::Unchanged => {
                rebase_pairs(self.attempt.submission.content(), newer, max)
            }
            RebasedContent::Changed(content) => rebase_pairs(content, newer, max),
            RebasedContent::Refused(_) => 0,
        }
    }

    /// Returns the attempt.
    pub fn into_attempt(self) -> Attempt
        ensures { plain_attempt result ≡ self }
    {
        self.attempt
    }

    /// Returns the attempt and its rebased content.
    pub(crate) fn into_parts(self) -> (Attempt, RebasedContent)
        ensures attempt { plain_attempt result.0 ≡ self }
        ensures worked { rebased_content_of self.submission.content result.1 ≡
            rebase self.submission.content self.look.missed }
    {
        (self.attempt, self.rebased)
    }

    /// Updates the work after a decision and returns the outcome. If the submission is stored, the
    /// missed entries move to the reply and the work keeps its submission. Otherwise the work is
    /// unchanged.
    pub fn finish(&mut self, alloc: Global, decision: CommitDecision) -> Outcome
        ensures outcome { plain_outcome result ≡ outcome_of_decision self.old decision }
        ensures work { WorkAfterCommit (plain_outcome result) self.old self.new }
    {
        match decision {
            CommitDecision::Store { v } => Outcome::Decided(Reply::Stored {
                v,
                missed: self.take_missed_entries(alloc, v),
            }),
            CommitDecision::Reply(outcome) => outcome,
        }
    }

    // Takes the missed entries and drops the documents. The submission keeps a look that has it as
    // a duplicate at `v`, and a document whose result needs no allocation.
    fn take_missed_entries(&mut self, alloc: Global, v: u64) -> Vec<Entry>
        ensures missed { result.items ≡ self.old.look.missed }
        ensures submission_unchanged { self.new.submission ≡ self.old.submission }
    {
        let (snapshot, new_document) = result_without_allocation(self.attempt.submission.content());
        self.rebased = RebasedContent::Unchanged;
        self.new_document = new_document;
        self.attempt.look.repeat = Some(v);
        self.attempt.look.snapshot = snapshot;
        mem::replace(&mut self.attempt.look.missed, Vec::new(alloc))
    }
}

// Returns a document, and the result of applying the content to it, which needs no allocation.
fn result_without_allocation(content: &Content) -> (Option<Json>, Result<Option<Json>, Code>)
    ensures { plain_document_result result.1 ≡
        apply_content content.now (option_map value_of result.0) }
{
    match content.kind() {
        Kind::Create(_) => (Some(Json::Null), Err(Code::E6)),
        Kind::Delete => (None, Ok(None)),
        Kind::Edit(_) => (None, Err(Code::E7)),
    }
}

// Applies the rebased content to the look's document.
fn apply_rebased(
    alloc: Global,
    attempt: &Attempt,
    worked: &RebasedContent,
) -> Result<Option<Json>, Code>
    requires { rebased_content_of attempt.now.submission.content worked.now ≡
        rebase attempt.now.submission.content attempt.now.look.missed.items }
    ensures ok { IfOk result
        (λ d. work_result (plain_attempt attempt.now) ≡ Ok (option_map value_of d)) }
    ensures err { IfErr result
        (λ code. IsRefusalOrOutOfMemory (work_result (plain_attempt attempt.now)) code) }
    ensures memory { IsErrOf result E10 → work_allocates (plain_attempt attempt.now) ≡ true }
{
    let content = match worked {
        RebasedContent::Unchanged => attempt.submission.content(),
        RebasedContent::Changed(content) => content,
        RebasedContent::Refused(code) => return Err(*code),
    };
    content.apply_to_copy(alloc, attempt.look.snapshot.as_ref())
}
