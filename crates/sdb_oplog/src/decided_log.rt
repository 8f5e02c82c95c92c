//! A log that decides submissions.
ghost use Rattle.std.specs.Prelude.{◌≡◌, ℕ, ◌∷◌, ◌++◌, [], true, length, is_some, IfOk, IfErr, IfSome, IsErrOf, OnOk, OnErr, option_map};
ghost use Rattle.sdb_value.specs.Uniqueness.{is_frozen};
ghost use Rattle.sdb_value.specs.View.{value_of};
ghost use Rattle.sdb_oplog.specs.Decide.{decide, decide_allocates, missed_entries, stored, IsMade};
ghost use Rattle.sdb_oplog.specs.DecidedLog.{IsDecidedLog, CanStore, WillStore, IsRejectedAs, IsRejectionOrOutOfMemory};
ghost use Rattle.sdb_oplog.specs.Snap.{document_of};
ghost use Rattle.sdb_oplog.specs.declared.codes.Code.TheVariants.{E10};
ghost use Rattle.sdb_oplog.specs.declared.decided_log.Rejection.TheVariants.{Refused};

use crate::codes::Code;
use crate::content::{Content, rebase};
use crate::document::freeze_document;
use crate::entry::{Entry, Submission};
use crate::log::Log;
use crate::moment::Moment;
use sdb_value::{Json, MAX};
use std::alloc::{AllocError, Global};
use std::marker::Model;

/// The reason why a submission isn't stored.
#[derive(Clone, Copy, Debug, PartialEq, Eq, Drop)]
pub enum Rejection {
    /// A duplicate of the submission stored at version `v`.
    Repeat { v: u64 },
    /// Refused with a code. E10 is an allocation failure.
    Refused(Code),
}

impl From<Code> for Rejection {
    ghost use Rattle.sdb_oplog.specs.declared.decided_log.Rejection.TheVariants.{Refused};

    ghost from_gives = { λ code rejection. rejection ≡ Refused code };

    fn from(code: Code) -> Rejection {
        Rejection::Refused(code)
    }
}

impl From<AllocError> for Rejection {
    ghost use Rattle.sdb_oplog.specs.declared.codes.Code.TheVariants.{E10};
    ghost use Rattle.sdb_oplog.specs.declared.decided_log.Rejection.TheVariants.{Refused};

    ghost from_gives = { λ _ rejection. rejection ≡ Refused E10 };

    fn from(error: AllocError) -> Rejection {
        Rejection::Refused(Code::from(error))
    }
}

/// What a stored submission adds to a log: its rebased content, and the document after it.
#[derive(Drop)]
pub struct RebaseResult {
    /// The rebased content, or `None` if it is the submitted one.
    pub content: Option<Content>,
    /// The document after it.
    pub document: Option<Json>,
}

/// A log with the document after its last entry. Each entry is what its submission stores on the
/// entries before it.
///
/// ```
/// let mut log = DecidedLog::new(alloc);
/// let stored = log.decide(alloc, create, Moment::zero());
/// assert_eq!(rt; (stored, log.log().len()), (Ok(0), 1));
/// assert!(rt; log.document().is_some());
/// ```
#[derive(Drop)]
pub struct DecidedLog {
    log: Log,
    document: Option<Json>,
}

impl Model for DecidedLog {
    ghost use Rattle.std.specs.Prelude.{List};
    ghost use Rattle.sdb_oplog.specs.Plain.{PlainEntry};
    ghost use Rattle.sdb_oplog.specs.Coding.{log_code};
    ghost use Rattle.sdb_oplog.specs.DecidedLog.{IsDecidedLog};

    ghost Value = { List PlainEntry };

    ghost coded = { log_code };

    ghost view = { λ d. d.log };

    ghost invariant = { λ d. IsDecidedLog d.log d.document };
}

impl DecidedLog {
    /// Creates an empty log. It keeps the allocator and doesn't allocate.
    pub fn new(alloc: Global) -> DecidedLog
        ensures { result ≡ [] }
    {
        DecidedLog {
            log: Log::new(alloc),
            document: None,
        }
    }

    /// Returns the log.
    pub fn log(&self) -> &Log
        ensures log { result.now ≡ self.now }
        ensures is_made { IsMade self.now }
    {
        &self.log
    }

    /// Returns the document after the last entry.
    pub fn document(&self) -> Option<&Json>
        ensures { option_map (λ v. value_of v.now) result ≡ document_of self.now }
    {
        self.document.as_ref()
    }

    /// Drops the document and returns the log.
    pub fn into_log(self) -> Log
        ensures log { result ≡ self }
        ensures is_made { IsMade self }
    {
        self.log
    }

    /// Returns a clone of the document, after freezing it. It costs a pointer, and the freezing of
    /// the parts that changed since the last freeze.
    ///
    /// # Errors
    ///
    /// [`AllocError`] if an allocation fails. An absent document doesn't allocate.
    pub fn freeze(&mut self, alloc: Global) -> Result<Option<Json>, AllocError>
        ensures copy { IfOk result (λ d. option_map value_of d ≡ document_of self.old) }
        ensures frozen { IfOk result (λ d. IfSome d (λ v. is_frozen v ≡ true)) }
        ensures memory { OnErr result (is_some (document_of self.old) ≡ true) }
        ensures unchanged { self.new ≡ self.old }
    {
        freeze_document(alloc, &mut self.document)
    }

    /// Decides a submission at a moment and appends it, unless it is rejected. Returns the version
    /// at which it is stored.
    ///
    /// # Errors
    ///
    /// The [`Rejection`]. The log is then unchanged. A duplicate, a full log, a version that is too
    /// new, a create on a present document and an edit of an absent one don't allocate.
    pub fn decide(
        &mut self,
        alloc: Global,
        submission: Submission,
        now: Moment,
    ) -> Result<u64, Rejection>
        ensures ok { IfOk result (λ v. decide self.old submission now ≡
            record { reply = stored v (missed_entries self.old submission); log = self.new }) }
        ensures err { IfErr result (IsRejectionOrOutOfMemory self.old submission now) }
        ensures memory { IsErrOf result (Refused E10) → decide_allocates self.old submission ≡ true }
        ensures unchanged_on_err { OnErr result (self.new ≡ self.old) }
    {
        self.check(&submission)?;
        let rebased = self.rebase(alloc, &submission)?;
        let v = self.log.len();
        self.append(submission, now, rebased)?;
        Ok(v)
    }

    /// Checks what needs no rebase: the submission is no duplicate, the log isn't full, and the
    /// base version exists.
    ///
    /// # Errors
    ///
    /// The [`Rejection`]. It doesn't allocate.
    pub fn check(&self, submission: &Submission) -> Result<(), Rejection>
        ensures ok { OnOk result (CanStore self.now submission.now) }
        ensures err { (t : ℕ) → IfErr result (IsRejectedAs self.now submission.now t) }
    {
        if let Some(v) = self.log.stored_at(submission.src(), submission.seq()) {
            return Err(Rejection::Repeat { v });
        }
        let version = self.log.len();
        if version == MAX {
            return Err(Rejection::Refused(Code::E11));
        }
        if version < submission.version().unwrap_or(version) {
            return Err(Rejection::Refused(Code::E4));
        }
        Ok(())
    }

    /// Rebases the submission's content on the entries since its base version, and applies it to a
    /// clone of the document.
    ///
    /// # Errors
    ///
    /// The code of the refusal, or [`Code::E10`] if an allocation fails.
    pub fn rebase(&self, alloc: Global, submission: &Submission) -> Result<RebaseResult, Code>
        requires { CanStore self.now submission.now }
        ensures ok { IfOk result
            (λ r. WillStore self.now submission.now r.content (option_map value_of r.document)) }
        ensures err { (t : ℕ) → IfErr result
            (λ code. IsRejectionOrOutOfMemory self.now submission.now t (Refused code)) }
        ensures memory { IsErrOf result E10 → decide_allocates self.now submission.now ≡ true }
    {
        let missed = self.log.missed_entries(submission);
        let content = rebase(alloc, submission.content(), missed)?;
        let document = match &content {
            Some(content) => content.apply_to_copy(alloc, self.document.as_ref())?,
            None => submission
                .content()
                .apply_to_copy(alloc, self.document.as_ref())?,
        };
        Ok(RebaseResult { content, document })
    }

    /// Appends a submission with its rebased content, and replaces the document. The moment is
    /// `now`, or that of the entry before it if that is later.
    ///
    /// # Errors
    ///
    /// [`AllocError`] if an allocation fails. The log is then unchanged.
    pub fn append(
        &mut self,
        submission: Submission,
        now: Moment,
        rebased: RebaseResult,
    ) -> Result<(), AllocError>
        requires { WillStore self.old submission rebased.content (option_map value_of rebased.document) }
        ensures ok { OnOk result (decide self.old submission now ≡ record {
          reply = stored (length self.old) (missed_entries self.old submission);
          log = self.new;
        }) }
        ensures err { OnErr result (self.new ≡ self.old) }
    {
        let version = self.log.len();
        let moment = now.max(self.log.last_moment());
        let entry = Entry::new(version, moment, rebased.content, submission);
        self.log.push(entry)?;
        self.document = rebased.document;
        Ok(())
    }
}
