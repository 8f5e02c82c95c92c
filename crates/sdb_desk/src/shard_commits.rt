//! A shard's looks and commits.
ghost use Rattle.std.specs.Prelude.{◌≡◌, ℕ, [], true, IfOk, IfErr, IsErrOf, OnOk, OnErr, option_map};
ghost use Rattle.sdb_oplog.specs.Decide.{missed_entries, decide_allocates};
ghost use Rattle.sdb_oplog.specs.DecidedLog.{CanStore, WillStore, IsRejectedAs, IsRejectionOrOutOfMemory};
ghost use Rattle.sdb_oplog.specs.Keys.{plain_key};
ghost use Rattle.sdb_oplog.specs.Snap.{document_of};
ghost use Rattle.sdb_oplog.specs.declared.codes.Code.TheVariants.{E10};
ghost use Rattle.sdb_oplog.specs.declared.decided_log.Rejection.TheVariants.{Refused};
ghost use Rattle.sdb_value.specs.View.{value_of};
ghost use Rattle.sdb_desk.specs.ShardView.{slots_of, log_at, state_of};
ghost use Rattle.sdb_desk.specs.SlotModel.{empty_slot};
ghost use Rattle.sdb_desk.specs.Looks.{IsLook, IsLookPart};
ghost use Rattle.sdb_desk.specs.Machine.{IsRefusedByWork, look_at, look_after, look_allocates, WorkAfterCommit};
ghost use Rattle.sdb_desk.specs.View.{plain_look, plain_outcome, outcome_of_decision};
ghost use Rattle.sdb_desk.specs.ReplyView.{plain_reply};
ghost use Rattle.sdb_desk.specs.StateChanges.{StateAfterStore, StateAfterCommit, StateAfterDecision};

use crate::document::{Reply, entries_after, look_after};
use crate::document_slot::DocumentSlot;
use crate::shard::{CommitDecision, Outcome, Shard};
use crate::work::{Look, LookPart, Work};
use sdb_oplog::{
    Code, Content, DecidedLog, Entry, Key, Moment, RebaseResult, Rejection, Submission,
    clone_document, clone_entries,
};
use std::alloc::AllocError;

impl Shard {
    /// Reads what a submission needs: version, duplicate, missed entries and snapshot. The snapshot
    /// is a shared pointer.
    ///
    /// # Errors
    ///
    /// [`AllocError`] if an allocation fails. Without missed entries and a document it doesn't
    /// fail.
    pub fn look(&self, key: &Key, submission: &Submission) -> Result<Look, AllocError>
        ensures look { IfOk result
            (λ l. plain_look l ≡ look_at (log_at self.now key.now) submission.now) }
        ensures memory { OnErr result
            (look_allocates (log_at self.now key.now) submission.now ≡ true) }
    {
        self.look_after(key, submission, 0)
    }

    /// Looks as [`look`](Shard::look) does, for a caller that has the first `known` missed entries.
    /// Returns at most `max` of the others, without the look, if there are more.
    ///
    /// # Errors
    ///
    /// [`AllocError`] if an allocation fails, as for [`look`](Shard::look).
    ///
    /// ```
    /// // A submission that missed three entries.
    /// let first = shard.look_part(&key, &submission, 0, 2)?;
    /// assert!(rt; matches!(first, LookPart::Entries(entries) if entries.len() == 2));
    /// let last = shard.look_part(&key, &submission, 2, 2)?;
    /// assert!(rt; matches!(last, LookPart::Last(look) if look.missed.len() == 1));
    /// ```
    pub fn look_part(
        &self,
        key: &Key,
        submission: &Submission,
        known: usize,
        max: usize,
    ) -> Result<LookPart, AllocError>
        ensures part { IfOk result
            (IsLookPart (log_at self.now key.now) submission.now known max) }
        ensures memory { OnErr result
            (look_allocates (log_at self.now key.now) submission.now ≡ true) }
    {
        let missed = self.missed_entries(key, submission);
        let others = entries_after(missed, known);
        if others.len() <= max {
            return Ok(LookPart::Last(self.look_after(key, submission, known)?));
        }
        Ok(LookPart::Entries(clone_entries(self.alloc, &others[..max])?))
    }

    // Looks, without the first `known` missed entries.
    fn look_after(
        &self,
        key: &Key,
        submission: &Submission,
        known: usize,
    ) -> Result<Look, AllocError>
        ensures look { IfOk result
            (λ l. plain_look l ≡ look_after known (look_at (log_at self.now key.now) submission.now)) }
        ensures memory { OnErr result
            (look_allocates (log_at self.now key.now) submission.now ≡ true) }
    {
        match self.find(key) {
            Some(document) => look_after(self.alloc, document.decided(), submission, known),
            None => look_after(self.alloc, &DecidedLog::new(self.alloc), submission, known),
        }
    }

    /// Decides the submission of a work if the log hasn't grown since its look. Otherwise returns a
    /// new look, and the work is unchanged.
    ///
    /// A stored entry has the moment `now`, or that of the entry before it if that is later. The
    /// reply then takes the missed entries out of the work, which keeps its submission; in all
    /// other cases the work is unchanged.
    ///
    /// `Refused(E10)` is an allocation failure, and nothing changes. A duplicate, a full log, a
    /// version that is too new and a refused work don't allocate.
    ///
    /// ```
    /// let look = shard.look(&key, &submission)?;
    /// let Ok(mut work) = Work::compute(alloc, Attempt { submission, look }) else {
    ///     return Err(Code::E10);
    /// };
    /// let outcome = shard.commit(&key, &mut work, Moment::zero());
    /// assert!(rt; matches!(outcome, Outcome::Decided(Reply::Stored { v: 0, .. })));
    /// ```
    pub fn commit(&mut self, key: &Key, work: &mut Work, now: Moment) -> Outcome
        requires { IsLook (log_at self.old key.now) work.old }
        ensures commits { StateAfterCommit (plain_key key.now) work.old now (plain_outcome result)
            (state_of self.old) (state_of self.new) }
        ensures work { WorkAfterCommit (plain_outcome result) work.old work.new }
    {
        let decision = self.decide(key, work, now);
        work.finish(self.alloc, decision)
    }

    /// Decides a work as [`commit`](Shard::commit) does. The caller updates the work with
    /// [`Work::finish`].
    pub fn decide(&mut self, key: &Key, work: &Work, now: Moment) -> CommitDecision
        requires { IsLook (log_at self.old key.now) work.now }
        ensures { StateAfterCommit (plain_key key.now) work.now now
            (outcome_of_decision work.now result) (state_of self.old) (state_of self.new) }
    {
        if self.version(key) != work.version() {
            return CommitDecision::Reply(match self.look(key, work.submission()) {
                Ok(look) => Outcome::Moved(look),
                Err(error) => Outcome::Decided(Reply::Refused(Code::from(error))),
            });
        }
        match self.append_work(key, work, now) {
            Ok(()) => CommitDecision::Store { v: work.version() },
            Err(rejection) => CommitDecision::Reply(Outcome::Decided(Reply::from(rejection))),
        }
    }

    /// Decides a submission at a moment, in one step. `Refused(E10)` is an allocation failure, and
    /// nothing changes. A duplicate, a full log, a version that is too new, a create on a present
    /// document and an edit of an absent one don't allocate.
    pub fn commit_now(&mut self, key: &Key, submission: &Submission, now: Moment) -> Reply
        ensures { StateAfterDecision (plain_key key.now) submission.now now (plain_reply result)
            (state_of self.old) (state_of self.new) }
    {
        let v = self.version(key);
        match self.append_now(key, submission, now) {
            Ok(missed) => Reply::Stored { v, missed },
            Err(rejection) => Reply::from(rejection),
        }
    }

    /// Decides as [`commit_now`](Shard::commit_now) does, except that a rebase of more than
    /// [`MAX_PAIRS_LOCKED`] pairs of components is `Refused(E10)`, so that work under a lock is
    /// bounded.
    ///
    /// [`MAX_PAIRS_LOCKED`]: crate::MAX_PAIRS_LOCKED
    pub fn commit_short(&mut self, key: &Key, submission: &Submission, now: Moment) -> Reply
        ensures { StateAfterDecision (plain_key key.now) submission.now now (plain_reply result)
            (state_of self.old) (state_of self.new) }
    {
        if self.takes_too_long(key, submission) {
            return Reply::from(self.reject_long(key, submission));
        }
        self.commit_now(key, submission, now)
    }

    /// Decides the submission of a work at a moment, in one step, even if the log has grown since
    /// its look. Only newer entries are transformed against. If an allocation for this fails, it
    /// decides as [`Shard::commit_now`] does.
    pub fn commit_last(&mut self, key: &Key, work: Work, now: Moment) -> Reply
        ensures { StateAfterDecision (plain_key key.now) work.submission now (plain_reply result)
            (state_of self.old) (state_of self.new) }
    {
        let Ok(look) = self.look(key, work.submission()) else {
            return self.commit_now(key, work.submission(), now);
        };
        match work.resume(self.alloc, look) {
            Ok(resumed) => self.commit_current(key, resumed, now),
            Err(attempt) => self.commit_now(key, &attempt.submission, now),
        }
    }

    /// Decides as [`commit_last`](Shard::commit_last) does. It copies and transforms against only
    /// the entries that were stored after the look of the work, and is bounded as
    /// [`commit_short`](Shard::commit_short) is.
    pub fn commit_newer(&mut self, key: &Key, work: Work, now: Moment) -> Reply
        requires { IsLook (log_at self.old key.now) work }
        ensures { StateAfterDecision (plain_key key.now) work.submission now (plain_reply result)
            (state_of self.old) (state_of self.new) }
    {
        if self.is_too_long(key, &work) {
            return Reply::from(self.reject_long(key, work.submission()));
        }
        let Ok(newer) = self.look_after(key, work.submission(), work.missed().len()) else {
            return self.commit_short(key, work.submission(), now);
        };
        match work.extend(self.alloc, newer) {
            Ok(extended) => self.commit_current(key, extended, now),
            Err(submission) => self.commit_short(key, &submission, now),
        }
    }

    // Decides the submission of a work whose look is at the current log.
    fn commit_current(&mut self, key: &Key, mut work: Work, now: Moment) -> Reply
        requires { work.look ≡ look_at (log_at self.old key.now) work.submission }
        ensures { StateAfterDecision (plain_key key.now) work.submission now (plain_reply result)
            (state_of self.old) (state_of self.new) }
    {
        match self.commit(key, &mut work, now) {
            Outcome::Decided(reply) => reply,
            Outcome::Moved(_) => unreachable!(),
        }
    }

    // Appends a work's submission with its rebased content, unless it is rejected.
    fn append_work(&mut self, key: &Key, work: &Work, now: Moment) -> Result<(), Rejection>
        requires missed { work.now.look.missed ≡
            missed_entries (log_at self.old key.now) work.now.submission }
        requires snapshot { work.now.look.snapshot ≡ document_of (log_at self.old key.now) }
        ensures ok { OnOk result (StateAfterStore (plain_key key.now) work.now.submission now
            (state_of self.old) (state_of self.new)) }
        ensures err { IfErr result
            (IsRejectionOrOutOfMemory (log_at self.old key.now) work.now.submission now) }
        ensures memory { IsErrOf result (Refused E10) →
            decide_allocates (log_at self.old key.now) work.now.submission ≡ true }
        ensures found { IsErrOf result (Refused E10) →
            IsRefusedByWork (log_at self.old key.now) work.now → ⊥ }
        ensures unchanged_on_err { OnErr result (state_of self.new ≡ state_of self.old) }
    {
        self.check(key, work.submission())?;
        let (content, snapshot) = (work.content()?, work.snapshot()?);
        let rebased = RebaseResult {
            content: clone_content(content)?,
            document: clone_document(self.alloc, snapshot)?,
        };
        self.append(key, work.submission(), now, rebased)?;
        Ok(())
    }

    // Decides and appends a submission, unless it is rejected, and returns clones of its missed
    // entries.
    fn append_now(
        &mut self,
        key: &Key,
        submission: &Submission,
        now: Moment,
    ) -> Result<Vec<Entry>, Rejection>
        ensures ok { OnOk result (StateAfterStore (plain_key key.now) submission.now now
            (state_of self.old) (state_of self.new)) }
        ensures missed { IfOk result
            (λ v. v.items ≡ missed_entries (log_at self.old key.now) submission.now) }
        ensures err { IfErr result
            (IsRejectionOrOutOfMemory (log_at self.old key.now) submission.now now) }
        ensures memory { IsErrOf result (Refused E10) →
            decide_allocates (log_at self.old key.now) submission.now ≡ true }
        ensures unchanged_on_err { OnErr result (state_of self.new ≡ state_of self.old) }
    {
        self.check(key, submission)?;
        let rebased = self.rebase(key, submission)?;
        let missed = self.clone_missed_entries(key, submission)?;
        self.append(key, submission, now, rebased)?;
        Ok(missed)
    }

    // Checks what needs no rebase: duplicate, full log, version too new.
    pub(crate) fn check(&self, key: &Key, submission: &Submission) -> Result<(), Rejection>
        ensures ok { OnOk result (CanStore (log_at self.now key.now) submission.now) }
        ensures err { (t : ℕ) →
            IfErr result (IsRejectedAs (log_at self.now key.now) submission.now t) }
    {
        match self.find(key) {
            Some(document) => document.decided().check(submission),
            None => DecidedLog::new(self.alloc).check(submission),
        }
    }

    // Rebases the submission on the current log, and applies it to the current document.
    pub(crate) fn rebase(&self, key: &Key, submission: &Submission) -> Result<RebaseResult, Code>
        requires { CanStore (log_at self.now key.now) submission.now }
        ensures ok { IfOk result (λ r. WillStore (log_at self.now key.now) submission.now
            r.content (option_map value_of r.document)) }
        ensures err { (t : ℕ) → IfErr result (λ code. IsRejectionOrOutOfMemory
            (log_at self.now key.now) submission.now t (Refused code)) }
        ensures memory { IsErrOf result E10 →
            decide_allocates (log_at self.now key.now) submission.now ≡ true }
    {
        match self.find(key) {
            Some(document) => document.decided().rebase(self.alloc, submission),
            None => DecidedLog::new(self.alloc).rebase(self.alloc, submission),
        }
    }

    // Returns clones of the submission's missed entries.
    fn clone_missed_entries(
        &self,
        key: &Key,
        submission: &Submission,
    ) -> Result<Vec<Entry>, AllocError>
        ensures { IfOk result
            (λ v. v.items ≡ missed_entries (log_at self.now key.now) submission.now) }
    {
        clone_entries(self.alloc, self.missed_entries(key, submission))
    }

    // Returns the submission's missed entries.
    pub(crate) fn missed_entries(&self, key: &Key, submission: &Submission) -> &[Entry]
        ensures { result.now ≡ missed_entries (log_at self.now key.now) submission.now }
    {
        match self.find(key) {
            Some(document) => document.log().missed_entries(submission),
            None => &[],
        }
    }

    // Appends a submission with its rebased content and the new value.
    fn append(
        &mut self,
        key: &Key,
        submission: &Submission,
        now: Moment,
        rebased: RebaseResult,
    ) -> Result<(), AllocError>
        requires { WillStore (log_at self.old key.now) submission.now rebased.content
            (option_map value_of rebased.document) }
        ensures ok { OnOk result (StateAfterStore (plain_key key.now) submission.now now
            (state_of self.old) (state_of self.new)) }
        ensures err { OnErr result (state_of self.new ≡ state_of self.old) }
    {
        let submission = submission.try_clone()?;
        match self.slots.get_mut(key) {
            Some(slot) => slot.append(self.alloc, submission, now, rebased),
            None => self.append_first(key, submission, now, rebased),
        }
    }

    // Appends the first submission of a key.
    fn append_first(
        &mut self,
        key: &Key,
        submission: Submission,
        now: Moment,
        rebased: RebaseResult,
    ) -> Result<(), AllocError>
        requires nothing { empty_slot ≡ slots_of self.old (plain_key key.now) }
        requires will_store { WillStore [] submission rebased.content
            (option_map value_of rebased.document) }
        ensures ok { OnOk result (StateAfterStore (plain_key key.now) submission now
            (state_of self.old) (state_of self.new)) }
        ensures err { OnErr result (state_of self.new ≡ state_of self.old) }
    {
        let mut slot = DocumentSlot::new(self.alloc);
        slot.append(self.alloc, submission, now, rebased)?;
        self.insert_slot(key, slot)?;
        Ok(())
    }
}

// Clones a content, which may be absent.
fn clone_content(content: Option<&Content>) -> Result<Option<Content>, AllocError>
    ensures { IfOk result (λ c. c ≡ option_map (λ k. k.now) content.entry) }
{
    match content {
        Some(content) => Ok(Some(content.try_clone()?)),
        None => Ok(None),
    }
}
