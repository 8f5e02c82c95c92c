//! Looks whose missed entries are copied in parts.
ghost use Rattle.std.specs.Prelude.{◌≡◌, ◌⊎◌, ℕ, ◌<◌, [], length, IfOk, OnErr};
ghost use Rattle.sdb_oplog.specs.Keys.{plain_key};
ghost use Rattle.sdb_desk.specs.Machine.{look_before};
ghost use Rattle.sdb_desk.specs.ReplyView.{plain_reply};
ghost use Rattle.sdb_desk.specs.View.{plain_look, plain_outcome, outcome_of_decision};
ghost use Rattle.sdb_submit.specs.Calls.{look, commit, commit_now, OnMoved, look_view};
ghost use Rattle.sdb_backend.specs.CallAnswers.{AnsweredAtExtension, IsLookSeenBy};
ghost use Rattle.sdb_backend.specs.PassModel.{pass_number, IsPassOfBackend};
ghost use Rattle.sdb_backend.specs.LooksInParts.{KnowsFirstMissed, IsLookOutdatedFor};

use crate::backend::Backend;
use crate::commit_jobs::{CommitJob, CommitLastJob, LookJob, LookPartJob};
use crate::pass::Pass;
use sdb_desk::{CommitDecision, Look, LookPart, Outcome, Reply, Work};
use sdb_oplog::{Code, Entry, Key, Moment, Submission, clone_entries};
use std::alloc::{AllocError, Global};
use std::sync::Wait;

// Greatest number of missed entries that are copied while a lock is held.
const MAX_PART: usize = 1024;

// Number of parts after which a look copies the rest at once. No log is that long.
const MAX_PARTS: u64 = 1 << 43;

impl<R: Wait + Drop> Backend<R> {
    // Looks, for a caller that has the first missed entries. The others are copied in parts, and
    // the lock is released after each.
    pub(crate) fn look_from(
        &self,
        pass: &mut Pass,
        key: &Key,
        submission: &Submission,
        mut missed: Vec<Entry>,
    ) -> Result<Look, AllocError>
        requires pass { IsPassOfBackend pass.old self.now }
        requires missed { KnowsFirstMissed pass.old (plain_key key.now) submission.now missed.items }
        ensures pass { IsPassOfBackend pass.new self.now }
        ensures seen { IfOk result (λ l. IsLookSeenBy pass.new (plain_key key.now)
            (record { submission = submission.now; look = plain_look l })) }
        ensures answered { AnsweredAtExtension (plain_key key.now) (look submission.now) pass.old
            (look_view result) pass.new }
    {
        for _ in 0..MAX_PARTS {
            let part = LookPartJob {
                key,
                submission,
                known: missed.len(),
                max: MAX_PART,
            };
            match self.run(pass, key, part)? {
                LookPart::Last(look) => return look_before(missed, look),
                LookPart::Entries(mut entries) => missed.append(&mut entries)?,
            }
        }
        self.run(pass, key, LookJob { key, submission })
    }

    // Decides a work's submission if the log hasn't grown since its look. Otherwise looks again,
    // after the lock is released.
    pub(crate) fn decide(
        &self,
        pass: &mut Pass,
        key: &Key,
        work: &Work,
        now: Moment,
    ) -> CommitDecision
        requires pass { IsPassOfBackend pass.old self.now }
        requires ready { (work.now.submission.by ≡ pass_number pass.old)
            × IsLookSeenBy pass.old (plain_key key.now) work.now }
        ensures pass { IsPassOfBackend pass.new self.now }
        ensures seen { OnMoved (outcome_of_decision work.now result) (λ l. IsLookSeenBy pass.new
            (plain_key key.now) (record { submission = work.now.submission; look = l })) }
        ensures answered { AnsweredAtExtension (plain_key key.now) (commit work.now now) pass.old
            (outcome_of_decision work.now result) pass.new }
    {
        match self.run(
            pass,
            key,
            CommitJob {
                key,
                work,
                now,
                is_full: self.limits.is_full(),
            },
        ) {
            Some(decision) => decision,
            None => CommitDecision::Reply(self.look_again(pass, key, work)),
        }
    }

    // Decides a work's submission, even if the log has grown since its look.
    pub(crate) fn commit_resumed(
        &self,
        pass: &mut Pass,
        key: &Key,
        work: Work,
        now: Moment,
    ) -> Reply
        requires pass { IsPassOfBackend pass.old self.now }
        requires ready { (work.submission.by ≡ pass_number pass.old)
            × IsLookSeenBy pass.old (plain_key key.now) work }
        ensures pass { IsPassOfBackend pass.new self.now }
        ensures answered { AnsweredAtExtension (plain_key key.now) (commit_now work.submission now) pass.old
            (plain_reply result) pass.new }
    {
        let reply = self.run(
            pass,
            key,
            CommitLastJob {
                key,
                work,
                now,
                is_full: self.limits.is_full(),
            },
        );
        self.counts.record_reply(&reply);
        reply
    }

    // Looks again for a work, since the log has grown. Returns `Moved` with the look, or E10.
    fn look_again(&self, pass: &mut Pass, key: &Key, work: &Work) -> Outcome
        requires pass { IsPassOfBackend pass.old self.now }
        requires outdated { IsLookOutdatedFor pass.old (plain_key key.now) work.now }
        ensures pass { IsPassOfBackend pass.new self.now }
        ensures seen { OnMoved (plain_outcome result) (λ l. IsLookSeenBy pass.new (plain_key key.now)
            (record { submission = work.now.submission; look = l })) }
        ensures answered { (now : ℕ) → AnsweredAtExtension (plain_key key.now) (commit work.now now) pass.old
            (plain_outcome result) pass.new }
    {
        let missed = clone_or_none(self.alloc, work.missed());
        match self.look_from(pass, key, work.submission(), missed) {
            Ok(look) => Outcome::Moved(look),
            Err(error) => Outcome::Decided(Reply::Refused(Code::from(error))),
        }
    }
}

// Returns clones of the entries, or none if an allocation fails.
fn clone_or_none(alloc: Global, entries: &[Entry]) -> Vec<Entry>
    ensures { (result.items ≡ entries.now) ⊎ (result.items ≡ []) }
{
    match clone_entries(alloc, entries) {
        Ok(clones) => clones,
        Err(_) => Vec::new(alloc),
    }
}

// Returns a look with these entries before its own missed entries.
fn look_before(mut missed: Vec<Entry>, look: Look) -> Result<Look, AllocError>
    ensures ok { IfOk result (λ l. plain_look l ≡ look_before missed.items (plain_look look)) }
    ensures memory { OnErr result (0 < length missed.items) }
{
    if missed.is_empty() {
        return Ok(look);
    }
    let Look {
        version,
        repeat,
        missed: mut others,
        snapshot,
    } = look;
    missed.append(&mut others)?;
    Ok(Look {
        version,
        repeat,
        missed,
        snapshot,
    })
}
