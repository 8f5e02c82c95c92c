//! Attempts: a submission with its look, its work and its commits.
ghost use Rattle.std.specs.Prelude.{◌≡◌, ◌<◌, ℕ, true, Some, IfOk, IfErr, IsTrue, IsFalse, option_map, false};
ghost use Rattle.sdb_oplog.specs.Decide.{refused};
ghost use Rattle.sdb_oplog.specs.declared.codes.Code.TheVariants.{E10};
ghost use Rattle.sdb_desk.specs.ReplyView.{plain_reply};
ghost use Rattle.sdb_oplog.specs.Keys.{PlainKey, plain_key};
ghost use Rattle.sdb_desk.specs.ShardView.{logs_of, caches_of, queues_of};
ghost use Rattle.sdb_desk.specs.Looks.{IsLook};
ghost use Rattle.sdb_desk.specs.Machine.{work_allocates};
ghost use Rattle.sdb_desk.specs.View.{plain_look};
ghost use Rattle.sdb_steps.specs.LookInvariant.{attempt_in, HasLookAt};
ghost use Rattle.sdb_steps.specs.Picks.{open_attempt, is_deciding};
ghost use Rattle.sdb_steps.specs.Dispatch.{AttemptCommits, AttemptWorks};
ghost use Rattle.sdb_steps.specs.StateView.{one_step_of_shard, submission_in, look_version, is_worked, plain_open_attempt, attempt_at};
ghost use Rattle.sdb_steps.specs.View.{plain_step_answer};

use crate::session_data::{OpenAttempt, Phase};
use crate::step::StepAnswer;
use sdb_desk::{Attempt, Look, Outcome, Reply, Shard, Work};
use sdb_oplog::{Code, Key, Moment, Submission};
use sdb_submit::{resume_work, work};
use std::alloc::{AllocError, Global};

// Number of tries after which a commit decides even if the log has grown.
const MAX_TRIES: u64 = 8;

// The answer to a commit, and the attempt if it isn't decided.
pub(crate) type CommitAnswer = (StepAnswer, Option<OpenAttempt>);

impl OpenAttempt {
    // Opens an attempt with a look at the log.
    pub(crate) fn open(
        shard: &Shard,
        key: &Key,
        submission: Submission,
    ) -> Result<OpenAttempt, AllocError>
        ensures opened { IfOk result
            (λ t. plain_open_attempt t ≡ open_attempt (one_step_of_shard shard.now) (plain_key key.now) submission) }
        ensures has_look { IfOk result (λ t. HasLookAt (logs_of shard.now) (Some t)) }
    {
        let look = shard.look(key, &submission)?;
        Ok(OpenAttempt {
            key: key.try_clone()?,
            phase: Phase::Looked(Attempt { submission, look }),
            tries: 0,
        })
    }

    // Commits at a moment. After eight tries it decides without working first.
    pub(crate) fn commit(self, alloc: Global, shard: &mut Shard, now: Moment) -> CommitAnswer
        requires { HasLookAt (logs_of shard.old) (Some self) }
        ensures has_look { HasLookAt (logs_of shard.new) result.1 }
        ensures commits { AttemptCommits (one_step_of_shard shard.old) (plain_open_attempt self) now
            (plain_step_answer result.0)
            (one_step_of_shard shard.new) (option_map plain_open_attempt result.1) }
        ensures queues_unchanged { queues_of shard.new ≡ queues_of shard.old }
        ensures caches_unchanged { caches_of shard.new ≡ caches_of shard.old }
    {
        if self.tries == MAX_TRIES {
            return self.commit_now(shard, now);
        }
        let OpenAttempt { key, phase, tries } = self;
        let is_worked = is_worked(&phase);
        match worked(alloc, phase) {
            Ok(work) => commit_work(shard, key, work, tries, is_worked, now),
            Err(phase) => OpenAttempt { key, phase, tries }.commit_unworked(shard, now),
        }
    }

    // Commits an attempt whose work failed to allocate: it decides if the log hasn't grown since
    // the look.
    fn commit_unworked(self, shard: &mut Shard, now: Moment) -> CommitAnswer
        requires bound { self.tries < 8 }
        requires memory { (is_worked self.phase ≡ false) × (work_allocates (attempt_in self.phase) ≡ true) }
        requires has_look { HasLookAt (logs_of shard.old) (Some self) }
        ensures has_look { HasLookAt (logs_of shard.new) result.1 }
        ensures commits { AttemptCommits (one_step_of_shard shard.old) (plain_open_attempt self) now
            (plain_step_answer result.0)
            (one_step_of_shard shard.new) (option_map plain_open_attempt result.1) }
        ensures queues_unchanged { queues_of shard.new ≡ queues_of shard.old }
        ensures caches_unchanged { caches_of shard.new ≡ caches_of shard.old }
    {
        if shard.version(&self.key) != look_version(&self.phase) {
            return (StepAnswer::OutOfMemory, Some(self));
        }
        self.commit_now(shard, now)
    }

    // Decides the attempt at a moment on the current log.
    fn commit_now(self, shard: &mut Shard, now: Moment) -> CommitAnswer
        requires is_deciding { is_deciding (one_step_of_shard shard.old) (plain_open_attempt self) ≡ true }
        requires has_look { HasLookAt (logs_of shard.old) (Some self) }
        ensures has_look { HasLookAt (logs_of shard.new) result.1 }
        ensures commits { AttemptCommits (one_step_of_shard shard.old) (plain_open_attempt self) now
            (plain_step_answer result.0)
            (one_step_of_shard shard.new) (option_map plain_open_attempt result.1) }
        ensures queues_unchanged { queues_of shard.new ≡ queues_of shard.old }
        ensures caches_unchanged { caches_of shard.new ≡ caches_of shard.old }
    {
        let reply = shard.commit_now(&self.key, submission_of(&self.phase), now);
        if is_out_of_memory(&reply) {
            return (StepAnswer::OutOfMemory, Some(self));
        }
        (StepAnswer::Decided(reply), None)
    }

    // Computes the attempt's work, unless it has one. If an allocation fails, the attempt is
    // unchanged.
    pub(crate) fn work(self, alloc: Global) -> (StepAnswer, OpenAttempt)
        ensures works { AttemptWorks (work_allocates (attempt_in self.phase)) (plain_open_attempt self)
            (plain_step_answer result.0) (plain_open_attempt result.1) }
        ensures attempt { attempt_in result.1.phase ≡ attempt_in self.phase }
        ensures key { plain_key result.1.key ≡ plain_key self.key }
    {
        let OpenAttempt { key, phase, tries } = self;
        let (answer, phase) = work_phase(alloc, phase);
        (answer, OpenAttempt { key, phase, tries })
    }
}

fn submission_of(phase: &Phase) -> &Submission
    ensures { result.now ≡ submission_in phase.now }
{
    match phase {
        Phase::Looked(attempt) => &attempt.submission,
        Phase::Moved { last, .. } => last.submission(),
        Phase::Worked(work) => work.submission(),
    }
}

// Returns the version of the phase's look.
fn look_version(phase: &Phase) -> u64
    ensures { result ≡ look_version phase.now }
{
    match phase {
        Phase::Looked(attempt) => attempt.look.version,
        Phase::Moved { look, .. } => look.version,
        Phase::Worked(work) => work.version(),
    }
}

fn is_worked(phase: &Phase) -> bool
    ensures { result ≡ is_worked phase.now }
{
    match phase {
        Phase::Worked(_) => true,
        _ => false,
    }
}

// Computes the work of a phase. If an allocation fails, the phase is unchanged, except that a work
// for an older look is discarded.
fn worked(alloc: Global, phase: Phase) -> Result<Work, Phase>
    ensures submission { IfOk result (λ w. w.submission ≡ submission_in phase) }
    ensures version { IfOk result (λ w. w.look.version ≡ look_version phase) }
    ensures attempt { IfOk result (λ w. w ≡ attempt_in phase) }
    ensures kept { IfErr result (λ s. attempt_in s ≡ attempt_in phase) }
    ensures err { IfErr result (λ s. (k : PlainKey) (n : ℕ) → attempt_at k s n ≡ attempt_at k phase n) }
    ensures memory { IfErr result (λ s. (is_worked s ≡ false) × (work_allocates (attempt_in s) ≡ true)) }
{
    let made = match phase {
        Phase::Looked(attempt) => work(alloc, attempt),
        Phase::Moved { last, look } => resume_work(alloc, last, look),
        Phase::Worked(work) => Ok(work),
    };
    match made {
        Ok(work) => Ok(work),
        Err(attempt) => Err(Phase::Looked(attempt)),
    }
}

fn work_phase(alloc: Global, phase: Phase) -> (StepAnswer, Phase)
    ensures works { (k : PlainKey) (n : ℕ) →
        AttemptWorks (work_allocates (attempt_in phase)) (attempt_at k phase n) (plain_step_answer result.0)
        (attempt_at k result.1 n) }
    ensures attempt { attempt_in result.1 ≡ attempt_in phase }
{
    if is_worked(&phase) {
        return (StepAnswer::Idle, phase);
    }
    match worked(alloc, phase) {
        Ok(work) => (StepAnswer::Worked, Phase::Worked(work)),
        Err(phase) => (StepAnswer::OutOfMemory, phase),
    }
}

// Commits a work at a moment. If an allocation fails, the attempt is unchanged.
fn commit_work(
    shard: &mut Shard,
    key: Key,
    work: Work,
    tries: u64,
    is_worked: bool,
    now: Moment,
) -> CommitAnswer
    requires bound { tries < 8 }
    requires looked { IsLook (logs_of shard.old (plain_key key)) work }
    ensures looked { HasLookAt (logs_of shard.new) result.1 }
    ensures commits { AttemptCommits (one_step_of_shard shard.old)
        (record {
          key = plain_key key;
          submission = work.submission;
          looked_version = work.look.version;
          tries = tries;
          is_worked = is_worked;
        })
        now (plain_step_answer result.0) (one_step_of_shard shard.new) (option_map plain_open_attempt result.1) }
    ensures queues_unchanged { queues_of shard.new ≡ queues_of shard.old }
    ensures caches_unchanged { caches_of shard.new ≡ caches_of shard.old }
{
    let mut work = work;
    match shard.commit(&key, &mut work, now) {
        Outcome::Decided(reply) => {
            if is_out_of_memory(&reply) {
                let phase = restore_attempt(work, is_worked);
                return (
                    StepAnswer::OutOfMemory,
                    Some(OpenAttempt { key, phase, tries }),
                );
            }
            (StepAnswer::Decided(reply), None)
        }
        Outcome::Moved(look) => {
            let phase = look_again(work, look);
            let tries = tries + 1;
            (StepAnswer::Moved, Some(OpenAttempt { key, phase, tries }))
        }
    }
}

// Returns whether an allocation failed.
fn is_out_of_memory(reply: &Reply) -> bool
    ensures memory { IsTrue result → plain_reply reply.now ≡ refused E10 }
    ensures enough { IsFalse result → plain_reply reply.now ≡ refused E10 → ⊥ }
{
    match reply {
        Reply::Refused(Code::E10) => true,
        _ => false,
    }
}

// Returns the phase before the commit: with its work, or with its look only.
fn restore_attempt(work: Work, is_worked: bool) -> Phase
    ensures attempt { attempt_in result ≡ work }
    ensures plain { (k : PlainKey) (n : ℕ) → attempt_at k result n ≡ record {
      key = k;
      submission = work.submission;
      looked_version = work.look.version;
      tries = n;
      is_worked = is_worked;
    } }
{
    if is_worked {
        Phase::Worked(work)
    } else {
        Phase::Looked(work.into_attempt())
    }
}

// Returns the phase of a work with a newer look.
fn look_again(work: Work, look: Look) -> Phase
    ensures attempt { attempt_in result ≡ record { submission = work.submission; look = plain_look look } }
    ensures plain { (k : PlainKey) (n : ℕ) → attempt_at k result n ≡ record {
      key = k;
      submission = work.submission;
      looked_version = look.version;
      tries = n;
      is_worked = false;
    } }
{
    Phase::Moved { last: work, look }
}
