//! The optimistic retry loop of a submission.
ghost use Rattle.std.specs.Prelude.{◌≡◌, IsTrue, IsFalse};
ghost use Rattle.sdb_oplog.specs.Decide.{refused};
ghost use Rattle.sdb_oplog.specs.declared.codes.Code.TheVariants.{E10};
ghost use Rattle.sdb_oplog.specs.Keys.{plain_key};
ghost use Rattle.sdb_desk.specs.ReplyView.{plain_reply};
ghost use Rattle.sdb_submit.specs.PassModel.{CanSubmit, IsNextPass};
ghost use Rattle.sdb_submit.specs.SubmitLoop.{SubmitRelation};

use crate::desk::{Desk, Gate};
use sdb_desk::{Attempt, Outcome, Reply};
use sdb_oplog::{Code, Key, Moment, Submission};
use std::alloc::Global;

/// Submits an operation at a moment: one look, up to eight tries of work and commit, and a last
/// commit that decides. A try that finds a longer log continues from its new look, as does the last
/// commit. Refusals and duplicates are decided at a commit too.
///
/// Only if an allocation fails for a look, a work or a commit, or the desk refuses a work that takes
/// long, `commit_now` decides at once. It replies E10 only if the decision itself fails to allocate
/// or takes too long for the desk, and nothing changes then.
///
/// ```
/// let (mut shard, now) = (Shard::new(alloc), Moment::zero());
/// let reply = submit(alloc, &Solo, &mut shard, &key, submission, now, &NoGate);
/// assert!(rt; matches!(reply, Reply::Stored { v: 0, .. }));
/// ```
pub fn submit<D: Desk, G: Gate>(
    alloc: Global,
    desk: &D,
    pass: &mut D::Pass,
    key: &Key,
    submission: Submission,
    now: Moment,
    gate: &G,
) -> Reply
    requires caller { CanSubmit D.accepts D.pass_number desk.now pass.old submission }
    ensures pass { IsNextPass D.accepts D.pass_number desk.now pass.old pass.new }
    ensures chain { let k = plain_key key.now in
        SubmitRelation (D.step desk.now k) submission now pass.old (plain_reply result) pass.new }
{
    let Ok(look) = desk.look(pass, key, &submission) else {
        return desk.commit_now(pass, key, &submission, now);
    };
    let mut made = desk.work(alloc, Attempt { submission, look });
    for try_no in 1..=8 {
        let mut worked = match made {
            Ok(worked) => worked,
            Err(attempt) => return desk.commit_now(pass, key, &attempt.submission, now),
        };
        gate.before_commit(try_no);
        match desk.commit(pass, key, &mut worked, now) {
            Outcome::Decided(reply) => {
                if is_out_of_memory(&reply) {
                    return desk.commit_now(pass, key, worked.submission(), now);
                }
                return reply;
            }
            Outcome::Moved(fresh) => made = desk.resume_work(alloc, worked, fresh),
        }
    }
    match made {
        Ok(worked) => desk.commit_last(pass, key, worked, now),
        Err(attempt) => desk.commit_now(pass, key, &attempt.submission, now),
    }
}

// Returns whether an allocation failed.
fn is_out_of_memory(reply: &Reply) -> bool
    ensures memory { IsTrue result → plain_reply reply.now ≡ refused E10 }
    ensures on_false { IsFalse result → plain_reply reply.now ≡ refused E10 → ⊥ }
{
    matches!(reply, Reply::Refused(Code::E10))
}
