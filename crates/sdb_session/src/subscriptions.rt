//! Opening and closing of queues.
ghost use Rattle.std.specs.Prelude.{◌≡◌, option_map};
ghost use Rattle.sdb_oplog.specs.Keys.{plain_key};
ghost use Rattle.sdb_submit.specs.PassModel.{IsNextPass};
ghost use Rattle.sdb_session.specs.PumpModel.{TakeCall};
ghost use Rattle.sdb_session.specs.View.{queue_id_of, taken_entries_view};
ghost use Rattle.sdb_session.specs.Responses.{CloseCalls};

use sdb_oplog::{Entry, Key};
use sdb_submit::Desk;
use sdb_subscribe::SubId;
use std::alloc::{AllocError, Global};

// A queue: its document's key and its number there.
#[derive(Drop)]
pub(crate) struct Subscription {
    pub base: Key,
    pub id: SubId,
}

// Closes the queue, if there is one.
pub(crate) fn close_queue<D: Desk>(desk: &D, pass: &mut D::Pass, queue: Option<&Subscription>)
    requires accepted { D.accepts desk.now pass.old }
    ensures pass { IsNextPass D.accepts D.pass_number desk.now pass.old pass.new }
    ensures close_calls { CloseCalls (D.step desk.now) (option_map
        (λ s. queue_id_of s.now) queue.entry) pass.old pass.new }
{
    if let Some(queue) = queue {
        desk.unsubscribe(pass, &queue.base, queue.id);
    }
}

// Returns the next entries of a queue, at most `max`; none if the queue is unknown.
pub(crate) fn take_entries<D: Desk>(
    alloc: Global,
    desk: &D,
    pass: &mut D::Pass,
    base: &Key,
    id: SubId,
    max: u64,
) -> Result<Vec<Entry>, AllocError>
    requires accepted { D.accepts desk.now pass.old }
    ensures pass { IsNextPass D.accepts D.pass_number desk.now pass.old pass.new }
    ensures takes_one { TakeCall (D.step desk.now) max (record { base = plain_key base.now; id = id })
        pass.old (taken_entries_view result) pass.new }
{
    match desk.take(pass, base, id, max) {
        Ok(Some(entries)) => Ok(entries),
        Ok(None) => Ok(Vec::new(alloc)),
        Err(error) => Err(error),
    }
}
