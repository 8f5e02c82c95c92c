//! What the handlers of one message share.
use sdb_json::JsonTree;
use sdb_oplog::Moment;
use sdb_projection::Table;
use std::alloc::Global;

// The desk, the policy and its projections, the message, which an error repeats, and the time of the
// message.
#[derive(Drop)]
pub(crate) struct Context<'a, 'm, 't, D, P> {
    pub alloc: Global,
    pub desk: &'a D,
    pub table: &'a Table,
    pub policy: &'a P,
    pub message: Option<&'m JsonTree<'t>>,
    pub moment: Moment,
}
