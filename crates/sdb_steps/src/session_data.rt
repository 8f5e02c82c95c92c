//! The state of a session.
ghost use Rattle.std.specs.Prelude.{◌<◌};

use sdb_desk::{Attempt, Look, Work};
use sdb_oplog::Key;
use sdb_subscribe::SubId;
use std::collections::BTreeMap;

// The phase of an attempt: a look alone; a work for an older look and a newer look; or a work.
#[derive(Drop)]
pub(crate) enum Phase {
    Looked(Attempt),
    Moved { last: Work, look: Look },
    Worked(Work),
}

// An attempt to store a submission: its document, its phase, and the number of commits that found a
// longer log.
#[derive(Drop)]
pub(crate) struct OpenAttempt {
    pub key: Key,
    pub phase: Phase,
    pub tries: u64,
    ghost few: { tries < 9 },
}

// At most one attempt, and a slot for the queue of each key. A slot is empty only while a queue is
// being opened.
#[derive(Drop)]
pub(crate) struct Session {
    pub attempt: Option<OpenAttempt>,
    pub slots: BTreeMap<Key, Option<SubId>>,
}
