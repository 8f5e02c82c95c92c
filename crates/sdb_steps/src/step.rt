//! Steps and their answers.
ghost use Rattle.std.specs.Prelude.{◌≡◌};
ghost use Rattle.sdb_steps.specs.View.{plain_session_step};

use crate::session_number::SessionNumber;
use sdb_desk::{FetchResult, Reply};
use sdb_oplog::{Code, Content, Entry, Key, Moment};

/// A step of one session.
#[derive(Drop)]
pub enum Step {
    /// Opens an attempt to store a submission: its source, its seq, its base version and its
    /// content. Idle if the session has an attempt.
    Begin {
        session: SessionNumber,
        key: Key,
        src: String,
        seq: u64,
        version: Option<u64>,
        content: Content,
    },
    /// Computes the attempt's work: transforms the submission against the entries of its look and
    /// applies it, without reading the documents. Idle without an attempt, and if the attempt has
    /// its work.
    Work {
        session: SessionNumber,
    },
    /// Decides the attempt if the log hasn't grown since the look, or on the ninth try; otherwise
    /// it takes a new look. Computes the attempt's work first if it has none. The stored entry has
    /// this moment, or that of the entry before it if that is later.
    ///
    /// Idle without an attempt.
    Commit {
        session: SessionNumber,
        now: Moment,
    },
    /// Reads the current document.
    Fetch {
        session: SessionNumber,
        key: Key,
    },
    /// Reads the document at a version, or the current one.
    Snapshot {
        session: SessionNumber,
        key: Key,
        version: Option<u64>,
    },
    /// Reads the document at a moment, or the current one.
    SnapshotAtTime {
        session: SessionNumber,
        key: Key,
        moment: Option<Moment>,
    },
    /// Opens a queue at a version or at the current one, and replaces the session's queue of this
    /// document.
    Subscribe {
        session: SessionNumber,
        key: Key,
        version: Option<u64>,
    },
    /// Reads the next entries of the queue, at most `max`. Idle without a queue.
    Take {
        session: SessionNumber,
        key: Key,
        max: u64,
    },
    /// Closes the queue. Idle without one.
    Unsubscribe {
        session: SessionNumber,
        key: Key,
    },
    /// Empties a document's snapshot cache.
    Forget {
        session: SessionNumber,
        key: Key,
    },
}

/// The answer to a step.
#[derive(Drop)]
pub enum StepAnswer {
    /// The attempt is open.
    Began,
    /// The attempt has its work.
    Worked,
    /// The log has grown since the look; a new look was taken.
    Moved,
    /// A commit decided, and the attempt is closed.
    Decided(Reply),
    /// The current version and document.
    Fetched(FetchResult),
    /// A version and the document at it, or E4.
    SnapshotFetched(Result<FetchResult, Code>),
    /// The version at a moment and the document at it.
    MomentFetched(FetchResult),
    /// The version at which the queue starts, or E4 or E11.
    Subscribed(Result<u64, Code>),
    /// The entries that were read.
    Taken(Vec<Entry>),
    /// The queue is closed.
    Unsubscribed,
    /// The document's snapshots were removed from the cache.
    Forgotten,
    /// There was nothing to do.
    Idle,
    /// An allocation failed (E10), and nothing changed.
    OutOfMemory,
}

impl Step {
    /// Returns the session of the step.
    pub fn session(&self) -> SessionNumber
        ensures { result.number ≡ (plain_session_step self.now).session }
    {
        match self {
            Step::Begin { session, .. } => *session,
            Step::Work { session } => *session,
            Step::Commit { session, .. } => *session,
            Step::Fetch { session, .. } => *session,
            Step::Snapshot { session, .. } => *session,
            Step::SnapshotAtTime { session, .. } => *session,
            Step::Subscribe { session, .. } => *session,
            Step::Take { session, .. } => *session,
            Step::Unsubscribe { session, .. } => *session,
            Step::Forget { session, .. } => *session,
        }
    }
}
