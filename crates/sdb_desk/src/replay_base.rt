//! Replay bases: the parts of an older snapshot, to be replayed without the shard.
ghost use Rattle.std.specs.Prelude.{◌≡◌, ◌<◌, [], true, length, is_some, Some, None, IfOk, IfErr, OnErr, option_map};
ghost use Rattle.sdb_value.specs.View.{value_of};
ghost use Rattle.sdb_oplog.specs.Snap.{snap_from};
ghost use Rattle.sdb_desk.specs.View.{plain_replay_base};
ghost use Rattle.sdb_oplog.specs.declared.codes.Code.TheVariants.{E10};

use crate::rebase_size::component_count;
use sdb_oplog::{Code, Entry};
use sdb_value::Json;
use std::alloc::Global;

/// The parts of the document at a version: a snapshot at or before it, and the entries from there
/// on. All parts are shared with the shard.
#[derive(Drop)]
pub struct ReplayBase {
    /// The version of the snapshot.
    pub version: u64,
    /// The document at that version.
    pub snapshot: Option<Json>,
    /// The entries from that version on.
    pub entries: Vec<Entry>,
}

impl ReplayBase {
    /// Applies the entries to a copy-on-write copy of the snapshot. The result is frozen.
    ///
    /// # Errors
    ///
    /// [`Code::E10`] if an allocation fails. Without entries it doesn't fail.
    pub fn replay(self, alloc: Global) -> Result<Option<Json>, Code>
        requires { is_some (snap_from (option_map value_of self.snapshot) self.entries.items) ≡
            true }
        ensures ok { IfOk result
            (λ d. snap_from (option_map value_of self.snapshot) self.entries.items ≡
            Some (option_map value_of d)) }
        ensures err { IfErr result (λ code. code ≡ E10) }
        ensures memory { OnErr result (0 < length self.entries.items) }
    {
        let ReplayBase {
            snapshot,
            entries,
            ..
        } = self;
        if entries.is_empty() {
            return Ok(snapshot);
        }
        let mut replayed = replay_entries(alloc, snapshot, entries.as_slice())?;
        if let Some(value) = &mut replayed {
            value.freeze(alloc)?;
        }
        Ok(replayed)
    }

    /// Returns the number of components of the entries. A create, a delete and an edit without
    /// components count as one.
    pub fn component_count(&self) -> usize {
        let mut count: usize = 0;
        for entry in &self.entries {
            count = count.saturating_add(component_count(entry.content()).max(1));
        }
        count
    }
}

// Returns the replay base of an empty log.
pub(crate) fn empty_replay_base(alloc: Global) -> ReplayBase
    ensures { plain_replay_base result ≡ record { version = 0; snapshot = None; entries = [] } }
{
    ReplayBase {
        version: 0,
        snapshot: None,
        entries: Vec::new(alloc),
    }
}

// Applies the entries to the snapshot in order.
fn replay_entries(
    alloc: Global,
    snapshot: Option<Json>,
    entries: &[Entry],
) -> Result<Option<Json>, Code>
    requires { is_some (snap_from (option_map value_of snapshot) entries.now) ≡ true }
    ensures ok { IfOk result (λ d. snap_from (option_map value_of snapshot) entries.now
        ≡ Some (option_map value_of d)) }
    ensures err { IfErr result (λ code. code ≡ E10) }
{
    let mut replayed = snapshot;
    for entry in entries {
        entry.content().apply_to(alloc, &mut replayed)?;
    }
    Ok(replayed)
}
