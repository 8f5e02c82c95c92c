//! The documents of an audit.
ghost use Rattle.std.specs.Prelude.{◌≡◌, ◌≢◌, ◌||◌, ◌&&◌, [], IfOk, IfSome, OnOk, map, nat_eq, option_map, unwrap_or};
ghost use Rattle.sdb_oplog.specs.Decide.{IsMade};
ghost use Rattle.sdb_oplog.specs.Keys.{PlainKey, plain_key, shard_of};
ghost use Rattle.sdb_desk.specs.Machine.{is_nonempty};
ghost use Rattle.sdb_desk.specs.ShardView.{logs_of};
ghost use Rattle.sdb_desk.specs.StoredKeys.{IsKeyList};
ghost use Rattle.sdb_backend.specs.AuditModel.{audit_logs};
ghost use Rattle.sdb_backend.specs.GatheredKeys.{is_gathered};
ghost use Rattle.sdb_backend.specs.OpenQueueCount.{IsOpenQueueCount};

use crate::audit::Audit;
use sdb_desk::Shard;
use sdb_oplog::{Key, Log};
use std::alloc::AllocError;
use std::collections::BTreeSet;

impl Audit {
    /// Returns the document's log, or `None` if nothing is stored. Each log is made: an entry is
    /// what its submission stores on the entries before it.
    pub fn log(&self, key: &Key) -> Option<&Log>
        ensures log { unwrap_or (option_map (λ l. l.now) result) [] ≡ audit_logs self.now (plain_key key.now) }
        ensures nonempty { IfSome result (λ l. l.now ≢ []) }
        ensures is_made { IsMade (audit_logs self.now (plain_key key.now)) }
    {
        self.shards[key.shard()].shard.log(key)
    }

    /// Returns the keys of all documents with entries, each once, by the bytes of the collection
    /// and then of the id.
    ///
    /// # Errors
    ///
    /// [`AllocError`] if an allocation fails.
    pub fn documents(&self) -> Result<Vec<Key>, AllocError>
        ensures { IfOk result (λ keys. IsKeyList (audit_logs self.now) (map plain_key keys.items)) }
    {
        let mut all = BTreeSet::new(self.alloc);
        for (number, held) in self.shards.iter().enumerate() {
            gather_keys(&mut all, &held.shard, number)?;
        }
        all.into_iter().collect(self.alloc)
    }

    /// Returns the number of queues that are still open in all shards, at most the greatest `u64`.
    /// It doesn't allocate.
    pub fn queues(&self) -> u64
        ensures { IsOpenQueueCount self.now result }
    {
        let mut count: u64 = 0;
        for held in self.shards.iter() {
            count = count.saturating_add(held.shard.queues());
        }
        count
    }
}

// Adds the keys of the shard's documents that belong to its number.
fn gather_keys(all: &mut BTreeSet<Key>, shard: &Shard, number: usize) -> Result<(), AllocError>
    ensures { OnOk result ((k : PlainKey) → is_gathered all.new k ≡
        (is_gathered all.old k || (nat_eq (shard_of k) number && is_nonempty (logs_of shard.now k)))) }
{
    for key in shard.documents()? {
        if key.shard() == number {
            all.insert(key)?;
        }
    }
    Ok(())
}
