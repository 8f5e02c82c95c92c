//! The list of the entries of a shard that are to be saved.
ghost use Rattle.std.specs.Prelude.{◌≡◌, IfOk};
ghost use Rattle.sdb_oplog.specs.Keys.{PlainKey, plain_key};
ghost use Rattle.sdb_desk.specs.ReplyView.{plain_reply};
ghost use Rattle.sdb_desk.specs.View.{outcome_of_decision};
ghost use Rattle.sdb_backend.specs.UnsavedEntries.{unsaved_of, HasRoom, IsPlaceFor, ListsEntry, UnsavedAfterReply, UnsavedAfterOutcome};

use crate::shard_value::Held;
use sdb_desk::{CommitDecision, Outcome, Reply, Work};
use sdb_oplog::Key;
use std::alloc::AllocError;

/// The place of an entry: the key of its document, and its version.
#[derive(Drop)]
pub struct EntryAt {
    pub key: Key,
    pub version: u64,
}

impl Held {
    // Reserves a place for an entry of a key, if entries are listed. Returns the key of the place. A
    // full backend has no place.
    pub(crate) fn reserve_place(
        &mut self,
        key: &Key,
        is_full: bool,
    ) -> Result<Option<Key>, AllocError>
        ensures shard { self.new.shard ≡ self.old.shard }
        ensures unsaved { unsaved_of self.new ≡ unsaved_of self.old }
        ensures room { IfOk result (λ place. HasRoom place self.new.unsaved) }
        ensures place { IfOk result (λ place. IsPlaceFor (plain_key key.now) place self.new.unsaved) }
    {
        if is_full {
            return Err(AllocError);
        }
        let Some(entries) = &mut self.unsaved else {
            return Ok(None);
        };
        entries.reserve(1)?;
        Ok(Some(key.try_clone()?))
    }

    // Lists the entry at a version in its place, if entries are listed.
    pub(crate) fn list_entry(&mut self, place: Option<Key>, version: u64)
        requires { HasRoom place self.old.unsaved }
        ensures shard { self.new.shard ≡ self.old.shard }
        ensures listed { (k : PlainKey) → IsPlaceFor k place self.old.unsaved
            → ListsEntry k version (unsaved_of self.old) (unsaved_of self.new) }
    {
        let Some(key) = place else {
            return;
        };
        let Some(entries) = &mut self.unsaved else {
            return;
        };
        let Ok(()) = entries.push(EntryAt { key, version }) else {
            unreachable!();
        };
    }

    // Lists the entry of a submission in its place, if it was stored.
    pub(crate) fn list_reply(&mut self, place: Option<Key>, reply: &Reply)
        requires { HasRoom place self.old.unsaved }
        ensures shard { self.new.shard ≡ self.old.shard }
        ensures listed { (k : PlainKey) → IsPlaceFor k place self.old.unsaved
            → UnsavedAfterReply k (plain_reply reply.now) (unsaved_of self.old) (unsaved_of self.new) }
    {
        if let Reply::Stored { v, .. } = reply {
            self.list_entry(place, *v);
        }
    }

    // Lists the entry of a work in its place, if the decision stored it.
    pub(crate) fn list_decision(
        &mut self,
        place: Option<Key>,
        _work: &Work,
        decision: &CommitDecision,
    )
        requires { HasRoom place self.old.unsaved }
        ensures shard { self.new.shard ≡ self.old.shard }
        ensures listed { (k : PlainKey) → IsPlaceFor k place self.old.unsaved
            → UnsavedAfterOutcome k (outcome_of_decision _work.now decision.now)
            (unsaved_of self.old) (unsaved_of self.new) }
    {
        match decision {
            CommitDecision::Store { v } => self.list_entry(place, *v),
            CommitDecision::Reply(Outcome::Decided(reply)) => self.list_reply(place, reply),
            CommitDecision::Reply(Outcome::Moved(_)) => {}
        }
    }
}
