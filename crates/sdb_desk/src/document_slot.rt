//! The slot of a key: a document, queues, or both.
ghost use Rattle.std.specs.Prelude.{◌≡◌, ◌≤◌, ◌<◌, ◌++◌, ◌∷◌, List, [], length, take, is_some, true, IfOk, IfErr, IfSome, OnOk, OnErr, Ok, Err, Some, None, option_map, unwrap_or};
ghost use Rattle.sdb_value.specs.Uniqueness.{is_frozen};
ghost use Rattle.sdb_value.specs.View.{value_of};
ghost use Rattle.sdb_oplog.specs.Decide.{IsMade};
ghost use Rattle.sdb_oplog.specs.Plain.{PlainEntry};
ghost use Rattle.sdb_oplog.specs.Refusal.{IsRefusalOrOutOfMemory};
ghost use Rattle.sdb_oplog.specs.Snap.{document_of, snap};
ghost use Rattle.sdb_oplog.specs.declared.codes.Code.TheVariants.{E10};
ghost use Rattle.sdb_subscribe.specs.Queue.{open_queue, queue_at, take_result_by, is_open_by};
ghost use Rattle.sdb_subscribe.specs.Ring.{without_rings, AreRingsOfLog, ArePushed, open_ringed_queue, ringed_queues_after_take_by, remove_ringed_queue_by};
ghost use Rattle.sdb_desk.specs.DocumentModel.{DocumentAfterStore, empty_document};
ghost use Rattle.sdb_oplog.specs.DecidedLog.{WillStore};
ghost use Rattle.sdb_desk.specs.Machine.{is_nonempty};
ghost use Rattle.sdb_desk.specs.Reads.{CacheAfterRead, CacheAfterOffer, IsReplayBaseUpTo, IsCachedReplayBase, CacheAfterUse};
ghost use Rattle.sdb_desk.specs.SlotModel.{empty_slot, slot_with_cache, slot_with_queues, slot_with_open_queues, document_or_empty};
ghost use Rattle.sdb_desk.specs.StateChanges.{SlotAfterStore, OnlySlotCacheChanges};
ghost use Rattle.sdb_desk.specs.View.{plain_replay_base};

use crate::document::Document;
use crate::replay_base::{ReplayBase, empty_replay_base};
use sdb_oplog::{Code, Entry, Log, Moment, RebaseResult, Submission};
use sdb_subscribe::{Queues, SubId};
use sdb_value::Json;
use std::alloc::{AllocError, Global};
use std::marker::Model;

// A document and its queues. The queues' ring buffers hold entries of its log.
#[derive(Drop)]
pub(crate) struct DocumentSlot {
    document: Option<Box<Document>>,
    queues: Queues,
}

impl Model for DocumentSlot {
    ghost use Rattle.sdb_subscribe.specs.Ring.{AreRingsOfLog};
    ghost use Rattle.sdb_desk.specs.Coding.{slot_code};
    ghost use Rattle.sdb_desk.specs.SlotModel.{PlainSlot, document_or_empty};

    ghost Value = { PlainSlot };

    ghost coded = { slot_code };

    ghost view = { λ t. record { document = document_or_empty t.document; queues = t.queues } };

    ghost invariant = { λ t. AreRingsOfLog (document_or_empty t.document).log t.queues.queues };
}

impl DocumentSlot {
    // Creates a slot without entries and queues.
    pub(crate) fn new(alloc: Global) -> DocumentSlot
        ensures { result ≡ empty_slot }
    {
        DocumentSlot {
            document: None,
            queues: Queues::new(alloc),
        }
    }

    // Returns the document, if it has entries.
    pub(crate) fn document(&self) -> Option<&Document>
        ensures { unwrap_or (option_map (λ d. d.now) result) empty_document ≡ self.now.document }
    {
        match &self.document {
            Some(document) => Some(document),
            None => None,
        }
    }

    // Returns whether the log has entries.
    pub(crate) fn has_document(&self) -> bool
        ensures { result ≡ is_nonempty self.now.document.log }
    {
        version_of(&self.document) != 0
    }

    // Returns the queues.
    pub(crate) fn queues(&self) -> &Queues
        ensures { result.now ≡ self.now.queues }
    {
        &self.queues
    }

    // Appends a submission with its rebased content and the new value, and pushes the entry to the
    // ring buffers.
    pub(crate) fn append(
        &mut self,
        alloc: Global,
        submission: Submission,
        now: Moment,
        rebased: RebaseResult,
    ) -> Result<(), AllocError>
        requires { WillStore self.old.document.log submission rebased.content
            (option_map value_of rebased.document) }
        ensures ok { OnOk result (SlotAfterStore submission now self.old self.new) }
        ensures err { OnErr result (self.new ≡ self.old) }
    {
        let version = version_of(&self.document);
        append_to_document(&mut self.document, alloc, submission, now, rebased)?;
        push_to_rings(&mut self.queues, &self.document, version);
        Ok(())
    }

    // Returns a clone of the current value, after freezing it.
    pub(crate) fn freeze(&mut self, alloc: Global) -> Result<Option<Json>, AllocError>
        ensures copy { IfOk result
            (λ d. option_map value_of d ≡ document_of self.old.document.log) }
        ensures frozen { IfOk result (λ d. IfSome d (λ v. is_frozen v ≡ true)) }
        ensures memory { OnErr result (is_some (document_of self.old.document.log) ≡ true) }
        ensures unchanged { self.new ≡ self.old }
    {
        match &mut self.document {
            Some(document) => document.freeze(alloc),
            None => Ok(None),
        }
    }

    // Returns the document at a version, replayed from the nearest cached snapshot.
    pub(crate) fn snapshot_at(&mut self, alloc: Global, version: u64) -> Result<Option<Json>, Code>
        requires { version ≤ length self.old.document.log }
        ensures snap { IfOk result
            (λ d. snap (take version self.old.document.log) ≡ Some (option_map value_of d)) }
        ensures err { IfErr result (λ code. code ≡ E10) }
        ensures memory { OnErr result (0 < version) }
        ensures cache { OnlySlotCacheChanges (CacheAfterRead self.old.document.log version result)
            self.old self.new }
    {
        match &mut self.document {
            Some(document) => document.snapshot_at(alloc, version),
            None => Ok(None),
        }
    }

    // Returns the replay base of a version, with at most `max` entries.
    pub(crate) fn replay_base(
        &mut self,
        alloc: Global,
        version: u64,
        max: u64,
    ) -> Result<ReplayBase, AllocError>
        requires { version ≤ length self.old.document.log }
        ensures replay_base { IfOk result
            (λ l. IsReplayBaseUpTo self.old.document.log version max (plain_replay_base l)) }
        ensures cached_base { IfOk result
            (λ l. IsCachedReplayBase self.old.document.log self.old.document.cache version
            (plain_replay_base l)) }
        ensures memory { OnErr result (0 < version) }
        ensures cache { OnlySlotCacheChanges (CacheAfterUse self.old.document.log version)
            self.old self.new }
    {
        match &mut self.document {
            Some(document) => document.replay_base(alloc, version, max),
            None => Ok(empty_replay_base(alloc)),
        }
    }

    // Caches the document at a version, unless it is absent or an allocation fails.
    pub(crate) fn offer(&mut self, alloc: Global, version: u64, snapshot: Option<&Json>)
        requires bound { version ≤ length self.old.document.log }
        requires snapshot { document_of (take version self.old.document.log)
            ≡ option_map (λ v. value_of v.now) snapshot }
        ensures is_made { IsMade self.old.document.log }
        ensures cache { OnlySlotCacheChanges
            (CacheAfterOffer version (option_map (λ v. value_of v.now) snapshot.entry))
            self.old self.new }
    {
        if let Some(document) = &mut self.document {
            document.offer(alloc, version, snapshot);
        }
    }

    // Empties the snapshot cache.
    pub(crate) fn forget(&mut self)
        ensures { self.new ≡ slot_with_cache self.old [] }
    {
        if let Some(document) = &mut self.document {
            document.forget();
        }
    }

    // Opens a queue for an owner number.
    pub(crate) fn open(&mut self, by: u64, start: u64) -> Result<SubId, Code>
        ensures id { IfOk result (λ id. id ≡ (without_rings self.old.queues).next) }
        ensures ok { OnOk result (self.new ≡
            slot_with_queues self.old (open_ringed_queue by start self.old.queues)) }
        ensures open { IfOk result
            (λ id. queue_at id (without_rings self.new.queues).queues ≡
            Some (record { start = start; taken = 0; by = by })) }
        ensures err { IfErr result (λ code. IsRefusalOrOutOfMemory (open_queue by start
            (without_rings self.old.queues)) code) }
        ensures unchanged_on_err { OnErr result (self.new ≡ self.old) }
    {
        self.queues.open(by, start)
    }

    // Reads the next entries of the owner's queue.
    pub(crate) fn take(
        &mut self,
        alloc: Global,
        by: u64,
        id: SubId,
        max: u64,
    ) -> Result<Option<Vec<Entry>>, AllocError>
        ensures entries { IfOk result (λ v. option_map (λ es. es.items) v ≡
            take_result_by self.old.document.log by id max (without_rings self.old.queues).queues) }
        ensures ok { OnOk result (self.new ≡ slot_with_open_queues self.old
            (ringed_queues_after_take_by self.old.document.log by id max self.old.queues.queues)) }
        ensures err { OnErr result (self.new ≡ self.old) }
        ensures memory { OnErr result
            (0 < length (unwrap_or
            (take_result_by self.old.document.log by id max (without_rings self.old.queues).queues)
            [])) }
    {
        match &self.document {
            Some(document) => self.queues.take(by, document.log(), id, max),
            None => self.queues.take(by, &Log::new(alloc), id, max),
        }
    }

    // Closes the owner's queue.
    pub(crate) fn close(&mut self, by: u64, id: SubId)
        ensures closed { self.new ≡ slot_with_open_queues self.old
            (remove_ringed_queue_by by id self.old.queues.queues) }
        ensures removed { is_open_by by id (without_rings self.old.queues).queues ≡ true →
            queue_at id (without_rings self.new.queues).queues ≡ None }
    {
        self.queues.close(by, id)
    }
}

// Returns the number of entries of the document.
fn version_of(document: &Option<Box<Document>>) -> u64
    ensures { result ≡ length (document_or_empty document.now).log }
{
    match document {
        Some(document) => document.log().len(),
        None => 0,
    }
}

// Appends a submission to the document, or creates the document with it.
fn append_to_document(
    document: &mut Option<Box<Document>>,
    alloc: Global,
    submission: Submission,
    now: Moment,
    rebased: RebaseResult,
) -> Result<(), AllocError>
    requires { WillStore (document_or_empty document.old).log submission rebased.content
        (option_map value_of rebased.document) }
    ensures ok { OnOk result (DocumentAfterStore submission now
        (document_or_empty document.old) (document_or_empty document.new)) }
    ensures err { OnErr result (document_or_empty document.new ≡ document_or_empty document.old) }
{
    match document {
        Some(document) => document.append(submission, now, rebased),
        None => {
            let first = Document::with_first_entry(alloc, submission, now, rebased)?;
            *document = Some(try_box(alloc, first)?);
            Ok(())
        }
    }
}

// Moves the document to the heap.
fn try_box(alloc: Global, document: Document) -> Result<Box<Document>, AllocError>
    ensures { IfOk result (λ b. b.value ≡ document) }
{
    match Box::new(alloc, document) {
        Ok(document) => Ok(document),
        Err(error) => Err(AllocError::from(error)),
    }
}

// Pushes the entry of this version, the newest one, to the ring buffers.
fn push_to_rings(queues: &mut Queues, document: &Option<Box<Document>>, version: u64)
    ensures queues_unchanged { without_rings queues.new ≡ without_rings queues.old }
    ensures rings_of_log { (log : List PlainEntry) (entry : PlainEntry)
        → (document_or_empty document.now).log ≡ log ++ entry ∷ [] → version ≡ length log
        → entry.version ≡ length log → AreRingsOfLog log queues.old.queues
        → AreRingsOfLog (log ++ entry ∷ []) queues.new.queues }
    ensures pushed { (log : List PlainEntry) (entry : PlainEntry)
        → (document_or_empty document.now).log ≡ log ++ entry ∷ [] → version ≡ length log
        → ArePushed entry queues.old.queues queues.new.queues }
{
    if let Some(document) = document {
        if let Some(entry) = document.log().get(version) {
            queues.push_entry(entry);
        }
    }
}
