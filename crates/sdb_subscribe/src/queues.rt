//! All queues of one document.
ghost use Rattle.std.specs.Prelude.{◌≡◌, ◌∷◌, ◌++◌, ◌<◌, ℕ, List, [], length, true, Some, None, Ok, Err, IfOk, IfErr, OnOk, OnErr, option_map, unwrap_or, nat_eq};
ghost use Rattle.std.specs.List.{IsDistinct};
ghost use Rattle.std.specs.Map.{keys_of, remove_entry};
ghost use Rattle.sdb_oplog.specs.Plain.{PlainEntry};
ghost use Rattle.sdb_oplog.specs.Refusal.{IsRefusalOrOutOfMemory};
ghost use Rattle.sdb_oplog.specs.declared.codes.Code.TheVariants.{E11};
ghost use Rattle.sdb_subscribe.specs.Queue.{open_queue, queue_at, take_result, queues_after_take, take_result_by, remove_queue, remove_queue_by, is_open_by, queue_ids, AreBelowNext};
ghost use Rattle.sdb_subscribe.specs.Ring.{without_rings, queues_without_rings, ring_at, AreRingsOfLog, IsPushed, ArePushed, open_ringed_queue, ringed_queues_after_take, ringed_queues_after_take_by, remove_ringed_queue_by};

use crate::queue::Queue;
use sdb_oplog::{Code, Entry, Log};
use std::alloc::{AllocError, Global};
use std::collections::BTreeMap;
use std::marker::Model;

/// The number of a queue, unique in its document.
#[derive(Clone, Copy, PartialEq, Eq, PartialOrd, Ord, Debug, Drop)]
pub struct SubId {
    number: u64,
}

impl Model for SubId {
    ghost use Rattle.std.specs.Prelude.{ℕ};

    ghost Value = { ℕ };

    ghost view = { λ s. s.number };

    ghost inverse = { λ n. record { number = n } };
}

/// The queues of one document: the next number, and each open queue with its position and its ring
/// buffer of at most 64 entries. A call that reads the log borrows it.
///
/// ```
/// let mut queues = Queues::new(alloc);
/// let id = queues.open(1, 0)?;
/// queues.push_entry(&entry);
/// assert_eq!(rt; (queues.ringed(id), queues.owner(id)), (Some(1), Some(1)));
/// ```
#[derive(Drop)]
pub struct Queues {
    alloc: Global,
    next: u64,
    queues: BTreeMap<u64, Queue>,
}

impl Model for Queues {
    ghost use Rattle.std.specs.Map.{keys_of};
    ghost use Rattle.sdb_subscribe.specs.Queue.{AreBelowNext};
    ghost use Rattle.sdb_subscribe.specs.Ring.{RingedQueues};
    ghost use Rattle.sdb_subscribe.specs.Coding.{ringed_queues_code};

    ghost Value = { RingedQueues };

    ghost coded = { ringed_queues_code };

    ghost view = { λ q. record { next = q.next; queues = q.queues.entries } };

    ghost invariant = { λ q. AreBelowNext q.next (keys_of q.queues.entries) };
}

impl Queues {
    /// Creates an empty set of queues. It keeps the allocator and doesn't allocate.
    pub fn new(alloc: Global) -> Queues
        ensures { result ≡ record { next = 0; queues = [] } }
    {
        Queues {
            alloc,
            next: 0,
            queues: BTreeMap::new(alloc),
        }
    }

    /// Returns the number of the next queue, which is the count of numbers issued.
    pub fn next_id(&self) -> u64
        ensures next_id { result ≡ (without_rings self.now).next }
        ensures below { AreBelowNext (without_rings self.now).next (queue_ids (without_rings self.now).queues) }
    {
        self.next
    }

    /// Returns the number of open queues. It doesn't allocate.
    pub fn count(&self) -> u64
        ensures count { result ≡ length (without_rings self.now).queues }
        ensures distinct { IsDistinct nat_eq (queue_ids (without_rings self.now).queues) }
    {
        self.queues.len() as u64
    }

    /// Returns the number of entries in the queue's ring buffer, at most 64, or `None` if no open
    /// queue has this number. It doesn't allocate.
    pub fn ringed(&self, id: SubId) -> Option<u64>
        ensures { result ≡ option_map length (ring_at id self.now.queues) }
    {
        match self.queues.get(&id.number) {
            Some(queue) => Some(queue.ring_entries()),
            None => None,
        }
    }

    /// Opens a queue for an owner number from a version on, which may be above the log's length.
    /// Its ring buffer is empty.
    ///
    /// # Errors
    ///
    /// [`Code::E11`] if all 18,446,744,073,709,551,615 queue numbers are used up, [`Code::E10`] if
    /// an allocation fails. The queues are then unchanged.
    pub fn open(&mut self, by: u64, from: u64) -> Result<SubId, Code>
        ensures ok { IfOk result (λ id. (id ≡ self.old.next)
            × (self.new ≡ open_ringed_queue by from self.old)) }
        ensures open { IfOk result (λ id. queue_at id (without_rings self.new).queues
            ≡ Some (record { start = from; taken = 0; by = by })) }
        ensures full { self.old.next ≡ 18446744073709551615 → result ≡ Err E11 }
        ensures err { IfErr result (λ code. (self.new ≡ self.old)
            × IsRefusalOrOutOfMemory (open_queue by from (without_rings self.old)) code) }
        ensures rings_of_log { (log : List PlainEntry) → AreRingsOfLog log self.old.queues
            → AreRingsOfLog log self.new.queues }
    {
        let number = self.next;
        if number == u64::MAX {
            return Err(Code::E11);
        }
        let queue = Queue::new(self.alloc, by, from)?;
        match self.queues.insert(number, queue) {
            Ok(_) => {}
            Err(error) => return Err(Code::from(AllocError::from(error))),
        }
        self.next = number + 1;
        Ok(SubId { number })
    }

    /// Pushes the newest entry of the log to each ring buffer, unless its queue's position is after
    /// the entry. A full ring buffer drops its oldest entry. If the clone fails to allocate, that
    /// ring buffer is emptied and its queue reads from the log.
    pub fn push_entry(&mut self, entry: &Entry)
        ensures pushed { ArePushed entry.now self.old.queues self.new.queues }
        ensures queues_unchanged { without_rings self.new ≡ without_rings self.old }
        ensures rings_of_log { (log : List PlainEntry) → AreRingsOfLog log self.old.queues
            → entry.now.version ≡ length log
            → AreRingsOfLog (log ++ entry.now ∷ []) self.new.queues }
    {
        self.queues.retain(
            |_number: &u64, queue: &mut Queue| -> bool
                ensures kept { result ≡ true }
                ensures noted { IsPushed entry.entry.now queue.old queue.new }
            {
                queue.push_entry(entry);
                true
            },
        );
    }

    /// Returns the next entries of a queue, at most `max`; fewer if the log ends before. Returns
    /// `None` if no open queue has this number, or if it belongs to another number than `by`.
    /// Without pending entries it doesn't allocate.
    ///
    /// # Errors
    ///
    /// [`AllocError`] if an allocation fails. The queues are then unchanged.
    pub fn take(
        &mut self,
        by: u64,
        log: &Log,
        id: SubId,
        max: u64,
    ) -> Result<Option<Vec<Entry>>, AllocError>
        requires { AreRingsOfLog log.now self.old.queues }
        ensures ok { IfOk result (λ v. (option_map (λ es. es.items) v
            ≡ take_result_by log.now by id max (without_rings self.old).queues)
            × (self.new ≡ record self.old {
              queues = ringed_queues_after_take_by log.now by id max self.old.queues;
            })) }
        ensures err { OnErr result (self.new ≡ self.old) }
        ensures memory { OnErr result
            (0 < length (unwrap_or (take_result_by log.now by id max (without_rings self.old).queues) [])) }
        ensures rings_of_log { AreRingsOfLog log.now self.new.queues }
    {
        if !self.owns(by, id) {
            return Ok(None);
        }
        self.take_as_owner(log, id, max)
    }

    // Reads the next entries of a queue of any owner.
    fn take_as_owner(
        &mut self,
        log: &Log,
        id: SubId,
        max: u64,
    ) -> Result<Option<Vec<Entry>>, AllocError>
        requires { AreRingsOfLog log.now self.old.queues }
        ensures entries { IfOk result
            (λ v. option_map (λ es. es.items) v ≡ take_result log.now id max (without_rings self.old).queues) }
        ensures queues_after { OnOk result ((without_rings self.new).queues
            ≡ queues_after_take log.now id max (without_rings self.old).queues) }
        ensures err { OnErr result (self.new.queues ≡ self.old.queues) }
        ensures memory { OnErr result (0 < length (unwrap_or (take_result log.now id max
            (without_rings self.old).queues) [])) }
        ensures next_unchanged { self.new.next ≡ self.old.next }
        ensures rings { OnOk result (self.new.queues ≡ ringed_queues_after_take log.now id max self.old.queues) }
        ensures rings_of_log { AreRingsOfLog log.now self.new.queues }
    {
        take_from_queue(&mut self.queues, self.alloc, log, id.number, max)
    }

    /// Closes a queue. It has no effect if no open queue has this number, or if it belongs to
    /// another number than `by`. It doesn't allocate.
    pub fn close(&mut self, by: u64, id: SubId)
        ensures queues { (without_rings self.new).queues ≡ remove_queue_by by id (without_rings self.old).queues }
        ensures removed { is_open_by by id (without_rings self.old).queues ≡ true
            → queue_at id (without_rings self.new).queues ≡ None }
        ensures next_unchanged { self.new.next ≡ self.old.next }
        ensures rings { self.new.queues ≡ remove_ringed_queue_by by id self.old.queues }
        ensures rings_of_log { (log : List PlainEntry) → AreRingsOfLog log self.old.queues
            → AreRingsOfLog log self.new.queues }
    {
        if self.owns(by, id) {
            self.remove(id);
        }
    }

    /// Returns the owner number of an open queue, or `None` if no open queue has this number. It
    /// doesn't allocate.
    pub fn owner(&self, id: SubId) -> Option<u64>
        ensures { result ≡ option_map (λ w. w.by) (queue_at id (without_rings self.now).queues) }
    {
        match self.queues.get(&id.number) {
            Some(queue) => Some(queue.by()),
            None => None,
        }
    }

    // Returns whether the queue is open and belongs to the number.
    fn owns(&self, by: u64, id: SubId) -> bool
        ensures { result ≡ is_open_by by id (without_rings self.now).queues }
    {
        match self.owner(id) {
            Some(owner) => owner == by,
            None => false,
        }
    }

    // Closes a queue of any owner.
    fn remove(&mut self, id: SubId)
        ensures removed { queue_at id (without_rings self.new).queues ≡ None }
        ensures queues { (without_rings self.new).queues ≡ remove_queue id (without_rings self.old).queues }
        ensures next_unchanged { self.new.next ≡ self.old.next }
        ensures rings { self.new.queues ≡ remove_entry (nat_eq id) self.old.queues }
        ensures rings_of_log { (log : List PlainEntry) → AreRingsOfLog log self.old.queues
            → AreRingsOfLog log self.new.queues }
    {
        drop(self.queues.remove(&id.number));
        release_if_empty(&mut self.queues);
    }
}

// Frees the map's memory if it is empty: a map keeps its allocation until it is cleared.
fn release_if_empty(queues: &mut BTreeMap<u64, Queue>)
    ensures { queues.new.entries ≡ queues.old.entries }
{
    if queues.is_empty() {
        queues.clear();
    }
}

// Reads the next entries of the queue of this number. If an allocation fails, all is unchanged.
fn take_from_queue(
    queues: &mut BTreeMap<u64, Queue>,
    alloc: Global,
    log: &Log,
    number: u64,
    max: u64,
) -> Result<Option<Vec<Entry>>, AllocError>
    requires { AreRingsOfLog log.now queues.old.entries }
    ensures entries { IfOk result
        (λ v. option_map (λ es. es.items) v
        ≡ take_result log.now number max (queues_without_rings queues.old.entries)) }
    ensures rings { OnOk result (queues.new.entries ≡ ringed_queues_after_take log.now number max queues.old.entries) }
    ensures err { OnErr result (queues.new.entries ≡ queues.old.entries) }
    ensures memory { OnErr result
        (0 < length (unwrap_or (take_result log.now number max (queues_without_rings queues.old.entries)) [])) }
    ensures numbers { keys_of queues.new.entries ≡ keys_of queues.old.entries }
{
    match queues.get_mut(&number) {
        Some(queue) => match queue.take(alloc, log, max) {
            Ok(entries) => Ok(Some(entries)),
            Err(error) => Err(error),
        },
        None => Ok(None),
    }
}
