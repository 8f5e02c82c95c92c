//! One queue and its ring buffer.
ghost use Rattle.std.specs.Prelude.{◌≡◌, ◌⊎◌, ◌+◌, ◌-◌, ◌<◌, ◌≤◌, [], ◌++◌, true, length, take, drop, vec_len, vec_capacity, IfOk, OnOk, OnErr};
ghost use Rattle.circular_buffer.specs.Buffer.{buffer};
ghost use Rattle.sdb_subscribe.specs.Queue.{queue, pending_entries};
ghost use Rattle.sdb_subscribe.specs.Ring.{IsRingOfLog, IsPushed, advance_ringed_queue};

use circular_buffer::HeapCircularBuffer;
use sdb_oplog::{Entry, Log};
use sdb_value::MAX;
use std::alloc::{AllocError, Global};
use std::marker::Model;

// First capacity of a ring buffer in entries, its factor of growth and its maximum.
const FIRST_CAPACITY: usize = 4;

const GROWTH: usize = 4;

const RING_CAPACITY: usize = 64;

// A queue: its start version, the number of entries read, its owner number, and a ring buffer of
// the next entries.
#[derive(Drop)]
pub(crate) struct Queue {
    start: u64,
    taken: u64,
    by: u64,
    ring: HeapCircularBuffer<Entry>,
}

impl Model for Queue {
    ghost use Rattle.std.specs.Prelude.{◌+◌, ◌^◌, ◌<◌, ◌≤◌};
    ghost use Rattle.sdb_subscribe.specs.Ring.{RingedQueue};
    ghost use Rattle.sdb_subscribe.specs.Coding.{ringed_queue_code};

    ghost Value = { RingedQueue };

    ghost coded = { ringed_queue_code };

    ghost view = { λ q. record {
      queue = record { start = q.start; taken = q.taken; by = q.by };
      ring = q.ring.items;
    } };

    // The entries read were in a log, so the sum of both fits in 64 bits.
    ghost invariant = { λ q. (q.start + q.taken < 2 ^ 64) × (q.ring.capacity ≤ 64) };
}

impl Queue {
    // Creates a queue for this owner from this version on. Its ring buffer is empty and takes no
    // memory before the first entry.
    pub(crate) fn new(alloc: Global, by: u64, start: u64) -> Result<Queue, AllocError>
        ensures { IfOk result
            (λ q. q ≡ record { queue = record { start = start; taken = 0; by = by }; ring = [] }) }
    {
        let ring = HeapCircularBuffer::with_capacity(alloc, 0)?;
        Ok(Queue {
            start,
            taken: 0,
            by,
            ring,
        })
    }

    // Returns the owner number.
    pub(crate) fn by(&self) -> u64
        ensures { result ≡ self.now.queue.by }
    {
        self.by
    }

    // Returns the number of entries in the ring buffer.
    pub(crate) fn ring_entries(&self) -> u64
        ensures { result ≡ length self.now.ring }
    {
        self.ring.len() as u64
    }

    // Pushes the newest entry of the log, unless the position is after it. If an allocation fails,
    // the ring buffer is emptied.
    pub(crate) fn push_entry(&mut self, entry: &Entry)
        ensures { IsPushed entry.now self.old self.new }
    {
        if entry.version() < self.start + self.taken {
            return;
        }
        match entry.try_clone() {
            Ok(copy) if make_room(&mut self.ring) => drop(self.ring.push_back(copy)),
            _ => self.ring.clear(),
        }
    }

    // Reads the next entries, at most `max`: clones from the log up to the ring buffer, then the
    // entries of the ring buffer. Without pending entries it doesn't allocate. If an allocation
    // fails, the queue is unchanged.
    pub(crate) fn take(
        &mut self,
        alloc: Global,
        log: &Log,
        max: u64,
    ) -> Result<Vec<Entry>, AllocError>
        requires { IsRingOfLog log.now self.old }
        ensures entries { IfOk result (λ v. v.items ≡ pending_entries log.now max self.old.queue) }
        ensures moved { OnOk result (self.new ≡ advance_ringed_queue log.now max self.old) }
        ensures err { OnErr result (self.new ≡ self.old) }
        ensures memory { OnErr result (0 < length (pending_entries log.now max self.old.queue)) }
    {
        let position = self.start + self.taken;
        let waiting = entries_from_log(log, position, max);
        let count = waiting.len();
        if count == 0 {
            return Ok(Vec::new(alloc));
        }
        let ring_from = log.len() - self.ring.len() as u64;
        let before = ((ring_from - position) as usize).min(count);
        let mut entries = clone_entries(alloc, &waiting[..before], count)?;
        drain_ring(&mut self.ring, &mut entries, count - before);
        self.taken += count as u64;
        Ok(entries)
    }
}

// Grows a full ring buffer, unless it has its maximum capacity. Returns `false` if it has to grow and
// the allocation fails.
fn make_room(ring: &mut HeapCircularBuffer<Entry>) -> bool
    requires { ring.old.capacity ≤ 64 }
    ensures items { ring.new.items ≡ ring.old.items }
    ensures bound { ring.new.capacity ≤ 64 }
    ensures room { result ≡ true → (length ring.new.items < ring.new.capacity) ⊎ (ring.new.capacity ≡ 64) }
{
    let capacity = ring.capacity();
    if ring.len() < capacity || capacity == RING_CAPACITY {
        return true;
    }
    let grown = (capacity * GROWTH).clamp(FIRST_CAPACITY, RING_CAPACITY);
    ring.resize(grown).is_ok()
}

// Returns the first `max` entries from version `from` on.
fn entries_from_log(log: &Log, from: u64, max: u64) -> &[Entry]
    ensures entries { result.now ≡ queue log.now from max }
    ensures in_range { 0 < length result.now → from + length result.now ≤ length log.now }
    ensures bound { length log.now ≤ MAX }
{
    let entries = log.entries_from(from.min(log.len()));
    let count = max.min(entries.len() as u64);
    &entries[..count as usize]
}

// Clones the entries into a vector with capacity for `room` entries.
fn clone_entries(alloc: Global, entries: &[Entry], room: usize) -> Result<Vec<Entry>, AllocError>
    requires { length entries.now ≤ room }
    ensures copies { IfOk result (λ v. v.items ≡ entries.now) }
    ensures capacity { IfOk result (λ v. room ≤ vec_capacity v) }
{
    let mut copies = Vec::with_capacity(alloc, room)?;
    for entry in entries {
        copies.push(entry.try_clone()?)?;
    }
    Ok(copies)
}

// Moves the first `count` entries of the ring buffer to the vector, which has capacity for them.
fn drain_ring(ring: &mut HeapCircularBuffer<Entry>, entries: &mut Vec<Entry>, count: usize)
    requires held { count ≤ length ring.old.items }
    requires capacity { vec_len entries.old + count ≤ vec_capacity entries.old }
    ensures entries { entries.new.items ≡ entries.old.items ++ take count ring.old.items }
    ensures ring { ring.new ≡ buffer (drop count ring.old.items) ring.old.capacity }
{
    for _moved in 0..count {
        let Some(entry) = ring.pop_front() else {
            unreachable!();
        };
        let Ok(()) = entries.push(entry) else {
            unreachable!();
        };
    }
}
