//! The loops of a run, and the threads that continue them.
use crate::loop_slot::LoopSlot;
use std::alloc::{AllocError, Global};
use std::collections::VecDeque;
use std::sync::atomic::{AtomicBool, AtomicUsize, Ordering};
use std::sync::{Mutex, Wait};
use std::thread::Parker;
use std::time::Duration;

// Longest time in seconds for which the watcher is parked.
const WATCHER_PAUSE_SECONDS: u64 = 1;

// The numbers of the loops that wait for a thread, and of the threads that wait for a loop. The thread
// that began to wait last gets the next loop: the allocator keeps the memory that a thread has freed,
// so as few threads as possible are used.
#[derive(Drop)]
struct Waiting {
    loops: VecDeque<usize>,
    threads: Vec<usize>,
}

/// The loops of a run. Each is run by one thread at a time, and any thread can continue one that is
/// in its slot. `L` is a loop, `T` a turn that has ended, and `K` the pass of a session.
#[derive(Drop)]
pub struct LoopSlots<L, T, K> {
    slots: Vec<LoopSlot<L, T>>,
    waiting: Mutex<Waiting>,
    // By the number of a thread, where it parks while it waits for a loop.
    parkers: Vec<Parker>,
    // Number of loops that haven't ended.
    running_count: AtomicUsize,
    // The passes of the loops that have ended.
    passes: Mutex<Vec<Vec<K>>>,
    // The thread that watches the slots parks here.
    watcher: Parker,
    is_watching: AtomicBool,
}

impl<L: Drop, T: Drop, K: Drop> LoopSlots<L, T, K> {
    /// Creates the slots of this number of loops, for this number of threads, of which each has at most
    /// one turn at once. Fails only if an allocation fails.
    pub fn new(
        alloc: Global,
        loops: usize,
        threads: usize,
    ) -> Result<LoopSlots<L, T, K>, AllocError> {
        let mut slots = Vec::with_capacity(alloc, loops)?;
        for _ in 0..loops {
            slots.push(LoopSlot::new(alloc, threads)?)?;
        }
        Ok(LoopSlots {
            slots,
            waiting: Mutex::new(Waiting::new(alloc, loops, threads)?),
            parkers: parkers_of(alloc, threads)?,
            running_count: AtomicUsize::new(loops),
            passes: Mutex::new(Vec::with_capacity(alloc, loops)?),
            watcher: Parker::new(),
            is_watching: AtomicBool::new(true),
        })
    }

    /// Returns the slot of a loop.
    pub fn slot(&self, number: usize) -> Option<&LoopSlot<L, T>> {
        self.slots.get(number)
    }

    /// Returns whether all loops have ended.
    pub fn have_ended(&self) -> bool {
        self.running_count.load(Ordering::SeqCst) == 0
    }

    /// Moves the loop into its slot for a turn, which is watched.
    pub fn begin_turn<W: Wait>(&self, rt: &W, slot: &LoopSlot<L, T>, event_loop: Box<L>) {
        slot.put(rt, event_loop);
        if !self.is_watching.load(Ordering::SeqCst) {
            self.is_watching.store(true, Ordering::SeqCst);
            self.watcher.unpark();
        }
    }

    /// Waits for a loop that needs a thread, and returns its number, or `None` once all have ended.
    pub fn next_loop<W: Wait>(&self, rt: &W, thread: usize) -> Option<usize> {
        let parker = self.parkers.get(thread)?;
        for _ in rt.forever() {
            if let Some(number) = self.waiting.lock(rt).next_loop(thread) {
                return Some(number);
            }
            if self.have_ended() {
                return None;
            }
            parker.park(rt);
        }
        unreachable!()
    }

    // Lets another thread continue the loop.
    fn assign<W: Wait>(&self, rt: &W, number: usize) {
        let thread = self.waiting.lock(rt).add_loop(number);
        if let Some(parker) = thread.and_then(|thread| self.parkers.get(thread)) {
            parker.unpark();
        }
    }

    // Lets another thread continue the loop if it has been in its slot since its count of moves was
    // last seen. Returns whether it was moved, or is in its slot.
    fn watch_slot<W: Wait>(
        &self,
        rt: &W,
        number: usize,
        slot: &LoopSlot<L, T>,
        seen: &mut u64,
    ) -> bool {
        let count = slot.move_count();
        let is_in_slot = count % 2 == 1;
        let is_moved = count != *seen;
        if is_in_slot && !is_moved && slot.assign() {
            self.assign(rt, number);
        }
        *seen = count;
        is_in_slot || is_moved
    }

    /// Lets another thread continue each loop that has been in its slot since the last call: its
    /// count of moves is that of `seen`. Returns whether a loop was moved, or is in its slot.
    pub fn watch<W: Wait>(&self, rt: &W, seen: &mut [u64]) -> bool {
        let mut is_active = false;
        for (number, (slot, seen)) in self.slots.iter().zip(seen.iter_mut()).enumerate() {
            let is_slot_active = self.watch_slot(rt, number, slot, seen);
            is_active = is_active || is_slot_active;
        }
        is_active
    }

    /// Parks the watcher until a turn begins.
    pub fn await_turn<W: Wait>(&self, rt: &W, seen: &mut [u64]) {
        self.is_watching.store(false, Ordering::SeqCst);
        if !self.watch(rt, seen) && !self.have_ended() {
            let pause = Duration::from_secs(WATCHER_PAUSE_SECONDS);
            self.watcher.park_timeout(rt, pause);
        }
        self.is_watching.store(true, Ordering::SeqCst);
    }

    /// Records that a loop has ended, with the passes of its sessions.
    pub fn end_loop<W: Wait>(&self, rt: &W, passes: Vec<K>) {
        // Can't fail: the list has capacity for all loops.
        let _ = self.passes.lock(rt).push(passes);
        self.running_count.fetch_sub(1, Ordering::SeqCst);
        for parker in &self.parkers {
            parker.unpark();
        }
        self.watcher.unpark();
    }

    /// Returns the passes of the loops that have ended.
    pub fn take_passes<W: Wait>(&self, rt: &W, alloc: Global) -> Vec<Vec<K>> {
        std::mem::replace(&mut *self.passes.lock(rt), Vec::new(alloc))
    }
}

impl Waiting {
    // Creates the lists of these numbers of loops and threads. All loops wait.
    fn new(alloc: Global, loops: usize, threads: usize) -> Result<Waiting, AllocError> {
        let mut waiting = VecDeque::with_capacity(alloc, loops)?;
        for number in 0..loops {
            waiting.push_back(number)?;
        }
        Ok(Waiting {
            loops: waiting,
            threads: Vec::with_capacity(alloc, threads)?,
        })
    }

    // Takes the next loop for the thread. Without one the thread waits.
    fn next_loop(&mut self, thread: usize) -> Option<usize> {
        self.threads.retain(|waiting| *waiting != thread);
        let next = self.loops.pop_front();
        if next.is_none() {
            // Can't fail: the list has capacity for all threads, and none is in it twice.
            let _ = self.threads.push(thread);
        }
        next
    }

    // Adds a loop. Returns the thread that gets it, if one waits.
    fn add_loop(&mut self, number: usize) -> Option<usize> {
        // Can't fail: the list has capacity for all loops, and none is in it twice.
        let _ = self.loops.push_back(number);
        self.threads.pop()
    }
}

fn parkers_of(alloc: Global, threads: usize) -> Result<Vec<Parker>, AllocError> {
    let mut parkers = Vec::with_capacity(alloc, threads)?;
    for _ in 0..threads {
        parkers.push(Parker::new())?;
    }
    Ok(parkers)
}
