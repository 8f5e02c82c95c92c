//! The wake-up flags of a loop.
use crate::document_group::{DocumentGroup, WORD_COUNT};
use mio::Waker;
use std::alloc::{AllocError, Global};
use std::sync::atomic::{AtomicBool, AtomicU64, Ordering};
use std::sync::{Mutex, Wait};

/// The flags by which other threads wake a loop. A stored operation sets a bit, and wakes the loop
/// at most once, however many of its sessions are subscribed.
#[derive(Drop)]
pub struct LoopPort {
    // A bit for each group that one of the loop's sessions is subscribed to.
    subscribed: Vec<AtomicU64>,
    // A bit for each of these groups of which an operation was stored since the loop's last look.
    changed: Vec<AtomicU64>,
    is_changed: AtomicBool,
    // Set while the loop waits for events, or is about to.
    is_waiting: AtomicBool,
    waker: Mutex<Option<Waker>>,
}

fn zero_words(alloc: Global) -> Result<Vec<AtomicU64>, AllocError> {
    let mut words = Vec::with_capacity(alloc, WORD_COUNT)?;
    for _ in 0..WORD_COUNT {
        words.push(AtomicU64::new(0))?;
    }
    Ok(words)
}

impl LoopPort {
    /// Creates a port without subscriptions and without a waker. Fails only if an allocation fails.
    pub fn new(alloc: Global) -> Result<LoopPort, AllocError> {
        Ok(LoopPort {
            subscribed: zero_words(alloc)?,
            changed: zero_words(alloc)?,
            is_changed: AtomicBool::new(false),
            is_waiting: AtomicBool::new(false),
            waker: Mutex::new(None),
        })
    }

    /// Registers the loop's waker, or removes it.
    pub fn set_waker<R: Wait>(&self, rt: &R, waker: Option<Waker>) {
        *self.waker.lock(rt) = waker;
    }

    /// Adds a group. The loop checks the session's queues next.
    pub fn subscribe(&self, group: DocumentGroup) {
        if let Some(word) = self.subscribed.get(group.word()) {
            word.fetch_or(group.bit(), Ordering::SeqCst);
        }
    }

    /// Removes a group that no session of the loop is subscribed to.
    pub fn unsubscribe(&self, group: DocumentGroup) {
        if let Some(word) = self.subscribed.get(group.word()) {
            word.fetch_and(!group.bit(), Ordering::SeqCst);
        }
    }

    /// Records a stored operation of the group and wakes the loop, if it has a subscriber.
    pub fn notify<R: Wait>(&self, rt: &R, group: DocumentGroup) {
        let (Some(subscribed), Some(changed)) = (
            self.subscribed.get(group.word()),
            self.changed.get(group.word()),
        ) else {
            return;
        };
        if subscribed.load(Ordering::SeqCst) & group.bit() == 0 {
            return;
        }
        changed.fetch_or(group.bit(), Ordering::SeqCst);
        self.is_changed.store(true, Ordering::SeqCst);
        self.wake(rt);
    }

    /// Records that an operation of any group may have been stored, and wakes the loop.
    pub fn notify_all<R: Wait>(&self, rt: &R) {
        for (subscribed, changed) in self.subscribed.iter().zip(self.changed.iter()) {
            changed.fetch_or(subscribed.load(Ordering::SeqCst), Ordering::SeqCst);
        }
        self.is_changed.store(true, Ordering::SeqCst);
        self.wake(rt);
    }

    /// Wakes the loop if it waits. If the wake-up fails, the wait's timeout ends it.
    pub fn wake<R: Wait>(&self, rt: &R) {
        if !self.is_waiting.swap(false, Ordering::SeqCst) {
            return;
        }
        if let Some(waker) = self.waker.lock(rt).as_ref() {
            let _ = waker.wake();
        }
    }

    /// Sets the waiting flag. Returns whether the loop may wait: no operation was stored since its
    /// last look. The loop checks its other work after this call.
    pub fn begin_wait(&self) -> bool {
        self.is_waiting.store(true, Ordering::SeqCst);
        !self.is_changed.load(Ordering::SeqCst)
    }

    /// Clears the waiting flag.
    pub fn end_wait(&self) {
        self.is_waiting.store(false, Ordering::SeqCst);
    }

    /// Returns whether an operation was stored since the last call.
    pub fn take_change(&self) -> bool {
        self.is_changed.load(Ordering::SeqCst) && self.is_changed.swap(false, Ordering::SeqCst)
    }

    /// Returns the groups of this word of which an operation was stored since the last call.
    pub fn take_changed_word(&self, word: usize) -> u64 {
        match self.changed.get(word) {
            Some(word) => {
                if word.load(Ordering::SeqCst) == 0 {
                    return 0;
                }
                word.swap(0, Ordering::SeqCst)
            }
            None => 0,
        }
    }
}
