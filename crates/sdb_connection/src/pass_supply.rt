//! The supply of passes.
ghost use Rattle.std.specs.Prelude.{◌≡◌};
ghost use Rattle.sdb_connection.specs.LoopModel.{IsHostOfLoops};

use crate::loop_context::LoopContext;
use crate::loop_pass::{LoopPass, PassBrand};
use sdb_backend::Host;
use sdb_session::Policy;
use std::alloc::{AllocError, Global};
use std::collections::VecDeque;
use std::sync::atomic::{AtomicBool, Ordering};
use std::sync::{Mutex, Wait};
use std::time::Duration;

// Number of unused passes, besides one for each loop.
const SPARE_PASSES: usize = 16;

// Longest pause in seconds of the thread that supplies passes.
const PAUSE_SECONDS: u64 = 1;

/// Passes for the next clients. The thread that has the host creates them.
#[derive(Drop)]
pub struct PassSupply<B: PassBrand> {
    size: usize,
    stock: Mutex<VecDeque<LoopPass<B>>>,
    // Set if a loop found no pass.
    is_awaited: AtomicBool,
    // Set if the host has no pass, or an allocation fails.
    is_failing: AtomicBool,
}

impl<B: PassBrand> PassSupply<B> {
    /// Creates an empty supply for this number of loops. Fails only if an allocation fails.
    pub fn new(alloc: Global, loops: usize) -> Result<PassSupply<B>, AllocError> {
        let size = loops.saturating_add(SPARE_PASSES);
        Ok(PassSupply {
            size,
            stock: Mutex::new(VecDeque::with_capacity(alloc, size)?),
            is_awaited: AtomicBool::new(false),
            is_failing: AtomicBool::new(false),
        })
    }

    /// Returns whether no pass can be created.
    pub fn is_failing(&self) -> bool {
        self.is_failing.load(Ordering::SeqCst)
    }

    /// Returns whether there is a pass, or none can be created.
    pub fn has_pass_or_failure<R: Wait>(&self, rt: &R) -> bool {
        self.is_failing() || !self.is_empty(rt)
    }

    // Returns whether there is no pass.
    fn is_empty<R: Wait>(&self, rt: &R) -> bool {
        self.stock.lock(rt).is_empty()
    }

    /// Returns a pass that was never used, if there is one.
    pub fn pop<R: Wait>(&self, rt: &R) -> Option<LoopPass<B>> {
        self.stock.lock(rt).pop_front()
    }

    /// Returns all passes that were never used.
    pub fn take_all<R: Wait>(&self, rt: &R, alloc: Global) -> VecDeque<LoopPass<B>> {
        std::mem::replace(&mut *self.stock.lock(rt), VecDeque::new(alloc))
    }

    /// Records that a loop waits for a pass.
    pub fn request(&self) {
        self.is_awaited.store(true, Ordering::SeqCst);
    }

    fn is_full<R: Wait>(&self, rt: &R) -> bool {
        self.stock.lock(rt).len() >= self.size
    }

    // Adds a pass, or records that there is none. Returns whether there is one.
    fn add<R: Wait>(&self, rt: &R, pass: Option<LoopPass<B>>) -> bool {
        let is_failing = pass.is_none();
        self.is_failing.store(is_failing, Ordering::SeqCst);
        if let Some(pass) = pass {
            // Can't fail: the list has capacity for all passes.
            let _ = self.stock.lock(rt).push_back(pass);
        }
        !is_failing
    }

    // Returns whether a loop waits for a pass.
    fn take_request(&self) -> bool {
        self.is_awaited.swap(false, Ordering::SeqCst)
    }
}

/// Creates passes until the server is stopped, so that some are always unused. While no number is
/// reserved for the next pass, loops that wait for one aren't woken.
pub fn supply_passes<R: Wait + Drop, P: Policy + Drop, B: PassBrand>(
    context: &LoopContext<R, P, B>,
    host: &mut Host,
)
    requires { IsHostOfLoops host.old context.now.state.value }
    ensures { IsHostOfLoops host.new context.now.state.value }
{
    for _ in context.rt.forever() {
        if context.loops().flags.is_stopped() {
            return;
        }
        fill_supply(context, host);
        if context.supply.has_pass_or_failure(&context.rt) && context.supply.take_request() {
            context.loops().ports.wake_all(&context.rt);
        }
        let pause = Duration::from_secs(PAUSE_SECONDS);
        context.loops().supplier().park_timeout(&context.rt, pause);
    }
    unreachable!()
}

// Creates passes until the supply is full, or the next number isn't reserved.
fn fill_supply<R: Wait + Drop, P: Policy + Drop, B: PassBrand>(
    context: &LoopContext<R, P, B>,
    host: &mut Host,
)
    requires { IsHostOfLoops host.old context.now.state.value }
    ensures { IsHostOfLoops host.new context.now.state.value }
{
    for _ in 0..context.supply.size {
        if context.supply.is_full(&context.rt)
            || !context.loops().settings.reserve_number(host.next())
        {
            return;
        }
        let pass = LoopPass::new(context, host);
        if !context.supply.add(&context.rt, pass) {
            return;
        }
    }
}
