//! Running loops.
use crate::event_loop::{EventLoop, SlotOfLoop};
use mio::{Events, Poll};
use sdb_connection::{EndedTurn, LoopContext, LoopPass, PassBrand};
use sdb_link::LoopBuffers;
use sdb_loop_state::LoopSlots;
use sdb_session::Policy;
use std::alloc::Global;
use std::net::Net;
use std::sync::{Arc, Wait};
use std::time::Clock;

/// The slots of all loops.
pub(crate) type SlotsOfLoops<R, P, B> = LoopSlots<PolledLoop<R, P, B>, EndedTurn<B>, LoopPass<B>>;

/// A loop and its event queue.
#[derive(Drop)]
pub(crate) struct PolledLoop<R, P, B: PassBrand> {
    pub(crate) event_loop: EventLoop<R, P, B>,
    pub(crate) poll: Poll,
    pub(crate) events: Events<Global>,
}

/// What a thread needs to run loops.
#[derive(Drop)]
pub(crate) struct LoopRunner<R, P, B: PassBrand> {
    alloc: Global,
    context: LoopContext<R, P, B>,
    slots: Arc<SlotsOfLoops<R, P, B>, Global>,
    buffers: LoopBuffers,
    // The number of the thread.
    thread: usize,
}

impl<R, P, B: PassBrand> LoopRunner<R, P, B> {
    /// Creates a runner.
    pub(crate) fn new(
        alloc: Global,
        context: LoopContext<R, P, B>,
        slots: Arc<SlotsOfLoops<R, P, B>, Global>,
        buffers: LoopBuffers,
        thread: usize,
    ) -> LoopRunner<R, P, B> {
        LoopRunner {
            alloc,
            context,
            slots,
            buffers,
            thread,
        }
    }
}

/// Runs each loop that needs a thread, until all loops have ended.
pub(crate) fn run_loops<R, P, B: PassBrand>(runner: LoopRunner<R, P, B>)
where
    R: Net + Wait + Clock + Eprint + Copy + Drop,
    P: Policy + Drop,
{
    let LoopRunner {
        alloc,
        context,
        slots,
        mut buffers,
        thread,
    } = runner;
    for _ in context.rt.forever() {
        match slots.next_loop(&context.rt, thread) {
            Some(number) => run_loop(alloc, &context, &slots, number, &mut buffers),
            None => return,
        }
    }
    unreachable!()
}

// Runs the loop until it ends, or until another thread runs it.
fn run_loop<R, P, B: PassBrand>(
    alloc: Global,
    context: &LoopContext<R, P, B>,
    slots: &SlotsOfLoops<R, P, B>,
    number: usize,
    buffers: &mut LoopBuffers,
)
where
    R: Net + Wait + Clock + Eprint + Copy + Drop,
    P: Policy + Drop,
{
    let Some(slot) = slots.slot(number) else {
        return;
    };
    slot.end_assignment();
    let mut running = slot.take(&context.rt);
    for _ in context.rt.forever() {
        let Some(polled) = running else {
            return;
        };
        running = run_pass(alloc, polled, context, slots, slot, buffers);
    }
    unreachable!()
}

// Runs one pass of the loop. Returns `None` if the loop has ended or another thread runs it.
fn run_pass<R, P, B: PassBrand>(
    alloc: Global,
    mut polled: Box<PolledLoop<R, P, B>>,
    context: &LoopContext<R, P, B>,
    slots: &SlotsOfLoops<R, P, B>,
    slot: &SlotOfLoop<R, P, B>,
    buffers: &mut LoopBuffers,
) -> Option<Box<PolledLoop<R, P, B>>>
where
    R: Net + Wait + Clock + Eprint + Copy + Drop,
    P: Policy + Drop,
{
    begin_pass(&mut polled, slot);
    let mut polled = serve_ready(alloc, polled, context, slots, slot, buffers)?;
    if end_pass(&mut polled) {
        let passes = polled.event_loop.finish();
        slots.end_loop(&context.rt, passes);
        return None;
    }
    Some(polled)
}

fn begin_pass<R, P, B: PassBrand>(polled: &mut PolledLoop<R, P, B>, slot: &SlotOfLoop<R, P, B>)
where
    R: Net + Wait + Clock + Eprint + Copy + Drop,
    P: Policy + Drop,
{
    let PolledLoop {
        event_loop,
        poll,
        events,
    } = polled;
    event_loop.begin_pass(poll, events, slot);
}

// Ends the pass. Returns whether the loop has ended.
fn end_pass<R, P, B: PassBrand>(polled: &mut PolledLoop<R, P, B>) -> bool
where
    R: Net + Wait + Clock + Eprint + Copy + Drop,
    P: Policy + Drop,
{
    polled.event_loop.end_pass();
    polled.event_loop.is_over()
}

// Gives each client that is ready a turn. Returns `None` if another thread runs the loop.
fn serve_ready<R, P, B: PassBrand>(
    alloc: Global,
    polled: Box<PolledLoop<R, P, B>>,
    context: &LoopContext<R, P, B>,
    slots: &SlotsOfLoops<R, P, B>,
    slot: &SlotOfLoop<R, P, B>,
    buffers: &mut LoopBuffers,
) -> Option<Box<PolledLoop<R, P, B>>>
where
    R: Net + Wait + Clock + Eprint + Copy + Drop,
    P: Policy + Drop,
{
    let mut running = polled;
    for _ in 0..running.event_loop.connections.lists.ready_count() {
        running = serve_next(alloc, running, context, slots, slot, buffers)?;
    }
    Some(running)
}

// Gives the next client a turn, while the loop is in its slot. Returns `None` if another thread
// runs the loop then.
fn serve_next<R, P, B: PassBrand>(
    alloc: Global,
    mut polled: Box<PolledLoop<R, P, B>>,
    context: &LoopContext<R, P, B>,
    slots: &SlotsOfLoops<R, P, B>,
    slot: &SlotOfLoop<R, P, B>,
    buffers: &mut LoopBuffers,
) -> Option<Box<PolledLoop<R, P, B>>>
where
    R: Net + Wait + Clock + Eprint + Copy + Drop,
    P: Policy + Drop,
{
    let Some(turn) = polled.event_loop.next_turn() else {
        return Some(polled);
    };
    let time = polled.event_loop.clock.time;
    let number = polled.event_loop.number;
    slots.begin_turn(&context.rt, slot, polled);
    let ended = turn.run(alloc, context, time, buffers);
    match slot.take(&context.rt) {
        Some(mut polled) => {
            polled.event_loop.end_turn(ended);
            Some(polled)
        }
        None => {
            slot.add_ended_turn(&context.rt, ended);
            context.loops().ports.wake(&context.rt, number);
            None
        }
    }
}
