//! The threads of loops.
use crate::event_loop::{EventLoop, LISTENER, WAKER};
use crate::polled_loop::{LoopRunner, PolledLoop, SlotsOfLoops, run_loops};
use mio::net::TcpListener as MioListener;
use mio::unix::SourceFd;
use mio::{Events, Interest, Poll, Waker};
use sdb_connection::{LoopContext, LoopPass, PassBrand};
use sdb_link::LoopBuffers;
use sdb_loop_state::{LoopSlots, Subscribers, watch_loops};
use sdb_session::Policy;
use std::alloc::Global;
use std::net::{Net, TcpListener, TcpStream};
use std::os::fd::AsRawFd;
use std::sync::{Arc, Wait};
use std::thread::{JoinHandle, Threads};
use std::time::Clock;
use std::{io, thread};

// Maximum number of events of one wait.
const EVENT_LIMIT: usize = 256;

// Number of threads besides one for each loop. As many turns can take long before they hold up a
// loop.
const SPARE_THREADS: usize = 32;

/// The threads of a run, which share its loops.
#[derive(Drop)]
pub(crate) struct LoopThreads<R, P, B: PassBrand> {
    pub(crate) slots: Arc<SlotsOfLoops<R, P, B>, Global>,
    threads: Vec<JoinHandle<()>>,
}

impl<R: Threads + Wait + Drop, P: Policy + Drop, B: PassBrand> LoopThreads<R, P, B> {
    /// Waits until all loops have ended, and returns the passes of their sessions.
    pub(crate) fn join(self, rt: &R, alloc: Global) -> Vec<Vec<LoopPass<B>>> {
        let LoopThreads { slots, threads } = self;
        for thread in threads {
            thread.join(rt);
        }
        slots.take_passes(rt, alloc)
    }
}

/// Starts the loops of a run: a thread for each, spare threads that continue loops whose turns take
/// long, and one that watches them. If one can't be started, those that run are ended.
pub(crate) fn start_loops<R, P, B>(
    alloc: Global,
    listener: TcpListener,
    context: &LoopContext<R, P, B>,
) -> io::Result<LoopThreads<R, P, B>>
where
    R: Net<Listener = TcpListener, Stream = TcpStream>,
    R: Threads + Wait + Clock + Eprint + Drop + Copy + Send + Sync + 'static,
    P: Policy + Drop + Send + Sync + 'static,
    B: PassBrand + Send + Sync + 'static,
{
    listener.set_nonblocking(true)?;
    let listener = Arc::new(alloc, MioListener::from_std(listener))?;
    let loops = context.loops().ports.count();
    let thread_count = loops.saturating_add(SPARE_THREADS);
    let slots = Arc::new(alloc, LoopSlots::new(alloc, loops, thread_count)?)?;
    for number in 0..loops {
        create_loop(alloc, &listener, context, &slots, number)?;
    }
    let threads = Vec::with_capacity(alloc, thread_count.saturating_add(1))?;
    let mut started = LoopThreads { slots, threads };
    match start_threads(alloc, context, &mut started, thread_count) {
        Ok(()) => Ok(started),
        Err(error) => {
            context.loops().end(&context.rt);
            started.join(&context.rt, alloc);
            Err(error)
        }
    }
}

// Creates a loop in its slot.
fn create_loop<R, P, B>(
    alloc: Global,
    listener: &Arc<MioListener, Global>,
    context: &LoopContext<R, P, B>,
    slots: &SlotsOfLoops<R, P, B>,
    number: usize,
) -> io::Result<()>
where
    R: Net + Wait + Clock + Copy + Drop,
    P: Policy + Drop,
    B: PassBrand,
{
    let (poll, waker) = polled_listener(&context.rt, listener)?;
    if let Some(port) = context.loops().ports.port(number) {
        port.set_waker(&context.rt, Some(waker));
    }
    let event_loop = EventLoop::new(
        alloc,
        context.try_clone()?,
        number,
        Arc::try_clone(listener)?,
        LoopBuffers::new(alloc, context.loops().settings.progress())?,
        Subscribers::new(alloc)?,
    );
    let polled = PolledLoop {
        event_loop,
        poll,
        events: Events::with_capacity(alloc, EVENT_LIMIT)?,
    };
    let polled = Box::new(alloc, polled)?;
    if let Some(slot) = slots.slot(number) {
        slot.put(&context.rt, polled);
    }
    Ok(())
}

// Creates an event queue that reports connections at the listener, and the waker that ends its
// waits.
fn polled_listener<R: Net>(
    rt: &R,
    listener: &Arc<MioListener, Global>,
) -> io::Result<(Poll, Waker)> {
    let poll = Poll::new(rt)?;
    let waker = Waker::new(poll.registry(), WAKER)?;
    let mut source = SourceFd(&listener.as_raw_fd());
    poll.registry()
        .register(&mut source, LISTENER, Interest::READABLE)?;
    Ok((poll, waker))
}

// Starts the watcher and the threads. The list has capacity for their handles.
fn start_threads<R, P, B>(
    alloc: Global,
    context: &LoopContext<R, P, B>,
    started: &mut LoopThreads<R, P, B>,
    count: usize,
) -> io::Result<()>
where
    R: Net<Listener = TcpListener, Stream = TcpStream>,
    R: Threads + Wait + Clock + Eprint + Drop + Copy + Send + Sync + 'static,
    P: Policy + Drop + Send + Sync + 'static,
    B: PassBrand + Send + Sync + 'static,
{
    let watcher = start_watcher(alloc, context, &started.slots)?;
    started.threads.push(watcher)?;
    for number in 0..count {
        let thread = start_thread(alloc, context, &started.slots, number)?;
        started.threads.push(thread)?;
    }
    Ok(())
}

fn start_watcher<R, P, B>(
    alloc: Global,
    context: &LoopContext<R, P, B>,
    slots: &Arc<SlotsOfLoops<R, P, B>, Global>,
) -> io::Result<JoinHandle<()>>
where
    R: Threads + Wait + Clock + Drop + Copy + Send + Sync + 'static,
    P: Policy + Drop + Send + Sync + 'static,
    B: PassBrand + Send + Sync + 'static,
{
    let rt = context.rt;
    let seen = Vec::from_elem(alloc, 0u64, context.loops().ports.count())?;
    let slots = Arc::try_clone(slots)?;
    handle_of(thread::spawn(&rt, move || watch_loops(&rt, &slots, seen)))
}

fn start_thread<R, P, B>(
    alloc: Global,
    context: &LoopContext<R, P, B>,
    slots: &Arc<SlotsOfLoops<R, P, B>, Global>,
    number: usize,
) -> io::Result<JoinHandle<()>>
where
    R: Net<Listener = TcpListener, Stream = TcpStream>,
    R: Threads + Wait + Clock + Eprint + Drop + Copy + Send + Sync + 'static,
    P: Policy + Drop + Send + Sync + 'static,
    B: PassBrand + Send + Sync + 'static,
{
    let slots = Arc::try_clone(slots)?;
    let buffers = LoopBuffers::new(alloc, context.loops().settings.progress())?;
    let runner = LoopRunner::new(alloc, context.try_clone()?, slots, buffers, number);
    handle_of(thread::spawn(&context.rt, move || run_loops(runner)))
}

fn handle_of<E: Drop>(spawned: Result<JoinHandle<()>, E>) -> io::Result<JoinHandle<()>> {
    match spawned {
        Ok(thread) => Ok(thread),
        Err(_) => Err(io::Error::from(io::ErrorKind::OutOfMemory)),
    }
}
