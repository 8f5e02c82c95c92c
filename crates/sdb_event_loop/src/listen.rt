//! Serving clients on loops until the server is stopped.
ghost use Rattle.std.specs.Prelude.{◌≡◌, IfOk, OnErr};
ghost use Rattle.sdb_backend.specs.PassModel.{IsPassOfBackend};
ghost use Rattle.sdb_growlock.specs.LockRule.{ForEach};
ghost use Rattle.sdb_connection.specs.LoopModel.{IsHostOfLoops, loops_backend};
ghost use Rattle.sdb_connection.specs.PassLocks.{NamesBackend};

use crate::loop_threads::{LoopThreads, start_loops};
use mio::net::TcpListener as MioListener;
use sdb_backend::{Host, Pass};
use sdb_connection::{LoopContext, LoopPass, LoopServer, PassBrand, supply_passes};
use sdb_session::Policy;
use std::alloc::Global;
use std::collections::VecDeque;
use std::io;
use std::marker::Brand;
use std::net::{Net, SocketAddr, TcpListener, TcpStream};
use std::sync::{Arc, Wait};
use std::thread::Threads;
use std::time::Clock;

/// Binds a listener for [`listen_on_loops`]. As many connections may wait to be accepted as the
/// system permits.
///
/// # Errors
///
/// The [`io::Error`] of the system.
pub fn bind_listener(net: &impl Net, address: SocketAddr) -> io::Result<TcpListener> {
    Ok(TcpListener::from(MioListener::bind(net, address)?))
}

/// Accepts connections and serves their clients on the server's loops, until the server is
/// [stopped](LoopServer::stop). Returns the passes that the host created here, unless they
/// [aren't kept](LoopServer::with_passes_kept); with all its other passes they are the argument of
/// [`Backend::close`](sdb_backend::Backend::close).
///
/// - A client gets its pass after its handshake. `GET /health` is answered with a line of JSON and
///   `GET /metrics` with Prometheus' text format, any other request that is no WebSocket handshake
///   with status 426.
/// - A client is closed with 1013 (try again later) if as many are served as the options permit, if
///   the host has no passes left, or if its output can't be
///   [saved](LoopServer::with_progress) for long.
/// - At most 64 connections more than clients are open at once. Any other waits to be accepted.
/// - A failure to accept is logged on standard error, once until accepting works again.
///   [`with_log`](LoopServer::with_log) also logs the start and the end of each session.
/// - The calling thread creates passes, and has no client. After a stop each session is closed with
///   1001, and the loops end within two seconds.
///
/// # Errors
///
/// The [`io::Error`] of the listener, of a loop's event queue or of starting a thread, or one of kind
/// `OutOfMemory` if an allocation fails. No client was then served and the host is unchanged.
///
/// ```
/// let stopped_state = Arc::try_clone(&state)?;
/// let stopping = thread::spawn(&rt, move || stopped_state.stop(&rt))?;
/// let passes = listen_on_loops(rt, alloc, listener, &state, &mut host)?;
/// stopping.join(&rt);
/// ```
pub fn listen_on_loops<R, P>(
    rt: R,
    alloc: Global,
    listener: TcpListener,
    state: &Arc<LoopServer<R, P>, Global>,
    host: &mut Host,
) -> io::Result<Vec<Pass>>
where
    R: Net<Listener = TcpListener, Stream = TcpStream>,
    R: Threads + Wait + Clock + Eprint + Drop + Copy + Send + Sync + 'static,
    P: Policy + Drop + Send + Sync + 'static,
    requires { IsHostOfLoops host.old state.now.value }
    ensures host { IsHostOfLoops host.new state.now.value }
    ensures passes { IfOk result (λ passes.
        ForEach (λ p. IsPassOfBackend p (loops_backend state.now.value)) passes.items) }
    ensures host_unchanged_on_err { OnErr result (host.new ≡ host.old) }
{
    listen_as::<R, P, Brand>(rt, alloc, listener, state, host)
}

// Serves clients, where the brand names the server's backend.
fn listen_as<R, P, B>(
    rt: R,
    alloc: Global,
    listener: TcpListener,
    state: &Arc<LoopServer<R, P>, Global>,
    host: &mut Host,
) -> io::Result<Vec<Pass>>
where
    R: Net<Listener = TcpListener, Stream = TcpStream>,
    R: Threads + Wait + Clock + Eprint + Drop + Copy + Send + Sync + 'static,
    P: Policy + Drop + Send + Sync + 'static,
    B: PassBrand + Send + Sync + 'static,
    requires brand { NamesBackend B.locks state.now.value.backend }
    requires host { IsHostOfLoops host.old state.now.value }
    ensures host { IsHostOfLoops host.new state.now.value }
    ensures passes { IfOk result (λ passes. ForEach (λ p. IsPassOfBackend p state.now.value.backend) passes.items) }
    ensures host_unchanged_on_err { OnErr result (host.new ≡ host.old) }
{
    let context: LoopContext<R, P, B> = LoopContext::new(rt, alloc, state)?;
    context.loops().prepare();
    let threads = start_loops(alloc, listener, &context)?;
    context.loops().open(&rt);
    supply_passes(&context, host);
    Ok(join_loops(alloc, &context, threads))
}

// Joins the loops, and returns the passes of their sessions and those that weren't used.
fn join_loops<R: Threads + Wait + Drop, P: Policy + Drop, B: PassBrand>(
    alloc: Global,
    context: &LoopContext<R, P, B>,
    threads: LoopThreads<R, P, B>,
) -> Vec<Pass>
    ensures { ForEach (λ p. IsPassOfBackend p context.now.state.value.backend) result.items }
{
    let mut passes = Vec::new(alloc);
    for used in threads.join(&context.rt, alloc) {
        add_passes(context, &mut passes, used);
    }
    add_unused(
        context,
        &mut passes,
        context.supply.take_all(&context.rt, alloc),
    );
    passes
}

// Adds the passes of a loop's sessions to the list.
fn add_passes<R, P, B: PassBrand>(
    context: &LoopContext<R, P, B>,
    passes: &mut Vec<Pass>,
    added: Vec<LoopPass<B>>,
)
    requires { ForEach (λ p. IsPassOfBackend p context.now.state.value.backend) passes.old.items }
    ensures { ForEach (λ p. IsPassOfBackend p context.now.state.value.backend) passes.new.items }
{
    for pass in added {
        push_pass(context, passes, pass);
    }
}

// Adds passes that weren't used to the list.
fn add_unused<R, P, B: PassBrand>(
    context: &LoopContext<R, P, B>,
    passes: &mut Vec<Pass>,
    unused: VecDeque<LoopPass<B>>,
)
    requires { ForEach (λ p. IsPassOfBackend p context.now.state.value.backend) passes.old.items }
    ensures { ForEach (λ p. IsPassOfBackend p context.now.state.value.backend) passes.new.items }
{
    for pass in unused {
        push_pass(context, passes, pass);
    }
}

// Adds a pass to the list. If an allocation fails, it is missing, and the backend refuses to be
// closed.
fn push_pass<R, P, B: PassBrand>(
    context: &LoopContext<R, P, B>,
    passes: &mut Vec<Pass>,
    pass: LoopPass<B>,
)
    requires { ForEach (λ p. IsPassOfBackend p context.now.state.value.backend) passes.old.items }
    ensures { ForEach (λ p. IsPassOfBackend p context.now.state.value.backend) passes.new.items }
{
    let _ = passes.push(pass.into_pass(context));
}
