//! Serving WebSocket clients at an address until a stop condition holds.
ghost use Rattle.std.specs.Prelude.{IfOk};
ghost use Rattle.sdb_backend.specs.PassModel.{IsHostOfBackend};
ghost use Rattle.sdb_backend.specs.declared.pass.Host.{Host as HostState};
ghost use Rattle.sdb_event_loop.specs.LoopModel.{IsHostOfLoops};

use crate::close::{print_close, print_close_fault};
use sdb_backend::Backend;
use sdb_cli::{STATUS_FAULT, STATUS_OK, print_refusal};
use sdb_event_loop::{
    DEFAULT_LOOP_CLIENTS, LoopOptions, LoopServer, bind_listener, listen_on_loops,
};
use sdb_projection::Table;
use std::alloc::{AllocError, Global};
use std::io::{ErrorKind, Read, StdinLock};
use std::net::{Net, SocketAddr, TcpListener, TcpStream};
use std::sync::{Arc, Wait};
use std::thread;
use std::thread::{Threads, available_parallelism};
use std::time::Clock;

// The number of bytes of a unit of `--memory`.
const MEBIBYTE: u64 = 1_048_576;

// The number of bytes of standard input discarded per read.
const INPUT_CHUNK: usize = 4_096;

/// The condition that ends the serving of clients.
#[derive(Clone, Copy, PartialEq, Eq, Drop)]
pub enum StopCondition {
    /// No condition: the server runs until it is killed.
    Never,
    /// The end of this number of sessions; the command line permits 1 to 1,000,000.
    Served(u64),
    /// The end of standard input.
    Eof {
        /// Whether the dump of the stored documents is written at the end.
        is_dumping: bool,
    },
}

/// How clients are served.
#[derive(Clone, Copy, PartialEq, Eq, Drop)]
pub struct ServeOptions {
    /// Number of event loops. `None` is half the processors, at least 1.
    pub loops: Option<usize>,
    /// Maximum number of clients served at once. `None` is 64.
    pub clients: Option<usize>,
    /// The resident memory in MiB above which no operation is stored. `None` is no limit.
    pub memory: Option<usize>,
    /// Whether the start and the end of each session are logged.
    pub is_logging: bool,
    /// Whether the log has the addresses of clients that a proxy forwards.
    pub is_proxied: bool,
}

impl ServeOptions {
    // Returns the numbers of loops and clients.
    fn loop_options(self, rt: &impl Threads) -> LoopOptions {
        LoopOptions {
            loops: self.loops.unwrap_or(default_loops(rt)),
            clients: self.clients.unwrap_or(DEFAULT_LOOP_CLIENTS),
        }
    }

    // Returns the limit of memory in bytes.
    fn memory_limit(self) -> Option<u64> {
        let mebibytes = self.memory? as u64;
        Some(mebibytes.saturating_mul(MEBIBYTE))
    }
}

// Returns half the number of processors, at least 1.
fn default_loops(rt: &impl Threads) -> usize {
    match available_parallelism(rt) {
        Ok(processors) => (processors.get() / 2).max(1),
        Err(_) => 1,
    }
}

// Binds the address and serves clients there.
pub(crate) fn serve_clients<R>(
    rt: R,
    address: SocketAddr,
    until: StopCondition,
    options: ServeOptions,
    table: Table,
) -> anyhow::Result<u8>
where
    R: AllocGlobal + Input<Reader = StdinLock<'static>> + Print + Eprint,
    R: Net<Listener = TcpListener, Stream = TcpStream> + Threads + Wait + Clock,
    R: Copy + Drop + Send + Sync + 'static,
{
    if let Some(status) = refuse_closed_input(&rt, until)? {
        return Ok(status);
    }
    match bind_listener(&rt, address) {
        Ok(listener) => serve_at(rt, listener, until, options, table),
        Err(error) => {
            eprintln!(rt; "error: cannot listen on {address}: {error}")?;
            Ok(STATUS_FAULT)
        }
    }
}

/// Prints a refusal if the server is to be stopped at the end of standard input, and that can't be
/// read. Returns the exit status then.
pub(crate) fn refuse_closed_input<R>(rt: &R, until: StopCondition) -> anyhow::Result<Option<u8>>
where
    R: AllocGlobal + Input<Reader = StdinLock<'static>> + Eprint,
{
    if let StopCondition::Eof { .. } = until
        && let Err(error) = rt.reader().read(&mut [])
    {
        let text = format!(in rt.alloc(); "error: cannot read standard input: {error}")?;
        return Ok(Some(print_refusal(rt, text.as_str())?));
    }
    Ok(None)
}

/// Serves the clients of the listener until the stop condition holds, and returns the exit status.
///
/// # Errors
///
/// [`AllocError`] if an allocation fails before clients are served or for the count of the
/// documents. The [`io::Error`](std::io::Error) of the listener, of an event loop, of starting a
/// thread, or of printing a line.
pub fn serve_at<R>(
    rt: R,
    listener: TcpListener,
    until: StopCondition,
    options: ServeOptions,
    table: Table,
) -> anyhow::Result<u8>
where
    R: AllocGlobal + Input<Reader = StdinLock<'static>> + Print + Eprint,
    R: Net<Listener = TcpListener, Stream = TcpStream> + Threads + Wait + Clock,
    R: Copy + Drop + Send + Sync + 'static,
{
    match until {
        StopCondition::Never => serve_count(rt, listener, None, options, table),
        StopCondition::Served(count) => serve_count(rt, listener, Some(count), options, table),
        StopCondition::Eof { is_dumping } => {
            serve_until_end(rt, listener, rt.reader(), options, is_dumping, table)
        }
    }
}

// Serves this number of sessions, or clients without end if it is `None`.
fn serve_count<R>(
    rt: R,
    listener: TcpListener,
    limit: Option<u64>,
    options: ServeOptions,
    table: Table,
) -> anyhow::Result<u8>
where
    R: AllocGlobal + Print + Eprint,
    R: Net<Listener = TcpListener, Stream = TcpStream> + Threads + Wait + Clock,
    R: Copy + Drop + Send + Sync + 'static,
{
    let alloc = rt.alloc();
    let (backend, mut host) = Backend::new(alloc, rt)?;
    let server = loop_server(&rt, backend, table, options, limit, false)?;
    let state = Arc::new(alloc, server)?;
    println!(rt; "listening {}", listener.local_addr()?)?;
    listen_on_loops(rt, alloc, listener, &state, &mut host)?;
    Ok(STATUS_OK)
}

/// Serves the clients of the listener until the input ends, and prints the number of stored
/// documents and operations to standard error. Returns the exit status. If a dump is requested,
/// standard output holds the dump only.
///
/// # Errors
///
/// As [`serve_at`].
pub fn serve_until_end<R, I>(
    rt: R,
    listener: TcpListener,
    input: I,
    options: ServeOptions,
    is_dumping: bool,
    table: Table,
) -> anyhow::Result<u8>
where
    R: AllocGlobal + Print + Eprint,
    R: Net<Listener = TcpListener, Stream = TcpStream> + Threads + Wait + Clock,
    R: Copy + Drop + Send + Sync + 'static,
    I: Read + Drop + Send + 'static,
{
    let alloc = rt.alloc();
    let (backend, mut host) = Backend::new(alloc, rt)?;
    let server = loop_server(&rt, backend, table, options, None, true)?;
    let state = Arc::new(alloc, server)?;
    let stopped_state = Arc::try_clone(&state)?;
    let waiting = thread::spawn(&rt, move || {
        read_to_end(input);
        stopped_state.stop(&rt);
    })?;
    print_address(&rt, &listener, is_dumping)?;
    let passes = listen_on_loops(rt, alloc, listener, &state, &mut host)?;
    waiting.join(&rt);
    match Arc::try_unwrap(state) {
        Ok(state) => print_close(&rt, state.into_backend().close(host, passes), is_dumping),
        Err(_) => print_close_fault(&rt, "sessions are still open"),
    }
}

// Creates the state of the server, which is stopped after this number of sessions, if there is one.
// The passes of ended sessions are kept if the backend is closed at the end.
pub(crate) fn loop_server<R: AllocGlobal + Threads + Drop>(
    rt: &R,
    backend: Backend<R>,
    table: Table,
    options: ServeOptions,
    limit: Option<u64>,
    is_closing: bool,
) -> Result<LoopServer<R, Table>, AllocError>
    ensures { IfOk result (λ s. (h : HostState) → IsHostOfBackend h backend → IsHostOfLoops h s) }
{
    let alloc = rt.alloc();
    let state = LoopServer::new(alloc, backend, table, options.loop_options(rt))?;
    let logging = state.with_log(options.is_logging);
    let proxied = logging.with_proxy(options.is_proxied);
    let limited = proxied.with_session_limit(limit);
    let bounded = limited.with_memory_limit(options.memory_limit());
    Ok(bounded.with_passes_kept(is_closing))
}

// Prints the address of the listener, to standard error if standard output is for the dump.
pub(crate) fn print_address<R: Print + Eprint>(
    rt: &R,
    listener: &TcpListener,
    is_dumping: bool,
) -> anyhow::Result<()> {
    let address = listener.local_addr()?;
    if is_dumping {
        eprintln!(rt; "listening {address}")?;
    } else {
        println!(rt; "listening {address}")?;
    }
    Ok(())
}

// Discards the input up to its end or a failed read.
pub(crate) fn read_to_end<I: Read + Drop>(mut input: I) {
    let mut bytes = [0; INPUT_CHUNK];
    for _ in 0..u64::MAX {
        match input.read(&mut bytes) {
            Ok(0) => return,
            Ok(_) => {}
            Err(error) if error.kind() == ErrorKind::Interrupted => {}
            Err(_) => return,
        }
    }
}
