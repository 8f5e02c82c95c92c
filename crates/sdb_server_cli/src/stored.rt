//! Serving clients whose operations are saved in a file.
ghost use Rattle.std.specs.Prelude.{IfOk};
ghost use Rattle.sdb_backend.specs.PassModel.{IsHostOfBackend, IsPassOfBackend};
ghost use Rattle.sdb_event_loop.specs.LoopModel.{IsHostOfLoops, loops_backend};
ghost use Rattle.sdb_store.specs.SaverModel.{saver_pass};

use crate::clients::{ServeOptions, StopCondition, loop_server, print_address, read_to_end};
use crate::store_file::FileWriter;
use sdb_backend::{Counts, Host};
use sdb_cli::{STATUS_FAULT, STATUS_OK};
use sdb_event_loop::{LoopServer, bind_listener, listen_on_loops};
use sdb_linefile::LineFile;
use sdb_progress::{SaveProgress, SaveRecord};
use sdb_projection::Table;
use sdb_server::{Clock as MomentClock, SystemClock};
use sdb_store::{LineWriter, RestoredBackend, RoundListener, SaveFault, Saver, save_until_closed};
use sqlite::Alter;
use std::alloc::{AllocError, Global};
use std::io::{Read, StdinLock};
use std::net::{Net, SocketAddr, TcpListener, TcpStream};
use std::sync::{Arc, Wait};
use std::thread;
use std::thread::{JoinHandle, Threads};
use std::time::{Clock, Duration};

// Seconds after which a server that can't end says that it still saves.
const END_SECONDS: u64 = 5;

/// Serves clients with the documents of a file, and saves each stored operation in the file before a
/// client is sent it. Returns the exit status and the file.
pub(crate) fn serve_file<R, S>(
    rt: R,
    restored: RestoredBackend<R>,
    writer: FileWriter<S>,
    address: SocketAddr,
    until: StopCondition,
    options: ServeOptions,
    table: Table,
) -> anyhow::Result<(u8, LineFile<S>)>
where
    R: AllocGlobal + Input<Reader = StdinLock<'static>> + Print + Eprint,
    R: Net<Listener = TcpListener, Stream = TcpStream> + Threads + Wait + Clock,
    R: Copy + Drop + Send + Sync + 'static,
    S: Alter + Drop + Send + 'static,
    requires { IsHostOfBackend restored.host restored.backend }
{
    match bind_listener(&rt, address) {
        Ok(listener) => {
            let served = Served {
                listener,
                until,
                options,
                table,
            };
            let (status, writer) = serve_saved(rt, served, restored, writer)?;
            Ok((status, writer.into_file()))
        }
        Err(error) => {
            eprintln!(rt; "error: cannot listen on {address}: {error}")?;
            Ok((STATUS_FAULT, writer.into_file()))
        }
    }
}

// What is served, at which listener and until when.
#[derive(Drop)]
struct Served {
    listener: TcpListener,
    until: StopCondition,
    options: ServeOptions,
    table: Table,
}

// The loops of a server, which are woken after each round.
#[derive(Drop)]
struct LoopListener<'a, R> {
    rt: R,
    state: &'a LoopServer<R, Table>,
    record: &'a SaveRecord,
}

impl<R: Eprint + Clock> LoopListener<'_, R> {
    // Records a round, and prints a line if rounds begin to fail or are committed again.
    fn record(&self, saved: Result<(), SaveFault>) {
        let second = SystemClock::new(&self.rt).now().milliseconds() / 1_000;
        match saved {
            Ok(()) => self.print_recovery(second),
            Err(fault) => {
                if let Some(failure) = fault.failure()
                    && self.record.add_failure(failure, second)
                {
                    let _ = eprintln!(&self.rt; "store: operations aren't saved: {failure}");
                }
            }
        }
    }

    // Prints a line if rounds failed before.
    fn print_recovery(&self, second: u64) {
        if let Some(outage) = self.record.end_outage() {
            let seconds = second.saturating_sub(outage.since);
            let _ = eprintln!(&self.rt;
                "store: operations are saved again, after {seconds} seconds"
            );
        }
    }
}

impl<R: Wait + Eprint + Clock> RoundListener for LoopListener<'_, R> {
    fn notify(&self, saved: Result<(), SaveFault>) {
        self.record(saved);
        self.state.notify_committed(&self.rt);
    }
}

// The thread that saves the operations of a server.
#[derive(Drop)]
struct SavingThread<R, W> {
    rt: R,
    state: Arc<LoopServer<R, Table>, Global>,
    saver: Saver,
    writer: W,
    progress: Arc<SaveProgress, Global>,
    ghost pass_belongs: { IsPassOfBackend (saver_pass saver) (loops_backend state.value) },
}

impl<R: Wait + Clock + Eprint + Copy + Drop, W: LineWriter + Drop> SavingThread<R, W> {
    // Saves operations until the server has ended. If nothing can be saved, it stops the server.
    // Returns the writer too.
    fn run(self) -> (Result<(), SaveFault>, W) {
        let SavingThread {
            rt,
            state,
            mut saver,
            mut writer,
            progress,
        } = self;
        let backend = state.backend();
        let listener = LoopListener {
            rt,
            state: &state,
            record: progress.record(),
        };
        let saved = save_until_closed(&rt, backend, &mut saver, &mut writer, &progress, &listener);
        if saved.is_err() {
            state.stop(&rt);
        }
        (saved, writer)
    }
}

// Creates the saver of a server, with a pass of its own. From now on stored operations are listed.
fn create_saver<R: Wait + Drop>(
    alloc: Global,
    state: &LoopServer<R, Table>,
    host: &mut Host,
    reserved: u64,
) -> Result<Saver, AllocError>
    requires { IsHostOfLoops host.old state.now }
    ensures host { IsHostOfLoops host.new state.now }
    ensures pass { IfOk result (λ saver. IsPassOfBackend (saver_pass saver) (loops_backend state.now)) }
{
    let backend = state.backend();
    match backend.enter(host) {
        Ok(mut pass) => {
            backend.list_unsaved(&mut pass);
            Ok(Saver::new(alloc, pass, reserved))
        }
        Err(_) => Err(AllocError),
    }
}

// Starts the thread that saves the operations of a server.
fn start_saving<R, W>(
    rt: R,
    state: &Arc<LoopServer<R, Table>, Global>,
    saver: Saver,
    writer: W,
    progress: &Arc<SaveProgress, Global>,
) -> anyhow::Result<JoinHandle<(Result<(), SaveFault>, W)>>
where
    R: Threads + Wait + Clock + Eprint + Copy + Drop + Send + Sync + 'static,
    W: LineWriter + Drop + Send + 'static,
    requires { IsPassOfBackend (saver_pass saver) (loops_backend state.now.value) }
{
    let state = Arc::try_clone(state)?;
    let progress = Arc::try_clone(progress)?;
    let saving = SavingThread {
        rt,
        state,
        saver,
        writer,
        progress,
    };
    Ok(thread::spawn(&rt, move || saving.run())?)
}

// Serves clients, and saves each stored operation before it is sent. Returns the exit status and the
// writer.
fn serve_saved<R, W>(
    rt: R,
    served: Served,
    restored: RestoredBackend<R>,
    writer: W,
) -> anyhow::Result<(u8, W)>
where
    R: AllocGlobal + Input<Reader = StdinLock<'static>> + Print + Eprint,
    R: Net<Listener = TcpListener, Stream = TcpStream> + Threads + Wait + Clock,
    R: Copy + Drop + Send + Sync + 'static,
    W: LineWriter + Drop + Send + 'static,
    requires { IsHostOfBackend restored.host restored.backend }
{
    let alloc = rt.alloc();
    let RestoredBackend {
        backend,
        mut host,
        highest_number,
    } = restored;
    let Served {
        listener,
        until,
        options,
        table,
    } = served;
    let progress = SaveProgress::new(highest_number);
    progress.record().add_restored(backend.counts().entries);
    let progress = Arc::new(alloc, progress)?;
    let server = loop_server(&rt, backend, table, options, session_limit(until), false)?;
    let shared = Arc::try_clone(&progress)?;
    let state = Arc::new(alloc, server.with_progress(shared))?;
    let saver = create_saver(alloc, &state, &mut host, highest_number)?;
    let saving = start_saving(rt, &state, saver, writer, &progress)?;
    let served = serve_until(rt, listener, until, &state, &mut host);
    progress.close();
    let noted = note_long_save(&rt, &progress);
    let (saved, writer) = saving.join(&rt);
    noted?;
    let status = print_end(&rt, until, saved, served, state.backend().counts())?;
    Ok((status, writer))
}

// Prints a line if the last operations take long to be saved.
fn note_long_save<R: Eprint + Wait>(rt: &R, progress: &SaveProgress) -> anyhow::Result<()> {
    if !progress.wait_end(rt, Duration::from_secs(END_SECONDS)) {
        eprintln!(rt; "store: the last operations are still being saved")?;
    }
    Ok(())
}

// Returns the number of sessions after which the server is stopped.
fn session_limit(until: StopCondition) -> Option<u64> {
    match until {
        StopCondition::Served(count) => Some(count),
        StopCondition::Never | StopCondition::Eof { .. } => None,
    }
}

// Serves clients until the stop condition holds.
fn serve_until<R>(
    rt: R,
    listener: TcpListener,
    until: StopCondition,
    state: &Arc<LoopServer<R, Table>, Global>,
    host: &mut Host,
) -> anyhow::Result<()>
where
    R: AllocGlobal + Input<Reader = StdinLock<'static>> + Print + Eprint,
    R: Net<Listener = TcpListener, Stream = TcpStream> + Threads + Wait + Clock,
    R: Copy + Drop + Send + Sync + 'static,
    requires { IsHostOfLoops host.old state.now.value }
{
    if let StopCondition::Eof { .. } = until {
        stop_at_end(rt, rt.reader(), state)?;
    }
    print_address(&rt, &listener, false)?;
    listen_on_loops(rt, rt.alloc(), listener, state, host)?;
    Ok(())
}

// Starts a thread that stops the server at the end of the input.
fn stop_at_end<R, I>(
    rt: R,
    input: I,
    state: &Arc<LoopServer<R, Table>, Global>,
) -> anyhow::Result<()>
where
    R: Threads + Wait + Copy + Drop + Send + Sync + 'static,
    I: Read + Drop + Send + 'static,
{
    let stopped_state = Arc::try_clone(state)?;
    thread::spawn(&rt, move || {
        read_to_end(input);
        stopped_state.stop(&rt);
    })?;
    Ok(())
}

// Prints how a run has ended, and returns the exit status.
fn print_end<R: Print + Eprint>(
    rt: &R,
    until: StopCondition,
    saved: Result<(), SaveFault>,
    served: anyhow::Result<()>,
    counts: Counts,
) -> anyhow::Result<u8> {
    if let Err(fault) = saved {
        eprintln!(rt; "store: {fault}")?;
        return Ok(STATUS_FAULT);
    }
    served?;
    if let StopCondition::Eof { .. } = until {
        let Counts { documents, entries } = counts;
        eprintln!(rt; "ended: {documents} documents, {entries} operations")?;
    }
    Ok(STATUS_OK)
}
