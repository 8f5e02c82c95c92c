//! What is done with a store file.
ghost use Rattle.sdb_backend.specs.PassModel.{IsHostOfBackend};

use crate::clients::refuse_closed_input;
use crate::close::print_audit;
use crate::load::{LoadedDump, read_dump};
use crate::options::RunMode;
use crate::store_file::{FileWriter, print_file_fault, restore, restore_lines};
use crate::stored::serve_file;
use crate::stored_lines::answer_stored;
use sdb_backend::Counts;
use sdb_cli::{STATUS_FAULT, STATUS_OK};
use sdb_linefile::{FilePlace, LineFile, UnreadFile};
use sdb_projection::Table;
use sdb_store::RestoredBackend;
use sqlite::Alter;
use std::fs;
use std::fs::Files;
use std::io::StdinLock;
use std::net::{Net, TcpListener, TcpStream};
use std::sync::Wait;
use std::thread::Threads;
use std::time::Clock;

/// The verb of entries that were accepted.
pub(crate) const ACCEPTED: &str = "accepted";

/// What is done with a store that is open.
#[derive(Drop)]
pub enum StoreJob {
    /// Clients, or a session of lines, are served, and each stored operation is saved in the file.
    Serve(RunMode, Table),
    /// The entries of a dump are stored in the file, which must be new.
    Load(LoadedDump),
}

/// Returns what is done with the store at a path in this mode. The file of a load must not exist, and
/// the dump is read; an input whose end stops a server must be open. Otherwise prints why not, and
/// returns the exit status. The file isn't touched.
///
/// # Errors
///
/// The [`io::Error`](std::io::Error) of looking for the file, or of printing a line.
pub fn prepare_job<R>(
    rt: R,
    path: &str,
    mode: RunMode,
    table: Table,
) -> anyhow::Result<Result<StoreJob, u8>>
where
    R: AllocGlobal + Input<Reader = StdinLock<'static>> + Eprint + Files + Copy + Drop,
{
    match mode {
        RunMode::Load => prepare_load(rt, path),
        RunMode::Listen { until, .. } => match refuse_closed_input(&rt, until)? {
            Some(status) => Ok(Err(status)),
            None => Ok(Ok(StoreJob::Serve(mode, table))),
        },
        _ => Ok(Ok(StoreJob::Serve(mode, table))),
    }
}

// Reads the dump, unless its file exists.
fn prepare_load<R>(rt: R, path: &str) -> anyhow::Result<Result<StoreJob, u8>>
where
    R: AllocGlobal + Input<Reader = StdinLock<'static>> + Eprint + Files + Copy + Drop,
{
    if fs::exists(&rt, path)? {
        eprintln!(&rt; "store: --load needs a new file")?;
        return Ok(Err(STATUS_FAULT));
    }
    match read_dump(rt.alloc(), rt.reader()) {
        Ok(dump) => Ok(Ok(StoreJob::Load(dump))),
        Err(fault) => {
            eprintln!(&rt; "load: {fault}")?;
            Ok(Err(STATUS_FAULT))
        }
    }
}

/// Serves clients, or a session of lines, with the documents of a file that was opened at this place.
/// Returns the exit status and the file. A server ends with status 1 if its file is moved, removed or
/// replaced.
///
/// # Errors
///
/// As [`serve_at`](crate::serve_at).
pub fn serve_stored<R, S>(
    rt: R,
    file: LineFile<S>,
    restored: RestoredBackend<R>,
    place: FilePlace,
    mode: RunMode,
    table: Table,
) -> anyhow::Result<(u8, LineFile<S>)>
where
    R: AllocGlobal + Input<Reader = StdinLock<'static>> + Print + Eprint,
    R: Net<Listener = TcpListener, Stream = TcpStream> + Threads + Wait + Clock,
    R: Copy + Drop + Send + Sync + 'static,
    S: Alter + Drop + Send + 'static,
    requires { IsHostOfBackend restored.host restored.backend }
{
    let writer = FileWriter::new(file, place);
    match mode {
        RunMode::Listen {
            address,
            until,
            options,
        } => serve_file(rt, restored, writer, address, until, options, table),
        _ => answer_stored(rt, restored, writer, &table),
    }
}

/// Checks a copy of the store at a path, or writes its dump to standard output. Returns the exit
/// status.
///
/// # Errors
///
/// The error of writing the answer.
pub fn read_copy<R, S>(rt: R, path: &str, copy: UnreadFile<S>, mode: RunMode) -> anyhow::Result<u8>
where
    R: AllocGlobal + Print + Eprint + Copy + Drop,
    S: Alter + Drop,
{
    match mode {
        RunMode::Dump => dump_file(&rt, path, copy),
        _ => check_file(rt, path, copy),
    }
}

// Restores the file, and prints its numbers of documents and entries. Returns the exit status.
fn check_file<R, S>(rt: R, path: &str, file: UnreadFile<S>) -> anyhow::Result<u8>
where
    R: AllocGlobal + Print + Eprint + Copy + Drop,
    S: Alter + Drop,
{
    match restore(rt, file) {
        Ok((_, restored)) => print_counts(&rt, ACCEPTED, restored.backend.counts()),
        Err(error) => print_file_fault(&rt, path, error),
    }
}

/// Prints what was done with these numbers of documents and entries, and returns the exit status.
pub(crate) fn print_counts(rt: &impl Print, verb: &str, counts: Counts) -> anyhow::Result<u8> {
    let Counts { documents, entries } = counts;
    println!(rt; "{verb} {documents} documents, {entries} entries")?;
    Ok(STATUS_OK)
}

// Restores the file, and writes its dump. Returns the exit status.
fn dump_file<R, S>(rt: &R, path: &str, file: UnreadFile<S>) -> anyhow::Result<u8>
where
    R: AllocGlobal + Print + Eprint,
    S: Alter + Drop,
{
    match restore_lines(rt.alloc(), file) {
        Ok((_, restorer)) => print_audit(rt, &restorer.into_audit(), true),
        Err(error) => print_file_fault(rt, path, error),
    }
}
