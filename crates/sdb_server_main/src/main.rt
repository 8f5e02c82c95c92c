//! The server program: `--listen ADDR` serves WebSocket clients, `--lines` serves one session of
//! lines on standard input and output. With `--store FILE` the documents are in a file.
#![tactic(auto)]

ghost use Rattle.std.specs.Prelude.{IfOk};
ghost use Rattle.sdb_backend.specs.PassModel.{IsHostOfBackend};

use sdb_cli::STATUS_FAULT;
use sdb_linefile::{
    FilePlace, LineFile, LineFileError, close, mark_file, open_copy, open_online_copy,
    open_or_create, open_sound_copy,
};
use sdb_server_cli::{
    LoadedDump, ParsedArgs, RunMode, StoreJob, StorePaths, backup_lines, is_new_path, parse_run,
    prepare_job, print_closed, print_file_fault, read_copy, recover_lines, restore,
    restore_nothing, run_mode, serve_stored, store_dump,
};
use sdb_store::RestoredBackend;
use sqlite::{FileFrom, FileStore, Unknown};
use std::env;
use std::process::ExitCode;

fn main(rt: HostRuntime) -> anyhow::Result<ExitCode> {
    let words: Vec<String> = env::args(&rt)?.collect(rt.alloc())?;
    let (mode, table, store) = match parse_run(&rt, words.as_slice())? {
        ParsedArgs::Run(mode, table, store) => (mode, table, store),
        ParsedArgs::Help(status) => return Ok(ExitCode::from(status)),
    };
    let Some(StorePaths { file: path, new }) = store else {
        return Ok(ExitCode::from(run_mode(rt, mode, table)?));
    };
    if let Some(new) = new {
        return Ok(ExitCode::from(copy_store(&rt, path.as_str(), new.as_str(), mode)?));
    }
    if mode.reads_copy() {
        return Ok(ExitCode::from(read_store(&rt, path.as_str(), mode)?));
    }
    let status = match prepare_job(rt, path.as_str(), mode, table)? {
        Ok(StoreJob::Serve(mode, table)) => match restore_store(rt, &rt, path.as_str()) {
            Ok((file, restored, place)) => {
                let (status, file) = serve_stored(rt, file, restored, place, mode, table)?;
                print_closed(&rt, status, close(file))?
            }
            Err(error) => print_file_fault(&rt, path.as_str(), error)?,
        },
        Ok(StoreJob::Load(dump)) => store_lines(&rt, path.as_str(), dump)?,
        Err(status) => status,
    };
    Ok(ExitCode::from(status))
}

// A store file that is open for writing.
type StoreFile = LineFile<FileStore<FileFrom<Unknown>>>;

// Opens a store, restores its documents and marks it. A file that is refused is unchanged.
fn restore_store<R: AllocGlobal + Drop>(
    rt: R,
    host: &HostRuntime,
    path: &str,
) -> Result<(StoreFile, RestoredBackend<R>, FilePlace), LineFileError>
    ensures { IfOk result (λ it. IsHostOfBackend it.1.host it.1.backend) }
{
    let file = open_or_create(host, path, Unknown)?;
    let place = FilePlace::find(host, path)?;
    let (file, restored) = restore(rt, file)?;
    Ok((mark_file(host, file)?, restored, place))
}

// Reads a copy of the store, and returns the exit status. Nothing is created or written.
fn read_store(rt: &HostRuntime, path: &str, mode: RunMode) -> anyhow::Result<u8> {
    match open_copy(rt, path) {
        Ok(copy) => read_copy(*rt, path, copy, mode),
        Err(error) => print_file_fault(rt, path, error),
    }
}

// Stores what a store has, or what is left of a damaged one, in a new one, and returns the exit
// status.
fn copy_store(rt: &HostRuntime, path: &str, new: &str, mode: RunMode) -> anyhow::Result<u8> {
    if !is_new_path(rt, new)? {
        return Ok(STATUS_FAULT);
    }
    let lines = match mode {
        RunMode::Backup => read_lines(rt, path),
        _ => read_damaged_lines(rt, path),
    };
    match lines {
        Ok(lines) => store_lines(rt, new, lines),
        Err(error) => print_file_fault(rt, path, error),
    }
}

// Reads the lines of a store, which may be served.
fn read_lines(rt: &HostRuntime, path: &str) -> Result<LoadedDump, LineFileError> {
    backup_lines(*rt, open_online_copy(rt, path)?)
}

// Reads what is left of the lines of a damaged store.
fn read_damaged_lines(rt: &HostRuntime, path: &str) -> Result<LoadedDump, LineFileError> {
    recover_lines(*rt, open_sound_copy(rt, path)?)
}

// Stores lines in a new store, and returns the exit status.
fn store_lines(rt: &HostRuntime, path: &str, lines: LoadedDump) -> anyhow::Result<u8> {
    let file = match open_new(rt, path) {
        Ok(file) => file,
        Err(error) => return print_file_fault(rt, path, error),
    };
    let (status, file) = store_dump(rt, file, lines)?;
    let closed = match file {
        Some(file) => close(file),
        None => Ok(()),
    };
    print_closed(rt, status, closed)
}

// Opens a store that has no lines yet, and marks it.
fn open_new(rt: &HostRuntime, path: &str) -> Result<StoreFile, LineFileError> {
    mark_file(rt, restore_nothing(open_or_create(rt, path, Unknown)?)?)
}
