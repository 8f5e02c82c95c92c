//! Reading a store file, and writing to it.
ghost use Rattle.std.specs.Prelude.{ℕ, List, IfOk};
ghost use Rattle.sqlite.specs.State.{HasCleanDisk};
ghost use Rattle.sdb_linefile.specs.LineFile.{IsFileOf, IsUnreadFileOf, file_state};
ghost use Rattle.sdb_backend.specs.PassModel.{IsHostOfBackend};
ghost use Rattle.sdb_store.specs.RestorerModel.{IsRestorer};
ghost use Rattle.sdb_server_cli.specs.StoreModel.{HasRestoredLines, IsBackendOfLines};

use sdb_cli::{STATUS_FAULT, STATUS_OK};
use sdb_linefile::{FilePlace, LineFile, LineFileError, LineSink, UnreadFile};
use sdb_progress::RoundFailure;
use sdb_store::{LineWriter, RestoreFault, RestoredBackend, Restorer, WriteFault};
use sqlite::Alter;
use std::alloc::Global;

/// The start of the line of a block of numbers.
pub(crate) const BLOCK_START: &[u8] = b"{\"given\":";

/// Prints why the file at a path isn't used as a store, and returns the exit status.
pub fn print_file_fault(rt: &impl Eprint, path: &str, error: LineFileError) -> anyhow::Result<u8> {
    eprintln!(rt; "store: {path}: {error}")?;
    Ok(STATUS_FAULT)
}

/// Prints why a file isn't used as a store after its open, and returns the exit status.
pub(crate) fn print_store_fault(rt: &impl Eprint, error: LineFileError) -> anyhow::Result<u8> {
    eprintln!(rt; "store: {error}")?;
    Ok(STATUS_FAULT)
}

/// Prints why a file couldn't be closed after a run with this exit status, and returns the exit status.
pub fn print_closed(
    rt: &impl Eprint,
    status: u8,
    closed: Result<(), LineFileError>,
) -> anyhow::Result<u8> {
    match closed {
        Err(error) if status == STATUS_OK => print_store_fault(rt, error),
        _ => Ok(status),
    }
}

// Passes the lines of a file to a restorer.
#[derive(Drop)]
struct RestoringSink {
    restorer: Restorer,
    is_out_of_memory: bool,
}

impl LineSink for RestoringSink {
    ghost use Rattle.sdb_store.specs.RestorerModel.{IsRestorer, RestorerAfterLine};

    ghost accepts = { λ old line new. RestorerAfterLine old.restorer new.restorer line };

    ghost holds = { λ s. IsRestorer s.restorer };

    fn receive(&mut self, line: &[u8]) -> bool {
        let restored = self.restorer.restore_line(line);
        self.is_out_of_memory = restored == Err(RestoreFault::OutOfMemory);
        restored.is_ok()
    }
}

/// Restores the lines of the file, and returns the file and the restorer.
pub(crate) fn restore_lines<S: Alter + Drop>(
    alloc: Global,
    file: UnreadFile<S>,
) -> Result<(LineFile<S>, Restorer), LineFileError>
    ensures restorer { IfOk result (λ both. IsRestorer both.1) }
    ensures lines { IfOk result (λ both. HasCleanDisk (file_state both.0) → (lines : List (List ℕ)) →
        IsUnreadFileOf lines file → IsFileOf lines both.0 × HasRestoredLines both.1 lines) }
{
    let Ok(restorer) = Restorer::new(alloc) else {
        return Err(LineFileError::OutOfMemory);
    };
    let mut sink = RestoringSink {
        restorer,
        is_out_of_memory: false,
    };
    match file.restore(&mut sink) {
        Ok(file) => {
            let RestoringSink { restorer, .. } = sink;
            Ok((file, restorer))
        }
        Err(_) if sink.is_out_of_memory => Err(LineFileError::OutOfMemory),
        Err(error) => Err(error),
    }
}

/// Restores the lines of the file, and returns the file and the backend with its documents. Nothing
/// is written.
///
/// # Errors
///
/// The [`LineFileError`] of reading a line, of a line that isn't the next one of a store, or of an
/// allocation.
pub fn restore<R, S>(
    rt: R,
    file: UnreadFile<S>,
) -> Result<(LineFile<S>, RestoredBackend<R>), LineFileError>
where
    R: AllocGlobal + Drop,
    S: Alter + Drop,
    ensures host { IfOk result (λ both. IsHostOfBackend both.1.host both.1.backend) }
    ensures lines { IfOk result (λ both. HasCleanDisk (file_state both.0) → (lines : List (List ℕ)) →
        IsUnreadFileOf lines file → IsFileOf lines both.0 × IsBackendOfLines lines both.1) }
{
    let (file, restorer) = restore_lines(rt.alloc(), file)?;
    match restorer.finish(rt) {
        Ok(restored) => Ok((file, restored)),
        Err(_) => Err(LineFileError::OutOfMemory),
    }
}

/// Writes groups of lines to a file.
#[derive(Drop)]
pub(crate) struct FileWriter<S: Alter> {
    pub(crate) file: LineFile<S>,
    // Where the file was when it was opened.
    place: FilePlace,
    // The number of entries of the group that was committed since it was asked for.
    written: Option<u64>,
}

impl<S: Alter> FileWriter<S> {
    /// Creates the writer of a file at this place.
    pub(crate) fn new(file: LineFile<S>, place: FilePlace) -> FileWriter<S> {
        FileWriter {
            file,
            place,
            written: None,
        }
    }
}

impl<S: Alter + Drop> FileWriter<S> {
    /// Returns the file.
    pub(crate) fn into_file(self) -> LineFile<S> {
        let FileWriter { file, .. } = self;
        file
    }
}

// Returns the number of lines of entries. The others are blocks of numbers.
fn count_entries(group: &[Vec<u8>]) -> u64 {
    group
        .iter()
        .filter(|line| !line.as_slice().starts_with(BLOCK_START))
        .count() as u64
}

impl<S: Alter> LineWriter for FileWriter<S> {
    ghost use Rattle.sqlite.specs.State.{HasCleanDisk};
    ghost use Rattle.sdb_linefile.specs.LineFile.{IsFileOf, file_state};

    ghost trusts = { λ w. HasCleanDisk (file_state w.file) };

    ghost has_lines = { λ lines w. IsFileOf lines w.file };

    fn check(&self) -> Result<(), WriteFault> {
        if self.place.is_kept() {
            Ok(())
        } else {
            Err(WriteFault::Moved)
        }
    }

    fn take_written(&mut self) -> Option<u64> {
        self.written.take()
    }

    fn write(&mut self, group: Vec<Vec<u8>>) -> Result<(), (WriteFault, Vec<Vec<u8>>)> {
        let entries = count_entries(group.as_slice());
        match self.file.store_group(group) {
            Ok(()) => {
                self.written = Some(entries);
                Ok(())
            }
            Err((error, group)) => Err((write_fault(error), group)),
        }
    }
}

// Returns whether a group can be written again after an error.
fn write_fault(error: LineFileError) -> WriteFault {
    match error {
        LineFileError::DiskFull => WriteFault::Retry(RoundFailure::DiskFull),
        LineFileError::DiskFailed => WriteFault::Retry(RoundFailure::DiskFailed),
        LineFileError::OutOfMemory => WriteFault::Retry(RoundFailure::OutOfMemory),
        _ => WriteFault::Closed,
    }
}
