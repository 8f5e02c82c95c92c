//! Reading the lines of a copy of a store, for a new one.
ghost use Rattle.std.specs.Prelude.{IfOk};
ghost use Rattle.sdb_store.specs.RestorerModel.{IsRestorer};

use crate::load::{LoadedDump, push_copy};
use sdb_backend::Counts;
use sdb_linefile::{LineFileError, LineSink, UnreadFile};
use sdb_store::{RestoreFault, Restorer};
use sqlite::Alter;
use std::alloc::{AllocError, Global};
use std::fs;
use std::fs::Files;

/// Returns whether the path is free for a new store. Otherwise prints why not.
///
/// # Errors
///
/// The [`io::Error`](std::io::Error) of looking for the file, or of printing a line.
pub fn is_new_path<R: Eprint + Files>(rt: &R, path: &str) -> anyhow::Result<bool> {
    if fs::exists(rt, path)? {
        eprintln!(rt; "store: {path}: the file exists")?;
        return Ok(false);
    }
    Ok(true)
}

// Keeps the lines of a file up to the first one that isn't restored.
#[derive(Drop)]
struct AcceptedLines {
    restorer: Restorer,
    lines: Vec<Vec<u8>>,
    is_out_of_memory: bool,
}

impl AcceptedLines {
    // Restores a line and keeps a copy of it.
    fn accept(&mut self, line: &[u8]) -> Result<(), RestoreFault>
        requires { IsRestorer self.old.restorer }
        ensures { IsRestorer self.new.restorer }
    {
        self.restorer.restore_line(line)?;
        let alloc = *self.lines.allocator();
        push_copy(alloc, &mut self.lines, line)?;
        Ok(())
    }
}

impl LineSink for AcceptedLines {
    ghost use Rattle.std.specs.Prelude.{⊤};

    ghost accepts = { λ _ _ _. ⊤ };

    ghost use Rattle.sdb_store.specs.RestorerModel.{IsRestorer};

    ghost holds = { λ s. IsRestorer s.restorer };

    fn receive(&mut self, line: &[u8]) -> bool {
        let accepted = self.accept(line);
        self.is_out_of_memory = accepted == Err(RestoreFault::OutOfMemory);
        accepted.is_ok()
    }
}

/// Reads the lines of a copy of a store up to the first one that isn't accepted.
///
/// # Errors
///
/// [`LineFileError::OutOfMemory`] if an allocation fails.
pub fn recover_lines<R, S>(rt: R, copy: UnreadFile<S>) -> Result<LoadedDump, LineFileError>
where
    R: AllocGlobal + Drop,
    S: Alter + Drop,
{
    let (lines, read) = accepted_lines(rt.alloc(), copy)?;
    match read {
        Err(error) if error == LineFileError::OutOfMemory => Err(error),
        _ => counted_lines(rt, lines, "recovered"),
    }
}

/// Reads all lines of a copy of a store.
///
/// # Errors
///
/// The [`LineFileError`] of reading a line, and [`LineFileError::Refused`] if it isn't accepted.
pub fn backup_lines<R, S>(rt: R, copy: UnreadFile<S>) -> Result<LoadedDump, LineFileError>
where
    R: AllocGlobal + Drop,
    S: Alter + Drop,
{
    let (lines, read) = accepted_lines(rt.alloc(), copy)?;
    read?;
    counted_lines(rt, lines, "saved")
}

// Returns the lines up to the first one that isn't accepted, and why it isn't.
fn accepted_lines<S: Alter + Drop>(
    alloc: Global,
    copy: UnreadFile<S>,
) -> Result<(Vec<Vec<u8>>, Result<(), LineFileError>), LineFileError> {
    let mut sink = AcceptedLines {
        restorer: Restorer::new(alloc)?,
        lines: Vec::new(alloc),
        is_out_of_memory: false,
    };
    let read = match copy.restore(&mut sink) {
        Ok(_) => Ok(()),
        Err(_) if sink.is_out_of_memory => Err(LineFileError::OutOfMemory),
        Err(error) => Err(error),
    };
    let AcceptedLines { lines, .. } = sink;
    Ok((lines, read))
}

// Returns the lines with the numbers of their documents and entries.
fn counted_lines<R>(
    rt: R,
    lines: Vec<Vec<u8>>,
    verb: &'static str,
) -> Result<LoadedDump, LineFileError>
where
    R: AllocGlobal + Drop,
{
    match count_lines(rt, lines.as_slice()) {
        Ok(counts) => Ok(LoadedDump {
            lines,
            counts,
            verb,
        }),
        Err(_) => Err(LineFileError::OutOfMemory),
    }
}

// Returns the numbers of documents and entries in lines that are accepted.
fn count_lines<R>(rt: R, lines: &[Vec<u8>]) -> Result<Counts, RestoreFault>
where
    R: AllocGlobal + Drop,
{
    let mut restorer = Restorer::new(rt.alloc())?;
    restore_all(&mut restorer, lines)?;
    let restored = restorer.finish(rt)?;
    Ok(restored.backend.counts())
}

fn restore_all(restorer: &mut Restorer, lines: &[Vec<u8>]) -> Result<(), RestoreFault>
    requires { IsRestorer restorer.old }
    ensures { IsRestorer restorer.new }
{
    for line in lines {
        restorer.restore_line(line.as_slice())?;
    }
    Ok(())
}
