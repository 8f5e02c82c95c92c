//! Storing a dump in a new file.
use crate::store_file::print_store_fault;
use crate::store_task::{ACCEPTED, print_counts};
use sdb_backend::Counts;
use sdb_dump::{DumpFault, check_dump, read_line};
use sdb_linefile::{LineFile, LineFileError, LineSink, UnreadFile};
use sdb_lines::{CountingReader, first_line_feed};
use sqlite::Alter;
use std::alloc::{AllocError, Global};
use std::io::{ErrorKind, Read};

/// The lines of a dump that was checked, or of a store that is recovered.
#[derive(Drop)]
pub struct LoadedDump {
    pub(crate) lines: Vec<Vec<u8>>,
    pub(crate) counts: Counts,
    // What was done with the entries.
    pub(crate) verb: &'static str,
}

/// Reads a dump to its end, and checks it: each of its entries is the one that is stored for its
/// submission. A store has no entry of number 0, which is no session's.
pub(crate) fn read_dump<I: Read + Drop>(alloc: Global, input: I) -> Result<LoadedDump, DumpFault> {
    let text = read_text(alloc, input)?;
    let documents = check_dump(alloc, &mut CountingReader::new(text.as_slice()))?.documents;
    let lines = entry_lines(alloc, text.as_slice())?;
    let entries = lines.len() as u64;
    Ok(LoadedDump {
        lines,
        counts: Counts { documents, entries },
        verb: ACCEPTED,
    })
}

fn read_text<I: Read + Drop>(alloc: Global, mut input: I) -> Result<Vec<u8>, DumpFault> {
    let mut text = Vec::new(alloc);
    match input.read_to_end(&mut text) {
        Ok(_) => Ok(text),
        Err(error) => match error.kind() {
            ErrorKind::OutOfMemory => Err(DumpFault::OutOfMemory),
            _ => Err(DumpFault::ReadFailed),
        },
    }
}

// Returns the lines of the entries of a dump that was checked: all but the header and the count.
fn entry_lines(alloc: Global, text: &[u8]) -> Result<Vec<Vec<u8>>, DumpFault> {
    let mut lines: Vec<Vec<u8>> = Vec::new(alloc);
    let mut rest = text;
    for _ in 0..u64::MAX {
        let Some(at) = first_line_feed(rest) else {
            return Ok(lines);
        };
        let line = &rest[..at];
        rest = &rest[at + 1..];
        match read_line(alloc, line)? {
            Some(content) if content.submission.by() == 0 => {
                let line = lines.len() as u128 + 2;
                return Err(DumpFault::WrongLine { line });
            }
            Some(_) => push_copy(alloc, &mut lines, line)?,
            None => {}
        }
    }
    Ok(lines)
}

// Appends a copy of the line.
pub(crate) fn push_copy(
    alloc: Global,
    lines: &mut Vec<Vec<u8>>,
    line: &[u8],
) -> Result<(), AllocError> {
    let mut copy = Vec::with_capacity(alloc, line.len())?;
    copy.extend_from_slice(line)?;
    lines.push(copy)?;
    Ok(())
}

// Refuses each line of a file.
#[derive(Drop)]
struct NoLines;

impl LineSink for NoLines {
    ghost use Rattle.std.specs.Prelude.{⊤};

    ghost accepts = { λ _ _ _. ⊥ };

    ghost holds = { λ _. ⊤ };

    fn receive(&mut self, _line: &[u8]) -> bool {
        false
    }
}

/// Returns a file that has no lines.
///
/// # Errors
///
/// The [`LineFileError`] of reading it, or [`LineFileError::Refused`] if it has a line.
pub fn restore_nothing<S: Alter + Drop>(file: UnreadFile<S>) -> Result<LineFile<S>, LineFileError> {
    file.restore(&mut NoLines)
}

/// Stores lines in a file without lines, in one transaction, and prints the numbers of their
/// documents and entries. Returns the exit status, and the file if they were stored.
///
/// # Errors
///
/// The error of printing a line.
pub fn store_dump<R, S>(
    rt: &R,
    mut file: LineFile<S>,
    dump: LoadedDump,
) -> anyhow::Result<(u8, Option<LineFile<S>>)>
where
    R: Print + Eprint,
    S: Alter + Drop,
{
    let LoadedDump {
        lines,
        counts,
        verb,
    } = dump;
    match file.store_group(lines) {
        Ok(()) => Ok((print_counts(rt, verb, counts)?, Some(file))),
        Err((error, _)) => Ok((print_store_fault(rt, error)?, None)),
    }
}
