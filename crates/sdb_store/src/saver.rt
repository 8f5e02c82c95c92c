//! Taking stored entries from a backend, and writing their lines.
ghost use Rattle.std.specs.Prelude.{◌≡◌, ◌⊎◌, ◌+◌, ◌<◌, ◌++◌, ◌∷◌, [], List, ℕ, IfOk, OnOk, OnErr, length, slice_get, Some};
ghost use Rattle.sdb_dump.specs.JournalText.{number_line};
ghost use Rattle.sdb_dump.specs.StoreMachine.{IsIn};
ghost use Rattle.sdb_backend.specs.PassModel.{IsPassOfBackend};
ghost use Rattle.sdb_backend.specs.UnsavedEntries.{plain_entry_at};
ghost use Rattle.sdb_store.specs.SaverModel.{lines_of, saver_pass, unwritten_lines, places_left, reserved_number, HasBlockLine, IsLineAt, AddsLines, TakesWithLines, CommitsRound};

use crate::line_writer::{LineWriter, WriteFault};
use sdb_backend::{Backend, EntryAt, Pass, SHARD_COUNT};
use sdb_dump::{entry_line, number_line};
use sdb_progress::RoundFailure;
use sdb_submit::Desk;
use sdb_value::MAX;
use std::alloc::{AllocError, Global};
use std::sync::Wait;
use thiserror::Error;

// Number of the numbers of a block.
const BLOCK_SIZE: u64 = 1_024;

/// The reason why a round isn't committed.
#[derive(Clone, Copy, PartialEq, Eq, Debug, Error)]
pub enum SaveFault {
    /// An allocation failed. Nothing is lost, and the round can be repeated.
    #[error("out of memory")]
    OutOfMemory,
    /// The lines can't be written now. Nothing is lost, and the round can be repeated.
    #[error("{0}")]
    Retry(RoundFailure),
    /// The journal is closed by a failure.
    #[error("the journal is closed by a failure")]
    Closed,
    /// The journal was moved, removed or replaced.
    #[error("the file was moved, removed or replaced")]
    Moved,
    /// The backend doesn't list stored entries, or a listed one doesn't exist.
    #[error("the list of stored entries isn't complete")]
    Incomplete,
    /// No number is left for a session.
    #[error("no number is left for a session")]
    OutOfNumbers,
}

impl SaveFault {
    /// Returns why the round failed, if it can be repeated.
    pub fn failure(self) -> Option<RoundFailure> {
        match self {
            SaveFault::OutOfMemory => Some(RoundFailure::OutOfMemory),
            SaveFault::Retry(failure) => Some(failure),
            _ => None,
        }
    }

    /// Returns whether the round can be repeated.
    pub fn is_temporary(self) -> bool {
        self.failure().is_some()
    }
}

impl From<AllocError> for SaveFault {
    fn from(_error: AllocError) -> SaveFault {
        SaveFault::OutOfMemory
    }
}

impl From<WriteFault> for SaveFault {
    fn from(fault: WriteFault) -> SaveFault {
        match fault {
            WriteFault::Retry(failure) => SaveFault::Retry(failure),
            WriteFault::Closed => SaveFault::Closed,
            WriteFault::Moved => SaveFault::Moved,
        }
    }
}

/// Saves the entries that a backend [lists](Backend::list_unsaved), with a pass of its own.
#[derive(Drop)]
pub struct Saver {
    alloc: Global,
    pub(crate) pass: Pass,
    // The entries of a shard that were taken last, and how many of them have a line in the group.
    pub(crate) taken: Vec<EntryAt>,
    pub(crate) position: usize,
    // The lines that are to be written.
    group: Vec<Vec<u8>>,
    // The highest number of the written blocks, and of the group's.
    reserved: u64,
    group_reserved: u64,
}

impl Saver {
    /// Creates the saver of a journal by which numbers up to `reserved` may be given to sessions.
    pub fn new(alloc: Global, pass: Pass, reserved: u64) -> Saver
        ensures pass { saver_pass result ≡ pass }
        ensures reserved { reserved_number result ≡ reserved }
        ensures nothing_unwritten { (unwritten_lines result ≡ []) × (places_left result ≡ []) × HasBlockLine result }
    {
        Saver {
            alloc,
            pass,
            taken: Vec::new(alloc),
            position: 0,
            group: Vec::new(alloc),
            reserved,
            group_reserved: reserved,
        }
    }

    /// Returns the highest number that may be given to a session.
    pub fn reserved(&self) -> u64
        ensures { result ≡ reserved_number self.now }
    {
        self.reserved
    }

    /// Takes all listed entries, and writes their lines as one group; also a block of numbers, if
    /// numbers up to `number` aren't reserved. A journal has numbers up to 2^53 - 1.
    ///
    /// # Errors
    ///
    /// [`SaveFault::Retry`] or [`SaveFault::Closed`] if the writer fails,
    /// [`SaveFault::OutOfMemory`] if an allocation fails, [`SaveFault::Incomplete`] if the backend doesn't
    /// list its entries, and [`SaveFault::OutOfNumbers`] if a journal can't have the number.
    pub fn save_round<R: Wait + Drop, W: LineWriter>(
        &mut self,
        backend: &Backend<R>,
        writer: &mut W,
        number: u64,
    ) -> Result<(), SaveFault>
        requires { IsPassOfBackend (saver_pass self.old) backend.now }
        ensures pass { IsPassOfBackend (saver_pass self.new) backend.now }
        ensures committed { W.trusts writer.new → OnOk result
            (CommitsRound backend.now W.has_lines self.old self.new writer.old writer.new) }
        ensures kept_on_err { OnErr result (AddsLines backend.now self.old self.new) }
        ensures block { HasBlockLine self.old → HasBlockLine self.new }
    {
        self.add_block(backend, number)?;
        self.add_entries(backend)?;
        self.write_group(writer)
    }

    // Adds a block of numbers to the group, unless numbers up to this one are reserved.
    fn add_block<R>(&mut self, backend: &Backend<R>, number: u64) -> Result<(), SaveFault>
        ensures pass { saver_pass self.new ≡ saver_pass self.old }
        ensures added { AddsLines backend.now self.old self.new }
    {
        if number <= self.group_reserved {
            return Ok(());
        }
        if number > MAX {
            return Err(SaveFault::OutOfNumbers);
        }
        let reserved = number.saturating_add(BLOCK_SIZE - 1).min(MAX);
        let line = number_line(self.alloc, reserved)?;
        push_line(&mut self.group, line)?;
        self.group_reserved = reserved;
        Ok(())
    }

    // Adds the lines of the listed entries of all shards to the group.
    fn add_entries<R: Wait + Drop>(&mut self, backend: &Backend<R>) -> Result<(), SaveFault>
        requires { IsPassOfBackend (saver_pass self.old) backend.now }
        ensures pass { IsPassOfBackend (saver_pass self.new) backend.now }
        ensures added { AddsLines backend.now self.old self.new }
        ensures none_left { OnOk result (places_left self.new ≡ []) }
        ensures taken { OnOk result ((shard : ℕ) → shard < 8
            → TakesWithLines backend.now (unwritten_lines self.new) shard) }
    {
        self.add_taken(backend)?;
        for shard in 0..SHARD_COUNT {
            let Some(taken) = backend.take_unsaved(&mut self.pass, shard) else {
                return Err(SaveFault::Incomplete);
            };
            self.taken = taken;
            self.position = 0;
            self.add_taken(backend)?;
        }
        Ok(())
    }

    // Adds the lines of the taken entries to the group.
    fn add_taken<R: Wait + Drop>(&mut self, backend: &Backend<R>) -> Result<(), SaveFault>
        requires { IsPassOfBackend (saver_pass self.old) backend.now }
        ensures pass { IsPassOfBackend (saver_pass self.new) backend.now }
        ensures added { AddsLines backend.now self.old self.new }
        ensures none_left { OnOk result (places_left self.new ≡ []) }
    {
        while self.position < self.taken.len() {
            self.add_next_line(backend)?;
        }
        Ok(())
    }

    // Adds the line of the next taken entry to the group.
    fn add_next_line<R: Wait + Drop>(&mut self, backend: &Backend<R>) -> Result<(), SaveFault>
        requires pass { IsPassOfBackend (saver_pass self.old) backend.now }
        requires position { self.old.position < length self.old.taken.items }
        ensures pass { IsPassOfBackend (saver_pass self.new) backend.now }
        ensures added { AddsLines backend.now self.old self.new }
        ensures taken_unchanged { self.new.taken ≡ self.old.taken }
        ensures position { OnOk result (self.new.position ≡ self.old.position + 1) }
    {
        let line = self.next_line(backend)?;
        push_line(&mut self.group, line)?;
        self.position += 1;
        Ok(())
    }

    // Returns the line of the next taken entry.
    fn next_line<R: Wait + Drop>(&mut self, backend: &Backend<R>) -> Result<Vec<u8>, SaveFault>
        requires { IsPassOfBackend (saver_pass self.old) backend.now }
        ensures pass { IsPassOfBackend (saver_pass self.new) backend.now }
        ensures others_unchanged { self.new ≡ record self.old { pass = saver_pass self.new } }
        ensures line { IfOk result (λ line. (e : _) × (slice_get self.old.taken.items self.old.position ≡ Some e)
            × IsLineAt backend.now (plain_entry_at e) line.items) }
    {
        let Some(place) = self.taken.get(self.position) else {
            return Err(SaveFault::Incomplete);
        };
        read_line(self.alloc, backend, &mut self.pass, place)
    }

    // Writes the group, if it has lines. After a failure it is kept.
    fn write_group<W: LineWriter>(&mut self, writer: &mut W) -> Result<(), SaveFault>
        ensures pass { saver_pass self.new ≡ saver_pass self.old }
        ensures places_unchanged { places_left self.new ≡ places_left self.old }
        ensures committed { W.trusts writer.new → OnOk result ((lines : List (List ℕ)) → W.has_lines lines writer.old
            → W.has_lines (lines ++ unwritten_lines self.old) writer.new) }
        ensures none_left { OnOk result (unwritten_lines self.new ≡ []) }
        ensures block { OnOk result (HasBlockLine self.old → HasBlockLine self.new
            × ((reserved_number self.new ≡ reserved_number self.old)
            ⊎ IsIn (number_line (reserved_number self.new)) (unwritten_lines self.old))) }
        ensures unchanged_on_err { OnErr result (self.new ≡ self.old) }
    {
        if self.group.is_empty() {
            return Ok(());
        }
        let group = std::mem::replace(&mut self.group, Vec::new(self.alloc));
        match writer.write(group) {
            Ok(()) => {
                self.reserved = self.group_reserved;
                Ok(())
            }
            Err((fault, group)) => {
                self.group = group;
                Err(SaveFault::from(fault))
            }
        }
    }
}

// Reads an entry, and returns its line.
fn read_line<R: Wait + Drop>(
    alloc: Global,
    backend: &Backend<R>,
    pass: &mut Pass,
    place: &EntryAt,
) -> Result<Vec<u8>, SaveFault>
    requires { IsPassOfBackend pass.old backend.now }
    ensures pass { IsPassOfBackend pass.new backend.now }
    ensures line { IfOk result (λ line. IsLineAt backend.now (plain_entry_at place.now) line.items) }
{
    let EntryAt { key, version } = place;
    let entries = backend.ops_between(pass, key, *version, version.saturating_add(1))?;
    match entries.first() {
        Some(entry) => Ok(entry_line(alloc, key, entry)?),
        None => Err(SaveFault::Incomplete),
    }
}

// Adds the line to the group.
fn push_line(group: &mut Vec<Vec<u8>>, line: Vec<u8>) -> Result<(), AllocError>
    ensures added { OnOk result (lines_of group.new.items ≡ lines_of group.old.items ++ line.items ∷ []) }
    ensures unchanged_on_err { OnErr result (group.new.items ≡ group.old.items) }
{
    group.push(line)?;
    Ok(())
}
