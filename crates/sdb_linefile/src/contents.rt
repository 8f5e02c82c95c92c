//! Opening a copy of a file of lines in memory.
ghost use Rattle.std.specs.Prelude.{◌≡◌, false, ℕ, List, [], IsTrue, IfOk, OnOk};
ghost use Rattle.sqlite_disk.specs.Memory.{memory_bytes, memory_is_usable};
ghost use Rattle.sqlite.specs.Files.{IsOpened, file_state};
ghost use Rattle.sqlite.specs.Start.{FindsIn};
ghost use Rattle.sqlite.specs.State.{HasCleanDisk};
ghost use Rattle.sdb_linefile.specs.LineTable.{line_schema};
ghost use Rattle.sqlite_wal.specs.Recovery.{Image};
ghost use Rattle.sdb_linefile.specs.Contents.{image_of_contents, IsReadOf};
ghost use Rattle.sdb_linefile.specs.Damage.{IsUndamaged, HasLostLog};
ghost use Rattle.sdb_linefile.specs.LineFile.{FilesContain, IsLineFile, IsUnreadFileOf, unread_state};

use crate::damage::Damage;
use crate::error::LineFileError;
use crate::files::{FileContents, read_files};
use crate::line_file::UnreadFile;
use crate::line_table::{is_empty_schema, is_line_schema};
use crate::mark::has_mark;
use crate::online::read_online_files;
use crate::opening::settle;
use sqlite::{Alter, Connection, FileStore, Files, Options};
use sqlite_disk::{Disk, Memory};
use std::alloc::Global;

/// A seed of the salts of a log in memory.
const SEED: u64 = 0;

/// Opens a copy of the file of lines at a path, in memory. Nothing is created or written.
///
/// # Errors
///
/// - [`LineFileError::Busy`] if another process has the file open.
/// - [`LineFileError::NotFound`] if there is no file.
/// - [`LineFileError::DamagedFiles`] if an open of the file would lose lines.
/// - As [`open_contents`].
///
/// ```
/// let unread = open_copy(&rt, "edits.store")?;
/// unread.restore(&mut sink)?;
/// ```
pub fn open_copy(
    rt: &HostRuntime,
    path: &str,
) -> Result<UnreadFile<FileStore<Memory>>, LineFileError>
    ensures { IfOk result (λ opened. HasCleanDisk (unread_state opened) →
        (image : Image) × IsUndamaged image × IsReadOf image opened) }
{
    let contents = read_files(rt, path)?;
    open_contents(rt.alloc(), contents)
}

/// Opens a copy of the file of lines at a path, in memory, while another process may write it.
/// Nothing is created, written or locked.
///
/// # Errors
///
/// - As [`read_online_files`].
/// - As [`open_contents`].
pub fn open_online_copy(
    rt: &HostRuntime,
    path: &str,
) -> Result<UnreadFile<FileStore<Memory>>, LineFileError>
    ensures { IfOk result (λ opened. HasCleanDisk (unread_state opened) →
        (image : Image) × IsUndamaged image × IsReadOf image opened) }
{
    let contents = read_online_files(rt, path)?;
    open_contents(rt.alloc(), contents)
}

/// Opens a file of lines by its contents, in memory.
///
/// # Errors
///
/// - [`LineFileError::Empty`] if the file is empty, or a database without tables.
/// - [`LineFileError::ForeignFile`] if the file is a database of another program.
/// - [`LineFileError::Damaged`] if the file is no database, or it is damaged.
/// - [`LineFileError::OutOfMemory`] if an allocation fails.
pub fn open_contents(
    alloc: Global,
    contents: FileContents,
) -> Result<UnreadFile<FileStore<Memory>>, LineFileError>
    ensures { IfOk result (λ opened. HasCleanDisk (unread_state opened) →
        IsReadOf (image_of_contents contents) opened) }
{
    let conn = connect(alloc, contents)?;
    settle(&conn);
    adopt_lines(conn)
}

/// Refuses a database file without a log that wasn't closed.
pub(crate) fn refuse_missing_log(alloc: Global, file: &[u8]) -> Result<(), LineFileError>
    ensures { OnOk result (¬ HasLostLog (record { log = []; db = file.now })) }
{
    if is_marked(alloc, file)? {
        return Err(LineFileError::DamagedFiles(Damage::MissingLog));
    }
    Ok(())
}

// Returns whether a database file without a log has the mark.
fn is_marked(alloc: Global, file: &[u8]) -> Result<bool, LineFileError>
    ensures some { IfOk result (λ marked. IsTrue marked → (lines : List (List ℕ)) →
        FilesContain lines (record { log = []; db = file.now }) → HasLostLog (record { log = []; db = file.now })) }
    ensures none { IfOk result (λ marked. marked ≡ false → ¬ HasLostLog (record { log = []; db = file.now })) }
{
    let mut copy = Vec::new(alloc);
    copy.extend_from_slice(file)?;
    let log = Vec::new(alloc);
    let mut conn = connect(alloc, FileContents { file: copy, log })?;
    if is_empty_schema(conn.schema()) {
        return Ok(false);
    }
    if !is_line_schema(conn.schema()) {
        return Err(LineFileError::ForeignFile);
    }
    Ok(has_mark(&mut conn)?)
}

// Connects to a copy of the files, in memory.
fn connect(
    alloc: Global,
    contents: FileContents,
) -> Result<Connection<FileStore<Memory>>, LineFileError>
    ensures autocommit { IfOk result (λ conn. conn.in_transaction ≡ false) }
    ensures opened { IfOk result (λ conn. HasCleanDisk (file_state conn) → IsOpened conn) }
    ensures found { IfOk result (λ conn. HasCleanDisk (file_state conn) →
        FindsIn (image_of_contents contents) (file_state conn)) }
{
    let FileContents { file, log } = contents;
    let log = memory_of(alloc, log)?;
    let db = memory_of(alloc, file)?;
    match Connection::open_files(alloc, Files { log, db }, Options::new(SEED)) {
        Ok(conn) => Ok(conn),
        Err((error, _)) => Err(LineFileError::from(error)),
    }
}

// Returns a disk in memory with these bytes.
fn memory_of(alloc: Global, bytes: Vec<u8>) -> Result<Memory, LineFileError>
    ensures bytes { IfOk result (λ disk. memory_bytes disk ≡ bytes.items) }
    ensures usable { IfOk result (λ disk. IsTrue (memory_is_usable disk)) }
{
    let mut disk = Memory::new(alloc);
    disk.write_at(0, bytes.as_slice())?;
    Ok(disk)
}

/// Takes a connection to a file of lines, and creates none.
pub(crate) fn adopt_lines<S: Alter + Drop>(
    conn: Connection<S>,
) -> Result<UnreadFile<S>, LineFileError>
    requires { conn.in_transaction ≡ false }
    ensures { IfOk result (λ file. (conn.schema ≡ line_schema) × (file.conn ≡ conn)) }
{
    if is_line_schema(conn.schema()) {
        return Ok(UnreadFile::new(conn));
    }
    if is_empty_schema(conn.schema()) {
        return Err(LineFileError::Empty);
    }
    Err(LineFileError::ForeignFile)
}
