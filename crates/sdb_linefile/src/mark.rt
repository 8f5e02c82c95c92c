//! The mark of a file that is open for writing, or that wasn't closed.
ghost use Rattle.std.specs.Prelude.{◌≡◌, false, ℕ, List, IsTrue, IfOk, OnOk, Ok, Err};
ghost use Rattle.sqlite_disk.specs.declared.Files.{Files};
ghost use Rattle.sqlite.specs.Closing.{HoldsAlone};
ghost use Rattle.sqlite.specs.Files.{IsOpened, Finds, image_of, file_state};
ghost use Rattle.sqlite.specs.State.{HasCleanDisk, IsUnchanged};
ghost use Rattle.sqlite.specs.Held.{state};
ghost use Rattle.sqlite_value.specs.declared.value.Value.{Value};
ghost use Rattle.sdb_linefile.specs.LineTable.{line_schema, ContainsLines, ShowsLines, HasMark, ShowsMark};
ghost use Rattle.sdb_linefile.specs.LineFile.{StoresLines, IsFileOf, IsMarkedFileOf, file_state as line_state};

use crate::contents::adopt_lines;
use crate::error::LineFileError;
use crate::line_file::LineFile;
use crate::opening::settle;
use sqlite::{Alter, Connection, Error, FileStore, Options, Row};
use sqlite_disk::Disk;
use std::alloc::Global;
use std::hash::{BuildHasher, RandomState};

/// Stores the mark, `open` with the number 0.
const MARK_TEXT: &str = "INSERT INTO sdb_line (number, line) VALUES (0, x'6F70656E')";

/// Deletes the mark.
const UNMARK_TEXT: &str = "DELETE FROM sdb_line WHERE number = 0";

/// Reads the mark.
const FIND_TEXT: &str = "SELECT number FROM sdb_line WHERE number = 0";

/// Stores the mark in the database file, which [`close`](crate::close) deletes, before lines are
/// stored. So a file without its log is refused if it wasn't closed.
///
/// # Errors
///
/// The [`LineFileError`] of storing or of the seed of the log. The lines are then in the file and its
/// log, perhaps with the mark.
///
/// ```
/// let mut file = mark_file(&rt, unread.restore(&mut sink)?)?;
/// file.store_group(lines)?;
/// ```
pub fn mark_file<D: Disk + Drop>(
    rt: &HostRuntime,
    file: LineFile<FileStore<D>>,
) -> Result<LineFile<FileStore<D>>, LineFileError>
    ensures clean { IfOk result (λ marked. HasCleanDisk (line_state marked) → HasCleanDisk (line_state file)) }
    ensures ok { IfOk result (λ marked. HasCleanDisk (line_state marked) → (lines : List (List ℕ)) →
        IsFileOf lines file → IsMarkedFileOf lines marked) }
{
    let seed = RandomState::new(rt)?.hash_one(&0u8);
    mark_lines(rt.alloc(), seed, file)
}

// Stores the mark, unless the file has it, and copies the log into the database file. So the
// database file has the mark without its log.
fn mark_lines<D: Disk + Drop>(
    alloc: Global,
    seed: u64,
    file: LineFile<FileStore<D>>,
) -> Result<LineFile<FileStore<D>>, LineFileError>
    ensures clean { IfOk result (λ marked. HasCleanDisk (line_state marked) → HasCleanDisk (line_state file)) }
    ensures ok { IfOk result (λ marked. HasCleanDisk (line_state marked) → (lines : List (List ℕ)) →
        IsFileOf lines file → IsMarkedFileOf lines marked) }
{
    let count = file.count;
    let mut conn = adopt_lines(file.into_connection())?.into_connection();
    put_mark(&mut conn)?;
    let conn = copy_log(alloc, seed, conn)?;
    settle(&conn);
    Ok(LineFile::new(conn, count))
}

/// Returns whether the database has the mark.
pub(crate) fn has_mark<S: Alter>(conn: &mut Connection<S>) -> Result<bool, Error>
    requires { conn.old.schema ≡ line_schema }
    ensures clean { HasCleanDisk (state S.Store conn.new) → HasCleanDisk (state S.Store conn.old) }
    ensures same { HasCleanDisk (state S.Store conn.new) → OnOk result (IsUnchanged (state S.Store conn.old)
        (state S.Store conn.new)) }
    ensures some { HasCleanDisk (state S.Store conn.new) → IfOk result (λ found. IsTrue found →
        (lines : List (List ℕ)) → ShowsLines lines (state S.Store conn.old).now
        → ShowsMark (state S.Store conn.old).now) }
    ensures none { HasCleanDisk (state S.Store conn.new) → IfOk result (λ found. found ≡ false →
        ¬ ShowsMark (state S.Store conn.old).now) }
{
    has_row(conn.query_row(FIND_TEXT, &[]))
}

// Returns whether a query had a row.
fn has_row(answer: Result<Row, Error>) -> Result<bool, Error>
    ensures some { IfOk result (λ found. IsTrue found → (row : List Value) × (answer ≡ Ok row)) }
    ensures none { IfOk result (λ found. found ≡ false → answer ≡ Err Error.QueryReturnedNoRows) }
{
    match answer {
        Ok(_) => Ok(true),
        Err(Error::QueryReturnedNoRows) => Ok(false),
        Err(error) => Err(error),
    }
}

/// Deletes the mark.
pub(crate) fn delete_mark<S: Alter>(conn: &mut Connection<S>) -> Result<usize, Error> {
    conn.execute(UNMARK_TEXT, &[])
}

// Stores the mark, unless the database has it.
fn put_mark<S: Alter>(conn: &mut Connection<S>) -> Result<(), Error>
    requires table { conn.old.schema ≡ line_schema }
    requires autocommit { conn.old.in_transaction ≡ false }
    ensures clean { HasCleanDisk (state S.Store conn.new) → HasCleanDisk (state S.Store conn.old) }
    ensures ok { HasCleanDisk (state S.Store conn.new) → OnOk result ((lines : List (List ℕ)) →
        StoresLines lines (state S.Store conn.old)
        → ContainsLines lines (state S.Store conn.new).committed.trees
        × HasMark (state S.Store conn.new).committed.trees) }
{
    let _settled = conn.is_autocommit();
    let _live = conn.schema();
    if !has_mark(conn)? {
        insert_mark(conn)?;
    }
    Ok(())
}

fn insert_mark<S: Alter>(conn: &mut Connection<S>) -> Result<usize, Error>
    ensures clean { HasCleanDisk (state S.Store conn.new) → HasCleanDisk (state S.Store conn.old) }
    ensures ok { HasCleanDisk (state S.Store conn.new) → OnOk result ((lines : List (List ℕ)) →
        ShowsLines lines (state S.Store conn.old).now → (state S.Store conn.old).in_transaction ≡ false
        → ContainsLines lines (state S.Store conn.new).committed.trees
        × HasMark (state S.Store conn.new).committed.trees) }
{
    conn.execute(MARK_TEXT, &[])
}

// Copies the log into the database file, and opens both again.
fn copy_log<D: Disk + Drop>(
    alloc: Global,
    seed: u64,
    conn: Connection<FileStore<D>>,
) -> Result<Connection<FileStore<D>>, LineFileError>
    ensures autocommit { IfOk result (λ again. again.in_transaction ≡ false) }
    ensures clean { IfOk result (λ again. HasCleanDisk (file_state again) → HasCleanDisk (file_state conn)) }
    ensures opened { IfOk result (λ again. HasCleanDisk (file_state again) → IsOpened again) }
    ensures same { IfOk result (λ again. HasCleanDisk (file_state again) →
        (file_state again).committed.trees ≡ (file_state conn).committed.trees) }
    ensures alone { IfOk result (λ again. HasCleanDisk (file_state again) → (files : Files D) × Finds files again
        × HoldsAlone (image_of D.Disk files) (file_state conn).committed.trees) }
{
    let files = match conn.close_files() {
        Ok(files) => files,
        Err((error, _)) => return Err(LineFileError::from(error)),
    };
    match Connection::open_files(alloc, files, Options::new(seed)) {
        Ok(again) => Ok(again),
        Err((error, _)) => Err(LineFileError::from(error)),
    }
}
