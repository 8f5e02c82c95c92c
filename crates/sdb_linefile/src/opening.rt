//! Opening a file of lines.
ghost use Rattle.std.specs.Prelude.{◌≡◌, ◌⊎◌, false, [], ℕ, List, IsTrue, IfOk, IfErr};
ghost use Rattle.sqlite_wal.specs.Files.{image_at};
ghost use Rattle.sqlite_catalog.specs.Listing.{IsSound};
ghost use Rattle.sqlite_trees.specs.Tree.{Trees};
ghost use Rattle.sqlite_schema.specs.declared.schema.Schema.{Schema};
ghost use Rattle.sqlite.specs.Files.{HoldsDatabase};
ghost use Rattle.sqlite.specs.State.{HasCleanDisk};
ghost use Rattle.sqlite.specs.Held.{state};
ghost use Rattle.sdb_linefile.specs.LineTable.{line_schema, empty_schema};
ghost use Rattle.sdb_linefile.specs.LineFile.{AdoptsLines, FilesContain, HasNoTable, IsLineFileOrEmpty, IsUnreadFileOf, unread_state};

use crate::error::LineFileError;
use crate::files::{check_files, named_cause};
use crate::line_file::{LineFile, UnreadFile};
use crate::line_table::{create_table, is_empty_schema, is_line_schema};
use crate::mark::delete_mark;
use sqlite::{Alter, Connection, FileFrom, FileStore, Start};

/// Opens a file of lines, or creates one at the path of a new or empty file. A file that has lines is
/// unchanged until [`mark_file`](crate::mark_file).
///
/// `start` is `sqlite::Unknown`, which needs one sync a commit and assumes that a torn write leaves
/// each byte old or new, or `sqlite::Wary`, which needs two.
///
/// # Errors
///
/// - [`LineFileError::Busy`] if another process has the file open.
/// - [`LineFileError::DamagedFiles`] if the open would lose lines. Nothing is created or written.
/// - [`LineFileError::ForeignFile`] if the file is a database of another program. It is unchanged.
/// - [`LineFileError::Damaged`] if the file is no database, or it is damaged.
/// - Another [`LineFileError`] if opening or creating fails.
///
/// ```
/// let unread = open_or_create(&rt, "edits.store", Unknown)?;
/// let file = unread.restore(&mut sink)?;
/// let mut file = mark_file(&rt, file)?;
/// ```
pub fn open_or_create<S: Start>(
    rt: &HostRuntime,
    path: &str,
    start: S,
) -> Result<UnreadFile<FileStore<FileFrom<S>>>, LineFileError>
    ensures ok { IfOk result (λ file. HasCleanDisk (unread_state file) → (lines : List (List ℕ)) →
        FilesContain lines (image_at S.Start) → IsUnreadFileOf lines file) }
    ensures created { IfOk result (λ file. HasCleanDisk (unread_state file) → HasNoTable (image_at S.Start) →
        IsUnreadFileOf [] file) }
    ensures only { IfOk result (λ file. HasCleanDisk (unread_state file) → IsLineFileOrEmpty (image_at S.Start)) }
{
    check_files(rt, path)?;
    let conn = match Connection::open_from(rt, path, false, start) {
        Ok(conn) => conn,
        Err((error, _)) => return Err(named_cause(rt, path, LineFileError::from(error))),
    };
    settle(&conn);
    match adopt(conn) {
        Ok(file) => Ok(file),
        Err((error, _)) => Err(error),
    }
}

// States that each crash of an open store leaves what is committed.
pub(crate) fn settle<S: Alter>(conn: &Connection<S>)
    ensures { IsTrue (state S.Store conn.now).is_open → (db : Trees) → (state S.Store conn.now).may_leave db
        → db ≡ (state S.Store conn.now).committed.trees }
{
    let _conn = conn;
}

/// Takes a connection to a file of lines, or creates the table of lines in an empty database.
///
/// # Errors
///
/// Returns the connection with the cause: [`LineFileError::ForeignFile`] if the database has other
/// tables, and it is then unchanged, or another [`LineFileError`] if creating the table fails.
pub fn adopt<S: Alter>(
    mut conn: Connection<S>,
) -> Result<UnreadFile<S>, (LineFileError, Connection<S>)>
    requires { conn.in_transaction ≡ false }
    ensures ok { IfOk result (λ file. HasCleanDisk (unread_state file)
        → AdoptsLines conn.schema (state S.Store conn) (unread_state file)) }
    ensures only { IfOk result (λ file. (conn.schema ≡ line_schema) ⊎ (conn.schema ≡ empty_schema)) }
    ensures foreign { IfErr result (λ e. e.0 ≡ LineFileError.ForeignFile → e.1 ≡ conn) }
{
    if is_line_schema(conn.schema()) {
        return Ok(UnreadFile::new(conn));
    }
    if !is_empty_schema(conn.schema()) {
        return Err((LineFileError::ForeignFile, conn));
    }
    match create_table(&mut conn) {
        Ok(true) => Ok(UnreadFile::new(conn)),
        Ok(false) => Err((LineFileError::StatementRefused, conn)),
        Err(error) => Err((LineFileError::from(error), conn)),
    }
}

/// Deletes the mark, copies all lines into the database file and closes it, so that the file is
/// complete without its log.
///
/// # Errors
///
/// The [`LineFileError`] of the copy. The lines are then in the file and its log, unless a crash may
/// have left less.
pub fn close<S: Start>(file: LineFile<FileStore<FileFrom<S>>>) -> Result<(), LineFileError> {
    let mut conn = file.into_connection();
    let deleted = delete_mark(&mut conn);
    conn.close()?;
    deleted?;
    Ok(())
}
