//! Reading the lines of a file.
ghost use Rattle.std.specs.Prelude.{◌≡◌, ◌<◌, false, ℕ, ◌+◌, List, length, IsTrue, IfOk, slice_get, Some};
ghost use Rattle.sqlite.specs.State.{HasCleanDisk};
ghost use Rattle.sqlite.specs.Held.{state};
ghost use Rattle.sdb_linefile.specs.LineTable.{line_schema, IsShownOf};
ghost use Rattle.sdb_linefile.specs.Lines.{AcceptsAll};
ghost use Rattle.sdb_linefile.specs.LineFile.{StoresLines, IsUnreadFileOf, IsFileOf, file_state};

use crate::error::LineFileError;
use crate::line_file::{LineFile, UnreadFile};
use crate::line_table::SELECT_TEXT;
use sqlite::{Alter, Connection, Row};
use sqlite_value::value::ValueRef;

/// Receives the lines of a file one by one.
pub trait LineSink {
    ghost use Rattle.std.specs.Prelude.{ℕ, List, IsTrue};

    // The sink before and after it accepts a line.
    ghost accepts: { Self → List ℕ → Self → Type 0 };

    // What holds of the sink before each line and after it.
    ghost holds: { Self → Type 0 };

    /// Receives the next line. Returns `false` if it refuses the line.
    fn receive(&mut self, line: &[u8]) -> bool
        requires { holds self.old }
        ensures holds { holds self.new }
        ensures accepted { IsTrue result → accepts self.old line.now self.new };
}

impl<S: Alter + Drop> UnreadFile<S> {
    /// Passes the lines to the sink in the order of storing. It holds one of them at a time.
    ///
    /// # Errors
    ///
    /// - [`LineFileError::WrongLine`] if a row of the table isn't the next line.
    /// - [`LineFileError::Refused`] if the sink refuses a line.
    /// - Another [`LineFileError`] if reading fails.
    pub fn restore<K: LineSink>(self, sink: &mut K) -> Result<LineFile<S>, LineFileError>
        requires { K.holds sink.old }
        ensures holds { K.holds sink.new }
        ensures ok { IfOk result (λ file. HasCleanDisk (file_state file) → (lines : List (List ℕ)) →
            IsUnreadFileOf lines self → IsFileOf lines file × AcceptsAll K.accepts lines sink.old sink.new) }
    {
        let mut conn = self.into_connection();
        let count = read_lines(&mut conn, sink)?;
        Ok(LineFile::new(conn, count))
    }
}

// Passes the lines to the sink, and returns their number.
fn read_lines<S: Alter, K: LineSink>(
    conn: &mut Connection<S>,
    sink: &mut K,
) -> Result<u64, LineFileError>
    requires table { conn.old.schema ≡ line_schema }
    requires autocommit { conn.old.in_transaction ≡ false }
    requires holds { K.holds sink.old }
    ensures holds { K.holds sink.new }
    ensures autocommit { conn.new.in_transaction ≡ false }
    ensures ok { HasCleanDisk (state S.Store conn.new) → IfOk result (λ count. (lines : List (List ℕ)) →
        StoresLines lines (state S.Store conn.old) → StoresLines lines (state S.Store conn.new)
        × (count ≡ length lines) × AcceptsAll K.accepts lines sink.old sink.new) }
{
    let mut rows = conn.query(SELECT_TEXT, &[])?;
    'rows: for count in 0..u64::MAX {
        let Some(row) = rows.next()? else {
            return Ok(count);
        };
        let line = line_of_row(count, row)?;
        if !sink.receive(line) {
            return Err(LineFileError::Refused { line: count + 1 });
        }
    }
    Err(LineFileError::TooManyLines)
}

// Returns the line of a row, which must be the next one after so many.
fn line_of_row(before: u64, row: &Row) -> Result<&[u8], LineFileError>
    requires { before < usize.MAX }
    ensures { IfOk result (λ line. (lines : List (List ℕ)) → IsShownOf lines row.now
        → slice_get lines before ≡ Some line.now) }
{
    let wrong = LineFileError::WrongLine { line: before + 1 };
    let ValueRef::Int(number) = row.get_ref(0)? else {
        return Err(wrong);
    };
    if number < 1 || (number - 1) as u64 != before {
        return Err(wrong);
    }
    match row.get_ref(1)? {
        ValueRef::Blob(line) => Ok(line),
        _ => Err(wrong),
    }
}
