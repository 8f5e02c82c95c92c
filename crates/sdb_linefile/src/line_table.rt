//! The table of the lines: its statements, and the test of a schema.
ghost use Rattle.std.specs.Prelude.{◌≡◌, ◌++◌, false, ℕ, List, [], IsTrue, IfOk, OnOk};
ghost use Rattle.sqlite.specs.State.{HasCleanDisk};
ghost use Rattle.sqlite.specs.Held.{state};
ghost use Rattle.sdb_linefile.specs.LineTable.{strict_column, line_columns, line_table, line_schema, empty_schema, HasNoRules};
ghost use Rattle.sdb_linefile.specs.LineFile.{StoresLines};

use sqlite::{Alter, Connection, Error};
use sqlite_schema::code::Terms;
use sqlite_schema::schema::{Column, Kind, Schema, Table};
use sqlite_value::keys::Collation;
use sqlite_value::value::Value;

const CREATE_TEXT: &str =
    "CREATE TABLE sdb_line (number INTEGER PRIMARY KEY, line BLOB NOT NULL) STRICT";

/// Stores a line after the others.
pub(crate) const INSERT_TEXT: &str = "INSERT INTO sdb_line (line) VALUES (?1)";

/// Reads the lines in the order of storing, without the mark, whose number is 0.
pub(crate) const SELECT_TEXT: &str =
    "SELECT number, line FROM sdb_line WHERE number ORDER BY number";

/// Creates the table in an empty database. Returns whether the database has the table of the lines.
pub(crate) fn create_table<S: Alter>(conn: &mut Connection<S>) -> Result<bool, Error>
    requires empty { conn.old.schema ≡ empty_schema }
    requires autocommit { conn.old.in_transaction ≡ false }
    ensures table { IfOk result (λ made. IsTrue made → conn.new.schema ≡ line_schema) }
    ensures autocommit { IfOk result (λ made. IsTrue made → conn.new.in_transaction ≡ false) }
    ensures clean { HasCleanDisk (state S.Store conn.new) → HasCleanDisk (state S.Store conn.old) }
    ensures ok { HasCleanDisk (state S.Store conn.new) → OnOk result (StoresLines [] (state S.Store conn.new)) }
{
    create(conn)?;
    Ok(conn.is_autocommit() && is_line_schema(conn.schema()))
}

fn create<S: Alter>(conn: &mut Connection<S>) -> Result<usize, Error>
    requires empty { conn.old.schema ≡ empty_schema }
    requires autocommit { conn.old.in_transaction ≡ false }
    ensures clean { HasCleanDisk (state S.Store conn.new) → HasCleanDisk (state S.Store conn.old) }
    ensures ok { HasCleanDisk (state S.Store conn.new) → OnOk result (StoresLines [] (state S.Store conn.new)) }
{
    conn.execute(CREATE_TEXT, &[])
}

/// Returns whether the database has no table, index or view.
pub(crate) fn is_empty_schema(schema: &Schema) -> bool
    ensures { IsTrue result → schema.now ≡ empty_schema }
{
    schema.tables.is_empty() && schema.indexes.is_empty() && schema.views.is_empty()
}

/// Returns whether the database has the table of the lines and nothing else.
pub(crate) fn is_line_schema(schema: &Schema) -> bool
    ensures { IsTrue result → schema.now ≡ line_schema }
{
    match schema.tables.as_slice() {
        [table] => is_line_table(table) && schema.indexes.is_empty() && schema.views.is_empty(),
        _ => false,
    }
}

fn is_line_table(table: &Table) -> bool
    ensures { IsTrue result → table.now ≡ line_table }
{
    table.name.as_slice() == b"sdb_line".as_slice()
        && table.tree == 0
        && has_line_columns(table.columns.as_slice())
        && table.key == Some(0)
        && table.primary.as_slice() == [0usize].as_slice()
        && has_no_rules(table)
}

fn has_line_columns(columns: &[Column]) -> bool
    ensures { IsTrue result → columns.now ≡ line_columns }
{
    match columns {
        [number, line] => {
            is_column(number, b"number", Kind::Integer, false)
                && is_column(line, b"line", Kind::Blob, true)
        }
        _ => false,
    }
}

fn is_column(column: &Column, name: &[u8], kind: Kind, not_null: bool) -> bool
    ensures { IsTrue result → column.now ≡ strict_column name.now kind not_null }
{
    column.name.as_slice() == name
        && column.kind == kind
        && column.is_strict
        && column.not_null == not_null
        && matches!(column.default, Value::Null)
        && column.collation == Collation::Binary
}

// Returns whether the table has only its columns and its primary key.
fn has_no_rules(table: &Table) -> bool
    ensures { IsTrue result → HasNoRules table.now }
{
    table.uniques.is_empty()
        && table.orders.is_empty()
        && has_no_terms(&table.checks)
        && table.references.is_empty()
        && table.computed.is_empty()
        && table.stamps.places.is_empty()
        && has_no_terms(&table.stamps.terms)
        && table.stamps.formats.is_empty()
        && !table.is_counted
}

fn has_no_terms(terms: &Terms) -> bool
    ensures { IsTrue result → terms.now ≡ [] }
{
    terms.roots.is_empty()
}
