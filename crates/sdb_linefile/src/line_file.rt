//! A file of lines, before and after its lines were read.
ghost use Rattle.std.specs.Prelude.{◌≡◌, false};
ghost use Rattle.sdb_linefile.specs.LineTable.{line_schema, schema-prop};

use sqlite::{Alter, Connection};

/// An open file of lines before its lines were read. [`UnreadFile::restore`] reads them.
#[derive(Drop)]
pub struct UnreadFile<S: Alter> {
    pub(crate) conn: Connection<S>,
    ghost table: { conn.schema ≡ line_schema } by { schema-prop conn.schema },
    ghost autocommit: { conn.in_transaction ≡ false },
}

impl<S: Alter> UnreadFile<S> {
    /// Wraps the connection.
    pub(crate) fn new(conn: Connection<S>) -> UnreadFile<S>
        requires table { conn.schema ≡ line_schema }
        requires autocommit { conn.in_transaction ≡ false }
        ensures { result.conn ≡ conn }
    {
        UnreadFile { conn }
    }

    /// Returns the connection.
    pub(crate) fn into_connection(self) -> Connection<S>
        ensures same { result ≡ self.conn }
        ensures table { result.schema ≡ line_schema }
        ensures autocommit { result.in_transaction ≡ false }
    {
        self.conn
    }
}

/// An open file of lines, all of which were read. It can store more.
#[derive(Drop)]
pub struct LineFile<S: Alter> {
    pub(crate) conn: Connection<S>,
    pub(crate) count: u64,
    ghost autocommit: { conn.in_transaction ≡ false },
}

impl<S: Alter> LineFile<S> {
    /// Wraps the connection to a file of so many lines.
    pub(crate) fn new(conn: Connection<S>, count: u64) -> LineFile<S>
        requires { conn.in_transaction ≡ false }
        ensures { (result.conn ≡ conn) × (result.count ≡ count) }
    {
        LineFile { conn, count }
    }

    /// Returns the connection.
    pub(crate) fn into_connection(self) -> Connection<S>
        ensures { result ≡ self.conn }
    {
        self.conn
    }
}
