//! A policy of the example.
use sdb_oplog::{Content, Key};
use sdb_projection::Table;
use sdb_session::Policy;

// The source that may read, but not submit.
const GUEST: &str = "guest";

/// Allows all submissions but those of the source `guest`.
#[derive(Drop)]
pub(crate) struct GuestsRead {
    pub(crate) table: Table,
}

impl Policy for GuestsRead {
    ghost use Rattle.std.specs.Prelude.{not, bytes_eq, codes};

    ghost plain_policy = { λ p. record {
      projections = p.table;
      allows = λ source k m. not (bytes_eq source (codes "guest"));
    } };

    fn table(&self) -> &Table {
        &self.table
    }

    fn allows(&self, source: &str, _key: &Key, _content: &Content) -> bool {
        source != GUEST
    }
}
