//! What a server permits.
use sdb_oplog::{Content, Key};
use sdb_projection::Table;

/// The projections of a server, and which submissions it allows. A session asks before a submission
/// is decided, and refuses with E9 what isn't allowed. A [`Table`] is the policy that allows every
/// submission.
///
/// ```
/// /// Allows submissions of one source only.
/// struct OneWriter {
///     table: Table,
///     writer: String,
/// }
///
/// impl Policy for OneWriter {
///     ghost use Rattle.std.specs.Prelude.{string_bytes, bytes_eq};
///
///     ghost plain_policy = { λ p. record {
///       projections = p.table;
///       allows = λ source k m. bytes_eq source (string_bytes p.writer);
///     } };
///
///     fn table(&self) -> &Table {
///         &self.table
///     }
///
///     fn allows(&self, source: &str, _key: &Key, _content: &Content) -> bool {
///         source == self.writer.as_str()
///     }
/// }
/// ```
pub trait Policy {
    ghost use Rattle.std.specs.Prelude.{◌≡◌};
    ghost use Rattle.sdb_oplog.specs.Keys.{plain_key};
    ghost use Rattle.sdb_session.specs.PolicyModel.{PlainPolicy};

    // The projections, and whether a source may submit a content at a key.
    ghost plain_policy: { Self → PlainPolicy };

    /// Returns the projections.
    fn table(&self) -> &Table
        ensures { result.now ≡ (plain_policy self.now).projections };

    /// Returns whether a source may submit a content at the key that its client names. The key's
    /// collection may be the name of a projection.
    fn allows(&self, source: &str, key: &Key, content: &Content) -> bool
        ensures { result ≡ (plain_policy self.now).allows source.now (plain_key key.now) content.now };
}

impl Policy for Table {
    ghost use Rattle.sdb_session.specs.PolicyModel.{table_policy};

    ghost plain_policy = { λ t. table_policy t };

    fn table(&self) -> &Table {
        self
    }

    fn allows(&self, _source: &str, _key: &Key, _content: &Content) -> bool {
        true
    }
}
