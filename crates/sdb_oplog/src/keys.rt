//! The keys of documents.
ghost use Rattle.std.specs.Prelude.{IfOk, ◌≡◌, ◌<◌, ◌%◌};
ghost use Rattle.std.specs.List.{sum};
ghost use Rattle.sdb_oplog.specs.Keys.{plain_key, shard_of};

use std::alloc::AllocError;

/// The key of a document: a collection and an id. Keys are ordered by the bytes of the collection
/// and then of the id.
///
/// ```
/// let (collection, id) = (String::from_str(alloc, "b")?, String::from_str(alloc, "1")?);
/// let key = Key { collection, id };
/// assert_eq!(rt; key.shard(), 3);
/// ```
#[derive(PartialEq, Eq, PartialOrd, Ord, Hash, Debug, Drop)]
pub struct Key {
    pub collection: String,
    pub id: String,
}

impl Key {
    /// Clones the key.
    ///
    /// # Errors
    ///
    /// [`AllocError`] if an allocation fails.
    pub fn try_clone(&self) -> Result<Key, AllocError>
        ensures { IfOk result (λ k. plain_key k ≡ plain_key self.now) }
    {
        let collection = self.collection.clone()?;
        let id = self.id.clone()?;
        Ok(Key { collection, id })
    }

    /// Returns the shard number from 0 to 7: the sum of all bytes of the collection and the id,
    /// modulo 8. It doesn't allocate.
    pub fn shard(&self) -> usize
        ensures shard { result ≡ shard_of (plain_key self.now) }
        ensures below { result < 8 }
    {
        (byte_sum(self.collection.as_str()) + byte_sum(self.id.as_str())) % 8
    }
}

// Returns the sum of the bytes modulo 8.
fn byte_sum(text: &str) -> usize
    ensures { result ≡ sum text.now % 8 }
{
    let mut sum = 0;
    for byte in text.as_bytes() {
        sum = (sum + *byte as usize) % 8;
    }
    sum
}
