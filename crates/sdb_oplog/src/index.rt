//! The index from source and seq to version.
ghost use Rattle.std.specs.Prelude.{◌≡◌, ℕ, List, Some, None, OnOk, OnErr, if◌then◌else◌, ◌&&◌, bytes_eq, nat_eq};
ghost use Rattle.sdb_oplog.specs.IndexModel.{indexed_version, AllSourcesHaveEntries};

use std::alloc::{AllocError, Global};
use std::collections::BTreeMap;

// An index from the source and seq of a submission to its version. The maps are ordered, so a
// look-up and an insertion compare O(log n) keys, whichever keys clients choose.
#[derive(Drop)]
pub(crate) struct Index {
    by_source: BTreeMap<String, BTreeMap<u64, u64>>,
}

impl Index {
    pub(crate) fn new(alloc: Global) -> Index
        ensures versions { (s : List ℕ) (n : ℕ) → indexed_version result s n ≡ None }
        ensures has_entries { AllSourcesHaveEntries result }
    {
        Index {
            by_source: BTreeMap::new(alloc),
        }
    }

    // Returns the version of the entry with this source and seq.
    pub(crate) fn find(&self, src: &str, seq: u64) -> Option<u64>
        ensures { result ≡ indexed_version self.now src.now seq }
    {
        let versions = self.by_source.get(src)?;
        versions.get(&seq).copied()
    }

    // Inserts the version of one more seq of the source.
    pub(crate) fn insert(
        &mut self,
        alloc: Global,
        src: &str,
        seq: u64,
        at: u64,
    ) -> Result<(), AllocError>
        ensures ok { OnOk result ((s : List ℕ) (n : ℕ) → indexed_version self.new s n
            ≡ (if nat_eq seq n && bytes_eq src.now s then Some at else indexed_version self.old s n)) }
        ensures err { OnErr result ((s : List ℕ) (n : ℕ) → indexed_version self.new s n
            ≡ indexed_version self.old s n) }
        ensures has_entries { AllSourcesHaveEntries self.old → AllSourcesHaveEntries self.new }
    {
        let Some(versions) = self.by_source.get_mut(src) else {
            return self.add_source(alloc, src, seq, at);
        };
        versions.insert(seq, at)?;
        Ok(())
    }

    // Adds a source with its first seq.
    fn add_source(&mut self, alloc: Global, src: &str, seq: u64, at: u64) -> Result<(), AllocError>
        requires { (n : ℕ) → indexed_version self.old src.now n ≡ None }
        ensures ok { OnOk result ((s : List ℕ) (n : ℕ) → indexed_version self.new s n
            ≡ (if nat_eq seq n && bytes_eq src.now s then Some at else indexed_version self.old s n)) }
        ensures err { OnErr result ((s : List ℕ) (n : ℕ) → indexed_version self.new s n
            ≡ indexed_version self.old s n) }
        ensures has_entries { AllSourcesHaveEntries self.old → AllSourcesHaveEntries self.new }
    {
        let source = String::from_str(alloc, src)?;
        let mut first_version = BTreeMap::new(alloc);
        first_version.insert(seq, at)?;
        self.by_source.insert(source, first_version)?;
        Ok(())
    }
}
