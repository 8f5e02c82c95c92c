//! The snapshot cache of one document.
ghost use Rattle.std.specs.Prelude.{◌≡◌, ◌≤◌, [], length, map, nat_eq, Some, OnOk, OnErr, option_map};
ghost use Rattle.std.specs.Borrow.{sem};
ghost use Rattle.std.specs.List.{IsDistinct};
ghost use Rattle.sdb_value.specs.View.{value_of};
ghost use Rattle.sdb_snapcache.specs.CacheModel.{nearest, max_version, snapshot_at_version, promote_nearest, insert_front};
ghost use Rattle.sdb_snapcache.specs.View.{plain_snapshots, HasCapacityEight};
ghost use Rattle.std.specs.NonZero.{non_zero_usize_get};

use lru::LruCache;
use sdb_value::Json;
use std::alloc::{AllocError, Global};
use std::marker::Model;
use std::num::NonZeroUsize;

/// Maximum number of cached snapshots.
pub const CACHE_CAPACITY: usize = 8;

/// A cache of at most [`CACHE_CAPACITY`] snapshots of one document at different versions. The least
/// recently used one is evicted.
///
/// ```
/// let mut cache = Cache::new(alloc);
/// cache.offer(3, Json::Bool(true))?;
/// assert!(rt; matches!(cache.nearest(5), Some((3, Json::Bool(true)))));
/// assert!(rt; cache.nearest(2).is_none());
/// ```
#[derive(Drop)]
pub struct Cache {
    alloc: Global,
    // `None` before the first snapshot.
    snapshots: Option<LruCache<u64, Json>>,
}

impl Model for Cache {
    ghost use Rattle.std.specs.Prelude.{List};
    ghost use Rattle.sdb_snapcache.specs.CacheModel.{Snapshot};
    ghost use Rattle.sdb_snapcache.specs.View.{snapshots_code, snapshots_of, HasCapacityEightOrNone};

    ghost Value = { List Snapshot };

    ghost coded = { snapshots_code };

    ghost view = { λ c. snapshots_of c.snapshots };

    ghost invariant = { λ c. HasCapacityEightOrNone c.snapshots };
}

impl Cache {
    ghost use Rattle.sdb_snapcache.specs.Borrows.{borrow_ends_with_cache};

    /// Creates an empty cache. It keeps the allocator, and allocates with the first snapshot.
    pub fn new(alloc: Global) -> Cache
        ensures { result ≡ [] }
    {
        Cache {
            alloc,
            snapshots: None,
        }
    }

    /// Returns the number of cached snapshots.
    pub fn len(&self) -> usize
        ensures len { result ≡ length self.now }
        ensures bound { length self.now ≤ CACHE_CAPACITY }
        ensures distinct { IsDistinct nat_eq (map (λ s. s.version) self.now) }
    {
        match &self.snapshots {
            Some(cached) => cached.len(),
            None => 0,
        }
    }

    /// Returns the snapshot with the greatest version up to `v`, which becomes the most recently
    /// used. It doesn't allocate.
    pub fn nearest(&mut self, v: u64) -> Option<(u64, &Json)>
        ensures* uses { sem 𝓛 (borrow_ends_with_cache self.entry (promote_nearest v self.old)) }
        ensures value { option_map (λ f. record { version = f.0; value = value_of f.1.now }) result
            ≡ nearest v self.old }
    {
        let version = self.promote(v)?;
        let value = self.get(version)?;
        Some((version, value))
    }

    // Returns the greatest cached version up to `v`, and makes it the most recently used.
    fn promote(&mut self, v: u64) -> Option<u64>
        ensures version { result ≡ option_map (λ s. s.version) (nearest v self.old) }
        ensures used { self.new ≡ promote_nearest v self.old }
    {
        let cached = self.snapshots.as_mut()?;
        let version = nearest_version(cached, v)?;
        cached.promote(&version);
        Some(version)
    }

    // Returns the document of a cached version.
    fn get(&self, version: u64) -> Option<&Json>
        ensures { option_map (λ d. value_of d.now) result
            ≡ option_map (λ s. s.value) (snapshot_at_version version self.now) }
    {
        self.snapshots.as_ref()?.peek(&version)
    }

    /// Inserts a snapshot as the most recently used one. It replaces an older one of its version; a
    /// ninth snapshot removes the least recently used one.
    ///
    /// # Errors
    ///
    /// [`AllocError`] if an allocation fails. The cache is then unchanged.
    pub fn offer(&mut self, version: u64, value: Json) -> Result<(), AllocError>
        ensures ok { OnOk result (self.new ≡ insert_front version (value_of value) self.old) }
        ensures err { OnErr result (self.new ≡ self.old) }
    {
        match &mut self.snapshots {
            Some(cached) => insert(cached, version, value),
            None => {
                let mut cached = LruCache::new(self.alloc, cache_capacity())?;
                insert(&mut cached, version, value)?;
                self.snapshots = Some(cached);
                Ok(())
            }
        }
    }

    /// Empties the cache. It doesn't allocate.
    pub fn forget(&mut self)
        ensures { self.new ≡ [] }
    {
        self.snapshots = None;
    }
}

// Returns the capacity in snapshots.
fn cache_capacity() -> NonZeroUsize
    ensures { non_zero_usize_get result ≡ CACHE_CAPACITY }
{
    NonZeroUsize::new(CACHE_CAPACITY).unwrap()
}

// Inserts a snapshot as the most recently used one. If an allocation fails, the cache is unchanged.
fn insert(cached: &mut LruCache<u64, Json>, version: u64, value: Json) -> Result<(), AllocError>
    requires { HasCapacityEight cached.old }
    ensures ok { OnOk result
        (plain_snapshots cached.new.entries
        ≡ insert_front version (value_of value) (plain_snapshots cached.old.entries)) }
    ensures err { OnErr result (cached.new ≡ cached.old) }
    ensures length { HasCapacityEight cached.new }
{
    drop(cached.put(version, value)?);
    Ok(())
}

// Returns the greatest cached version up to `v`.
fn nearest_version(cached: &LruCache<u64, Json>, v: u64) -> Option<u64>
    ensures { result ≡ option_map (λ s. s.version) (nearest v (plain_snapshots cached.now.entries)) }
{
    let mut found = None;
    for (version, _) in cached.iter() {
        if *version <= v {
            found = Some(max_version(found, *version));
        }
    }
    found
}

fn max_version(found: Option<u64>, version: u64) -> u64
    ensures { Some result ≡ max_version found (Some version) }
{
    match found {
        Some(best) => best.max(version),
        None => version,
    }
}
