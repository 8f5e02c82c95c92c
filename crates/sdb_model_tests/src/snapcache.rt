//! Tests of the cache of snapshots.
use sdb_snapcache::{CACHE_CAPACITY, Cache};
use sdb_value::{Json, Whole, values_equal};
use std::alloc::Global;
use std::process::Abort;

fn number(rt: &impl Abort, n: i64) -> Json {
    Json::Int(Whole::new(n).expect(rt, "a number"))
}

// Returns whether the nearest version is this one and its snapshot is this number.
fn is_found(rt: &impl Abort, cache: &mut Cache, v: u64, version: u64, n: i64) -> bool {
    match cache.nearest(v) {
        Some((found, value)) => found == version && values_equal(value, &number(rt, n)),
        None => false,
    }
}

// Returns a cache after the offers of the numbers 1 to 9, each at its version.
fn cache_after_nine_offers(rt: &impl Abort, alloc: Global) -> Cache {
    let mut cache = Cache::new(alloc);
    for version in 1..10u8 {
        let snapshot = number(rt, i64::from(version));
        cache
            .offer(u64::from(version), snapshot)
            .expect(rt, "out of memory");
    }
    cache
}

#[test]
fn a_new_cache_is_empty(rt: HostRuntime) {
    let mut cache = Cache::new(rt.alloc());
    assert!(rt; cache.len() == 0 && cache.nearest(9).is_none());
}

// The cache keeps the last eight of nine.
#[test]
fn a_cache_keeps_eight_snapshots(rt: HostRuntime) {
    let mut cache = cache_after_nine_offers(&rt, rt.alloc());
    assert!(rt;
        cache.len() == CACHE_CAPACITY
            && cache.nearest(1).is_none()
            && is_found(&rt, &mut cache, 2, 2, 2)
            && is_found(&rt, &mut cache, 100, 9, 9)
    );
}

// The snapshot that was found stays, and the next one is evicted.
#[test]
fn the_least_recently_used_snapshot_is_evicted(rt: HostRuntime) {
    let mut cache = cache_after_nine_offers(&rt, rt.alloc());
    assert!(rt; is_found(&rt, &mut cache, 2, 2, 2));
    cache
        .offer(10, number(&rt, 10))
        .expect(&rt, "out of memory");
    assert!(rt; cache.len() == CACHE_CAPACITY && is_found(&rt, &mut cache, 3, 2, 2));
}

#[test]
fn forget_empties_a_cache(rt: HostRuntime) {
    let mut cache = cache_after_nine_offers(&rt, rt.alloc());
    cache.forget();
    assert!(rt; cache.len() == 0 && cache.nearest(9).is_none());
}
