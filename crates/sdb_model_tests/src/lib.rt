//! Tests of the public functions of the libraries up to `sdb_oplog`, of the snapshot cache, queues,
//! lines, the lock and command lines, one module for each library. `failed_allocations` tests
//! allocation failures. They are a separate crate so that no library is proved again for its tests.
#![tactic(auto)]

#[cfg(test)]
mod apply;
#[cfg(test)]
mod chunks;
#[cfg(test)]
mod cli;
#[cfg(test)]
mod component;
#[cfg(test)]
mod convergence;
#[cfg(test)]
mod failed_allocations;
#[cfg(test)]
mod growlock;
#[cfg(test)]
mod helpers;
#[cfg(test)]
mod json_tree;
#[cfg(test)]
mod lines;
#[cfg(test)]
mod oplog;
#[cfg(test)]
mod rope;
#[cfg(test)]
mod snapcache;
#[cfg(test)]
mod sorted_map;
#[cfg(test)]
mod subscribe;
#[cfg(test)]
mod transform;
#[cfg(test)]
mod value;
#[cfg(test)]
mod value_text;
