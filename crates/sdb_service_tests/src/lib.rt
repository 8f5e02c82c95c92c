//! Tests of the public functions of the libraries from `sdb_desk` on, one module for each library.
//! They are a separate crate so that no library is proved again for its tests.
#![tactic(auto)]

#[cfg(test)]
mod backend;
#[cfg(test)]
mod desk;
#[cfg(test)]
mod dump;
#[cfg(test)]
mod dump_streams;
#[cfg(test)]
mod failed_allocations;
#[cfg(test)]
mod helpers;
#[cfg(test)]
mod projection;
#[cfg(test)]
mod reconnect;
#[cfg(test)]
mod saver;
#[cfg(test)]
mod session;
#[cfg(test)]
mod step_runs;
#[cfg(test)]
mod steps;
#[cfg(test)]
mod submit;
#[cfg(test)]
mod wire;
