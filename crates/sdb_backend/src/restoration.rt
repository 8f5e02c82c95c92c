//! A backend's shards while they are restored, before callers share them.
ghost use Rattle.std.specs.Prelude.{◌≡◌, length};

use crate::counts::StoredCounts;
use crate::shard_value::Held;
use std::alloc::Global;

/// The shards of a backend that is being restored. They have one owner and no locks. A submission is
/// decided under its number, and no pass is created for this.
///
/// ```
/// let mut restoration = Restoration::new(alloc)?;
/// let reply = restoration.commit(&key, &submission, moment);
/// assert!(rt; matches!(reply, Reply::Stored { v: 0, .. }));
/// // The submission was made by pass 6 of an earlier backend.
/// let (backend, mut host) = restoration.into_backend(rt, 7)?;
/// let mut pass = backend.enter(&mut host)?;
/// assert_eq!(rt; (pass.number(), backend.version(&mut pass, &key)), (7, 1));
/// ```
#[derive(Drop)]
pub struct Restoration {
    pub(crate) alloc: Global,
    pub(crate) shards: Vec<Held>,
    pub(crate) counts: StoredCounts,
    ghost has_every_shard: { length shards.items ≡ 8 },
}
