//! The stored operations of a closed backend.
ghost use Rattle.std.specs.Prelude.{◌≡◌, length};

use crate::shard_value::Held;
use std::alloc::Global;

/// The logs of all documents of a closed backend.
#[derive(Drop)]
pub struct Audit {
    pub(crate) alloc: Global,
    pub(crate) shards: Vec<Held>,
    ghost has_every_shard: { length shards.items ≡ 8 },
}

impl Audit {
    // Creates the audit of eight shards.
    pub(crate) fn new(alloc: Global, shards: Vec<Held>) -> Audit
        requires { length shards.items ≡ 8 }
        ensures { result.shards ≡ shards }
    {
        Audit { alloc, shards }
    }
}
