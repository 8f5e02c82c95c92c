//! The documents of one lock.
ghost use Rattle.std.specs.Prelude.{◌≡◌, None};
ghost use Rattle.sdb_desk.specs.ShardState.{empty_state};
ghost use Rattle.sdb_desk.specs.ShardView.{state_of};
ghost use Rattle.sdb_backend.specs.UnsavedEntries.{unsaved_of};

use crate::unsaved::EntryAt;
use sdb_desk::Shard;
use sdb_growlock::Grows;
use sdb_striped_lock::Empty;
use std::alloc::Global;

/// A shard as a value that only grows: logs get longer, and queues advance.
#[derive(Drop)]
pub struct Held {
    pub shard: Shard,
    // The entries that were stored since they were taken last, in the order of storing. `None` if
    // they aren't listed.
    pub(crate) unsaved: Option<Vec<EntryAt>>,
}

impl Held {
    // Creates a shard without documents, whose entries aren't listed.
    pub(crate) fn new(alloc: Global) -> Held
        ensures state { state_of result.shard ≡ empty_state }
        ensures unlisted { unsaved_of result ≡ None }
    {
        Held {
            shard: Shard::new(alloc),
            unsaved: None,
        }
    }
}

impl Grows for Held {
    ghost use Rattle.std.specs.Prelude.{◌≡◌};
    ghost use Rattle.std.proofs.Common.{◌∙◌, refl, sym};
    ghost use Rattle.sdb_desk.specs.ShardView.{machine_of};
    ghost use Rattle.sdb_backend.specs.HistoryOrder.{Extends, share_of, empty_share};
    ghost use Rattle.sdb_backend.specs.HistoryOrderLaws.{extends_refl, extends_trans};

    ghost extends = { λ new old. Extends (machine_of new.shard) (machine_of old.shard) };

    ghost same = { λ n a b. share_of n (machine_of a.shard) ≡ share_of n (machine_of b.shard) };

    ghost blank = { λ n a. share_of n (machine_of a.shard) ≡ empty_share };

    ghost extends_refl = { λ a. extends_refl (machine_of a.shard) };

    ghost extends_trans = { λ a b c h k. extends_trans (machine_of a.shard) (machine_of b.shard)
        (machine_of c.shard) h k };

    ghost same_refl = { λ n a. refl };

    ghost same_trans = { λ n a b c h k. h ∙ k };

    ghost same_of_blank = { λ n a b h k. h ∙ sym k };

    ghost blank_of_same = { λ n a b h k. sym h ∙ k };
}

impl Empty for Held {
    fn empty(alloc: Global) -> Held {
        Held::new(alloc)
    }
}
