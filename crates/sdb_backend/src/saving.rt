//! What a thread that saves stored entries takes from a backend.
ghost use Rattle.std.specs.Prelude.{◌≡◌, ◌<◌, [], Some, option_map};
ghost use Rattle.sdb_desk.specs.Machine.{IsUnchanged};
ghost use Rattle.sdb_desk.specs.ShardView.{machine_of};
ghost use Rattle.sdb_backend.specs.PassModel.{pass_number, IsPassOfBackend};
ghost use Rattle.sdb_backend.specs.UnsavedEntries.{unsaved_of, plain_places, TakesUnsaved};

use crate::backend::Backend;
use crate::pass::Pass;
use crate::shard_value::Held;
use crate::unsaved::EntryAt;
use sdb_growlock::Job;
use std::alloc::Global;
use std::sync::Wait;

/// Number of the shards of a backend. Each has its own lock.
pub const SHARD_COUNT: usize = 8;

// Begins the list of a shard's entries.
struct BeginListJob {
    alloc: Global,
}

impl Job<Held> for BeginListJob {
    type Answer = ();

    ghost precondition = { λ j n a. Unit {0} };

    ghost postcondition = { λ j n a b r. IsUnchanged (machine_of a.shard) (machine_of b.shard)
        × (unsaved_of b ≡ Some []) };

    fn run(self, _number: u64, held: &mut Held) {
        let Self { alloc } = self;
        held.unsaved = Some(Vec::new(alloc));
    }
}

// Takes the list of a shard's entries.
struct TakeUnsavedJob {
    alloc: Global,
}

impl Job<Held> for TakeUnsavedJob {
    type Answer = Option<Vec<EntryAt>>;

    ghost precondition = { λ j n a. Unit {0} };

    ghost postcondition = { λ j n a b r. IsUnchanged (machine_of a.shard) (machine_of b.shard)
        × (plain_places r ≡ unsaved_of a) × (unsaved_of b ≡ option_map (λ _. []) (unsaved_of a)) };

    fn run(self, _number: u64, held: &mut Held) -> Option<Vec<EntryAt>> {
        let Self { alloc } = self;
        let taken = held.unsaved.take();
        if taken.is_some() {
            held.unsaved = Some(Vec::new(alloc));
        }
        taken
    }
}

impl<R: Wait> Backend<R> {
    /// Lists each entry that is stored from now on, so that it can be saved. Waits until the locks
    /// are free.
    ///
    /// ```
    /// backend.list_unsaved(&mut pass);
    /// assert!(rt; backend.take_unsaved(&mut pass, 0).is_some());
    /// ```
    pub fn list_unsaved(&self, pass: &mut Pass)
        requires { IsPassOfBackend pass.old self.now }
        ensures pass { IsPassOfBackend pass.new self.now }
        ensures number_unchanged { pass_number pass.new ≡ pass_number pass.old }
    {
        for shard in 0..SHARD_COUNT {
            let job = BeginListJob { alloc: self.alloc };
            self.locks.with(&self.rt, &mut pass.seats, shard, job);
        }
    }

    /// Returns the entries of a shard, 0 to 7, that were stored since the last call, in the order of
    /// storing. Returns `None` if they aren't [listed](Backend::list_unsaved). Waits until the lock is
    /// free.
    pub fn take_unsaved(&self, pass: &mut Pass, shard: usize) -> Option<Vec<EntryAt>>
        requires pass { IsPassOfBackend pass.old self.now }
        requires shard { shard < 8 }
        ensures pass { IsPassOfBackend pass.new self.now }
        ensures number_unchanged { pass_number pass.new ≡ pass_number pass.old }
        ensures taken { TakesUnsaved shard pass.old (plain_places result) pass.new }
    {
        let job = TakeUnsavedJob { alloc: self.alloc };
        self.locks.with(&self.rt, &mut pass.seats, shard, job)
    }
}
