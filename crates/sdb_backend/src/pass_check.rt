//! The check that all passes of a host are present, and their seats.
ghost use Rattle.std.specs.Prelude.{◌≡◌, ◌≤◌, map, Contains, IsTrue, IsFalse, vec_len, vec_capacity};
ghost use Rattle.std.specs.List.Sorted.{IsNonDecreasing, IsPermutation};
ghost use Rattle.sdb_backend.specs.PassModel.{pass_number, next_pass_number, HasEveryPass};

use crate::pass::{Host, Pass};
use crate::shard_value::Held;
use sdb_striped_lock::SeatSet;

impl Host {
    // Returns whether all passes are present. It sorts them by number.
    pub(crate) fn has_every_pass(&self, passes: &mut Vec<Pass>) -> bool
        ensures all { IsTrue result → HasEveryPass (next_pass_number self.now) passes.old.items }
        ensures missing { IsFalse result → HasEveryPass (next_pass_number self.now) passes.old.items → ⊥ }
        ensures equal { IsPermutation passes.old.items passes.new.items }
    {
        passes.sort_unstable_by_key(
            |pass: &Pass| -> u64
                ensures { result ≡ pass_number pass.now }
            { pass.number() },
        );
        self.find_every_pass(passes.as_slice())
    }

    // Returns whether all passes are present in a list sorted by number.
    fn find_every_pass(&self, passes: &[Pass]) -> bool
        requires { IsNonDecreasing (map pass_number passes.now) }
        ensures all { IsTrue result → HasEveryPass (next_pass_number self.now) passes.now }
        ensures missing { IsFalse result → HasEveryPass (next_pass_number self.now) passes.now → ⊥ }
    {
        for number in 1..self.next() {
            if !contains_number(passes, number) {
                return false;
            }
        }
        true
    }
}

// Returns whether a list sorted by number contains the number.
fn contains_number(passes: &[Pass], number: u64) -> bool
    requires { IsNonDecreasing (map pass_number passes.now) }
    ensures on_true { IsTrue result → Contains (map pass_number passes.now) number }
    ensures on_false { IsFalse result → Contains (map pass_number passes.now) number → ⊥ }
{
    passes
        .binary_search_by_key(
            &number,
            |pass: &Pass| -> u64
                ensures { result ≡ pass_number pass.now }
            { pass.number() },
        )
        .is_ok()
}

// Moves the passes' seats to the empty list.
pub(crate) fn seat_sets_of(passes: Vec<Pass>, mut seats: Vec<SeatSet<Held>>) -> Vec<SeatSet<Held>>
    requires empty { vec_len seats ≡ 0 }
    requires capacity { vec_len passes ≤ vec_capacity seats }
    ensures { result.items ≡ map (λ p. p.seats) passes.items }
{
    for pass in passes {
        seats.push_reserved(pass.into_seats());
    }
    seats
}
