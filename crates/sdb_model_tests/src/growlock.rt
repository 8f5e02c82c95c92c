//! Tests of `sdb_growlock`: two threads that extend one list.
ghost use Rattle.std.specs.Prelude.{◌≡◌, ℕ, ◌++◌, ◌∷◌, [], true};
ghost use Rattle.sdb_growlock.specs.SeatModel.{BelongsTo, number, next};

use sdb_growlock::{GrowLock, Grows, Job, Seat};
use std::process::Abort;
use std::sync::Wait;
use std::thread;
use std::thread::Threads;

// The number of times that each thread adds its number.
const TIMES: u64 = 1_000;

// The numbers that were added, in order.
#[derive(Drop)]
struct Tally {
    numbers: Vec<u64>,
}

impl Grows for Tally {
    ghost use Rattle.std.specs.Prelude.{◌≡◌, []};
    ghost use Rattle.std.proofs.Common.{◌∙◌, refl, sym};
    ghost use Rattle.sdb_model_tests.specs.Tally.{occurrences, HasPrefix, has_prefix_refl, has_prefix_trans};

    ghost extends = { λ new old. HasPrefix new.numbers.items old.numbers.items };

    ghost same = { λ n a b. occurrences n a.numbers.items ≡ occurrences n b.numbers.items };

    ghost blank = { λ n a. occurrences n a.numbers.items ≡ [] };

    ghost extends_refl = { λ a. has_prefix_refl a.numbers.items };

    ghost extends_trans = { λ a b c h k. has_prefix_trans a.numbers.items b.numbers.items c.numbers.items h k };

    ghost same_refl = { λ n a. refl };

    ghost same_trans = { λ n a b c h k. h ∙ k };

    ghost same_of_blank = { λ n a b h k. h ∙ sym k };

    ghost blank_of_same = { λ n a b h k. sym h ∙ k };
}

// A job that yields so many times, adds the number under which it runs, and returns whether the
// allocation succeeded.
#[derive(Drop)]
struct AddNumber {
    yields: u64,
}

impl Job<Tally> for AddNumber {
    type Answer = bool;

    ghost precondition = { λ _ _ _. Unit {0} };

    ghost postcondition = { λ _ n old new added. added ≡ true → new.numbers.items ≡ old.numbers.items ++ n ∷ [] };

    fn run(self, number: u64, tally: &mut Tally) -> bool {
        yield_often(self.yields);
        tally.numbers.push(number).is_ok()
    }
}

fn yield_often(count: u64) {
    for _ in 0..count {
        thread::yield_now();
    }
}

// Adds the number of the seat so many times, each after so many yields. Returns the seat, and the
// number of allocations that succeeded.
fn add_all<R: Wait>(
    rt: &R,
    lock: &GrowLock<Tally>,
    mut seat: Seat<Tally>,
    times: u64,
    yields: u64,
) -> (Seat<Tally>, u64)
    requires belongs { BelongsTo seat lock.now }
    ensures belongs { BelongsTo result.0 lock.now × (number result.0 ≡ number seat) × (next result.0 ≡ next seat) }
{
    let mut added = 0;
    for _ in 0..times {
        if lock.with(rt, &mut seat, AddNumber { yields }) && added < times {
            added += 1;
        }
    }
    (seat, added)
}

fn count(tally: &Tally, number: u64) -> usize {
    tally.numbers.iter().filter(|it| **it == number).count()
}

// Adds the numbers of two threads. Returns how many allocations of each succeeded, and how often
// each number was added.
fn add_in_two_threads<R>(rt: &R, times: u64, yields: u64) -> [(u64, usize); 2]
where
    R: AllocGlobal + Threads + Wait + Abort + Sync,
{
    let alloc = rt.alloc();
    let numbers = Vec::new(alloc);
    let Ok((lock, mut first)) = GrowLock::new(alloc, Tally { numbers }, 1) else {
        panic!(rt; "out of memory");
    };
    let (Ok(one), Ok(two)) = (lock.split(&mut first), lock.split(&mut first)) else {
        panic!(rt; "no seat");
    };
    let mut seats = Vec::with_capacity(alloc, 3).expect(rt, "out of memory");
    let (one, two) = thread::join(
        rt,
        || add_all(rt, &lock, one, times, yields),
        || add_all(rt, &lock, two, times, yields),
    );
    seats.push_reserved(first);
    seats.push_reserved(one.0);
    seats.push_reserved(two.0);
    let tally = lock.close(seats);
    [(one.1, count(&tally, 1)), (two.1, count(&tally, 2))]
}

#[test]
fn two_threads_add_all_their_numbers(rt: HostRuntime) {
    assert!(rt; add_in_two_threads(&rt, TIMES, 0) == [(1_000, 1_000), (1_000, 1_000)]);
}

// Each job holds the lock so long that the other thread parks. Unless it is woken, the test doesn't
// end.
#[test]
fn a_parked_thread_is_woken(rt: HostRuntime) {
    assert!(rt; add_in_two_threads(&rt, 5, 100_000) == [(5, 5), (5, 5)]);
}
