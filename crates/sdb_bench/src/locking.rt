//! The cost to acquire and release an uncontended lock, for `GrowLock` and for `Mutex`.
use crate::timing::report;
use sdb_growlock::{GrowLock, Grows, Job};
use std::sync::{Mutex, Wait};
use std::time::Instant;

const TURNS: u64 = 10_000_000;

/// A counter without guarantees.
#[derive(Drop)]
struct Count {
    turns: u64,
}

impl Grows for Count {
    ghost extends = { λ _ _. Unit {0} };

    ghost same = { λ _ _ _. Unit {0} };

    ghost blank = { λ _ _. Unit {0} };

    ghost extends_refl = { λ _. tt };

    ghost extends_trans = { λ _ _ _ _ _. tt };

    ghost same_refl = { λ _ _. tt };

    ghost same_trans = { λ _ _ _ _ _ _. tt };

    ghost same_of_blank = { λ _ _ _ _ _. tt };

    ghost blank_of_same = { λ _ _ _ _ _. tt };
}

#[derive(Drop)]
struct CountTurn;

impl Job<Count> for CountTurn {
    type Answer = u64;

    ghost precondition = { λ _ _ _. Unit {0} };

    ghost postcondition = { λ _ _ _ _ _. Unit {0} };

    fn run(self, _number: u64, count: &mut Count) -> u64 {
        count.turns = count.turns.wrapping_add(1);
        count.turns
    }
}

fn grow_lock<R: Wait>(rt: &HostRuntime, waiting: &R) -> anyhow::Result<()> {
    let Ok((lock, mut seat)) = GrowLock::new(rt.alloc(), Count { turns: 0 }, 1) else {
        return Ok(());
    };
    let start = Instant::now(rt)?;
    let mut last = 0;
    for _ in 0..TURNS {
        last = lock.with(waiting, &mut seat, CountTurn);
    }
    let name = format!(in rt.alloc(); "a GrowLock acquired and released, {last} turns")?;
    report(rt, name.as_str(), start, TURNS)?;
    Ok(())
}

fn measure_mutex<R: Wait>(rt: &HostRuntime, waiting: &R) -> anyhow::Result<()> {
    let lock = Mutex::new(Count { turns: 0 });
    let start = Instant::now(rt)?;
    let mut last = 0;
    for _ in 0..TURNS {
        let mut count = lock.lock(waiting);
        count.turns = count.turns.wrapping_add(1);
        last = count.turns;
    }
    let name = format!(in rt.alloc(); "a Mutex acquired and released, {last} turns")?;
    report(rt, name.as_str(), start, TURNS)?;
    Ok(())
}

pub(crate) fn measure<R: Wait>(rt: &HostRuntime, waiting: &R) -> anyhow::Result<()> {
    grow_lock(rt, waiting)?;
    measure_mutex(rt, waiting)
}
