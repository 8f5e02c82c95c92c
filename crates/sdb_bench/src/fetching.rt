//! The time to fetch an unchanged document, and one that is edited before each fetch.
use crate::input::read;
use crate::timing::report;
use sdb_component::Op;
use sdb_desk::Shard;
use sdb_oplog::{Content, Key, Moment, Submission};
use std::alloc::{AllocError, Global};
use std::time::Instant;

const FETCHES: u64 = 1_000_000;

pub(crate) fn measure(rt: &HostRuntime) -> anyhow::Result<()> {
    let alloc = rt.alloc();
    let (collection, id) = (String::from_str(alloc, "b")?, String::from_str(alloc, "1")?);
    let key = Key { collection, id };
    let mut shard = Shard::new(alloc);
    let (value, ops) = read(rt)?;
    commit(alloc, &mut shard, &key, 1, Content::create(alloc, value)?)?;
    measure_fetches(rt, &mut shard, &key)?;
    measure_edits(rt, &mut shard, &key, ops)
}

fn commit(
    alloc: Global,
    shard: &mut Shard,
    key: &Key,
    seq: u64,
    content: Content,
) -> Result<(), AllocError> {
    let (src, via) = (String::from_str(alloc, "x")?, String::from_str(alloc, "b")?);
    let submission = Submission::new(alloc, src, seq, None, content, via, 0)?;
    drop(shard.commit_now(key, &submission, Moment::zero()));
    Ok(())
}

fn measure_fetches(rt: &HostRuntime, shard: &mut Shard, key: &Key) -> anyhow::Result<()> {
    let start = Instant::now(rt)?;
    for _ in 0..FETCHES {
        drop(shard.fetch(key));
    }
    report(rt, "a fetch", start, FETCHES)?;
    Ok(())
}

fn measure_edits(
    rt: &HostRuntime,
    shard: &mut Shard,
    key: &Key,
    ops: Vec<Op>,
) -> anyhow::Result<()> {
    let alloc = rt.alloc();
    let count = ops.len() as u64;
    let start = Instant::now(rt)?;
    let mut seq: u64 = 1;
    for op in ops {
        seq = seq.saturating_add(1);
        commit(alloc, shard, key, seq, Content::edit(alloc, op)?)?;
        drop(shard.fetch(key));
    }
    report(rt, "an edit and a fetch", start, count)?;
    Ok(())
}
