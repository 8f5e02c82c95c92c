//! The time to transform components and operations against each other.
use crate::input::read;
use crate::timing::report;
use sdb_component::Component;
use sdb_transform::{Side, cross, transform_one};
use std::time::Instant;

const CALLS: u64 = 1_000_000;

// Transforms a component against the other one repeatedly, each time the last component of the
// result.
pub(crate) fn transform_repeatedly(rt: &HostRuntime) -> anyhow::Result<()> {
    let (_, mut ops) = read(rt)?;
    let (Some(other), Some(op)) = (ops.pop(), ops.pop()) else {
        return Ok(());
    };
    if let Some(other) = other.components().first() {
        let mut current = op.into_components(rt.alloc())?.pop();
        let start = Instant::now(rt)?;
        for _ in 0..CALLS {
            current = transform_once(rt, current, other);
        }
        report(rt, "a component transformed against another", start, CALLS)?;
    }
    Ok(())
}

fn transform_once(
    rt: &HostRuntime,
    current: Option<Component>,
    other: &Component,
) -> Option<Component> {
    let results = transform_one(rt.alloc(), current?, other, Side::Left);
    results.ok()?.pop()
}

// Transforms two operations against each other once.
pub(crate) fn cross_once(rt: &HostRuntime) -> anyhow::Result<()> {
    let (_, ops) = read(rt)?;
    if let [left, right] = ops.as_slice() {
        let start = Instant::now(rt)?;
        let pairs = cross(rt.alloc(), left, right).map_or(0, |crossed| crossed.pairs);
        let name = format!(in rt.alloc(); "two operations crossed, {pairs} pairs")?;
        report(rt, name.as_str(), start, 1)?;
    }
    Ok(())
}
