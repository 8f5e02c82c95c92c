//! The time to apply the components of a list of operations to one value in order.
use crate::input::read;
use crate::timing::report;
use sdb_apply::apply_one;
use std::time::Instant;

pub(crate) fn measure(rt: &HostRuntime) -> anyhow::Result<()> {
    let (mut value, ops) = read(rt)?;
    let start = Instant::now(rt)?;
    for op in ops.as_slice() {
        for component in op.components() {
            let _ = apply_one(rt.alloc(), &mut value, component);
        }
    }
    report(rt, "an application", start, ops.len() as u64)?;
    Ok(())
}
