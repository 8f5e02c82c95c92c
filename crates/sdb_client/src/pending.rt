//! Pending operations transformed against a received one.
ghost use Rattle.std.specs.Prelude.{◌≡◌, IfErr, IfOk, Some, option_map};
ghost use Rattle.sdb_client_model.specs.Client.{cross_pending};
ghost use Rattle.sdb_transform.specs.ActModel.{IsTransformFault};

use sdb_component::Op;
use sdb_transform::{Fault, cross};
use std::alloc::Global;

// Transforms pending operations against a received one, as the left operations.
pub(crate) fn cross_pending(alloc: Global, pending: &[Op], received: &Op) -> Result<Vec<Op>, Fault>
    ensures ok { IfOk result (λ ops.
        option_map (λ x. x.pending) (cross_pending pending.now received.now) ≡ Some ops.items) }
    ensures err { IfErr result (λ f. IsTransformFault f (cross_pending pending.now received.now)) }
{
    let mut transformed = Vec::with_capacity(alloc, pending.len())?;
    let mut received = received.try_clone(alloc)?;
    for op in pending {
        let crossed = cross(alloc, op, &received)?;
        transformed.push(crossed.left)?;
        received = crossed.right;
    }
    Ok(transformed)
}
