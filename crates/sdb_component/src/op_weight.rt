//! Weights of operations.
ghost use Rattle.std.specs.Prelude.{◌≡◌};
ghost use Rattle.sdb_component.specs.Weight.{weight};

use crate::operation::Op;

/// Returns the sum of the components' weights. It doesn't allocate.
pub fn weight(op: &Op) -> u128
    ensures { result ≡ weight op.now }
{
    let mut total = 0;
    for component in op.components() {
        total += u128::from(component.weight());
    }
    total
}
