//! Lists of components.
ghost use Rattle.std.specs.Prelude.{◌≡◌, IfOk, IfErr};
ghost use Rattle.sdb_transform.specs.Classification.{transformed_components};

use sdb_component::{Component, Op};
use std::alloc::{AllocError, Global};

// The components that replace one. A single one doesn't allocate.
#[derive(Drop)]
pub(crate) enum Transformed {
    One(Component),
    Many(Vec<Component>),
}

impl Transformed {
    pub(crate) fn into_op(self) -> Op
        ensures { result ≡ transformed_components self }
    {
        match self {
            Transformed::One(component) => Op::one(component),
            Transformed::Many(components) => Op::new(components),
        }
    }
}

pub(crate) fn clone_components(
    alloc: Global,
    components: &[Component],
) -> Result<Vec<Component>, AllocError>
    ensures { IfOk result (λ copies. copies.items ≡ components.now) }
{
    let mut copies = Vec::with_capacity(alloc, components.len())?;
    for component in components {
        copies.push(component.try_clone()?)?;
    }
    Ok(copies)
}
