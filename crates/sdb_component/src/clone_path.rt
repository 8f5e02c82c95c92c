//! Clones of paths.
ghost use Rattle.std.specs.Prelude.{◌≡◌, IfOk};
ghost use Rattle.sdb_value.specs.View.{plain_path, plain_step};

use sdb_value::Step;
use std::alloc::{AllocError, Global};

// Clones a path with its keys.
pub(crate) fn clone_path(alloc: Global, path: &[Step]) -> Result<Vec<Step>, AllocError>
    ensures { IfOk result (λ p. plain_path p.items ≡ plain_path path.now) }
{
    let mut copies = Vec::with_capacity(alloc, path.len())?;
    for step in path {
        copies.push(clone_step(step)?)?;
    }
    Ok(copies)
}

fn clone_step(step: &Step) -> Result<Step, AllocError>
    ensures { IfOk result (λ s. plain_step s ≡ plain_step step.now) }
{
    match step {
        Step::Key(key) => Ok(Step::Key(key.clone()?)),
        Step::Index(index) => Ok(Step::Index(*index)),
    }
}
