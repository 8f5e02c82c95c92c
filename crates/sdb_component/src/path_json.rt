//! Paths in JSON.
ghost use Rattle.std.specs.Prelude.{◌≡◌, ◌++◌, ◌∷◌, [], map, true, Some, Err, IfOk, IfErr, OnOk, string_bytes};
ghost use Rattle.serde_json.specs.View.{items_of};
ghost use Rattle.sdb_component.specs.FromJson.{FaultMeansNone, split_last_index, split_last_key, path_of, path_step_of, path_steps_of, path_allocates};
ghost use Rattle.sdb_component.specs.declared.from_json.OpFault.TheVariants.{OutOfMemory as no_memory};
ghost use Rattle.sdb_value.specs.View.{plain_path, plain_step};

use crate::from_json::OpFault;
use crate::path::Path;
use sdb_json::JsonData;
use sdb_value::{Step, count_of};
use std::alloc::{AllocError, Global};

#[tactic(auto, using(crate::proofs::SizeLemmas::key_step, crate::proofs::SizeLemmas::index_step))]
fn path_step_of<D: JsonData>(alloc: Global, value: &D) -> Result<Step, OpFault>
    ensures ok { IfOk result (λ s. path_step_of (D.json value.now) ≡ Some (plain_step s)) }
    ensures err { IfErr result (λ f. FaultMeansNone (path_step_of (D.json value.now)) f) }
{
    match value.as_str() {
        Some(text) => Ok(Step::Key(String::from_str(alloc, text)?)),
        None => match count_of(value) {
            Some(index) => Ok(Step::Index(index)),
            None => Err(OpFault::BadlyFormed),
        },
    }
}

fn push_step(steps: &mut Vec<Step>, step: Step) -> Result<(), AllocError>
    ensures { OnOk result (steps.new.items ≡ steps.old.items ++ step ∷ []) }
{
    steps.push(step)?;
    Ok(())
}

fn path_steps_of<D: JsonData>(alloc: Global, items: &[D]) -> Result<Vec<Step>, OpFault>
    ensures ok { IfOk result (λ p. path_steps_of (items_of (map D.json items.now)) ≡ Some (plain_path p.items)) }
    ensures err { IfErr result (λ f. FaultMeansNone (path_steps_of (items_of (map D.json items.now))) f) }
{
    let mut steps = Vec::with_capacity(alloc, items.len())?;
    for item in items {
        let step = path_step_of(alloc, item)?;
        push_step(&mut steps, step)?;
    }
    Ok(steps)
}

#[tactic(auto, using(crate::proofs::SizeLemmas::view_size))]
pub(crate) fn path_of<D: JsonData>(alloc: Global, value: &D) -> Result<Vec<Step>, OpFault>
    ensures ok { IfOk result (λ p. path_of (D.json value.now) ≡ Some (plain_path p.items)) }
    ensures err { IfErr result (λ f. FaultMeansNone (path_of (D.json value.now)) f) }
    ensures memory { result ≡ Err no_memory → path_allocates (D.json value.now) ≡ true }
{
    let Some(items) = value.as_array() else {
        return Err(OpFault::BadlyFormed);
    };
    if items.len() > 50 {
        return Err(OpFault::BadlyFormed);
    }
    path_steps_of(alloc, items)
}

// Splits off the last step, which must be an index.
#[tactic(auto, using(crate::proofs::LastStep::index_at_end, crate::proofs::LastStep::no_index_at_end))]
pub(crate) fn split_last_index(alloc: Global, mut path: Vec<Step>) -> Result<(Path, u64), OpFault>
    ensures ok { IfOk result (λ l. split_last_index (plain_path path.items) ≡ Some (l.0, l.1)) }
    ensures err { IfErr result (λ f. FaultMeansNone (split_last_index (plain_path path.items)) f) }
{
    let Some(last) = path.pop() else {
        return Err(OpFault::BadlyFormed);
    };
    match last {
        Step::Index(index) => Ok((Path::new(alloc, path)?, index)),
        Step::Key(_) => Err(OpFault::BadlyFormed),
    }
}

// Splits off the last step, which must be a key.
#[tactic(auto, using(crate::proofs::LastStep::key_at_end, crate::proofs::LastStep::no_key_at_end))]
pub(crate) fn split_last_key(alloc: Global, mut path: Vec<Step>) -> Result<(Path, String), OpFault>
    ensures ok { IfOk result (λ l. split_last_key (plain_path path.items) ≡ Some (l.0, string_bytes l.1)) }
    ensures err { IfErr result (λ f. FaultMeansNone (split_last_key (plain_path path.items)) f) }
{
    let Some(last) = path.pop() else {
        return Err(OpFault::BadlyFormed);
    };
    match last {
        Step::Key(key) => Ok((Path::new(alloc, path)?, key)),
        Step::Index(_) => Err(OpFault::BadlyFormed),
    }
}
