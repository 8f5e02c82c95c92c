//! Updates of removed values.
ghost use Rattle.std.specs.Arc.{arc_value};
ghost use Rattle.std.specs.Prelude.{◌≡◌, IfOk, IfErr};
ghost use Rattle.sdb_value.specs.View.{value_of, plain_step, plain_path};
ghost use Rattle.sdb_component.specs.View.{plain_act, arc_json_value};
ghost use Rattle.std.specs.Option.{is_some};
ghost use Rattle.sdb_transform.specs.Transform.{removed_step, strip_removed_path, updated_value, map_removed, component_at, removes_step};
ghost use Rattle.sdb_transform.specs.declared.side.Fault.TheVariants.{OutOfMemory};

use crate::classify_path::{keys_equal, strip_prefix};
use crate::side::Fault;
use sdb_apply::{ApplyFault, apply_at};
use sdb_component::{Act, Component};
use sdb_value::{Json, Step};
use std::alloc::{AllocError, Global};
use std::sync::Arc;

// Returns whether the component removes a value at or inside which the other path ends.
pub(crate) fn removes_value_at(component: &Component, other: &[Step]) -> bool
    ensures { result ≡ is_some (strip_removed_path component.now (plain_path other.now)) }
{
    if !removes_value(component.act()) {
        return false;
    }
    match strip_prefix(component.path(), other) {
        Some([step, ..]) => removes_step(component.act(), step),
        _ => false,
    }
}

fn removes_value(act: &Act) -> bool
    ensures { result ≡ is_some (removed_step (plain_act act.now)) }
{
    matches!(act, Act::Ld(..) | Act::Lr(..) | Act::Od(..) | Act::Or(..))
}

// Returns whether the act removes the value of this step.
fn removes_step(act: &Act, step: &Step) -> bool
    ensures { result ≡ removes_step (plain_act act.now) (plain_step step.now) }
{
    match (act, step) {
        (Act::Ld(i, _) | Act::Lr(i, _, _), Step::Index(j)) => *i == *j,
        (Act::Od(k, _) | Act::Or(k, _, _), Step::Key(l)) => keys_equal(k.as_str(), l.as_str()),
        _ => false,
    }
}

// Returns the act with its removed value changed at the path.
pub(crate) fn update_removed(
    alloc: Global,
    act: Act,
    path: &[Step],
    over: &Act,
) -> Result<Act, Fault>
    ensures ok { IfOk result (λ a. plain_act a
        ≡ map_removed (updated_value (component_at (plain_path path.now) (plain_act over.now))) (plain_act act)) }
    ensures err { IfErr result (λ f. f ≡ OutOfMemory) }
{
    match act {
        Act::Ld(i, x) => Ok(Act::Ld(i, updated_value(alloc, x, path, over)?)),
        Act::Lr(i, x, y) => Ok(Act::Lr(i, updated_value(alloc, x, path, over)?, y)),
        Act::Od(k, x) => Ok(Act::Od(k, updated_value(alloc, x, path, over)?)),
        Act::Or(k, x, y) => Ok(Act::Or(k, updated_value(alloc, x, path, over)?, y)),
        other => Ok(other),
    }
}

// Returns the value with the act applied at the path, or unchanged if it doesn't apply.
fn updated_value(
    alloc: Global,
    value: Arc<Json>,
    path: &[Step],
    over: &Act,
) -> Result<Arc<Json>, Fault>
    ensures ok { IfOk result (λ v. arc_json_value v
        ≡ updated_value (component_at (plain_path path.now) (plain_act over.now)) (arc_json_value value)) }
    ensures err { IfErr result (λ f. f ≡ OutOfMemory) }
{
    let mut value = make_unique(alloc, value)?;
    match apply_at(alloc, &mut value, path, over) {
        Ok(()) | Err(ApplyFault::NotApplied) => Ok(make_shared(alloc, value)?),
        Err(ApplyFault::OutOfMemory) => Err(Fault::OutOfMemory),
    }
}

// Returns the value, cloned unless it is unique.
fn make_unique(alloc: Global, value: Arc<Json>) -> Result<Json, AllocError>
    ensures { IfOk result (λ v. value_of v ≡ value_of (arc_value value)) }
{
    match Arc::try_unwrap(value) {
        Ok(value) => Ok(value),
        Err(shared) => shared.try_clone(alloc),
    }
}

fn make_shared(alloc: Global, value: Json) -> Result<Arc<Json>, AllocError>
    ensures { IfOk result (λ v. arc_value v ≡ value) }
{
    Ok(Arc::new(alloc, value)?)
}
