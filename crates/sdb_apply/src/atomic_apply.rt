//! Operations that are applied as a whole or not at all.
ghost use Rattle.std.specs.Prelude.{◌≡◌, ◌≤◌, ◌∷◌, [], IsTrue, length, take, drop, Some, true, OnOk, OnErr, IfErr, IsErrOf, ⊤};
ghost use Rattle.sdb_value.specs.Uniqueness.{is_unique};
ghost use Rattle.sdb_value.specs.View.{value_of, plain_path, plain_step};
ghost use Rattle.sdb_apply.specs.Apply.{apply};
ghost use Rattle.sdb_apply.specs.Outcome.{IsApplyOutcome, may_allocate, atomic_apply_allocates};
ghost use Rattle.sdb_apply.specs.CommonPath.{strip_steps, AllBelowPath};
ghost use Rattle.sdb_apply.specs.declared.op_apply.ApplyFault.TheVariants.{NotApplied, OutOfMemory};

use crate::op_apply::{ApplyFault, apply_at, apply_one};
use sdb_component::{Component, Op};
use sdb_value::{Change, Json, Step, change_at};
use std::alloc::Global;

/// Applies the components in order, in place, as [`apply`](crate::apply) does. If one is refused,
/// the value is unchanged.
///
/// One component copies nothing. For several, the value at their common path is frozen and restored
/// after a refusal, so only the parts on their paths are copied. A unique value stays unique with
/// one component, but not always with several.
///
/// # Errors
///
/// [`ApplyFault::NotApplied`] if a component doesn't apply, [`ApplyFault::OutOfMemory`] if an
/// allocation fails. The value is then unchanged.
pub fn apply_atomic(alloc: Global, value: &mut Json, op: &Op) -> Result<(), ApplyFault>
    ensures applied { OnOk result (apply op.now (value_of value.old) ≡ Some (value_of value.new)) }
    ensures not_applied { IsErrOf result NotApplied → apply op.now (value_of value.old) ≡ None }
    ensures memory { IsErrOf result OutOfMemory
        → may_allocate (atomic_apply_allocates op.now) (is_unique value.old) ≡ true }
    ensures unchanged { OnErr result (value_of value.new ≡ value_of value.old) }
    ensures unique { length op.now ≤ 1 → is_unique value.old ≡ true → is_unique value.new ≡ true }
{
    match op.components() {
        [] => Ok(()),
        [component] => apply_one(alloc, value, component),
        [first, ..] => apply_many(alloc, value, op.components(), first),
    }
}

fn apply_many(
    alloc: Global,
    value: &mut Json,
    components: &[Component],
    first: &Component,
) -> Result<(), ApplyFault>
    requires { take 1 components.now ≡ first.now ∷ [] }
    ensures { IsApplyOutcome true result (apply components.now (value_of value.old)) (value_of value.old)
        (value_of value.new) }
{
    let path = common_path(first.path(), components);
    let turn = ApplyMany {
        alloc,
        components,
        depth: path.len(),
    };
    match change_at(alloc, value, path, turn)? {
        Some(done) => done,
        None => Err(ApplyFault::NotApplied),
    }
}

// Returns the longest common prefix of all components' paths.
fn common_path<'p>(path: &'p [Step], components: &[Component]) -> &'p [Step]
    ensures front { plain_path result.now ≡ take (length result.now) (plain_path path.now) }
    ensures all_below { AllBelowPath (plain_path result.now) components.now }
{
    let mut shared = path;
    for component in components {
        shared = &shared[..common_prefix_len(shared, component.path())];
    }
    shared
}

// Returns the length of the common prefix of both paths.
fn common_prefix_len(path: &[Step], other: &[Step]) -> usize
    ensures in_range { result ≤ length path.now }
    ensures equal { take result (plain_path path.now) ≡ take result (plain_path other.now) }
    ensures bound { result ≤ length other.now }
{
    for (at, step) in path.iter().enumerate() {
        let Some(beside) = other.get(at) else {
            return at;
        };
        if !steps_equal_at(step, beside) {
            return at;
        }
    }
    path.len()
}

fn steps_equal_at(step: &Step, other: &Step) -> bool
    ensures { IsTrue result → plain_step step.now ≡ plain_step other.now }
{
    match (step, other) {
        (Step::Key(key), Step::Key(name)) => key.as_str() == name.as_str(),
        (Step::Index(index), Step::Index(number)) => index == number,
        _ => false,
    }
}

// Components to apply at their common path, which has `depth` steps.
#[derive(Drop)]
struct ApplyMany<'a> {
    alloc: Global,
    components: &'a [Component],
    depth: usize,
}

impl Change for ApplyMany<'_> {
    type Output = Result<(), ApplyFault>;

    ghost relation = { λ t d e r. IsApplyOutcome true r (apply (strip_steps t.depth t.components.now) d) d e };

    ghost keeps_unique = { λ t. ⊥ };

    ghost result_unique = { λ t r. ⊤ };

    fn change(self, target: &mut Json) -> Result<(), ApplyFault> {
        target.freeze(self.alloc)?;
        let backup = target.frozen_clone(self.alloc)?;
        match apply_at_depth(self.alloc, target, self.components, self.depth) {
            Ok(()) => Ok(()),
            Err(fault) => {
                *target = backup;
                Err(fault)
            }
        }
    }
}

// Applies components to the value at the first `depth` steps of their paths.
fn apply_at_depth(
    alloc: Global,
    value: &mut Json,
    components: &[Component],
    depth: usize,
) -> Result<(), ApplyFault>
    ensures applied { OnOk result (apply (strip_steps depth components.now) (value_of value.old)
        ≡ Some (value_of value.new)) }
    ensures not_applied { IsErrOf result NotApplied
        → apply (strip_steps depth components.now) (value_of value.old) ≡ None }
{
    for component in components {
        match apply_at(
            alloc,
            value,
            path_tail(component.path(), depth),
            component.act(),
        ) {
            Ok(()) => {}
            Err(fault) => return Err(fault),
        }
    }
    Ok(())
}

// Returns the path after `depth` steps.
fn path_tail(path: &[Step], depth: usize) -> &[Step]
    ensures { plain_path result.now ≡ drop depth (plain_path path.now) }
{
    let start = depth.min(path.len());
    &path[start..]
}
