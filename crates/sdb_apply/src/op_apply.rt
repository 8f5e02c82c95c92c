//! Applying components and operations.
ghost use Rattle.std.specs.Prelude.{◌≡◌, true, OnOk, OnErr, IfErr, IsErrOf, Some, None, ⊤};
ghost use Rattle.sdb_value.specs.Uniqueness.{is_unique};
ghost use Rattle.sdb_value.specs.View.{value_of, plain_path};
ghost use Rattle.sdb_component.specs.View.{plain_act};
ghost use Rattle.sdb_apply.specs.Apply.{apply_one, apply, apply_act};
ghost use Rattle.sdb_apply.specs.Outcome.{IsApplyOutcome, IsApplyRefusal, may_allocate, act_allocates};
ghost use Rattle.sdb_apply.specs.declared.op_apply.ApplyFault.TheVariants.{NotApplied, OutOfMemory};

use crate::act::apply_act;
use sdb_component::{Act, Component, Op};
use sdb_value::{Change, Json, Step, change_at};
use std::alloc::{AllocError, Global};
use thiserror::Error;

/// The reason why a component isn't applied.
#[derive(Clone, Copy, PartialEq, Eq, Debug, Drop, Error)]
pub enum ApplyFault {
    /// It doesn't apply to the value (E8).
    #[error("operation can not be applied")]
    NotApplied,
    /// An allocation failed (E10).
    #[error("out of memory")]
    OutOfMemory,
}

impl From<AllocError> for ApplyFault {
    ghost use Rattle.sdb_apply.specs.declared.op_apply.ApplyFault.TheVariants.{OutOfMemory};

    ghost from_gives = { λ _ f. f ≡ OutOfMemory };

    fn from(_error: AllocError) -> ApplyFault {
        ApplyFault::OutOfMemory
    }
}

/// The component of an operation that was refused, and why. The components before it were applied,
/// the later ones were not.
#[derive(Clone, Copy, Debug, Drop)]
pub struct Refused {
    /// The index of the component.
    pub at: usize,
    /// The reason.
    pub why: ApplyFault,
}

/// Applies a component in place. A removed value isn't compared with the one at the path, but a
/// deleted text is. A unique value stays unique.
///
/// # Errors
///
/// - [`ApplyFault::NotApplied`] if the path doesn't exist, the value there has another kind, an
///   index or offset is out of range, or a deleted text differs. An offset counts UTF-16 code
///   units, and may not be inside a surrogate pair. A sum may not leave the range from
///   -9007199254740991 to 9007199254740991.
/// - [`ApplyFault::OutOfMemory`] if an allocation fails. It allocates only for an insert or a
///   shared part.
///
/// The value is then unchanged.
pub fn apply_one(alloc: Global, value: &mut Json, component: &Component) -> Result<(), ApplyFault>
    ensures applied { OnOk result (apply_one component.now (value_of value.old) ≡ Some (value_of value.new)) }
    ensures not_applied { IsErrOf result NotApplied → apply_one component.now (value_of value.old) ≡ None }
    ensures memory { IsErrOf result OutOfMemory
        → may_allocate (act_allocates component.now.act) (is_unique value.old) ≡ true }
    ensures unchanged { OnErr result (value_of value.new ≡ value_of value.old) }
    ensures unique { is_unique value.old ≡ true → is_unique value.new ≡ true }
{
    apply_component(alloc, value, component)
}

/// Applies an act at a path, as the component of both. The path is relative to the value.
///
/// # Errors
///
/// As [`apply_one`]: the value is then unchanged.
pub fn apply_at(alloc: Global, value: &mut Json, path: &[Step], act: &Act) -> Result<(), ApplyFault>
    ensures outcome { IsApplyOutcome (may_allocate (act_allocates (plain_act act.now)) (is_unique value.old)) result
        (apply_one (record { path = plain_path path.now; act = plain_act act.now }) (value_of value.old))
        (value_of value.old) (value_of value.new) }
    ensures unique { is_unique value.old ≡ true → is_unique value.new ≡ true }
{
    match change_at(alloc, value, path, ApplyOne { alloc, act })? {
        Some(done) => done,
        None => Err(ApplyFault::NotApplied),
    }
}

fn apply_component(alloc: Global, value: &mut Json, component: &Component) -> Result<(), ApplyFault>
    ensures outcome { IsApplyOutcome (may_allocate (act_allocates component.now.act) (is_unique value.old)) result
        (apply_one component.now (value_of value.old)) (value_of value.old) (value_of value.new) }
    ensures unique { is_unique value.old ≡ true → is_unique value.new ≡ true }
{
    apply_at(alloc, value, component.path(), component.act())
}

/// Applies the components in order, in place. It stops at the first one that is refused. A unique
/// value stays unique.
///
/// # Errors
///
/// [`Refused`] with the first component that [`apply_one`] refuses. The value is then the result of
/// the components before it.
///
/// ```
/// // `value` is 1, and `op` is [{"na":2,"p":[]}].
/// apply(alloc, &mut value, &op)?;
/// assert!(rt; matches!(&value, Json::Int(number) if number.get() == 3));
/// ```
pub fn apply(alloc: Global, value: &mut Json, op: &Op) -> Result<(), Refused>
    ensures applied { OnOk result (apply op.now (value_of value.old) ≡ Some (value_of value.new)) }
    ensures err { IfErr result (IsApplyRefusal op.now (is_unique value.old)
        (value_of value.old) (value_of value.new)) }
    ensures unique { is_unique value.old ≡ true → is_unique value.new ≡ true }
{
    for (at, component) in op.components().iter().enumerate() {
        match apply_component(alloc, value, component) {
            Ok(()) => {}
            Err(why) => return Err(Refused { at, why }),
        }
    }
    Ok(())
}

// The act of a component, to apply at its path.
#[derive(Drop)]
struct ApplyOne<'a> {
    alloc: Global,
    act: &'a Act,
}

impl Change for ApplyOne<'_> {
    type Output = Result<(), ApplyFault>;

    ghost relation = { λ t d e r. IsApplyOutcome true r (apply_act (plain_act t.act.now) d) d e };

    ghost keeps_unique = { λ t. ⊤ };

    ghost result_unique = { λ t r. IsErrOf r OutOfMemory → act_allocates (plain_act t.act.now) ≡ true };

    fn change(self, target: &mut Json) -> Result<(), ApplyFault> {
        apply_act(self.alloc, target, self.act)
    }
}
