//! Transforms of operations.
ghost use Rattle.std.specs.Arc.{arc_value};
ghost use Rattle.std.specs.Option.{is_some};
ghost use Rattle.std.specs.Prelude.{◌≡◌, ◌≤◌, ◌*◌, List, ◌∷◌, [], true, IfOk, IfErr, IsErrOf, Some};
ghost use Rattle.sdb_component.specs.Plain.{PlainComponent};
ghost use Rattle.sdb_component.specs.Weight.{weight};
ghost use Rattle.sdb_transform.specs.ActModel.{IsTransformFault, opposite};
ghost use Rattle.sdb_transform.specs.Cross.{cross_ops, transform_op};
ghost use Rattle.sdb_transform.specs.Classification.{transformed_components};
ghost use Rattle.sdb_transform.specs.CrossStack.{IsResultOfCross, IsOpTransform};
ghost use Rattle.sdb_transform.specs.declared.side.Fault.TheVariants.{OutOfMemory};
ghost use Rattle.sdb_transform.specs.Transform.{transform};

use crate::classify::{TransformKind, classify};
use crate::commutes::commute_unchanged;
use crate::component_list::{Transformed, clone_components};
use crate::component_transform::transform_against;
use crate::cross_stack::{CrossState, pop_right, push_right, push_split, stack_order};
use crate::side::{Fault, Side};
use sdb_component::{Component, Op};
use std::alloc::Global;
use std::sync::Arc;

/// Two operations transformed against each other.
#[derive(Drop)]
pub struct Crossed {
    /// The left operation transformed against the right one.
    pub left: Op,
    /// The right operation transformed against the left one.
    pub right: Op,
    /// Number of pairs that were transformed, at most 2^128 - 1.
    pub pairs: u128,
}

/// Transforms two concurrent operations against each other. Each pair of components is transformed
/// by `transform_one`, the left operation's as `Side::Left`; the results are transformed against
/// the following components. The number of pairs is at most the product of both weights.
///
/// Each component is cloned once, and one of two overlapping deletions once more.
///
/// # Errors
///
/// [`Fault::NotTransformed`] if the transform of a pair is, [`Fault::OutOfMemory`] if an allocation
/// fails.
///
/// ```
/// // `left` is [{"li":1,"p":[0]}], and `right` is [{"li":2,"p":[0]}].
/// let crossed = cross(alloc, &left, &right)?;
/// // Applying `left` and `crossed.right` gives what `right` and `crossed.left` give.
/// assert_eq!(rt; crossed.pairs, 1);
/// ```
pub fn cross(alloc: Global, left: &Op, right: &Op) -> Result<Crossed, Fault>
    ensures ok { IfOk result (λ c. IsResultOfCross c (cross_ops left.now right.now)) }
    ensures err { IfErr result (λ f. IsTransformFault f (cross_ops left.now right.now)) }
    ensures bound { IfOk result (λ c. c.pairs ≤ weight left.now * weight right.now) }
{
    match (left.components(), right.components()) {
        ([left], [right]) => cross_one(alloc, left, right),
        (left, right) => cross_many(
            alloc,
            clone_components(alloc, left)?,
            clone_components(alloc, right)?,
        ),
    }
}

// Crosses two operations of one component each.
#[tactic(auto, using(crate::proofs::PairLemmas::left_fault, crate::proofs::PairLemmas::right_fault))]
fn cross_one(alloc: Global, left: &Component, right: &Component) -> Result<Crossed, Fault>
    ensures ok { IfOk result (λ c. IsResultOfCross c (cross_ops (left.now ∷ []) (right.now ∷ []))) }
    ensures err { IfErr result (λ f. IsTransformFault f (cross_ops (left.now ∷ []) (right.now ∷ []))) }
    ensures bound { IfOk result (λ c. c.pairs ≤ weight (left.now ∷ []) * weight (right.now ∷ [])) }
{
    let pieces = transform_borrowed(alloc, left, right, Side::Left)?;
    let run = transform_borrowed(alloc, right, left, Side::Right)?;
    Ok(Crossed {
        left: pieces.into_op(),
        right: run.into_op(),
        pairs: 1,
    })
}

// Transforms a borrowed component against another one.
fn transform_borrowed(
    alloc: Global,
    component: &Component,
    other: &Component,
    side: Side,
) -> Result<Transformed, Fault>
    ensures ok { IfOk result (λ t. transform side component.now other.now
        ≡ Some (transformed_components t)) }
    ensures err { IfErr result (λ f. IsTransformFault f (transform side component.now other.now)) }
{
    transform_against(alloc, component.try_clone()?, other, side)
}

// Crosses owned operations of any length.
fn cross_many(alloc: Global, left: Vec<Component>, right: Vec<Component>) -> Result<Crossed, Fault>
    ensures ok { IfOk result (λ c. IsResultOfCross c (cross_ops left.items right.items)) }
    ensures err { IfErr result (λ f. IsTransformFault f (cross_ops left.items right.items)) }
    ensures bound { IfOk result (λ c. c.pairs ≤ weight left.items * weight right.items) }
{
    let mut progress = CrossState {
        left: Vec::new(alloc),
        right: Vec::new(alloc),
        right_done: Vec::new(alloc),
        pairs: 0,
    };
    push_split(&mut progress.left, left)?;
    push_right(&mut progress.right, right)?;
    while let Some(next) = pop_right(&mut progress.right) {
        progress.step(alloc, next)?;
    }
    Ok(Crossed {
        left: Op::new(stack_order(progress.left)),
        right: Op::new(progress.right_done),
        pairs: progress.pairs,
    })
}

/// An operation transformed against another one.
#[derive(Drop)]
pub enum TransformedOp {
    /// The operation as it was passed: both operations are known to be unchanged.
    Unchanged(Arc<Op>),
    /// A new operation.
    New(Op),
}

/// Transforms an operation against a concurrent one that was applied before it: the part of `cross`
/// for this side.
///
/// Nothing is cloned if both operations are known to be unchanged. A unique operation made by
/// [`Op::one`] isn't cloned, and the other one isn't while the transformed one is a single component.
///
/// # Errors
///
/// As [`cross`].
///
/// ```
/// // `op` is [{"li":1,"p":[0]}], and `other` is [{"li":2,"p":[0]}].
/// let TransformedOp::New(after) = transform(alloc, op, &other, Side::Right)? else {
///     return Ok(());
/// };
/// let text = op_value(alloc, &after)?.to_string(alloc)?;
/// assert_eq!(rt; text.as_str(), r#"[{"li":1,"p":[1]}]"#);
/// ```
pub fn transform(alloc: Global, op: Arc<Op>, other: &Op, side: Side) -> Result<TransformedOp, Fault>
    ensures ok { IfOk result (λ t. IsOpTransform (arc_value op) t
        (transform_op side (arc_value op) other.now)) }
    ensures err { IfErr result (λ f. IsTransformFault f
        (transform_op side (arc_value op) other.now)) }
{
    if commute_unchanged(op.components(), other.components(), side) {
        return Ok(TransformedOp::Unchanged(op));
    }
    let transformed = match owned_components(alloc, op)? {
        Transformed::One(component) => transform_one_against_all(
            alloc,
            component,
            other.components(),
            side,
        )?,
        Transformed::Many(components) => transform_all_against_all(
            alloc,
            components,
            other.components(),
            side,
        )?,
    };
    Ok(TransformedOp::New(transformed))
}

// Returns the components of an operation, cloned unless it is unique. A single one is returned
// without a vector, so that the other operation isn't cloned.
fn owned_components(alloc: Global, op: Arc<Op>) -> Result<Transformed, Fault>
    ensures ok { IfOk result (λ t. transformed_components t ≡ arc_value op) }
    ensures err { IfErr result (λ f. f ≡ OutOfMemory) }
{
    match Arc::try_unwrap(op) {
        Ok(op) => match op.into_one() {
            Ok(component) => Ok(Transformed::One(component)),
            Err(op) => match op.components() {
                [component] => Ok(Transformed::One(component.try_clone()?)),
                _ => Ok(Transformed::Many(op.into_components(alloc)?)),
            },
        },
        Err(shared) => match shared.components() {
            [component] => Ok(Transformed::One(component.try_clone()?)),
            components => Ok(Transformed::Many(clone_components(alloc, components)?)),
        },
    }
}

// Transforms one component against the others in order.
fn transform_one_against_all(
    alloc: Global,
    component: Component,
    others: &[Component],
    side: Side,
) -> Result<Op, Fault>
    ensures ok { IfOk result (λ t. transform_op side (component ∷ []) others.now ≡ Some t) }
    ensures err { IfErr result (λ f. IsTransformFault f (transform_op side (component ∷ []) others.now)) }
{
    let mut current = component;
    let mut rest = others;
    while let Some((other, behind)) = rest.split_first() {
        rest = behind;
        match transform_borrowed_against(alloc, current, other, side)? {
            Transformed::One(next) => current = next,
            Transformed::Many(pieces) => return transform_all_against_all(
                alloc, pieces, rest, side,
            ),
        }
    }
    Ok(Op::one(current))
}

// Transforms a component against another one, if the other's transform exists too. An allocation
// fails only if both exist.
fn transform_borrowed_against(
    alloc: Global,
    component: Component,
    other: &Component,
    side: Side,
) -> Result<Transformed, Fault>
    ensures ok { IfOk result (λ s. (rest : List PlainComponent)
        → transform_op side (component ∷ []) (other.now ∷ rest) ≡ transform_op side (transformed_components s) rest) }
    ensures err { IfErr result (λ f. (rest : List PlainComponent)
        → IsTransformFault f (transform_op side (component ∷ []) (other.now ∷ rest))) }
    ensures memory { IsErrOf result OutOfMemory
        → (is_some (transform side component other.now) ≡ true)
        × (is_some (transform (opposite side) other.now component) ≡ true) }
{
    match classify(other, &component, side.opposite()) {
        TransformKind::Refused => Err(Fault::NotTransformed),
        _ => transform_against(alloc, component, other, side),
    }
}

// Transforms components against the others.
fn transform_all_against_all(
    alloc: Global,
    components: Vec<Component>,
    others: &[Component],
    side: Side,
) -> Result<Op, Fault>
    ensures ok { IfOk result (λ t. transform_op side components.items others.now ≡ Some t) }
    ensures err { IfErr result (λ f. IsTransformFault f (transform_op side components.items others.now)) }
{
    if components.is_empty() {
        return Ok(Op::new(components));
    }
    let others = clone_components(alloc, others)?;
    match side {
        Side::Left => {
            let crossed = cross_many(alloc, components, others)?;
            Ok(crossed.left)
        }
        Side::Right => {
            let crossed = cross_many(alloc, others, components)?;
            Ok(crossed.right)
        }
    }
}
