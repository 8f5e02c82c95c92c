//! Transforms of single components.
ghost use Rattle.std.specs.Prelude.{◌≡◌, Some, IfOk, IfErr, ◌≤◌};
ghost use Rattle.sdb_component.specs.Weight.{component_weight, weight};
ghost use Rattle.sdb_transform.specs.ActModel.{IsPairFault};
ghost use Rattle.sdb_transform.specs.Classification.{IsFeasible, transform_by_kind, transformed_components};
ghost use Rattle.sdb_transform.specs.Transform.{transform};

use crate::classify::{TransformKind, classify, reposition_component};
use crate::component_list::Transformed;
use crate::rewrite::rewrite_component;
use crate::side::{Fault, Side};
use sdb_component::Component;
use std::alloc::Global;

/// Transforms a component against a concurrent one that was applied before it. Returns no, one or
/// two components. Offsets and lengths of texts count UTF-16 code units.
///
/// The component is consumed, and only what the other changes is copied.
///
/// # Errors
///
/// [`Fault::NotTransformed`] if a deletion would be cut inside a surrogate pair, or an index or
/// offset would exceed 9007199254740991. [`Fault::OutOfMemory`] if an allocation fails; there is
/// then a transform.
pub fn transform_one(
    alloc: Global,
    component: Component,
    other: &Component,
    side: Side,
) -> Result<Vec<Component>, Fault>
    ensures ok { IfOk result (λ v. transform side component other.now ≡ Some v.items) }
    ensures err { IfErr result (λ f. IsPairFault f (transform side component other.now)) }
    ensures weight { IfOk result (λ v. weight v.items ≤ component_weight component) }
{
    let transformed = transform_against(alloc, component, other, side)?;
    Ok(transformed.into_op().into_components(alloc)?)
}

// Transforms a component against another one.
pub(crate) fn transform_against(
    alloc: Global,
    component: Component,
    other: &Component,
    side: Side,
) -> Result<Transformed, Fault>
    ensures ok { IfOk result (λ t. transform side component other.now
        ≡ Some (transformed_components t)) }
    ensures err { IfErr result (λ f. IsPairFault f (transform side component other.now)) }
{
    let kind = classify(&component, other, side);
    transform_by_kind(alloc, component, other, kind)
}

// Transforms a component of a known kind.
pub(crate) fn transform_by_kind(
    alloc: Global,
    component: Component,
    other: &Component,
    kind: TransformKind,
) -> Result<Transformed, Fault>
    requires { IsFeasible kind component other.now }
    ensures ok { IfOk result (λ t. transform_by_kind kind component other.now
        ≡ Some (transformed_components t)) }
    ensures err { IfErr result (λ f. IsPairFault f (transform_by_kind kind component other.now)) }
{
    match kind {
        TransformKind::Refused => Err(Fault::NotTransformed),
        TransformKind::PositionOnly(to) => Ok(reposition_component(alloc, component, to)),
        TransformKind::Rewritten(rewrite) => rewrite_component(alloc, component, other, rewrite),
    }
}
