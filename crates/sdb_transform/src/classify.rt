//! Classification of a transform by the paths and positions of both components: whether it is
//! refused, changes only the component's position, or rewrites the component.
ghost use Rattle.std.specs.Prelude.{◌≡◌, Some};
ghost use Rattle.sdb_component.specs.View.{plain_act};
ghost use Rattle.sdb_transform.specs.Classification.{IsFeasible, transform_by_kind, reposition_component, with_position, transformed_components};
ghost use Rattle.sdb_transform.specs.Transform.{update_removed, transform, strip_removed_path};

use crate::classify_act::classify_act;
use crate::classify_path::{classify_step, strip_prefix};
use crate::component_list::Transformed;
use crate::removed_value::removes_value_at;
use crate::rewrite::Rewrite;
use crate::side::Side;
use sdb_component::{Act, Component};
use std::alloc::Global;

// The change of a component whose texts and values are unchanged.
#[derive(Drop)]
pub(crate) enum PositionChange {
    Dropped,
    Unchanged,
    // The new offset or index.
    MovedTo(u64),
}

// The kind of a transform.
#[derive(Drop)]
pub(crate) enum TransformKind {
    Refused,
    PositionOnly(PositionChange),
    // More than the offset or index changes.
    Rewritten(Rewrite),
}

pub(crate) fn classify(component: &Component, other: &Component, side: Side) -> TransformKind
    ensures kind { transform side component.now other.now
        ≡ transform_by_kind result component.now other.now }
    ensures feasible { IsFeasible result component.now other.now }
{
    match strip_prefix(other.path(), component.path()) {
        None => classify_disjoint(component, other),
        Some(rest) => match rest {
            [] => classify_act(component.act(), other.act(), side),
            [step, ..] => classify_step(step, other.act()),
        },
    }
}

// Classifies a component that isn't at or inside the other's container. Only the removal of a value
// in which the other component works is rewritten.
fn classify_disjoint(component: &Component, other: &Component) -> TransformKind
    ensures kind { Some (update_removed component.now other.now (strip_removed_path component.now other.now.path))
        ≡ transform_by_kind result component.now other.now }
    ensures feasible { IsFeasible result component.now other.now }
{
    if removes_value_at(component, other.path()) {
        TransformKind::Rewritten(Rewrite::UpdatedValue)
    } else {
        TransformKind::PositionOnly(PositionChange::Unchanged)
    }
}

// Applies a position change to a component.
pub(crate) fn reposition_component(
    alloc: Global,
    component: Component,
    to: PositionChange,
) -> Transformed
    ensures { transformed_components result ≡ reposition_component to component }
{
    match to {
        PositionChange::Dropped => Transformed::Many(Vec::new(alloc)),
        PositionChange::Unchanged => Transformed::One(component),
        PositionChange::MovedTo(position) => {
            let (path, act) = component.into_parts();
            Transformed::One(Component::new(path, with_position(act, position)))
        }
    }
}

fn with_position(act: Act, position: u64) -> Act
    ensures { plain_act result ≡ with_position position (plain_act act) }
{
    match act {
        Act::Si(_, s) => Act::Si(position, s),
        Act::Sd(_, d) => Act::Sd(position, d),
        Act::Li(_, v) => Act::Li(position, v),
        Act::Ld(_, x) => Act::Ld(position, x),
        Act::Lr(_, w, z) => Act::Lr(position, w, z),
        other => other,
    }
}
