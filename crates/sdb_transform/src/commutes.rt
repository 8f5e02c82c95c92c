//! Operations that commute unchanged.
ghost use Rattle.std.specs.Prelude.{◌≡◌, All, IsTrue, None, Some};
ghost use Rattle.sdb_value.specs.View.{plain_path};
ghost use Rattle.sdb_transform.specs.Cross.{transform_op};
ghost use Rattle.sdb_transform.specs.Classification.{CommuteUnchanged};
ghost use Rattle.sdb_transform.specs.Transform.{strip_prefix};
ghost use Rattle.sdb_transform.specs.declared.classify.PositionChange.TheVariants.{Unchanged};
ghost use Rattle.sdb_transform.specs.declared.classify.TransformKind.TheVariants.{PositionOnly};

use crate::classify::{PositionChange, TransformKind, classify};
use crate::side::Side;
use sdb_component::{Act, Component};
use sdb_value::{Step, paths_equal};
use std::slice;

// Returns `true` only if transforming leaves both operations unchanged.
pub(crate) fn commute_unchanged(components: &[Component], others: &[Component], side: Side) -> bool
    ensures { IsTrue result → transform_op side components.now others.now ≡ Some components.now }
{
    for component in components {
        if !unchanged_against(component, others, side) {
            return false;
        }
    }
    true
}

// Returns `true` only if the component and the others leave each other unchanged. Text edits nearly
// always move each other, so they aren't checked.
fn unchanged_against(component: &Component, others: &[Component], side: Side) -> bool
    ensures { IsTrue result → All (CommuteUnchanged side component.now) others.now }
{
    if matches!(component.act(), Act::Si(..) | Act::Sd(..)) {
        return false;
    }
    for other in others {
        if !commute(component, other, side) {
            return false;
        }
    }
    true
}

// Returns `true` only if both components leave each other unchanged.
#[tactic(auto, using(crate::proofs::UnchangedLemmas::apart_stays))]
fn commute(component: &Component, other: &Component, side: Side) -> bool
    ensures { IsTrue result → CommuteUnchanged side component.now other.now }
{
    if paths_diverge(component.path(), other.path()) {
        return true;
    }
    is_unchanged(&classify(component, other, side))
        && is_unchanged(&classify(other, component, side.opposite()))
}

// Returns `true` only if the paths differ at the last step that both have, so that neither is a
// prefix of the other.
fn paths_diverge(path: &[Step], other: &[Step]) -> bool
    ensures not_prefix { IsTrue result → strip_prefix (plain_path path.now) (plain_path other.now) ≡ None }
    ensures not_extension { IsTrue result → strip_prefix (plain_path other.now) (plain_path path.now) ≡ None }
{
    let Some(last) = path.len().min(other.len()).checked_sub(1) else {
        return false;
    };
    !paths_equal(slice::from_ref(&path[last]), slice::from_ref(&other[last]))
}

fn is_unchanged(outlook: &TransformKind) -> bool
    ensures { IsTrue result → outlook.now ≡ PositionOnly Unchanged }
{
    match outlook {
        TransformKind::PositionOnly(PositionChange::Unchanged) => true,
        _ => false,
    }
}
