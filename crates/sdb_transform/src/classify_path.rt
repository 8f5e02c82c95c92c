//! Prefixes of paths, and the classification of a step inside the other's container.
ghost use Rattle.std.specs.Prelude.{◌≡◌, option_map};
ghost use Rattle.sdb_value.specs.View.{plain_step, plain_path};
ghost use Rattle.sdb_value.specs.Value.{index, key, texts_equal};
ghost use Rattle.sdb_component.specs.View.{plain_act};
ghost use Rattle.sdb_transform.specs.Classification.{IsKindOfStep};
ghost use Rattle.sdb_transform.specs.Transform.{strip_prefix, transform_step, transform_index, transform_key};

use crate::classify::{PositionChange, TransformKind};
use crate::classify_act::{dropped_if, shifted_position};
use crate::rewrite::Rewrite;
use sdb_component::Act;
use sdb_value::Step;

// Returns the steps after the prefix, if the path begins with it.
pub(crate) fn strip_prefix<'p>(front: &[Step], path: &'p [Step]) -> Option<&'p [Step]>
    ensures { option_map (λ rest. plain_path rest.now) result
        ≡ strip_prefix (plain_path front.now) (plain_path path.now) }
{
    path.strip_prefix(front)
}

// Returns whether both keys are equal.
pub(crate) fn keys_equal(key: &str, other: &str) -> bool
    ensures { result ≡ texts_equal key.now other.now }
{
    key == other
}

// Classifies a component inside the other's container, by its path's step there.
pub(crate) fn classify_step(step: &Step, other: &Act) -> TransformKind
    ensures { IsKindOfStep result (plain_step step.now)
        (transform_step (plain_act other.now) (plain_step step.now)) }
{
    match step {
        Step::Index(index) => classify_index(*index, other),
        Step::Key(key) => classify_key(key.as_str(), other),
    }
}

fn classify_index(j: u64, other: &Act) -> TransformKind
    ensures { IsKindOfStep result (index j) (transform_index (plain_act other.now) j) }
{
    match other {
        Act::Li(i, _) if *i <= j => match shifted_position(j, 1) {
            Some(at) => TransformKind::Rewritten(Rewrite::MovedStep(at)),
            None => TransformKind::Refused,
        },
        Act::Ld(i, _) if *i < j => TransformKind::Rewritten(Rewrite::MovedStep(j - 1)),
        Act::Ld(i, _) | Act::Lr(i, _, _) => dropped_if(*i == j),
        _ => TransformKind::PositionOnly(PositionChange::Unchanged),
    }
}

fn classify_key(name: &str, other: &Act) -> TransformKind
    ensures { IsKindOfStep result (key name.now) (transform_key (plain_act other.now) name.now) }
{
    match other {
        Act::Od(key, _) | Act::Or(key, _, _) => dropped_if(keys_equal(key.as_str(), name)),
        _ => TransformKind::PositionOnly(PositionChange::Unchanged),
    }
}
