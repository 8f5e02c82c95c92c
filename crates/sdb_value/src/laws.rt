//! Laws of values and of paths in them, as contracts of functions without effect.
ghost use Rattle.std.specs.Str.{IsUtf8};
ghost use Rattle.sdb_value.specs.Disjoint.{DisjointPathsCommute, DisjointStepsCommute, TextEqualityIsExact, StepEqualityIsExact};
ghost use Rattle.sdb_value.specs.View.{value_of, list_value, object_value};
ghost use Rattle.sdb_value.specs.WellFormed.{IsInRange, IsWellFormed, AreWellFormed, MembersWellFormed};

use crate::value::{Json, List, Members, Whole};
use sdb_rope::laws::text_is_utf8;

/// States that a value is well formed: numbers are in range, texts and keys are UTF-8, and the keys
/// of each object are sorted by bytes and unique.
pub fn well_formed(value: &Json)
    ensures { IsWellFormed (value_of value.now) }
{
    all_well_formed(value);
}

#[cycle(well_formed)]
#[tactic(auto, using(crate::proofs::WeightLemmas::levels))]
fn all_well_formed(value: &Json)
    ensures { IsWellFormed (value_of value.now) }
{
    match value {
        Json::Int(number) => in_range(*number),
        Json::Text(text) => text_is_utf8(text),
        Json::List(items) => items_well_formed(items),
        Json::Object(members) => members_well_formed(members),
        _ => {}
    }
}

#[cycle(well_formed)]
fn items_well_formed(items: &List)
    ensures { AreWellFormed (list_value items.now) }
{
    for item in items.iter() {
        all_well_formed(item);
    }
}

#[cycle(well_formed)]
fn members_well_formed(members: &Members)
    ensures { MembersWellFormed (object_value members.now) }
{
    for (key, member) in members.iter() {
        key_is_text(key);
        all_well_formed(member);
    }
}

/// States that changes at two disjoint paths commute: neither changes the value at the other path,
/// and both orders make one value.
pub fn disjoint_paths_commute()
    ensures { DisjointPathsCommute }
{}

/// States that changes at two different steps of one value commute.
pub fn disjoint_steps_commute()
    ensures { DisjointStepsCommute }
{}

/// States that texts and steps are equal if and only if their comparison succeeds.
pub fn equality_is_exact()
    ensures texts { TextEqualityIsExact }
    ensures steps { StepEqualityIsExact }
{}

fn in_range(_number: Whole)
    ensures { IsInRange _number }
{}

fn key_is_text(_text: &str)
    ensures { IsUtf8 _text.now }
{}
