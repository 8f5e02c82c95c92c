//! Equality of values and paths.
ghost use Rattle.std.specs.Prelude.{◌≡◌, IsTrue, IsFalse};
ghost use Rattle.sdb_value.specs.View.{value_of, list_value, object_value, plain_step, plain_path};

use crate::path::Step;
use crate::value::{Json, List, Members};

/// Returns whether the values are equal: of one kind, with equal parts, and members under equal
/// keys. It stops at the first difference and doesn't allocate.
pub fn values_equal(a: &Json, b: &Json) -> bool
    ensures on_true { IsTrue result → value_of a.now ≡ value_of b.now }
    ensures on_false { IsFalse result → value_of a.now ≡ value_of b.now → ⊥ }
{
    equal(a, b)
}

#[cycle(equal)]
#[tactic(auto, using(crate::proofs::WeightLemmas::levels))]
fn equal(a: &Json, b: &Json) -> bool
    ensures on_true { IsTrue result → value_of a.now ≡ value_of b.now }
    ensures on_false { IsFalse result → value_of a.now ≡ value_of b.now → ⊥ }
{
    match a {
        Json::Null => match b {
            Json::Null => true,
            _ => false,
        },
        Json::Bool(x) => match b {
            Json::Bool(y) => *x == *y,
            _ => false,
        },
        Json::Int(x) => match b {
            Json::Int(y) => x.get() == y.get(),
            _ => false,
        },
        Json::Text(x) => match b {
            Json::Text(y) => x.equals(y),
            _ => false,
        },
        Json::List(x) => match b {
            Json::List(y) => items_equal(x, y),
            _ => false,
        },
        Json::Object(x) => match b {
            Json::Object(y) => members_equal(x, y),
            _ => false,
        },
    }
}

#[cycle(equal)]
fn items_equal(a: &List, b: &List) -> bool
    ensures on_true { IsTrue result → list_value a.now ≡ list_value b.now }
    ensures on_false { IsFalse result → list_value a.now ≡ list_value b.now → ⊥ }
{
    let mut others = b.iter();
    for item in a.iter() {
        match others.next() {
            Some(other) => {
                if !equal(item, other) {
                    return false;
                }
            }
            None => return false,
        }
    }
    others.next().is_none()
}

#[cycle(equal)]
fn members_equal(a: &Members, b: &Members) -> bool
    ensures on_true { IsTrue result → object_value a.now ≡ object_value b.now }
    ensures on_false { IsFalse result → object_value a.now ≡ object_value b.now → ⊥ }
{
    let mut others = b.iter();
    for (key, member) in a.iter() {
        match others.next() {
            Some((name, other)) => {
                if key != name || !equal(member, other) {
                    return false;
                }
            }
            None => return false,
        }
    }
    others.next().is_none()
}

/// Returns whether the paths are equal step by step. It doesn't allocate.
pub fn paths_equal(a: &[Step], b: &[Step]) -> bool
    ensures on_true { IsTrue result → plain_path a.now ≡ plain_path b.now }
    ensures on_false { IsFalse result → plain_path a.now ≡ plain_path b.now → ⊥ }
{
    if a.len() != b.len() {
        return false;
    }
    for at in 0..a.len() {
        if !steps_equal(&a[at], &b[at]) {
            return false;
        }
    }
    true
}

fn steps_equal(a: &Step, b: &Step) -> bool
    ensures on_true { IsTrue result → plain_step a.now ≡ plain_step b.now }
    ensures on_false { IsFalse result → plain_step a.now ≡ plain_step b.now → ⊥ }
{
    match a {
        Step::Key(key) => match b {
            Step::Key(other) => key.as_str() == other.as_str(),
            Step::Index(_) => false,
        },
        Step::Index(index) => match b {
            Step::Key(_) => false,
            Step::Index(other) => *index == *other,
        },
    }
}
