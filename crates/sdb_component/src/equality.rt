//! Equality of components.
ghost use Rattle.std.specs.Prelude.{◌≡◌, IsTrue, IsFalse};
ghost use Rattle.sdb_component.specs.View.{plain_act};

use crate::component::{Act, Component};
use sdb_value::{paths_equal, values_equal};

/// Returns whether the lists of components are equal. It doesn't allocate.
pub fn components_equal(a: &[Component], b: &[Component]) -> bool
    ensures on_true { IsTrue result → a.now ≡ b.now }
    ensures on_false { IsFalse result → a.now ≡ b.now → ⊥ }
{
    if a.len() != b.len() {
        return false;
    }
    for at in 0..a.len() {
        if !component_equal(&a[at], &b[at]) {
            return false;
        }
    }
    true
}

fn component_equal(a: &Component, b: &Component) -> bool
    ensures on_true { IsTrue result → a.now ≡ b.now }
    ensures on_false { IsFalse result → a.now ≡ b.now → ⊥ }
{
    paths_equal(a.path(), b.path()) && acts_equal(a.act(), b.act())
}

fn acts_equal(a: &Act, b: &Act) -> bool
    ensures on_true { IsTrue result → plain_act a.now ≡ plain_act b.now }
    ensures on_false { IsFalse result → plain_act a.now ≡ plain_act b.now → ⊥ }
{
    match a {
        Act::Na(x) => match b {
            Act::Na(y) => x.get() == y.get(),
            _ => false,
        },
        Act::Si(p, s) => match b {
            Act::Si(q, t) => *p == *q && s.as_str() == t.as_str(),
            _ => false,
        },
        Act::Sd(p, s) => match b {
            Act::Sd(q, t) => *p == *q && s.as_str() == t.as_str(),
            _ => false,
        },
        Act::Li(i, x) => match b {
            Act::Li(j, y) => *i == *j && values_equal(x, y),
            _ => false,
        },
        Act::Ld(i, x) => match b {
            Act::Ld(j, y) => *i == *j && values_equal(x, y),
            _ => false,
        },
        Act::Lr(i, x, v) => match b {
            Act::Lr(j, y, w) => *i == *j && values_equal(x, y) && values_equal(v, w),
            _ => false,
        },
        Act::Oi(k, x) => match b {
            Act::Oi(l, y) => k.as_str() == l.as_str() && values_equal(x, y),
            _ => false,
        },
        Act::Od(k, x) => match b {
            Act::Od(l, y) => k.as_str() == l.as_str() && values_equal(x, y),
            _ => false,
        },
        Act::Or(k, x, v) => match b {
            Act::Or(l, y, w) => k.as_str() == l.as_str()
                && values_equal(x, y)
                && values_equal(v, w),
            _ => false,
        },
    }
}
