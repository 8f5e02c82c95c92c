//! Equality of entries.
ghost use Rattle.std.specs.Prelude.{◌≡◌, IsTrue, IsFalse};
ghost use Rattle.sdb_value.specs.View.{value_of};

use crate::content::{Content, Kind};
use crate::entry::{Entry, Submission};
use sdb_component::components_equal;
use sdb_value::values_equal;

/// Returns whether the lists of entries are equal.
pub fn entries_equal(a: &[Entry], b: &[Entry]) -> bool
    ensures on_true { IsTrue result → a.now ≡ b.now }
    ensures on_false { IsFalse result → a.now ≡ b.now → ⊥ }
{
    if a.len() != b.len() {
        return false;
    }
    for at in 0..a.len() {
        if !entry_equal(&a[at], &b[at]) {
            return false;
        }
    }
    true
}

fn entry_equal(a: &Entry, b: &Entry) -> bool
    ensures on_true { IsTrue result → a.now ≡ b.now }
    ensures on_false { IsFalse result → a.now ≡ b.now → ⊥ }
{
    a.version() == b.version()
        && a.moment().milliseconds() == b.moment().milliseconds()
        && submission_equal(a.arrived(), b.arrived())
        && entry_content_equal(a, b)
}

// Returns whether two entries of one submission have equal contents.
fn entry_content_equal(a: &Entry, b: &Entry) -> bool
    requires { a.now.arrived ≡ b.now.arrived }
    ensures on_true { IsTrue result → a.now.content ≡ b.now.content }
    ensures on_false { IsFalse result → a.now.content ≡ b.now.content → ⊥ }
{
    if a.has_arrived_content() && b.has_arrived_content() {
        return true;
    }
    content_equal(a.content(), b.content())
}

fn submission_equal(a: &Submission, b: &Submission) -> bool
    ensures on_true { IsTrue result → a.now ≡ b.now }
    ensures on_false { IsFalse result → a.now ≡ b.now → ⊥ }
{
    a.src() == b.src()
        && a.seq() == b.seq()
        && a.version() == b.version()
        && content_equal(a.content(), b.content())
        && a.via() == b.via()
        && a.by() == b.by()
}

fn content_equal(a: &Content, b: &Content) -> bool
    ensures on_true { IsTrue result → a.now ≡ b.now }
    ensures on_false { IsFalse result → a.now ≡ b.now → ⊥ }
{
    match a.kind() {
        Kind::Create(value) => match b.kind() {
            Kind::Create(other) => values_equal(value, other),
            _ => false,
        },
        Kind::Delete => match b.kind() {
            Kind::Delete => true,
            _ => false,
        },
        Kind::Edit(op) => match b.kind() {
            Kind::Edit(other) => components_equal(op.components(), other.components()),
            _ => false,
        },
    }
}
