//! Bounds on the work of a rebase.
ghost use Rattle.std.specs.Prelude.{◌≡◌, true, IsTrue};
ghost use Rattle.sdb_oplog.specs.Rebase.{rebase_allocates};

use sdb_component::Act;
use sdb_oplog::{Content, Entry, Kind};

/// Returns whether the rebase of a content on the entries begins with an edit against an edit.
/// Otherwise it transforms nothing.
pub fn transforms_edits(content: &Content, entries: &[Entry]) -> bool
    ensures { IsTrue result → rebase_allocates content.now entries.now ≡ true }
{
    match (content.kind(), entries.first()) {
        (Kind::Edit(_), Some(first)) => matches!(first.content().kind(), Kind::Edit(_)),
        _ => false,
    }
}

/// Returns a bound on the number of pairs of components that it takes to rebase a content on the
/// entries. An entry counts as one pair or more. Counting ends above `max` pairs.
///
/// Only deletions of text are split, each into at most as many parts as it has bytes, and only at
/// components of the other side that aren't split.
pub fn rebase_pairs(content: &Content, entries: &[Entry], max: usize) -> usize {
    let count = component_count(content);
    let most_parts = part_limit(content);
    let (mut parts, mut pairs): (usize, usize) = (count, 0);
    for entry in entries {
        let others = component_count(entry.content());
        let other_parts = part_limit(entry.content()).min(others.saturating_add(count));
        parts = parts.saturating_add(others).min(most_parts);
        pairs = pairs.saturating_add(other_parts.saturating_mul(parts).max(1));
        if pairs > max {
            return pairs;
        }
    }
    pairs
}

// Returns the number of an edit's components, and 0 for another content.
pub(crate) fn component_count(content: &Content) -> usize {
    match content.kind() {
        Kind::Edit(op) => op.components().len(),
        _ => 0,
    }
}

// Returns the greatest number of components into which those of an edit can be split, and 0 for
// another content.
fn part_limit(content: &Content) -> usize {
    let Kind::Edit(op) = content.kind() else {
        return 0;
    };
    let mut parts: usize = 0;
    for component in op.components() {
        parts = parts.saturating_add(match component.act() {
            Act::Sd(_, text) => text.as_str().len().max(1),
            _ => 1,
        });
    }
    parts
}
