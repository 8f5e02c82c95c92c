//! Laws of changes, as contracts of functions without effect.
ghost use Rattle.sdb_apply.specs.ApplyLaws.{UniqueResult, DisjointChangesCommute, ChangesBelowPlace};

/// States that a component has at most one result.
pub fn unique_result()
    ensures { UniqueResult }
{}

/// States that two components at disjoint paths commute: each still applies after the other, and
/// both orders make one value.
pub fn disjoint_changes_commute()
    ensures { DisjointChangesCommute }
{}

/// States that applying components inside a path is applying them to the value at the path.
pub fn changes_below_place()
    ensures { ChangesBelowPlace }
{}
