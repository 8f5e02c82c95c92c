//! Laws of operations, as contracts of functions without effect.
ghost use Rattle.sdb_component.specs.Limits.{ReadStaysInRange};

/// States that a parsed operation is within the limits of the profile: 256 components, 50 steps of
/// a path, depth 50 of a value, and positions up to 2^53 - 1.
pub fn read_keeps_limits()
    ensures { ReadStaysInRange }
{}
