//! The law of projections, as the contract of a function without effect.
ghost use Rattle.sdb_value.specs.View.{value_of};
ghost use Rattle.sdb_projection.specs.ProjectionLaw.{ProjectionCommutes};

use sdb_value::Json;
use sdb_value::laws::well_formed;

/// States that projection commutes with applying: the projected operation applied to the projected
/// value is the projection of the operation's result.
pub fn projection_commutes(value: &Json)
    ensures { ProjectionCommutes (value_of value.now) }
{
    well_formed(value);
}
