//! The contents that a projection permits.
ghost use Rattle.std.specs.Prelude.{◌≡◌};
ghost use Rattle.std.specs.List.{list_all};
ghost use Rattle.sdb_value.specs.View.{value_of, object_value};
ghost use Rattle.sdb_projection.specs.ProjectionModel.{has_only_fields, allowed, allowed_data, is_visible_component};
ghost use Rattle.sdb_projection.specs.View.{fields_of};

use crate::projection::Projection;
use sdb_component::Op;
use sdb_oplog::{Content, Kind};
use sdb_value::{Json, Members};

/// Returns whether the projection permits the content. It permits a create of null or of an object
/// with only its fields, a delete, and an edit whose components all begin at a field. It doesn't
/// allocate.
pub fn allowed(projection: &Projection, content: &Content) -> bool
    ensures { result ≡ allowed (fields_of projection.now) content.now }
{
    match content.kind() {
        Kind::Create(value) => allowed_data(projection, value),
        Kind::Delete => true,
        Kind::Edit(op) => allowed_op(projection, op),
    }
}

fn allowed_data(projection: &Projection, value: &Json) -> bool
    ensures { result ≡ allowed_data (fields_of projection.now) (value_of value.now) }
{
    match value.members() {
        Some(members) => has_only_fields(projection, members),
        None => value.is_null(),
    }
}

fn has_only_fields(projection: &Projection, members: &Members) -> bool
    ensures { result ≡ has_only_fields (fields_of projection.now) (object_value members.now) }
{
    for (key, _) in members.iter() {
        if !projection.is_field(key) {
            return false;
        }
    }
    true
}

fn allowed_op(projection: &Projection, op: &Op) -> bool
    ensures { result ≡ list_all (is_visible_component (fields_of projection.now)) op.now }
{
    for component in op.components() {
        if !projection.is_visible_component(component) {
            return false;
        }
    }
    true
}
