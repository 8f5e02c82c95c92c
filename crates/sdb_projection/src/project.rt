//! Projected values and operations.
ghost use Rattle.std.specs.Prelude.{◌≡◌, IfOk};
ghost use Rattle.sdb_value.specs.View.{value_of, object_value};
ghost use Rattle.sdb_projection.specs.ProjectionModel.{proj, proj_op, proj_content, project_members};
ghost use Rattle.sdb_projection.specs.View.{fields_of};

use crate::projection::Projection;
use sdb_component::Op;
use sdb_oplog::{Content, Kind};
use sdb_value::{Json, Members, put_at_key};
use std::alloc::{AllocError, Global};

/// Returns the projected data: an object with only the fields, and null for any other value.
///
/// # Errors
///
/// [`AllocError`] if an allocation fails.
pub fn project_data(
    alloc: Global,
    projection: &Projection,
    value: &Json,
) -> Result<Json, AllocError>
    ensures { IfOk result (λ v. value_of v ≡ proj (fields_of projection.now) (value_of value.now)) }
{
    match value.members() {
        Some(members) => Ok(Json::from_members(project_members(alloc, projection, members)?)),
        None => Ok(Json::Null),
    }
}

// Returns clones of the members whose keys are fields.
fn project_members(
    alloc: Global,
    projection: &Projection,
    members: &Members,
) -> Result<Members, AllocError>
    ensures { IfOk result
        (λ m. object_value m ≡ project_members (fields_of projection.now) (object_value members.now)) }
{
    let mut copies = Members::new(alloc);
    for (key, member) in members.iter() {
        if projection.is_field(key) {
            let name = String::from_str(alloc, key)?;
            put_at_key(alloc, &mut copies, name, member.try_clone(alloc)?)?;
        }
    }
    Ok(copies)
}

/// Returns the projected operation: the components that begin at a field, in order.
///
/// # Errors
///
/// [`AllocError`] if an allocation fails.
pub fn project_op(alloc: Global, projection: &Projection, op: &Op) -> Result<Op, AllocError>
    ensures { IfOk result (λ o. o ≡ proj_op (fields_of projection.now) op.now) }
{
    let mut copies = Vec::new(alloc);
    for component in op.components() {
        if projection.is_visible_component(component) {
            copies.push(component.try_clone()?)?;
        }
    }
    Ok(Op::new(copies))
}

/// Returns the projected content: the data of a create, the operation of an edit, and a delete
/// unchanged.
///
/// # Errors
///
/// [`AllocError`] if an allocation fails.
pub fn project_content(
    alloc: Global,
    projection: &Projection,
    content: &Content,
) -> Result<Content, AllocError>
    ensures { IfOk result (λ c. c ≡ proj_content (fields_of projection.now) content.now) }
{
    match content.kind() {
        Kind::Create(value) => Ok(Content::create(alloc, project_data(alloc, projection, value)?)?),
        Kind::Delete => Ok(Content::delete()),
        Kind::Edit(op) => Ok(Content::edit(alloc, project_op(alloc, projection, op)?)?),
    }
}
