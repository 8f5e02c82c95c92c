//! Documents and operations as seen through a projection.
ghost use Rattle.std.specs.Prelude.{◌≡◌, IfOk, option_map, unwrap_or};
ghost use Rattle.sdb_oplog.specs.Keys.{plain_key};
ghost use Rattle.sdb_session.specs.ProjectionModel.{base_of, projected_content, projected_value, is_permitted};
ghost use Rattle.sdb_session.specs.View.{plain_projection_option};
ghost use Rattle.sdb_value.specs.View.{value_of};

use sdb_oplog::{Content, Key};
use sdb_projection::{Projection, allowed, project_content, project_data};
use sdb_value::Json;
use std::alloc::{AllocError, Global};

// The document of a request: the key that the client names, the base document's key, and the
// projection if there is one.
#[derive(Drop)]
pub(crate) struct DocumentRef<'a> {
    pub key: &'a Key,
    pub base: &'a Key,
    pub projection: Option<&'a Projection>,
}

// Returns the base document's key if it differs from the key.
pub(crate) fn projected_base_key(
    projection: Option<&Projection>,
    key: &Key,
) -> Result<Option<Key>, AllocError>
    ensures { IfOk result (λ moved.
        unwrap_or (option_map plain_key moved) (plain_key key.now)
        ≡ base_of (plain_projection_option projection.entry) (plain_key key.now)) }
{
    match projection {
        None => Ok(None),
        Some(projection) => Ok(Some(Key {
            collection: projection.base.clone()?,
            id: key.id.clone()?,
        })),
    }
}

// Returns the base document's key, or the key itself.
pub(crate) fn base_key_or<'a>(moved: &'a Option<Key>, key: &'a Key) -> &'a Key
    ensures { plain_key result.now ≡ unwrap_or (option_map plain_key moved.now) (plain_key key.now) }
{
    match moved {
        Some(moved) => moved,
        None => key,
    }
}

// Returns the base document's key.
pub(crate) fn base_key(projection: Option<&Projection>, key: &Key) -> Result<Key, AllocError>
    ensures { IfOk result (λ base.
        plain_key base ≡ base_of (plain_projection_option projection.entry) (plain_key key.now)) }
{
    match projected_base_key(projection, key)? {
        None => key.try_clone(),
        Some(base) => Ok(base),
    }
}

// Returns whether the projection permits the content.
pub(crate) fn permits(projection: Option<&Projection>, content: &Content) -> bool
    ensures { result ≡ is_permitted (plain_projection_option projection.entry) content.now }
{
    match projection {
        None => true,
        Some(projection) => allowed(projection, content),
    }
}

// Returns the document as seen through the projection.
pub(crate) fn projected_document(
    alloc: Global,
    projection: Option<&Projection>,
    document: Option<Json>,
) -> Result<Option<Json>, AllocError>
    ensures { IfOk result (λ seen.
        option_map value_of seen
        ≡ option_map (projected_value (plain_projection_option projection.entry)) (option_map value_of document)) }
{
    match projection {
        None => Ok(document),
        Some(projection) => match document {
            None => Ok(None),
            Some(data) => Ok(Some(project_data(alloc, projection, &data)?)),
        },
    }
}

// Returns the content as seen through the projection, or `None` if it is unchanged.
pub(crate) fn projected_content(
    alloc: Global,
    projection: Option<&Projection>,
    content: &Content,
) -> Result<Option<Content>, AllocError>
    ensures { IfOk result (λ seen.
        unwrap_or seen content.now ≡ projected_content (plain_projection_option projection.entry) content.now) }
{
    match projection {
        None => Ok(None),
        Some(projection) => Ok(Some(project_content(alloc, projection, content)?)),
    }
}
