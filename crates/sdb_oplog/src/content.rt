//! Contents of submissions and entries.
ghost use Rattle.std.specs.Arc.{arc_value};
ghost use Rattle.std.specs.Prelude.{◌≡◌, true, IfOk, IfErr, OnOk, OnErr, IsErrOf, Ok, option_map, unwrap_or};
ghost use Rattle.sdb_value.specs.Uniqueness.{is_unique};
ghost use Rattle.sdb_value.specs.View.{value_of};
ghost use Rattle.sdb_apply.specs.Outcome.{may_allocate, atomic_apply_allocates};
ghost use Rattle.sdb_oplog.specs.Plain.{create, delete, edit};
ghost use Rattle.sdb_oplog.specs.Refusal.{IsRefusalOrOutOfMemory};
ghost use Rattle.sdb_oplog.specs.Rebase.{over, rebase, edit_over, over_allocates, rebase_allocates};
ghost use Rattle.sdb_oplog.specs.Snap.{apply_content, apply_in_place_allocates, is_unique_document, apply_op};
ghost use Rattle.sdb_oplog.specs.View.{plain_kind};
ghost use Rattle.sdb_oplog.specs.declared.codes.Code.TheVariants.{E10};

use crate::codes::Code;
use crate::entry::Entry;
use sdb_apply::apply_atomic;
use sdb_component::{Op, Path};
use sdb_transform::{Side, TransformedOp, transform};
use sdb_value::Json;
use std::alloc::{AllocError, Global};
use std::marker::Model;
use std::sync::Arc;

/// The three kinds of content. Clones of a content share its data or its operation.
#[derive(Drop)]
pub enum Kind {
    /// A create with these data.
    Create(Arc<Json>),
    /// A delete.
    Delete,
    /// An edit.
    Edit(Arc<Op>),
}

/// The content of a submission or an entry: a create, a delete or an edit. It is immutable, and a
/// clone is a pointer.
///
/// ```
/// let create = Content::create(alloc, Json::Bool(true))?;
/// assert!(rt; matches!(create.kind(), Kind::Create(_)));
/// ```
#[derive(Drop)]
pub struct Content {
    kind: Kind,
}

impl Model for Content {
    ghost use Rattle.sdb_oplog.specs.Plain.{PlainContent};
    ghost use Rattle.sdb_oplog.specs.Coding.{content_code};

    ghost Value = { PlainContent };

    ghost coded = { content_code };

    ghost use Rattle.sdb_oplog.specs.View.{plain_kind};

    ghost view = { λ c. plain_kind c.kind };
}

impl Content {
    /// Creates the content of a create. All documents made of it share its data.
    ///
    /// # Errors
    ///
    /// [`AllocError`] if an allocation fails.
    pub fn create(alloc: Global, value: Json) -> Result<Content, AllocError>
        ensures { IfOk result (λ c. c ≡ create (value_of value)) }
    {
        Ok(Content {
            kind: Kind::Create(Arc::new(alloc, value.frozen_clone(alloc)?)?),
        })
    }

    /// Creates the content of a delete.
    pub fn delete() -> Content
        ensures { result ≡ delete }
    {
        Content { kind: Kind::Delete }
    }

    /// Creates the content of an edit.
    ///
    /// # Errors
    ///
    /// [`AllocError`] if an allocation fails.
    pub fn edit(alloc: Global, op: Op) -> Result<Content, AllocError>
        ensures { IfOk result (λ c. c ≡ edit op) }
    {
        Ok(Content {
            kind: Kind::Edit(Arc::new(alloc, op)?),
        })
    }

    /// Returns the kind.
    pub fn kind(&self) -> &Kind
        ensures { plain_kind result.now ≡ self.now }
    {
        &self.kind
    }

    /// Clones the content, sharing its data or its operation. It doesn't allocate.
    ///
    /// # Errors
    ///
    /// [`AllocError`] if there are 2^63 clones already.
    pub fn try_clone(&self) -> Result<Content, AllocError>
        ensures { IfOk result (λ c. c ≡ self.now) }
    {
        let kind = match &self.kind {
            Kind::Create(value) => Kind::Create(Arc::try_clone(value)?),
            Kind::Delete => Kind::Delete,
            Kind::Edit(op) => Kind::Edit(Arc::try_clone(op)?),
        };
        Ok(Content { kind })
    }

    // Returns the content with this path shared, if it is an edit by one component with an equal
    // path.
    pub(crate) fn with_interned_path(
        self,
        alloc: Global,
        path: &Path,
    ) -> Result<Content, AllocError>
        ensures { IfOk result (λ c. c ≡ self) }
    {
        match self.kind {
            Kind::Edit(op) => match Arc::try_unwrap(op) {
                Ok(op) => Content::edit(alloc, op.with_interned_path(path)?),
                Err(op) => Ok(Content {
                    kind: Kind::Edit(op),
                }),
            },
            kind => Ok(Content { kind }),
        }
    }

    // Returns a shared clone of the path of an edit by one component.
    pub(crate) fn path(&self) -> Result<Option<Path>, AllocError> {
        let Kind::Edit(op) = &self.kind else {
            return Ok(None);
        };
        match op.components() {
            [component] => Ok(Some(component.try_clone_path()?)),
            _ => Ok(None),
        }
    }

    /// Applies the content to a document in place; the document may be absent.
    ///
    /// An edit of one component copies only shared parts on its path. An edit of several also
    /// freezes the value at their common path, and copies parts on their paths.
    ///
    /// # Errors
    ///
    /// [`Code::E6`] for a create on a present document, [`Code::E7`] for an edit of an absent one,
    /// [`Code::E8`] if a component doesn't apply, [`Code::E10`] if an allocation fails. The
    /// document is then unchanged.
    pub fn apply_to(&self, alloc: Global, document: &mut Option<Json>) -> Result<(), Code>
        ensures ok { OnOk result (apply_content self.now (option_map value_of document.old)
            ≡ Ok (option_map value_of document.new)) }
        ensures err { IfErr result (λ code. IsRefusalOrOutOfMemory (apply_content self.now
            (option_map value_of document.old)) code) }
        ensures memory { IsErrOf result E10 →
            apply_in_place_allocates self.now (option_map value_of document.old) (is_unique_document document.old)
            ≡ true }
        ensures unchanged_on_err { OnErr result (option_map value_of document.new ≡ option_map value_of document.old) }
    {
        match &self.kind {
            Kind::Create(value) => apply_create(alloc, value, document),
            Kind::Delete => {
                *document = None;
                Ok(())
            }
            Kind::Edit(op) => apply_edit(alloc, op, document),
        }
    }
}

fn apply_create(alloc: Global, value: &Json, document: &mut Option<Json>) -> Result<(), Code>
    ensures ok { OnOk result
        (apply_content (create (value_of value.now)) (option_map value_of document.old)
        ≡ Ok (option_map value_of document.new)) }
    ensures err { IfErr result
        (λ code. IsRefusalOrOutOfMemory (apply_content (create (value_of value.now))
        (option_map value_of document.old)) code) }
    ensures memory { IsErrOf result E10 → apply_in_place_allocates (create (value_of value.now))
        (option_map value_of document.old) (is_unique_document document.old) ≡ true }
    ensures unchanged_on_err { OnErr result (option_map value_of document.new ≡ option_map value_of document.old) }
{
    if document.is_some() {
        return Err(Code::E6);
    }
    *document = Some(value.try_clone(alloc)?);
    Ok(())
}

fn apply_edit(alloc: Global, op: &Op, document: &mut Option<Json>) -> Result<(), Code>
    ensures ok { OnOk result
        (apply_content (edit op.now) (option_map value_of document.old) ≡ Ok (option_map value_of document.new)) }
    ensures err { IfErr result (λ code. IsRefusalOrOutOfMemory (apply_content (edit op.now)
        (option_map value_of document.old)) code) }
    ensures memory { IsErrOf result E10 →
        apply_in_place_allocates (edit op.now) (option_map value_of document.old) (is_unique_document document.old)
        ≡ true }
    ensures unchanged_on_err { OnErr result (option_map value_of document.new ≡ option_map value_of document.old) }
{
    match document {
        None => Err(Code::E7),
        Some(value) => edit_value(alloc, op, value),
    }
}

fn edit_value(alloc: Global, op: &Op, value: &mut Json) -> Result<(), Code>
    ensures ok { OnOk result (apply_op op.now (value_of value.old) ≡ Ok (value_of value.new)) }
    ensures err { IfErr result (λ code. IsRefusalOrOutOfMemory (apply_op op.now (value_of value.old)) code) }
    ensures memory { IsErrOf result E10 → may_allocate (atomic_apply_allocates op.now) (is_unique value.old) ≡ true }
    ensures unchanged_on_err { OnErr result (value_of value.new ≡ value_of value.old) }
{
    apply_atomic(alloc, value, op)?;
    Ok(())
}

/// Transforms a content against a concurrent stored content. An edit against an edit is transformed
/// as the left one.
///
/// # Errors
///
/// - [`Code::E6`] for any content against a create, and for a create against an edit.
/// - [`Code::E5`] for a create or an edit against a delete.
/// - [`Code::E8`] if an edit can't be transformed against an edit.
/// - [`Code::E10`] if an allocation fails.
pub fn over(alloc: Global, content: &Content, stored: &Content) -> Result<Content, Code>
    ensures ok { IfOk result (λ c. over content.now stored.now ≡ Ok c) }
    ensures err { IfErr result (λ code. IsRefusalOrOutOfMemory (over content.now stored.now) code) }
    ensures memory { IsErrOf result E10 → over_allocates content.now stored.now ≡ true }
{
    match stored.kind() {
        Kind::Create(_) => Err(Code::E6),
        Kind::Delete => match content.kind() {
            Kind::Create(_) => Err(Code::E5),
            Kind::Delete => Ok(Content::delete()),
            Kind::Edit(_) => Err(Code::E5),
        },
        Kind::Edit(other) => match content.kind() {
            Kind::Create(_) => Err(Code::E6),
            Kind::Delete => Ok(Content::delete()),
            Kind::Edit(op) => edit_over(alloc, Arc::try_clone(op)?, other),
        },
    }
}

fn edit_over(alloc: Global, op: Arc<Op>, other: &Op) -> Result<Content, Code>
    ensures ok { IfOk result (λ c. edit_over (arc_value op) other.now ≡ Ok c) }
    ensures err { IfErr result (λ code. IsRefusalOrOutOfMemory (edit_over (arc_value op) other.now) code) }
{
    match transform(alloc, op, other, Side::Left)? {
        TransformedOp::Unchanged(op) => Ok(Content {
            kind: Kind::Edit(op),
        }),
        TransformedOp::New(op) => Ok(Content::edit(alloc, op)?),
    }
}

/// Transforms a content against each entry in order, up to the first refusal. Returns `None` if the
/// content is known to be unchanged, as for no entries.
///
/// # Errors
///
/// The code of the first refusal, as of [`over`], or [`Code::E10`] if an allocation fails.
pub fn rebase(alloc: Global, content: &Content, entries: &[Entry]) -> Result<Option<Content>, Code>
    ensures ok { IfOk result (λ m. rebase content.now entries.now ≡ Ok (unwrap_or m content.now)) }
    ensures err { IfErr result (λ code. IsRefusalOrOutOfMemory (rebase content.now entries.now) code) }
    ensures memory { IsErrOf result E10 → rebase_allocates content.now entries.now ≡ true }
{
    let mut rebased = None;
    for entry in entries {
        rebased = rebase_step(alloc, rebased, content, entry.content())?;
    }
    Ok(rebased)
}

// Transforms against one more stored content and drops the earlier result. Returns `None` if the
// content is known to be unchanged.
fn rebase_step(
    alloc: Global,
    rebased: Option<Content>,
    content: &Content,
    stored: &Content,
) -> Result<Option<Content>, Code>
    ensures ok { IfOk result (λ m. over (unwrap_or rebased content.now) stored.now ≡ Ok (unwrap_or m content.now)) }
    ensures err { IfErr result (λ code. IsRefusalOrOutOfMemory (over (unwrap_or rebased content.now) stored.now) code) }
    ensures memory { IsErrOf result E10 → over_allocates (unwrap_or rebased content.now) stored.now ≡ true }
{
    match rebased {
        None => rebase_first(alloc, content, stored),
        Some(rebased) => Ok(Some(rebase_next(alloc, rebased, stored)?)),
    }
}

// Transforms a content that is unchanged so far.
fn rebase_first(alloc: Global, content: &Content, stored: &Content) -> Result<Option<Content>, Code>
    ensures ok { IfOk result (λ m. over content.now stored.now ≡ Ok (unwrap_or m content.now)) }
    ensures err { IfErr result (λ code. IsRefusalOrOutOfMemory (over content.now stored.now) code) }
    ensures memory { IsErrOf result E10 → over_allocates content.now stored.now ≡ true }
{
    match (content.kind(), stored.kind()) {
        (Kind::Edit(op), Kind::Edit(other)) => rebase_edit(alloc, op, other),
        _ => Ok(Some(over(alloc, content, stored)?)),
    }
}

// Transforms an owned content.
fn rebase_next(alloc: Global, rebased: Content, stored: &Content) -> Result<Content, Code>
    ensures ok { IfOk result (λ c. over rebased stored.now ≡ Ok c) }
    ensures err { IfErr result (λ code. IsRefusalOrOutOfMemory (over rebased stored.now) code) }
    ensures memory { IsErrOf result E10 → over_allocates rebased stored.now ≡ true }
{
    match (rebased.kind, stored.kind()) {
        (Kind::Edit(op), Kind::Edit(other)) => edit_over(alloc, op, other),
        (kind, _) => over(alloc, &Content { kind }, stored),
    }
}

// As `edit_over`, but returns `None` if the edit is known to be unchanged.
fn rebase_edit(alloc: Global, op: &Arc<Op>, other: &Op) -> Result<Option<Content>, Code>
    ensures ok { IfOk result (λ m. edit_over (arc_value op.now) other.now
        ≡ Ok (unwrap_or m (edit (arc_value op.now)))) }
    ensures err { IfErr result (λ code. IsRefusalOrOutOfMemory (edit_over (arc_value op.now) other.now) code) }
{
    match transform(alloc, Arc::try_clone(op)?, other, Side::Left)? {
        TransformedOp::Unchanged(_) => Ok(None),
        TransformedOp::New(op) => Ok(Some(Content::edit(alloc, op)?)),
    }
}
