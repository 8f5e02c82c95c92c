//! Documents, which may be absent.
ghost use Rattle.std.specs.Prelude.{◌≡◌, true, is_some, IfOk, IfErr, IfSome, IsErrOf, OnOk, OnErr, Ok, Err, option_map};
ghost use Rattle.sdb_value.specs.Uniqueness.{is_frozen};
ghost use Rattle.sdb_value.specs.View.{value_of};
ghost use Rattle.sdb_oplog.specs.Decide.{apply_to_copy_allocates};
ghost use Rattle.sdb_oplog.specs.Refusal.{IsRefusalOrOutOfMemory};
ghost use Rattle.sdb_oplog.specs.Snap.{apply_content};
ghost use Rattle.sdb_oplog.specs.declared.codes.Code.TheVariants.{E10};

use crate::codes::Code;
use crate::content::{Content, Kind};
use sdb_value::Json;
use std::alloc::{AllocError, Global};

/// Clones a document. The clone is frozen.
///
/// # Errors
///
/// [`AllocError`] if an allocation fails. An absent document doesn't allocate.
pub fn clone_document(alloc: Global, document: Option<&Json>) -> Result<Option<Json>, AllocError>
    ensures copy { IfOk result (λ d. option_map value_of d ≡ option_map (λ v. value_of v.now) document.entry) }
    ensures frozen { IfOk result (λ d. IfSome d (λ v. is_frozen v ≡ true)) }
    ensures memory { OnErr result (is_some document.entry ≡ true) }
{
    match document {
        Some(value) => Ok(Some(value.frozen_clone(alloc)?)),
        None => Ok(None),
    }
}

/// Freezes a document and clones it. Only the parts that weren't frozen before cost more than a
/// pointer.
///
/// # Errors
///
/// [`AllocError`] if an allocation fails. An absent document doesn't allocate.
pub(crate) fn freeze_document(
    alloc: Global,
    document: &mut Option<Json>,
) -> Result<Option<Json>, AllocError>
    ensures copy { IfOk result (λ d. option_map value_of d ≡ option_map value_of document.old) }
    ensures frozen { IfOk result (λ d. IfSome d (λ v. is_frozen v ≡ true)) }
    ensures unchanged { option_map value_of document.new ≡ option_map value_of document.old }
    ensures memory { OnErr result (is_some document.old ≡ true) }
{
    match document {
        Some(value) => Ok(Some(freeze_value(alloc, value)?)),
        None => Ok(None),
    }
}

fn freeze_value(alloc: Global, value: &mut Json) -> Result<Json, AllocError>
    ensures copy { IfOk result (λ v. value_of v ≡ value_of value.old) }
    ensures frozen { IfOk result (λ v. is_frozen v ≡ true) }
    ensures unchanged { value_of value.new ≡ value_of value.old }
{
    value.freeze(alloc)?;
    value.frozen_clone(alloc)
}

// Freezes a document.
fn freeze_all(alloc: Global, document: &mut Option<Json>) -> Result<(), AllocError>
    ensures { option_map value_of document.new ≡ option_map value_of document.old }
{
    match document {
        Some(value) => value.freeze(alloc),
        None => Ok(()),
    }
}

impl Content {
    /// Applies the content to a clone of a document, and freezes the result.
    ///
    /// # Errors
    ///
    /// As of [`Content::apply_to`]. A delete doesn't allocate, nor does a create on a present
    /// document or an edit of an absent one.
    pub fn apply_to_copy(
        &self,
        alloc: Global,
        document: Option<&Json>,
    ) -> Result<Option<Json>, Code>
        ensures ok { IfOk result (λ d. apply_content self.now (option_map (λ v. value_of v.now) document.entry) ≡
            Ok (option_map value_of d)) }
        ensures err { IfErr result
            (λ code. IsRefusalOrOutOfMemory (apply_content self.now (option_map
            (λ v. value_of v.now) document.entry)) code) }
        ensures memory { IsErrOf result E10 →
            apply_to_copy_allocates self.now (option_map (λ v. value_of v.now) document.entry) ≡ true }
    {
        self.check_presence(document)?;
        if matches!(self.kind(), Kind::Delete) {
            return Ok(None);
        }
        let mut next_document = clone_document(alloc, document)?;
        self.apply_to(alloc, &mut next_document)?;
        freeze_all(alloc, &mut next_document)?;
        Ok(next_document)
    }

    // Refuses a create on a present document and an edit of an absent one.
    fn check_presence(&self, document: Option<&Json>) -> Result<(), Code>
        ensures ok { OnOk result
            (apply_to_copy_allocates self.now (option_map (λ v. value_of v.now) document.entry) ≡ true) }
        ensures err { IfErr result
            (λ code. apply_content self.now (option_map (λ v. value_of v.now) document.entry) ≡ Err code) }
    {
        match self.kind() {
            Kind::Create(_) => match document {
                Some(_) => Err(Code::E6),
                None => Ok(()),
            },
            Kind::Delete => Ok(()),
            Kind::Edit(_) => match document {
                Some(_) => Ok(()),
                None => Err(Code::E7),
            },
        }
    }
}
