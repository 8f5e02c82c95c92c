//! Answers with a document as texts in parts.
ghost use Rattle.std.specs.Prelude.{◌≡◌, ◌∷◌, [], Some, IfOk, IfSome};
ghost use Rattle.json.specs.Print.{print};
ghost use Rattle.serde_json.specs.Written.{compact_text};
ghost use Rattle.sdb_value.specs.View.{value_of};
ghost use Rattle.sdb_oplog.specs.Keys.{plain_key};
ghost use Rattle.sdb_wire.specs.Answers.{answer_text, document_data, version_data};
ghost use Rattle.sdb_wire.specs.DocumentParts.{parts_text, current_prefix, current_suffix, version_prefix, version_suffix};
ghost use Rattle.sdb_wire.specs.View.{document_answer, plain_answer};

use crate::members::{write_count, write_text};
use crate::message::{Answer, DocumentRequest, TYPE};
use crate::write::{bytes_of, write_head};
use json::Writer;
use sdb_oplog::Key;
use sdb_value::Json;
use sdb_value_text::ValueText;
use std::alloc::{AllocError, Global};

// Initial capacity in bytes of a prefix or suffix.
const PART_LEN: usize = 128;

/// The text of an answer with a document, in three parts.
#[derive(Drop)]
pub struct DocumentParts {
    /// The text before the document's.
    pub prefix: Vec<u8>,
    /// The text of the document.
    pub document: ValueText,
    /// The text after the document's.
    pub suffix: Vec<u8>,
}

/// Returns the text of an answer in parts, or `None` if it has no document.
///
/// # Errors
///
/// [`AllocError`] if an allocation fails.
pub fn document_parts(
    alloc: Global,
    answer: &Answer<'_>,
) -> Result<Option<DocumentParts>, AllocError>
    ensures { IfOk result (λ o. IfSome o (λ p. parts_text p ≡ answer_text (plain_answer answer.now))) }
{
    match answer {
        Answer::Document {
            request,
            version,
            document,
        } => match *document {
            Some(document) => {
                let parts = requested_parts(alloc, request, *version, document)?;
                Ok(Some(parts))
            }
            None => Ok(None),
        },
        Answer::Subscribed {
            key,
            version,
            document,
        } => match *document {
            Some(document) => {
                let parts = current_parts(alloc, "s", key, *version, document)?;
                Ok(Some(parts))
            }
            None => Ok(None),
        },
        _ => Ok(None),
    }
}

fn requested_parts(
    alloc: Global,
    request: &DocumentRequest<'_>,
    version: u64,
    document: &Json,
) -> Result<DocumentParts, AllocError>
    ensures { IfOk result (λ p. parts_text p
        ≡ answer_text (document_answer request.now version (Some (value_of document.now)))) }
{
    match request {
        DocumentRequest::Fetch { key } => current_parts(alloc, "f", key, version, document),
        DocumentRequest::Snapshot { id } => parts_at(alloc, "nf", *id, version, document),
        DocumentRequest::SnapshotAtTime { id } => parts_at(alloc, "nt", *id, version, document),
    }
}

// Returns the current version and document.
fn current_parts(
    alloc: Global,
    kind: &str,
    key: &Key,
    version: u64,
    document: &Json,
) -> Result<DocumentParts, AllocError>
    ensures { IfOk result (λ p. parts_text p ≡ compact_text
        (document_data kind.now (plain_key key.now) version (Some (value_of document.now)))) }
{
    let prefix = write_prefix(alloc, kind, key)?;
    let document = ValueText::new(alloc, document)?;
    let suffix = write_suffix(alloc, version)?;
    Ok(DocumentParts {
        prefix,
        document,
        suffix,
    })
}

fn write_prefix(alloc: Global, kind: &str, key: &Key) -> Result<Vec<u8>, AllocError>
    ensures { IfOk result (λ v. v.items ≡ print (current_prefix kind.now (plain_key key.now))) }
{
    let mut out = Writer::new(Vec::with_capacity(alloc, PART_LEN)?);
    write_head(kind, key, &mut out)?;
    out.key("data")?;
    out.begin_object()?;
    out.key("data")?;
    Ok(bytes_of(out))
}

fn write_suffix(alloc: Global, version: u64) -> Result<Vec<u8>, AllocError>
    ensures { IfOk result (λ v. v.items ≡ 44 ∷ print (current_suffix version)) }
{
    let mut out = writer_after_value(alloc)?;
    write_count("v", version, &mut out)?;
    out.end_object()?;
    out.end_object()?;
    Ok(out.into_inner())
}

// Returns the document at a version.
fn parts_at(
    alloc: Global,
    word: &str,
    id: u64,
    version: u64,
    document: &Json,
) -> Result<DocumentParts, AllocError>
    ensures { IfOk result (λ p. parts_text p ≡ compact_text
        (version_data word.now id version (Some (value_of document.now)))) }
{
    let prefix = write_prefix_at(alloc, word)?;
    let document = ValueText::new(alloc, document)?;
    let suffix = write_suffix_at(alloc, id, version)?;
    Ok(DocumentParts {
        prefix,
        document,
        suffix,
    })
}

fn write_prefix_at(alloc: Global, word: &str) -> Result<Vec<u8>, AllocError>
    ensures { IfOk result (λ v. v.items ≡ print (version_prefix word.now)) }
{
    let mut out = Writer::new(Vec::with_capacity(alloc, PART_LEN)?);
    out.begin_object()?;
    write_text("a", word, &mut out)?;
    out.key("data")?;
    Ok(bytes_of(out))
}

fn write_suffix_at(alloc: Global, id: u64, version: u64) -> Result<Vec<u8>, AllocError>
    ensures { IfOk result (λ v. v.items ≡ 44 ∷ print (version_suffix id version)) }
{
    let mut out = writer_after_value(alloc)?;
    write_count("id", id, &mut out)?;
    write_text("type", TYPE, &mut out)?;
    write_count("v", version, &mut out)?;
    out.end_object()?;
    Ok(out.into_inner())
}

// Returns a writer that has written the comma after a member.
fn writer_after_value(alloc: Global) -> Result<Writer, AllocError>
    ensures before { IfOk result (λ w. w.before ≡ 44 ∷ []) }
    ensures tokens { IfOk result (λ w. w.tokens ≡ []) }
{
    let mut start = Vec::with_capacity(alloc, PART_LEN)?;
    start.push(b',')?;
    Ok(Writer::new(start))
}
