//! The writer of answers.
ghost use Rattle.std.specs.Prelude.{◌≡◌, ◌∷◌, [], ◌++◌, Some, None, IfOk, OnOk, OnErr, string_bytes, option_map, codes};
ghost use Rattle.json.specs.Print.{print};
ghost use Rattle.json.specs.Token.{begin_object, key as key_token, string};
ghost use Rattle.serde_json.specs.Data.{Members};
ghost use Rattle.sdb_value.specs.ToJson.{data_tokens, object_tail_tokens};
ghost use Rattle.sdb_value.specs.View.{value_of};
ghost use Rattle.sdb_oplog.specs.Keys.{plain_key};
ghost use Rattle.sdb_wire.specs.Answers.{answer_text, answer_tokens, hello_data, document_data, version_data, key_data, acknowledged, failed, snapshot_data, error_data, push_member};
ghost use Rattle.sdb_wire.specs.View.{plain_answer, document_answer, plain_echo, plain_echo_value};

use crate::codes::{code_name, code_text};
use crate::members::{write_count, write_text};
use crate::message::{Answer, DocumentRequest, Echo, EchoValue, TYPE};
use crate::operations::write_op_message;
use json::Writer;
use sdb_oplog::{Code, Key};
use sdb_value::{Json, write_value};
use std::alloc::{AllocError, Global};

// Initial capacity in bytes of an answer.
const TEXT_LEN: usize = 256;

/// Returns the text of an answer: compact JSON with members in byte order.
///
/// # Errors
///
/// [`AllocError`] if an allocation fails.
///
/// ```
/// let text = reply_text(alloc, &Answer::Init { src: "s1" })?;
/// assert!(rt; text.as_str().starts_with(r#"{"a":"init","id":"s1""#));
/// ```
pub fn reply_text(alloc: Global, answer: &Answer<'_>) -> Result<String, AllocError>
    ensures { IfOk result (λ s. string_bytes s ≡ answer_text (plain_answer answer.now)) }
{
    let mut out = Writer::new(Vec::with_capacity(alloc, TEXT_LEN)?);
    write_answer(answer, &mut out)?;
    Ok(text_of(out))
}

/// Appends the text of an answer, as [`reply_text`] returns it, to `out`.
///
/// # Errors
///
/// [`AllocError`] if an allocation fails. `out` is then unchanged.
pub fn append_answer_text(
    alloc: Global,
    answer: &Answer<'_>,
    out: &mut Vec<u8>,
) -> Result<(), AllocError>
    ensures ok { OnOk result (out.new.items ≡ out.old.items ++ answer_text (plain_answer answer.now)) }
    ensures err { OnErr result (out.new.items ≡ out.old.items) }
{
    let text = answer_bytes(alloc, answer)?;
    out.extend_from_slice(text.as_slice())
}

// Returns the bytes of an answer. A new vector avoids that the writer first fills the spare
// capacity of `out`.
fn answer_bytes(alloc: Global, answer: &Answer<'_>) -> Result<Vec<u8>, AllocError>
    ensures { IfOk result (λ v. v.items ≡ answer_text (plain_answer answer.now)) }
{
    let mut writer = Writer::new(Vec::with_capacity(alloc, TEXT_LEN)?);
    write_answer(answer, &mut writer)?;
    Ok(bytes_of(writer))
}

// Returns the bytes written.
pub(crate) fn bytes_of(out: Writer) -> Vec<u8>
    requires { out.before ≡ [] }
    ensures { result.items ≡ print out.tokens }
{
    out.into_inner()
}

// Returns the text written, which is UTF-8.
fn text_of(out: Writer) -> String
    requires { out.before ≡ [] }
    ensures { string_bytes result ≡ print out.tokens }
{
    match String::from_utf8(out.into_inner()) {
        Ok(text) => text,
        Err(_) => unreachable!(),
    }
}

fn write_answer(answer: &Answer<'_>, out: &mut Writer) -> Result<(), AllocError>
    ensures tokens { OnOk result (out.new.tokens ≡ out.old.tokens ++ answer_tokens (plain_answer answer.now)) }
    ensures before_unchanged { out.new.before ≡ out.old.before }
{
    match answer {
        Answer::Init { src } => write_hello_answer("init", src, out),
        Answer::HelloAck { src } => write_hello_answer("hs", src, out),
        Answer::Document {
            request,
            version,
            document,
        } => write_requested_document(request, *version, *document, out),
        Answer::ListEnd { key } => write_key("f", key, out),
        Answer::Subscribed {
            key,
            version,
            document,
        } => write_document("s", key, *version, *document, out),
        Answer::CaughtUp { key } => write_key("s", key, out),
        Answer::Unsubscribed { key } => write_key("u", key, out),
        Answer::OpMessage {
            key,
            entry,
            content,
        } => write_op_message(key, entry, content, out),
        Answer::Acknowledged {
            key,
            src,
            seq,
            version,
        } => write_ack(key, src, *seq, *version, out),
        Answer::Failed { echo, code } => write_error_answer(echo, *code, out),
    }
}

// Writes the first members of an answer about a document.
pub(crate) fn write_head(kind: &str, key: &Key, out: &mut Writer) -> Result<(), AllocError>
    ensures tokens { OnOk result (out.new.tokens
        ≡ out.old.tokens ++ begin_object ∷ key_token (codes "a") ∷ string kind.now
        ∷ key_token (codes "c") ∷ string (plain_key key.now).collection
        ∷ key_token (codes "d") ∷ string (plain_key key.now).id ∷ []) }
    ensures before_unchanged { out.new.before ≡ out.old.before }
{
    out.begin_object()?;
    write_text("a", kind, out)?;
    write_text("c", key.collection.as_str(), out)?;
    write_text("d", key.id.as_str(), out)
}

// Writes the session's source.
fn write_hello_answer(kind: &str, src: &str, out: &mut Writer) -> Result<(), AllocError>
    ensures tokens { OnOk result (out.new.tokens ≡ out.old.tokens ++ data_tokens (hello_data kind.now src.now)) }
    ensures before_unchanged { out.new.before ≡ out.old.before }
{
    out.begin_object()?;
    write_text("a", kind, out)?;
    write_text("id", src, out)?;
    write_count("protocol", 1, out)?;
    write_count("protocolMinor", 1, out)?;
    write_text("type", TYPE, out)?;
    out.end_object()
}

fn write_snapshot(version: u64, document: Option<&Json>, out: &mut Writer) -> Result<(), AllocError>
    ensures tokens { OnOk result (out.new.tokens
        ≡ out.old.tokens ++ data_tokens
        (snapshot_data version (option_map (λ d. value_of d.now) document.entry))) }
    ensures before_unchanged { out.new.before ≡ out.old.before }
{
    out.begin_object()?;
    match document {
        Some(json) => {
            out.key("data")?;
            write_value(json, out)?;
        }
        None => {
            out.key("type")?;
            out.null()?;
        }
    }
    write_count("v", version, out)?;
    out.end_object()
}

// Writes the document that answers a request.
fn write_requested_document(
    request: &DocumentRequest<'_>,
    version: u64,
    document: Option<&Json>,
    out: &mut Writer,
) -> Result<(), AllocError>
    ensures tokens { OnOk result (out.new.tokens
        ≡ out.old.tokens ++ answer_tokens
        (document_answer request.now version (option_map (λ d. value_of d.now) document.entry))) }
    ensures before_unchanged { out.new.before ≡ out.old.before }
{
    match request {
        DocumentRequest::Fetch { key } => write_document("f", key, version, document, out),
        DocumentRequest::Snapshot { id } => write_snapshot_at("nf", *id, version, document, out),
        DocumentRequest::SnapshotAtTime { id } => {
            write_snapshot_at("nt", *id, version, document, out)
        }
    }
}

// Writes the current version and document.
fn write_document(
    kind: &str,
    key: &Key,
    version: u64,
    document: Option<&Json>,
    out: &mut Writer,
) -> Result<(), AllocError>
    ensures tokens { OnOk result (out.new.tokens
        ≡ out.old.tokens ++ data_tokens
        (document_data kind.now (plain_key key.now) version (option_map (λ d. value_of d.now) document.entry))) }
    ensures before_unchanged { out.new.before ≡ out.old.before }
{
    write_head(kind, key, out)?;
    out.key("data")?;
    write_snapshot(version, document, out)?;
    out.end_object()
}

// Writes an answer that names only its document.
fn write_key(kind: &str, key: &Key, out: &mut Writer) -> Result<(), AllocError>
    ensures tokens { OnOk result (out.new.tokens
        ≡ out.old.tokens ++ data_tokens (key_data kind.now (plain_key key.now))) }
    ensures before_unchanged { out.new.before ≡ out.old.before }
{
    write_head(kind, key, out)?;
    out.end_object()
}

// Writes the document at a version, or that it is absent.
fn write_snapshot_at(
    word: &str,
    id: u64,
    version: u64,
    document: Option<&Json>,
    out: &mut Writer,
) -> Result<(), AllocError>
    ensures tokens { OnOk result (out.new.tokens
        ≡ out.old.tokens ++ data_tokens
        (version_data word.now id version (option_map (λ d. value_of d.now) document.entry))) }
    ensures before_unchanged { out.new.before ≡ out.old.before }
{
    match document {
        Some(json) => write_document_at(word, id, version, json, out),
        None => write_absent_at(word, id, version, out),
    }
}

fn write_document_at(
    word: &str,
    id: u64,
    version: u64,
    document: &Json,
    out: &mut Writer,
) -> Result<(), AllocError>
    ensures tokens { OnOk result (out.new.tokens
        ≡ out.old.tokens ++ data_tokens (version_data word.now id version (Some (value_of document.now)))) }
    ensures before_unchanged { out.new.before ≡ out.old.before }
{
    out.begin_object()?;
    write_text("a", word, out)?;
    out.key("data")?;
    write_value(document, out)?;
    write_count("id", id, out)?;
    write_text("type", TYPE, out)?;
    write_count("v", version, out)?;
    out.end_object()
}

fn write_absent_at(word: &str, id: u64, version: u64, out: &mut Writer) -> Result<(), AllocError>
    ensures tokens { OnOk result (out.new.tokens ≡
        out.old.tokens ++ data_tokens (version_data word.now id version None)) }
    ensures before_unchanged { out.new.before ≡ out.old.before }
{
    out.begin_object()?;
    write_text("a", word, out)?;
    write_count("id", id, out)?;
    out.key("type")?;
    out.null()?;
    write_count("v", version, out)?;
    out.end_object()
}

fn write_ack(
    key: &Key,
    src: &str,
    seq: u64,
    version: u64,
    out: &mut Writer,
) -> Result<(), AllocError>
    ensures tokens { OnOk result (out.new.tokens
        ≡ out.old.tokens ++ answer_tokens (acknowledged (plain_key key.now) src.now seq version)) }
    ensures before_unchanged { out.new.before ≡ out.old.before }
{
    write_head("op", key, out)?;
    write_count("seq", seq, out)?;
    write_text("src", src, out)?;
    write_count("v", version, out)?;
    out.end_object()
}

fn write_error_answer(echo: &Echo, code: Code, out: &mut Writer) -> Result<(), AllocError>
    ensures tokens { OnOk result (out.new.tokens
        ≡ out.old.tokens ++ answer_tokens (failed (plain_echo echo.now) code)) }
    ensures before_unchanged { out.new.before ≡ out.old.before }
{
    out.begin_object()?;
    write_echo_value("a", &echo.a, out)?;
    write_echo_value("c", &echo.c, out)?;
    write_echo_value("d", &echo.d, out)?;
    out.key("error")?;
    write_error(code, out)?;
    write_echo_value("id", &echo.id, out)?;
    write_echo_value("seq", &echo.seq, out)?;
    write_echo_value("src", &echo.src, out)?;
    out.end_object()
}

// Writes a member if it is present.
fn write_echo_value(
    name: &str,
    word: &Option<EchoValue>,
    out: &mut Writer,
) -> Result<(), AllocError>
    ensures tokens { OnOk result ((rest : Members) → out.new.tokens ++ object_tail_tokens rest
        ≡ out.old.tokens ++ object_tail_tokens (push_member name.now (option_map plain_echo_value word.now) rest)) }
    ensures before_unchanged { out.new.before ≡ out.old.before }
{
    match word {
        None => Ok(()),
        Some(EchoValue::Text { text }) => write_text(name, text.as_str(), out),
        Some(EchoValue::Count { count }) => write_count(name, *count, out),
    }
}

fn write_error(code: Code, out: &mut Writer) -> Result<(), AllocError>
    ensures tokens { OnOk result (out.new.tokens ≡ out.old.tokens ++ data_tokens (error_data code)) }
    ensures before_unchanged { out.new.before ≡ out.old.before }
{
    out.begin_object()?;
    write_text("code", code_name(code), out)?;
    write_text("message", code_text(code), out)?;
    out.end_object()
}
