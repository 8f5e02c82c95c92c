//! The line of an entry, written and parsed. Lines are without their line feed.
ghost use Rattle.std.specs.Prelude.{◌≡◌, ◌++◌, [], IfOk, IfSome, OnOk, option_map, codes};
ghost use Rattle.json.specs.Print.{print};
ghost use Rattle.serde_json.specs.Data.{Data, Members, member, no_members};
ghost use Rattle.sdb_value.specs.ToJson.{data_tokens, object_tail_tokens};
ghost use Rattle.sdb_oplog.specs.Keys.{plain_key};
ghost use Rattle.sdb_wire.specs.Wire.{count_member};
ghost use Rattle.sdb_dump.specs.DumpLine.{arrived_members, arrived_data, content_members_with_moment, line_tail, line_data, arrived_of_data, sent_of_data, submission_of_data, line_of_data, read_line};
ghost use Rattle.sdb_dump.specs.DumpText.{PlainLine, entry_line};
ghost use Rattle.sdb_dump.specs.EntryLimits.{KeyInLimits, SubmissionInLimits};
ghost use Rattle.sdb_dump.specs.View.{plain_line_content, IsNoneIfRefused};

use crate::utf8_facts::{key_texts, submission_texts};
use json::Writer;
use sdb_component::laws::read_keeps_limits;
use sdb_component::write_op;
use sdb_json::{JsonData, Scratch, parse_json};
use sdb_oplog::{Code, Content, Entry, Key, Kind, Moment, Submission};
use sdb_wire::{
    count_field, moment_of, optional_count, read_content, read_key, refusal_code, required_name,
    write_count, write_create, write_text,
};
use std::alloc::{AllocError, Global};
use std::mem;

// Initial capacity in bytes of a line.
const LINE_LEN: usize = 256;

/// The content of a line: a submission of a document and the moment at which it was stored.
#[derive(Drop)]
pub struct LineContent {
    pub key: Key,
    pub submission: Submission,
    pub moment: Moment,
}

/// Returns the line of an entry of the document, without a line feed.
///
/// # Errors
///
/// [`AllocError`] if an allocation fails.
pub fn entry_line(alloc: Global, key: &Key, entry: &Entry) -> Result<Vec<u8>, AllocError>
    ensures { IfOk result (λ line. line.items ≡
        entry_line (record { key = plain_key key.now; entry = entry.now })) }
{
    let mut line = Vec::with_capacity(alloc, LINE_LEN)?;
    append_line(alloc, key, entry, &mut line)?;
    Ok(line)
}

/// Appends the line of an entry of the document. After an error `out` is unspecified.
pub(crate) fn append_line(
    alloc: Global,
    key: &Key,
    entry: &Entry,
    out: &mut Vec<u8>,
) -> Result<(), AllocError>
    ensures { OnOk result (out.new.items ≡ out.old.items ++
        entry_line (record { key = plain_key key.now; entry = entry.now })) }
{
    let mut writer = Writer::new(mem::replace(out, Vec::new(alloc)));
    write_line(key, entry, &mut writer)?;
    *out = writer.into_inner();
    Ok(())
}

fn write_line(key: &Key, entry: &Entry, out: &mut Writer) -> Result<(), AllocError>
    ensures tokens { OnOk result (out.new.tokens ≡ out.old.tokens ++ data_tokens
        (line_data (plain_key key.now) entry.now)) }
    ensures before_unchanged { out.new.before ≡ out.old.before }
{
    out.begin_object()?;
    out.key("arrived")?;
    write_arrived(entry.arrived(), out)?;
    write_count("by", entry.arrived().by(), out)?;
    write_content(key, entry.content(), entry.moment(), out)?;
    write_tail(entry, out)
}

// Writes the submitted content and the base version.
fn write_arrived(submission: &Submission, out: &mut Writer) -> Result<(), AllocError>
    ensures tokens { OnOk result (out.new.tokens ≡ out.old.tokens ++ data_tokens (arrived_data submission.now)) }
    ensures before_unchanged { out.new.before ≡ out.old.before }
{
    out.begin_object()?;
    write_arrived_content(submission.content(), out)?;
    out.key("v")?;
    match submission.version() {
        Some(version) => out.u64(version)?,
        None => out.null()?,
    }
    out.end_object()
}

// Writes the submitted content.
fn write_arrived_content(content: &Content, out: &mut Writer) -> Result<(), AllocError>
    ensures tokens { OnOk result ((w : Data) → out.new.tokens ++ object_tail_tokens (member (codes "v") w no_members)
        ≡ out.old.tokens ++ object_tail_tokens (arrived_members content.now w)) }
    ensures before_unchanged { out.new.before ≡ out.old.before }
{
    match content.kind() {
        Kind::Create(value) => {
            out.key("create")?;
            write_create(value, out)
        }
        Kind::Delete => {
            out.key("del")?;
            out.boolean(true)
        }
        Kind::Edit(op) => {
            out.key("op")?;
            write_op(op, out)
        }
    }
}

// Writes the key, the stored content and the moment, with members in byte order.
fn write_content(
    key: &Key,
    content: &Content,
    moment: Moment,
    out: &mut Writer,
) -> Result<(), AllocError>
    ensures tokens { OnOk result ((rest : Members) → out.new.tokens ++ object_tail_tokens rest
        ≡ out.old.tokens ++ object_tail_tokens (content_members_with_moment
        (plain_key key.now) content.now moment rest)) }
    ensures before_unchanged { out.new.before ≡ out.old.before }
{
    write_text("c", key.collection.as_str(), out)?;
    match content.kind() {
        Kind::Create(value) => {
            out.key("create")?;
            write_create(value, out)?;
            write_text("d", key.id.as_str(), out)?;
            write_count("m", moment.milliseconds(), out)
        }
        Kind::Delete => {
            write_text("d", key.id.as_str(), out)?;
            out.key("del")?;
            out.boolean(true)?;
            write_count("m", moment.milliseconds(), out)
        }
        Kind::Edit(op) => {
            write_text("d", key.id.as_str(), out)?;
            write_count("m", moment.milliseconds(), out)?;
            out.key("op")?;
            write_op(op, out)
        }
    }
}

// Writes the members after the moment, and the end of the object.
fn write_tail(entry: &Entry, out: &mut Writer) -> Result<(), AllocError>
    ensures tokens { OnOk result (out.new.tokens ≡ out.old.tokens ++ object_tail_tokens (line_tail entry.now)) }
    ensures before_unchanged { out.new.before ≡ out.old.before }
{
    write_count("seq", entry.arrived().seq(), out)?;
    write_text("src", entry.arrived().src(), out)?;
    write_count("v", entry.version(), out)?;
    write_text("via", entry.arrived().via(), out)?;
    out.end_object()
}

/// Parses a line. Returns `None` if its content can't be stored. It doesn't read the stored content.
///
/// # Errors
///
/// [`AllocError`] if an allocation fails.
pub fn read_line(alloc: Global, line: &[u8]) -> Result<Option<LineContent>, AllocError>
    ensures read { IfOk result (λ l. option_map plain_line_content l ≡ read_line line.now) }
    ensures in_limits { IfOk result (λ l. IfSome l (λ l. KeyInLimits (plain_key l.key)
        × SubmissionInLimits l.submission)) }
{
    let Ok(text) = str::from_utf8(line) else {
        return Ok(None);
    };
    let mut scratch = Scratch::new(alloc);
    match parse_json(alloc, text, &mut scratch)? {
        Some(value) => read_line_data(alloc, &value),
        None => Ok(None),
    }
}

fn read_line_data<D: JsonData>(alloc: Global, value: &D) -> Result<Option<LineContent>, AllocError>
    ensures line { IfOk result (λ l. option_map plain_line_content l ≡ line_of_data (D.json value.now)) }
    ensures in_limits { IfOk result (λ l. IfSome l (λ l. KeyInLimits (plain_key l.key)
        × SubmissionInLimits l.submission)) }
{
    read_keeps_limits();
    let Some(key) = none_if_refused(read_key(alloc, value))? else {
        return Ok(None);
    };
    let Some(submission) = read_submission(alloc, value)? else {
        return Ok(None);
    };
    let Some(moment) = read_moment(value) else {
        return Ok(None);
    };
    key_texts(&key);
    submission_texts(&submission);
    Ok(Some(LineContent {
        key,
        submission,
        moment,
    }))
}

fn read_moment<D: JsonData>(value: &D) -> Option<Moment>
    ensures { result ≡ count_member (codes "m") (D.json value.now) }
{
    moment_of(value.get("m")?)
}

fn read_submission<D: JsonData>(alloc: Global, value: &D) -> Result<Option<Submission>, AllocError>
    ensures { IfOk result (λ s. s ≡ submission_of_data (D.json value.now)) }
{
    let Some(arrived) = value.get("arrived") else {
        return Ok(None);
    };
    let Some((content, version)) = read_arrived(alloc, arrived)? else {
        return Ok(None);
    };
    match count_field(value, "seq") {
        Some(seq) => read_sent(alloc, value, content, version, seq),
        None => Ok(None),
    }
}

// Reads the source, the collection name and the pass number of a submission.
fn read_sent<D: JsonData>(
    alloc: Global,
    value: &D,
    content: Content,
    version: Option<u64>,
    seq: u64,
) -> Result<Option<Submission>, AllocError>
    ensures { IfOk result (λ s. s ≡ sent_of_data (D.json value.now) (content, version) seq) }
{
    let Some(src) = none_if_refused(required_name(alloc, value, "src"))? else {
        return Ok(None);
    };
    let Some(via) = none_if_refused(required_name(alloc, value, "via"))? else {
        return Ok(None);
    };
    let Some(by) = count_field(value, "by") else {
        return Ok(None);
    };
    let submission = Submission::new(alloc, src, seq, version, content, via, by)?;
    Ok(Some(submission))
}

fn read_arrived<D: JsonData>(
    alloc: Global,
    value: &D,
) -> Result<Option<(Content, Option<u64>)>, AllocError>
    ensures { IfOk result (λ a. a ≡ arrived_of_data (D.json value.now)) }
{
    let Some(content) = none_if_refused(read_content(alloc, value))? else {
        return Ok(None);
    };
    let Ok(version) = optional_count(value, "v") else {
        return Ok(None);
    };
    Ok(Some((content, version)))
}

// Returns `None` for a refusal; only an allocation failure is an error.
fn none_if_refused<T: Drop>(read: Result<T, Code>) -> Result<Option<T>, AllocError>
    ensures { IsNoneIfRefused read result }
{
    match read {
        Ok(value) => Ok(Some(value)),
        Err(code) => {
            refusal_code(code)?;
            Ok(None)
        }
    }
}
