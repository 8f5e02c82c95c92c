//! The writer of answer lines.
ghost use Rattle.std.specs.Prelude.{◌≡◌, ◌++◌, Some, None, OnOk, OnErr, option_map};
ghost use Rattle.sdb_value.specs.ToJson.{data_tokens};
ghost use Rattle.sdb_value.specs.View.{value_of};
ghost use Rattle.sdb_desk.specs.View.{fetch_result_view};
ghost use Rattle.sdb_desk.specs.ReplyView.{plain_reply};
ghost use Rattle.sdb_steps.specs.Lines.{step_answer_data, step_answer_text, decided_data, step_document_data, entries_data, notice_data, refusal_data, step_refusal_text, refused_data, reply_data, short_name, started_data, stored_data, taken_data};
ghost use Rattle.sdb_steps.specs.OneStep.{snapshot_fetched};
ghost use Rattle.sdb_steps.specs.View.{plain_step_answer, plain_start};

use crate::session_number::SessionNumber;
use crate::step::StepAnswer;
use json::Writer;
use sdb_desk::{FetchResult, Reply};
use sdb_oplog::{Code, Entry};
use sdb_value::{Json, write_value};
use sdb_wire::{write_count, write_entry, write_text};
use std::alloc::{AllocError, Global};
use std::mem;

/// Appends the answer to a session's step to `out`: compact JSON with members in byte order. A
/// duplicate is written as a stored submission without missed entries.
///
/// # Errors
///
/// [`AllocError`] if an allocation fails. `out` is then unchanged.
pub fn write_step_answer(
    alloc: Global,
    session: SessionNumber,
    answer: &StepAnswer,
    out: &mut Vec<u8>,
) -> Result<(), AllocError>
    ensures ok { OnOk result (out.new.items
        ≡ out.old.items ++ step_answer_text session.number (plain_step_answer answer.now)) }
    ensures err { OnErr result (out.new.items ≡ out.old.items) }
{
    let len = out.len();
    let mut writer = Writer::new(mem::replace(out, Vec::new(alloc)));
    let written = write_answer(session.number, answer, &mut writer);
    *out = writer.into_inner();
    if written.is_err() {
        out.truncate(len);
    }
    written
}

/// Appends the answer to a line that is no step.
///
/// # Errors
///
/// [`AllocError`] if an allocation fails. `out` is then unchanged.
pub fn write_refusal(alloc: Global, code: Code, out: &mut Vec<u8>) -> Result<(), AllocError>
    ensures ok { OnOk result (out.new.items ≡ out.old.items ++ step_refusal_text code) }
    ensures err { OnErr result (out.new.items ≡ out.old.items) }
{
    let len = out.len();
    let mut writer = Writer::new(mem::replace(out, Vec::new(alloc)));
    let written = write_error(code, &mut writer);
    *out = writer.into_inner();
    if written.is_err() {
        out.truncate(len);
    }
    written
}

fn write_answer(session: u64, answer: &StepAnswer, out: &mut Writer) -> Result<(), AllocError>
    ensures tokens { OnOk result (out.new.tokens
        ≡ out.old.tokens ++ data_tokens (step_answer_data session (plain_step_answer answer.now))) }
    ensures before_unchanged { out.new.before ≡ out.old.before }
{
    match answer {
        StepAnswer::Began => write_notice("begin", session, out),
        StepAnswer::Worked => write_notice("work", session, out),
        StepAnswer::Moved => write_notice("moved", session, out),
        StepAnswer::Decided(reply) => write_decided(session, reply, out),
        StepAnswer::Fetched(fetched) => write_document("fetch", session, fetched, out),
        StepAnswer::SnapshotFetched(read) => write_snapshot_answer(session, read, out),
        StepAnswer::MomentFetched(fetched) => write_document("at", session, fetched, out),
        StepAnswer::Subscribed(start) => write_subscribed(session, start, out),
        StepAnswer::Taken(entries) => write_taken(session, entries.as_slice(), out),
        StepAnswer::Unsubscribed => write_notice("unsubscribe", session, out),
        StepAnswer::Forgotten => write_notice("forget", session, out),
        StepAnswer::Idle => write_notice("idle", session, out),
        StepAnswer::OutOfMemory => write_error(Code::E10, out),
    }
}

fn write_decided(session: u64, reply: &Reply, out: &mut Writer) -> Result<(), AllocError>
    ensures tokens { OnOk result (out.new.tokens
        ≡ out.old.tokens ++ data_tokens (decided_data session (plain_reply reply.now))) }
    ensures before_unchanged { out.new.before ≡ out.old.before }
{
    match reply {
        Reply::Stored { v, missed } => write_stored(session, *v, missed.as_slice(), out),
        Reply::Repeat { v } => write_stored(session, *v, &[], out),
        Reply::Refused(code) => write_refused("commit", session, *code, out),
    }
}

fn write_snapshot_answer(
    session: u64,
    read: &Result<FetchResult, Code>,
    out: &mut Writer,
) -> Result<(), AllocError>
    ensures tokens { OnOk result (out.new.tokens
        ≡ out.old.tokens ++ data_tokens (reply_data session (snapshot_fetched (fetch_result_view read.now)))) }
    ensures before_unchanged { out.new.before ≡ out.old.before }
{
    match read {
        Ok(fetched) => write_document("snapshot", session, fetched, out),
        Err(code) => write_refused("snapshot", session, *code, out),
    }
}

fn write_subscribed(
    session: u64,
    start: &Result<u64, Code>,
    out: &mut Writer,
) -> Result<(), AllocError>
    ensures tokens { OnOk result (out.new.tokens
        ≡ out.old.tokens ++ data_tokens (step_answer_data session (plain_start start.now))) }
    ensures before_unchanged { out.new.before ≡ out.old.before }
{
    match start {
        Ok(version) => write_start(session, *version, out),
        Err(code) => write_refused("subscribe", session, *code, out),
    }
}

// Writes an answer with the step's name and session only.
fn write_notice(kind: &str, session: u64, out: &mut Writer) -> Result<(), AllocError>
    ensures tokens { OnOk result (out.new.tokens ≡ out.old.tokens ++ data_tokens (notice_data kind.now session)) }
    ensures before_unchanged { out.new.before ≡ out.old.before }
{
    out.begin_object()?;
    write_text("do", kind, out)?;
    write_count("s", session, out)?;
    out.end_object()
}

fn write_refused(kind: &str, session: u64, code: Code, out: &mut Writer) -> Result<(), AllocError>
    ensures tokens { OnOk result (out.new.tokens
        ≡ out.old.tokens ++ data_tokens (refused_data kind.now session code)) }
    ensures before_unchanged { out.new.before ≡ out.old.before }
{
    out.begin_object()?;
    write_text("do", kind, out)?;
    write_text("error", short_name(code), out)?;
    write_count("s", session, out)?;
    out.end_object()
}

fn write_error(code: Code, out: &mut Writer) -> Result<(), AllocError>
    ensures tokens { OnOk result (out.new.tokens ≡ out.old.tokens ++ data_tokens (refusal_data code)) }
    ensures before_unchanged { out.new.before ≡ out.old.before }
{
    out.begin_object()?;
    write_text("error", short_name(code), out)?;
    out.end_object()
}

fn write_stored(
    session: u64,
    version: u64,
    missed: &[Entry],
    out: &mut Writer,
) -> Result<(), AllocError>
    ensures tokens { OnOk result (out.new.tokens
        ≡ out.old.tokens ++ data_tokens (stored_data session version missed.now)) }
    ensures before_unchanged { out.new.before ≡ out.old.before }
{
    out.begin_object()?;
    write_text("do", "commit", out)?;
    out.key("missed")?;
    write_entries(missed, out)?;
    write_count("s", session, out)?;
    write_count("v", version, out)?;
    out.end_object()
}

fn write_taken(session: u64, entries: &[Entry], out: &mut Writer) -> Result<(), AllocError>
    ensures tokens { OnOk result (out.new.tokens
        ≡ out.old.tokens ++ data_tokens (taken_data session entries.now)) }
    ensures before_unchanged { out.new.before ≡ out.old.before }
{
    out.begin_object()?;
    write_text("do", "take", out)?;
    out.key("ops")?;
    write_entries(entries, out)?;
    write_count("s", session, out)?;
    out.end_object()
}

fn write_entries(entries: &[Entry], out: &mut Writer) -> Result<(), AllocError>
    ensures tokens { OnOk result (out.new.tokens ≡ out.old.tokens ++ data_tokens (entries_data entries.now)) }
    ensures before_unchanged { out.new.before ≡ out.old.before }
{
    out.begin_array()?;
    for entry in entries {
        write_entry(entry, out)?;
    }
    out.end_array()
}

fn write_start(session: u64, version: u64, out: &mut Writer) -> Result<(), AllocError>
    ensures tokens { OnOk result (out.new.tokens ≡ out.old.tokens ++ data_tokens (started_data session version)) }
    ensures before_unchanged { out.new.before ≡ out.old.before }
{
    out.begin_object()?;
    write_text("do", "subscribe", out)?;
    write_count("s", session, out)?;
    write_count("v", version, out)?;
    out.end_object()
}

// Writes the document at a version, or that it is absent.
fn write_document(
    kind: &str,
    session: u64,
    fetched: &FetchResult,
    out: &mut Writer,
) -> Result<(), AllocError>
    ensures tokens { OnOk result (out.new.tokens ≡ out.old.tokens ++ data_tokens
        (step_document_data kind.now session (fetched.now).version (option_map value_of (fetched.now).snapshot))) }
    ensures before_unchanged { out.new.before ≡ out.old.before }
{
    match &fetched.snapshot {
        Some(json) => write_present(kind, session, fetched.version, json, out),
        None => write_absent(kind, session, fetched.version, out),
    }
}

fn write_present(
    kind: &str,
    session: u64,
    version: u64,
    document: &Json,
    out: &mut Writer,
) -> Result<(), AllocError>
    ensures tokens { OnOk result (out.new.tokens
        ≡ out.old.tokens ++ data_tokens (step_document_data kind.now session version (Some (value_of document.now)))) }
    ensures before_unchanged { out.new.before ≡ out.old.before }
{
    out.begin_object()?;
    out.key("data")?;
    write_value(document, out)?;
    write_text("do", kind, out)?;
    write_count("s", session, out)?;
    write_count("v", version, out)?;
    out.end_object()
}

fn write_absent(kind: &str, session: u64, version: u64, out: &mut Writer) -> Result<(), AllocError>
    ensures tokens { OnOk result (out.new.tokens
        ≡ out.old.tokens ++ data_tokens (step_document_data kind.now session version None)) }
    ensures before_unchanged { out.new.before ≡ out.old.before }
{
    out.begin_object()?;
    write_text("do", kind, out)?;
    write_count("s", session, out)?;
    out.key("type")?;
    out.null()?;
    write_count("v", version, out)?;
    out.end_object()
}

// Returns the short name of a code.
fn short_name(code: Code) -> &'static str
    ensures { result.now ≡ short_name code }
{
    match code {
        Code::E1 => "E1",
        Code::E2 => "E2",
        Code::E3 => "E3",
        Code::E4 => "E4",
        Code::E5 => "E5",
        Code::E6 => "E6",
        Code::E7 => "E7",
        Code::E8 => "E8",
        Code::E9 => "E9",
        Code::E10 => "E10",
        Code::E11 => "E11",
    }
}
