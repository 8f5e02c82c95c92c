//! The parser of step lines.
ghost use Rattle.std.specs.Prelude.{◌≡◌, Ok, IfOk, IfErr, option_map};
ghost use Rattle.sdb_oplog.specs.Refusal.{IsRefusalOrOutOfMemory};
ghost use Rattle.sdb_steps.specs.Lines.{session_of, begin_step_of, now_of, commit_step_of, fetch_step_of, snapshot_step_of, snapshot_at_time_step_of, subscribe_step_of, take_step_of, unsubscribe_step_of, forget_step_of, act_of, step_of, read_step};
ghost use Rattle.sdb_steps.specs.View.{plain_session_step};

use crate::session_number::SessionNumber;
use crate::step::Step;
use sdb_json::{JsonData, Scratch};
use sdb_oplog::{Code, Moment};
use sdb_wire::{
    count_field, moment_of, optional_count, optional_moment, parse_tree, read_content, read_key,
    required_name,
};
use std::alloc::Global;

/// Parses a line to a step.
///
/// # Errors
///
/// The first of [`Code::E1`] to [`Code::E3`] that applies, or [`Code::E10`] if an allocation fails.
pub fn read_step(alloc: Global, text: &str) -> Result<Step, Code>
    ensures ok { IfOk result (λ s. read_step text.now ≡ Ok (plain_session_step s)) }
    ensures err { IfErr result (λ code. IsRefusalOrOutOfMemory (read_step text.now) code) }
{
    let mut scratch = Scratch::new(alloc);
    match parse_tree(alloc, text, &mut scratch) {
        Ok(Some(value)) => step_of(alloc, &value),
        Ok(None) => Err(Code::E1),
        Err(error) => Err(Code::from(error)),
    }
}

fn step_of<D: JsonData>(alloc: Global, value: &D) -> Result<Step, Code>
    ensures ok { IfOk result (λ s. step_of (D.json value.now) ≡ Ok (plain_session_step s)) }
    ensures err { IfErr result (λ code. IsRefusalOrOutOfMemory (step_of (D.json value.now)) code) }
{
    match session_of(value) {
        Some(session) => act_of(alloc, session, value),
        None => Err(Code::E1),
    }
}

fn session_of<D: JsonData>(value: &D) -> Option<SessionNumber>
    ensures { option_map (λ n. n.number) result ≡ session_of (D.json value.now) }
{
    SessionNumber::new(count_field(value, "s")?)
}

fn act_of<D: JsonData>(alloc: Global, session: SessionNumber, value: &D) -> Result<Step, Code>
    ensures ok { IfOk result (λ s. act_of session.number (D.json value.now) ≡ Ok (plain_session_step s)) }
    ensures err { IfErr result (λ code. IsRefusalOrOutOfMemory (act_of session.number (D.json value.now)) code) }
{
    match value.get("do").and_then(D::as_str) {
        Some("begin") => begin_step_of(alloc, session, value),
        Some("work") => Ok(Step::Work { session }),
        Some("commit") => commit_step_of(session, value),
        Some("fetch") => fetch_step_of(alloc, session, value),
        Some("snapshot") => snapshot_step_of(alloc, session, value),
        Some("at") => snapshot_at_time_step_of(alloc, session, value),
        Some("subscribe") => subscribe_step_of(alloc, session, value),
        Some("take") => take_step_of(alloc, session, value),
        Some("unsubscribe") => unsubscribe_step_of(alloc, session, value),
        Some("forget") => forget_step_of(alloc, session, value),
        _ => Err(Code::E1),
    }
}

fn begin_step_of<D: JsonData>(
    alloc: Global,
    session: SessionNumber,
    value: &D,
) -> Result<Step, Code>
    ensures ok { IfOk result (λ s. begin_step_of session.number (D.json value.now) ≡ Ok (plain_session_step s)) }
    ensures err { IfErr result (λ code. IsRefusalOrOutOfMemory (begin_step_of session.number
        (D.json value.now)) code) }
{
    let key = read_key(alloc, value)?;
    let Ok(version) = optional_count(value, "v") else {
        return Err(Code::E1);
    };
    let Some(seq) = count_field(value, "seq") else {
        return Err(Code::E1);
    };
    let src = required_name(alloc, value, "src")?;
    let content = read_content(alloc, value)?;
    Ok(Step::Begin {
        session,
        key,
        src,
        seq,
        version,
        content,
    })
}

// Returns the moment of a commit, or the first moment if the member is absent.
fn now_of<D: JsonData>(value: &D) -> Result<Moment, Code>
    ensures { result ≡ now_of (D.json value.now) }
{
    match value.get("ms") {
        None => Ok(Moment::zero()),
        Some(member) => match moment_of(member) {
            Some(moment) => Ok(moment),
            None => Err(Code::E1),
        },
    }
}

fn commit_step_of<D: JsonData>(session: SessionNumber, value: &D) -> Result<Step, Code>
    ensures ok { IfOk result (λ s. commit_step_of session.number (D.json value.now) ≡ Ok (plain_session_step s)) }
    ensures err { IfErr result (λ code. IsRefusalOrOutOfMemory (commit_step_of session.number
        (D.json value.now)) code) }
{
    match now_of(value) {
        Ok(now) => Ok(Step::Commit { session, now }),
        Err(code) => Err(code),
    }
}

fn fetch_step_of<D: JsonData>(
    alloc: Global,
    session: SessionNumber,
    value: &D,
) -> Result<Step, Code>
    ensures ok { IfOk result (λ s. fetch_step_of session.number (D.json value.now) ≡ Ok (plain_session_step s)) }
    ensures err { IfErr result (λ code. IsRefusalOrOutOfMemory (fetch_step_of session.number
        (D.json value.now)) code) }
{
    let key = read_key(alloc, value)?;
    Ok(Step::Fetch { session, key })
}

fn snapshot_step_of<D: JsonData>(
    alloc: Global,
    session: SessionNumber,
    value: &D,
) -> Result<Step, Code>
    ensures ok { IfOk result (λ s. snapshot_step_of session.number (D.json value.now) ≡ Ok (plain_session_step s)) }
    ensures err { IfErr result (λ code. IsRefusalOrOutOfMemory (snapshot_step_of session.number
        (D.json value.now)) code) }
{
    let key = read_key(alloc, value)?;
    match optional_count(value, "v") {
        Ok(version) => Ok(Step::Snapshot {
            session,
            key,
            version,
        }),
        Err(code) => Err(code),
    }
}

fn snapshot_at_time_step_of<D: JsonData>(
    alloc: Global,
    session: SessionNumber,
    value: &D,
) -> Result<Step, Code>
    ensures ok { IfOk result (λ s. snapshot_at_time_step_of session.number (D.json value.now)
        ≡ Ok (plain_session_step s)) }
    ensures err { IfErr result (λ code. IsRefusalOrOutOfMemory (snapshot_at_time_step_of session.number
        (D.json value.now)) code) }
{
    let key = read_key(alloc, value)?;
    match optional_moment(value, "ts") {
        Ok(moment) => Ok(Step::SnapshotAtTime {
            session,
            key,
            moment,
        }),
        Err(code) => Err(code),
    }
}

fn subscribe_step_of<D: JsonData>(
    alloc: Global,
    session: SessionNumber,
    value: &D,
) -> Result<Step, Code>
    ensures ok { IfOk result (λ s. subscribe_step_of session.number (D.json value.now) ≡ Ok (plain_session_step s)) }
    ensures err { IfErr result (λ code. IsRefusalOrOutOfMemory (subscribe_step_of session.number
        (D.json value.now)) code) }
{
    let key = read_key(alloc, value)?;
    match optional_count(value, "v") {
        Ok(version) => Ok(Step::Subscribe {
            session,
            key,
            version,
        }),
        Err(code) => Err(code),
    }
}

fn take_step_of<D: JsonData>(alloc: Global, session: SessionNumber, value: &D) -> Result<Step, Code>
    ensures ok { IfOk result (λ s. take_step_of session.number (D.json value.now) ≡ Ok (plain_session_step s)) }
    ensures err { IfErr result (λ code. IsRefusalOrOutOfMemory (take_step_of session.number
        (D.json value.now)) code) }
{
    let key = read_key(alloc, value)?;
    match count_field(value, "max") {
        Some(max) => Ok(Step::Take { session, key, max }),
        None => Err(Code::E1),
    }
}

fn unsubscribe_step_of<D: JsonData>(
    alloc: Global,
    session: SessionNumber,
    value: &D,
) -> Result<Step, Code>
    ensures ok { IfOk result (λ s. unsubscribe_step_of session.number (D.json value.now)
        ≡ Ok (plain_session_step s)) }
    ensures err { IfErr result (λ code. IsRefusalOrOutOfMemory (unsubscribe_step_of session.number
        (D.json value.now)) code) }
{
    let key = read_key(alloc, value)?;
    Ok(Step::Unsubscribe { session, key })
}

fn forget_step_of<D: JsonData>(
    alloc: Global,
    session: SessionNumber,
    value: &D,
) -> Result<Step, Code>
    ensures ok { IfOk result (λ s. forget_step_of session.number (D.json value.now) ≡ Ok (plain_session_step s)) }
    ensures err { IfErr result (λ code. IsRefusalOrOutOfMemory (forget_step_of session.number
        (D.json value.now)) code) }
{
    let key = read_key(alloc, value)?;
    Ok(Step::Forget { session, key })
}
