//! The parser of messages.
ghost use Rattle.std.specs.Prelude.{◌≡◌, ◌⊎◌, ◌≤◌, ◌<◌, length, Ok, IfOk, IfErr, OnErr, IsTrue, option_map, codes};
ghost use Rattle.json.specs.Lex.{tokens};
ghost use Rattle.json.specs.Reads.{opens};
ghost use Rattle.json.specs.Scratch.{room};
ghost use Rattle.sdb_oplog.specs.declared.codes.Code.TheVariants.{E10};
ghost use Rattle.sdb_json.specs.TreeData.{tree_data};
ghost use Rattle.sdb_oplog.specs.Keys.{plain_key};
ghost use Rattle.sdb_oplog.specs.Refusal.{IsRefusalOrOutOfMemory};
ghost use Rattle.sdb_wire.specs.Wire.{key_of, hello_request_of, fetch_request_of, subscribe_request_of, unsubscribe_request_of, submit_request_of, snapshot_request_of, snapshot_at_time_request_of, request_of, content_of, is_delete, create_content, created_content, edit_content, wire, message_limit, parse_message, parse_data, echo_of, echo_members, empty_echo};
ghost use Rattle.sdb_wire.specs.View.{plain_request, plain_echo, plain_message, echo_or_empty, IsMessageFault, IsMessageFaultOf};

use crate::codes::refusal_code;
use crate::fields::{
    count_field, echo_fields, name_field, optional_count, optional_moment, optional_name,
    present_field, required_name,
};
use crate::message::{BadMessage, Echo, MESSAGE_LIMIT, Message, Request, TYPE};
use sdb_component::read_op;
use sdb_json::{JsonData, JsonTree, Scratch, parse_json};
use sdb_oplog::{Code, Content, Key};
use sdb_value::from_value;
use serde_json::Value;
use std::alloc::{AllocError, Global};

/// Parses a text to a request. A text of more than [`MESSAGE_LIMIT`] bytes isn't parsed.
///
/// # Errors
///
/// The first of [`Code::E1`] to [`Code::E3`] that applies, with the echo of the message, or
/// [`Code::E10`] if an allocation fails.
///
/// ```
/// let request = read_message(alloc, r#"{"a":"f","c":"b","d":"1","v":3}"#);
/// assert!(rt; matches!(request, Ok(Request::Fetch { version: Some(3), .. })));
/// let refused = read_message(alloc, "{}");
/// assert!(rt; matches!(refused, Err(bad) if bad.code == Code::E1));
/// ```
pub fn read_message(alloc: Global, text: &str) -> Result<Request, BadMessage>
    ensures ok { IfOk result (λ r. wire text.now ≡ Ok (plain_request r)) }
    ensures err { IfErr result (λ b. IsMessageFault b (wire text.now)) }
    // The echo is that of the message, or empty if an allocation failed.
    ensures echo { IfErr result (λ b. (plain_echo b.echo ≡ echo_of text.now) ⊎ (plain_echo b.echo ≡ empty_echo)) }
    ensures memory { IfErr result (λ b. b.code ≡ E10 → length text.now ≤ message_limit) }
{
    let mut scratch = Scratch::new(alloc);
    match parse_tree(alloc, text, &mut scratch) {
        Ok(Some(value)) => read_request(alloc, &value),
        Ok(None) => Err(BadMessage {
            echo: empty_echo(),
            code: Code::E1,
        }),
        Err(error) => Err(BadMessage {
            echo: empty_echo(),
            code: Code::from(error),
        }),
    }
}

/// Parses a text as [`read_message`] does, and keeps the JSON value for the echo of later refusals.
/// The value borrows from the text and, for texts with escapes, from the scratch memory.
///
/// # Errors
///
/// [`AllocError`] if an allocation fails. A text that isn't parsed allocates nothing.
pub fn parse_message<'a>(
    alloc: Global,
    text: &'a str,
    scratch: &'a mut Scratch,
) -> Result<Message<'a>, AllocError>
    ensures ok { IfOk result (λ m. plain_message m ≡ parse_message text.now) }
    ensures memory { OnErr result (length text.now ≤ message_limit) }
{
    let Some(json) = parse_tree(alloc, text, scratch)? else {
        return Ok(Message {
            json: None,
            request: Err(Code::E1),
        });
    };
    let request = match request_of(alloc, &json) {
        Ok(request) => Ok(request),
        Err(code) => Err(refusal_code(code)?),
    };
    Ok(Message {
        json: Some(json),
        request,
    })
}

/// Parses a text to JSON. Returns `None` if it isn't JSON or has more than [`MESSAGE_LIMIT`] bytes.
///
/// # Errors
///
/// [`AllocError`] if an allocation fails, as for [`parse_json`]. A text that isn't parsed allocates
/// nothing.
pub fn parse_tree<'a>(
    alloc: Global,
    text: &'a str,
    scratch: &'a mut Scratch,
) -> Result<Option<JsonTree<'a>>, AllocError>
    ensures ok { IfOk result (λ v. option_map tree_data v ≡ parse_data text.now) }
    ensures memory { OnErr result (length text.now ≤ message_limit
        × (IsTrue (opens (tokens text.now)) ⊎ (room scratch.old < length text.now))) }
{
    if text.len() > MESSAGE_LIMIT {
        return Ok(None);
    }
    parse_json(alloc, text, scratch)
}

/// Returns the echo of a message, which is empty if it isn't JSON.
///
/// # Errors
///
/// [`AllocError`] if an allocation fails.
pub fn echo_of(alloc: Global, message: Option<&JsonTree<'_>>) -> Result<Echo, AllocError>
    ensures { IfOk result (λ e. plain_echo e ≡ echo_or_empty (option_map (λ v. v.now) message.entry)) }
{
    match message {
        Some(value) => echo_fields(alloc, value),
        None => Ok(empty_echo()),
    }
}

/// Returns an echo without members.
pub fn empty_echo() -> Echo
    ensures { plain_echo result ≡ empty_echo }
{
    Echo {
        a: None,
        c: None,
        d: None,
        id: None,
        seq: None,
        src: None,
    }
}

fn read_request<D: JsonData>(alloc: Global, value: &D) -> Result<Request, BadMessage>
    ensures ok { IfOk result (λ r. request_of (D.json value.now) ≡ Ok (plain_request r)) }
    ensures err { IfErr result (λ b. IsMessageFaultOf b (D.json value.now)) }
    ensures echo { IfErr result (λ b.
        (plain_echo b.echo ≡ echo_members (D.json value.now)) ⊎ (plain_echo b.echo ≡ empty_echo)) }
{
    match request_of(alloc, value) {
        Ok(request) => Ok(request),
        Err(code) => match echo_fields(alloc, value) {
            Ok(echo) => Err(BadMessage { echo, code }),
            Err(error) => Err(BadMessage {
                echo: empty_echo(),
                code: Code::from(error),
            }),
        },
    }
}

fn request_of<D: JsonData>(alloc: Global, value: &D) -> Result<Request, Code>
    ensures ok { IfOk result (λ r. request_of (D.json value.now) ≡ Ok (plain_request r)) }
    ensures err { IfErr result (λ code. IsRefusalOrOutOfMemory (request_of (D.json value.now)) code) }
{
    match name_field(value, "a") {
        Some("hs") => read_hello(alloc, value),
        Some("f") => read_fetch(alloc, value),
        Some("s") => read_subscribe(alloc, value),
        Some("u") => read_unsubscribe(alloc, value),
        Some("op") => read_submit(alloc, value),
        Some("nf") => read_snapshot(alloc, value),
        Some("nt") => read_snapshot_at_time(alloc, value),
        _ => Err(Code::E1),
    }
}

/// Parses the key of a document from the members `c` and `d`.
///
/// # Errors
///
/// [`Code::E1`] if one of them is no name, [`Code::E10`] if an allocation fails.
pub fn read_key<D: JsonData>(alloc: Global, value: &D) -> Result<Key, Code>
    ensures ok { IfOk result (λ p. key_of (D.json value.now) ≡ Ok (plain_key p)) }
    ensures err { IfErr result (λ code. IsRefusalOrOutOfMemory (key_of (D.json value.now)) code) }
{
    let collection = required_name(alloc, value, "c")?;
    let id = required_name(alloc, value, "d")?;
    Ok(Key { collection, id })
}

fn read_hello<D: JsonData>(alloc: Global, value: &D) -> Result<Request, Code>
    ensures ok { IfOk result (λ r. hello_request_of (D.json value.now) ≡ Ok (plain_request r)) }
    ensures err { IfErr result (λ code. IsRefusalOrOutOfMemory (hello_request_of (D.json value.now)) code) }
{
    let id = optional_name(alloc, value, "id")?;
    Ok(Request::Hello { id })
}

fn read_fetch<D: JsonData>(alloc: Global, value: &D) -> Result<Request, Code>
    ensures ok { IfOk result (λ r. fetch_request_of (D.json value.now) ≡ Ok (plain_request r)) }
    ensures err { IfErr result (λ code. IsRefusalOrOutOfMemory (fetch_request_of (D.json value.now)) code) }
{
    let key = read_key(alloc, value)?;
    match optional_count(value, "v") {
        Ok(version) => Ok(Request::Fetch { key, version }),
        Err(code) => Err(code),
    }
}

fn read_subscribe<D: JsonData>(alloc: Global, value: &D) -> Result<Request, Code>
    ensures ok { IfOk result (λ r. subscribe_request_of (D.json value.now) ≡ Ok (plain_request r)) }
    ensures err { IfErr result (λ code. IsRefusalOrOutOfMemory (subscribe_request_of (D.json value.now)) code) }
{
    let key = read_key(alloc, value)?;
    match optional_count(value, "v") {
        Ok(version) => Ok(Request::Subscribe { key, version }),
        Err(code) => Err(code),
    }
}

fn read_unsubscribe<D: JsonData>(alloc: Global, value: &D) -> Result<Request, Code>
    ensures ok { IfOk result (λ r. unsubscribe_request_of (D.json value.now) ≡ Ok (plain_request r)) }
    ensures err { IfErr result (λ code. IsRefusalOrOutOfMemory (unsubscribe_request_of (D.json value.now)) code) }
{
    let key = read_key(alloc, value)?;
    Ok(Request::Unsubscribe { key })
}

fn read_submit<D: JsonData>(alloc: Global, value: &D) -> Result<Request, Code>
    ensures ok { IfOk result (λ r. submit_request_of (D.json value.now) ≡ Ok (plain_request r)) }
    ensures err { IfErr result (λ code. IsRefusalOrOutOfMemory (submit_request_of (D.json value.now)) code) }
{
    let key = read_key(alloc, value)?;
    let Ok(version) = optional_count(value, "v") else {
        return Err(Code::E1);
    };
    let Some(seq) = count_field(value, "seq") else {
        return Err(Code::E1);
    };
    let src = optional_name(alloc, value, "src")?;
    let content = read_content(alloc, value)?;
    Ok(Request::Submit {
        key,
        version,
        seq,
        src,
        content,
    })
}

fn read_snapshot<D: JsonData>(alloc: Global, value: &D) -> Result<Request, Code>
    ensures ok { IfOk result (λ r. snapshot_request_of (D.json value.now) ≡ Ok (plain_request r)) }
    ensures err { IfErr result (λ code. IsRefusalOrOutOfMemory (snapshot_request_of (D.json value.now)) code) }
{
    let key = read_key(alloc, value)?;
    let Ok(version) = optional_count(value, "v") else {
        return Err(Code::E1);
    };
    let Some(id) = count_field(value, "id") else {
        return Err(Code::E1);
    };
    Ok(Request::Snapshot { key, version, id })
}

fn read_snapshot_at_time<D: JsonData>(alloc: Global, value: &D) -> Result<Request, Code>
    ensures ok { IfOk result (λ r. snapshot_at_time_request_of (D.json value.now) ≡ Ok (plain_request r)) }
    ensures err { IfErr result (λ code. IsRefusalOrOutOfMemory (snapshot_at_time_request_of (D.json value.now)) code) }
{
    let key = read_key(alloc, value)?;
    let Ok(moment) = optional_moment(value, "ts") else {
        return Err(Code::E1);
    };
    let Some(id) = count_field(value, "id") else {
        return Err(Code::E1);
    };
    Ok(Request::SnapshotAtTime { key, moment, id })
}

/// Parses the content of a message: an operation, a create or a delete.
///
/// # Errors
///
/// - [`Code::E1`] if there isn't exactly one of them, or if a create is no object with a text
///   `type`.
/// - [`Code::E2`] if the type isn't json0.
/// - [`Code::E3`] if the operation or the data are outside the profile.
/// - [`Code::E10`] if an allocation fails.
pub fn read_content<D: JsonData>(alloc: Global, value: &D) -> Result<Content, Code>
    ensures ok { IfOk result (λ m. content_of (D.json value.now) ≡ Ok m) }
    ensures err { IfErr result (λ code. IsRefusalOrOutOfMemory (content_of (D.json value.now)) code) }
{
    let op = present_field(value, "op");
    let create = present_field(value, "create");
    match (op, create, is_delete(value)) {
        (Some(op), None, false) => edit_content(alloc, op),
        (None, Some(create), false) => create_content(alloc, create),
        (None, None, true) => Ok(Content::delete()),
        _ => Err(Code::E1),
    }
}

fn is_delete<D: JsonData>(value: &D) -> bool
    ensures { result ≡ is_delete (D.json value.now) }
{
    value.get("del").and_then(D::as_bool).unwrap_or(false)
}

fn edit_content<D: JsonData>(alloc: Global, value: &D) -> Result<Content, Code>
    ensures ok { IfOk result (λ m. edit_content (D.json value.now) ≡ Ok m) }
    ensures err { IfErr result (λ code. IsRefusalOrOutOfMemory (edit_content (D.json value.now)) code) }
{
    let op = read_op(alloc, value)?;
    Ok(Content::edit(alloc, op)?)
}

fn create_content<D: JsonData>(alloc: Global, value: &D) -> Result<Content, Code>
    ensures ok { IfOk result (λ m. create_content (D.json value.now) ≡ Ok m) }
    ensures err { IfErr result (λ code. IsRefusalOrOutOfMemory (create_content (D.json value.now)) code) }
{
    match value.get("type").and_then(D::as_str) {
        Some(name) => {
            if name != TYPE && name != "json0" {
                return Err(Code::E2);
            }
            match value.get("data") {
                Some(member) => read_create_data(alloc, member),
                None => read_create_data(alloc, &Value::Null),
            }
        }
        None => Err(Code::E1),
    }
}

fn read_create_data<D: JsonData>(alloc: Global, value: &D) -> Result<Content, Code>
    ensures ok { IfOk result (λ m. created_content (D.json value.now) ≡ Ok m) }
    ensures err { IfErr result (λ code. IsRefusalOrOutOfMemory (created_content (D.json value.now)) code) }
{
    let json = from_value(alloc, value)?;
    Ok(Content::create(alloc, json)?)
}
