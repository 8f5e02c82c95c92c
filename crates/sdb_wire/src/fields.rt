//! Members of a message.
ghost use Rattle.std.specs.Prelude.{◌≡◌, Ok, IfOk, IfErr, option_map, option_and_then, string_bytes};
ghost use Rattle.std.specs.Option.{ok_or};
ghost use Rattle.serde_json.specs.Find.{get};
ghost use Rattle.sdb_value.specs.FromJson.{count_of};
ghost use Rattle.sdb_oplog.specs.Refusal.{IsRefusalOrOutOfMemory};
ghost use Rattle.sdb_oplog.specs.declared.codes.Code.TheVariants.{E1};
ghost use Rattle.sdb_wire.specs.Wire.{name_value, echo_value, count_member, name_member, echo_member, present_member, not_null, read_optional, echo_members};
ghost use Rattle.sdb_wire.specs.View.{plain_echo_value, plain_echo};

use crate::message::{Echo, EchoValue, NAME_LIMIT};
use sdb_json::JsonData;
use sdb_oplog::{Code, Moment};
use sdb_value::count_of;
use std::alloc::{AllocError, Global};

pub(crate) fn name_value<D: JsonData>(value: &D) -> Option<&str>
    ensures { option_map (λ s. s.now) result ≡ name_value (D.json value.now) }
{
    let text = value.as_str()?;
    if text.is_empty() || text.len() > NAME_LIMIT {
        return None;
    }
    Some(text)
}

// Returns the member if it is present and not null.
pub(crate) fn present_field<'v, D: JsonData>(value: &'v D, key: &str) -> Option<&'v D>
    ensures { option_map (λ v. D.json v.now) result ≡ present_member key.now (D.json value.now) }
{
    let member = value.get(key)?;
    if member.is_null() { None } else { Some(member) }
}

/// Returns the member if it is an integer from 0 to 9007199254740991.
pub fn count_field<D: JsonData>(value: &D, key: &str) -> Option<u64>
    ensures { result ≡ count_member key.now (D.json value.now) }
{
    count_of(value.get(key)?)
}

pub(crate) fn name_field<'v, D: JsonData>(value: &'v D, key: &str) -> Option<&'v str>
    ensures { option_map (λ s. s.now) result ≡ name_member key.now (D.json value.now) }
{
    name_value(value.get(key)?)
}

/// Returns the member, which must be a name: a text of 1 to 200 bytes.
///
/// # Errors
///
/// [`Code::E1`] if it is no name, [`Code::E10`] if an allocation fails.
pub fn required_name<D: JsonData>(alloc: Global, value: &D, key: &str) -> Result<String, Code>
    ensures ok { IfOk result (λ s. ok_or (name_member key.now (D.json value.now)) E1 ≡ Ok (string_bytes s)) }
    ensures err { IfErr result (λ code. IsRefusalOrOutOfMemory (ok_or (name_member key.now
        (D.json value.now)) E1) code) }
{
    match name_field(value, key) {
        Some(name) => Ok(String::from_str(alloc, name)?),
        None => Err(Code::E1),
    }
}

// Returns the name, which may be absent or null; E1 for any other value.
pub(crate) fn optional_name<D: JsonData>(
    alloc: Global,
    value: &D,
    key: &str,
) -> Result<Option<String>, Code>
    ensures ok { IfOk result (λ s.
        read_optional name_value (present_member key.now (D.json value.now)) ≡ Ok (option_map string_bytes s)) }
    ensures err { IfErr result (λ code. IsRefusalOrOutOfMemory (read_optional name_value (present_member key.now
        (D.json value.now))) code) }
{
    match present_field(value, key) {
        None => Ok(None),
        Some(member) => match name_value(member) {
            Some(name) => Ok(Some(String::from_str(alloc, name)?)),
            None => Err(Code::E1),
        },
    }
}

/// Returns the integer from 0 to 9007199254740991, which may be absent or null.
///
/// # Errors
///
/// [`Code::E1`] if it is another value.
pub fn optional_count<D: JsonData>(value: &D, key: &str) -> Result<Option<u64>, Code>
    ensures { result ≡ read_optional count_of (present_member key.now (D.json value.now)) }
{
    match present_field(value, key) {
        None => Ok(None),
        Some(member) => match count_of(member) {
            Some(n) => Ok(Some(n)),
            None => Err(Code::E1),
        },
    }
}

/// Returns the moment of this number of milliseconds, an integer from 0 to 9007199254740991.
pub fn moment_of<D: JsonData>(value: &D) -> Option<Moment>
    ensures { result ≡ count_of (D.json value.now) }
{
    Moment::new(count_of(value)?)
}

/// Returns the moment, which may be absent or null.
///
/// # Errors
///
/// [`Code::E1`] if it is another value.
pub fn optional_moment<D: JsonData>(value: &D, key: &str) -> Result<Option<Moment>, Code>
    ensures { result ≡ read_optional count_of (present_member key.now (D.json value.now)) }
{
    match present_field(value, key) {
        None => Ok(None),
        Some(member) => match moment_of(member) {
            Some(moment) => Ok(Some(moment)),
            None => Err(Code::E1),
        },
    }
}

fn echo_value<D: JsonData>(alloc: Global, value: &D) -> Result<Option<EchoValue>, AllocError>
    ensures { IfOk result (λ w. option_map plain_echo_value w ≡ echo_value (D.json value.now)) }
{
    match name_value(value) {
        Some(name) => Ok(Some(EchoValue::Text {
            text: String::from_str(alloc, name)?,
        })),
        None => match count_of(value) {
            Some(count) => Ok(Some(EchoValue::Count { count })),
            None => Ok(None),
        },
    }
}

fn echo_field<D: JsonData>(
    alloc: Global,
    value: &D,
    key: &str,
) -> Result<Option<EchoValue>, AllocError>
    ensures { IfOk result (λ w. option_map plain_echo_value w ≡ echo_member key.now (D.json value.now)) }
{
    match value.get(key) {
        Some(member) => echo_value(alloc, member),
        None => Ok(None),
    }
}

// Returns the members that an error repeats.
pub(crate) fn echo_fields<D: JsonData>(alloc: Global, value: &D) -> Result<Echo, AllocError>
    ensures { IfOk result (λ e. plain_echo e ≡ echo_members (D.json value.now)) }
{
    let a = echo_field(alloc, value, "a")?;
    let c = echo_field(alloc, value, "c")?;
    let d = echo_field(alloc, value, "d")?;
    let id = echo_field(alloc, value, "id")?;
    let seq = echo_field(alloc, value, "seq")?;
    let src = echo_field(alloc, value, "src")?;
    Ok(Echo {
        a,
        c,
        d,
        id,
        seq,
        src,
    })
}
