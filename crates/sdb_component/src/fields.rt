//! Members of a component in JSON.
ghost use Rattle.std.specs.Arc.{arc_value};
ghost use Rattle.std.specs.Prelude.{◌≡◌, Some, IfOk, IfErr, string_bytes};
ghost use Rattle.sdb_component.specs.FromJson.{FaultMeansNone, has_member, text_member, value_member, whole_member};
ghost use Rattle.sdb_value.specs.View.{value_of};

use crate::from_json::OpFault;
use sdb_json::JsonData;
use sdb_value::{Json, ValueFault, Whole, from_value, whole_of};
use std::alloc::{AllocError, Global};
use std::sync::Arc;

pub(crate) fn has_field<D: JsonData>(value: &D, key: &str) -> bool
    ensures { result ≡ has_member key.now (D.json value.now) }
{
    value.get(key).is_some()
}

pub(crate) fn whole_field<D: JsonData>(value: &D, key: &str) -> Option<Whole>
    ensures { result ≡ whole_member key.now (D.json value.now) }
{
    whole_of(value.get(key)?)
}

pub(crate) fn text_field<D: JsonData>(
    alloc: Global,
    value: &D,
    key: &str,
) -> Result<String, OpFault>
    ensures ok { IfOk result (λ s. text_member key.now (D.json value.now) ≡ Some (string_bytes s)) }
    ensures err { IfErr result (λ f. FaultMeansNone (text_member key.now (D.json value.now)) f) }
{
    match value.get(key).and_then(D::as_str) {
        Some(text) => Ok(String::from_str(alloc, text)?),
        None => Err(OpFault::BadlyFormed),
    }
}

// Parses a removed value.
pub(crate) fn value_field<D: JsonData>(
    alloc: Global,
    value: &D,
    key: &str,
) -> Result<Arc<Json>, OpFault>
    ensures ok { IfOk result (λ j. value_member key.now (D.json value.now) ≡ Some (value_of (arc_value j))) }
    ensures err { IfErr result (λ f. FaultMeansNone (value_member key.now (D.json value.now)) f) }
{
    let json = json_field(alloc, value, key)?;
    Ok(into_arc(alloc, json)?)
}

// Parses an inserted value and freezes it, so that a shared document inserts it as a pointer.
pub(crate) fn frozen_value_field<D: JsonData>(
    alloc: Global,
    value: &D,
    key: &str,
) -> Result<Arc<Json>, OpFault>
    ensures ok { IfOk result (λ j. value_member key.now (D.json value.now) ≡ Some (value_of (arc_value j))) }
    ensures err { IfErr result (λ f. FaultMeansNone (value_member key.now (D.json value.now)) f) }
{
    let mut json = json_field(alloc, value, key)?;
    json.freeze(alloc)?;
    Ok(into_arc(alloc, json)?)
}

fn json_field<D: JsonData>(alloc: Global, value: &D, key: &str) -> Result<Json, OpFault>
    ensures ok { IfOk result (λ j. value_member key.now (D.json value.now) ≡ Some (value_of j)) }
    ensures err { IfErr result (λ f. FaultMeansNone (value_member key.now (D.json value.now)) f) }
{
    let Some(member) = value.get(key) else {
        return Err(OpFault::BadlyFormed);
    };
    match from_value(alloc, member) {
        Ok(json) => Ok(json),
        Err(fault) => match fault {
            ValueFault::NumberOutOfRange => Err(OpFault::BadlyFormed),
            ValueFault::TooDeep => Err(OpFault::BadlyFormed),
            ValueFault::OutOfMemory => Err(OpFault::OutOfMemory),
        },
    }
}

fn into_arc(alloc: Global, json: Json) -> Result<Arc<Json>, AllocError>
    ensures { IfOk result (λ j. arc_value j ≡ json) }
{
    Ok(Arc::new(alloc, json)?)
}
