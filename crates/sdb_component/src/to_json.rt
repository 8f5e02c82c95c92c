//! Operations as JSON values.
ghost use Rattle.std.specs.Prelude.{◌≡◌, IfOk, OnOk, codes, option_to_list};
ghost use Rattle.serde_json.specs.Data.{Data, put, string};
ghost use Rattle.serde_json.specs.View.{view as data_view, items_view, members_view};
ghost use Rattle.sdb_value.specs.FromJson.{data_of_value};
ghost use Rattle.sdb_value.specs.View.{plain_path, plain_step, value_of};
ghost use Rattle.sdb_component.specs.ToJson.{act_members, single_member, component_data, component_items, op_data};
ghost use Rattle.sdb_component.specs.ToJson.{last_step, path_data, path_items, step_data, full_path};
ghost use Rattle.sdb_component.specs.View.{plain_act};

use crate::component::{Act, Component};
use crate::operation::Op;
use crate::push_option::push_option;
use sdb_value::{Json, Step, to_value};
use serde_json::{Map, Value};
use std::alloc::{AllocError, Global};
use std::collections::BTreeMap;

/// Returns the JSON value of an operation: an array of components, each an object with sorted
/// members. A path is written with its last step.
///
/// # Errors
///
/// [`AllocError`] if an allocation fails.
pub fn op_value(alloc: Global, op: &Op) -> Result<Value, AllocError>
    ensures { IfOk result (λ v. data_view v ≡ op_data op.now) }
{
    Ok(Value::Array(component_values(alloc, op.components())?))
}

fn component_values(alloc: Global, components: &[Component]) -> Result<Vec<Value>, AllocError>
    ensures { IfOk result (λ v. items_view v.items ≡ component_items components.now) }
{
    let mut items = Vec::new(alloc);
    for component in components {
        items.push(component_value(alloc, component)?)?;
    }
    Ok(items)
}

fn component_value(alloc: Global, component: &Component) -> Result<Value, AllocError>
    ensures { IfOk result (λ v. data_view v ≡ component_data component.now) }
{
    let mut members = BTreeMap::new(alloc);
    push_field(alloc, &mut members, "p", path_value(alloc, component)?)?;
    push_act_fields(alloc, &mut members, component.act())?;
    Ok(Value::Object(members))
}

// Adds the amount, the text or the values of an act to the object with its path.
fn push_act_fields(
    alloc: Global,
    members: &mut Map<String, Value>,
    act: &Act,
) -> Result<(), AllocError>
    ensures { OnOk result ((path : Data) → members_view members.old.entries ≡ single_member (codes "p") path
        → members_view members.new.entries ≡ act_members (plain_act act.now) path) }
{
    match act {
        Act::Na(amount) => push_field(alloc, members, "na", Value::from(amount.get())),
        Act::Si(_, text) => push_text_field(alloc, members, "si", text.as_str()),
        Act::Sd(_, text) => push_text_field(alloc, members, "sd", text.as_str()),
        Act::Li(_, new) => push_value_field(alloc, members, "li", new),
        Act::Ld(_, old) => push_value_field(alloc, members, "ld", old),
        Act::Lr(_, old, new) => {
            push_value_field(alloc, members, "ld", old)?;
            push_value_field(alloc, members, "li", new)
        }
        Act::Oi(_, new) => push_value_field(alloc, members, "oi", new),
        Act::Od(_, old) => push_value_field(alloc, members, "od", old),
        Act::Or(_, old, new) => {
            push_value_field(alloc, members, "od", old)?;
            push_value_field(alloc, members, "oi", new)
        }
    }
}

fn push_value_field(
    alloc: Global,
    members: &mut Map<String, Value>,
    key: &str,
    value: &Json,
) -> Result<(), AllocError>
    ensures { OnOk result (members_view members.new.entries
        ≡ put key.now (data_of_value (value_of value.now)) (members_view members.old.entries)) }
{
    push_field(alloc, members, key, to_value(alloc, value)?)
}

fn push_text_field(
    alloc: Global,
    members: &mut Map<String, Value>,
    key: &str,
    text: &str,
) -> Result<(), AllocError>
    ensures { OnOk result (members_view members.new.entries
        ≡ put key.now (string text.now) (members_view members.old.entries)) }
{
    push_field(
        alloc,
        members,
        key,
        Value::String(String::from_str(alloc, text)?),
    )
}

fn push_field(
    alloc: Global,
    members: &mut Map<String, Value>,
    key: &str,
    value: Value,
) -> Result<(), AllocError>
    ensures { OnOk result (members_view members.new.entries
        ≡ put key.now (data_view value) (members_view members.old.entries)) }
{
    let name = String::from_str(alloc, key)?;
    drop(members.insert(name, value)?);
    Ok(())
}

fn path_value(alloc: Global, component: &Component) -> Result<Value, AllocError>
    ensures { IfOk result (λ v. data_view v ≡ path_data (full_path component.now.path component.now.act)) }
{
    Ok(Value::Array(path_values(alloc, component)?))
}

#[tactic(auto, using(crate::proofs::PrintLemmas::path_joined))]
fn path_values(alloc: Global, component: &Component) -> Result<Vec<Value>, AllocError>
    ensures { IfOk result (λ v. items_view v.items ≡ path_items (full_path component.now.path component.now.act)) }
{
    let mut items = step_values(alloc, component.path())?;
    push_option(&mut items, last_value(component.act())?)?;
    Ok(items)
}

fn step_values(alloc: Global, path: &[Step]) -> Result<Vec<Value>, AllocError>
    ensures { IfOk result (λ v. items_view v.items ≡ path_items (plain_path path.now)) }
{
    let mut items = Vec::new(alloc);
    for step in path {
        items.push(step_value(step)?)?;
    }
    Ok(items)
}

fn step_value(step: &Step) -> Result<Value, AllocError>
    ensures { IfOk result (λ v. data_view v ≡ step_data (plain_step step.now)) }
{
    match step {
        Step::Key(key) => Ok(Value::String(key.clone()?)),
        Step::Index(index) => Ok(Value::from(*index)),
    }
}

fn last_value(act: &Act) -> Result<Option<Value>, AllocError>
    ensures { IfOk result (λ v. items_view (option_to_list v) ≡ path_items (last_step (plain_act act.now))) }
{
    match act {
        Act::Na(_) => Ok(None),
        Act::Si(at, _) | Act::Sd(at, _) => Ok(Some(Value::from(*at))),
        Act::Li(at, _) | Act::Ld(at, _) | Act::Lr(at, _, _) => Ok(Some(Value::from(*at))),
        Act::Oi(key, _) | Act::Od(key, _) | Act::Or(key, _, _) => {
            Ok(Some(Value::String(key.clone()?)))
        }
    }
}
