//! The writer of operations.
ghost use Rattle.std.specs.Arc.{arc_value};
ghost use Rattle.std.specs.Prelude.{◌≡◌, ◌∷◌, [], ◌++◌, OnOk, OnErr};
ghost use Rattle.json.specs.Token.{key};
ghost use Rattle.json.specs.Written.{WritesFront};
ghost use Rattle.sdb_value.specs.ToJson.{array_tail_tokens, data_tokens, object_tail_tokens};
ghost use Rattle.sdb_value.specs.FromJson.{data_of_value};
ghost use Rattle.sdb_value.specs.View.{plain_step, value_of};
ghost use Rattle.serde_json.specs.Data.{no_items, no_members, Members};
ghost use Rattle.sdb_component.specs.ToJson.{component_data, op_data, step_data};
ghost use Rattle.sdb_component.specs.ToJson.{last_step, path_data, path_items, full_path};
ghost use Rattle.sdb_component.specs.View.{plain_act};
ghost use Rattle.sdb_component.specs.Write.{members_before_path, members_after_path};

use crate::component::{Act, Component};
use crate::operation::Op;
use json::Writer;
use sdb_value::{Json, Step, write_value};
use std::alloc::AllocError;
use std::sync::Arc;

/// Writes an operation as compact JSON, as [`op_value`](crate::op_value) has it.
///
/// # Errors
///
/// [`AllocError`] if an allocation fails. A prefix of the tokens may then be written.
pub fn write_op(op: &Op, out: &mut Writer) -> Result<(), AllocError>
    ensures tokens { OnOk result (out.new.tokens ≡ out.old.tokens ++ data_tokens (op_data op.now)) }
    ensures before_unchanged { out.new.before ≡ out.old.before }
    ensures err { OnErr result (WritesFront out.old.tokens out.new.tokens (data_tokens (op_data op.now))) }
{
    out.begin_array()?;
    for component in op.components() {
        write_component(component, out)?;
    }
    out.end_array()
}

fn write_component(component: &Component, out: &mut Writer) -> Result<(), AllocError>
    ensures tokens { OnOk result (out.new.tokens ≡ out.old.tokens ++ data_tokens (component_data component.now)) }
    ensures before_unchanged { out.new.before ≡ out.old.before }
    ensures err { OnErr result (WritesFront out.old.tokens out.new.tokens
        (data_tokens (component_data component.now))) }
{
    out.begin_object()?;
    write_values(component.act(), out)?;
    out.key("p")?;
    write_path(component, out)?;
    write_text(component.act(), out)?;
    out.end_object()
}

// Writes the amount, or the removed and inserted values.
fn write_values(act: &Act, out: &mut Writer) -> Result<(), AllocError>
    ensures tokens { OnOk result ((rest : Members) → out.new.tokens ++ object_tail_tokens rest
        ≡ out.old.tokens ++ object_tail_tokens (members_before_path (plain_act act.now) rest)) }
    ensures before_unchanged { out.new.before ≡ out.old.before }
    ensures err { OnErr result ((rest : Members) → WritesFront out.old.tokens out.new.tokens
        (object_tail_tokens (members_before_path (plain_act act.now) rest))) }
{
    match act {
        Act::Na(amount) => {
            out.key("na")?;
            out.i64(amount.get())
        }
        Act::Si(_, _) | Act::Sd(_, _) => Ok(()),
        Act::Li(_, new) => write_member("li", new, out),
        Act::Ld(_, old) => write_member("ld", old, out),
        Act::Lr(_, old, new) => {
            write_member("ld", old, out)?;
            write_member("li", new, out)
        }
        Act::Oi(_, new) => write_member("oi", new, out),
        Act::Od(_, old) => write_member("od", old, out),
        Act::Or(_, old, new) => {
            write_member("od", old, out)?;
            write_member("oi", new, out)
        }
    }
}

fn write_member(name: &str, value: &Arc<Json>, out: &mut Writer) -> Result<(), AllocError>
    ensures tokens { OnOk result (out.new.tokens
        ≡ out.old.tokens ++ key name.now ∷ data_tokens (data_of_value (value_of (arc_value value.now)))) }
    ensures before_unchanged { out.new.before ≡ out.old.before }
    ensures err { OnErr result (WritesFront out.old.tokens out.new.tokens
        (key name.now ∷ data_tokens (data_of_value (value_of (arc_value value.now))))) }
{
    out.key(name)?;
    write_value(value, out)
}

// Writes the inserted or deleted text.
fn write_text(act: &Act, out: &mut Writer) -> Result<(), AllocError>
    ensures tokens { OnOk result (out.new.tokens ++ object_tail_tokens no_members
        ≡ out.old.tokens ++ object_tail_tokens (members_after_path (plain_act act.now))) }
    ensures before_unchanged { out.new.before ≡ out.old.before }
    ensures err { OnErr result (WritesFront out.old.tokens out.new.tokens
        (object_tail_tokens (members_after_path (plain_act act.now)))) }
{
    match act {
        Act::Si(_, text) => {
            out.key("si")?;
            out.string(text.as_str())
        }
        Act::Sd(_, text) => {
            out.key("sd")?;
            out.string(text.as_str())
        }
        _ => Ok(()),
    }
}

fn write_path(component: &Component, out: &mut Writer) -> Result<(), AllocError>
    ensures tokens { OnOk result (out.new.tokens
        ≡ out.old.tokens ++ data_tokens (path_data (full_path component.now.path component.now.act))) }
    ensures before_unchanged { out.new.before ≡ out.old.before }
    ensures err { OnErr result (WritesFront out.old.tokens out.new.tokens
        (data_tokens (path_data (full_path component.now.path component.now.act)))) }
{
    out.begin_array()?;
    for step in component.path() {
        write_step(step, out)?;
    }
    write_last(component.act(), out)?;
    out.end_array()
}

fn write_step(step: &Step, out: &mut Writer) -> Result<(), AllocError>
    ensures tokens { OnOk result (out.new.tokens ≡ out.old.tokens ++ data_tokens (step_data (plain_step step.now))) }
    ensures before_unchanged { out.new.before ≡ out.old.before }
    ensures err { OnErr result (WritesFront out.old.tokens out.new.tokens
        (data_tokens (step_data (plain_step step.now)))) }
{
    match step {
        Step::Key(name) => out.string(name.as_str()),
        Step::Index(index) => out.u64(*index),
    }
}

// Writes the last step of the path, if the act has one.
fn write_last(act: &Act, out: &mut Writer) -> Result<(), AllocError>
    ensures tokens { OnOk result (out.new.tokens ++ array_tail_tokens no_items
        ≡ out.old.tokens ++ array_tail_tokens (path_items (last_step (plain_act act.now)))) }
    ensures before_unchanged { out.new.before ≡ out.old.before }
    ensures err { OnErr result (WritesFront out.old.tokens out.new.tokens
        (array_tail_tokens (path_items (last_step (plain_act act.now))))) }
{
    match act {
        Act::Na(_) => Ok(()),
        Act::Si(at, _) | Act::Sd(at, _) => out.u64(*at),
        Act::Li(at, _) | Act::Ld(at, _) | Act::Lr(at, _, _) => out.u64(*at),
        Act::Oi(name, _) | Act::Od(name, _) | Act::Or(name, _, _) => out.string(name.as_str()),
    }
}
