//! The parser of each shape.
ghost use Rattle.std.specs.Prelude.{◌≡◌, Some, IfOk, IfErr, option_to_list};
ghost use Rattle.sdb_component.specs.FromJson.{FaultMeansNone, components_of_kind};
ghost use Rattle.sdb_value.specs.View.{plain_path};

use crate::act_kind::ActKind;
use crate::component::{Act, Component};
use crate::fields::{frozen_value_field, text_field, value_field, whole_field};
use crate::from_json::OpFault;
use crate::non_empty_text::NonEmptyText;
use crate::path::Path;
use crate::path_json::{split_last_index, split_last_key};
use sdb_json::JsonData;
use sdb_value::Step;
use std::alloc::Global;

// Parses a component of the shape, or returns `None` if its text is empty.
pub(crate) fn component_of_kind<D: JsonData>(
    alloc: Global,
    shape: ActKind,
    path: Vec<Step>,
    value: &D,
) -> Result<Option<Component>, OpFault>
    ensures ok { IfOk result (λ c. components_of_kind shape (plain_path path.items) (D.json value.now)
        ≡ Some (option_to_list c)) }
    ensures err { IfErr result (λ f. FaultMeansNone (components_of_kind shape (plain_path path.items)
        (D.json value.now)) f) }
{
    match shape {
        ActKind::Na => read_na(alloc, path, value),
        ActKind::Si => read_si(alloc, path, value),
        ActKind::Sd => read_sd(alloc, path, value),
        ActKind::Li => read_li(alloc, path, value),
        ActKind::Ld => read_ld(alloc, path, value),
        ActKind::Lr => read_lr(alloc, path, value),
        ActKind::Oi => read_oi(alloc, path, value),
        ActKind::Od => read_od(alloc, path, value),
        ActKind::Or => read_or(alloc, path, value),
    }
}

fn read_na<D: JsonData>(
    alloc: Global,
    path: Vec<Step>,
    value: &D,
) -> Result<Option<Component>, OpFault>
    ensures ok { IfOk result (λ c. components_of_kind ActKind.Na (plain_path path.items) (D.json value.now)
        ≡ Some (option_to_list c)) }
    ensures err { IfErr result (λ f. FaultMeansNone (components_of_kind ActKind.Na (plain_path path.items)
        (D.json value.now)) f) }
{
    match whole_field(value, "na") {
        Some(amount) => Ok(Some(Component::new(Path::new(alloc, path)?, Act::Na(amount)))),
        None => Err(OpFault::BadlyFormed),
    }
}

fn read_si<D: JsonData>(
    alloc: Global,
    path: Vec<Step>,
    value: &D,
) -> Result<Option<Component>, OpFault>
    ensures ok { IfOk result (λ c. components_of_kind ActKind.Si (plain_path path.items) (D.json value.now)
        ≡ Some (option_to_list c)) }
    ensures err { IfErr result (λ f. FaultMeansNone (components_of_kind ActKind.Si (plain_path path.items)
        (D.json value.now)) f) }
{
    let (container, offset) = split_last_index(alloc, path)?;
    let text = text_field(alloc, value, "si")?;
    match NonEmptyText::new(text) {
        Some(piece) => Ok(Some(Component::new(container, Act::Si(offset, piece)))),
        None => Ok(None),
    }
}

fn read_sd<D: JsonData>(
    alloc: Global,
    path: Vec<Step>,
    value: &D,
) -> Result<Option<Component>, OpFault>
    ensures ok { IfOk result (λ c. components_of_kind ActKind.Sd (plain_path path.items) (D.json value.now)
        ≡ Some (option_to_list c)) }
    ensures err { IfErr result (λ f. FaultMeansNone (components_of_kind ActKind.Sd (plain_path path.items)
        (D.json value.now)) f) }
{
    let (container, offset) = split_last_index(alloc, path)?;
    let text = text_field(alloc, value, "sd")?;
    match NonEmptyText::new(text) {
        Some(piece) => Ok(Some(Component::new(container, Act::Sd(offset, piece)))),
        None => Ok(None),
    }
}

fn read_li<D: JsonData>(
    alloc: Global,
    path: Vec<Step>,
    value: &D,
) -> Result<Option<Component>, OpFault>
    ensures ok { IfOk result (λ c. components_of_kind ActKind.Li (plain_path path.items) (D.json value.now)
        ≡ Some (option_to_list c)) }
    ensures err { IfErr result (λ f. FaultMeansNone (components_of_kind ActKind.Li (plain_path path.items)
        (D.json value.now)) f) }
{
    let (container, index) = split_last_index(alloc, path)?;
    let new = frozen_value_field(alloc, value, "li")?;
    Ok(Some(Component::new(container, Act::Li(index, new))))
}

fn read_ld<D: JsonData>(
    alloc: Global,
    path: Vec<Step>,
    value: &D,
) -> Result<Option<Component>, OpFault>
    ensures ok { IfOk result (λ c. components_of_kind ActKind.Ld (plain_path path.items) (D.json value.now)
        ≡ Some (option_to_list c)) }
    ensures err { IfErr result (λ f. FaultMeansNone (components_of_kind ActKind.Ld (plain_path path.items)
        (D.json value.now)) f) }
{
    let (container, index) = split_last_index(alloc, path)?;
    let old = value_field(alloc, value, "ld")?;
    Ok(Some(Component::new(container, Act::Ld(index, old))))
}

fn read_lr<D: JsonData>(
    alloc: Global,
    path: Vec<Step>,
    value: &D,
) -> Result<Option<Component>, OpFault>
    ensures ok { IfOk result (λ c. components_of_kind ActKind.Lr (plain_path path.items) (D.json value.now)
        ≡ Some (option_to_list c)) }
    ensures err { IfErr result (λ f. FaultMeansNone (components_of_kind ActKind.Lr (plain_path path.items)
        (D.json value.now)) f) }
{
    let (container, index) = split_last_index(alloc, path)?;
    let old = value_field(alloc, value, "ld")?;
    let new = frozen_value_field(alloc, value, "li")?;
    Ok(Some(Component::new(container, Act::Lr(index, old, new))))
}

fn read_oi<D: JsonData>(
    alloc: Global,
    path: Vec<Step>,
    value: &D,
) -> Result<Option<Component>, OpFault>
    ensures ok { IfOk result (λ c. components_of_kind ActKind.Oi (plain_path path.items) (D.json value.now)
        ≡ Some (option_to_list c)) }
    ensures err { IfErr result (λ f. FaultMeansNone (components_of_kind ActKind.Oi (plain_path path.items)
        (D.json value.now)) f) }
{
    let (container, key) = split_last_key(alloc, path)?;
    let new = frozen_value_field(alloc, value, "oi")?;
    Ok(Some(Component::new(container, Act::Oi(key, new))))
}

fn read_od<D: JsonData>(
    alloc: Global,
    path: Vec<Step>,
    value: &D,
) -> Result<Option<Component>, OpFault>
    ensures ok { IfOk result (λ c. components_of_kind ActKind.Od (plain_path path.items) (D.json value.now)
        ≡ Some (option_to_list c)) }
    ensures err { IfErr result (λ f. FaultMeansNone (components_of_kind ActKind.Od (plain_path path.items)
        (D.json value.now)) f) }
{
    let (container, key) = split_last_key(alloc, path)?;
    let old = value_field(alloc, value, "od")?;
    Ok(Some(Component::new(container, Act::Od(key, old))))
}

fn read_or<D: JsonData>(
    alloc: Global,
    path: Vec<Step>,
    value: &D,
) -> Result<Option<Component>, OpFault>
    ensures ok { IfOk result (λ c. components_of_kind ActKind.Or (plain_path path.items) (D.json value.now)
        ≡ Some (option_to_list c)) }
    ensures err { IfErr result (λ f. FaultMeansNone (components_of_kind ActKind.Or (plain_path path.items)
        (D.json value.now)) f) }
{
    let (container, key) = split_last_key(alloc, path)?;
    let old = value_field(alloc, value, "od")?;
    let new = frozen_value_field(alloc, value, "oi")?;
    Ok(Some(Component::new(container, Act::Or(key, old, new))))
}
