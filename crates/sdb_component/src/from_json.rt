//! The parser of operations.
ghost use Rattle.std.specs.Prelude.{◌≡◌, ◌∷◌, [], map, true, Err, IfOk, IfErr, Some, option_to_list};
ghost use Rattle.serde_json.specs.View.{items_of};
ghost use Rattle.sdb_component.specs.FromJson.{component_of, components_of, op_of, component_allocates, op_allocates, FaultMeansNone};
ghost use Rattle.sdb_component.specs.declared.from_json.OpFault.TheVariants.{OutOfMemory as no_memory};

use crate::act_kind::act_kind_of;
use crate::component::Component;
use crate::from_act_kind::component_of_kind;
use crate::operation::Op;
use crate::path_json::path_of;
use crate::push_option::push_option;
use sdb_json::JsonData;
use std::alloc::{AllocError, Global};
use thiserror::Error;

/// The reason why a JSON value is no operation.
#[derive(Debug, Drop, Error)]
pub enum OpFault {
    /// A component has none of the nine shapes, or exceeds a limit.
    #[error("operation is badly formed")]
    BadlyFormed,
    /// An allocation failed.
    #[error("out of memory")]
    OutOfMemory,
}

impl From<AllocError> for OpFault {
    ghost use Rattle.sdb_component.specs.declared.from_json.OpFault.TheVariants.{OutOfMemory};

    ghost from_gives = { λ _ f. f ≡ OutOfMemory };

    fn from(_error: AllocError) -> OpFault {
        OpFault::OutOfMemory
    }
}

/// Parses the operation of a JSON value: an array of at most 256 components. Each is an object with
/// a path `p` of at most 50 steps and the members of exactly one of the nine shapes. Other members
/// are ignored, except `lm`, `t` and `o`, which are refused.
///
/// - A step is a text or an integer from 0 to 9007199254740991.
/// - The number of `na` is an integer of at most 9007199254740991 in size, as is each number in a
///   value.
/// - A value has at most depth 50.
/// - An insert or delete of an empty text is checked, counts as a component, and is then dropped.
///
/// # Errors
///
/// [`OpFault::BadlyFormed`] if the value is no such array, [`OpFault::OutOfMemory`] if an
/// allocation fails. A value that is no array, an array of more than 256 items, and a single
/// component without a shape or with more than 50 steps are refused without an allocation.
#[tactic(auto, using(crate::proofs::SizeLemmas::view_size))]
pub fn read_op<D: JsonData>(alloc: Global, value: &D) -> Result<Op, OpFault>
    ensures ok { IfOk result (λ o. op_of (D.json value.now) ≡ Some o) }
    ensures err { IfErr result (λ f. FaultMeansNone (op_of (D.json value.now)) f) }
    ensures memory { result ≡ Err no_memory → op_allocates (D.json value.now) ≡ true }
{
    let Some(items) = value.as_array() else {
        return Err(OpFault::BadlyFormed);
    };
    if items.len() > 256 {
        return Err(OpFault::BadlyFormed);
    }
    if items.len() == 1 {
        return single_component(alloc, &items[0]);
    }
    Ok(Op::new(components_of(alloc, items)?))
}

// Returns the operation of one component, or the empty one if it is dropped.
fn single_component<D: JsonData>(alloc: Global, item: &D) -> Result<Op, OpFault>
    ensures ok { IfOk result (λ o. components_of (items_of (D.json item.now ∷ [])) ≡ Some o) }
    ensures err { IfErr result (λ f. FaultMeansNone (components_of (items_of (D.json item.now ∷ []))) f) }
    ensures memory { result ≡ Err no_memory → component_allocates (D.json item.now) ≡ true }
{
    match component_of(alloc, item)? {
        Some(component) => Ok(Op::one(component)),
        None => Ok(Op::new(Vec::new(alloc))),
    }
}

fn components_of<D: JsonData>(alloc: Global, items: &[D]) -> Result<Vec<Component>, OpFault>
    ensures ok { IfOk result (λ cs. components_of (items_of (map D.json items.now)) ≡ Some cs.items) }
    ensures err { IfErr result (λ f. FaultMeansNone (components_of (items_of (map D.json items.now))) f) }
{
    let mut components = Vec::with_capacity(alloc, items.len())?;
    for item in items {
        let component = component_of(alloc, item)?;
        push_option(&mut components, component)?;
    }
    Ok(components)
}

// Parses a component, or returns `None` if it is dropped.
fn component_of<D: JsonData>(alloc: Global, value: &D) -> Result<Option<Component>, OpFault>
    ensures ok { IfOk result (λ c. component_of (D.json value.now) ≡ Some (option_to_list c)) }
    ensures err { IfErr result (λ f. FaultMeansNone (component_of (D.json value.now)) f) }
    ensures memory { result ≡ Err no_memory → component_allocates (D.json value.now) ≡ true }
{
    let Some(shape) = act_kind_of(value) else {
        return Err(OpFault::BadlyFormed);
    };
    let Some(sent) = value.get("p") else {
        return Err(OpFault::BadlyFormed);
    };
    let path = path_of(alloc, sent)?;
    component_of_kind(alloc, shape, path, value)
}
