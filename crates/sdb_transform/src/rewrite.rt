//! Rewrites of components, each with what the classification found.
ghost use Rattle.std.specs.Prelude.{◌≡◌, ◌<◌, map, set, length, option_map, IfOk, IfErr};
ghost use Rattle.sdb_component.specs.View.{plain_act, arc_json_value};
ghost use Rattle.std.specs.Option.{option_map_or};
ghost use Rattle.sdb_value.specs.Value.{index};
ghost use Rattle.sdb_transform.specs.Classification.{IsRewrite, IsInnerCut, IsTextRange};
ghost use Rattle.sdb_transform.specs.Classification.{rewrite_component, split_text, reduce_text, overwrite_value, new_value, insert_value, transformed_components};
ghost use Rattle.sdb_transform.specs.Transform.{component_at};
ghost use Rattle.sdb_transform.specs.declared.side.Fault.TheVariants.{OutOfMemory};

use crate::component_list::Transformed;
use crate::removed_value::update_removed;
use crate::side::Fault;
use sdb_component::{Act, Component, NonEmptyText, Path};
use sdb_value::{Json, Step};
use std::alloc::{AllocError, Global};
use std::sync::Arc;

// What changes besides the act's own offset or index.
#[derive(Drop)]
pub(crate) enum Rewrite {
    // The path's step in the other's container becomes this index.
    MovedStep(u64),
    // The other one is applied to the removed value.
    UpdatedValue,
    // The text is cut before this byte, and the rest is deleted at this offset.
    SplitDelete(usize, u64),
    // The text loses the bytes from one position up to another, and is deleted at this offset.
    ReducedDelete(u64, usize, usize),
    // The other's new value is replaced.
    OverwrittenValue,
    // No value is replaced, since the other one removed it.
    InsertedValue,
}

// Makes a rewrite.
pub(crate) fn rewrite_component(
    alloc: Global,
    component: Component,
    other: &Component,
    rewrite: Rewrite,
) -> Result<Transformed, Fault>
    requires { IsRewrite rewrite component other.now }
    ensures ok { IfOk result (λ t. transformed_components t
        ≡ rewrite_component rewrite component other.now) }
    ensures err { IfErr result (λ f. f ≡ OutOfMemory) }
{
    let (path, act) = component.into_parts();
    match rewrite {
        Rewrite::MovedStep(index) => {
            let path = move_step(alloc, path, other.path().len(), index)?;
            Ok(Transformed::One(Component::new(path, act)))
        }
        Rewrite::UpdatedValue => {
            let rest = &other.path()[path.steps().len() + 1..];
            let act = update_removed(alloc, act, rest, other.act())?;
            Ok(Transformed::One(Component::new(path, act)))
        }
        Rewrite::SplitDelete(at, offset) => split_text(alloc, path, act, at, offset),
        Rewrite::ReducedDelete(offset, start, end) => {
            reduce_text(alloc, path, act, offset, start, end)
        }
        Rewrite::OverwrittenValue => {
            let act = overwrite_value(act, other.act())?;
            Ok(Transformed::One(Component::new(path, act)))
        }
        Rewrite::InsertedValue => Ok(Transformed::One(Component::new(path, insert_value(act)))),
    }
}

fn move_step(alloc: Global, path: Path, at: usize, to: u64) -> Result<Path, AllocError>
    requires { at < length path }
    ensures { IfOk result (λ p. p ≡ set path at (index to)) }
{
    let mut steps = path.into_steps(alloc)?;
    steps[at] = Step::Index(to);
    Path::new(alloc, steps)
}

// Splits a deletion.
fn split_text(
    alloc: Global,
    path: Path,
    act: Act,
    at: usize,
    offset: u64,
) -> Result<Transformed, Fault>
    requires { IsInnerCut (plain_act act) at }
    ensures ok { IfOk result (λ t. transformed_components t
        ≡ map (component_at path) (split_text (plain_act act) at offset)) }
    ensures err { IfErr result (λ f. f ≡ OutOfMemory) }
{
    let (start, text) = match act {
        Act::Sd(start, text) => (start, text),
        act => return Ok(Transformed::One(Component::new(path, act))),
    };
    let mut first = text.into_string();
    let rest = first.split_off(at)?;
    let (Some(first), Some(rest)) = (NonEmptyText::new(first), NonEmptyText::new(rest)) else {
        unreachable!();
    };
    let copy = path.try_clone()?;
    let mut components = Vec::with_capacity(alloc, 2)?;
    components.push(Component::new(path, Act::Sd(start, first)))?;
    components.push(Component::new(copy, Act::Sd(offset, rest)))?;
    Ok(Transformed::Many(components))
}

// Removes a range from the text of a deletion.
fn reduce_text(
    alloc: Global,
    path: Path,
    act: Act,
    offset: u64,
    start: usize,
    end: usize,
) -> Result<Transformed, Fault>
    requires { IsTextRange (plain_act act) start end }
    ensures ok { IfOk result (λ t. transformed_components t
        ≡ map (component_at path) (reduce_text (plain_act act) offset start end)) }
    ensures err { IfErr result (λ f. f ≡ OutOfMemory) }
{
    let text = match act {
        Act::Sd(_, text) => text,
        act => return Ok(Transformed::One(Component::new(path, act))),
    };
    let mut text = text.into_string();
    text.replace_range(start..end, "")?;
    match NonEmptyText::new(text) {
        Some(text) => Ok(Transformed::One(Component::new(path, Act::Sd(offset, text)))),
        None => Ok(Transformed::Many(Vec::new(alloc))),
    }
}

// Returns the act that replaces the other's new value.
fn overwrite_value(act: Act, other: &Act) -> Result<Act, AllocError>
    ensures { IfOk result (λ a. plain_act a
        ≡ option_map_or (overwrite_value (plain_act act)) (new_value (plain_act other.now)) (plain_act act)) }
{
    let Some(old) = new_value(other) else {
        return Ok(act);
    };
    let old = Arc::try_clone(old)?;
    match act {
        Act::Lr(index, _, new) => Ok(Act::Lr(index, old, new)),
        Act::Oi(key, new) => Ok(Act::Or(key, old, new)),
        Act::Or(key, _, new) => Ok(Act::Or(key, old, new)),
        act => Ok(act),
    }
}

// Returns the value that an act sets.
fn new_value(act: &Act) -> Option<&Arc<Json>>
    ensures { option_map (λ new. arc_json_value new.now) result ≡ new_value (plain_act act.now) }
{
    match act {
        Act::Lr(_, _, new) | Act::Oi(_, new) | Act::Or(_, _, new) => Some(new),
        _ => None,
    }
}

// Returns the act that inserts its new value and replaces none.
fn insert_value(act: Act) -> Act
    ensures { plain_act result ≡ insert_value (plain_act act) }
{
    match act {
        Act::Lr(index, _, new) => Act::Li(index, new),
        Act::Or(key, _, new) => Act::Oi(key, new),
        act => act,
    }
}
