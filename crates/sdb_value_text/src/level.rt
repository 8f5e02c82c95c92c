//! What is left of one level of a value.
ghost use Rattle.std.specs.Prelude.{◌≡◌, ◌≢◌, ◌<◌, ◌++◌, [], length, suc, slice_get, Some, IfOk, IfSome, OnOk};
ghost use Rattle.sdb_value.specs.View.{list_value, object_value, value_of};
ghost use Rattle.sdb_rope.specs.Rope.{rope_texts};
ghost use Rattle.sdb_value_text.specs.Level.{HasText, NextHasText, inside_text, level_text, list_text, next_text, object_text, opened_text, string_text};
ghost use Rattle.sdb_value_text.specs.ValueText.{value_text};

use crate::append::{append_comma, append_escaped, append_key, append_value};
use sdb_value::{Json, List, Members, Rope};
use std::alloc::{AllocError, Global};

// Size from which a value is written in parts.
const LARGE_SIZE: u64 = 1_024;

/// A value, or the rest of a list, object or text from an index on.
#[derive(Drop)]
pub enum Level {
    /// A value that isn't begun.
    Whole(Json),
    /// The items of a list, or the members of an object, from an index on, and the closing byte.
    Inside(Json, usize),
    /// The chunks of a text from an index on, and the closing quote.
    Text(Rope, usize),
}

/// What follows an appended piece of a list or object.
#[derive(Drop)]
pub enum Next {
    /// The list or object has ended.
    End,
    /// The rest of an item or member, if it was only begun, and then those after it.
    Inner(Option<Level>),
}

/// What is left of a level: first a value in it that was begun, then its own rest.
#[derive(Drop)]
pub struct Rest {
    pub(crate) own: Option<Level>,
    pub(crate) inner: Option<Level>,
}

impl Level {
    /// Appends the next piece of the text.
    pub(crate) fn write_piece(self, alloc: Global, out: &mut Vec<u8>) -> Result<Rest, AllocError>
        requires { HasText self }
        ensures text { IfOk result (λ r. out.new.items ++ (opened_text r.inner ++ opened_text r.own)
            ≡ out.old.items ++ level_text self) }
        ensures longer { OnOk result (length out.old.items < length out.new.items) }
        ensures own_has_text { IfOk result (λ r. IfSome r.own HasText) }
        ensures inner_has_text { IfOk result (λ r. IfSome r.inner HasText) }
    {
        match self {
            Level::Whole(value) => {
                let inner = begin_value(alloc, &value, out)?;
                Ok(Rest { own: None, inner })
            }
            Level::Inside(value, index) => write_inside(alloc, value, index, out),
            Level::Text(text, index) => {
                let own = write_chunk(alloc, text, index, out)?;
                Ok(Rest { own, inner: None })
            }
        }
    }
}

// Appends a small value. Of a large one it appends the first byte, and returns what is left.
#[tactic(auto, using(sdb_value::proofs::WeightLemmas::levels))]
fn begin_value(alloc: Global, value: &Json, out: &mut Vec<u8>) -> Result<Option<Level>, AllocError>
    ensures text { IfOk result (λ rest. out.new.items ++ opened_text rest
        ≡ out.old.items ++ value_text (value_of value.now)) }
    ensures longer { OnOk result (length out.old.items < length out.new.items) }
    ensures has_text { IfOk result (λ rest. IfSome rest HasText) }
{
    if value.size(LARGE_SIZE) < LARGE_SIZE {
        append_value(alloc, value, out)?;
        return Ok(None);
    }
    match value {
        Json::Text(text) => {
            out.push(b'"')?;
            Ok(Some(Level::Text(text.frozen_clone(alloc)?, 0)))
        }
        Json::List(_) => {
            out.push(b'[')?;
            Ok(Some(Level::Inside(value.frozen_clone(alloc)?, 0)))
        }
        Json::Object(_) => {
            out.push(b'{')?;
            Ok(Some(Level::Inside(value.frozen_clone(alloc)?, 0)))
        }
        Json::Null | Json::Bool(_) | Json::Int(_) => {
            append_value(alloc, value, out)?;
            Ok(None)
        }
    }
}

fn write_inside(
    alloc: Global,
    value: Json,
    index: usize,
    out: &mut Vec<u8>,
) -> Result<Rest, AllocError>
    requires { 0 < length (inside_text (value_of value) index) }
    ensures text { IfOk result (λ r. out.new.items ++ (opened_text r.inner ++ opened_text r.own)
        ≡ out.old.items ++ inside_text (value_of value) index) }
    ensures longer { OnOk result (length out.old.items < length out.new.items) }
    ensures own_has_text { IfOk result (λ r. IfSome r.own HasText) }
    ensures inner_has_text { IfOk result (λ r. IfSome r.inner HasText) }
{
    let following = next_index(index)?;
    match write_next(alloc, &value, index, out)? {
        Next::End => Ok(Rest {
            own: None,
            inner: None,
        }),
        Next::Inner(inner) => Ok(Rest {
            own: Some(Level::Inside(value, following)),
            inner,
        }),
    }
}

// Appends the next piece of a list or an object.
#[tactic(auto, using(sdb_value::proofs::WeightLemmas::levels))]
fn write_next(
    alloc: Global,
    value: &Json,
    index: usize,
    out: &mut Vec<u8>,
) -> Result<Next, AllocError>
    requires { 0 < length (inside_text (value_of value.now) index) }
    ensures text { IfOk result (λ n. out.new.items ++ next_text n (inside_text (value_of value.now) (suc index))
        ≡ out.old.items ++ inside_text (value_of value.now) index) }
    ensures longer { OnOk result (length out.old.items < length out.new.items) }
    ensures has_text { IfOk result NextHasText }
{
    match value {
        Json::List(items) => write_item(alloc, items, index, out),
        Json::Object(members) => write_member(alloc, members, index, out),
        Json::Null | Json::Bool(_) | Json::Int(_) | Json::Text(_) => Ok(Next::End),
    }
}

// Appends the item at an index, or its begin. After the last one it appends the bracket.
fn write_item(
    alloc: Global,
    items: &List,
    index: usize,
    out: &mut Vec<u8>,
) -> Result<Next, AllocError>
    ensures text { IfOk result (λ n. out.new.items ++ next_text n (list_text (list_value items.now) (suc index))
        ≡ out.old.items ++ list_text (list_value items.now) index) }
    ensures longer { OnOk result (length out.old.items < length out.new.items) }
    ensures has_text { IfOk result NextHasText }
{
    let Some(item) = items.get(index) else {
        out.push(b']')?;
        return Ok(Next::End);
    };
    append_comma(index > 0, out)?;
    let inner = begin_value(alloc, item, out)?;
    Ok(Next::Inner(inner))
}

// Appends the member at an index, or its begin. After the last one it appends the brace.
fn write_member(
    alloc: Global,
    members: &Members,
    index: usize,
    out: &mut Vec<u8>,
) -> Result<Next, AllocError>
    ensures text { IfOk result (λ n. out.new.items ++ next_text n (object_text (object_value members.now) (suc index))
        ≡ out.old.items ++ object_text (object_value members.now) index) }
    ensures longer { OnOk result (length out.old.items < length out.new.items) }
    ensures has_text { IfOk result NextHasText }
{
    let Some(member) = members.chunks().get(index) else {
        out.push(b'}')?;
        return Ok(Next::End);
    };
    append_comma(index > 0, out)?;
    append_key(alloc, member.key.as_str(), out)?;
    let inner = begin_value(alloc, &member.value, out)?;
    Ok(Next::Inner(inner))
}

// Appends the first chunk from an index on that isn't empty. After the last one it appends the quote.
fn write_chunk(
    alloc: Global,
    text: Rope,
    index: usize,
    out: &mut Vec<u8>,
) -> Result<Option<Level>, AllocError>
    ensures text { IfOk result (λ rest. out.new.items ++ opened_text rest
        ≡ out.old.items ++ string_text (rope_texts text) index) }
    ensures longer { OnOk result (length out.old.items < length out.new.items) }
    ensures has_text { IfOk result (λ rest. IfSome rest HasText) }
{
    let index = skip_empty(&text, index)?;
    let Some(chunk) = text.chunk(index) else {
        out.push(b'"')?;
        return Ok(None);
    };
    append_escaped(alloc, chunk, out)?;
    let next = next_index(index)?;
    Ok(Some(Level::Text(text, next)))
}

// Returns the index of the first chunk from an index on that isn't empty, or one after the chunks.
fn skip_empty(text: &Rope, index: usize) -> Result<usize, AllocError>
    ensures text { IfOk result
        (λ n. string_text (rope_texts text.now) n ≡ string_text (rope_texts text.now) index) }
    ensures chunk { IfOk result (λ n. slice_get (rope_texts text.now) n ≢ Some []) }
{
    let mut at = index;
    while let Some(chunk) = text.chunk(at) {
        if !chunk.is_empty() {
            break;
        }
        at = next_index(at)?;
    }
    Ok(at)
}

// Returns the next index. A list of more items than can be counted is refused.
fn next_index(index: usize) -> Result<usize, AllocError>
    ensures { IfOk result (λ n. n ≡ suc index) }
{
    match index.checked_add(1) {
        Some(next) => Ok(next),
        None => Err(AllocError),
    }
}
