//! Tests of `sdb_value_text`: the text of a value in parts.
use crate::helpers::{json, with_repeated};
use sdb_value::Json;
use sdb_value_text::ValueText;
use std::alloc::Global;
use std::process::Abort;

// Returns the text of lists nested to this depth, each with a text of 2,048 bytes before the next.
fn nested_texts(rt: &impl Abort, alloc: Global, depth: u64) -> String {
    let begun = with_repeated(rt, alloc, "[\"", "a", 2_048);
    let list = with_repeated(rt, alloc, begun.as_str(), "\",", 1);
    let opened = with_repeated(rt, alloc, "", list.as_str(), depth);
    let inner = with_repeated(rt, alloc, opened.as_str(), "[]", 1);
    with_repeated(rt, alloc, inner.as_str(), "]", depth)
}

// Appends the text in parts of this limit. Returns whether the end was reported.
fn write_parts(
    rt: &impl Abort,
    alloc: Global,
    value: &Json,
    limit: usize,
    out: &mut Vec<u8>,
) -> bool {
    let mut text = ValueText::new(alloc, value).expect(rt, "out of memory");
    for _ in 0..1_000 {
        if text
            .write_part(alloc, out, limit)
            .expect(rt, "out of memory")
        {
            return true;
        }
    }
    false
}

#[test]
fn a_deep_value_is_written_in_parts(rt: HostRuntime) {
    let alloc = rt.alloc();
    let wanted = nested_texts(&rt, alloc, 40);
    let value = json(&rt, alloc, wanted.as_str());
    let mut out = Vec::new(alloc);
    assert!(rt; write_parts(&rt, alloc, &value, 4_096, &mut out));
    assert!(rt; out.as_slice() == wanted.as_str().as_bytes());
}

#[test]
fn a_part_reaches_its_limit(rt: HostRuntime) {
    let alloc = rt.alloc();
    let value = json(&rt, alloc, nested_texts(&rt, alloc, 40).as_str());
    let mut text = ValueText::new(alloc, &value).expect(&rt, "out of memory");
    let mut out = Vec::new(alloc);
    let is_end = text
        .write_part(alloc, &mut out, 65_536)
        .expect(&rt, "out of memory");
    assert!(rt; !is_end && out.len() >= 65_536);
}
