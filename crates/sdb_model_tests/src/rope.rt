//! Tests of ropes against strings.

use crate::helpers::{scatter, with_repeated};
use sdb_chunks::TryClone;
use sdb_rope::Rope;
use sdb_rope::utf16::{cut_at, units};
use std::alloc::Global;
use std::process::Abort;

// Characters of one, two, three and four bytes; the last one is two UTF-16 code units.
const CHARACTERS: &str = "aß…😀";

// Returns these characters, repeated.
fn repeated(rt: &impl Abort, alloc: Global, times: u64) -> String {
    with_repeated(rt, alloc, "", CHARACTERS, times)
}

// Returns a scattered offset, sometimes within a surrogate pair or after the end.
fn scattered_offset(step: u64, text: &str) -> u64 {
    scatter(step, units(text).saturating_add(3))
}

fn rope_of(rt: &impl Abort, alloc: Global, plain: &str) -> Rope {
    let plain = String::from_str(alloc, plain).expect(rt, "out of memory");
    Rope::new(alloc, plain).expect(rt, "out of memory")
}

// Inserts into the rope and the string, and returns whether both or neither changed.
fn insert_in_both(
    rt: &impl Abort,
    alloc: Global,
    text: &mut Rope,
    plain: &mut String,
    step: u64,
) -> bool {
    let new = repeated(rt, alloc, if step % 7 == 3 { 700 } else { 2 });
    let at = scattered_offset(step, plain.as_str());
    let done = text
        .insert(alloc, at, new.as_str())
        .expect(rt, "out of memory");
    let Some(byte) = cut_at(plain.as_str(), at) else {
        return !done;
    };
    plain
        .insert_str(byte, new.as_str())
        .expect(rt, "out of memory");
    done
}

// Returns the text of this offset and length in UTF-16 code units, or the empty text if they are
// invalid.
fn text_at<'a>(rt: &impl Abort, plain: &'a str, at: u64, count: u64) -> &'a str {
    match (cut_at(plain, at), cut_at(plain, at.saturating_add(count))) {
        (Some(from), Some(to)) => plain.get(from..to).expect(rt, "in order"),
        _ => "",
    }
}

// Returns the text without so many bytes from an index on.
fn without_bytes(rt: &impl Abort, alloc: Global, plain: &str, from: usize, len: usize) -> String {
    let prefix = plain.get(..from).expect(rt, "a cut");
    let suffix = plain.get(from.saturating_add(len)..).expect(rt, "a cut");
    with_repeated(rt, alloc, prefix, suffix, 1)
}

// Removes from the rope and the string, and returns whether both or neither changed.
fn remove_from_both(
    rt: &impl Abort,
    alloc: Global,
    text: &mut Rope,
    plain: &mut String,
    step: u64,
) -> bool {
    let at = scattered_offset(step, plain.as_str());
    let count = if step % 5 == 2 { 6_001 } else { 3 };
    remove_at(rt, alloc, text, plain, at, count)
}

fn remove_at(
    rt: &impl Abort,
    alloc: Global,
    text: &mut Rope,
    plain: &mut String,
    at: u64,
    count: u64,
) -> bool {
    let old = text_at(rt, plain.as_str(), at, count);
    let done = text.remove(alloc, at, old).expect(rt, "out of memory");
    let Some(byte) = cut_at(plain.as_str(), at) else {
        return !done;
    };
    *plain = without_bytes(rt, alloc, plain.as_str(), byte, old.len());
    done
}

fn is_equal(rt: &impl Abort, alloc: Global, text: &Rope, plain: &str) -> bool {
    let other = rope_of(rt, alloc, plain);
    let shown = text.to_string(alloc).expect(rt, "out of memory");
    shown.as_str() == plain && text.equals(&other) && other.equals(text)
}

fn change_both(rt: &impl Abort, alloc: Global, text: &mut Rope, plain: &mut String, steps: u64) {
    for step in 0..steps {
        let done = if step % 3 == 2 {
            remove_from_both(rt, alloc, text, plain, step)
        } else {
            insert_in_both(rt, alloc, text, plain, step)
        };
        assert!(rt; done && is_equal(rt, alloc, text, plain.as_str()), "{step}");
    }
}

#[test]
fn a_rope_of_many_chunks_equals_a_string(rt: HostRuntime) {
    let mut plain = repeated(&rt, rt.alloc(), 50);
    let mut text = rope_of(&rt, rt.alloc(), plain.as_str());
    assert!(rt; text.as_str() == Some(plain.as_str()));
    change_both(&rt, rt.alloc(), &mut text, &mut plain, 60);
    assert!(rt; text.as_str().is_none());
}

fn frozen_rope(rt: &impl Abort, alloc: Global) -> Rope {
    let plain = repeated(rt, alloc, 2_000);
    let text = rope_of(rt, alloc, plain.as_str());
    text.frozen_clone(alloc).expect(rt, "out of memory")
}

// Checks that a change of the text leaves the clone unchanged.
fn assert_clone_unchanged(rt: &impl Abort, alloc: Global, text: &mut Rope, clone: &Rope) {
    let before = clone.to_string(alloc).expect(rt, "out of memory");
    assert!(rt;
        text.insert(alloc, 3_000, "x").expect(rt, "out of memory")
            && text.remove(alloc, 0, "a").expect(rt, "out of memory")
            && is_equal(rt, alloc, clone, before.as_str())
            && !text.equals(clone)
    );
}

#[test]
fn changes_of_a_rope_leave_its_clone_unchanged(rt: HostRuntime) {
    let mut text = frozen_rope(&rt, rt.alloc());
    let clone = text.try_clone(rt.alloc()).expect(&rt, "out of memory");
    assert_clone_unchanged(&rt, rt.alloc(), &mut text, &clone);
}

// Returns a frozen text of so many chunks that they are in groups.
fn grouped_rope(rt: &impl Abort, alloc: Global) -> (Rope, String) {
    let plain = repeated(rt, alloc, 12_000);
    let mut text = rope_of(rt, alloc, plain.as_str());
    text.freeze(alloc).expect(rt, "out of memory");
    (text, plain)
}

#[test]
fn a_grouped_rope_equals_a_string(rt: HostRuntime) {
    let (mut text, mut plain) = grouped_rope(&rt, rt.alloc());
    change_both(&rt, rt.alloc(), &mut text, &mut plain, 12);
    assert!(rt; text.as_str().is_none());
}

// The removed text spans two groups.
#[test]
fn a_removal_spans_two_groups(rt: HostRuntime) {
    let (mut text, mut plain) = grouped_rope(&rt, rt.alloc());
    assert!(rt;
        remove_at(&rt, rt.alloc(), &mut text, &mut plain, 10_000, 20_000)
            && is_equal(&rt, rt.alloc(), &text, plain.as_str())
    );
    text.freeze(rt.alloc()).expect(&rt, "out of memory");
    change_both(&rt, rt.alloc(), &mut text, &mut plain, 12);
}

#[test]
fn changes_of_a_grouped_rope_leave_its_clone_unchanged(rt: HostRuntime) {
    let (mut text, _) = grouped_rope(&rt, rt.alloc());
    let clone = text.try_clone(rt.alloc()).expect(&rt, "out of memory");
    assert!(rt; clone.is_shared() && clone.equals(&text));
    assert_clone_unchanged(&rt, rt.alloc(), &mut text, &clone);
}
