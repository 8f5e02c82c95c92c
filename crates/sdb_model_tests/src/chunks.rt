//! Tests of chunked vectors against `Vec`.

use crate::helpers::scatter;
use sdb_chunks::{Chunk, ChunkedVec, TryClone};
use std::alloc::{AllocError, Global};
use std::process::Abort;

#[derive(Drop)]
pub(crate) struct Number(pub(crate) u64);

impl TryClone for Number {
    ghost use Rattle.std.specs.Prelude.{ℕ};

    ghost Model = { ℕ };

    ghost model = { λ n. n.0 };

    fn try_clone(&self, _alloc: Global) -> Result<Number, AllocError> {
        Ok(Number(self.0))
    }
}

fn push_numbers(rt: &impl Abort, found: &mut Vec<u64>, items: &[Number]) {
    for item in items {
        found.push(item.0).expect(rt, "out of memory");
    }
}

// Returns the numbers of all chunks.
fn numbers(rt: &impl Abort, alloc: Global, list: &ChunkedVec<Number>) -> Vec<u64> {
    let mut found = Vec::new(alloc);
    for chunk in list.chunks() {
        push_numbers(rt, &mut found, chunk.items());
    }
    found
}

pub(crate) fn chunk_count<T>(list: &ChunkedVec<T>) -> u64 {
    let mut count: u64 = 0;
    for _ in list.chunks() {
        count = count.saturating_add(1);
    }
    count
}

fn is_equal(rt: &impl Abort, alloc: Global, list: &ChunkedVec<Number>, plain: &Vec<u64>) -> bool {
    numbers(rt, alloc, list).as_slice() == plain.as_slice()
}

// Returns a scattered index, at most the length.
fn scattered_index(step: u64, len: usize) -> usize {
    scatter(step, (len as u64).saturating_add(1)) as usize
}

// Inserts a number into both lists, and returns whether it was inserted.
fn insert_in_both(
    rt: &impl Abort,
    alloc: Global,
    list: &mut ChunkedVec<Number>,
    plain: &mut Vec<u64>,
    step: u64,
) -> bool {
    let at = scattered_index(step, plain.len());
    if at <= plain.len() {
        plain.insert(at, step).expect(rt, "out of memory");
    }
    list.insert(alloc, at, Number(step))
        .expect(rt, "out of memory")
}

fn insert_all(rt: &impl Abort, alloc: Global, list: &mut ChunkedVec<Number>, plain: &mut Vec<u64>) {
    for step in 0..2_000 {
        assert!(rt; insert_in_both(rt, alloc, list, plain, step), "{step}");
    }
}

fn remove_at(plain: &mut Vec<u64>, at: usize) -> Option<u64> {
    if at < plain.len() {
        return Some(plain.remove(at));
    }
    None
}

// Removes from both lists, and returns whether the removed numbers agree.
fn remove_from_both(
    rt: &impl Abort,
    alloc: Global,
    list: &mut ChunkedVec<Number>,
    plain: &mut Vec<u64>,
    step: u64,
) -> bool {
    let at = scattered_index(step, plain.len());
    let item = list.remove(alloc, at).expect(rt, "out of memory");
    item.map(|item| item.0) == remove_at(plain, at)
}

fn remove_all(rt: &impl Abort, alloc: Global, list: &mut ChunkedVec<Number>, plain: &mut Vec<u64>) {
    for step in 0..3_000 {
        assert!(rt; remove_from_both(rt, alloc, list, plain, step), "{step}");
    }
}

#[test]
fn a_list_of_many_chunks_equals_a_vector(rt: HostRuntime) {
    let mut plain = Vec::new(rt.alloc());
    let mut list = ChunkedVec::from_vec(Vec::new(rt.alloc()));
    insert_all(&rt, rt.alloc(), &mut list, &mut plain);
    assert!(rt; chunk_count(&list) > 3 && is_equal(&rt, rt.alloc(), &list, &plain));
    remove_all(&rt, rt.alloc(), &mut list, &mut plain);
    assert!(rt; is_equal(&rt, rt.alloc(), &list, &plain));
}

// Returns the list as one shared chunk, which is cloned by a pointer.
fn freeze_as_one_chunk(
    rt: &impl Abort,
    alloc: Global,
    list: ChunkedVec<Number>,
) -> ChunkedVec<Number> {
    let items = list.into_vec(alloc).expect(rt, "out of memory");
    let mut chunks = Vec::new(alloc);
    let chunk = Chunk::Unique(items)
        .into_frozen(alloc)
        .expect(rt, "out of memory");
    chunks.push(chunk).expect(rt, "out of memory");
    ChunkedVec::from_shared_chunks(alloc, chunks).expect(rt, "out of memory")
}

// Checks that a change of the list leaves its clone unchanged.
fn assert_clone_unchanged(
    rt: &impl Abort,
    alloc: Global,
    list: &mut ChunkedVec<Number>,
    plain: &mut Vec<u64>,
) {
    let clone = list.try_clone(alloc).expect(rt, "out of memory");
    let before = numbers(rt, alloc, &clone);
    assert!(rt;
        remove_from_both(rt, alloc, list, plain, 5) && insert_in_both(rt, alloc, list, plain, 77)
    );
    drop(
        list.replace(alloc, 1_500, Number(1))
            .expect(rt, "out of memory"),
    );
    assert!(rt; is_equal(rt, alloc, &clone, &before) && !is_equal(rt, alloc, list, &before));
}

// Returns a list of one shared chunk, built together with the vector.
fn list_of_one_chunk(rt: &impl Abort, alloc: Global, plain: &mut Vec<u64>) -> ChunkedVec<Number> {
    let mut list = ChunkedVec::from_vec(Vec::new(alloc));
    insert_all(rt, alloc, &mut list, plain);
    freeze_as_one_chunk(rt, alloc, list)
}

#[test]
fn changes_of_a_list_leave_its_clone_unchanged(rt: HostRuntime) {
    let mut plain = Vec::new(rt.alloc());
    let mut list = list_of_one_chunk(&rt, rt.alloc(), &mut plain);
    assert!(rt; chunk_count(&list) == 1 && is_equal(&rt, rt.alloc(), &list, &plain));
    assert_clone_unchanged(&rt, rt.alloc(), &mut list, &mut plain);
}

fn two_items(rt: &impl Abort, alloc: Global) -> ChunkedVec<Number> {
    let mut items = Vec::new(alloc);
    items.push(Number(3)).expect(rt, "out of memory");
    items.push(Number(4)).expect(rt, "out of memory");
    ChunkedVec::from_vec(items)
}

fn change_item(list: &mut ChunkedVec<Number>, index: usize) -> bool {
    match list.get_mut(index) {
        Some(item) => {
            item.0 = 9;
            true
        }
        None => false,
    }
}

#[test]
fn get_mut_changes_an_item_of_a_unique_list(rt: HostRuntime) {
    let mut list = two_items(&rt, rt.alloc());
    assert!(rt;
        change_item(&mut list, 1)
            && !change_item(&mut list, 2)
            && list.get(1).map(|item| item.0) == Some(9)
            && list.get(2).is_none()
    );
    let mut list = freeze_as_one_chunk(&rt, rt.alloc(), list);
    assert!(rt; !change_item(&mut list, 1));
}

// Freezes the list.
pub(crate) fn freeze_list(
    rt: &impl Abort,
    alloc: Global,
    list: ChunkedVec<Number>,
) -> ChunkedVec<Number> {
    let mut repr = list.into_repr();
    repr.freeze(alloc).expect(rt, "out of memory");
    ChunkedVec::from_repr(repr)
}

// Returns the numbers below the count, in chunks.
pub(crate) fn list_of_numbers(rt: &impl Abort, alloc: Global, count: u64) -> ChunkedVec<Number> {
    let mut items = Vec::new(alloc);
    for number in 0..count {
        items.push(Number(number)).expect(rt, "out of memory");
    }
    ChunkedVec::from_vec_chunked(alloc, items).expect(rt, "out of memory")
}

#[test]
fn a_grouped_list_equals_a_vector(rt: HostRuntime) {
    let mut plain = Vec::new(rt.alloc());
    let mut list = ChunkedVec::from_vec(Vec::new(rt.alloc()));
    insert_all(&rt, rt.alloc(), &mut list, &mut plain);
    let mut list = freeze_list(&rt, rt.alloc(), list);
    insert_all(&rt, rt.alloc(), &mut list, &mut plain);
    assert!(rt; list.is_grouped() && is_equal(&rt, rt.alloc(), &list, &plain));
    let mut list = freeze_list(&rt, rt.alloc(), list);
    remove_all(&rt, rt.alloc(), &mut list, &mut plain);
    assert!(rt; list.get(7).map(|item| item.0) == plain.get(7).copied());
    let mut list = freeze_list(&rt, rt.alloc(), list);
    assert!(rt; is_equal(&rt, rt.alloc(), &list, &plain));
    assert_clone_unchanged(&rt, rt.alloc(), &mut list, &mut plain);
}

// All items of a list in groups are removed, and one is inserted again.
#[test]
fn a_grouped_list_can_be_emptied_and_filled(rt: HostRuntime) {
    let list = list_of_numbers(&rt, rt.alloc(), 4_000);
    let mut list = freeze_list(&rt, rt.alloc(), list);
    for number in 0..4_000 {
        let first = list.remove(rt.alloc(), 0).expect(&rt, "out of memory");
        assert!(rt; first.map(|item| item.0) == Some(number));
    }
    assert!(rt; chunk_count(&list) == 0 && list.get(0).is_none());
    assert!(rt; list.insert(rt.alloc(), 0, Number(3)).unwrap_or(false));
    assert!(rt; list.is_grouped() && list.get(0).map(|item| item.0) == Some(3));
}
