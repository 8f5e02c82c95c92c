//! Tests of queues and their ring buffers. The tests of `sdb_desk` cover the entries that are
//! taken.
use sdb_oplog::{Content, Entry, Moment, Submission};
use sdb_subscribe::{Queues, SubId};
use std::alloc::Global;
use std::process::Abort;

fn entry(rt: &impl Abort, alloc: Global, version: u64) -> Entry {
    let src = String::from_str(alloc, "x").expect(rt, "out of memory");
    let via = String::from_str(alloc, "b").expect(rt, "out of memory");
    let submission = Submission::new(alloc, src, version, None, Content::delete(), via, 0);
    Entry::new(
        version,
        Moment::zero(),
        None,
        submission.expect(rt, "out of memory"),
    )
}

fn open_queue(rt: &impl Abort, queues: &mut Queues, from: u64) -> SubId {
    queues.open(0, from).expect(rt, "open")
}

// Pushes the entries with versions of this range, without its end.
fn push_all(rt: &impl Abort, alloc: Global, queues: &mut Queues, from: u64, to: u64) {
    for version in from..to {
        queues.push_entry(&entry(rt, alloc, version));
    }
}

#[test]
fn queues_have_distinct_ids(rt: HostRuntime) {
    let mut queues = Queues::new(rt.alloc());
    let (first, second) = (
        open_queue(&rt, &mut queues, 1),
        open_queue(&rt, &mut queues, 5),
    );
    assert!(rt; first != second && queues.next_id() == 2 && queues.count() == 2);
}

#[test]
fn a_closed_queue_is_removed(rt: HostRuntime) {
    let mut queues = Queues::new(rt.alloc());
    let id = open_queue(&rt, &mut queues, 0);
    queues.close(0, id);
    assert!(rt;
        queues.count() == 0 && queues.ringed(id).is_none() && open_queue(&rt, &mut queues, 0) != id
    );
}

#[test]
fn only_its_owner_closes_a_queue(rt: HostRuntime) {
    let mut queues = Queues::new(rt.alloc());
    let id = open_queue(&rt, &mut queues, 0);
    queues.close(1, id);
    assert!(rt; queues.owner(id) == Some(0));
    queues.close(0, id);
    assert!(rt; queues.owner(id).is_none());
}

#[test]
fn a_ring_keeps_the_last_64_entries(rt: HostRuntime) {
    let mut queues = Queues::new(rt.alloc());
    let id = open_queue(&rt, &mut queues, 0);
    assert!(rt; queues.ringed(id) == Some(0));
    push_all(&rt, rt.alloc(), &mut queues, 0, 65);
    assert!(rt; queues.ringed(id) == Some(64));
}

#[test]
fn a_ring_skips_entries_before_its_start(rt: HostRuntime) {
    let mut queues = Queues::new(rt.alloc());
    let late = open_queue(&rt, &mut queues, 2);
    push_all(&rt, rt.alloc(), &mut queues, 0, 2);
    assert!(rt; queues.ringed(late) == Some(0));
    push_all(&rt, rt.alloc(), &mut queues, 2, 3);
    assert!(rt; queues.ringed(late) == Some(1));
}

// The queue has no entry before its start, so the ring begins there.
#[test]
fn a_ring_keeps_entries_of_each_version(rt: HostRuntime) {
    for start in [490, 9_990, 1_000_000] {
        let mut queues = Queues::new(rt.alloc());
        let id = open_queue(&rt, &mut queues, start);
        push_all(
            &rt,
            rt.alloc(),
            &mut queues,
            start,
            start.saturating_add(20),
        );
        assert!(rt; queues.ringed(id) == Some(20), "{start}");
    }
}
