//! Tests of calls in which an allocation fails: the state is unchanged, and a retry succeeds. Run
//! directly, no allocation fails; `tests/failed_allocations.py` fails each allocation of each test in turn.
ghost use Rattle.std.specs.Prelude.{IfNone};
ghost use Rattle.sdb_oplog.specs.Keys.{plain_key};
ghost use Rattle.sdb_service_tests.specs.Seen.{IsSeen, StaySeen};

use crate::desk::{TestDocument, compute_work};
use crate::helpers::{content, stored_version, submission};
use crate::projection::title_projection;
use crate::session::{FETCH, SUBSCRIBE, TestServer, new_session};
use sdb_desk::{Outcome, Reply, SubscribeResult, Work};
use sdb_oplog::{Code, Moment, Submission};
use sdb_projection::{Table, TableFault};
use sdb_session::Session;
use sdb_submit::Solo;
use sdb_subscribe::SubId;
use sdb_value::Json;
use std::alloc::Global;
use std::process::Abort;

// Allocates a buffer of 7,919 bytes. The script recognizes the size, and fails only allocations
// between two marks.
fn mark(rt: &impl Abort, alloc: Global) -> usize {
    let chunk: Vec<u8> = Vec::with_capacity(alloc, 7_919).expect(rt, "out of memory");
    chunk.capacity()
}

// Returns a submission that creates a list of one null.
fn create_list(rt: &impl Abort, alloc: Global, src: &str) -> Submission {
    let content = content(rt, alloc, r#"{"create":{"type":"json0","data":[null]}}"#);
    submission(rt, alloc, src, 1, None, content, 0)
}

// Returns a submission that inserts one null into that list.
fn insert_null(rt: &impl Abort, alloc: Global, src: &str, version: Option<u64>) -> Submission {
    let content = content(rt, alloc, r#"{"op":[{"p":[0],"li":null}]}"#);
    submission(rt, alloc, src, 1, version, content, 0)
}

// Returns a document of four nulls whose log has four entries and no spare capacity.
fn list_of_four(rt: &impl Abort, alloc: Global) -> TestDocument {
    let mut document = TestDocument::empty(rt, alloc);
    document.store(rt, create_list(rt, alloc, "w"));
    for src in ["a", "b", "c"] {
        document.store(rt, insert_null(rt, alloc, src, None));
    }
    document
}

// Returns the submission, rebased to the current version.
fn rebase(rt: &impl Abort, document: &TestDocument, submission: Submission) -> Work
    ensures { IsSeen (plain_key document.now.key) document.now.shard result }
{
    compute_work(rt, document.alloc, document.attempt(rt, submission))
}

// Returns an edit with base version 3, rebased to the current version.
fn rebase_late_insert(rt: &impl Abort, document: &TestDocument) -> Work
    ensures { IsSeen (plain_key document.now.key) document.now.shard result }
{
    rebase(rt, document, insert_null(rt, document.alloc, "x", Some(3)))
}

// The version of the document and its number of items.
type State = (u64, Option<usize>);

fn read_state(rt: &impl Abort, document: &mut TestDocument) -> State
    ensures { StaySeen (plain_key document.old.key) document.old.shard (plain_key document.new.key) document.new.shard }
{
    let fetched = document
        .shard
        .fetch(&document.key)
        .expect(rt, "out of memory");
    (fetched.version, count_items(fetched.snapshot.as_ref()))
}

fn count_items(document: Option<&Json>) -> Option<usize> {
    let Some(Json::List(items)) = document else {
        return None;
    };
    let mut count: usize = 0;
    for _ in items.iter() {
        count = count.saturating_add(1);
    }
    Some(count)
}

// The version of the entry or of the look, and the number of missed entries. `None` if an
// allocation failed.
type VersionAndMissed = Option<(u64, usize)>;

fn commit(document: &mut TestDocument, work: &mut Work) -> VersionAndMissed
    requires { IsSeen (plain_key document.old.key) document.old.shard work.old }
    ensures { IfNone result (IsSeen (plain_key document.new.key) document.new.shard work.new) }
{
    match document.shard.commit(&document.key, work, Moment::zero()) {
        Outcome::Decided(Reply::Stored { v, missed }) => Some((v, missed.len())),
        Outcome::Decided(Reply::Repeat { .. }) => None,
        Outcome::Decided(Reply::Refused(_)) => None,
        Outcome::Moved(look) => Some((look.version, look.missed.len())),
    }
}

// Commits between two marks, and again if an allocation failed and the state is unchanged.
fn commit_with_retry(
    rt: &impl Abort,
    document: &mut TestDocument,
    work: &mut Work,
) -> VersionAndMissed
    requires { IsSeen (plain_key document.old.key) document.old.shard work.old }
{
    let (before, missed) = (read_state(rt, document), work.missed().len());
    mark(rt, document.alloc);
    let first = commit(document, work);
    mark(rt, document.alloc);
    if first.is_some() {
        return first;
    }
    if read_state(rt, document) != before || work.missed().len() != missed {
        return None;
    }
    commit(document, work)
}

// Checks the reply to a commit of the work, and the state after it.
fn assert_commit(
    rt: &impl Abort,
    document: &mut TestDocument,
    mut work: Work,
    expected: (u64, usize),
    state: State,
)
    requires { IsSeen (plain_key document.old.key) document.old.shard work }
{
    assert!(rt;
        commit_with_retry(rt, document, &mut work) == Some(expected)
            && read_state(rt, document) == state
    );
}

#[test]
fn a_failed_first_commit_stores_nothing(rt: HostRuntime) {
    let mut document = TestDocument::empty(&rt, rt.alloc());
    let work = rebase(&rt, &document, create_list(&rt, rt.alloc(), "x"));
    assert_commit(&rt, &mut document, work, (0, 0), (1, Some(1)));
}

#[test]
fn a_failed_commit_stores_nothing(rt: HostRuntime) {
    let mut document = list_of_four(&rt, rt.alloc());
    let work = rebase_late_insert(&rt, &document);
    assert_commit(&rt, &mut document, work, (4, 1), (5, Some(5)));
}

// Another edit is stored after the edit was rebased.
#[test]
fn a_failed_commit_to_a_longer_log_stores_nothing(rt: HostRuntime) {
    let mut document = list_of_four(&rt, rt.alloc());
    let work = rebase_late_insert(&rt, &document);
    document.store(&rt, insert_null(&rt, rt.alloc(), "y", None));
    assert_commit(&rt, &mut document, work, (5, 2), (5, Some(5)));
}

fn commit_now(document: &mut TestDocument, submission: &Submission) -> VersionAndMissed {
    stored_version(
        &document
            .shard
            .commit_now(&document.key, submission, Moment::zero()),
    )
}

// Commits in one call between two marks, and again if an allocation failed and the state is
// unchanged.
fn commit_now_with_retry(
    rt: &impl Abort,
    document: &mut TestDocument,
    submission: &Submission,
) -> VersionAndMissed {
    let before = read_state(rt, document);
    mark(rt, document.alloc);
    let first = commit_now(document, submission);
    mark(rt, document.alloc);
    if first.is_some() {
        return first;
    }
    if read_state(rt, document) != before {
        return None;
    }
    commit_now(document, submission)
}

#[test]
fn a_failed_first_commit_now_stores_nothing(rt: HostRuntime) {
    let mut document = TestDocument::empty(&rt, rt.alloc());
    let submission = create_list(&rt, rt.alloc(), "x");
    assert!(rt;
        commit_now_with_retry(&rt, &mut document, &submission) == Some((0, 0))
            && read_state(&rt, &mut document) == (1, Some(1))
    );
}

#[test]
fn a_failed_commit_now_stores_nothing(rt: HostRuntime) {
    let mut document = list_of_four(&rt, rt.alloc());
    let submission = insert_null(&rt, rt.alloc(), "x", Some(3));
    assert!(rt;
        commit_now_with_retry(&rt, &mut document, &submission) == Some((4, 1))
            && read_state(&rt, &mut document) == (5, Some(5))
    );
}

// Calls `commit_last` between two marks, and commits its submission again if an allocation failed.
fn commit_last_with_retry(
    rt: &impl Abort,
    document: &mut TestDocument,
    work: Work,
) -> VersionAndMissed {
    let submission = work.submission().try_clone().expect(rt, "out of memory");
    let before = read_state(rt, document);
    mark(rt, document.alloc);
    let first = stored_version(
        &document
            .shard
            .commit_last(&document.key, work, Moment::zero()),
    );
    mark(rt, document.alloc);
    if first.is_some() {
        return first;
    }
    if read_state(rt, document) != before {
        return None;
    }
    commit_now(document, &submission)
}

// Another edit is stored after the edit was rebased.
#[test]
fn a_failed_commit_last_stores_nothing(rt: HostRuntime) {
    let mut document = list_of_four(&rt, rt.alloc());
    let work = rebase_late_insert(&rt, &document);
    document.store(&rt, insert_null(&rt, rt.alloc(), "y", None));
    assert!(rt;
        commit_last_with_retry(&rt, &mut document, work) == Some((5, 2))
            && read_state(&rt, &mut document) == (6, Some(6))
    );
}

// Replays version 3 between two marks, and again if an allocation failed.
fn replay_with_retry(rt: &impl Abort, document: &mut TestDocument) -> Option<usize> {
    mark(rt, document.alloc);
    let first = replay(document);
    mark(rt, document.alloc);
    match first {
        Err(Code::E10) => replay(document).expect(rt, "out of memory"),
        first => first.expect(rt, "refused"),
    }
}

fn replay(document: &mut TestDocument) -> Result<Option<usize>, Code> {
    let base = document.shard.replay_base(&document.key, 3, 8)?;
    let snapshot = base.replay(document.alloc)?;
    Ok(count_items(snapshot.as_ref()))
}

#[test]
fn a_replay_is_retried_after_an_allocation_failure(rt: HostRuntime) {
    let mut document = list_of_four(&rt, rt.alloc());
    assert!(rt;
        replay_with_retry(&rt, &mut document) == Some(3)
            && read_state(&rt, &mut document) == (4, Some(4))
    );
}

// Subscribes at version 1 between two marks, and again if an allocation failed.
fn subscribe_with_retry(rt: &impl Abort, document: &mut TestDocument) -> SubscribeResult {
    mark(rt, document.alloc);
    let first = document.shard.subscribe(&document.key, 0, Some(1));
    mark(rt, document.alloc);
    match first {
        Err(Code::E10) => document
            .shard
            .subscribe(&document.key, 0, Some(1))
            .expect(rt, "refused"),
        first => first.expect(rt, "refused"),
    }
}

// Takes at most ten entries, and returns their number.
fn take(rt: &impl Abort, document: &mut TestDocument, id: SubId) -> usize {
    let taken = document.shard.take(&document.key, 0, id, 10);
    let entries = taken.expect(rt, "out of memory");
    entries.expect(rt, "a queue").len()
}

// Takes at most ten entries between two marks, and again if an allocation failed.
fn take_with_retry(rt: &impl Abort, document: &mut TestDocument, id: SubId) -> usize {
    mark(rt, document.alloc);
    let first = document.shard.take(&document.key, 0, id, 10);
    mark(rt, document.alloc);
    match first {
        Ok(entries) => entries.expect(rt, "a queue").len(),
        Err(_) => take(rt, document, id),
    }
}

#[test]
fn a_subscribe_is_retried_after_an_allocation_failure(rt: HostRuntime) {
    let mut document = list_of_four(&rt, rt.alloc());
    let opened = subscribe_with_retry(&rt, &mut document);
    assert!(rt;
        opened.version == 4
            && count_items(opened.snapshot.as_ref()) == Some(4)
            && take(&rt, &mut document, opened.id) == 3
    );
}

#[test]
fn a_failed_take_leaves_the_queue_unchanged(rt: HostRuntime) {
    let mut document = list_of_four(&rt, rt.alloc());
    let opened = document.shard.subscribe(&document.key, 0, Some(0));
    let id = opened.expect(&rt, "out of memory").id;
    assert!(rt; take_with_retry(&rt, &mut document, id) == 4 && take(&rt, &mut document, id) == 0);
}

// Adds a projection between two marks, and again if an allocation failed.
#[test]
fn a_failed_add_leaves_the_table_unchanged(rt: HostRuntime) {
    let mut table = Table::new(rt.alloc());
    let first = title_projection(&rt, rt.alloc(), "t", "b");
    let second = title_projection(&rt, rt.alloc(), "t", "b");
    mark(&rt, rt.alloc());
    let added = table.add(first);
    mark(&rt, rt.alloc());
    if added == Err(TableFault::OutOfMemory) {
        assert!(rt; table.find("t").is_none() && table.add(second).is_ok());
    } else {
        assert!(rt; added.is_ok());
    }
    assert!(rt; table.find("t").is_some());
}

// Handles a message and returns whether the session has ended.
fn ends(session: &mut Session, server: &mut TestServer, message: &str) -> bool {
    session
        .handle(
            &Solo,
            &mut server.shard,
            &server.table,
            message,
            Moment::zero(),
        )
        .is_err()
}

// A session in which an allocation failed has ended for each later call too, and leaves no queue.
#[test]
fn a_session_ends_if_an_allocation_fails(rt: HostRuntime) {
    let mut server = TestServer::new(rt.alloc());
    let mut session = new_session(&rt, rt.alloc(), "s1");
    ends(&mut session, &mut server, SUBSCRIBE);
    mark(&rt, rt.alloc());
    let has_ended = ends(&mut session, &mut server, FETCH);
    mark(&rt, rt.alloc());
    let has_then = ends(&mut session, &mut server, FETCH);
    if has_then && !has_ended {
        panic!(rt; "out of memory around the call");
    }
    let pumped = session.pump(&Solo, &mut server.shard, &server.table, 1);
    assert!(rt; has_then == has_ended && pumped.is_err() == has_ended);
    session.end(&Solo, &mut server.shard);
    assert!(rt; server.shard.queues() == 0);
}
