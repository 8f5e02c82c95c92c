//! Tests of `sdb_desk`: the behavior of works, commits, reads and queues that the step format does
//! not cover.
ghost use Rattle.std.specs.Prelude.{◌≡◌};
ghost use Rattle.sdb_oplog.specs.Keys.{plain_key};
ghost use Rattle.sdb_desk.specs.View.{plain_attempt};
ghost use Rattle.sdb_service_tests.specs.Seen.{IsSeen, StaySeen};

use crate::helpers::{
    content, counter_of, create_counter, key, number_of, stored_version, submission, text,
};
use sdb_desk::{Attempt, LookPart, Outcome, Reply, Shard, Work};
use sdb_oplog::{Code, Content, Entry, Key, Moment, Submission};
use sdb_subscribe::SubId;
use sdb_value::{Step, find_mut};
use std::alloc::Global;
use std::process::Abort;

// A shard and the key of one document.
#[derive(Drop)]
pub(crate) struct TestDocument {
    pub(crate) alloc: Global,
    pub(crate) key: Key,
    pub(crate) shard: Shard,
}

impl TestDocument {
    // Creates a shard without the document.
    pub(crate) fn empty(rt: &impl Abort, alloc: Global) -> TestDocument {
        TestDocument {
            alloc,
            key: key(rt, alloc, "1"),
            shard: Shard::new(alloc),
        }
    }

    // Creates a shard whose document is the number 0.
    fn new(rt: &impl Abort, alloc: Global) -> TestDocument {
        let mut document = TestDocument::empty(rt, alloc);
        document.create(rt);
        document
    }

    // Creates the document.
    fn create(&mut self, rt: &impl Abort) {
        let zero = content(rt, self.alloc, r#"{"create":{"type":"json0","data":0}}"#);
        self.store(rt, submission(rt, self.alloc, "w", 1, None, zero, 0));
    }

    // Stores the submission.
    pub(crate) fn store(&mut self, rt: &impl Abort, submission: Submission)
        ensures { StaySeen (plain_key self.old.key) self.old.shard (plain_key self.new.key) self.new.shard }
    {
        let reply = self.commit_now(submission);
        stored_version(&reply).expect(rt, "out of memory, or not stored");
    }

    // Returns an edit with this source, seq and base version.
    fn edit(
        &self,
        rt: &impl Abort,
        (src, seq): (&str, u64),
        version: Option<u64>,
        amount: i64,
    ) -> Submission {
        let edit = format!(in self.alloc; r#"{{"op":[{{"p":[],"na":{amount}}}]}}"#);
        let edit = content(rt, self.alloc, edit.expect(rt, "out of memory").as_str());
        submission(rt, self.alloc, src, seq, version, edit, 0)
    }

    // Stores an edit that adds 1 for each seq of the range.
    fn store_edits(&mut self, rt: &impl Abort, first: u64, last: u64) {
        for seq in first..=last {
            self.store(rt, self.edit(rt, ("x", seq), None, 1));
        }
    }

    // Returns the submission with a look at the document.
    pub(crate) fn attempt(&self, rt: &impl Abort, submission: Submission) -> Attempt
        ensures seen { IsSeen (plain_key self.now.key) self.now.shard (plain_attempt result) }
        ensures submission { result.submission ≡ submission }
    {
        let look = self
            .shard
            .look(&self.key, &submission)
            .expect(rt, "out of memory");
        Attempt { submission, look }
    }

    // Returns an edit with source y and base version 1, rebased to the current version.
    fn rebased_edit(&self, rt: &impl Abort, amount: i64) -> Work
        ensures { IsSeen (plain_key self.now.key) self.now.shard result }
    {
        let edit = self.edit(rt, ("y", 1), Some(1), amount);
        compute_work(rt, self.alloc, self.attempt(rt, edit))
    }

    fn commit_now(&mut self, submission: Submission) -> Reply
        ensures { StaySeen (plain_key self.old.key) self.old.shard (plain_key self.new.key) self.new.shard }
    {
        self.shard
            .commit_now(&self.key, &submission, Moment::zero())
    }

    fn commit(&mut self, mut work: Work) -> Outcome
        requires { IsSeen (plain_key self.old.key) self.old.shard work }
    {
        self.shard.commit(&self.key, &mut work, Moment::zero())
    }

    fn commit_last(&mut self, work: Work) -> Reply {
        self.shard.commit_last(&self.key, work, Moment::zero())
    }

    // Returns the reply of a bounded commit of a submission.
    fn commit_short(&mut self, submission: &Submission) -> Reply {
        self.shard
            .commit_short(&self.key, submission, Moment::zero())
    }

    fn commit_newer(&mut self, work: Work) -> Reply
        requires { IsSeen (plain_key self.old.key) self.old.shard work }
    {
        self.shard.commit_newer(&self.key, work, Moment::zero())
    }

    // Returns the version and the number of the document.
    fn version_and_number(&mut self, rt: &impl Abort) -> (u64, Option<i64>) {
        let fetched = self.shard.fetch(&self.key).expect(rt, "out of memory");
        (fetched.version, number_of(fetched.snapshot.as_ref()))
    }
}

pub(crate) fn compute_work(rt: &impl Abort, alloc: Global, attempt: Attempt) -> Work
    ensures { result ≡ plain_attempt attempt }
{
    match Work::compute(alloc, attempt) {
        Ok(work) => work,
        Err(_) => panic!(rt; "out of memory"),
    }
}

fn duplicate_version(reply: &Reply) -> Option<u64> {
    match reply {
        Reply::Repeat { v } => Some(*v),
        _ => None,
    }
}

fn decided_version(outcome: &Outcome) -> Option<(u64, usize)> {
    match outcome {
        Outcome::Decided(reply) => stored_version(reply),
        Outcome::Moved(_) => None,
    }
}

#[test]
fn a_work_returns_its_attempt(rt: HostRuntime) {
    let work = TestDocument::new(&rt, rt.alloc()).rebased_edit(&rt, 5);
    let is_at_version_1 = work.version() == 1 && work.missed().is_empty();
    let attempt = work.into_attempt();
    assert!(rt; is_at_version_1 && attempt.submission.src() == "y" && attempt.look.version == 1);
}

// Returns a work that deletes the document at version 1 and has missed no entry.
fn work_that_deletes(rt: &impl Abort, document: &TestDocument) -> Work
    ensures { IsSeen (plain_key document.now.key) document.now.shard result }
{
    let alloc = document.alloc;
    let submission = submission(rt, alloc, "x", 1, Some(1), Content::delete(), 0);
    let attempt = document.attempt(rt, submission);
    assert!(rt; attempt.look.missed.is_empty());
    Work::new(attempt, Ok(Content::delete()), Ok(None))
}

#[test]
fn a_work_made_by_its_caller_is_committed(rt: HostRuntime) {
    let mut document = TestDocument::new(&rt, rt.alloc());
    let work = work_that_deletes(&rt, &document);
    assert!(rt;
        decided_version(&document.commit(work)) == Some((1, 0))
            && document.version_and_number(&rt) == (2, None)
    );
}

// Returns the texts, `middle` as often as this, as one.
pub(crate) fn repeated(
    rt: &impl Abort,
    alloc: Global,
    (first, middle, last): (&str, &str, &str),
    count: usize,
) -> String {
    let mut all = text(rt, alloc, first);
    for _ in 0..count {
        all.push_str(middle).expect(rt, "out of memory");
    }
    all.push_str(last).expect(rt, "out of memory");
    all
}

// Returns an edit with this component, and with the other one as often as this.
pub(crate) fn long_edit(
    rt: &impl Abort,
    alloc: Global,
    first: &str,
    other: &str,
    count: usize,
) -> Content {
    let parts = (first, other, "]}");
    content(rt, alloc, repeated(rt, alloc, parts, count).as_str())
}

// Stores a document and works on an edit. Stores a newer edit, and returns the reply of the last
// commit of the first one.
fn reply_after(
    rt: &impl Abort,
    alloc: Global,
    create: Content,
    edit: Content,
    newer: Content,
) -> Reply {
    let mut document = TestDocument::empty(rt, alloc);
    document.store(rt, submission(rt, alloc, "w", 1, None, create, 0));
    let edit = submission(rt, alloc, "y", 1, Some(1), edit, 0);
    let work = compute_work(rt, alloc, document.attempt(rt, edit));
    document.store(rt, submission(rt, alloc, "x", 1, None, newer, 0));
    document.commit_newer(work)
}

// Returns an edit with one component that adds 1, and so many others.
fn additions(rt: &impl Abort, alloc: Global, others: usize) -> Content {
    let first = r#"{"op":[{"p":[],"na":1}"#;
    long_edit(rt, alloc, first, r#",{"p":[],"na":1}"#, others)
}

#[test]
fn the_last_commit_transforms_at_most_16384_pairs(rt: HostRuntime) {
    let alloc = rt.alloc();
    for (count, version) in [(127, Some((2, 1))), (128, None)] {
        let create = content(&rt, alloc, r#"{"create":{"type":"json0","data":0}}"#);
        let edit = additions(&rt, alloc, 127);
        let reply = reply_after(&rt, alloc, create, edit, additions(&rt, alloc, count));
        assert!(rt; stored_version(&reply) == version, "{count}");
        assert!(rt; version.is_some() || matches!(reply, Reply::Refused(Code::E10)));
    }
}

#[test]
fn a_bounded_commit_transforms_at_most_16384_pairs(rt: HostRuntime) {
    let alloc = rt.alloc();
    for (count, version) in [(127, Some((2, 1))), (128, None)] {
        let mut document = TestDocument::empty(&rt, alloc);
        let create = content(&rt, alloc, r#"{"create":{"type":"json0","data":0}}"#);
        document.store(&rt, submission(&rt, alloc, "w", 1, None, create, 0));
        let newer = additions(&rt, alloc, count);
        document.store(&rt, submission(&rt, alloc, "x", 1, None, newer, 0));
        let late = additions(&rt, alloc, 127);
        let late = submission(&rt, alloc, "y", 1, Some(1), late, 0);
        let reply = document.commit_short(&late);
        assert!(rt; stored_version(&reply) == version, "{count}");
        assert!(rt; version.is_some() || matches!(reply, Reply::Refused(Code::E10)));
    }
}

// Each insert splits the deletion of 200 units once more.
#[test]
fn the_last_commit_counts_the_parts_of_a_deletion(rt: HostRuntime) {
    let alloc = rt.alloc();
    for (count, version) in [(126, Some((2, 1))), (127, None)] {
        let create = (r#"{"create":{"type":"json0","data":""#, "a", r#""}}"#);
        let create = content(&rt, alloc, repeated(&rt, alloc, create, 200).as_str());
        let delete = (r#"{"op":[{"p":[0],"sd":""#, "a", r#""}]}"#);
        let delete = content(&rt, alloc, repeated(&rt, alloc, delete, 200).as_str());
        let first = r#"{"op":[{"p":[100],"si":"b"}"#;
        let inserts = long_edit(&rt, alloc, first, r#",{"p":[100],"si":"b"}"#, count);
        let reply = reply_after(&rt, alloc, create, delete, inserts);
        assert!(rt; stored_version(&reply) == version, "{count}");
        assert!(rt; version.is_some() || matches!(reply, Reply::Refused(Code::E10)));
    }
}

// Another edit is stored after the edit was rebased.
#[test]
fn commit_last_decides_on_a_longer_log(rt: HostRuntime) {
    let mut document = TestDocument::new(&rt, rt.alloc());
    let late = document.rebased_edit(&rt, 10);
    document.store_edits(&rt, 1, 1);
    let reply = document.commit_last(late);
    assert!(rt;
        stored_version(&reply) == Some((2, 1)) && document.version_and_number(&rt) == (3, Some(11))
    );
}

// Returns the number of entries in a part of the look of an edit with base version 1, and whether
// it is the last part.
fn look_part(rt: &impl Abort, document: &TestDocument, known: usize) -> (usize, bool) {
    let late = document.edit(rt, ("y", 1), Some(1), 5);
    let part = document.shard.look_part(&document.key, &late, known, 2);
    match part.expect(rt, "out of memory") {
        LookPart::Entries(entries) => (entries.len(), false),
        LookPart::Last(look) => (look.missed.len(), true),
    }
}

#[test]
fn a_look_is_copied_in_parts(rt: HostRuntime) {
    let mut document = TestDocument::new(&rt, rt.alloc());
    document.store_edits(&rt, 1, 3);
    for (known, part) in [
        (0, (2, false)),
        (1, (2, true)),
        (3, (0, true)),
        (9, (0, true)),
    ] {
        assert!(rt; look_part(&rt, &document, known) == part);
    }
}

// Checks the log, the version, and the versions at which a queue may start.
#[test]
fn a_document_has_a_log_and_queue_starts(rt: HostRuntime) {
    let document = TestDocument::new(&rt, rt.alloc());
    let log = document.shard.log(&document.key).expect(&rt, "a log");
    assert!(rt;
        log.len() == 1
            && log.stored_at("w", 1) == Some(0)
            && document.shard.version(&document.key) == 1
    );
    for (version, start) in [
        (None, Ok(1)),
        (Some(0), Ok(0)),
        (Some(1), Ok(1)),
        (Some(2), Err(Code::E4)),
    ] {
        assert!(rt; document.shard.queue_start_or_full(&document.key, version) == start);
    }
}

// Returns the number of entries from the version on.
fn count_ops_from(document: &TestDocument, version: u64) -> Result<usize, Code> {
    match document.shard.ops_from(&document.key, version) {
        Ok(ops) => Ok(ops.len()),
        Err(code) => Err(code),
    }
}

#[test]
fn operations_are_listed_from_a_version(rt: HostRuntime) {
    let document = TestDocument::new(&rt, rt.alloc());
    assert!(rt; count_ops_from(&document, 0) == Ok(1));
    assert!(rt; count_ops_from(&document, 2) == Err(Code::E4));
    for (from, to, count) in [(0, 0, 0), (0, 1, 1), (0, 9, 1), (1, 9, 0), (9, 1, 0)] {
        let ops = document.shard.ops_between(&document.key, from, to);
        assert!(rt; ops.expect(&rt, "out of memory").len() == count);
    }
}

fn number_at(rt: &impl Abort, document: &mut TestDocument, version: u64) -> Option<i64> {
    let fetched = document.shard.snapshot_at(&document.key, Some(version));
    number_of(fetched.expect(rt, "a snapshot").snapshot.as_ref())
}

// Returns the version at which the replay starts, and the number of entries to apply.
fn replay_start(rt: &impl Abort, document: &mut TestDocument, version: u64) -> (u64, usize) {
    let base = document
        .shard
        .replay_base(&document.key, version, u64::MAX)
        .expect(rt, "a version");
    (base.version, base.entries.len())
}

// Replays the document to a version outside of the shard, and returns its number.
fn replay_number(rt: &impl Abort, document: &mut TestDocument, version: u64) -> Option<i64> {
    let base = document
        .shard
        .replay_base(&document.key, version, u64::MAX)
        .expect(rt, "a version");
    let snapshot = base.replay(document.alloc).expect(rt, "out of memory");
    number_of(snapshot.as_ref())
}

#[test]
fn a_replay_starts_at_the_nearest_cached_version(rt: HostRuntime) {
    let mut document = TestDocument::new(&rt, rt.alloc());
    document.store_edits(&rt, 1, 11);
    assert!(rt;
        replay_start(&rt, &mut document, 8) == (0, 8)
            && replay_start(&rt, &mut document, 12) == (12, 0)
            && replay_number(&rt, &mut document, 8) == Some(7)
            && number_at(&rt, &mut document, 8) == Some(7)
            && replay_start(&rt, &mut document, 10) == (8, 2)
            && replay_start(&rt, &mut document, 8) == (8, 0)
            && replay_number(&rt, &mut document, 10) == Some(9)
            && matches!(
                document.shard.replay_base(&document.key, 13, 1),
                Err(Code::E4)
            )
    );
}

// Returns the version at which a replay with at most three entries starts, and their number.
fn short_start(rt: &impl Abort, document: &mut TestDocument, version: u64) -> (u64, usize) {
    let base = document
        .shard
        .replay_base(&document.key, version, 3)
        .expect(rt, "a version");
    (base.version, base.entries.len())
}

#[test]
fn a_replay_base_has_a_limit_of_entries(rt: HostRuntime) {
    let mut document = TestDocument::new(&rt, rt.alloc());
    document.store_edits(&rt, 1, 11);
    assert!(rt;
        short_start(&rt, &mut document, 8) == (0, 3)
            && number_at(&rt, &mut document, 3) == Some(2)
            && short_start(&rt, &mut document, 8) == (3, 3)
            && short_start(&rt, &mut document, 6) == (3, 3)
            && short_start(&rt, &mut document, 5) == (3, 2)
            && short_start(&rt, &mut document, 12) == (12, 0)
    );
}

// Opens a queue that starts at the version.
fn open_queue(rt: &impl Abort, document: &mut TestDocument, version: u64) -> SubId {
    let opened = document.shard.subscribe(&document.key, 0, Some(version));
    opened.expect(rt, "a queue").id
}

fn has_queue(rt: &impl Abort, document: &mut TestDocument, by: u64, id: SubId) -> bool {
    let taken = document.shard.take(&document.key, by, id, 1);
    taken.expect(rt, "out of memory").is_some()
}

// The second commit of one work is a duplicate.
#[test]
fn a_work_is_stored_once(rt: HostRuntime) {
    let mut document = TestDocument::new(&rt, rt.alloc());
    let mut work = document.rebased_edit(&rt, 5);
    let first = document
        .shard
        .commit(&document.key, &mut work, Moment::zero());
    let second = document
        .shard
        .commit_now(&document.key, work.submission(), Moment::zero());
    assert!(rt;
        decided_version(&first) == Some((1, 0))
            && duplicate_version(&second) == Some(1)
            && document.version_and_number(&rt) == (2, Some(5))
    );
    // The attempt shows the version under which the work was stored.
    let attempt = work.into_attempt();
    assert!(rt; attempt.look.repeat == Some(1) && attempt.submission.seq() == 1);
}

// Fetches a version; returns the number of cached snapshots and the number of the document.
fn cached_after_fetch(
    rt: &impl Abort,
    document: &mut TestDocument,
    version: u64,
) -> (usize, Option<i64>) {
    let found = number_at(rt, document, version);
    (document.shard.cached_count(&document.key), found)
}

#[test]
fn a_snapshot_that_was_read_is_cached(rt: HostRuntime) {
    let mut document = TestDocument::new(&rt, rt.alloc());
    document.store_edits(&rt, 1, 1_100);
    for (version, cached, wanted) in [
        (1_101, 0, 1_100),
        (2, 1, 1),
        (1, 2, 0),
        (2, 2, 1),
        (1_001, 3, 1_000),
    ] {
        assert!(rt;
            cached_after_fetch(&rt, &mut document, version) == (cached, Some(wanted)),
            "{version}"
        );
    }
    document.shard.forget(&document.key);
    assert!(rt; document.shard.cached_count(&document.key) == 0);
}

fn ring_len(document: &TestDocument, id: SubId) -> Option<u64> {
    document.shard.ring_entries(&document.key, id)
}

// Takes from the queue; returns the number of entries and the version of the first.
fn take_first(
    rt: &impl Abort,
    document: &mut TestDocument,
    id: SubId,
    max: u64,
) -> (usize, Option<u64>) {
    let taken = document.shard.take(&document.key, 0, id, max);
    let entries = taken.expect(rt, "out of memory").expect(rt, "a queue");
    (entries.len(), entries.first().map(Entry::version))
}

#[test]
fn a_commit_pushes_its_entry_to_the_rings(rt: HostRuntime) {
    let mut document = TestDocument::empty(&rt, rt.alloc());
    let id = open_queue(&rt, &mut document, 0);
    assert!(rt; ring_len(&document, id) == Some(0));
    document.create(&rt);
    document.store_edits(&rt, 1, 64);
    assert!(rt;
        ring_len(&document, id) == Some(64)
            && take_first(&rt, &mut document, id, 1) == (1, Some(0))
            && ring_len(&document, id) == Some(64)
    );
    document.store_edits(&rt, 65, 128);
    assert!(rt;
        take_first(&rt, &mut document, id, 200) == (128, Some(1))
            && ring_len(&document, id) == Some(0)
    );
}

// A queue exists only under the number of its pass: another pass can neither take from it nor close
// it.
#[test]
fn only_its_owner_takes_from_and_closes_a_queue(rt: HostRuntime) {
    let mut document = TestDocument::new(&rt, rt.alloc());
    document.store_edits(&rt, 1, 2);
    let id = open_queue(&rt, &mut document, 1);
    document.shard.unsubscribe(&document.key, 1, id);
    assert!(rt;
        !has_queue(&rt, &mut document, 1, id)
            && document.shard.queues() == 1
            && take_first(&rt, &mut document, id, 10) == (2, Some(1))
    );
    document.shard.unsubscribe(&document.key, 0, id);
    assert!(rt;
        !has_queue(&rt, &mut document, 0, id)
            && document.shard.queues() == 0
            && ring_len(&document, id).is_none()
    );
}

// A document that a shard returns is shared: `find_mut` finds nothing below its root, and the
// document and the shard's own are unchanged.
#[test]
fn find_mut_finds_nothing_in_a_fetched_document(rt: HostRuntime) {
    let alloc = rt.alloc();
    let mut document = TestDocument::empty(&rt, alloc);
    let create = create_counter(&rt, alloc);
    document.store(&rt, submission(&rt, alloc, "w", 1, None, create, 0));
    let fetched = document
        .shard
        .fetch(&document.key)
        .expect(&rt, "out of memory");
    let mut value = fetched.snapshot.expect(&rt, "a document");
    let path = [Step::Key(text(&rt, alloc, "n"))];
    assert!(rt; find_mut(&mut value, &path).is_none());
    let again = document
        .shard
        .fetch(&document.key)
        .expect(&rt, "out of memory");
    assert!(rt;
        counter_of(Some(&value)) == Some(0) && counter_of(again.snapshot.as_ref()) == Some(0)
    );
}

#[test]
fn a_key_has_a_shard(rt: HostRuntime) {
    for (id, shard) in [("1", 3), ("2", 4), ("9", 3)] {
        assert!(rt; key(&rt, rt.alloc(), id).shard() == shard, "{id}");
    }
}
