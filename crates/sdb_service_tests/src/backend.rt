//! Tests of `sdb_backend`, also from several threads.
ghost use Rattle.std.specs.Prelude.{◌≡◌};
ghost use Rattle.sdb_backend.specs.PassModel.{pass_number, IsHostOfBackend, IsPassOfBackend};

use crate::desk::{long_edit, repeated};
use crate::helpers::{
    content, counter_of, create_counter, increment, key, stored_version, submission,
};
use crate::submit::TryRecorder;
use sdb_backend::{
    Audit, Backend, CloseError, CloseRefused, Counts, Host, Pass, submit_is_atomic, take_is_fifo,
};
use sdb_desk::Reply;
use sdb_oplog::{Code, Content, Entry, Key, Log, Moment, Submission};
use sdb_submit::{Desk, Gate, NoGate, submit};
use sdb_subscribe::SubId;
use std::alloc::Global;
use std::process::Abort;
use std::sync::Wait;
use std::sync::atomic::{AtomicU64, Ordering};
use std::thread;

// The number of edits of each thread.
const EDIT_COUNT: u64 = 10;

// The number of edits of each thread when a queue receives them.
const LONG_EDIT_COUNT: u64 = 100;

// The maximum number of entries per call of `take`, and the number of calls.
const TAKE_LIMIT: u64 = 7;

const TAKE_COUNT: u64 = 29;

// Returns a submission of the pass, whose source is x and the number of the pass.
fn submission_of_pass(
    rt: &impl Abort,
    alloc: Global,
    pass: &Pass,
    seq: u64,
    version: Option<u64>,
    content: Content,
) -> Submission
    ensures { result.by ≡ pass_number pass.now }
{
    let by = pass.number();
    let source = format!(in alloc; "x{by}").expect(rt, "out of memory");
    submission(rt, alloc, source.as_str(), seq, version, content, by)
}

// A backend with its host and two passes.
#[derive(Drop)]
struct TestBackend<R> {
    backend: Backend<R>,
    host: Host,
    first: Pass,
    second: Pass,
}

fn open_backend<R: Drop>(abort: &impl Abort, alloc: Global, rt: R) -> TestBackend<R>
    ensures host { IsHostOfBackend result.host result.backend }
    ensures first { IsPassOfBackend result.first result.backend }
    ensures second { IsPassOfBackend result.second result.backend }
{
    let (backend, mut host) = Backend::new(alloc, rt).expect(abort, "out of memory");
    let first = backend.enter(&mut host).expect(abort, "a pass");
    let second = backend.enter(&mut host).expect(abort, "a pass");
    TestBackend {
        backend,
        host,
        first,
        second,
    }
}

// Stores the document as the first submission of the pass.
fn create<R: Wait + Drop>(
    rt: &impl Abort,
    alloc: Global,
    backend: &Backend<R>,
    pass: &mut Pass,
    key: &Key,
)
    requires { IsPassOfBackend pass.old backend.now }
    ensures { IsPassOfBackend pass.new backend.now }
{
    let submission = submission_of_pass(rt, alloc, pass, 1, None, create_counter(rt, alloc));
    let reply = submit(
        alloc,
        backend,
        pass,
        key,
        submission,
        Moment::zero(),
        &NoGate,
    );
    assert!(rt; stored_version(&reply) == Some((0, 0)));
}

// Fetches the document and returns its number.
fn fetch_counter<R: Wait + Drop>(
    rt: &impl Abort,
    backend: &Backend<R>,
    pass: &mut Pass,
    key: &Key,
) -> Option<i64>
    requires { IsPassOfBackend pass.old backend.now }
    ensures { IsPassOfBackend pass.new backend.now }
{
    let fetched = backend.fetch(pass, key).expect(rt, "out of memory");
    counter_of(fetched.snapshot.as_ref())
}

// Adds 1 at this moment.
fn add_at<R: Wait + Drop>(
    rt: &impl Abort,
    alloc: Global,
    backend: &Backend<R>,
    pass: &mut Pass,
    key: &Key,
    seq: u64,
    milliseconds: u64,
)
    requires { IsPassOfBackend pass.old backend.now }
    ensures { IsPassOfBackend pass.new backend.now }
{
    let submission = submission_of_pass(rt, alloc, pass, seq, None, increment(rt, alloc, 1));
    let now = Moment::new(milliseconds).expect(rt, "a moment");
    let reply = submit(alloc, backend, pass, key, submission, now, &NoGate);
    assert!(rt; stored_version(&reply).is_some());
}

// Returns the version at a moment and the number of the document there.
fn fetch_at_moment<R: Wait + Drop>(
    rt: &impl Abort,
    backend: &Backend<R>,
    pass: &mut Pass,
    key: &Key,
    moment: Option<Moment>,
) -> (u64, Option<i64>)
    requires { IsPassOfBackend pass.old backend.now }
    ensures { IsPassOfBackend pass.new backend.now }
{
    let fetched = backend
        .snapshot_at_time(pass, key, moment)
        .expect(rt, "out of memory");
    (fetched.version, counter_of(fetched.snapshot.as_ref()))
}

// An old version is replayed without the lock; the current one is a clone of the snapshot.
#[test]
fn documents_are_fetched_at_moments(rt: HostRuntime) {
    let alloc = rt.alloc();
    let TestBackend {
        backend,
        first: mut pass,
        ..
    } = open_backend(&rt, alloc, rt);
    let key = key(&rt, alloc, "1");
    create(&rt, alloc, &backend, &mut pass, &key);
    add_at(&rt, alloc, &backend, &mut pass, &key, 2, 100);
    add_at(&rt, alloc, &backend, &mut pass, &key, 3, 200);
    let first = fetch_at_moment(&rt, &backend, &mut pass, &key, Moment::new(99));
    let second = fetch_at_moment(&rt, &backend, &mut pass, &key, Moment::new(199));
    let third = fetch_at_moment(&rt, &backend, &mut pass, &key, Moment::new(200));
    let present = fetch_at_moment(&rt, &backend, &mut pass, &key, None);
    assert!(rt;
        first == (1, Some(0)) && second == (2, Some(1)) && third == (3, Some(2)) && present == third
    );
}

// Adds 1 for each seq of the range, at the moment with this number of milliseconds.
fn add_many<R: Wait + Drop>(
    rt: &impl Abort,
    alloc: Global,
    backend: &Backend<R>,
    pass: &mut Pass,
    key: &Key,
    last: u64,
)
    requires { IsPassOfBackend pass.old backend.now }
    ensures { IsPassOfBackend pass.new backend.now }
{
    for seq in 2..=last {
        add_at(rt, alloc, backend, pass, key, seq, seq);
    }
}

// The entries that an edit missed, and those that are replayed for an old version, are copied in
// several parts.
#[test]
fn many_entries_are_copied_in_parts(rt: HostRuntime) {
    let alloc = rt.alloc();
    let TestBackend {
        backend,
        first: mut pass,
        ..
    } = open_backend(&rt, alloc, rt);
    let key = key(&rt, alloc, "1");
    create(&rt, alloc, &backend, &mut pass, &key);
    add_many(&rt, alloc, &backend, &mut pass, &key, 20_000);
    let edit = increment(&rt, alloc, 1);
    let late = submission_of_pass(&rt, alloc, &pass, 20_001, Some(1), edit);
    let now = Moment::zero();
    let reply = submit(alloc, &backend, &mut pass, &key, late, now, &NoGate);
    let old = backend.snapshot_at(&mut pass, &key, Some(19_000));
    let old = counter_of(old.expect(&rt, "out of memory").snapshot.as_ref());
    let moment = Moment::new(18_000);
    assert!(rt;
        stored_version(&reply) == Some((20_000, 19_999))
            && old == Some(18_999)
            && fetch_at_moment(&rt, &backend, &mut pass, &key, moment) == (18_000, Some(17_999))
    );
}

// Returns the reply to a content that is sent at a version.
fn reply_to<R: Wait + Drop>(
    rt: &impl Abort,
    alloc: Global,
    backend: &Backend<R>,
    pass: &mut Pass,
    key: &Key,
    seq: u64,
    sent: (Option<u64>, Content),
) -> Reply
    requires { IsPassOfBackend pass.old backend.now }
    ensures { IsPassOfBackend pass.new backend.now }
{
    let (version, content) = sent;
    let submission = submission_of_pass(rt, alloc, pass, seq, version, content);
    let now = Moment::zero();
    submit(alloc, backend, pass, key, submission, now, &NoGate)
}

// A duplicate is acknowledged, and the document can be read.
#[test]
fn a_full_backend_stores_nothing(rt: HostRuntime) {
    let alloc = rt.alloc();
    let TestBackend {
        backend,
        first: mut pass,
        ..
    } = open_backend(&rt, alloc, rt);
    let key = key(&rt, alloc, "1");
    create(&rt, alloc, &backend, &mut pass, &key);
    backend.set_full(true);
    let created = (None, create_counter(&rt, alloc));
    let again = reply_to(&rt, alloc, &backend, &mut pass, &key, 1, created);
    let edit = (None, increment(&rt, alloc, 1));
    let refused = reply_to(&rt, alloc, &backend, &mut pass, &key, 2, edit);
    let counter = fetch_counter(&rt, &backend, &mut pass, &key);
    assert!(rt; backend.is_full() && matches!(again, Reply::Repeat { v: 0 }));
    assert!(rt; matches!(refused, Reply::Refused(Code::E10)) && counter == Some(0));
    backend.set_full(false);
    add_at(&rt, alloc, &backend, &mut pass, &key, 2, 0);
    assert!(rt; fetch_counter(&rt, &backend, &mut pass, &key) == Some(1));
}

// Each insert splits the deletion of 6,000 units once more, so 8 edits of 256 inserts are above
// 2,097,152 pairs. A smaller deletion is stored.
#[test]
fn a_rebase_of_too_many_pairs_is_refused(rt: HostRuntime) {
    let alloc = rt.alloc();
    let TestBackend {
        backend,
        first: mut pass,
        ..
    } = open_backend(&rt, alloc, rt);
    let key = key(&rt, alloc, "1");
    let create = (r#"{"create":{"type":"json0","data":""#, "a", r#""}}"#);
    let created = content(&rt, alloc, repeated(&rt, alloc, create, 6_000).as_str());
    store(&rt, alloc, &backend, &mut pass, &key, 1, created);
    let first = r#"{"op":[{"p":[100],"si":"b"}"#;
    for seq in 2..=9 {
        let inserts = long_edit(&rt, alloc, first, r#",{"p":[100],"si":"b"}"#, 255);
        store(&rt, alloc, &backend, &mut pass, &key, seq, inserts);
    }
    let delete = (r#"{"op":[{"p":[0],"sd":""#, "a", r#""}]}"#);
    let long = content(&rt, alloc, repeated(&rt, alloc, delete, 6_000).as_str());
    let long = reply_to(&rt, alloc, &backend, &mut pass, &key, 10, (Some(1), long));
    let short = content(&rt, alloc, repeated(&rt, alloc, delete, 50).as_str());
    let short = reply_to(&rt, alloc, &backend, &mut pass, &key, 10, (Some(1), short));
    assert!(rt; matches!(long, Reply::Refused(Code::E10)));
    assert!(rt; stored_version(&short) == Some((9, 8)));
}

// Submits this content at the current version, at a moment with the seq as milliseconds.
fn store<R: Wait + Drop>(
    rt: &impl Abort,
    alloc: Global,
    backend: &Backend<R>,
    pass: &mut Pass,
    key: &Key,
    seq: u64,
    content: Content,
)
    requires { IsPassOfBackend pass.old backend.now }
    ensures { IsPassOfBackend pass.new backend.now }
{
    let submission = submission_of_pass(rt, alloc, pass, seq, None, content);
    let now = Moment::new(seq).expect(rt, "a moment");
    let reply = submit(alloc, backend, pass, key, submission, now, &NoGate);
    assert!(rt; stored_version(&reply).is_some());
}

// Returns the number of the document at a version, if it has one.
fn counter_at<R: Wait + Drop>(
    rt: &impl Abort,
    backend: &Backend<R>,
    pass: &mut Pass,
    key: &Key,
    version: u64,
) -> Option<i64>
    requires { IsPassOfBackend pass.old backend.now }
    ensures { IsPassOfBackend pass.new backend.now }
{
    let fetched = backend.snapshot_at(pass, key, Some(version));
    counter_of(fetched.expect(rt, "out of memory").snapshot.as_ref())
}

// An absent document is never cached. A part of a replay may end at its version, here at 8,192.
#[test]
fn a_replay_continues_from_an_absent_document(rt: HostRuntime) {
    let alloc = rt.alloc();
    let TestBackend {
        backend,
        first: mut pass,
        ..
    } = open_backend(&rt, alloc, rt);
    let key = key(&rt, alloc, "1");
    create(&rt, alloc, &backend, &mut pass, &key);
    add_many(&rt, alloc, &backend, &mut pass, &key, 8_191);
    store(
        &rt,
        alloc,
        &backend,
        &mut pass,
        &key,
        8_192,
        Content::delete(),
    );
    let created = create_counter(&rt, alloc);
    store(&rt, alloc, &backend, &mut pass, &key, 8_193, created);
    add_at(&rt, alloc, &backend, &mut pass, &key, 8_194, 8_194);
    add_at(&rt, alloc, &backend, &mut pass, &key, 8_195, 8_195);
    let old = counter_at(&rt, &backend, &mut pass, &key, 8_194);
    let absent = counter_at(&rt, &backend, &mut pass, &key, 8_192);
    let first = counter_at(&rt, &backend, &mut pass, &key, 8_191);
    let moment = Moment::new(8_193);
    assert!(rt;
        old == Some(1)
            && absent == None
            && first == Some(8_190)
            && fetch_at_moment(&rt, &backend, &mut pass, &key, moment) == (8_193, Some(0))
    );
}

// A gate that records the number of the last try. It blocks the first try until another submission
// is answered, with a bounded wait.
#[derive(Drop)]
struct BlockingGate<'a> {
    answered: &'a AtomicU64,
    last: &'a AtomicU64,
}

impl Gate for BlockingGate<'_> {
    fn before_commit(&self, try_no: u64) {
        self.last.store(try_no, Ordering::SeqCst);
        if try_no == 1 {
            wait_for(self.answered, 1);
        }
    }
}

// Waits until the number has this value, for at most 1,000,000 iterations.
fn wait_for(number: &AtomicU64, wanted: u64) {
    for _ in 0..1_000_000 {
        if number.load(Ordering::SeqCst) == wanted {
            return;
        }
        thread::yield_now();
    }
}

// Submits while the other submission is blocked, and then releases it. Returns the pass, and the
// version with the number of missed entries.
fn submit_unblocked<R: Wait + Drop>(
    alloc: Global,
    backend: &Backend<R>,
    mut pass: Pass,
    key: &Key,
    submission: Submission,
    answered: &AtomicU64,
    last: &AtomicU64,
) -> (Pass, Option<(u64, usize)>)
    requires pass { IsPassOfBackend pass backend.now }
    requires by { submission.by ≡ pass_number pass }
    ensures { IsPassOfBackend result.0 backend.now }
{
    wait_for(last, 1);
    let reply = submit(
        alloc,
        backend,
        &mut pass,
        key,
        submission,
        Moment::zero(),
        &NoGate,
    );
    answered.store(1, Ordering::SeqCst);
    (pass, stored_version(&reply))
}

// Submits with a gate that blocks the first try until the other submission is answered.
fn submit_blocked<R: Wait + Drop>(
    alloc: Global,
    backend: &Backend<R>,
    mut pass: Pass,
    key: &Key,
    submission: Submission,
    answered: &AtomicU64,
    last: &AtomicU64,
) -> (Pass, Option<(u64, usize)>)
    requires pass { IsPassOfBackend pass backend.now }
    requires by { submission.by ≡ pass_number pass }
    ensures { IsPassOfBackend result.0 backend.now }
{
    let gate = BlockingGate { answered, last };
    let reply = submit(
        alloc,
        backend,
        &mut pass,
        key,
        submission,
        Moment::zero(),
        &gate,
    );
    (pass, stored_version(&reply))
}

#[test]
fn a_blocked_submission_blocks_no_other(rt: HostRuntime) {
    let alloc = rt.alloc();
    let TestBackend {
        backend,
        first: mut slow,
        second: quick,
        ..
    } = open_backend(&rt, alloc, rt);
    let key = key(&rt, alloc, "1");
    create(&rt, alloc, &backend, &mut slow, &key);
    let (ten, five) = (increment(&rt, alloc, 10), increment(&rt, alloc, 5));
    let first = submission_of_pass(&rt, alloc, &slow, 2, Some(1), ten);
    let second = submission_of_pass(&rt, alloc, &quick, 1, Some(1), five);
    let (answered, last) = (AtomicU64::new(0), AtomicU64::new(0));
    let ((mut slow, late), (_quick, early)) = thread::join(
        &rt,
        || -> (Pass, Option<(u64, usize)>)
            requires pass { IsPassOfBackend slow backend }
            requires by { first.by ≡ pass_number slow }
            ensures { IsPassOfBackend result.0 backend }
        { submit_blocked(alloc, &backend, slow, &key, first, &answered, &last) },
        || -> (Pass, Option<(u64, usize)>)
            requires pass { IsPassOfBackend quick backend }
            requires by { second.by ≡ pass_number quick }
            ensures { IsPassOfBackend result.0 backend }
        { submit_unblocked(alloc, &backend, quick, &key, second, &answered, &last) },
    );
    assert!(rt;
        early == Some((1, 0))
            && last.load(Ordering::SeqCst) == 2
            && late == Some((2, 1))
            && fetch_counter(&rt, &backend, &mut slow, &key) == Some(15)
    );
}

#[test]
fn two_passes_are_compared(rt: HostRuntime) {
    let alloc = rt.alloc();
    let TestBackend {
        backend,
        mut first,
        mut second,
        ..
    } = open_backend(&rt, alloc, rt);
    let key = key(&rt, alloc, "1");
    create(&rt, alloc, &backend, &mut first, &key);
    add_at(&rt, alloc, &backend, &mut second, &key, 1, 5);
    backend.compare(&mut first, &mut second, &key);
    backend.forget(&mut first, &key);
    assert!(rt; fetch_counter(&rt, &backend, &mut first, &key) == Some(1));
}

// A duplicate isn't counted, and the second entry counts no document.
#[test]
fn stored_documents_and_entries_are_counted(rt: HostRuntime) {
    let alloc = rt.alloc();
    let TestBackend {
        backend,
        mut first,
        mut second,
        ..
    } = open_backend(&rt, alloc, rt);
    let (key, other) = (key(&rt, alloc, "1"), key(&rt, alloc, "2"));
    create(&rt, alloc, &backend, &mut first, &key);
    create(&rt, alloc, &backend, &mut second, &other);
    let edit = submission_of_pass(&rt, alloc, &first, 2, None, increment(&rt, alloc, 1));
    let stored = backend.commit_now(&mut first, &key, &edit, Moment::zero());
    let repeated = backend.commit_now(&mut first, &key, &edit, Moment::zero());
    assert!(rt; stored_version(&stored).is_some() && stored_version(&repeated).is_none());
    let counts = Counts {
        documents: 2,
        entries: 3,
    };
    assert!(rt; backend.counts() == counts);
}

fn is_entry_of(entry: &Entry, source: &str, seq: u64) -> bool {
    entry.arrived().src() == source && entry.arrived().seq() == seq
}

// Checks that a fetch returns a later version, and that the log has the entry of the submission.
fn read_back<R: Wait + Drop>(
    rt: &impl Abort,
    backend: &Backend<R>,
    pass: &mut Pass,
    key: &Key,
    submission: &Submission,
    version: u64,
)
    requires { IsPassOfBackend pass.old backend.now }
    ensures { IsPassOfBackend pass.new backend.now }
{
    let fetched = backend.fetch(pass, key).expect(rt, "out of memory");
    assert!(rt; version < fetched.version);
    let entries = backend
        .ops_from(pass, key, version)
        .expect(rt, "out of memory");
    let entry = entries.first().expect(rt, "an entry");
    assert!(rt; is_entry_of(entry, submission.src(), submission.seq()));
}

// Stores the submission and reads it back.
fn submit_edit<R: Wait + Drop>(
    rt: &impl Abort,
    alloc: Global,
    backend: &Backend<R>,
    pass: &mut Pass,
    key: &Key,
    submission: &Submission,
) -> Reply
    requires pass { IsPassOfBackend pass.old backend.now }
    requires by { submission.now.by ≡ pass_number pass.old }
    ensures { IsPassOfBackend pass.new backend.now }
{
    let now = Moment::zero();
    let copy = submission.try_clone().expect(rt, "out of memory");
    let reply = submit(alloc, backend, pass, key, copy, now, &NoGate);
    let (version, _) = stored_version(&reply).expect(rt, "stored");
    read_back(rt, backend, pass, key, submission, version);
    reply
}

// Stores the edits of one thread, all with base version 1. Returns the pass and the replies.
fn edit_all<R: Wait + Drop>(
    rt: &impl Abort,
    alloc: Global,
    backend: &Backend<R>,
    mut pass: Pass,
    key: &Key,
) -> (Pass, Vec<Reply>)
    requires { IsPassOfBackend pass backend.now }
    ensures { IsPassOfBackend result.0 backend.now }
{
    let mut replies = Vec::new(alloc);
    for seq in 2..2 + EDIT_COUNT {
        let submission = submission_of_pass(
            rt,
            alloc,
            &pass,
            seq,
            Some(1),
            increment(rt, alloc, 1),
        );
        let reply = submit_edit(rt, alloc, backend, &mut pass, key, &submission);
        replies.push(reply).expect(rt, "out of memory");
    }
    (pass, replies)
}

// Checks that these are the entries of the log from version 1 on.
fn assert_missed(rt: &impl Abort, log: &Log, entries: &[Entry]) {
    let mut version: u64 = 0;
    for entry in entries {
        version = version.saturating_add(1);
        let stored = log.get(version).expect(rt, "an entry").arrived();
        assert!(rt; is_entry_of(entry, stored.src(), stored.seq()), "{version}");
    }
}

// Checks that the log has the submission at the version of the reply, after the entries that the
// reply lists as missed.
fn assert_reply(rt: &impl Abort, log: &Log, source: &str, seq: u64, reply: &Reply) {
    let Reply::Stored { v, missed } = reply else {
        panic!(rt; "not stored");
    };
    let entry = log.get(*v).expect(rt, "an entry");
    assert!(rt; is_entry_of(entry, source, seq) && missed.len() as u64 + 1 == *v);
    assert_missed(rt, log, missed);
}

// Checks each reply against the log.
fn assert_replies(rt: &impl Abort, log: &Log, source: &str, replies: &[Reply]) {
    let mut seq: u64 = 1;
    for reply in replies {
        seq = seq.saturating_add(1);
        assert_reply(rt, log, source, seq, reply);
    }
    assert!(rt; replies.len() as u64 == EDIT_COUNT);
}

// Replays the log and returns the number of the document.
fn replay_counter(rt: &impl Abort, log: &Log) -> Option<i64> {
    let document = log.replay(log.len()).expect(rt, "out of memory");
    counter_of(document.as_ref())
}

// Checks that the log has the edits of both threads, and checks each reply against it.
fn assert_edits_and_replies(
    rt: &impl Abort,
    audit: &Audit,
    key: &Key,
    ones: &[Reply],
    twos: &[Reply],
) {
    let keys = audit.documents().expect(rt, "out of memory");
    assert!(rt; keys.len() == 1);
    let log = audit.log(key).expect(rt, "a log");
    assert!(rt; log.len() == 1 + 2 * EDIT_COUNT && replay_counter(rt, log) == Some(20));
    assert_replies(rt, log, "x1", ones);
    assert_replies(rt, log, "x2", twos);
}

#[test]
fn edits_of_two_threads_are_read_back(rt: HostRuntime) {
    let alloc = rt.alloc();
    let TestBackend {
        backend,
        host,
        mut first,
        second,
    } = open_backend(&rt, alloc, rt);
    let key = key(&rt, alloc, "1");
    create(&rt, alloc, &backend, &mut first, &key);
    let ((first, ones), (second, twos)) = thread::join(
        &rt,
        || -> (Pass, Vec<Reply>)
            requires { IsPassOfBackend first backend }
            ensures { IsPassOfBackend result.0 backend }
        { edit_all(&rt, alloc, &backend, first, &key) },
        || -> (Pass, Vec<Reply>)
            requires { IsPassOfBackend second backend }
            ensures { IsPassOfBackend result.0 backend }
        { edit_all(&rt, alloc, &backend, second, &key) },
    );
    let audit = close_after_refusal(&rt, alloc, backend, host, first, second);
    assert_edits_and_replies(&rt, &audit, &key, ones.as_slice(), twos.as_slice());
}

// Closes the backend, first without one of the passes, which is refused. Returns the audit.
fn close_after_refusal<R: Drop>(
    rt: &impl Abort,
    alloc: Global,
    backend: Backend<R>,
    host: Host,
    first: Pass,
    second: Pass,
) -> Audit
    requires host { IsHostOfBackend host backend }
    requires first { IsPassOfBackend first backend }
    requires second { IsPassOfBackend second backend }
{
    let mut passes = Vec::new(alloc);
    passes.push(second).expect(rt, "out of memory");
    let Err(refused) = backend.close(host, passes) else {
        panic!(rt; "closed");
    };
    let CloseRefused {
        error: why,
        backend,
        host,
        mut passes,
    } = refused;
    assert!(rt; why == CloseError::MissingPass);
    let Ok(()) = passes.push(first) else {
        panic!(rt; "out of memory");
    };
    let Ok(audit) = backend.close(host, passes) else {
        panic!(rt; "not closed");
    };
    audit
}

// Stores a document under each id.
fn create_all<R: Wait + Drop>(
    rt: &impl Abort,
    alloc: Global,
    backend: &Backend<R>,
    pass: &mut Pass,
    ids: &[&str],
)
    requires { IsPassOfBackend pass.old backend.now }
    ensures { IsPassOfBackend pass.new backend.now }
{
    for id in ids {
        create(rt, alloc, backend, pass, &key(rt, alloc, id));
    }
}

// Checks that the audit has these ids, in this order, each with a log of one entry.
fn assert_listed(rt: &impl Abort, audit: &Audit, ids: &[&str]) {
    let keys = audit.documents().expect(rt, "out of memory");
    assert!(rt; keys.len() == ids.len());
    for (id, key) in ids.iter().zip(keys.as_slice()) {
        assert!(rt; key.id.as_str() == *id, "{id}");
        assert!(rt; audit.log(key).map(Log::len) == Some(1), "{id}");
    }
}

#[test]
fn documents_of_all_shards_are_listed_in_order(rt: HostRuntime) {
    let alloc = rt.alloc();
    let TestBackend {
        backend,
        host,
        mut first,
        second,
    } = open_backend(&rt, alloc, rt);
    create_all(&rt, alloc, &backend, &mut first, &["9", "2", "0", "1"]);
    let audit = close_after_refusal(&rt, alloc, backend, host, first, second);
    assert_listed(&rt, &audit, &["0", "1", "2", "9"]);
    assert!(rt; audit.log(&key(&rt, alloc, "3")).is_none());
}

// Enters the passes of the numbers from 1 on, without the end.
fn enter_many<R: Drop>(rt: &impl Abort, backend: &Backend<R>, host: &mut Host, end: u64)
    requires { IsHostOfBackend host.old backend.now }
    ensures { IsHostOfBackend host.new backend.now }
{
    for number in 1..end {
        let pass = backend.enter(host).expect(rt, "a pass");
        assert!(rt; pass.number() == number, "{number}");
    }
}

#[test]
fn more_than_a_thousand_passes_enter(rt: HostRuntime) {
    let (backend, mut host) = Backend::new(rt.alloc(), rt).expect(&rt, "out of memory");
    enter_many(&rt, &backend, &mut host, 1_101);
}

// Submits in one atomic step. Returns the reply and the tries.
fn submit_in_one_step<R: Wait + Drop>(
    rt: &impl Abort,
    alloc: Global,
    backend: &Backend<R>,
    pass: &mut Pass,
    seq: u64,
    version: Option<u64>,
    content: Content,
) -> (Reply, u64)
    requires { IsPassOfBackend pass.old backend.now }
    ensures { IsPassOfBackend pass.new backend.now }
{
    let (key, gate) = (key(rt, alloc, "1"), TryRecorder::new());
    let submission = submission_of_pass(rt, alloc, pass, seq, version, content);
    let now = Moment::zero();
    let reply = submit_is_atomic(alloc, backend, pass, &key, submission, now, &gate);
    (reply, gate.digits.get())
}

// A submission without a base version, one with a version, and one that is refused.
#[test]
fn an_atomic_submission_calls_its_gate(rt: HostRuntime) {
    let alloc = rt.alloc();
    let TestBackend {
        backend,
        mut first,
        ..
    } = open_backend(&rt, alloc, rt);
    let create = create_counter(&rt, alloc);
    let (reply, tries) = submit_in_one_step(&rt, alloc, &backend, &mut first, 1, None, create);
    assert!(rt; (stored_version(&reply), tries) == (Some((0, 0)), 1));
    let edit = increment(&rt, alloc, 1);
    let (reply, tries) = submit_in_one_step(&rt, alloc, &backend, &mut first, 2, Some(1), edit);
    assert!(rt; (stored_version(&reply), tries) == (Some((1, 0)), 1));
    let edit = increment(&rt, alloc, 1);
    let (reply, tries) = submit_in_one_step(&rt, alloc, &backend, &mut first, 3, Some(7), edit);
    assert!(rt; matches!(reply, Reply::Refused(Code::E4)) && tries == 1);
}

// Opens a queue of the pass that starts at version 0.
fn open_queue<R: Wait + Drop>(
    rt: &impl Abort,
    backend: &Backend<R>,
    pass: &mut Pass,
    key: &Key,
) -> SubId
    requires { IsPassOfBackend pass.old backend.now }
    ensures { IsPassOfBackend pass.new backend.now }
{
    let opened = backend.subscribe(pass, key, Some(0));
    opened.expect(rt, "a queue").id
}

// Stores many edits of one thread, without a base version. Returns the pass.
fn store_many<R: Wait + Drop>(
    rt: &impl Abort,
    alloc: Global,
    backend: &Backend<R>,
    mut pass: Pass,
    key: &Key,
) -> Pass
    requires { IsPassOfBackend pass backend.now }
    ensures { IsPassOfBackend result backend.now }
{
    for seq in 1..=LONG_EDIT_COUNT {
        let submission = submission_of_pass(rt, alloc, &pass, seq, None, increment(rt, alloc, 1));
        let reply = submit_is_atomic(
            alloc,
            backend,
            &mut pass,
            key,
            submission,
            Moment::zero(),
            &NoGate,
        );
        assert!(rt; stored_version(&reply).is_some(), "{seq}");
    }
    pass
}

// Checks that the entries have consecutive versions, and returns the version after them.
fn version_after(rt: &impl Abort, entries: &[Entry], from: u64) -> u64 {
    let mut next = from;
    for entry in entries {
        assert!(rt; entry.version() == next);
        next = next.saturating_add(1);
    }
    next
}

// Takes entries, checks that they start at the version, and returns the version after them.
fn take_some<R: Wait + Drop>(
    rt: &impl Abort,
    backend: &Backend<R>,
    pass: &mut Pass,
    key: &Key,
    id: SubId,
    from: u64,
) -> u64
    requires { IsPassOfBackend pass.old backend.now }
    ensures { IsPassOfBackend pass.new backend.now }
{
    let taken = take_is_fifo(backend, pass, key, id, TAKE_LIMIT).expect(rt, "out of memory");
    version_after(rt, taken.expect(rt, "a queue").as_slice(), from)
}

// Checks that the queue returns all versions in order.
fn take_all<R: Wait + Drop>(
    rt: &impl Abort,
    backend: &Backend<R>,
    pass: &mut Pass,
    key: &Key,
    id: SubId,
)
    requires { IsPassOfBackend pass.old backend.now }
    ensures { IsPassOfBackend pass.new backend.now }
{
    let mut next: u64 = 0;
    for _ in 0..TAKE_COUNT {
        next = take_some(rt, backend, pass, key, id, next);
    }
    assert!(rt; next == 2 * LONG_EDIT_COUNT + 1);
}

// Returns whether the pass has no such queue.
fn is_unknown<R: Wait + Drop>(backend: &Backend<R>, pass: &mut Pass, key: &Key, id: SubId) -> bool
    requires { IsPassOfBackend pass.old backend.now }
    ensures { IsPassOfBackend pass.new backend.now }
{
    matches!(take_is_fifo(backend, pass, key, id, 1), Ok(None))
}

// Returns the number of entries of the source.
fn count_entries_of(log: &Log, source: &str) -> u64 {
    let mut count: u64 = 0;
    for version in 0..log.len() {
        if let Some(entry) = log.get(version) {
            if entry.arrived().src() == source {
                count = count.saturating_add(1);
            }
        }
    }
    count
}

// Checks that the document has all edits of both threads.
fn assert_edits_of_both(rt: &impl Abort, audit: &Audit, key: &Key) {
    let log = audit.log(key).expect(rt, "a log");
    assert!(rt;
        count_entries_of(log, "x1") == LONG_EDIT_COUNT
            && count_entries_of(log, "x2") == LONG_EDIT_COUNT
            && log.len() == 2 * LONG_EDIT_COUNT + 1
            && replay_counter(rt, log) == Some(200)
    );
}

#[test]
fn entries_of_two_threads_are_taken_in_order(rt: HostRuntime) {
    let alloc = rt.alloc();
    let TestBackend {
        backend,
        mut host,
        first,
        second,
    } = open_backend(&rt, alloc, rt);
    let Ok(mut third) = backend.enter(&mut host) else {
        panic!(rt; "no pass");
    };
    let key = key(&rt, alloc, "1");
    create(&rt, alloc, &backend, &mut third, &key);
    let id = open_queue(&rt, &backend, &mut third, &key);
    let (mut first, second) = thread::join(
        &rt,
        || -> Pass
            requires { IsPassOfBackend first backend }
            ensures { IsPassOfBackend result backend }
        { store_many(&rt, alloc, &backend, first, &key) },
        || -> Pass
            requires { IsPassOfBackend second backend }
            ensures { IsPassOfBackend result backend }
        { store_many(&rt, alloc, &backend, second, &key) },
    );
    assert!(rt; is_unknown(&backend, &mut first, &key, id));
    take_all(&rt, &backend, &mut third, &key, id);
    let audit = close_with_three_passes(&rt, alloc, backend, host, first, second, third);
    assert_edits_of_both(&rt, &audit, &key);
    assert!(rt; audit.queues() == 1);
}

// Closes the backend with its host and three passes, and returns the audit.
fn close_with_three_passes<R: Drop>(
    rt: &impl Abort,
    alloc: Global,
    backend: Backend<R>,
    host: Host,
    first: Pass,
    second: Pass,
    third: Pass,
) -> Audit
    requires host { IsHostOfBackend host backend }
    requires first { IsPassOfBackend first backend }
    requires second { IsPassOfBackend second backend }
    requires third { IsPassOfBackend third backend }
{
    let mut passes = Vec::new(alloc);
    passes.push(third).expect(rt, "out of memory");
    passes.push(first).expect(rt, "out of memory");
    passes.push(second).expect(rt, "out of memory");
    let Ok(audit) = backend.close(host, passes) else {
        panic!(rt; "not closed");
    };
    audit
}
