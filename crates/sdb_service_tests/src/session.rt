//! Tests of `sdb_session`: long answers, batches, and the number of entries per call of `pump`. The
//! tests of the server cover the end of a session.
use crate::helpers::text;
use sdb_desk::Shard;
use sdb_oplog::Moment;
use sdb_projection::Table;
use sdb_session::Session;
use sdb_submit::Solo;
use std::alloc::Global;
use std::process::Abort;

pub(crate) fn new_session(rt: &impl Abort, alloc: Global, source: &str) -> Session {
    Session::new(alloc, text(rt, alloc, source))
}

// A shard, and a table without projections.
#[derive(Drop)]
pub(crate) struct TestServer {
    pub(crate) table: Table,
    pub(crate) shard: Shard,
}

impl TestServer {
    pub(crate) fn new(alloc: Global) -> TestServer {
        TestServer {
            table: Table::new(alloc),
            shard: Shard::new(alloc),
        }
    }

    // Returns whether this text is the only answer to the message.
    fn answers(&mut self, session: &mut Session, text: &str, wanted: &str) -> bool {
        match session.handle(&Solo, &mut self.shard, &self.table, text, Moment::zero()) {
            Ok(texts) => matches!(texts.as_slice(), [only] if only.as_str() == wanted),
            Err(_) => false,
        }
    }

    // Returns the answers to the message.
    fn answers_to(&mut self, rt: &impl Abort, session: &mut Session, text: &str) -> Vec<String> {
        session
            .handle(&Solo, &mut self.shard, &self.table, text, Moment::zero())
            .ok()
            .expect(rt, "out of memory")
    }

    // Returns whether one entry is pending and its message is this text.
    fn receives(&mut self, session: &mut Session, wanted: &str) -> bool {
        match session.pump(&Solo, &mut self.shard, &self.table, 64) {
            Ok(pumped) => matches!(pumped.texts.as_slice(), [only] if only.as_str() == wanted),
            Err(_) => false,
        }
    }

    // Returns the number of entries taken and of messages sent.
    fn pump_counts(&mut self, session: &mut Session) -> Option<(u128, usize)> {
        match session.pump(&Solo, &mut self.shard, &self.table, 64) {
            Ok(pumped) => Some((pumped.taken, pumped.texts.len())),
            Err(_) => None,
        }
    }
}

const OPENING: &str =
    r#"{"a":"init","id":"s1","protocol":1,"protocolMinor":1,"type":"http://sharejs.org/types/JSONv0"}"#;

pub(crate) const SUBSCRIBE: &str = r#"{"a":"s","c":"b","d":"1"}"#;

pub(crate) const SUBSCRIBED: &str = r#"{"a":"s","c":"b","d":"1","data":{"type":null,"v":0}}"#;

pub(crate) const FETCH: &str = r#"{"a":"f","c":"b","d":"1"}"#;

// Returns the prefix, 100,000 letters and the suffix as one text.
fn text_of_100_000(rt: &impl Abort, alloc: Global, prefix: &str, suffix: &str) -> String {
    let mut text = text(rt, alloc, prefix);
    for _ in 0..100_000 {
        text.push('x').expect(rt, "out of memory");
    }
    text.push_str(suffix).expect(rt, "out of memory");
    text
}

// Stores a document that is a string of 100,000 letters.
fn store_long_text(rt: &impl Abort, alloc: Global, server: &mut TestServer, session: &mut Session) {
    let create = r#"{"a":"op","c":"b","d":"1","seq":1,"create":{"type":"json0","data":""#;
    let create = text_of_100_000(rt, alloc, create, r#""}}"#);
    let created = r#"{"a":"op","c":"b","d":"1","seq":1,"src":"s1","v":0}"#;
    assert!(rt; server.answers(session, create.as_str(), created));
}

// Fetches that document and checks the answer.
fn fetch_long_text(rt: &impl Abort, alloc: Global, server: &mut TestServer, session: &mut Session) {
    let prefix = r#"{"a":"f","c":"b","d":"1","data":{"data":""#;
    let fetched = text_of_100_000(rt, alloc, prefix, r#"","v":1}}"#);
    assert!(rt; server.answers(session, FETCH, fetched.as_str()));
}

#[test]
fn a_session_receives_entries_of_others(rt: HostRuntime) {
    let mut server = TestServer::new(rt.alloc());
    let mut first = new_session(&rt, rt.alloc(), "s1");
    let mut second = new_session(&rt, rt.alloc(), "s2");
    let opening = first.opening().expect(&rt, "out of memory");
    assert!(rt; opening.as_str() == OPENING);
    assert!(rt; server.answers(&mut first, SUBSCRIBE, SUBSCRIBED));
    assert!(rt; server.answers(&mut second, SUBSCRIBE, SUBSCRIBED));
    store_long_text(&rt, rt.alloc(), &mut server, &mut first);
    assert!(rt; server.pump_counts(&mut first) == Some((1, 0)));
    assert!(rt; server.pump_counts(&mut second) == Some((1, 1)));
    fetch_long_text(&rt, rt.alloc(), &mut server, &mut second);
}

// Reads the queue of the subscription at a position. Returns the numbers of entries taken and of
// messages sent.
fn pump_one_counts(
    rt: &impl Abort,
    alloc: Global,
    server: &mut TestServer,
    session: &mut Session,
    position: usize,
) -> (u128, usize) {
    let mut texts: Vec<String> = Vec::new(alloc);
    let (shard, table) = (&mut server.shard, &server.table);
    let taken = session.pump_one_to(&Solo, shard, table, position, 1, &mut texts);
    (taken.ok().expect(rt, "out of memory"), texts.len())
}

#[test]
fn each_queue_is_pumped_alone(rt: HostRuntime) {
    let alloc = rt.alloc();
    let mut server = TestServer::new(alloc);
    let mut first = new_session(&rt, alloc, "s1");
    let mut second = new_session(&rt, alloc, "s2");
    assert_eq!(rt; second.subscription_count(), 0);
    assert!(rt; pump_one_counts(&rt, alloc, &mut server, &mut second, 0) == (0, 0));
    for subscribe in [SUBSCRIBE, r#"{"a":"s","c":"b","d":"2"}"#] {
        let _ = server.answers_to(&rt, &mut second, subscribe);
    }
    assert_eq!(rt; second.subscription_count(), 2);
    let create = r#"{"a":"op","c":"b","d":"2","seq":1,"create":{"type":"json0","data":1}}"#;
    let edit = r#"{"a":"op","c":"b","d":"2","seq":2,"v":1,"op":[{"p":[],"na":1}]}"#;
    for message in [create, edit] {
        let _ = server.answers_to(&rt, &mut first, message);
    }
    for (position, wanted) in [
        (0, (0, 0)),
        (1, (1, 1)),
        (2, (0, 0)),
        (1, (1, 1)),
        (1, (0, 0)),
    ] {
        let counts = pump_one_counts(&rt, alloc, &mut server, &mut second, position);
        assert!(rt; counts == wanted);
    }
}

// Stores an edit that adds 1 for each seq of the range.
fn store_edits(
    rt: &impl Abort,
    alloc: Global,
    server: &mut TestServer,
    session: &mut Session,
    from: u64,
    to: u64,
) {
    let add = r#"{"a":"op","c":"b","d":"1","v":null,"op":[{"p":[],"na":1}],"seq":"#;
    for seq in from..=to {
        let edit = format!(in alloc; "{add}{seq}}}").expect(rt, "out of memory");
        assert!(rt; server.answers_to(rt, session, edit.as_str()).len() == 1);
    }
}

// The message of the operation that creates the document.
const OP_MESSAGE: &str =
    r#"{"a":"op","c":"b","create":{"data":0,"type":"http://sharejs.org/types/JSONv0"},"d":"1","seq":1,"src":"s1","v":0}"#;

// Returns the message of the operation at this version.
fn message_at(rt: &impl Abort, alloc: Global, version: usize) -> String {
    if version == 0 {
        return text(rt, alloc, OP_MESSAGE);
    }
    let edit = r#"{"a":"op","c":"b","d":"1","op":[{"na":1,"p":[]}],"seq":"#;
    let seq = version.saturating_add(1);
    format!(in alloc; r#"{edit}{seq},"src":"s1","v":{version}}}"#).expect(rt, "out of memory")
}

// Checks that the list has the messages from the version on, and this end.
fn assert_messages(
    rt: &impl Abort,
    alloc: Global,
    list: &[String],
    from: usize,
    length: usize,
    end: &str,
) {
    assert!(rt; list.len().saturating_add(from) == length.saturating_add(1));
    for (at, message) in list.iter().enumerate() {
        let version = from.saturating_add(at);
        if version == length {
            assert!(rt; message.as_str() == end);
        } else {
            assert!(rt; message.as_str() == message_at(rt, alloc, version).as_str());
        }
    }
}

// Checks the lists of all operations and from later versions.
fn assert_list(
    rt: &impl Abort,
    alloc: Global,
    server: &mut TestServer,
    session: &mut Session,
    kind: &str,
    length: usize,
) {
    for from in [0, 1, length / 2, length.saturating_sub(1)] {
        let list = format!(in alloc; r#"{{"a":"{kind}","c":"b","d":"1","v":{from}}}"#);
        let list = list.expect(rt, "out of memory");
        let list = server.answers_to(rt, session, list.as_str());
        let end = format!(in alloc; r#"{{"a":"{kind}","c":"b","d":"1"}}"#);
        let end = end.expect(rt, "out of memory");
        assert_messages(rt, alloc, list.as_slice(), from, length, end.as_str());
    }
}

// Covers lists that end before, at and after the end of a batch.
#[test]
fn long_lists_are_written_in_batches(rt: HostRuntime) {
    let alloc = rt.alloc();
    let mut server = TestServer::new(alloc);
    let mut session = new_session(&rt, alloc, "s1");
    let create = r#"{"a":"op","c":"b","d":"1","seq":1,"create":{"type":"json0","data":0}}"#;
    assert!(rt; server.answers_to(&rt, &mut session, create).len() == 1);
    let mut length: u64 = 1;
    for wanted in [1_023, 1_024, 1_025, 2_049] {
        store_edits(
            &rt,
            alloc,
            &mut server,
            &mut session,
            length.saturating_add(1),
            wanted,
        );
        length = wanted;
        for kind in ["f", "s"] {
            assert_list(&rt, alloc, &mut server, &mut session, kind, length as usize);
        }
        assert!(rt; server.pump_counts(&mut session) == Some((0, 0)));
    }
}

// Stores an edit for each of 20 sources, after `before` earlier ones, and checks that each answer
// names its source.
fn store_edits_of_sources(
    rt: &impl Abort,
    alloc: Global,
    server: &mut TestServer,
    session: &mut Session,
    before: u64,
) {
    let add = r#"{"a":"op","c":"b","d":"1","op":[{"p":[],"na":1}],"seq""#;
    let stored = r#"{"a":"op","c":"b","d":"1","seq""#;
    for source in 1u64..=20 {
        let version = source.saturating_add(before);
        let edit = format!(in alloc; r#"{add}:{version},"src":"u{source}"}}"#).expect(
            rt,
            "out of memory",
        );
        let wanted = format!(in alloc; r#"{stored}:{version},"src":"u{source}","v":{version}}}"#);
        let wanted = wanted.expect(rt, "out of memory");
        assert!(rt; server.answers(session, edit.as_str(), wanted.as_str()));
    }
}

// There are more sources than a session interns.
#[test]
fn each_acknowledgement_names_its_source(rt: HostRuntime) {
    let alloc = rt.alloc();
    let mut server = TestServer::new(alloc);
    let mut session = new_session(&rt, alloc, "s1");
    let create = r#"{"a":"op","c":"b","d":"1","seq":1,"create":{"type":"json0","data":0}}"#;
    assert!(rt; server.answers_to(&rt, &mut session, create).len() == 1);
    store_edits_of_sources(&rt, alloc, &mut server, &mut session, 0);
    store_edits_of_sources(&rt, alloc, &mut server, &mut session, 20);
}
