//! Tests of two connections of one source.
ghost use Rattle.sdb_backend.specs.PassModel.{IsPassOfBackend};

use crate::session::{SUBSCRIBE, SUBSCRIBED, new_session};
use sdb_backend::{Backend, Pass};
use sdb_oplog::Moment;
use sdb_projection::Table;
use sdb_session::Session;
use std::alloc::Global;
use std::process::Abort;
use std::sync::Wait;

const CREATE: &str = r#"{"a":"op","c":"b","d":"1","seq":1,"create":{"type":"json0","data":0}}"#;

const CREATED: &str = r#"{"a":"op","c":"b","d":"1","seq":1,"src":"s1","v":0}"#;

// The message of that operation to other connections.
const OP_MESSAGE: &str =
    r#"{"a":"op","c":"b","create":{"data":0,"type":"http://sharejs.org/types/JSONv0"},"d":"1","seq":1,"src":"s1","v":0}"#;

// Returns whether this text is the only answer to the message.
fn answers<R: Wait + Drop>(
    alloc: Global,
    backend: &Backend<R>,
    pass: &mut Pass,
    session: &mut Session,
    text: &str,
    wanted: &str,
) -> bool
    requires { IsPassOfBackend pass.old backend.now }
    ensures { IsPassOfBackend pass.new backend.now }
{
    let table = Table::new(alloc);
    match session.handle(backend, pass, &table, text, Moment::zero()) {
        Ok(texts) => matches!(texts.as_slice(), [only] if only.as_str() == wanted),
        Err(_) => false,
    }
}

// Returns the messages of the entries that wait.
fn pumped<R: Wait + Drop>(
    rt: &impl Abort,
    alloc: Global,
    backend: &Backend<R>,
    pass: &mut Pass,
    session: &mut Session,
) -> Vec<String>
    requires { IsPassOfBackend pass.old backend.now }
    ensures { IsPassOfBackend pass.new backend.now }
{
    let table = Table::new(alloc);
    let pumped = session.pump(backend, pass, &table, 64).ok();
    let pumped = pumped.expect(rt, "out of memory");
    assert!(rt; pumped.taken == 1);
    pumped.texts
}

// A client reconnects while its first submission is being decided. The entry comes to the new
// connection as an operation message, and to the earlier one not at all.
#[test]
fn an_entry_of_an_earlier_connection_is_sent(rt: HostRuntime) {
    let alloc = rt.alloc();
    let (backend, mut host) = Backend::new(alloc, rt).expect(&rt, "out of memory");
    let mut first = backend.enter(&mut host).expect(&rt, "a pass");
    let mut second = backend.enter(&mut host).expect(&rt, "a pass");
    let mut earlier = new_session(&rt, alloc, "s1");
    let mut later = new_session(&rt, alloc, "s1");
    let is_first_subscribed = answers(
        alloc,
        &backend,
        &mut first,
        &mut earlier,
        SUBSCRIBE,
        SUBSCRIBED,
    );
    let is_second_subscribed = answers(
        alloc,
        &backend,
        &mut second,
        &mut later,
        SUBSCRIBE,
        SUBSCRIBED,
    );
    let is_created = answers(alloc, &backend, &mut first, &mut earlier, CREATE, CREATED);
    assert!(rt; is_first_subscribed && is_second_subscribed && is_created);
    let sent = pumped(&rt, alloc, &backend, &mut second, &mut later);
    assert!(rt; matches!(sent.as_slice(), [only] if only.as_str() == OP_MESSAGE));
    assert!(rt; pumped(&rt, alloc, &backend, &mut first, &mut earlier).is_empty());
    // a duplicate is acknowledged to both
    let is_second_repeated = answers(alloc, &backend, &mut second, &mut later, CREATE, CREATED);
    let is_first_repeated = answers(alloc, &backend, &mut first, &mut earlier, CREATE, CREATED);
    assert!(rt; is_second_repeated && is_first_repeated);
}
