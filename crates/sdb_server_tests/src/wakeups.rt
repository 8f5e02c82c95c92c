//! Tests of silent clients, and of a client that ends after a message.
use crate::clients::{
    FIRST_INIT, connect_websocket, exchange, expect_text, open_session, send_text,
};
use crate::connections::{EDIT, EDITED, FETCH, FETCHED, OP_MESSAGE, SECOND_INIT, open_subscriber};
use std::alloc::Global;
use std::net::{Shutdown, SocketAddr};
use std::process::Abort;
use std::time::{Duration, Instant};

// The time within which a session does all that needs no wait.
const SOON_MS: u64 = 4_000;

pub(crate) fn now(abort: &impl Abort, rt: HostRuntime) -> Instant {
    Instant::now(&rt).expect(abort, "a clock")
}

// Checks that little time has passed.
pub(crate) fn assert_soon(abort: &impl Abort, rt: HostRuntime, began: Instant) {
    assert!(abort; now(abort, rt).duration_since(began) < Duration::from_millis(SOON_MS));
}

const SECOND_EDIT: &str =
    r#"{"a":"op","c":"b","d":"1","v":2,"src":"y","seq":2,"op":[{"p":["n"],"na":2}]}"#;

const SECOND_EDITED: &str = r#"{"a":"op","c":"b","d":"1","seq":2,"src":"y","v":2}"#;

const SECOND_OP_MESSAGE: &str =
    r#"{"a":"op","c":"b","d":"1","op":[{"na":2,"p":["n"]}],"seq":2,"src":"y","v":2}"#;

// A silent subscriber receives each edit as soon as it is stored.
pub(crate) fn receive_at_once(
    abort: &impl Abort,
    rt: HostRuntime,
    alloc: Global,
    address: SocketAddr,
) {
    let mut subscriber = open_subscriber(abort, rt, alloc, address);
    let mut editor = open_session(abort, rt, alloc, address, SECOND_INIT);
    let began = now(abort, rt);
    exchange(abort, alloc, &mut editor, &[(EDIT, EDITED)]);
    expect_text(abort, &mut subscriber, OP_MESSAGE);
    exchange(abort, alloc, &mut editor, &[(SECOND_EDIT, SECOND_EDITED)]);
    expect_text(abort, &mut subscriber, SECOND_OP_MESSAGE);
    assert_soon(abort, rt, began);
}

// A client that sends a text and closes its sending side at once receives the answer, and its
// session ends.
pub(crate) fn end_after_a_message(
    abort: &impl Abort,
    rt: HostRuntime,
    alloc: Global,
    address: SocketAddr,
) {
    let mut client = connect_websocket(abort, rt, alloc, address);
    send_text(abort, alloc, &mut client, FETCH);
    assert!(abort; client.get_mut().shutdown(Shutdown::Write).is_ok());
    expect_text(abort, &mut client, FIRST_INIT);
    expect_text(abort, &mut client, FETCHED);
    let began = now(abort, rt);
    let _ = client.read();
    assert_soon(abort, rt, began);
}
