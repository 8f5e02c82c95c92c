//! Tests with clients over sockets: two or more clients, large messages, and requests without a
//! handshake.
ghost use Rattle.std.specs.Prelude.{IfOk};
ghost use Rattle.sdb_backend.specs.PassModel.{IsHostOfBackend};
ghost use Rattle.sdb_backend.specs.declared.pass.Host.{Host as HostState};
ghost use Rattle.sdb_event_loop.specs.LoopModel.{IsHostOfLoops};

use crate::clients::{
    Client, FIRST_INIT, connect_tcp, exchange, expect_close, expect_text, open_session,
    try_open_session,
};
use crate::nesting::nest_deeply;
use crate::wakeups::{end_after_a_message, receive_at_once};
use sdb_backend::Backend;
use sdb_event_loop::{DEFAULT_LOOP_CLIENTS, LoopOptions, LoopServer, listen_on_loops};
use sdb_projection::Table;
use std::alloc::{AllocError, Global};
use std::io::Write;
use std::net::{Net, Shutdown, SocketAddr, TcpListener, TcpStream};
use std::process::Abort;
use std::sync::atomic::{AtomicBool, Ordering};
use std::sync::{Arc, Wait};
use std::thread::Threads;
use std::time::Clock;
use std::{io, thread};
use tungstenite::{CloseCode, Message};

// The number of clients served at once, and the number of connections in all.
const SLOTS: u64 = 64;

const CONNECTION_COUNT: u64 = 128;

// The maximum number of attempts of a client to be served, or of reads until a close.
const TRY_LIMIT: u64 = 1_000;

// The number of requests during which the server must not end.
const REQUEST_COUNT: u64 = 200;

pub(crate) const FETCH: &str = r#"{"a":"f","c":"b","d":"1"}"#;

pub(crate) const FETCHED: &str = r#"{"a":"f","c":"b","d":"1","data":{"type":null,"v":0}}"#;

const BADLY_FORMED: &str =
    r#"{"error":{"code":"ERR_MESSAGE_BADLY_FORMED","message":"message is badly formed"}}"#;

// Creates the state of a server of one loop without projections, which stops after so many sessions.
fn server<R: Drop>(
    alloc: Global,
    backend: Backend<R>,
    sessions: u64,
) -> Result<Arc<LoopServer<R, Table>, Global>, AllocError>
    ensures { IfOk result (λ s. (h : HostState) → IsHostOfBackend h backend → IsHostOfLoops h s.value) }
{
    let options = LoopOptions {
        loops: 1,
        clients: DEFAULT_LOOP_CLIENTS,
    };
    let state = LoopServer::new(alloc, backend, Table::new(alloc), options)?;
    let limited = state.with_session_limit(Some(sessions));
    Ok(Arc::new(alloc, limited)?)
}

// Serves so many sessions.
fn serve_clients<R>(rt: R, listener: TcpListener, sessions: u64) -> io::Result<()>
where
    R: AllocGlobal + Eprint + Net<Listener = TcpListener, Stream = TcpStream>,
    R: Threads + Wait + Clock + Drop + Copy + Send + Sync + 'static,
{
    let alloc = rt.alloc();
    let (backend, mut host) = Backend::new(alloc, rt)?;
    let state = server(alloc, backend, sessions)?;
    listen_on_loops(rt, alloc, listener, &state, &mut host)?;
    Ok(())
}

const INIT_PREFIX: &str = r#"{"a":"init","id":"s"#;

const INIT_SUFFIX: &str =
    r#"","protocol":1,"protocolMinor":1,"type":"http://sharejs.org/types/JSONv0"}"#;

fn init_message(abort: &impl Abort, alloc: Global, number: u64) -> String {
    format!(in alloc; "{INIT_PREFIX}{number}{INIT_SUFFIX}").expect(abort, "out of memory")
}

pub(crate) const SECOND_INIT: &str =
    r#"{"a":"init","id":"s2","protocol":1,"protocolMinor":1,"type":"http://sharejs.org/types/JSONv0"}"#;

pub(crate) const CREATE: &str =
    r#"{"a":"op","c":"b","d":"1","v":null,"src":"x","seq":1,"create":{"type":"http://sharejs.org/types/JSONv0","data":{"n":1}}}"#;

pub(crate) const CREATED: &str = r#"{"a":"op","c":"b","d":"1","seq":1,"src":"x","v":0}"#;

pub(crate) const SUBSCRIBE: &str = r#"{"a":"s","c":"b","d":"1","v":null}"#;

pub(crate) const SUBSCRIBED: &str = r#"{"a":"s","c":"b","d":"1","data":{"data":{"n":1},"v":1}}"#;

pub(crate) const EDIT: &str =
    r#"{"a":"op","c":"b","d":"1","v":1,"src":"y","seq":1,"op":[{"p":["n"],"na":1}]}"#;

pub(crate) const EDITED: &str = r#"{"a":"op","c":"b","d":"1","seq":1,"src":"y","v":1}"#;

pub(crate) const OP_MESSAGE: &str =
    r#"{"a":"op","c":"b","d":"1","op":[{"na":1,"p":["n"]}],"seq":1,"src":"y","v":1}"#;

// Connects the first client, which creates the document and subscribes to it.
pub(crate) fn open_subscriber(
    abort: &impl Abort,
    rt: HostRuntime,
    alloc: Global,
    address: SocketAddr,
) -> Client {
    let mut client = open_session(abort, rt, alloc, address, FIRST_INIT);
    let texts = [(CREATE, CREATED), (SUBSCRIBE, SUBSCRIBED)];
    exchange(abort, alloc, &mut client, &texts);
    client
}

// Creates the document.
pub(crate) fn create_document(abort: &impl Abort, alloc: Global, client: &mut Client) {
    exchange(abort, alloc, client, &[(CREATE, CREATED)]);
}

// Connects the second client, which edits the document of the subscriber and disconnects.
fn edit_as_second_client(
    abort: &impl Abort,
    rt: HostRuntime,
    alloc: Global,
    address: SocketAddr,
    subscriber: &mut Client,
) {
    let mut client = open_session(abort, rt, alloc, address, SECOND_INIT);
    exchange(abort, alloc, &mut client, &[(EDIT, EDITED)]);
    expect_text(abort, subscriber, OP_MESSAGE);
}

// Connects a client, repeatedly until it is served.
fn open_session_with_retry(
    abort: &impl Abort,
    rt: HostRuntime,
    alloc: Global,
    address: SocketAddr,
    init: &str,
) -> Client {
    for _ in 0..TRY_LIMIT {
        if let Some(client) = try_open_session(abort, rt, alloc, address, init) {
            return client;
        }
    }
    panic!(abort; "no slot")
}

// Closes a connection, and waits until the server has closed it too.
pub(crate) fn close_session(abort: &impl Abort, mut client: Client) {
    assert!(abort; client.close(None).is_ok());
    for _ in 0..TRY_LIMIT {
        if client.read().is_err() {
            return;
        }
    }
    panic!(abort; "not closed by the server");
}

// Connects a client for each slot.
fn open_all_sessions(
    abort: &impl Abort,
    rt: HostRuntime,
    alloc: Global,
    address: SocketAddr,
) -> Vec<Client> {
    let mut clients = Vec::new(alloc);
    for number in 1..=SLOTS {
        let init = init_message(abort, alloc, number);
        let client = open_session(abort, rt, alloc, address, init.as_str());
        clients.push(client).expect(abort, "out of memory");
    }
    clients
}

// Checks that more clients are rejected while all slots are taken.
fn expect_rejections(abort: &impl Abort, rt: HostRuntime, alloc: Global, address: SocketAddr) {
    for _ in 0..3 {
        assert!(abort; try_open_session(abort, rt, alloc, address, "").is_none());
    }
}

// Closes each connection, and connects another client that takes and keeps the slot.
fn replace_sessions(
    abort: &impl Abort,
    rt: HostRuntime,
    alloc: Global,
    address: SocketAddr,
    mut first: Vec<Client>,
) {
    let mut next = Vec::new(alloc);
    for number in SLOTS + 1..=CONNECTION_COUNT {
        close_session(abort, first.pop().expect(abort, "a client"));
        let init = init_message(abort, alloc, number);
        let client = open_session_with_retry(abort, rt, alloc, address, init.as_str());
        next.push(client).expect(abort, "out of memory");
    }
}

// Takes all slots, checks that more clients are rejected, and then replaces each client.
fn fill_all_slots(abort: &impl Abort, rt: HostRuntime, alloc: Global, address: SocketAddr) {
    let clients = open_all_sessions(abort, rt, alloc, address);
    expect_rejections(abort, rt, alloc, address);
    replace_sessions(abort, rt, alloc, address, clients);
}

// Sends a fetch that is padded to this length in bytes.
fn exchange_padded(
    abort: &impl Abort,
    alloc: Global,
    client: &mut Client,
    length: usize,
    answer: &str,
) {
    let mut text = String::from_str(alloc, FETCH).expect(abort, "out of memory");
    for _ in text.len()..length {
        text.push(' ').expect(abort, "out of memory");
    }
    exchange(abort, alloc, client, &[(text.as_str(), answer)]);
}

fn send_large_messages(abort: &impl Abort, rt: HostRuntime, alloc: Global, address: SocketAddr) {
    let mut client = open_session(abort, rt, alloc, address, FIRST_INIT);
    for (length, answer) in [
        (65_536, FETCHED),
        (65_537, FETCHED),
        (1_048_576, FETCHED),
        (1_048_577, BADLY_FORMED),
    ] {
        exchange_padded(abort, alloc, &mut client, length, answer);
    }
    expect_close(abort, &mut client, CloseCode::Size);
}

// A binary message is refused, and the next text is answered.
fn send_binary(abort: &impl Abort, rt: HostRuntime, alloc: Global, address: SocketAddr) {
    let mut client = open_session(abort, rt, alloc, address, FIRST_INIT);
    let message = Message::binary(alloc, FETCH.as_bytes()).ok();
    assert!(abort; client.send(message.expect(abort, "a message")).is_ok());
    expect_text(abort, &mut client, BADLY_FORMED);
    exchange(abort, alloc, &mut client, &[(FETCH, FETCHED)]);
}

// Sends requests to a server that must not end meanwhile.
fn send_many_requests(
    abort: &impl Abort,
    rt: HostRuntime,
    alloc: Global,
    address: SocketAddr,
    has_ended: &AtomicBool,
) {
    let mut client = open_session(abort, rt, alloc, address, FIRST_INIT);
    for _ in 0..REQUEST_COUNT {
        exchange(abort, alloc, &mut client, &[(FETCH, FETCHED)]);
        assert!(abort; !has_ended.load(Ordering::SeqCst));
    }
}

// Returns the response to an HTTP request for a path without an upgrade.
fn plain_answer(
    abort: &impl Abort,
    rt: HostRuntime,
    alloc: Global,
    address: SocketAddr,
    path: &str,
) -> String {
    let mut stream = connect_tcp(abort, rt, address);
    let request = format!(in alloc; "GET {path} HTTP/1.1\r\nHost: localhost\r\n\r\n");
    let request = request.expect(abort, "out of memory");
    assert!(abort;
        stream.write_all(request.as_bytes()).is_ok() && stream.shutdown(Shutdown::Write).is_ok()
    );
    io::read_to_string(alloc, stream).expect(abort, "an answer")
}

// The response is 426 with a text about the server, and the connection is then closed.
pub(crate) fn expect_upgrade_required(
    abort: &impl Abort,
    rt: HostRuntime,
    alloc: Global,
    address: SocketAddr,
) {
    let answer = plain_answer(abort, rt, alloc, address, "/");
    let parts = answer.as_str().split_once("\r\n\r\n");
    let (head, body) = parts.expect(abort, "the end of the head");
    let length = format!(in alloc; "Content-Length: {}", body.len()).expect(abort, "out of memory");
    let is_explained = body.starts_with("This is Navirotsohy, a ShareDB server.")
        && body.ends_with('\n');
    let is_refused = head.lines().next() == Some("HTTP/1.1 426 Upgrade Required");
    let is_named = head.contains("\r\nUpgrade: websocket\r\n");
    assert!(abort; is_explained && is_refused && is_named && head.contains(length.as_str()));
}

// The body of `/health` for one client and two stored operations, up to the number of seconds.
const HEALTH: &str = r#"{"version":"0.1.0","clients":1,"documents":1,"entries":2,"uptime":"#;

// Lines of `/metrics` in this state.
const METRICS: [&str; 3] = [
    "navirotsohy_documents 1\n",
    "navirotsohy_entries 2\n",
    "navirotsohy_refusals_total{code=\"ERR_LIMIT\"} 0\n",
];

// A submission that is sent twice counts once.
pub(crate) fn expect_pages(
    abort: &impl Abort,
    rt: HostRuntime,
    alloc: Global,
    address: SocketAddr,
    client: &mut Client,
) {
    exchange(
        abort,
        alloc,
        client,
        &[(CREATE, CREATED), (CREATE, CREATED), (EDIT, EDITED)],
    );
    let health = plain_answer(abort, rt, alloc, address, "/health");
    let parts = health.as_str().split_once("\r\n\r\n");
    let (head, body) = parts.expect(abort, "the end of the head");
    assert!(abort;
        head.starts_with("HTTP/1.1 200 OK\r\n") && body.starts_with(HEALTH),
        "{body}"
    );
    let metrics = plain_answer(abort, rt, alloc, address, "/metrics");
    for line in METRICS {
        assert!(abort; metrics.as_str().contains(line), "{line}");
    }
}

// Connections without bytes or without a handshake do not count as sessions.
fn connect_without_handshake(
    abort: &impl Abort,
    rt: HostRuntime,
    alloc: Global,
    address: SocketAddr,
) {
    let silent = connect_tcp(abort, rt, address);
    expect_upgrade_required(abort, rt, alloc, address);
    let mut client = open_session(abort, rt, alloc, address, FIRST_INIT);
    exchange(abort, alloc, &mut client, &[(FETCH, FETCHED)]);
    expect_pages(abort, rt, alloc, address, &mut client);
    close_session(abort, client);
    drop(silent);
}

// The behavior of the clients of one server.
#[derive(Clone, Copy, Drop)]
enum ClientScenario {
    EditAndSubscribe,
    FillAllSlots,
    SendLargeMessages,
    SendBinary,
    SendManyRequests,
    ConnectWithoutHandshake,
    ReceiveAtOnce,
    EndAfterAMessage,
    NestDeeply,
}

impl ClientScenario {
    fn run(
        self,
        abort: &impl Abort,
        rt: HostRuntime,
        alloc: Global,
        address: SocketAddr,
        has_ended: &AtomicBool,
    ) {
        match self {
            ClientScenario::EditAndSubscribe => {
                edit_as_second_client(
                    abort,
                    rt,
                    alloc,
                    address,
                    &mut open_subscriber(abort, rt, alloc, address),
                )
            }
            ClientScenario::FillAllSlots => fill_all_slots(abort, rt, alloc, address),
            ClientScenario::SendLargeMessages => send_large_messages(abort, rt, alloc, address),
            ClientScenario::SendBinary => send_binary(abort, rt, alloc, address),
            ClientScenario::SendManyRequests => send_many_requests(
                abort, rt, alloc, address, has_ended,
            ),
            ClientScenario::ConnectWithoutHandshake => connect_without_handshake(
                abort, rt, alloc, address,
            ),
            ClientScenario::ReceiveAtOnce => receive_at_once(abort, rt, alloc, address),
            ClientScenario::EndAfterAMessage => end_after_a_message(abort, rt, alloc, address),
            ClientScenario::NestDeeply => nest_deeply(abort, rt, alloc, address),
        }
    }
}

// Covers edits by two clients, the limit of 64 clients and the reuse of their places. Also covers
// messages of 1,048,576 bytes and of one byte more, binary messages, the end of the server, and
// silent clients, which receive operations at once.
#[test]
fn clients_are_served_over_sockets(rt: HostRuntime) {
    let alloc = rt.alloc();
    for (scenario, sessions) in [
        (ClientScenario::EditAndSubscribe, 2),
        (ClientScenario::FillAllSlots, CONNECTION_COUNT),
        (ClientScenario::SendLargeMessages, 1),
        (ClientScenario::SendBinary, 1),
        (ClientScenario::SendManyRequests, 1),
        (ClientScenario::ConnectWithoutHandshake, 1),
        (ClientScenario::ReceiveAtOnce, 2),
        (ClientScenario::EndAfterAMessage, 1),
        (ClientScenario::NestDeeply, 1),
    ] {
        let listener = TcpListener::bind(&rt, "127.0.0.1:0").expect(&rt, "a port");
        let address = listener.local_addr().expect(&rt, "an address");
        let ended = Arc::new(alloc, AtomicBool::new(false)).expect(&rt, "out of memory");
        let seen = Arc::try_clone(&ended).expect(&rt, "one more");
        let clients = thread::spawn(&rt, move || scenario.run(&rt, rt, alloc, address, &seen));
        let clients = clients.expect(&rt, "a thread");
        assert!(rt; serve_clients(rt, listener, sessions).is_ok());
        ended.store(true, Ordering::SeqCst);
        clients.join(&rt);
    }
}
