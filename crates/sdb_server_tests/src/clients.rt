//! WebSocket clients over TCP sockets, for the tests. Each failure, and each answer other than the
//! expected one, ends the test.
use std::alloc::Global;
use std::net::{SocketAddr, TcpStream};
use std::process::Abort;
use std::time::Duration;
use tungstenite::handshake::client::request_of;
use tungstenite::{CloseCode, Message, RandomKeys, WebSocket, client};

pub(crate) const FIRST_INIT: &str =
    r#"{"a":"init","id":"s1","protocol":1,"protocolMinor":1,"type":"http://sharejs.org/types/JSONv0"}"#;

pub(crate) type Client = WebSocket<TcpStream, RandomKeys<HostRuntime>>;

// The read timeout of a client, in seconds, far above the time a correct server needs.
const READ_TIMEOUT_SECONDS: u64 = 20;

// Opens a TCP connection to the address, with a read timeout.
pub(crate) fn connect_tcp(abort: &impl Abort, rt: HostRuntime, address: SocketAddr) -> TcpStream {
    let stream = TcpStream::connect(&rt, address).expect(abort, "a connection");
    let timeout = Some(Duration::from_secs(READ_TIMEOUT_SECONDS));
    stream.set_read_timeout(timeout).expect(abort, "a timeout");
    stream
}

// Connects a client to the address and completes the handshake.
pub(crate) fn connect_websocket(
    abort: &impl Abort,
    rt: HostRuntime,
    alloc: Global,
    address: SocketAddr,
) -> Client {
    let request = request_of(alloc, "ws://localhost/").ok();
    let request = request.expect(abort, "a request");
    match client(alloc, rt, request, connect_tcp(abort, rt, address)) {
        Ok((socket, _)) => socket,
        Err(_) => panic!(abort; "no handshake"),
    }
}

// Connects a client and reads the opening message. Returns `None` if the server closes with code
// 1013.
pub(crate) fn try_open_session(
    abort: &impl Abort,
    rt: HostRuntime,
    alloc: Global,
    address: SocketAddr,
    init: &str,
) -> Option<Client> {
    let mut socket = connect_websocket(abort, rt, alloc, address);
    let message = next_message(abort, &mut socket);
    if is_text(&message, init) {
        return Some(socket);
    }
    assert!(abort; is_close(&message, CloseCode::Again));
    None
}

// Connects a client and reads the opening message.
pub(crate) fn open_session(
    abort: &impl Abort,
    rt: HostRuntime,
    alloc: Global,
    address: SocketAddr,
    init: &str,
) -> Client {
    try_open_session(abort, rt, alloc, address, init).expect(abort, "a slot")
}

pub(crate) fn next_message(abort: &impl Abort, socket: &mut Client) -> Message {
    socket.read().ok().expect(abort, "a message")
}

// Returns whether a message is this text.
fn is_text(message: &Message, wanted: &str) -> bool {
    match message {
        Message::Text(text) => text.as_str() == wanted,
        _ => false,
    }
}

// Returns whether a message is a close with this code.
fn is_close(message: &Message, wanted: CloseCode) -> bool {
    match message {
        Message::Close(Some(frame)) => frame.code == wanted,
        _ => false,
    }
}

// Reads the next message and requires that it is this text.
pub(crate) fn expect_text(abort: &impl Abort, socket: &mut Client, wanted: &str) {
    assert!(abort; is_text(&next_message(abort, socket), wanted), "{wanted}");
}

// Reads the next message and requires that it is a close with this code.
pub(crate) fn expect_close(abort: &impl Abort, socket: &mut Client, wanted: CloseCode) {
    assert!(abort; is_close(&next_message(abort, socket), wanted));
}

pub(crate) fn send_text(abort: &impl Abort, alloc: Global, socket: &mut Client, text: &str) {
    let message = Message::text(alloc, text).ok().expect(abort, "a message");
    assert!(abort; socket.send(message).is_ok());
}

// Sends each text and requires the given answer.
pub(crate) fn exchange(
    abort: &impl Abort,
    alloc: Global,
    socket: &mut Client,
    texts: &[(&str, &str)],
) {
    for (text, answer) in texts {
        send_text(abort, alloc, socket, text);
        expect_text(abort, socket, answer);
    }
}
