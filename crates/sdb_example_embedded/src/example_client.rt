//! A client that creates a document, edits it as a guest, and fetches it.
use std::net::{Net, SocketAddr, TcpStream};
use std::random::RandomSource;
use tungstenite::handshake::client::request_of;
use tungstenite::{Message, RandomKeys, WebSocket, client};

const MESSAGES: [&str; 3] = [
    r#"{"a":"op","c":"board","d":"1","seq":1,"create":{"type":"json0","data":{"votes":0}}}"#,
    r#"{"a":"op","c":"board","d":"1","v":1,"src":"guest","seq":1,"op":[{"p":["votes"],"na":1}]}"#,
    r#"{"a":"f","c":"board","d":"1"}"#,
];

// Connects to the server at the address and prints the messages received. Errors end the session
// silently.
pub(crate) fn run_client<R>(rt: R, address: SocketAddr)
where
    R: AllocGlobal + Print + Net<Stream = TcpStream> + RandomSource + Drop + Copy,
{
    let _ = exchange_messages(rt, address);
}

// Prints the init message, then the answer to each request.
fn exchange_messages<R>(rt: R, address: SocketAddr) -> Option<()>
where
    R: AllocGlobal + Print + Net<Stream = TcpStream> + RandomSource + Drop + Copy,
{
    let alloc = rt.alloc();
    let stream = TcpStream::connect(&rt, address).ok()?;
    let request = request_of(alloc, "ws://localhost/").ok()?;
    let (mut socket, _) = client(alloc, rt, request, stream).ok()?;
    print_next(&rt, &mut socket)?;
    for message in MESSAGES {
        socket.send(Message::text(alloc, message).ok()?).ok()?;
        print_next(&rt, &mut socket)?;
    }
    Some(())
}

fn print_next<R>(rt: &R, socket: &mut WebSocket<TcpStream, RandomKeys<R>>) -> Option<()>
where
    R: Print + RandomSource + Drop,
{
    match socket.read().ok()? {
        Message::Text(text) => println!(rt; "{}", text.as_str()).ok(),
        _ => None,
    }
}
