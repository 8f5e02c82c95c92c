//! A WebSocket server that sends each text message back. It measures the cost of the library, the
//! threads and the sockets without work on documents.
use std::alloc::Global;
use std::net::{Net, TcpListener, TcpStream};
use std::sync::Wait;
use std::thread;
use std::thread::Threads;
use tungstenite::{Error, NoMask, WebSocket, WebSocketConfig};

const READ_BUFFER_SIZE: usize = 16 * 1024;

/// Serves each connection at the address in its own thread, until the process is killed.
pub(crate) fn serve<R>(rt: R, address: &str) -> anyhow::Result<()>
where
    R: Net<Listener = TcpListener, Stream = TcpStream>
        + Threads
        + Wait
        + Print
        + Alloc<A = Global>
        + Copy
        + Send
        + 'static,
{
    let alloc = rt.alloc();
    let listener = TcpListener::bind(&rt, address)?;
    let open = listener.local_addr()?;
    println!(rt; "listening {open}")?;
    for stream in listener.incoming() {
        let stream = stream?;
        // The handle is dropped: the thread ends with its connection.
        drop(thread::spawn(&rt, move || connection(&rt, alloc, stream))?);
    }
    Ok(())
}

// Serves one connection from its handshake to its end.
fn connection(rt: &impl Wait, alloc: Global, stream: TcpStream) {
    if stream.set_nodelay(true).is_err() {
        return;
    }
    if let Ok(mut socket) = tungstenite::accept(alloc, stream) {
        socket.set_config(WebSocketConfig::default().read_buffer_size(READ_BUFFER_SIZE));
        // Each connection ends with an error, also when it is closed.
        let _ = echo(rt, &mut socket);
    }
}

fn echo(rt: &impl Wait, socket: &mut WebSocket<TcpStream, NoMask>) -> Result<(), Error> {
    for _ in rt.forever() {
        let message = socket.read()?;
        if message.is_text() {
            socket.write(message)?;
            socket.flush()?;
        }
    }
    unreachable!()
}
