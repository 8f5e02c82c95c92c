//! Tests of a server on two event loops, with clients over sockets.
ghost use Rattle.std.specs.Prelude.{IfOk};
ghost use Rattle.sdb_backend.specs.PassModel.{IsHostOfBackend};
ghost use Rattle.sdb_backend.specs.declared.pass.Host.{Host as HostState};
ghost use Rattle.sdb_event_loop.specs.LoopModel.{IsHostOfLoops};

use crate::clients::{
    Client, connect_websocket, exchange, expect_close, expect_text, next_message, try_open_session,
};
use crate::connections::{
    EDIT, EDITED, FETCH, FETCHED, OP_MESSAGE, SUBSCRIBE, SUBSCRIBED, create_document,
    expect_upgrade_required,
};
use crate::wakeups::{assert_soon, now};
use sdb_backend::Backend;
use sdb_event_loop::{LoopOptions, LoopServer, listen_on_loops};
use sdb_oplog::Log;
use sdb_projection::Table;
use std::alloc::{AllocError, Global};
use std::net::{SocketAddr, TcpListener};
use std::process::Abort;
use std::sync::{Arc, Wait};
use std::test::Fail;
use std::thread;
use tungstenite::{CloseCode, Message};

// Two loops and five clients: consecutive connections are accepted by different loops.
const OPTIONS: LoopOptions = LoopOptions {
    loops: 2,
    clients: 5,
};

// Creates the state of a server on loops without projections.
fn loop_server<R: Drop>(
    alloc: Global,
    backend: Backend<R>,
) -> Result<Arc<LoopServer<R, Table>, Global>, AllocError>
    ensures { IfOk result (λ s. (h : HostState) → IsHostOfBackend h backend → IsHostOfLoops h s.value) }
{
    let state = LoopServer::new(alloc, backend, Table::new(alloc), OPTIONS)?.with_log(true);
    Ok(Arc::new(alloc, state)?)
}

// Connects a client, and reads the opening message of any session.
fn open_any(abort: &impl Abort, rt: HostRuntime, alloc: Global, address: SocketAddr) -> Client {
    let mut client = connect_websocket(abort, rt, alloc, address);
    assert!(abort; matches!(next_message(abort, &mut client), Message::Text(_)));
    client
}

// Connects a client for each place.
fn open_all(
    abort: &impl Abort,
    rt: HostRuntime,
    alloc: Global,
    address: SocketAddr,
) -> Vec<Client> {
    let mut clients = Vec::new(alloc);
    for _ in 0..OPTIONS.clients {
        let client = open_any(abort, rt, alloc, address);
        clients.push(client).expect(abort, "out of memory");
    }
    clients
}

// Each client but the first subscribes. The first edits, and all others receive the operation.
fn edit_as_first_client(
    abort: &impl Abort,
    alloc: Global,
    mut clients: Vec<Client>,
) -> Vec<Client> {
    let mut editor = clients.pop().expect(abort, "a client");
    exchange(abort, alloc, &mut editor, &[(FETCH, FETCHED)]);
    create_document(abort, alloc, &mut editor);
    for client in &mut clients {
        exchange(abort, alloc, client, &[(SUBSCRIBE, SUBSCRIBED)]);
    }
    exchange(abort, alloc, &mut editor, &[(EDIT, EDITED)]);
    for client in &mut clients {
        expect_text(abort, client, OP_MESSAGE);
    }
    clients.push(editor).expect(abort, "out of memory");
    clients
}

// Takes all places, edits, and stops the server, which closes each session at once.
fn use_and_stop<R: Drop, H: Abort + Wait>(
    abort: &H,
    rt: HostRuntime,
    alloc: Global,
    address: SocketAddr,
    state: &LoopServer<R, Table>,
) {
    let mut clients = edit_as_first_client(abort, alloc, open_all(abort, rt, alloc, address));
    assert!(abort; try_open_session(abort, rt, alloc, address, "").is_none());
    expect_upgrade_required(abort, rt, alloc, address);
    let began = now(abort, rt);
    state.stop(abort);
    for client in &mut clients {
        expect_close(abort, client, CloseCode::Away);
    }
    assert_soon(abort, rt, began);
}

// Two loops serve as many clients as they may, and refuse one more. A stored operation reaches the
// subscribers of both loops. Once the server is stopped, all passes come back.
#[test]
fn loops_serve_clients_and_return_their_passes(rt: HostRuntime) -> Result<(), Fail> {
    let alloc = rt.alloc();
    let listener = TcpListener::bind(&rt, "127.0.0.1:0")?;
    let address = listener.local_addr()?;
    let (backend, mut host) = Backend::new(alloc, rt)?;
    let state = loop_server(alloc, backend)?;
    let theirs = Arc::try_clone(&state)?;
    let clients = thread::spawn(&rt, move || use_and_stop(&rt, rt, alloc, address, &theirs))?;
    let passes = listen_on_loops(rt, alloc, listener, &state, &mut host)?;
    clients.join(&rt);
    let Ok(state) = Arc::try_unwrap(state) else {
        return Err("sessions are still open".into());
    };
    let Ok(audit) = state.into_backend().close(host, passes) else {
        return Err("not closed".into());
    };
    let keys = audit.documents()?;
    let length = keys.first().and_then(|key| audit.log(key)).map(Log::len);
    assert!(rt; (keys.len(), audit.queues(), length) == (1, 0, Some(2)));
    Ok(())
}
