//! An example program that embeds the server, with a policy. It serves one client, which runs in
//! another thread.
#![tactic(auto)]

mod example_client;
mod guests_read;

use crate::guests_read::GuestsRead;
use sdb_backend::Backend;
use sdb_event_loop::{LoopOptions, LoopServer, listen_on_loops};
use sdb_projection::Table;
use std::net::TcpListener;
use std::sync::Arc;
use std::thread;

fn main(rt: HostRuntime) -> anyhow::Result<()> {
    let alloc = rt.alloc();
    let listener = TcpListener::bind(&rt, "127.0.0.1:0")?;
    let address = listener.local_addr()?;
    let client = thread::spawn(&rt, move || example_client::run_client(rt, address))?;
    let (backend, mut host) = Backend::new(alloc, rt)?;
    let options = LoopOptions {
        loops: 1,
        clients: 64,
    };
    let policy = GuestsRead {
        table: Table::new(alloc),
    };
    let state = LoopServer::new(alloc, backend, policy, options)?;
    let state = Arc::new(alloc, state.with_session_limit(Some(1)))?;
    listen_on_loops(rt, alloc, listener, &state, &mut host)?;
    client.join(&rt);
    Ok(())
}
