//! Tests of a server whose output is held until operations are saved. The tests commit the rounds.
ghost use Rattle.std.specs.Prelude.{IfOk};
ghost use Rattle.sdb_backend.specs.PassModel.{IsHostOfBackend};
ghost use Rattle.sdb_backend.specs.declared.pass.Host.{Host as HostState};
ghost use Rattle.sdb_event_loop.specs.LoopModel.{IsHostOfLoops};

use crate::clients::{Client, FIRST_INIT, connect_websocket, expect_close, expect_text, send_text};
use crate::connections::{
    CREATE, CREATED, EDIT, EDITED, FETCH, FETCHED, OP_MESSAGE, SECOND_INIT, SUBSCRIBE, SUBSCRIBED,
};
use crate::wakeups::{assert_soon, now};
use mio::net::TcpStream as MioStream;
use sdb_backend::Backend;
use sdb_event_loop::{LoopOptions, LoopServer, listen_on_loops};
use sdb_link::{ClosingConnection, Deadlines, DueAction, Link, LoopTime, SessionEnd};
use sdb_loop_state::LargeTurns;
use sdb_progress::{Histogram, RoundFailure, SaveOutage, SaveProgress, SaveRecord};
use sdb_projection::Table;
use std::alloc::{AllocError, Global};
use std::net::{Net, SocketAddr, TcpListener, TcpStream};
use std::process::Abort;
use std::sync::{Arc, Wait};
use std::test::Fail;
use std::thread;
use std::thread::Threads;
use std::time::{Clock, Duration};
use tungstenite::CloseCode;

const OPTIONS: LoopOptions = LoopOptions {
    loops: 1,
    clients: 2,
};

// The highest number of a session that each round reserves.
const RESERVED: u64 = 64;

// Time in milliseconds for which no message must come.
const QUIET_MS: u64 = 300;

// The read timeout of a client, and the longest wait for a request, in seconds.
const PATIENCE_SECONDS: u64 = 20;

// Number of answers that are released one after the other, and time in milliseconds after which the loop
// waits for the round.
const ANSWER_COUNT: u64 = 8;

const WAIT_MS: u64 = 50;

// The length in bytes of a message whose turn lasts longer than a wake-up.
const LONG_MESSAGE: usize = 200_000;

// How a server ends: an operation was sent to two clients, the last output is saved, nothing more is
// saved, or the disk doesn't answer.
#[derive(Clone, Copy, PartialEq, Eq, Debug, Drop)]
enum Ending {
    Shared,
    Saved,
    Over,
    Hanging,
}

// Creates the state of a server that has saved nothing.
fn saving_server<R: Drop>(
    alloc: Global,
    backend: Backend<R>,
    progress: &Arc<SaveProgress, Global>,
) -> Result<Arc<LoopServer<R, Table>, Global>, AllocError>
    ensures { IfOk result (λ s. (h : HostState) → IsHostOfBackend h backend → IsHostOfLoops h s.value) }
{
    let progress = Arc::try_clone(progress)?;
    let state = LoopServer::new(alloc, backend, Table::new(alloc), OPTIONS)?;
    let saving = state.with_progress(progress);
    Ok(Arc::new(alloc, saving)?)
}

// Waits until a round is requested. The wake-up for an earlier request may end the first wait.
fn await_request<H: Abort + Wait>(abort: &H, progress: &SaveProgress) {
    let longest = Duration::from_secs(PATIENCE_SECONDS);
    progress.wait(abort, longest);
    progress.wait(abort, longest);
}

// Commits a round.
fn commit<R: Drop, H: Abort + Wait>(
    abort: &H,
    progress: &SaveProgress,
    state: &LoopServer<R, Table>,
) {
    let round = progress.begin_round();
    progress.end_round(round, RESERVED);
    state.notify_committed(abort);
}

// Checks that no message comes.
fn expect_nothing(abort: &impl Abort, client: &mut Client) {
    let quiet = Some(Duration::from_millis(QUIET_MS));
    let usual = Some(Duration::from_secs(PATIENCE_SECONDS));
    assert!(abort; client.get_mut().set_read_timeout(quiet).is_ok());
    assert!(abort; client.read().is_err());
    assert!(abort; client.get_mut().set_read_timeout(usual).is_ok());
}

// Checks that a message comes only after a round that is requested for it.
fn expect_once_saved<R: Drop, H: Abort + Wait>(
    abort: &H,
    progress: &SaveProgress,
    state: &LoopServer<R, Table>,
    client: &mut Client,
    text: &str,
) {
    await_request(abort, progress);
    expect_nothing(abort, client);
    commit(abort, progress, state);
    expect_text(abort, client, text);
}

// Each round wakes the loop, which releases the answer before its next sweep.
fn release_answers<R: Drop, H: Abort + Wait>(
    abort: &H,
    rt: HostRuntime,
    alloc: Global,
    progress: &SaveProgress,
    state: &LoopServer<R, Table>,
    client: &mut Client,
) {
    let began = now(abort, rt);
    for _ in 0..ANSWER_COUNT {
        send_text(abort, alloc, client, FETCH);
        await_request(abort, progress);
        thread::sleep(&rt, Duration::from_millis(WAIT_MS));
        commit(abort, progress, state);
        expect_text(abort, client, FETCHED);
    }
    assert_soon(abort, rt, began);
}

// Creates the document by a long message. A round is requested once the operation is stored, since one
// that begins before may miss it.
fn save_create<R: Drop, H: Abort + Wait>(
    abort: &H,
    alloc: Global,
    progress: &SaveProgress,
    state: &LoopServer<R, Table>,
    client: &mut Client,
) {
    let mut create = String::from_str(alloc, CREATE).expect(abort, "out of memory");
    for _ in create.len()..LONG_MESSAGE {
        create.push(' ').expect(abort, "out of memory");
    }
    send_text(abort, alloc, client, create.as_str());
    await_request(abort, progress);
    assert_eq!(abort; state.backend().counts().entries, 1);
    expect_once_saved(abort, progress, state, client, CREATED);
}

// The first client gets no session before its number is reserved, and each answer once it is saved.
fn save_answers<R: Drop, H: Abort + Wait>(
    abort: &H,
    rt: HostRuntime,
    alloc: Global,
    progress: &SaveProgress,
    state: &LoopServer<R, Table>,
    client: &mut Client,
) {
    await_request(abort, progress);
    expect_nothing(abort, client);
    commit(abort, progress, state);
    expect_once_saved(abort, progress, state, client, FIRST_INIT);
    release_answers(abort, rt, alloc, progress, state, client);
    save_create(abort, alloc, progress, state, client);
}

// The second client receives an operation of the first one once it is saved, as the first one its
// acknowledgement.
fn share_operation<R: Drop, H: Abort + Wait>(
    abort: &H,
    alloc: Global,
    progress: &SaveProgress,
    state: &LoopServer<R, Table>,
    first: &mut Client,
    second: &mut Client,
) {
    expect_once_saved(abort, progress, state, second, SECOND_INIT);
    send_text(abort, alloc, second, SUBSCRIBE);
    expect_once_saved(abort, progress, state, second, SUBSCRIBED);
    send_text(abort, alloc, first, EDIT);
    await_request(abort, progress);
    expect_nothing(abort, second);
    expect_once_saved(abort, progress, state, first, EDITED);
    expect_text(abort, second, OP_MESSAGE);
    state.stop(abort);
}

// The session of the second client ends as the server is stopped. Its last answer is sent once it is
// saved, and then the close.
fn save_after_stop<R: Drop, H: Abort + Wait>(
    abort: &H,
    alloc: Global,
    progress: &SaveProgress,
    state: &LoopServer<R, Table>,
    client: &mut Client,
) {
    expect_once_saved(abort, progress, state, client, SECOND_INIT);
    send_text(abort, alloc, client, SUBSCRIBE);
    await_request(abort, progress);
    state.stop(abort);
    expect_once_saved(abort, progress, state, client, SUBSCRIBED);
    expect_close(abort, client, CloseCode::Away);
}

// The session of the second client ends after nothing more is saved, or while the disk doesn't answer.
// It receives the close alone.
fn stop_unsaved<R: Drop, H: Abort + Wait>(
    abort: &H,
    alloc: Global,
    progress: &SaveProgress,
    state: &LoopServer<R, Table>,
    client: &mut Client,
    ending: Ending,
) {
    expect_once_saved(abort, progress, state, client, SECOND_INIT);
    send_text(abort, alloc, client, SUBSCRIBE);
    await_request(abort, progress);
    expect_nothing(abort, client);
    if ending == Ending::Over {
        progress.end();
    }
    state.stop(abort);
    expect_close(abort, client, CloseCode::Away);
}

fn use_and_stop<R: Drop, H: Abort + Wait>(
    abort: &H,
    rt: HostRuntime,
    alloc: Global,
    address: SocketAddr,
    progress: &SaveProgress,
    state: &LoopServer<R, Table>,
    ending: Ending,
) {
    let mut first = connect_websocket(abort, rt, alloc, address);
    save_answers(abort, rt, alloc, progress, state, &mut first);
    let mut second = connect_websocket(abort, rt, alloc, address);
    if ending == Ending::Shared {
        return share_operation(abort, alloc, progress, state, &mut first, &mut second);
    }
    drop(first);
    if ending == Ending::Saved {
        save_after_stop(abort, alloc, progress, state, &mut second);
    } else {
        stop_unsaved(abort, alloc, progress, state, &mut second, ending);
    }
}

// Serves two clients.
fn serve_two<R>(rt: R, client_rt: HostRuntime, ending: Ending) -> Result<(), Fail>
where
    R: Abort + AllocGlobal + Eprint + Net<Listener = TcpListener, Stream = TcpStream>,
    R: Threads + Wait + Clock + Drop + Copy + Send + Sync + 'static,
{
    let alloc = rt.alloc();
    let listener = TcpListener::bind(&rt, "127.0.0.1:0")?;
    let address = listener.local_addr()?;
    let (backend, mut host) = Backend::new(alloc, rt)?;
    let progress = Arc::new(alloc, SaveProgress::new(0))?;
    let state = saving_server(alloc, backend, &progress)?;
    let theirs = Arc::try_clone(&state)?;
    let clients = thread::spawn(&rt, move || {
        use_and_stop(&rt, client_rt, alloc, address, &progress, &theirs, ending)
    })?;
    listen_on_loops(rt, alloc, listener, &state, &mut host)?;
    clients.join(&rt);
    Ok(())
}

#[test]
fn operations_of_others_are_held_until_they_are_saved(rt: HostRuntime) -> Result<(), Fail> {
    serve_two(rt, rt, Ending::Shared)
}

#[test]
fn output_is_held_until_it_is_saved(rt: HostRuntime) -> Result<(), Fail> {
    serve_two(rt, rt, Ending::Saved)
}

#[test]
fn output_is_discarded_if_nothing_more_is_saved(rt: HostRuntime) -> Result<(), Fail> {
    serve_two(rt, rt, Ending::Over)
}

#[test]
fn a_stop_closes_clients_while_the_disk_hangs(rt: HostRuntime) -> Result<(), Fail> {
    serve_two(rt, rt, Ending::Hanging)
}

#[test]
fn a_hold_lasts_at_most_half_a_minute(rt: HostRuntime) {
    let mut deadlines = Deadlines::new(5);
    let mut time = LoopTime {
        second: 10,
        millis: 10_400,
        moment_millis: 0,
    };
    deadlines.begin_hold(time);
    assert!(rt; matches!(deadlines.next_action(39, true), DueAction::Nothing));
    assert!(rt;
        matches!(
            deadlines.next_action(40, true),
            DueAction::End(SessionEnd::Unsaved)
        )
    );
    time.second = 12;
    time.millis = 12_150;
    assert_eq!(rt; deadlines.end_hold(time), 1_750);
    assert!(rt; matches!(deadlines.next_action(40, false), DueAction::Nothing));
}

#[test]
fn a_closing_client_has_half_a_minute_for_held_output(rt: HostRuntime) -> Result<(), Fail> {
    let alloc = rt.alloc();
    let listener = TcpListener::bind(&rt, "127.0.0.1:0")?;
    let progress = SaveProgress::new(0);
    let mut link = Link::new(alloc, MioStream::connect(&rt, listener.local_addr()?)?);
    let mut output = Vec::from_elem(alloc, 0, 1)?;
    link.send(&mut output, Some(progress.request()))?;
    let closing = ClosingConnection::new(link, None, Vec::new(alloc), 5, false);
    assert!(rt; !closing.is_late(34, false));
    assert!(rt; closing.is_late(35, false));
    assert!(rt; closing.is_late(5, true));
    Ok(())
}

#[test]
fn a_round_commits_only_tickets_that_were_taken_before_it(rt: HostRuntime) {
    let progress = SaveProgress::new(0);
    let earlier = progress.request();
    let round = progress.begin_round();
    let later = progress.request();
    assert!(rt; !progress.is_committed(earlier));
    progress.end_round(round, 0);
    assert!(rt; progress.is_committed(earlier));
    assert!(rt; !progress.is_committed(later));
    let round = progress.begin_round();
    progress.end_round(round, 0);
    assert!(rt; progress.is_committed(later));
}

#[test]
fn a_number_is_given_once_it_is_reserved(rt: HostRuntime) {
    let progress = SaveProgress::new(3);
    assert!(rt; progress.reserve_number(3));
    assert!(rt; !progress.reserve_number(4));
    assert_eq!(rt; progress.requested_number(), 4);
    let round = progress.begin_round();
    progress.end_round(round, 4);
    assert!(rt; progress.reserve_number(4));
    assert!(rt; !progress.reserve_number(5));
}

#[test]
fn a_record_has_the_begin_of_an_outage(rt: HostRuntime) {
    let record = SaveRecord::new();
    assert!(rt; record.add_failure(RoundFailure::DiskFull, 100));
    assert!(rt; !record.add_failure(RoundFailure::DiskFailed, 103));
    let outage = SaveOutage {
        failure: RoundFailure::DiskFailed,
        since: 100,
    };
    assert!(rt; record.load().outage == Some(outage));
    assert!(rt; record.end_outage() == Some(outage));
    assert!(rt; record.end_outage().is_none());
    assert_eq!(rt; record.load().failures, 2);
}

#[test]
fn a_histogram_counts_by_its_bounds(rt: HostRuntime) {
    let histogram = Histogram::new([1, 2, 4, 8, 16, 32, 64, 128, 256, 512, 1_024, 4_096]);
    for number in [0, 1, 2, 3, 4, 4_096, 4_097] {
        histogram.add(number);
    }
    let counts = histogram.load();
    assert!(rt; counts.counts == [2, 1, 2, 0, 0, 0, 0, 0, 0, 0, 0, 1]);
    assert_eq!(rt; counts.above, 1);
    assert_eq!(rt; counts.sum, 8_203);
}

#[test]
fn a_place_of_a_large_turn_is_given_to_another_after_a_second(rt: HostRuntime) {
    let turns = LargeTurns::new();
    let first = turns.begin(0).expect(&rt, "a place");
    assert!(rt; turns.begin(500).is_some());
    assert!(rt; turns.begin(999).is_none());
    assert!(rt; !turns.has_place(1_000));
    assert!(rt; turns.has_place(1_001));
    let third = turns.begin(1_001).expect(&rt, "the first place");
    turns.end(first);
    assert!(rt; turns.begin(1_002).is_none());
    turns.end(third);
    assert!(rt; turns.begin(1_003).is_some());
}

#[test]
fn at_most_six_large_turns_last(rt: HostRuntime) {
    let turns = LargeTurns::new();
    let first = turns.begin(0).expect(&rt, "a place");
    for second in 0..5 {
        assert!(rt; turns.begin(second * 1_001).is_some());
    }
    assert!(rt; !turns.has_place(1_000_000));
    assert!(rt; turns.begin(1_000_000).is_none());
    turns.end(first);
    assert!(rt; turns.has_place(1_000_000));
    assert!(rt; turns.begin(1_000_000).is_some());
    assert!(rt; turns.begin(2_000_000).is_none());
}
