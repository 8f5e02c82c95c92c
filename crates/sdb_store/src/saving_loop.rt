//! The rounds of the thread that saves.
ghost use Rattle.sdb_backend.specs.PassModel.{IsPassOfBackend};
ghost use Rattle.sdb_store.specs.SaverModel.{saver_pass};

use crate::line_writer::{LineWriter, WriteFault};
use crate::saver::{SaveFault, Saver};
use sdb_backend::Backend;
use sdb_progress::SaveProgress;
use std::sync::Wait;
use std::thread;
use std::time::{Clock, Duration, Instant};

// Longest pause in seconds between two rounds, and between two checks of the journal's place.
const PAUSE_SECONDS: u64 = 1;

// Seconds for which a last round that fails is repeated.
const LAST_SECONDS: u64 = 3;

/// A listener of rounds. It is notified after each round that was committed or has failed.
pub trait RoundListener {
    /// Wakes the threads that wait for a round, and records its result.
    fn notify(&self, saved: Result<(), SaveFault>);
}

/// Saves what the backend lists, in rounds, until the progress is closed and a last round is
/// committed. A round that fails is repeated after a second; a last one for some seconds. Once a
/// second a round first checks that the journal is where it was.
///
/// # Errors
///
/// The [`SaveFault`] of a round that can't be repeated, or of the last one. Nothing is saved
/// afterwards, and the progress is over.
pub fn save_until_closed<R: Wait + Clock + Drop, W: LineWriter, L: RoundListener>(
    rt: &R,
    backend: &Backend<R>,
    saver: &mut Saver,
    writer: &mut W,
    progress: &SaveProgress,
    listener: &L,
) -> Result<(), SaveFault>
    requires { IsPassOfBackend (saver_pass saver.old) backend.now }
    ensures { IsPassOfBackend (saver_pass saver.new) backend.now }
{
    let (mut closing_since, mut checked) = (None, None);
    for _ in rt.forever() {
        let is_last = progress.is_closing();
        let saved = save_once(rt, backend, saver, writer, progress, &mut checked);
        if is_end(saved, is_last, is_last && is_late(rt, &mut closing_since)) {
            progress.end();
            listener.notify(saved);
            return saved;
        }
        listener.notify(saved);
        pause(rt, saved, progress);
    }
    unreachable!()
}

// Checks that the journal is where it was, if the last check was a second ago.
fn check_place<R: Clock, W: LineWriter>(
    rt: &R,
    writer: &W,
    checked: &mut Option<Instant>,
) -> Result<(), WriteFault> {
    let now = Instant::now(rt).ok();
    if let (Some(last), Some(now)) = (*checked, now)
        && now.saturating_duration_since(last) < Duration::from_secs(PAUSE_SECONDS)
    {
        return Ok(());
    }
    *checked = now;
    writer.check()
}

// Makes one round. The journal's place is checked first, if the last check was a second ago.
fn save_once<R: Wait + Clock + Drop, W: LineWriter>(
    rt: &R,
    backend: &Backend<R>,
    saver: &mut Saver,
    writer: &mut W,
    progress: &SaveProgress,
    checked: &mut Option<Instant>,
) -> Result<(), SaveFault>
    requires { IsPassOfBackend (saver_pass saver.old) backend.now }
    ensures { IsPassOfBackend (saver_pass saver.new) backend.now }
{
    check_place(rt, writer, checked)?;
    let round = progress.begin_round();
    let start = Instant::now(rt).ok();
    saver.save_round(backend, writer, progress.requested_number())?;
    progress.end_round(round, saver.reserved());
    record_group(rt, writer, progress, start);
    Ok(())
}

// Records the group of a round that began at this time, if one was committed.
fn record_group<R: Clock, W: LineWriter>(
    rt: &R,
    writer: &mut W,
    progress: &SaveProgress,
    start: Option<Instant>,
) {
    let Some(entries) = writer.take_written() else {
        return;
    };
    let micros = match (start, Instant::now(rt)) {
        (Some(start), Ok(end)) => end.saturating_duration_since(start).as_micros(),
        _ => 0,
    };
    progress
        .record()
        .add_group(entries, u64::try_from(micros).unwrap_or(u64::MAX));
}

// Returns whether no round follows: the last one is saved, or can't be.
fn is_end(saved: Result<(), SaveFault>, is_last: bool, is_late: bool) -> bool {
    match saved {
        Ok(()) => is_last,
        Err(fault) => !fault.is_temporary() || is_late,
    }
}

// Returns whether the last round has been tried for some seconds.
fn is_late<R: Clock>(rt: &R, since: &mut Option<Instant>) -> bool {
    let Ok(now) = Instant::now(rt) else {
        return true;
    };
    match *since {
        Some(start) => now.saturating_duration_since(start) >= Duration::from_secs(LAST_SECONDS),
        None => {
            *since = Some(now);
            false
        }
    }
}

// Waits for the next request, or for a second after a failure.
fn pause<R: Wait + Clock>(rt: &R, saved: Result<(), SaveFault>, progress: &SaveProgress) {
    let longest = Duration::from_secs(PAUSE_SECONDS);
    match saved {
        Ok(()) => progress.wait(rt, longest),
        Err(_) => thread::sleep(rt, longest),
    }
}
