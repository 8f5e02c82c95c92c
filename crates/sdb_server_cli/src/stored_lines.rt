//! A session over lines whose operations are saved in a file.
ghost use Rattle.std.specs.Prelude.{IfOk, OnOk};
ghost use Rattle.sdb_backend.specs.PassModel.{IsHostOfBackend, IsPassOfBackend};
ghost use Rattle.sdb_store.specs.SaverModel.{saver_pass};

use crate::store_file::FileWriter;
use sdb_backend::{Backend, Host, Pass};
use sdb_cli::{STATUS_FAULT, STATUS_OK, exit_status};
use sdb_linefile::LineFile;
use sdb_lines::{
    CountingReader, CountingWriter, Counts, LineHandler, LineProgress, RunFault, run_lines,
};
use sdb_projection::Table;
use sdb_server::{Clock, SystemClock};
use sdb_session::Session;
use sdb_store::{LineWriter, RestoredBackend, SaveFault, Saver};
use sqlite::Alter;
use std::alloc::{AllocError, Global};
use std::io::{Error, ErrorKind, Read, StdinLock, Write};
use std::sync::Wait;
use std::time::Duration;
use std::{io, thread};

// Maximum number of entries read from one queue at a time.
const TAKE_LIMIT: u64 = 64;

// Number of attempts to save, one each second.
const ATTEMPTS: u64 = 30;

// A session over lines on the documents of a backend. An answer is in memory as a whole.
#[derive(Drop)]
struct StoredLines<'a, R, C> {
    table: &'a Table,
    clock: C,
    backend: &'a Backend<R>,
    pass: Pass,
    session: Session,
    ghost belongs: { IsPassOfBackend pass backend.now },
}

impl<R: Wait + Drop, C: Clock + Drop> LineHandler for StoredLines<'_, R, C> {
    ghost use Rattle.std.specs.Prelude.{⊤};
    ghost use Rattle.sdb_session.specs.Dialogue.{opening};
    ghost use Rattle.sdb_session.specs.View.{plain_session};
    ghost use Rattle.sdb_server.specs.LineSource.{is_request};

    ghost State = { ⊤ };

    ghost state = { λ _. tt };

    ghost opening = { λ s. opening (plain_session s.session).source };

    ghost handles = { λ _ _ _ _. ⊤ };

    ghost is_answering = { λ _ _ _ _. ⊥ };

    ghost parts_left = { λ _. 0 };

    ghost counts_as_step = { is_request };

    fn write_opening(&self, _alloc: Global, out: &mut Vec<u8>) -> Result<(), AllocError> {
        self.session.opening_to(out)
    }

    fn handle(
        &mut self,
        alloc: Global,
        line: &str,
        out: &mut Vec<u8>,
    ) -> Result<LineProgress, AllocError> {
        let StoredLines {
            table,
            clock,
            backend,
            pass,
            session,
        } = self;
        let mut answer: Vec<u8> = Vec::new(alloc);
        let now = clock.now();
        let is_request = session.handle_to(*backend, pass, *table, line, now, &mut answer)?;
        session.pump_to(*backend, pass, table, TAKE_LIMIT, &mut answer)?;
        out.extend_from_slice(answer.as_slice())?;
        Ok(LineProgress::done(is_request))
    }

    fn continue_answer(&mut self, _alloc: Global, _out: &mut Vec<u8>) -> Result<bool, AllocError> {
        Ok(true)
    }

    fn handle_unreadable(&mut self, alloc: Global, out: &mut Vec<u8>) -> Result<(), AllocError> {
        let StoredLines {
            table,
            backend,
            pass,
            session,
            ..
        } = self;
        let mut answer: Vec<u8> = Vec::new(alloc);
        session.refuse_unreadable_to(&mut answer)?;
        session.pump_to(*backend, pass, table, TAKE_LIMIT, &mut answer)?;
        out.extend_from_slice(answer.as_slice())
    }
}

// Saves what the backend lists before it writes to the output.
#[derive(Drop)]
struct SavingWriter<'a, R, W, O> {
    rt: R,
    backend: &'a Backend<R>,
    saver: Saver,
    // The number of the session, which is reserved first.
    number: u64,
    writer: W,
    output: O,
    // The reason why nothing is written.
    fault: Option<SaveFault>,
    ghost pass_belongs: { IsPassOfBackend (saver_pass saver) backend.now },
}

impl<R: Wait + std::time::Clock + Drop, W: LineWriter, O: Write> SavingWriter<'_, R, W, O> {
    // Saves what the backend lists. Tries again each second, at most half a minute.
    fn save(&mut self) -> Result<(), SaveFault> {
        let mut saved = self.save_once();
        for _ in 1..ATTEMPTS {
            match saved {
                Err(fault) if fault.is_temporary() => {}
                _ => return saved,
            }
            thread::sleep(&self.rt, Duration::from_secs(1));
            saved = self.save_once();
        }
        saved
    }

    // Saves what was stored last, unless saving has failed.
    fn save_last(&mut self) {
        if self.fault.is_some() {
            return;
        }
        if let Err(fault) = self.save() {
            self.fault = Some(fault);
        }
    }

    fn save_once(&mut self) -> Result<(), SaveFault> {
        let SavingWriter {
            backend,
            saver,
            number,
            writer,
            ..
        } = self;
        writer.check()?;
        saver.save_round(*backend, writer, *number)
    }
}

impl<R: Wait + std::time::Clock + Drop, W: LineWriter, O: Write> Write
    for SavingWriter<'_, R, W, O> {
    fn write(&mut self, buf: &[u8]) -> io::Result<usize> {
        match self.save() {
            Ok(()) => self.output.write(buf),
            Err(fault) => {
                self.fault = Some(fault);
                Err(Error::from(ErrorKind::Other))
            }
        }
    }

    fn flush(&mut self) -> io::Result<()> {
        self.output.flush()
    }
}

/// Answers the lines of standard input as [`answer_input`](crate::answer_input) does, with the
/// documents of a file. Each operation is saved in the file before an answer reveals it. Returns the
/// exit status and the file.
///
/// # Errors
///
/// [`AllocError`] if an allocation fails before the session, or the error of printing a line.
pub(crate) fn answer_stored<R, S>(
    rt: R,
    restored: RestoredBackend<R>,
    writer: FileWriter<S>,
    table: &Table,
) -> anyhow::Result<(u8, LineFile<S>)>
where
    R: AllocGlobal + Input<Reader = StdinLock<'static>> + Print + Eprint,
    R: Wait + std::time::Clock + Copy + Drop,
    S: Alter + Drop,
    requires { IsHostOfBackend restored.host restored.backend }
{
    let RestoredBackend {
        backend,
        mut host,
        highest_number,
    } = restored;
    let (pass, saver) = enter_both(rt.alloc(), &backend, &mut host, highest_number)?;
    let session = Session::new(rt.alloc(), format!(in rt.alloc(); "s{}", pass.number())?);
    let writer = SavingWriter {
        rt,
        backend: &backend,
        saver,
        number: pass.number(),
        writer,
        output: io::writer(&rt),
        fault: None,
    };
    let handler = StoredLines {
        table,
        clock: SystemClock::new(&rt),
        backend: &backend,
        pass,
        session,
    };
    let (ended, writer) = answer_lines(rt.alloc(), handler, rt.reader(), writer);
    let SavingWriter { writer, fault, .. } = writer;
    Ok((print_ended(&rt, ended, fault)?, writer.into_file()))
}

// Creates the pass of the session, and the saver. From now on stored operations are listed.
fn enter_both<R: Wait + Drop>(
    alloc: Global,
    backend: &Backend<R>,
    host: &mut Host,
    reserved: u64,
) -> Result<(Pass, Saver), AllocError>
    requires { IsHostOfBackend host.old backend.now }
    ensures passes { IfOk result (λ both. IsPassOfBackend both.0 backend.now
        × IsPassOfBackend (saver_pass both.1) backend.now) }
{
    match (backend.enter(host), backend.enter(host)) {
        (Ok(pass), Ok(mut saving)) => {
            backend.list_unsaved(&mut saving);
            Ok((pass, Saver::new(alloc, saving, reserved)))
        }
        _ => Err(AllocError),
    }
}

// Answers the lines, and saves what was stored last. Returns the writer too.
fn answer_lines<'a, R, C, I, W, O>(
    alloc: Global,
    mut handler: StoredLines<'a, R, C>,
    input: I,
    writer: SavingWriter<'a, R, W, O>,
) -> (Result<Counts, RunFault>, SavingWriter<'a, R, W, O>)
where
    R: Wait + std::time::Clock + Drop,
    C: Clock + Drop,
    I: Read + Drop,
    W: LineWriter,
    O: Write,
{
    let mut reader = CountingReader::new(input);
    let mut counting = CountingWriter::new(writer);
    let ended = run_lines(alloc, &mut handler, &mut reader, &mut counting);
    let CountingWriter { mut stream, .. } = counting;
    stream.save_last();
    (ended, stream)
}

// Prints why the session has ended early, and returns the exit status.
fn print_ended<R: Print + Eprint>(
    rt: &R,
    ended: Result<Counts, RunFault>,
    fault: Option<SaveFault>,
) -> anyhow::Result<u8> {
    if let Some(fault) = fault {
        eprintln!(rt; "store: {fault}")?;
        return Ok(STATUS_FAULT);
    }
    match ended {
        Ok(_) => Ok(STATUS_OK),
        Err(fault) => Ok(exit_status(rt, fault)),
    }
}
