//! One session over lines.
ghost use Rattle.std.specs.Prelude.{◌≡◌, map, OnOk, OnErr, IfOk, IfSome};
ghost use Rattle.sdb_lines.specs.Counts.{AreCountsOf};
ghost use Rattle.sdb_lines.specs.Lines.{readable_text, lines_of};
ghost use Rattle.sdb_lines.specs.Streams.{ReadFaultIsCounted, WriteFaultIsCounted};
ghost use Rattle.sdb_session.specs.Dialogue.{opening};
ghost use Rattle.sdb_session.specs.View.{plain_session};
ghost use Rattle.sdb_server.specs.LineSource.{is_request};
ghost use Rattle.sdb_server.specs.Runs.{LineState, HandlesLine, WroteSession, WroteSessionPrefix, first_line_state};
ghost use Rattle.sdb_server.specs.LineView.{line_state, IsListing, listing_left};

use crate::TAKE_LIMIT;
use crate::clock::Clock;
use sdb_desk::Shard;
use sdb_lines::{Counts, LineHandler, LineProgress, RunFault, Sink, Source, run_lines as run};
use sdb_projection::Table;
use sdb_session::{Listing, Progress, Session};
use sdb_submit::Solo;
use std::alloc::{AllocError, Global};

// The session's source.
const SOURCE: &str = "s1";

/// A session over lines, with its documents, its projections and its clock.
///
/// Freeing it frees its documents entry by entry. A program that exits afterwards may leak it
/// instead, by `std::mem::forget`.
#[derive(Drop)]
pub struct LineSession<'a, C> {
    table: &'a Table,
    clock: C,
    shard: Shard,
    session: Session,
    // What is left of the listing that answers the present line.
    listing: Option<Listing>,
}

impl<'a, C: Clock + Drop> LineSession<'a, C> {
    /// Creates a session without documents. Its source is `s1`; it sees documents through the
    /// projections of the table, and reads the clock once for each line.
    ///
    /// # Errors
    ///
    /// [`AllocError`] if an allocation fails.
    pub fn new(alloc: Global, table: &'a Table, clock: C) -> Result<LineSession<'a, C>, AllocError>
        ensures { IfOk result (λ s. line_state C.remaining_moments s
            ≡ first_line_state table.now (C.remaining_moments clock)) }
    {
        Ok(LineSession {
            table,
            clock,
            shard: Shard::new(alloc),
            session: Session::new(alloc, String::from_str(alloc, SOURCE)?),
            listing: None,
        })
    }
}

impl<C: Clock + Drop> LineHandler for LineSession<'_, C> {
    ghost State = { LineState };

    ghost state = { line_state C.remaining_moments };

    ghost opening = { λ s. opening (plain_session s.session).source };

    // As `Dialogue` answers the line, at the clock's moment; the projections are unchanged.
    ghost handles = { HandlesLine };

    ghost is_answering = { λ s line bytes t. IsListing C.remaining_moments s line bytes t };

    ghost parts_left = { λ s. listing_left s.listing };

    ghost counts_as_step = { is_request };

    fn write_opening(&self, _alloc: Global, out: &mut Vec<u8>) -> Result<(), AllocError> {
        self.session.opening_to(out)
    }

    fn handle(
        &mut self,
        _alloc: Global,
        line: &str,
        out: &mut Vec<u8>,
    ) -> Result<LineProgress, AllocError> {
        let LineSession {
            table,
            clock,
            shard,
            session,
            listing,
        } = self;
        match session.begin_to(&Solo, shard, *table, line, clock.now(), out)? {
            Progress::Done { is_request } => {
                session.pump_to(&Solo, shard, table, TAKE_LIMIT, out)?;
                Ok(LineProgress::done(is_request))
            }
            Progress::Listing(rest) => {
                *listing = Some(rest);
                Ok(LineProgress {
                    is_step: true,
                    is_done: false,
                })
            }
        }
    }

    fn continue_answer(&mut self, _alloc: Global, out: &mut Vec<u8>) -> Result<bool, AllocError> {
        let LineSession {
            table,
            shard,
            session,
            listing,
            ..
        } = self;
        let Some(rest) = listing.take() else {
            return Ok(true);
        };
        match session.continue_to(&Solo, shard, table, rest, out)? {
            Some(rest) => {
                *listing = Some(rest);
                Ok(false)
            }
            None => {
                session.pump_to(&Solo, shard, table, TAKE_LIMIT, out)?;
                Ok(true)
            }
        }
    }

    fn handle_unreadable(&mut self, _alloc: Global, out: &mut Vec<u8>) -> Result<(), AllocError> {
        let LineSession {
            table,
            clock,
            shard,
            session,
            ..
        } = self;
        clock.now();
        session.refuse_unreadable_to(out)?;
        session.pump_to(&Solo, shard, table, TAKE_LIMIT, out)?;
        Ok(())
    }
}

/// Runs a session over the reader's lines.
///
/// - The opening message is written first. After the answers to a line come the entries that it
///   stored in documents to which the session is subscribed.
/// - An empty line, a line that isn't UTF-8 and a line of more than 1,048,576 bytes are answered
///   E1. Bytes after the last line feed are a line, unless there are none.
/// - The answers to all lines read so far are written and flushed before the next read, and a
///   listing is written while it is read. No clause states this; tests check it.
/// - An operation is stored with the time of its line.
/// - If an allocation of a document call fails, the request is answered E10, changes no document,
///   and the run continues.
/// - In the result, `lines` counts the lines and `steps` those that are requests.
///
/// # Errors
///
/// [`RunFault::OutOfMemory`] if another allocation fails, or the fault of a read or write that
/// failed. The bytes written are then a prefix of the whole output.
///
/// ```
/// let fetch = b"{\"a\":\"f\",\"c\":\"b\",\"d\":\"1\"}\n";
/// let mut reader = CountingReader::new(fetch.as_slice());
/// let mut writer = CountingWriter::new(Vec::new(alloc));
/// let table = Table::new(alloc);
/// let mut session = LineSession::new(alloc, &table, ListClock::new(Vec::new(alloc)))?;
/// let counts = run_lines(alloc, &mut session, &mut reader, &mut writer)?;
/// assert_eq!(rt; (counts.lines, counts.steps), (1, 1));
/// ```
pub fn run_lines<C: Clock + Drop, R: Source, W: Sink>(
    alloc: Global,
    session: &mut LineSession<'_, C>,
    reader: &mut R,
    writer: &mut W,
) -> Result<Counts, RunFault>
    ensures wrote_all { OnOk result (IfSome (R.remaining_input reader.old) (λ input. WroteSession
        (line_state C.remaining_moments session.old) (map readable_text (lines_of input))
        (line_state C.remaining_moments session.new) (W.bytes_written writer.old) (W.bytes_written writer.new))) }
    ensures counts { IfOk result (λ counts. IfSome (R.remaining_input reader.old)
        (λ input. AreCountsOf is_request input counts)) }
    // After a fault, a prefix of the opening and the answers was written.
    ensures prefix_on_err { OnErr result (IfSome (R.remaining_input reader.old) (λ input. WroteSessionPrefix
        (line_state C.remaining_moments session.old) (map readable_text (lines_of input))
        (W.bytes_written writer.old) (W.bytes_written writer.new))) }
    // No read, write or flush failed, except the one that is the fault.
    ensures read_failures { ReadFaultIsCounted result (R.calls reader.old) (R.failures reader.old)
        (R.calls reader.new) (R.failures reader.new) }
    ensures write_failures { WriteFaultIsCounted result (W.failures writer.old) (W.failures writer.new) }
{
    run(alloc, session, reader, writer)
}
