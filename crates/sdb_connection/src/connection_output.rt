//! Sending listings, large documents and stored operations to clients.
ghost use Rattle.std.specs.Prelude.{◌≡◌};
ghost use Rattle.sdb_backend.specs.PassModel.{pass_number};
ghost use Rattle.sdb_connection.specs.PassModel.{KeepsPass};

use crate::connection::{Connection, session_result};
use crate::frame_sink::FrameSink;
use crate::loop_context::LoopContext;
use crate::loop_pass::PassBrand;
use sdb_link::{LoopOutput, LoopTime, OUTPUT_BOUND, Progress, SessionEnd};
use sdb_session::{Listing, Policy};
use std::sync::Wait;

// Maximum number of entries read from one queue at a time, and number of such reads in one turn. The
// output is compared with its bound after each. A session has at most 64 queues.
const ENTRIES_PER_TAKE: u64 = 8;

const TAKES_PER_TURN: usize = 512;

// Number of parts of a listing that are sent in one turn, compared likewise.
const PARTS_PER_TURN: usize = 8;

impl<B: PassBrand> Connection<B> {
    /// Sends the next part of the document.
    pub fn serve_document(
        &mut self,
        time: LoopTime,
        output: &mut LoopOutput,
    ) -> Result<Progress, SessionEnd>
        ensures { pass_number self.new.pass.pass ≡ pass_number self.old.pass.pass }
    {
        self.continue_document(output)?;
        self.send(time, output)?;
        Ok(Progress::More)
    }

    // Writes the next part of the document, and keeps what is left.
    fn continue_document(&mut self, output: &mut LoopOutput) -> Result<(), SessionEnd>
        ensures { pass_number self.new.pass.pass ≡ pass_number self.old.pass.pass }
    {
        let Some(mut document) = self.document.take() else {
            return Ok(());
        };
        let is_last = document.write_frame(&mut output.bytes)?;
        if !is_last {
            self.document = Some(document);
        }
        Ok(())
    }

    /// Sends the next parts of the listing, up to the limits of a turn.
    pub fn serve_listing<R: Wait + Drop, P: Policy + Drop>(
        &mut self,
        context: &LoopContext<R, P, B>,
        time: LoopTime,
        output: &mut LoopOutput,
    ) -> Result<Progress, SessionEnd>
        ensures { let b = context.now.state.value.backend in KeepsPass b self.old.pass.pass b self.new.pass.pass }
    {
        self.continue_listing(context, output)?;
        self.send(time, output)?;
        Ok(Progress::More)
    }

    fn continue_listing<R: Wait + Drop, P: Policy + Drop>(
        &mut self,
        context: &LoopContext<R, P, B>,
        output: &mut LoopOutput,
    ) -> Result<(), SessionEnd>
        ensures { let b = context.now.state.value.backend in KeepsPass b self.old.pass.pass b self.new.pass.pass }
    {
        for _ in 0..PARTS_PER_TURN {
            let Some(listing) = self.listing.take() else {
                return Ok(());
            };
            self.write_part(listing, context, output)?;
            if output.bytes.len() >= OUTPUT_BOUND {
                return Ok(());
            }
        }
        Ok(())
    }

    // Writes the next part of the listing, and keeps what is left.
    fn write_part<R: Wait + Drop, P: Policy + Drop>(
        &mut self,
        listing: Listing,
        context: &LoopContext<R, P, B>,
        output: &mut LoopOutput,
    ) -> Result<(), SessionEnd>
        ensures { let b = context.now.state.value.backend in KeepsPass b self.old.pass.pass b self.new.pass.pass }
    {
        let mut sink = FrameSink::new(&mut self.websocket, &mut output.bytes);
        let continued = self
            .pass
            .continue_listing(context, &mut self.session, listing, &mut sink);
        let FrameSink {
            subscribed,
            document,
            ..
        } = sink;
        self.document = document;
        output.record_subscription(subscribed)?;
        self.listing = session_result(continued)?;
        Ok(())
    }

    /// Sends entries of the session's queues, up to the limits of a turn. A client that doesn't take
    /// its output gets no more.
    pub fn pump<R: Wait + Drop, P: Policy + Drop>(
        &mut self,
        context: &LoopContext<R, P, B>,
        time: LoopTime,
        output: &mut LoopOutput,
    ) -> Result<Progress, SessionEnd>
        ensures { let b = context.now.state.value.backend in KeepsPass b self.old.pass.pass b self.new.pass.pass }
    {
        if self.is_answering() {
            self.is_deferred = true;
            return Ok(Progress::Idle);
        }
        if self.link.has_pending_output() {
            return Ok(Progress::Idle);
        }
        let progress = self.take_entries(context, output)?;
        self.send(time, output)?;
        Ok(progress)
    }

    fn take_entries<R: Wait + Drop, P: Policy + Drop>(
        &mut self,
        context: &LoopContext<R, P, B>,
        output: &mut LoopOutput,
    ) -> Result<Progress, SessionEnd>
        ensures { let b = context.now.state.value.backend in KeepsPass b self.old.pass.pass b self.new.pass.pass }
    {
        let queues = self.subscription_count();
        // (the number of queues in a row that were read to their ends)
        let mut ended: usize = 0;
        for _ in 0..TAKES_PER_TURN {
            if ended >= queues {
                return Ok(Progress::Idle);
            }
            let taken = self.take_next(context, output)?;
            ended = if taken < u128::from(ENTRIES_PER_TAKE) {
                ended.saturating_add(1)
            } else {
                0
            };
            if output.bytes.len() >= OUTPUT_BOUND {
                return Ok(Progress::More);
            }
        }
        Ok(Progress::More)
    }

    // Reads the next queue once, and returns the number of entries read.
    fn take_next<R: Wait + Drop, P: Policy + Drop>(
        &mut self,
        context: &LoopContext<R, P, B>,
        output: &mut LoopOutput,
    ) -> Result<u128, SessionEnd>
        ensures { let b = context.now.state.value.backend in KeepsPass b self.old.pass.pass b self.new.pass.pass }
    {
        let position = self.next_queue.checked_rem(self.subscription_count());
        let position = position.unwrap_or(0);
        self.next_queue = position.saturating_add(1);
        let mut sink = FrameSink::new(&mut self.websocket, &mut output.bytes);
        let session = &mut self.session;
        let taken = self
            .pass
            .pump_one(context, session, position, ENTRIES_PER_TAKE, &mut sink);
        session_result(taken)
    }
}
