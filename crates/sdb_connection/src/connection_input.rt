//! Reading from clients and answering them.
ghost use Rattle.std.specs.Prelude.{◌≡◌};
ghost use Rattle.sdb_backend.specs.PassModel.{pass_number};
ghost use Rattle.sdb_connection.specs.PassModel.{KeepsPass};

use crate::connection::{Connection, session_result};
use crate::frame_sink::FrameSink;
use crate::loop_context::LoopContext;
use crate::loop_pass::PassBrand;
use sdb_link::{
    LoopBuffers, LoopOutput, LoopTime, OUTPUT_BOUND, Progress, ReadOutcome, SessionEnd, end_of,
};
use sdb_session::{Policy, Progress as MessageProgress};
use std::sync::Wait;
use websocket::protocol::{FrameStatus, Message, NoMask, Step};

// Maximum number of messages of a client that are answered in one turn.
const MESSAGES_PER_TURN: usize = 64;

// Capacity in bytes above which the memory of a message isn't kept for the next client.
const SPARE_LIMIT: usize = 256 * 1_024;

impl<B: PassBrand> Connection<B> {
    // Reads once, unless complete frames are left.
    fn receive(&mut self, buffers: &mut LoopBuffers) -> Result<(), SessionEnd>
        ensures { pass_number self.new.pass.pass ≡ pass_number self.old.pass.pass }
    {
        if self.has_frames || !self.link.is_readable() {
            return Ok(());
        }
        match self.link.read(&mut buffers.input) {
            Ok(ReadOutcome::Bytes(count)) => {
                buffers.output.tally.add_received(count);
                self.append_input(count, buffers)
            }
            Ok(ReadOutcome::Blocked) => Ok(()),
            Ok(ReadOutcome::Closed) => Err(end_of(&self.websocket.end_of_input())),
            Err(_) => Err(SessionEnd::Lost),
        }
    }

    // Appends what was read to the input that wasn't answered. A client that keeps none uses the
    // loop's memory.
    fn append_input(&mut self, count: usize, buffers: &mut LoopBuffers) -> Result<(), SessionEnd>
        ensures { pass_number self.new.pass.pass ≡ pass_number self.old.pass.pass }
    {
        if self.partial.is_empty() {
            let empty = Vec::new(self.alloc);
            self.partial = std::mem::replace(&mut buffers.spare, empty);
        }
        let bytes = buffers.input.get(..count).unwrap_or(&[]);
        self.partial.extend_from_slice(bytes)?;
        Ok(())
    }

    // Removes the bytes that were answered. `is_own` says whether the rest stands in the client's own
    // memory already.
    fn release_input(
        &mut self,
        used: usize,
        is_own: bool,
        buffers: &mut LoopBuffers,
    ) -> Result<(), SessionEnd>
        ensures { pass_number self.new.pass.pass ≡ pass_number self.old.pass.pass }
    {
        let is_left = used < self.partial.len();
        if is_own && is_left {
            self.partial.drain(..used);
            return Ok(());
        }
        let mut rest = Vec::new(self.alloc);
        if is_left {
            rest.extend_from_slice(self.partial.get(used..).unwrap_or(&[]))?;
        }
        let mut spare = std::mem::replace(&mut self.partial, rest);
        spare.clear();
        if spare.capacity() <= SPARE_LIMIT {
            buffers.spare = spare;
        }
        Ok(())
    }

    // Records whether a message has begun that isn't complete.
    fn record_partial(&mut self, time: LoopTime)
        ensures { pass_number self.new.pass.pass ≡ pass_number self.old.pass.pass }
    {
        if self.is_in_message || !self.partial.is_empty() {
            self.deadlines.begin_message(time.second);
        } else {
            self.deadlines.end_message();
        }
    }

    // Records that a message is complete.
    fn record_message(&mut self)
        ensures { pass_number self.new.pass.pass ≡ pass_number self.old.pass.pass }
    {
        self.messages = self.messages.saturating_add(1);
        self.is_in_message = false;
        self.fragment_bytes = 0;
        self.deadlines.end_message();
    }

    // Records a frame of a message that isn't complete.
    fn record_fragment(&mut self, len: usize)
        ensures { pass_number self.new.pass.pass ≡ pass_number self.old.pass.pass }
    {
        self.is_in_message = true;
        self.fragment_bytes = self.fragment_bytes.saturating_add(len);
    }

    fn answer_binary(&mut self, output: &mut LoopOutput) -> Result<(), SessionEnd>
        ensures { pass_number self.new.pass.pass ≡ pass_number self.old.pass.pass }
    {
        self.record_message();
        let mut sink = FrameSink::new(&mut self.websocket, &mut output.bytes);
        let answered = self.session.refuse_unreadable_to(&mut sink);
        let FrameSink {
            refused,
            document,
            ..
        } = sink;
        self.document = document;
        output.record_message(None, refused);
        session_result(answered)
    }
}

impl<B: PassBrand> Connection<B> {
    /// Reads once, and answers what came, up to the limits of a turn. A client that doesn't take its
    /// output isn't read from.
    pub fn serve<R: Wait + Drop, P: Policy + Drop>(
        &mut self,
        context: &LoopContext<R, P, B>,
        time: LoopTime,
        buffers: &mut LoopBuffers,
    ) -> Result<Progress, SessionEnd>
        ensures { let b = context.now.state.value.backend in KeepsPass b self.old.pass.pass b self.new.pass.pass }
    {
        if self.link.has_pending_output() {
            return Ok(Progress::Idle);
        }
        if self.document.is_some() {
            return self.serve_document(time, &mut buffers.output);
        }
        if self.listing.is_some() {
            return self.serve_listing(context, time, &mut buffers.output);
        }
        let is_own = !self.partial.is_empty();
        self.receive(buffers)?;
        let used = self.answer_frames(context, time, &mut buffers.output)?;
        self.release_input(used, is_own, buffers)?;
        self.record_partial(time);
        self.send(time, &mut buffers.output)?;
        if self.is_answering() || self.has_frames || self.link.is_readable() {
            return Ok(Progress::More);
        }
        Ok(Progress::Idle)
    }

    // Answers the complete frames of the input, up to the limits of a turn, to a listing or to a large
    // document. Returns the number of bytes that they have.
    fn answer_frames<R: Wait + Drop, P: Policy + Drop>(
        &mut self,
        context: &LoopContext<R, P, B>,
        time: LoopTime,
        output: &mut LoopOutput,
    ) -> Result<usize, SessionEnd>
        ensures { let b = context.now.state.value.backend in KeepsPass b self.old.pass.pass b self.new.pass.pass }
    {
        let mut bytes = std::mem::replace(&mut self.partial, Vec::new(self.alloc));
        let used = self.answer_in_turn(&mut bytes, context, time, output)?;
        self.partial = bytes;
        Ok(used)
    }

    fn answer_in_turn<R: Wait + Drop, P: Policy + Drop>(
        &mut self,
        bytes: &mut [u8],
        context: &LoopContext<R, P, B>,
        time: LoopTime,
        output: &mut LoopOutput,
    ) -> Result<usize, SessionEnd>
        ensures { let b = context.now.state.value.backend in KeepsPass b self.old.pass.pass b self.new.pass.pass }
    {
        let mut used: usize = 0;
        self.has_frames = true;
        for _ in 0..MESSAGES_PER_TURN {
            let at = used.min(bytes.len());
            let consumed = self.answer_frame(&mut bytes[at..], context, time, output)?;
            used = used.saturating_add(consumed);
            if consumed == 0 {
                self.has_frames = false;
                return Ok(used);
            }
            if self.is_answering() || output.bytes.len() >= OUTPUT_BOUND {
                return Ok(used);
            }
        }
        Ok(used)
    }

    // Answers the frame at the front. Returns its length, or 0 if it isn't complete.
    fn answer_frame<R: Wait + Drop, P: Policy + Drop>(
        &mut self,
        bytes: &mut [u8],
        context: &LoopContext<R, P, B>,
        time: LoopTime,
        output: &mut LoopOutput,
    ) -> Result<usize, SessionEnd>
        ensures { let b = context.now.state.value.backend in KeepsPass b self.old.pass.pass b self.new.pass.pass }
    {
        if bytes.is_empty() {
            return Ok(0);
        }
        let read = self.websocket.read(bytes, &mut output.bytes, &mut NoMask);
        let step = match read {
            Ok(FrameStatus::Partial(_)) => return Ok(0),
            Ok(FrameStatus::Complete(step)) => step,
            Err(error) => return Err(end_of(&error)),
        };
        let Step { consumed, message } = step;
        match message {
            Some(received) => self.answer_message(received.message(bytes), context, time, output)?,
            None => self.record_fragment(consumed),
        }
        Ok(consumed)
    }

    fn answer_message<R: Wait + Drop, P: Policy + Drop>(
        &mut self,
        message: Message<'_>,
        context: &LoopContext<R, P, B>,
        time: LoopTime,
        output: &mut LoopOutput,
    ) -> Result<(), SessionEnd>
        ensures { let b = context.now.state.value.backend in KeepsPass b self.old.pass.pass b self.new.pass.pass }
    {
        self.deadlines.record_message(time.second);
        match message {
            Message::Text(text) => self.answer_text(text, context, time, output),
            Message::Binary(_) => self.answer_binary(output),
            Message::Ping(_) | Message::Pong(_) => Ok(()),
            Message::Close(_) => Err(SessionEnd::Closed),
        }
    }

    // Handles a text message at the time of the pass. A listing is left after its first entries, and a
    // large document before its first part.
    fn answer_text<R: Wait + Drop, P: Policy + Drop>(
        &mut self,
        text: &str,
        context: &LoopContext<R, P, B>,
        time: LoopTime,
        output: &mut LoopOutput,
    ) -> Result<(), SessionEnd>
        ensures { let b = context.now.state.value.backend in KeepsPass b self.old.pass.pass b self.new.pass.pass }
    {
        self.record_message();
        let mut sink = FrameSink::new(&mut self.websocket, &mut output.bytes);
        let begun = self
            .pass
            .begin(context, &mut self.session, text, time.moment(), &mut sink);
        let FrameSink {
            stored,
            subscribed,
            refused,
            document,
            ..
        } = sink;
        self.document = document;
        self.operations = self.operations.saturating_add(u64::from(stored.is_some()));
        output.record_message(stored, refused);
        context.notify(stored);
        if begun.is_err() {
            context.notify_all();
        }
        output.record_subscription(subscribed)?;
        if let MessageProgress::Listing(listing) = session_result(begun)? {
            self.listing = Some(listing);
        }
        Ok(())
    }
}
