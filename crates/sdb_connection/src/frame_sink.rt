//! A sink that writes answers as frames to an output buffer.
use sdb_link::PendingDocument;
use sdb_loop_state::DocumentGroup;
use sdb_oplog::Code;
use sdb_session::AnswerSink;
use sdb_wire::{Answer, reply_text};
use std::alloc::{AllocError, Global};
use websocket::error::Error;
use websocket::protocol::{Message, NoMask, WebSocketContext};

/// A sink that appends each answer to an output buffer as one frame, and records which documents it
/// names and why a message is refused. An answer with a large document is kept, to be sent in parts.
#[derive(Drop)]
pub(crate) struct FrameSink<'a> {
    websocket: &'a mut WebSocketContext,
    output: &'a mut Vec<u8>,
    /// The group of the document to which an operation was appended.
    pub(crate) stored: Option<DocumentGroup>,
    /// The group of the document to which the session subscribed.
    pub(crate) subscribed: Option<DocumentGroup>,
    /// The code of a refusal.
    pub(crate) refused: Option<Code>,
    /// The answer with a large document. It is the last answer to its message.
    pub(crate) document: Option<Box<PendingDocument>>,
}

impl<'a> FrameSink<'a> {
    /// Creates a sink without answers.
    pub(crate) fn new(
        websocket: &'a mut WebSocketContext,
        output: &'a mut Vec<u8>,
    ) -> FrameSink<'a> {
        FrameSink {
            websocket,
            output,
            stored: None,
            subscribed: None,
            refused: None,
            document: None,
        }
    }

    fn record(&mut self, answer: &Answer<'_>) {
        match answer {
            Answer::Acknowledged { key, .. } => {
                self.stored = Some(DocumentGroup::of(key.id.as_str()));
            }
            Answer::Subscribed { key, .. } | Answer::CaughtUp { key } => {
                self.subscribed = Some(DocumentGroup::of(key.id.as_str()));
            }
            Answer::Failed { code, .. } => self.refused = Some(*code),
            _ => {}
        }
    }
}

/// No contract states what has reached the client, so `contents` is empty. A frame after a close is
/// discarded.
impl AnswerSink for FrameSink<'_> {
    ghost use Rattle.std.specs.Prelude.{[], ⊤};

    ghost Item = { ⊤ };

    ghost items = { λ a. [] };

    ghost contents = { λ s. [] };

    fn write(&mut self, alloc: Global, answer: &Answer<'_>) -> Result<(), AllocError> {
        self.record(answer);
        if let Some(document) = PendingDocument::of(alloc, answer)? {
            self.document = Some(document);
            return Ok(());
        }
        let text = reply_text(alloc, answer)?;
        let message = Message::Text(text.as_str());
        match self.websocket.write(message, self.output, &mut NoMask) {
            Err(Error::OutOfMemory) => Err(AllocError),
            _ => Ok(()),
        }
    }
}
