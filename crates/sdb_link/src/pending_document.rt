//! Documents that are sent in parts.
use crate::loop_buffers::OUTPUT_BOUND;
use sdb_wire::{Answer, DocumentParts, document_parts};
use std::alloc::{AllocError, Global};
use websocket::protocol::frame::coding::{Data, OpCode};
use websocket::protocol::frame::{FrameHeader, write_frame};

// Size from which a document is sent in parts (`Json::size`).
const LARGE_DOCUMENT: u64 = 64 * 1_024;

/// What isn't sent of an answer with a large document. Its frames are one fragmented message, so no
/// other message is sent meanwhile.
#[derive(Drop)]
pub struct PendingDocument {
    alloc: Global,
    parts: DocumentParts,
    is_begun: bool,
}

impl PendingDocument {
    /// Returns the answer in parts if its document is large.
    ///
    /// # Errors
    ///
    /// [`AllocError`] if an allocation fails.
    pub fn of(
        alloc: Global,
        answer: &Answer<'_>,
    ) -> Result<Option<Box<PendingDocument>>, AllocError> {
        if !has_large_document(answer) {
            return Ok(None);
        }
        let Some(parts) = document_parts(alloc, answer)? else {
            return Ok(None);
        };
        let pending = PendingDocument {
            alloc,
            parts,
            is_begun: false,
        };
        Ok(Some(Box::new(alloc, pending)?))
    }

    /// Appends the next frame. Returns whether it is the last one.
    ///
    /// # Errors
    ///
    /// [`AllocError`] if an allocation fails. The message can't be continued then.
    pub fn write_frame(&mut self, output: &mut Vec<u8>) -> Result<bool, AllocError> {
        let mut payload = std::mem::replace(&mut self.parts.prefix, Vec::new(self.alloc));
        let is_last = self
            .parts
            .document
            .write_part(self.alloc, &mut payload, OUTPUT_BOUND)?;
        if is_last {
            payload.extend_from_slice(self.parts.suffix.as_slice())?;
        }
        write_frame(&self.next_header(is_last), payload.as_slice(), output)?;
        self.is_begun = true;
        Ok(is_last)
    }

    // The first frame names the kind of the message (RFC 6455, section 5.4).
    fn next_header(&self, is_last: bool) -> FrameHeader {
        let data = if self.is_begun {
            Data::Continue
        } else {
            Data::Text
        };
        FrameHeader {
            is_final: is_last,
            rsv1: false,
            rsv2: false,
            rsv3: false,
            opcode: OpCode::Data(data),
            mask: None,
        }
    }
}

fn has_large_document(answer: &Answer<'_>) -> bool {
    match answer {
        Answer::Document { document, .. } | Answer::Subscribed { document, .. } => match document {
            Some(document) => document.size(LARGE_DOCUMENT) >= LARGE_DOCUMENT,
            None => false,
        },
        _ => false,
    }
}
