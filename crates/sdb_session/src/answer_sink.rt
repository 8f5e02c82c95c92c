//! The output of a session's answers.
ghost use Rattle.std.specs.Prelude.{◌≡◌, List, ◌++◌, OnOk, map, string_bytes};
ghost use Rattle.sdb_session.specs.Output.{answer_line, answer_texts};
ghost use Rattle.sdb_wire.specs.Answers.{PlainAnswer};
ghost use Rattle.sdb_wire.specs.View.{plain_answer};

use sdb_wire::{Answer, append_answer_text, reply_text};
use std::alloc::{AllocError, Global};

/// A sink to which a session appends its answers, as lines of bytes or as texts.
pub trait AnswerSink {
    // The items of the sink.
    ghost Item: { Type 0 };

    // The items that an answer appends.
    ghost items: { PlainAnswer → List Item };

    // The items written so far.
    ghost contents: { Self → List Item };

    /// Appends an answer.
    ///
    /// # Errors
    ///
    /// [`AllocError`] if an allocation fails. `contents` is then unspecified.
    fn write(&mut self, alloc: Global, answer: &Answer<'_>) -> Result<(), AllocError>
        ensures { OnOk result (contents self.new ≡ contents self.old ++ items (plain_answer answer.now)) };
}

/// Each answer is its text and a line feed.
impl AnswerSink for Vec<u8> {
    ghost use Rattle.std.specs.Prelude.{ℕ};

    ghost Item = { ℕ };

    ghost items = { answer_line };

    ghost contents = { λ v. v.items };

    fn write(&mut self, alloc: Global, answer: &Answer<'_>) -> Result<(), AllocError> {
        append_answer_text(alloc, answer, self)?;
        self.push(b'\n')?;
        Ok(())
    }
}

/// Each answer is one text.
impl AnswerSink for Vec<String> {
    ghost use Rattle.std.specs.Prelude.{ℕ};

    ghost Item = { List ℕ };

    ghost items = { answer_texts };

    ghost contents = { λ v. map string_bytes v.items };

    fn write(&mut self, alloc: Global, answer: &Answer<'_>) -> Result<(), AllocError> {
        self.push(reply_text(alloc, answer)?)?;
        Ok(())
    }
}
