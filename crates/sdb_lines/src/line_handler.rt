//! The handler of a run's lines.
ghost use Rattle.std.specs.Prelude.{◌≡◌, ℕ, ◌++◌, ◌<◌, Bool, List, Some, None, OnOk, IfOk, true, false};
ghost use Rattle.std.specs.declared.option.Option.{Option};
ghost use Rattle.sdb_lines.specs.Runs.{AppendsWhere, AnswersLine};

use std::alloc::{AllocError, Global};

/// What a handler has done with a line.
#[derive(Clone, Copy, Debug, PartialEq, Eq)]
pub struct LineProgress {
    /// Whether the line is a step.
    pub is_step: bool,
    /// Whether the whole answer was appended.
    pub is_done: bool,
}

impl LineProgress {
    /// Returns the progress of a handler that has appended the whole answer.
    pub fn done(is_step: bool) -> LineProgress
        ensures { result ≡ record { is_step = is_step; is_done = true } }
    {
        LineProgress {
            is_step,
            is_done: true,
        }
    }
}

/// A state machine that handles lines in order. It appends the answer to a line in one or more
/// parts, so that a long one needn't be in memory at once.
///
/// ```
/// // The handler answers a line with the length of the longest line so far.
/// let mut out = Vec::new(alloc);
/// handler.write_opening(alloc, &mut out)?;
/// let progress = handler.handle(alloc, "abc", &mut out)?;
/// assert!(rt; progress.is_step && progress.is_done);
/// assert_eq!(rt; out.as_slice(), b"0\n3\n".as_slice());
/// ```
pub trait LineHandler {
    // What the answers depend on.
    ghost State: { Type 0 };

    // The state of a handler between two lines.
    ghost state: { Self → State };

    // The bytes written before the first line is read.
    ghost opening: { Self → List ℕ };

    // Whether a handler in the first state answers this line with these bytes and is then in the
    // second state. `None` is a line that is too long or not UTF-8.
    ghost handles: { State → Option (List ℕ) → List ℕ → State → Type 0 };

    // Whether the handler is in the course of the answer to this line, which it met in this state,
    // and has appended these bytes of it.
    ghost is_answering: { State → Option (List ℕ) → List ℕ → Self → Type 0 };

    // A bound of the number of parts that are left of an answer.
    ghost parts_left: { Self → ℕ };

    // Whether a line counts as a step, by its text alone.
    ghost counts_as_step: { List ℕ → Bool };

    /// Appends the opening text to `out`.
    ///
    /// # Errors
    ///
    /// [`AllocError`] if an allocation fails; the contents of `out` are then unspecified, and the
    /// caller discards them.
    fn write_opening(&self, alloc: Global, out: &mut Vec<u8>) -> Result<(), AllocError>
        ensures { OnOk result (out.new.items ≡ out.old.items ++ opening self.now) };

    /// Handles a line, given without its line feed, and appends the answer or its first part to
    /// `out`.
    ///
    /// # Errors
    ///
    /// [`AllocError`] if an allocation fails; `self` and `out` are then unspecified, and the caller
    /// ends the run.
    fn handle(
        &mut self,
        alloc: Global,
        line: &str,
        out: &mut Vec<u8>,
    ) -> Result<LineProgress, AllocError>
        ensures answer { IfOk result (λ p. AppendsWhere out.old.items out.new.items (λ bytes.
            AnswersLine handles is_answering state p.is_done (state self.old) (Some line.now) bytes self.new)) }
        ensures step { IfOk result (λ p. p.is_step ≡ counts_as_step line.now) };

    /// Appends the next part of the answer that the handler is in the course of. Returns whether it
    /// is the last.
    ///
    /// # Errors
    ///
    /// [`AllocError`] if an allocation fails; `self` and `out` are then unspecified, and the caller
    /// ends the run.
    fn continue_answer(&mut self, alloc: Global, out: &mut Vec<u8>) -> Result<bool, AllocError>
        ensures answer { IfOk result (λ is_done. (s : State) (line : Option (List ℕ)) (front : List ℕ)
            → is_answering s line front self.old → AppendsWhere out.old.items out.new.items (λ bytes.
            AnswersLine handles is_answering state is_done s line (front ++ bytes) self.new)) }
        ensures fewer { IfOk result (λ is_done. is_done ≡ false → parts_left self.new < parts_left self.old) };

    /// Handles a line that is longer than [`LINE_LIMIT`](crate::LINE_LIMIT) or not UTF-8, and
    /// appends the answer to `out`. Such a line is not a step.
    ///
    /// # Errors
    ///
    /// [`AllocError`] if an allocation fails; `self` and `out` are then unspecified, and the caller
    /// ends the run.
    fn handle_unreadable(&mut self, alloc: Global, out: &mut Vec<u8>) -> Result<(), AllocError>
        ensures { OnOk result (AppendsWhere out.old.items out.new.items
            (λ answer. handles (state self.old) None answer (state self.new))) };
}
