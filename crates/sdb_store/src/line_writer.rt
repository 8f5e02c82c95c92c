//! Where the lines of a journal are written.
use sdb_progress::RoundFailure;

/// The reason why a group of lines isn't committed.
#[derive(Clone, Copy, PartialEq, Eq, Debug, Drop)]
pub enum WriteFault {
    /// Nothing is written, and the call can be repeated.
    Retry(RoundFailure),
    /// No call will succeed. A part of the group may be written.
    Closed,
    /// The journal was moved, removed or replaced. Nothing is written.
    Moved,
}

/// A journal to which groups of lines are appended.
pub trait LineWriter {
    ghost use Rattle.std.specs.Prelude.{◌≡◌, ◌++◌, ℕ, List, OnOk, IfErr};
    ghost use Rattle.sdb_store.specs.SaverModel.{lines_of};

    // The disk has returned what was written to it.
    ghost trusts: { Self → Type 0 };

    // Each crash leaves exactly these lines.
    ghost has_lines: { List (List ℕ) → Self → Type 0 };

    /// Checks that the journal is where it was when it was opened.
    ///
    /// # Errors
    ///
    /// [`WriteFault::Moved`] if it was moved, removed or replaced.
    fn check(&self) -> Result<(), WriteFault>;

    /// Returns the number of entries of the group that was committed since the last call, if one was.
    fn take_written(&mut self) -> Option<u64>;

    /// Appends the lines, and commits them: after `Ok` a crash leaves all of them.
    ///
    /// # Errors
    ///
    /// The cause, with the group. A crash leaves all lines of the group or none.
    fn write(&mut self, group: Vec<Vec<u8>>) -> Result<(), (WriteFault, Vec<Vec<u8>>)>
        ensures committed { trusts self.new → OnOk result ((before : List (List ℕ)) → has_lines before self.old
            → has_lines (before ++ lines_of group.items) self.new) }
        ensures returned { IfErr result (λ e. e.1 ≡ group) };
}
