//! The passes of ended sessions.
use sdb_connection::{LoopPass, PassBrand};
use std::alloc::Global;

/// The passes of a loop's ended sessions, and the number of those that haven't ended.
#[derive(Drop)]
pub(crate) struct KeptPasses<B: PassBrand> {
    alloc: Global,
    passes: Vec<LoopPass<B>>,
    session_count: usize,
}

impl<B: PassBrand> KeptPasses<B> {
    /// Creates it without passes.
    pub(crate) fn new(alloc: Global) -> KeptPasses<B> {
        KeptPasses {
            alloc,
            passes: Vec::new(alloc),
            session_count: 0,
        }
    }

    /// Reserves space for the pass of one more session. Returns `false` if an allocation fails.
    pub(crate) fn reserve(&mut self) -> bool {
        let count = self.session_count.saturating_add(1);
        self.passes.reserve(count).is_ok()
    }

    /// Counts a session.
    pub(crate) fn begin_session(&mut self) {
        self.session_count = self.session_count.saturating_add(1);
    }

    /// Counts a session less.
    pub(crate) fn end_session(&mut self) {
        self.session_count = self.session_count.saturating_sub(1);
    }

    /// Keeps a pass.
    pub(crate) fn keep(&mut self, pass: LoopPass<B>) {
        // Can't fail: space for it is reserved.
        let _ = self.passes.push(pass);
    }

    /// Moves the passes out.
    pub(crate) fn take(&mut self) -> Vec<LoopPass<B>> {
        std::mem::replace(&mut self.passes, Vec::new(self.alloc))
    }
}
