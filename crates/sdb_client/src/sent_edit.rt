//! Edits that are sent.
ghost use Rattle.std.specs.Prelude.{◌≡◌, IfOk};

use sdb_component::Op;
use std::alloc::{AllocError, Global};
use std::marker::Model;

/// An edit that is sent: its seq, its base version, and its operation as it was sent.
#[derive(Drop)]
pub struct SentEdit {
    seq: u64,
    base: u64,
    operation: Op,
}

impl Model for SentEdit {
    ghost use Rattle.sdb_client_model.specs.Client.{SentEdit as PlainSentEdit};
    ghost use Rattle.sdb_client.specs.Coding.{sent_edit_code};

    ghost Value = { PlainSentEdit };

    ghost coded = { sent_edit_code };

    ghost view = { λ t. record { seq = t.seq; base = t.base; operation = t.operation } };
}

impl SentEdit {
    pub(crate) fn new(seq: u64, base: u64, operation: Op) -> SentEdit
        ensures { result ≡ record { seq = seq; base = base; operation = operation } }
    {
        SentEdit {
            seq,
            base,
            operation,
        }
    }

    /// Returns the number that its client gave it.
    pub fn seq(&self) -> u64
        ensures { result ≡ self.now.seq }
    {
        self.seq
    }

    /// Returns the version at which it was sent.
    pub fn base(&self) -> u64
        ensures { result ≡ self.now.base }
    {
        self.base
    }

    /// Returns the operation as it was sent.
    pub fn operation(&self) -> &Op
        ensures { result.now ≡ self.now.operation }
    {
        &self.operation
    }

    /// Clones the edit.
    ///
    /// # Errors
    ///
    /// [`AllocError`] if an allocation fails.
    pub fn try_clone(&self, alloc: Global) -> Result<SentEdit, AllocError>
        ensures { IfOk result (λ t. t ≡ self.now) }
    {
        let operation = self.operation.try_clone(alloc)?;
        Ok(SentEdit::new(self.seq, self.base, operation))
    }
}
