//! A client of one document.
ghost use Rattle.std.specs.Prelude.{◌≡◌, ◌<◌, IfErr, IfOk, IsErrOf, OnErr, OnOk, Some, None, option_map, string_bytes};
ghost use Rattle.sdb_value.specs.View.{value_of};
ghost use Rattle.sdb_apply.specs.declared.op_apply.ApplyFault.TheVariants.{NotApplied};
ghost use Rattle.sdb_client_model.specs.Client.{shown_document, after_edit, is_sent_edit, after_acknowledgement, after_received, after_entry};
ghost use Rattle.sdb_client.specs.Fault.{IsProcessFault};
ghost use Rattle.sdb_client.specs.Send.{sendable_edit, client_after_send};
ghost use Rattle.sdb_client.specs.View.{source_of, client_of, new_client};
ghost use Rattle.sdb_client.specs.declared.fault.SendFault.TheVariants.{SeqLimit};

use crate::fault::{ProcessFault, SendFault};
use crate::pending::cross_pending;
use crate::sent_edit::SentEdit;
use sdb_apply::{ApplyFault, apply, apply_atomic};
use sdb_component::Op;
use sdb_oplog::{Entry, Kind};
use sdb_value::Json;
use std::alloc::{AllocError, Global};

/// A client of one document. It shows its edits at once, sends one of them at a time, and
/// transforms the pending ones against each edit of another client.
///
/// ```
/// let mut client = ReferenceClient::new(alloc, source, 1, Json::Bool(true), 0);
/// client.make_edit(op)?;
/// let sent = client.send()?;
/// client.process(&entry)?;
/// let shown = client.shown()?;
/// ```
#[derive(Drop)]
pub struct ReferenceClient {
    alloc: Global,
    source: String,
    // The number of entries that are processed, and the document after them.
    version: u64,
    document: Json,
    // The edits that aren't acknowledged, in order. If one is sent, it is the first.
    pending: Vec<Op>,
    sent: Option<SentEdit>,
    next_seq: u64,
}

impl ReferenceClient {
    /// Creates a client with a document at a version. It keeps the allocator and doesn't allocate.
    pub fn new(
        alloc: Global,
        source: String,
        version: u64,
        document: Json,
        next_seq: u64,
    ) -> ReferenceClient
        ensures client { client_of result ≡ new_client version (value_of document) next_seq }
        ensures source { source_of result ≡ string_bytes source }
    {
        ReferenceClient {
            alloc,
            source,
            version,
            document,
            pending: Vec::new(alloc),
            sent: None,
            next_seq,
        }
    }

    /// Returns the source of the client's submissions.
    pub fn source(&self) -> &str
        ensures { result.now ≡ source_of self.now }
    {
        self.source.as_str()
    }

    /// Returns the number of entries that the client has processed.
    pub fn version(&self) -> u64
        ensures { result ≡ (client_of self.now).version }
    {
        self.version
    }

    /// Returns the document at this version, without the pending edits.
    pub fn document(&self) -> &Json
        ensures { value_of result.now ≡ (client_of self.now).document }
    {
        &self.document
    }

    /// Returns the edits that aren't acknowledged, in order.
    pub fn pending(&self) -> &[Op]
        ensures { result.now ≡ (client_of self.now).pending }
    {
        self.pending.as_slice()
    }

    /// Returns the edit that is sent and not acknowledged, as it was sent.
    pub fn sent(&self) -> Option<&SentEdit>
        ensures { option_map (λ t. t.now) result ≡ (client_of self.now).sent }
    {
        self.sent.as_ref()
    }

    /// Returns the seq that the next sent edit is given.
    pub fn next_seq(&self) -> u64
        ensures { result ≡ (client_of self.now).next_seq }
    {
        self.next_seq
    }

    /// Returns the document with the pending edits: what the client's user sees.
    ///
    /// # Errors
    ///
    /// [`ApplyFault::NotApplied`] if a pending edit doesn't apply, [`ApplyFault::OutOfMemory`] if
    /// an allocation fails.
    pub fn shown(&self) -> Result<Json, ApplyFault>
        ensures ok { IfOk result (λ d. shown_document (client_of self.now) ≡ Some (value_of d)) }
        ensures err { IsErrOf result NotApplied → shown_document (client_of self.now) ≡ None }
    {
        let mut document = self.document.try_clone(self.alloc)?;
        for op in &self.pending {
            if let Err(refused) = apply(self.alloc, &mut document, op) {
                return Err(refused.why);
            }
        }
        Ok(document)
    }

    /// Appends an edit, made for what the client shows, to the pending ones.
    ///
    /// # Errors
    ///
    /// [`AllocError`] if an allocation fails. The client is then unchanged.
    pub fn make_edit(&mut self, op: Op) -> Result<(), AllocError>
        ensures ok { OnOk result (client_of self.new ≡ after_edit op (client_of self.old)) }
        ensures unchanged_on_err { OnErr result (client_of self.new ≡ client_of self.old) }
        ensures source { source_of self.new ≡ source_of self.old }
    {
        self.pending.push(op)?;
        Ok(())
    }

    /// Sends the first pending edit: gives it the next seq, keeps it, and returns it. Returns
    /// `None` if an edit is sent already or none is pending; the client is then unchanged.
    ///
    /// # Errors
    ///
    /// [`SendFault::SeqLimit`] if the next seq is 2^64 - 1, [`SendFault::OutOfMemory`] if an
    /// allocation fails. The client is then unchanged.
    pub fn send(&mut self) -> Result<Option<SentEdit>, SendFault>
        ensures sent { IfOk result (λ sent. sent ≡ sendable_edit (client_of self.old)) }
        ensures ok { OnOk result (client_of self.new ≡ client_after_send (client_of self.old)) }
        ensures err { IsErrOf result SeqLimit → (client_of self.old).next_seq ≡ u64.MAX }
        ensures unchanged_on_err { OnErr result (client_of self.new ≡ client_of self.old) }
        ensures source { source_of self.new ≡ source_of self.old }
    {
        if self.sent.is_some() {
            return Ok(None);
        }
        let Some(op) = self.pending.first() else {
            return Ok(None);
        };
        if self.next_seq == u64::MAX {
            return Err(SendFault::SeqLimit);
        }
        let edit = SentEdit::new(self.next_seq, self.version, op.try_clone(self.alloc)?);
        self.sent = Some(edit.try_clone(self.alloc)?);
        self.next_seq += 1;
        Ok(Some(edit))
    }

    /// Processes the entry at the client's version: its sent edit, which is then acknowledged, or
    /// an edit of another client. The entry's version isn't compared.
    ///
    /// # Errors
    ///
    /// - [`ProcessFault::NotProcessed`] if the entry isn't the sent edit and is a create or a
    ///   delete, or if an operation doesn't apply or can't be transformed.
    /// - [`ProcessFault::VersionLimit`] if the version is 2^64 - 1.
    /// - [`ProcessFault::OutOfMemory`] if an allocation fails.
    ///
    /// The client is then unchanged.
    pub fn process(&mut self, entry: &Entry) -> Result<(), ProcessFault>
        ensures ok { OnOk result (after_entry (source_of self.old) entry.now (client_of self.old)
            ≡ Some (client_of self.new)) }
        ensures err { IfErr result (λ fault. IsProcessFault fault (client_of self.old)
            (after_entry (source_of self.old) entry.now (client_of self.old))) }
        ensures unchanged_on_err { OnErr result (client_of self.new ≡ client_of self.old) }
        ensures source { source_of self.new ≡ source_of self.old }
    {
        if self.version == u64::MAX {
            return Err(ProcessFault::VersionLimit);
        }
        if self.is_sent_edit(entry) {
            return self.acknowledge();
        }
        match entry.content().kind() {
            Kind::Edit(op) => self.receive(op),
            _ => Err(ProcessFault::NotProcessed),
        }
    }

    // Returns whether the entry is the sent edit.
    fn is_sent_edit(&self, entry: &Entry) -> bool
        ensures { result ≡ is_sent_edit (source_of self.now) (client_of self.now).sent entry.now }
    {
        match &self.sent {
            None => false,
            Some(sent) => {
                entry.arrived().seq() == sent.seq() && entry.arrived().src() == self.source.as_str()
            }
        }
    }

    // Applies the first pending operation to the document.
    fn acknowledge(&mut self) -> Result<(), ProcessFault>
        requires { (client_of self.old).version < u64.MAX }
        ensures ok { OnOk result
            (after_acknowledgement (client_of self.old) (client_of self.old).pending
            ≡ Some (client_of self.new)) }
        ensures err { IfErr result (λ fault. IsProcessFault fault (client_of self.old)
            (after_acknowledgement (client_of self.old) (client_of self.old).pending)) }
        ensures unchanged_on_err { OnErr result (client_of self.new ≡ client_of self.old) }
        ensures source { source_of self.new ≡ source_of self.old }
    {
        let Some(op) = self.pending.first() else {
            return Err(ProcessFault::NotProcessed);
        };
        apply_atomic(self.alloc, &mut self.document, op)?;
        drop(self.pending.remove(0));
        self.sent = None;
        self.version += 1;
        Ok(())
    }

    // Applies another client's operation to the document, and transforms the pending ones against
    // it.
    fn receive(&mut self, op: &Op) -> Result<(), ProcessFault>
        requires { (client_of self.old).version < u64.MAX }
        ensures ok { OnOk result
            (after_received (client_of self.old) op.now ≡ Some (client_of self.new)) }
        ensures err { IfErr result (λ fault. IsProcessFault fault (client_of self.old)
            (after_received (client_of self.old) op.now)) }
        ensures unchanged_on_err { OnErr result (client_of self.new ≡ client_of self.old) }
        ensures source { source_of self.new ≡ source_of self.old }
    {
        let pending = cross_pending(self.alloc, self.pending.as_slice(), op)?;
        apply_atomic(self.alloc, &mut self.document, op)?;
        self.pending = pending;
        self.version += 1;
        Ok(())
    }
}
