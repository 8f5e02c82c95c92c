//! Restoring the entries of a journal.
ghost use Rattle.std.specs.Prelude.{◌≡◌, ◌≢◌, ◌⊎◌, ◌<◌, ◌≤◌, List, [], true, false, None, length, max, slice_get, IfOk, IfErr, OnOk};
ghost use Rattle.std.specs.Option.{option_map_or};
ghost use Rattle.sdb_oplog.specs.Decide.{decide};
ghost use Rattle.sdb_oplog.specs.Keys.{PlainKey, plain_key, with_log};
ghost use Rattle.sdb_oplog.specs.declared.codes.Code.TheVariants.{E10};
ghost use Rattle.sdb_dump.specs.DumpText.{decided_entry, is_text_of_entry};
ghost use Rattle.sdb_dump.specs.View.{plain_line_content};
ghost use Rattle.sdb_backend.specs.AuditModel.{audit_logs};
ghost use Rattle.sdb_backend.specs.HistoryOrder.{IsExtension};
ghost use Rattle.sdb_dump.specs.JournalText.{JournalItem, read_number};
ghost use Rattle.sdb_store.specs.RestorerModel.{AppendsEntry, IsNumberRestored, IsRestorer, RestorerGrows, HasRestored, IsWrongLine, RestorerAfterLine, IsBackendOfRestorer, restorer_logs, highest_number};
ghost use Rattle.sdb_store.specs.declared.restorer.RestoreFault.TheVariants.{WrongLine};

use sdb_backend::{Audit, Backend, Host, Restoration};
use sdb_desk::Reply;
use sdb_dump::{LineContent, is_line_of, read_line, read_number};
use sdb_oplog::{Code, Key, Moment, Submission};
use std::alloc::{AllocError, Global};
use thiserror::Error;

/// The reason why a line isn't restored.
#[derive(Clone, Copy, PartialEq, Eq, Debug, Error)]
pub enum RestoreFault {
    /// The line can't be the next one of a journal.
    #[error("wrong line")]
    WrongLine,
    /// An allocation failed.
    #[error("out of memory")]
    OutOfMemory,
}

impl From<AllocError> for RestoreFault {
    ghost use Rattle.std.specs.Prelude.{◌≡◌};
    ghost use Rattle.sdb_store.specs.declared.restorer.RestoreFault.TheVariants.{OutOfMemory};

    ghost from_gives = { λ _ fault. fault ≡ OutOfMemory };

    fn from(_error: AllocError) -> RestoreFault {
        RestoreFault::OutOfMemory
    }
}

/// Restores a journal: each entry is submitted again, under its number and at its moment, and its
/// line is compared. No pass is created, and no lock is acquired.
///
/// ```
/// let mut restorer = Restorer::new(alloc)?;
/// restorer.restore_line(b"{\"given\":1024}")?;
/// let RestoredBackend { backend, mut host, .. } = restorer.finish(rt)?;
/// assert_eq!(rt; backend.enter(&mut host)?.number(), 1025);
/// ```
#[derive(Drop)]
pub struct Restorer {
    alloc: Global,
    pub(crate) restoration: Restoration,
    highest: u64,
}

/// A backend with the documents of a journal.
#[derive(Drop)]
pub struct RestoredBackend<R> {
    pub backend: Backend<R>,
    pub host: Host,
    /// The highest number that a line names. The next sessions have higher numbers.
    pub highest_number: u64,
}

impl Restorer {
    /// Creates a restorer without documents.
    ///
    /// # Errors
    ///
    /// [`AllocError`] if an allocation fails.
    pub fn new(alloc: Global) -> Result<Restorer, AllocError>
        ensures restorer { IfOk result IsRestorer }
        ensures items { IfOk result (λ r. HasRestored r []) }
    {
        let restoration = Restoration::new(alloc)?;
        Ok(Restorer {
            alloc,
            restoration,
            highest: 0,
        })
    }

    /// Restores the next line.
    ///
    /// # Errors
    ///
    /// [`RestoreFault::WrongLine`] if it can't be the next one, [`RestoreFault::OutOfMemory`] if an
    /// allocation fails. The restorer then has a part of the journal.
    pub fn restore_line(&mut self, line: &[u8]) -> Result<(), RestoreFault>
        requires { IsRestorer self.old }
        ensures restorer { IsRestorer self.new }
        ensures grows { RestorerGrows self.old self.new }
        ensures ok { OnOk result (RestorerAfterLine self.old self.new line.now) }
        ensures err { IfErr result (λ fault. fault ≡ WrongLine → (xs : List JournalItem)
            → HasRestored self.old xs → IsWrongLine xs line.now) }
    {
        match read_line(self.alloc, line)? {
            Some(content) => self.restore_entry(line, content),
            None => self.restore_number(line),
        }
    }

    /// Returns the backend with the restored documents. Its passes have numbers above each one that
    /// the journal names, and each has observed the restored entries.
    ///
    /// # Errors
    ///
    /// [`RestoreFault::OutOfMemory`] if an allocation fails, [`RestoreFault::WrongLine`] if no number
    /// is left.
    pub fn finish<R: Drop>(self, rt: R) -> Result<RestoredBackend<R>, RestoreFault>
        requires { IsRestorer self }
        ensures ok { IfOk result (λ r. IsBackendOfRestorer self r) }
        ensures err { IfErr result (λ fault. fault ≡ WrongLine → highest_number self ≡ u64.MAX) }
    {
        let Restorer {
            restoration,
            highest,
            ..
        } = self;
        let Some(next) = highest.checked_add(1) else {
            return Err(RestoreFault::WrongLine);
        };
        let (backend, host) = restoration.into_backend(rt, next)?;
        Ok(RestoredBackend {
            backend,
            host,
            highest_number: highest,
        })
    }

    /// Returns the audit of the restored documents.
    pub fn into_audit(self) -> Audit
        ensures { audit_logs result ≡ restorer_logs self }
    {
        let Restorer { restoration, .. } = self;
        restoration.into_audit()
    }

    fn restore_number(&mut self, line: &[u8]) -> Result<(), RestoreFault>
        ensures documents { self.new.restoration ≡ self.old.restoration }
        ensures not_lower { highest_number self.old ≤ highest_number self.new }
        ensures ok { OnOk result (IsNumberRestored (read_number line.now) (highest_number self.old)
            (highest_number self.new)) }
        ensures err { IfErr result (λ fault. fault ≡ WrongLine → read_number line.now ≡ None) }
    {
        match read_number(self.alloc, line)? {
            Some(number) => {
                self.highest = self.highest.max(number);
                Ok(())
            }
            None => Err(RestoreFault::WrongLine),
        }
    }

    fn restore_entry(&mut self, line: &[u8], content: LineContent) -> Result<(), RestoreFault>
        requires { IsRestorer self.old }
        ensures restorer { IsRestorer self.new }
        ensures extended { (k : PlainKey) → IsExtension (restorer_logs self.new k) (restorer_logs self.old k) }
        ensures highest { highest_number self.new
            ≡ max (highest_number self.old) (plain_line_content content).submission.by }
        ensures ok { OnOk result (AppendsEntry line.now (plain_line_content content) (restorer_logs self.old)
            (restorer_logs self.new) true) }
        ensures err { IfErr result (λ fault. fault ≡ WrongLine
            → ((plain_line_content content).submission.by ≡ 0)
            ⊎ AppendsEntry line.now (plain_line_content content) (restorer_logs self.old)
            (restorer_logs self.new) false) }
    {
        let LineContent {
            key,
            submission,
            moment,
        } = content;
        self.highest = self.highest.max(submission.by());
        if submission.by() == 0 {
            return Err(RestoreFault::WrongLine);
        }
        let version = self.submit(&key, &submission, moment)?;
        if self.has_line(line, &key, version, moment)? {
            Ok(())
        } else {
            Err(RestoreFault::WrongLine)
        }
    }

    // Submits an entry under its number, and returns its version.
    fn submit(
        &mut self,
        key: &Key,
        submission: &Submission,
        moment: Moment,
    ) -> Result<u64, RestoreFault>
        requires restorer { IsRestorer self.old }
        requires number { (0 < submission.now.by) × (submission.now.by ≤ highest_number self.old) }
        ensures restorer { IsRestorer self.new }
        ensures highest { highest_number self.new ≡ highest_number self.old }
        ensures extended { (k : PlainKey) → IsExtension (restorer_logs self.new k) (restorer_logs self.old k) }
        ensures ok { IfOk result (λ v. let log = restorer_logs self.old (plain_key key.now) in
            (v ≡ length log) × (restorer_logs self.new
            ≡ with_log (restorer_logs self.old) (plain_key key.now) (decide log submission.now moment).log)) }
        ensures err { IfErr result (λ fault. fault ≡ WrongLine
            → decided_entry (restorer_logs self.old (plain_key key.now)) submission.now moment ≡ None) }
    {
        match self.restoration.commit(key, submission, moment) {
            Reply::Stored { v, .. } => Ok(v),
            Reply::Repeat { .. } => Err(RestoreFault::WrongLine),
            Reply::Refused(code) => Err(refusal_fault(code)),
        }
    }

    // Returns whether the entry at a version has this moment and this line.
    fn has_line(
        &self,
        line: &[u8],
        key: &Key,
        version: u64,
        moment: Moment,
    ) -> Result<bool, AllocError>
        ensures { IfOk result (λ b. b
            ≡ option_map_or (is_text_of_entry line.now (plain_key key.now) moment)
            (slice_get (restorer_logs self.now (plain_key key.now)) version) false) }
    {
        let Some(log) = self.restoration.log(key) else {
            return Ok(false);
        };
        match log.get(version) {
            Some(entry) => is_line_of(self.alloc, line, key, entry, moment),
            None => Ok(false),
        }
    }
}

// Returns the fault of a refused submission. E10 is an allocation failure.
fn refusal_fault(code: Code) -> RestoreFault
    ensures { result ≡ WrongLine → code ≢ E10 }
{
    match code {
        Code::E10 => RestoreFault::OutOfMemory,
        _ => RestoreFault::WrongLine,
    }
}
