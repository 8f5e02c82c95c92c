//! The checker of a dump's lines.
ghost use Rattle.std.specs.Prelude.{◌≡◌, ◌+◌, ◌^◌, ◌<◌, ◌≤◌, List, [], Option, None, OnOk, IfOk, IfErr, IfSome, IsErrOf, option_map, unwrap_or, string_bytes, bytes_eq, Ok};
ghost use Rattle.std.specs.BTreeMap.{insert_entry};
ghost use Rattle.sdb_oplog.specs.Decide.{IsMade};
ghost use Rattle.sdb_oplog.specs.Keys.{compare_keys, plain_key};
ghost use Rattle.sdb_dump.specs.CheckerModel.{CheckerAtStage, AcceptsOrRejects, AcceptedHasAll, CheckerHolds, TakesDocument, accepted_logs};
ghost use Rattle.sdb_dump.specs.DumpText.{PlainLine, header_line, count_line, accepted_line, line_of_read};
ghost use Rattle.sdb_dump.specs.Faults.{IsDumpFault, IsStageFault};
ghost use Rattle.sdb_dump.specs.View.{plain_line_content};
ghost use Rattle.sdb_dump.specs.EntryLimits.{KeyInLimits, SubmissionInLimits};
ghost use Rattle.sdb_dump.specs.CheckStages.{PlainStage, stage_after_line, stage_result};
ghost use Rattle.sdb_dump.specs.declared.checker.Stage.TheVariants.{Header, Body};
ghost use Rattle.sdb_dump.specs.declared.checker.DumpFault.TheVariants.{OutOfMemory, WrongLine};

use crate::decided_line::{append_decided, is_line_of};
use crate::dump_line::{LineContent, read_line};
use crate::made_log::MadeLog;
use sdb_oplog::{DecidedLog, Key, Log};
use std::alloc::{AllocError, Global};
use std::cmp::Ordering;
use std::collections::BTreeMap;
use thiserror::Error;

/// The reason why a dump isn't accepted.
#[derive(Clone, Copy, Debug, PartialEq, Eq, Error)]
pub enum DumpFault {
    /// A read failed, or the limit of reads was reached before the end.
    #[error("the dump could not be read to its end")]
    ReadFailed,
    /// An allocation failed.
    #[error("out of memory")]
    OutOfMemory,
    /// The number of the first wrong line, from 1 on. A missing line counts.
    #[error("wrong at line {line}")]
    WrongLine { line: u128 },
}

impl From<AllocError> for DumpFault {
    ghost use Rattle.sdb_dump.specs.declared.checker.DumpFault.TheVariants.{OutOfMemory};

    ghost from_gives = { λ _ fault. fault ≡ OutOfMemory };

    fn from(_error: AllocError) -> DumpFault {
        DumpFault::OutOfMemory
    }
}

/// An accepted dump: its size and its logs.
#[derive(Drop)]
pub struct CheckedDump {
    /// The documents with entries.
    pub documents: u64,
    /// Number of entries of all documents.
    pub entries: u128,
    logs: BTreeMap<Key, MadeLog>,
}

impl CheckedDump {
    /// Returns the document's log, or `None` if it has no entries.
    pub fn log(&self, key: &Key) -> Option<&Log>
        ensures log { unwrap_or (option_map (λ l. l.now) result) [] ≡ accepted_logs self.now (plain_key key.now) }
        ensures is_made { IsMade (accepted_logs self.now (plain_key key.now)) }
    {
        match self.logs.get(key) {
            Some(made) => Some(made.log()),
            None => None,
        }
    }
}

// The kind of the next line.
#[derive(Clone, Copy, Drop)]
enum Stage {
    Header,
    Body,
    End,
}

// The document of the last line.
#[derive(Drop)]
struct LastDocument {
    key: Key,
    document: DecidedLog,
}

// The state of a check: the logs of all documents before the last one, and the last document.
#[derive(Drop)]
pub(crate) struct Checker {
    alloc: Global,
    stage: Stage,
    logs: BTreeMap<Key, MadeLog>,
    last: Option<LastDocument>,
    entries: u128,
}

impl Checker {
    pub fn new(alloc: Global) -> Checker
        ensures checks { CheckerAtStage result PlainStage.head }
        ensures none { result.entries ≡ 0 }
    {
        Checker {
            alloc,
            stage: Stage::Header,
            logs: BTreeMap::new(alloc),
            last: None,
            entries: 0,
        }
    }

    // Checks the next line. After an error the state is unspecified.
    pub fn check_line(&mut self, line: &[u8]) -> Result<(), DumpFault>
        requires counter_bound { self.old.entries + 3 < 2 ^ 64 }
        ensures bound { OnOk result (self.new.entries ≤ self.old.entries + 1) }
        ensures taken { OnOk result ((s : PlainStage) → CheckerAtStage self.old s
            → CheckerAtStage self.new (stage_after_line s line.now)) }
        ensures fault { IfErr result (λ f. (s : PlainStage) → CheckerAtStage self.old s
            → IsStageFault f (stage_after_line s line.now)) }
        ensures never_read_failed { IsErrOf result DumpFault.ReadFailed → ⊥ }
    {
        match self.stage {
            Stage::Header => self.check_header(line),
            Stage::Body => self.check_body(line),
            Stage::End => Err(self.wrong_line(3)),
        }
    }

    fn check_header(&mut self, line: &[u8]) -> Result<(), DumpFault>
        requires stage { self.old.stage ≡ Header }
        ensures equal { OnOk result (self.new.entries ≡ self.old.entries) }
        ensures taken { OnOk result ((s : PlainStage) → CheckerAtStage self.old s
            → CheckerAtStage self.new (stage_after_line s line.now)) }
        ensures fault { IfErr result (λ f. (s : PlainStage) → CheckerAtStage self.old s
            → IsStageFault f (stage_after_line s line.now)) }
        ensures never_read_failed { IsErrOf result DumpFault.ReadFailed → ⊥ }
    {
        if is_header(line) {
            self.stage = Stage::Body;
            Ok(())
        } else {
            Err(DumpFault::WrongLine { line: 1 })
        }
    }

    fn check_body(&mut self, line: &[u8]) -> Result<(), DumpFault>
        requires stage { self.old.stage ≡ Body }
        requires counter_bound { self.old.entries + 3 < 2 ^ 64 }
        ensures bound { OnOk result (self.new.entries ≤ self.old.entries + 1) }
        ensures taken { OnOk result ((s : PlainStage) → CheckerAtStage self.old s
            → CheckerAtStage self.new (stage_after_line s line.now)) }
        ensures fault { IfErr result (λ f. (s : PlainStage) → CheckerAtStage self.old s
            → IsStageFault f (stage_after_line s line.now)) }
        ensures never_read_failed { IsErrOf result DumpFault.ReadFailed → ⊥ }
    {
        let last = count_line(self.alloc, self.entries)?;
        if line == last.as_bytes() {
            self.stage = Stage::End;
            return Ok(());
        }
        let wrong = self.wrong_line(2);
        if self.accept_entry(line)? {
            Ok(())
        } else {
            Err(wrong)
        }
    }

    // Appends the line's entry. Returns `false` if the line isn't one that may be next.
    fn accept_entry(&mut self, line: &[u8]) -> Result<bool, AllocError>
        requires counter_bound { self.old.entries + 3 < 2 ^ 64 }
        ensures bound { self.new.entries ≤ self.old.entries + 1 }
        ensures stage_unchanged { self.new.stage ≡ self.old.stage }
        ensures accepted { IfOk result (λ b. (xs : List PlainLine) → CheckerHolds self.old xs →
            AcceptsOrRejects b (accepted_line xs line.now) self.new xs) }
    {
        match read_line(self.alloc, line)? {
            Some(read) => self.check_entry(line, read),
            None => Ok(false),
        }
    }

    // Appends the entry that the line's submission stores. Returns `false` if the entry's line
    // differs.
    fn check_entry(&mut self, line: &[u8], read: LineContent) -> Result<bool, AllocError>
        requires counter_bound { self.old.entries + 3 < 2 ^ 64 }
        requires in_limits { KeyInLimits (plain_key read.key) × SubmissionInLimits read.submission }
        ensures bound { self.new.entries ≤ self.old.entries + 1 }
        ensures stage_unchanged { self.new.stage ≡ self.old.stage }
        ensures accepted { IfOk result (λ b. (xs : List PlainLine) → CheckerHolds self.old xs →
            AcceptsOrRejects b (line_of_read xs line.now (plain_line_content read)) self.new xs) }
    {
        let LineContent {
            key,
            submission,
            moment,
        } = read;
        let Some(mut document) = self.take_document(&key)? else {
            return Ok(false);
        };
        let at = document.log().len();
        append_decided(self.alloc, &mut document, submission, moment)?;
        let Some(entry) = document.log().get(at) else {
            return Ok(false);
        };
        let is_right = is_line_of(self.alloc, line, &key, entry, moment)?;
        self.last = Some(LastDocument { key, document });
        self.entries += 1;
        Ok(is_right)
    }

    // Takes the document that a line of this key extends: the last one, or an empty one if the key
    // is greater. Returns `None` if the key is smaller.
    fn take_document(&mut self, key: &Key) -> Result<Option<DecidedLog>, AllocError>
        ensures stage_unchanged { self.new.stage ≡ self.old.stage }
        ensures entries { self.new.entries ≡ self.old.entries }
        ensures taken { IfOk result (λ d. (xs : List PlainLine) → CheckerHolds self.old xs →
            TakesDocument xs (plain_key key.now) self.new d) }
    {
        let Some(last) = self.last.take() else {
            return Ok(Some(DecidedLog::new(self.alloc)));
        };
        match key.cmp(&last.key) {
            Ordering::Less => Ok(None),
            Ordering::Equal => Ok(Some(last.document)),
            Ordering::Greater => {
                self.keep_log(last)?;
                Ok(Some(DecidedLog::new(self.alloc)))
            }
        }
    }

    // Moves the log of a complete document to the map.
    fn keep_log(&mut self, last: LastDocument) -> Result<(), AllocError>
        ensures logs { OnOk result (self.new.logs.entries ≡
            insert_entry (λ a b. compare_keys (plain_key a) (plain_key b)) self.old.logs.entries last.key
            last.document) }
        ensures stage_unchanged { self.new.stage ≡ self.old.stage }
        ensures last { self.new.last ≡ self.old.last }
        ensures entries { self.new.entries ≡ self.old.entries }
    {
        let LastDocument { key, document } = last;
        drop(self.logs.insert(key, MadeLog::new(document))?);
        Ok(())
    }

    // Accepts the dump, given the bytes after its last line feed.
    pub fn finish(self, rest: &[u8]) -> Result<CheckedDump, DumpFault>
        requires counter_bound { self.entries + 3 < 2 ^ 64 }
        ensures accepted { IfOk result (λ c. (s : PlainStage) → CheckerAtStage self s →
            (xs : List PlainLine) × (stage_result s rest.now ≡ Ok xs) × AcceptedHasAll c xs) }
        ensures fault { IfErr result (λ f. (s : PlainStage) → CheckerAtStage self s
            → IsDumpFault f (stage_result s rest.now)) }
        ensures never_read_failed { IsErrOf result DumpFault.ReadFailed → ⊥ }
    {
        match self.stage {
            Stage::Header => Err(DumpFault::WrongLine { line: 1 }),
            Stage::Body => Err(self.wrong_line(2)),
            Stage::End if !rest.is_empty() => Err(self.wrong_line(3)),
            Stage::End => self.accept(),
        }
    }

    // Accepts the dump.
    fn accept(mut self) -> Result<CheckedDump, DumpFault>
        ensures accepted { IfOk result (λ c. (xs : List PlainLine) → CheckerHolds self xs → AcceptedHasAll c xs) }
        ensures memory { IfErr result (λ f. f ≡ OutOfMemory) }
    {
        if let Some(last) = self.last.take() {
            self.keep_log(last)?;
        }
        let Checker { logs, entries, .. } = self;
        Ok(CheckedDump {
            documents: logs.len() as u64,
            entries,
            logs,
        })
    }

    // Returns the fault of the line with this offset from the checked entries.
    fn wrong_line(&self, behind: u128) -> DumpFault
        requires counter_bound { self.now.entries + behind < 2 ^ 64 }
        ensures { result ≡ WrongLine (self.now.entries + behind) }
    {
        DumpFault::WrongLine {
            line: self.entries + behind,
        }
    }
}

fn is_header(line: &[u8]) -> bool
    ensures { result ≡ bytes_eq line.now header_line }
{
    line == br#"{"dump":2}"#.as_slice()
}

/// Returns the last line of a dump with `count` entries.
pub(crate) fn count_line(alloc: Global, count: u128) -> Result<String, AllocError>
    ensures { IfOk result (λ s. string_bytes s ≡ count_line count) }
{
    format!(in alloc; "{{\"entries\":{count}}}")
}
