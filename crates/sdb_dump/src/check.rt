//! The check of a dump while it is read.
ghost use Rattle.std.specs.Prelude.{◌≡◌, ℕ, ◌+◌, ◌^◌, ◌<◌, ◌≤◌, List, [], ◌++◌, length, OnOk, IfOk, IfErr, IfSome, IsErrOf, vec_len};
ghost use Rattle.sdb_dump.specs.CheckerModel.{CheckerAtStage};
ghost use Rattle.sdb_dump.specs.LineSplit.{check_text};
ghost use Rattle.sdb_dump.specs.Faults.{IsDumpFault, IsStageFault, DumpReadFaultIsCounted};
ghost use Rattle.sdb_dump.specs.CheckStages.{PlainStage, stage_after_line};
ghost use Rattle.sdb_dump.specs.CheckText.{AcceptsText, CheckContinues, check_result_from};

use crate::checker::{CheckedDump, Checker, DumpFault};
use sdb_lines::{READ_LIMIT, Source, first_line_feed};
use std::alloc::{AllocError, Global};

// Maximum number of bytes per read: 64 KiB.
const BUFFER_LEN: usize = 65_536;

/// Reads a dump to its end and checks it: each entry is what `decide` stores for its submission on
/// the entries before it. The check has no projections, so it accepts content that a projection
/// would refuse. Lines may have any length. A read takes at most 64 KiB, and at most
/// [`READ_LIMIT`] reads are made.
///
/// # Errors
///
/// [`DumpFault::WrongLine`] with the first wrong line, [`DumpFault::ReadFailed`] if a read fails or
/// the limit of reads is reached, [`DumpFault::OutOfMemory`] if an allocation fails.
///
/// ```
/// let dump = b"{\"dump\":2}\n{\"entries\":0}\n";
/// let checked = check_dump(alloc, &mut CountingReader::new(dump.as_slice()))?;
/// assert_eq!(rt; (checked.documents, checked.entries), (0, 0));
/// ```
pub fn check_dump<R: Source>(alloc: Global, reader: &mut R) -> Result<CheckedDump, DumpFault>
    ensures accepted { IfOk result (λ c. IfSome (R.remaining_input reader.old) (λ text. AcceptsText c text)) }
    ensures fault { IfErr result (λ f. IfSome (R.remaining_input reader.old) (λ text. IsDumpFault f
        (check_text text))) }
    // No read failed, except the one that is the fault.
    ensures read_failures { DumpReadFaultIsCounted result (R.calls reader.old) (R.failures reader.old)
        (R.calls reader.new) (R.failures reader.new) }
{
    let mut space = reserve_buffer(alloc)?;
    let buffer = space.as_mut_slice();
    let mut checker = Checker::new(alloc);
    let mut partial = Vec::new(alloc);
    for _turn in 0..READ_LIMIT {
        match reader.read_into(buffer) {
            Ok(0) => return checker.finish(partial.as_slice()),
            Ok(n) => check_chunk(&mut checker, &mut partial, &buffer[..n])?,
            Err(_) => return Err(DumpFault::ReadFailed),
        }
    }
    Err(DumpFault::ReadFailed)
}

// Checks the lines that end in this part of the text, and keeps the rest as a pending line.
fn check_chunk(checker: &mut Checker, partial: &mut Vec<u8>, input: &[u8]) -> Result<(), DumpFault>
    requires counter_bound { checker.old.entries + length input.now + 3 < 2 ^ 64 }
    ensures bound { OnOk result (checker.new.entries ≤ checker.old.entries + length input.now) }
    ensures taken { OnOk result ((s : PlainStage) → CheckerAtStage checker.old s →
        CheckContinues s partial.old.items input.now checker.new partial.new.items) }
    ensures fault { IfErr result (λ f. (s : PlainStage) → CheckerAtStage checker.old s → (rest : List ℕ) →
        IsDumpFault f (check_result_from s partial.old.items (input.now ++ rest))) }
    ensures never_read_failed { IsErrOf result DumpFault.ReadFailed → ⊥ }
{
    let mut rest = input;
    while let Some(at) = first_line_feed(rest) {
        check_line(checker, partial, &rest[..at])?;
        rest = &rest[at + 1..];
    }
    partial.extend_from_slice(rest)?;
    Ok(())
}

// Checks the line that ends with this part.
fn check_line(checker: &mut Checker, partial: &mut Vec<u8>, input: &[u8]) -> Result<(), DumpFault>
    requires counter_bound { checker.old.entries + 3 < 2 ^ 64 }
    ensures bound { OnOk result (checker.new.entries ≤ checker.old.entries + 1) }
    ensures partial_line { OnOk result (partial.new.items ≡ []) }
    ensures taken { OnOk result ((s : PlainStage) → CheckerAtStage checker.old s →
        CheckerAtStage checker.new (stage_after_line s (partial.old.items ++ input.now))) }
    ensures fault { IfErr result (λ f. (s : PlainStage) → CheckerAtStage checker.old s →
        IsStageFault f (stage_after_line s (partial.old.items ++ input.now))) }
    ensures never_read_failed { IsErrOf result DumpFault.ReadFailed → ⊥ }
{
    partial.extend_from_slice(input)?;
    checker.check_line(partial.as_slice())?;
    partial.clear();
    Ok(())
}

// Allocates the buffer of one read.
fn reserve_buffer(alloc: Global) -> Result<Vec<u8>, AllocError>
    ensures { IfOk result (λ buffer. vec_len buffer ≡ BUFFER_LEN) }
{
    vec![in alloc; 0u8; BUFFER_LEN]
}
