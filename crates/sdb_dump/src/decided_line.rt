//! The decision of a line's submission, and the comparison of its entry with the line.
ghost use Rattle.std.specs.Prelude.{◌≡◌, IfOk, OnOk};
ghost use Rattle.sdb_oplog.specs.Decide.{decide};
ghost use Rattle.sdb_oplog.specs.Keys.{plain_key};
ghost use Rattle.sdb_dump.specs.DumpText.{is_text_of_entry};

use crate::dump_line::entry_line;
use sdb_oplog::{DecidedLog, Entry, Key, Moment, Rejection, Submission};
use sdb_wire::refusal_code;
use std::alloc::{AllocError, Global};

// Decides a submission at a moment, and appends its entry to the log unless it is rejected. After
// an error the log is unspecified.
pub(crate) fn append_decided(
    alloc: Global,
    log: &mut DecidedLog,
    submission: Submission,
    moment: Moment,
) -> Result<(), AllocError>
    ensures { OnOk result (log.new ≡ (decide log.old submission moment).log) }
{
    match log.decide(alloc, submission, moment) {
        Ok(_) => Ok(()),
        Err(Rejection::Repeat { .. }) => Ok(()),
        Err(Rejection::Refused(code)) => {
            refusal_code(code)?;
            Ok(())
        }
    }
}

/// Returns whether the entry has this moment and its line is this one.
///
/// # Errors
///
/// [`AllocError`] if an allocation fails.
pub fn is_line_of(
    alloc: Global,
    line: &[u8],
    key: &Key,
    entry: &Entry,
    moment: Moment,
) -> Result<bool, AllocError>
    ensures { IfOk result (λ b. b ≡ is_text_of_entry line.now (plain_key key.now) moment entry.now) }
{
    if entry.moment().milliseconds() != moment.milliseconds() {
        return Ok(false);
    }
    Ok(entry_line(alloc, key, entry)?.as_slice() == line)
}
