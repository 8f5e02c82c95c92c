//! The output of a server that has ended.
ghost use Rattle.sdb_backend.specs.AuditModel.{audit_logs};

use sdb_backend::{Audit, CloseError, CloseRefused};
use sdb_cli::{STATUS_FAULT, STATUS_OK, exit_status};
use sdb_dump::{DumpSource, write_dump};
use sdb_lines::CountingWriter;
use sdb_oplog::{Key, Log};
use std::alloc::AllocError;
use std::io;

/// Prints the outcome of closing a backend, and returns the exit status. The number of stored
/// documents and operations goes to standard error, and the dump, if requested, to standard output.
///
/// # Errors
///
/// [`AllocError`] if an allocation for the count of the documents fails. The
/// [`io::Error`](std::io::Error) of printing a line.
pub fn print_close<R: AllocGlobal + Print + Eprint, W: Drop>(
    rt: &R,
    closed: Result<Audit, CloseRefused<W>>,
    is_dumping: bool,
) -> anyhow::Result<u8> {
    match closed {
        Ok(audit) => print_audit(rt, &audit, is_dumping),
        Err(refused) => match refused.error {
            CloseError::MissingPass => print_close_fault(rt, "a pass is missing"),
            CloseError::OutOfMemory => print_close_fault(rt, "out of memory"),
        },
    }
}

/// Prints the number of stored documents and operations, writes the dump if requested, and returns
/// the exit status.
pub(crate) fn print_audit<R>(rt: &R, audit: &Audit, is_dumping: bool) -> anyhow::Result<u8>
where
    R: AllocGlobal + Print + Eprint,
{
    let (documents, operations) = count_stored(audit)?;
    eprintln!(rt; "ended: {documents} documents, {operations} operations")?;
    if !is_dumping {
        return Ok(STATUS_OK);
    }
    let mut writer = CountingWriter::new(io::writer(rt));
    match write_dump(rt.alloc(), &AuditDocuments { audit }, &mut writer) {
        Ok(_) => Ok(STATUS_OK),
        Err(fault) => Ok(exit_status(rt, fault)),
    }
}

// The documents of a closed backend.
#[derive(Drop)]
struct AuditDocuments<'a> {
    audit: &'a Audit,
}

impl<'a> DumpSource for AuditDocuments<'a> {
    ghost logs = { λ d. audit_logs d.audit.now };

    fn keys(&self) -> Result<Vec<Key>, AllocError> {
        self.audit.documents()
    }

    fn log(&self, key: &Key) -> Option<&Log> {
        self.audit.log(key)
    }
}

/// Prints why the number of stored operations is unavailable, and returns the exit status.
pub(crate) fn print_close_fault(rt: &impl Eprint, why: &str) -> anyhow::Result<u8> {
    eprintln!(rt; "error: the number of stored operations is unavailable: {why}")?;
    Ok(STATUS_FAULT)
}

// Returns the number of documents and of stored operations.
fn count_stored(audit: &Audit) -> Result<(usize, u64), AllocError> {
    let keys = audit.documents()?;
    let mut operations: u64 = 0;
    for key in keys.iter() {
        operations = operations.saturating_add(audit.log(key).map_or(0, Log::len));
    }
    Ok((keys.len(), operations))
}
