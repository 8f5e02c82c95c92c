//! The writer of dumps.
ghost use Rattle.std.specs.Prelude.{◌≡◌, ℕ, ◌++◌, ◌∷◌, ◌⊎◌, List, [], Option, IfOk, IfSome, OnOk, OnErr, IsErrOf, length, map, option_map, true, unwrap_or};
ghost use Rattle.std.specs.Io.KnownBytes.{Appends};
ghost use Rattle.sdb_lines.specs.Prefixes.{AppendsPrefix};
ghost use Rattle.sdb_lines.specs.Streams.{WriteFaultIsCounted, failures_after};
ghost use Rattle.sdb_oplog.specs.Keys.{Logs, plain_key};
ghost use Rattle.sdb_desk.specs.StoredKeys.{IsKeyList};
ghost use Rattle.sdb_dump.specs.DumpText.{count_line};
ghost use Rattle.sdb_dump.specs.LogListing.{lines_of_logs};
ghost use Rattle.sdb_dump.specs.WriteModel.{HasEntryCount, WroteUpTo, WroteDump, WroteDumpPrefix, log_text, logs_text};

use crate::checker::count_line;
use crate::dump_line::append_line;
use sdb_lines::{RunFault, Sink, flush_buffer};
use sdb_oplog::{Entry, Key, Log};
use std::alloc::{AllocError, Global};

// Number of bytes after which the output is written: 64 KiB.
const OUTPUT_LIMIT: usize = 65_536;

/// The documents with entries.
pub trait DumpSource {
    // The log of each key.
    ghost logs: { Self → Logs };

    /// Returns their keys, each once, by the bytes of the collection and then of the id.
    ///
    /// # Errors
    ///
    /// [`AllocError`] if an allocation fails.
    fn keys(&self) -> Result<Vec<Key>, AllocError>
        ensures { IfOk result (λ keys. IsKeyList (logs self.now) (map plain_key keys.items)) };

    /// Returns the document's log, or `None` if it has no entries.
    fn log(&self, key: &Key) -> Option<&Log>
        ensures { unwrap_or (option_map (λ l. l.now) result) [] ≡ logs self.now (plain_key key.now) };
}

/// Writes the dump of all logs, flushes it, and returns its number of entries. It writes blocks of
/// 64 KiB plus at most one line.
///
/// # Errors
///
/// [`RunFault::OutOfMemory`] if an allocation fails, [`RunFault::WriteFailed`] if a write or flush
/// fails. The bytes written are then a prefix of the dump.
///
/// ```
/// // `documents` has no entries.
/// let mut writer = CountingWriter::new(Vec::new(alloc));
/// assert_eq!(rt; write_dump(alloc, &documents, &mut writer)?, 0);
/// assert_eq!(rt; writer.stream.as_slice(), b"{\"dump\":2}\n{\"entries\":0}\n".as_slice());
/// ```
pub fn write_dump<D: DumpSource, W: Sink>(
    alloc: Global,
    documents: &D,
    writer: &mut W,
) -> Result<u128, RunFault>
    ensures wrote_all { OnOk result
        (WroteDump (D.logs documents.now) (W.bytes_written writer.old) (W.bytes_written writer.new)) }
    ensures entries { IfOk result (λ n. HasEntryCount (D.logs documents.now) n) }
    // After a fault, a prefix of the dump was written, possibly empty.
    ensures prefix_on_err { OnErr result
        (WroteDumpPrefix (D.logs documents.now) (W.bytes_written writer.old) (W.bytes_written writer.new)) }
    // No write or flush failed, except the one that is the fault.
    ensures write_failures { WriteFaultIsCounted result (W.failures writer.old) (W.failures writer.new) }
    ensures never_read_failed { IsErrOf result RunFault.ReadFailed → ⊥ }
{
    let keys = documents.keys()?;
    let mut out = Vec::with_capacity(alloc, OUTPUT_LIMIT)?;
    out.extend_from_slice(b"{\"dump\":2}\n")?;
    let entries = write_logs(alloc, documents, keys.as_slice(), &mut out, writer)?;
    push_count(alloc, entries, &mut out)?;
    write_and_flush(out, writer)?;
    Ok(entries)
}

// Appends the lines of these documents' logs to the output, and writes it when it is full. Returns
// the number of lines.
fn write_logs<D: DumpSource, W: Sink>(
    alloc: Global,
    documents: &D,
    keys: &[Key],
    out: &mut Vec<u8>,
    writer: &mut W,
) -> Result<u128, RunFault>
    ensures wrote { OnOk result (WroteUpTo (W.bytes_written writer.old) (W.bytes_written writer.new)
        (out.old.items ++ logs_text (D.logs documents.now) (map plain_key keys.now)) out.new.items) }
    ensures count { IfOk result (λ n. n ≡ length (lines_of_logs (D.logs documents.now) (map plain_key keys.now))) }
    ensures prefix_on_err { OnErr result (AppendsPrefix (W.bytes_written writer.old) (W.bytes_written writer.new)
        (out.old.items ++ logs_text (D.logs documents.now) (map plain_key keys.now))) }
    ensures write_failures { (W.failures writer.new ≡ W.failures writer.old) ⊎ IsErrOf result RunFault.WriteFailed }
    ensures write_failed { IsErrOf result RunFault.WriteFailed →
        W.failures writer.new ≡ failures_after true (W.failures writer.old) }
    ensures never_read_failed { IsErrOf result RunFault.ReadFailed → ⊥ }
{
    let mut count: u128 = 0;
    for key in keys {
        let entries = entries_of(documents, key);
        write_log(alloc, key, entries, out, writer)?;
        count += entries.len() as u128;
    }
    Ok(count)
}

// Returns the entries of the document's log.
fn entries_of<'a, D: DumpSource>(documents: &'a D, key: &Key) -> &'a [Entry]
    ensures { result.now ≡ D.logs documents.now (plain_key key.now) }
{
    match documents.log(key) {
        Some(log) => log.entries_from(0),
        None => &[],
    }
}

// Appends the lines of these entries to the output, and writes it when it is full.
fn write_log<W: Sink>(
    alloc: Global,
    key: &Key,
    entries: &[Entry],
    out: &mut Vec<u8>,
    writer: &mut W,
) -> Result<(), RunFault>
    ensures wrote { OnOk result (WroteUpTo (W.bytes_written writer.old) (W.bytes_written writer.new)
        (out.old.items ++ log_text (plain_key key.now) entries.now) out.new.items) }
    ensures prefix_on_err { OnErr result (AppendsPrefix (W.bytes_written writer.old) (W.bytes_written writer.new)
        (out.old.items ++ log_text (plain_key key.now) entries.now)) }
    ensures write_failures { (W.failures writer.new ≡ W.failures writer.old) ⊎ IsErrOf result RunFault.WriteFailed }
    ensures write_failed { IsErrOf result RunFault.WriteFailed →
        W.failures writer.new ≡ failures_after true (W.failures writer.old) }
    ensures never_read_failed { IsErrOf result RunFault.ReadFailed → ⊥ }
{
    for entry in entries {
        append_line(alloc, key, entry, out)?;
        out.extend_from_slice(b"\n")?;
        flush_if_full(out, writer)?;
    }
    Ok(())
}

// Writes the output if it is full.
fn flush_if_full<W: Sink>(out: &mut Vec<u8>, writer: &mut W) -> Result<(), RunFault>
    ensures wrote { OnOk result (WroteUpTo (W.bytes_written writer.old) (W.bytes_written writer.new)
        out.old.items out.new.items) }
    ensures prefix_on_err { OnErr result (AppendsPrefix (W.bytes_written writer.old)
        (W.bytes_written writer.new) out.old.items) }
    ensures no_failure { OnOk result (W.failures writer.new ≡ W.failures writer.old) }
    ensures fault { OnErr result (IsErrOf result RunFault.WriteFailed
        × (W.failures writer.new ≡ failures_after true (W.failures writer.old))) }
{
    if out.len() < OUTPUT_LIMIT {
        return Ok(());
    }
    flush_buffer(out, writer)
}

// Appends the line with the count.
fn push_count(alloc: Global, count: u128, out: &mut Vec<u8>) -> Result<(), AllocError>
    ensures { OnOk result (out.new.items ≡ out.old.items ++ (count_line count ++ 10 ∷ [])) }
{
    let line = count_line(alloc, count)?;
    out.extend_from_slice(line.as_bytes())?;
    out.extend_from_slice(b"\n")
}

// Writes the output and flushes it.
fn write_and_flush<W: Sink>(mut out: Vec<u8>, writer: &mut W) -> Result<(), RunFault>
    ensures wrote { OnOk result (Appends (W.bytes_written writer.old) (W.bytes_written writer.new) out.items) }
    ensures prefix_on_err { OnErr result (AppendsPrefix (W.bytes_written writer.old)
        (W.bytes_written writer.new) out.items) }
    ensures no_failure { OnOk result (W.failures writer.new ≡ W.failures writer.old) }
    ensures fault { OnErr result (IsErrOf result RunFault.WriteFailed
        × (W.failures writer.new ≡ failures_after true (W.failures writer.old))) }
{
    flush_buffer(&mut out, writer)?;
    writer.flush_all().map_err(|_| RunFault::WriteFailed)
}
