//! Readers and writers that count their failures.
ghost use Rattle.std.specs.Prelude.{◌≡◌, ℕ, ◌+◌, ◌-◌, ◌^◌, List, length, is_err, min};
ghost use Rattle.std.specs.declared.option.Option.{Option};
ghost use Rattle.std.specs.Io.{ReadsAtMost, WritesAtMost};
ghost use Rattle.std.specs.Io.KnownBytes.{ReadConsumes, WriteAppends, Keeps};
ghost use Rattle.sdb_lines.specs.WriteFaults.{is_write_fault};
ghost use Rattle.sdb_lines.specs.Streams.{failures_after};

use std::io;
use std::io::{Read, Write};

/// A reader that counts its reads and its failed reads.
pub trait Source {
    // The bytes still to be read, if the reader determines them.
    ghost remaining_input: { Self → Option (List ℕ) };

    // The number of failed reads, which saturates at 2^64 - 1.
    ghost failures: { Self → ℕ };

    // The number of reads, which saturates at 2^64 - 1.
    ghost calls: { Self → ℕ };

    /// Reads bytes into a prefix of `buf` and returns their number. If `buf` is not empty, 0 means
    /// the end of the input.
    ///
    /// # Errors
    ///
    /// The error of the underlying reader; the failure is then counted.
    fn read_into(&mut self, buf: &mut [u8]) -> io::Result<usize>
        ensures bound { ReadsAtMost result buf.new }
        ensures bytes { ReadConsumes (remaining_input self.old) (remaining_input self.new) result buf.new }
        ensures failures { failures self.new ≡ failures_after (is_err result) (failures self.old) }
        ensures calls { calls self.new ≡ min (calls self.old + 1) (2 ^ 64 - 1) };
}

/// A reader of `std` with counters. Calls after a failure still reach the stream.
#[derive(Drop)]
pub struct CountingReader<S> {
    /// The underlying reader. Calls made on it directly are not counted.
    pub stream: S,
    /// The number of failed reads, which saturates at `u64::MAX`.
    pub failures: u64,
    /// The number of reads, which saturates at `u64::MAX`.
    pub calls: u64,
}

impl<S> CountingReader<S> {
    /// Wraps a reader, with both counters at 0.
    pub fn new(stream: S) -> CountingReader<S>
        ensures stream { result.stream ≡ stream }
        ensures quiet { result.failures ≡ 0 }
        ensures uncalled { result.calls ≡ 0 }
    {
        CountingReader {
            stream,
            failures: 0,
            calls: 0,
        }
    }
}

impl<S: Read> Source for CountingReader<S> {
    ghost remaining_input = { λ s. S.remaining s.stream };

    ghost failures = { λ s. s.failures };

    ghost calls = { λ s. s.calls };

    fn read_into(&mut self, buf: &mut [u8]) -> io::Result<usize> {
        self.calls = self.calls.saturating_add(1);
        let answer = self.stream.read(buf);
        if answer.is_err() {
            self.failures = self.failures.saturating_add(1);
        }
        answer
    }
}

/// A writer that counts its failed writes and flushes.
pub trait Sink {
    // The bytes written, if the writer determines them.
    ghost bytes_written: { Self → Option (List ℕ) };

    // The number of failed writes and flushes, and of writes that wrote 0 of one or more bytes. It
    // saturates at 2^64 - 1.
    ghost failures: { Self → ℕ };

    /// Writes a prefix of `buf` and returns its length in bytes. If `buf` is not empty, 0 counts as
    /// a failure.
    ///
    /// # Errors
    ///
    /// The error of the underlying writer; the failure is then counted.
    fn write_from(&mut self, buf: &[u8]) -> io::Result<usize>
        ensures bound { WritesAtMost result buf.now }
        ensures bytes { WriteAppends (bytes_written self.old) (bytes_written self.new) result buf.now }
        ensures failures { failures self.new
            ≡ failures_after (is_write_fault result (length buf.now)) (failures self.old) };

    /// Flushes what was written.
    ///
    /// # Errors
    ///
    /// The error of the underlying writer; the failure is then counted.
    fn flush_all(&mut self) -> io::Result<()>
        ensures bytes { Keeps (bytes_written self.old) (bytes_written self.new) }
        ensures failures { failures self.new ≡ failures_after (is_err result) (failures self.old) };
}

/// A writer of `std` with a counter. Calls after a failure still reach the stream.
#[derive(Drop)]
pub struct CountingWriter<S> {
    /// The underlying writer. Calls made on it directly are not counted.
    pub stream: S,
    /// The number of failed writes and flushes, which saturates at `u64::MAX`.
    pub failures: u64,
}

impl<S> CountingWriter<S> {
    /// Wraps a writer, with the counter at 0.
    pub fn new(stream: S) -> CountingWriter<S>
        ensures stream { result.stream ≡ stream }
        ensures quiet { result.failures ≡ 0 }
    {
        CountingWriter {
            stream,
            failures: 0,
        }
    }
}

impl<S: Write> Sink for CountingWriter<S> {
    ghost bytes_written = { λ s. S.contents s.stream };

    ghost failures = { λ s. s.failures };

    fn write_from(&mut self, buf: &[u8]) -> io::Result<usize> {
        let answer = self.stream.write(buf);
        let is_stalled = match &answer {
            Ok(n) => *n == 0 && !buf.is_empty(),
            Err(_) => true,
        };
        if is_stalled {
            self.failures = self.failures.saturating_add(1);
        }
        answer
    }

    fn flush_all(&mut self) -> io::Result<()> {
        let answer = self.stream.flush();
        if answer.is_err() {
            self.failures = self.failures.saturating_add(1);
        }
        answer
    }
}
