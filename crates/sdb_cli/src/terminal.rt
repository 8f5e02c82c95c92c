//! A terminal that keeps what is printed, and streams that fail, for tests of programs.
use std::alloc::{AllocError, Global};
use std::cell::RefCell;
use std::fmt::{Display, Write};
use std::io;

/// The text printed to standard output and to standard error.
#[derive(Drop)]
pub struct TerminalBuffer {
    alloc: Global,
    /// The text printed to standard output.
    pub out: RefCell<String>,
    /// The text printed to standard error.
    pub err: RefCell<String>,
}

impl TerminalBuffer {
    /// Creates a terminal with no text.
    pub fn new(alloc: Global) -> TerminalBuffer {
        TerminalBuffer {
            alloc,
            out: RefCell::new(String::new(alloc)),
            err: RefCell::new(String::new(alloc)),
        }
    }
}

/// Splits a command line at white space, without quoting.
///
/// # Errors
///
/// [`AllocError`] if an allocation fails.
pub fn argument_list(alloc: Global, line: &str) -> Result<Vec<String>, AllocError> {
    let mut words = Vec::new(alloc);
    for word in line.split_whitespace() {
        words.push(String::from_str(alloc, word)?)?;
    }
    Ok(words)
}

fn add<D: Display + Drop>(text: &RefCell<String>, value: D, end: &str) -> io::Result<()> {
    match text.try_borrow_mut() {
        Ok(mut text) => match write!(text, "{value}{end}") {
            Ok(()) => Ok(()),
            Err(_) => Err(io::Error::from(io::ErrorKind::OutOfMemory)),
        },
        Err(_) => Err(io::Error::from(io::ErrorKind::ResourceBusy)),
    }
}

impl Print for TerminalBuffer {
    fn print<D: Display + Drop>(&self, value: D) -> io::Result<()> {
        add(&self.out, value, "")
    }

    fn println<D: Display + Drop>(&self, value: D) -> io::Result<()> {
        add(&self.out, value, "\n")
    }

    fn write_all(&self, bytes: &[u8]) -> io::Result<()> {
        match str::from_utf8(bytes) {
            Ok(text) => add(&self.out, text, ""),
            Err(_) => Err(io::Error::from(io::ErrorKind::InvalidData)),
        }
    }
}

impl Eprint for TerminalBuffer {
    fn eprint<D: Display + Drop>(&self, value: D) -> io::Result<()> {
        add(&self.err, value, "")
    }

    fn eprintln<D: Display + Drop>(&self, value: D) -> io::Result<()> {
        add(&self.err, value, "\n")
    }
}

impl Alloc for TerminalBuffer {
    type A = Global;

    fn alloc(&self) -> Global {
        self.alloc
    }
}

/// Streams of which standard input and standard output fail at each call with `BrokenPipe`.
#[derive(Drop)]
pub struct ClosedStreams {
    alloc: Global,
    /// The text printed to standard error.
    pub err: RefCell<String>,
}

impl ClosedStreams {
    /// Creates them with no text.
    pub fn new(alloc: Global) -> ClosedStreams {
        ClosedStreams {
            alloc,
            err: RefCell::new(String::new(alloc)),
        }
    }
}

fn closed() -> io::Result<()> {
    Err(io::Error::from(io::ErrorKind::BrokenPipe))
}

impl io::Read for ClosedStreams {
    fn read(&mut self, _buf: &mut [u8]) -> io::Result<usize> {
        Err(io::Error::from(io::ErrorKind::BrokenPipe))
    }
}

impl Print for ClosedStreams {
    fn print<D: Display + Drop>(&self, _value: D) -> io::Result<()> {
        closed()
    }

    fn println<D: Display + Drop>(&self, _value: D) -> io::Result<()> {
        closed()
    }

    fn write_all(&self, _bytes: &[u8]) -> io::Result<()> {
        closed()
    }
}

impl Eprint for ClosedStreams {
    fn eprint<D: Display + Drop>(&self, value: D) -> io::Result<()> {
        add(&self.err, value, "")
    }

    fn eprintln<D: Display + Drop>(&self, value: D) -> io::Result<()> {
        add(&self.err, value, "\n")
    }
}

impl Alloc for ClosedStreams {
    type A = Global;

    fn alloc(&self) -> Global {
        self.alloc
    }
}
