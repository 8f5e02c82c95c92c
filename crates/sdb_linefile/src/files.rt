//! The files at a path, read without a write.
ghost use Rattle.std.specs.Prelude.{IfOk, OnOk};
ghost use Rattle.sdb_linefile.specs.Contents.{image_of_contents};
ghost use Rattle.sdb_linefile.specs.Damage.{IsDamaged, IsUndamaged};
ghost use Rattle.sdb_linefile.specs.declared.damage.Damage.{Damage};

use crate::contents::refuse_missing_log;
use crate::damage::find_damage;
use crate::error::LineFileError;
use os::RangeLock;
use std::alloc::Global;
use std::fs::{File, OpenOptions};
use std::io::{ErrorKind, Read};
use std::os::fd::AsRawFd;
use std::{fs, io};

/// The first byte of the range that SQLite locks.
const LOCK_START: u64 = 1 << 30;

/// The length of the range that SQLite locks.
const LOCK_LEN: u64 = 512;

/// The contents of a file of lines and of its log.
#[derive(Drop)]
pub struct FileContents {
    /// The bytes of the file.
    pub file: Vec<u8>,
    /// The bytes of its log, or none if there is no log.
    pub log: Vec<u8>,
}

/// Checks that an open of the files at a path loses no line. Nothing is created or written.
///
/// # Errors
///
/// - [`LineFileError::Busy`] if another process has the file open.
/// - [`LineFileError::DamagedFiles`] if the files are damaged as [`find_damage`] says, or if there is
///   no log, or an empty one, and the file wasn't closed.
/// - If there is no log, [`LineFileError::ForeignFile`] or [`LineFileError::Damaged`] if the file isn't
///   one of lines.
/// - The cause, as [`LineFileError::NoPermission`], if a file can't be read.
pub fn check_files(rt: &HostRuntime, path: &str) -> Result<(), LineFileError> {
    let (file, log) = find_files(rt, path)?;
    let Some(file) = file else {
        return refuse_damage(0, log.as_slice());
    };
    let file_len = file.metadata()?.len();
    refuse_damage(file_len, log.as_slice())?;
    if file_len > 0 && log.is_empty() {
        let file = read_all(rt.alloc(), file)?;
        refuse_missing_log(rt.alloc(), file.as_slice())?;
    }
    Ok(())
}

/// Reads the files at a path. Nothing is created or written.
///
/// # Errors
///
/// - [`LineFileError::NotFound`] if there is no file.
/// - As [`check_files`].
pub fn read_files(rt: &HostRuntime, path: &str) -> Result<FileContents, LineFileError>
    ensures { IfOk result (λ contents. IsUndamaged (image_of_contents contents)) }
{
    let (file, log) = find_files(rt, path)?;
    let Some(file) = file else {
        refuse_damage(0, log.as_slice())?;
        return Err(LineFileError::NotFound);
    };
    let file = read_all(rt.alloc(), file)?;
    check_contents(rt.alloc(), FileContents { file, log })
}

/// Returns the contents, unless they are damaged or their log is missing.
pub(crate) fn check_contents(
    alloc: Global,
    contents: FileContents,
) -> Result<FileContents, LineFileError>
    ensures { IfOk result (λ contents. IsUndamaged (image_of_contents contents)) }
{
    refuse_damage(contents.file.len() as u64, contents.log.as_slice())?;
    if contents.log.is_empty() {
        refuse_missing_log(alloc, contents.file.as_slice())?;
    }
    Ok(contents)
}

// Reads the files at a path, whatever is wrong with them. A missing file is empty.
pub(crate) fn read_damaged_files(
    rt: &HostRuntime,
    path: &str,
) -> Result<FileContents, LineFileError> {
    let (file, log) = find_files(rt, path)?;
    let file = match file {
        Some(file) => read_all(rt.alloc(), file)?,
        None => Vec::new(rt.alloc()),
    };
    Ok(FileContents { file, log })
}

/// Returns why the file at a path can't be opened or created, once [`open_or_create`] has returned
/// this error.
///
/// [`open_or_create`]: crate::open_or_create
pub fn named_cause(rt: &HostRuntime, path: &str, error: LineFileError) -> LineFileError {
    if error != LineFileError::CannotOpen {
        return error;
    }
    match OpenOptions::new().read(true).write(true).open(rt, path) {
        Ok(_) => error,
        Err(cause) if cause.kind() == ErrorKind::NotFound => creation_cause(rt, path),
        Err(cause) => LineFileError::from(cause),
    }
}

// Returns why no file can be created at the path.
fn creation_cause(rt: &HostRuntime, path: &str) -> LineFileError {
    match OpenOptions::new()
        .write(true)
        .create_new(true)
        .open(rt, path)
    {
        Ok(_) => match fs::remove_file(rt, path) {
            Ok(()) => LineFileError::CannotOpen,
            Err(cause) => LineFileError::from(cause),
        },
        Err(cause) => LineFileError::from(cause),
    }
}

/// Refuses files that are damaged.
pub(crate) fn refuse_damage(file_len: u64, log: &[u8]) -> Result<(), LineFileError>
    ensures { OnOk result ((damage : Damage) → ¬ IsDamaged damage file_len log.now) }
{
    match find_damage(file_len, log) {
        Some(damage) => Err(LineFileError::DamagedFiles(damage)),
        None => Ok(()),
    }
}

// Returns the file at the path, or that of a link at the path, and the bytes of its log.
fn find_files(rt: &HostRuntime, path: &str) -> Result<(Option<File>, Vec<u8>), LineFileError> {
    let real = real_path(rt, path)?;
    let file = open_unlocked(rt, real.as_str())?;
    let log_path = format!(in rt.alloc(); "{real}-wal")?;
    let log = match open_unlocked(rt, log_path.as_str())? {
        Some(log) => read_all(rt.alloc(), log)?,
        None => Vec::new(rt.alloc()),
    };
    Ok((file, log))
}

/// Returns the path, or that of the file to which a link at the path leads.
pub(crate) fn real_path(rt: &HostRuntime, path: &str) -> Result<String, LineFileError> {
    match fs::canonicalize(rt, path) {
        Ok(real) => Ok(format!(in rt.alloc(); "{}", real.as_str())?),
        Err(error) if error.kind() == ErrorKind::NotFound => {
            Ok(String::from_str(rt.alloc(), path)?)
        }
        Err(error) => Err(LineFileError::from(error)),
    }
}

// Opens a file for reading, unless it doesn't exist. No process that writes it has it open then.
fn open_unlocked(rt: &HostRuntime, path: &str) -> Result<Option<File>, LineFileError> {
    match open_regular(rt, path)? {
        Some(file) if is_locked(&file) => Err(LineFileError::Busy),
        opened => Ok(opened),
    }
}

/// Opens a file for reading, unless it doesn't exist.
pub(crate) fn open_regular(rt: &HostRuntime, path: &str) -> Result<Option<File>, LineFileError> {
    let found = match fs::metadata(rt, path) {
        Ok(found) => found,
        Err(error) if error.kind() == ErrorKind::NotFound => return Ok(None),
        Err(error) => return Err(LineFileError::from(error)),
    };
    if found.is_dir() {
        return Err(LineFileError::IsDirectory);
    }
    if !found.is_file() {
        return Err(LineFileError::NotRegular);
    }
    Ok(Some(File::open(rt, path)?))
}

// Locks the file for reading. Returns whether another process has locked it for writing.
fn is_locked(file: &File) -> bool {
    if os::try_lock_range(file.as_raw_fd(), RangeLock::Shared, LOCK_START, LOCK_LEN) == 0 {
        return false;
    }
    io::Error::from_raw_os_error(os::errno()).kind() == ErrorKind::WouldBlock
}

/// Reads a file to its end.
pub(crate) fn read_all(alloc: Global, mut file: File) -> Result<Vec<u8>, LineFileError> {
    let mut bytes = Vec::new(alloc);
    file.read_to_end(&mut bytes)?;
    Ok(bytes)
}
