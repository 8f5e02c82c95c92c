//! The errors of a file of lines.
use crate::damage::Damage;
use sqlite::{Error as SqliteError, ErrorCode};
use std::alloc::AllocError;
use std::io;
use std::io::ErrorKind;
use thiserror::Error;

/// The reason why a file of lines isn't opened, read or written.
#[derive(Clone, Copy, Debug, PartialEq, Eq, Error)]
pub enum LineFileError {
    /// Another process has the file open.
    #[error("another process has the file open")]
    Busy,
    /// The file can't be opened or created at this path, for a cause that isn't named below.
    #[error("cannot open the file")]
    CannotOpen,
    /// There is no file at this path.
    #[error("no such file")]
    NotFound,
    /// The process may not read or write the file, or create it in its folder.
    #[error("permission denied")]
    NoPermission,
    /// The path is that of a folder.
    #[error("is a directory")]
    IsDirectory,
    /// The path is that of a pipe, a socket or a device.
    #[error("not a regular file")]
    NotRegular,
    /// The file system is mounted read-only.
    #[error("read-only file system")]
    ReadOnly,
    /// The file or its log is damaged, and an open would lose lines.
    #[error("{0}")]
    DamagedFiles(Damage),
    /// The files changed while they were read, and so often that no read was of one state.
    #[error("another process changes the file too often")]
    Changing,
    /// The file is a database of another program.
    #[error("the file belongs to another program")]
    ForeignFile,
    /// The file is empty, or a database without tables.
    #[error("the file is empty")]
    Empty,
    /// The file is no database, or it is damaged.
    #[error("the file is damaged or no database")]
    Damaged,
    /// The row of the table at this place, from 1 on, hasn't this number, or it has no line.
    #[error("damaged at line {line}")]
    WrongLine { line: u64 },
    /// The sink refused the line with this number, from 1 on.
    #[error("line {line} is refused")]
    Refused { line: u64 },
    /// A line is longer than the file format permits.
    #[error("a line is too long")]
    LineTooLong,
    /// No number is left for a line.
    #[error("too many lines")]
    TooManyLines,
    /// The disk is full.
    #[error("the disk is full")]
    DiskFull,
    /// The disk failed to read, write or sync.
    #[error("disk input or output failed")]
    DiskFailed,
    /// An earlier failure of the disk closed the file.
    #[error("an earlier failure closed the file")]
    Closed,
    /// An allocation failed.
    #[error("out of memory")]
    OutOfMemory,
    /// `sqlite` refused a statement. No statement of this crate is refused on a file of lines.
    #[error("a statement was refused")]
    StatementRefused,
}

impl From<SqliteError> for LineFileError {
    ghost use Rattle.std.specs.Prelude.{◌≡◌};
    ghost use Rattle.sdb_linefile.specs.Causes.{cause_of};

    ghost from_gives = { λ error cause. cause ≡ cause_of error };

    fn from(error: SqliteError) -> LineFileError {
        match error {
            SqliteError::SqliteFailure(ErrorCode::DatabaseBusy) => LineFileError::Busy,
            SqliteError::SqliteFailure(ErrorCode::CannotOpen) => LineFileError::CannotOpen,
            SqliteError::SqliteFailure(ErrorCode::NotADatabase) => LineFileError::Damaged,
            SqliteError::SqliteFailure(ErrorCode::DatabaseCorrupt) => LineFileError::Damaged,
            SqliteError::SqliteFailure(ErrorCode::TooBig) => LineFileError::LineTooLong,
            SqliteError::SqliteFailure(ErrorCode::NoRowid) => LineFileError::TooManyLines,
            SqliteError::SqliteFailure(ErrorCode::DiskFull) => LineFileError::DiskFull,
            SqliteError::SqliteFailure(ErrorCode::SystemIoFailure) => LineFileError::DiskFailed,
            SqliteError::SqliteFailure(ErrorCode::Closed) => LineFileError::Closed,
            SqliteError::SqliteFailure(ErrorCode::OutOfMemory) => LineFileError::OutOfMemory,
            _ => LineFileError::StatementRefused,
        }
    }
}

impl From<io::Error> for LineFileError {
    fn from(error: io::Error) -> LineFileError {
        match error.kind() {
            ErrorKind::NotFound | ErrorKind::NotADirectory => LineFileError::NotFound,
            ErrorKind::PermissionDenied => LineFileError::NoPermission,
            ErrorKind::IsADirectory => LineFileError::IsDirectory,
            ErrorKind::ReadOnlyFilesystem => LineFileError::ReadOnly,
            ErrorKind::OutOfMemory => LineFileError::OutOfMemory,
            _ => LineFileError::CannotOpen,
        }
    }
}

impl From<AllocError> for LineFileError {
    fn from(_error: AllocError) -> LineFileError {
        LineFileError::OutOfMemory
    }
}
