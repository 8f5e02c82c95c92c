//! Reading the files of a store that a server writes meanwhile.
ghost use Rattle.std.specs.Prelude.{IfOk};
ghost use Rattle.sdb_linefile.specs.Contents.{image_of_contents};
ghost use Rattle.sdb_linefile.specs.Damage.{IsUndamaged};

use crate::damage::{Damage, HEADER_LEN};
use crate::error::LineFileError;
use crate::files::{FileContents, check_contents, open_regular, read_all, real_path};
use std::io::Read;

/// Number of reads after which the files change too often.
const READ_TRIES: usize = 64;

/// Reads the files at a path, which another process may write meanwhile. Nothing is created, written
/// or locked.
///
/// The contents are read again if the log was emptied meanwhile. So they have each group that was
/// committed before the call, and of those that are committed during the call the first ones.
///
/// # Errors
///
/// - [`LineFileError::NotFound`] if there is no file.
/// - [`LineFileError::Changing`] if the log was emptied during each of 64 reads.
/// - [`LineFileError::DamagedFiles`] if the files are damaged as [`find_damage`] says, or if there is
///   no log, or an empty one, and the file wasn't closed.
/// - The cause, as [`LineFileError::NoPermission`], if a file can't be read.
///
/// [`find_damage`]: crate::find_damage
pub fn read_online_files(rt: &HostRuntime, path: &str) -> Result<FileContents, LineFileError>
    ensures { IfOk result (λ contents. IsUndamaged (image_of_contents contents)) }
{
    let real = real_path(rt, path)?;
    let log_path = format!(in rt.alloc(); "{real}-wal")?;
    let mut last = LineFileError::Changing;
    for _ in 0..READ_TRIES {
        match read_once(rt, real.as_str(), log_path.as_str()) {
            Ok(contents) => return Ok(contents),
            Err(error) if can_change(error) => last = error,
            Err(error) => return Err(error),
        }
    }
    Err(last)
}

// Returns whether the next read may have another result. A group that was incomplete when it was read
// is damage if one after it was read as a whole.
fn can_change(error: LineFileError) -> bool {
    match error {
        LineFileError::DamagedFiles(damage) => damage != Damage::MissingLog,
        other => other == LineFileError::Changing,
    }
}

// Reads the files, unless the log is emptied meanwhile.
fn read_once(rt: &HostRuntime, path: &str, log_path: &str) -> Result<FileContents, LineFileError>
    ensures { IfOk result (λ contents. IsUndamaged (image_of_contents contents)) }
{
    let head = read_head(rt, log_path)?;
    let Some(file) = open_regular(rt, path)? else {
        return Err(LineFileError::NotFound);
    };
    let file = read_all(rt.alloc(), file)?;
    let log = match open_regular(rt, log_path)? {
        Some(log) => read_all(rt.alloc(), log)?,
        None => Vec::new(rt.alloc()),
    };
    if read_head(rt, log_path)? != head || !log.starts_with(head.as_slice()) {
        return Err(LineFileError::Changing);
    }
    check_contents(rt.alloc(), FileContents { file, log })
}

// Reads the header of the log. It has a number that changes whenever the log is emptied. A missing log
// has no header.
fn read_head(rt: &HostRuntime, log_path: &str) -> Result<Vec<u8>, LineFileError> {
    let mut head = Vec::new(rt.alloc());
    if let Some(log) = open_regular(rt, log_path)? {
        log.take(HEADER_LEN as u64).read_to_end(&mut head)?;
    }
    Ok(head)
}
