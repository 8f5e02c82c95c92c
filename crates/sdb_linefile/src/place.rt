//! The place of an open file of lines.
use crate::error::LineFileError;
use crate::files::real_path;
use std::os::unix::fs::MetadataExt;
use std::{fs, io};

/// The place of an open file of lines: the files that stood at its path and at its log's path.
///
/// ```
/// let place = FilePlace::find(&rt, "edits.store")?;
/// assert!(rt; place.is_kept());
/// ```
#[derive(Drop)]
pub struct FilePlace {
    rt: HostRuntime,
    path: String,
    log_path: String,
    file: FileId,
    // None if there was no log.
    log: Option<FileId>,
}

// The device and the inode of a file.
#[derive(Clone, Copy, PartialEq, Eq)]
struct FileId {
    device: u64,
    inode: u64,
}

impl FilePlace {
    /// Returns the place of the file at a path that was opened.
    ///
    /// # Errors
    ///
    /// - [`LineFileError::NotFound`] if there is no file.
    /// - The cause, as [`LineFileError::NoPermission`], if the place of a file can't be read.
    pub fn find(rt: &HostRuntime, path: &str) -> Result<FilePlace, LineFileError> {
        let path = real_path(rt, path)?;
        let log_path = format!(in rt.alloc(); "{path}-wal")?;
        let file = find_id(rt, path.as_str())?;
        let log = match find_id(rt, log_path.as_str()) {
            Ok(log) => Some(log),
            Err(error) => match LineFileError::from(error) {
                LineFileError::NotFound => None,
                error => return Err(error),
            },
        };
        Ok(FilePlace {
            rt: *rt,
            path,
            log_path,
            file,
            log,
        })
    }

    /// Returns whether the same files stand there. If one was moved, removed or replaced, it returns
    /// `false`. A file whose place can't be read counts as the same.
    pub fn is_kept(&self) -> bool {
        let is_file_kept = is_at(&self.rt, self.path.as_str(), self.file);
        match self.log {
            Some(log) => is_file_kept && is_at(&self.rt, self.log_path.as_str(), log),
            None => is_file_kept,
        }
    }
}

// Returns whether the file stands at the path, or another cause than its absence hides it.
fn is_at(rt: &HostRuntime, path: &str, file: FileId) -> bool {
    match find_id(rt, path) {
        Ok(found) => found == file,
        Err(error) => LineFileError::from(error) != LineFileError::NotFound,
    }
}

// Returns the file that stands at the path. A link that replaced it is another one.
fn find_id(rt: &HostRuntime, path: &str) -> io::Result<FileId> {
    let found = fs::symlink_metadata(rt, path)?;
    Ok(FileId {
        device: found.dev(),
        inode: found.ino(),
    })
}
