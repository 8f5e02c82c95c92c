//! An interner for the paths of edits.
ghost use Rattle.std.specs.Prelude.{◌≡◌, IfOk};

use crate::content::Content;
use sdb_component::Path;
use std::alloc::{AllocError, Global};

// Maximum size of an interned path, in steps and bytes of its keys.
const PATH_LIMIT: u64 = 256;

/// An interner with the path of the last edit by one component. Consecutive edits at one path share
/// it. A path of more than 256 steps and bytes of keys isn't interned.
#[derive(Drop)]
pub struct PathInterner {
    path: Option<Path>,
}

impl PathInterner {
    /// Creates an interner without a path.
    pub fn new() -> PathInterner {
        PathInterner { path: None }
    }

    /// Returns the content, with the interned path shared if it is an edit by one component with an
    /// equal path. Another path replaces the interned one.
    ///
    /// # Errors
    ///
    /// [`AllocError`] if an allocation fails or the path has 2^63 clones already.
    pub fn intern(&mut self, alloc: Global, content: Content) -> Result<Content, AllocError>
        ensures { IfOk result (λ c. c ≡ content) }
    {
        let content = match &self.path {
            Some(path) => content.with_interned_path(alloc, path)?,
            None => content,
        };
        if let Some(path) = content.path()? {
            self.remember(path);
        }
        Ok(content)
    }

    fn remember(&mut self, path: Path) {
        if path.size(PATH_LIMIT + 1) <= PATH_LIMIT {
            self.path = Some(path);
        }
    }
}
