//! Shared paths.
ghost use Rattle.std.specs.Arc.{arc_value};
ghost use Rattle.std.specs.Prelude.{◌≡◌, IfOk, min};
ghost use Rattle.sdb_value.specs.View.{plain_path};
ghost use Rattle.sdb_component.specs.Size.{path_size};

use crate::clone_path::clone_path;
use crate::size::size_of_path;
use sdb_value::Step;
use std::alloc::{AllocError, Global};
use std::marker::Model;
use std::sync::Arc;

/// The steps from a document to a component's container. Clones share them.
///
/// ```
/// let mut steps = Vec::new(alloc);
/// steps.push(Step::Key(String::from_str(alloc, "votes")?))?;
/// let path = Path::new(alloc, steps)?;
/// assert_eq!(rt; path.steps().len(), 1);
/// ```
#[derive(Drop)]
pub struct Path {
    steps: Arc<Vec<Step>>,
}

impl Model for Path {
    ghost use Rattle.std.specs.Prelude.{List};
    ghost use Rattle.sdb_value.specs.Value.{PlainStep};
    ghost use Rattle.sdb_value.specs.Coding.{path_code};
    ghost use Rattle.std.specs.Arc.{arc_value};
    ghost use Rattle.sdb_value.specs.View.{plain_path};

    ghost Value = { List PlainStep };

    ghost coded = { path_code };

    ghost view = { λ p. plain_path (arc_value p.steps).items };
}

impl Path {
    /// Creates a path.
    ///
    /// # Errors
    ///
    /// [`AllocError`] if an allocation fails.
    pub fn new(alloc: Global, steps: Vec<Step>) -> Result<Path, AllocError>
        ensures { IfOk result (λ p. p ≡ plain_path steps.items) }
    {
        let steps = Arc::new(alloc, steps)?;
        Ok(Path { steps })
    }

    /// Returns the steps in order.
    pub fn steps(&self) -> &[Step]
        ensures { plain_path result.now ≡ self.now }
    {
        self.steps.as_slice()
    }

    /// Returns the size, at most the limit: the steps and the bytes of keys. It stops at the limit.
    pub fn size(&self, limit: u64) -> u64
        ensures { result ≡ min limit (path_size self.now) }
    {
        size_of_path(self.steps(), limit)
    }

    /// Returns the owned steps, cloned if other paths share them.
    ///
    /// # Errors
    ///
    /// [`AllocError`] if an allocation fails.
    pub fn into_steps(self, alloc: Global) -> Result<Vec<Step>, AllocError>
        ensures { IfOk result (λ steps. plain_path steps.items ≡ self) }
    {
        match Arc::try_unwrap(self.steps) {
            Ok(steps) => Ok(steps),
            Err(shared) => clone_path(alloc, shared.as_slice()),
        }
    }

    /// Clones the path by reference. It doesn't allocate.
    ///
    /// # Errors
    ///
    /// [`AllocError`] if there are 2^63 clones already.
    pub fn try_clone(&self) -> Result<Path, AllocError>
        ensures { IfOk result (λ p. p ≡ self.now) }
    {
        let steps = Arc::try_clone(&self.steps)?;
        Ok(Path { steps })
    }
}
