//! Components.
ghost use Rattle.std.specs.Prelude.{◌≡◌, IfOk, min};
ghost use Rattle.sdb_value.specs.View.{plain_path};
ghost use Rattle.sdb_component.specs.Size.{component_size};
ghost use Rattle.sdb_component.specs.View.{plain_act};
ghost use Rattle.sdb_component.specs.Weight.{component_weight};

use crate::non_empty_text::NonEmptyText;
use crate::path::Path;
use crate::size::{size_of_act, size_of_path};
use sdb_value::{Json, Step, Whole, paths_equal, units};
use std::alloc::AllocError;
use std::marker::Model;
use std::sync::Arc;

/// The act of a component at its container's path. Each but `Na` has the last step of the JSON
/// path: an offset in UTF-16 code units, an index, or a key. Clones share its values.
#[derive(Drop)]
pub enum Act {
    /// Adds to the number.
    Na(Whole),
    /// Inserts into the text at the offset.
    Si(u64, NonEmptyText),
    /// Deletes from the text at the offset.
    Sd(u64, NonEmptyText),
    /// Inserts an item at the index.
    Li(u64, Arc<Json>),
    /// Deletes the item at the index.
    Ld(u64, Arc<Json>),
    /// Replaces the item at the index: the old value, then the new one.
    Lr(u64, Arc<Json>, Arc<Json>),
    /// Sets the key.
    Oi(String, Arc<Json>),
    /// Deletes the key.
    Od(String, Arc<Json>),
    /// Replaces the value of the key: the old value, then the new one.
    Or(String, Arc<Json>, Arc<Json>),
}

impl Act {
    /// Clones the act. Values are shared, texts are copied.
    ///
    /// # Errors
    ///
    /// [`AllocError`] if an allocation fails or a value has 2^63 clones already.
    pub fn try_clone(&self) -> Result<Act, AllocError>
        ensures { IfOk result (λ a. plain_act a ≡ plain_act self.now) }
    {
        match self {
            Act::Na(amount) => Ok(Act::Na(*amount)),
            Act::Si(offset, text) => Ok(Act::Si(*offset, text.try_clone()?)),
            Act::Sd(offset, text) => Ok(Act::Sd(*offset, text.try_clone()?)),
            Act::Li(index, new) => Ok(Act::Li(*index, Arc::try_clone(new)?)),
            Act::Ld(index, old) => Ok(Act::Ld(*index, Arc::try_clone(old)?)),
            Act::Lr(index, old, new) => {
                Ok(Act::Lr(*index, Arc::try_clone(old)?, Arc::try_clone(new)?))
            }
            Act::Oi(key, new) => Ok(Act::Oi(key.clone()?, Arc::try_clone(new)?)),
            Act::Od(key, old) => Ok(Act::Od(key.clone()?, Arc::try_clone(old)?)),
            Act::Or(key, old, new) => {
                Ok(Act::Or(key.clone()?, Arc::try_clone(old)?, Arc::try_clone(new)?))
            }
        }
    }
}

/// A change at one path.
///
/// ```
/// // Adds 1 to the number at the root.
/// let path = Path::new(alloc, Vec::new(alloc))?;
/// let component = Component::new(path, Act::Na(one));
/// assert_eq!(rt; component.weight(), 1);
/// ```
pub struct Component {
    path: Path,
    act: Act,
}

// Written by hand: a derived `Drop` would be unfolded over all acts in each proof that drops a
// component.
impl Drop for Component {
    fn drop(self) {
        let Component { act, path } = self;
        drop(act);
        drop(path);
    }
}

impl Model for Component {
    ghost use Rattle.sdb_component.specs.Plain.{PlainComponent};
    ghost use Rattle.sdb_component.specs.Coding.{component_code};

    ghost Value = { PlainComponent };

    ghost coded = { component_code };

    ghost use Rattle.sdb_component.specs.View.{plain_act};

    ghost view = { λ c. record { path = c.path; act = plain_act c.act } };
}

impl Component {
    /// Creates a component from the container's path and an act.
    pub fn new(path: Path, act: Act) -> Component
        ensures { result ≡ record { path = path; act = plain_act act } }
    {
        Self { path, act }
    }

    /// Returns the container's path: the JSON path without its last step, or the whole path for
    /// `Na`.
    pub fn path(&self) -> &[Step]
        ensures { plain_path result.now ≡ self.now.path }
    {
        self.path.steps()
    }

    /// Clones the container's path by reference. It doesn't allocate.
    ///
    /// # Errors
    ///
    /// [`AllocError`] if there are 2^63 clones already.
    pub fn try_clone_path(&self) -> Result<Path, AllocError>
        ensures { IfOk result (λ p. p ≡ self.now.path) }
    {
        self.path.try_clone()
    }

    /// Returns the act.
    pub fn act(&self) -> &Act
        ensures { plain_act result.now ≡ self.now.act }
    {
        &self.act
    }

    /// Returns the container's path and the act.
    pub fn into_parts(self) -> (Path, Act)
        ensures path { result.0 ≡ self.path }
        ensures act { plain_act result.1 ≡ self.act }
    {
        let Component { path, act } = self;
        (path, act)
    }

    /// Returns the component, with this path in place of its own if both are equal.
    ///
    /// # Errors
    ///
    /// [`AllocError`] if the path has 2^63 clones already.
    pub fn with_interned_path(self, path: &Path) -> Result<Component, AllocError>
        ensures { IfOk result (λ c. c ≡ self) }
    {
        if paths_equal(self.path(), path.steps()) {
            let (_, act) = self.into_parts();
            return Ok(Component::new(path.try_clone()?, act));
        }
        Ok(self)
    }

    /// Clones the component. Path and values are shared, texts are copied.
    ///
    /// # Errors
    ///
    /// [`AllocError`] if an allocation fails, or the path or a value has 2^63 clones already.
    pub fn try_clone(&self) -> Result<Component, AllocError>
        ensures { IfOk result (λ c. c ≡ self.now) }
    {
        let path = self.path.try_clone()?;
        let act = self.act().try_clone()?;
        Ok(Component::new(path, act))
    }

    /// Returns the UTF-16 code units of the deleted text, or 1 for any other act.
    pub fn weight(&self) -> u64
        ensures { result ≡ component_weight self.now }
    {
        match self.act() {
            Act::Sd(_, text) => units(text.as_str()).max(1),
            _ => 1,
        }
    }

    /// Returns the size, at most the limit: the steps of the path, the bytes of keys and texts, and
    /// the sizes of values ([`Json::size`]). It stops at the limit.
    pub fn size(&self, limit: u64) -> u64
        ensures { result ≡ min limit (component_size self.now) }
    {
        let of_path = size_of_path(self.path(), limit);
        of_path + size_of_act(self.act(), limit - of_path)
    }
}
