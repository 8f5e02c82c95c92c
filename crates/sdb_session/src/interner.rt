//! An interner for the names in a session's submissions.
ghost use Rattle.std.specs.Arc.{arc_value};
ghost use Rattle.std.specs.Prelude.{◌≡◌, IfOk, IfSome, string_bytes};

use std::alloc::{AllocError, Global};
use std::sync::Arc;

// Maximum number of names.
const NAME_SLOTS: usize = 16;

// The names used recently.
#[derive(Drop)]
pub(crate) struct NameInterner {
    names: Vec<Arc<String>>,
}

impl NameInterner {
    pub(crate) fn new(alloc: Global) -> NameInterner {
        NameInterner {
            names: Vec::new(alloc),
        }
    }

    // Returns a shared copy of the name, the existing one if it is interned.
    pub(crate) fn intern(&mut self, alloc: Global, name: &str) -> Result<Arc<String>, AllocError>
        ensures { IfOk result (λ n. string_bytes (arc_value n) ≡ name.now) }
    {
        if let Some(interned) = self.find(name)? {
            return Ok(interned);
        }
        let fresh = Arc::new(alloc, String::from_str(alloc, name)?)?;
        self.remember(Arc::try_clone(&fresh)?)?;
        Ok(fresh)
    }

    fn find(&self, name: &str) -> Result<Option<Arc<String>>, AllocError>
        ensures { IfOk result (λ o. IfSome o (λ n. string_bytes (arc_value n) ≡ name.now)) }
    {
        for interned in self.names.as_slice() {
            if interned.as_str() == name {
                return Ok(Some(Arc::try_clone(interned)?));
            }
        }
        Ok(None)
    }

    // Adds a name. If the interner is full, all others are removed.
    fn remember(&mut self, name: Arc<String>) -> Result<(), AllocError> {
        if self.names.len() >= NAME_SLOTS {
            self.names.clear();
        }
        self.names.push(name)?;
        Ok(())
    }
}
