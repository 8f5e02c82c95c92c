//! Operations.
ghost use Rattle.std.specs.Prelude.{◌≡◌, ◌∷◌, [], IfOk, IfErr};

use crate::component::Component;
use crate::path::Path;
use std::alloc::{AllocError, Global};
use std::marker::Model;
use std::slice;

// The components of an operation. A single one doesn't allocate.
#[derive(Drop)]
pub(crate) enum Components {
    One(Component),
    Many(Vec<Component>),
}

/// An operation: components that are applied in order.
///
/// ```
/// let value = Value::from_str(alloc, r#"[{"p":["n"],"na":1}]"#)?;
/// let op = read_op(alloc, &value)?;
/// assert_eq!(rt; (op.components().len(), weight(&op)), (1, 1));
/// ```
#[derive(Drop)]
pub struct Op {
    components: Components,
}

impl Model for Op {
    ghost use Rattle.std.specs.Prelude.{List};
    ghost use Rattle.sdb_component.specs.Plain.{PlainComponent};
    ghost use Rattle.sdb_component.specs.Coding.{op_code};
    ghost use Rattle.sdb_component.specs.View.{plain_components};

    ghost Value = { List PlainComponent };

    ghost coded = { op_code };

    ghost view = { λ o. plain_components o.components };
}

impl Op {
    /// Creates an operation.
    pub fn new(components: Vec<Component>) -> Op
        ensures { result ≡ components.items }
    {
        Op {
            components: Components::Many(components),
        }
    }

    /// Creates an operation of one component. It doesn't allocate.
    pub fn one(component: Component) -> Op
        ensures { result ≡ component ∷ [] }
    {
        Op {
            components: Components::One(component),
        }
    }

    /// Returns the components in order.
    pub fn components(&self) -> &[Component]
        ensures { result.now ≡ self.now }
    {
        match &self.components {
            Components::One(component) => slice::from_ref(component),
            Components::Many(components) => components.as_slice(),
        }
    }

    /// Returns the owned components.
    ///
    /// # Errors
    ///
    /// [`AllocError`] if an allocation fails.
    pub fn into_components(self, alloc: Global) -> Result<Vec<Component>, AllocError>
        ensures { IfOk result (λ components. components.items ≡ self) }
    {
        match self.components {
            Components::One(component) => {
                let mut components = Vec::with_capacity(alloc, 1)?;
                components.push(component)?;
                Ok(components)
            }
            Components::Many(components) => Ok(components),
        }
    }

    /// Returns the component of an operation made by [`Op::one`].
    ///
    /// # Errors
    ///
    /// The operation, if it was made otherwise, even with one component.
    pub fn into_one(self) -> Result<Component, Op>
        ensures ok { IfOk result (λ component. self ≡ component ∷ []) }
        ensures err { IfErr result (λ op. op ≡ self) }
    {
        match self.components {
            Components::One(component) => Ok(component),
            Components::Many(components) => Err(Op::new(components)),
        }
    }

    /// Returns the operation. If it was made by [`Op::one`] with an equal path, this path is shared
    /// ([`Component::with_interned_path`]).
    ///
    /// # Errors
    ///
    /// [`AllocError`] if the path has 2^63 clones already.
    pub fn with_interned_path(self, path: &Path) -> Result<Op, AllocError>
        ensures { IfOk result (λ o. o ≡ self) }
    {
        match self.components {
            Components::One(component) => Ok(Op::one(component.with_interned_path(path)?)),
            Components::Many(components) => Ok(Op::new(components)),
        }
    }

    /// Clones the operation with [`Component::try_clone`].
    ///
    /// # Errors
    ///
    /// [`AllocError`] if an allocation fails, or a path or value has 2^63 clones already.
    pub fn try_clone(&self, alloc: Global) -> Result<Op, AllocError>
        ensures { IfOk result (λ o. o ≡ self.now) }
    {
        if let Components::One(component) = &self.components {
            return Ok(Op::one(component.try_clone()?));
        }
        let mut copies = Vec::with_capacity(alloc, self.components().len())?;
        for component in self.components() {
            copies.push(component.try_clone()?)?;
        }
        Ok(Op::new(copies))
    }
}
