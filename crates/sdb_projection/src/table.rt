//! The projections of a server.
ghost use Rattle.std.specs.Prelude.{◌≡◌, [], ◌∷◌, ◌++◌, Some, Err, IfErr, OnOk, OnErr, option_map};
ghost use Rattle.std.specs.Result.{result_err};
ghost use Rattle.sdb_projection.specs.Table.{projection_of, is_base, table_fault, IsTableFault};
ghost use Rattle.sdb_projection.specs.View.{plain_projection};

use crate::projection::Projection;
use std::alloc::Global;
use std::marker::Model;
use thiserror::Error;

/// The reason why a table refuses a projection.
#[derive(Clone, Copy, Debug, PartialEq, Eq, Drop, Error)]
pub enum TableFault {
    /// The table has a projection of this name.
    #[error("another projection has this name")]
    DuplicateName,
    /// The name is that of the base collection.
    #[error("a projection cannot have the name of its collection")]
    NameOfBase,
    /// The base collection is a projection of the table, or the name is the base of one.
    #[error("a projection cannot project another projection")]
    BaseIsProjection,
    /// It has no field.
    #[error("a projection needs at least one field")]
    NoField,
    /// An allocation failed.
    #[error("out of memory")]
    OutOfMemory,
}

/// A list of projections in the order in which they were added.
///
/// ```
/// let mut table = Table::new(alloc);
/// table.add(projection)?;
/// assert!(rt; table.find("titles").is_some() && table.find("boards").is_none());
/// ```
#[derive(Drop)]
pub struct Table {
    projections: Vec<Projection>,
}

impl Model for Table {
    ghost use Rattle.std.specs.Prelude.{List, map};
    ghost use Rattle.sdb_projection.specs.Table.{PlainProjection};
    ghost use Rattle.sdb_projection.specs.Coding.{table_code};

    ghost Value = { List PlainProjection };

    ghost coded = { table_code };

    ghost use Rattle.sdb_projection.specs.View.{plain_projection};

    ghost view = { λ t. map plain_projection t.projections.items };
}

impl Table {
    /// Creates a table without projections.
    pub fn new(alloc: Global) -> Table
        ensures { result ≡ [] }
    {
        Table {
            projections: Vec::new(alloc),
        }
    }

    /// Adds a projection.
    ///
    /// # Errors
    ///
    /// The first [`TableFault`] that applies, in the order of its variants. The table is then
    /// unchanged.
    pub fn add(&mut self, projection: Projection) -> Result<(), TableFault>
        ensures refused { (fault : TableFault) → table_fault (plain_projection projection) self.old ≡ Some fault
            → result ≡ Err fault }
        ensures ok { OnOk result (self.new ≡ self.old ++ plain_projection projection ∷ []) }
        ensures err { IfErr result (λ fault. IsTableFault (table_fault (plain_projection projection) self.old) fault) }
        ensures unchanged_on_err { OnErr result (self.new ≡ self.old) }
    {
        self.check(&projection)?;
        match self.projections.push(projection) {
            Ok(()) => Ok(()),
            Err(_) => Err(TableFault::OutOfMemory),
        }
    }

    // Refuses a projection that conflicts with the table.
    fn check(&self, projection: &Projection) -> Result<(), TableFault>
        ensures { result_err result ≡ table_fault (plain_projection projection.now) self.now }
    {
        let name = projection.name.as_str();
        let base = projection.base.as_str();
        if self.find(name).is_some() {
            return Err(TableFault::DuplicateName);
        }
        if name == base {
            return Err(TableFault::NameOfBase);
        }
        if self.find(base).is_some() || self.is_base(name) {
            return Err(TableFault::BaseIsProjection);
        }
        if projection.fields.is_empty() {
            return Err(TableFault::NoField);
        }
        Ok(())
    }

    /// Returns the projection of this name.
    pub fn find(&self, name: &str) -> Option<&Projection>
        ensures { option_map (λ p. plain_projection p.now) result ≡ projection_of name.now self.now }
    {
        for projection in &self.projections {
            if projection.name.as_str() == name {
                return Some(projection);
            }
        }
        None
    }

    // Returns whether the collection is the base of a projection.
    fn is_base(&self, name: &str) -> bool
        ensures { result ≡ is_base name.now self.now }
    {
        for projection in &self.projections {
            if projection.base.as_str() == name {
                return true;
            }
        }
        false
    }
}
