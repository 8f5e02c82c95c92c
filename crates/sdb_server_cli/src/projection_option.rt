//! The projections given on a command line.
use sdb_projection::{Projection, Table, TableFault};
use sdb_wire::NAME_LIMIT;
use std::alloc::{AllocError, Global};
use std::collections::BTreeSet;
use thiserror::Error;

/// The reason why the projections of a command line are refused.
#[derive(Clone, Copy, Debug, PartialEq, Eq, Drop, Error)]
pub enum ProjectionOptionError {
    /// A projection that is not of the form `NAME=COLLECTION:FIELD,..`.
    #[error("error: a projection is NAME=COLLECTION:FIELD,..")]
    Form,
    /// A name that is empty or longer than 200 bytes.
    #[error("error: the name of a projection and that of its collection have 1 to 200 bytes")]
    Name,
    /// A projection that the table refuses, or an allocation failure.
    #[error("error: {0}")]
    Table(#[from] TableFault),
}

impl From<AllocError> for ProjectionOptionError {
    fn from(_: AllocError) -> ProjectionOptionError {
        ProjectionOptionError::Table(TableFault::OutOfMemory)
    }
}

/// Returns the table of these projections, each of the form `NAME=COLLECTION:FIELD,..`.
///
/// # Errors
///
/// The [`ProjectionOptionError`] of the first refused projection: `Form`, `Name` or `Table`.
/// `Table` holds [`TableFault::OutOfMemory`] if an allocation fails.
pub fn table_of(alloc: Global, texts: &[&str]) -> Result<Table, ProjectionOptionError> {
    let mut table = Table::new(alloc);
    for text in texts {
        table.add(projection_of(alloc, text)?)?;
    }
    Ok(table)
}

// Splits a projection at the first `=`, then at the first `:`, then at each `,`.
fn projection_of(alloc: Global, text: &str) -> Result<Projection, ProjectionOptionError> {
    let Some((name, rest)) = text.split_once('=') else {
        return Err(ProjectionOptionError::Form);
    };
    let Some((base, fields)) = rest.split_once(':') else {
        return Err(ProjectionOptionError::Form);
    };
    Ok(Projection {
        name: name_of(alloc, name)?,
        base: name_of(alloc, base)?,
        fields: fields_of(alloc, fields)?,
    })
}

fn name_of(alloc: Global, text: &str) -> Result<String, ProjectionOptionError> {
    if text.is_empty() || text.len() > NAME_LIMIT {
        return Err(ProjectionOptionError::Name);
    }
    Ok(String::from_str(alloc, text)?)
}

// Returns the fields, without empty ones.
fn fields_of(alloc: Global, text: &str) -> Result<BTreeSet<String>, AllocError> {
    let mut fields = BTreeSet::new(alloc);
    for field in text.split(',') {
        if !field.is_empty() {
            fields.insert(String::from_str(alloc, field)?)?;
        }
    }
    Ok(fields)
}
