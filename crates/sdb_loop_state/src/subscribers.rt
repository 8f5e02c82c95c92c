//! The connections of a loop that are subscribed to documents.
use crate::document_group::{DocumentGroup, GROUP_COUNT};
use std::alloc::{AllocError, Global};

/// The keys of the connections that are subscribed to a document of each group.
#[derive(Drop)]
pub struct Subscribers {
    groups: Vec<Vec<usize>>,
}

impl Subscribers {
    /// Creates it without subscribers.
    ///
    /// # Errors
    ///
    /// [`AllocError`] if an allocation fails.
    pub fn new(alloc: Global) -> Result<Subscribers, AllocError> {
        let mut groups = Vec::with_capacity(alloc, GROUP_COUNT)?;
        for _ in 0..GROUP_COUNT {
            groups.push(Vec::new(alloc))?;
        }
        Ok(Subscribers { groups })
    }

    /// Adds a subscriber of the group.
    ///
    /// # Errors
    ///
    /// [`AllocError`] if an allocation fails.
    pub fn add(&mut self, group: DocumentGroup, key: usize) -> Result<(), AllocError> {
        if let Some(keys) = self.groups.get_mut(group.number()) {
            keys.push(key)?;
        }
        Ok(())
    }

    /// Removes a subscriber of the group. Returns whether it has no other.
    pub fn remove(&mut self, group: DocumentGroup, key: usize) -> bool {
        match self.groups.get_mut(group.number()) {
            Some(keys) => {
                keys.retain(|other| *other != key);
                keys.is_empty()
            }
            None => false,
        }
    }

    /// Returns the number of subscribers of the group with this number.
    pub fn count(&self, number: usize) -> usize {
        self.groups.get(number).map_or(0, Vec::len)
    }

    /// Returns the subscriber at this position of the group with this number.
    pub fn at(&self, number: usize, position: usize) -> Option<usize> {
        let key = self.groups.get(number)?.get(position)?;
        Some(*key)
    }
}
