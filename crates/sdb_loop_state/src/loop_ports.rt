//! The ports of all loops of a server.
use crate::document_group::DocumentGroup;
use crate::loop_port::LoopPort;
use std::alloc::{AllocError, Global};
use std::sync::Wait;

/// The ports of all loops of a server, by the numbers of the loops.
#[derive(Drop)]
pub struct LoopPorts {
    ports: Vec<LoopPort>,
}

impl LoopPorts {
    /// Creates the ports of this number of loops.
    ///
    /// # Errors
    ///
    /// [`AllocError`] if an allocation fails.
    pub fn new(alloc: Global, loops: usize) -> Result<LoopPorts, AllocError> {
        let mut ports = Vec::with_capacity(alloc, loops)?;
        for _ in 0..loops {
            ports.push(LoopPort::new(alloc)?)?;
        }
        Ok(LoopPorts { ports })
    }

    /// Returns the number of loops.
    pub fn count(&self) -> usize {
        self.ports.len()
    }

    /// Returns the port of a loop.
    pub fn port(&self, number: usize) -> Option<&LoopPort> {
        self.ports.get(number)
    }

    /// Wakes all loops that wait.
    pub fn wake_all<W: Wait>(&self, rt: &W) {
        for port in &self.ports {
            port.wake(rt);
        }
    }

    /// Wakes a loop that waits.
    pub fn wake<W: Wait>(&self, rt: &W, number: usize) {
        if let Some(port) = self.port(number) {
            port.wake(rt);
        }
    }

    /// Wakes all loops, and lets each check all its subscribers.
    pub fn notify_all<W: Wait>(&self, rt: &W) {
        for port in &self.ports {
            port.notify_all(rt);
        }
    }

    /// Wakes each loop that has a subscriber of the group.
    pub fn notify<W: Wait>(&self, rt: &W, group: DocumentGroup) {
        for port in &self.ports {
            port.notify(rt, group);
        }
    }
}
