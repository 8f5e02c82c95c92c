//! Output that is held until what it reports is saved.
use crate::event_loop::EventLoop;
use sdb_connection::PassBrand;
use sdb_session::Policy;
use std::net::Net;
use std::sync::Wait;
use std::time::Clock;

impl<R: Net + Wait + Clock + Eprint + Copy + Drop, P: Policy + Drop, B: PassBrand> EventLoop<
    R,
    P,
    B,
> {
    /// Writes held output of the connection if it is committed. Else lists the connection.
    pub(crate) fn check_hold(&mut self, key: usize) {
        if self.release(key) {
            self.resume(key);
            // (input of a connection that is being closed waits until its output is released)
            self.connections.list_ready(key);
        } else {
            self.connections.list_held(key);
        }
    }

    // Releases held output of the connection if it is committed, and counts the acknowledgements in it.
    // Returns whether it did.
    fn release(&mut self, key: usize) -> bool {
        let released = match self.context.loops().settings.progress() {
            Some(progress) => self.connections.release(key, progress, self.clock.time),
            None => None,
        };
        let tally = &mut self.buffers.output.tally;
        tally.add_acknowledgements(released.unwrap_or(0));
        released.is_some()
    }

    /// Returns whether connections are listed, and a round was committed since they were compared.
    pub(crate) fn can_release(&self) -> bool {
        let committed = self.context.loops().settings.committed_round();
        self.connections.lists.can_release(committed)
    }

    /// Compares the listed connections with the committed round, if it has changed since the last
    /// time.
    pub(crate) fn release_held(&mut self) {
        let committed = self.context.loops().settings.committed_round();
        if !self.connections.lists.can_release(committed) {
            return;
        }
        self.connections.lists.record_seen(committed);
        for key in self.connections.lists.begin_held() {
            self.check_hold(key);
        }
    }
}
