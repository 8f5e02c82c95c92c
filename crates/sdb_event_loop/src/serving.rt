//! Turns of clients, as the loop sees them.
use crate::event_loop::{EventLoop, SlotOfLoop};
use sdb_connection::{ConnectionSlot, EndedTurn, PassBrand, Turn};
use sdb_link::{Progress, SessionEnd};
use sdb_loop_state::LargeTurn;
use sdb_session::Policy;
use std::net::Net;
use std::sync::Wait;
use std::time::Clock;

impl<R: Net + Wait + Clock + Eprint + Copy + Drop, P: Policy + Drop, B: PassBrand> EventLoop<
    R,
    P,
    B,
> {
    /// Begins the turn of the next client that is ready. Input of a connection that is being closed
    /// is discarded here, without a turn.
    pub(crate) fn next_turn(&mut self) -> Option<Turn<B>> {
        let key = self.connections.lists.next_ready()?;
        match self.connections.slots.get_mut(key)? {
            ConnectionSlot::Closing(closing) => {
                closing.is_listed = false;
                match closing.discard_input(self.alloc, &mut self.buffers.input) {
                    Progress::Idle => {}
                    Progress::More => self.connections.list_ready(key),
                    Progress::Over => self.remove(key),
                }
                None
            }
            ConnectionSlot::Served(connection) if connection.has_large_input() => {
                self.begin_large_turn(key)
            }
            _ => self.begin_turn(key, None),
        }
    }

    fn begin_turn(&mut self, key: usize, large: Option<LargeTurn>) -> Option<Turn<B>> {
        let connection = self.connections.begin_turn(key, self.clock.second())?;
        self.turn_count = self.turn_count.saturating_add(1);
        Some(Turn {
            key,
            connection,
            large,
        })
    }

    // Begins a large turn if there is a place for it. Else the client waits.
    fn begin_large_turn(&mut self, key: usize) -> Option<Turn<B>> {
        match self
            .context
            .loops()
            .large_turns
            .begin(self.clock.time.millis)
        {
            Some(place) => {
                let turn = self.begin_turn(key, Some(place));
                if turn.is_none() {
                    self.context.loops().large_turns.end(place);
                }
                turn
            }
            None => {
                self.connections.await_place(key, self.clock.second());
                None
            }
        }
    }

    /// Returns whether a client and a place wait for each other.
    pub(crate) fn can_begin_large_turn(&self) -> bool {
        let large_turns = &self.context.loops().large_turns;
        self.connections.lists.has_awaiting_place() && large_turns.has_place(self.clock.time.millis)
    }

    /// Lists the next clients that wait for a place, if one is free.
    pub(crate) fn list_awaiting_place(&mut self) {
        if self.can_begin_large_turn() {
            self.connections.list_awaiting_place();
        }
    }

    /// Ends each turn that has ended while another thread ran the loop.
    pub(crate) fn end_turns(&mut self, slot: &SlotOfLoop<R, P, B>) {
        if !slot.has_ended_turns() {
            return;
        }
        // (each turn has a connection in a slot)
        for _ in 0..=self.turn_count {
            match slot.take_ended_turn(&self.context.rt) {
                Some(turn) => self.end_turn(turn),
                None => return,
            }
        }
    }

    /// Ends a turn: the client is put back, and what it has subscribed to is registered.
    pub(crate) fn end_turn(&mut self, turn: EndedTurn<B>) {
        let EndedTurn {
            key,
            connection,
            outcome,
            subscribed,
        } = turn;
        self.turn_count = self.turn_count.saturating_sub(1);
        let events = self.connections.end_turn(key, connection);
        self.apply_events(key, events);
        self.note_subscriptions(key, subscribed);
        self.check_hold(key);
        match outcome {
            Ok(_) if self.clock.is_ending() => self.end_session(key, SessionEnd::Stopped),
            Ok(progress) => self.connections.list_next(key, progress),
            Err(end) => self.end_session(key, end),
        }
    }
}
