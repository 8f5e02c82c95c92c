//! The connections of a loop.
use crate::connection::Connection;
use crate::loop_pass::PassBrand;
use crate::turn::TurnEvents;
use sdb_link::{ClosingConnection, Handshake, WaitingClient};

/// A connection of a loop.
#[derive(Drop)]
pub enum ConnectionSlot<B: PassBrand> {
    /// A connection in its handshake.
    Handshake(Handshake),
    /// A client that waits for its pass.
    Awaiting(WaitingClient),
    /// A client that is served.
    Served(Box<Connection<B>>),
    /// A client in its turn, and what events report meanwhile.
    InTurn(TurnEvents),
    /// A connection that is being closed.
    Closing(ClosingConnection),
    /// The connection is moved out.
    Vacant,
}

impl<B: PassBrand> ConnectionSlot<B> {
    /// Moves a handshake out of the slot, if it has one.
    pub fn take_handshake(&mut self) -> Option<Handshake> {
        match std::mem::replace(self, ConnectionSlot::Vacant) {
            ConnectionSlot::Handshake(handshake) => Some(handshake),
            other => {
                *self = other;
                None
            }
        }
    }

    /// Moves a client that waits for its pass out of the slot, if it has one.
    pub fn take_awaiting(&mut self) -> Option<WaitingClient> {
        match std::mem::replace(self, ConnectionSlot::Vacant) {
            ConnectionSlot::Awaiting(client) => Some(client),
            other => {
                *self = other;
                None
            }
        }
    }

    /// Moves a served client out of the slot, if it has one.
    pub fn take_served(&mut self) -> Option<Box<Connection<B>>> {
        match std::mem::replace(self, ConnectionSlot::Vacant) {
            ConnectionSlot::Served(connection) => Some(connection),
            other => {
                *self = other;
                None
            }
        }
    }

    /// Moves a served client out of the slot for its turn, if it has one.
    pub fn begin_turn(&mut self) -> Option<Box<Connection<B>>> {
        let connection = self.take_served()?;
        *self = ConnectionSlot::InTurn(TurnEvents::new());
        Some(connection)
    }
}
