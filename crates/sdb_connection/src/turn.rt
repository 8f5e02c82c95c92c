//! The turns of clients: a client is read from and answered while its loop is in its slot.
use crate::connection::Connection;
use crate::loop_context::LoopContext;
use crate::loop_pass::PassBrand;
use sdb_link::{LoopBuffers, LoopTime, Progress, SessionEnd};
use sdb_loop_state::{DocumentGroup, LargeTurn};
use sdb_session::Policy;
use std::alloc::Global;
use std::sync::Wait;

/// The turn of a client, with the key of its connection in the loop.
#[derive(Drop)]
pub struct Turn<B: PassBrand> {
    pub key: usize,
    pub connection: Box<Connection<B>>,
    /// Its place, if it is a large one.
    pub large: Option<LargeTurn>,
}

/// A turn that has ended.
#[derive(Drop)]
pub struct EndedTurn<B: PassBrand> {
    pub key: usize,
    pub connection: Box<Connection<B>>,
    pub outcome: Result<Progress, SessionEnd>,
    /// The groups to which the session has subscribed.
    pub subscribed: Vec<DocumentGroup>,
}

/// What events report of a connection while its turn lasts.
#[derive(Clone, Copy, Drop)]
pub struct TurnEvents {
    pub is_readable: bool,
    pub is_closed: bool,
    pub is_writable: bool,
    /// An operation was stored in a document of one of its groups.
    pub is_lagging: bool,
}

impl TurnEvents {
    /// Creates it without events.
    pub fn new() -> TurnEvents {
        TurnEvents {
            is_readable: false,
            is_closed: false,
            is_writable: false,
            is_lagging: false,
        }
    }

    /// Returns the events of both.
    pub fn and(self, other: TurnEvents) -> TurnEvents {
        TurnEvents {
            is_readable: self.is_readable || other.is_readable,
            is_closed: self.is_closed || other.is_closed,
            is_writable: self.is_writable || other.is_writable,
            is_lagging: self.is_lagging || other.is_lagging,
        }
    }
}

impl<B: PassBrand> Turn<B> {
    /// Reads once, and answers what came.
    pub fn run<R: Wait + Drop, P: Policy + Drop>(
        self,
        alloc: Global,
        context: &LoopContext<R, P, B>,
        time: LoopTime,
        buffers: &mut LoopBuffers,
    ) -> EndedTurn<B> {
        let Turn {
            key,
            mut connection,
            large,
        } = self;
        let subscriptions = connection.subscription_count();
        let outcome = connection.serve(context, time, buffers);
        if outcome.is_err() {
            connection.send_rest(time, &mut buffers.output);
        }
        let tally = &mut buffers.output.tally;
        tally.add_subscriptions(subscriptions, connection.subscription_count());
        context.add_to_metrics(&mut buffers.output.tally);
        let subscribed = buffers.output.take_subscribed(alloc);
        buffers.output.free_large(alloc);
        if let Some(large) = large {
            context.loops().end_large_turn(&context.rt, large);
        }
        EndedTurn {
            key,
            connection,
            outcome,
            subscribed,
        }
    }
}
