//! The passes of clients.
ghost use Rattle.std.specs.Prelude.{◌≡◌};
ghost use Rattle.sdb_backend.specs.PassModel.{pass_number, IsPassOfBackend};
ghost use Rattle.sdb_connection.specs.PassModel.{KeepsPass};
ghost use Rattle.sdb_connection.specs.LoopModel.{IsHostOfLoops};
ghost use Rattle.sdb_connection.specs.PassLocks.{IsPassOfLocks};

use crate::loop_context::LoopContext;
use sdb_backend::{Host, Pass};
use sdb_oplog::Moment;
use sdb_session::{AnswerSink, Ended, Listing, Policy, Progress, Session};
use std::marker::{Brand, PhantomData};
use std::sync::Wait;

/// Names the backend of a run of loops, so that all types of the run agree on it.
pub trait PassBrand {
    ghost use Rattle.sdb_connection.specs.PassLocks.{Locks};

    // The backend's locks.
    ghost locks: { Locks };
}

impl PassBrand for Brand {
    ghost use Rattle.sdb_connection.specs.PassLocks.{no_locks};

    ghost locks = { no_locks };
}

/// A pass of the backend that the brand names.
#[derive(Drop)]
pub struct LoopPass<B: PassBrand> {
    pub pass: Pass,
    brand: PhantomData<B>,
    ghost belongs: { IsPassOfLocks pass B.locks },
}

impl<B: PassBrand> LoopPass<B> {
    /// Creates a pass, if the host has one.
    pub fn new<R: Drop, P: Drop>(
        context: &LoopContext<R, P, B>,
        host: &mut Host,
    ) -> Option<LoopPass<B>>
        requires { IsHostOfLoops host.old context.now.state.value }
        ensures host { IsHostOfLoops host.new context.now.state.value }
    {
        match context.state.backend.enter(host) {
            Ok(pass) => Some(LoopPass {
                pass,
                brand: PhantomData,
            }),
            Err(_) => None,
        }
    }

    /// Returns the pass's number.
    pub fn number(&self) -> u64
        ensures { result ≡ pass_number self.now.pass }
    {
        self.pass.number()
    }

    /// Begins to handle a text message of the session at this moment.
    pub fn begin<R: Wait + Drop, P: Policy + Drop, O: AnswerSink>(
        &mut self,
        context: &LoopContext<R, P, B>,
        session: &mut Session,
        text: &str,
        now: Moment,
        out: &mut O,
    ) -> Result<Progress, Ended>
        ensures { let b = context.now.state.value.backend in KeepsPass b self.old.pass b self.new.pass }
    {
        let state = &context.state;
        session.begin_to(
            &state.backend,
            &mut self.pass,
            &state.policy,
            text,
            now,
            out,
        )
    }

    /// Writes the next part of a listing of the session, and returns what is left.
    pub fn continue_listing<R: Wait + Drop, P: Policy + Drop, O: AnswerSink>(
        &mut self,
        context: &LoopContext<R, P, B>,
        session: &mut Session,
        listing: Listing,
        out: &mut O,
    ) -> Result<Option<Listing>, Ended>
        ensures { let b = context.now.state.value.backend in KeepsPass b self.old.pass b self.new.pass }
    {
        let state = &context.state;
        session.continue_to(
            &state.backend,
            &mut self.pass,
            state.policy.table(),
            listing,
            out,
        )
    }

    /// Reads at most `max` entries from the queue of the session's subscription at a position, and
    /// writes them.
    pub fn pump_one<R: Wait + Drop, P: Policy + Drop, O: AnswerSink>(
        &mut self,
        context: &LoopContext<R, P, B>,
        session: &mut Session,
        position: usize,
        max: u64,
        out: &mut O,
    ) -> Result<u128, Ended>
        ensures { let b = context.now.state.value.backend in KeepsPass b self.old.pass b self.new.pass }
    {
        let state = &context.state;
        session.pump_one_to(
            &state.backend,
            &mut self.pass,
            state.policy.table(),
            position,
            max,
            out,
        )
    }

    // Closes the queue of a listing, if it has one.
    fn abandon<R: Wait + Drop, P: Policy + Drop>(
        &mut self,
        context: &LoopContext<R, P, B>,
        listing: Listing,
    )
        ensures { let b = context.now.state.value.backend in KeepsPass b self.old.pass b self.new.pass }
    {
        listing.abandon(&context.state.backend, &mut self.pass);
    }

    // Closes the queues of the session.
    fn close_queues<R: Wait + Drop, P: Policy + Drop>(
        &mut self,
        context: &LoopContext<R, P, B>,
        session: Session,
    )
        ensures { let b = context.now.state.value.backend in KeepsPass b self.old.pass b self.new.pass }
    {
        session.end(&context.state.backend, &mut self.pass);
    }

    /// Ends the session, and the listing that it hasn't sent.
    pub fn end_session<R: Wait + Drop, P: Policy + Drop>(
        &mut self,
        context: &LoopContext<R, P, B>,
        session: Session,
        listing: Option<Listing>,
    )
        ensures { let b = context.now.state.value.backend in KeepsPass b self.old.pass b self.new.pass }
    {
        if let Some(listing) = listing {
            self.abandon(context, listing);
        }
        self.close_queues(context, session);
    }

    /// Returns the pass.
    pub fn into_pass<R, P>(self, context: &LoopContext<R, P, B>) -> Pass
        ensures pass { IsPassOfBackend result context.now.state.value.backend }
        ensures number { pass_number result ≡ pass_number self.pass }
    {
        let LoopPass { pass, .. } = self;
        let _ = context;
        pass
    }
}
