//! Requests that are answered by a listing: its beginning, its parts and its end.
ghost use Rattle.std.specs.Prelude.{◌≡◌, ℕ, ◌<◌, ◌∷◌, [], IfOk, IfSome, Some, true, OnOk};
ghost use Rattle.std.specs.Option.{is_some};
ghost use Rattle.std.specs.Result.{is_err};
ghost use Rattle.indexmap.specs.IndexMap.{spare};
ghost use Rattle.sdb_oplog.specs.Keys.{plain_key};
ghost use Rattle.sdb_submit.specs.PassModel.{IsNextPass};
ghost use Rattle.sdb_session.specs.Handlers.{RequestHandled, policy_of_context};
ghost use Rattle.sdb_session.specs.Listing.{ListingOpens, ListingPart, ReplacesQueue, RequestPart, end_answer, entries_left};
ghost use Rattle.sdb_session.specs.ListingView.{plain_listing, listing_result, PartOrFault};
ghost use Rattle.sdb_session.specs.View.{plain_session, echo_of_message, has_ended, WroteAnswers};
ghost use Rattle.sdb_wire.specs.Wire.{PlainRequest, fetch};

use crate::answer_sink::AnswerSink;
use crate::answers::{write_answer, write_refusal};
use crate::context::Context;
use crate::dispatch::without_listing;
use crate::listing::{BatchFault, Listing};
use crate::policy::Policy;
use crate::projection::base_key;
use crate::session::{Ended, Session};
use crate::subscriptions::Subscription;
use sdb_oplog::{Code, Key};
use sdb_projection::Table;
use sdb_submit::Desk;
use sdb_wire::Answer;
use std::alloc::AllocError;

impl Session {
    // Begins to write the entries from a version on, up to the current version.
    pub(crate) fn fetch_operations<D: Desk, P: Policy, O: AnswerSink>(
        &mut self,
        context: &Context<'_, '_, '_, D, P>,
        pass: &mut D::Pass,
        key: Key,
        from: u64,
        out: &mut O,
    ) -> Result<Option<Listing>, AllocError>
        requires accepted { D.accepts context.now.desk.now pass.old }
        ensures pass { IsNextPass D.accepts D.pass_number context.now.desk.now pass.old pass.new }
        ensures outcome { RequestHandled D.step D.pass_number P.plain_policy context.now (plain_session self.old)
            (fetch (plain_key key) (Some from)) pass.old (listing_result result)
            (WroteAnswers O.items (O.contents out.old) (O.contents out.new))
            (plain_session self.new) pass.new }
        ensures ended_unchanged { self.new.ended ≡ self.old.ended }
    {
        let base = base_key(context.table.find(key.collection.as_str()), &key)?;
        let present = context.desk.version(pass, &base);
        if present < from {
            let refused = write_refusal(context.alloc, context.message, Code::E4, out);
            return without_listing(refused);
        }
        let listing = Listing {
            key,
            base,
            next: from,
            end: present,
            queue: None,
        };
        self.begin_listing(context, pass, listing, out)
    }

    // Writes the first entries of a listing. If an allocation fails before that, the message is
    // refused.
    pub(crate) fn begin_listing<D: Desk, P: Policy, O: AnswerSink>(
        &mut self,
        context: &Context<'_, '_, '_, D, P>,
        pass: &mut D::Pass,
        listing: Listing,
        out: &mut O,
    ) -> Result<Option<Listing>, AllocError>
        requires accepted { D.accepts context.now.desk.now pass.old }
        ensures pass { IsNextPass D.accepts D.pass_number context.now.desk.now pass.old pass.new }
        ensures outcome { (r : PlainRequest) (p : D.Pass) (by : ℕ)
            → ListingOpens (D.step context.now.desk.now) context.now.table.now (plain_session self.old) r p
            (plain_listing listing) pass.old
            → RequestPart (D.step context.now.desk.now) (echo_of_message context.now.message)
            (policy_of_context P.plain_policy context.now) by context.now.moment (plain_session self.old) r p
            (listing_result result)
            (WroteAnswers O.items (O.contents out.old) (O.contents out.new))
            (plain_session self.new) pass.new }
        ensures ended_unchanged { self.new.ended ≡ self.old.ended }
    {
        match self.continue_listing(context.desk, pass, context.table, listing, out) {
            Ok(rest) => Ok(rest),
            Err(BatchFault::NotRead { .. }) => {
                let refused = write_refusal(context.alloc, context.message, Code::E10, out);
                without_listing(refused)
            }
            Err(BatchFault::NotWritten { error }) => Err(error),
        }
    }

    // Writes the next entries of a listing, and the answer that follows the last ones. After a
    // fault the listing is abandoned.
    fn continue_listing<D: Desk, O: AnswerSink>(
        &mut self,
        desk: &D,
        pass: &mut D::Pass,
        table: &Table,
        mut listing: Listing,
        out: &mut O,
    ) -> Result<Option<Listing>, BatchFault>
        requires accepted { D.accepts desk.now pass.old }
        ensures pass { IsNextPass D.accepts D.pass_number desk.now pass.old pass.new }
        ensures outcome { PartOrFault (D.step desk.now) table.now (plain_listing listing)
            (plain_session self.old) pass.old result (WroteAnswers O.items (O.contents out.old) (O.contents out.new))
            (plain_session self.new) pass.new }
        ensures fewer { IfOk result (λ rest. IfSome rest (λ l.
            entries_left (plain_listing l) < entries_left (plain_listing listing))) }
        ensures ended_unchanged { self.new.ended ≡ self.old.ended }
    {
        if let Err(error) = self.reserve_for(&listing) {
            listing.abandon(desk, pass);
            return Err(BatchFault::NotWritten { error });
        }
        let projection = table.find(listing.key.collection.as_str());
        if let Err(fault) = listing.write_batch(self.alloc, desk, pass, projection, out) {
            listing.abandon(desk, pass);
            return Err(fault);
        }
        if listing.entries_left() > 0 {
            return Ok(Some(listing));
        }
        self.end_listing(desk, pass, listing, out)?;
        Ok(None)
    }

    // Reserves space for the listing's subscription, if there is one.
    fn reserve_for(&mut self, listing: &Listing) -> Result<(), AllocError>
        ensures session { plain_session self.new ≡ plain_session self.old }
        ensures capacity { OnOk result (is_some (plain_listing listing.now).queue ≡ true
            → 0 < spare self.new.subscriptions) }
        ensures ended_unchanged { self.new.ended ≡ self.old.ended }
    {
        match listing.queue {
            None => Ok(()),
            Some(_) => self.reserve_subscription(),
        }
    }

    // Writes the answer that follows the entries. The new queue, if any, replaces the old one of
    // the key; space for it is reserved.
    fn end_listing<D: Desk, O: AnswerSink>(
        &mut self,
        desk: &D,
        pass: &mut D::Pass,
        listing: Listing,
        out: &mut O,
    ) -> Result<(), AllocError>
        requires accepted { D.accepts desk.now pass.old }
        requires capacity { is_some (plain_listing listing).queue ≡ true → 0 < spare self.old.subscriptions }
        ensures pass { IsNextPass D.accepts D.pass_number desk.now pass.old pass.new }
        ensures replaces { ReplacesQueue (D.step desk.now) (plain_listing listing).queue (plain_listing listing).key
            (plain_listing listing).base (plain_session self.old) pass.old (plain_session self.new) pass.new }
        ensures output { OnOk result (WroteAnswers O.items (O.contents out.old) (O.contents out.new)
            (end_answer (plain_listing listing).queue (plain_listing listing).key ∷ [])) }
        ensures ended_unchanged { self.new.ended ≡ self.old.ended }
    {
        let Listing {
            key,
            base,
            queue,
            ..
        } = listing;
        match queue {
            None => write_answer(self.alloc, &Answer::ListEnd { key: &key }, out),
            Some(id) => {
                let written = write_answer(self.alloc, &Answer::CaughtUp { key: &key }, out);
                self.replace_queue(desk, pass, key, Subscription { base, id });
                written
            }
        }
    }

    /// Writes the next answers of a listing. Returns what is left of it, or `None` after the last
    /// answer. At most 64 entries are read.
    ///
    /// # Errors
    ///
    /// [`Ended`] if an allocation fails or the session had ended. The listing's queue, if it has
    /// one, is then closed, and `out` is unspecified.
    pub fn continue_to<D: Desk, O: AnswerSink>(
        &mut self,
        desk: &D,
        pass: &mut D::Pass,
        table: &Table,
        listing: Listing,
        out: &mut O,
    ) -> Result<Option<Listing>, Ended>
        requires accepted { D.accepts desk.now pass.old }
        ensures pass { IsNextPass D.accepts D.pass_number desk.now pass.old pass.new }
        ensures ended { has_ended self.new ≡ is_err result }
        ensures outcome { ListingPart (D.step desk.now) table.now (plain_listing listing)
            (plain_session self.old) pass.old (listing_result result)
            (WroteAnswers O.items (O.contents out.old) (O.contents out.new))
            (plain_session self.new) pass.new }
        ensures fewer { IfOk result (λ rest. IfSome rest (λ l.
            entries_left (plain_listing l) < entries_left (plain_listing listing))) }
    {
        if let Some(ended) = self.ended {
            listing.abandon(desk, pass);
            return Err(ended);
        }
        match self.continue_listing(desk, pass, table, listing, out) {
            Ok(rest) => Ok(rest),
            Err(BatchFault::NotRead { error } | BatchFault::NotWritten { error }) => {
                Err(self.end_with_error(error))
            }
        }
    }
}
