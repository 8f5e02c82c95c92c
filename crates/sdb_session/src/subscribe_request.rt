//! Requests that open or close a queue.
ghost use Rattle.std.specs.Prelude.{◌≡◌, ◌<◌, ◌∷◌, [], OnOk, Ok, Err, None};
ghost use Rattle.indexmap.specs.IndexMap.{spare};
ghost use Rattle.sdb_oplog.specs.Keys.{plain_key};
ghost use Rattle.sdb_submit.specs.PassModel.{IsNextPass};
ghost use Rattle.sdb_session.specs.Handlers.{RequestHandled};
ghost use Rattle.sdb_session.specs.ListingView.{listing_result};
ghost use Rattle.sdb_session.specs.Responses.{CloseCalls, RefuseCalls, subscribe_answers};
ghost use Rattle.sdb_session.specs.Sessions.{is_subscription_full, insert_subscription, queue_of, with_subscription, without_subscription};
ghost use Rattle.sdb_session.specs.View.{plain_opened, queue_id_of, plain_session, plain_projection_option, OutputUnlessFailed, WroteAnswers};
ghost use Rattle.sdb_wire.specs.Answers.{unsubscribed};
ghost use Rattle.sdb_wire.specs.Wire.{subscribe};

use crate::answer_sink::AnswerSink;
use crate::answers::{write_answer, write_refusal, write_subscribed_document};
use crate::context::Context;
use crate::dispatch::without_listing;
use crate::listing::Listing;
use crate::policy::Policy;
use crate::projection::base_key;
use crate::session::{SUBSCRIPTION_LIMIT, Session};
use crate::subscriptions::{Subscription, close_queue};
use sdb_desk::SubscribeResult;
use sdb_oplog::{Code, Key};
use sdb_projection::Projection;
use sdb_submit::Desk;
use sdb_wire::Answer;
use std::alloc::AllocError;

// A queue that was opened for a client's key, and the base document's key.
#[derive(Drop)]
struct OpenedQueue {
    key: Key,
    base: Key,
    opened: SubscribeResult,
}

impl Session {
    // Subscribes. The old queue of the key is closed after the new one is open.
    pub(crate) fn subscribe<D: Desk, P: Policy, O: AnswerSink>(
        &mut self,
        context: &Context<'_, '_, '_, D, P>,
        pass: &mut D::Pass,
        key: Key,
        version: Option<u64>,
        out: &mut O,
    ) -> Result<Option<Listing>, AllocError>
        requires accepted { D.accepts context.now.desk.now pass.old }
        ensures pass { IsNextPass D.accepts D.pass_number context.now.desk.now pass.old pass.new }
        ensures outcome { RequestHandled D.step D.pass_number P.plain_policy context.now (plain_session self.old)
            (subscribe (plain_key key) version) pass.old (listing_result result)
            (WroteAnswers O.items (O.contents out.old) (O.contents out.new))
            (plain_session self.new) pass.new }
        ensures ended_unchanged { self.new.ended ≡ self.old.ended }
    {
        let projection = context.table.find(key.collection.as_str());
        let base = base_key(projection, &key)?;
        if self.is_subscription_full(&key) {
            let code = limit_code(context.desk, pass, &base, version);
            let refused = write_refusal(context.alloc, context.message, code, out);
            return without_listing(refused);
        }
        self.reserve_subscription()?;
        let opened = match context.desk.subscribe(pass, &base, version) {
            Ok(opened) => opened,
            Err(code) => {
                let refused = write_refusal(context.alloc, context.message, code, out);
                return without_listing(refused);
            }
        };
        match version {
            None => {
                let queue = OpenedQueue { key, base, opened };
                without_listing(self.subscribe_document(context.desk, pass, projection, queue, out))
            }
            Some(next) => {
                let listing = Listing {
                    key,
                    base,
                    next,
                    end: opened.version,
                    queue: Some(opened.id),
                };
                self.begin_listing(context, pass, listing, out)
            }
        }
    }

    // Reserves space for a subscription.
    pub(crate) fn reserve_subscription(&mut self) -> Result<(), AllocError>
        ensures capacity { OnOk result (0 < spare self.new.subscriptions) }
        ensures session { plain_session self.new ≡ plain_session self.old }
        ensures ended_unchanged { self.new.ended ≡ self.old.ended }
    {
        self.subscriptions.reserve(1)
    }

    // Writes the document, and replaces the key's queue. Space for the new one is reserved.
    fn subscribe_document<D: Desk, O: AnswerSink>(
        &mut self,
        desk: &D,
        pass: &mut D::Pass,
        projection: Option<&Projection>,
        queue: OpenedQueue,
        out: &mut O,
    ) -> Result<(), AllocError>
        requires accepted { D.accepts desk.now pass.old }
        requires capacity { 0 < spare self.old.subscriptions }
        ensures pass { IsNextPass D.accepts D.pass_number desk.now pass.old pass.new }
        ensures close_calls { CloseCalls (D.step desk.now)
            (queue_of (plain_key queue.key) (plain_session self.old).subs) pass.old pass.new }
        ensures session { plain_session self.new ≡ with_subscription (plain_session self.old)
            (plain_key queue.key) (record { base = plain_key queue.base; id = queue.opened.id }) }
        ensures output { OnOk result (WroteAnswers O.items (O.contents out.old) (O.contents out.new)
            (subscribe_answers (plain_projection_option projection.entry) (plain_key queue.key) None
            (record { opened = plain_opened queue.opened; first = [] }))) }
        ensures ended_unchanged { self.new.ended ≡ self.old.ended }
    {
        let OpenedQueue { key, base, opened } = queue;
        let id = opened.id;
        let written = write_subscribed_document(self.alloc, projection, &key, opened, out);
        self.replace_queue(desk, pass, key, Subscription { base, id });
        written
    }

    // Closes the queue of the key, if there is one, and sets the new one. Space for it is reserved.
    pub(crate) fn replace_queue<D: Desk>(
        &mut self,
        desk: &D,
        pass: &mut D::Pass,
        key: Key,
        queue: Subscription,
    )
        requires accepted { D.accepts desk.now pass.old }
        requires capacity { 0 < spare self.old.subscriptions }
        ensures pass { IsNextPass D.accepts D.pass_number desk.now pass.old pass.new }
        ensures close_calls { CloseCalls (D.step desk.now) (queue_of (plain_key key) (plain_session self.old).subs)
            pass.old pass.new }
        ensures session { plain_session self.new
            ≡ with_subscription (plain_session self.old) (plain_key key) (queue_id_of queue) }
        ensures ended_unchanged { self.new.ended ≡ self.old.ended }
    {
        close_queue(desk, pass, self.subscriptions.get(&key));
        self.insert_subscription(key, queue);
    }

    // Returns whether the limit excludes a new key.
    fn is_subscription_full(&self, key: &Key) -> bool
        ensures { result ≡ is_subscription_full (plain_key key.now) (plain_session self.now).subs }
    {
        !self.subscriptions.contains_key(key) && self.subscriptions.len() >= SUBSCRIPTION_LIMIT
    }

    // Sets the queue of the key. Space for it is reserved.
    fn insert_subscription(&mut self, key: Key, queue: Subscription)
        requires { 0 < spare self.old.subscriptions }
        ensures subs { (plain_session self.new).subs
            ≡ insert_subscription (plain_key key) (queue_id_of queue) (plain_session self.old).subs }
        ensures source { (plain_session self.new).source ≡ (plain_session self.old).source }
        ensures ended_unchanged { self.new.ended ≡ self.old.ended }
    {
        let _ = self.subscriptions.insert(key, queue);
    }

    // Closes the queue of the key, if there is one.
    pub(crate) fn unsubscribe<D: Desk, O: AnswerSink>(
        &mut self,
        desk: &D,
        pass: &mut D::Pass,
        key: &Key,
        out: &mut O,
    ) -> Result<(), AllocError>
        requires accepted { D.accepts desk.now pass.old }
        ensures pass { IsNextPass D.accepts D.pass_number desk.now pass.old pass.new }
        ensures close_calls { CloseCalls (D.step desk.now) (queue_of (plain_key key.now) (plain_session self.old).subs)
            pass.old pass.new }
        ensures output { OutputUnlessFailed result (WroteAnswers O.items (O.contents out.old) (O.contents out.new))
            (unsubscribed (plain_key key.now) ∷ []) }
        ensures session { plain_session self.new ≡ without_subscription (plain_session self.old) (plain_key key.now) }
        ensures ended_unchanged { self.new.ended ≡ self.old.ended }
    {
        let queue = self.subscriptions.shift_remove(key);
        close_queue(desk, pass, queue.as_ref());
        write_answer(self.alloc, &Answer::Unsubscribed { key }, out)
    }
}

// Returns the code with which a full session refuses a key: its version is too new, or the limit is
// reached.
fn limit_code<D: Desk>(desk: &D, pass: &mut D::Pass, base: &Key, version: Option<u64>) -> Code
    requires accepted { D.accepts desk.now pass.old }
    ensures pass { IsNextPass D.accepts D.pass_number desk.now pass.old pass.new }
    ensures refuse_calls { RefuseCalls (D.step desk.now (plain_key base.now)) version pass.old (Err result) pass.new }
{
    match version {
        Some(version) if desk.version(pass, base) < version => Code::E4,
        _ => Code::E11,
    }
}
