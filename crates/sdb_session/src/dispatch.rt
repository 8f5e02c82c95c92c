//! The handler of a request, which chooses the handler of its kind.
ghost use Rattle.std.specs.Prelude.{◌≡◌, ◌∷◌, [], option_map, string_bytes};
ghost use Rattle.sdb_session.specs.Handlers.{RequestHandled};
ghost use Rattle.sdb_session.specs.ListingView.{done_result, listing_result};
ghost use Rattle.sdb_submit.specs.PassModel.{IsNextPass};
ghost use Rattle.sdb_session.specs.Sessions.{with_source};
ghost use Rattle.sdb_session.specs.View.{plain_session, OutputUnlessFailed, WroteAnswers};
ghost use Rattle.sdb_wire.specs.Answers.{hello_ack};
ghost use Rattle.sdb_wire.specs.View.{plain_request};

use crate::answer_sink::AnswerSink;
use crate::answers::write_answer;
use crate::context::Context;
use crate::documents::{ReadPoint, answer_document};
use crate::listing::Listing;
use crate::policy::Policy;
use crate::session::Session;
use crate::submit_request::SubmitArgs;
use sdb_submit::Desk;
use sdb_wire::{Answer, Request};
use std::alloc::AllocError;

impl Session {
    // Handles a request, or begins the listing that answers it.
    pub(crate) fn answer_request<D: Desk, P: Policy, O: AnswerSink>(
        &mut self,
        context: &Context<'_, '_, '_, D, P>,
        pass: &mut D::Pass,
        request: Request,
        out: &mut O,
    ) -> Result<Option<Listing>, AllocError>
        requires accepted { D.accepts context.now.desk.now pass.old }
        ensures pass { IsNextPass D.accepts D.pass_number context.now.desk.now pass.old pass.new }
        ensures outcome { RequestHandled D.step D.pass_number P.plain_policy context.now (plain_session self.old)
            (plain_request request) pass.old (listing_result result)
            (WroteAnswers O.items (O.contents out.old) (O.contents out.new))
            (plain_session self.new) pass.new }
        ensures ended_unchanged { self.new.ended ≡ self.old.ended }
    {
        match request {
            Request::Hello { id } => without_listing(self.hello(id, out)),
            Request::Fetch { key, version } => match version {
                None => {
                    let point = ReadPoint::Current;
                    without_listing(answer_document(context, pass, &key, point, out))
                }
                Some(from) => self.fetch_operations(context, pass, key, from, out),
            },
            Request::Submit {
                key,
                version,
                seq,
                src,
                content,
            } => {
                let sent = SubmitArgs {
                    version,
                    seq,
                    src,
                    content,
                };
                without_listing(self.submit(context, pass, &key, sent, out))
            }
            Request::Snapshot { key, version, id } => {
                let point = ReadPoint::Version { version, id };
                without_listing(answer_document(context, pass, &key, point, out))
            }
            Request::SnapshotAtTime { key, moment, id } => {
                let point = ReadPoint::Moment { moment, id };
                without_listing(answer_document(context, pass, &key, point, out))
            }
            Request::Subscribe { key, version } => {
                self.subscribe(context, pass, key, version, out)
            }
            Request::Unsubscribe { key } => {
                without_listing(self.unsubscribe(context.desk, pass, &key, out))
            }
        }
    }

    // Sets the source that a client named, if any, and writes the acknowledgement.
    fn hello<O: AnswerSink>(&mut self, id: Option<String>, out: &mut O) -> Result<(), AllocError>
        ensures output { OutputUnlessFailed result (WroteAnswers O.items (O.contents out.old) (O.contents out.new))
            (hello_ack (with_source (plain_session self.old) (option_map string_bytes id)).source ∷ []) }
        ensures session { plain_session self.new ≡ with_source (plain_session self.old) (option_map string_bytes id) }
        ensures ended_unchanged { self.new.ended ≡ self.old.ended }
    {
        if let Some(source) = id {
            self.source = source;
        }
        let answer = Answer::HelloAck {
            src: self.source.as_str(),
        };
        write_answer(self.alloc, &answer, out)
    }
}

// Returns the result of a request that no listing answers.
pub(crate) fn without_listing(
    answered: Result<(), AllocError>,
) -> Result<Option<Listing>, AllocError>
    ensures { listing_result result ≡ done_result answered }
{
    match answered {
        Ok(()) => Ok(None),
        Err(error) => Err(error),
    }
}
