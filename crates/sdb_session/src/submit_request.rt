//! Requests that submit an operation.
ghost use Rattle.std.specs.Prelude.{◌≡◌, ◌&&◌, IfOk, option_map, unwrap_or, string_bytes};
ghost use Rattle.sdb_oplog.specs.Keys.{plain_key};
ghost use Rattle.sdb_session.specs.Handlers.{RequestHandled};
ghost use Rattle.sdb_session.specs.ListingView.{done_result};
ghost use Rattle.sdb_submit.specs.PassModel.{IsNextPass};
ghost use Rattle.sdb_session.specs.ProjectionModel.{is_permitted};
ghost use Rattle.sdb_session.specs.Responses.{submission_of};
ghost use Rattle.sdb_session.specs.View.{plain_session, plain_projection_option, WroteAnswers};
ghost use Rattle.sdb_wire.specs.Wire.{submit};

use crate::answer_sink::AnswerSink;
use crate::answers::{write_refusal, write_reply};
use crate::context::Context;
use crate::policy::Policy;
use crate::projection::{DocumentRef, base_key_or, permits, projected_base_key};
use crate::session::Session;
use sdb_oplog::{Code, Content, Key, Submission};
use sdb_projection::Projection;
use sdb_submit::{Desk, NoGate, submit};
use std::alloc::AllocError;

// The arguments of a submission: its base version, seq, source and content.
#[derive(Drop)]
pub(crate) struct SubmitArgs {
    pub version: Option<u64>,
    pub seq: u64,
    pub src: Option<String>,
    pub content: Content,
}

impl Session {
    // Submits an operation and writes the reply.
    pub(crate) fn submit<D: Desk, P: Policy, O: AnswerSink>(
        &mut self,
        context: &Context<'_, '_, '_, D, P>,
        pass: &mut D::Pass,
        key: &Key,
        sent: SubmitArgs,
        out: &mut O,
    ) -> Result<(), AllocError>
        requires accepted { D.accepts context.now.desk.now pass.old }
        ensures pass { IsNextPass D.accepts D.pass_number context.now.desk.now pass.old pass.new }
        ensures outcome { RequestHandled D.step D.pass_number P.plain_policy context.now (plain_session self.old)
            (submit (plain_key key.now) sent.version sent.seq (option_map string_bytes sent.src) sent.content)
            pass.old (done_result result)
            (WroteAnswers O.items (O.contents out.old) (O.contents out.new))
            (plain_session self.new) pass.new }
        ensures ended_unchanged { self.new.ended ≡ self.old.ended }
    {
        let alloc = context.alloc;
        let projection = context.table.find(key.collection.as_str());
        if !self.may_submit(context.policy, projection, key, &sent) {
            return write_refusal(alloc, context.message, Code::E9, out);
        }
        let moved = projected_base_key(projection, key)?;
        let base = base_key_or(&moved, key);
        let target = DocumentRef {
            key,
            base,
            projection,
        };
        let desk = context.desk;
        let submission = self.submission(key, sent, desk.by(pass))?;
        let copy = submission.try_clone()?;
        let reply = submit(alloc, desk, pass, base, copy, context.moment, &NoGate);
        write_reply(alloc, &target, context.message, &submission, &reply, out)
    }

    // Returns whether the policy allows the submission, and the projection permits its content.
    fn may_submit<P: Policy>(
        &self,
        policy: &P,
        projection: Option<&Projection>,
        key: &Key,
        sent: &SubmitArgs,
    ) -> bool
        ensures { result ≡ ((P.plain_policy policy.now).allows
            (unwrap_or (option_map string_bytes sent.now.src) (plain_session self.now).source)
            (plain_key key.now) sent.now.content
            && is_permitted (plain_projection_option projection.entry) sent.now.content) }
    {
        let source = match &sent.src {
            Some(given) => given.as_str(),
            None => self.source.as_str(),
        };
        policy.allows(source, key, &sent.content) && permits(projection, &sent.content)
    }

    // Creates a message's submission. Without a source it gets the session's.
    fn submission(&mut self, key: &Key, sent: SubmitArgs, by: u64) -> Result<Submission, AllocError>
        ensures submission { IfOk result (λ s. s ≡ submission_of (plain_session self.old) (plain_key key.now)
            sent.version sent.seq (option_map string_bytes sent.src) sent.content by) }
        ensures session { plain_session self.new ≡ plain_session self.old }
        ensures ended_unchanged { self.new.ended ≡ self.old.ended }
    {
        let SubmitArgs {
            version,
            seq,
            src,
            content,
        } = sent;
        let alloc = self.alloc;
        let src = match src {
            Some(given) => self.names.intern(alloc, given.as_str())?,
            None => self.names.intern(alloc, self.source.as_str())?,
        };
        let via = self.names.intern(alloc, key.collection.as_str())?;
        let content = self.last_path.intern(alloc, content)?;
        Submission::with_names(alloc, src, seq, version, content, via, by)
    }
}
