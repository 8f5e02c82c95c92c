//! Requests for a document: the current one, or that at a version or at a moment.
ghost use Rattle.std.specs.Prelude.{◌≡◌, ℕ, Option};
ghost use Rattle.sdb_desk.specs.View.{fetch_result_view};
ghost use Rattle.sdb_oplog.specs.Keys.{plain_key};
ghost use Rattle.sdb_session.specs.Documents.{ReadsDocument, document_at, document_request};
ghost use Rattle.sdb_session.specs.Handlers.{RequestHandled};
ghost use Rattle.sdb_session.specs.ListingView.{done_result};
ghost use Rattle.sdb_submit.specs.PassModel.{IsNextPass};
ghost use Rattle.sdb_session.specs.Sessions.{PlainSession};
ghost use Rattle.sdb_session.specs.View.{WroteAnswers};
ghost use Rattle.sdb_value.specs.Value.{Value};
ghost use Rattle.sdb_wire.specs.View.{document_answer};

use crate::answer_sink::AnswerSink;
use crate::answers::{write_document, write_refusal};
use crate::context::Context;
use crate::policy::Policy;
use crate::projection::{base_key_or, projected_base_key};
use sdb_desk::FetchResult;
use sdb_oplog::{Code, Key, Moment};
use sdb_submit::Desk;
use sdb_wire::DocumentRequest;
use std::alloc::AllocError;

// What is read of a document, with the request number that the answer repeats.
#[derive(Drop)]
pub(crate) enum ReadPoint {
    Current,
    // A version, or the current one.
    Version { version: Option<u64>, id: u64 },
    // The version at a moment, or the current one.
    Moment { moment: Option<Moment>, id: u64 },
}

// Writes the document that a request asks for.
pub(crate) fn answer_document<D: Desk, P: Policy, O: AnswerSink>(
    context: &Context<'_, '_, '_, D, P>,
    pass: &mut D::Pass,
    key: &Key,
    point: ReadPoint,
    out: &mut O,
) -> Result<(), AllocError>
    requires accepted { D.accepts context.now.desk.now pass.old }
    ensures pass { IsNextPass D.accepts D.pass_number context.now.desk.now pass.old pass.new }
    ensures outcome { (s : PlainSession) → RequestHandled D.step D.pass_number P.plain_policy context.now s
        (document_request (plain_key key.now) point) pass.old (done_result result)
        (WroteAnswers O.items (O.contents out.old) (O.contents out.new)) s pass.new }
{
    let projection = context.table.find(key.collection.as_str());
    let moved = projected_base_key(projection, key)?;
    let base = base_key_or(&moved, key);
    match read_document(context.desk, pass, base, &point) {
        Ok(found) => {
            let request = request_at(key, &point);
            write_document(context.alloc, projection, request, found, out)
        }
        Err(code) => write_refusal(context.alloc, context.message, code, out),
    }
}

// Reads a document.
fn read_document<D: Desk>(
    desk: &D,
    pass: &mut D::Pass,
    base: &Key,
    point: &ReadPoint,
) -> Result<FetchResult, Code>
    requires accepted { D.accepts desk.now pass.old }
    ensures pass { IsNextPass D.accepts D.pass_number desk.now pass.old pass.new }
    ensures reads { ReadsDocument (D.step desk.now (plain_key base.now)) point.now pass.old
        (fetch_result_view result) pass.new }
{
    match point {
        ReadPoint::Current => desk.fetch(pass, base),
        ReadPoint::Version { version, .. } => desk.snapshot_at(pass, base, *version),
        ReadPoint::Moment { moment, .. } => desk.snapshot_at_time(pass, base, *moment),
    }
}

// Returns the request that the answer repeats.
fn request_at<'a>(key: &'a Key, point: &ReadPoint) -> DocumentRequest<'a>
    ensures { (v : ℕ) (d : Option Value) → document_answer result v d
        ≡ document_at (plain_key key.now) point.now v d }
{
    match point {
        ReadPoint::Current => DocumentRequest::Fetch { key },
        ReadPoint::Version { id, .. } => DocumentRequest::Snapshot { id: *id },
        ReadPoint::Moment { id, .. } => DocumentRequest::SnapshotAtTime { id: *id },
    }
}
