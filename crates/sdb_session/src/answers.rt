//! The answers to one message, from a desk's replies.
ghost use Rattle.std.specs.Prelude.{◌≡◌, ◌∷◌, [], ◌++◌, map, OnOk, option_map, Ok, Err, None};
ghost use Rattle.sdb_desk.specs.ReplyView.{plain_reply};
ghost use Rattle.sdb_oplog.specs.Keys.{plain_key};
ghost use Rattle.sdb_session.specs.ProjectionModel.{projected_entry, projected_value};
ghost use Rattle.sdb_session.specs.Output.{answer_items};
ghost use Rattle.sdb_session.specs.View.{plain_opened, plain_projection_option, echo_of_message, WroteAnswers};
ghost use Rattle.sdb_session.specs.Responses.{entry_answers, submit_answers, subscribe_answers, PlainSubscribeReply};
ghost use Rattle.sdb_value.specs.View.{value_of};
ghost use Rattle.sdb_wire.specs.Answers.{op_message, failed, subscribed};
ghost use Rattle.sdb_wire.specs.View.{document_answer, plain_answer};

use crate::answer_sink::AnswerSink;
use crate::projection::{DocumentRef, projected_content, projected_document};
use sdb_desk::{FetchResult, Reply, SubscribeResult};
use sdb_json::JsonTree;
use sdb_oplog::{Code, Entry, Key, Submission};
use sdb_projection::Projection;
use sdb_value::Json;
use sdb_wire::{Answer, DocumentRequest, echo_of};
use std::alloc::{AllocError, Global};

// Writes one answer.
pub(crate) fn write_answer<O: AnswerSink>(
    alloc: Global,
    answer: &Answer<'_>,
    out: &mut O,
) -> Result<(), AllocError>
    ensures { OnOk result (WroteAnswers O.items (O.contents out.old) (O.contents out.new) (plain_answer answer.now
        ∷ [])) }
{
    out.write(alloc, answer)
}

// Writes the error reply to a message.
pub(crate) fn write_refusal<O: AnswerSink>(
    alloc: Global,
    message: Option<&JsonTree<'_>>,
    code: Code,
    out: &mut O,
) -> Result<(), AllocError>
    ensures { OnOk result (WroteAnswers O.items (O.contents out.old) (O.contents out.new)
        (failed (echo_of_message message.entry) code ∷ [])) }
{
    let echo = echo_of(alloc, message)?;
    write_answer(alloc, &Answer::Failed { echo: &echo, code }, out)
}

// Writes the operation message of an entry.
pub(crate) fn write_entry<O: AnswerSink>(
    alloc: Global,
    projection: Option<&Projection>,
    key: &Key,
    entry: &Entry,
    out: &mut O,
) -> Result<(), AllocError>
    ensures { OnOk result (WroteAnswers O.items (O.contents out.old) (O.contents out.new)
        (op_message (plain_key key.now) (projected_entry (plain_projection_option projection.entry) entry.now) ∷ [])) }
{
    let shown = projected_content(alloc, projection, entry.content())?;
    let content = match &shown {
        Some(content) => content,
        None => entry.content(),
    };
    let answer = Answer::OpMessage {
        key,
        entry,
        content,
    };
    write_answer(alloc, &answer, out)
}

// Writes the operation messages of entries.
pub(crate) fn write_entries<O: AnswerSink>(
    alloc: Global,
    target: &DocumentRef<'_>,
    entries: &[Entry],
    out: &mut O,
) -> Result<(), AllocError>
    ensures { OnOk result (WroteAnswers O.items (O.contents out.old) (O.contents out.new)
        (entry_answers (plain_projection_option target.now.projection) (plain_key target.now.key.now) entries.now)) }
{
    for entry in entries {
        write_entry(alloc, target.projection, target.key, entry, out)?;
    }
    Ok(())
}

// Writes the operation messages of entries, then the answer that follows them.
fn write_missed_entries<O: AnswerSink>(
    alloc: Global,
    target: &DocumentRef<'_>,
    entries: &[Entry],
    last: &Answer<'_>,
    out: &mut O,
) -> Result<(), AllocError>
    ensures { OnOk result (WroteAnswers O.items (O.contents out.old) (O.contents out.new)
        (entry_answers (plain_projection_option target.now.projection) (plain_key target.now.key.now) entries.now
        ++ plain_answer last.now ∷ [])) }
{
    write_entries(alloc, target, entries, out)?;
    write_answer(alloc, last, out)
}

// Writes the reply to a submission. Entries stored since its base version come before the
// acknowledgement.
pub(crate) fn write_reply<O: AnswerSink>(
    alloc: Global,
    target: &DocumentRef<'_>,
    message: Option<&JsonTree<'_>>,
    submission: &Submission,
    reply: &Reply,
    out: &mut O,
) -> Result<(), AllocError>
    ensures { OnOk result (WroteAnswers O.items (O.contents out.old) (O.contents out.new)
        (submit_answers (echo_of_message message.entry) (plain_projection_option target.now.projection)
        (plain_key target.now.key.now)
        (submission.now).src (submission.now).seq (plain_reply reply.now))) }
{
    let (src, seq) = (submission.src(), submission.seq());
    match reply {
        Reply::Stored { v, missed } => {
            let last = Answer::Acknowledged {
                key: target.key,
                src,
                seq,
                version: *v,
            };
            write_missed_entries(alloc, target, missed.as_slice(), &last, out)
        }
        Reply::Repeat { v } => {
            let answer = Answer::Acknowledged {
                key: target.key,
                src,
                seq,
                version: *v,
            };
            write_answer(alloc, &answer, out)
        }
        Reply::Refused(code) => write_refusal(alloc, message, *code, out),
    }
}

// Writes a document, as the answer to its request.
pub(crate) fn write_document<O: AnswerSink>(
    alloc: Global,
    projection: Option<&Projection>,
    request: DocumentRequest<'_>,
    found: FetchResult,
    out: &mut O,
) -> Result<(), AllocError>
    ensures { OnOk result (WroteAnswers O.items (O.contents out.old) (O.contents out.new)
        (document_answer request.entry found.version (option_map
        (projected_value (plain_projection_option projection.entry)) (option_map value_of found.snapshot)) ∷ [])) }
{
    let seen = projected_document(alloc, projection, found.snapshot)?;
    let document = seen.as_ref();
    let answer = Answer::Document {
        request,
        version: found.version,
        document,
    };
    write_answer(alloc, &answer, out)
}

// Writes the document, as the answer to a subscribe request without a version.
pub(crate) fn write_subscribed_document<O: AnswerSink>(
    alloc: Global,
    projection: Option<&Projection>,
    key: &Key,
    opened: SubscribeResult,
    out: &mut O,
) -> Result<(), AllocError>
    ensures { OnOk result (WroteAnswers O.items (O.contents out.old) (O.contents out.new)
        (subscribe_answers (plain_projection_option projection.entry) (plain_key key.now) None
        (record { opened = plain_opened opened; first = [] }))) }
{
    let document = projected_document(alloc, projection, opened.snapshot)?;
    write_subscribed(alloc, key, opened.version, document.as_ref(), out)
}

fn write_subscribed<'a, O: AnswerSink>(
    alloc: Global,
    key: &'a Key,
    version: u64,
    document: Option<&'a Json>,
    out: &mut O,
) -> Result<(), AllocError>
    ensures { OnOk result (WroteAnswers O.items (O.contents out.old) (O.contents out.new)
        (subscribed (plain_key key.now) version (option_map (λ d. value_of d.now) document.entry) ∷ [])) }
{
    let answer = Answer::Subscribed {
        key,
        version,
        document,
    };
    write_answer(alloc, &answer, out)
}
