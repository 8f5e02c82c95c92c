//! Texts, keys, contents and submissions for the tests, and views of replies and documents. A
//! failed allocation or a malformed text ends the test.
ghost use Rattle.std.specs.Prelude.{◌≡◌};

use sdb_desk::Reply;
use sdb_oplog::{Content, Key, Submission};
use sdb_value::Json;
use sdb_wire::read_content;
use serde_json::Value;
use std::alloc::Global;
use std::process::Abort;

pub(crate) fn text(rt: &impl Abort, alloc: Global, text: &str) -> String {
    String::from_str(alloc, text).expect(rt, "out of memory")
}

// Returns a key of the collection b.
pub(crate) fn key(rt: &impl Abort, alloc: Global, id: &str) -> Key {
    Key {
        collection: text(rt, alloc, "b"),
        id: text(rt, alloc, id),
    }
}

// Parses the content of a submission from JSON.
pub(crate) fn content(rt: &impl Abort, alloc: Global, text: &str) -> Content {
    let value = Value::from_str(alloc, text).expect(rt, "out of memory or no JSON");
    read_content(alloc, &value).expect(rt, "out of memory or no content")
}

// Returns an edit that adds to the number at `n`.
pub(crate) fn increment(rt: &impl Abort, alloc: Global, amount: i64) -> Content {
    let edit = format!(in alloc; r#"{{"op":[{{"p":["n"],"na":{amount}}}]}}"#);
    content(rt, alloc, edit.expect(rt, "out of memory").as_str())
}

// Returns a content that creates the document `{"n":0}`.
pub(crate) fn create_counter(rt: &impl Abort, alloc: Global) -> Content {
    content(rt, alloc, r#"{"create":{"type":"json0","data":{"n":0}}}"#)
}

// Returns a submission of the source, addressed to b and made by the pass of this number.
pub(crate) fn submission(
    rt: &impl Abort,
    alloc: Global,
    src: &str,
    seq: u64,
    version: Option<u64>,
    content: Content,
    by: u64,
) -> Submission
    ensures by { result.by ≡ by }
    ensures content { result.content ≡ content }
{
    let (src, via) = (text(rt, alloc, src), text(rt, alloc, "b"));
    Submission::new(alloc, src, seq, version, content, via, by).expect(rt, "out of memory")
}

pub(crate) fn number_of(document: Option<&Json>) -> Option<i64> {
    match document {
        Some(Json::Int(n)) => Some(n.get()),
        _ => None,
    }
}

// Returns the number at `n`.
pub(crate) fn counter_of(document: Option<&Json>) -> Option<i64> {
    match document {
        Some(Json::Object(members)) => number_of(members.get("n")),
        _ => None,
    }
}

// Returns the version of a stored submission and the number of entries that it missed.
pub(crate) fn stored_version(reply: &Reply) -> Option<(u64, usize)> {
    match reply {
        Reply::Stored { v, missed } => Some((*v, missed.len())),
        _ => None,
    }
}
