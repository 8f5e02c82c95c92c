//! Tests of `sdb_oplog`: whole replays, equality of entries, and the transformation of contents,
//! which the lines do not cover.
ghost use Rattle.std.specs.Prelude.{◌≡◌};

use crate::helpers::{op_equals, op_of, op_text, parse_value};
use sdb_component::Op;
use sdb_oplog::{
    Code, Content, Entry, Kind, Log, Moment, PathInterner, Submission, clone_entries,
    entries_equal, over, rebase,
};
use sdb_value::Json;
use serde_json::Value;
use std::alloc::Global;
use std::process::Abort;

fn submission(rt: &impl Abort, alloc: Global, seq: u64, content: Content) -> Submission
    ensures seq { result.seq ≡ seq }
    ensures content { result.content ≡ content }
{
    let src = String::from_str(alloc, "x").expect(rt, "out of memory");
    let via = String::from_str(alloc, "b").expect(rt, "out of memory");
    Submission::new(alloc, src, seq, None, content, via, 7).expect(rt, "out of memory")
}

// Returns a log whose only entry creates the document `true`.
fn log_of_one_create(rt: &impl Abort, alloc: Global) -> Log {
    let mut log = Log::new(alloc);
    let content = Content::create(alloc, Json::Bool(true)).expect(rt, "out of memory");
    let create = submission(rt, alloc, 1, content);
    log.push(Entry::new(0, Moment::zero(), None, create))
        .expect(rt, "out of memory");
    log
}

// The only entry has moment 0, so that each moment is at version 1.
#[test]
fn version_at_returns_the_version_of_a_moment(rt: HostRuntime) {
    let last = Moment::new(9_007_199_254_740_991).expect(&rt, "a moment");
    assert!(rt;
        Moment::new(9_007_199_254_740_992).is_none()
            && Moment::saturating_new(u64::MAX).milliseconds() == last.milliseconds()
            && Log::new(rt.alloc()).version_at(last) == 0
    );
    let log = log_of_one_create(&rt, rt.alloc());
    assert!(rt; log.version_at(Moment::zero()) == 1 && log.version_at(last) == 1);
}

fn is_true(document: Option<&Json>) -> bool {
    matches!(document, Some(Json::Bool(true)))
}

// A replay leaves the log unchanged.
#[test]
fn a_replay_leaves_the_log_unchanged(rt: HostRuntime) {
    assert!(rt; Log::new(rt.alloc()).is_empty());
    let log = log_of_one_create(&rt, rt.alloc());
    assert!(rt;
        log.replay(0).expect(&rt, "out of memory").is_none()
            && log.len() == 1
            && is_true(log.replay(1).expect(&rt, "out of memory").as_ref())
    );
}

// Returns an entry whose submission creates and whose content deletes.
fn entry_with_rebased_content(rt: &impl Abort, alloc: Global) -> Entry {
    let content = Content::create(alloc, Json::Null).expect(rt, "out of memory");
    let create = submission(rt, alloc, 1, content)
        .try_clone()
        .expect(rt, "out of memory");
    Entry::new(5, Moment::zero(), Some(Content::delete()), create)
}

#[test]
fn cloned_entries_are_equal(rt: HostRuntime) {
    let mut entries = Vec::new(rt.alloc());
    entries
        .push(entry_with_rebased_content(&rt, rt.alloc()))
        .expect(&rt, "out of memory");
    let clones = clone_entries(rt.alloc(), entries.as_slice()).expect(&rt, "out of memory");
    assert!(rt;
        entries_equal(entries.as_slice(), clones.as_slice())
            && !entries_equal(entries.as_slice(), &[])
    );
}

fn is_delete(transformed: &Result<Content, Code>) -> bool {
    match transformed {
        Ok(content) => matches!(content.kind(), Kind::Delete),
        Err(_) => false,
    }
}

#[test]
fn a_delete_refuses_a_concurrent_edit(rt: HostRuntime) {
    let edit = Content::edit(rt.alloc(), Op::new(Vec::new(rt.alloc()))).expect(
        &rt,
        "out of memory",
    );
    let delete = Content::delete();
    assert!(rt;
        matches!(over(rt.alloc(), &edit, &delete), Err(Code::E5))
            && is_delete(&over(rt.alloc(), &delete, &edit))
    );
}

// Returns a log's entry with this content.
fn entry_of(rt: &impl Abort, alloc: Global, version: u64, content: Content) -> Entry {
    let submission = submission(rt, alloc, version, content);
    Entry::new(version, Moment::zero(), None, submission)
}

fn edit_of(rt: &impl Abort, alloc: Global, op: &str) -> Content {
    Content::edit(alloc, op_of(rt, alloc, &parse_value(rt, alloc, op))).expect(rt, "out of memory")
}

// Returns the entries of these edits.
fn entries_of(rt: &impl Abort, alloc: Global, edits: &[&str]) -> Vec<Entry> {
    let mut entries = Vec::new(alloc);
    for edit in edits {
        let version = entries.len() as u64;
        let entry = entry_of(rt, alloc, version, edit_of(rt, alloc, edit));
        entries.push(entry).expect(rt, "out of memory");
    }
    entries
}

// Returns the text of the edit, transformed against these edits in order.
fn rebased_text(rt: &impl Abort, alloc: Global, edit: &str, others: &[&str]) -> String {
    let (edit, entries) = (edit_of(rt, alloc, edit), entries_of(rt, alloc, others));
    let rebased = rebase(alloc, &edit, entries.as_slice());
    let rebased = rebased.ok().expect(rt, "a rebased edit").unwrap_or(edit);
    match rebased.kind() {
        Kind::Edit(op) => op_text(rt, alloc, op),
        _ => String::new(alloc),
    }
}

const INSERT: &str = r#"[{"li":"c","p":[2]}]"#;

const DELETE: &str = r#"[{"ld":"c","p":[2]}]"#;

#[test]
fn an_edit_is_rebased_on_each_entry(rt: HostRuntime) {
    for (edit, others, wanted) in [
        (INSERT, &[] as &[&str], INSERT),
        (
            INSERT,
            &[r#"[{"li":"a","p":[0]}]"#, r#"[{"li":"b","p":[0]}]"#],
            r#"[{"li":"c","p":[4]}]"#,
        ),
        (
            INSERT,
            &[r#"[{"li":"a","p":[1]}]"#, r#"[{"ld":"a","p":[1]}]"#],
            INSERT,
        ),
        (
            DELETE,
            &[r#"[{"li":"a","p":[0]}]"#, r#"[{"ld":"c","p":[3]}]"#],
            "[]",
        ),
    ] {
        let rebased = rebased_text(&rt, rt.alloc(), edit, others);
        assert!(rt; rebased.as_str() == wanted, "{edit}");
    }
}

fn create_null(rt: &impl Abort, alloc: Global) -> Content {
    Content::create(alloc, Json::Null).expect(rt, "out of memory")
}

// Returns the code that refuses the content after these stored ones.
fn refusal_after(
    rt: &impl Abort,
    alloc: Global,
    content: &Content,
    first: Content,
    second: Option<Content>,
) -> Option<Code> {
    let mut entries = Vec::new(alloc);
    entries
        .push(entry_of(rt, alloc, 0, first))
        .expect(rt, "out of memory");
    if let Some(second) = second {
        let entry = entry_of(rt, alloc, 1, second);
        entries.push(entry).expect(rt, "out of memory");
    }
    rebase(alloc, content, entries.as_slice()).err()
}

#[test]
fn a_rebase_returns_the_first_refusal(rt: HostRuntime) {
    let alloc = rt.alloc();
    let edit = edit_of(&rt, alloc, r#"[{"na":1,"p":[]}]"#);
    let (null, delete) = (create_null(&rt, alloc), Content::delete());
    for (content, wanted) in [
        (&edit, Some(Code::E5)),
        (&null, Some(Code::E5)),
        (&delete, Some(Code::E6)),
    ] {
        let stored = Some(create_null(&rt, alloc));
        let refusal = refusal_after(&rt, alloc, content, Content::delete(), stored);
        assert!(rt; refusal == wanted);
    }
    for (content, wanted) in [
        (&edit, Some(Code::E6)),
        (&null, Some(Code::E6)),
        (&delete, Some(Code::E6)),
    ] {
        let refusal = refusal_after(&rt, alloc, content, create_null(&rt, alloc), None);
        assert!(rt; refusal == wanted);
    }
    assert!(rt; refusal_after(&rt, alloc, &delete, Content::delete(), None).is_none());
}

// Edits in order.
const EDITS: &str = r#"[
  [{"na":1,"p":["n"]}],
  [{"na":2,"p":["n"]}],
  [{"oi":3,"p":["m"]}],
  [{"na":4,"p":[]},{"na":5,"p":[]}],
  [{"na":6,"p":["n"]}]
]"#;

// Returns the edit with its path interned.
fn intern_edit(rt: &impl Abort, alloc: Global, last: &mut PathInterner, op: &Value) -> Content {
    let edit = Content::edit(alloc, op_of(rt, alloc, op)).expect(rt, "out of memory");
    last.intern(alloc, edit).expect(rt, "out of memory")
}

fn is_edit_of(rt: &impl Abort, alloc: Global, content: &Content, op: &Value) -> bool {
    match content.kind() {
        Kind::Edit(edit) => op_equals(rt, alloc, edit, op),
        _ => false,
    }
}

#[test]
fn interning_leaves_edits_unchanged(rt: HostRuntime) {
    let mut last = PathInterner::new();
    let edits = parse_value(&rt, rt.alloc(), EDITS);
    for op in edits.as_array().expect(&rt, "edits") {
        let edit = intern_edit(&rt, rt.alloc(), &mut last, op);
        assert!(rt; is_edit_of(&rt, rt.alloc(), &edit, op));
    }
    let delete = last
        .intern(rt.alloc(), Content::delete())
        .expect(&rt, "out of memory");
    assert!(rt; matches!(delete.kind(), Kind::Delete));
}
