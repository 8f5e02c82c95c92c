//! Tests of `sdb_projection`: refused tables, and the projection of operations and contents. The
//! lines of the server test the rest.
use crate::helpers::{content, submission, text};
use sdb_component::{op_value, read_op};
use sdb_oplog::{Content, Entry, Moment};
use sdb_projection::{Projection, Table, TableFault, allowed, project_content, project_op};
use sdb_wire::entry_value;
use serde_json::Value;
use std::alloc::Global;
use std::collections::BTreeSet;
use std::process::Abort;

// Returns a projection with the field `title`.
pub(crate) fn title_projection(
    rt: &impl Abort,
    alloc: Global,
    name: &str,
    base: &str,
) -> Projection {
    let mut projection = projection_without_fields(rt, alloc, name, base);
    let title = text(rt, alloc, "title");
    projection.fields.insert(title).expect(rt, "out of memory");
    projection
}

fn projection_without_fields(rt: &impl Abort, alloc: Global, name: &str, base: &str) -> Projection {
    Projection {
        name: text(rt, alloc, name),
        base: text(rt, alloc, base),
        fields: BTreeSet::new(alloc),
    }
}

#[test]
fn components_outside_the_fields_are_dropped(rt: HostRuntime) {
    let projection = title_projection(&rt, rt.alloc(), "t", "b");
    let op = r#"[{"p":["n"],"na":1},{"p":["title"],"oi":null}]"#;
    let value = Value::from_str(rt.alloc(), op).expect(&rt, "out of memory or no JSON");
    let op = read_op(rt.alloc(), &value).expect(&rt, "out of memory or no operation");
    let projected = project_op(rt.alloc(), &projection, &op).expect(&rt, "out of memory");
    let projected = op_value(rt.alloc(), &projected).expect(&rt, "out of memory");
    let projected = projected.to_string(rt.alloc()).expect(&rt, "out of memory");
    assert!(rt; projected.as_str() == r#"[{"oi":null,"p":["title"]}]"#);
}

// Rows of a content, whether the projection allows it, and the value of its projected entry.
const CONTENTS: [(&str, bool, &str); 7] = [
    (
        r#"{"create":{"type":"json0","data":{"title":"a"}}}"#,
        true,
        r#"{"create":{"data":{"title":"a"},"type":"http://sharejs.org/types/JSONv0"},"seq":1,"src":"x","v":0}"#,
    ),
    (
        r#"{"create":{"type":"json0","data":{"n":1,"title":"a"}}}"#,
        false,
        r#"{"create":{"data":{"title":"a"},"type":"http://sharejs.org/types/JSONv0"},"seq":1,"src":"x","v":0}"#,
    ),
    (
        r#"{"create":{"type":"json0","data":null}}"#,
        true,
        r#"{"create":{"data":null,"type":"http://sharejs.org/types/JSONv0"},"seq":1,"src":"x","v":0}"#,
    ),
    (
        r#"{"create":{"type":"json0","data":[1]}}"#,
        false,
        r#"{"create":{"data":null,"type":"http://sharejs.org/types/JSONv0"},"seq":1,"src":"x","v":0}"#,
    ),
    (
        r#"{"op":[{"p":["title",0],"si":"b"}]}"#,
        true,
        r#"{"op":[{"p":["title",0],"si":"b"}],"seq":1,"src":"x","v":0}"#,
    ),
    (
        r#"{"op":[{"p":["title",0],"si":"b"},{"p":["n"],"na":1}]}"#,
        false,
        r#"{"op":[{"p":["title",0],"si":"b"}],"seq":1,"src":"x","v":0}"#,
    ),
    (
        r#"{"del":true}"#,
        true,
        r#"{"del":true,"seq":1,"src":"x","v":0}"#,
    ),
];

// Returns the value of an entry with this content.
fn entry_text(rt: &impl Abort, alloc: Global, content: Content) -> String {
    let submission = submission(rt, alloc, "x", 1, None, content, 0);
    let entry = Entry::new(0, Moment::zero(), None, submission);
    let value = entry_value(alloc, &entry).expect(rt, "out of memory");
    value.to_string(alloc).expect(rt, "out of memory")
}

#[test]
fn contents_are_allowed_and_projected(rt: HostRuntime) {
    let alloc = rt.alloc();
    let projection = title_projection(&rt, alloc, "t", "b");
    for (text, is_allowed, wanted) in CONTENTS {
        let content = content(&rt, alloc, text);
        assert!(rt; allowed(&projection, &content) == is_allowed, "{text}");
        let projected = project_content(alloc, &projection, &content).expect(&rt, "out of memory");
        assert!(rt;
            entry_text(&rt, alloc, projected).as_str() == wanted,
            "{text}"
        );
    }
}

// Checks that a table with the projection t of b refuses each of these.
fn assert_refusals(rt: &impl Abort, alloc: Global, table: &mut Table) {
    for (name, base, fault) in [
        ("t", "c", TableFault::DuplicateName),
        ("x", "x", TableFault::NameOfBase),
        ("u", "t", TableFault::BaseIsProjection),
        ("b", "c", TableFault::BaseIsProjection),
    ] {
        assert!(rt;
            table.add(title_projection(rt, alloc, name, base)) == Err(fault),
            "{name} {base}"
        );
    }
    assert!(rt;
        table.add(projection_without_fields(rt, alloc, "y", "b")) == Err(TableFault::NoField)
    );
}

fn is_base(table: &Table, name: &str, base: &str) -> bool {
    match table.find(name) {
        Some(projection) => projection.base.as_str() == base,
        None => false,
    }
}

#[test]
fn a_table_refuses_invalid_projections(rt: HostRuntime) {
    let mut table = Table::new(rt.alloc());
    assert!(rt;
        table
            .add(title_projection(&rt, rt.alloc(), "t", "b"))
            .is_ok()
    );
    assert_refusals(&rt, rt.alloc(), &mut table);
    assert!(rt; is_base(&table, "t", "b"));
}
