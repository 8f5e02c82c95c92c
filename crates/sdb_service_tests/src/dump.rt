//! Tests of `sdb_dump`: dumps that are written and checked.
use crate::helpers::{key, text};
use sdb_dump::{DumpFault, check_dump};
use sdb_lines::{CountingReader, CountingWriter};
use sdb_steps::{World, dump, read_step, run_dump};
use std::alloc::Global;
use std::process::Abort;

const EMPTY: &str = r#"{"dump":2}
{"entries":0}
"#;

pub(crate) const CREATE: &str =
    r#"{"s":0,"do":"begin","c":"b","d":"1","src":"w","seq":1,"create":{"type":"http://sharejs.org/types/JSONv0","data":{"n":0}}}
{"s":0,"do":"commit","ms":100}
{"s":0,"do":"no step"}"#;

pub(crate) const CREATED: &str = r#"{"dump":2}
{"arrived":{"create":{"data":{"n":0},"type":"http://sharejs.org/types/JSONv0"},"v":null},"by":0,"c":"b","create":{"data":{"n":0},"type":"http://sharejs.org/types/JSONv0"},"d":"1","m":100,"seq":1,"src":"w","v":0,"via":"b"}
{"entries":1}
"#;

const OTHER_HEADER: &str = r#"{"dump":1}
{"entries":0}
"#;

const WITHOUT_MOMENT: &str = r#"{"dump":2}
{"arrived":{"create":{"data":{"n":0},"type":"http://sharejs.org/types/JSONv0"},"v":null},"by":0,"c":"b","create":{"data":{"n":0},"type":"http://sharejs.org/types/JSONv0"},"d":"1","seq":1,"src":"w","v":0,"via":"b"}
{"entries":1}
"#;

const OTHER_VERSION: &str = r#"{"dump":2}
{"arrived":{"create":{"data":{"n":0},"type":"http://sharejs.org/types/JSONv0"},"v":null},"by":0,"c":"b","create":{"data":{"n":0},"type":"http://sharejs.org/types/JSONv0"},"d":"1","m":100,"seq":1,"src":"w","v":1,"via":"b"}
{"entries":1}
"#;

const WITHOUT_COUNT: &str = r#"{"dump":2}
{"arrived":{"create":{"data":{"n":0},"type":"http://sharejs.org/types/JSONv0"},"v":null},"by":0,"c":"b","create":{"data":{"n":0},"type":"http://sharejs.org/types/JSONv0"},"d":"1","m":100,"seq":1,"src":"w","v":0,"via":"b"}
"#;

const TWO_DOCUMENTS: &str = r#"{"dump":2}
{"arrived":{"create":{"data":{"n":0},"type":"http://sharejs.org/types/JSONv0"},"v":null},"by":0,"c":"b","create":{"data":{"n":0},"type":"http://sharejs.org/types/JSONv0"},"d":"1","m":100,"seq":1,"src":"w","v":0,"via":"b"}
{"arrived":{"op":[{"na":1,"p":["n"]}],"v":1},"by":0,"c":"b","d":"1","m":100,"op":[{"na":1,"p":["n"]}],"seq":2,"src":"w","v":1,"via":"b"}
{"arrived":{"create":{"data":{"n":0},"type":"http://sharejs.org/types/JSONv0"},"v":null},"by":0,"c":"b","create":{"data":{"n":0},"type":"http://sharejs.org/types/JSONv0"},"d":"2","m":7,"seq":1,"src":"w","v":0,"via":"b"}
{"entries":3}
"#;

const KEYS_OUT_OF_ORDER: &str = r#"{"dump":2}
{"arrived":{"create":{"data":{"n":0},"type":"http://sharejs.org/types/JSONv0"},"v":null},"by":0,"c":"b","create":{"data":{"n":0},"type":"http://sharejs.org/types/JSONv0"},"d":"2","m":7,"seq":1,"src":"w","v":0,"via":"b"}
{"arrived":{"create":{"data":{"n":0},"type":"http://sharejs.org/types/JSONv0"},"v":null},"by":0,"c":"b","create":{"data":{"n":0},"type":"http://sharejs.org/types/JSONv0"},"d":"1","m":100,"seq":1,"src":"w","v":0,"via":"b"}
{"entries":2}
"#;

const CREATED_TWICE: &str = r#"{"dump":2}
{"arrived":{"create":{"data":{"n":0},"type":"http://sharejs.org/types/JSONv0"},"v":null},"by":0,"c":"b","create":{"data":{"n":0},"type":"http://sharejs.org/types/JSONv0"},"d":"1","m":100,"seq":1,"src":"w","v":0,"via":"b"}
{"arrived":{"create":{"data":{"n":0},"type":"http://sharejs.org/types/JSONv0"},"v":null},"by":0,"c":"b","create":{"data":{"n":0},"type":"http://sharejs.org/types/JSONv0"},"d":"1","m":100,"seq":2,"src":"w","v":0,"via":"b"}
{"entries":2}
"#;

// Steps with rebased edits: a retry, a duplicate, edits without a base version, and an edit that
// the ninth commit decides.
const RETRY: &str =
    r#"{"s":0,"do":"begin","c":"b","d":"1","src":"w","seq":1,"create":{"type":"http://sharejs.org/types/JSONv0","data":{"n":0}}}
{"s":0,"do":"commit"}
{"s":1,"do":"begin","c":"b","d":"1","src":"x","seq":1,"v":1,"op":[{"p":["n"],"na":10}]}
{"s":2,"do":"begin","c":"b","d":"1","src":"y","seq":1,"v":1,"op":[{"p":["n"],"na":5}]}
{"s":1,"do":"work"}
{"s":2,"do":"work"}
{"s":2,"do":"commit"}
{"s":1,"do":"commit"}
{"s":1,"do":"work"}
{"s":1,"do":"commit"}"#;

const DUPLICATE: &str =
    r#"{"s":0,"do":"begin","c":"b","d":"1","src":"w","seq":1,"create":{"type":"http://sharejs.org/types/JSONv0","data":{"n":0}}}
{"s":0,"do":"commit"}
{"s":1,"do":"begin","c":"b","d":"1","src":"x","seq":1,"v":1,"op":[{"p":["n"],"na":10}]}
{"s":2,"do":"begin","c":"b","d":"1","src":"x","seq":1,"v":1,"op":[{"p":["n"],"na":5}]}
{"s":1,"do":"work"}
{"s":2,"do":"work"}
{"s":2,"do":"commit"}
{"s":1,"do":"commit"}
{"s":1,"do":"work"}
{"s":1,"do":"commit"}"#;

const NO_VERSION: &str =
    r#"{"s":0,"do":"begin","c":"b","d":"1","src":"w","seq":1,"create":{"type":"http://sharejs.org/types/JSONv0","data":{"n":0}}}
{"s":0,"do":"commit"}
{"s":1,"do":"begin","c":"b","d":"1","src":"x","seq":1,"v":1,"op":[{"p":["n"],"na":10}]}
{"s":2,"do":"begin","c":"b","d":"1","src":"y","seq":1,"v":1,"op":[{"p":["n"],"na":5}]}
{"s":1,"do":"work"}
{"s":2,"do":"work"}
{"s":2,"do":"commit"}
{"s":1,"do":"commit"}
{"s":1,"do":"work"}
{"s":1,"do":"commit"}
{"s":1,"do":"begin","c":"b","d":"2","src":"x","seq":1,"create":{"type":"http://sharejs.org/types/JSONv0","data":{}}}
{"s":2,"do":"begin","c":"b","d":"2","src":"y","seq":1,"create":{"type":"http://sharejs.org/types/JSONv0","data":{}}}
{"s":2,"do":"commit"}
{"s":1,"do":"commit"}
{"s":1,"do":"commit"}
{"s":1,"do":"begin","c":"b","d":"1","src":"x","seq":2,"op":[{"p":["n"],"na":1}]}
{"s":2,"do":"begin","c":"b","d":"1","src":"y","seq":2,"op":[{"p":["n"],"na":1}]}
{"s":2,"do":"commit"}
{"s":1,"do":"commit"}
{"s":1,"do":"commit"}"#;

const NINTH_COMMIT: &str =
    r#"{"s":0,"do":"begin","c":"b","d":"1","src":"w","seq":1,"create":{"type":"http://sharejs.org/types/JSONv0","data":{"n":0}}}
{"s":0,"do":"commit"}
{"s":1,"do":"begin","c":"b","d":"1","src":"x","seq":1,"v":1,"op":[{"p":["n"],"na":100}]}
{"s":2,"do":"begin","c":"b","d":"1","src":"y","seq":1,"op":[{"p":["n"],"na":1}]}
{"s":2,"do":"commit"}
{"s":1,"do":"commit"}
{"s":2,"do":"begin","c":"b","d":"1","src":"y","seq":2,"op":[{"p":["n"],"na":1}]}
{"s":2,"do":"commit"}
{"s":1,"do":"commit"}
{"s":2,"do":"begin","c":"b","d":"1","src":"y","seq":3,"op":[{"p":["n"],"na":1}]}
{"s":2,"do":"commit"}
{"s":1,"do":"commit"}
{"s":2,"do":"begin","c":"b","d":"1","src":"y","seq":4,"op":[{"p":["n"],"na":1}]}
{"s":2,"do":"commit"}
{"s":1,"do":"commit"}
{"s":2,"do":"begin","c":"b","d":"1","src":"y","seq":5,"op":[{"p":["n"],"na":1}]}
{"s":2,"do":"commit"}
{"s":1,"do":"commit"}
{"s":2,"do":"begin","c":"b","d":"1","src":"y","seq":6,"op":[{"p":["n"],"na":1}]}
{"s":2,"do":"commit"}
{"s":1,"do":"commit"}
{"s":2,"do":"begin","c":"b","d":"1","src":"y","seq":7,"op":[{"p":["n"],"na":1}]}
{"s":2,"do":"commit"}
{"s":1,"do":"commit"}
{"s":2,"do":"begin","c":"b","d":"1","src":"y","seq":8,"op":[{"p":["n"],"na":1}]}
{"s":2,"do":"commit"}
{"s":1,"do":"commit"}
{"s":2,"do":"begin","c":"b","d":"1","src":"y","seq":9,"op":[{"p":["n"],"na":1}]}
{"s":2,"do":"commit"}
{"s":1,"do":"commit"}"#;

// The steps that create a document.
const CREATE_STEPS: &str =
    r#"{"s":0,"do":"begin","c":"b","d":"1","src":"w","seq":1,"create":{"type":"http://sharejs.org/types/JSONv0","data":{"n":0}}}
{"s":0,"do":"commit"}
"#;

// Returns the dump after these steps.
pub(crate) fn dump_of(rt: &impl Abort, alloc: Global, steps: &str) -> Vec<u8> {
    let mut reader = CountingReader::new(steps.as_bytes());
    let mut writer = CountingWriter::new(Vec::new(alloc));
    run_dump(alloc, &mut reader, &mut writer).expect(rt, "out of memory");
    writer.stream
}

// Returns the number of documents and entries of a dump, or the reason why it is refused.
fn check(alloc: Global, dump: &[u8]) -> Result<(u64, u128), DumpFault> {
    let mut reader = CountingReader::new(dump);
    let checked = check_dump(alloc, &mut reader)?;
    Ok((checked.documents, checked.entries))
}

// The dump after RETRY. The second edit is rebased on the first.
const RETRY_DUMP: &str = r#"{"dump":2}
{"arrived":{"create":{"data":{"n":0},"type":"http://sharejs.org/types/JSONv0"},"v":null},"by":0,"c":"b","create":{"data":{"n":0},"type":"http://sharejs.org/types/JSONv0"},"d":"1","m":0,"seq":1,"src":"w","v":0,"via":"b"}
{"arrived":{"op":[{"na":5,"p":["n"]}],"v":1},"by":2,"c":"b","d":"1","m":0,"op":[{"na":5,"p":["n"]}],"seq":1,"src":"y","v":1,"via":"b"}
{"arrived":{"op":[{"na":10,"p":["n"]}],"v":1},"by":1,"c":"b","d":"1","m":0,"op":[{"na":10,"p":["n"]}],"seq":1,"src":"x","v":2,"via":"b"}
{"entries":3}
"#;

// The dump after DUPLICATE, which stores the edit of session 2 alone.
const DUPLICATE_DUMP: &str = r#"{"dump":2}
{"arrived":{"create":{"data":{"n":0},"type":"http://sharejs.org/types/JSONv0"},"v":null},"by":0,"c":"b","create":{"data":{"n":0},"type":"http://sharejs.org/types/JSONv0"},"d":"1","m":0,"seq":1,"src":"w","v":0,"via":"b"}
{"arrived":{"op":[{"na":5,"p":["n"]}],"v":1},"by":2,"c":"b","d":"1","m":0,"op":[{"na":5,"p":["n"]}],"seq":1,"src":"x","v":1,"via":"b"}
{"entries":2}
"#;

// Returns the steps of a document with 74 edits.
fn steps_of_many_edits(rt: &impl Abort, alloc: Global) -> String {
    let mut steps = text(rt, alloc, CREATE_STEPS);
    for seq in 2..76 {
        let edit = format!(in alloc;
            r#"{{"s":0,"do":"begin","c":"b","d":"1","src":"w","seq":{seq},"op":[{{"p":["n"],"na":1}}]}}"#
        );
        steps
            .push_str(edit.expect(rt, "out of memory").as_str())
            .expect(rt, "out of memory");
        steps
            .push_str("\n{\"s\":0,\"do\":\"commit\"}\n")
            .expect(rt, "out of memory");
    }
    steps
}

#[test]
fn dumps_are_written(rt: HostRuntime) {
    for (steps, dump) in [
        ("", EMPTY),
        (CREATE, CREATED),
        (RETRY, RETRY_DUMP),
        (DUPLICATE, DUPLICATE_DUMP),
    ] {
        assert!(rt;
            dump_of(&rt, rt.alloc(), steps).as_slice() == dump.as_bytes(),
            "{dump}"
        );
    }
}

#[test]
fn dumps_of_rebased_edits_are_accepted(rt: HostRuntime) {
    let edited = steps_of_many_edits(&rt, rt.alloc());
    for (steps, expected) in [
        (RETRY, (1, 3)),
        (DUPLICATE, (1, 2)),
        (NO_VERSION, (2, 6)),
        (NINTH_COMMIT, (1, 11)),
        (edited.as_str(), (1, 75)),
    ] {
        let dump = dump_of(&rt, rt.alloc(), steps);
        assert!(rt;
            check(rt.alloc(), dump.as_slice()) == Ok(expected),
            "{steps}"
        );
    }
}

#[test]
fn dumps_are_accepted_or_refused_at_a_line(rt: HostRuntime) {
    for (dump, expected) in [
        (EMPTY, Ok((0, 0))),
        (CREATED, Ok((1, 1))),
        (OTHER_HEADER, Err(DumpFault::WrongLine { line: 1 })),
        (WITHOUT_MOMENT, Err(DumpFault::WrongLine { line: 2 })),
        (OTHER_VERSION, Err(DumpFault::WrongLine { line: 2 })),
        (WITHOUT_COUNT, Err(DumpFault::WrongLine { line: 3 })),
        (TWO_DOCUMENTS, Ok((2, 3))),
        (KEYS_OUT_OF_ORDER, Err(DumpFault::WrongLine { line: 3 })),
        (CREATED_TWICE, Err(DumpFault::WrongLine { line: 3 })),
    ] {
        assert!(rt; check(rt.alloc(), dump.as_bytes()) == expected, "{dump}");
    }
}

#[test]
fn a_checked_dump_has_its_logs(rt: HostRuntime) {
    let mut reader = CountingReader::new(TWO_DOCUMENTS.as_bytes());
    let checked = check_dump(rt.alloc(), &mut reader).expect(&rt, "it is accepted");
    for (id, entries) in [("1", Some(2)), ("2", Some(1)), ("3", None)] {
        let key = key(&rt, rt.alloc(), id);
        assert!(rt; checked.log(&key).map(|log| log.len()) == entries, "{id}");
    }
}

#[test]
fn a_world_is_dumped(rt: HostRuntime) {
    let mut world = World::new(rt.alloc()).expect(&rt, "out of memory");
    for line in CREATE.lines() {
        if let Ok(step) = read_step(rt.alloc(), line) {
            drop(world.step(step));
        }
    }
    let mut writer = CountingWriter::new(Vec::new(rt.alloc()));
    assert!(rt; dump(rt.alloc(), &world, &mut writer) == Ok(1));
    assert!(rt; writer.stream.as_slice() == CREATED.as_bytes());
}

// Returns the line of an entry that creates the document, made by the pass of this number.
fn created_line(rt: &impl Abort, alloc: Global, id: u64, by: u64, data: &str) -> String {
    let create = format!(in alloc;
        r#"{{"data":"{data}","type":"http://sharejs.org/types/JSONv0"}}"#
    );
    let create = create.expect(rt, "out of memory");
    let arrived = format!(in alloc;
        r#"{{"arrived":{{"create":{create},"v":null}},"by":{by},"c":"b""#
    );
    let arrived = arrived.expect(rt, "out of memory");
    let stored = format!(in alloc; r#""create":{create},"d":"{id}","m":7,"seq":1,"src":"w","v":0"#);
    let stored = stored.expect(rt, "out of memory");
    format!(in alloc; "{arrived},{stored},\"via\":\"b\"}}\n").expect(rt, "out of memory")
}

// Returns a dump of these lines.
fn dump_of_lines(rt: &impl Abort, alloc: Global, lines: &str, count: u64) -> String {
    format!(in alloc; "{{\"dump\":2}}\n{lines}{{\"entries\":{count}}}\n").expect(
        rt,
        "out of memory",
    )
}

// Each line has more than twice the length of the longest message.
#[test]
fn dump_lines_have_any_length(rt: HostRuntime) {
    let alloc = rt.alloc();
    let mut data = String::new(alloc);
    for _ in 0..22_000 {
        data.push_str("fifty letters of a text that is longer than a line")
            .expect(&rt, "out of memory");
    }
    let lines = created_line(&rt, alloc, 1, 0, data.as_str());
    assert!(rt; lines.len() > 2_200_000);
    let dump = dump_of_lines(&rt, alloc, lines.as_str(), 1);
    assert!(rt; check(alloc, dump.as_bytes()) == Ok((1, 1)));
}

// The ids have four digits, so that their numbers are in the order of their bytes.
#[test]
fn a_dump_has_any_number_of_documents_and_passes(rt: HostRuntime) {
    let (alloc, mut lines) = (rt.alloc(), String::new(rt.alloc()));
    for id in 1_000..3_100 {
        let line = created_line(&rt, alloc, id, id, "");
        lines.push_str(line.as_str()).expect(&rt, "out of memory");
    }
    let dump = dump_of_lines(&rt, alloc, lines.as_str(), 2_100);
    assert!(rt; check(alloc, dump.as_bytes()) == Ok((2_100, 2_100)));
}

#[test]
fn faults_display_their_texts(rt: HostRuntime) {
    for (fault, wanted) in [
        (DumpFault::WrongLine { line: 37 }, "wrong at line 37"),
        (
            DumpFault::ReadFailed,
            "the dump could not be read to its end",
        ),
        (DumpFault::OutOfMemory, "out of memory"),
    ] {
        let displayed = fault.to_string(rt.alloc()).expect(&rt, "out of memory");
        assert!(rt; displayed.as_str() == wanted, "{wanted}");
    }
}
