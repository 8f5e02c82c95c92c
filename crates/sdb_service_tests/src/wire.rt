//! Tests of `sdb_wire`: functions that no program calls, and answers that their lines cannot cover.
//! The lines of the two programs test the rest.
use crate::helpers::{content, key, submission, text};
use sdb_oplog::{Code, Content, Entry, Moment};
use sdb_wire::{
    Answer, Echo, MESSAGE_LIMIT, Request, empty_echo, entry_value, read_message, reply_text,
};
use std::alloc::Global;
use std::process::Abort;

// Parses a fetch and returns its version, or the code of the refusal.
fn parse_fetch(alloc: Global, text: &str) -> Result<Option<u64>, Code> {
    match read_message(alloc, text) {
        Ok(Request::Fetch { version, .. }) => Ok(version),
        Ok(_) => Ok(None),
        Err(refusal) => Err(refusal.code),
    }
}

// Returns a fetch from version 3, padded with spaces to this length in bytes.
fn padded_fetch(rt: &impl Abort, alloc: Global, length: usize) -> String {
    let mut text = text(rt, alloc, r#"{"a":"f","c":"b","d":"1","v":3}"#);
    for _ in text.len()..length {
        text.push(' ').expect(rt, "out of memory");
    }
    text
}

#[test]
fn messages_are_parsed_up_to_the_limit(rt: HostRuntime) {
    for (length, wanted) in [
        (0, Ok(Some(3))),
        (MESSAGE_LIMIT, Ok(Some(3))),
        (1_048_577, Err(Code::E1)),
    ] {
        let text = padded_fetch(&rt, rt.alloc(), length);
        assert!(rt;
            parse_fetch(rt.alloc(), text.as_str()) == wanted,
            "{length}"
        );
    }
}

// Returns whether this text is the answer for the error.
fn is_error_text(rt: &impl Abort, alloc: Global, echo: &Echo, code: Code, wanted: &str) -> bool {
    let message = reply_text(alloc, &Answer::Failed { echo, code }).expect(rt, "out of memory");
    message.as_str() == wanted
}

// Returns whether the text is refused with this answer.
fn is_refused(rt: &impl Abort, alloc: Global, text: &str, wanted: &str) -> bool {
    match read_message(alloc, text) {
        Ok(_) => false,
        Err(refusal) => is_error_text(rt, alloc, &refusal.echo, refusal.code, wanted),
    }
}

const BADLY_FORMED: &str =
    r#"{"a":"f","c":"b","error":{"code":"ERR_MESSAGE_BADLY_FORMED","message":"message is badly formed"},"id":7}"#;

// The answer after a failed allocation, which the lines of the programs do not cover.
const OUT_OF_MEMORY: &str = r#"{"error":{"code":"ERR_OUT_OF_MEMORY","message":"out of memory"}}"#;

#[test]
fn errors_have_a_code_and_a_message(rt: HostRuntime) {
    let text = r#"{"a":"f","c":"b","id":7}"#;
    assert!(rt;
        is_refused(&rt, rt.alloc(), text, BADLY_FORMED)
            && is_error_text(&rt, rt.alloc(), &empty_echo(), Code::E10, OUT_OF_MEMORY)
    );
}

// Returns the code that refuses an edit with this number.
fn refusal_of_number(rt: &impl Abort, alloc: Global, number: &str) -> Option<Code> {
    let edit = format!(in alloc;
        r#"{{"a":"op","c":"b","d":"1","seq":1,"op":[{{"p":[],"na":{number}}}]}}"#
    );
    let edit = edit.expect(rt, "out of memory");
    match read_message(alloc, edit.as_str()) {
        Ok(_) => None,
        Err(refusal) => Some(refusal.code),
    }
}

#[test]
fn numbers_out_of_range_are_badly_formed(rt: HostRuntime) {
    for (number, code) in [
        ("9007199254740991", None),
        ("9007199254740992", Some(Code::E3)),
        ("9223372036854775807", Some(Code::E3)),
        ("9223372036854775808", Some(Code::E3)),
        ("18446744073709551615", Some(Code::E3)),
        ("18446744073709551616", Some(Code::E3)),
        ("-9223372036854775809", Some(Code::E3)),
    ] {
        assert!(rt;
            refusal_of_number(&rt, rt.alloc(), number) == code,
            "{number}"
        );
    }
}

// Returns whether the entry at version 4 with this content, source x and seq 7 has this JSON value.
fn has_entry_value(rt: &impl Abort, alloc: Global, content: Content, wanted: &str) -> bool {
    let arrived = submission(rt, alloc, "x", 7, None, content, 7);
    let value = entry_value(alloc, &Entry::new(4, Moment::zero(), None, arrived)).expect(
        rt,
        "out of memory",
    );
    value.to_string(alloc).expect(rt, "out of memory").as_str() == wanted
}

const CREATED: &str =
    r#"{"create":{"data":null,"type":"http://sharejs.org/types/JSONv0"},"seq":7,"src":"x","v":4}"#;

const DELETED: &str = r#"{"del":true,"seq":7,"src":"x","v":4}"#;

const EDITED: &str = r#"{"op":[{"na":2,"p":[]}],"seq":7,"src":"x","v":4}"#;

#[test]
fn entries_are_printed_as_values(rt: HostRuntime) {
    let create = content(
        &rt,
        rt.alloc(),
        r#"{"create":{"type":"json0","data":null}}"#,
    );
    assert!(rt;
        has_entry_value(&rt, rt.alloc(), create, CREATED)
            && has_entry_value(&rt, rt.alloc(), Content::delete(), DELETED)
    );
    let edit = content(&rt, rt.alloc(), r#"{"op":[{"na":2,"p":[]}]}"#);
    assert!(rt; has_entry_value(&rt, rt.alloc(), edit, EDITED));
}
