//! A client whose document and messages nest as deep as they may, in the thread of its session.
use crate::clients::{FIRST_INIT, exchange, open_session};
use std::alloc::Global;
use std::net::SocketAddr;
use std::process::Abort;

// The answer to a message that is no object.
const BADLY_FORMED: &str =
    r#"{"error":{"code":"ERR_MESSAGE_BADLY_FORMED","message":"message is badly formed"}}"#;

// Appends a text, so many times.
fn repeat(abort: &impl Abort, text: &mut String, part: &str, count: u64) {
    for _ in 0..count {
        text.push_str(part).expect(abort, "out of memory");
    }
}

// Returns the text with so many lists inside each other in its middle.
fn around_lists(
    abort: &impl Abort,
    alloc: Global,
    prefix: &str,
    depth: u64,
    suffix: &str,
) -> String {
    let mut text = String::from_str(alloc, prefix).expect(abort, "out of memory");
    repeat(abort, &mut text, "[", depth);
    repeat(abort, &mut text, "]", depth);
    text.push_str(suffix).expect(abort, "out of memory");
    text
}

// Returns an insert of lists nested 50 deep at a path of 50 steps.
fn deep_insert(abort: &impl Abort, alloc: Global) -> String {
    let prefix = r#"{"a":"op","c":"b","d":"1","v":1,"src":"x","seq":2,"op":[{"p":[0"#;
    let mut head = String::from_str(alloc, prefix).expect(abort, "out of memory");
    repeat(abort, &mut head, ",0", 49);
    head.push_str(r#"],"li":"#).expect(abort, "out of memory");
    around_lists(abort, alloc, head.as_str(), 50, "}]}")
}

// Creates a document 50 deep, makes it 100 deep and fetches it. Also sends messages 127 and 128
// deep, which are no objects.
pub(crate) fn nest_deeply(abort: &impl Abort, rt: HostRuntime, alloc: Global, address: SocketAddr) {
    let mut client = open_session(abort, rt, alloc, address, FIRST_INIT);
    let create = r#"{"a":"op","c":"b","d":"1","src":"x","seq":1,"create":{"type":"json0","data":"#;
    let create = around_lists(abort, alloc, create, 50, "}}");
    let insert = deep_insert(abort, alloc);
    let fetched = r#"{"a":"f","c":"b","d":"1","data":{"data":"#;
    let fetched = around_lists(abort, alloc, fetched, 100, r#","v":2}}"#);
    let deepest = around_lists(abort, alloc, "", 127, "");
    let too_deep = around_lists(abort, alloc, "", 128, "");
    let texts = [
        (
            create.as_str(),
            r#"{"a":"op","c":"b","d":"1","seq":1,"src":"x","v":0}"#,
        ),
        (
            insert.as_str(),
            r#"{"a":"op","c":"b","d":"1","seq":2,"src":"x","v":1}"#,
        ),
        (r#"{"a":"f","c":"b","d":"1"}"#, fetched.as_str()),
        (deepest.as_str(), BADLY_FORMED),
        (too_deep.as_str(), BADLY_FORMED),
        (r#"{"a":"f","c":"b","d":"1"}"#, fetched.as_str()),
    ];
    exchange(abort, alloc, &mut client, &texts);
}
