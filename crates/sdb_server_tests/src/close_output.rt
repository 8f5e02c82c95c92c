//! Tests of the output and the exit status of a server whose input ends: the number of stored
//! documents, and the dump.
ghost use Rattle.std.specs.Prelude.{◌≡◌};
ghost use Rattle.sdb_backend.specs.PassModel.{IsHostOfBackend, IsPassOfBackend};

use sdb_backend::{Audit, Backend, CloseRefused};
use sdb_cli::terminal::{ClosedStreams, TerminalBuffer};
use sdb_cli::{STATUS_FAULT, STATUS_OK};
use sdb_oplog::{Content, Key, Moment, Submission};
use sdb_server_cli::print_close;
use sdb_submit::{NoGate, submit};
use sdb_value::Json;
use std::alloc::Global;
use std::process::Abort;
use std::sync::Wait;

const DUMP: &str = r#"{"dump":2}
{"arrived":{"create":{"data":null,"type":"http://sharejs.org/types/JSONv0"},"v":null},"by":1,"c":"b","create":{"data":null,"type":"http://sharejs.org/types/JSONv0"},"d":"1","m":7,"seq":1,"src":"x","v":0,"via":"b"}
{"entries":1}
"#;

const STORED: &str = "ended: 1 documents, 1 operations\n";

fn text(rt: &impl Abort, alloc: Global, text: &str) -> String {
    String::from_str(alloc, text).expect(rt, "out of memory")
}

// Returns a submission of the pass of this number that creates the document null.
fn create(rt: &impl Abort, alloc: Global, by: u64) -> Submission
    ensures { result.by ≡ by }
{
    let content = Content::create(alloc, Json::Null).expect(rt, "out of memory");
    let (src, via) = (text(rt, alloc, "x"), text(rt, alloc, "b"));
    Submission::new(alloc, src, 1, None, content, via, by).expect(rt, "out of memory")
}

// Closes a backend that stores one document, with or without its pass.
fn close_with_one_document<R: Wait + Drop>(
    abort: &impl Abort,
    alloc: Global,
    rt: R,
    has_pass: bool,
) -> Result<Audit, CloseRefused<R>> {
    let (backend, mut host) = Backend::new(alloc, rt).expect(abort, "out of memory");
    let mut pass = backend.enter(&mut host).expect(abort, "a pass");
    let (collection, id) = (text(abort, alloc, "b"), text(abort, alloc, "1"));
    let key = Key { collection, id };
    let create = create(abort, alloc, pass.number());
    let now = Moment::new(7).expect(abort, "a moment");
    drop(submit(alloc, &backend, &mut pass, &key, create, now, &NoGate));
    let mut passes = Vec::new(alloc);
    if has_pass {
        passes.push(pass).expect(abort, "out of memory");
        return backend.close(host, passes);
    }
    backend.close(host, passes)
}

// Returns the exit status, standard output and standard error.
fn printed<R: Drop>(
    rt: &impl Abort,
    alloc: Global,
    closed: Result<Audit, CloseRefused<R>>,
    is_dumping: bool,
) -> (u8, String, String) {
    let terminal = TerminalBuffer::new(alloc);
    let status = print_close(&terminal, closed, is_dumping).expect(rt, "a status");
    (status, terminal.out.into_inner(), terminal.err.into_inner())
}

#[test]
fn a_closed_server_prints_its_count_and_its_dump(rt: HostRuntime) {
    let alloc = rt.alloc();
    for (is_dumping, dump) in [(false, ""), (true, DUMP)] {
        let closed = close_with_one_document(&rt, alloc, rt, true);
        let (status, out, err) = printed(&rt, alloc, closed, is_dumping);
        assert!(rt; status == STATUS_OK && out.as_str() == dump && err.as_str() == STORED);
    }
}

#[test]
fn a_server_without_a_pass_prints_why(rt: HostRuntime) {
    let closed = close_with_one_document(&rt, rt.alloc(), rt, false);
    let (status, out, err) = printed(&rt, rt.alloc(), closed, true);
    assert!(rt; status == STATUS_FAULT && out.is_empty());
    assert!(rt;
        err.as_str() == "error: the number of stored operations is unavailable: a pass is missing\n"
    );
}

#[test]
fn a_dump_that_is_not_written_ends_with_status_1(rt: HostRuntime) {
    let alloc = rt.alloc();
    for (is_dumping, wanted) in [(false, STATUS_OK), (true, STATUS_FAULT)] {
        let output = ClosedStreams::new(alloc);
        let closed = close_with_one_document(&rt, alloc, rt, true);
        let status = print_close(&output, closed, is_dumping).expect(&rt, "a status");
        let err = output.err.into_inner();
        assert!(rt; status == wanted && err.as_str() == STORED);
    }
}
