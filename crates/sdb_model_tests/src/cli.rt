//! Tests of `sdb_cli`: the messages for faults and refusals.
use sdb_cli::terminal::TerminalBuffer;
use sdb_cli::{STATUS_FAULT, STATUS_USAGE, exit_status, print_refusal};
use sdb_lines::RunFault;

// Returns whether the terminal has this standard output and this standard error.
fn is_printed(terminal: TerminalBuffer, out: &str, err: &str) -> bool {
    terminal.out.into_inner().as_str() == out && terminal.err.into_inner().as_str() == err
}

#[test]
fn a_fault_is_printed_to_standard_output(rt: HostRuntime) {
    for (fault, printed) in [
        (RunFault::ReadFailed, "fault: read\n"),
        (RunFault::WriteFailed, ""),
        (RunFault::OutOfMemory, "fault: memory\n"),
    ] {
        let terminal = TerminalBuffer::new(rt.alloc());
        assert!(rt;
            exit_status(&terminal, fault) == STATUS_FAULT && is_printed(terminal, printed, ""),
            "{printed}"
        );
    }
}

#[test]
fn a_refusal_is_one_line_on_standard_error(rt: HostRuntime) {
    let terminal = TerminalBuffer::new(rt.alloc());
    let status = print_refusal(&terminal, "error: no\nmore of it").ok();
    assert!(rt; status == Some(STATUS_USAGE) && is_printed(terminal, "", "error: no\n"));
}
