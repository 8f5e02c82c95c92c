//! The reasons why a command isn't executed.
ghost use Rattle.std.specs.Prelude.{◌≡◌};
ghost use Rattle.sdb_client_main.specs.Answers.{fault_text, process_fault_text, send_fault_text};

use sdb_client::{ProcessFault, SendFault};

/// The reason why a command isn't executed. The client is then unchanged.
#[derive(Clone, Copy, PartialEq, Eq, Debug, Drop)]
pub(crate) enum CommandFault {
    /// No client was started.
    NoClient,
    /// No edit can be sent.
    Send(SendFault),
    /// The entry can't be processed.
    Process(ProcessFault),
}

// The texts are those of `Display`, of which no clause can speak. A test compares them.
impl CommandFault {
    pub(crate) fn text(self) -> &'static str
        ensures { result.now ≡ fault_text self }
    {
        match self {
            CommandFault::NoClient => "no client",
            CommandFault::Send(fault) => send_fault_text(fault),
            CommandFault::Process(fault) => process_fault_text(fault),
        }
    }
}

fn send_fault_text(fault: SendFault) -> &'static str
    ensures { result.now ≡ send_fault_text fault }
{
    match fault {
        SendFault::SeqLimit => "too many edits",
        SendFault::OutOfMemory => "out of memory",
    }
}

fn process_fault_text(fault: ProcessFault) -> &'static str
    ensures { result.now ≡ process_fault_text fault }
{
    match fault {
        ProcessFault::NotProcessed => "entry can not be processed",
        ProcessFault::VersionLimit => "too many entries",
        ProcessFault::OutOfMemory => "out of memory",
    }
}
