//! The execution of commands.
ghost use Rattle.std.specs.Prelude.{IfOk, Some, option_map, string_bytes};
ghost use Rattle.sdb_client_main.specs.Commands.{send_edit, process_entry};
ghost use Rattle.sdb_client_main.specs.Outcome.{IsOutcome};
ghost use Rattle.sdb_client_main.specs.View.{plain_command, sourced_client};

use crate::command::ClientCommand;
use crate::fault::CommandFault;
use sdb_client::ReferenceClient;
use sdb_oplog::{Content, Entry, Moment, Submission};
use std::alloc::{AllocError, Global};

// Executes a command on the client, if there is one. Returns why it isn't executed; the client is
// then unchanged.
pub(crate) fn execute(
    alloc: Global,
    client: &mut Option<ReferenceClient>,
    command: ClientCommand,
) -> Result<Option<CommandFault>, AllocError>
    ensures { IfOk result (λ fault. IsOutcome (plain_command command) (option_map sourced_client client.old) fault
        (option_map sourced_client client.new)) }
{
    match command {
        ClientCommand::Start {
            source,
            version,
            next_seq,
            document,
        } => {
            let started = ReferenceClient::new(alloc, source, version, document, next_seq);
            *client = Some(started);
            Ok(None)
        }
        ClientCommand::Edit(op) => match client {
            None => Ok(Some(CommandFault::NoClient)),
            Some(client) => {
                client.make_edit(op)?;
                Ok(None)
            }
        },
        ClientCommand::Send => match client {
            None => Ok(Some(CommandFault::NoClient)),
            Some(client) => Ok(send(client)),
        },
        ClientCommand::Process {
            source,
            seq,
            content,
        } => match client {
            None => Ok(Some(CommandFault::NoClient)),
            Some(client) => process(alloc, client, source, seq, content),
        },
    }
}

fn send(client: &mut ReferenceClient) -> Option<CommandFault>
    ensures { IsOutcome send_edit (Some (sourced_client client.old)) result (Some (sourced_client client.new)) }
{
    match client.send() {
        Ok(_) => None,
        Err(fault) => Some(CommandFault::Send(fault)),
    }
}

// Processes an entry at the client's version.
fn process(
    alloc: Global,
    client: &mut ReferenceClient,
    source: String,
    seq: u64,
    content: Content,
) -> Result<Option<CommandFault>, AllocError>
    ensures { IfOk result (λ fault. IsOutcome (process_entry (string_bytes source) seq content)
        (Some (sourced_client client.old)) fault (Some (sourced_client client.new))) }
{
    let submission = Submission::new(alloc, source, seq, None, content, String::new(alloc), 0)?;
    let entry = Entry::new(client.version(), Moment::zero(), None, submission);
    match client.process(&entry) {
        Ok(()) => Ok(None),
        Err(fault) => Ok(Some(CommandFault::Process(fault))),
    }
}
