//! Commands, and their parser.
ghost use Rattle.std.specs.Prelude.{◌≡◌, Ok, IfOk, IfErr};
ghost use Rattle.sdb_oplog.specs.Refusal.{IsRefusalOrOutOfMemory};
ghost use Rattle.sdb_client_main.specs.Reading.{start_of, edit_of, entry_command_of, command_of, read_command};
ghost use Rattle.sdb_client_main.specs.View.{plain_command};

use sdb_component::Op;
use sdb_json::{JsonData, Scratch};
use sdb_oplog::{Code, Content, Kind};
use sdb_value::Json;
use sdb_wire::{count_field, parse_tree, read_content, required_name};
use std::alloc::Global;

/// A command to the client.
#[derive(Drop)]
pub(crate) enum ClientCommand {
    /// Starts a new client with a document at a version.
    Start {
        source: String,
        version: u64,
        next_seq: u64,
        document: Json,
    },
    /// Makes an edit.
    Edit(Op),
    /// Sends the first pending edit.
    Send,
    /// Processes an entry at the client's version.
    Process {
        source: String,
        seq: u64,
        content: Content,
    },
}

/// Parses a line to a command.
///
/// # Errors
///
/// The first of [`Code::E1`] to [`Code::E3`] that applies, or [`Code::E10`] if an allocation fails.
pub(crate) fn read_command(alloc: Global, text: &str) -> Result<ClientCommand, Code>
    ensures ok { IfOk result (λ c. read_command text.now ≡ Ok (plain_command c)) }
    ensures err { IfErr result (λ code. IsRefusalOrOutOfMemory (read_command text.now) code) }
{
    let mut scratch = Scratch::new(alloc);
    match parse_tree(alloc, text, &mut scratch) {
        Ok(Some(value)) => command_of(alloc, &value),
        Ok(None) => Err(Code::E1),
        Err(error) => Err(Code::from(error)),
    }
}

fn command_of<D: JsonData>(alloc: Global, value: &D) -> Result<ClientCommand, Code>
    ensures ok { IfOk result (λ c. command_of (D.json value.now) ≡ Ok (plain_command c)) }
    ensures err { IfErr result (λ code. IsRefusalOrOutOfMemory (command_of (D.json value.now)) code) }
{
    match value.get("a").and_then(D::as_str) {
        Some("start") => start_of(alloc, value),
        Some("edit") => edit_of(alloc, value),
        Some("send") => Ok(ClientCommand::Send),
        Some("op") => entry_command_of(alloc, value),
        _ => Err(Code::E1),
    }
}

fn start_of<D: JsonData>(alloc: Global, value: &D) -> Result<ClientCommand, Code>
    ensures ok { IfOk result (λ c. start_of (D.json value.now) ≡ Ok (plain_command c)) }
    ensures err { IfErr result (λ code. IsRefusalOrOutOfMemory (start_of (D.json value.now)) code) }
{
    let Some(version) = count_field(value, "v") else {
        return Err(Code::E1);
    };
    let Some(next_seq) = count_field(value, "seq") else {
        return Err(Code::E1);
    };
    let source = required_name(alloc, value, "src")?;
    let content = read_content(alloc, value)?;
    match content.kind() {
        Kind::Create(document) => Ok(ClientCommand::Start {
            source,
            version,
            next_seq,
            document: document.try_clone(alloc)?,
        }),
        _ => Err(Code::E1),
    }
}

fn edit_of<D: JsonData>(alloc: Global, value: &D) -> Result<ClientCommand, Code>
    ensures ok { IfOk result (λ c. edit_of (D.json value.now) ≡ Ok (plain_command c)) }
    ensures err { IfErr result (λ code. IsRefusalOrOutOfMemory (edit_of (D.json value.now)) code) }
{
    let content = read_content(alloc, value)?;
    match content.kind() {
        Kind::Edit(op) => Ok(ClientCommand::Edit(op.try_clone(alloc)?)),
        _ => Err(Code::E1),
    }
}

fn entry_command_of<D: JsonData>(alloc: Global, value: &D) -> Result<ClientCommand, Code>
    ensures ok { IfOk result (λ c. entry_command_of (D.json value.now) ≡ Ok (plain_command c)) }
    ensures err { IfErr result (λ code. IsRefusalOrOutOfMemory (entry_command_of (D.json value.now)) code) }
{
    let Some(seq) = count_field(value, "seq") else {
        return Err(Code::E1);
    };
    let source = required_name(alloc, value, "src")?;
    let content = read_content(alloc, value)?;
    Ok(ClientCommand::Process {
        source,
        seq,
        content,
    })
}
