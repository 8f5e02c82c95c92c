//! The writer of answer lines.
ghost use Rattle.std.specs.Prelude.{◌≡◌, ◌∷◌, ◌++◌, [], IfOk, OnOk, option_map};
ghost use Rattle.json.specs.Print.{print};
ghost use Rattle.sdb_value.specs.ToJson.{data_tokens};
ghost use Rattle.sdb_value.specs.View.{value_of};
ghost use Rattle.sdb_client_model.specs.Client.{shown_document};
ghost use Rattle.sdb_client.specs.View.{client_of};
ghost use Rattle.sdb_client_main.specs.Answers.{answer_line, badly_formed_data, client_data, operations_data, outcome_data, refusal_data, sent_data, sent_edit_data, shown_data};

use crate::fault::CommandFault;
use json::Writer;
use sdb_client::{ReferenceClient, SentEdit};
use sdb_component::{Op, write_op};
use sdb_oplog::Code;
use sdb_value::{Json, write_value};
use sdb_wire::{refusal_code, write_count, write_text};
use std::alloc::{AllocError, Global};

// Appends the answer to a command: the client after it, or why it isn't executed.
pub(crate) fn write_outcome(
    alloc: Global,
    fault: Option<CommandFault>,
    client: Option<&ReferenceClient>,
    out: &mut Vec<u8>,
) -> Result<(), AllocError>
    ensures { OnOk result (out.new.items
        ≡ out.old.items ++ answer_line (outcome_data fault (option_map (λ c. client_of c.now) client.entry))) }
{
    let mut writer = Writer::new(Vec::new(alloc));
    write_outcome_data(alloc, fault, client, &mut writer)?;
    append_line(writer, out)
}

// Appends the answer to a line that is no command.
pub(crate) fn write_badly_formed(alloc: Global, out: &mut Vec<u8>) -> Result<(), AllocError>
    ensures { OnOk result (out.new.items ≡ out.old.items ++ answer_line badly_formed_data) }
{
    let mut writer = Writer::new(Vec::new(alloc));
    write_error("badly formed", &mut writer)?;
    append_line(writer, out)
}

// Appends what is written, and a line feed.
fn append_line(writer: Writer, out: &mut Vec<u8>) -> Result<(), AllocError>
    requires { writer.before ≡ [] }
    ensures { OnOk result (out.new.items ≡ out.old.items ++ print writer.tokens ++ 10 ∷ []) }
{
    let text = writer.into_inner();
    out.extend_from_slice(text.as_slice())?;
    out.push(b'\n')?;
    Ok(())
}

fn write_outcome_data(
    alloc: Global,
    fault: Option<CommandFault>,
    client: Option<&ReferenceClient>,
    out: &mut Writer,
) -> Result<(), AllocError>
    ensures tokens { OnOk result (out.new.tokens
        ≡ out.old.tokens ++ data_tokens (outcome_data fault (option_map (λ c. client_of c.now) client.entry))) }
    ensures before_unchanged { out.new.before ≡ out.old.before }
{
    match fault {
        Some(fault) => write_error(fault.text(), out),
        None => match client {
            Some(client) => write_client(alloc, client, out),
            None => write_error(CommandFault::NoClient.text(), out),
        },
    }
}

fn write_error(text: &str, out: &mut Writer) -> Result<(), AllocError>
    ensures tokens { OnOk result (out.new.tokens ≡ out.old.tokens ++ data_tokens (refusal_data text.now)) }
    ensures before_unchanged { out.new.before ≡ out.old.before }
{
    out.begin_object()?;
    write_text("error", text, out)?;
    out.end_object()
}

fn write_client(alloc: Global, client: &ReferenceClient, out: &mut Writer) -> Result<(), AllocError>
    ensures tokens { OnOk result (out.new.tokens
        ≡ out.old.tokens ++ data_tokens (client_data (client_of client.now))) }
    ensures before_unchanged { out.new.before ≡ out.old.before }
{
    out.begin_object()?;
    out.key("data")?;
    write_value(client.document(), out)?;
    out.key("pending")?;
    write_operations(client.pending(), out)?;
    write_count("seq", client.next_seq(), out)?;
    out.key("sent")?;
    write_sent(client.sent(), out)?;
    out.key("shown")?;
    write_shown(alloc, client, out)?;
    write_count("v", client.version(), out)?;
    out.end_object()
}

fn write_operations(operations: &[Op], out: &mut Writer) -> Result<(), AllocError>
    ensures tokens { OnOk result (out.new.tokens
        ≡ out.old.tokens ++ data_tokens (operations_data operations.now)) }
    ensures before_unchanged { out.new.before ≡ out.old.before }
{
    out.begin_array()?;
    for op in operations {
        write_op(op, out)?;
    }
    out.end_array()
}

fn write_sent(sent: Option<&SentEdit>, out: &mut Writer) -> Result<(), AllocError>
    ensures tokens { OnOk result (out.new.tokens
        ≡ out.old.tokens ++ data_tokens (sent_data (option_map (λ t. t.now) sent.entry))) }
    ensures before_unchanged { out.new.before ≡ out.old.before }
{
    match sent {
        Some(sent) => write_sent_edit(sent, out),
        None => out.null(),
    }
}

fn write_sent_edit(sent: &SentEdit, out: &mut Writer) -> Result<(), AllocError>
    ensures tokens { OnOk result (out.new.tokens ≡ out.old.tokens ++ data_tokens (sent_edit_data sent.now)) }
    ensures before_unchanged { out.new.before ≡ out.old.before }
{
    out.begin_object()?;
    out.key("op")?;
    write_op(sent.operation(), out)?;
    write_count("seq", sent.seq(), out)?;
    write_count("v", sent.base(), out)?;
    out.end_object()
}

fn write_shown(alloc: Global, client: &ReferenceClient, out: &mut Writer) -> Result<(), AllocError>
    ensures tokens { OnOk result (out.new.tokens
        ≡ out.old.tokens ++ data_tokens (shown_data (shown_document (client_of client.now)))) }
    ensures before_unchanged { out.new.before ≡ out.old.before }
{
    match shown_value(alloc, client)? {
        Some(shown) => write_value(&shown, out),
        None => out.null(),
    }
}

// Returns what the client shows, or `None` if a pending edit doesn't apply.
fn shown_value(alloc: Global, client: &ReferenceClient) -> Result<Option<Json>, AllocError>
    ensures { IfOk result (λ d. option_map value_of d ≡ shown_document (client_of client.now)) }
{
    match client.shown() {
        Ok(shown) => Ok(Some(shown)),
        Err(fault) => {
            refusal_code(Code::from(fault))?;
            Ok(None)
        }
    }
}
