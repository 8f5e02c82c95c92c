//! The handler of the lines.
ghost use Rattle.std.specs.Prelude.{◌≡◌, ◌++◌, [], None, OnOk, option_map};
ghost use Rattle.std.specs.declared.option.Option.{Option};
ghost use Rattle.sdb_lines.specs.Runs.{AppendsWhere};
ghost use Rattle.sdb_client_main.specs.Commands.{SourcedClient};
ghost use Rattle.sdb_client_main.specs.Outcome.{ExecutesCommand, HandlesCommandLine};
ghost use Rattle.sdb_client_main.specs.Reading.{is_command};
ghost use Rattle.sdb_client_main.specs.View.{plain_command, sourced_client};

use crate::command::{ClientCommand, read_command};
use crate::execute::execute;
use crate::write_answer::{write_badly_formed, write_outcome};
use sdb_client::ReferenceClient;
use sdb_lines::{LineHandler, LineProgress};
use sdb_wire::refusal_code;
use std::alloc::{AllocError, Global};

/// The client that the lines start and change.
#[derive(Drop)]
pub(crate) struct ClientRunner {
    client: Option<ReferenceClient>,
}

impl ClientRunner {
    pub(crate) fn new() -> ClientRunner
        ensures { option_map sourced_client result.client ≡ None }
    {
        ClientRunner { client: None }
    }

    // Executes the command and appends the answer.
    fn answer(
        &mut self,
        alloc: Global,
        command: ClientCommand,
        out: &mut Vec<u8>,
    ) -> Result<(), AllocError>
        ensures { OnOk result (AppendsWhere out.old.items out.new.items (λ bytes.
            ExecutesCommand (plain_command command) (option_map sourced_client self.old.client) bytes
            (option_map sourced_client self.new.client))) }
    {
        let fault = execute(alloc, &mut self.client, command)?;
        write_outcome(alloc, fault, self.client.as_ref(), out)
    }
}

impl LineHandler for ClientRunner {
    ghost State = { Option SourcedClient };

    ghost state = { λ r. option_map sourced_client r.client };

    ghost opening = { λ r. [] };

    ghost handles = { HandlesCommandLine };

    // Each answer is appended whole.
    ghost is_answering = { λ c line bytes r. ⊥ };

    ghost parts_left = { λ r. 0 };

    ghost counts_as_step = { is_command };

    fn write_opening(&self, _alloc: Global, _out: &mut Vec<u8>) -> Result<(), AllocError> {
        Ok(())
    }

    fn handle(
        &mut self,
        alloc: Global,
        line: &str,
        out: &mut Vec<u8>,
    ) -> Result<LineProgress, AllocError> {
        match read_command(alloc, line) {
            Ok(command) => {
                self.answer(alloc, command, out)?;
                Ok(LineProgress::done(true))
            }
            Err(code) => {
                refusal_code(code)?;
                write_badly_formed(alloc, out)?;
                Ok(LineProgress::done(false))
            }
        }
    }

    fn continue_answer(&mut self, _alloc: Global, _out: &mut Vec<u8>) -> Result<bool, AllocError> {
        Ok(true)
    }

    fn handle_unreadable(&mut self, alloc: Global, out: &mut Vec<u8>) -> Result<(), AllocError> {
        write_badly_formed(alloc, out)
    }
}
