//! The dump of a world.
ghost use Rattle.std.specs.Prelude.{◌≡◌, ◌≢◌, [], map, OnOk, OnErr, IfOk, IfSome, IsErrOf};
ghost use Rattle.sdb_lines.specs.Lines.{readable_text, lines_of};
ghost use Rattle.sdb_lines.specs.Streams.{ReadFaultIsCounted, WriteFaultIsCounted};
ghost use Rattle.sdb_dump.specs.WriteModel.{HasEntryCount, WroteDump, WroteDumpPrefix};
ghost use Rattle.sdb_steps.specs.WorldView.{one_step_of_world, sessions_of};
ghost use Rattle.sdb_steps.specs.Lines.{reading_step, is_step};
ghost use Rattle.sdb_steps.specs.Picks.{out_of_memory};
ghost use Rattle.sdb_steps.specs.View.{plain_step_answer};
ghost use Rattle.sdb_steps.specs.RunOutput.{StepWithoutAnswer, WroteWorldDump, WroteWorldDumpPrefix};

use crate::read::read_step;
use crate::step::StepAnswer;
use crate::world::World;
use sdb_dump::write_dump;
use sdb_lines::{LineHandler, LineProgress, RunFault, Sink, Source, run_lines};
use sdb_wire::refusal_code;
use std::alloc::{AllocError, Global};

/// Writes the dump of the world's logs, flushes it, and returns its number of entries.
///
/// # Errors
///
/// [`RunFault::OutOfMemory`] if an allocation fails, or the fault of a write or flush that failed.
/// The bytes written are then a prefix of the dump.
pub fn dump<W: Sink>(alloc: Global, world: &World, writer: &mut W) -> Result<u128, RunFault>
    ensures wrote_all { OnOk result
        (WroteDump (one_step_of_world world.now).logs (W.bytes_written writer.old) (W.bytes_written writer.new)) }
    ensures entries { IfOk result (λ n. HasEntryCount (one_step_of_world world.now).logs n) }
    // After a fault, a prefix of the dump was written, possibly empty.
    ensures prefix_on_err { OnErr result
        (WroteDumpPrefix (one_step_of_world world.now).logs (W.bytes_written writer.old) (W.bytes_written writer.new)) }
    // No write or flush failed, except the one that is the fault.
    ensures write_failures { WriteFaultIsCounted result (W.failures writer.old) (W.failures writer.new) }
    ensures never_read_failed { IsErrOf result RunFault.ReadFailed → ⊥ }
{
    write_dump(alloc, world, writer)
}

// A world that runs lines without writing answers, until a step fails to allocate.
#[derive(Drop)]
struct SilentRunner {
    world: World,
}

impl LineHandler for SilentRunner {
    ghost use Rattle.sdb_steps.specs.declared.world_dump.SilentRunner.{SilentRunner as Runner};

    ghost State = { Runner };

    ghost state = { λ w. w };

    ghost opening = { λ w. [] };

    ghost handles = { λ w line answer v. StepWithoutAnswer (reading_step line)
        (one_step_of_world w.world) (sessions_of w.world) answer (one_step_of_world v.world) (sessions_of v.world) };

    // No answer is appended.
    ghost is_answering = { λ w line bytes v. ⊥ };

    ghost parts_left = { λ w. 0 };

    ghost counts_as_step = { is_step };

    fn write_opening(&self, _alloc: Global, _out: &mut Vec<u8>) -> Result<(), AllocError> {
        Ok(())
    }

    fn handle(
        &mut self,
        alloc: Global,
        line: &str,
        _out: &mut Vec<u8>,
    ) -> Result<LineProgress, AllocError> {
        match read_step(alloc, line) {
            Ok(step) => {
                check_allocated(&self.world.step(step))?;
                Ok(LineProgress::done(true))
            }
            Err(code) => {
                refusal_code(code)?;
                Ok(LineProgress::done(false))
            }
        }
    }

    fn continue_answer(&mut self, _alloc: Global, _out: &mut Vec<u8>) -> Result<bool, AllocError> {
        Ok(true)
    }

    fn handle_unreadable(&mut self, _alloc: Global, _out: &mut Vec<u8>) -> Result<(), AllocError> {
        Ok(())
    }
}

// Fails if the step failed to allocate.
fn check_allocated(answer: &StepAnswer) -> Result<(), AllocError>
    ensures ok { OnOk result (plain_step_answer answer.now ≢ out_of_memory) }
    ensures err { OnErr result (plain_step_answer answer.now ≡ out_of_memory) }
{
    match answer {
        StepAnswer::OutOfMemory => Err(AllocError),
        _ => Ok(()),
    }
}

/// Runs the lines of a reader as [`run`](crate::run) does, without writing answers, and then writes
/// the dump of the logs. Returns the dump's number of entries. No step failed to allocate.
///
/// # Errors
///
/// [`RunFault::OutOfMemory`] if an allocation fails, also that of a step, or the fault of a read or
/// write that failed. The bytes written are a prefix of the dump, possibly empty.
pub fn run_dump<R: Source, W: Sink>(
    alloc: Global,
    reader: &mut R,
    writer: &mut W,
) -> Result<u128, RunFault>
    ensures wrote_all { IfOk result (λ n. IfSome (R.remaining_input reader.old) (λ input.
        WroteWorldDump (map readable_text (lines_of input)) (W.bytes_written writer.old)
        (W.bytes_written writer.new) n)) }
    // After a fault, a prefix of the dump was written, possibly empty.
    ensures prefix_on_err { OnErr result (IfSome (R.remaining_input reader.old) (λ input.
        WroteWorldDumpPrefix (map readable_text (lines_of input)) (W.bytes_written writer.old)
        (W.bytes_written writer.new))) }
    // No read, write or flush failed, except the one that is the fault.
    ensures read_failures { ReadFaultIsCounted result (R.calls reader.old) (R.failures reader.old)
        (R.calls reader.new) (R.failures reader.new) }
    ensures write_failures { WriteFaultIsCounted result (W.failures writer.old) (W.failures writer.new) }
{
    let mut machine = SilentRunner {
        world: World::new(alloc)?,
    };
    run_lines(alloc, &mut machine, reader, writer)?;
    dump(alloc, &machine.world, writer)
}
