//! Runs of steps, from a list and from lines.
ghost use Rattle.std.specs.Prelude.{◌≡◌, ℕ, ◌++◌, [], true, map, List, OnOk, OnErr, IfOk, IfSome};
ghost use Rattle.sdb_lines.specs.Counts.{AreCountsOf};
ghost use Rattle.sdb_lines.specs.Lines.{readable_text, lines_of};
ghost use Rattle.sdb_lines.specs.Streams.{ReadFaultIsCounted, WriteFaultIsCounted};
ghost use Rattle.sdb_oplog.specs.Decide.{IsMade};
ghost use Rattle.sdb_oplog.specs.Keys.{PlainKey};
ghost use Rattle.sdb_oplog.specs.Snap.{are_identifiers_new};
ghost use Rattle.sdb_steps.specs.TakeContinuation.{TakesContinue};
ghost use Rattle.sdb_steps.specs.WorldView.{one_step_of_world, sessions_of, caches_of_world};
ghost use Rattle.sdb_desk.specs.ShardState.{AreCachesOf};
ghost use Rattle.sdb_steps.specs.Lines.{reading_step, is_step, line_of, step_refusal_text};
ghost use Rattle.sdb_steps.specs.OneStep.{Event, Legal};
ghost use Rattle.sdb_steps.specs.Picks.{Picks, replies_in};
ghost use Rattle.sdb_steps.specs.Placement.{SubmissionsArePlaced};
ghost use Rattle.sdb_steps.specs.ReplayLaws.{ReadsAreReplays};
ghost use Rattle.sdb_steps.specs.Runs.{IsRun};
ghost use Rattle.sdb_steps.specs.TakenEntries.{QueuesTakeAll};
ghost use Rattle.sdb_steps.specs.View.{plain_session_step, plain_step_answer};
ghost use Rattle.sdb_steps.specs.RunOutput.{StepOrRefusal, WroteRun, WroteRunPrefix};

use crate::laws::{
    logs_are_made, queues_take_all, reads_are_replays, stored_once, submissions_are_placed,
    takes_continue,
};
use crate::read::read_step;
use crate::step::{Step, StepAnswer};
use crate::world::World;
use crate::write_answer::{write_refusal, write_step_answer};
use sdb_lines::{Counts, LineHandler, LineProgress, RunFault, Sink, Source, run_lines};
use sdb_oplog::Code;
use sdb_wire::refusal_code;
use std::alloc::{AllocError, Global};

/// The answers to steps, one for each, and the world after them.
#[derive(Drop)]
pub struct Ran {
    pub answers: Vec<StepAnswer>,
    pub world: World,
}

/// Runs the steps in order on a new world. A step that fails to allocate is answered E10.
///
/// # Errors
///
/// [`AllocError`] if an allocation for the world or for the list of answers fails.
///
/// ```
/// let step = read_step(alloc, r#"{"s":0,"do":"commit"}"#)?;
/// let ran = run_steps(alloc, &[step])?;
/// assert!(rt; matches!(ran.answers.as_slice(), [StepAnswer::Idle]));
/// ```
pub fn run_steps(alloc: Global, steps: &[Step]) -> Result<Ran, AllocError>
    // Replies and logs are those of the reference machine: a deciding commit is one step.
    ensures headline { IfOk result (λ ran. (events : List Event)
        × Picks (map plain_session_step steps.now) (map plain_step_answer ran.answers.items) events
        (sessions_of ran.world)
        × Legal events (replies_in (map plain_step_answer ran.answers.items)) (one_step_of_world ran.world).logs) }
    // The machine and the sessions at the end, from which a longer run can continue.
    ensures goes_on { IfOk result (λ ran.
        IsRun (map plain_session_step steps.now) (map plain_step_answer ran.answers.items)
        (one_step_of_world ran.world) (sessions_of ran.world)) }
    // Each entry of each log is the one that its submission stores on the entries before it.
    ensures made { IfOk result (λ ran. (k : PlainKey) → IsMade ((one_step_of_world ran.world).logs k)) }
    // Each cached snapshot is the document at its version.
    ensures cached { IfOk result (λ ran. AreCachesOf (one_step_of_world ran.world).logs (caches_of_world ran.world)) }
    // No two entries of a log have the same source and seq.
    ensures once { IfOk result (λ ran. (k : PlainKey)
        → are_identifiers_new [] ((one_step_of_world ran.world).logs k) ≡ true) }
    // Each commit returned the first version in the final log with its source and seq.
    ensures placed { IfOk result (λ ran.
        SubmissionsArePlaced (map plain_session_step steps.now) (map plain_step_answer ran.answers.items)
        (one_step_of_world ran.world).logs) }
    // Each read returned the replay of a prefix of the final log.
    ensures replays { IfOk result (λ ran.
        ReadsAreReplays (map plain_session_step steps.now) (map plain_step_answer ran.answers.items)
        (one_step_of_world ran.world).logs) }
    // Each take returned the entries that follow those of its queue's last take.
    ensures continued { IfOk result (λ ran.
        TakesContinue (map plain_session_step steps.now) (map plain_step_answer ran.answers.items)
        (one_step_of_world ran.world).logs) }
    // Each open queue has read the entries from its start on, in order and without gaps.
    ensures taken { IfOk result (λ ran.
        QueuesTakeAll (map plain_session_step steps.now) (map plain_step_answer ran.answers.items)
        (sessions_of ran.world)
        (one_step_of_world ran.world).logs) }
{
    let mut world = World::new(alloc)?;
    let mut answers = Vec::new(alloc);
    for step in steps {
        answers.push(world.apply_step(step))?;
    }
    logs_are_made();
    stored_once();
    submissions_are_placed();
    reads_are_replays();
    takes_continue();
    queues_take_all();
    Ok(Ran { answers, world })
}

impl LineHandler for World {
    ghost use Rattle.sdb_steps.specs.declared.world.World.{World as WorldState};

    ghost State = { WorldState };

    ghost state = { λ w. w };

    ghost opening = { λ w. [] };

    ghost handles = { λ w line answer v.
        StepOrRefusal (reading_step line) (one_step_of_world w) (sessions_of w) answer (one_step_of_world v)
        (sessions_of v) };

    // Each answer is appended whole.
    ghost is_answering = { λ w line bytes v. ⊥ };

    ghost parts_left = { λ w. 0 };

    ghost counts_as_step = { is_step };

    fn write_opening(&self, _alloc: Global, _out: &mut Vec<u8>) -> Result<(), AllocError> {
        Ok(())
    }

    fn handle(
        &mut self,
        alloc: Global,
        line: &str,
        out: &mut Vec<u8>,
    ) -> Result<LineProgress, AllocError> {
        match read_step(alloc, line) {
            Ok(step) => {
                let session = step.session();
                let answer = self.step(step);
                write_step_answer(alloc, session, &answer, out)?;
                out.push(b'\n')?;
                Ok(LineProgress::done(true))
            }
            Err(code) => {
                write_unreadable(alloc, refusal_code(code)?, out)?;
                Ok(LineProgress::done(false))
            }
        }
    }

    fn continue_answer(&mut self, _alloc: Global, _out: &mut Vec<u8>) -> Result<bool, AllocError> {
        Ok(true)
    }

    fn handle_unreadable(&mut self, alloc: Global, out: &mut Vec<u8>) -> Result<(), AllocError> {
        write_unreadable(alloc, Code::E1, out)
    }
}

// Writes the answer to a line that is no step.
fn write_unreadable(alloc: Global, code: Code, out: &mut Vec<u8>) -> Result<(), AllocError>
    ensures { OnOk result (out.new.items ≡ out.old.items ++ line_of (step_refusal_text code)) }
{
    write_refusal(alloc, code, out)?;
    out.push(b'\n')?;
    Ok(())
}

/// Runs the lines of a reader on a new world and writes one answer for each. A line is a step, or
/// it is refused with its code.
///
/// - An empty line, a line that isn't UTF-8 and a line of more than 1,048,576 bytes are answered
///   E1. Bytes after the last line feed are a line, unless there are none.
/// - The answers to all lines read so far are written and flushed before the next read. No clause
///   states this; tests check it.
/// - At most 2^40 reads are made.
/// - The clauses state the bytes written if the reader and the writer reveal their bytes, as a
///   slice and a vector do.
/// - A step that fails to allocate is answered E10 and changes nothing, and the run continues.
/// - In the result, `lines` counts the lines and `steps` those that are steps.
///
/// # Errors
///
/// [`RunFault::OutOfMemory`] if an allocation for a line or an answer fails, or the fault of a read
/// or write that failed. The bytes written are then a prefix of the whole output.
pub fn run<R: Source, W: Sink>(
    alloc: Global,
    reader: &mut R,
    writer: &mut W,
) -> Result<Counts, RunFault>
    // One answer line for each line: the answers of the headline for steps, and the codes for the
    // others.
    ensures wrote_all { OnOk result (IfSome (R.remaining_input reader.old) (λ input.
        WroteRun (map readable_text (lines_of input)) (W.bytes_written writer.old) (W.bytes_written writer.new))) }
    ensures counts { IfOk result (λ counts. IfSome (R.remaining_input reader.old)
        (λ input. AreCountsOf is_step input counts)) }
    // After a fault, a prefix of that was written.
    ensures prefix_on_err { OnErr result (IfSome (R.remaining_input reader.old) (λ input.
        WroteRunPrefix (map readable_text (lines_of input)) (W.bytes_written writer.old)
        (W.bytes_written writer.new))) }
    // No read, write or flush failed, except the one that is the fault.
    ensures read_failures { ReadFaultIsCounted result (R.calls reader.old) (R.failures reader.old)
        (R.calls reader.new) (R.failures reader.new) }
    ensures write_failures { WriteFaultIsCounted result (W.failures writer.old) (W.failures writer.new) }
{
    let mut world = World::new(alloc)?;
    run_lines(alloc, &mut world, reader, writer)
}
