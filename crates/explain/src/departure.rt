//! The explanation of a log that isn't its program's.

ghost use Rattle.std.specs.Prelude.{◌≡◌, ◌<◌, ◌≤◌, ◌+◌, ◌*◌, ℕ, IfOk, IfSome, IsSome, length, map, option_map, slice_get, slice_index};
ghost use Rattle.core_program.specs.Answers.{line_in_set};
ghost use Rattle.core_program.specs.Running.{IsAtRest, next_op, state_after};
ghost use Rattle.core_program.specs.State.{State, reg};
ghost use Rattle.log_record.specs.Entries.{operation_of};
ghost use Rattle.verdict.specs.CoreFaultsOf.{given};
ghost use Rattle.explain.specs.LogFaults.{IsDeparture, IsDepartureBy};
ghost use Rattle.explain.specs.ProgramOf.{program_of};
ghost use Rattle.explain.specs.inner.CoreLog.{records_of, IsLogOf};

use super::around::entries_around;
use super::explanation::{Departure, Due};
use core_program::{Program, ProgramSet, ProgramState, Register};
use log_record::Entry;
use mem_op::{CoreId, OpId, Word};
use std::alloc::{AllocError, Global};

/// Where a core is in its program after these records.
fn state_after(program: &Program, log: &[Entry]) -> ProgramState
    ensures rests { IsAtRest program.now result }
    ensures follows { (state : State)
        → state_after program.now (map operation_of (records_of log.now)) ≡ Some state → result ≡ state }
{
    let mut state = ProgramState::new(program);
    for item in log {
        if state.next_op(program).is_none() {
            break;
        }
        state.answer(program, item.logged.word_answered());
    }
    state
}

/// The line in the file of the programs of a core's first instruction: a line comes before all sections, and one before
/// the instructions of each.
fn first_line(programs: &ProgramSet, core: CoreId) -> u64
    ensures line { result ≡ line_in_set programs.now.programs core 1 }
    ensures small { result ≤ 3 + 64 * 4097 }
{
    let mut line = 3;
    for number in 0..core.get() as usize {
        if let Some(program) = programs.get(CoreId::at(number)) {
            line += program.instructions().len() as u64 + 1;
        }
    }
    line
}

/// What a core's program does next, from this state on; none at its end.
fn due(programs: &ProgramSet, core: CoreId, program: &Program, state: &ProgramState) -> Option<Due>
    requires { IsAtRest program.now state.now }
    ensures op { option_map (λ due. due.op) result ≡ next_op program.now state.now }
    ensures instruction { option_map (λ due. due.instruction) result
        ≡ slice_get program.now state.now.position }
    ensures line { IfSome result (λ due. due.line
        ≡ line_in_set programs.now.programs core (state.now.position + 1)) }
{
    let op = state.next_op(program)?;
    let instruction = program.instructions().get(state.position())?;
    Some(Due {
        line: first_line(programs, core) + state.position() as u64,
        instruction: *instruction,
        op,
    })
}

/// What the registers hold.
fn registers(state: &ProgramState) -> [Word; 16]
    ensures { (n : ℕ) → n < 16 → slice_index result n ≡ reg state.now n }
{
    let mut words = [0; 16];
    for number in 0..16usize {
        if let Some(register) = Register::new(number as u64) {
            words[number] = state.reg(register);
        }
    }
    words
}

/// The entry at an index; none at the end.
fn found_at(log: &[Entry], index: usize) -> Option<Entry>
    ensures { result ≡ slice_get log.now index }
{
    log.get(index).copied()
}

/// What stands at this id, which is at most just past the end of its log, and what its core's program does there.
fn departure_from(
    alloc: Global,
    programs: &ProgramSet,
    program: &Program,
    log: &[Entry],
    id: OpId,
) -> Result<Departure, AllocError>
    requires there { slice_get programs.now.programs id.core ≡ Some program.now }
    requires inside { id.index ≤ length log.now }
    requires whole { IsLogOf id.core log.now }
    ensures { IfOk result (IsDeparture programs.now.programs (records_of log.now) id) }
{
    let index = id.index.get() as usize;
    let state = state_after(program, &log[..index]);
    Ok(Departure {
        id,
        found: found_at(log, index),
        due: due(programs, id.core, program, &state),
        registers: registers(&state),
        rows: entries_around(alloc, log, index)?,
    })
}

/// What stands at this id, and what its core's program does there; none if that core has no program, or its log ends
/// before.
pub(crate) fn departure(
    alloc: Global,
    programs: Option<&ProgramSet>,
    log: &[Entry],
    id: OpId,
) -> Result<Option<Departure>, AllocError>
    requires { IsLogOf id.core log.now }
    ensures found { IfOk result (λ o. IfSome o (IsDepartureBy (given programs.entry) (records_of log.now) id)) }
    ensures explained { IfOk result (λ o. IsSome (program_of (given programs.entry) id.core)
        → id.index ≤ length log.now → IsSome o) }
{
    let Some(programs) = programs else {
        return Ok(None);
    };
    let Some(program) = programs.get(id.core) else {
        return Ok(None);
    };
    if id.index.get() as usize > log.len() {
        return Ok(None);
    }
    Ok(Some(departure_from(alloc, programs, program, log, id)?))
}
