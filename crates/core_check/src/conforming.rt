//! Whether a core's log conforms to its program.

ghost use Rattle.std.specs.Prelude.{◌≡◌, ◌↔◌, ◌≤◌, None, IfSome, length, map};
ghost use Rattle.core_program.specs.Conforming.{Conforms, DiffersAt, program_fault};
ghost use Rattle.core_program.specs.Running.{is_issued};
ghost use Rattle.log_record.specs.Entries.{operation_of};

use super::logged::Logged;
use core_program::{Program, ProgramState};
use log_record::{Act, Record};
use mem_op::Op;

/// The least index of a log at which the record isn't the operation that the program issues there,
/// given the words that the loads and swaps before it read by the log; the log's length if it ends
/// before the program; none if the log conforms to the program. Takes no memory.
pub fn conforms<L: Logged>(program: &Program, log: &[L]) -> Option<usize>
    ensures fault { result ≡ program_fault program.now (map operation_of (L.records_of log.now)) }

    // None comes exactly if a path of the program allows the log.
    ensures conforms { (result ≡ None) ↔ Conforms program.now (map operation_of (L.records_of log.now)) }
    ensures differs { IfSome result (DiffersAt program.now (map operation_of (L.records_of log.now))) }

    ensures within { IfSome result (λ i. i ≤ length (L.records_of log.now)) }
    ensures few { IfSome result (λ i. i ≤ 4096) }
{
    // This keeps the index small.
    prove!(program.instructions().len() <= 4_096);
    let mut state = ProgramState::new(program);
    for (i, item) in log.iter().enumerate() {
        let logged = item.logged();
        if !is_issued(&state.next_op(program), logged) {
            return Some(i);
        }
        state.answer(program, logged.word_answered());
    }
    match state.next_op(program) {
        Some(_) => Some(log.len()),
        None => None,
    }
}

// Whether a record is that of the issued operation.
fn is_issued(issued: &Option<Op>, logged: &Record) -> bool
    ensures { result ≡ is_issued issued.now (operation_of logged.now) }
{
    match (issued, logged.act()) {
        (Some(Op::Load(addr)), Act::Load(_)) => *addr == logged.addr,
        (Some(Op::Store(addr, value)), Act::Store) => {
            *addr == logged.addr && *value == logged.value
        }
        (Some(Op::Swap(addr, value)), Act::Swap(..)) => {
            *addr == logged.addr && *value == logged.value
        }
        _ => false,
    }
}
