//! The operations of the cores, in numbers.

ghost use Rattle.std.specs.Prelude.{◌≡◌, ◌≤◌, All, IsErrOf, MatchOption, MatchResult, length};
ghost use Rattle.tardis_c.specs.Faults.{AreOperations, IsFaultOf, IsFirstBad, IsFirstFault};
ghost use Rattle.tardis_c.specs.Parts.{AreEnds, parts_of};

use super::in_numbers::InNumbers;
use super::operations_fault::OperationsFault;

/// The most operations of a core.
const MOST_OPERATIONS: usize = 1_048_576;

/// The index of the first operation that isn't in range.
fn first_bad<T: InNumbers>(operations: &[T]) -> Option<usize>
    ensures { MatchOption result (All T.in_range operations.now) (IsFirstBad T.in_range operations.now) }
{
    for index in 0..operations.len() {
        if !operations[index].is_in_range() {
            return Some(index);
        }
    }
    None
}

/// Ok if these can be the operations of a core.
fn check_part<T: InNumbers>(core: usize, operations: &[T]) -> Result<(), OperationsFault>
    ensures { MatchResult result (λ _. AreOperations T.in_range operations.now) (IsFaultOf T.in_range core operations.now) }
{
    if operations.len() > MOST_OPERATIONS {
        return Err(OperationsFault::TooMany { core });
    }
    match first_bad(operations) {
        Some(index) => Err(OperationsFault::OutOfRange { core, index }),
        None => Ok(()),
    }
}

/// Ok if each part can be the operations of its core. Takes no memory.
pub(crate) fn check_parts<T: InNumbers>(
    operations: &[T],
    ends: &[usize],
) -> Result<(), OperationsFault>
    requires { AreEnds operations.now ends.now }
    ensures parts { MatchResult result
        (λ _. All (AreOperations T.in_range) (parts_of operations.now ends.now))
        (IsFirstFault T.in_range (parts_of operations.now ends.now)) }
    ensures memory { ¬ IsErrOf result OperationsFault.OutOfMemory }
{
    let mut from = 0;
    for core in 0..ends.len() {
        let end = ends[core];
        match check_part(core, &operations[from..end]) {
            Ok(()) => {}
            Err(fault) => return Err(fault),
        }
        from = end;
    }
    Ok(())
}
