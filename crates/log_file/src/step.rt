//! What a device in memory does at one call.

ghost use Rattle.std.specs.Prelude.{◌≡◌, drop};
ghost use Rattle.log_file.specs.InMemory.{limit_of};

/// What a device in memory does at one call.
#[derive(Clone, Copy, Debug, PartialEq, Eq)]
pub enum Step {
    /// Moves at most one byte more than this.
    Move(usize),
    /// Fails.
    Fail,
}

/// Takes the first of the steps. Answers the limit of what the call moves, or none if the call
/// fails. After the last step a call moves what it can.
pub(crate) fn take_step(steps: &mut &[Step]) -> Option<usize>
    ensures limit { result ≡ limit_of steps.old.now }
    ensures rest { steps.new.now ≡ drop 1 steps.old.now }
{
    let Some((step, others)) = steps.split_first() else {
        return Some(usize::MAX);
    };
    *steps = others;
    match step {
        Step::Move(limit) => Some(*limit),
        Step::Fail => None,
    }
}
