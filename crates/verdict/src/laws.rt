//! Laws of the verdict. Each function does nothing: its contract is the law.

ghost use Rattle.verdict.specs.Laws.{KeyOrderIsSequential, RunYesIsConsistent, TextsHaveOneAnswer, YesIsConsistent};

/// If the verdict on a set is Yes, its ids in the order of their keys are a serial order of its
/// operations that keeps program order and in which each load has its flat answer.
pub fn key_order_is_sequential()
    ensures { KeyOrderIsSequential }
{}

/// If the verdict on a set is Yes, against programs or not, its operations are sequentially consistent.
pub fn yes_is_consistent()
    ensures alone { YesIsConsistent }
    ensures run { RunYesIsConsistent }
{}

/// The texts of a set have exactly one answer, against programs or not: one verdict, or one first
/// fault.
pub fn texts_have_one_answer()
    ensures { TextsHaveOneAnswer }
{}
