//! Laws of core units. Each function does nothing: its contract is the law.

ghost use Rattle.core_unit.specs.Laws.{LogsAreFronts};

/// The log of a unit is a front of its program's operations, and conforms to its program if that has ended.
pub fn logs_are_fronts()
    ensures { LogsAreFronts }
{}
