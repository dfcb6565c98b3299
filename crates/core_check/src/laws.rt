//! Laws of core faults. Each function does nothing: its contract is the law.

ghost use Rattle.core_check.specs.Laws.{CoreFaultsAreTotallyOrdered, TiedCoreFaultsAreOne};
ghost use Rattle.core_check.specs.Laws.{OrderFaultsAreWhereLogsFall, ProgramFaultsAreWhereLogsDiffer};

/// Core faults are totally ordered.
pub fn core_faults_are_totally_ordered()
    ensures { CoreFaultsAreTotallyOrdered }
{}

/// Core faults that tie are one fault.
pub fn tied_core_faults_are_one()
    ensures { TiedCoreFaultsAreOne }
{}

/// The faults of core order of a set are the places at which `(ts, rank)` falls along one of its
/// logs.
pub fn order_faults_are_where_logs_fall()
    ensures { OrderFaultsAreWhereLogsFall }
{}

/// The PROGRAM faults of a set are the places at which one of its logs differs from the operations
/// that its core's program issues.
pub fn program_faults_are_where_logs_differ()
    ensures { ProgramFaultsAreWhereLogsDiffer }
{}
