//! A run that the core machine has, which shows that its laws aren't empty. The function does nothing: its contract is the law.

ghost use Rattle.machine_laws.specs.Laws.{OneStoreRuns};

/// A core whose program is one store asks for its line, is served, takes the reply and performs the store, at stamp 1.
pub fn one_store_runs()
    ensures { OneStoreRuns }
{}
