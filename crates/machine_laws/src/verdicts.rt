//! The verdict on the logs of the core machine. Each function does nothing: its contract is the law.

ghost use Rattle.machine_laws.specs.Laws.{
  EndedRunsAreFlat,
  EndedRunsGetYes,
  MergedLogsGetYes,
  RunsAreConsistent,
  RunsGetYes,
  WholeRunsGetYes,
};

/// **The Tardis core is sequentially consistent.** After any events the logs made so far get Yes, with the number of their records; so
/// there is one order of their operations that keeps each core's program order and in which each load answers the last store before it.
pub fn runs_get_yes()
    ensures yes { RunsGetYes }
    ensures consistent { RunsAreConsistent }
{}

/// After any events by which every program has ended, the logs get Yes against the programs too; so some whole run of one memory and
/// the programs, one core at a time, performs exactly the logged operations.
pub fn ended_runs_get_yes()
    ensures yes { EndedRunsGetYes }
    ensures flat { EndedRunsAreFlat }
{}

/// If the whole lists of the units and slices of one machine have a merge, the logs of the units get Yes; and those of a whole
/// run of programs get Yes against the programs too.
pub fn merged_logs_get_yes()
    ensures merged { MergedLogsGetYes }
    ensures whole { WholeRunsGetYes }
{}
