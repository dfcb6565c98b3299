//! The ranges of the counts of a call.

ghost use Rattle.std.specs.Prelude.{◌≡◌, ◌↔◌, IfErr, IsOk, IsErrOf, OnOk};
ghost use Rattle.verdict.specs.CoreFaultsOf.{given};
ghost use Rattle.verdict.specs.Counts.{AreAsMany, AreNotAsMany, IsBadCount, IsInRange, IsOutOfRange};
ghost use Rattle.verdict.specs.declared.judge_fault.Count.TheVariants.{Files, Workers, Programs};
ghost use Rattle.verdict.specs.declared.judge_fault.JudgeFault.TheVariants.{BadConfig};

use super::judge_fault::{Count, JudgeFault};
use core_program::ProgramSet;

/// How many files a set has at most.
const MAX_FILES: usize = 64;

/// How many workers judge a set at most.
const MAX_WORKERS: usize = 64;

/// Whether `workers` workers can judge `files` files, each number 1..64. If not, 6 BadConfig with the
/// first count that is out of range, `files` before `workers`.
pub fn check_counts(files: usize, workers: usize) -> Result<(), JudgeFault>
    ensures ok { IsOk result ↔ (IsInRange files × IsInRange workers) }
    ensures err { IfErr result IsBadCount }
    ensures files { IsErrOf result (BadConfig Files) ↔ IsOutOfRange files }
    ensures workers { IsErrOf result (BadConfig Workers)
        ↔ (IsInRange files × IsOutOfRange workers) }
{
    if files == 0 || files > MAX_FILES {
        return Err(JudgeFault::BadConfig(Count::Files));
    }
    if workers == 0 || workers > MAX_WORKERS {
        return Err(JudgeFault::BadConfig(Count::Workers));
    }
    Ok(())
}

/// Whether there are as many programs as files, if programs are given. If not, 6 BadConfig.
pub(crate) fn check_programs(programs: Option<&ProgramSet>, files: usize) -> Result<(), JudgeFault>
    ensures ok { OnOk result (AreAsMany files (given programs.entry)) }
    ensures err { IfErr result (λ fault. (fault ≡ BadConfig Programs)
        × AreNotAsMany files (given programs.entry)) }
{
    match programs {
        Some(set) if set.len() != files => Err(JudgeFault::BadConfig(Count::Programs)),
        _ => Ok(()),
    }
}
