//! Why a call was refused.

ghost use Rattle.std.specs.Prelude.{◌≡◌};
ghost use Rattle.litmus.specs.Collecting.{TellsNo};
ghost use Rattle.commands.specs.Refusals as refusals;
ghost use Rattle.commands.specs.inner.Performing.{IsOfText, IsUnprinted};
ghost use Rattle.commands.specs.declared.refusal.Refusal.TheVariants as refused;
ghost use Rattle.commands.specs.declared.place.Output.TheVariants.{Standard};

use super::place::{Input, Output};
use core_program::ProgramFault;
use lease_rule::BadConfig;
use litmus::{CollectFault, LitmusFault, RunCause};
use log_file::{WriteFailed, WriteFault};
use machine::ThreadsFault;
use mem_op::FaultName;
use merge_judge::MergeFault;
use refutation::CertificateFault;
use refuted_cases::NamesFault;
use simulation::{ScheduleFault, SimulationFault};
use std::alloc::AllocError;
use std::fmt;
use std::fmt::Display;
use trace::TraceFault;
use verdict::JudgeFault;

/// Why a call was refused: where, with which number and name. Lack of memory counts for the whole call, wherever it came.
#[derive(Clone, Copy)]
pub enum Refusal {
    /// There are no logs, or no verdict on them.
    Judge(JudgeFault),
    /// The text of the programs isn't a set of programs.
    Programs(ProgramFault),
    /// The text of the schedule isn't one.
    Schedule(ScheduleFault),
    /// The text of the litmus test isn't one.
    Test(LitmusFault),
    /// The text of the trace isn't one.
    Trace(TraceFault),
    /// The certificate doesn't hold.
    Certificate(CertificateFault),
    /// This line of the names of addresses, counted from 1, is the first that isn't as it should be.
    Names { line: u64 },
    /// A number of the configuration is out of its range.
    Config(BadConfig),
    /// The simulation isn't ended.
    Simulation(SimulationFault),
    /// The run in threads isn't ended.
    Run(ThreadsFault),
    /// There is no table of the outcomes of a litmus test.
    Collect(CollectFault),
    /// The search gave up.
    Undecided,
    /// This file can't be opened, or a read of it failed.
    Unread(Input),
    /// This can't be written.
    Unwritten(Output),
    /// The log of this file can't be written.
    LogUnwritten { file: usize },
    /// A growth was refused.
    OutOfMemory,
}

impl Refusal {
    /// The exit status: 1 if a run of a litmus test got No, 2 if a file was refused for what it says, 3 if a number is out of its
    /// range, else 4.
    pub(crate) fn status(&self) -> u8
        ensures { result ≡ refusals.refusal_status self.now }
    {
        match self {
            Refusal::Collect(
                CollectFault::Run {
                    cause: RunCause::No(_),
                    ..
                },
            ) => 1,
            Refusal::Judge(JudgeFault::Log { .. }) | Refusal::Programs(_) | Refusal::Schedule(_) =>
                2,
            Refusal::Test(_) | Refusal::Trace(_) | Refusal::Certificate(_) => 2,
            Refusal::Names { .. } => 2,
            Refusal::Judge(JudgeFault::BadConfig(_)) | Refusal::Config(_) => 3,
            Refusal::Collect(CollectFault::BadRuns) => 3,
            Refusal::Judge(_) | Refusal::Collect(_) | Refusal::Simulation(_) | Refusal::Run(_) => 4,
            Refusal::Undecided | Refusal::Unread(_) | Refusal::Unwritten(_) => 4,
            Refusal::LogUnwritten { .. } | Refusal::OutOfMemory => 4,
        }
    }
}

impl Display for Refusal {
    ghost use Rattle.std.specs.Prelude.{Some};
    ghost use Rattle.commands.specs.Refusals.{refusal_text};

    ghost output = { λ refusal. Some (refusal_text refusal) };

    fn fmt<W: fmt::Write>(&self, f: &mut fmt::Formatter<W>) -> fmt::Result {
        match self {
            Refusal::Judge(fault) => write!(f, "refused: {fault}"),
            Refusal::Programs(fault) => write!(f, "refused: programs {fault}"),
            Refusal::Schedule(fault) => write!(f, "refused: schedule {fault}"),
            Refusal::Test(fault) => write!(f, "refused: litmus {fault}"),
            Refusal::Trace(fault) => write!(f, "refused: trace {fault}"),
            Refusal::Certificate(fault) => write!(f, "refused: certificate {fault}"),
            Refusal::Names { line } => {
                write!(f, "refused: names line {line}: {}", FaultName::BadLine)
            }
            Refusal::Config(fault) => write!(f, "refused: {fault}"),
            Refusal::Simulation(fault) => write!(f, "refused: {fault}"),
            Refusal::Run(fault) => write!(f, "refused: {fault}"),
            Refusal::Collect(
                CollectFault::Run {
                    run,
                    cause: RunCause::No(fault),
                },
            ) => write!(f, "no: run {run}: {fault}"),
            Refusal::Collect(fault) => write!(f, "refused: {fault}"),
            Refusal::Undecided => write!(f, "refused: {}", FaultName::Undecided),
            Refusal::Unread(input) => write!(f, "refused: {}: {}", input.name(), FaultName::Read),
            Refusal::Unwritten(output) => {
                write!(f, "refused: {}: {}", output.name(), FaultName::Write)
            }
            Refusal::LogUnwritten { file } => {
                write!(f, "refused: file {file}: {}", FaultName::Write)
            }
            Refusal::OutOfMemory => write!(f, "refused: {}", FaultName::OutOfMemory),
        }
    }
}

impl From<JudgeFault> for Refusal {
    ghost from_gives = { λ fault refusal. refusal ≡ refusals.from_judge fault };

    fn from(fault: JudgeFault) -> Refusal {
        match fault {
            JudgeFault::OutOfMemory => Refusal::OutOfMemory,
            fault => Refusal::Judge(fault),
        }
    }
}

impl From<MergeFault> for Refusal {
    ghost from_gives = { λ fault refusal. refusal ≡ refusals.from_merge fault };

    fn from(fault: MergeFault) -> Refusal {
        match fault {
            MergeFault::Judge(fault) => Refusal::from(fault),
            MergeFault::Write => Refusal::Unwritten(Output::Standard),
        }
    }
}

impl From<ProgramFault> for Refusal {
    ghost from_gives = { λ _ refusal. IsOfText refusal };

    fn from(fault: ProgramFault) -> Refusal {
        match fault {
            ProgramFault::OutOfMemory => Refusal::OutOfMemory,
            fault => Refusal::Programs(fault),
        }
    }
}

impl From<TraceFault> for Refusal {
    ghost from_gives = { λ _ refusal. IsOfText refusal };

    fn from(fault: TraceFault) -> Refusal {
        match fault {
            TraceFault::OutOfMemory => Refusal::OutOfMemory,
            fault => Refusal::Trace(fault),
        }
    }
}

impl From<NamesFault> for Refusal {
    ghost from_gives = { λ _ refusal. IsOfText refusal };

    fn from(fault: NamesFault) -> Refusal {
        match fault {
            NamesFault::BadLine { line } => Refusal::Names { line },
            NamesFault::OutOfMemory => Refusal::OutOfMemory,
        }
    }
}

impl From<ScheduleFault> for Refusal {
    ghost from_gives = { λ _ refusal. IsOfText refusal };

    fn from(fault: ScheduleFault) -> Refusal {
        match fault {
            ScheduleFault::OutOfMemory => Refusal::OutOfMemory,
            fault => Refusal::Schedule(fault),
        }
    }
}

impl From<LitmusFault> for Refusal {
    ghost from_gives = { λ _ refusal. IsOfText refusal };

    fn from(fault: LitmusFault) -> Refusal {
        match fault {
            LitmusFault::OutOfMemory => Refusal::OutOfMemory,
            fault => Refusal::Test(fault),
        }
    }
}

impl From<CollectFault> for Refusal {
    ghost from_gives = { λ fault refusal. ¬ (TellsNo fault) → IsOfText refusal };

    fn from(fault: CollectFault) -> Refusal {
        match fault {
            CollectFault::OutOfMemory => Refusal::OutOfMemory,
            fault => Refusal::Collect(fault),
        }
    }
}

impl From<BadConfig> for Refusal {
    ghost from_gives = { λ fault refusal. refusal ≡ refused.Config fault };

    fn from(fault: BadConfig) -> Refusal {
        Refusal::Config(fault)
    }
}

impl From<SimulationFault> for Refusal {
    ghost from_gives = { λ fault refusal. refusal ≡ refused.Simulation fault };

    fn from(fault: SimulationFault) -> Refusal {
        Refusal::Simulation(fault)
    }
}

impl From<WriteFault> for Refusal {
    ghost from_gives = { λ _ refusal. IsUnprinted refusal };

    fn from(fault: WriteFault) -> Refusal {
        match fault {
            WriteFault::OutOfMemory => Refusal::OutOfMemory,
            WriteFault::Write => Refusal::Unwritten(Output::Standard),
        }
    }
}

impl From<WriteFailed> for Refusal {
    ghost from_gives = { λ _ refusal. refusal ≡ refused.Unwritten Standard };

    fn from(_failed: WriteFailed) -> Refusal {
        Refusal::Unwritten(Output::Standard)
    }
}

impl From<AllocError> for Refusal {
    ghost from_gives = { λ _ refusal. refusal ≡ refused.OutOfMemory };

    fn from(_error: AllocError) -> Refusal {
        Refusal::OutOfMemory
    }
}
