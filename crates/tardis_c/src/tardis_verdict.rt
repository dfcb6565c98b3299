//! The judge's answers, in numbers.

ghost use Rattle.std.specs.Prelude.{◌≡◌, Ok};
ghost use Rattle.log_file.specs.Log.{number};
ghost use Rattle.tardis_c.specs.Told.{operations_status, operations_told, rule_number, status_of, told_of};

use super::operations_fault::OperationsFault;
use log_file::FormatFault;
use verdict::{JudgeFault, Rule, Verdict};

const _: () = prove!(size_of::<TardisVerdict>() == 48);

/// The judge's answer, besides the status. A field that the answer doesn't have is 0.
#[repr(C)]
#[derive(Clone, Copy)]
pub struct TardisVerdict {
    /// With a Yes: how many operations the set has.
    pub count: u64,
    /// With a No: the core whose operation breaks a rule. If an operation isn't valid: its core.
    pub core: u64,
    /// With a No: the operation's index in its core's log, from 0. If an operation isn't valid: its index.
    pub index: u64,
    /// With a fault of a log: which log, from 0.
    pub file: u64,
    /// With a fault of a log: the line, from 1.
    pub line: u64,
    /// With a No: 1 CORE-ORDER, 2 PROGRAM, 3 SOURCE, 4 VALUE.
    pub rule: u32,
    /// With a refusal: its number.
    pub number: u32,
}

/// All fields are 0.
const NOTHING: TardisVerdict = TardisVerdict {
    count: 0,
    core: 0,
    index: 0,
    file: 0,
    line: 0,
    rule: 0,
    number: 0,
};

/// The number of a fault.
fn number_of(fault: &FormatFault) -> u32
    ensures { result ≡ number fault.now }
{
    match fault {
        FormatFault::BadHeader => 20,
        FormatFault::BadLine => 21,
        FormatFault::OutOfRange => 22,
        FormatFault::TooMany => 23,
        FormatFault::CountDiffers => 24,
        FormatFault::TrailingBytes => 25,
        FormatFault::Truncated => 26,
        FormatFault::WrongCore => 27,
    }
}

/// The number of a rule.
fn rule_number(rule: &Rule) -> u32
    ensures { result ≡ rule_number rule.now }
{
    match rule {
        Rule::CoreOrder => 1,
        Rule::Program => 2,
        Rule::Source => 3,
        Rule::Value => 4,
    }
}

/// The status of a verdict.
fn verdict_status(verdict: &Verdict) -> u8
    ensures { result ≡ status_of (Ok verdict.now) }
{
    match verdict {
        Verdict::Yes(_) => 0,
        Verdict::No(_) => 1,
    }
}

/// The status of an answer: the exit status of the command `check`.
pub(crate) fn status_of(answer: &Result<Verdict, JudgeFault>) -> u8
    ensures { result ≡ status_of answer.now }
{
    match answer {
        Ok(verdict) => verdict_status(verdict),
        Err(JudgeFault::Log { .. }) => 2,
        Err(JudgeFault::BadConfig(_)) => 3,
        Err(JudgeFault::OutOfMemory) | Err(JudgeFault::Read { .. }) => 4,
    }
}

/// An answer besides its status.
pub(crate) fn told_of(answer: &Result<Verdict, JudgeFault>) -> TardisVerdict
    ensures { result ≡ told_of answer.now }
{
    match answer {
        Ok(Verdict::Yes(count)) => TardisVerdict {
            count: *count as u64,
            ..NOTHING
        },
        Ok(Verdict::No(fault)) => TardisVerdict {
            core: fault.id.core.get(),
            index: fault.id.index.get(),
            rule: rule_number(&fault.rule),
            ..NOTHING
        },
        Err(JudgeFault::Log { file, line, fault }) => TardisVerdict {
            file: *file as u64,
            line: *line,
            number: number_of(fault),
            ..NOTHING
        },
        Err(JudgeFault::BadConfig(_)) => TardisVerdict {
            number: 6,
            ..NOTHING
        },
        Err(JudgeFault::OutOfMemory) => TardisVerdict {
            number: 10,
            ..NOTHING
        },
        Err(JudgeFault::Read { file }) => TardisVerdict {
            file: *file as u64,
            number: 28,
            ..NOTHING
        },
    }
}

/// The status of an answer to operations.
pub(crate) fn operations_status(answer: &Result<Verdict, OperationsFault>) -> u8
    ensures { result ≡ operations_status answer.now }
{
    match answer {
        Ok(verdict) => verdict_status(verdict),
        Err(OperationsFault::OutOfMemory) => 4,
        Err(OperationsFault::TooMany { .. }) | Err(OperationsFault::OutOfRange { .. }) => 2,
    }
}

/// An answer to operations besides its status.
pub(crate) fn operations_told(answer: &Result<Verdict, OperationsFault>) -> TardisVerdict
    ensures { result ≡ operations_told answer.now }
{
    match answer {
        Ok(verdict) => told_of(&Ok(*verdict)),
        Err(OperationsFault::OutOfMemory) => TardisVerdict {
            number: 10,
            ..NOTHING
        },
        Err(OperationsFault::TooMany { core }) => TardisVerdict {
            core: *core as u64,
            index: 1_048_576,
            number: 23,
            ..NOTHING
        },
        Err(OperationsFault::OutOfRange { core, index }) => TardisVerdict {
            core: *core as u64,
            index: *index as u64,
            number: 22,
            ..NOTHING
        },
    }
}

/// The answer if the ends don't cut the buffer into logs: all fields are 0.
pub(crate) fn nothing() -> TardisVerdict
    ensures { result ≡ NOTHING }
{
    NOTHING
}
