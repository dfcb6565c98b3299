//! The configuration that is asked for, and the format of the logs of programs.

ghost use Rattle.std.specs.Prelude.{◌≡◌, Some, None, MatchResult};
ghost use Rattle.lease_rule.specs.Ranges.{first_bad};
ghost use Rattle.commands.specs.Programmed as programmed;

use command_line::Limits;
use core_program::ProgramFormat;
use lease_rule::{BadConfig, Config};
use log_record::Format;

/// How many turns a core has for an operation, if it runs as a thread; a simulation has no use
/// for them.
const TURNS: u64 = 10_000_000;

/// The configuration of these numbers: 6 if one is out of its range.
pub(crate) fn config_of(limits: &Limits) -> Result<Config, BadConfig>
    ensures { MatchResult result
        (λ config. (config ≡ programmed.config_of limits.now)
        × (first_bad (programmed.config_of limits.now) ≡ None))
        (λ fault. first_bad (programmed.config_of limits.now) ≡ Some fault) }
{
    Config::new(
        limits.slices,
        limits.lease,
        limits.period,
        limits.cache_lines,
        limits.slice_lines,
        limits.inbox,
        TURNS,
    )
}

/// The format of the logs of programs of this format.
pub(crate) fn log_format(of_programs: ProgramFormat) -> Format
    ensures { result ≡ programmed.log_format of_programs }
{
    match of_programs {
        ProgramFormat::One => Format::One,
        ProgramFormat::Two => Format::Two,
    }
}
