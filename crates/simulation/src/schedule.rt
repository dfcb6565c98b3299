//! Reads the text of a schedule.

ghost use Rattle.std.specs.Prelude.{IfSome, IsNone, MatchResult};
ghost use Rattle.simulation.specs.Schedules.{CommandInFront, NoCommandInFront, IsFault, Spells};

use super::command::Command;
use super::command_reading::read_command;
use super::schedule_fault::ScheduleFault;
use std::alloc::Global;
use text_lines::next_line;

/// The commands whose text this is, one a line, each line ended by a line feed, for this number of cores, at most 64.
/// BadScheduleLine at the first line that is no command, that names a core that isn't there, or that has no line feed;
/// OutOfMemory if memory was refused.
pub fn parse_schedule(
    alloc: Global,
    text: &[u8],
    cores: usize,
) -> Result<Vec<Command>, ScheduleFault>
    ensures { MatchResult result
        (λ commands. Spells cores text.now commands.items)
        (λ fault. IsFault cores text.now fault) }
{
    let mut commands = Vec::new(alloc);
    let mut rest = text;
    while let Some((command, behind)) = next_command(cores, rest) {
        commands.push(command)?;
        rest = behind;
    }
    if !rest.is_empty() {
        return Err(ScheduleFault::BadScheduleLine {
            line: commands.len() as u64 + 1,
        });
    }
    Ok(commands)
}

/// The command whose line is the first, and the bytes after it; None if the first line is no command, or has no line feed.
fn next_command(cores: usize, text: &[u8]) -> Option<(Command, &[u8])>
    ensures found { IfSome result (λ read. CommandInFront cores read.0 text.now read.1.now) }
    ensures none { IsNone result → NoCommandInFront cores text.now }
{
    let (line, rest) = next_line(text)?;
    Some((read_command(cores, line)?, rest))
}
