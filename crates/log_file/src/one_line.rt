//! Checks one whole line at a time.

ghost use Rattle.std.specs.Prelude.{◌≡◌, ◌<◌, ◌≤◌, MatchResult};
ghost use Rattle.mem_op.specs.Limits.{operation_limit};
ghost use Rattle.log_file.specs.OneLine.{HeaderIs, LeastHeader, LeastBody, BodyIs};

use super::fault::FormatFault;
use log_record::{Format, LineFault, Record, read_end, read_header, read_line};

/// The most bytes of the header, without its line feed.
pub(crate) const HEADER_LIMIT: usize = 80;

/// The most bytes of a line of any format, without its line feed.
pub(crate) const LONGEST_LINE: usize = 96;

/// The most records of a log.
const RECORD_LIMIT: u64 = 1_048_576;

/// The most cores, and so the most logs of a set.
const CORE_LIMIT: u64 = 64;

/// Checks that a whole first line is the header of core `core` of `cores`, and answers its format.
pub(crate) fn check_header(line: &[u8], core: u64, cores: u64) -> Result<Format, FormatFault>
    ensures { MatchResult result
        (λ format. HeaderIs format core cores line.now)
        (λ fault. LeastHeader core cores line.now fault) }
{
    if line.len() > HEADER_LIMIT {
        return Err(FormatFault::BadHeader);
    }
    let Some(header) = read_header(line) else {
        return Err(FormatFault::BadHeader);
    };
    let (Some(said_core), Some(said_cores)) = (header.core, header.cores) else {
        return Err(FormatFault::OutOfRange);
    };
    if said_core >= said_cores || said_cores > CORE_LIMIT {
        return Err(FormatFault::OutOfRange);
    }
    if said_core != core || said_cores != cores {
        return Err(FormatFault::WrongCore);
    }
    Ok(header.format)
}

/// The record on a whole line of a log of this format, after the header and `count` records; None
/// if the line is the end line.
#[inline(always)]
pub(crate) fn check_body(
    format: Format,
    line: &[u8],
    count: u64,
) -> Result<Option<Record>, FormatFault>
    requires { count ≤ operation_limit }
    ensures { MatchResult result
        (λ logged. BodyIs format count line.now logged)
        (λ fault. LeastBody format count line.now fault) }
{
    if line.len() > format.line_limit() {
        return Err(FormatFault::BadLine);
    }
    match read_line(format, line) {
        Ok(logged) if count < RECORD_LIMIT => Ok(Some(logged)),
        Ok(_) => Err(FormatFault::TooMany),
        Err(LineFault::OutOfRange) => Err(FormatFault::OutOfRange),
        Err(LineFault::BadLine) => match read_end(line) {
            None => Err(FormatFault::BadLine),
            Some(end) if end.count == Some(count) => Ok(None),
            Some(_) => Err(FormatFault::CountDiffers),
        },
    }
}
