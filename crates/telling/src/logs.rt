//! The words about a line of a log.

use super::shown::Written;
use super::slips::{RECORDS, RefusedLine, begun_by, number_in, push_departure, shape_of};
use log_file::FormatFault;
use log_record::Format;

/// Adds the words about the fault of a log at this line: of the file of this number, counted from 0, of so many.
pub(crate) fn push_log(
    text: &mut String,
    file: (usize, usize),
    fault: FormatFault,
    at: &RefusedLine<'_>,
) -> Written {
    if let Some(told) = sentence(fault, at) {
        return write!(text, "{told}\n");
    }
    let before = at.place.line.saturating_sub(2);
    match fault {
        FormatFault::BadHeader => push_header(text, at),
        FormatFault::CountDiffers => write!(
            text,
            "It has to say how many operations stand before it, which is {before}.\n"
        ),
        FormatFault::Truncated => {
            let how = if at.line.is_empty() { NO_END } else { CUT_OFF };
            write!(
                text,
                "The file ends {how}.\nWhole operations before it: {before}.\n"
            )
        }
        FormatFault::WrongCore => push_wrong_core(text, file, at),
        _ => push_record(text, at.words),
    }
}

/// How a file ends that has no last line.
const NO_END: &str =
    "before its end line: it is cut off, or end N was left out, with the number N of operations";

/// How a file ends whose last line isn't whole.
const CUT_OFF: &str = "in the middle of a line: it is cut off";

/// The words about a fault at this line, if that is one sentence.
fn sentence(fault: FormatFault, at: &RefusedLine<'_>) -> Option<&'static str> {
    Some(match fault {
        FormatFault::OutOfRange if at.place.line == 1 => {
            "It says core C of N: N is 1 to 64, and C is less than N, since cores are counted from 0."
        }
        FormatFault::TooMany => "A log has at most 1048576 operations.",
        FormatFault::TrailingBytes if at.line.is_empty() && at.is_whole() => {
            "It is an empty line after the end line, which is the last."
        }
        FormatFault::TrailingBytes => "It comes after the end line, which is the last.",
        FormatFault::Truncated if at.text.is_empty() => "The file is empty.",
        FormatFault::Truncated if at.line.starts_with(b"end ") => {
            "The file ends before the line feed of its last line: write one there too."
        }
        FormatFault::BadLine => return line_slip(at),
        _ => return None,
    })
}

/// The words about a slip of a later line.
fn line_slip(at: &RefusedLine<'_>) -> Option<&'static str> {
    if at.line.is_empty() {
        return Some("It is empty; there are no empty lines.");
    }
    let slip = at.slip();
    if slip.is_some() {
        return slip;
    }
    if at.line.len() > Format::Two.line_limit() {
        return Some("It is longer than any record is.");
    }
    let is_old = at.first_line().starts_with(b"tardis-log 1 ");
    (at.line.starts_with(b"X ") && is_old).then_some(
        "A swap is in format 2 alone, and the first line says format 1: write tardis-log 2 there.",
    )
}

/// Adds how a first line is written, and the words about one that isn't so.
fn push_header(text: &mut String, at: &RefusedLine<'_>) -> Written {
    text.push_str(
        "The first line is written tardis-log 1 core C of N, with 2 in place of 1 where there are swaps.\n",
    )?;
    if let Some(slip) = at.slip() {
        return write!(text, "{slip}\n");
    }
    let format = at.words.get(1).copied().unwrap_or("");
    text.push_str(match at.first_word() {
        "tardis-log" if matches!(format, "1" | "2") => "",
        "tardis-log" => "There are formats 1 and 2.\n",
        first => begun_by(first),
    })
}

/// Adds how a line of a record is written, and where this one, of these words, departs from that.
fn push_record(text: &mut String, words: &[&str]) -> Written {
    let Some((first, fields)) = words.split_first() else {
        return Ok(());
    };
    match shape_of(&RECORDS, first) {
        Some(shape) => push_departure(text, shape, fields),
        None if *first == "end" => {
            text.push_str("The last line is written end N, with the number of operations.\n")
        }
        None => text.push_str(
            "A line begins with S for a store, L for a load, X for a swap, or end, as they are written here.\n",
        ),
    }
}

/// Adds the words about a header of another core or of another number of cores.
fn push_wrong_core(text: &mut String, file: (usize, usize), at: &RefusedLine<'_>) -> Written {
    let (core, cores) = file;
    write!(
        text,
        "It was given as file {core} of {cores}, counted from 0, so it has to say core {core} of {cores}.\n"
    )?;
    match at.words.get(5) {
        Some(said) if number_in(said) == Some(cores as u64) => push_order(text, at.place.file),
        Some(said) => write!(
            text,
            "It is a log of a set of {said}: give the logs of all cores, and those of one run.\n"
        ),
        None => Ok(()),
    }
}

/// Adds in which order the files are given; and how to get that from the shell, where the number in this name has two digits.
fn push_order(text: &mut String, name: &str) -> Written {
    text.push_str("The files are given in the order of their cores, that of core 0 first.\n")?;
    match name.rsplit_once('.') {
        Some((stem, number)) if number.len() > 1 && number_in(number).is_some() => write!(
            text,
            "The shell has {stem}.10 before {stem}.2; write $(ls -v {stem}.*).\n"
        ),
        _ => Ok(()),
    }
}
