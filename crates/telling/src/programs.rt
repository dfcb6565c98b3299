//! The words about a line of a set of programs, or of a litmus test.

use super::refusals::Kind;
use super::shown::{Counted, Written};
use super::slips::{
    INSTRUCTIONS, RefusedLine, SET_HEADER, TEST_HEADER, Trouble, begins_with, begun_by, count_of,
    is_feed, number_in, push_departure, push_shape, push_trouble, shape_of, trouble_of,
};
use log_file::line_of;
use std::str;

/// How the sections of programs are written.
const SECTIONS: &str =
    "The sections are core 0, core 1 and so on, in this order, as many as the first line says; end is the last line.\n";

/// Adds the words about a line that isn't as a set of programs or a litmus test says.
pub(crate) fn push_bad_line(text: &mut String, kind: Kind, at: &RefusedLine<'_>) -> Written {
    if let Some(slip) = slip(at) {
        return write!(text, "{slip}\n");
    }
    let Some((first, fields)) = at.words.split_first() else {
        return Ok(());
    };
    if at.place.line == 1 {
        return push_first(text, kind, first, fields);
    }
    match *first {
        "core" => text.push_str(SECTIONS),
        "end" => push_end(text, kind, at.text),
        "show" | "forbid" if kind == Kind::Programs => write!(
            text,
            "A set of programs has no line {first}, which is of litmus tests.\n"
        ),
        "show" => push_show(text, at, fields),
        "forbid" => push_forbid(text, at, fields),
        _ => push_instruction(text, at, first, fields),
    }
}

/// The words about a line after the last one, about one that is cut off, about an empty one, and about a slip.
fn slip(at: &RefusedLine<'_>) -> Option<&'static str> {
    let before = line_of(at.text, at.place.line.saturating_sub(1));
    if at.place.line > 1 && before == b"end".as_slice() {
        return Some("It comes after the line end, which is the last.");
    }
    if !at.is_whole() {
        return Some(cut_off(at));
    }
    if at.line.is_empty() {
        return Some("It is empty; there are no empty lines.");
    }
    at.slip()
}

/// The words about the last line of a text, which has no line feed.
fn cut_off(at: &RefusedLine<'_>) -> &'static str {
    if at.text.is_empty() {
        "The file is empty."
    } else if at.line.is_empty() {
        "The file ends here, before its last line, end."
    } else if at.line == b"end".as_slice() {
        "The file ends before the line feed of its last line: write one there too."
    } else {
        "The file ends in the middle of a line: it is cut off."
    }
}

/// Adds how a first line is written, and where this one departs from that.
fn push_first(text: &mut String, kind: Kind, first: &str, fields: &[&str]) -> Written {
    let header = match kind {
        Kind::Programs => &SET_HEADER,
        Kind::Litmus => &TEST_HEADER,
    };
    if begins_with(header, first) {
        return push_departure(text, header, fields);
    }
    push_shape(text, header)?;
    text.push_str(begun_by(first))
}

/// Adds the words about a line that begins as the last one of this text.
fn push_end(text: &mut String, kind: Kind, bytes: &[u8]) -> Written {
    text.push_str(SECTIONS)?;
    if kind == Kind::Programs || shown_count(bytes) > 0 {
        return Ok(());
    }
    text.push_str("Before it one line show C.rN .. is due, and there is none.\n")
}

/// Adds how an instruction with this first word is written, and where these words after it depart from that; or what is due or meant
/// in its place.
fn push_instruction(
    text: &mut String,
    at: &RefusedLine<'_>,
    first: &str,
    fields: &[&str],
) -> Written {
    if let Some(word) = meant_by(first) {
        return write!(
            text,
            "A line that begins with {word} seems to be meant: write that word in small letters and without a colon.\n"
        );
    }
    text.push_str(match shape_of(&INSTRUCTIONS, first) {
        _ if at.begun_before(b"core ") == 0 => {
            "Here the line core 0 is due, which begins the first section.\n"
        }
        _ if at.begun_before(b"show ") > 0 => {
            "After the line show come lines forbid K .. and the line end, and nothing else.\n"
        }
        None => "An instruction begins with ld, st, sr, ai, jz or, in format 2, sw.\n",
        Some(_) if first == "sw" && says_format_one(at.first_line()) => {
            "A swap is in format 2 alone, and the first line says format 1: write 2 there.\n"
        }
        Some(shape) => return push_departure(text, shape, fields),
    })
}

/// The first word of another line that a word seems to be, in other letters or with a colon.
fn meant_by(first: &str) -> Option<&'static str> {
    let bare = first.strip_suffix(':').unwrap_or(first);
    for word in ["core", "show", "forbid", "end"] {
        if word.eq_ignore_ascii_case(bare) {
            return Some(word);
        }
    }
    None
}

fn says_format_one(line: &[u8]) -> bool {
    line.starts_with(b"tardis-programs 1 ") || line.starts_with(b"tardis-litmus 1 ")
}

/// Adds the words about a line that shows registers, after whose first word stand these words.
fn push_show(text: &mut String, at: &RefusedLine<'_>, registers: &[&str]) -> Written {
    text.push_str(
        "After the last section stands one line show C.rN .. of 1 to 8 registers, as show 0.r0 1.r0.\n",
    )?;
    let (cores, sections) = (cores_of(at.first_line()), at.begun_before(b"core ") as u64);
    if at.begun_before(b"show ") > 0 {
        return text.push_str("Another line before it says show.\n");
    }
    if sections != cores {
        let (cores, sections) = (Counted(cores, "core"), Counted(sections, "section"));
        return write!(
            text,
            "The first line says {cores}, and this line has {sections} before it.\n"
        );
    }
    if registers.len() > 8 {
        return write!(text, "It has {} registers.\n", registers.len());
    }
    for word in registers {
        if let Some(trouble) = trouble_of("C.rN", word).or(core_trouble(word, cores)) {
            return push_trouble(text, "register", word, trouble);
        }
    }
    Ok(())
}

/// The number of cores that a first line says, its last word.
fn cores_of(line: &[u8]) -> u64 {
    let text = str::from_utf8(line).unwrap_or("");
    match text.rsplit(' ').next() {
        Some(word) => number_in(word).unwrap_or(0),
        None => 0,
    }
}

/// What is wrong with a register of a core where there are so many cores.
fn core_trouble(word: &str, cores: u64) -> Option<Trouble> {
    let told = "is of a core that isn't there: cores are counted from 0, and the first line says ";
    let core = number_in(word.split('.').next()?)?;
    (core >= cores).then_some((told, Some(cores)))
}

/// Adds the words about a line of a forbidden outcome, after whose first word stand these words.
fn push_forbid(text: &mut String, at: &RefusedLine<'_>, values: &[&str]) -> Written {
    text.push_str(
        "A forbidden outcome is written forbid K .., a value for each register of show, in their order.\n",
    )?;
    let (said, shown) = (values.len() as u64, shown_count(at.text));
    if at.begun_before(b"show ") == 0 {
        return text.push_str("It comes after the line show, and there is none before it.\n");
    }
    if said != shown {
        let (said, shown) = (Counted(said, "value"), Counted(shown, "register"));
        return write!(text, "It has {said}, and show has {shown}.\n");
    }
    if at.begun_before(b"forbid ") >= 16 {
        return text.push_str("At most 16 lines say forbid, and as many stand before it.\n");
    }
    for word in values {
        if let Some(trouble) = trouble_of("K", word) {
            return push_trouble(text, "value", word, trouble);
        }
    }
    Ok(())
}

/// How many registers the line `show` has; 0 if there is none.
fn shown_count(text: &[u8]) -> u64 {
    for line in text.split(is_feed) {
        if line.starts_with(b"show ") {
            return count_of(line, b' ');
        }
    }
    0
}
