//! How lines are written, and the slips that a line of any format may have.

use super::refusals::Place;
use super::shown::{Bytes, Written};
use decimal_text::read_last;
use log_file::line_of;

/// The shape of a line: what such a line is called, and its first word with the fields after it, as far as the first comma.
pub(crate) type Shape = (&'static str, &'static str);

/// The shapes of records.
pub(crate) const RECORDS: [Shape; 3] = [
    ("A store", "S addr value ts rank"),
    ("A load", "L addr value ts rank source"),
    ("A swap", "X addr value ts rank source old"),
];

/// The shapes of instructions.
pub(crate) const INSTRUCTIONS: [Shape; 6] = [
    ("A load", "ld rN addr"),
    ("A store", "st addr value"),
    ("A store of a register", "sr addr rN"),
    ("An addition", "ai rN rM value"),
    ("A jump", "jz rN skip"),
    ("A swap", "sw rN addr value"),
];

/// The shape of the first line of a litmus test.
pub(crate) const TEST_HEADER: Shape = (
    "The first line",
    "tardis-litmus 1 NAME cores N, with 2 in place of 1 where there are swaps; NAME has 1 to 32 letters, digits, + and -, and N is 1 to 64",
);

/// The shape of the first line of a set of programs.
pub(crate) const SET_HEADER: Shape = (
    "The first line",
    "tardis-programs 1 cores N, with 2 in place of 1 where there are swaps; N is 1 to 64",
);

/// Whether a line of this shape begins with this word.
pub(crate) fn begins_with(shape: &Shape, first: &str) -> bool {
    shape.1.split(' ').next() == Some(first)
}

/// The shape that begins with this word.
pub(crate) fn shape_of(shapes: &'static [Shape], first: &str) -> Option<&'static Shape> {
    shapes.iter().find(|shape| begins_with(shape, first))
}

/// Adds how a line of this shape is written.
pub(crate) fn push_shape(text: &mut String, shape: &Shape) -> Written {
    write!(text, "{} is written {}.\n", shape.0, shape.1)
}

/// Adds how a line of this shape is written, and where the words after its first one depart from that.
pub(crate) fn push_departure(text: &mut String, shape: &Shape, words: &[&str]) -> Written {
    push_shape(text, shape)?;
    let line = shape.1.split(',').next().unwrap_or("");
    let fields = line.split(' ').count().saturating_sub(1);
    if words.len() > fields {
        return text.push_str("It has a word too many.\n");
    }
    if words.len() < fields {
        return push_missing(text, line, words);
    }
    push_first_trouble(text, line, words)
}

/// Adds which fields of a line are missing after these words.
fn push_missing(text: &mut String, line: &str, words: &[&str]) -> Written {
    if let Some(told) = left_out(line, words) {
        return text.push_str(told);
    }
    for field in line.split(' ').skip(words.len().saturating_add(1)) {
        write!(text, "Its {} is missing.\n", name_of(field))?;
    }
    Ok(())
}

/// The words if a field before the last was left out. If the last of four words is a source, it is the rank, and if the number
/// of cores of a test has its word before it, it is the name.
fn left_out(line: &str, words: &[&str]) -> Option<&'static str> {
    let last = words.last().copied().unwrap_or("");
    if words.len() == 4 && (last == "init" || last.contains('.')) {
        return Some("Its rank is missing, 0 where all times differ.\n");
    }
    let is_nameless = words.len() == 3 && words[1] == "cores" && line.contains(" NAME ");
    is_nameless.then_some("Its name is missing.\n")
}

/// Adds what is wrong with the first of these words that isn't right in the place of its field.
fn push_first_trouble(text: &mut String, line: &str, words: &[&str]) -> Written {
    for (field, word) in line.split(' ').skip(1).zip(words) {
        if let Some(trouble) = trouble_of(field, word) {
            return push_trouble(text, name_of(field), word, trouble);
        }
    }
    Ok(())
}

/// Adds what is wrong with a word in the place of the field of this name.
pub(crate) fn push_trouble(text: &mut String, name: &str, word: &str, it: Trouble) -> Written {
    write!(text, "Its {name}, {}, {}", Bytes(word.as_bytes()), it.0)?;
    match it.1 {
        Some(number) => write!(text, "{number}.\n"),
        None => text.push_str(".\n"),
    }
}

/// The words about a word in the place of a field, and the number after that, if there is one.
pub(crate) type Trouble = (&'static str, Option<u64>);

/// What the field is called that a shape has so.
fn name_of(field: &str) -> &str {
    match field {
        "addr" => "address",
        "N" => "number of cores",
        "rN" | "rM" | "C.rN" => "register",
        "1" => "format",
        "cores" => "word before N",
        "NAME" => "name",
        _ => field,
    }
}

/// What is wrong with a word in the place of the field that a shape has so.
pub(crate) fn trouble_of(field: &str, word: &str) -> Option<Trouble> {
    match field {
        "source" => source_trouble(word),
        "rN" | "rM" => unless(is_register(word), "is none of r0 to r15"),
        "C.rN" => unless(is_shown(word), NO_SHOWN),
        "1" => unless(matches!(word, "1" | "2"), "is neither 1 nor 2"),
        "cores" => unless(word == "cores", "isn't cores"),
        "NAME" => unless(is_name(word), "isn't 1 to 32 letters, digits, + and -"),
        _ => {
            let (least, greatest) = limits_of(field);
            number_trouble(word, least, greatest, "isn't a number in digits alone")
        }
    }
}

/// The least and the greatest number of a field.
fn limits_of(field: &str) -> (u64, u64) {
    match field {
        "addr" => (0, 65_535),
        "ts" => (0, 281_474_976_710_656),
        "rank" => (0, 4_294_967_295),
        "skip" => (1, 4_095),
        "N" => (1, 64),
        _ => (0, u64::MAX),
    }
}

/// The words about a word that isn't a register of a core.
const NO_SHOWN: &str = "isn't written C.rN, for register rN, r0 to r15, of core C";

fn unless(is_right: bool, told: &'static str) -> Option<Trouble> {
    (!is_right).then_some((told, None))
}

/// What is wrong with a word where a number from the least to the greatest stands; this of one that is like no number.
fn number_trouble(word: &str, least: u64, greatest: u64, unlike: &'static str) -> Option<Trouble> {
    match read_last(word.as_bytes()) {
        Some(Some(number)) if number < least => Some(("is below 1", None)),
        Some(Some(number)) if number <= greatest => None,
        Some(_) => Some(("is above ", Some(greatest))),
        None => Some((no_number(word).unwrap_or(unlike), None)),
    }
}

/// The words about a word that isn't a number, if it is like one.
fn no_number(word: &str) -> Option<&'static str> {
    let hexadecimal = "is hexadecimal; write numbers in decimal";
    if word.starts_with("0x") || word.starts_with("0X") {
        return Some(hexadecimal);
    }
    if word.starts_with('-') || word.starts_with('+') {
        return Some("has a sign; write digits alone");
    }
    if !word.is_empty() && word.bytes().all(|byte| byte.is_ascii_digit()) {
        return Some("has a zero before it; write none");
    }
    let is_hexadecimal = !word.is_empty() && word.bytes().all(|byte| byte.is_ascii_hexdigit());
    is_hexadecimal.then_some(hexadecimal)
}

/// The number that a word is; none if it isn't one, or one of more than 64 bits.
pub(crate) fn number_in(word: &str) -> Option<u64> {
    read_last(word.as_bytes())?
}

/// What is wrong with a word where a source stands.
fn source_trouble(word: &str) -> Option<Trouble> {
    let unlike = "is neither init nor C.I, for operation I of core C, counted from 0";
    match word.split_once('.') {
        Some((core, index)) if !index.contains('.') => {
            number_trouble(core, 0, 63, unlike).or(number_trouble(index, 0, 1_048_575, unlike))
        }
        _ => unless(word == "init", unlike),
    }
}

fn is_register(word: &str) -> bool {
    matches!(word.strip_prefix('r'), Some(number) if is_below(number, 16))
}

/// Whether a word is a number below this one.
fn is_below(word: &str, limit: u64) -> bool {
    matches!(number_in(word), Some(number) if number < limit)
}

/// Whether a word is a register of a core.
fn is_shown(word: &str) -> bool {
    match word.split_once('.') {
        Some((core, register)) => is_below(core, 64) && is_register(register),
        None => false,
    }
}

/// Whether a word may be the name of a test.
fn is_name(word: &str) -> bool {
    let is_short = !word.is_empty() && word.len() <= 32;
    is_short && word.bytes().all(is_of_name)
}

fn is_of_name(byte: u8) -> bool {
    byte.is_ascii_alphanumeric() || matches!(byte, b'+' | b'-')
}

/// A line that was refused, the text in which it stands, and its words, between its spaces; none if it isn't text.
#[derive(Clone, Copy)]
pub(crate) struct RefusedLine<'a> {
    pub(crate) place: Place<'a>,
    pub(crate) text: &'a [u8],
    pub(crate) line: &'a [u8],
    pub(crate) words: &'a [&'a str],
}

impl<'a> RefusedLine<'a> {
    /// The first line of the text.
    pub(crate) fn first_line(&self) -> &'a [u8] {
        line_of(self.text, 1)
    }

    /// The word that it begins with.
    pub(crate) fn first_word(&self) -> &'a str {
        self.words.first().copied().unwrap_or("")
    }

    /// Whether the text ends where it is due.
    pub(crate) fn is_missing(&self) -> bool {
        self.line.is_empty() && !self.is_whole()
    }

    /// Whether the line ends with a line feed.
    pub(crate) fn is_whole(&self) -> bool {
        self.place.line <= count_of(self.text, b'\n')
    }

    /// How many lines before it begin so.
    pub(crate) fn begun_before(&self, beginning: &[u8]) -> usize {
        let mut count = 0usize;
        let before = self.place.line.saturating_sub(1) as usize;
        for line in self.text.split(is_feed).take(before) {
            if line.starts_with(beginning) {
                count = count.saturating_add(1);
            }
        }
        count
    }

    /// The words about the first slip that it has.
    pub(crate) fn slip(&self) -> Option<&'static str> {
        if self.place.line == 1 && is_trace(self.text) {
            return Some("This is a trace; tardis search judges it.");
        }
        slip_of_bytes(self.line).or(slip_of_fields(self.line, self.words))
    }
}

/// The words about a line that isn't ASCII ended by a line feed.
fn slip_of_bytes(line: &[u8]) -> Option<&'static str> {
    if line.starts_with(b"\xef\xbb\xbf") {
        return Some("The file begins with a byte order mark, the bytes EF BB BF; write none.");
    }
    if line.starts_with(b"\xff\xfe") || line.starts_with(b"\xfe\xff") {
        return Some("The file is UTF-16; write ASCII.");
    }
    if line.ends_with(b"\r") {
        return Some("It ends with CR LF, \\r\\n; write a line feed alone, \\n.");
    }
    (!line.is_ascii()).then_some("It has bytes that aren't ASCII.")
}

/// The words about a line whose fields don't stand one space apart.
fn slip_of_fields(line: &[u8], words: &[&str]) -> Option<&'static str> {
    if line.contains(&b'\t') {
        return Some("It has a tab, \\t; write one space between two fields.");
    }
    if words.iter().any(begins_comment) {
        return Some("It has a comment; write none.");
    }
    if line.contains(&b',') {
        return Some(
            "It has a comma; write one space between two fields, and numbers in digits alone.",
        );
    }
    (!line.is_empty() && words.contains(&"")).then_some(
        "It has a space too many; write one between two fields, and none elsewhere.",
    )
}

/// How often a byte stands in others.
pub(crate) fn count_of(bytes: &[u8], wanted: u8) -> u64 {
    bytes.iter().filter(|byte| **byte == wanted).count() as u64
}

/// Whether a line of a text is that of an operation of a trace, which begins with a digit and has `M[`.
fn is_trace(text: &[u8]) -> bool {
    for line in text.split(is_feed) {
        if line.first().is_some_and(u8::is_ascii_digit) && line.windows(2).any(is_memory) {
            return true;
        }
    }
    false
}

/// Whether a byte ends a line.
pub(crate) fn is_feed(byte: &u8) -> bool {
    *byte == b'\n'
}

fn is_memory(pair: &[u8]) -> bool {
    pair == b"M[".as_slice()
}

/// Whether a word begins a comment, as other formats have it.
fn begins_comment(word: &&str) -> bool {
    word.starts_with("#") || word.starts_with("//") || word.starts_with(";")
}

/// The words about a first line that begins with this word, in place of that of another format; nothing of a word that begins no
/// line of the formats.
pub(crate) fn begun_by(first: &str) -> &'static str {
    match first {
        "tardis-litmus" => "It begins a litmus test, which tardis litmus runs.\n",
        "tardis-programs" => {
            "It begins a set of programs, which tardis sim and tardis run run; beside logs it goes after --program.\n"
        }
        "tardis-log" => "It begins a log.\n",
        "core" => "It begins a section of programs: the first line before it is missing.\n",
        "S" | "L" | "X" => "It is a record of a log: the header before it is missing.\n",
        _ => "",
    }
}
