//! The words about a line of a trace.

use super::shown::Written;
use super::slips::number_in;
use std::str;

/// How the lines of a trace are written.
const LINES: &str =
    "A store is written T: M[A] := V, a load T: M[A] == V, a swap T: { M[A] == V; M[A] := W }, a fence T: sync.\n";

/// The greatest number of a core.
const LAST_CORE: u64 = 63;

/// Adds how the lines of a trace are written, and what has usually gone wrong in one like this.
pub(crate) fn push_trace_line(text: &mut String, line: &[u8]) -> Written {
    text.push_str(LINES)?;
    let Ok(line) = str::from_utf8(line) else {
        return Ok(());
    };
    match slip(line) {
        Some(slip) => write!(text, "{slip}\n"),
        None => Ok(()),
    }
}

/// What has usually gone wrong in a line.
fn slip(line: &str) -> Option<&'static str> {
    let first = line.split(' ').next().unwrap_or("");
    if matches!(first, "tardis-log" | "S" | "L" | "X") {
        return Some("It is a line of a log; search and confirm take logs with --logs.");
    }
    if matches!(first, "tardis-refutation" | "end") {
        return Some("It is a line of a certificate, which confirm takes after the trace.");
    }
    match line.split_once(':') {
        Some((core, act)) => slip_of_core(core.trim()).or(slip_of_act(act.trim_start())),
        None => Some("Its core and a colon are missing."),
    }
}

/// What is wrong with the word in the place of a core.
fn slip_of_core(core: &str) -> Option<&'static str> {
    if !core.as_bytes().first().is_some_and(u8::is_ascii_digit) {
        return Some("Its core isn't a number alone, as in 0: M[1] := 2.");
    }
    match number_in(core) {
        Some(number) if number > LAST_CORE => Some("Its core is above 63."),
        _ => None,
    }
}

/// What has usually gone wrong after the core and its colon.
fn slip_of_act(act: &str) -> Option<&'static str> {
    if are_two(act.split('#').next().unwrap_or("")) {
        return Some("Two operations stand in one line.");
    }
    if act.contains("fence") || act.starts_with("dmb") || act.starts_with("SYNC") {
        return Some("A fence is written sync.");
    }
    if !act.contains("M[") {
        return Some("An address is written M[A].");
    }
    if !act.contains("==") && !act.contains(":=") {
        return Some("A load has ==, and a store :=.");
    }
    if act.starts_with('{') && are_apart(act) {
        return Some("A swap reads and stores at one address.");
    }
    for digits in act.split(is_no_digit) {
        if is_too_great(digits) {
            return Some("A number is above 18446744073709551615.");
        }
    }
    None
}

fn is_no_digit(letter: char) -> bool {
    !letter.is_ascii_digit()
}

/// Whether an act goes on with another one: it names more addresses than its own, or another core.
fn are_two(act: &str) -> bool {
    let most = if act.starts_with('{') { 2 } else { 1 };
    act.split("M[").count() > most + 1 || act.contains(": ")
}

/// The number before a closing bracket, if it is one in decimal.
fn address_in(part: &str) -> Option<u64> {
    let (address, _) = part.split_once(']')?;
    number_in(address.trim())
}

/// Whether the first two addresses of an act are numbers, and not the same.
fn are_apart(act: &str) -> bool {
    let mut addresses = act.split("M[").skip(1).map(address_in);
    match (addresses.next().flatten(), addresses.next().flatten()) {
        (Some(first), Some(second)) => first != second,
        _ => false,
    }
}

/// Whether digits are a number of more than 64 bits.
fn is_too_great(digits: &str) -> bool {
    !digits.is_empty() && number_in(digits).is_none() && !digits.starts_with('0')
}
