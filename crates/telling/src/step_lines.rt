//! How the steps of a refutation are written, and the slips that the line of one may have.

use super::shown::{Bytes, Written};
use super::slips::{RefusedLine, Shape, Trouble, push_shape, push_trouble, shape_of, trouble_of};

/// The shapes of steps.
const STEPS: [Shape; 5] = [
    (
        "A read",
        "read C.I : F..L .., with ranges from F to L, each of them C.I or init, or one point alone where both are the same",
    ),
    (
        "A from-read",
        "from-read N C.I : N .., with the number of a fact, a store or swap, and the numbers of facts",
    ),
    (
        "A write-order",
        "write-order N C.I : N .., with the number of a fact, a store or swap, and the numbers of facts",
    ),
    ("A cycle", "cycle : N .., with the numbers of facts"),
    (
        "A set of states",
        "states A .. | I .. : V .., with addresses, and of each state an index of each core and a word of each address; one that is dead is ! I .. : V .. : L .., with limits",
    ),
];

/// The words about a line that begins as no step does.
const NO_STEP: &str =
    "A step begins with read, from-read, write-order, cycle or states; the last line is end N, with the number of steps.\n";

/// Whether a line of a refutation begins with this word, today or in an older format.
pub(crate) fn begins_step(first: &str) -> bool {
    first == "order" || shape_of(&STEPS, first).is_some()
}

/// Adds how a step like this one is written, and what has usually gone wrong in it.
pub(crate) fn push_bad_step(told: &mut String, at: &RefusedLine<'_>) -> Written {
    let first = at.first_word();
    match shape_of(&STEPS, first) {
        Some(shape) => push_shape(told, shape),
        None => told.push_str(NO_STEP),
    }?;
    if first == "order" {
        return told.push_str(
            "A step order is of an older format: search --refutation OUT writes a new refutation.\n",
        );
    }
    if let Some(slip) = at.slip() {
        return write!(told, "{slip}\n");
    }
    if first != "states" && begins_step(first) && !at.words.contains(&":") {
        return told.push_str("Its colon is missing, with a space before it.\n");
    }
    push_words(told, at.words)
}

/// Adds what is wrong with the first of these words that is wrong, but for the one that a step begins with.
fn push_words(told: &mut String, words: &[&str]) -> Written {
    for word in words.iter().skip(1) {
        let (first, last) = word.split_once("..").unwrap_or((*word, ""));
        if first == last {
            let point = Bytes(first.as_bytes());
            return write!(
                told,
                "A range of one point is written as that alone, {point}.\n"
            );
        }
        if let Some(found) = part_trouble(first).or(part_trouble(last)) {
            return push_trouble(told, found.0, found.1, found.2);
        }
    }
    Ok(())
}

/// What a part of a word is called, the part, and what is wrong with it, if something is.
fn part_trouble(part: &str) -> Option<(&'static str, &str, Trouble)> {
    if matches!(part, "" | ":" | "|" | "!") {
        return None;
    }
    let (name, field) = if part.contains('.') || part == "init" {
        ("id", "source")
    } else {
        ("number", "value")
    };
    Some((name, part, trouble_of(field, part)?))
}
