//! The words about a line of a certificate: what it should be, and what has usually gone wrong; or what it says that the trace doesn't bear out.

use super::certified_orders::push_order_line;
use super::failed_steps::Asked;
use super::shown::Written;
use super::slips::{RefusedLine, is_feed};
use super::step_lines::push_bad_step;
use decimal_text::{after_text, read_last};
use log_file::line_of;
use refutation::{CertificateFault, Refutation, first_wrong_step};
use refuted_cases::{Names, Walk};
use std::alloc::{AllocError, Global};
use trace::Trace;

/// Adds the words about a line of a certificate of a trace.
pub(crate) fn push_certificate_line(
    told: &mut String,
    alloc: Global,
    trace: &Trace,
    at: &RefusedLine<'_>,
) -> Written {
    let before = line_of(at.text, at.place.line.saturating_sub(1));
    if before.starts_with(b"end ") {
        told.push_str("It comes after the line end, which is the last.\n")
    } else if at.text.starts_with(b"tardis-refutation 1\n") {
        push_step_line(told, alloc, trace, at)
    } else {
        push_order_line(told, alloc, trace, at)
    }
}

/// Adds what is told of a line of a refutation, after its first one.
fn push_step_line(
    told: &mut String,
    alloc: Global,
    trace: &Trace,
    at: &RefusedLine<'_>,
) -> Written {
    let before = at.place.line.saturating_sub(1);
    let Some(steps) = refutation_of(alloc, at.text, before)? else {
        return Ok(());
    };
    let is_whole = first_wrong_step(alloc, trace, &steps)?.is_none();
    if at.is_missing() || at.line.starts_with(b"end") {
        if is_whole {
            return push_end(told, at, before.saturating_sub(1));
        }
        return push_open(told, at);
    }
    if is_whole {
        return told.push_str(
            "The step before it closed the last case: here the line end is due, with the number of steps.\n",
        );
    }
    match refutation_of(alloc, at.text, at.place.line)? {
        None => push_bad_step(told, at),
        Some(_) if !at.is_whole() => {
            told.push_str("The file ends in the middle of a line: it is cut off.\n")
        }
        Some(steps) => push_wrong_step(told, alloc, trace, &steps),
    }
}

/// The refutation whose header and steps are the first so many lines of a text, if they are such.
fn refutation_of(alloc: Global, text: &[u8], lines: u64) -> Result<Option<Refutation>, AllocError> {
    let mut whole = Vec::new(alloc);
    push_lines(&mut whole, text, lines as usize)?;
    let end = format!(in alloc; "end {}\n", lines.saturating_sub(1))?;
    whole.extend_from_slice(end.as_bytes())?;
    match Refutation::parse(alloc, whole.as_slice()) {
        Ok(refutation) => Ok(Some(refutation)),
        Err(CertificateFault::BadCertificate { .. }) => Ok(None),
        Err(CertificateFault::OutOfMemory) => Err(AllocError),
    }
}

/// Adds the first so many lines of a text, each with its line feed.
fn push_lines(whole: &mut Vec<u8>, text: &[u8], lines: usize) -> Written {
    for line in text.split(is_feed).take(lines) {
        whole.extend_from_slice(line)?;
        whole.push(b'\n')?;
    }
    Ok(())
}

/// Adds what is told of the last line of a text, or where that is due: `end` and this number.
pub(crate) fn push_end(told: &mut String, at: &RefusedLine<'_>, count: u64) -> Written {
    let said = after_text(b"end ", at.line).and_then(|number| read_last(number));
    let is_right = said == Some(Some(count));
    if at.is_missing() {
        write!(
            told,
            "The file ends here, before its last line, which is end {count}.\n"
        )
    } else if !is_right {
        write!(told, "The last line has to be end {count}.\n")
    } else if !at.is_whole() {
        told.push_str("The file ends before the line feed of its last line: write one there too.\n")
    } else {
        Ok(())
    }
}

/// Adds that a case is open where no step follows.
fn push_open(told: &mut String, at: &RefusedLine<'_>) -> Written {
    if at.is_missing() {
        told.push_str("The file ends here.\n")?;
    }
    told.push_str(
        "A case is open still: each one is closed by a cycle, by a set of states or by a read without a range.\n",
    )
}

/// Adds which question of its rule the last step fails; those before it are right.
fn push_wrong_step(told: &mut String, alloc: Global, trace: &Trace, all: &Refutation) -> Written {
    let [before @ .., last] = all.as_slice() else {
        return Ok(());
    };
    let mut cases = Walk::new(alloc);
    for step in before {
        cases.follow(step)?;
    }
    let names = Names::none(alloc);
    let asked = Asked {
        trace,
        names: &names,
        steps: before,
        facts: cases.facts(),
    };
    asked.push_failure(told, alloc, last)
}
