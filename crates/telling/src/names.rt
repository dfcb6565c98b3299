//! The words about a line of names.

use super::shown::Written;
use super::slips::{RefusedLine, push_trouble, trouble_of};

/// How the lines of names are written.
const LINES: &str =
    "A line of names is written ADDRESS NAME, a number in digits and a name of 1 to 64 printable characters of ASCII, the first of them no digit.\n";

/// Adds how the lines of names are written, and what has usually gone wrong in one like this.
pub(crate) fn push_names_line(text: &mut String, at: &RefusedLine<'_>) -> Written {
    text.push_str(LINES)?;
    if let Some(slip) = at.slip() {
        return write!(text, "{slip}\n");
    }
    let first = at.first_word();
    match trouble_of("address", first) {
        Some(trouble) => push_trouble(text, "address", first, trouble),
        None if !at.is_whole() => {
            text.push_str("The file ends in the middle of a line: it is cut off.\n")
        }
        None => Ok(()),
    }
}
