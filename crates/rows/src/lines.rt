//! The lines of rows.

/// A line of rows.
#[derive(Clone, Copy)]
pub enum Line<'a> {
    /// Nothing, or a remark.
    Nothing,
    /// Another row begins: all files go.
    Row,
    /// A file begins.
    File(&'a str),
    /// This many files begin; their names are the numbers from 0 on.
    Files(u64),
    /// The folder takes this many files.
    Room(usize),
    /// A line of the files that were begun last, or of the file that a call put.
    Text(&'a str),
    /// The same without its line feed.
    Part(&'a str),
    /// This many lines, each with its number in place of `%`.
    Lines(u64, &'a str),
    /// Bytes in hexadecimal.
    Bytes(&'a str),
    /// The words of a call.
    Call(&'a str),
    /// A line that the call prints.
    Printed(&'a str),
    /// A line that the call tells on standard error.
    Told(&'a str),
    /// The call's status.
    Status(u8),
    /// A file that the call puts.
    Put(&'a str),
}

impl Line<'_> {
    /// Whether a call is whole before this line.
    pub fn ends_call(&self) -> bool {
        matches!(
            self,
            Line::Row | Line::File(_) | Line::Files(_) | Line::Room(_) | Line::Call(_)
        )
    }
}

/// A number of lines, and the line.
fn lines_in(rest: &str) -> Option<Line<'_>> {
    let (count, text) = rest.split_once(' ')?;
    Some(Line::Lines(count.parse().ok()?, text))
}

/// Reads a line; none if it isn't a line of rows.
pub fn read(line: &str) -> Option<Line<'_>> {
    let (head, rest) = line.split_once(' ').unwrap_or((line, ""));
    match head {
        "" | "#" => Some(Line::Nothing),
        "---" => Some(Line::Row),
        "file" => Some(Line::File(rest)),
        "files" => Some(Line::Files(rest.parse().ok()?)),
        "room" => Some(Line::Room(rest.parse().ok()?)),
        "|" => Some(Line::Text(rest)),
        "/" => Some(Line::Part(rest)),
        "*" => lines_in(rest),
        "x" => Some(Line::Bytes(rest)),
        "$" => Some(Line::Call(rest)),
        ">" => Some(Line::Printed(rest)),
        "!" => Some(Line::Told(rest)),
        "=" => Some(Line::Status(rest.parse().ok()?)),
        "+" => Some(Line::Put(rest)),
        _ => None,
    }
}
