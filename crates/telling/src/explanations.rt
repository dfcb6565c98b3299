//! An explanation of a verdict as text: a sentence, the facts behind it, and a table of what stands around.

use super::findings::{at, first_sentence, push_culprit, push_times};
use super::shown::{Number, Plain, Written};
use core_program::print_instruction;
use explain::{
    Departure, Explanation, Fall, FaultCounts, Summary, Use, WrongRead, kind_name, named_id,
    place_of,
};
use log_record::{Act, Entry};
use mem_op::Word;
use refuted_cases::Names;
use std::alloc::{AllocError, Global};
use std::fmt;
use std::fmt::Display;

/// The text of an explanation, which belongs after the line of its verdict. These are the names of the files, that of core 0
/// first, and the names of addresses, which stand in place of those in all but the lines of the files.
pub fn print(
    alloc: Global,
    files: &[&str],
    names: &Names,
    explanation: &Explanation,
) -> Result<String, AllocError> {
    let mut text = match explanation {
        Explanation::Summed(_) => Ok(String::new(alloc)),
        _ => first_sentence(alloc, names, explanation),
    }?;
    match explanation {
        Explanation::Load(found) => push_wrong_read(alloc, files, names, &mut text, found),
        Explanation::CoreOrder(fall) => push_fall(files, &mut text, fall),
        Explanation::Program(departure) => push_departure(alloc, files, &mut text, departure),
        Explanation::Summed(summary) => push_summary(&mut text, names, summary),
    }?;
    Ok(text)
}

/// A record's line, and where it stands, in these files: the first record of a file is its second line. Where there is none, other words.
#[derive(Clone, Copy)]
struct Line<'n, 'e, 'w>(&'n [&'n str], Option<&'e Entry>, &'w str);

impl<'n, 'e, 'w> Display for Line<'n, 'e, 'w> {
    fn fmt<W: fmt::Write>(&self, f: &mut fmt::Formatter<W>) -> fmt::Result {
        let Some(entry) = self.1 else {
            return f.write_str(self.2);
        };
        let (core, number) = (entry.id.core.get(), entry.id.index.get() + 2);
        write!(f, "file {core}")?;
        if let Some(name) = self.0.get(core as usize) {
            write!(f, " ({})", Plain(name))?;
        }
        write!(f, " line {number}: {}", entry.logged)
    }
}

/// Adds the text of a load or a swap that breaks a rule.
fn push_wrong_read(
    alloc: Global,
    files: &[&str],
    names: &Names,
    text: &mut String,
    found: &WrongRead,
) -> Written {
    push_culprit(text, found)?;
    push_times(text, found)?;
    push_lines(alloc, files, text, found)?;
    push_counts(text, names, &found.faults)?;
    push_tables(text, alloc, names, found)
}

/// Adds the lines of a load, of what it should read, and of what it names.
fn push_lines(alloc: Global, files: &[&str], text: &mut String, found: &WrongRead) -> Written {
    let unknown = match named_id(&found.load) {
        None => String::from_str(alloc, "the initial 0"),
        Some(id) => format!(in alloc; "{id}, which isn't in the logs"),
    }?;
    write!(
        text,
        "\n\nthe {}        {}\nit should read  {}\nit names        {}\nits last there  {}\n",
        kind_name(&found.load),
        Line(files, Some(&found.load), ""),
        Line(files, found.right.as_ref(), "the initial 0"),
        Line(files, found.named.as_ref(), unknown.as_str()),
        Line(files, found.own_last.as_ref(), "none")
    )
}

/// Adds how many operations break SOURCE or VALUE.
fn push_counts(text: &mut String, names: &Names, faults: &FaultCounts) -> Written {
    write!(
        text,
        "faults          {} SOURCE, {} VALUE, by the keys\nof cores        {}\nat addresses    {}",
        faults.source,
        faults.value,
        ByCore(faults.by_core.as_slice()),
        Uses(names, faults.most.as_slice())
    )?;
    match faults.addresses.saturating_sub(faults.most.len()) {
        0 => text.push('\n'),
        others => write!(text, " and {others} more\n"),
    }
}

/// Adds the tables of what stands around a load.
fn push_tables(text: &mut String, alloc: Global, names: &Names, found: &WrongRead) -> Written {
    let own = found.own_rows.as_slice();
    push_table(
        text,
        alloc,
        names,
        found.rows.as_slice(),
        &found.load,
        false,
    )?;
    push_table(text, alloc, names, own, &found.load, true)?;
    match &found.right {
        Some(right) if place_of(own, right.id).is_none() => {
            push_table(text, alloc, names, found.right_rows.as_slice(), right, true)
        }
        _ => Ok(()),
    }
}

/// How many faults each core has, of those that have some.
#[derive(Clone, Copy)]
struct ByCore<'a>(&'a [usize]);

impl<'a> Display for ByCore<'a> {
    fn fmt<W: fmt::Write>(&self, f: &mut fmt::Formatter<W>) -> fmt::Result {
        let mut between = "";
        for (core, count) in self.0.iter().enumerate() {
            if *count > 0 {
                write!(f, "{between}{core} ({count})")?;
                between = ", ";
            }
        }
        Ok(())
    }
}

/// Adds the text of a log that falls.
fn push_fall(files: &[&str], text: &mut String, fall: &Fall) -> Written {
    let mut faults = 0usize;
    for count in &fall.by_core {
        faults = faults.saturating_add(*count);
    }
    write!(
        text,
        "\n\nbefore it  {}\nthe fault  {}\nfaults     {faults} CORE-ORDER\nof cores   {}\n",
        Line(files, Some(&fall.before), ""),
        Line(files, Some(&fall.fault), ""),
        ByCore(fall.by_core.as_slice())
    )
}

/// Adds the text of a log that isn't its program's.
fn push_departure(
    alloc: Global,
    files: &[&str],
    text: &mut String,
    departure: &Departure,
) -> Written {
    match &departure.due {
        None => text.push_str("\n\ndue        the end of the program"),
        Some(due) => {
            let (line, due) = (due.line, print_instruction(alloc, &due.instruction)?);
            write!(text, "\n\ndue        programs line {line}: {due}")
        }
    }?;
    write!(
        text,
        "\nregisters  {}\nfound      {}\n",
        Registers(&departure.registers),
        Line(files, departure.found.as_ref(), "the end of the log")
    )
}

/// The registers that hold something else than 0.
#[derive(Clone, Copy)]
struct Registers<'a>(&'a [Word; 16]);

impl<'a> Display for Registers<'a> {
    fn fmt<W: fmt::Write>(&self, f: &mut fmt::Formatter<W>) -> fmt::Result {
        let mut rest = "all 0";
        for (number, word) in self.0.iter().enumerate() {
            if *word != 0 {
                write!(f, "r{number} {}, ", Number(*word))?;
                rest = "the others 0";
            }
        }
        f.write_str(rest)
    }
}

/// Adds what a set has that gets Yes.
fn push_summary(text: &mut String, names: &Names, summary: &Summary) -> Written {
    write!(
        text,
        "\ncores          {}\nloads          {}\nstores         {}\n",
        summary.cores, summary.loads, summary.stores
    )?;
    if summary.swaps > 0 {
        write!(text, "swaps          {}\n", summary.swaps)?;
    }
    let uses = Uses(names, summary.most_used.as_slice());
    write!(
        text,
        "addresses      {}\nmost used      {uses}\nstamps         ",
        summary.addresses
    )?;
    match &summary.stamps {
        Some((least, greatest)) => write!(text, "{} to {}", least.get(), greatest.get()),
        None => text.push_str("none"),
    }?;
    write!(text, "\nshared stamps  {} operations\n", summary.sharing)
}

/// The most used addresses, each with the number of its operations.
#[derive(Clone, Copy)]
struct Uses<'a>(&'a Names, &'a [Use]);

impl<'a> Display for Uses<'a> {
    fn fmt<W: fmt::Write>(&self, f: &mut fmt::Formatter<W>) -> fmt::Result {
        if self.1.is_empty() {
            return f.write_str("none");
        }
        for (place, it) in self.1.iter().enumerate() {
            let between = if place == 0 { "" } else { ", " };
            write!(f, "{between}{} ({})", at(self.0, it.addr), it.operations)?;
        }
        Ok(())
    }
}

/// The names of the columns of a table, with tabs between.
const HEADS: &str = "  op\tstamp\trank\tact\taddress\tvalue\tsource";

/// How wide these are.
const WIDTHS: [usize; 7] = [4, 5, 4, 3, 7, 5, 6];

/// The same in a table of one address, which has no column of addresses.
const NARROW: [usize; 7] = [4, 5, 4, 3, 0, 5, 6];

/// Which columns are of numbers, which stand at their right.
const ARE_NUMBERS: [bool; 7] = [false, true, true, false, true, true, false];

/// The cells of a record, with tabs between: its mark and id, its key, what it did, its address, its word, or those that a swap read and
/// stored, and where it says that the word which it read came from.
#[derive(Clone, Copy)]
struct Row<'a>(&'a Names, char, &'a Entry);

impl<'a> Display for Row<'a> {
    fn fmt<W: fmt::Write>(&self, f: &mut fmt::Formatter<W>) -> fmt::Result {
        let (mark, entry) = (self.1, self.2);
        let (id, key, kind) = (entry.id, entry.key(), kind_name(entry));
        let (stamp, rank, addr) = (key.ts.get(), key.rank.get(), at(self.0, entry.logged.addr));
        write!(f, "{mark} {id}\t{stamp}\t{rank}\t{kind}\t{addr}\t")?;
        if let Act::Swap(_, read) = &entry.logged.act() {
            write!(f, "{read} -> ")?;
        }
        write!(f, "{}\t", entry.logged.value)?;
        match (named_id(entry), &entry.logged.act()) {
            (Some(source), _) => source.fmt(f),
            (None, Act::Store) => Ok(()),
            (None, _) => f.write_str("init"),
        }
    }
}

/// Adds a table of records with a line before it: of those of one core, or of one address. `>` marks a record, and `*` the others at its
/// address, where the table is of a core.
fn push_table(
    text: &mut String,
    alloc: Global,
    names: &Names,
    entries: &[Entry],
    marked: &Entry,
    is_of_core: bool,
) -> Written {
    let (core, addr) = (marked.id.core.get(), at(names, marked.logged.addr));
    match is_of_core {
        true => write!(text, "\ncore {core} in program order:\n"),
        false => write!(text, "\naddress {addr} by key:\n"),
    }?;
    let rows = rows(alloc, names, entries, marked, is_of_core)?;
    let widths = widened(if is_of_core { WIDTHS } else { NARROW }, rows.as_str());
    for row in rows.lines() {
        push_row(text, alloc, row, &widths)?;
    }
    Ok(())
}

/// The lines of a table, in which tabs stand between the cells.
fn rows(
    alloc: Global,
    names: &Names,
    entries: &[Entry],
    marked: &Entry,
    is_of_core: bool,
) -> Result<String, AllocError> {
    let mut rows = String::from_str(alloc, HEADS)?;
    for entry in entries {
        let mark = match entry {
            entry if entry.id == marked.id => '>',
            entry if is_of_core && entry.logged.addr == marked.logged.addr => '*',
            _ => ' ',
        };
        write!(rows, "\n{}", Row(names, mark, entry))?;
    }
    Ok(rows)
}

/// These widths, widened for the cells of lines.
fn widened(least: [usize; 7], rows: &str) -> [usize; 7] {
    let mut widths = least;
    for row in rows.lines() {
        widen(&mut widths, row);
    }
    widths
}

/// Widens columns for the cells of a row.
fn widen(widths: &mut [usize; 7], row: &str) {
    for (column, cell) in row.split('\t').enumerate() {
        if column < widths.len() && widths[column] > 0 {
            widths[column] = widths[column].max(cell.len());
        }
    }
}

/// Adds the line of a row with its cells in columns of these widths, without spaces at its end. A column without a width is left out.
fn push_row(text: &mut String, alloc: Global, row: &str, widths: &[usize; 7]) -> Written {
    let mut line = String::new(alloc);
    for (column, cell) in row.split('\t').enumerate() {
        if column < widths.len() && widths[column] > 0 {
            let width = widths[column];
            if ARE_NUMBERS[column] {
                write!(line, "{cell:>width$}  ")
            } else {
                write!(line, "{cell:<width$}  ")
            }?;
        }
    }
    write!(text, "{}\n", line.trim_end())
}
