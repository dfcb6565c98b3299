//! The text of the table.

ghost use Rattle.std.specs.Prelude.{◌≡◌, ◌<◌, ◌≤◌, ◌∷◌, ◌++◌, [], Some, length, map, string_bytes, take, IfOk, OnOk};
ghost use Rattle.std.specs.Io.KnownBytes.{Appends};
ghost use Rattle.csv.specs.Records.{fields_of};
ghost use Rattle.csv_lines.specs.Lines.{IsFresh, cells_line, written};
ghost use Rattle.statistics.specs.Numbers.{core_counts, slice_counts, totals_of};
ghost use Rattle.statistics.specs.TableText as text;

use super::column::{COLUMN_COUNT, COLUMNS, Column, column_at};
use super::numbers::Numbers;
use super::run_counts::first;
use core_unit::CoreUnit;
use csv::{StringRecord, Writer};
use csv_lines::{new_writer, push_blank, push_number, text_of, write_line};
use manager_slice::ManagerSlice;
use std::alloc::{AllocError, Global};

/// Whose numbers a line has.
#[derive(Clone, Copy, Debug, PartialEq, Eq)]
pub(crate) enum Whose {
    /// One core, by its number.
    Core(usize),
    /// All cores.
    Cores,
    /// One slice, by its number.
    Slice(usize),
    /// All runs.
    Runs,
}

impl Whose {
    /// The first cell of the line.
    #[tactic(auto, using(decimal_text::proofs::Printing::numeral_decimal))]
    fn name(self, alloc: Global) -> Result<String, AllocError>
        ensures { IfOk result (λ name. string_bytes name ≡ text.whose_name self) }
    {
        match self {
            Whose::Core(number) => format!(in alloc; "core {number}"),
            Whose::Slice(number) => format!(in alloc; "slice {number}"),
            Whose::Cores | Whose::Runs => format!(in alloc; "total"),
        }
    }

    /// Whether the line has a number in a column.
    fn has(self, column: Column) -> bool
        ensures { result ≡ text.has_column self column }
    {
        match self {
            Whose::Core(_) | Whose::Cores => !column.is_of_slices(),
            Whose::Slice(_) => column.is_of_slices(),
            Whose::Runs => true,
        }
    }
}

/// The cells of the first line.
fn header_cells(alloc: Global) -> Result<StringRecord, AllocError>
    ensures { IfOk result (λ cells. fields_of cells ≡ text.header_cells) }
{
    let mut cells = StringRecord::new(alloc);
    cells.push_field("part")?;
    for column in COLUMNS {
        cells.push_field(column.name())?;
    }
    Ok(cells)
}

/// Adds the cell of the column at a place.
#[tactic(auto, unfolding(crate::specs::TableText::cell))]
fn push_cell(
    alloc: Global,
    cells: &mut StringRecord,
    whose: Whose,
    numbers: &Numbers,
    place: usize,
) -> Result<(), AllocError>
    requires { place < COLUMN_COUNT }
    ensures { OnOk result (fields_of cells.new ≡ fields_of cells.old ++ text.cell whose numbers.now place ∷ []) }
{
    if whose.has(column_at(place)) {
        push_number(alloc, cells, numbers.values[place])
    } else {
        push_blank(cells)
    }
}

/// The cells of a line.
#[tactic(auto, unfolding(crate::specs::TableText::row_cells))]
fn row_cells(alloc: Global, whose: Whose, numbers: &Numbers) -> Result<StringRecord, AllocError>
    ensures { IfOk result (λ cells. fields_of cells ≡ text.row_cells whose numbers.now) }
{
    let mut cells = StringRecord::new(alloc);
    let name = whose.name(alloc)?;
    cells.push_field(name.as_str())?;
    for place in 0..COLUMN_COUNT {
        push_cell(alloc, &mut cells, whose, numbers, place)?;
    }
    Ok(cells)
}

/// Writes a line of the table.
fn write_row(
    alloc: Global,
    writer: &mut Writer<Vec<u8>>,
    whose: Whose,
    numbers: &Numbers,
) -> Result<(), AllocError>
    ensures text { OnOk result (IsFresh writer.old
        → Appends (written writer.old) (written writer.new) (cells_line (text.row_cells whose numbers.now))) }
    ensures fresh { OnOk result (IsFresh writer.old → IsFresh writer.new) }
{
    write_line(writer, &row_cells(alloc, whose, numbers)?)
}

/// A table that has only its first line.
#[tactic(auto, using(crate::proofs::Plain::header_plain))]
fn begin_table(alloc: Global) -> Result<Writer<Vec<u8>>, AllocError>
    ensures fresh { IfOk result (λ writer. IsFresh writer) }
    ensures text { IfOk result (λ writer. written writer ≡ Some (cells_line text.header_cells)) }
{
    let mut writer = new_writer(alloc);
    write_line(&mut writer, &header_cells(alloc)?)?;
    Ok(writer)
}

/// Writes the lines of cores, core 0's first. The totals over them.
fn write_cores(
    alloc: Global,
    writer: &mut Writer<Vec<u8>>,
    units: &[CoreUnit],
) -> Result<Numbers, AllocError>
    requires { length units.now ≤ 64 }
    ensures text { OnOk result (IsFresh writer.old
        → Appends (written writer.old) (written writer.new) (text.lines_of Whose.Core (map core_counts units.now))) }
    ensures totals { IfOk result (λ totals. totals ≡ totals_of (map core_counts units.now)) }
    ensures fresh { OnOk result (IsFresh writer.old → IsFresh writer.new) }
{
    let mut totals = Numbers::none();
    for (core, unit) in units.iter().enumerate() {
        let numbers = Numbers::of_core(unit);
        write_row(alloc, writer, Whose::Core(core), &numbers)?;
        totals.join(&numbers);
    }
    Ok(totals)
}

/// Writes the lines of slices, slice 0's first.
fn write_slices(
    alloc: Global,
    writer: &mut Writer<Vec<u8>>,
    managers: &[ManagerSlice],
) -> Result<(), AllocError>
    ensures text { OnOk result (IsFresh writer.old
        → Appends (written writer.old) (written writer.new) (text.lines_of Whose.Slice (map slice_counts managers.now))) }
    ensures fresh { OnOk result (IsFresh writer.old → IsFresh writer.new) }
{
    for (number, slice) in managers.iter().enumerate() {
        write_row(
            alloc,
            writer,
            Whose::Slice(number),
            &Numbers::of_slice(slice),
        )?;
    }
    Ok(())
}

/// The text of the numbers of so many cores and slices of a run, or of all if there are fewer: comma-separated values, a line for the
/// columns, one for each core, one for all cores, and one for each slice. Err if memory was refused.
pub fn print_statistics(
    alloc: Global,
    units: &[CoreUnit],
    managers: &[ManagerSlice],
    cores: usize,
    slices: usize,
) -> Result<Vec<u8>, AllocError>
    requires { length (take cores units.now) ≤ 64 }
    ensures { IfOk result (λ made. made.items
        ≡ text.statistics_text (map core_counts (take cores units.now)) (map slice_counts (take slices managers.now))) }
{
    let mut writer = begin_table(alloc)?;
    let totals = write_cores(alloc, &mut writer, first(units, cores))?;
    write_row(alloc, &mut writer, Whose::Cores, &totals)?;
    write_slices(alloc, &mut writer, first(managers, slices))?;
    text_of(writer)
}

/// The text of the totals over runs: comma-separated values, a line for the columns and one for all runs. Err if memory was refused.
pub fn print_totals(alloc: Global, totals: &Numbers) -> Result<Vec<u8>, AllocError>
    ensures { IfOk result (λ made. made.items ≡ text.totals_text totals.now) }
{
    let mut writer = begin_table(alloc)?;
    write_row(alloc, &mut writer, Whose::Runs, totals)?;
    text_of(writer)
}
