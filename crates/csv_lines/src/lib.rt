//! Lines of comma-separated values, made in memory. Their cells need no quotes.
#![tactic(auto)]

ghost use Rattle.std.specs.Prelude.{◌≡◌, ◌∷◌, ◌++◌, [], Some, IfOk, OnOk};
ghost use Rattle.std.specs.Io.KnownBytes.{Appends};
ghost use Rattle.csv.specs.Records.{fields_of};
ghost use Rattle.decimal_text.specs.Numbers.{numeral};
ghost use Rattle.csv_lines.specs.Lines.{cells_line, IsFresh, IsPlainRow, written};

use csv::{StringRecord, Terminator, Writer, WriterBuilder};
use decimal_text::print_number;
use std::alloc::{AllocError, Global};

/// A writer that has written nothing.
pub fn new_writer(alloc: Global) -> Writer<Vec<u8>>
    ensures fresh { IsFresh result }
    ensures none { written result ≡ Some [] }
{
    WriterBuilder::new()
        .terminator(Terminator::Any(b'\n'))
        .from_writer(Vec::new(alloc))
}

/// Adds a number's cell. Err if memory was refused.
pub fn push_number(alloc: Global, cells: &mut StringRecord, number: u64) -> Result<(), AllocError>
    ensures { OnOk result (fields_of cells.new ≡ fields_of cells.old ++ numeral number ∷ []) }
{
    let text = print_number(alloc, number)?;
    cells.push_field(text.as_str())?;
    Ok(())
}

/// Adds a cell that has nothing in it. Err if memory was refused.
pub fn push_blank(cells: &mut StringRecord) -> Result<(), AllocError>
    ensures { OnOk result (fields_of cells.new ≡ fields_of cells.old ++ [] ∷ []) }
{
    cells.push_field("")?;
    Ok(())
}

/// Writes a line of these cells. Err if memory was refused.
pub fn write_line(writer: &mut Writer<Vec<u8>>, cells: &StringRecord) -> Result<(), AllocError>
    requires { IsPlainRow (fields_of cells.now) }
    ensures text { OnOk result (IsFresh writer.old
        → Appends (written writer.old) (written writer.new) (cells_line (fields_of cells.now))) }
    ensures fresh { OnOk result (IsFresh writer.old → IsFresh writer.new) }
{
    match writer.write_byte_record(cells.as_byte_record()) {
        Ok(()) => Ok(()),
        Err(_) => Err(AllocError),
    }
}

/// The text that a writer has written. Err if memory was refused.
pub fn text_of(writer: Writer<Vec<u8>>) -> Result<Vec<u8>, AllocError>
    ensures { IfOk result (λ text. written writer ≡ Some text.items) }
{
    match writer.into_inner() {
        Ok(text) => Ok(text),
        Err(_) => Err(AllocError),
    }
}
