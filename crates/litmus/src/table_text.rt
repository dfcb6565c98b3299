//! Tables as comma-separated values.

ghost use Rattle.std.specs.Prelude.{◌≡◌, ◌≤◌, ℕ, length, string_bytes, take, IfOk, IsErrOf, OnOk};
ghost use Rattle.std.specs.Io.KnownBytes.{Appends};
ghost use Rattle.csv.specs.Records.{fields_of};
ghost use Rattle.litmus.specs.TestGrammar.{shown_text};
ghost use Rattle.litmus.specs.TableText.{header_cells, row_cells, table_text};
ghost use Rattle.log_file.specs.Devices.{Failed};

use super::table::{Row, Table};
use super::test::Shown;
use csv::StringRecord;
use csv_lines::{new_writer, push_number, text_of, write_line};
use log_file::{ByteSink, WriteFault, write_all};
use std::alloc::{AllocError, Global};

/// The name of a register of a core, as tests have it.
#[tactic(auto, using(decimal_text::proofs::Printing::numeral_decimal), unfolding(crate::specs::TestGrammar::shown_text))]
fn print_shown(alloc: Global, shown: &Shown) -> Result<String, AllocError>
    ensures { IfOk result (λ text. string_bytes text ≡ shown_text shown.now) }
{
    let core = shown.core.get();
    let register = shown.register.get();
    format!(in alloc; "{core}.r{register}")
}

/// The cells of the first line.
fn header_cells(alloc: Global, shown: &[Shown]) -> Result<StringRecord, AllocError>
    ensures { IfOk result (λ cells. fields_of cells ≡ header_cells shown.now) }
{
    let mut cells = StringRecord::new(alloc);
    for one in shown {
        let text = print_shown(alloc, one)?;
        cells.push_field(text.as_str())?;
    }
    cells.push_field("count")?;
    cells.push_field("forbidden")?;
    Ok(cells)
}

/// The cells of a row.
fn row_cells(alloc: Global, row: &Row) -> Result<StringRecord, AllocError>
    ensures { IfOk result (λ cells. fields_of cells ≡ row_cells row.now) }
{
    let mut cells = StringRecord::new(alloc);
    for value in &row.values {
        push_number(alloc, &mut cells, *value)?;
    }
    push_number(alloc, &mut cells, row.count)?;
    cells.push_field(if row.forbidden { "yes" } else { "no" })?;
    Ok(cells)
}

/// The text of a table.
fn print_table(alloc: Global, table: &Table) -> Result<Vec<u8>, AllocError>
    ensures { IfOk result (λ text. text.items ≡ table_text table.now) }
{
    let mut writer = new_writer(alloc);
    write_line(&mut writer, &header_cells(alloc, table.shown())?)?;
    for row in table.rows() {
        write_line(&mut writer, &row_cells(alloc, row)?)?;
    }
    text_of(writer)
}

/// Writes a table as comma-separated values: a line of the shown registers, `count` and `forbidden`, and then a line for
/// each row. It makes the text first: 10 comes if memory ran out. 29 comes if a write failed; what the sink took by then is
/// a beginning of the text.
pub fn write_table<W: ByteSink>(
    alloc: Global,
    sink: &mut W,
    table: &Table,
) -> Result<(), WriteFault>
    ensures written { OnOk result
        (Appends (W.contents sink.old) (W.contents sink.new) (table_text table.now)) }
    ensures begun { (n : ℕ) × (n ≤ length (table_text table.now))
        × Appends (W.contents sink.old) (W.contents sink.new) (take n (table_text table.now)) }
    // It answers that a write failed only if the sink failed in this call.
    ensures failed { IsErrOf result WriteFault.Write →
        Failed (W.failed sink.old) (W.failed sink.new) }
    // If there was no memory for the text, it wrote nothing.
    ensures unmade { IsErrOf result WriteFault.OutOfMemory → sink.new ≡ sink.old }
    // And it passes over no failed write.
    ensures quiet { ¬ IsErrOf result WriteFault.Write → W.failed sink.new ≡ W.failed sink.old }
{
    let text = print_table(alloc, table)?;
    Ok(write_all(sink, text.as_slice())?)
}
