//! Tables of outcomes.

ghost use Rattle.std.specs.Prelude.{◌≡◌};

use super::test::Shown;
use std::marker::Model;

/// An outcome, how many runs had it, and whether the test forbids it.
#[derive(Debug, Drop)]
pub struct Row {
    /// The values of the shown registers, in their order.
    pub values: Vec<u64>,
    /// How many runs ended with them.
    pub count: u64,
    /// Whether the test forbids them.
    pub forbidden: bool,
}

impl Model for Row {
    ghost use Rattle.litmus.specs.TableParts.{RowParts};

    ghost Value = { RowParts };

    ghost view = { λ row. record { values = row.values.items; count = row.count; forbidden = row.forbidden } };
}

/// The outcomes of a test's runs.
#[derive(Drop)]
pub struct Table {
    shown: Vec<Shown>,
    rows: Vec<Row>,
}

impl Model for Table {
    ghost use Rattle.std.specs.Coded.{codes};
    ghost use Rattle.litmus.specs.TableParts.{TableParts};

    ghost Value = { TableParts };

    ghost view = { λ table. record { shown = table.shown.items; rows = table.rows.items } };
}

impl Table {
    /// The table of these rows, whose values are those of these registers.
    pub fn new(shown: Vec<Shown>, rows: Vec<Row>) -> Table
        ensures { result ≡ record { shown = shown.items; rows = rows.items } }
    {
        Table { shown, rows }
    }

    /// The registers whose values the rows have.
    pub fn shown(&self) -> &[Shown]
        ensures { result.now ≡ self.now.shown }
    {
        &self.shown
    }

    /// A row for each outcome, in ascending order of the values.
    pub fn rows(&self) -> &[Row]
        ensures { result.now ≡ self.now.rows }
    {
        &self.rows
    }
}
