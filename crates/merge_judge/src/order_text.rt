//! The text of an order, as a whole or written in pieces.

ghost use Rattle.std.specs.Prelude.{◌≡◌, ◌++◌, ℕ, List, [], IfOk, IsErrOf, OnOk, string_bytes};
ghost use Rattle.std.specs.Io.KnownBytes.{Appends};
ghost use Rattle.log_file.specs.Devices.{TellsFailure};
ghost use Rattle.merge_judge.specs.OrderText.{end_line, id_line, order_text};
ghost use Rattle.merge_judge.specs.inner.Writing.{IsWritten};

use super::order::Order;
use itoa::Buffer;
use log_file::{ByteSink, WriteFault, write_all};
use mem_op::OpId;
use std::alloc::{AllocError, Global};
use std::marker::Model;

/// How many bytes fill a piece. A write has at most a line more.
const ORDER_PIECE_BYTES: usize = 65_536;

/// The unwritten lines of an order. It writes them when they fill a piece, and at the end.
#[derive(Drop)]
pub(crate) struct OrderText {
    text: String,
}

impl Model for OrderText {
    ghost use Rattle.std.specs.Prelude.{List, ℕ, string_bytes};

    ghost Value = { List ℕ };

    ghost view = { λ order. string_bytes order.text };
}

/// Adds the line of an id to a text.
fn push_id(text: &mut String, id: OpId) -> Result<(), AllocError>
    ensures { OnOk result (string_bytes text.new ≡ string_bytes text.old ++ id_line id) }
{
    let mut digits = Buffer::new();
    text.push_str(digits.format(id.core.get()))?;
    text.push('.')?;
    text.push_str(digits.format(id.index.get()))?;
    text.push('\n')
}

/// Adds the last line to a text.
fn push_end(text: &mut String, count: u64) -> Result<(), AllocError>
    ensures { OnOk result (string_bytes text.new ≡ string_bytes text.old ++ end_line count) }
{
    writeln!(text, "end {count}")
}

/// The text of an order. Err if memory was refused.
pub fn print_order(alloc: Global, order: &[OpId]) -> Result<String, AllocError>
    ensures { IfOk result (λ text. string_bytes text ≡ order_text order.now) }
{
    let mut text = String::new(alloc);
    'printing: for id in order {
        push_id(&mut text, *id)?;
    }
    push_end(&mut text, order.len() as u64)?;
    Ok(text)
}

impl OrderText {
    /// No lines yet. Err if memory was refused.
    pub(crate) fn new(alloc: Global) -> Result<OrderText, AllocError>
        ensures { IfOk result (λ order. order ≡ []) }
    {
        Ok(OrderText {
            text: String::with_capacity(alloc, ORDER_PIECE_BYTES)?,
        })
    }

    /// Writes all of the lines.
    fn flush<W: ByteSink>(&mut self, out: &mut W) -> Result<(), WriteFault>
        ensures lines { OnOk result (self.new ≡ []) }
        ensures written { IsWritten (W.contents out.old) (W.contents out.new) self.old result [] }
        ensures failures { TellsFailure (IsErrOf result WriteFault.Write) (W.failed out.old) (W.failed out.new) }
    {
        write_all(out, self.text.as_bytes())?;
        self.text.clear();
        Ok(())
    }
}

impl<W: ByteSink> Order<W> for OrderText {
    ghost kept = { λ order. order };

    fn add(&mut self, out: &mut W, id: OpId) -> Result<(), WriteFault> {
        push_id(&mut self.text, id)?;
        if self.text.len() < ORDER_PIECE_BYTES {
            return Ok(());
        }
        self.flush(out)
    }

    fn end(mut self, out: &mut W, count: u64) -> Result<(), WriteFault> {
        push_end(&mut self.text, count)?;
        self.flush(out)
    }
}
