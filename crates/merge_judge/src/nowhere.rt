//! An order that nobody reads.

ghost use Rattle.std.specs.Prelude.{[]};

use super::order::Order;
use log_file::{ByteSink, WriteFailed, WriteFault};
use mem_op::OpId;

/// A sink that takes all bytes and keeps none, and an order that writes no lines to it. It never
/// fails.
#[derive(Drop)]
pub(crate) struct Nowhere;

impl ByteSink for Nowhere {
    ghost failed = { λ _. 0 };

    fn write(&mut self, piece: &[u8]) -> Result<usize, WriteFailed> {
        Ok(piece.len())
    }

    fn failures(&self) -> u64 {
        0
    }
}

impl Order<Nowhere> for Nowhere {
    ghost kept = { λ _. [] };

    fn add(&mut self, _out: &mut Nowhere, _id: OpId) -> Result<(), WriteFault> {
        Ok(())
    }

    fn end(self, _out: &mut Nowhere, _count: u64) -> Result<(), WriteFault> {
        Ok(())
    }
}
