//! The state of a slice.

ghost use Rattle.std.specs.Prelude.{◌≡◌, None, Some, IfSome, OnOk, OnErr, IfOk, [], nat_eq};
ghost use Rattle.std.specs.FinMap as map;
ghost use Rattle.std.specs.Map.{lookup};
ghost use Rattle.manager_slice.specs.declared.managed.ManagedLine.TheVariants.{Shared};
ghost use Rattle.manager_slice.specs.Changes.{after_eviction, served, spilled};

use super::lines::ServedLines;
use super::managed::ManagedLine;
use line_stamps::Line;
use mem_op::Addr;
use memory_stamp::MemorySlice;
use std::alloc::{AllocError, Global};

/// The state of a slice: its lines, and the memory below them.
#[derive(Drop)]
pub struct SliceState {
    /// The lines, in order of service.
    pub lines: ServedLines,
    /// The memory below, which fills lines and takes evicted ones.
    pub memory: MemorySlice,
}

impl SliceState {
    /// No lines, and nothing in memory.
    pub(crate) fn new(alloc: Global) -> Result<SliceState, AllocError>
        ensures { IfOk result (λ state. state ≡ record {
          lines = [];
          memory = record { words = map.empty; mts = 0; mrank = 0 };
        }) }
    {
        Ok(SliceState {
            lines: ServedLines::new(alloc)?,
            memory: MemorySlice::new(alloc),
        })
    }

    /// Sends a line to memory, and takes it out of the slice. A refusal changes nothing.
    pub(crate) fn evict(&mut self, addr: Addr, line: &Line) -> Result<(), AllocError>
        ensures ok { OnOk result (self.new ≡ spilled self.old addr line.now) }
        ensures err { OnErr result (self.new ≡ self.old) }
    {
        self.memory.put_back(addr, line)?;
        self.lines.remove(addr);
        Ok(())
    }

    /// Evicts the line that gives way, if there is one, and puts the line at the address. A refusal changes nothing.
    pub(crate) fn serve(
        &mut self,
        evicted: &Option<(Addr, Line)>,
        addr: Addr,
        line: ManagedLine,
    ) -> Result<(), AllocError>
        requires { IfSome evicted.now (λ e. (lookup (nat_eq addr) self.old.lines ≡ None)
            × (lookup (nat_eq e.0) self.old.lines ≡ Some (Shared e.1))) }
        ensures ok { OnOk result (self.new ≡ served (after_eviction evicted.now self.old) addr line) }
        ensures err { OnErr result (self.new ≡ self.old) }
    {
        let Some((victim, spilled)) = evicted else {
            return self.lines.serve(addr, line);
        };
        // Of the two growths, the one that can be undone comes first.
        self.lines.serve(addr, line)?;
        if let Err(refused) = self.memory.put_back(*victim, spilled) {
            self.lines.remove(addr);
            return Err(refused);
        }
        self.lines.remove(*victim);
        Ok(())
    }
}
