//! The lines of a slice in order of service.

ghost use Rattle.std.specs.Prelude.{◌≡◌, ◌∷◌, [], nat_eq, length, IfOk, OnOk, OnErr};
ghost use Rattle.std.specs.List.{IsDistinct};
ghost use Rattle.std.specs.Map.{lookup, remove_entry, keys_of};
ghost use Rattle.std.specs.Option.{option_copied};
ghost use Rattle.manager_slice.specs.Lines.{giving_way};

use super::managed::ManagedLine;
use lru::LruCache;
use mem_op::Addr;
use std::alloc::{AllocError, Global};
use std::marker::Model;

/// The lines of a slice, by address, in the order in which they were last served: the most recently served first.
#[derive(Drop)]
pub struct ServedLines {
    lines: LruCache<Addr, ManagedLine>,
}

impl Model for ServedLines {
    ghost use Rattle.std.specs.Prelude.{◌≡◌, ◌-◌, ◌^◌, ℕ, List};
    ghost use Rattle.manager_slice.specs.declared.managed.ManagedLine.{ManagedLine};

    ghost Value = { List (ℕ × ManagedLine) };

    ghost view = { λ s. s.lines.entries };

    ghost invariant = { λ s. s.lines.cap ≡ 2 ^ 64 - 1 };
}

impl ServedLines {
    /// No lines. Only 10 OutOfMemory may come.
    pub(crate) fn new(alloc: Global) -> Result<ServedLines, AllocError>
        ensures { IfOk result (λ lines. lines ≡ []) }
    {
        Ok(ServedLines {
            lines: LruCache::unbounded(alloc)?,
        })
    }

    /// How many lines there are.
    pub fn len(&self) -> usize
        ensures value { result ≡ length self.now }
        ensures distinct { IsDistinct nat_eq (keys_of self.now) }
    {
        self.lines.len()
    }

    /// The line of an address, if it is there. This doesn't count as service.
    pub fn get(&self, addr: Addr) -> Option<&ManagedLine>
        ensures { option_copied result ≡ lookup (nat_eq addr) self.now }
    {
        self.lines.peek(&addr)
    }

    /// The line that gives way to another one: the least recently served Shared line, or, if no line is Shared, the least
    /// recently served line.
    pub(crate) fn giving_way(&self) -> Option<(Addr, ManagedLine)>
        ensures { result ≡ giving_way self.now }
    {
        for (addr, line) in self.lines.iter().rev() {
            if let ManagedLine::Shared(_) = line {
                return Some((*addr, *line));
            }
        }
        let (addr, line) = self.lines.peek_lru()?;
        Some((*addr, *line))
    }

    /// Puts a line at an address, and makes it the most recently served. Memory can be refused only if the address
    /// has no line yet, and then nothing changes.
    pub(crate) fn serve(&mut self, addr: Addr, line: ManagedLine) -> Result<(), AllocError>
        ensures ok { OnOk result (self.new ≡ (addr, line) ∷ remove_entry (nat_eq addr) self.old) }
        ensures err { OnErr result (self.new ≡ self.old) }
    {
        // So this pushes no line out.
        prove!(self.lines.len() < usize::MAX);
        self.lines.put(addr, line)?;
        Ok(())
    }

    /// Takes the line of an address out.
    pub(crate) fn remove(&mut self, addr: Addr)
        ensures { self.new ≡ remove_entry (nat_eq addr) self.old }
    {
        let _ = self.lines.pop(&addr);
    }
}
