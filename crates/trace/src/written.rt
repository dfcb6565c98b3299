//! In which order the operations of a trace were written. Nothing is promised of it.

use super::line::end_of;
use mem_op::{CoreId, OpId, OpIndex};
use std::alloc::{AllocError, Global};

/// Of each operation that was written its core, and when it ended, where a line tells that.
#[derive(Debug, Drop)]
pub(crate) struct Written {
    cores: Vec<CoreId>,
    /// The ends, as far as lines tell them. An operation of which none is told counts as ended with the one before it.
    ends: Vec<u64>,
}

impl Written {
    /// Nothing was written.
    pub(crate) fn new(alloc: Global) -> Written {
        Written::by(alloc, Vec::new(alloc))
    }

    /// Operations of these cores, one after the other.
    pub(crate) fn by(alloc: Global, cores: Vec<CoreId>) -> Written {
        Written {
            cores,
            ends: Vec::new(alloc),
        }
    }

    /// One more operation of a core was written.
    pub(crate) fn push(&mut self, core: CoreId) -> Result<(), AllocError> {
        self.cores.push(core)?;
        Ok(())
    }

    /// The operation that was written last is taken back.
    pub(crate) fn pop(&mut self) {
        self.cores.pop();
    }

    /// The operation that was written last ended when its line tells, if it does.
    pub(crate) fn end(&mut self, line: &[u8]) -> Result<(), AllocError> {
        let Some(end) = end_of(line) else {
            return Ok(());
        };
        let last = self.ends.last().copied().unwrap_or(0);
        self.ends.resize(self.cores.len(), last)?;
        if let Some(told) = self.ends.last_mut() {
            *told = end;
        }
        Ok(())
    }

    /// The operations as they were written, or where ends are told in the order of these.
    pub(crate) fn order(&self, alloc: Global) -> Result<Vec<OpId>, AllocError> {
        if self.ends.is_empty() {
            return ids(alloc, &self.cores);
        }
        ids(alloc, &self.by_end(alloc)?)
    }

    /// The cores of the operations in the order of their ends.
    fn by_end(&self, alloc: Global) -> Result<Vec<CoreId>, AllocError> {
        let mut lines = Vec::with_capacity(alloc, self.cores.len())?;
        for (line, core) in self.cores.iter().enumerate() {
            let end = self.ends.get(line).copied().unwrap_or(u64::MAX);
            lines.push((end, line, *core))?;
        }
        lines.sort_unstable();
        lines.iter().map(|(_, _, core)| *core).collect(alloc)
    }
}

/// The operations of these cores, each core's in program order.
fn ids(alloc: Global, cores: &[CoreId]) -> Result<Vec<OpId>, AllocError> {
    let mut next = [0u64; 64];
    let mut ids = Vec::with_capacity(alloc, cores.len())?;
    for core in cores {
        let next = &mut next[core.get() as usize];
        let Ok(index) = OpIndex::new(*next) else {
            break;
        };
        ids.push(OpId { core: *core, index })?;
        *next = next.wrapping_add(1);
    }
    Ok(ids)
}
