//! The ends of the threads of a run.

use audit::Cause;
use core_unit::CoreUnit;
use std::alloc::{AllocError, Global};

/// The end of a thread, which it gives back.
#[derive(Drop)]
pub(crate) struct ThreadEnd {
    /// The unit that it owned.
    pub(crate) unit: CoreUnit,
    /// The fault that it met, if it met one.
    pub(crate) fault: Option<Cause>,
}

/// The ends of all threads, in the order of their cores.
#[derive(Drop)]
pub(crate) struct Ends {
    /// At index c the unit of core c.
    pub(crate) units: Vec<CoreUnit>,
    /// At index c the fault that core c met, if it met one.
    pub(crate) faults: Vec<Option<Cause>>,
}

impl Ends {
    /// No ends yet, with room for those of so many threads.
    pub(crate) fn with_room(alloc: Global, threads: usize) -> Result<Ends, AllocError> {
        Ok(Ends {
            units: Vec::with_capacity(alloc, threads)?,
            faults: Vec::with_capacity(alloc, threads)?,
        })
    }

    /// Keeps the end of the next core's thread.
    pub(crate) fn keep(&mut self, ended: ThreadEnd) -> Result<(), AllocError> {
        let Ends { units, faults } = self;
        units.reserve(1)?;
        faults.reserve(1)?;
        units.push_reserved(ended.unit);
        faults.push_reserved(ended.fault);
        Ok(())
    }

    /// Keeps why the next core has no thread.
    pub(crate) fn refuse(&mut self, cause: Cause) -> Result<(), AllocError> {
        self.faults.push(Some(cause))?;
        Ok(())
    }
}
