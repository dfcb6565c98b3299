//! The steps of a refutation.

use super::items::Items;
use super::state::{Numbers, StateSet};
use mem_op::OpId;

/// A point of an order of operations.
#[derive(Clone, Copy, Debug, PartialEq, Eq)]
pub enum Point {
    /// Before all operations, where every word is 0.
    Init,
    /// Where an operation stands.
    At(OpId),
}

/// The points from one to another in program order, both included. `init` is before everything.
#[derive(Clone, Copy, Debug, PartialEq, Eq)]
pub struct Range {
    /// The first one.
    pub first: Point,
    /// The last one.
    pub last: Point,
}

/// Ranges, one of which holds the source of a read.
pub type Ranges = Items<Range>;

/// A path: the numbers of facts, in the order in which they lead on.
pub type Path = Items<usize>;

/// A step of a refutation. It names a fact by its place, from 0, among those in force.
#[derive(Debug, Drop)]
pub enum Step {
    /// The source of a load or a swap lies in one of these ranges: a case for each.
    Read {
        /// The load or swap.
        read: OpId,
        /// The ranges.
        ranges: Ranges,
    },
    /// A write is after the last point that a read's source may be, so the read is before the write.
    FromRead {
        /// The fact that says where the read's source lies.
        source: usize,
        /// The write.
        write: OpId,
        /// From that last point to the write.
        path: Path,
    },
    /// A write is before a read, so it is before the last point that the read's source may be.
    WriteOrder {
        /// The fact that says where the read's source lies.
        source: usize,
        /// The write.
        write: OpId,
        /// From the write to the read.
        path: Path,
    },
    /// The facts lead from a point back to it, so this case can't be: it is closed.
    Cycle {
        /// From the point back to it, by one fact or more.
        path: Path,
    },
    /// No state of a set leads to an end, and the first state is in the set, so this case can't be: it is closed.
    States {
        /// The addresses of the set: it leaves operations at others aside.
        addresses: Numbers,
        /// The set.
        set: StateSet,
    },
}

/// A list of steps meant to show that a trace isn't consistent.
pub type Refutation = Items<Step>;
