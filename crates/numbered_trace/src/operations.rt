//! The operations of all cores in one list.

use super::stop::{NONE, Place, Stop, Tried, at, short};
use flat_replay::Access;
use mem_op::{CoreId, OpId, OpIndex};
use std::alloc::Global;
use std::ops::Range;

/// What a search knows of an operation, in 16 bytes. A class is an address with a word.
#[derive(Clone, Copy)]
pub struct Operation {
    /// The number of its address among those of the trace.
    pub address: u32,
    read: u32,
    stored: u32,
    core: u8,
}

/// What comes before every operation.
const BEGINNING: Operation = Operation {
    address: NONE,
    read: NONE,
    stored: NONE,
    core: 0,
};

impl Operation {
    /// The class of what a load or a swap read.
    pub fn read(&self) -> Option<u32> {
        (self.read != NONE).then_some(self.read)
    }

    /// The class of what a store or a swap stored.
    pub fn stored(&self) -> Option<u32> {
        (self.stored != NONE).then_some(self.stored)
    }

    /// Whether it leaves memory as it is, wherever it can be performed.
    pub fn is_quiet(&self) -> bool {
        self.stored == NONE || self.stored == self.read
    }

    /// Whether it can be performed where its address has a word of this class.
    pub fn fits(&self, class: u32) -> bool {
        self.read == NONE || self.read == class
    }

    /// The number of its core.
    pub fn core(&self) -> u32 {
        u32::from(self.core)
    }

    /// Enters that it read or stored a class at an address.
    pub(crate) fn enter(&mut self, address: u32, class: u32, stores: bool) {
        self.address = address;
        if stores {
            self.stored = class;
        } else {
            self.read = class;
        }
    }
}

/// START and the operations of all cores.
#[derive(Drop)]
pub struct Operations {
    /// START, and then each operation.
    pub all: Vec<Operation>,
    /// Where the operations of each core begin.
    pub starts: Vec<Place>,
}

impl Operations {
    /// The operations of these cores, each with nothing but its core so far.
    pub(crate) fn new(alloc: Global, cores: &[Vec<Access>]) -> Tried<Operations> {
        let mut all = vec![in alloc; BEGINNING; 1]?;
        let mut starts = Vec::new(alloc);
        for (core, own) in (0..=u8::MAX).zip(cores) {
            starts.push(short(all.len())?)?;
            let end = all.len().saturating_add(own.len());
            all.resize(end, Operation { core, ..BEGINNING })?;
        }
        Ok(Operations { all, starts })
    }

    /// The same operations, but those at other addresses than these neither read nor store. The addresses are sorted.
    pub fn only(&self, alloc: Global, addresses: &[u32]) -> Tried<Operations> {
        let operations = self.all.iter().map(|operation| {
            match addresses.binary_search(&operation.address) {
                Ok(_) => *operation,
                Err(_) => Operation {
                    core: operation.core,
                    ..BEGINNING
                },
            }
        });
        Ok(Operations {
            all: operations.collect(alloc)?,
            starts: self.starts.to_vec(alloc)?,
        })
    }

    /// The numbers of the cores.
    pub fn cores(&self) -> Range<u32> {
        0..u32::try_from(self.starts.len()).unwrap_or(0)
    }

    /// The operation at a place; START if there is none.
    pub fn get(&self, place: Place) -> Operation {
        self.all.get(place as usize).copied().unwrap_or(BEGINNING)
    }

    /// The core of the operation at a place.
    pub fn core(&self, place: Place) -> u32 {
        self.get(place).core()
    }

    /// The place behind a core's operations.
    pub fn end(&self, core: u32) -> Place {
        let next = self.starts.get((core as usize).saturating_add(1)).copied();
        next.unwrap_or(u32::try_from(self.all.len()).unwrap_or(0))
    }

    /// The core of the operation at a place, and its number among that core's, from 0.
    pub fn position(&self, place: Place) -> (u32, u32) {
        let core = self.core(place);
        (core, place.saturating_sub(at(&self.starts, core)))
    }

    /// A core's next operation with its place, if each core is at its place in a list; none if the core has none left.
    pub fn next(&self, places: &[Place], core: u32) -> Option<(Place, Operation)> {
        let place = at(places, core);
        let operation = self.all.get(place as usize).copied()?;
        (operation.core() == core).then_some((place, operation))
    }
}

/// The id of the operation at a place.
pub fn id(operations: &Operations, place: Place) -> Tried<OpId> {
    let (core, index) = operations.position(place);
    match (CoreId::new(u64::from(core)), OpIndex::new(u64::from(index))) {
        (Ok(core), Ok(index)) => Ok(OpId { core, index }),
        _ => Err(Stop::GivenUp),
    }
}
