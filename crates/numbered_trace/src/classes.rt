//! Who touches which word.

use super::operations::{Operation, Operations};
use super::stop::{Place, START, Stop, Tried, at, part, short};
use flat_replay::{Access, Address};
use mem_op::Word;
use std::alloc::Global;

/// The stores of each class. The classes of an address stand side by side, that of the word 0 first.
#[derive(Drop)]
pub struct Classes {
    /// Where the stores of each class begin, and where the last ones end.
    starts: Vec<u32>,
    /// The stores, class by class, those of a class in the order of their places.
    stores: Vec<Place>,
    /// For each address, its class of the word 0.
    pub zeros: Vec<u32>,
    /// The address that each number stands for.
    pub addresses: Vec<Address>,
    /// The word of each class.
    pub words: Vec<Word>,
}

/// A word that an operation read at an address, or stored there. Touches are ordered by address, word and place.
#[derive(Clone, Copy, PartialEq, Eq, PartialOrd, Ord)]
struct Touch {
    addr: Address,
    word: Word,
    place: Place,
    stores: bool,
}

/// Numbers the addresses and classes of these cores' operations. Gives the operations and the classes.
pub fn number(alloc: Global, cores: &[Vec<Access>]) -> Tried<(Operations, Classes)> {
    let mut operations = Operations::new(alloc, cores)?;
    let mut classes = Classes {
        starts: Vec::new(alloc),
        stores: Vec::new(alloc),
        zeros: Vec::new(alloc),
        addresses: Vec::new(alloc),
        words: Vec::new(alloc),
    };
    let touches = touches(alloc, cores)?;
    for of_address in touches.chunk_by(|one, other| one.addr == other.addr) {
        classes.enter_address(of_address, &mut operations)?;
    }
    classes.bound()?;
    Ok((operations, classes))
}

/// What these cores' operations read and stored, in order.
fn touches(alloc: Global, cores: &[Vec<Access>]) -> Tried<Vec<Touch>> {
    let mut touches = Vec::with_capacity(alloc, count_touches(cores))?;
    for (access, place) in cores.iter().flatten().zip(1..=u32::MAX) {
        let addr = access.addr();
        if let Some(word) = access.read() {
            touches.push(Touch {
                addr,
                word,
                place,
                stores: false,
            })?;
        }
        if access.is_store_to(addr) {
            touches.push(Touch {
                addr,
                word: access.word_left(),
                place,
                stores: true,
            })?;
        }
    }
    touches.sort_unstable();
    Ok(touches)
}

/// How many words these cores' operations read and stored.
fn count_touches(cores: &[Vec<Access>]) -> usize {
    let mut count = 0usize;
    for access in cores.iter().flatten() {
        let is_swap = access.read().is_some() && access.is_store_to(access.addr());
        count = count.saturating_add(usize::from(is_swap)).saturating_add(1);
    }
    count
}

impl Classes {
    /// The stores of a class; START is one of them if the word is 0.
    pub fn stores_of(&self, class: u32) -> &[Place] {
        let (starts, next) = (&self.starts, class.saturating_add(1));
        part(&self.stores, at(starts, class), at(starts, next))
    }

    /// The stores that can have given an operation the word that it read. A swap that stores what it reads is one of them, too.
    pub fn candidates(&self, operation: &Operation) -> &[Place] {
        operation.read().map_or(&[], |class| self.stores_of(class))
    }

    /// The candidates of an operation that belong to one core.
    pub fn candidates_of(
        &self,
        operation: &Operation,
        operations: &Operations,
        core: u32,
    ) -> &[Place] {
        let all = self.candidates(operation);
        let from = all.partition_point(|store| operations.core(*store) < core);
        let to = all.partition_point(|store| operations.core(*store) <= core);
        all.get(from..to).unwrap_or(&[])
    }

    /// How many classes there are.
    pub fn count(&self) -> usize {
        self.starts.len().saturating_sub(1)
    }

    /// How many addresses there are.
    pub fn count_addresses(&self) -> u32 {
        u32::try_from(self.zeros.len()).unwrap_or(0)
    }

    /// Marks where the next class begins.
    fn bound(&mut self) -> Tried<u32> {
        let class = short(self.starts.len())?;
        self.starts.push(short(self.stores.len())?)?;
        Ok(class)
    }

    /// Enters what read or stored at the next address.
    fn enter_address(&mut self, touches: &[Touch], operations: &mut Operations) -> Tried<()> {
        let first = *touches.first().ok_or(Stop::GivenUp)?;
        self.zeros.push(short(self.starts.len())?)?;
        self.addresses.push(first.addr)?;
        if first.word != 0 {
            self.bound()?;
            self.words.push(0)?;
            self.stores.push(START)?;
        }
        for class in touches.chunk_by(|one, other| one.word == other.word) {
            self.enter_class(class, operations)?;
        }
        Ok(())
    }

    /// Enters what read or stored the next word at the last address.
    fn enter_class(&mut self, touches: &[Touch], operations: &mut Operations) -> Tried<()> {
        let class = self.bound()?;
        let address = self.count_addresses().saturating_sub(1);
        let word = touches.first().ok_or(Stop::GivenUp)?.word;
        self.words.push(word)?;
        if word == 0 {
            self.stores.push(START)?;
        }
        for touch in touches {
            let operation = operations.all.get_mut(touch.place as usize);
            operation
                .ok_or(Stop::GivenUp)?
                .enter(address, class, touch.stores);
            if touch.stores {
                self.stores.push(touch.place)?;
            }
        }
        Ok(())
    }
}
