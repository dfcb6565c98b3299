//! Who touches which word.

use numbered_trace::{NONE, Operations, Place, START, Stop, Tried, at, put, short};
use std::alloc::Global;

/// A class that a core touches: the places of its last read and of its last store of it, or START.
#[derive(Clone, Copy)]
pub(crate) struct Touched {
    pub(crate) core: u32,
    pub(crate) last_read: Place,
    pub(crate) last_store: Place,
    /// The number of the touch of the same class by the next core that touches it, or NONE.
    next: u32,
}

/// The cores that touch each class.
#[derive(Drop)]
pub(crate) struct Touches {
    all: Vec<Touched>,
    /// For each class, the number of the touch of it by the first core that touches it, or NONE.
    firsts: Vec<u32>,
}

impl Touches {
    /// Which of this many classes these cores touch.
    pub(crate) fn new(
        alloc: Global,
        operations: &Operations,
        cores: &[u32],
        classes: usize,
    ) -> Tried<Touches> {
        let mut touches = Touches {
            all: Vec::new(alloc),
            firsts: vec![in alloc; NONE; classes]?,
        };
        for core in cores.iter().rev() {
            touches.enter(operations, *core)?;
        }
        Ok(touches)
    }

    /// Enters the classes that a core touches.
    fn enter(&mut self, operations: &Operations, core: u32) -> Tried<()> {
        for place in at(&operations.starts, core)..operations.end(core) {
            let operation = operations.get(place);
            if let Some(class) = operation.read() {
                self.of_core(class, core)?.last_read = place;
            }
            if let Some(class) = operation.stored() {
                self.of_core(class, core)?.last_store = place;
            }
        }
        Ok(())
    }

    /// The touch of a class by the core that is entered now, after all that come behind it. It is made if there is none.
    fn of_core(&mut self, class: u32, core: u32) -> Tried<&mut Touched> {
        let next = at(&self.firsts, class);
        let is_entered = matches!(self.get(next), Some(first) if first.core == core);
        if !is_entered {
            put(&mut self.firsts, class, short(self.all.len())?)?;
            self.all.push(Touched {
                core,
                last_read: START,
                last_store: START,
                next,
            })?;
        }
        let first = at(&self.firsts, class);
        self.all.get_mut(first as usize).ok_or(Stop::GivenUp)
    }

    /// The touch of a number.
    fn get(&self, number: u32) -> Option<Touched> {
        self.all.get(number as usize).copied()
    }

    /// The touch of a class by the first core that touches it.
    pub(crate) fn first(&self, class: u32) -> Option<Touched> {
        self.get(at(&self.firsts, class))
    }

    /// The touch of a class by the next core that touches it.
    pub(crate) fn next(&self, touched: &Touched) -> Option<Touched> {
        self.get(touched.next)
    }

    /// The first touch of a class that is such.
    pub(crate) fn find<F: Fn(&Touched) -> bool>(&self, class: u32, is_such: F) -> Option<Touched>
        requires { F.IsAlwaysCallable is_such }
    {
        let mut next = self.first(class);
        for _ in 0..self.all.len() {
            let touched = next?;
            if is_such(&touched) {
                return Some(touched);
            }
            next = self.next(&touched);
        }
        None
    }
}
