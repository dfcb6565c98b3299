//! States from which nothing leads to the end, as a look at what is left shows.

use super::state::State;
use numbered_trace::{CoreSet, Place, at};

/// Why nothing leads from a state to the end.
#[derive(Clone, Copy)]
pub(crate) enum Dead {
    /// The word of this read was written over, and nothing stores it from here on.
    Starved(Place),
    /// These cores wait for words that only they store from here on.
    Deadlocked(CoreSet),
}

impl State<'_> {
    /// Why nothing leads from here to the end, after a class was written over; None if nothing shows that.
    pub(crate) fn dead(&self, ruined: Option<u32>) -> Option<Dead> {
        if let Some(class) = ruined
            && let Some(starved) = self.starved(class)
        {
            return Some(starved);
        }
        self.deadlocked()
    }

    /// The place at which a core waits in a dead state, or where its operations end.
    pub(crate) fn limit(&self, dead: Dead, core: u32) -> Place {
        match dead {
            Dead::Starved(read) if self.operations.core(read) == core => read,
            Dead::Deadlocked(cores) if cores.contains(core) => at(&self.positions, core),
            _ => self.operations.end(core),
        }
    }

    /// A read, still to come, of a class that memory doesn't have, if nothing stores that class from here on.
    fn starved(&self, class: u32) -> Option<Dead> {
        if self.is_stored_by_others(class, CoreSet::NONE) {
            return None;
        }
        let reader = self.touches.find(
            class,
            |touched| touched.last_read >= at(&self.positions, touched.core),
        );
        Some(Dead::Starved(reader?.last_read))
    }

    /// Some cores that wait for words that only these cores store from here on.
    fn deadlocked(&self) -> Option<Dead> {
        let mut waiting = CoreSet::NONE;
        for core in self.cores {
            if self.awaits(*core).is_some() {
                waiting.insert(*core);
            }
        }
        for _ in 0..self.cores.len() {
            let before = waiting;
            self.release(&mut waiting);
            if waiting == before {
                break;
            }
        }
        (waiting != CoreSet::NONE).then_some(Dead::Deadlocked(waiting))
    }

    /// Takes out of a set the cores that wait for a word that others store from here on.
    fn release(&self, waiting: &mut CoreSet) {
        for core in self.cores {
            if waiting.contains(*core)
                && let Some(class) = self.awaits(*core)
                && self.is_stored_by_others(class, *waiting)
            {
                waiting.remove(*core);
            }
        }
    }

    /// The class for which a core's next operation waits.
    fn awaits(&self, core: u32) -> Option<u32> {
        let (_, next) = self.next(core)?;
        let word = at(&self.memory, next.address);
        let read = next.read()?;
        (read != word).then_some(read)
    }

    /// Whether a core that isn't in a set stores a class from here on.
    fn is_stored_by_others(&self, class: u32, cores: CoreSet) -> bool {
        let storer = self.touches.find(class, |touched| {
            touched.last_store >= at(&self.positions, touched.core) && !cores.contains(touched.core)
        });
        storer.is_some()
    }
}
