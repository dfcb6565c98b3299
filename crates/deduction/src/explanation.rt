//! Why a case is closed, from the conflict back to what was known at first.

use super::chains::PLACES;
use super::facts::{Fact, Reason};
use super::knowledge::Knowledge;
use super::proof::{Derived, Line, Proof, Rule};
use super::saturation::cut;
use numbered_trace::{Conflict, Place, SearchWatch, Stop, Tried, short};

/// The number of the from-read in the case of a candidate that another store hides from a read.
const CASE_FROM_READ: u32 = u32::MAX - 1;

/// A from-read by which a read would be before a store that hides a candidate from it, with a path from that store to the
/// read.
type Hiding = (Derived, Vec<u32>);

/// The cases of a read, whose steps come to stand before a proof. They are closed from the last one on.
#[derive(Drop)]
struct Cases<'a> {
    read: Place,
    /// The range of its candidates that isn't excluded.
    kept: Option<(Place, Place)>,
    /// The number of the fact that each case begins with. Facts of this number and above aren't used.
    fact: u32,
    /// The ranges of the cases, the last one first.
    ranges: Vec<(Place, Place)>,
    proof: &'a mut Proof,
}

impl Knowledge<'_> {
    /// Concludes what follows. If that ends in a conflict, gives its proof: the lines, last one first.
    pub fn refute<W: SearchWatch>(&mut self, watch: &W) -> Tried<Option<Vec<Line>>> {
        match self.saturate(watch) {
            Ok(()) => Ok(None),
            Err(Stop::Closed(conflict)) => {
                self.budget.allow(u64::MAX);
                Ok(Some(self.explain(conflict)?.reversed))
            }
            Err(stop) => Err(stop),
        }
    }

    /// The proof of a conflict.
    fn explain(&mut self, conflict: Conflict) -> Tried<Proof> {
        let mut proof = Proof::new(self.alloc);
        let mark = short(self.facts.all.len())?;
        match conflict {
            Conflict::NoSource(read) => self.close_read(&mut proof, read, None, mark)?,
            Conflict::Cycle(number) => {
                let (_, fact) = self.facts.get(number).ok_or(Stop::GivenUp)?;
                proof.need(&[number])?;
                let path = self.chain(fact.later, fact.earlier, mark)?;
                proof.close(number, path.ok_or(Stop::GivenUp)?)?;
            }
        }
        self.show(&mut proof)?;
        Ok(proof)
    }

    /// What shows these facts: its lines, last one first.
    pub fn showing(&mut self, facts: &[u32]) -> Tried<Vec<Line>> {
        let mut proof = Proof::new(self.alloc);
        proof.need(facts)?;
        self.show(&mut proof)?;
        Ok(proof.reversed)
    }

    /// Puts before a proof what shows the facts that it needs.
    fn show(&mut self, proof: &mut Proof) -> Tried<()> {
        for _ in 0..self.facts.all.len() {
            let Some(number) = proof.take_need() else {
                break;
            };
            let (_, fact) = self.facts.get(number).ok_or(Stop::GivenUp)?;
            match fact.reason {
                Reason::Rule(source) => self.derive(proof, number, fact, source)?,
                Reason::Source(last) => {
                    self.close_read(proof, fact.later, Some((fact.earlier, last)), number)?;
                }
            }
        }
        Ok(())
    }

    /// Puts before a proof the step of from-read or of write-order that shows a fact.
    fn derive(&mut self, proof: &mut Proof, number: u32, fact: Fact, source: u32) -> Tried<()> {
        let (_, of_read) = self.facts.get(source).ok_or(Stop::GivenUp)?;
        let (rule, store, from, to) = match of_read.reason {
            Reason::Source(last) if fact.earlier == of_read.later => {
                (Rule::FromRead, fact.later, last, fact.later)
            }
            _ => (Rule::WriteOrder, fact.earlier, fact.earlier, of_read.later),
        };
        let path = self.chain(from, to, number)?;
        proof.need(&[source])?;
        proof.derive(Derived {
            rule,
            source,
            store,
            path: path.ok_or(Stop::GivenUp)?,
            fact: number,
        })
    }

    /// Puts the cases of a read before a proof. Each case begins with a fact of this number. One case is the range that is
    /// kept; the others have all other candidates, and come with the steps that close them by earlier facts.
    fn close_read(
        &mut self,
        proof: &mut Proof,
        read: Place,
        kept: Option<(Place, Place)>,
        fact: u32,
    ) -> Tried<()> {
        let mut cases = Cases {
            read,
            kept,
            fact,
            ranges: Vec::new(self.alloc),
            proof,
        };
        cases.ranges.extend(kept)?;
        for core in self.operations.cores().rev() {
            self.close_core(&mut cases, core)?;
        }
        cases.ranges.reverse();
        let read = Line::Read(read, cases.ranges, fact);
        Ok(cases.proof.reversed.push(read)?)
    }

    /// Closes the cases of one core's candidates: one range for those after the read, and one for each run of those hidden from it, behind the kept
    /// ones and before them. What hides the last one of a run hides them all.
    fn close_core(&mut self, cases: &mut Cases, core: u32) -> Tried<()> {
        let operation = self.operations.get(cases.read);
        let stores = self
            .classes
            .candidates_of(&operation, self.operations, core);
        self.budget.spend(stores.len() as u64 / PLACES)?;
        let count = self.count_not_after(cases, stores)?;
        let mut rest = cut(stores, 0, count).iter();
        let first = rest.position(|store| self.is_kept(cases, *store));
        let first = first.unwrap_or(count);
        let behind = cut(stores, first, count);
        let kept = behind.partition_point(|store| self.is_kept(cases, *store));
        self.close_after(cases, cut(stores, count, stores.len()))?;
        self.close_hidden(cases, cut(behind, kept, behind.len()))?;
        self.close_hidden(cases, cut(stores, 0, first))
    }

    /// Whether a candidate lies in the range that is kept.
    fn is_kept(&self, cases: &Cases, store: Place) -> bool {
        match cases.kept {
            Some((first, last)) => self.lies_in(store, first, last),
            None => false,
        }
    }

    /// How many of one core's first candidates are neither the read itself nor known to be after it.
    fn count_not_after(&mut self, cases: &Cases, stores: &[Place]) -> Tried<usize> {
        let (mut low, mut high) = (0, stores.len());
        for _ in 0..usize::BITS {
            if low >= high {
                break;
            }
            let middle = low.wrapping_add(high.wrapping_sub(low) / 2);
            let store = stores.get(middle).copied().unwrap_or(cases.read);
            if self.chain(cases.read, store, cases.fact)?.is_some() {
                high = middle;
            } else {
                low = middle.wrapping_add(1);
            }
        }
        Ok(low)
    }

    /// Closes the cases of one core's candidates that are after the read, except the kept ones and the read itself.
    fn close_after(&mut self, cases: &mut Cases, stores: &[Place]) -> Tried<()> {
        let mut closed = None;
        for store in stores {
            if *store != cases.read && !self.is_kept(cases, *store) {
                let (first, _) = closed.unwrap_or((*store, *store));
                closed = Some((first, *store));
            }
        }
        if let Some((first, last)) = closed
            && let Some(path) = self.chain(cases.read, first, cases.fact)?
        {
            cases.ranges.push((first, last))?;
            cases.proof.close(cases.fact, path)?;
        }
        Ok(())
    }

    /// Closes the cases of a run of one core's candidates, if the last of them is hidden from the read.
    fn close_hidden(&mut self, cases: &mut Cases, stores: &[Place]) -> Tried<()> {
        if let Some(first) = stores.first()
            && let Some(last) = stores.last()
            && let Some((from_read, path)) = self.least_hiding(cases, *last)?
        {
            cases.ranges.push((*first, *last))?;
            cases.proof.close(CASE_FROM_READ, path)?;
            cases.proof.derive(from_read)?;
        }
        Ok(())
    }

    /// What hides a candidate by the fewest facts.
    fn least_hiding(&mut self, cases: &Cases, hidden: Place) -> Tried<Option<Hiding>> {
        let mut least = None;
        let mut length = usize::MAX;
        for last in &self.last_stores(cases.read)? {
            if let Some((step, path)) = self.hiding(cases, hidden, *last)? {
                let facts = step.path.len().saturating_add(path.len());
                if facts < length {
                    (least, length) = (Some((step, path)), facts);
                }
            }
        }
        Ok(least)
    }

    /// The last store of a core, up to this one, that hides another from the read by facts that the cases may use: the
    /// clocks may have risen since.
    fn hiding(&mut self, cases: &Cases, hidden: Place, last: Place) -> Tried<Option<Hiding>> {
        let core = self.operations.core(last);
        let mut store = last;
        for _ in 0..last {
            if !self.hides(store, hidden) {
                break;
            }
            if let Some(to_read) = self.chain(store, cases.read, cases.fact)?
                && let Some(path) = self.chain(hidden, store, cases.fact)?
            {
                let from_read = Derived {
                    rule: Rule::FromRead,
                    source: cases.fact,
                    store,
                    path,
                    fact: CASE_FROM_READ,
                };
                return Ok(Some((from_read, to_read)));
            }
            let Some(before) = self.last_store(store, core) else {
                break;
            };
            store = before;
        }
        Ok(None)
    }
}
