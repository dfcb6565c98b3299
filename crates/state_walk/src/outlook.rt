//! How a state looks: how far reads are from their words.

use super::state::State;
use numbered_trace::{NONE, Operation, START, at};

/// How many of a core's next operations count.
const AHEAD: u32 = 12;

/// What a read this far ahead counts if memory has its word, and if it doesn't: 100 times the logarithm of how likely that
/// is in a run, compared with how likely it is by chance.
const FITS: [u64; 12] = [121, 103, 88, 74, 62, 51, 42, 34, 27, 22, 18, 14];

const MISFITS: [u64; 12] = [151, 93, 64, 46, 34, 25, 19, 15, 11, 9, 7, 5];

/// The longest wait that counts.
const LONG: u32 = 50;

/// The outlook of a state about which nothing is known.
pub(crate) const EVEN: u64 = 1 << 50;

impl State<'_> {
    /// How likely a state is to lead to the end: the more, the likelier.
    pub(crate) fn outlook(&self) -> u64 {
        let mut outlook = EVEN;
        for core in self.cores {
            let lag = self.lag(*core);
            outlook = self
                .with_reads(*core, outlook)
                .saturating_sub(lag.wrapping_mul(lag) / 8);
        }
        outlook
    }

    /// How many operations a core lags behind its share of all that were performed.
    fn lag(&self, core: u32) -> u64 {
        let (start, end) = (at(&self.operations.starts, core), self.operations.end(core));
        let own = u64::from(end.saturating_sub(start));
        let due = own
            .wrapping_mul(self.order.len() as u64)
            .checked_div(self.total as u64);
        let done = at(&self.positions, core).saturating_sub(start);
        due.unwrap_or(0).saturating_sub(u64::from(done))
    }

    /// An outlook with what a core's next reads add to it. A read counts if it is the core's first operation at its address.
    fn with_reads(&self, core: u32, outlook: u64) -> u64 {
        let next = self.ahead(core, AHEAD);
        let mut sum = outlook;
        for (far, operation) in next.iter().enumerate() {
            let mut earlier = next.get(..far).unwrap_or(&[]).iter();
            if earlier.all(|other| other.address != operation.address) {
                sum = self.with_read(core, far, operation, sum);
            }
        }
        sum
    }

    /// An outlook with what an operation adds to it that is this far ahead in its core.
    fn with_read(&self, core: u32, far: usize, operation: &Operation, outlook: u64) -> u64 {
        let Some(read) = operation.read() else {
            return outlook;
        };
        if read == at(&self.memory, operation.address) {
            return outlook.saturating_add(FITS.get(far).copied().unwrap_or(0));
        }
        let misfit = MISFITS.get(far).copied().unwrap_or(0);
        let near = self.nearest_store(read, core);
        let wait = u64::from(near.min(LONG)).saturating_sub(far as u64);
        let long = wait
            .wrapping_mul(wait)
            .checked_div((far as u64).wrapping_add(1));
        outlook
            .saturating_sub(misfit)
            .saturating_sub(long.unwrap_or(0))
    }

    /// How far ahead another core's nearest store of a class is; 0 if there is none.
    fn nearest_store(&self, class: u32, core: u32) -> u32 {
        let mut stores = self.classes.stores_of(class);
        let first_store = stores.first().copied().unwrap_or(START);
        let first = self.operations.core(first_store);
        let mut nearest = NONE;
        for other in self.cores {
            if *other < first {
                continue;
            }
            let position = at(&self.positions, *other);
            let done = stores.partition_point(|store| *store < position);
            stores = stores.get(done..).unwrap_or(&[]);
            let Some(store) = stores.first() else {
                break;
            };
            if *other != core && *store < self.operations.end(*other) {
                nearest = nearest.min(store.saturating_sub(position));
            }
        }
        if nearest == NONE { 0 } else { nearest }
    }
}
