//! The check of all addresses, each with its whole group.

ghost use Rattle.std.specs.Prelude.{◌≡◌, ◌<◌, ◌≤◌, IfOk, refl};
ghost use Rattle.line_stamps.specs.Ordered.{In};
ghost use Rattle.log_record.specs.declared.record.Entry.{Entry};
ghost use Rattle.address_check.specs.AddressFaults.{least_address_fault};
ghost use Rattle.address_check.specs.AddressLaw.{least_fault_in-joined};
ghost use Rattle.address_check.specs.BySpan.{least_fault_in, HaveAddress};

use super::fault::AddressFault;
use super::gate::{Gate, Phase};
use super::group::part_fault;
use super::index::AddressIndex;
use super::local_check::{LocalCheck, lesser_fault};
use super::span::AddrSpan;
use super::workers::fault_by_workers;
use log_record::Entry;
use std::alloc::{AllocError, Global};
use std::thread::Threads;

impl AddressIndex {
    /// At most `count` spans, which together have every address of a record. They are cut at the
    /// addresses of records that stand evenly far apart. Err if memory was refused.
    fn spans(&self, alloc: Global, count: usize) -> Result<Vec<AddrSpan>, AllocError>
        requires { 0 < count }
        ensures { IfOk result (λ spans. (e : Entry) → In e self.now → HaveAddress e.logged.addr spans.items) }
    {
        let entries = self.all();
        let mut spans = Vec::new(alloc);
        let Some(last) = entries.last() else {
            return Ok(spans);
        };
        let size = entries.len().div_ceil(count);
        let mut start = 0;
        for number in 1..count {
            if let Some(entry) = entries.get(size.saturating_mul(number)) {
                let end = entry.logged.addr.get();
                spans.push(AddrSpan { start, end })?;
                start = end;
            }
        }
        let end = last.logged.addr.get() + 1;
        spans.push(AddrSpan { start, end })?;
        Ok(spans)
    }

    /// The address fault with the least key. 1 to 64 workers look for it at once, each among whole
    /// groups. Err if memory was refused.
    pub fn least_fault<R: Threads + Sync, G: Gate + Sync>(
        &self,
        rt: &R,
        alloc: Global,
        gate: &G,
        workers: usize,
    ) -> Result<Option<AddressFault>, AllocError>
        requires some { 0 < workers }
        requires few { workers ≤ 64 }
        ensures { IfOk result (λ fault. fault ≡ least_address_fault self.now) }
    {
        let spans = self.spans(alloc, workers)?;
        fault_by_workers(rt, alloc, gate, Phase::Addresses, self, &spans, workers)
    }
}

// An item stands for the whole groups of its addresses, so no list of items splits a group.
impl LocalCheck for AddressIndex {
    type Item = AddrSpan;

    type Fault = AddressFault;

    ghost fault_of = { λ index spans. least_fault_in index spans };

    fn fault(&self, spans: &[AddrSpan]) -> Option<AddressFault> {
        let mut least = None;
        for span in spans {
            let part = self.part(span);
            least = lesser_fault(least, part_fault(part));
        }
        least
    }

    ghost empty = { λ index. refl };

    ghost joined = { λ index xs ys. least_fault_in-joined index xs ys };
}
