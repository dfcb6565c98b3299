//! Workers that share a check, each with a piece of its items.

ghost use Rattle.std.specs.Prelude.{◌≡◌, ◌<◌, ◌≤◌, ◌*◌, ℕ, Option, None, IfOk, length, take, drop, fold, slice_index_or};
ghost use Rattle.line_stamps.specs.Least.{lesser};

use super::gate::{Gate, Phase};
use super::local_check::{LocalCheck, lesser_fault};
use std::alloc::{AllocError, Global};
use std::thread;
use std::thread::Threads;

/// The least of the faults.
fn least_fault<F: Ord + Copy>(found: &[Option<F>]) -> Option<F>
    ensures { result ≡ fold (λ a b. lesser F.cmp a b) None found.now }
{
    found
        .iter()
        .fold(None, |least, fault| lesser_fault(least, *fault))
}

/// Items, cut into pieces of at most `size` each, the first with number 0.
#[derive(Drop)]
struct Pieces<'a, C: LocalCheck> {
    check: &'a C,
    items: &'a [C::Item],
    size: usize,
}

impl<'a, C: LocalCheck> Pieces<'a, C> {
    /// The fault of a piece.
    fn fault(&self, number: usize) -> Option<C::Fault>
        ensures { result ≡ C.fault_of self.now.check.now
            (take self.now.size (drop (number * self.now.size) self.now.items.now)) }
    {
        let start = number.saturating_mul(self.size).min(self.items.len());
        let end = start.saturating_add(self.size).min(self.items.len());
        self.check.fault(&self.items[start..end])
    }

    /// The fault of all items, from those of the pieces.
    fn least(&self, found: &[Option<C::Fault>]) -> Option<C::Fault>
        requires cover { length self.now.items.now ≤ length found.now * self.now.size }
        requires each { (k : ℕ) (d : Option C.Fault) → k < length found.now →
            slice_index_or found.now k d
            ≡ C.fault_of self.now.check.now (take self.now.size (drop (k * self.now.size) self.now.items.now)) }
        ensures { result ≡ C.fault_of self.now.check.now self.now.items.now }
    {
        least_fault(found)
    }
}

/// The fault of all items. 1 to 64 workers look for it at once, each in a piece of the items. A
/// single worker is the calling thread, and takes no memory. Err if memory was refused.
pub fn fault_by_workers<R: Threads + Sync, G: Gate + Sync, C: LocalCheck + Sync>(
    rt: &R,
    alloc: Global,
    gate: &G,
    phase: Phase,
    check: &C,
    items: &[C::Item],
    workers: usize,
) -> Result<Option<C::Fault>, AllocError>
    requires some { 0 < workers }
    requires few { workers ≤ 64 }
    ensures { IfOk result (λ fault. fault ≡ C.fault_of check.now items.now) }
{
    if workers == 1 {
        gate.enter(phase, 1);
        return Ok(check.fault(items));
    }
    let size = items.len().div_ceil(workers);
    let pieces = Pieces { check, items, size };
    let found = thread::map_indices(
        rt,
        alloc,
        workers,
        &|i: usize| -> Option<C::Fault>
            requires { i < 64 }
            ensures { result ≡ C.fault_of pieces.entry.check.now
                (take pieces.entry.size (drop (i * pieces.entry.size) pieces.entry.items.now)) }
        {
            gate.enter(phase, i + 1);
            pieces.fault(i)
        },
    )?;
    Ok(pieces.least(&found))
}
