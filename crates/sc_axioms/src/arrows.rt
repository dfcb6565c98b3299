//! The arrows of a candidate execution that is given by lists.

ghost use Rattle.std.specs.Prelude.{◌≡◌, [], position as list_position};
ghost use Rattle.mem_op.specs.Consistency.{is_same_id};
ghost use Rattle.flat_replay.specs.Accesses.{operation_lists};
ghost use Rattle.sc_axioms.specs.Axioms as axioms;
ghost use Rattle.sc_axioms.specs.Chosen as chosen;
ghost use Rattle.sc_axioms.specs.Chosen.{chosen};

use flat_replay::{Access, operation_at};
use mem_op::{OpId, Source};

/// The source of an operation; the initial 0 if it isn't listed.
fn source_of(sources: &[Vec<Source>], id: &OpId) -> Source
    ensures { result ≡ chosen.source_in sources.now id.now }
{
    let own = sources.get(id.core.get() as usize);
    match own.and_then(|own| own.get(id.index.get() as usize)) {
        Some(source) => *source,
        None => Source::Init,
    }
}

fn position(writes: &[OpId], id: &OpId) -> Option<usize>
    ensures { result ≡ list_position (is_same_id id.now) writes.now }
{
    writes.iter().position(|other| id == other)
}

/// Where a write stands in the list, or the length of the list.
fn place(writes: &[OpId], id: &OpId) -> usize
    ensures { result ≡ chosen.place writes.now id.now }
{
    position(writes, id).unwrap_or(writes.len())
}

/// Whether a write comes after a source in coherence order; each write comes after the initial 0.
fn is_after(writes: &[OpId], source: Source, write: &OpId) -> bool
    ensures { result ≡ axioms.is_after (chosen [] writes.now) source write.now }
{
    match source {
        Source::Init => true,
        Source::Store(id) => place(writes, &id) < place(writes, write),
    }
}

/// Program order.
fn is_po(cores: &[Vec<Access>], a: &OpId, b: &OpId) -> bool
    ensures { result ≡ axioms.po (operation_lists cores.now) a.now b.now }
{
    match (operation_at(cores, a), operation_at(cores, b)) {
        (Some(_), Some(_)) => a.core == b.core && a.index < b.index,
        _ => false,
    }
}

/// Reads-from: whether the second operation reads from the first.
fn is_rf(cores: &[Vec<Access>], sources: &[Vec<Source>], a: &OpId, b: &OpId) -> bool
    ensures { result ≡ axioms.rf (operation_lists cores.now) (chosen sources.now []) a.now b.now }
{
    match (operation_at(cores, a), operation_at(cores, b)) {
        (Some(_), Some(second)) => {
            second.read().is_some() && source_of(sources, b) == Source::Store(*a)
        }
        _ => false,
    }
}

/// Coherence order: whether both write one address, the first before the second.
fn is_co(cores: &[Vec<Access>], writes: &[OpId], a: &OpId, b: &OpId) -> bool
    ensures { result ≡ axioms.co (operation_lists cores.now) (chosen [] writes.now) a.now b.now }
{
    match (operation_at(cores, a), operation_at(cores, b)) {
        (Some(first), Some(second)) => {
            first.is_store_to(first.addr())
                && second.is_store_to(first.addr())
                && place(writes, a) < place(writes, b)
        }
        _ => false,
    }
}

/// From-read: whether the second operation, another than the first, writes the address that the first reads, and comes after its source.
fn is_fr(
    cores: &[Vec<Access>],
    sources: &[Vec<Source>],
    writes: &[OpId],
    a: &OpId,
    b: &OpId,
) -> bool
    ensures { result ≡ axioms.fr (operation_lists cores.now) (chosen sources.now writes.now) a.now b.now }
{
    match (operation_at(cores, a), operation_at(cores, b)) {
        (Some(first), Some(second)) => {
            first.read().is_some()
                && second.is_store_to(first.addr())
                && a != b
                && is_after(writes, source_of(sources, a), b)
        }
        _ => false,
    }
}

/// Whether an arrow leads from one operation to another: program order, reads-from, coherence order or from-read. `sources` has the source of each
/// operation, core by core, and `writes` the writes in coherence order, of which only the order at each address matters.
pub fn has_arrow(
    cores: &[Vec<Access>],
    sources: &[Vec<Source>],
    writes: &[OpId],
    a: &OpId,
    b: &OpId,
) -> bool
    ensures { result ≡ axioms.arrow (operation_lists cores.now) (chosen sources.now writes.now) a.now b.now }
{
    is_po(cores, a, b)
        || is_rf(cores, sources, a, b)
        || is_co(cores, writes, a, b)
        || is_fr(cores, sources, writes, a, b)
}
