//! An operation in numbers.

ghost use Rattle.std.specs.Prelude.{◌≡◌, ◌↔◌, ◌≤◌, IsTrue};
ghost use Rattle.log_record.specs.Line.{ActFits, SourceFits};
ghost use Rattle.tardis_c.specs.Operations.{IsOperation, act_of, record_of, source_of};

use super::in_numbers::InNumbers;
use line_stamps::{Rank, Stamp};
use log_record::{Act, PackedAct, Record};
use mem_op::{Addr, CoreId, OpId, OpIndex, Source};
use merge_judge::Recorded;

const _: () = prove!(size_of::<TardisOperation>() == 48);

/// The last address.
const LAST_ADDRESS: u64 = 65_535;

/// The last stamp.
const LAST_STAMP: u64 = 281_474_976_710_656;

/// The core of a source that isn't a store: the word is the initial 0.
const INITIAL: u8 = 255;

/// The most cores of a set.
const MOST_CORES: u8 = 64;

/// The most operations of a core.
const MOST_OPERATIONS: u32 = 1_048_576;

/// An operation of a core. Its fields are those of a record's line.
#[repr(C)]
#[derive(Clone, Copy)]
pub struct TardisOperation {
    /// The word that it loaded or stored; of a swap, the one that it stored.
    pub value: u64,
    /// Of a swap: the word that it read. Otherwise anything.
    pub read: u64,
    /// When the operation took place, 0 to 2^48.
    pub ts: u64,
    /// Its place among the operations of its stamp.
    pub rank: u32,
    /// Of a load or a swap from a store: the index of that store in its core's log, 0 to 1,048,575.
    pub source_index: u32,
    /// The address of the word, 0 to 65,535.
    pub addr: u64,
    /// 0 is a load, 1 a store, 2 a swap.
    pub kind: u8,
    /// Of a load or a swap: the core of the store that it read, 0 to 63; 255 if it read the initial 0.
    pub source_core: u8,
}

/// Whether the source that an operation names is in range.
#[tactic(auto, using(crate::proofs::Numbers::initial_fits, crate::proofs::Numbers::store_fits, crate::proofs::Numbers::core_of_store, crate::proofs::Numbers::index_of_store))]
fn has_source(operation: &TardisOperation) -> bool
    ensures { IsTrue result ↔ SourceFits (source_of operation.now) }
{
    if operation.source_core == INITIAL {
        return true;
    }
    if operation.source_core >= MOST_CORES {
        return false;
    }
    operation.source_index < MOST_OPERATIONS
}

impl InNumbers for TardisOperation {
    ghost in_range = { λ operation. IsOperation operation };

    #[tactic(auto, using(crate::proofs::Numbers::late_is_none, crate::proofs::Numbers::far_is_none, crate::proofs::Numbers::other_is_none, crate::proofs::Numbers::is_load, crate::proofs::Numbers::is_store, crate::proofs::Numbers::is_swap, crate::proofs::Numbers::source_of_load, crate::proofs::Numbers::source_of_swap))]
    fn is_in_range(&self) -> bool {
        let _value = self.value;
        let _read = self.read;
        let _rank = self.rank;
        if self.ts > LAST_STAMP {
            return false;
        }
        if self.addr > LAST_ADDRESS {
            return false;
        }
        match self.kind {
            0 => has_source(self),
            1 => true,
            2 => has_source(self),
            _ => false,
        }
    }
}

/// The source that an operation names.
#[tactic(auto, using(crate::proofs::Numbers::core_of_store, crate::proofs::Numbers::index_of_store))]
fn source_of(operation: &TardisOperation) -> Source
    requires { SourceFits (source_of operation.now) }
    ensures { result ≡ source_of operation.now }
{
    if operation.source_core == INITIAL {
        return Source::Init;
    }
    let core = CoreId::at(operation.source_core as usize);
    let index = OpIndex::at(operation.source_index as usize);
    Source::Store(OpId { core, index })
}

/// The act of an operation.
#[tactic(auto, using(crate::proofs::Numbers::load_source, crate::proofs::Numbers::swap_source))]
fn act_of(operation: &TardisOperation) -> Act
    requires { ActFits (act_of operation.now) }
    ensures { result ≡ act_of operation.now }
{
    match operation.kind {
        0 => Act::Load(source_of(operation)),
        1 => Act::Store,
        _ => Act::Swap(source_of(operation), operation.read),
    }
}

impl Recorded for TardisOperation {
    ghost recorded = { record_of };

    fn to_record(&self) -> Record {
        let Ok(ts) = Stamp::new(self.ts) else {
            unreachable!()
        };
        let Ok(rank) = Rank::new(u64::from(self.rank)) else {
            unreachable!()
        };
        let Ok(addr) = Addr::new(self.addr) else {
            unreachable!()
        };
        Record {
            value: self.value,
            ts,
            act: PackedAct::of(act_of(self)),
            rank,
            addr,
        }
    }
}
