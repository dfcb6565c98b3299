//! An operation without times, in numbers.

ghost use Rattle.std.specs.Prelude.{◌≡◌};
ghost use Rattle.tardis_c.specs.Accesses.{IsAccess, operation_of};

use super::in_numbers::InNumbers;
use flat_replay::Access;

const _: () = prove!(size_of::<TardisAccess>() == 32);

/// An operation of a core, without times: a line of a trace.
#[repr(C)]
#[derive(Clone, Copy)]
pub struct TardisAccess {
    /// The address of the word.
    pub addr: u64,
    /// The word that it loaded or stored; of a swap, the one that it stored.
    pub value: u64,
    /// Of a swap: the word that it read. Otherwise anything.
    pub read: u64,
    /// 0 is a load, 1 a store, 2 a swap.
    pub kind: u8,
}

impl InNumbers for TardisAccess {
    ghost in_range = { λ access. IsAccess access };

    fn is_in_range(&self) -> bool {
        self.kind <= 2
    }
}

/// The operation.
pub(crate) fn operation_of(access: &TardisAccess) -> Access
    ensures { result ≡ operation_of access.now }
{
    match access.kind {
        0 => Access::load(access.addr, access.value),
        1 => Access::store(access.addr, access.value),
        _ => Access::swap(access.addr, access.read, access.value),
    }
}
