//! The slices of a machine at its start.

ghost use Rattle.std.specs.Prelude.{◌≡◌, IfOk, IfErr, vec_len};
ghost use Rattle.manager_slice.specs.Opening.{new_slices};
ghost use Rattle.manager_slice.specs.declared.fault.SliceFault.TheVariants.{OutOfMemory};

use super::fault::SliceFault;
use super::slice::ManagerSlice;
use lease_rule::Config;
use std::alloc::Global;

/// As many empty slices as the configuration says, each at its number. Only 10 OutOfMemory may come.
pub fn new_slices(alloc: Global, config: &Config) -> Result<Vec<ManagerSlice>, SliceFault>
    ensures slices { IfOk result (λ slices. slices.items ≡ new_slices config.now config.now.slices) }
    ensures count { IfOk result (λ slices. vec_len slices ≡ config.now.slices) }
    ensures refused { IfErr result (λ fault. fault ≡ OutOfMemory) }
{
    let mut slices = Vec::new(alloc);
    for number in 0..config.slices() {
        let slice = ManagerSlice::new(alloc, number, config)?;
        slices.reserve(1)?;
        slices.push_reserved(slice);
    }
    Ok(slices)
}
