//! The logs of a set that lie one after another in one buffer.

ghost use Rattle.std.specs.Prelude.{◌≡◌, ◌↔◌, ◌≤◌, IfOk, IsTrue, length, map};
ghost use Rattle.log_file.specs.InMemory.{rest_of};
ghost use Rattle.merge_judge.specs.Records.{logs_from};
ghost use Rattle.tardis_c.specs.Operations.{logs_of};
ghost use Rattle.tardis_c.specs.Parts.{AreEnds, AreEndsFrom, parts_of};

use super::tardis_operation::TardisOperation;
use log_file::SliceSource;
use mem_op::CoreId;
use merge_judge::RecordSlice;
use std::alloc::{AllocError, Global};

/// Whether no end is less than the one before it, and the last is the length of the buffer.
pub(crate) fn are_ends(length: usize, ends: &[usize]) -> bool
    ensures { IsTrue result ↔ AreEndsFrom 0 length ends.now }
{
    let mut from = 0;
    for end in ends {
        if *end < from {
            return false;
        }
        from = *end;
    }
    from == length
}

/// A source for each log.
pub(crate) fn sources_of<'a>(
    alloc: Global,
    bytes: &'a [u8],
    ends: &[usize],
) -> Result<Vec<SliceSource<'a>>, AllocError>
    requires { AreEnds bytes.now ends.now }
    ensures { IfOk result (λ sources. map rest_of sources.items ≡ parts_of bytes.entry.now ends.now) }
{
    let mut sources = Vec::new(alloc);
    let mut from = 0;
    for end in ends {
        let source = SliceSource::new(&bytes[from..*end]);
        sources.push(source)?;
        from = *end;
    }
    Ok(sources)
}

/// A source for each core's operations.
pub(crate) fn slices_of<'a>(
    alloc: Global,
    operations: &'a [TardisOperation],
    ends: &[usize],
) -> Result<Vec<RecordSlice<'a, TardisOperation>>, AllocError>
    requires ends { AreEnds operations.now ends.now }
    requires few { length ends.now ≤ 64 }
    ensures { IfOk result (λ sources. sources.items
        ≡ logs_from 0 (length ends.now) (logs_of (parts_of operations.entry.now ends.now))) }
{
    let mut sources = Vec::new(alloc);
    let cores = ends.len() as u64;
    let mut core = 0;
    let mut from = 0;
    for end in ends {
        let source = RecordSlice::new(CoreId::at(core), cores, &operations[from..*end]);
        sources.push(source)?;
        from = *end;
        core += 1;
    }
    Ok(sources)
}
