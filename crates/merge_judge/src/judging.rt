//! The judge that merges.

ghost use Rattle.std.specs.Prelude.{◌≡◌, ◌↔◌, ◌<◌, ◌≤◌, ◌∷◌, ◌++◌, ◌&&◌, ℕ, List, [], None, Some, length, is_none, true, IfErr, IfSome, IsErr, IsErrOf};
ghost use Rattle.std.specs.Io.KnownBytes.{Appends};
ghost use Rattle.log_file.specs.Devices.{TellsFailure};
ghost use Rattle.log_file.specs.Sets.{ReaderFailed, TellEach};
ghost use Rattle.verdict.specs.Counts.{IsOutOfRange};
ghost use Rattle.verdict.specs.Judgement.{IsAnswerTo};
ghost use Rattle.verdict.specs.declared.judge_fault.Count.TheVariants.{Files, Programs, Workers};
ghost use Rattle.verdict.specs.declared.judge_fault.JudgeFault.TheVariants.{BadConfig, Read};
ghost use Rattle.merge_judge.specs.declared.merge_fault.MergeFault.TheVariants.{Judge, Write};
ghost use Rattle.merge_judge.specs.Answer.{IsQuietUpTo, WritesOrder, judged};
ghost use Rattle.merge_judge.specs.Begun.{StopsBefore};
ghost use Rattle.std.specs.Option.{option_or};
ghost use Rattle.log_record.specs.declared.record.Entry.{Entry};
ghost use Rattle.merge_judge.specs.inner.Judging.{IsMergedBy, IsNoCount, line_where};
ghost use Rattle.merge_judge.specs.inner.Memory.{Holds, IsMemory, fault_after};
ghost use Rattle.merge_judge.specs.inner.Merging.{Fit};
ghost use Rattle.merge_judge.specs.inner.Writing.{IsWritten};

use super::merge::Merge;
use super::merge_fault::MergeFault;
use super::nowhere::Nowhere;
use super::open_log::OpenLog;
use super::order::Order;
use super::order_text::OrderText;
use super::record_source::{Reading, RecordSource};
use super::sourced_memory::SourcedMemory;
use address_check::AddressFault;
use log_file::{ByteSink, ByteSource, WriteFault};
use log_record::Entry;
use std::alloc::Global;
use verdict::{JudgeFault, Verdict, check_counts};

/// Checks a merged record, and writes its id if there is no fault up to it.
fn look<W: ByteSink, O: Order<W>>(
    entry: &Entry,
    clean: bool,
    words: &mut SourcedMemory,
    fault: &mut Option<AddressFault>,
    order: &mut O,
    order_out: &mut W,
) -> Result<(), WriteFault>
    requires { IsMemory words.old.values.items words.old.sources.items }
    ensures whole { IsMemory words.new.values.items words.new.sources.items }
    ensures holds { (done : List Entry)
        → (fault.old ≡ None → Holds words.old.values.items words.old.sources.items done)
        → fault.new ≡ None → Holds words.new.values.items words.new.sources.items (done ++ entry.now ∷ []) }
    ensures fault { (done : List Entry)
        → (fault.old ≡ None → Holds words.old.values.items words.old.sources.items done)
        → fault.new ≡ option_or fault.old (fault_after done entry.now) }
    ensures written { IsWritten (W.contents order_out.old) (W.contents order_out.new)
        (O.kept order.old ++ line_where (is_none fault.new && clean) entry.now.id) result (O.kept order.new) }
    ensures failures { TellsFailure (IsErrOf result WriteFault.Write)
        (W.failed order_out.old) (W.failed order_out.new) }
    ensures unwritten { IsErr result → clean ≡ true }
{
    if fault.is_some() {
        return Ok(());
    }
    *fault = words.perform(entry);
    if fault.is_none() && clean {
        return order.add(order_out, entry.id);
    }
    Ok(())
}

/// Answers and writes what `merge_judge` does, with the number of files in range. `order` takes the ids
/// of the order.
pub(crate) fn merged<L: Reading, S: RecordSource<L>, W: ByteSink, O: Order<W>>(
    alloc: Global,
    readers: &mut [S],
    order_out: &mut W,
    mut order: O,
) -> Result<Verdict, MergeFault>
    requires some { 0 < length readers.old }
    requires few { length readers.old ≤ 64 }
    requires fit { Fit S.fits readers.old }
    requires none { O.kept order ≡ [] }
    ensures counted { IfErr result IsNoCount }
    ensures exact { IsMergedBy S.remaining S.failed (W.contents order_out.old) (W.contents order_out.new)
        readers.old readers.new result }
    ensures failures { TellsFailure (IsErrOf result Write) (W.failed order_out.old) (W.failed order_out.new) }
{
    let mut merge: Merge<L> = Merge::new(alloc, readers)?;
    let mut words = SourcedMemory::new(alloc)?;
    let mut fault = None;
    let mut count: usize = 0;
    while let Some(entry) = merge.take_first(readers) {
        let clean = merge.clean;
        look(&entry, clean, &mut words, &mut fault, &mut order, order_out)?;
        count += 1;
    }
    match merge.final_verdict(readers, fault, count)? {
        Verdict::No(fault) => Ok(Verdict::No(fault)),
        Verdict::Yes(count) => {
            order.end(order_out, count as u64)?;
            Ok(Verdict::Yes(count))
        }
    }
}

/// The judge's verdict, in constant memory, on the set of logs that the readers give. File `k` is the
/// log of core `k`, and there are as many cores as files. With a Yes it has written an order of all
/// operations by which the set is sequentially consistent, a line for each, and then the `end` line.
///
/// It reads all files at once, each in pieces, and keeps at most one unmerged record of each. After
/// the first fault it writes no more, and reads each file on to its end or its own first fault. It
/// never flushes.
///
/// Refusals: 6 BadConfig before any read, if the number of files isn't 1..64; 20..27, the first fault of
/// the least file that has one; 28 Read if the reader of a file failed; 29 Write if the writer failed;
/// 10 OutOfMemory if a growth was refused.
pub fn merge_judge<S: ByteSource, W: ByteSink>(
    alloc: Global,
    readers: &mut [S],
    order_out: &mut W,
) -> Result<Verdict, MergeFault>
    // 6 comes exactly if the number of files is out of range, and then it reads nothing.
    ensures files { IsErrOf result (Judge (BadConfig Files)) ↔ IsOutOfRange (length readers.old) }
    ensures unread { IsErrOf result (Judge (BadConfig Files)) → readers.new ≡ readers.old }
    ensures workers { ¬ IsErrOf result (Judge (BadConfig Workers)) }
    ensures programs { ¬ IsErrOf result (Judge (BadConfig Programs)) }
    // The readers tell texts, and if no write failed, the answer is the judge's answer to these texts. With
    // a Yes the writer took the text of an order by which the set is consistent. Otherwise the `end` line is
    // missing from the bytes it took. The ids in them are then, in the order of keys, the first of some
    // records: the texts begin with these, the verdict on these is Yes, and each of them comes before the
    // next record of each text that has more, and before the fault. After 6 it took nothing.
    ensures exact { (texts : List (List ℕ)) × TellEach S.remaining readers.old texts
        × IfSome (judged result) (IsAnswerTo texts)
        × ((written : List ℕ) × Appends (W.contents order_out.old) (W.contents order_out.new) written
        × WritesOrder texts result written × StopsBefore texts result written) }
    ensures read { IfErr result (λ fault. (file : ℕ) → fault ≡ Judge (Read file)
        → ReaderFailed S.failed readers.old readers.new file) }
    // It passes over no failed read, except after the file that it names, and if memory was refused.
    ensures quiet { IsQuietUpTo S.failed readers.old readers.new (judged result) }
    // It answers a failed write only if the writer failed in this call, and it passes over none.
    ensures failures { TellsFailure (IsErrOf result Write) (W.failed order_out.old) (W.failed order_out.new) }
{
    check_counts(readers.len(), 1)?;
    let order = OrderText::new(alloc)?;
    merged::<OpenLog, S, W, OrderText>(alloc, readers, order_out, order)
}

/// The verdict of `merge_judge` on the set of logs that the readers give, without an order.
///
/// Refusals: those of `merge_judge` but 29.
pub fn merged_verdict<S: ByteSource>(
    alloc: Global,
    readers: &mut [S],
) -> Result<Verdict, JudgeFault>
    // 6 comes exactly if the number of files is out of range, and then it reads nothing.
    ensures files { IsErrOf result (BadConfig Files) ↔ IsOutOfRange (length readers.old) }
    ensures unread { IsErrOf result (BadConfig Files) → readers.new ≡ readers.old }
    ensures workers { ¬ IsErrOf result (BadConfig Workers) }
    ensures programs { ¬ IsErrOf result (BadConfig Programs) }
    // The readers tell texts, and the answer is the judge's answer to these texts.
    ensures exact { (texts : List (List ℕ)) × TellEach S.remaining readers.old texts
        × IsAnswerTo texts result }
    ensures read { IfErr result (λ fault. (file : ℕ) → fault ≡ Read file
        → ReaderFailed S.failed readers.old readers.new file) }
    ensures quiet { IsQuietUpTo S.failed readers.old readers.new (Some result) }
{
    check_counts(readers.len(), 1)?;
    match merged::<OpenLog, S, Nowhere, Nowhere>(alloc, readers, &mut Nowhere, Nowhere) {
        Ok(verdict) => Ok(verdict),
        Err(MergeFault::Judge(fault)) => Err(fault),
        Err(MergeFault::Write) => unreachable!(),
    }
}
