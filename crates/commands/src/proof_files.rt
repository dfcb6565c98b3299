//! Puts what was found where it was asked for.

ghost use Rattle.std.specs.Prelude.{◌≡◌, IfErr, OnOk};
ghost use Rattle.host_files.specs.Files.{KeepsFiles};
ghost use Rattle.commands.specs.Outputs.{HoldsAt, IsNameOf};
ghost use Rattle.merge_judge.specs.OrderText.{order_text};
ghost use Rattle.refutation.specs.Grammar.{refutation_text};
ghost use Rattle.commands.specs.inner.Performing.{IsUnprinted};

use super::place::Output;
use super::putting::put_under;
use super::refusal::Refusal;
use host_files::Folder;
use mem_op::OpId;
use merge_judge::print_order;
use pictures::draw_refutation;
use refutation::Refutation;
use refuted_cases::Names;
use std::alloc::Global;
use telling::tell;
use trace::Trace;

/// Puts the text of an order under a name, if one is given: 29 if the put fails.
pub(crate) fn put_order<F: Folder>(
    alloc: Global,
    folder: &mut F,
    name: Option<&str>,
    order: &[OpId],
) -> Result<(), Refusal>
    ensures ok { OnOk result (HoldsAt (F.files folder.new).told name.entry (λ bytes. bytes ≡ order_text order.now)) }
    ensures err { IfErr result IsUnprinted }
    ensures files { KeepsFiles (F.files folder.old).told (F.files folder.new).told (IsNameOf name.entry) }
{
    let Some(name) = name else {
        return Ok(());
    };
    let text = print_order(alloc, order)?;
    put_under(folder, Some(name), text.as_bytes(), Output::Order)
}

/// Puts the text of a refutation under a name, if one is given: 29 if the put fails.
pub(crate) fn put_refutation<F: Folder>(
    alloc: Global,
    folder: &mut F,
    name: Option<&str>,
    refutation: &Refutation,
) -> Result<(), Refusal>
    ensures ok { OnOk result (HoldsAt (F.files folder.new).told name.entry (λ bytes. bytes ≡ refutation_text refutation.now)) }
    ensures err { IfErr result IsUnprinted }
    ensures files { KeepsFiles (F.files folder.old).told (F.files folder.new).told (IsNameOf name.entry) }
{
    let Some(name) = name else {
        return Ok(());
    };
    let text = refutation.print(alloc)?;
    put_under(folder, Some(name), text.as_bytes(), Output::Refutation)
}

/// Puts a picture of a refutation, drawn by this trace and these names, under a name, if one is given: 29 if the put fails.
pub(crate) fn put_picture<F: Folder>(
    alloc: Global,
    folder: &mut F,
    name: Option<&str>,
    names: &Names,
    trace: &Trace,
    refutation: &Refutation,
) -> Result<(), Refusal>
    ensures err { IfErr result IsUnprinted }
    ensures files { KeepsFiles (F.files folder.old).told (F.files folder.new).told (IsNameOf name.entry) }
{
    let Some(name) = name else {
        return Ok(());
    };
    let words = tell(alloc, names, trace, refutation)?;
    let picture = draw_refutation(alloc, words.as_str(), names, trace, refutation)?;
    put_under(folder, Some(name), picture.as_bytes(), Output::Picture)
}
