//! The verdict on the logs of a set, and why it is so.

ghost use Rattle.std.specs.Prelude.{◌≡◌, List, IfErr, IfOk, IsTrue, string_bytes};
ghost use Rattle.std.specs.Str.Iter.{HasSubslice};
ghost use Rattle.command_line.specs.declared.request.Request.TheVariants as request;
ghost use Rattle.log_record.specs.declared.record.Record.{Record};
ghost use Rattle.verdict.specs.CoreFaultsOf.{given};
ghost use Rattle.verdict.specs.Bases.{IsExaminationOf};
ghost use Rattle.telling.specs.FirstLines.{IsGrown};
ghost use Rattle.verdict.specs.Texts.{verdict_text};
ghost use Rattle.commands.specs.OtherOrders.{another_words};
ghost use Rattle.commands.specs.inner.Explaining.{IsExplained};
ghost use Rattle.host_files.specs.Files.{IsOnlyRead, IsUnread, KeepsFiles};
ghost use Rattle.commands.specs.Outputs.{IsNameOf};
ghost use Rattle.log_file.specs.Sinks.{line, sink_of};
ghost use Rattle.commands.specs.inner.Performing.{Came, IsReadFault};

use super::answer::CommandAnswer;
use super::check_files::judge;
use super::other_order::{LastLines, other_order};
use super::place::Output;
use super::putting::put_under;
use super::refusal::Refusal;
use super::text::read_names;
use super::verdict_line::verdict_line;
use command_line::Explain;
use core_program::ProgramSet;
use explain::{Explanation, explain as explained};
use host_files::Folder;
use log_file::{ByteSink, write_all};
use pictures::draw_explanation;
use refuted_cases::Names;
use search::SearchWatch;
use std::alloc::{AllocError, Global};
use std::thread::Threads;
use telling::{first_sentence, print};
use verdict::{Examined, Verdict};

/// The words if a picture is asked for and the set is too large for one.
const NO_PICTURE: &str =
    "picture        none, of more than 200 operations; where there is a file of its name, that is an older one\n";

/// The words by which the last lines say that another order explains all values.
const ANOTHER_WORDS: &str = "so this run is sequentially consistent";

/// The words about a verdict.
#[derive(Drop)]
struct Told {
    verdict: Verdict,
    text: String,
    picture: Option<String>,
}

/// Judges the logs in files of the folder as `check` does, puts a picture of why where one is asked for, and prints the
/// verdict's line and what there is to tell of it, with names in place of addresses where a file gives some. The verdict, or why there
/// is none: the names are read first; 29 of the picture or of standard output. A watch is told how far the search for another order is.
pub(crate) fn explain<R: Threads + Sync, W: SearchWatch, F: Folder, O: ByteSink>(
    rt: &R,
    alloc: Global,
    watch: &W,
    folder: &mut F,
    asked: &Explain<'_>,
    out: &mut O,
) -> Result<CommandAnswer, Refusal>
    ensures { Came (F.files folder.old) (F.files folder.new)
        (IsUnread F.Source.remaining F.Source.failed (F.files folder.old) (F.files folder.new))
        (sink_of O.contents O.failed out.old) (sink_of O.contents O.failed out.new) (request.Explain asked.now) result }
{
    let told = tell(rt, alloc, watch, folder, asked)?;
    put_picture(folder, asked.picture, &told)?;
    write_all(out, told.text.as_bytes())?;
    Ok(CommandAnswer::Explained(told.verdict))
}

/// Puts a picture under a name, if there is a name and a picture.
fn put_picture<F: Folder>(folder: &mut F, name: Option<&str>, told: &Told) -> Result<(), Refusal>
    ensures err { IfErr result (λ fault. fault ≡ Refusal.Unwritten Output.Picture) }
    ensures files { KeepsFiles (F.files folder.old).told (F.files folder.new).told
        (IsNameOf name.entry) }
{
    match (name, &told.picture) {
        (Some(name), Some(svg)) => {
            put_under(folder, Some(name), svg.as_bytes(), Output::Picture)
        }
        _ => Ok(()),
    }
}

/// What there is to tell of the logs in files of the folder, or why there is no verdict or no name.
fn tell<R: Threads + Sync, W: SearchWatch, F: Folder>(
    rt: &R,
    alloc: Global,
    watch: &W,
    folder: &mut F,
    asked: &Explain<'_>,
) -> Result<Told, Refusal>
    ensures ok { IfOk result (λ told. IsExplained (F.files folder.old).told asked.now told.verdict (string_bytes told.text)) }
    ensures err { IfErr result (IsReadFault
        (IsUnread F.Source.remaining F.Source.failed (F.files folder.old) (F.files folder.new)) (request.Explain asked.now)) }
    ensures read { IsOnlyRead (F.files folder.old) (F.files folder.new) }
{
    let names = read_names(alloc, folder, asked.names)?;
    tell_named(rt, alloc, watch, folder, asked, &names)
}

/// The same with these names.
fn tell_named<R: Threads + Sync, W: SearchWatch, F: Folder>(
    rt: &R,
    alloc: Global,
    watch: &W,
    folder: &mut F,
    asked: &Explain<'_>,
    names: &Names,
) -> Result<Told, Refusal>
    ensures ok { IfOk result (λ told. IsExplained (F.files folder.old).told asked.now told.verdict (string_bytes told.text)) }
    ensures err { IfErr result (IsReadFault
        (IsUnread F.Source.remaining F.Source.failed (F.files folder.old) (F.files folder.new)) (request.Explain asked.now)) }
    ensures read { IsOnlyRead (F.files folder.old) (F.files folder.new) }
{
    let found = judge(rt, alloc, folder, &asked.check)?;
    let last = other_order(
        alloc,
        watch,
        names,
        &found.examined,
        asked.check.files.len(),
        asked.no_search,
    )?;
    let told = words(
        alloc,
        &found.examined,
        found.programs.as_ref(),
        asked,
        names,
        &last,
    )?;
    Ok(told)
}

/// The text of a verdict on the logs that were asked about and of what there is to tell of it, with its last lines, and a picture where it
/// is to be drawn and can be.
fn words(
    alloc: Global,
    examined: &Examined,
    programs: Option<&ProgramSet>,
    asked: &Explain<'_>,
    names: &Names,
    last: &LastLines,
) -> Result<Told, AllocError>
    requires { (logs : List (List Record)) × IsExaminationOf (given programs) logs examined.now }
    ensures verdict { IfOk result (λ told. told.verdict ≡ examined.now.verdict) }
    ensures first { IfOk result (λ told. IsGrown (line (verdict_text told.verdict)) (string_bytes told.text)) }
    ensures another { IfOk result (λ told. HasSubslice (string_bytes told.text) another_words → IsTrue last.now.say_another) }
{
    let (verdict, files) = (examined.verdict, asked.check.files.as_slice());
    let is_drawn = asked.picture.is_some();
    let why = reason(alloc, examined, programs, files.len())?;
    let picture = picture_of(alloc, names, &verdict, &why, is_drawn)?;
    let more = more_text(alloc, files, names, &why, is_drawn && picture.is_none())?;
    let text = text_of(alloc, &verdict, more.as_str(), last)?;
    Ok(Told {
        verdict,
        text,
        picture,
    })
}

/// Why the verdict is so. There is always a reason.
fn reason(
    alloc: Global,
    examined: &Examined,
    programs: Option<&ProgramSet>,
    cores: usize,
) -> Result<Explanation, AllocError>
    requires { (logs : List (List Record)) × IsExaminationOf (given programs) logs examined.now }
{
    match explained(alloc, examined, programs, cores)? {
        Some(why) => Ok(why),
        None => unreachable!(),
    }
}

/// The picture of why a verdict is so, if it is to be drawn and can be.
fn picture_of(
    alloc: Global,
    names: &Names,
    verdict: &Verdict,
    why: &Explanation,
    is_drawn: bool,
) -> Result<Option<String>, AllocError> {
    if !is_drawn {
        return Ok(None);
    }
    let line = format!(in alloc; "{verdict}")?;
    let sentence = first_sentence(alloc, names, why)?;
    draw_explanation(alloc, names, line.as_str(), sentence.as_str(), why)
}

/// What there is to tell after the line of a verdict, and whether a picture that was asked for is left out.
fn more_text(
    alloc: Global,
    files: &[&str],
    names: &Names,
    why: &Explanation,
    is_left_out: bool,
) -> Result<String, AllocError> {
    let mut text = print(alloc, files, names, why)?;
    if is_left_out {
        text.push_str(NO_PICTURE)?;
    }
    Ok(text)
}

/// The line of a verdict, what there is to tell after it, and the last lines. The line alone if a name has the words of these, and they don't.
fn text_of(
    alloc: Global,
    verdict: &Verdict,
    why: &str,
    last: &LastLines,
) -> Result<String, AllocError>
    ensures first { IfOk result (λ text. IsGrown (line (verdict_text verdict.now)) (string_bytes text)) }
    ensures another { IfOk result (λ text. HasSubslice (string_bytes text) another_words → IsTrue last.now.say_another) }
{
    let line = verdict_line(verdict);
    let text = joined(alloc, line.as_str(), why, last.text.as_str())?;
    if last.say_another {
        return Ok(text);
    }
    if has_words(text.as_str()) {
        let alone = String::from_str(alloc, line.as_str())?;
        return Ok(alone);
    }
    Ok(text)
}

/// Whether a text has the words by which the last lines say that another order explains all values.
fn has_words(text: &str) -> bool
    ensures { HasSubslice text.now another_words → IsTrue result }
{
    text.contains(ANOTHER_WORDS)
}

/// Three texts in one.
fn joined(alloc: Global, first: &str, second: &str, third: &str) -> Result<String, AllocError>
    ensures { IfOk result (λ text. IsGrown first.now (string_bytes text)) }
{
    let mut text = String::from_str(alloc, first)?;
    text.push_str(second)?;
    text.push_str(third)?;
    Ok(text)
}
