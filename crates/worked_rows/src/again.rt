//! What has to come of a call that is made again in another way, whatever its row says.

ghost use Rattle.std.specs.Prelude.{◌<◌};

use super::beginnings::{copied, told_of_beginning, with_beginning};
use super::call::{Done, Outputs, SOUND, call, check_alone};
use super::compare::{Expected, compare};
use super::fault::RowsFault;
use super::words::{have, have_word, other_call, texts_of};
use log_file::Step;
use rows::{File, Given, find};
use std::alloc::Global;
use std::sync::Wait;
use std::thread::Threads;

/// How many writes fail in turn. Each write before the one that fails takes four bytes.
const WRITES: usize = 8;

/// How many reads of a file, of ten bytes each, fail in turn, at most.
const READS: usize = 20;

/// How many beginnings of a log are tried, at most, the shortest first.
const LONGEST_CUT: usize = 120;

/// How often a call went wrong when it was made again in other ways.
pub(crate) fn wrong_again<R: Threads + Wait + Sync + Print>(
    rt: &R,
    alloc: Global,
    words: &[&str],
    given: Given<'_>,
    expected: &Expected<'_>,
    done: &Done,
) -> Result<u64, RowsFault> {
    let Some(command) = words.get(1).copied() else {
        return Ok(0);
    };
    let again = Again {
        rt,
        alloc,
        words,
        given,
        expected: *expected,
    };
    let mut wrong = Wrong { count: 0 };
    wrong.unless(is_seen(command, done));
    if command == "check" && !expected.told.starts_with("error") {
        wrong.unless(again.by_workers()?);
        wrong.unless(again.alone()?);
        wrong.unless(again.as_order()?);
        wrong.unless(again.as_explanation()?);
        wrong.unless(again.cut_off()?);
    }
    if (command == "sim" || command == "run") && expected.status == 0 {
        wrong.unless(again.judged(done)?);
    }
    if !expected.printed.contains('*') && !expected.told.contains('*') {
        wrong.unless(again.failing_writes()?);
        wrong.unless(again.failing_complaints()?);
        wrong.unless(again.failing_reads()?);
    }
    Ok(wrong.count)
}

/// How often something was wrong.
#[derive(Clone, Copy)]
struct Wrong {
    count: u64,
}

impl Wrong {
    fn unless(&mut self, is_good: bool) {
        self.count = self.count.saturating_add(u64::from(!is_good));
    }
}

/// Only a run is watched: one that is done made at least a turn for each operation, and was over once.
fn is_seen(command: &str, done: &Done) -> bool {
    let (turns, over) = done.seen;
    if command != "run" || done.status == 3 {
        return turns == 0 && over == 0;
    }
    let count = done.printed.as_str().strip_prefix("done: ");
    match count.and_then(|rest| rest.split_once(' ')) {
        Some((count, _)) => over == 1 && count.parse::<u64>().is_ok_and(|count| turns >= count),
        None => over <= 1,
    }
}

/// A call of a row, to be made again in other ways.
#[derive(Drop)]
struct Again<'a, R> {
    rt: &'a R,
    alloc: Global,
    words: &'a [&'a str],
    given: Given<'a>,
    expected: Expected<'a>,
}

impl<'a, R: Threads + Wait + Sync + Print> Again<'a, R> {
    /// Whether a call with these words does what it should, over these files and with these writes.
    fn does(
        &self,
        words: &[&str],
        given: Given<'_>,
        outputs: Outputs<'_>,
        wanted: &Expected<'_>,
    ) -> Result<bool, RowsFault> {
        let done = call(self.rt, self.alloc, words, given, outputs)?;
        compare(self.rt, words, wanted, &done)
    }

    /// A check answers the same with any number of workers.
    fn by_workers(&self) -> Result<bool, RowsFault> {
        if have(self.words, "--workers") {
            return Ok(true);
        }
        Ok(self.by("--workers=1")? && self.by("--workers=2")? && self.by("--workers=64")?)
    }

    /// Whether a check does what it should with one more option.
    fn by(&self, option: &'a str) -> Result<bool, RowsFault> {
        let words = other_call(self.alloc, "check", Some(option), self.words)?;
        self.does(words.as_slice(), self.given, SOUND, &self.expected)
    }

    /// The judge alone, as the program `tardis_check` calls it, answers the same.
    fn alone(&self) -> Result<bool, RowsFault> {
        let Some(names) = self.words.get(2..) else {
            return Ok(false);
        };
        if have(names, "-") {
            return Ok(true);
        }
        let done = check_alone(self.rt, self.alloc, names, self.given)?;
        compare(self.rt, self.words, &self.expected, &done)
    }

    /// If an order is written, the verdict goes to standard error, and the order is whole only with a Yes.
    fn as_order(&self) -> Result<bool, RowsFault> {
        if have(self.words, "--") {
            return Ok(true);
        }
        let words = other_call(self.alloc, "order", None, self.words)?;
        let done = call(self.rt, self.alloc, words.as_slice(), self.given, SOUND)?;
        let told = if self.expected.status < 2 {
            self.expected.printed
        } else {
            self.expected.told
        };
        let wanted = Expected {
            printed: "**\n",
            told,
            ..self.expected
        };
        let is_good = compare(self.rt, words.as_slice(), &wanted, &done)?;
        let is_whole = done.printed.as_str().contains("end");
        Ok(is_good && is_whole == (self.expected.status == 0))
    }

    /// An explanation begins with the verdict's line; or it is refused, and tells more about that on standard output.
    fn as_explanation(&self) -> Result<bool, RowsFault> {
        if have(self.words, "--workers") {
            return Ok(true);
        }
        let words = other_call(self.alloc, "explain", None, self.words)?;
        let printed = if self.expected.status < 2 {
            format!(in self.alloc; "{}**\n", self.expected.printed)?
        } else {
            String::from_str(self.alloc, "**\n")?
        };
        let wanted = Expected {
            printed: printed.as_str(),
            ..self.expected
        };
        self.does(words.as_slice(), self.given, SOUND, &wanted)
    }

    /// Each proper beginning of a log is refused as cut off at the line after its last line feed.
    fn cut_off(&self) -> Result<bool, RowsFault> {
        if have(self.words, "--") || self.expected.status > 1 {
            return Ok(true);
        }
        let mut is_good = true;
        for (number, name) in self.words.iter().skip(2).enumerate() {
            if let Some(file) = find(self.given.files, name) {
                is_good = self.cut_off_in(number, file)? && is_good;
            }
        }
        Ok(is_good)
    }

    /// Each proper beginning of this log, the one of this number, is refused as cut off at the line after its last line feed.
    fn cut_off_in(&self, number: usize, file: &File) -> Result<bool, RowsFault> {
        let mut is_good = true;
        for length in 0..file.bytes.len().min(LONGEST_CUT) {
            is_good = self.cut_off_at(number, file, length)? && is_good;
        }
        Ok(is_good)
    }

    /// So is the one of this length.
    fn cut_off_at(&self, number: usize, file: &File, length: usize) -> Result<bool, RowsFault> {
        let beginning = file.bytes.get(..length).unwrap_or(&[]);
        let told = told_of_beginning(self.alloc, number, beginning)?;
        let files = with_beginning(self.alloc, self.given.files, file.name.as_str(), length)?;
        let given = Given {
            files: files.as_slice(),
            ..self.given
        };
        let wanted = Expected {
            status: 2,
            printed: "",
            told: told.as_str(),
            ..self.expected
        };
        self.does(self.words, given, SOUND, &wanted)
    }

    /// The logs of a run that is done get Yes against its programs.
    fn judged(&self, done: &Done) -> Result<bool, RowsFault> {
        let alloc = self.alloc;
        let [.., programs, _] = self.words else {
            return Ok(false);
        };
        let mut names = Vec::new(alloc);
        let mut files = Vec::new(alloc);
        if let Some(file) = find(self.given.files, programs) {
            files.push(copied(alloc, file)?)?;
        }
        for file in &done.put {
            // The file of a run's numbers is no log. Its name alone is a word of the call.
            if have_word(self.words, file.name.as_str()) {
                continue;
            }
            names.push(String::from_str(alloc, file.name.as_str())?)?;
            files.push(copied(alloc, file)?)?;
        }
        let names = texts_of(alloc, names.as_slice())?;
        let mut words = Vec::new(alloc);
        words.push("tardis")?;
        words.push("check")?;
        words.push("--program")?;
        words.push(*programs)?;
        for name in names.as_slice() {
            words.push(*name)?;
        }
        let given = Given {
            files: files.as_slice(),
            slow: None,
            room: 0,
        };
        let operations = done.printed.as_str().strip_prefix("done: ").unwrap_or("?");
        let yes = format!(in alloc; "yes: {operations}")?;
        let wanted = Expected {
            printed: yes.as_str(),
            ..self.expected
        };
        self.does(words.as_slice(), given, SOUND, &wanted)
    }

    /// If a write to standard output fails, the output has taken a beginning, and the call tells 29; but it tells a refusal as before.
    fn failing_writes(&self) -> Result<bool, RowsFault> {
        let mut is_good = true;
        for write in 0..WRITES {
            let outputs = Outputs {
                writes: &failing_at(write),
                complaints: &[],
            };
            let wanted = match self.expected.printed.get(..4 * write) {
                Some(taken)
                    if taken.len() < self.expected.printed.len() && self.expected.status > 1 => {
                    Expected {
                        printed: taken,
                        ..self.expected
                    }
                }
                Some(taken) if taken.len() < self.expected.printed.len() => Expected {
                    status: 4,
                    printed: taken,
                    told: "refused: output: 29 Write\n",
                    ..self.expected
                },
                _ => self.expected,
            };
            is_good = self.does(self.words, self.given, outputs, &wanted)? && is_good;
        }
        Ok(is_good)
    }

    /// The call passes over a write to standard error that fails.
    fn failing_complaints(&self) -> Result<bool, RowsFault> {
        let mut is_good = true;
        for write in 0..WRITES {
            let outputs = Outputs {
                writes: &[],
                complaints: &failing_at(write),
            };
            let told = self.expected.told;
            let wanted = Expected {
                told: told.get(..4 * write).unwrap_or(told),
                ..self.expected
            };
            is_good = self.does(self.words, self.given, outputs, &wanted)? && is_good;
        }
        Ok(is_good)
    }

    /// If a read of a file fails, up to the one that finds its end, the call tells 28; a replay with a no may end before that.
    fn failing_reads(&self) -> Result<bool, RowsFault> {
        if self.expected.status > 1 {
            return Ok(true);
        }
        let may_stop = have_word(self.words, "replay") && self.expected.status == 1;
        let mut is_good = true;
        for file in self.given.files {
            let reads = file.bytes.len().div_ceil(10).saturating_add(1);
            if have_word(self.words, file.name.as_str()) && reads < READS {
                for good in 0..=reads {
                    let is_due = self.failing_read(file, good)?;
                    let has_stopped = may_stop && good > 0 && !is_due;
                    is_good = is_good && (has_stopped || is_due == (good < reads));
                }
            }
        }
        Ok(is_good)
    }

    /// Whether a call tells 28 if a read of a file fails after this many good ones. If not, it should do what it does without the failure.
    fn failing_read(&self, file: &'a File, good: usize) -> Result<bool, RowsFault> {
        let mut steps = [Step::Move(9); READS];
        if let Some(step) = steps.get_mut(good) {
            *step = Step::Fail;
        }
        let given = Given {
            slow: Some((file.name.as_str(), &steps)),
            ..self.given
        };
        let done = call(self.rt, self.alloc, self.words, given, SOUND)?;
        let told = done.told.as_str();
        if done.status == 4 && told.starts_with("refused: ") && told.ends_with(": 28 Read\n") {
            let is_named = names_log(self.alloc, self.words, told, file)?;
            return Ok(is_named && !done.printed.as_str().contains("end"));
        }
        compare(self.rt, self.words, &self.expected, &done)?;
        Ok(false)
    }
}

/// Writes of four bytes each, of which this one fails.
fn failing_at(write: usize) -> [Step; WRITES]
    requires { write < 8 }
{
    let mut steps = [Step::Move(3); WRITES];
    steps[write] = Step::Fail;
    steps
}

/// Whether a refusal names the place of a file among the logs, in a call that has no options and reads logs alone.
fn names_log(alloc: Global, words: &[&str], told: &str, file: &File) -> Result<bool, RowsFault> {
    let reads_logs_alone = match words.get(1) {
        Some(command) => *command == "check" || *command == "order",
        None => false,
    };
    if have(words, "--") || !reads_logs_alone {
        return Ok(true);
    }
    let name = file.name.as_str();
    let number = words
        .iter()
        .skip(2)
        .take_while(|word| **word != name)
        .count();
    let wanted = format!(in alloc; "refused: file {number}: 28 Read\n")?;
    Ok(told == wanted.as_str())
}
