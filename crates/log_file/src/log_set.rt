//! The logs of a set, in one list of entries.

ghost use Rattle.std.specs.Prelude.{◌≡◌, ◌≤◌, ◌+◌, ℕ, List, All, IfErr, IfOk, IfSome, drop, length, map, option_map, slice_get, vec_len};
ghost use Rattle.mem_op.specs.Limits.{operation_limit};
ghost use Rattle.log_record.specs.Entries.{core_entries, entries, record_lists};
ghost use Rattle.log_record.specs.declared.record.Entry.{Entry};
ghost use Rattle.log_file.specs.SetKeeping.{start_in};
ghost use Rattle.log_file.specs.Sets.{IsReadFault, IsSetAnswer, NoneFailed, ReaderFailed, TellEach};

use super::byte_source::ByteSource;
use super::entry_list::EntryList;
use super::fault::{LogFault, SetFault};
use super::one_log::read_list;
use super::record_reader::RecordReader;
use log_record::{Entry, Record};
use mem_op::CoreId;
use std::alloc::{AllocError, Global};
use std::marker::Model;

/// The records of some entries.
fn records_of(alloc: Global, entries: &[Entry]) -> Result<Vec<Record>, AllocError>
    ensures records { IfOk result (λ records. records.items ≡ map (λ (e : Entry). e.logged) entries.now) }
    ensures len { IfOk result (λ records. vec_len records ≡ length entries.now) }
{
    entries.iter().map(|e| e.logged).collect(alloc)
}

/// The logs of a set in one list, each record with its id, core 0's first: at most 64 logs, each of at most 1,048,576
/// records.
#[derive(Drop)]
pub struct LogSet {
    entries: Vec<Entry>,
    /// Where the entries of each log end in the list.
    ends: Vec<usize>,
}

impl Model for LogSet {
    ghost use Rattle.std.specs.Prelude.{List};
    ghost use Rattle.log_record.specs.declared.record.Record.{Record};

    ghost Value = { List (List Record) };

    ghost use Rattle.log_file.specs.SetKeeping.{keeps_set, logs_in};

    ghost view = { logs_in };

    ghost invariant = { keeps_set };
}

impl LogSet {
    /// The logs of a set, one from each reader in their order, or the fault of the first file that has one. File k must
    /// be the log of core k, and there must be as many cores as readers. 10 comes if a growth was refused, 28 if a read
    /// failed.
    pub fn read<S: ByteSource>(alloc: Global, readers: &mut [S]) -> Result<LogSet, SetFault>
        requires { length readers.old ≤ 64 }
        // The readers tell texts, and this is the answer to these.
        ensures answer { (texts : List (List ℕ)) × TellEach S.remaining readers.old texts
            × IsSetAnswer texts result }
        // It answers a failed read only if that reader failed in this call.
        ensures read { IfErr result (λ e. e.fault ≡ LogFault.Read →
            ReaderFailed S.failed readers.old readers.new e.file) }
        // And it passes over no failed read.
        ensures quiet { ¬ IsReadFault result → NoneFailed S.failed readers.old readers.new }
        // It doesn't read the readers after the refused file.
        ensures unread { IfErr result (λ e.
            drop (e.file + 1) readers.new ≡ drop (e.file + 1) readers.old) }
        ensures count { IfOk result (λ set. length set ≡ length readers.old) }
    {
        let cores = readers.len() as u64;
        let mut entries = Vec::new(alloc);
        let mut ends = Vec::new(alloc);
        for (file, reader) in readers.iter_mut().enumerate() {
            let core = CoreId::at(file);
            let fresh = RecordReader::new(core, cores);
            let list = EntryList::after(core, entries);
            entries = match read_list(alloc, reader, fresh, list) {
                Ok(list) => list.into_entries(),
                Err(fault) => return Err(SetFault { file, fault }),
            };
            if ends.push(entries.len()).is_err() {
                return Err(SetFault {
                    file,
                    fault: LogFault::OutOfMemory,
                });
            }
        }
        Ok(LogSet { entries, ends })
    }

    /// How many logs there are.
    pub fn len(&self) -> usize
        ensures len { result ≡ length self.now }
        ensures few { result ≤ 64 }
    {
        self.ends.len()
    }

    /// The entries of the log of a core, if it is there.
    pub fn get(&self, core: CoreId) -> Option<&[Entry]>
        ensures log { option_map (λ log. log.now) result
            ≡ option_map (λ log. core_entries core 0 log) (slice_get self.now core) }
        ensures short { IfSome result (λ log. length log.now ≤ operation_limit) }
    {
        let place = core.get() as usize;
        if place >= self.ends.len() {
            return None;
        }
        let start = self.start_of(place);
        let end = self.ends[place];
        Some(&self.entries[start..end])
    }

    /// Where the entries of the log at this place begin in the list.
    fn start_of(&self, place: usize) -> usize
        requires { place ≤ length self.now }
        ensures { result ≡ start_in self.now place }
    {
        if place == 0 {
            return 0;
        }
        self.ends[place - 1]
    }

    /// The records of each log, core 0's first. Err if memory was refused.
    pub fn logs(&self, alloc: Global) -> Result<Vec<Vec<Record>>, AllocError>
        ensures logs { IfOk result (λ logs. record_lists logs.items ≡ self.now) }
        ensures count { IfOk result (λ logs. vec_len logs ≡ length self.now) }
        ensures short { IfOk result (λ logs. All (λ log. vec_len log ≤ operation_limit) logs.items) }
    {
        let mut logs = Vec::with_capacity(alloc, self.len())?;
        for number in 0..self.len() {
            let Some(log) = self.get(CoreId::at(number)) else {
                unreachable!()
            };
            logs.push(records_of(alloc, log)?)?;
        }
        Ok(logs)
    }

    /// The entries of all logs, by core and then by index, for the caller to keep.
    pub fn into_entries(self) -> Vec<Entry>
        ensures entries { result.items ≡ entries self }
        ensures cores { length self ≤ 64 }
        ensures records { All (λ log. length log ≤ operation_limit) self }
    {
        self.entries
    }
}
