//! Manager slices.

ghost use Rattle.std.specs.Prelude.{◌≡◌, ◌+◌, ◌<◌, ◌≤◌, ◌++◌, ◌⊎◌, ◌↔◌, ◌∷◌, [], Ok, IfOk, IfErr, OnOk, OnErr, length, nat_eq, vec_len, vec_capacity};
ghost use Rattle.std.specs.Bool.{OnTrue};
ghost use Rattle.std.specs.Map.{lookup};
ghost use Rattle.line_stamps.specs.RecallParts.{RecallParts};
ghost use Rattle.line_stamps.specs.declared.message.Reply.TheVariants.{Busy};
ghost use Rattle.manager_slice.specs.declared.fault.SliceFault.TheVariants.{HistoryFull, OutOfMemory};
ghost use Rattle.manager_slice.specs.declared.row.Row.TheVariants.{Answered};
ghost use Rattle.manager_slice.specs.Changes.{entries_of, served, after_eviction};
ghost use Rattle.line_stamps.specs.Messages.{addr_of};
ghost use Rattle.manager_slice.specs.Outcome.{Answers, OutcomeLeads, handle_outcome, evict_outcome, step_of, IsEvicted, IsHandled};
ghost use Rattle.manager_slice.specs.Limits.{entry_limit};
ghost use Rattle.manager_slice.specs.Lines.{is_some_shared};
ghost use Rattle.manager_slice.specs.Opening.{new_slice};
ghost use Rattle.manager_slice.specs.Replay.{Replays};
ghost use Rattle.manager_slice.specs.Rows.{row_of};

use super::fault::SliceFault;
use super::managed::{HistoryEntry, ManagedLine};
use super::row::{Row, row_of};
use super::state::SliceState;
use lease_rule::Config;
use line_stamps::{Line, Message, Reply};
use mem_op::{Addr, CoreId};
use std::alloc::{AllocError, Global};
use std::marker::Model;

/// The most entries of a history.
const HISTORY_LIMIT: usize = 1_048_576;

/// A slice of the memory with the manager of its lines. It is always in the state to which its history leads, entry by entry
/// through the manager's table, from no lines and nothing in memory.
#[derive(Drop)]
pub struct ManagerSlice {
    number: usize,
    config: Config,
    state: SliceState,
    history: Vec<HistoryEntry>,
}

impl Model for ManagerSlice {
    ghost use Rattle.manager_slice.specs.Parts.{SliceParts};
    ghost use Rattle.manager_slice.specs.Replay.{IsKept};
    ghost use Rattle.std.specs.Coded.{codes};
    ghost use Rattle.memory_stamp.specs.contracts.words.Words as words;

    ghost Value = { SliceParts };

    ghost coded = { Prim.hlevel (codes, words.the_row.coded) };

    ghost view = { λ s. record {
      number = s.number;
      config = s.config;
      state = s.state;
      history = s.history.items;
    } };

    ghost invariant = { λ s. IsKept (record {
      number = s.number;
      config = s.config;
      state = s.state;
      history = s.history.items;
    }) };
}

impl ManagerSlice {
    /// The slice of this number at the start of a machine with this configuration. Only 10 OutOfMemory may come.
    pub fn new(alloc: Global, number: usize, config: &Config) -> Result<ManagerSlice, SliceFault>
        ensures opening { IfOk result (λ slice. slice ≡ new_slice config.now number) }
        ensures refused { IfErr result (λ fault. fault ≡ OutOfMemory) }
    {
        prove!(config.slice_lines() >= 1);
        Ok(ManagerSlice {
            number,
            config: *config,
            state: SliceState::new(alloc)?,
            history: Vec::new(alloc),
        })
    }

    /// Its number.
    pub fn number(&self) -> usize
        ensures { result ≡ self.now.number }
    {
        self.number
    }

    /// Its configuration.
    pub fn config(&self) -> &Config
        ensures { result.now ≡ self.now.config }
    {
        &self.config
    }

    /// Its lines, and the memory below them.
    pub fn state(&self) -> &SliceState
        ensures { result.now ≡ self.now.state }
    {
        &self.state
    }

    /// What it has done so far, in order: at most 1,048,576 entries.
    pub fn history(&self) -> &[HistoryEntry]
        ensures entries { result.now ≡ self.now.history }
        ensures limit { length self.now.history ≤ entry_limit }
    {
        self.history.as_slice()
    }

    /// Does nothing: its contract says that the state is the replay of the history.
    pub fn replays(&self)
        ensures { Replays self.now }
    {
        let _ = &self.number;
    }

    /// Handles a message of a core. Busy changes nothing and takes no memory. Any other reply makes an entry of the history,
    /// and makes the message's line the most recently served. If the line is absent and the slice is full, it first evicts
    /// the least recently served Shared line, or, if there is none, recalls the least recently served line by Busy.
    ///
    /// The refusals, in this order: 11 NotOwner if a core gives a line back and isn't its owner, 4 StampLimit if the reply would
    /// carry a stamp above 2^48, 12 HistoryFull if the entries don't fit, 10 OutOfMemory. They change nothing.
    pub fn handle(&mut self, from: CoreId, message: &Message) -> Result<Reply, SliceFault>
        // The reply, the entries and the state after it follow the table.
        ensures table { IfOk result (λ reply. IsHandled self.old from message.now reply self.new) }

        // The order of service settles the row and the line that gives way. 11, 4 and 12 come exactly when they are due;
        // 10 comes only instead of a step.
        ensures outcome { OutcomeLeads (handle_outcome self.old from message.now) result self.old self.new }
        ensures busy { (x : RecallParts) → (result ≡ Ok (Busy x))
            ↔ (handle_outcome self.old from message.now ≡ Answers (Busy x)) }
        ensures refused { OnErr result (self.new ≡ self.old) }
    {
        match &row_of(&self.config, &self.state, from, message) {
            Err(fault) => Err(*fault),
            Ok(Row::Recalled(recall)) => Ok(Reply::Busy(*recall)),
            Ok(
                Row::Answered {
                    evicted,
                    reply,
                    line,
                },
            ) => {
                self.answer(from, message, evicted, reply, line)?;
                Ok(*reply)
            }
        }
    }

    /// Evicts the line of an address to memory if it is there and Shared, and answers whether it was. If it was, this makes an
    /// entry of the history. Otherwise nothing changes, and it takes no memory.
    ///
    /// The refusals, in this order: 12 HistoryFull if the entry doesn't fit, 10 OutOfMemory. They change nothing.
    pub fn evict(&mut self, addr: Addr) -> Result<bool, SliceFault>
        // The state after it follows the table.
        ensures table { IfOk result (λ went. OnTrue went (IsEvicted self.old addr self.new)) }
        ensures shared { IfOk result (λ went.
            went ≡ is_some_shared (lookup (nat_eq addr) self.old.state.lines)) }
        ensures outcome { OutcomeLeads (evict_outcome self.old addr) result self.old self.new }
        ensures refused { OnErr result (self.new ≡ self.old) }
    {
        let ManagerSlice { state, history, .. } = self;
        let Some(ManagedLine::Shared(line)) = &state.lines.get(addr).copied() else {
            return Ok(false);
        };
        reserve(history, 1)?;
        state.evict(addr, line)?;
        push_copy(history, &HistoryEntry::Evicted(addr));
        Ok(true)
    }

    // Performs the row that a message meets.
    fn answer(
        &mut self,
        from: CoreId,
        message: &Message,
        evicted: &Option<(Addr, Line)>,
        reply: &Reply,
        line: &ManagedLine,
    ) -> Result<(), SliceFault>
        requires { row_of self.old.config self.old.state from message.now
            ≡ Ok (Answered evicted.now reply.now line.now) }
        ensures table { OnOk result (IsHandled self.old from message.now reply.now self.new) }
        ensures outcome { OutcomeLeads (step_of self.old tt (entries_of evicted.now from message.now reply.now)
            (served (after_eviction evicted.now self.old.state) (addr_of message.now) line.now))
            result self.old self.new }
    {
        let ManagerSlice { state, history, .. } = self;
        reserve(history, if evicted.is_some() { 2 } else { 1 })?;
        state.serve(evicted, message.addr(), *line)?;
        append(history, evicted, from, message, reply);
        Ok(())
    }
}

// Makes room for `entries` more entries; 12 if they don't fit, 10 if memory was refused.
fn reserve(history: &mut Vec<HistoryEntry>, entries: usize) -> Result<(), SliceFault>
    requires { entries ≤ 2 }
    ensures items { history.new.items ≡ history.old.items }
    ensures room { OnOk result (vec_len history.new + entries ≤ vec_capacity history.new) }
    ensures fits { OnOk result (vec_len history.old + entries ≤ entry_limit) }
    ensures full { IfErr result (λ fault. ((fault ≡ HistoryFull) × (entry_limit < vec_len history.old + entries))
        ⊎ ((fault ≡ OutOfMemory) × (vec_len history.old + entries ≤ entry_limit))) }
{
    if history.len() > HISTORY_LIMIT - entries {
        return Err(SliceFault::HistoryFull);
    }
    history.reserve(entries)?;
    Ok(())
}

// Appends a copy of an item. There must be room for it.
fn push_copy<T: Copy>(items: &mut Vec<T>, item: &T)
    requires { vec_len items.old < vec_capacity items.old }
    ensures items { items.new.items ≡ items.old.items ++ item.now ∷ [] }
    ensures len { vec_len items.new ≡ vec_len items.old + 1 }
    ensures capacity { vec_capacity items.new ≡ vec_capacity items.old }
{
    items.push_reserved(*item);
}

// Appends the entries of an answered message. There must be room for them.
fn append(
    history: &mut Vec<HistoryEntry>,
    evicted: &Option<(Addr, Line)>,
    from: CoreId,
    message: &Message,
    reply: &Reply,
)
    requires { vec_len history.old + length (entries_of evicted.now from message.now reply.now)
        ≤ vec_capacity history.old }
    ensures { history.new.items
        ≡ history.old.items ++ entries_of evicted.now from message.now reply.now }
{
    if let Some((victim, _)) = evicted {
        push_copy(history, &HistoryEntry::Evicted(*victim));
    }
    push_copy(history, &HistoryEntry::Served(from, *message, *reply));
}
