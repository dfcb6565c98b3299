//! Explanations as data.

use core_program::Instruction;
use line_stamps::Stamp;
use log_record::Entry;
use mem_op::{Addr, Op, OpId, Word};
use verdict::Rule;

/// Why a set got its verdict.
#[derive(Drop)]
pub enum Explanation {
    /// A load or a swap reads another store than the right one, or another value than that store's.
    Load(WrongRead),
    /// The stamp and rank of a core's log fall.
    CoreOrder(Fall),
    /// A core's log isn't its program's.
    Program(Departure),
    /// No record breaks a rule.
    Summed(Summary),
}

/// A load that breaks a rule, or a swap by what it reads, and what stands around it.
#[derive(Drop)]
pub struct WrongRead {
    /// SOURCE or VALUE.
    pub rule: Rule,
    /// The load, or the swap.
    pub load: Entry,
    /// The store that it should read; none if that is the initial 0.
    pub right: Option<Entry>,
    /// The record that its source names; none if it names the initial 0, or nothing that is there.
    pub named: Option<Entry>,
    /// The first store, by key, that wrote over what it read: over the store that it names, or over the initial 0.
    pub culprit: Option<Entry>,
    /// The last store before it of the word that it read.
    pub same_word: Option<Entry>,
    /// The records of its address around it, in the order of their keys.
    pub rows: Vec<Entry>,
    /// Its place among these.
    pub place: usize,
    /// Whether it would break no rule just before the store that it should read.
    pub is_right_earlier: bool,
    /// The first store to its address after it.
    pub next: Option<Entry>,
    /// Whether it would break no rule just after that.
    pub is_right_later: bool,
    /// What its core did last at its address before it.
    pub own_last: Option<Entry>,
    /// What its core did around it, in program order.
    pub own_rows: Vec<Entry>,
    /// What the core of the store that it should read did around that store, in program order; nothing if there is no such store.
    pub right_rows: Vec<Entry>,
    /// How many operations of the set break SOURCE or VALUE.
    pub faults: FaultCounts,
}

/// How many operations of a set break SOURCE or VALUE. The first of them may have caused the others.
#[derive(Drop)]
pub struct FaultCounts {
    /// How many break SOURCE.
    pub source: usize,
    /// How many break VALUE.
    pub value: usize,
    /// How many of each core, from core 0 on, break the one or the other.
    pub by_core: Vec<usize>,
    /// At how many addresses they are.
    pub addresses: usize,
    /// The at most five addresses at which most are, and how many are there.
    pub most: Vec<Use>,
}

/// Two records of a core, the later one with the lesser stamp and rank.
#[derive(Drop)]
pub struct Fall {
    /// The record before.
    pub before: Entry,
    /// The record that breaks the rule.
    pub fault: Entry,
    /// The records of its core around it, in program order.
    pub rows: Vec<Entry>,
    /// How many records of each core, from core 0 on, break the rule.
    pub by_core: Vec<usize>,
}

/// A place at which a core's log isn't its program's.
#[derive(Drop)]
pub struct Departure {
    /// Where the operation was due.
    pub id: OpId,
    /// The record that stands there; none if the log has ended.
    pub found: Option<Entry>,
    /// What was due there; none if the program had ended.
    pub due: Option<Due>,
    /// What the registers held.
    pub registers: [Word; 16],
    /// The records of its core around it, in program order.
    pub rows: Vec<Entry>,
}

/// An instruction that was due.
#[derive(Clone, Copy, Debug, PartialEq, Eq)]
pub struct Due {
    /// Its line in the file of the programs, counted from 1.
    pub line: u64,
    /// The instruction.
    pub instruction: Instruction,
    /// What it does to memory.
    pub op: Op,
}

/// What is in a set that gets Yes.
#[derive(Drop)]
pub struct Summary {
    /// How many cores there are.
    pub cores: usize,
    /// How many operations are loads.
    pub loads: usize,
    /// How many operations are stores. A swap isn't counted as one.
    pub stores: usize,
    /// How many operations are swaps.
    pub swaps: usize,
    /// How many addresses are used.
    pub addresses: usize,
    /// The at most five most used addresses, the most used first.
    pub most_used: Vec<Use>,
    /// The least and the greatest stamp, if there are operations.
    pub stamps: Option<(Stamp, Stamp)>,
    /// How many operations have a stamp that another has too.
    pub sharing: usize,
    /// All operations in the order of their keys, if they are few enough to be drawn.
    pub rows: Option<Vec<Entry>>,
}

/// How often an address is used.
#[derive(Clone, Copy, Debug, PartialEq, Eq)]
pub struct Use {
    /// The address.
    pub addr: Addr,
    /// How many operations are on it.
    pub operations: usize,
}
