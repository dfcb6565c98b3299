//! Core units.

ghost use Rattle.std.specs.Prelude.{◌≡◌, ◌≤◌, [], length, Some, None, IfOk, IfErr};
ghost use Rattle.std.specs.Option.{option_copied};
ghost use Rattle.core_program.specs.Running.{IsAtRest, start_of};
ghost use Rattle.private_cache.specs.Steps.{empty_cache, IsLeastExclusive};
ghost use Rattle.manager_slice.specs.Limits.{entry_limit};
ghost use Rattle.core_unit.specs.Kept.{Replays};
ghost use Rattle.core_unit.specs.declared.fault.UnitFault.TheVariants.{OutOfMemory};

use super::fault::UnitFault;
use super::transcript::Transcript;
use core_program::{Program, ProgramState};
use lease_rule::Config;
use line_stamps::{Message, Rank, Stamp};
use log_record::Record;
use mem_op::{Addr, CoreId};
use private_cache::PrivateCache;
use std::alloc::Global;
use std::marker::Model;

/// A core with its program. It is always in the state to which its transcript leads, entry by entry
/// through the table of the private cache, from the start of its program. A request in hand comes from a
/// miss of its next operation, and isn't an entry. While a message is in hand, no call but `take` has an
/// effect.
#[derive(Drop)]
pub struct CoreUnit {
    pub(crate) core: CoreId,
    pub(crate) program: Program,
    pub(crate) config: Config,
    pub(crate) state: ProgramState,
    pub(crate) pts: Stamp,
    pub(crate) r: Rank,
    pub(crate) cache: PrivateCache,
    pub(crate) hand: Option<Message>,
    pub(crate) transcript: Transcript,
    pub(crate) log: Vec<Record>,
}

impl Model for CoreUnit {
    ghost use Rattle.std.specs.Coded.{codes};
    ghost use Rattle.private_cache.specs.contracts.cache.PrivateCache as lines;
    ghost use Rattle.core_unit.specs.Kept.{IsKept};
    ghost use Rattle.core_unit.specs.Parts.{UnitParts};

    ghost Value = { UnitParts };

    ghost coded = { Prim.hlevel (codes, lines.the_row.coded) };

    ghost view = { λ u. record {
      core = u.core;
      program = u.program;
      config = u.config;
      state = u.state;
      pts = u.pts;
      r = u.r;
      cache = u.cache;
      hand = u.hand;
      transcript = u.transcript.entries;
      log = u.log.items;
    } };

    ghost invariant = { λ u. IsKept (record {
      core = u.core;
      program = u.program;
      config = u.config;
      state = u.state;
      pts = u.pts;
      r = u.r;
      cache = u.cache;
      hand = u.hand;
      transcript = u.transcript.entries;
      log = u.log.items;
    }) };
}

impl CoreUnit {
    /// The core at the start of this program. Only 10 OutOfMemory may come.
    pub fn new(
        alloc: Global,
        core: CoreId,
        program: Program,
        config: &Config,
    ) -> Result<CoreUnit, UnitFault>
        ensures opening { IfOk result (λ unit. unit ≡ record {
          core = core;
          program = program;
          config = config.now;
          state = start_of program;
          pts = 0;
          r = 0;
          cache = empty_cache config.now.cache_lines;
          hand = None;
          transcript = [];
          log = [];
        }) }
        ensures refused { IfErr result (λ fault. fault ≡ OutOfMemory) }
    {
        let state = ProgramState::new(&program);
        let cache = PrivateCache::new(alloc, config)?;
        // Jumps only skip, so there are at most as many operations as instructions.
        let operations = program.instructions().len();
        let transcript = Transcript::with_room(alloc, operations)?;
        let log = Vec::with_capacity(alloc, operations)?;
        Ok(CoreUnit {
            core,
            program,
            config: *config,
            state,
            pts: Stamp::ZERO,
            r: Rank::ZERO,
            cache,
            hand: None,
            transcript,
            log,
        })
    }

    /// Which core it is.
    pub fn core(&self) -> CoreId
        ensures { result ≡ self.now.core }
    {
        self.core
    }

    /// Its program.
    pub fn program(&self) -> &Program
        ensures { result.now ≡ self.now.program }
    {
        &self.program
    }

    /// Its configuration.
    pub fn config(&self) -> &Config
        ensures { result.now ≡ self.now.config }
    {
        &self.config
    }

    /// Where it is in its program, and what its registers hold.
    pub fn program_state(&self) -> &ProgramState
        ensures { result.now ≡ self.now.state }
    {
        &self.state
    }

    /// Its stamp.
    pub fn pts(&self) -> Stamp
        ensures { result ≡ self.now.pts }
    {
        self.pts
    }

    /// Its rank.
    pub fn rank(&self) -> Rank
        ensures { result ≡ self.now.r }
    {
        self.r
    }

    /// Its private cache.
    pub fn cache(&self) -> &PrivateCache
        ensures { result.now ≡ self.now.cache }
    {
        &self.cache
    }

    /// The message in hand, if there is one.
    pub fn in_hand(&self) -> Option<&Message>
        ensures { option_copied result ≡ self.now.hand }
    {
        self.hand.as_ref()
    }

    /// What it has done so far, in order: at most 1,048,576 entries.
    pub fn transcript(&self) -> &Transcript
        ensures entries { result.now.entries ≡ self.now.transcript }
        ensures limit { length self.now.transcript ≤ entry_limit }
    {
        &self.transcript
    }

    /// The records of the operations that it has performed, in order: at most 1,048,576.
    pub fn log(&self) -> &[Record]
        ensures records { result.now ≡ self.now.log }
        ensures limit { length self.now.log ≤ entry_limit }
    {
        self.log.as_slice()
    }

    /// The least address whose line is Exclusive; none if no line is. Takes no memory.
    pub fn next_exclusive(&self) -> Option<Addr>
        ensures { IsLeastExclusive self.now.cache result }
    {
        self.cache.least_exclusive()
    }

    /// Does nothing: its contract says that the state is the replay of the transcript, that the
    /// program rests, and that the cache has room for as many lines as the configuration says.
    pub fn replays(&self)
        ensures replays { Replays self.now }
        ensures rests { IsAtRest self.now.program self.now.state }
        ensures capacity { self.now.cache.capacity ≡ self.now.config.cache_lines }
    {
        let _ = &self.core;
    }
}
