//! The configuration of the machine.

ghost use Rattle.std.specs.Prelude.{◌≡◌, ◌<◌, ◌≤◌, ◌%◌, Some, None, IsTrue, IsFalse, MatchResult};
ghost use Rattle.lease_rule.specs.ConfigParts.{ConfigParts};
ghost use Rattle.lease_rule.specs.Ranges.{is_within, first_bad};

use super::fault::BadConfig;
use mem_op::Addr;
use std::marker::Model;

/// The numbers of a machine, each within its range.
#[derive(Clone, Copy, Debug, PartialEq, Eq)]
pub struct Config {
    slices: u64,
    lease: u64,
    period: u64,
    cache_lines: u64,
    slice_lines: u64,
    inbox: u64,
    turns: u64,
}

impl Model for Config {
    ghost use Rattle.std.specs.Prelude.{◌≡◌, None};
    ghost use Rattle.lease_rule.specs.ConfigParts.{ConfigParts};
    ghost use Rattle.lease_rule.specs.Ranges.{first_bad};

    ghost Value = { ConfigParts };

    ghost view = { λ c. record {
      slices = c.slices;
      lease = c.lease;
      period = c.period;
      cache_lines = c.cache_lines;
      slice_lines = c.slice_lines;
      inbox = c.inbox;
      turns = c.turns;
    } };

    ghost invariant = { λ c. first_bad (record {
      slices = c.slices;
      lease = c.lease;
      period = c.period;
      cache_lines = c.cache_lines;
      slice_lines = c.slice_lines;
      inbox = c.inbox;
      turns = c.turns;
    }) ≡ None };

    ghost inverse = { λ c. record {
      slices = c.slices;
      lease = c.lease;
      period = c.period;
      cache_lines = c.cache_lines;
      slice_lines = c.slice_lines;
      inbox = c.inbox;
      turns = c.turns;
    } };
}

// The number, if it is from 1 to the greatest; otherwise this fault.
fn within(number: u64, greatest: u64, fault: BadConfig) -> Result<u64, BadConfig>
    ensures { MatchResult result
        (λ n. (n ≡ number) × IsTrue (is_within greatest number))
        (λ f. (f ≡ fault) × IsFalse (is_within greatest number)) }
{
    if number >= 1 && number <= greatest {
        Ok(number)
    } else {
        Err(fault)
    }
}

impl Config {
    /// The configuration of these numbers; 6 BadConfig with the first number that is out of its range.
    pub fn new(
        slices: u64,
        lease: u64,
        period: u64,
        cache_lines: u64,
        slice_lines: u64,
        inbox: u64,
        turns: u64,
    ) -> Result<Config, BadConfig>
        ensures { let parts : ConfigParts = record {
          slices = slices;
          lease = lease;
          period = period;
          cache_lines = cache_lines;
          slice_lines = slice_lines;
          inbox = inbox;
          turns = turns;
        } in
            MatchResult result
            (λ config. (config ≡ parts) × (first_bad parts ≡ None))
            (λ fault. first_bad parts ≡ Some fault) }
    {
        Ok(Config {
            slices: within(slices, 16, BadConfig::Slices)?,
            lease: within(lease, 1_000, BadConfig::Lease)?,
            period: within(period, 1_000_000, BadConfig::Period)?,
            cache_lines: within(cache_lines, 4_096, BadConfig::CacheLines)?,
            slice_lines: within(slice_lines, 65_536, BadConfig::SliceLines)?,
            inbox: within(inbox, 1_024, BadConfig::Inbox)?,
            turns: within(turns, 10_000_000, BadConfig::Turns)?,
        })
    }

    /// How many slices the memory is divided into, 1 to 16.
    pub fn slices(&self) -> usize
        ensures value { result ≡ self.now.slices }
        ensures least { 1 ≤ self.now.slices }
        ensures greatest { self.now.slices ≤ 16 }
    {
        self.slices as usize
    }

    /// How many stamps a lease is extended by, 1 to 1,000.
    pub fn lease(&self) -> u64
        ensures value { result ≡ self.now.lease }
        ensures least { 1 ≤ self.now.lease }
        ensures greatest { self.now.lease ≤ 1000 }
    {
        self.lease
    }

    /// After how many of its operations a core increments its own stamp, 1 to 1,000,000.
    pub fn period(&self) -> u64
        ensures value { result ≡ self.now.period }
        ensures least { 1 ≤ self.now.period }
        ensures greatest { self.now.period ≤ 1000000 }
    {
        self.period
    }

    /// How many lines a private cache holds at most, 1 to 4,096.
    pub fn cache_lines(&self) -> usize
        ensures value { result ≡ self.now.cache_lines }
        ensures least { 1 ≤ self.now.cache_lines }
        ensures greatest { self.now.cache_lines ≤ 4096 }
    {
        self.cache_lines as usize
    }

    /// How many lines a slice holds at most, 1 to 65,536.
    pub fn slice_lines(&self) -> usize
        ensures value { result ≡ self.now.slice_lines }
        ensures least { 1 ≤ self.now.slice_lines }
        ensures greatest { self.now.slice_lines ≤ 65536 }
    {
        self.slice_lines as usize
    }

    /// How many recalls a core's inbox holds at most, 1 to 1,024.
    pub fn inbox(&self) -> usize
        ensures value { result ≡ self.now.inbox }
        ensures least { 1 ≤ self.now.inbox }
        ensures greatest { self.now.inbox ≤ 1024 }
    {
        self.inbox as usize
    }

    /// After how many turns without an operation a core gives up, 1 to 10,000,000.
    pub fn turns(&self) -> u64
        ensures value { result ≡ self.now.turns }
        ensures least { 1 ≤ self.now.turns }
        ensures greatest { self.now.turns ≤ 10000000 }
    {
        self.turns
    }

    /// The slice to which an address belongs, counted from 0.
    pub fn slice_of(&self, addr: Addr) -> usize
        ensures value { result ≡ addr % self.now.slices }
        ensures in_range { result < self.now.slices }
    {
        (addr.get() % self.slices) as usize
    }
}
