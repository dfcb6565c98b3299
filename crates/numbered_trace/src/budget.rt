//! How many steps a search may make.

ghost use Rattle.std.specs.Prelude.{◌≡◌, ◌+◌, ◌-◌, ◌≤◌, ◌<◌, OnErr, OnOk};
ghost use Rattle.numbered_trace.specs.Steps.{Steps};

use super::stop::{Stop, Tried};
use std::marker::Model;

/// How many steps, at least, a search makes between two calls of a watch.
const STEPS: u64 = 4096;

/// What watches a search while it lasts. It may stop the search, and changes nothing else about it.
pub trait SearchWatch {
    /// Called every few thousand steps: the search has made `made` of its `budget` steps. It gives up if the answer is false.
    fn steps(&self, made: u64, budget: u64) -> bool
        requires { made ≤ budget };

    /// Called when the search is over, before anyone hears what it found.
    fn found(&self);
}

/// What watches no search.
#[derive(Clone, Copy, Debug, PartialEq, Eq)]
pub struct Unwatched;

impl SearchWatch for Unwatched {
    fn steps(&self, _made: u64, _budget: u64) -> bool {
        true
    }

    fn found(&self) {}
}

/// The steps that a search may make.
#[derive(Clone, Copy)]
pub struct Budget {
    all: u64,
    left: u64,
    /// How many must be left for what comes later.
    kept: u64,
    /// How many steps the search had made when the watch was last told.
    told: u64,
}

impl Model for Budget {
    ghost use Rattle.std.specs.Prelude.{◌≤◌};
    ghost use Rattle.numbered_trace.specs.Steps.{Steps};

    ghost Value = { Steps };

    ghost view = { λ b. record { all = b.all; left = b.left; kept = b.kept; told = b.told } };

    ghost invariant = { λ b. b.left ≤ b.all };

    ghost inverse = { λ s. record { all = s.all; left = s.left; kept = s.kept; told = s.told } };
}

impl Budget {
    /// A budget of this many steps.
    pub fn new(steps: u64) -> Budget
        ensures { result ≡ record { all = steps; left = steps; kept = 0; told = 0 } }
    {
        Budget {
            all: steps,
            left: steps,
            kept: 0,
            told: 0,
        }
    }

    /// How many steps may still be made.
    pub fn left(&self) -> u64
        ensures { result ≡ self.now.left - self.now.kept }
    {
        self.left.saturating_sub(self.kept)
    }

    /// Allows this many of the steps that are left, and keeps the others for what comes later.
    pub fn allow(&mut self, steps: u64)
        ensures { self.new ≡ record self.old { kept = self.old.left - steps } }
    {
        self.kept = self.left.saturating_sub(steps);
    }

    /// Makes these steps. The search gives up if it may not make as many.
    pub fn spend(&mut self, steps: u64) -> Tried<()>
        ensures made { OnOk result (self.new ≡ record self.old { left = self.old.left - steps }) }
        ensures within { OnOk result (steps ≤ self.old.left - self.old.kept) }
        ensures kept { OnErr result (self.new ≡ self.old) }
        ensures beyond { OnErr result (self.old.left - self.old.kept < steps) }
    {
        if self.left() < steps {
            return Err(Stop::GivenUp);
        }
        self.left = self.left.saturating_sub(steps);
        Ok(())
    }

    /// Makes these steps, or as many of them as may be made.
    pub fn use_up(&mut self, steps: u64)
        ensures few { self.old.left - self.new.left ≤ steps }
        ensures within { self.old.left - self.new.left ≤ self.old.left - self.old.kept }
        ensures rest { self.new ≡ record self.old { left = self.new.left } }
    {
        self.left = self.left.saturating_sub(steps.min(self.left()));
    }

    /// Tells a watch how many steps were made, if these are a few thousand more than it was last told. The search gives up if the watch asks for it.
    pub fn tell<W: SearchWatch>(&mut self, watch: &W) -> Tried<()>
        ensures { self.new ≡ record self.old { told = self.new.told } }
    {
        let made = self.all.saturating_sub(self.left);
        if made.saturating_sub(self.told) >= STEPS {
            self.told = made;
            if !watch.steps(made, self.all) {
                return Err(Stop::GivenUp);
            }
        }
        Ok(())
    }
}
