//! Which calls of an object in memory are to fail.

ghost use Rattle.std.specs.Prelude.{◌≡◌, ◌↔◌, IsTrue, Contains};
ghost use Rattle.io_edges.specs.Plans.{after_call};
ghost use Rattle.io_edges.specs.Causes.{one_more};

use std::marker::Model;

/// The numbers of the calls that are to fail, how many calls there were, and how many of them failed.
#[derive(Drop)]
pub struct FaultPlan {
    failing: Vec<u64>,
    calls: u64,
    faults: u64,
}

impl Model for FaultPlan {
    ghost use Rattle.io_edges.specs.Plans.{Plan};

    ghost Value = { Plan };

    ghost view = { λ p. record { failing = p.failing.items; calls = p.calls; faults = p.faults } };
}

impl FaultPlan {
    /// A plan before its first call. Calls are counted from 1.
    pub fn new(failing: Vec<u64>) -> FaultPlan
        ensures { result ≡ record { failing = failing.items; calls = 0; faults = 0 } }
    {
        FaultPlan {
            failing,
            calls: 0,
            faults: 0,
        }
    }

    /// Counts a call, and says whether it is to fail; then it counts the fault too.
    pub fn fails_now(&mut self) -> bool
        ensures fails { IsTrue result ↔ Contains self.old.failing (one_more self.old.calls) }
        ensures after { self.new ≡ after_call self.old result }
    {
        self.calls = self.calls.saturating_add(1);
        let fails = self.failing.contains(&self.calls);
        if fails {
            self.faults = self.faults.saturating_add(1);
        }
        fails
    }
}
