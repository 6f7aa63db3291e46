//! Calls of which some are to fail.
ghost use Rattle.std.specs.Prelude.{◌≡◌, ◌≤◌, IsTrue};
ghost use Rattle.npp_outside.specs.Causes.{Rose};
ghost use Rattle.npp_outside.specs.Failing.{next_fails, no_calls, after_call};

use std::marker::Model;

/// Counts calls, and those of them that fail. Both counts stop at `u64::MAX`.
#[derive(Drop)]
pub(crate) struct FailingCalls {
    failing: Vec<u64>,
    next: u64,
    faults: u64,
}

impl Model for FailingCalls {
    ghost use Rattle.npp_outside.specs.Failing.{Calls};

    ghost Value = { Calls };

    ghost view = { λ c. record {
      failing = c.failing.items;
      next = c.next;
      faults = c.faults;
    } };
}

impl FailingCalls {
    /// Calls of which those with these numbers are to fail. The first call is 1.
    pub(crate) fn new(failing: Vec<u64>) -> Self
        ensures { result ≡ no_calls failing.items }
    {
        FailingCalls {
            failing,
            next: 1,
            faults: 0,
        }
    }

    /// Counts the next call, and says whether it fails.
    pub(crate) fn next_fails(&mut self) -> bool
        ensures fails { result ≡ next_fails self.old }
        ensures counted { self.new ≡ after_call self.old }
        ensures stay { self.old.faults ≤ self.new.faults }
        ensures rose { IsTrue result → Rose self.old.faults self.new.faults }
    {
        let fails = self.failing.contains(&self.next);
        self.next = self.next.saturating_add(1);
        if fails {
            self.faults = self.faults.saturating_add(1);
        }
        fails
    }
}
