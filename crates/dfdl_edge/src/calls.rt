// The calls of an implementation in memory, with the list of those that are to fail.
ghost use Rattle.std.specs.Prelude.{◌≡◌, ◌↔◌, ◌≤◌, IsTrue};
ghost use Rattle.dfdl_edge.specs.Faults.{one_more};
ghost use Rattle.dfdl_edge.specs.Memory.{CallCount, IsToFail, next_call};

use std::marker::Model;

#[derive(Drop)]
pub struct Calls {
    failing: Vec<u64>,
    made: u64,
    failed: u64,
}

impl Model for Calls {
    ghost Value = { CallCount };

    ghost view = { λ c. record { failing = c.failing.items; made = c.made; failed = c.failed } };
}

impl Calls {
    pub fn new(failing: Vec<u64>) -> Self
        ensures { result ≡ record { failing = failing.items; made = 0; failed = 0 } }
    {
        Calls {
            failing,
            made: 0,
            failed: 0,
        }
    }

    pub fn failed(&self) -> u64
        ensures { result ≡ self.now.failed }
    {
        self.failed
    }

    /// How many calls were made.
    pub fn made(&self) -> u64
        ensures { result ≡ self.now.made }
    {
        self.made
    }

    /// Counts one more call, and answers whether it is to fail.
    pub fn begin(&mut self) -> bool
        ensures listed { IsTrue result ↔ IsToFail self.old }
        ensures counted { self.new ≡ record self.old { made = next_call self.old } }
    {
        self.made = self.made.saturating_add(1);
        self.failing.contains(&self.made)
    }

    /// Counts one more fault.
    pub fn fail(&mut self)
        ensures counted { self.new ≡ record self.old { failed = one_more self.old.failed } }
        ensures later { self.old.failed ≤ self.new.failed }
    {
        self.failed = self.failed.saturating_add(1);
    }
}
