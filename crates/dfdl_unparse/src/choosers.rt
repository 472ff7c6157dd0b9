// Choosers for tests.
use dfdl_suspend::Chooser;

// Picks the last of those that are ready, and keeps the numbers that it is asked with.
#[derive(Drop)]
pub(crate) struct Last {
    pub(crate) picks: u64,
    pub(crate) asked: [usize; 16],
}

impl Chooser for Last {
    ghost picks = { λ c. c.picks };

    fn pick(&mut self, ready: usize) -> usize {
        if self.picks < 16 {
            self.asked[self.picks as usize] = ready;
        }
        self.picks = self.picks.saturating_add(1);
        ready - 1
    }
}

// Picks by a fixed row of pseudo-random numbers.
#[derive(Drop)]
pub(crate) struct Scattered {
    pub(crate) picks: u64,
    pub(crate) state: u64,
}

impl Chooser for Scattered {
    ghost picks = { λ c. c.picks };

    fn pick(&mut self, ready: usize) -> usize {
        self.picks = self.picks.saturating_add(1);
        self.state = self
            .state
            .wrapping_mul(6364136223846793005)
            .wrapping_add(1442695040888963407);
        ((self.state >> 33) % ready as u64) as usize
    }
}
