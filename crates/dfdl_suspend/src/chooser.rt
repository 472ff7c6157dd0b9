ghost use Rattle.std.specs.Prelude.{ℕ, ◌<◌};
ghost use Rattle.dfdl_suspend.specs.Rises.{RoseBy};

/// Which of the values that are ready is computed next while unparsing.
pub trait Chooser {
    // how many picks were made; at the last value of a u64 it stands still
    ghost picks: { Self → ℕ };

    /// One of `ready` values, counted from 0.
    fn pick(&mut self, ready: usize) -> usize
        requires { 0 < ready }
        ensures within { result < ready }
        ensures counted { RoseBy 1 (picks self.old) (picks self.new) };
}

/// Picks the first of the values that are ready, and counts its picks.
#[derive(Drop)]
pub struct FirstReady {
    pub picks: u64,
}

impl Chooser for FirstReady {
    ghost picks = { λ c. c.picks };

    fn pick(&mut self, _ready: usize) -> usize {
        self.picks = self.picks.saturating_add(1);
        0
    }
}
