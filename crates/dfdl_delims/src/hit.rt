// The longest text so far.
#![tactic(auto)]

ghost use Rattle.std.specs.Prelude.{◌≡◌, ℕ, ◌*◌};
ghost use Rattle.dfdl_looks.specs.Asks.{Told};
ghost use Rattle.dfdl_delims.specs.Longest.{NoText, better, found_shown};
ghost use Rattle.dfdl_delims.specs.Hits.{counted, hit_shown};

use crate::found::Found;

/// A text of a list.
#[derive(Debug, Clone, Copy, Drop)]
pub(crate) struct Hit {
    pub which: usize,
    pub bits: u64,
}

/// The greater of two places, where the second counts.
pub(crate) fn counted(best: Option<usize>, place: usize, counts: bool) -> Option<usize>
    ensures { result ≡ counted best place counts }
{
    if !counts {
        return best;
    }
    match best {
        None => Some(place),
        Some(other) => Some(other.max(place)),
    }
}

/// A text of so many bits, if there is one, and else the one before.
pub(crate) fn better(which: Option<usize>, bits: u64, hit: Option<Hit>) -> Option<Hit>
    ensures { (count : ℕ) → bits ≡ 8 * count → hit_shown result ≡ better which count (hit_shown hit) }
{
    match which {
        None => hit,
        Some(which) => Some(Hit { which, bits }),
    }
}

/// What is found at last.
pub(crate) fn found_of(hit: Option<Hit>) -> Found
    ensures { found_shown result ≡ Told (hit_shown hit) }
{
    match hit {
        None => Found::None,
        Some(hit) => Found::Match {
            which: hit.which,
            bits: hit.bits,
        },
    }
}

/// What is found where one byte alone tells it.
pub(crate) fn alone(which: Option<usize>) -> Found
    ensures { found_shown result ≡ Told (better which 1 NoText) }
{
    match which {
        None => Found::None,
        Some(which) => Found::Match { which, bits: 8 },
    }
}
