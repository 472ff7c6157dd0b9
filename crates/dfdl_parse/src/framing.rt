// Fill that is passed over.
ghost use Rattle.std.specs.Prelude.{◌≡◌, ◌+◌, ◌-◌, ◌/◌, ◌^◌, ◌≤◌, min};
ghost use Rattle.dfdl_bits.specs.Window.{end_of, from_byte};
ghost use Rattle.dfdl_parse.specs.Machines.{seen_beyond};

use dfdl_bits::{Seen, Steps, Window};
use std::sync::ledger::Ledger;

/// Gives up the bytes before an anchor, and looks at a byte that is none before it. Where the anchor hasn't come, all bytes are
/// given up, and this is a look as far behind the first that hasn't come.
pub(crate) fn look_beyond<L: Ledger>(
    anchor: u64,
    k: u64,
    sight: &mut Window,
    steps: &mut Steps<L>,
) -> Seen
    requires base { sight.old.base ≤ anchor }
    requires low { anchor ≤ k }
    ensures seen { result ≡ seen_beyond sight.old anchor k }
    ensures held { sight.new ≡ from_byte sight.old (min anchor (end_of sight.old)) }
    ensures cost { steps.new ≡ steps.old + 1 }
{
    let near = anchor.min(sight.end());
    sight.drop_before(near);
    sight.look(near + (k - anchor), steps)
}

/// The last bit before a bit.
pub(crate) fn last_bit(to: u64) -> u64
    ensures { result ≡ to - 1 }
{
    to.saturating_sub(1)
}

/// The byte of the last bit before a bit.
pub(crate) fn last_byte(to: u64) -> u64
    ensures last { result ≡ (to - 1) / 8 }
    ensures few { result ≤ 2 ^ 61 }
{
    last_bit(to) / 8
}
