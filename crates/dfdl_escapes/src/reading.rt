// The content of delimited text, read step by step.
ghost use Rattle.std.specs.Prelude.{◌≡◌, ℕ, suc, ◌-◌, ◌^◌, ◌≤◌, Bool, List, IfOk, max};
ghost use Rattle.dfdl_bits.specs.Window.{end_of, seen_at};
ghost use Rattle.dfdl_looks.specs.Asks.{ask};
ghost use Rattle.dfdl_looks.specs.Tallies.{nothing};
ghost use Rattle.dfdl_delims.specs.Lists.{Decides, Opened};
ghost use Rattle.dfdl_delims.specs.Opening.{Opens};
ghost use Rattle.dfdl_escapes.specs.declared.character.Character.{Character as AnyCharacter};
ghost use Rattle.dfdl_escapes.specs.declared.form.Stand.{Stand as AnyStand};
ghost use Rattle.dfdl_escapes.specs.Contents.{ArePassed, rest_of};
ghost use Rattle.dfdl_escapes.specs.Reads.{IsRead, TurnsTo, left_of};

use crate::character::Character;
use crate::ending::{Ending, Passed, Read, by_scanned};
use crate::run::pass_run;
use crate::scan::Scan;
use dfdl_bits::{Steps, Window};
use dfdl_delims::{Candidates, OpenLists, first_bytes};
use std::alloc::AllocError;
use std::sync::ledger::Ledger;

/// What one step makes of a reading: it goes on, with how far was seen, or ends.
#[derive(Debug, Clone, Copy)]
pub(crate) enum Progress {
    Goes(u64),
    Halts(Read),
}

// Takes one step, where so far was seen.
fn take_step<L: Ledger>(
    scan: &mut Scan,
    lists: OpenLists<'_>,
    window: &Window,
    candidates: &mut Candidates,
    steps: &mut Steps<L>,
    into: &mut Vec<Character>,
    far: u64,
) -> Result<Progress, AllocError>
    requires base { window.now.base ≤ scan.old.at.byte }
    requires byte { scan.old.at.byte ≤ 2 ^ 60 }
    requires bound { end_of window.now ≤ 2 ^ 60 }
    ensures turns { IfOk result (λ turn. (opened : List Opened) (test : List ℕ → Bool) (more : ℕ) → Opens lists.entry opened → Decides opened test
        → TurnsTo (seen_at window.now) test opened scan.old.form (left_of (seen_at window.now) test opened scan.old.form (suc more) into.old.items scan.old.at steps.old far)
        more into.new.items scan.new.at steps.new turn) }
    ensures passed { IfOk result (λ turn. (opened : List Opened) (test : List ℕ → Bool) (begin : AnyStand) (before : List AnyCharacter) → Opens lists.entry opened
        → Decides opened test → ArePassed (seen_at window.now) test opened scan.old.form begin before scan.old.at into.old.items
        → ArePassed (seen_at window.now) test opened scan.old.form begin before scan.new.at into.new.items) }
    ensures behind { IfOk result (λ turn. scan.old.at.byte ≤ scan.new.at.byte) }
    ensures come { IfOk result (λ turn. scan.new.at.byte ≤ max scan.old.at.byte (end_of window.now)) }
    ensures form { scan.new.form ≡ scan.old.form }
    ensures steps { steps.old ≤ steps.new }
{
    let glance = scan.step(lists, window, candidates, steps)?;
    let far = far.max(glance.far);
    match by_scanned(glance.scanned) {
        Passed::Gives(character) => {
            into.push(character)?;
            Ok(Progress::Goes(far))
        }
        Passed::Mark => Ok(Progress::Goes(far)),
        Passed::Stops(ending) => Ok(Progress::Halts(Read { ending, far })),
    }
}

/// Reads the content from where a scan stands, and puts its characters behind others. The scan stands then where the reading ended;
/// where a byte hasn't come it goes on from there later.
pub fn read_content<L: Ledger>(
    scan: &mut Scan,
    lists: OpenLists<'_>,
    window: &Window,
    candidates: &mut Candidates,
    steps: &mut Steps<L>,
    into: &mut Vec<Character>,
) -> Result<Read, AllocError>
    requires base { window.now.base ≤ scan.old.at.byte }
    requires byte { scan.old.at.byte ≤ 2 ^ 60 }
    requires bound { end_of window.now ≤ 2 ^ 60 }
    ensures answers { IfOk result (λ answer. (opened : List Opened) (test : List ℕ → Bool) → Opens lists.entry opened → Decides opened test
        → IsRead (ask (seen_at window.now) (rest_of test opened scan.old.form into.old.items scan.old.at) nothing) into.new.items scan.new.at answer (steps.new - steps.old)) }
    ensures passed { IfOk result (λ answer. (opened : List Opened) (test : List ℕ → Bool) → Opens lists.entry opened → Decides opened test
        → ArePassed (seen_at window.now) test opened scan.old.form scan.old.at into.old.items scan.new.at into.new.items) }
    ensures behind { IfOk result (λ answer. scan.old.at.byte ≤ scan.new.at.byte) }
    ensures come { IfOk result (λ answer. scan.new.at.byte ≤ max scan.old.at.byte (end_of window.now)) }
    ensures form { scan.new.form ≡ scan.old.form }
    ensures steps { steps.old ≤ steps.new }
{
    let first = first_bytes(lists);
    let mut left = (scan.form.stop / 8).saturating_sub(scan.at.byte) + 1;
    let mut far = 0;
    'steps: loop {
        if left == 0 {
            return Ok(Read {
                ending: Ending::EndOfBox,
                far,
            });
        }
        let run = pass_run(scan, &first, lists, window, left - 1, steps, into, far)?;
        match take_step(scan, lists, window, candidates, steps, into, run.far)? {
            Progress::Goes(seen) => {
                far = seen;
                left -= run.count + 1;
            }
            Progress::Halts(read) => return Ok(read),
        }
    }
}
