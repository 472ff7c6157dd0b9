// The machine runs until it has ended or waits for a byte.
ghost use Rattle.std.specs.Prelude.{◌≡◌, ◌*◌, ◌<◌, ◌≤◌, ◌-◌, ℕ, max, IfOk, OnOk, true, false};
ghost use Rattle.dfdl_bits.specs.Window.{end_of};
ghost use Rattle.dfdl_parse.specs.Machines.{HasEnded};
ghost use Rattle.dfdl_parse.specs.Opens.{NeedsFrom};
ghost use Rattle.dfdl_parse.specs.Registered.{IsRegistered};
ghost use Rattle.dfdl_parse.specs.Running.{Advanced, Reaches, Waited};
ghost use Rattle.dfdl_parse.specs.Shown.{HasSameLimits, state_of};

use crate::parser::Parser;
use dfdl_bits::{Steps, Window};
use dfdl_terms::Terms;
use std::alloc::AllocError;
use std::sync::ledger::Ledger;

/// Makes steps, and answers whether the machine waits for a byte, or has ended.
pub(crate) fn run<L: Ledger>(
    terms: &Terms,
    parser: &mut Parser,
    sight: &mut Window,
    steps: &mut Steps<L>,
) -> Result<bool, AllocError>
    requires base { NeedsFrom sight.old.base parser.old.focus parser.old.stack (state_of parser.old) }
    requires at { parser.old.at ≤ 8 * end_of sight.old }
    requires some { 0 < sight.old.size }
    requires seen { sight.old.ended ≡ false → parser.old.far ≤ end_of sight.old }
    requires registered { IsRegistered terms.now parser.old }
    ensures waits { IfOk result (λ waits. waits ≡ true
        → Waited terms.now parser.old parser.new sight.old sight.new (steps.new - steps.old)) }
    ensures ended { IfOk result (λ waits. waits ≡ false
        → Advanced terms.now parser.old parser.new sight.old sight.new (steps.new - steps.old)) }
    ensures over { IfOk result (λ waits. waits ≡ false → HasEnded parser.new.focus parser.new.stack) }
    ensures reaches { OnOk result ((last : ℕ) → Reaches last sight.old parser.old.focus (state_of parser.old)
        → Reaches (max last parser.new.far) sight.new parser.new.focus (state_of parser.new)) }
    ensures seen { OnOk result (sight.new.ended ≡ false → parser.new.far ≤ end_of sight.new) }
    ensures steps { steps.old ≤ steps.new }
    ensures most { OnOk result (HasSameLimits parser.old parser.new) }
    ensures low { OnOk result (NeedsFrom sight.new.base parser.new.focus parser.new.stack (state_of parser.new)) }
    ensures at { OnOk result (parser.new.at ≤ 8 * end_of sight.new) }
    ensures registered { OnOk result (IsRegistered terms.now parser.new) }
{
    let _rows = terms.rows();
    'steps: loop {
        if parser.has_ended() {
            return Ok(false);
        }
        let waits = parser.step(terms, sight, steps)?;
        if waits {
            return Ok(true);
        }
    }
}
