// Tests of patterns: asserts, and discriminators, which resolve the innermost point.
ghost use Rattle.std.specs.Prelude.{◌≡◌, ℕ, ◌-◌, ◌*◌, ◌/◌, ◌^◌, ◌≤◌, [], IfOk, OnOk};
ghost use Rattle.dfdl_bits.specs.Window.{Held, end_of, from_byte, seen_at};
ghost use Rattle.dfdl_texts.specs.Readings.{found_shown};
ghost use Rattle.dfdl_texts.specs.Texts.{Text};
ghost use Rattle.dfdl_looks.specs.Asks.{Reading, ask};
ghost use Rattle.dfdl_looks.specs.Tallies.{Tally, nothing};
ghost use Rattle.dfdl_grammar.specs.Framing.{aligned};
ghost use Rattle.dfdl_grammar.specs.Leaves.{text_sought};
ghost use Rattle.dfdl_grammar.specs.States.{anchor};
ghost use Rattle.dfdl_grammar.specs.Tests.{false_test, matches, tested};
ghost use Rattle.dfdl_parse.specs.Opens.{IsHeld};
ghost use Rattle.dfdl_parse.specs.Searches.{at_outcome};
ghost use Rattle.dfdl_parse.specs.Steps.{IsFree, Moved};
ghost use Rattle.dfdl_parse.specs.Shown.{Becomes, HasSameLimits, limits_of, state_of};
ghost use Rattle.dfdl_parse.specs.Testing.{Tells, read_test, test_move, verdict_in, verdict_shown};

use crate::frame::Focus;
use crate::parser::Parser;
use dfdl_bits::{Steps, Window};
use dfdl_grammar::End;
use dfdl_leaves::{Scratch, put_text, read_sought};
use dfdl_report::{LimitCause, ParseCause};
use dfdl_terms::{PatternForm, PatternTest};
use dfdl_texts::Found;
use std::alloc::AllocError;
use std::sync::ledger::Ledger;

/// What the text of a test tells.
#[derive(Debug, Clone, Copy, PartialEq, Eq)]
pub(crate) enum Verdict {
    /// The pattern matches in it, or doesn't.
    Holds(bool),
    /// A byte of it is too far from the first that is still needed.
    Past,
    /// A byte of it hasn't come.
    NotYet,
}

/// What the text of a test tells, and the greatest byte that was seen or missed, plus one.
#[derive(Debug, Clone, Copy, PartialEq, Eq)]
pub(crate) struct Told {
    pub(crate) verdict: Verdict,
    pub(crate) far: u64,
}

impl Parser {
    // The text of a test is read, and what it tells is taken.
    pub(crate) fn read_test<L: Ledger>(
        &mut self,
        test: &PatternTest,
        number: u32,
        sight: &mut Window,
        steps: &mut Steps<L>,
    ) -> Result<bool, AllocError>
        requires base { IsHeld sight.old.base self.old.at (state_of self.old) }
        requires at { self.old.at ≤ 8 * end_of sight.old }
        ensures moved { IfOk result (λ waits. (cost : Tally) → IsFree cost → Moved
            (read_test cost (limits_of self.old sight.old) self.old.focus sight.old number test.now self.old.stack (state_of self.old))
            waits self.old.far self.new sight.new (steps.new - steps.old)) }
        ensures steps { steps.old ≤ steps.new }
        ensures most { OnOk result (HasSameLimits self.old self.new) }
        ensures at { OnOk result (self.new.at ≤ 8 * end_of sight.new) }
    {
        let _end = sight.end();
        let told = self.glance_at_test(&test.form, sight, steps)?;
        Ok(self.take_verdict(test, number, told, sight.size() as u64))
    }

    // The bytes before a test are given up, and its text is read. What it tells isn't taken.
    #[tactic(auto, using(crate::proofs::Windows::end_from))]
    fn glance_at_test<L: Ledger>(
        &mut self,
        form: &PatternForm,
        sight: &mut Window,
        steps: &mut Steps<L>,
    ) -> Result<Told, AllocError>
        requires base { IsHeld sight.old.base self.old.at (state_of self.old) }
        requires at { self.old.at ≤ 8 * end_of sight.old }
        ensures tells { IfOk result (λ told. Tells form.now (ask (seen_at sight.new) (text_sought form.now (aligned 8 self.old.at) self.old.stop) nothing)
            told (steps.new - steps.old)) }
        ensures held { sight.new ≡ from_byte sight.old (anchor (state_of self.old)) }
        ensures end { end_of sight.new ≡ end_of sight.old }
        ensures steps { steps.old ≤ steps.new }
        ensures same { self.new ≡ record self.old { scratch = self.new.scratch } }
    {
        let _end = sight.end();
        sight.drop_before(self.anchor_at(self.at));
        let told = read_told(form, self.at, self.stop, sight, &mut self.scratch, steps)?;
        Ok(told)
    }

    // What the text of a test of this number tells is taken.
    fn take_verdict(&mut self, test: &PatternTest, number: u32, told: Told, window: u64) -> bool
        ensures moved { (sight : Held) (looks : ℕ) (reading : Reading Text) (cost : Tally)
            → Tells test.now.form reading told looks → sight.size ≡ window → IsFree cost
            → Moved (test_move cost (limits_of self.old sight) self.old.focus test.now number sight reading self.old.stack (state_of self.old))
            result self.old.far self.new sight looks }
        ensures most { HasSameLimits self.old self.new }
        ensures at { self.new.at ≡ self.old.at }
    {
        match told.verdict {
            Verdict::NotYet => return true,
            Verdict::Holds(holds) => self.end_test(test.discriminates, number, holds),
            Verdict::Past => self.stop_at(LimitCause::Window, window),
        }
        self.far = self.far.max(told.far);
        false
    }

    // A test of this number holds, or doesn't: where it does, a discriminator resolves the innermost point.
    pub(crate) fn end_test(&mut self, discriminates: bool, number: u32, holds: bool)
        ensures { Becomes self.old (at_outcome (tested discriminates number holds (state_of self.old)) self.old.stack) self.new }
    {
        if !holds {
            self.fail(false_test(discriminates, number));
            return;
        }
        if discriminates {
            self.marks.resolve();
        }
        self.focus = Focus::Leave(End::Done);
    }
}

// Why a test of this number fails.
fn false_test(discriminates: bool, number: u32) -> ParseCause
    ensures { result ≡ false_test discriminates number }
{
    if discriminates {
        ParseCause::DiscriminatorFalse { test: number }
    } else {
        ParseCause::AssertionFalse { test: number }
    }
}

// Reads the text in which a pattern is sought from a bit on, in a box that ends at bit `stop`, and answers whether it matches there.
fn read_told<L: Ledger>(
    form: &PatternForm,
    bit: u64,
    stop: u64,
    sight: &Window,
    scratch: &mut Scratch,
    steps: &mut Steps<L>,
) -> Result<Told, AllocError>
    requires base { sight.now.base ≤ bit / 8 }
    requires at { bit ≤ 8 * end_of sight.now }
    requires bound { end_of sight.now ≤ 2 ^ 60 }
    ensures tells { IfOk result (λ told. Tells form.now (ask (seen_at sight.now) (text_sought form.now (aligned 8 bit) stop) nothing)
        told (steps.new - steps.old)) }
    ensures steps { steps.old ≤ steps.new }
{
    let text = read_sought(form, bit, stop, sight, scratch, steps)?;
    let verdict = verdict_of(form, text.found, scratch)?;
    Ok(Told {
        verdict,
        far: text.far,
    })
}

// What a pattern's text tells, of which the scratch has the characters.
fn verdict_of(form: &PatternForm, text: Found, scratch: &mut Scratch) -> Result<Verdict, AllocError>
    ensures { IfOk result (λ verdict. verdict_in form.now (found_shown scratch.old.characters.items text) ≡ verdict_shown verdict) }
{
    match text {
        Found::Reads { .. } => Ok(Verdict::Holds(matches(form, scratch)?)),
        Found::HasBad => Ok(Verdict::Holds(matches_nothing(form, scratch)?)),
        Found::IsCut => Ok(Verdict::Holds(matches_nothing(form, scratch)?)),
        Found::IsBoxed => Ok(Verdict::Holds(matches_nothing(form, scratch)?)),
        Found::TooFar => Ok(Verdict::Past),
        Found::NotYet => Ok(Verdict::NotYet),
    }
}

// Whether a pattern matches in no characters.
fn matches_nothing(form: &PatternForm, scratch: &mut Scratch) -> Result<bool, AllocError>
    ensures { IfOk result (λ holds. holds ≡ matches form.now []) }
{
    scratch.characters.clear();
    matches(form, scratch)
}

// Whether a pattern matches in the characters that the scratch has.
fn matches(form: &PatternForm, scratch: &mut Scratch) -> Result<bool, AllocError>
    ensures { IfOk result (λ holds. holds ≡ matches form.now scratch.old.characters.items) }
{
    put_text(scratch.characters.as_slice(), &mut scratch.text)?;
    let found = form.pattern.find(scratch.alloc, scratch.text.as_str())?;
    Ok(found.is_some())
}
