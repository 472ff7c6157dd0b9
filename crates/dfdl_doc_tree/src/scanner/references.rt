// References.
#![tactic(auto, unfolding(dfdl_markup::specs::Machine::reference_step, dfdl_markup::specs::Machine::entity_step, dfdl_markup::specs::Machine::hash_step, dfdl_markup::specs::Machine::hexadecimal_step, dfdl_markup::specs::Machine::number_step))]

ghost use Rattle.std.specs.Prelude.{◌≡◌, ◌+◌, ◌*◌};
ghost use Rattle.dfdl_markup.specs.Values.{base_of, entity as entity_named};
ghost use Rattle.dfdl_markup.specs.Machine.{entity_ended, entity_next, entity_step, hash_step, hexadecimal_step, number_next};
ghost use Rattle.dfdl_markup.specs.Machine.{number_step, reference_step, referred_to};
ghost use Rattle.dfdl_markup.specs.Building.{Stays, refers_within};
ghost use Rattle.dfdl_doc_tree.specs.ScannerShown.{Answers, entity_effect, number_effect, number_ended, state_seen, within_seen};

use super::{Scanner, broken};
use crate::effect::Effect;
use crate::letters::{allowed, begins_entity, digit_value, entity, is_digit};
use crate::mark::{Ahead, Mark, Run, Within};
use crate::rule::{Refusal, Rule};
use dfdl_xml_chars::{is_name_char, is_name_start};

/// The greatest code point.
const GREATEST: u64 = 0x10_FFFF;

impl Scanner {
    /// Behind a reference to this character.
    fn refer(&mut self, within: Within, d: char) -> Result<Effect, Refusal>
        ensures { Answers (Ok (referred_to (state_seen self.old) (within_seen within self.old) d)) (refers_within (within_seen within self.old) d) result (state_seen self.new) }
    {
        self.ahead = Ahead::Nothing;
        match within {
            Within::Content => {
                self.mark = Mark::Content { before: Run::None };
                Ok(Effect::Refers(d))
            }
            Within::Value => {
                self.value.push(d)?;
                self.behind_cr = false;
                self.mark = Mark::Value;
                Ok(Effect::Stays)
            }
        }
    }

    /// Behind a character of an entity's name.
    fn next_entity(&mut self, within: Within) -> Result<Effect, Refusal>
        ensures { Answers (entity_next (state_seen self.old) (within_seen within self.old) self.old.word.items) Stays result (state_seen self.new) }
    {
        if begins_entity(self.word.as_slice()) {
            self.stand(Mark::Entity { within })
        } else {
            broken(Rule::Entity)
        }
    }

    pub(crate) fn step_reference(&mut self, within: Within, c: char) -> Result<Effect, Refusal>
        ensures { Answers (reference_step (state_seen self.old) (within_seen within self.old) c) Stays result (state_seen self.new) }
    {
        if is_name_start(c) {
            self.begin_word(c)?;
            self.next_entity(within)
        } else if c == '#' {
            self.stand(Mark::Hash { within })
        } else {
            broken(Rule::Syntax)
        }
    }

    /// Behind the `;` of an entity.
    fn end_entity(&mut self, within: Within) -> Result<Effect, Refusal>
        ensures { Answers (entity_ended (state_seen self.old) (within_seen within self.old) (entity_named self.old.word.items)) (entity_effect (within_seen within self.old) self.old.word.items 59) result (state_seen self.new) }
    {
        match entity(self.word.as_slice()) {
            Some(d) => self.refer(within, d),
            None => broken(Rule::Entity),
        }
    }

    #[tactic(auto, unfolding(dfdl_markup::specs::Machine::entity_step), using(crate::proofs::NameLetters::no_semicolon))]
    pub(crate) fn step_entity(&mut self, within: Within, c: char) -> Result<Effect, Refusal>
        ensures { Answers (entity_step (state_seen self.old) (within_seen within self.old) self.old.word.items c) (entity_effect (within_seen within self.old) self.old.word.items c) result (state_seen self.new) }
    {
        if is_name_char(c) {
            self.word.push(c)?;
            self.next_entity(within)
        } else if c == ';' {
            self.end_entity(within)
        } else {
            broken(Rule::Syntax)
        }
    }

    /// Behind a digit of a number.
    fn next_number(
        &mut self,
        within: Within,
        hexadecimal: bool,
        value: u64,
    ) -> Result<Effect, Refusal>
        ensures { Answers (number_next (state_seen self.old) (within_seen within self.old) hexadecimal value) Stays result (state_seen self.new) }
    {
        if value <= GREATEST {
            self.stand(Mark::Number {
                within,
                hexadecimal,
                value: value as u32,
            })
        } else {
            broken(Rule::Referred)
        }
    }

    pub(crate) fn step_hash(&mut self, within: Within, c: char) -> Result<Effect, Refusal>
        ensures { Answers (hash_step (state_seen self.old) (within_seen within self.old) c) Stays result (state_seen self.new) }
    {
        if is_digit(false, c) {
            self.next_number(within, false, u64::from(digit_value(false, c)))
        } else if c == 'x' {
            self.stand(Mark::Hexadecimal { within })
        } else {
            broken(Rule::Syntax)
        }
    }

    pub(crate) fn step_hexadecimal(&mut self, within: Within, c: char) -> Result<Effect, Refusal>
        ensures { Answers (hexadecimal_step (state_seen self.old) (within_seen within self.old) c) Stays result (state_seen self.new) }
    {
        if is_digit(true, c) {
            self.next_number(within, true, u64::from(digit_value(true, c)))
        } else {
            broken(Rule::Syntax)
        }
    }

    /// Behind the `;` of a number.
    fn end_number(&mut self, within: Within, value: u32) -> Result<Effect, Refusal>
        ensures { Answers (number_ended (state_seen self.old) (within_seen within self.old) value) (refers_within (within_seen within self.old) value) result (state_seen self.new) }
    {
        match allowed(value) {
            Some(d) => self.refer(within, d),
            None => broken(Rule::Referred),
        }
    }

    #[tactic(auto, unfolding(dfdl_markup::specs::Machine::number_step, dfdl_markup::specs::Values::is_digit))]
    pub(crate) fn step_number(
        &mut self,
        within: Within,
        hexadecimal: bool,
        value: u32,
        c: char,
    ) -> Result<Effect, Refusal>
        ensures { Answers (number_step (state_seen self.old) (within_seen within self.old) hexadecimal value c) (number_effect (within_seen within self.old) value c) result (state_seen self.new) }
    {
        if c == ';' {
            self.end_number(within, value)
        } else if is_digit(hexadecimal, c) {
            let next = next_value(hexadecimal, value, digit_value(hexadecimal, c));
            self.next_number(within, hexadecimal, next)
        } else {
            broken(Rule::Syntax)
        }
    }
}

/// The number that a number becomes by a digit of this worth.
fn next_value(hexadecimal: bool, value: u32, digit: u32) -> u64
    ensures { result ≡ value * base_of hexadecimal + digit }
{
    let base = if hexadecimal { 16 } else { 10 };
    u64::from(value) * base + u64::from(digit)
}
