// Values of attributes.
#![tactic(auto, unfolding(dfdl_markup::specs::Machine::value_step))]

ghost use Rattle.std.specs.Prelude.{◌≡◌, ◌++◌, IfOk, OnOk, chars};
ghost use Rattle.dfdl_markup.specs.Values.{declares, letter_read};
ghost use Rattle.dfdl_markup.specs.Machine.{has_sure_clash, value_ended, value_goes_on, value_step, with_value};
ghost use Rattle.dfdl_markup.specs.Building.{Stays};
ghost use Rattle.dfdl_xml_names.specs.Shown.{name_of};
ghost use Rattle.dfdl_doc_tree.specs.ScannerShown.{Answers, state_seen, value_seen};

use super::{Scanner, broken};
use crate::effect::Effect;
use crate::letters::{begins_text, is_white};
use crate::mark::{Mark, Within};
use crate::rule::{Refusal, Rule};
use dfdl_xml_names::{Name, may_close};
use std::alloc::AllocError;
use std::mem;

impl Scanner {
    /// Takes the attribute's name, and leaves an empty one.
    fn take_attribute(&mut self) -> Name
        ensures name { result ≡ self.old.attribute }
        ensures same { self.new ≡ record self.old { attribute = self.new.attribute } }
    {
        let empty = Name::Plain(String::new(self.alloc));
        mem::replace(&mut self.attribute, empty)
    }

    /// Gives the tag the attribute, and answers whether that clashes with another.
    fn add_attribute(&mut self) -> Result<bool, AllocError>
        ensures tag { OnOk result (self.new.tag ≡ with_value (value_seen self.old)) }
        ensures clash { IfOk result (λ clash. clash ≡ has_sure_clash (declares (name_of self.old.attribute)) self.new.tag.attributes) }
        ensures same { self.new ≡ record self.old { tag = self.new.tag; attribute = self.new.attribute; value = self.new.value } }
    {
        let name = self.take_attribute();
        let value = self.value.take(self.alloc);
        self.tag.push(name, value)
    }

    /// Behind the value.
    fn end_value(&mut self) -> Result<Effect, Refusal>
        ensures { Answers (value_ended (state_seen self.old) (value_seen self.old)) Stays result (state_seen self.new) }
    {
        if !may_close(&self.attribute, self.value.as_str()) {
            return broken(Rule::Syntax);
        }
        if self.add_attribute()? {
            return broken(Rule::Attribute);
        }
        self.stand(Mark::Tag { spaced: false })
    }

    /// Goes on in a value that can be this text alone.
    fn step_fixed(&mut self, fixed: &'static str, c: char) -> Result<Effect, Refusal>
        ensures { Answers (value_goes_on (Some (chars fixed.now)) (state_seen self.old) (value_seen self.old) c) Stays result (state_seen self.new) }
    {
        self.value.push(c)?;
        self.behind_cr = false;
        if begins_text(self.value.as_str(), fixed) {
            self.stand(Mark::Value)
        } else {
            broken(Rule::Syntax)
        }
    }

    /// Reads a character of a value.
    fn read_letter(&mut self, c: char) -> Result<(), AllocError>
        ensures value { OnOk result (self.new.value ≡ self.old.value ++ letter_read self.old.behind_cr c) }
        ensures same { self.new ≡ record self.old { value = self.new.value } }
    {
        if self.behind_cr && c == '\n' {
            Ok(())
        } else if is_white(c) {
            self.value.push(' ')
        } else {
            self.value.push(c)
        }
    }

    /// Goes on in a value that can be any text.
    fn step_free(&mut self, c: char) -> Result<Effect, Refusal>
        ensures { Answers (value_goes_on None (state_seen self.old) (value_seen self.old) c) Stays result (state_seen self.new) }
    {
        if c == '<' {
            broken(Rule::Syntax)
        } else if c == '&' {
            self.stand(Mark::Reference {
                within: Within::Value,
            })
        } else {
            self.read_letter(c)?;
            self.behind_cr = c == '\r';
            self.stand(Mark::Value)
        }
    }

    pub(crate) fn step_value(&mut self, c: char) -> Result<Effect, Refusal>
        ensures { Answers (value_step (state_seen self.old) (value_seen self.old) c) Stays result (state_seen self.new) }
    {
        if c == self.quote {
            return self.end_value();
        }
        match self.attribute.fixed_value() {
            Some(fixed) => self.step_fixed(fixed, c),
            None => self.step_free(c),
        }
    }
}
