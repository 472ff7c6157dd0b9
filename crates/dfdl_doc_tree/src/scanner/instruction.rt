// Processing instructions.
#![tactic(auto, unfolding(dfdl_markup::specs::Machine::question_step, dfdl_markup::specs::Machine::target_step, dfdl_markup::specs::Machine::target_end_step, dfdl_markup::specs::Machine::instruction_step))]

ghost use Rattle.std.specs.Prelude.{◌≡◌, ◌∷◌, [], OnOk};
ghost use Rattle.dfdl_markup.specs.Grammar.{xml_word};
ghost use Rattle.dfdl_markup.specs.Machine.{instruction_step, may_declare, question_step, target_end_step, target_ended, target_step};
ghost use Rattle.dfdl_markup.specs.Building.{Stays};
ghost use Rattle.dfdl_doc_tree.specs.ScannerShown.{Answers, state_seen};
ghost use Rattle.dfdl_doc_tree.specs.Shown.{ahead_seen};
ghost use Rattle.std.specs.Str.{bytes_eq};

use super::{Scanner, broken};
use crate::effect::Effect;
use crate::letters::{is_white, is_xml};
use crate::mark::{Ahead, Mark, Run};
use crate::rule::{Refusal, Rule};
use dfdl_xml_chars::{is_name_char, is_name_start};
use std::alloc::AllocFailed;

/// The word is that of an XML declaration.
#[tactic(auto, unfolding(dfdl_markup::specs::Grammar::xml_word))]
fn is_xml_word(word: &[char]) -> bool
    ensures { result ≡ bytes_eq word.now xml_word }
{
    word == ['x', 'm', 'l'].as_slice()
}

impl Scanner {
    /// Begins the word with a character.
    pub(crate) fn begin_word(&mut self, c: char) -> Result<(), AllocFailed<char>>
        ensures word { OnOk result (self.new.word.items ≡ c ∷ []) }
        ensures same { self.new ≡ record self.old { word = self.new.word } }
    {
        self.word.clear();
        self.word.push(c)
    }

    pub(crate) fn step_question(&mut self, c: char) -> Result<Effect, Refusal>
        ensures { Answers (question_step (state_seen self.old) c) Stays result (state_seen self.new) }
    {
        if is_name_start(c) {
            self.begin_word(c)?;
            self.go(Mark::Target)
        } else {
            broken(Rule::Syntax)
        }
    }

    /// The document may still be declared.
    fn may_declare(&self) -> bool
        ensures { result ≡ may_declare (ahead_seen self.now.ahead) }
    {
        self.ahead != Ahead::Nothing
    }

    /// Behind the white space behind a target.
    fn end_target(&mut self) -> Result<Effect, Refusal>
        ensures { Answers (target_ended (state_seen self.old) self.old.word.items) Stays result (state_seen self.new) }
    {
        if !is_xml(self.word.as_slice()) {
            self.stand(Mark::Instruction { mark: false })
        } else if self.may_declare() && is_xml_word(self.word.as_slice()) {
            self.go(Mark::Declaration {
                last: None,
                spaced: true,
            })
        } else {
            broken(Rule::Syntax)
        }
    }

    pub(crate) fn step_target(&mut self, c: char) -> Result<Effect, Refusal>
        ensures { Answers (target_step (state_seen self.old) self.old.word.items c) Stays result (state_seen self.new) }
    {
        if is_name_char(c) {
            self.word.push(c)?;
            self.go(Mark::Target)
        } else if is_white(c) {
            self.end_target()
        } else if c == '?' && !is_xml(self.word.as_slice()) {
            self.stand(Mark::TargetEnd)
        } else {
            broken(Rule::Syntax)
        }
    }

    pub(crate) fn step_target_end(&mut self, c: char) -> Result<Effect, Refusal>
        ensures { Answers (target_end_step (state_seen self.old) c) Stays result (state_seen self.new) }
    {
        if c == '>' {
            self.stand(Mark::Content { before: Run::None })
        } else {
            broken(Rule::Syntax)
        }
    }

    pub(crate) fn step_instruction(&mut self, mark: bool, c: char) -> Result<Effect, Refusal>
        ensures { Answers (instruction_step (state_seen self.old) mark c) Stays result (state_seen self.new) }
    {
        if mark && c == '>' {
            self.stand(Mark::Content { before: Run::None })
        } else {
            self.stand(Mark::Instruction { mark: c == '?' })
        }
    }
}
