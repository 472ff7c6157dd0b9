// The XML declaration.
#![tactic(auto, unfolding(dfdl_markup::specs::Machine::declaration_step, dfdl_markup::specs::Machine::said_step, dfdl_markup::specs::Machine::said_word_step, dfdl_markup::specs::Machine::said_equals_step, dfdl_markup::specs::Machine::said_value_step, dfdl_markup::specs::Machine::declaration_end_step))]

ghost use Rattle.std.specs.Prelude.{◌≡◌, drop};
ghost use Rattle.dfdl_markup.specs.Grammar.{said_word};
ghost use Rattle.dfdl_markup.specs.Machine.{declaration_end_step, declaration_ending, declaration_step, said_begun, said_equals_step, said_step};
ghost use Rattle.dfdl_markup.specs.Machine.{said_value_step, said_word_step};
ghost use Rattle.dfdl_markup.specs.Building.{Stays};
ghost use Rattle.dfdl_doc_tree.specs.ScannerShown.{Answers, state_seen};
ghost use Rattle.dfdl_doc_tree.specs.Shown.{last_seen, said_seen};

use super::{Scanner, broken};
use crate::effect::Effect;
use crate::letters::{is_quote, is_white};
use crate::mark::{Mark, Run};
use crate::rule::{Refusal, Rule};
use crate::said::{Said, char_at, said_next};

impl Scanner {
    /// Behind the first character of a word.
    #[tactic(auto, unfolding(dfdl_markup::specs::Grammar::said_word))]
    fn begin_said(&mut self, said: Option<Said>) -> Result<Effect, Refusal>
        ensures { Answers (said_begun (last_seen said) (state_seen self.old)) Stays result (state_seen self.new) }
    {
        match said {
            Some(said) => self.go(Mark::SaidWord { said, read: 1 }),
            None => broken(Rule::Syntax),
        }
    }

    pub(crate) fn step_declaration(
        &mut self,
        last: Option<Said>,
        spaced: bool,
        c: char,
    ) -> Result<Effect, Refusal>
        ensures { Answers (declaration_step (state_seen self.old) (last_seen last) spaced c) Stays result (state_seen self.new) }
    {
        if is_white(c) {
            self.go(Mark::Declaration { last, spaced: true })
        } else if c == '?' && last.is_some() {
            self.go(Mark::DeclarationEnd)
        } else if c != '?' && spaced {
            self.begin_said(said_next(last, c))
        } else {
            broken(Rule::Syntax)
        }
    }

    pub(crate) fn step_said(&mut self, said: Said, c: char) -> Result<Effect, Refusal>
        ensures { Answers (said_step (state_seen self.old) (said_seen said) c) Stays result (state_seen self.new) }
    {
        if is_white(c) {
            self.go(Mark::SaidName { said })
        } else if c == '=' {
            self.go(Mark::SaidEquals { said })
        } else {
            broken(Rule::Syntax)
        }
    }

    pub(crate) fn step_said_word(
        &mut self,
        said: Said,
        read: usize,
        c: char,
    ) -> Result<Effect, Refusal>
        ensures { Answers (said_word_step (state_seen self.old) (said_seen said) (drop read (said_word (said_seen said))) c) Stays result (state_seen self.new) }
    {
        match char_at(said.word(), read) {
            None => self.step_said(said, c),
            Some(wanted) if c == wanted => self.go(Mark::SaidWord {
                said,
                read: read + 1,
            }),
            Some(_) => broken(Rule::Syntax),
        }
    }

    pub(crate) fn step_said_equals(&mut self, said: Said, c: char) -> Result<Effect, Refusal>
        ensures { Answers (said_equals_step (state_seen self.old) (said_seen said) c) Stays result (state_seen self.new) }
    {
        if is_white(c) {
            self.go(Mark::SaidEquals { said })
        } else if is_quote(c) {
            self.quote = c;
            self.word.clear();
            self.go(Mark::SaidValue { said })
        } else {
            broken(Rule::Syntax)
        }
    }

    pub(crate) fn step_said_value(&mut self, said: Said, c: char) -> Result<Effect, Refusal>
        ensures { Answers (said_value_step (state_seen self.old) (said_seen said) self.old.quote self.old.word.items c) Stays result (state_seen self.new) }
    {
        if c == self.quote {
            if said.is_value(self.word.as_slice()) {
                return self.go(Mark::Declaration {
                    last: Some(said),
                    spaced: false,
                });
            }
        } else {
            self.word.push(said.character(c))?;
            if said.begins_value(self.word.as_slice()) {
                return self.go(Mark::SaidValue { said });
            }
        }
        broken(said.fault(self.quote, c))
    }

    pub(crate) fn step_declaration_end(&mut self, c: char) -> Result<Effect, Refusal>
        ensures { Answers (declaration_end_step (state_seen self.old) c) Stays result (state_seen self.new) }
    {
        if c == '>' {
            self.stand(Mark::Content { before: Run::None })
        } else {
            broken(Rule::Syntax)
        }
    }
}
