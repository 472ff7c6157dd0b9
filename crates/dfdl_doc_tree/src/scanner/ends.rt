// End tags.
#![tactic(auto, unfolding(dfdl_markup::specs::Machine::end_tag_step, dfdl_markup::specs::Machine::end_space_step, dfdl_markup::specs::Machine::end_name_step))]

ghost use Rattle.std.specs.Prelude.{◌≡◌, drop, IfOk, chars};
ghost use Rattle.dfdl_markup.specs.Machine.{end_ended, end_name_step, end_next, end_space_step, end_tag_step};
ghost use Rattle.dfdl_markup.specs.Building.{Stays};
ghost use Rattle.dfdl_doc_tree.specs.ScannerShown.{Answers, close_effect, state_seen};

use super::{Scanner, broken};
use crate::effect::Effect;
use crate::letters::is_white;
use crate::mark::{Ahead, Mark, Run};
use crate::rule::{Refusal, Rule};
use crate::said::char_at;
use dfdl_xml_chars::is_name_start;
use std::alloc::{AllocError, Global};

/// The characters of a text.
fn letters(alloc: Global, text: &str) -> Result<Vec<char>, AllocError>
    ensures { IfOk result (λ letters. letters.items ≡ chars text.now) }
{
    text.chars().collect(alloc)
}

impl Scanner {
    /// Reads a character of an end tag's name, behind so many others.
    fn next_end(&mut self, read: usize, c: char) -> Result<Effect, Refusal>
        ensures { Answers (end_next (state_seen self.old) self.old.reading (drop read self.old.wanted.items) c) Stays result (state_seen self.new) }
    {
        match char_at(self.wanted.as_slice(), read) {
            Some(wanted) if c == wanted => self.stand(Mark::EndName { read: read + 1 }),
            _ => broken(Rule::EndTag),
        }
    }

    pub(crate) fn step_end_tag(&mut self, c: char) -> Result<Effect, Refusal>
        ensures { Answers (end_tag_step (state_seen self.old) c) Stays result (state_seen self.new) }
    {
        if !is_name_start(c) {
            return broken(Rule::Syntax);
        }
        self.wanted = letters(self.alloc, self.frames.wanted())?;
        self.reading.begin(c)?;
        self.next_end(0, c)
    }

    #[tactic(auto, unfolding(dfdl_markup::specs::Machine::end_space_step), using(crate::proofs::NameLetters::white_stays))]
    pub(crate) fn step_end_space(&mut self, c: char) -> Result<Effect, Refusal>
        ensures { Answers (end_space_step (state_seen self.old) c) (close_effect c) result (state_seen self.new) }
    {
        if is_white(c) {
            self.stand(Mark::EndSpace)
        } else if c == '>' && !self.frames.is_empty() {
            self.frames.leave();
            self.ahead = Ahead::Nothing;
            self.mark = Mark::Content { before: Run::None };
            Ok(Effect::Leaves)
        } else {
            broken(Rule::Syntax)
        }
    }

    /// Behind the name of an end tag.
    fn step_end_ended(&mut self, read: usize, c: char) -> Result<Effect, Refusal>
        ensures { Answers (end_ended (drop read self.old.wanted.items) (state_seen self.old) c) (close_effect c) result (state_seen self.new) }
    {
        if char_at(self.wanted.as_slice(), read).is_none() {
            self.step_end_space(c)
        } else if is_white(c) || c == '>' {
            broken(Rule::EndTag)
        } else {
            broken(Rule::Syntax)
        }
    }

    #[tactic(auto, unfolding(dfdl_markup::specs::Machine::end_name_step), using(crate::proofs::NameLetters::no_end))]
    pub(crate) fn step_end_name(&mut self, read: usize, c: char) -> Result<Effect, Refusal>
        ensures { Answers (end_name_step (state_seen self.old) self.old.reading (drop read self.old.wanted.items) c) (close_effect c) result (state_seen self.new) }
    {
        if self.reading.next(c)? {
            self.next_end(read, c)
        } else if self.reading.is_whole() {
            self.step_end_ended(read, c)
        } else {
            broken(Rule::Syntax)
        }
    }
}
