// Start tags.
#![tactic(auto, unfolding(dfdl_markup::specs::Machine::tag_step, dfdl_markup::specs::Machine::tag_name_step, dfdl_markup::specs::Machine::attribute_name_step, dfdl_markup::specs::Machine::behind_name, dfdl_markup::specs::Machine::named_step, dfdl_markup::specs::Machine::equals_step, dfdl_markup::specs::Machine::slash_step))]

ghost use Rattle.std.specs.Prelude.{◌≡◌, OnOk, OnErr, IfOk};
ghost use Rattle.dfdl_markup.specs.Machine.{attribute_name_step, begun_by, behind_name, entered, equals_step};
ghost use Rattle.dfdl_markup.specs.Machine.{if_ends, named_step, slash_step, stand, tag_of, tag_name_step, tag_step};
ghost use Rattle.dfdl_markup.specs.Machine.{AtSlash, whole_name};
ghost use Rattle.dfdl_markup.specs.Building.{Adds, Enters, Stays, tag_effect};
ghost use Rattle.dfdl_xml_names.specs.Shown.{name_of};
ghost use Rattle.dfdl_doc_tree.specs.ScannerShown.{Answers, state_seen, tag_fault, open_effect};
ghost use Rattle.dfdl_doc_tree.specs.Shown.{fault_number};

use super::{Scanner, broken};
use crate::effect::Effect;
use crate::letters::{is_quote, is_white};
use crate::mark::{Ahead, Mark, Run};
use crate::rule::{Refusal, Rule};
use dfdl_xml_chars::is_name_start;
use dfdl_xml_names::{Name, StartTag};
use std::alloc::AllocError;
use std::mem;

impl Scanner {
    /// The rule that the tag breaks where it ends, if it breaks one.
    fn tag_fault(&self) -> Result<Option<Rule>, AllocError>
        ensures { IfOk result (λ fault. fault_number fault ≡ tag_fault self.now.frames self.now.tag) }
    {
        if self.tag.has_clash(&self.frames)? {
            Ok(Some(Rule::Attribute))
        } else if self.tag.all_found(&self.frames) {
            Ok(None)
        } else {
            Ok(Some(Rule::Prefix))
        }
    }

    /// Takes the tag, and leaves an empty one.
    pub(crate) fn take_tag(&mut self) -> StartTag
        ensures tag { result ≡ self.old.tag }
        ensures same { self.new ≡ record self.old { tag = self.new.tag } }
    {
        let empty = StartTag::new(self.alloc, Name::Plain(String::new(self.alloc)));
        mem::replace(&mut self.tag, empty)
    }

    /// Counts a root, if the element is one.
    fn count_root(&mut self) -> Result<(), Refusal>
        ensures counted { OnOk result (self.new ≡ record self.old { roots = begun_by self.old.roots self.old.frames }) }
        ensures memory { OnErr result (result ≡ Err Refusal.OutOfMemory) }
    {
        if self.frames.is_empty() {
            if self.roots == u32::MAX {
                return Err(Refusal::OutOfMemory);
            }
            self.roots += 1;
        }
        Ok(())
    }

    /// Enters the element of the tag.
    fn enter(&mut self) -> Result<Effect, Refusal>
        ensures { Answers (Ok (entered (state_seen self.old) self.old.tag)) (Enters self.old.tag) result (state_seen self.new) }
    {
        self.count_root()?;
        let tag = self.take_tag();
        self.frames.enter(&tag)?;
        let tag = Box::new(self.alloc, tag)?;
        self.ahead = Ahead::Nothing;
        self.mark = Mark::Content { before: Run::None };
        Ok(Effect::Enters(tag))
    }

    /// Behind a `>`.
    fn end_tag(&mut self) -> Result<Effect, Refusal>
        ensures { Answers (if_ends (state_seen self.old) self.old.tag (entered (state_seen self.old) self.old.tag)) (Enters self.old.tag) result (state_seen self.new) }
    {
        match self.tag_fault()? {
            None => self.enter(),
            Some(rule) => broken(rule),
        }
    }

    /// Behind a `/`.
    fn close_tag(&mut self) -> Result<Effect, Refusal>
        ensures { Answers (if_ends (state_seen self.old) self.old.tag (stand (state_seen self.old) (AtSlash self.old.tag))) Stays result (state_seen self.new) }
    {
        match self.tag_fault()? {
            None => self.stand(Mark::Slash),
            Some(rule) => broken(rule),
        }
    }

    #[tactic(auto, unfolding(dfdl_markup::specs::Machine::tag_step, dfdl_markup::specs::Grammar::is_white))]
    pub(crate) fn step_tag(&mut self, spaced: bool, c: char) -> Result<Effect, Refusal>
        ensures { Answers (tag_step (state_seen self.old) self.old.tag spaced c) (open_effect self.old.tag c) result (state_seen self.new) }
    {
        if c == '>' {
            self.end_tag()
        } else if is_white(c) {
            self.stand(Mark::Tag { spaced: true })
        } else if c == '/' {
            self.close_tag()
        } else if spaced && is_name_start(c) {
            self.reading.begin(c)?;
            self.stand(Mark::AttributeName)
        } else {
            broken(Rule::Syntax)
        }
    }

    /// Begins the tag of this name.
    fn begin_attributes(&mut self, name: Name)
        ensures tag { self.new.tag ≡ tag_of (name_of name) }
        ensures same { self.new ≡ record self.old { tag = self.new.tag } }
    {
        self.tag = StartTag::new(self.alloc, name);
    }

    #[tactic(auto, unfolding(dfdl_markup::specs::Machine::tag_name_step), using(crate::proofs::NameLetters::stays_in_name))]
    pub(crate) fn step_tag_name(&mut self, c: char) -> Result<Effect, Refusal>
        ensures { Answers (tag_name_step (state_seen self.old) self.old.reading c) (tag_effect (whole_name self.old.reading) c) result (state_seen self.new) }
    {
        if self.reading.next(c)? {
            return self.stand(Mark::TagName);
        }
        match self.reading.take_name(self.alloc) {
            Some(name) => {
                self.begin_attributes(name);
                self.step_tag(false, c)
            }
            None => broken(Rule::Syntax),
        }
    }

    /// Behind an attribute's name.
    fn step_behind_name(&mut self, c: char) -> Result<Effect, Refusal>
        ensures { Answers (behind_name (state_seen self.old) self.old.tag (name_of self.old.attribute) c) Stays result (state_seen self.new) }
    {
        if !is_white(c) && c != '=' {
            return broken(Rule::Syntax);
        }
        if self.tag.is_given(&self.attribute)? {
            return broken(Rule::Attribute);
        }
        if is_white(c) {
            self.stand(Mark::Named)
        } else {
            self.stand(Mark::Equals)
        }
    }

    pub(crate) fn step_attribute_name(&mut self, c: char) -> Result<Effect, Refusal>
        ensures { Answers (attribute_name_step (state_seen self.old) self.old.tag self.old.reading c) Stays result (state_seen self.new) }
    {
        if self.reading.next(c)? {
            return self.stand(Mark::AttributeName);
        }
        match self.reading.take_name(self.alloc) {
            Some(name) => {
                self.attribute = name;
                self.step_behind_name(c)
            }
            None => broken(Rule::Syntax),
        }
    }

    pub(crate) fn step_named(&mut self, c: char) -> Result<Effect, Refusal>
        ensures { Answers (named_step (state_seen self.old) self.old.tag (name_of self.old.attribute) c) Stays result (state_seen self.new) }
    {
        if is_white(c) {
            self.stand(Mark::Named)
        } else if c == '=' {
            self.stand(Mark::Equals)
        } else {
            broken(Rule::Syntax)
        }
    }

    pub(crate) fn step_equals(&mut self, c: char) -> Result<Effect, Refusal>
        ensures { Answers (equals_step (state_seen self.old) self.old.tag (name_of self.old.attribute) c) Stays result (state_seen self.new) }
    {
        if is_white(c) {
            self.stand(Mark::Equals)
        } else if is_quote(c) {
            self.quote = c;
            self.value.clear();
            self.behind_cr = false;
            self.stand(Mark::Value)
        } else {
            broken(Rule::Syntax)
        }
    }

    pub(crate) fn step_slash(&mut self, c: char) -> Result<Effect, Refusal>
        ensures { Answers (slash_step (state_seen self.old) c) (Adds self.old.tag) result (state_seen self.new) }
    {
        if c != '>' {
            return broken(Rule::Syntax);
        }
        self.count_root()?;
        let tag = self.take_tag();
        let tag = Box::new(self.alloc, tag)?;
        self.ahead = Ahead::Nothing;
        self.mark = Mark::Content { before: Run::None };
        Ok(Effect::Adds(tag))
    }
}
