// Runs of characters that do nothing but lengthen what is being read.
ghost use Rattle.std.specs.Prelude.{◌≡◌, IfOk, true};
ghost use Rattle.dfdl_doc_tree.specs.declared.mark.Ahead.TheVariants as Ahead;
ghost use Rattle.dfdl_doc_tree.specs.declared.mark.Mark.TheVariants as Mark;
ghost use Rattle.dfdl_doc_tree.specs.Plain.{IsPassedBy};
ghost use Rattle.dfdl_doc_tree.specs.ScannerShown.{state_seen};

use super::Scanner;
use crate::mark::{Ahead, Mark, Run};
use crate::plain::{Class, Passed};
use std::alloc::AllocError;

impl Scanner {
    /// Between pieces of markup, behind so many `]`: text, or white space outside of the root.
    #[tactic(auto, using(crate::proofs::Passes::no_bytes))]
    fn pass_content(&self, before: Run, bytes: &[u8]) -> Passed
        ensures { self.now.ahead ≡ Ahead.Nothing → self.now.mark ≡ Mark.Content before
            → IsPassedBy result (state_seen self.now) bytes.now (state_seen self.now) }
    {
        match before {
            Run::None if self.frames.is_empty() => Passed::Quiet(Class::White.count(bytes)),
            Run::None => Passed::Text(Class::Text.count(bytes)),
            Run::One | Run::Two => Passed::Quiet(0),
        }
    }

    /// In a CDATA section, behind so many `]`.
    #[tactic(auto, using(crate::proofs::Passes::no_bytes))]
    fn pass_section(&self, before: Run, bytes: &[u8]) -> Passed
        ensures { self.now.ahead ≡ Ahead.Nothing → self.now.mark ≡ Mark.Section before
            → IsPassedBy result (state_seen self.now) bytes.now (state_seen self.now) }
    {
        match before {
            Run::None => Passed::Text(Class::Section.count(bytes)),
            Run::One | Run::Two => Passed::Quiet(0),
        }
    }

    /// In a comment, behind so many `-`.
    #[tactic(auto, using(crate::proofs::Passes::no_bytes))]
    fn pass_comment(&self, dashes: Run, bytes: &[u8]) -> Passed
        ensures { self.now.ahead ≡ Ahead.Nothing → self.now.mark ≡ Mark.Comment dashes
            → IsPassedBy result (state_seen self.now) bytes.now (state_seen self.now) }
    {
        match dashes {
            Run::None => Passed::Quiet(Class::Comment.count(bytes)),
            Run::One | Run::Two => Passed::Quiet(0),
        }
    }

    /// In a processing instruction, behind a `?` or not.
    #[tactic(auto, using(crate::proofs::Passes::no_bytes))]
    fn pass_instruction(&self, mark: bool, bytes: &[u8]) -> Passed
        ensures { self.now.ahead ≡ Ahead.Nothing → self.now.mark ≡ Mark.Instruction mark
            → IsPassedBy result (state_seen self.now) bytes.now (state_seen self.now) }
    {
        if mark {
            Passed::Quiet(0)
        } else {
            Passed::Quiet(Class::Instruction.count(bytes))
        }
    }

    /// In a start tag, behind white space or not.
    #[tactic(auto, using(crate::proofs::Passes::no_bytes))]
    fn pass_white(&self, spaced: bool, bytes: &[u8]) -> Passed
        ensures { self.now.ahead ≡ Ahead.Nothing → self.now.mark ≡ Mark.Tag spaced
            → IsPassedBy result (state_seen self.now) bytes.now (state_seen self.now) }
    {
        if spaced {
            Passed::Quiet(Class::White.count(bytes))
        } else {
            Passed::Quiet(0)
        }
    }

    /// In a value that can be any text.
    #[tactic(auto, using(crate::proofs::Passes::value_passed, crate::proofs::Passes::no_bytes))]
    fn pass_value(&mut self, bytes: &[u8]) -> Result<Passed, AllocError>
        ensures { self.old.ahead ≡ Ahead.Nothing → self.old.mark ≡ Mark.Value
            → IfOk result (λ passed. IsPassedBy passed (state_seen self.old) bytes.now (state_seen self.new)) }
    {
        if self.behind_cr || self.attribute.fixed_value().is_some() {
            return Ok(Passed::Quiet(0));
        }
        let class = Class::Value(self.quote);
        Ok(Passed::Quiet(class.lengthen(&mut self.value, bytes)?))
    }

    /// In the name of a start tag or of an attribute.
    #[tactic(auto, using(crate::proofs::Passes::tag_name_passed, crate::proofs::Passes::attribute_name_passed))]
    fn pass_name(&mut self, bytes: &[u8]) -> Result<Passed, AllocError>
        ensures tag { self.old.ahead ≡ Ahead.Nothing → self.old.mark ≡ Mark.TagName
            → IfOk result (λ passed. IsPassedBy passed (state_seen self.old) bytes.now (state_seen self.new)) }
        ensures attribute { self.old.ahead ≡ Ahead.Nothing → self.old.mark ≡ Mark.AttributeName
            → IfOk result (λ passed. IsPassedBy passed (state_seen self.old) bytes.now (state_seen self.new)) }
    {
        Ok(Passed::Quiet(self.reading.pass(bytes)?))
    }

    /// The document may not be declared any more.
    fn is_settled(&self) -> bool
        ensures { result ≡ true → self.now.ahead ≡ Ahead.Nothing }
    {
        match self.ahead {
            Ahead::Nothing => true,
            _ => false,
        }
    }

    /// Reads as many characters at the head of the bytes as do nothing but lengthen what is being
    /// read here.
    #[tactic(auto, using(crate::proofs::Passes::no_bytes))]
    pub fn pass(&mut self, bytes: &[u8]) -> Result<Passed, AllocError>
        ensures { IfOk result (λ passed. IsPassedBy passed (state_seen self.old) bytes.now (state_seen self.new)) }
    {
        if !self.is_settled() {
            return Ok(Passed::Quiet(0));
        }
        match self.mark {
            Mark::Content { before } => Ok(self.pass_content(before, bytes)),
            Mark::Section { before } => Ok(self.pass_section(before, bytes)),
            Mark::Comment { dashes } => Ok(self.pass_comment(dashes, bytes)),
            Mark::Instruction { mark } => Ok(self.pass_instruction(mark, bytes)),
            Mark::Tag { spaced } => Ok(self.pass_white(spaced, bytes)),
            Mark::Value => self.pass_value(bytes),
            Mark::TagName | Mark::AttributeName => self.pass_name(bytes),
            _ => Ok(Passed::Quiet(0)),
        }
    }
}
