// Reads a document character by character.
ghost use Rattle.std.specs.Prelude.{◌≡◌};
ghost use Rattle.dfdl_markup.specs.Machine.{accepts, inside, start, step};
ghost use Rattle.dfdl_markup.specs.Building.{Stays, effect_at};
ghost use Rattle.dfdl_doc_tree.specs.ScannerShown.{Answers, place_seen, state_seen};

use crate::effect::Effect;
use crate::mark::{Ahead, Mark, Run};
use crate::reading::Reading;
use crate::rule::{Refusal, Rule};
use dfdl_xml_names::{Frames, Name, StartTag};
use dfdl_xml_tree::Text;
use std::alloc::Global;

mod content;
mod could;
mod declaration;
mod ends;
mod instruction;
mod references;
mod runs;
mod tags;
mod values;

/// Reads a document character by character.
#[derive(Drop)]
pub struct Scanner {
    alloc: Global,
    /// What may come before all else.
    ahead: Ahead,
    /// The piece of markup that is open.
    mark: Mark,
    /// How many roots were begun and have their start tag.
    roots: u32,
    /// The open elements.
    frames: Frames,
    /// The name that is being read.
    reading: Reading,
    /// The start tag that is being read.
    tag: StartTag,
    /// The name of the attribute that is being read, its quote, and its value.
    attribute: Name,
    quote: char,
    value: Text,
    /// Whether the last character of the value is a CR.
    behind_cr: bool,
    /// The target, the entity's name or the value in the XML declaration that is being read.
    word: Vec<char>,
    /// The name that the end tag that is being read must have.
    wanted: Vec<char>,
}

/// The answer where a rule is broken.
fn broken(rule: Rule) -> Result<Effect, Refusal>
    ensures { result ≡ Err (Refusal.Broken rule) }
{
    Err(Refusal::Broken(rule))
}

impl Scanner {
    #[tactic(auto, unfolding(dfdl_markup::specs::Machine::start))]
    pub fn new(alloc: Global) -> Scanner
        ensures { state_seen result ≡ start }
    {
        let nameless = Name::Plain(String::new(alloc));
        Scanner {
            alloc,
            ahead: Ahead::Mark,
            mark: Mark::Content { before: Run::None },
            roots: 0,
            frames: Frames::new(alloc),
            reading: Reading::new(alloc),
            tag: StartTag::new(alloc, Name::Plain(String::new(alloc))),
            attribute: nameless,
            quote: '"',
            value: Text::new(alloc),
            behind_cr: false,
            word: Vec::new(alloc),
            wanted: Vec::new(alloc),
        }
    }

    /// Goes to another place, where the document may still be declared.
    fn go(&mut self, mark: Mark) -> Result<Effect, Refusal>
        ensures effect { result ≡ Ok Effect.Stays }
        ensures new { self.new ≡ record self.old { mark = mark } }
    {
        self.mark = mark;
        Ok(Effect::Stays)
    }

    /// Goes to another place, where it may not.
    fn stand(&mut self, mark: Mark) -> Result<Effect, Refusal>
        ensures effect { result ≡ Ok Effect.Stays }
        ensures new { self.new ≡ record self.old { ahead = Ahead.Nothing; mark = mark } }
    {
        self.ahead = Ahead::Nothing;
        self.mark = mark;
        Ok(Effect::Stays)
    }

    /// Goes to another place inside of the root.
    fn inside(&mut self, mark: Mark) -> Result<Effect, Refusal>
        ensures { Answers (inside self.old.frames (state_seen self.old) (place_seen mark self.old)) Stays result (state_seen self.new) }
    {
        if self.frames.is_empty() {
            broken(Rule::Syntax)
        } else {
            self.stand(mark)
        }
    }

    /// Reads a character, and answers what it does to the tree.
    #[tactic(auto, unfolding(dfdl_markup::specs::Machine::step))]
    pub fn step(&mut self, c: char) -> Result<Effect, Refusal>
        ensures { Answers (step (state_seen self.old) c) (effect_at (place_seen self.old.mark self.old) (state_seen self.old) c) result (state_seen self.new) }
    {
        match self.mark {
            Mark::Content { before } => self.step_content(before, c),
            Mark::Opened => self.step_opened(c),
            Mark::Bang => self.step_bang(c),
            Mark::Dash => self.step_dash(c),
            Mark::Comment { dashes } => self.step_comment(dashes, c),
            Mark::SectionWord { read } => self.step_section_word(read, c),
            Mark::Section { before } => self.step_section(before, c),
            Mark::Question => self.step_question(c),
            Mark::Target => self.step_target(c),
            Mark::TargetEnd => self.step_target_end(c),
            Mark::Instruction { mark } => self.step_instruction(mark, c),
            Mark::TagName => self.step_tag_name(c),
            Mark::Tag { spaced } => self.step_tag(spaced, c),
            Mark::AttributeName => self.step_attribute_name(c),
            Mark::Named => self.step_named(c),
            Mark::Equals => self.step_equals(c),
            Mark::Value => self.step_value(c),
            Mark::Slash => self.step_slash(c),
            Mark::EndTag => self.step_end_tag(c),
            Mark::EndName { read } => self.step_end_name(read, c),
            Mark::EndSpace => self.step_end_space(c),
            Mark::Reference { within } => self.step_reference(within, c),
            Mark::Entity { within } => self.step_entity(within, c),
            Mark::Hash { within } => self.step_hash(within, c),
            Mark::Hexadecimal { within } => self.step_hexadecimal(within, c),
            Mark::Number {
                within,
                hexadecimal,
                value,
            } => self.step_number(within, hexadecimal, value, c),
            Mark::Declaration { last, spaced } => self.step_declaration(last, spaced, c),
            Mark::SaidWord { said, read } => self.step_said_word(said, read, c),
            Mark::SaidName { said } => self.step_said(said, c),
            Mark::SaidEquals { said } => self.step_said_equals(said, c),
            Mark::SaidValue { said } => self.step_said_value(said, c),
            Mark::DeclarationEnd => self.step_declaration_end(c),
        }
    }

    /// The document may end here.
    #[tactic(auto, unfolding(dfdl_markup::specs::Machine::accepts))]
    pub fn accepts(&self) -> bool
        ensures { result ≡ accepts (state_seen self.now) }
    {
        match self.mark {
            Mark::Content { .. } => self.frames.is_empty() && self.roots == 1,
            _ => false,
        }
    }
}
