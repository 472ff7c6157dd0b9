// Text, comments, CDATA sections.
#![tactic(auto, unfolding(dfdl_markup::specs::Machine::bang_step, dfdl_markup::specs::Machine::dash_step, dfdl_markup::specs::Machine::opened_step, dfdl_markup::specs::Machine::comment_step, dfdl_markup::specs::Machine::section_step, dfdl_markup::specs::Machine::section_word_step))]

ghost use Rattle.std.specs.Prelude.{◌≡◌, [], drop};
ghost use Rattle.dfdl_markup.specs.Machine.{bang_step, begin_by, comment_step, content_step, dash_step, inner_step, may_begin};
ghost use Rattle.dfdl_markup.specs.Machine.{opened_step, section_step, section_word_step, top_step};
ghost use Rattle.dfdl_markup.specs.Building.{Stays, content_effect, section_effect};
ghost use Rattle.dfdl_markup.specs.Grammar.{section_word};
ghost use Rattle.dfdl_doc_tree.specs.ScannerShown.{Answers, inner_effect, state_seen};
ghost use Rattle.dfdl_doc_tree.specs.Shown.{fault_number, run_number};

use super::{Scanner, broken};
use crate::effect::Effect;
use crate::letters::is_white;
use crate::mark::{Ahead, Mark, Run, Within};
use crate::rule::{Refusal, Rule};
use crate::said::char_at;
use dfdl_xml_chars::is_name_start;

/// How deep elements may be nested.
const DEEPEST: usize = 250;

/// The word that begins a CDATA section.
#[tactic(auto, unfolding(dfdl_markup::specs::Grammar::section_word))]
fn word_of_section() -> &'static [char]
    ensures { result.now ≡ section_word }
{
    &['C', 'D', 'A', 'T', 'A', '[']
}

impl Scanner {
    /// Outside of the root.
    fn step_top(&mut self, c: char) -> Result<Effect, Refusal>
        ensures { Answers (top_step (state_seen self.old) c) (content_effect [] c) result (state_seen self.new) }
    {
        if c == '<' {
            self.mark = Mark::Opened;
            Ok(Effect::Opens)
        } else if is_white(c) {
            self.stand(Mark::Content { before: Run::None })
        } else if c == '\u{FEFF}' && self.ahead == Ahead::Mark {
            self.ahead = Ahead::Declaration;
            self.go(Mark::Content { before: Run::None })
        } else {
            broken(Rule::Root)
        }
    }

    pub(crate) fn step_bang(&mut self, c: char) -> Result<Effect, Refusal>
        ensures { Answers (bang_step (state_seen self.old) c) Stays result (state_seen self.new) }
    {
        if c == '-' {
            self.stand(Mark::Dash)
        } else if c == '[' {
            self.inside(Mark::SectionWord { read: 0 })
        } else {
            broken(Rule::Syntax)
        }
    }

    pub(crate) fn step_dash(&mut self, c: char) -> Result<Effect, Refusal>
        ensures { Answers (dash_step (state_seen self.old) c) Stays result (state_seen self.new) }
    {
        if c == '-' {
            self.stand(Mark::Comment { dashes: Run::None })
        } else {
            broken(Rule::Syntax)
        }
    }

    /// Inside of the root.
    fn step_inner(&mut self, before: Run, c: char) -> Result<Effect, Refusal>
        ensures { Answers (inner_step (state_seen self.old) (run_number before) c) (inner_effect c) result (state_seen self.new) }
    {
        if c == '<' {
            self.ahead = Ahead::Nothing;
            self.mark = Mark::Opened;
            Ok(Effect::Opens)
        } else if c == '&' {
            self.stand(Mark::Reference {
                within: Within::Content,
            })
        } else if before == Run::Two && c == '>' {
            broken(Rule::Syntax)
        } else {
            self.ahead = Ahead::Nothing;
            self.mark = Mark::Content {
                before: before.behind(c),
            };
            Ok(Effect::Reads { held: Run::None, c })
        }
    }

    #[tactic(auto, unfolding(dfdl_markup::specs::Machine::content_step))]
    pub(crate) fn step_content(&mut self, before: Run, c: char) -> Result<Effect, Refusal>
        ensures { Answers (content_step (state_seen self.old) (run_number before) c) (content_effect self.old.frames c) result (state_seen self.new) }
    {
        if self.frames.is_empty() {
            self.step_top(c)
        } else {
            self.step_inner(before, c)
        }
    }

    /// The rule that forbids an element to begin here, if one does.
    #[tactic(auto, unfolding(dfdl_markup::specs::Rules::deepest))]
    pub(crate) fn forbidden(&self) -> Option<Rule>
        ensures { fault_number result ≡ may_begin self.now.roots self.now.frames }
    {
        if self.frames.is_empty() {
            if self.roots == 0 {
                None
            } else {
                Some(Rule::Root)
            }
        } else if self.frames.depth() < DEEPEST {
            None
        } else {
            Some(Rule::Depth)
        }
    }

    fn begin_tag(&mut self, c: char) -> Result<Effect, Refusal>
        ensures { Answers (begin_by (may_begin self.old.roots self.old.frames) (state_seen self.old) c) Stays result (state_seen self.new) }
    {
        match self.forbidden() {
            None => {
                self.reading.begin(c)?;
                self.stand(Mark::TagName)
            }
            Some(rule) => broken(rule),
        }
    }

    pub(crate) fn step_opened(&mut self, c: char) -> Result<Effect, Refusal>
        ensures { Answers (opened_step (state_seen self.old) c) Stays result (state_seen self.new) }
    {
        if is_name_start(c) {
            self.begin_tag(c)
        } else if c == '/' {
            self.inside(Mark::EndTag)
        } else if c == '!' {
            self.stand(Mark::Bang)
        } else if c == '?' {
            self.go(Mark::Question)
        } else {
            broken(Rule::Syntax)
        }
    }

    pub(crate) fn step_comment(&mut self, dashes: Run, c: char) -> Result<Effect, Refusal>
        ensures { Answers (comment_step (state_seen self.old) (run_number dashes) c) Stays result (state_seen self.new) }
    {
        match dashes {
            Run::Two if c == '>' => self.stand(Mark::Content { before: Run::None }),
            Run::Two => broken(Rule::Syntax),
            Run::One if c == '-' => self.stand(Mark::Comment { dashes: Run::Two }),
            Run::None if c == '-' => self.stand(Mark::Comment { dashes: Run::One }),
            _ => self.stand(Mark::Comment { dashes: Run::None }),
        }
    }

    pub(crate) fn step_section_word(&mut self, read: usize, c: char) -> Result<Effect, Refusal>
        ensures { Answers (section_word_step (state_seen self.old) (drop read section_word) c) Stays result (state_seen self.new) }
    {
        match char_at(word_of_section(), read) {
            Some(wanted) if c == wanted => {
                if char_at(word_of_section(), read + 1).is_none() {
                    self.stand(Mark::Section { before: Run::None })
                } else {
                    self.stand(Mark::SectionWord { read: read + 1 })
                }
            }
            _ => broken(Rule::Syntax),
        }
    }

    pub(crate) fn step_section(&mut self, before: Run, c: char) -> Result<Effect, Refusal>
        ensures { Answers (section_step (state_seen self.old) (run_number before) c) (section_effect (run_number before) c) result (state_seen self.new) }
    {
        if before == Run::Two && c == '>' {
            self.ahead = Ahead::Nothing;
            self.mark = Mark::Content { before: Run::None };
            return Ok(Effect::Closes);
        }
        self.ahead = Ahead::Nothing;
        self.mark = Mark::Section {
            before: before.behind(c),
        };
        if c != ']' {
            Ok(Effect::Reads { held: before, c })
        } else if before == Run::Two {
            Ok(Effect::Reads { held: Run::None, c })
        } else {
            Ok(Effect::Stays)
        }
    }
}
