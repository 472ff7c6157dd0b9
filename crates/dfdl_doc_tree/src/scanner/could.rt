// Whether some character past ASCII goes on that begins with bytes, or which rule each breaks.
ghost use Rattle.std.specs.Prelude.{◌≡◌, if◌then◌else◌, chars};
ghost use Rattle.dfdl_xml_chars.specs.Beyond.{could_by};
ghost use Rattle.dfdl_xml_chars.specs.Shown.{bytes_of};
ghost use Rattle.dfdl_markup.specs.Machine.{beyond, beyond_content, beyond_opened, may_begin};
ghost use Rattle.dfdl_markup.specs.Building.{first_of};
ghost use Rattle.dfdl_doc_tree.specs.ScannerShown.{state_seen};
ghost use Rattle.dfdl_doc_tree.specs.Shown.{ahead_seen, end_could, fault_number, rule_number};

use super::Scanner;
use crate::mark::{Ahead, Mark, Run};
use crate::rule::Rule;
use crate::said::char_at;
use dfdl_xml_chars::{Begun, meets_name_char, meets_name_start};

/// The rule where a character of the wanted kind could come, else that of the markup.
fn met(met: bool, rule: Rule) -> Rule
    ensures { rule_number result ≡ (if met then rule_number rule else 3) }
{
    if met { rule } else { Rule::Syntax }
}

/// No rule where a character of the wanted kind could come.
fn unmet(met: bool) -> Option<Rule>
    ensures { fault_number result ≡ (if met then None else Some 3) }
{
    if met { None } else { Some(Rule::Syntax) }
}

/// The first character of a text.
fn first_letter(text: &str) -> Option<char>
    ensures { result ≡ first_of (chars text.now) }
{
    text.chars().next()
}

/// In an end tag's name that goes on by this character.
fn could_end(wanted: Option<char>, is_met: bool, begun: Begun) -> Option<Rule>
    ensures { fault_number result ≡ end_could wanted is_met (bytes_of begun) }
{
    match wanted {
        Some(wanted) if wanted >= '\u{80}' && begun.begins(wanted) => None,
        _ => Some(met(is_met, Rule::EndTag)),
    }
}

impl Scanner {
    /// Between pieces of markup.
    fn could_content(&self, begun: Begun) -> Option<Rule>
        ensures { fault_number result ≡ could_by (beyond_content self.now.frames (ahead_seen self.now.ahead)) (bytes_of begun) }
    {
        if !self.frames.is_empty() || (self.ahead == Ahead::Mark && begun.begins('\u{FEFF}')) {
            None
        } else {
            Some(Rule::Root)
        }
    }

    /// Behind `<`.
    fn could_begin(&self, begun: Begun) -> Option<Rule>
        ensures { fault_number result ≡ could_by (beyond_opened (may_begin self.now.roots self.now.frames)) (bytes_of begun) }
    {
        let is_met = meets_name_start(begun);
        match self.forbidden() {
            None => unmet(is_met),
            Some(rule) => Some(met(is_met, rule)),
        }
    }

    /// Some character goes on that begins so, or else the rule that each breaks.
    #[tactic(auto, unfolding(dfdl_markup::specs::Machine::beyond), using(crate::proofs::Ends::could_end_is))]
    pub fn could(&self, begun: Begun) -> Option<Rule>
        ensures { fault_number result ≡ could_by (beyond (state_seen self.now)) (bytes_of begun) }
    {
        match self.mark {
            Mark::Content { .. } => self.could_content(begun),
            Mark::Opened => self.could_begin(begun),
            Mark::Comment { dashes: Run::Two } => Some(Rule::Syntax),
            Mark::Comment { .. } | Mark::Section { .. } | Mark::Instruction { .. } => None,
            Mark::Question | Mark::Tag { spaced: true } => unmet(meets_name_start(begun)),
            Mark::Target => unmet(meets_name_char(begun)),
            Mark::TagName | Mark::AttributeName => unmet(self.reading.meets(begun)),
            Mark::Value if self.attribute.fixed_value().is_none() => None,
            Mark::EndTag => could_end(
                first_letter(self.frames.wanted()),
                meets_name_start(begun),
                begun,
            ),
            Mark::EndName { read } => could_end(
                char_at(self.wanted.as_slice(), read),
                self.reading.meets(begun),
                begun,
            ),
            Mark::Reference { .. } => Some(met(meets_name_start(begun), Rule::Entity)),
            Mark::Entity { .. } => Some(met(meets_name_char(begun), Rule::Entity)),
            _ => Some(Rule::Syntax),
        }
    }
}
