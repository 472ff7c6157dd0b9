// Patterns of lengths, built once.
ghost use Rattle.std.specs.Prelude.{◌≡◌, ◌≢◌, ◌≤◌, IfOk, IfSome, IsErrOf, option_map, string_bytes};
ghost use Rattle.dfdl_edge.specs.Faults.{Rose};
ghost use Rattle.dfdl_edge.specs.Told.{IsNowLast};
ghost use Rattle.dfdl_length_patterns.specs.Patterns.{anchored, match_in};
ghost use Rattle.dfdl_length_patterns.specs.Places.{LiesIn};

use crate::matching::{LengthMatcher, PatternMatch};
use dfdl_edge::{PatternRefusal, Patterns};
use regex::Regex;
use std::alloc::{AllocError, Global};
use std::fmt;
use std::marker::Model;

/// The pattern of a length, ready to be searched for at the begin of a text.
#[derive(Drop)]
pub struct LengthPattern {
    built: Regex,
}

impl Model for LengthPattern {
    ghost use Rattle.std.specs.Prelude.{ℕ, List};
    ghost use Rattle.regex.specs.Strings.{regex_source};
    ghost use Rattle.dfdl_edge.specs.Patterns.{IsPatternOf};

    ghost Value = { List ℕ };

    ghost view = { λ p. regex_source p.built };

    ghost invariant = { λ p. IsPatternOf (regex_source p.built) p.built };
}

impl LengthPattern {
    /// Builds the pattern of a length. Clauses see it as the text that was built.
    pub fn build<P: Patterns>(
        alloc: Global,
        patterns: &mut P,
        pattern: &str,
    ) -> Result<LengthPattern, PatternRefusal>
        ensures text { IfOk result (λ p. p ≡ anchored pattern.now) }

        ensures later { P.faults patterns.old ≤ P.faults patterns.new }
        ensures cause { IsErrOf result PatternRefusal.Refused
            → Rose (P.faults patterns.old) (P.faults patterns.new) }
        ensures still { result ≢ Err PatternRefusal.Refused
            → P.faults patterns.new ≡ P.faults patterns.old }

        ensures last { IsErrOf result PatternRefusal.Refused →
            IsNowLast (P.last_refused patterns.old) (anchored pattern.now) (P.last_refused patterns.new) }
        ensures last_kept { result ≢ Err PatternRefusal.Refused
            → P.last_refused patterns.new ≡ P.last_refused patterns.old }
    {
        match anchored_text(alloc, pattern) {
            Ok(text) => LengthPattern::of_text(alloc, patterns, text.as_str()),
            Err(_) => Err(PatternRefusal::OutOfMemory),
        }
    }

    // The pattern of the whole text that is to be built.
    fn of_text<P: Patterns>(
        alloc: Global,
        patterns: &mut P,
        text: &str,
    ) -> Result<LengthPattern, PatternRefusal>
        ensures text { IfOk result (λ p. p ≡ text.now) }

        ensures later { P.faults patterns.old ≤ P.faults patterns.new }
        ensures cause { IsErrOf result PatternRefusal.Refused
            → Rose (P.faults patterns.old) (P.faults patterns.new) }
        ensures still { result ≢ Err PatternRefusal.Refused
            → P.faults patterns.new ≡ P.faults patterns.old }

        ensures last { IsErrOf result PatternRefusal.Refused →
            IsNowLast (P.last_refused patterns.old) text.now (P.last_refused patterns.new) }
        ensures last_kept { result ≢ Err PatternRefusal.Refused
            → P.last_refused patterns.new ≡ P.last_refused patterns.old }
    {
        match patterns.build(alloc, text) {
            Ok(built) => Ok(LengthPattern { built }),
            Err(refusal) => Err(refusal),
        }
    }

    /// What searches for this pattern, in one text after another.
    pub fn matcher(&self, alloc: Global) -> Result<LengthMatcher<'_>, AllocError>
        ensures { IfOk result (λ m. m ≡ self.now) }
    {
        LengthMatcher::new(alloc, self.built.as_str(), &self.built)
    }

    /// The leftmost match in one text.
    pub fn find(&self, alloc: Global, text: &str) -> Result<Option<PatternMatch>, AllocError>
        ensures found { IfOk result (λ found.
            option_map (λ m. (m.begin, m.end)) found ≡ match_in self.now text.now) }
        ensures within { IfOk result (λ found. IfSome found (λ m. LiesIn text.now m.begin m.end)) }
    {
        let mut matcher = self.matcher(alloc)?;
        Ok(matcher.find(text))
    }
}

impl fmt::Debug for LengthPattern {
    fn fmt<W: fmt::Write>(&self, f: &mut fmt::Formatter<W>) -> fmt::Result {
        f.debug_tuple("LengthPattern")
            .field(&self.built.as_str())
            .finish()
    }
}

// The text that is built of a pattern.
#[tactic(auto, unfolding(crate::specs::Patterns::anchored))]
fn anchored_text(alloc: Global, pattern: &str) -> Result<String, AllocError>
    ensures { IfOk result (λ text. string_bytes text ≡ anchored pattern.now) }
{
    format!(in alloc; r"\A(?:{pattern})")
}
