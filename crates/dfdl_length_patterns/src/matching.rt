// The search for the pattern of a length.
ghost use Rattle.std.specs.Prelude.{◌≡◌, IfOk, IfSome, option_map};
ghost use Rattle.dfdl_length_patterns.specs.Patterns.{match_in};
ghost use Rattle.dfdl_length_patterns.specs.Finding.{Finds};
ghost use Rattle.dfdl_length_patterns.specs.Places.{LiesIn};
ghost use Rattle.regex.specs.Strings.{regex_pattern};

use regex::{Matcher, Regex};
use std::alloc::{AllocError, Global};
use std::fmt;
use std::marker::Model;

/// Where a match begins and ends in the text that was searched, in bytes of UTF-8.
#[derive(Clone, Copy, Debug, PartialEq, Eq)]
pub struct PatternMatch {
    pub begin: usize,
    pub end: usize,
}

/// Searches for the pattern of a length. Its caches grow as it is used, and no search fails.
#[derive(Drop)]
pub struct LengthMatcher<'p> {
    source: &'p str,
    matcher: Matcher<'p>,
}

impl<'p> Model for LengthMatcher<'p> {
    ghost use Rattle.std.specs.Prelude.{ℕ, List};
    ghost use Rattle.regex.specs.Strings.{matcher_pattern};
    ghost use Rattle.dfdl_length_patterns.specs.Finding.{Finds};

    ghost Value = { List ℕ };

    ghost view = { λ m. m.source.now };

    ghost invariant = { λ m. Finds m.source.now (matcher_pattern m.matcher) };
}

impl<'p> LengthMatcher<'p> {
    // What searches for a pattern that finds what the source says.
    pub(crate) fn new(
        alloc: Global,
        source: &'p str,
        pattern: &'p Regex,
    ) -> Result<LengthMatcher<'p>, AllocError>
        requires { Finds source.now (regex_pattern pattern.now) }
        ensures { IfOk result (λ m. m ≡ source.now) }
    {
        let matcher = pattern.matcher(alloc)?;
        Ok(LengthMatcher { source, matcher })
    }

    /// The leftmost match in a text.
    pub fn find(&mut self, text: &str) -> Option<PatternMatch>
        ensures found { option_map (λ m. (m.begin, m.end)) result ≡ match_in self.old text.now }
        ensures within { IfSome result (λ m. LiesIn text.now m.begin m.end) }
        ensures same { self.new ≡ self.old }
    {
        match self.matcher.find(text) {
            Some(found) => Some(PatternMatch {
                begin: found.start(),
                end: found.end(),
            }),
            None => None,
        }
    }
}

impl<'p> fmt::Debug for LengthMatcher<'p> {
    fn fmt<W: fmt::Write>(&self, f: &mut fmt::Formatter<W>) -> fmt::Result {
        f.debug_tuple("LengthMatcher").field(&self.source).finish()
    }
}
