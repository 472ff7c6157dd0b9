// What an XML declaration says.
ghost use Rattle.std.specs.Prelude.{◌≡◌, ◌+◌, ◌<◌, ◌^◌, ◌∷◌, [], drop, IfSome, IsNone, IsSome};
ghost use Rattle.std.specs.List.{list_any};
ghost use Rattle.std.specs.Str.{bytes_eq};
ghost use Rattle.dfdl_markup.specs.Grammar.{said_word};
ghost use Rattle.dfdl_markup.specs.Machine.{begins, said_character, said_fault, said_next, said_values};
ghost use Rattle.dfdl_doc_tree.specs.Shown.{last_seen, rule_number, said_seen};

use crate::letters::{begins, is_encoding_character, small};
use crate::rule::Rule;

/// What an XML declaration says.
#[derive(Clone, Copy, Debug, PartialEq, Eq, Drop)]
pub enum Said {
    Version,
    Encoding,
    Standalone,
}

/// The character of a word that stands behind so many.
pub fn char_at(word: &[char], read: usize) -> Option<char>
    ensures some { IfSome result (λ c. drop read word.now ≡ c ∷ drop (read + 1) word.now) }
    ensures none { IsNone result → drop read word.now ≡ [] }
    ensures fits { IsSome result → read + 1 < 2 ^ 64 }
{
    word.get(read).copied()
}

/// What is said next by this character, behind what was said last.
pub fn said_next(last: Option<Said>, c: char) -> Option<Said>
    ensures { last_seen result ≡ said_next (last_seen last) c }
{
    match last {
        None if c == 'v' => Some(Said::Version),
        Some(Said::Version) if c == 'e' => Some(Said::Encoding),
        Some(Said::Version) if c == 's' => Some(Said::Standalone),
        Some(Said::Encoding) if c == 's' => Some(Said::Standalone),
        _ => None,
    }
}

impl Said {
    /// The word that says it.
    #[tactic(auto, unfolding(dfdl_markup::specs::Grammar::said_word))]
    pub fn word(self) -> &'static [char]
        ensures { result.now ≡ said_word (said_seen self) }
    {
        match self {
            Said::Version => &['v', 'e', 'r', 's', 'i', 'o', 'n'],
            Said::Encoding => &['e', 'n', 'c', 'o', 'd', 'i', 'n', 'g'],
            Said::Standalone => &['s', 't', 'a', 'n', 'd', 'a', 'l', 'o', 'n', 'e'],
        }
    }

    /// The text is what may be said.
    #[tactic(auto, unfolding(dfdl_markup::specs::Rules::version_value, dfdl_markup::specs::Rules::encoding_value, dfdl_markup::specs::Rules::yes_value, dfdl_markup::specs::Rules::no_value))]
    pub fn is_value(self, text: &[char]) -> bool
        ensures { result ≡ list_any (bytes_eq text.now) (said_values (said_seen self)) }
    {
        match self {
            Said::Version => text == ['1', '.', '0'].as_slice(),
            Said::Encoding => text == ['u', 't', 'f', '-', '8'].as_slice(),
            Said::Standalone => {
                text == ['y', 'e', 's'].as_slice() || text == ['n', 'o'].as_slice()
            }
        }
    }

    /// The text begins what may be said.
    #[tactic(auto, unfolding(dfdl_markup::specs::Rules::version_value, dfdl_markup::specs::Rules::encoding_value, dfdl_markup::specs::Rules::yes_value, dfdl_markup::specs::Rules::no_value))]
    pub fn begins_value(self, text: &[char]) -> bool
        ensures { result ≡ list_any (begins text.now) (said_values (said_seen self)) }
    {
        match self {
            Said::Version => begins(text, &['1', '.', '0']),
            Said::Encoding => begins(text, &['u', 't', 'f', '-', '8']),
            Said::Standalone => begins(text, &['y', 'e', 's']) || begins(text, &['n', 'o']),
        }
    }

    /// A character of a value as it is compared.
    pub fn character(self, c: char) -> char
        ensures { result ≡ said_character (said_seen self) c }
    {
        match self {
            Said::Encoding => small(c),
            _ => c,
        }
    }

    /// The rule that a value breaks by a character that leaves all that may be said.
    pub fn fault(self, quote: char, c: char) -> Rule
        ensures { rule_number result ≡ said_fault (said_seen self) quote c }
    {
        if self == Said::Encoding && (is_encoding_character(c) || c == quote) {
            Rule::Encoding
        } else {
            Rule::Syntax
        }
    }
}
