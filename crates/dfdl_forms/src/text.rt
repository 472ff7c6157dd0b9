// How text is padded, escaped and read as a truth value.
ghost use Rattle.std.specs.Prelude.{◌≡◌, [], ◌<◌, ◌↔◌, length, map, slice_index_or, IfSome, IsNone, List, ℕ};

use std::marker::Model;

/// The side at which the characters stand.
#[derive(Debug, Clone, Copy, PartialEq, Eq)]
pub enum Justify {
    Left,
    Right,
    Center,
}

/// How a text is padded to its length and trimmed again.
#[derive(Debug, Clone, Copy, PartialEq, Eq)]
pub struct PadForm {
    pub justify: Justify,
    pub pad: Option<char>,
    pub trim: Option<char>,
    /// A text that is too long is cut.
    pub truncate: bool,
    /// One `0` is kept where a text of nothing else is trimmed by `0`. It holds for text numbers alone.
    pub keeps_zero: bool,
}

/// The texts of true and false; `fold` lets ASCII letters match in both cases.
#[derive(Debug, Drop)]
pub struct TruthForm {
    pub truths: PlainTexts,
    pub falses: PlainTexts,
    pub fold: bool,
}

/// How markup is escaped; `Absent` where there is no scheme.
#[derive(Debug, Clone, Copy, PartialEq, Eq)]
pub enum EscapeKind {
    Absent,
    Character,
    Block,
}

/// The characters of an escape scheme; `always` writes a block also where none is needed.
#[derive(Debug, Drop)]
pub struct EscapeScheme {
    pub kind: EscapeKind,
    pub escape: Option<char>,
    pub escape_escape: Option<char>,
    pub start: Option<char>,
    pub end: Option<char>,
    pub extra: CharList,
    pub always: bool,
}

/// A list of characters.
#[derive(Debug, Drop)]
pub struct CharList {
    characters: Vec<char>,
}

impl Model for CharList {
    ghost use Rattle.std.specs.Prelude.{List, ℕ};

    ghost Value = { List ℕ };

    ghost view = { λ l. l.characters.items };
}

impl CharList {
    pub fn new(characters: Vec<char>) -> CharList
        ensures { result ≡ characters.items }
    {
        CharList { characters }
    }

    pub fn as_slice(&self) -> &[char]
        ensures { result.now ≡ self.now }
    {
        self.characters.as_slice()
    }

    pub fn len(&self) -> usize
        ensures { result ≡ length self.now }
    {
        self.characters.len()
    }
}

/// Texts that stand for themselves, at least one. A contract sees them as lists of characters.
#[derive(Debug, Drop)]
pub struct PlainTexts {
    texts: Vec<Vec<char>>,
}

impl Model for PlainTexts {
    ghost use Rattle.std.specs.Prelude.{List, ℕ, map, length, ◌<◌};

    ghost Value = { List (List ℕ) };

    ghost view = { λ t. map (λ v. v.items) t.texts.items };

    ghost invariant = { λ t. 0 < length t.texts.items };
}

impl PlainTexts {
    /// The list of these texts; nothing where there is none.
    pub fn new(texts: Vec<Vec<char>>) -> Option<PlainTexts>
        ensures texts { IfSome result (λ t. t ≡ map (λ v. v.items) texts.items) }
        ensures none { IsNone result ↔ (texts.items ≡ []) }
    {
        if texts.is_empty() {
            None
        } else {
            Some(PlainTexts { texts })
        }
    }

    pub fn len(&self) -> usize
        ensures value { result ≡ length self.now }
        ensures some { 0 < result }
    {
        self.texts.len()
    }

    pub fn text(&self, at: usize) -> &[char]
        requires { at < length self.now }
        ensures { result.now ≡ slice_index_or self.now at result.now }
    {
        self.texts[at].as_slice()
    }
}
