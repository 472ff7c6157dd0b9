ghost use Rattle.std.specs.Prelude.{◌≡◌, None};
ghost use Rattle.dfdl_terms.specs.Framing.{no_fill};

use crate::delimiters::Delimiter;
use crate::statement::Statements;

/// What stands around the content of a component: statements before all else, fill, in bits, its initiator and terminator, and statements
/// behind all ('Framing', 'DFDL Schema Component Model').
#[derive(Debug, Clone, Copy, PartialEq, Eq)]
pub struct Framing {
    /// Tests of patterns.
    pub before: Statements,
    /// What opens instances of variables, which stay open up to the end of a sequence or a choice.
    pub openings: Statements,
    /// What sets variables where a sequence or a choice begins, inside of these instances.
    pub settings: Statements,
    /// How many bits are passed over before the alignment.
    pub leading_skip: u32,
    /// The initiator, or the content without one, begins at a multiple of so many bits; with 1 it begins anywhere.
    pub alignment: u32,
    /// The initiator, if there is one.
    pub initiator: Option<Delimiter>,
    /// The terminator, if there is one.
    pub terminator: Option<Delimiter>,
    /// How many bits are passed over behind the content and its terminator.
    pub trailing_skip: u32,
    /// What sets variables where an element ends, and tests of expressions.
    pub behind: Statements,
}

impl Framing {
    /// Neither a statement nor fill nor a delimiter.
    pub fn none() -> Framing
        ensures { result ≡ no_fill }
    {
        Framing {
            before: Statements { first: 0, count: 0 },
            openings: Statements { first: 0, count: 0 },
            settings: Statements { first: 0, count: 0 },
            leading_skip: 0,
            alignment: 1,
            initiator: None,
            terminator: None,
            trailing_skip: 0,
            behind: Statements { first: 0, count: 0 },
        }
    }
}
