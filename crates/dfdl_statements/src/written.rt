use dfdl_report::Place;
use dfdl_terms::PatternTest;
use dfdl_value::{Simple, TextValue};
use std::collections::BTreeMap;

/// A variable that a statement sets, or of which it opens an instance.
#[derive(Debug, Clone, Copy, PartialEq, Eq)]
pub struct Target {
    /// Its number in the tables.
    pub number: u32,
    /// Its type.
    pub kind: Simple,
}

/// What a row asks for.
#[derive(Debug, Clone, Copy, PartialEq, Eq)]
pub enum Asked {
    /// How long a content is ('Lengths', lengthKind explicit).
    Length,
    /// How often an element occurs ('Arrays and Optional Elements', occursCountKind expression).
    Count,
    /// Which branch of a choice is taken ('Choices', choiceDispatchKey).
    Key,
}

/// What a schema writes as a statement. The text of an expression has its braces.
#[derive(Debug, Drop)]
pub enum Source {
    /// A test of a pattern, which is ready.
    Pattern(PatternTest),
    /// A test of an expression.
    Test {
        text: TextValue,
        /// It is a discriminator, and else an assert.
        discriminates: bool,
        /// What the schema says of a test that fails.
        message: Option<TextValue>,
    },
    /// A variable is set. Where its definition is malformed there is none.
    Setting {
        variable: Option<Target>,
        text: TextValue,
    },
    /// An instance of a variable is opened, which begins with this, or without a text with what the variable does. Where the variable's
    /// definition is malformed there is none.
    Opening {
        variable: Option<Target>,
        text: Option<TextValue>,
    },
    /// The value of an element that has no representation, or the value by which an element is written.
    Calculation {
        kind: Simple,
        text: TextValue,
        /// It is that of writing alone.
        output: bool,
    },
    /// What a row asks for, by an expression.
    Question {
        asked: Asked,
        text: TextValue,
    },
}

/// A statement as a schema writes it.
#[derive(Drop)]
pub struct Written<'s> {
    pub source: Source,
    /// The start tag of its component.
    pub place: Place,
    /// The namespaces of the prefixes in scope.
    pub prefixes: &'s BTreeMap<String, String>,
}
