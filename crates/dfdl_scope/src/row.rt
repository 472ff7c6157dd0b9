// What is told of each property of the profile.

/// Values that have a form of their own.
#[derive(Debug, Clone, Copy, PartialEq, Eq)]
pub enum Form {
    /// The name of an encoding, in any case.
    Encoding,
    /// A number in decimal digits.
    Number,
    /// A number, or nothing.
    NumberOrEmpty,
    /// A number or an expression.
    NumberOrExpression,
    /// A number from 1 to 65,536, or `implicit`.
    Alignment,
    /// A regular expression.
    Pattern,
    /// A pattern of text numbers.
    NumberPattern,
    /// The name of a schema component.
    Name,
    /// The name of an escape scheme, or nothing.
    NameOrEmpty,
    /// String literals that are divided by white space.
    Literals,
    /// Such literals, or nothing.
    LiteralsOrEmpty,
    /// A line ending.
    NewLine,
    /// One raw byte or one ASCII character.
    FillByte,
    /// One character.
    Character,
    /// The four sign codes of packed numbers.
    SignCodes,
    /// An expression.
    Expression,
}

/// Which values a property may have.
#[derive(Debug, Clone, Copy)]
pub enum Values {
    /// One of these words.
    Words(&'static [&'static str]),
    /// A number from the first to the second.
    Range { least: u64, most: u64 },
    Form(Form),
}

/// What stands where no scope gives a property.
#[derive(Debug, Clone, Copy)]
pub enum Absence {
    /// This value.
    Value(&'static str),
    /// The schema is refused: a property is missing.
    Missing,
    /// The schema is refused: a branch has no key.
    MissingKey,
    /// Nothing is done.
    Nothing,
}

/// A property of the profile.
#[derive(Debug, Clone, Copy)]
pub struct PropertyRow {
    pub name: &'static str,
    pub values: Values,
    pub absent: Absence,
}
