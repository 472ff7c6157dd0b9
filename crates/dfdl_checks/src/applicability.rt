// Which properties are asked of which components.

/// The components that a property applies to.
#[derive(Debug, Clone, Copy, PartialEq, Eq)]
pub enum Bearers {
    /// All components but sequences that stand for a hidden group and elements whose value is calculated.
    EveryComponent,
    /// The same but the types of length prefixes, whose framing is not asked for.
    FramedComponents,
    /// Elements, with and without a representation; those below have one.
    Elements,
    /// Elements that are neither boxed elements nor binary numbers nor binary booleans.
    OtherElements,
    SimpleElements,
    /// Simple elements that may be nil.
    NillableElements,
    /// Those among them whose nil is told by texts, and not by values.
    TextNillables,
    /// Simple elements and types of prefixes but those of type string and hexBinary.
    RepresentedElements,
    /// Components whose content stands in a box: texts, elements of type hexBinary, and complex elements.
    BoxedElements,
    /// Elements of type string.
    Strings,
    /// Strings, text booleans and text numbers that are padded or trimmed by a pad character.
    PaddedStrings,
    PaddedBooleans,
    PaddedNumbers,
    /// Strings, text numbers and text booleans.
    Texts,
    TextNumbers,
    TextBooleans,
    /// Text numbers of the representation standard, and zoned ones.
    StandardNumbers,
    ZonedNumbers,
    /// Text numbers with a pattern: zoned ones, and those in base ten.
    PatternNumbers,
    /// Text numbers and text booleans of another lengthKind than explicit.
    LooseTexts,
    /// Simple elements of an integer or decimal type whose representation is binary.
    BinaryNumbers,
    /// Elements of type boolean whose representation is binary.
    BinaryBooleans,
    /// Binary numbers of a type with more than 8 bits, and binary booleans; and each binary number whose least
    /// significant bits come first.
    OrderedBinaries,
    /// Binary numbers and booleans of lengthKind explicit.
    ExplicitBinaries,
    /// Boxed elements of lengthKind explicit.
    ExplicitBoxes,
    /// Elements of type string and lengthKind implicit.
    ImplicitStrings,
    /// Elements of lengthKind prefixed.
    PrefixedElements,
    /// Binary numbers of the representation packed, which have a sign behind their digits.
    PackedNumbers,
    /// Binary numbers of type decimal.
    BinaryDecimals,
    /// Elements whose length is by a pattern.
    PatternElements,
    /// Elements of type hexBinary of delimited length.
    DelimitedBytes,
    /// Components with an initiator, a terminator or a separator.
    DelimitedComponents,
    /// Sequences and choices, but for sequences that stand for a hidden group.
    Groups,
    Sequences,
    /// Sequences with a separator.
    SeparatedSequences,
    /// Sequences in which nothing stands, and those that stand for a hidden group.
    EmptySequences,
    Choices,
    /// Elements with other bounds of occurrences than 1 and 1.
    CountedElements,
    /// Those among them that occur as often as an expression tells.
    CountedByExpression,
    /// Components with tests of patterns.
    TestedComponents,
    /// The branches of a choice by a key.
    KeyedBranches,
}

/// Which values of a property are built: the others are carried later.
#[derive(Debug, Clone, Copy)]
pub enum Built {
    /// These words.
    Words(&'static [&'static str]),
    /// This number.
    Number(u64),
    /// Each number.
    EachNumber,
    EveryValue,
    NoValue,
}

/// A property, some of the components that it applies to, and which of its values are built there, for
/// parsing and for unparsing.
#[derive(Debug, Clone, Copy)]
pub struct Applicability {
    pub name: &'static str,
    pub bearers: Bearers,
    pub parsing: Built,
    pub unparsing: Built,
}
