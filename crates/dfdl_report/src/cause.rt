// The causes, each with the number and the text by which the program tells it.
ghost use Rattle.std.specs.Prelude.{◌≡◌};
ghost use Rattle.dfdl_report.specs.Causes.{document_number, document_text};
ghost use Rattle.dfdl_report.specs.Causes.{infoset_number, infoset_text, limit_number};
ghost use Rattle.dfdl_report.specs.Causes.{parse_number, parse_text, schema_number, schema_text};
ghost use Rattle.dfdl_report.specs.Causes.{unparse_number, unparse_text, variable_number, variable_text};

/// Why parsing failed: the numbers P of processing errors ('Parsing Algorithm').
#[derive(Debug, Clone, Copy, PartialEq, Eq)]
pub enum ParseCause {
    /// None of the texts of an initiator stands where it has to.
    InitiatorMissing,
    /// None of the texts of a terminator stands where it has to, or one of a component further in does.
    TerminatorMissing,
    /// None of the texts of a separator stands where it has to, or one of a component further in does.
    SeparatorMissing,
    /// A leaf's bits pass the end of the data.
    DataEnds,
    /// A place of a text at which no character can be decoded, and which isn't replaced.
    BadCharacter,
    /// A text that is no number of its pattern.
    NotANumber,
    /// A nibble that can't stand where it stands in a packed number.
    BadNibble,
    /// A box that is as long as it can't be: past the box around it, or of a size that its content does not have.
    LengthOutOfRange,
    /// A number that is no value of its type.
    PastType,
    /// An assertion doesn't hold: the test of the row of this number.
    AssertionFalse { test: u32 },
    /// A discriminator doesn't hold: the test of the row of this number.
    DiscriminatorFalse { test: u32 },
    /// Each branch of a choice failed.
    NoBranch,
    /// No branch of a choice has the key that was calculated.
    NoDispatchBranch,
    /// A calculated number of occurrences that is below 0.
    NegativeCount,
    /// An expression has no value, for the reason of this number.
    ExpressionFault { fault: u8 },
    /// A slot at the end of a separated group that is empty, where none may be.
    EmptyTrailingSlot,
    /// A binary boolean whose number is neither that of true nor that of false.
    UnknownBoolean,
    /// A required element whose representation is empty, and that has no default.
    RequiredEmpty,
    /// A box that is no whole number of bytes, of content that needs these.
    NotFilled,
}

/// What is wrong with the setting of a variable while data is parsed: the numbers V ('DFDL Expression Language', on variables).
#[derive(Debug, Clone, Copy, PartialEq, Eq)]
pub enum VariableCause {
    /// Its instance was set before.
    SetTwice,
    /// Its instance was read before.
    SetAfterRead,
}

/// Why unparsing failed: the numbers U of unparse errors ('DFDL Processing Introduction').
#[derive(Debug, Clone, Copy, PartialEq, Eq)]
pub enum UnparseCause {
    /// A value that the bits of its binary form can't hold.
    BinaryForm,
    /// A value that the nibbles of its packed form can't hold.
    PackedForm,
    /// A number that its text form can't tell, or that is longer than its box.
    TextForm,
    /// A string, a hexBinary or a literal of nil that is longer than its box.
    TooLong,
    /// A character that the encoding lacks.
    NotInEncoding,
    /// A content that is longer than its box, or a box that is as long as it can't be.
    LengthOutOfRange,
    /// A length that its prefix can't tell.
    PrefixUnfit,
    /// An expression has no value, for the reason of this number.
    ExpressionFault { fault: u8 },
    /// A boolean that its box or its field can't hold.
    BooleanUnfit,
    /// An element occurs fewer or more times than its bounds allow.
    WrongOccurrences,
    /// Fill passes the end of the box around it.
    AlignmentImpossible,
    /// A text that its escape scheme can't write.
    EscapeImpossible,
    /// An element of a hidden group that has neither a calculated value nor a default.
    HiddenWithoutValue,
    /// Values that wait for one another.
    SuspensionCycle,
}

/// Why a schema is refused: the numbers C of schema definition errors ('DFDL Schema Component Model').
#[derive(Debug, Clone, Copy, PartialEq, Eq)]
pub enum SchemaCause {
    /// A name that is referred to and that nothing has.
    NameNotFound,
    /// A global component has the name of an earlier one of its kind.
    GlobalTwice,
    /// A construct that is not of the subset, or lacks a part of it.
    OutsideSubset,
    /// A value that its attribute can't have.
    ValueNotAllowed,
    /// A global definition that reaches itself.
    Recursive,
    /// A property that two components of a chain give explicitly.
    PropertyTwice,
    /// A property that is needed and that no scope gives.
    PropertyMissing,
    /// An annotation that isn't known where it stands.
    UnknownAnnotation,
    /// A value that a property can't have.
    PropertyNotCarried,
    /// An expression as the value of a property that takes none.
    ExpressionNotAllowed,
    /// A string literal that is none.
    LiteralMalformed,
    /// A literal of a delimiter that stands for a text of no characters.
    EmptyDelimiter,
    /// A simple type of XML Schema's that is not carried.
    TypeNotCarried,
    /// A string or hexBinary whose length is that of its type, which has no greatest length.
    MaxLengthMissing,
    /// A length kind that the type does not have.
    LengthKind,
    /// Length units that the type does not have.
    LengthUnits,
    /// A constant length that the type does not have.
    ConstantLength,
    /// A type of a length prefix that can't be one.
    PrefixType,
    /// A length prefix that counts itself and is no whole number of the units that it counts.
    PrefixLength,
    /// A regular expression that can't be built.
    PatternRefused,
    /// An order of bytes that does not go with the order of bits.
    OrdersApart,
    /// An order of bits other than that of the root.
    SecondBitOrder,
    /// An encoding that lacks a character which is needed, or can't be that of the content.
    EncodingNotAllowed,
    /// Implicit alignment of a component that has no size of its own: a complex element or a group.
    Alignment,
    /// A number pattern that is none.
    NumberPattern,
    /// Sign codes of packed numbers that are not the four that may stand there.
    SignCodes,
    /// Numbers or texts that can't stand for true and false.
    BooleanRepresentations,
    /// A pad character that isn't one character.
    PadCharacter,
    /// An element that can't be nil, or a nil value that it can't have.
    NilNotAllowed,
    /// A default that is no value of the element's type.
    DefaultNotAValue,
    /// An element that may occur any number of times, where the slots of its group have to be counted.
    UnboundedElement,
    /// Bounds on occurrences that the kind of their count does not have.
    OccurrenceBounds,
    /// A component with a discriminator and another test.
    TestsTogether,
    /// A text that is no expression.
    ExpressionMalformed,
    /// An expression whose types don't fit.
    ExpressionType,
    /// A path of an expression that leads to no declared element.
    PathNowhere,
    /// A variable whose type isn't carried, a value that it can't have, or a name that no variable has.
    VariableMalformed,
    /// A branch of a choice that has no key, or that of an earlier branch.
    BranchKey,
    /// A child without an initiator, in a group whose initiators tell what stands there.
    NoInitiator,
    /// An element has the name of an earlier one of its group.
    ElementTwice,
    /// A calculated value where none may stand.
    CalculationNotAllowed,
    /// An escape scheme that lacks a character of its kind, or has something else than one where one stands.
    EscapeScheme,
}

/// Why a document is refused: the numbers X ('Extensible Markup Language (XML) 1.0' and 'Namespaces
/// in XML 1.0').
#[derive(Debug, Clone, Copy, PartialEq, Eq)]
pub enum DocCause {
    /// The bytes are not UTF-8.
    NotUtf8,
    /// A character that XML does not allow, as it is or by its number.
    CharacterNotAllowed,
    /// Markup that is not well formed.
    Malformed,
    /// An end tag has another name than its start tag.
    EndTagMismatch,
    /// A tag has two attributes of one name.
    AttributeTwice,
    /// A reference to an entity that is none of the five.
    UnknownReference,
    /// A prefix that no namespace is declared for.
    PrefixNotDeclared,
    /// A document type declaration.
    DocumentType,
    /// An encoding other than UTF-8.
    EncodingRefused,
    /// Something else than one element at the top.
    OneRoot,
    /// An element inside of 250 others.
    TooDeep,
    /// The document ends inside of markup or of an element.
    DocumentEnds,
}

/// Why an infoset is refused: the numbers I of infosets ('The DFDL Information Set').
#[derive(Debug, Clone, Copy, PartialEq, Eq)]
pub enum InfosetCause {
    /// The text is no JSON.
    NotJson,
    /// The whole is no object whose only member has the name of the root element.
    RootExpected,
    /// A member of an object has the name of no child.
    UnknownMember,
    /// A complex element is neither an object nor null.
    ObjectExpected,
    /// An array of elements is not an array.
    ArrayExpected,
    /// A simple element is neither a string nor null.
    StringExpected,
    /// A string is no value of the element's type.
    NotAValue,
    /// An element that is not nillable is null.
    NullNotAllowed,
}

/// Which limit was reached: the numbers L.
#[derive(Debug, Clone, Copy, PartialEq, Eq)]
pub enum LimitCause {
    /// The source gives more bytes than the limit.
    Input,
    /// A byte is looked at that is as far behind the first that is still needed as the limit.
    Window,
    /// A document has more elements than the limit.
    Nodes,
    /// A document has more bytes of text and of hexBinary values than the limit.
    Text,
    /// Elements of the schema are nested deeper than the limit.
    Depth,
    /// A document that is unparsed has more unknowns than the limit.
    Cells,
    /// More bytes of output wait for earlier ones than the limit.
    Held,
    /// A schema file has more bytes than the limit.
    Schema,
    /// The schema has more documents than the limit.
    Schemas,
    /// The schema has more rows than the limit.
    Rows,
}

impl ParseCause {
    /// The number that follows the P.
    pub fn number(&self) -> u8
        ensures { result ≡ parse_number self.now }
    {
        match self {
            ParseCause::InitiatorMissing => 1,
            ParseCause::TerminatorMissing => 2,
            ParseCause::SeparatorMissing => 3,
            ParseCause::DataEnds => 4,
            ParseCause::BadCharacter => 5,
            ParseCause::NotANumber => 6,
            ParseCause::BadNibble => 7,
            ParseCause::LengthOutOfRange => 8,
            ParseCause::PastType => 9,
            ParseCause::AssertionFalse { .. } => 10,
            ParseCause::DiscriminatorFalse { .. } => 11,
            ParseCause::NoBranch => 12,
            ParseCause::NoDispatchBranch => 13,
            ParseCause::NegativeCount => 14,
            ParseCause::ExpressionFault { .. } => 15,
            ParseCause::EmptyTrailingSlot => 16,
            ParseCause::UnknownBoolean => 17,
            ParseCause::RequiredEmpty => 18,
            ParseCause::NotFilled => 19,
        }
    }

    pub fn text(&self) -> &'static str
        ensures { result.now ≡ parse_text self.now }
    {
        match self {
            ParseCause::InitiatorMissing => "initiator missing",
            ParseCause::TerminatorMissing => "terminator missing",
            ParseCause::SeparatorMissing => "separator missing",
            ParseCause::DataEnds => "data ends",
            ParseCause::BadCharacter => "bad character",
            ParseCause::NotANumber => "not a number of the pattern",
            ParseCause::BadNibble => "bad nibble or zone",
            ParseCause::LengthOutOfRange => "length out of range",
            ParseCause::PastType => "value past its type",
            ParseCause::AssertionFalse { .. } => "assertion false",
            ParseCause::DiscriminatorFalse { .. } => "discriminator false",
            ParseCause::NoBranch => "no branch",
            ParseCause::NoDispatchBranch => "no dispatch branch",
            ParseCause::NegativeCount => "occurrence count negative",
            ParseCause::ExpressionFault { .. } => "expression fault",
            ParseCause::EmptyTrailingSlot => "empty trailing slot",
            ParseCause::UnknownBoolean => "unknown boolean",
            ParseCause::RequiredEmpty => "required element empty",
            ParseCause::NotFilled => "content does not fill its box",
        }
    }
}

impl VariableCause {
    /// The number that follows the V.
    pub fn number(&self) -> u8
        ensures { result ≡ variable_number self.now }
    {
        match self {
            VariableCause::SetTwice => 1,
            VariableCause::SetAfterRead => 2,
        }
    }

    pub fn text(&self) -> &'static str
        ensures { result.now ≡ variable_text self.now }
    {
        match self {
            VariableCause::SetTwice => "variable set twice",
            VariableCause::SetAfterRead => "variable set after it was read",
        }
    }
}

impl UnparseCause {
    /// The number that follows the U.
    pub fn number(&self) -> u8
        ensures { result ≡ unparse_number self.now }
    {
        match self {
            UnparseCause::BinaryForm => 1,
            UnparseCause::PackedForm => 2,
            UnparseCause::TextForm => 3,
            UnparseCause::TooLong => 4,
            UnparseCause::NotInEncoding => 5,
            UnparseCause::LengthOutOfRange => 6,
            UnparseCause::PrefixUnfit => 7,
            UnparseCause::ExpressionFault { .. } => 8,
            UnparseCause::BooleanUnfit => 9,
            UnparseCause::WrongOccurrences => 10,
            UnparseCause::AlignmentImpossible => 11,
            UnparseCause::EscapeImpossible => 12,
            UnparseCause::HiddenWithoutValue => 13,
            UnparseCause::SuspensionCycle => 14,
        }
    }

    pub fn text(&self) -> &'static str
        ensures { result.now ≡ unparse_text self.now }
    {
        match self {
            UnparseCause::BinaryForm => "value does not fit its binary form",
            UnparseCause::PackedForm => "value does not fit its packed form",
            UnparseCause::TextForm => "value does not fit its text form",
            UnparseCause::TooLong => "value too long",
            UnparseCause::NotInEncoding => "character not in the encoding",
            UnparseCause::LengthOutOfRange => "length out of range",
            UnparseCause::PrefixUnfit => "prefix does not fit",
            UnparseCause::ExpressionFault { .. } => "expression fault",
            UnparseCause::BooleanUnfit => "boolean does not fit",
            UnparseCause::WrongOccurrences => "wrong number of occurrences",
            UnparseCause::AlignmentImpossible => "alignment impossible",
            UnparseCause::EscapeImpossible => "escape impossible",
            UnparseCause::HiddenWithoutValue => "hidden element without a value",
            UnparseCause::SuspensionCycle => "suspension cycle",
        }
    }
}

impl SchemaCause {
    /// The number that follows the C.
    pub fn number(&self) -> u8
        ensures { result ≡ schema_number self.now }
    {
        match self {
            SchemaCause::NameNotFound => 1,
            SchemaCause::GlobalTwice => 2,
            SchemaCause::OutsideSubset => 3,
            SchemaCause::ValueNotAllowed => 4,
            SchemaCause::Recursive => 5,
            SchemaCause::PropertyTwice => 6,
            SchemaCause::PropertyMissing => 7,
            SchemaCause::UnknownAnnotation => 8,
            SchemaCause::PropertyNotCarried => 9,
            SchemaCause::ExpressionNotAllowed => 10,
            SchemaCause::LiteralMalformed => 11,
            SchemaCause::EmptyDelimiter => 12,
            SchemaCause::TypeNotCarried => 13,
            SchemaCause::MaxLengthMissing => 14,
            SchemaCause::LengthKind => 15,
            SchemaCause::LengthUnits => 16,
            SchemaCause::ConstantLength => 17,
            SchemaCause::PrefixType => 18,
            SchemaCause::PrefixLength => 19,
            SchemaCause::PatternRefused => 20,
            SchemaCause::OrdersApart => 21,
            SchemaCause::SecondBitOrder => 22,
            SchemaCause::EncodingNotAllowed => 23,
            SchemaCause::Alignment => 24,
            SchemaCause::NumberPattern => 25,
            SchemaCause::SignCodes => 26,
            SchemaCause::BooleanRepresentations => 27,
            SchemaCause::PadCharacter => 28,
            SchemaCause::NilNotAllowed => 29,
            SchemaCause::DefaultNotAValue => 30,
            SchemaCause::UnboundedElement => 31,
            SchemaCause::OccurrenceBounds => 32,
            SchemaCause::TestsTogether => 33,
            SchemaCause::ExpressionMalformed => 34,
            SchemaCause::ExpressionType => 35,
            SchemaCause::PathNowhere => 36,
            SchemaCause::VariableMalformed => 37,
            SchemaCause::BranchKey => 38,
            SchemaCause::NoInitiator => 39,
            SchemaCause::ElementTwice => 40,
            SchemaCause::CalculationNotAllowed => 41,
            SchemaCause::EscapeScheme => 42,
        }
    }

    pub fn text(&self) -> &'static str
        ensures { result.now ≡ schema_text self.now }
    {
        match self {
            SchemaCause::NameNotFound => "name not found",
            SchemaCause::GlobalTwice => "global name twice",
            SchemaCause::OutsideSubset => "construct outside the subset",
            SchemaCause::ValueNotAllowed => "attribute value not allowed",
            SchemaCause::Recursive => "recursive definition",
            SchemaCause::PropertyTwice => "property given twice",
            SchemaCause::PropertyMissing => "property missing",
            SchemaCause::UnknownAnnotation => "unknown annotation",
            SchemaCause::PropertyNotCarried => "property value not carried",
            SchemaCause::ExpressionNotAllowed => "expression not allowed here",
            SchemaCause::LiteralMalformed => "literal malformed",
            SchemaCause::EmptyDelimiter => "delimiter can match nothing",
            SchemaCause::TypeNotCarried => "simple type not carried",
            SchemaCause::MaxLengthMissing => "maxLength missing",
            SchemaCause::LengthKind => "length kind not allowed",
            SchemaCause::LengthUnits => "length units not allowed",
            SchemaCause::ConstantLength => "constant length out of range",
            SchemaCause::PrefixType => "prefix type not allowed",
            SchemaCause::PrefixLength => "prefix length not whole in its units",
            SchemaCause::PatternRefused => "pattern refused",
            SchemaCause::OrdersApart => "orders do not go together",
            SchemaCause::SecondBitOrder => "second bit order",
            SchemaCause::EncodingNotAllowed => "encoding not allowed",
            SchemaCause::Alignment => "alignment not allowed",
            SchemaCause::NumberPattern => "number pattern malformed",
            SchemaCause::SignCodes => "sign codes malformed",
            SchemaCause::BooleanRepresentations => "boolean representations malformed",
            SchemaCause::PadCharacter => "pad character malformed",
            SchemaCause::NilNotAllowed => "nil not allowed",
            SchemaCause::DefaultNotAValue => "default is not a value",
            SchemaCause::UnboundedElement => "unbounded element not allowed",
            SchemaCause::OccurrenceBounds => "occurrence bounds not allowed",
            SchemaCause::TestsTogether => "assert and discriminator together",
            SchemaCause::ExpressionMalformed => "expression malformed",
            SchemaCause::ExpressionType => "expression type does not fit",
            SchemaCause::PathNowhere => "path leads nowhere",
            SchemaCause::VariableMalformed => "variable malformed",
            SchemaCause::BranchKey => "branch key missing or twice",
            SchemaCause::NoInitiator => "initiator missing in initiated content",
            SchemaCause::ElementTwice => "element name twice",
            SchemaCause::CalculationNotAllowed => "calculated value not allowed here",
            SchemaCause::EscapeScheme => "escape scheme malformed",
        }
    }
}

impl DocCause {
    /// The number that follows the X.
    pub fn number(&self) -> u8
        ensures { result ≡ document_number self.now }
    {
        match self {
            DocCause::NotUtf8 => 1,
            DocCause::CharacterNotAllowed => 2,
            DocCause::Malformed => 3,
            DocCause::EndTagMismatch => 4,
            DocCause::AttributeTwice => 5,
            DocCause::UnknownReference => 6,
            DocCause::PrefixNotDeclared => 7,
            DocCause::DocumentType => 8,
            DocCause::EncodingRefused => 9,
            DocCause::OneRoot => 10,
            DocCause::TooDeep => 11,
            DocCause::DocumentEnds => 12,
        }
    }

    pub fn text(&self) -> &'static str
        ensures { result.now ≡ document_text self.now }
    {
        match self {
            DocCause::NotUtf8 => "bytes not UTF-8",
            DocCause::CharacterNotAllowed => "character not allowed",
            DocCause::Malformed => "markup malformed",
            DocCause::EndTagMismatch => "end tag does not match",
            DocCause::AttributeTwice => "attribute twice",
            DocCause::UnknownReference => "unknown reference",
            DocCause::PrefixNotDeclared => "prefix not declared",
            DocCause::DocumentType => "document type refused",
            DocCause::EncodingRefused => "encoding refused",
            DocCause::OneRoot => "one root expected",
            DocCause::TooDeep => "nested deeper than 250",
            DocCause::DocumentEnds => "document ends",
        }
    }
}

impl InfosetCause {
    /// The number that follows the I.
    pub fn number(&self) -> u8
        ensures { result ≡ infoset_number self.now }
    {
        match self {
            InfosetCause::NotJson => 1,
            InfosetCause::RootExpected => 2,
            InfosetCause::UnknownMember => 3,
            InfosetCause::ObjectExpected => 4,
            InfosetCause::ArrayExpected => 5,
            InfosetCause::StringExpected => 6,
            InfosetCause::NotAValue => 7,
            InfosetCause::NullNotAllowed => 8,
        }
    }

    pub fn text(&self) -> &'static str
        ensures { result.now ≡ infoset_text self.now }
    {
        match self {
            InfosetCause::NotJson => "not JSON",
            InfosetCause::RootExpected => "root expected",
            InfosetCause::UnknownMember => "unknown member",
            InfosetCause::ObjectExpected => "object expected",
            InfosetCause::ArrayExpected => "array expected",
            InfosetCause::StringExpected => "string expected",
            InfosetCause::NotAValue => "not a value of the type",
            InfosetCause::NullNotAllowed => "null not allowed",
        }
    }
}

impl LimitCause {
    /// The number that follows the L.
    pub fn number(&self) -> u8
        ensures { result ≡ limit_number self.now }
    {
        match self {
            LimitCause::Input => 1,
            LimitCause::Window => 2,
            LimitCause::Nodes => 3,
            LimitCause::Text => 4,
            LimitCause::Depth => 5,
            LimitCause::Cells => 6,
            LimitCause::Held => 7,
            LimitCause::Schema => 8,
            LimitCause::Schemas => 9,
            LimitCause::Rows => 10,
        }
    }
}
