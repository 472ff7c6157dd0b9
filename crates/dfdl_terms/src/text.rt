ghost use Rattle.dfdl_terms.specs.Rows.{IsWritten};

use crate::value_list::ValueList;
use dfdl_forms::{
    BitOrder, Encoding, EscapeKind, Literals, NumberForm, PadForm, Simple, TruthForm, ZonedForm,
};
use dfdl_length_patterns::LengthPattern;
use dfdl_value::Value;

/// How the bytes of a hexBinary value lie in the data.
#[derive(Debug, Clone, Copy, PartialEq, Eq)]
pub struct OctetForm {
    /// How many bits its box has.
    pub bits: u64,
    pub bits_by: BitOrder,
}

/// What stands for nil in the data ('DFDL Data Syntax Grammar', on nilKind and nilValue).
#[derive(Debug, Drop)]
pub enum NilTexts {
    /// A text of one of these literals.
    Literals(Literals),
    /// One or more of this character.
    Character(char),
    /// One or more of this byte.
    Byte(u8),
}

/// How nil lies in the data.
#[derive(Debug, Drop)]
pub struct NilForm {
    pub texts: NilTexts,
    pub encoding: Encoding,
    /// An ASCII letter stands for its other case too.
    pub fold: bool,
}

/// How nil lies in a box of bytes, of an element whose content is no text.
#[derive(Debug, Drop)]
pub struct NilOctets {
    pub octets: OctetForm,
    pub nil: NilForm,
}

/// Values of an element that stand for nil ('DFDL Data Syntax Grammar', on nilKind logicalValue).
#[derive(Debug, Drop)]
pub struct NilValues {
    pub values: ValueList,
}

/// How the length of an element is told by what a pattern matches in the data ('Lengths', on lengthPattern).
#[derive(Debug, Drop)]
pub struct PatternForm {
    /// The data are read as characters of this encoding.
    pub encoding: Encoding,
    pub pattern: LengthPattern,
}

/// The empty representation of an element: a box without any bit, which stands for a value ('DFDL Data Syntax Grammar').
#[derive(Debug, Drop)]
pub struct DefaultForm {
    /// How long the box is, or how a content is scanned that has to end where it begins.
    pub size: TextSize,
    pub value: Value,
}

/// The text of a value is one of characters. The call does nothing.
pub fn text_is_written(value: &Value)
    ensures { IsWritten value.now }
{
    if let Value::Text(text) = value {
        let _text = text.as_str();
    }
}

/// How a content is scanned that terminating markup ends: the characters of its escape scheme, the pad character that trimming
/// takes off at the left, if there is one, its encoding, and whether a place at which no character can be decoded is read as
/// U+FFFD ('Simple Types', on escape schemes).
#[derive(Debug, Clone, Copy, PartialEq, Eq)]
pub struct ScanForm {
    pub kind: EscapeKind,
    pub escape: Option<char>,
    pub escape_escape: Option<char>,
    pub start: Option<char>,
    pub end: Option<char>,
    pub lead: Option<char>,
    pub encoding: Encoding,
    pub replaces: bool,
}

/// How long a content is in the data ('Lengths').
#[derive(Debug, Clone, Copy, PartialEq, Eq)]
pub enum TextSize {
    /// Its box has so many bits.
    Bits(u64),
    /// It has so many characters.
    Characters(u64),
    /// It is scanned so up to terminating markup, or up to the end of the box or of the data (lengthKind delimited).
    Delimited(ScanForm),
}

/// What the characters of a text are read as ('Simple Types').
#[derive(Debug, Drop)]
pub enum TextContent {
    /// The value of a string, as they are.
    Plain,
    /// The value of a hexBinary: each is the byte that it is encoded as in ISO-8859-1.
    Octets,
    /// A number of a type, by a number pattern or by the digits of a base.
    Number { form: NumberForm, kind: Simple },
    /// A zoned number.
    Zoned(ZonedForm),
    /// A boolean.
    Truth(TruthForm),
    /// Nil, and nothing else.
    Nil(NilForm),
}

/// How the characters of a text lie in the data ('Simple Types').
#[derive(Debug, Drop)]
pub struct TextForm {
    pub encoding: Encoding,
    /// A place at which no character can be decoded is read as U+FFFD; else the text fails there.
    pub replaces: bool,
    pub size: TextSize,
    pub pad: PadForm,
    /// What the characters are read as that are left after trimming.
    pub content: TextContent,
}
