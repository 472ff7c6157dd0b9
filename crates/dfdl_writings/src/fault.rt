// Why a value has no writing.
use thiserror::Error;

/// Why a value has no writing: the cause of unparsing that it has, by its number.
#[derive(Debug, Clone, Copy, PartialEq, Eq, Error)]
pub enum Unwritten {
    /// 1: the bits of a binary number can't hold it.
    #[error("value does not fit its binary form")]
    BinaryForm,
    /// 2: the nibbles of a packed number can't hold it.
    #[error("value does not fit its packed form")]
    PackedForm,
    /// 3: a text number has no text in its form, or one that is longer than its box.
    #[error("value does not fit its text form")]
    TextForm,
    /// 4: a string, a hexBinary or a literal of nil is longer than its box.
    #[error("value too long")]
    TooLong,
    /// 5: the encoding lacks a character.
    #[error("character not in the encoding")]
    NotInEncoding,
    /// 7: a length is no whole number of units, or the prefix that tells it can't hold it.
    #[error("prefix does not fit")]
    Prefix,
    /// 9: a boolean is longer than its box, or its field can't hold its number.
    #[error("boolean does not fit")]
    Boolean,
    /// 12: the escape scheme can't write it.
    #[error("escape impossible")]
    Escape,
}

/// Why a call gives no writing.
#[derive(Debug, Clone, Copy, PartialEq, Eq, Error)]
pub enum WritingFault {
    /// There is none.
    #[error("the value has no writing")]
    Unwritten(Unwritten),
    /// There was no memory for it.
    #[error("out of memory")]
    OutOfMemory,
}
