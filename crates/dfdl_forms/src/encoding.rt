/// The encodings of characters, by the values of `dfdl:encoding`.
#[derive(Clone, Copy, Debug, PartialEq, Eq)]
pub enum Encoding {
    /// UTF-8
    Utf8,
    /// US-ASCII
    UsAscii,
    /// ISO-8859-1
    Iso88591,
    /// UTF-16BE
    Utf16Be,
    /// UTF-16LE
    Utf16Le,
}
