// How a content is scanned, and where a scan stands.
use dfdl_forms::Encoding;

/// Where in its content a scan is.
#[derive(Debug, Clone, Copy, PartialEq, Eq)]
pub enum Mode {
    /// Where nothing is escaped.
    Plain,
    /// Where the escape character escapes.
    Escaping,
    /// Where a block may begin: only pad characters stood before.
    Before,
    /// In a block.
    Inside,
}

/// How a content is scanned: the characters of its escape scheme, the pad character that trimming takes off at the left, its
/// encoding, whether a bad unit is replaced, and the bit at which its box ends.
#[derive(Debug, Clone, Copy, PartialEq, Eq)]
pub struct Form {
    pub escape: Option<char>,
    pub escape_escape: Option<char>,
    pub start: Option<char>,
    pub end: Option<char>,
    pub lead: Option<char>,
    pub enc: Encoding,
    pub replaces: bool,
    pub stop: u64,
}

/// Where a scan stands: in a mode, before a byte.
#[derive(Debug, Clone, Copy, PartialEq, Eq)]
pub struct Stand {
    pub mode: Mode,
    pub byte: u64,
}
