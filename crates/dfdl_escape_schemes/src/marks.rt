// What reading asks of an escape scheme.
ghost use Rattle.std.specs.Prelude.{◌≡◌};
ghost use Rattle.dfdl_escape_schemes.specs.Schemes.{marks_of, no_marks};

use dfdl_forms::{EscapeKind, EscapeScheme};

/// What reading asks of an escape scheme: its kind and the characters that it takes off ('Simple Types', on escape schemes).
#[derive(Debug, Clone, Copy, PartialEq, Eq)]
pub struct EscapeMarks {
    pub kind: EscapeKind,
    /// The escape character: what stands before an escaped character.
    pub escape: Option<char>,
    /// The escape-escape character: what stands before an escape character, or before the end of a block, that is content.
    pub escape_escape: Option<char>,
    /// The block start: what a block begins with.
    pub start: Option<char>,
    /// The block end: what a block ends with.
    pub end: Option<char>,
}

impl EscapeMarks {
    /// Those of no scheme.
    pub fn none() -> EscapeMarks
        ensures { result ≡ no_marks }
    {
        EscapeMarks {
            kind: EscapeKind::Absent,
            escape: None,
            escape_escape: None,
            start: None,
            end: None,
        }
    }

    /// Those of a scheme.
    pub(crate) fn of(scheme: &EscapeScheme) -> EscapeMarks
        ensures { result ≡ marks_of scheme.now }
    {
        EscapeMarks {
            kind: scheme.kind,
            escape: scheme.escape,
            escape_escape: scheme.escape_escape,
            start: scheme.start,
            end: scheme.end,
        }
    }
}
