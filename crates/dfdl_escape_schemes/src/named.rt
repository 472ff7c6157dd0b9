// What a component names as its escape scheme.
ghost use Rattle.std.specs.Prelude.{◌≡◌, IfOk};
ghost use Rattle.dfdl_escape_schemes.specs.Schemes as spec;

use crate::marks::EscapeMarks;
use dfdl_forms::{CharList, EscapeKind, EscapeScheme};
use std::alloc::{AllocError, Global};

/// What a component names as its escape scheme ('Simple Types', on escapeSchemeRef).
#[derive(Debug, Drop)]
pub enum NamedScheme {
    /// It names none.
    NoName,
    /// The name names nothing.
    Unknown,
    /// The scheme that the name names is malformed.
    Malformed,
    /// The scheme that the name names.
    Told(EscapeScheme),
}

// No scheme.
fn no_scheme(alloc: Global) -> EscapeScheme
    ensures { result ≡ spec.no_scheme }
{
    EscapeScheme {
        kind: EscapeKind::Absent,
        escape: None,
        escape_escape: None,
        start: None,
        end: None,
        extra: CharList::new(Vec::new(alloc)),
        always: false,
    }
}

// A scheme once more.
fn copy(alloc: Global, scheme: &EscapeScheme) -> Result<EscapeScheme, AllocError>
    ensures { IfOk result (λ copy. copy ≡ scheme.now) }
{
    let extra = CharList::new(Vec::from_slice(alloc, scheme.extra.as_slice())?);
    Ok(EscapeScheme {
        kind: scheme.kind,
        escape: scheme.escape,
        escape_escape: scheme.escape_escape,
        start: scheme.start,
        end: scheme.end,
        extra,
        always: scheme.always,
    })
}

impl NamedScheme {
    /// What is named by a name that names this scheme, or one that is malformed.
    pub fn of(scheme: Option<EscapeScheme>) -> NamedScheme
        ensures { result ≡ spec.named_by scheme }
    {
        match scheme {
            Some(scheme) => NamedScheme::Told(scheme),
            None => NamedScheme::Malformed,
        }
    }

    /// What reading asks of the scheme; that of none where no scheme is named.
    pub fn marks(&self) -> EscapeMarks
        ensures { result ≡ spec.marks_named self.now }
    {
        match self {
            NamedScheme::Told(scheme) => EscapeMarks::of(scheme),
            NamedScheme::NoName | NamedScheme::Unknown | NamedScheme::Malformed =>
                EscapeMarks::none(),
        }
    }

    /// The scheme, copied; none where no scheme is named.
    pub fn scheme(&self, alloc: Global) -> Result<EscapeScheme, AllocError>
        ensures { IfOk result (λ scheme. scheme ≡ spec.scheme_named self.now) }
    {
        match self {
            NamedScheme::Told(scheme) => copy(alloc, scheme),
            NamedScheme::NoName | NamedScheme::Unknown | NamedScheme::Malformed => Ok(no_scheme(
                alloc,
            )),
        }
    }

    /// Whether the name names nothing.
    pub fn is_unknown(&self) -> bool
        ensures { result ≡ spec.is_unknown self.now }
    {
        matches!(self, NamedScheme::Unknown)
    }

    /// Whether the name names a scheme that is malformed.
    pub fn is_malformed(&self) -> bool
        ensures { result ≡ spec.is_malformed self.now }
    {
        matches!(self, NamedScheme::Malformed)
    }
}
