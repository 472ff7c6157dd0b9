// The names of encodings.
ghost use Rattle.std.specs.Prelude.{◌≡◌, ◌≤◌};
ghost use Rattle.dfdl_checks.specs.Encodings as encodings;
ghost use Rattle.dfdl_scope.specs.Told.{told_by};

use dfdl_forms::Encoding;
use dfdl_scope::{Asked, literal};

/// The encoding of a name, whose ASCII letters may have either case.
pub(crate) fn encoding_named(name: &str) -> Option<Encoding>
    ensures { result ≡ encodings.encoding_named name.now }
{
    if name.eq_ignore_ascii_case("UTF-8") {
        return Some(Encoding::Utf8);
    }
    if name.eq_ignore_ascii_case("US-ASCII") || name.eq_ignore_ascii_case("ASCII") {
        return Some(Encoding::UsAscii);
    }
    if name.eq_ignore_ascii_case("ISO-8859-1") {
        return Some(Encoding::Iso88591);
    }
    if name.eq_ignore_ascii_case("UTF-16BE") {
        return Some(Encoding::Utf16Be);
    }
    if name.eq_ignore_ascii_case("UTF-16LE") {
        return Some(Encoding::Utf16Le);
    }
    None
}

/// The encoding that is told.
pub(crate) fn encoding_told(told: Asked<'_>) -> Option<Encoding>
    ensures { result ≡ encodings.encoding_told (told_by told.entry) }
{
    match told {
        Asked::Given(written) => encoding_named(literal(written)),
        Asked::Absent => None,
        Asked::Twice { .. } => None,
    }
}

/// How many bits the smallest unit of an encoding has.
fn smallest_unit(encoding: Encoding) -> u32
    ensures unit { result ≡ encodings.smallest_unit encoding }
    ensures some { 1 ≤ result }
    ensures few { result ≤ 16 }
{
    match encoding {
        Encoding::Utf16Be | Encoding::Utf16Le => 16,
        Encoding::Utf8 | Encoding::UsAscii | Encoding::Iso88591 => 8,
    }
}

/// The same of an encoding that may not be told.
pub(crate) fn character_bits(encoding: Option<Encoding>) -> u32
    ensures unit { result ≡ encodings.character_bits encoding }
    ensures some { 1 ≤ result }
    ensures few { result ≤ 16 }
{
    match encoding {
        Some(encoding) => smallest_unit(encoding),
        None => 8,
    }
}

/// Whether an encoding is told that isn't ISO-8859-1.
pub(crate) fn is_other_encoding(encoding: Option<Encoding>) -> bool
    ensures { result ≡ encodings.is_other_encoding encoding }
{
    match encoding {
        Some(Encoding::Iso88591) | None => false,
        Some(Encoding::Utf8 | Encoding::UsAscii | Encoding::Utf16Be | Encoding::Utf16Le) => true,
    }
}
