// Packed numbers: their representation, nibbles and sign codes.
ghost use Rattle.std.specs.Prelude.{◌≡◌, ◌*◌, length, codes};
ghost use Rattle.dfdl_forms.specs.Packed as forms;
ghost use Rattle.dfdl_checks.specs.JudgedShown.{judged_of};
ghost use Rattle.dfdl_checks.specs.Lengths as lengths;
ghost use Rattle.dfdl_checks.specs.Packed as packed;
ghost use Rattle.dfdl_scope.specs.Scoping.{told};
ghost use Rattle.dfdl_scope.specs.Shown.{chain_of};
ghost use Rattle.dfdl_scope.specs.Told.{told_by};

use crate::lengths::constant_size;
use crate::representations::{is_binary_number, is_word};
use crate::subject::Subject;
use dfdl_forms::PackedRep;
use dfdl_scope::{Asked, Component, literal};

/// The packed representation of a component, if it is a binary number that has one.
pub(crate) fn rep_of(subject: &Subject<'_, '_, '_>) -> Option<PackedRep>
    ensures { result ≡ packed.rep_of (judged_of subject.now) }
{
    if !is_binary_number(subject) {
        return None;
    }
    rep_told(subject.chain)
}

/// The packed representation that a chain gives, if it gives one.
fn rep_told(chain: &Component<'_, '_>) -> Option<PackedRep>
    ensures { result ≡ packed.rep_told (told (chain_of chain.now) (codes "binaryNumberRep")) }
{
    if is_word(chain, "binaryNumberRep", "packed") {
        return Some(PackedRep::Packed);
    }
    if is_word(chain, "binaryNumberRep", "bcd") {
        return Some(PackedRep::Bcd);
    }
    if is_word(chain, "binaryNumberRep", "ibm4690Packed") {
        return Some(PackedRep::Ibm4690);
    }
    None
}

/// The nibbles of the length that a chain gives, where it is a number and a field of the representation
/// can have it.
pub(crate) fn constant_nibbles(rep: PackedRep, chain: &Component<'_, '_>) -> Option<u32>
    ensures { result ≡ packed.nibbles_within rep (lengths.length_in (lengths.unit_bits (told (chain_of chain.now) (codes "lengthUnits")))
        (lengths.number_told (told (chain_of chain.now) (codes "length")))) }
{
    nibbles_in(constant_size(most_size(rep), chain))
}

/// The nibbles of a length, where they are whole.
fn nibbles_in(size: Option<u32>) -> Option<u32>
    ensures { result ≡ packed.nibbles_in size }
{
    match size {
        Some(bits) => whole_nibbles(bits),
        None => None,
    }
}

/// The nibbles of so many bits, where they are whole.
fn whole_nibbles(bits: u32) -> Option<u32>
    ensures { result ≡ packed.whole_nibbles bits }
{
    if bits % 4 == 0 { Some(bits / 4) } else { None }
}

/// How many bits a field of a representation has at most.
fn most_size(rep: PackedRep) -> u32
    ensures { result ≡ 4 * forms.most_nibbles rep }
{
    match rep {
        PackedRep::Bcd => 152,
        PackedRep::Packed | PackedRep::Ibm4690 => 156,
    }
}

/// The sign codes of a representation, by what is told of them.
pub(crate) fn codes_for(rep: PackedRep, told: Asked<'_>) -> Option<[u8; 4]>
    ensures { result ≡ packed.codes_for rep (told_by told.entry) }
{
    match rep {
        PackedRep::Packed => codes_told(told),
        PackedRep::Bcd | PackedRep::Ibm4690 => Some([12, 13, 15, 12]),
    }
}

/// The sign codes that are told, where they are four that are allowed.
pub(crate) fn codes_told(told: Asked<'_>) -> Option<[u8; 4]>
    ensures { result ≡ packed.codes_told (told_by told.entry) }
{
    match told {
        Asked::Given(written) => codes_of_text(literal(written)),
        Asked::Absent => Some([12, 13, 15, 12]),
        Asked::Twice { .. } => None,
    }
}

/// The sign codes of a text: four that are allowed, with a space between each two of them.
fn codes_of_text(text: &str) -> Option<[u8; 4]>
    ensures { result ≡ packed.codes_of_text text.now }
{
    codes_of_bytes(text.as_bytes())
}

/// The same, of its bytes.
fn codes_of_bytes(text: &[u8]) -> Option<[u8; 4]>
    ensures { result ≡ packed.codes_of_text text.now }
{
    if !are_four(text) {
        return None;
    }
    allowed_codes(codes_in(text))
}

/// Whether a text has four characters, with a space between each two of them.
fn are_four(text: &[u8]) -> bool
    ensures { result ≡ packed.are_four text.now }
{
    text.len() == 7 && text[1] == b' ' && text[3] == b' ' && text[5] == b' '
}

/// The codes that four characters of a text stand for.
fn codes_in(text: &[u8]) -> [u8; 4]
    requires { length text.now ≡ 7 }
    ensures { result ≡ packed.codes_in text.now }
{
    [
        code_of(text[0]),
        code_of(text[2]),
        code_of(text[4]),
        code_of(text[6]),
    ]
}

/// The code that a character stands for, one that there is not for every character but 0 and A to F.
fn code_of(c: u8) -> u8
    ensures { result ≡ packed.code_of c }
{
    if c == b'0' {
        0
    } else if b'A' <= c && c <= b'F' {
        c - 55
    } else {
        16
    }
}

/// Four codes, where they are allowed.
fn allowed_codes(four: [u8; 4]) -> Option<[u8; 4]>
    ensures { result ≡ packed.allowed_codes four }
{
    if are_allowed(four) { Some(four) } else { None }
}

/// Whether four sign codes are allowed.
fn are_allowed(four: [u8; 4]) -> bool
    ensures { result ≡ forms.are_allowed four }
{
    is_positive_code(four[0])
        && (four[1] == 11 || four[1] == 13)
        && four[2] == 15
        && (is_positive_code(four[3]) || four[3] == 0)
}

/// Whether it is a code of a positive number.
fn is_positive_code(code: u8) -> bool
    ensures { result ≡ forms.is_positive_code code }
{
    code == 10 || code == 12 || code == 14 || code == 15
}

/// Whether the listed codes alone are read in a representation, by the policy that a chain gives.
pub(crate) fn is_strict(rep: PackedRep, chain: &Component<'_, '_>) -> bool
    ensures { result ≡ packed.is_strict rep (told (chain_of chain.now) (codes "binaryNumberCheckPolicy")) }
{
    match rep {
        PackedRep::Packed => is_word(chain, "binaryNumberCheckPolicy", "strict"),
        PackedRep::Bcd | PackedRep::Ibm4690 => false,
    }
}
