// The fill around the content of a component.
ghost use Rattle.std.specs.Prelude.{◌≡◌, ◌≤◌, codes};
ghost use Rattle.dfdl_checks.specs.Framing as framings;
ghost use Rattle.dfdl_checks.specs.JudgedShown.{judged_of};
ghost use Rattle.dfdl_scope.specs.Scoping.{told};
ghost use Rattle.dfdl_scope.specs.Shown.{chain_of};
ghost use Rattle.dfdl_scope.specs.Told.{told_by};

use crate::kinds::is_bare;
use crate::purpose::Purpose;
use crate::representations::{is_binary, is_word};
use crate::subject::{Kind, Subject};
use crate::values::number_within;
use dfdl_forms::Simple;
use dfdl_scope::{Asked, Component, literal, property};
use dfdl_terms::{Framing, Statements};

/// The fill around the content of a component, in bits: for unparsing there is none. Takes no memory.
pub fn framing(subject: &Subject<'_, '_, '_>) -> Framing
    ensures { result ≡ framings.framing_of (judged_of subject.now) }
{
    match subject.purpose {
        Purpose::Parsing if is_bare(subject.kind) => Framing::none(),
        Purpose::Parsing => fill_of(subject),
        Purpose::Unparsing => Framing::none(),
    }
}

/// The fill that is told of a component.
fn fill_of(subject: &Subject<'_, '_, '_>) -> Framing
    ensures { result ≡ framings.fill_of (judged_of subject.now) }
{
    Framing {
        before: Statements { first: 0, count: 0 },
        openings: Statements { first: 0, count: 0 },
        settings: Statements { first: 0, count: 0 },
        leading_skip: skip_of(subject, "leadingSkip"),
        alignment: alignment_of(subject),
        initiator: None,
        terminator: None,
        trailing_skip: skip_of(subject, "trailingSkip"),
        behind: Statements { first: 0, count: 0 },
    }
}

/// A skip of a component, by its name, in bits.
fn skip_of(subject: &Subject<'_, '_, '_>, name: &str) -> u32
    ensures { result ≡ framings.skip_of (judged_of subject.now) name.now }
{
    let units = amount_told(0, 0, property(subject.chain, name));
    units * unit_at(subject.chain)
}

/// The alignment of a component, in bits.
fn alignment_of(subject: &Subject<'_, '_, '_>) -> u32
    ensures { result ≡ framings.alignment_of (judged_of subject.now) }
{
    if is_word(subject.chain, "alignment", "implicit") {
        implicit_alignment(subject, subject.kind)
    } else {
        explicit_alignment(subject)
    }
}

/// The alignment that is told of a component as a number, in bits.
fn explicit_alignment(subject: &Subject<'_, '_, '_>) -> u32
    ensures { result ≡ framings.explicit_alignment (judged_of subject.now) }
{
    let units = amount_told(1, 1, property(subject.chain, "alignment"));
    units * unit_at(subject.chain)
}

/// How many bits a unit of a component's fill has.
fn unit_at(chain: &Component<'_, '_>) -> u32
    ensures unit { result ≡ framings.fill_unit (told (chain_of chain.now) (codes "alignmentUnits")) }
    ensures few { result ≤ 8 }
{
    if is_word(chain, "alignmentUnits", "bytes") {
        8
    } else {
        1
    }
}

/// The units of fill that are told, from the least number to 65536, else this number.
fn amount_told(least: u32, otherwise: u32, told: Asked<'_>) -> u32
    requires { otherwise ≤ 65536 }
    ensures amount { result ≡ framings.amount_told least otherwise (told_by told.entry) }
    ensures few { result ≤ 65536 }
{
    match told {
        Asked::Given(written) => amount_of(least, otherwise, literal(written)),
        Asked::Absent => otherwise,
        Asked::Twice { .. } => otherwise,
    }
}

/// The units of fill that digits stand for, from the least number to 65536, else this number.
fn amount_of(least: u32, otherwise: u32, text: &str) -> u32
    requires { otherwise ≤ 65536 }
    ensures amount { result ≡ framings.amount_of least otherwise text.now }
    ensures few { result ≤ 65536 }
{
    match number_within(least, 65536, text) {
        Some(number) => number,
        None => otherwise,
    }
}

/// The implicit alignment of a component of a kind, in bits.
fn implicit_alignment(subject: &Subject<'_, '_, '_>, kind: Kind) -> u32
    ensures { result ≡ framings.implicit_alignment (judged_of subject.now) kind }
{
    match kind {
        Kind::SimpleElement(simple) => simple_alignment(subject, simple),
        Kind::UncarriedElement => 8,
        Kind::ComplexElement
        | Kind::CalculatedElement(_)
        | Kind::Sequence
        | Kind::HiddenSequence
        | Kind::Choice
        | Kind::PrefixNumber(_) => 1,
    }
}

/// The implicit alignment of an element of a simple type, in bits.
fn simple_alignment(subject: &Subject<'_, '_, '_>, simple: Simple) -> u32
    ensures { result ≡ framings.simple_alignment (judged_of subject.now) simple }
{
    if is_binary(subject) {
        type_alignment(simple)
    } else {
        8
    }
}

/// The implicit alignment of a binary number or boolean of the type, in bits.
fn type_alignment(simple: Simple) -> u32
    ensures { result ≡ framings.type_alignment simple }
{
    match simple {
        Simple::Short | Simple::UnsignedShort => 16,
        Simple::Int | Simple::UnsignedInt | Simple::Boolean => 32,
        Simple::Long | Simple::UnsignedLong => 64,
        _ => 8,
    }
}
