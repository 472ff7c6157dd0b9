// The values of elements that are calculated.
ghost use Rattle.std.specs.Prelude.{◌≡◌, ◌&&◌, codes, option_copied};
ghost use Rattle.dfdl_checks.specs.Calculations as spec;
ghost use Rattle.dfdl_checks.specs.JudgedShown.{facts_judged_of, judged_of};
ghost use Rattle.dfdl_checks.specs.Subjects.{is_expression_told};
ghost use Rattle.dfdl_scope.specs.Scoping.{told};
ghost use Rattle.dfdl_scope.specs.Shown.{chain_of};
ghost use Rattle.dfdl_scope.specs.Told.{told_by};

use crate::kinds::is_any_element;
use crate::occurring::is_once;
use crate::purpose::Purpose;
use crate::representations::is_expression_told;
use crate::subject::{Facts, Kind, Subject};
use dfdl_scope::{Asked, Component, property};

/// The kind of a component that states this, and whose properties are asked of this chain: for parsing an element with an
/// expression inputValueCalc is one whose value is calculated.
pub fn kind_for(purpose: Purpose, facts: Facts<'_>, chain: &Component<'_, '_>, kind: Kind) -> Kind
    ensures { result ≡ spec.kind_for purpose (facts_judged_of facts.entry) (chain_of chain.now) kind }
{
    match purpose {
        Purpose::Parsing => kind_where(is_calculated_by(facts, chain), kind),
        Purpose::Unparsing => kind,
    }
}

/// The expression by which a component's value is calculated, as it is written, if it is.
pub fn calculation<'c>(subject: &Subject<'_, '_, 'c>) -> Option<&'c str>
    ensures { option_copied result ≡ spec.calculation_of (judged_of subject.now) }
{
    match subject.kind {
        Kind::CalculatedElement(_) => written_told(property(subject.chain, "inputValueCalc")),
        _ => None,
    }
}

/// The expression by which a component's value is calculated for writing, as it is written, if it is; it is told for parsing alone.
pub fn output_calculation<'c>(subject: &Subject<'_, '_, 'c>) -> Option<&'c str>
    ensures { option_copied result ≡ spec.output_of (judged_of subject.now) }
{
    match subject.purpose {
        Purpose::Parsing => output_parsed(subject),
        Purpose::Unparsing => None,
    }
}

// The same for parsing.
fn output_parsed<'c>(subject: &Subject<'_, '_, 'c>) -> Option<&'c str>
    ensures { option_copied result ≡ spec.output_for Purpose.Parsing (judged_of subject.now) }
{
    let told = property(subject.chain, "outputValueCalc");
    if !(is_single(subject.facts) && is_expression_told(told)) {
        return None;
    }
    match subject.kind {
        Kind::SimpleElement(_) | Kind::CalculatedElement(_) => {
            written_told(property(subject.chain, "outputValueCalc"))
        }
        _ => None,
    }
}

/// Whether inputValueCalc or outputValueCalc stands at an element where none may, or both at one element.
pub(crate) fn is_calculation_not_allowed(subject: &Subject<'_, '_, '_>) -> bool
    ensures { result ≡ spec.is_calculation_not_allowed (judged_of subject.now) }
{
    if !is_any_element(subject.kind) {
        return false;
    }
    let has_input = has_input(subject);
    let has_output = has_output(subject);
    ((has_input || has_output) && !may_be_calculated(subject)) || (has_input && has_output)
}

// Whether inputValueCalc is told of a component.
fn has_input(subject: &Subject<'_, '_, '_>) -> bool
    ensures { result ≡ spec.has_input (judged_of subject.now) }
{
    is_given(property(subject.chain, "inputValueCalc"))
}

// Whether outputValueCalc is told of a component.
fn has_output(subject: &Subject<'_, '_, '_>) -> bool
    ensures { result ≡ spec.has_output (judged_of subject.now) }
{
    is_given(property(subject.chain, "outputValueCalc"))
}

// Whether one of them may be.
fn may_be_calculated(subject: &Subject<'_, '_, '_>) -> bool
    ensures { result ≡ spec.may_be_calculated (judged_of subject.now) }
{
    is_of_simple_type(subject.kind) && is_single(subject.facts)
}

// Whether it is an element of a simple type.
fn is_of_simple_type(kind: Kind) -> bool
    ensures { result ≡ spec.is_of_simple_type kind }
{
    match kind {
        Kind::SimpleElement(_) | Kind::UncarriedElement | Kind::CalculatedElement(_) => true,
        _ => false,
    }
}

// Whether a component that states this is an element that is declared where it stands, is required and occurs once.
fn is_single(facts: Facts<'_>) -> bool
    ensures { result ≡ spec.is_single (facts_judged_of facts.entry) }
{
    facts.is_local && is_once(facts.bounds)
}

// Whether the value of a component that states this, and whose properties are asked of this chain, is calculated.
fn is_calculated_by(facts: Facts<'_>, chain: &Component<'_, '_>) -> bool
    ensures { result ≡ (spec.is_single (facts_judged_of facts.entry) && is_expression_told (told (chain_of chain.now) (codes "inputValueCalc"))) }
{
    is_single(facts) && is_expression_told(property(chain, "inputValueCalc"))
}

// The kind of an element whose value is calculated, where its type is simple and carried.
fn kind_where(is_calculated: bool, kind: Kind) -> Kind
    ensures { result ≡ spec.kind_where is_calculated kind }
{
    if !is_calculated {
        return kind;
    }
    match kind {
        Kind::SimpleElement(simple) => Kind::CalculatedElement(simple),
        other => other,
    }
}

// Whether something is told.
pub(crate) fn is_given(told: Asked<'_>) -> bool
    ensures { result ≡ spec.is_given (told_by told.entry) }
{
    match told {
        Asked::Given(_) => true,
        Asked::Absent => false,
        Asked::Twice { .. } => false,
    }
}

// What is told, as it is written.
pub(crate) fn written_told<'c>(told: Asked<'c>) -> Option<&'c str>
    ensures { option_copied result ≡ spec.written_told (told_by told.entry) }
{
    match told {
        Asked::Given(written) => Some(written),
        Asked::Absent => None,
        Asked::Twice { .. } => None,
    }
}
