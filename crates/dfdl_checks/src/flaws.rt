// Which flaws the properties of a component have.
ghost use Rattle.std.specs.Prelude.{◌≡◌, map};
ghost use Rattle.std.specs.List.{list_any};
ghost use Rattle.dfdl_checks.specs.JudgedShown.{judged_of};
ghost use Rattle.dfdl_checks.specs.Flaws as flaws;
ghost use Rattle.dfdl_checks.specs.Table.{built_for, is_built};
ghost use Rattle.dfdl_checks.specs.TableShown.{applicability_shown, built_shown};
ghost use Rattle.dfdl_scope.specs.TableShown.{row_shown};
ghost use Rattle.dfdl_scope.specs.Told.{told_by};

use crate::applicability::{Applicability, Built};
use crate::applying::is_bearer;
use crate::flaw::Flaw;
use crate::purpose::Purpose;
use crate::subject::Subject;
use crate::table::applicabilities;
use crate::values::{is_among, is_number, is_value, is_within, takes_expressions};
use dfdl_scope::{Absence, Asked, PropertyRow, is_expression, literal, property, property_row};

/// Whether some property that applies to a component has the flaw there.
pub(crate) fn has_flaw(flaw: Flaw, subject: &Subject<'_, '_, '_>) -> bool
    ensures { result ≡ flaws.has_flaw flaw (judged_of subject.now) }
{
    is_flawed_by_some(flaw, subject, applicabilities())
}

/// The same, for these properties.
fn is_flawed_by_some(flaw: Flaw, subject: &Subject<'_, '_, '_>, rows: &[Applicability]) -> bool
    ensures { result ≡ list_any (flaws.is_flawed_at flaw (judged_of subject.now)) (map applicability_shown rows.now) }
{
    for row in rows {
        if is_flawed_at(flaw, subject, row) {
            return true;
        }
    }
    false
}

/// Whether a property applies to a component and has the flaw there.
#[tactic(auto, unfolding(crate::specs::Flaws::is_flawed_at))]
fn is_flawed_at(flaw: Flaw, subject: &Subject<'_, '_, '_>, row: &Applicability) -> bool
    ensures { result ≡ flaws.is_flawed_at flaw (judged_of subject.now) (applicability_shown row.now) }
{
    if !is_bearer(row.bearers, subject) {
        return false;
    }
    match property_row(row.name) {
        Some(of_profile) => is_flawed(
            flaw,
            of_profile,
            built_for(subject.purpose, row),
            property(subject.chain, row.name),
        ),
        None => false,
    }
}

/// The values that are built for a purpose.
fn built_for(purpose: Purpose, row: &Applicability) -> Built
    ensures { built_shown result ≡ built_for purpose (applicability_shown row.now) }
{
    match purpose {
        Purpose::Parsing => row.parsing,
        Purpose::Unparsing => row.unparsing,
    }
}

/// Whether a property of which this is told has the flaw.
fn is_flawed(flaw: Flaw, row: &PropertyRow, built: Built, told: Asked<'_>) -> bool
    ensures { result ≡ flaws.is_flawed flaw (row_shown row.now) (built_shown built) (told_by told.entry) }
{
    match told {
        Asked::Given(written) => is_value_flawed(flaw, row, built, written),
        Asked::Absent => is_absence_flawed(flaw, row, built),
        Asked::Twice { .. } => false,
    }
}

/// Whether a property that no scope gives has the flaw.
fn is_absence_flawed(flaw: Flaw, row: &PropertyRow, built: Built) -> bool
    ensures { result ≡ flaws.is_absence_flawed flaw (row_shown row.now) (built_shown built) (row_shown row.now).absent }
{
    match row.absent {
        Absence::Value(value) => is_value_flawed(flaw, row, built, value),
        Absence::Missing => is_missing(flaw),
        Absence::MissingKey => false,
        Absence::Nothing => false,
    }
}

/// Whether the flaw is that the property is missing.
fn is_missing(flaw: Flaw) -> bool
    ensures { result ≡ flaws.is_missing flaw }
{
    match flaw {
        Flaw::Missing => true,
        _ => false,
    }
}

/// Whether a value, as it is written, has the flaw.
fn is_value_flawed(flaw: Flaw, row: &PropertyRow, built: Built, written: &str) -> bool
    ensures { result ≡ flaws.is_value_flawed flaw (row_shown row.now) (built_shown built) written.now }
{
    match flaw {
        Flaw::Unbuilt => is_value(row.values, written) && !is_built(built, literal(written)),
        Flaw::Missing => false,
        Flaw::NotCarried => !is_expression(written) && !is_value(row.values, written),
        Flaw::Expression => is_expression(written) && !takes_expressions(row.values),
    }
}

/// Whether a text is a value that is built.
fn is_built(built: Built, text: &str) -> bool
    ensures { result ≡ is_built (built_shown built) text.now }
{
    match built {
        Built::Words(words) => is_among(words, text),
        Built::Number(number) => is_within(number, number, text),
        Built::EachNumber => is_number(text),
        Built::EveryValue => true,
        Built::NoValue => false,
    }
}
