// The numbers of the statements of the components of a schema.
ghost use Rattle.std.specs.Prelude.{◌≡◌, ◌+◌, length, IfOk};
ghost use Rattle.dfdl_compile.specs.Delimiters as delimiters;
ghost use Rattle.dfdl_compile.specs.Statements as spec;

use dfdl_breaches::Judgement;
use dfdl_chains::Setter;
use dfdl_checks::{Kind, MeasureForm};
use dfdl_terms::Statements;
use dfdl_value::TextValue;
use std::alloc::AllocError;

// A count. There is no memory for 2^32 statements.
fn number(count: usize) -> Result<u32, AllocError>
    ensures { IfOk result (λ number. number ≡ count) }
{
    match u32::try_from(count) {
        Ok(number) => Ok(number),
        Err(_) => Err(AllocError),
    }
}

// A sum of counts.
fn sum(first: u32, second: u32) -> Result<u32, AllocError>
    ensures { IfOk result (λ sum. sum ≡ first + second) }
{
    match first.checked_add(second) {
        Some(sum) => Ok(sum),
        None => Err(AllocError),
    }
}

// How many tests of patterns there are, how many set variables, how many of these open instances, and how many others there are behind a content.
#[derive(Clone, Copy)]
struct Counts {
    tests: u32,
    settings: u32,
    openings: u32,
    behind: u32,
}

// How many of those that set variables open instances.
fn opening_count(setters: &[Setter]) -> usize
    ensures { result ≡ spec.opening_count setters.now }
{
    let mut count = 0usize;
    for setter in setters {
        if setter.opens {
            count += 1;
        }
    }
    count
}

// How many statements there are of an expression.
fn count_if(text: &Option<TextValue>) -> u32
    ensures { result ≡ spec.count_if text.now }
{
    match text {
        Some(_) => 1,
        None => 0,
    }
}

// How many statements behind its content, besides what sets variables, an element has of which this is told.
fn count_behind(judgement: &Judgement) -> Result<u32, AllocError>
    ensures { IfOk result (λ count. count ≡ spec.count_behind judgement.now) }
{
    let checks = number(judgement.checks.as_slice().len())?;
    sum(checks, count_if(&judgement.output))
}

// Those of an element of which this is told.
fn counted(judgement: &Judgement) -> Result<Counts, AllocError>
    ensures tests { IfOk result (λ counts. counts.tests ≡ length judgement.now.tests) }
    ensures settings { IfOk result (λ counts. counts.settings ≡ length judgement.now.settings) }
    ensures openings { IfOk result (λ counts. counts.openings ≡ spec.opening_count judgement.now.settings) }
    ensures behind { IfOk result (λ counts. counts.behind ≡ spec.count_behind judgement.now) }
{
    let tests = number(judgement.tests.as_slice().len())?;
    let settings = number(judgement.settings.as_slice().len())?;
    let openings = number(opening_count(judgement.settings.as_slice()))?;
    let behind = count_behind(judgement)?;
    Ok(Counts {
        tests,
        settings,
        openings,
        behind,
    })
}

/// Whether a component of a kind sets variables before all else.
pub(crate) fn is_set_first(kind: Kind) -> bool
    ensures { result ≡ spec.is_set_first kind }
{
    match kind {
        Kind::ComplexElement
        | Kind::SimpleElement(_)
        | Kind::UncarriedElement
        | Kind::CalculatedElement(_) => false,
        Kind::Sequence | Kind::HiddenSequence | Kind::Choice | Kind::PrefixNumber(_) => true,
    }
}

// So many settings, if they stand before all else.
fn if_first(is_first: bool, count: u32) -> u32
    ensures { result ≡ spec.if_first is_first count }
{
    if is_first { count } else { 0 }
}

// So many settings, if they stand behind all.
fn if_last(is_first: bool, count: u32) -> u32
    ensures { result ≡ spec.if_last is_first count }
{
    if is_first { 0 } else { count }
}

// The tests of patterns of a component of which this is told, where its first statement has this number.
fn before_by(first: u32, judgement: &Judgement) -> Result<Statements, AllocError>
    ensures { IfOk result (λ before. before ≡ spec.before_by first judgement.now) }
{
    let counts = counted(judgement)?;
    Ok(Statements {
        first,
        count: counts.tests,
    })
}

// What opens instances of variables where it begins.
fn openings_by(is_first: bool, first: u32, judgement: &Judgement) -> Result<Statements, AllocError>
    ensures { IfOk result (λ openings. openings ≡ spec.openings_by is_first first judgement.now) }
{
    let counts = counted(judgement)?;
    Ok(Statements {
        first: sum(first, counts.tests)?,
        count: if_first(is_first, counts.openings),
    })
}

// What sets variables where it begins.
fn settings_by(is_first: bool, first: u32, judgement: &Judgement) -> Result<Statements, AllocError>
    ensures { IfOk result (λ settings. settings ≡ spec.settings_by is_first first judgement.now) }
{
    let counts = counted(judgement)?;
    let before = sum(counts.tests, counts.openings)?;
    let settings = counts.settings.saturating_sub(counts.openings);
    Ok(Statements {
        first: sum(first, before)?,
        count: if_first(is_first, settings),
    })
}

// The statements behind it.
fn behind_by(is_first: bool, first: u32, judgement: &Judgement) -> Result<Statements, AllocError>
    ensures { IfOk result (λ behind. behind ≡ spec.behind_by is_first first judgement.now) }
{
    let counts = counted(judgement)?;
    let before = sum(counts.tests, if_first(is_first, counts.settings))?;
    let first = sum(first, before)?;
    let count = sum(if_last(is_first, counts.settings), counts.behind)?;
    Ok(Statements { first, count })
}

/// The statements around the content of a component.
#[derive(Clone, Copy)]
pub(crate) struct StatedAround {
    pub(crate) before: Statements,
    pub(crate) openings: Statements,
    pub(crate) settings: Statements,
    pub(crate) behind: Statements,
}

/// Those of a component of which this is told, where its first one has this number, and it sets variables before all else or behind all.
pub(crate) fn stated_around(
    is_first: bool,
    first: u32,
    judgement: &Judgement,
) -> Result<StatedAround, AllocError>
    ensures { IfOk result (λ stated. stated ≡ delimiters.stated_around is_first first judgement.now) }
{
    let before = before_by(first, judgement)?;
    let openings = openings_by(is_first, first, judgement)?;
    let settings = settings_by(is_first, first, judgement)?;
    let behind = behind_by(is_first, first, judgement)?;
    Ok(StatedAround {
        before,
        openings,
        settings,
        behind,
    })
}

// How many statements an element has of which this is told before those that its rows ask for by their numbers.
fn count_others(judgement: &Judgement) -> Result<u32, AllocError>
    ensures { IfOk result (λ count. count ≡ spec.count_others judgement.now) }
{
    let counts = counted(judgement)?;
    let others = sum(counts.settings, counts.behind)?;
    sum(counts.tests, others)
}

// How many there are of a length by an expression.
fn count_measure(measure: &Option<MeasureForm>) -> u32
    ensures { result ≡ spec.count_if measure.now }
{
    match measure {
        Some(_) => 1,
        None => 0,
    }
}

/// The number of the calculation of the value of an element of which this is told, where its first statement has this number.
pub(crate) fn calculation_number(first: u32, judgement: &Judgement) -> Result<u32, AllocError>
    ensures { IfOk result (λ number. number ≡ spec.calculation_number first judgement.now) }
{
    let others = count_others(judgement)?;
    sum(first, others)
}

/// The number of the question how long the content of such an element is.
pub(crate) fn measure_number(first: u32, judgement: &Judgement) -> Result<u32, AllocError>
    ensures { IfOk result (λ number. number ≡ spec.measure_number first judgement.now) }
{
    let calculation = calculation_number(first, judgement)?;
    sum(calculation, count_if(&judgement.calculation))
}

/// The number of the question how often such an element occurs.
pub(crate) fn count_number(first: u32, judgement: &Judgement) -> Result<u32, AllocError>
    ensures { IfOk result (λ number. number ≡ spec.count_number first judgement.now) }
{
    let measure = measure_number(first, judgement)?;
    sum(measure, count_measure(&judgement.measure))
}

/// The number of the question which branch of such a component is taken.
pub(crate) fn key_number(first: u32, judgement: &Judgement) -> Result<u32, AllocError>
    ensures { IfOk result (λ number. number ≡ spec.key_number first judgement.now) }
{
    let count = count_number(first, judgement)?;
    sum(count, count_if(&judgement.count))
}

/// The number of the first statement behind those of an element of which this is told, where its first has this number.
pub(crate) fn first_behind(first: u32, judgement: &Judgement) -> Result<u32, AllocError>
    ensures { IfOk result (λ behind. behind ≡ first + spec.count_by judgement.now) }
{
    let key = key_number(first, judgement)?;
    sum(key, count_if(&judgement.key))
}
