// Statements over small rows: r has x, an int, and in the group of r something is set; behind x and behind r there are tests.
#![tactic(auto)]

ghost use Rattle.std.specs.Prelude.{◌≡◌, ◌<◌, ◌^◌, IfOk, length};

use crate::{
    Asked, GivenRefusal, Refusal, Sight, Source, StatementFault, Target, Written, declare, settle,
};
use dfdl_expression_types::Variable;
use dfdl_report::{Place, SchemaCause};
use dfdl_terms::{
    LengthUnit, Measure, Representations, Row, RowId, RowList, Statement, Statements, WhereTried,
};
use dfdl_value::{Simple, TextValue};
use std::alloc::{AllocError, Global};
use std::collections::BTreeMap;
use std::test::Fail;

fn element(
    alloc: Global,
    name: &str,
    simple: Option<Simple>,
    first: u32,
    body: u32,
) -> Result<Row, AllocError> {
    Ok(Row::Elem {
        name: TextValue::from_str(alloc, name)?,
        simple,
        tried: Representations {
            nil: None,
            empty: None,
            refuses_empty: false,
            are_several: false,
            where_tried: WhereTried {
                empty: None,
                refuses_empty: false,
                are_several: false,
            },
        },
        behind: Statements { first, count: 1 },
        body: RowId::new(body),
    })
}

fn rows(alloc: Global) -> Result<Vec<Row>, AllocError>
    ensures { IfOk result (λ all. length all.items ≡ 5) }
{
    let mut all = Vec::new(alloc);
    all.push(Row::Leaf { prim: 0 })?;
    all.push(element(alloc, "x", Some(Simple::Int), 0, 0)?)?;
    all.push(Row::Statement { statement: 1 })?;
    let children = Vec::from_slice(alloc, &[RowId::new(2), RowId::new(1)])?;
    all.push(Row::Group {
        children: RowList::new(children),
    })?;
    all.push(element(alloc, "r", None, 2, 3)?)?;
    Ok(all)
}

// x alone.
fn rows_of_one(alloc: Global) -> Result<Vec<Row>, AllocError>
    ensures { IfOk result (λ all. length all.items ≡ 2) }
{
    let mut all = Vec::new(alloc);
    all.push(Row::Leaf { prim: 0 })?;
    all.push(element(alloc, "x", Some(Simple::Int), 0, 0)?)?;
    Ok(all)
}

fn variables(alloc: Global) -> Result<BTreeMap<String, Variable>, AllocError> {
    let mut map = BTreeMap::new(alloc);
    let variable = Variable {
        number: 0,
        simple: Simple::Int,
    };
    map.insert(String::from_str(alloc, "v")?, variable)?;
    Ok(map)
}

fn test(alloc: Global, text: &str) -> Result<Source, AllocError> {
    Ok(Source::Test {
        text: TextValue::from_str(alloc, text)?,
        discriminates: false,
        message: None,
    })
}

fn setting(alloc: Global, text: &str) -> Result<Source, AllocError> {
    Ok(Source::Setting {
        variable: Some(Target {
            number: 0,
            kind: Simple::Int,
        }),
        text: TextValue::from_str(alloc, text)?,
    })
}

fn written<'s>(source: Source, at: u64, prefixes: &'s BTreeMap<String, String>) -> Written<'s> {
    Written {
        source,
        place: Place { document: 0, at },
        prefixes,
    }
}

// The number of a refusal's cause, and its place. Both are 0 where all statements are made.
#[derive(Clone, Copy)]
struct Answer {
    cause: u8,
    at: u64,
}

fn answer_of(answer: Result<Vec<Statement>, StatementFault>) -> Result<Answer, AllocError> {
    match answer {
        Ok(_) => Ok(Answer { cause: 0, at: 0 }),
        Err(StatementFault::Refused(refusal)) => Ok(Answer {
            cause: refusal.cause.number(),
            at: refusal.place.at,
        }),
        Err(StatementFault::OutOfMemory) => Err(AllocError),
    }
}

// What statements of rows come to, where a refusal of another kind may be given.
fn settled(
    alloc: Global,
    rows: &[Row],
    all: Vec<Written<'_>>,
    given: Option<GivenRefusal>,
) -> Result<Answer, AllocError>
    requires { length rows.now < 2 ^ 32 }
{
    let variables = variables(alloc)?;
    let declared = declare(alloc, rows)?;
    let sight = Sight {
        elements: declared.elements.as_slice(),
        names: &declared.names,
        variables: &variables,
    };
    answer_of(settle(alloc, rows, &sight, all, given))
}

// What three statements come to.
fn told(alloc: Global, first: &str, set: &str, last: &str) -> Result<Answer, AllocError> {
    told_with(alloc, first, set, last, None)
}

// The same, where a refusal of another kind may be given.
fn told_with(
    alloc: Global,
    first: &str,
    set: &str,
    last: &str,
    given: Option<GivenRefusal>,
) -> Result<Answer, AllocError> {
    let prefixes = BTreeMap::new(alloc);
    let rows = rows(alloc)?;
    let mut all = Vec::new(alloc);
    all.push(written(test(alloc, first)?, 1, &prefixes))?;
    all.push(written(setting(alloc, set)?, 2, &prefixes))?;
    all.push(written(test(alloc, last)?, 3, &prefixes))?;
    settled(alloc, rows.as_slice(), all, given)
}

fn are_made(alloc: Global, first: &str, set: &str, last: &str) -> Result<bool, AllocError> {
    let told = told(alloc, first, set, last)?;
    Ok(told.cause == 0)
}

// The test behind x is refused for this cause.
fn is_refused(alloc: Global, first: &str, cause: u8) -> Result<bool, AllocError> {
    let told = told(alloc, first, "{ 5 }", "{ x lt 5 }")?;
    Ok(told.cause == cause && told.at == 1)
}

// The setting is refused for this cause.
fn is_setting_refused(alloc: Global, set: &str, cause: u8) -> Result<bool, AllocError> {
    let told = told(alloc, "{ . gt 0 }", set, "{ x lt 5 }")?;
    Ok(told.cause == cause && told.at == 2)
}

// The test behind r is refused for this cause, and what is set for one with a higher number.
fn is_last_refused(alloc: Global, first: &str, last: &str, cause: u8) -> Result<bool, AllocError> {
    let told = told(alloc, first, "a", last)?;
    Ok(told.cause == cause && told.at == 3)
}

#[test]
fn statements_are_made(rt: HostRuntime) -> Result<(), Fail> {
    let alloc = rt.alloc();
    assert!(&rt; are_made(alloc, "{ . gt 0 }", "{ 5 }", "{ /r/x lt 5 }")?);
    assert!(&rt; are_made(alloc, "{ ../x gt 0 }", "-7", "{ $v eq x }")?);
    assert!(&rt; are_made(alloc, "{ fn:not(. gt 0) }", "{ 5 }", "{ x lt 5 }")?);
    assert!(&rt; are_made(alloc, "{ . gt 0 }", "{ ../x }", "{ x lt 5 }")?);
    Ok(())
}

#[test]
fn tests_are_refused(rt: HostRuntime) -> Result<(), Fail> {
    let alloc = rt.alloc();
    assert!(&rt; is_refused(alloc, ". gt 0", 34)?);
    assert!(&rt; is_refused(alloc, "{ . gt }", 34)?);
    assert!(&rt; is_refused(alloc, "{ q:not(. gt 0) }", 34)?);
    assert!(&rt; is_refused(alloc, "{ . gt $q:v }", 34)?);
    assert!(&rt; is_refused(alloc, "{ . gt 'a' }", 35)?);
    assert!(&rt; is_refused(alloc, "{ . + 1 }", 35)?);
    assert!(&rt; is_refused(alloc, "{ x gt 0 }", 36)?);
    assert!(&rt; is_refused(alloc, "{ . gt $w }", 37)?);
    Ok(())
}

#[test]
fn settings_are_refused(rt: HostRuntime) -> Result<(), Fail> {
    let alloc = rt.alloc();
    assert!(&rt; is_setting_refused(alloc, "{ 'a' }", 35)?);
    assert!(&rt; is_setting_refused(alloc, "a", 37)?);
    assert!(&rt; is_setting_refused(alloc, "{{ 5 }", 37)?);
    assert!(&rt; is_setting_refused(alloc, "{ x }", 36)?);
    assert!(&rt; is_setting_refused(alloc, "{ ../r/x }", 36)?);
    Ok(())
}

#[test]
fn the_outermost_refusal_is_told(rt: HostRuntime) -> Result<(), Fail> {
    let alloc = rt.alloc();
    assert!(&rt; is_last_refused(alloc, "{ . gt 0 }", "{ y lt 5 }", 36)?);
    assert!(&rt; is_last_refused(alloc, "{ . gt }", "{ x lt }", 34)?);
    let length = "{ dfdl:valueLength(x, 'bits') lt 5 }";
    assert!(&rt; is_last_refused(alloc, "{ . gt 0 }", length, 34)?);
    Ok(())
}

// What two statements come to of which no row has the second.
fn told_of_one(alloc: Global, first: &str, other: &str) -> Result<Answer, AllocError> {
    let prefixes = BTreeMap::new(alloc);
    let rows = rows_of_one(alloc)?;
    let mut all = Vec::new(alloc);
    all.push(written(test(alloc, first)?, 1, &prefixes))?;
    all.push(written(test(alloc, other)?, 2, &prefixes))?;
    settled(alloc, rows.as_slice(), all, None)
}

fn one_is_refused(
    alloc: Global,
    first: &str,
    other: &str,
    cause: u8,
    at: u64,
) -> Result<bool, AllocError> {
    let told = told_of_one(alloc, first, other)?;
    Ok(told.cause == cause && told.at == at)
}

#[test]
fn statements_without_a_row_are_never_refused(rt: HostRuntime) -> Result<(), Fail> {
    let alloc = rt.alloc();
    assert!(&rt; one_is_refused(alloc, "{ . gt 0 }", "{ ../y gt }", 0, 0)?);
    assert!(&rt; one_is_refused(alloc, "{ y gt 0 }", "{ . gt 0 }", 36, 1)?);
    Ok(())
}

// r has so many x as a count tells, and each x is so long as a length tells.
fn asking_rows(alloc: Global) -> Result<Vec<Row>, AllocError>
    ensures { IfOk result (λ all. length all.items ≡ 4) }
{
    let measure = Measure {
        question: 1,
        unit: LengthUnit::Bytes,
    };
    let body = RowId::new(1);
    let mut all = Vec::new(alloc);
    all.push(Row::MeasuredLeaf { measure, prim: 0 })?;
    all.push(element(alloc, "x", Some(Simple::Int), 0, 0)?)?;
    all.push(Row::Counted { question: 2, body })?;
    all.push(element(alloc, "r", None, 3, 2)?)?;
    Ok(all)
}

fn question(alloc: Global, asked: Asked, text: &str) -> Result<Source, AllocError> {
    Ok(Source::Question {
        asked,
        text: TextValue::from_str(alloc, text)?,
    })
}

// What a length and a count come to, where a refusal of another kind may be given.
fn told_of_questions(
    alloc: Global,
    length: &str,
    count: &str,
    given: Option<GivenRefusal>,
) -> Result<Answer, AllocError> {
    let prefixes = BTreeMap::new(alloc);
    let rows = asking_rows(alloc)?;
    let mut all = Vec::new(alloc);
    all.push(written(test(alloc, "{ . gt 0 }")?, 1, &prefixes))?;
    all.push(written(question(alloc, Asked::Length, length)?, 2, &prefixes))?;
    all.push(written(question(alloc, Asked::Count, count)?, 3, &prefixes))?;
    all.push(written(test(alloc, "{ x gt 0 }")?, 4, &prefixes))?;
    settled(alloc, rows.as_slice(), all, given)
}

fn questions_come_to(
    alloc: Global,
    length: &str,
    count: &str,
    cause: u8,
    at: u64,
) -> Result<bool, AllocError> {
    let told = told_of_questions(alloc, length, count, None)?;
    Ok(told.cause == cause && told.at == at)
}

#[test]
fn questions_are_made_or_refused(rt: HostRuntime) -> Result<(), Fail> {
    let alloc = rt.alloc();
    assert!(&rt; questions_come_to(alloc, "{ . }", "{ 2 }", 0, 0)?);
    assert!(&rt; questions_come_to(alloc, "{ 'a' }", "{ ../x }", 35, 2)?);
    assert!(&rt; questions_come_to(alloc, "{ ../x }", "{ x }", 36, 3)?);
    assert!(&rt; questions_come_to(alloc, "{ 2 }", "2", 34, 3)?);
    assert!(&rt; questions_come_to(alloc, "{ 2 gt }", "{ 'a' }", 35, 3)?);
    Ok(())
}

fn opening(alloc: Global, text: &str) -> Result<Source, AllocError> {
    let variable = Some(Target {
        number: 0,
        kind: Simple::Int,
    });
    if text.is_empty() {
        return Ok(Source::Opening {
            variable,
            text: None,
        });
    }
    let text = TextValue::from_str(alloc, text)?;
    Ok(Source::Opening {
        variable,
        text: Some(text),
    })
}

// In r an instance is open in which something is set.
fn opening_rows(alloc: Global) -> Result<Vec<Row>, AllocError>
    ensures { IfOk result (λ all. length all.items ≡ 6) }
{
    let mut all = Vec::new(alloc);
    all.push(Row::Leaf { prim: 0 })?;
    all.push(element(alloc, "x", Some(Simple::Int), 0, 0)?)?;
    all.push(Row::Statement { statement: 1 })?;
    let children = Vec::from_slice(alloc, &[RowId::new(2), RowId::new(1)])?;
    all.push(Row::Group {
        children: RowList::new(children),
    })?;
    let body = RowId::new(3);
    all.push(Row::Instance { statement: 2, body })?;
    all.push(element(alloc, "r", None, 3, 4)?)?;
    Ok(all)
}

// What an instance, a setting in it and a test behind r come to.
fn told_of_opening(
    alloc: Global,
    start: &str,
    set: &str,
    last: &str,
) -> Result<Answer, AllocError> {
    let prefixes = BTreeMap::new(alloc);
    let rows = opening_rows(alloc)?;
    let mut all = Vec::new(alloc);
    all.push(written(test(alloc, "{ . gt 0 }")?, 1, &prefixes))?;
    all.push(written(setting(alloc, set)?, 2, &prefixes))?;
    all.push(written(opening(alloc, start)?, 3, &prefixes))?;
    all.push(written(test(alloc, last)?, 4, &prefixes))?;
    settled(alloc, rows.as_slice(), all, None)
}

fn opening_comes_to(
    alloc: Global,
    start: &str,
    set: &str,
    last: &str,
    cause: u8,
    at: u64,
) -> Result<bool, AllocError> {
    let told = told_of_opening(alloc, start, set, last)?;
    Ok(told.cause == cause && told.at == at)
}

#[test]
fn instances_are_opened_or_refused(rt: HostRuntime) -> Result<(), Fail> {
    let alloc = rt.alloc();
    assert!(&rt; opening_comes_to(alloc, "{ $v + 1 }", "1", "{ x lt 5 }", 0, 0)?);
    assert!(&rt; opening_comes_to(alloc, "", "{ 1 }", "{ x lt 5 }", 0, 0)?);
    assert!(&rt; opening_comes_to(alloc, "a", "1", "{ x lt 5 }", 37, 3)?);
    assert!(&rt; opening_comes_to(alloc, "{ 'a' }", "1", "{ x lt 5 }", 35, 3)?);
    assert!(&rt; opening_comes_to(alloc, "{ 'a' }", "{ 1", "{ x lt 5 }", 34, 2)?);
    assert!(&rt; opening_comes_to(alloc, "{ 'a' }", "a", "{ y lt }", 34, 4)?);
    Ok(())
}

// A refusal of the component of a row, which begins at the byte 9.
fn given(row: u64, cause: SchemaCause) -> GivenRefusal {
    GivenRefusal {
        row,
        refusal: Refusal {
            cause,
            place: Place { document: 0, at: 9 },
        },
    }
}

// With a refusal the test behind x and that behind r come to this.
fn comes_to(
    alloc: Global,
    first: &str,
    last: &str,
    given: GivenRefusal,
    cause: u8,
    at: u64,
) -> Result<bool, AllocError> {
    let told = told_with(alloc, first, "{ 5 }", last, Some(given))?;
    Ok(told.cause == cause && told.at == at)
}

#[test]
fn a_given_refusal_stands_at_its_row(rt: HostRuntime) -> Result<(), Fail> {
    let alloc = rt.alloc();
    let early = SchemaCause::UnboundedElement;
    let late = SchemaCause::ElementTwice;
    assert!(&rt; comes_to(alloc, "{ . gt 0 }", "{ x lt 5 }", given(1, early), 31, 9)?);
    assert!(&rt; comes_to(alloc, "{ y gt 0 }", "{ x lt 5 }", given(1, early), 31, 9)?);
    assert!(&rt; comes_to(alloc, "{ y gt 0 }", "{ x lt 5 }", given(1, late), 36, 1)?);
    assert!(&rt; comes_to(alloc, "{ . gt 0 }", "{ y lt 5 }", given(1, early), 36, 3)?);
    assert!(&rt; comes_to(alloc, "{ y gt 0 }", "{ x lt 5 }", given(4, late), 40, 9)?);
    assert!(&rt; comes_to(alloc, "{ y gt 0 }", "{ x lt 5 }", given(5, early), 36, 1)?);
    assert!(&rt; comes_to(alloc, "{ . gt 0 }", "{ x lt 5 }", given(5, early), 31, 9)?);
    Ok(())
}

// With a refusal of x a count comes to this.
fn count_comes_to(
    alloc: Global,
    count: &str,
    refused: SchemaCause,
    cause: u8,
    at: u64,
) -> Result<bool, AllocError> {
    let told = told_of_questions(alloc, "{ 2 }", count, Some(given(1, refused)))?;
    Ok(told.cause == cause && told.at == at)
}

#[test]
fn a_count_stands_at_its_element(rt: HostRuntime) -> Result<(), Fail> {
    let alloc = rt.alloc();
    let early = SchemaCause::UnboundedElement;
    let late = SchemaCause::ElementTwice;
    assert!(&rt; count_comes_to(alloc, "{ 2 }", early, 31, 9)?);
    assert!(&rt; count_comes_to(alloc, "{ y }", early, 31, 9)?);
    assert!(&rt; count_comes_to(alloc, "{ y }", late, 36, 3)?);
    Ok(())
}
