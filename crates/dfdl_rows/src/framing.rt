// The rows around the content of a component: statements, fill, its initiator and its terminator, and instances of variables; and the row behind
// which statements are done.
ghost use Rattle.std.specs.Prelude.{◌≡◌, ◌<◌, ◌≤◌, ◌+◌, ◌-◌, ◌^◌, ◌++◌, ◌∷◌, [], length, nat_lt, IfOk, OnOk};
ghost use Rattle.dfdl_rows.specs.Framing as spec;

use crate::last::push_last;
use dfdl_terms::{Delimiter, Framing, Row, RowId, RowList, Statements};
use std::alloc::{AllocError, Global};

/// There is a test of a pattern, what sets a variable, a skip, an alignment to more than one bit, an initiator or a terminator.
pub fn has_framing(framing: Framing) -> bool
    ensures { result ≡ spec.has_framing framing }
{
    framing.before.count > 0
        || framing.settings.count > 0
        || framing.leading_skip > 0
        || framing.alignment > 1
        || framing.initiator.is_some()
        || framing.terminator.is_some()
        || framing.trailing_skip > 0
}

// How many rows statements are.
fn statements_size(statements: Statements) -> u64
    ensures size { result ≡ length (spec.statement_rows statements) }
    ensures few { result < 2 ^ 32 }
{
    u64::from(statements.count)
}

// How many rows a skip of so many bits is.
fn skip_size(bits: u32) -> u64
    ensures size { result ≡ length (spec.skip_rows bits) }
    ensures few { result ≤ 1 }
{
    if bits > 0 { 1 } else { 0 }
}

// How many rows an alignment to so many bits is.
fn align_size(bits: u32) -> u64
    ensures size { result ≡ length (spec.align_rows bits) }
    ensures few { result ≤ 1 }
{
    if bits > 1 { 1 } else { 0 }
}

// How many rows an initiator is.
fn initiator_size(initiator: Option<Delimiter>) -> u64
    ensures size { result ≡ length (spec.initiator_rows initiator) }
    ensures few { result ≤ 1 }
{
    match initiator {
        Some(_) => 1,
        None => 0,
    }
}

// How many rows stand before a content.
fn size_before(framing: Framing) -> u64
    ensures size { result ≡ length (spec.rows_before framing) }
    ensures few { result < 2 ^ 33 + 3 }
{
    let fill = skip_size(framing.leading_skip) + align_size(framing.alignment);
    let stated = statements_size(framing.before) + statements_size(framing.settings);
    stated + fill + initiator_size(framing.initiator)
}

// How many rows a terminator is behind a content with separators of a list, or with none.
fn terminator_size(terminator: Option<Delimiter>, separators: Option<u32>) -> u64
    ensures size { result ≡ length (spec.terminator_rows terminator separators) }
    ensures few { result ≤ 1 }
{
    let _ = separators;
    match terminator {
        Some(_) => 1,
        None => 0,
    }
}

// How many rows stand behind a content.
fn size_behind(framing: Framing, separators: Option<u32>) -> u64
    ensures size { result ≡ length (spec.rows_behind framing separators) }
    ensures few { result ≤ 2 }
{
    terminator_size(framing.terminator, separators) + skip_size(framing.trailing_skip)
}

/// How many rows frame a content.
pub(crate) fn framing_size(framing: Framing, separators: Option<u32>) -> u64
    ensures size { result ≡ spec.framing_size framing separators }
    ensures few { result < 2 ^ 33 + 6 }
{
    if !has_framing(framing) {
        return 0;
    }
    size_before(framing) + size_behind(framing, separators) + 1
}

// Adds a row to the rows, and its number to those of a group.
fn push_row(rows: &mut Vec<Row>, group: &mut Vec<RowId>, row: Row) -> Result<(), AllocError>
    requires { length rows.old.items < 2 ^ 32 }
    ensures rows { OnOk result (rows.new.items ≡ rows.old.items ++ row ∷ []) }
    ensures group { OnOk result (group.new.items ≡ group.old.items ++ length rows.old.items ∷ []) }
{
    group.push(RowId::new(rows.len() as u32))?;
    rows.push(row)?;
    Ok(())
}

// The number of a statement so many behind the first. There is no memory for 2^32 statements.
fn statement_behind(first: u32, behind: u32) -> Result<u32, AllocError>
    ensures { IfOk result (λ statement. statement ≡ first + behind) }
{
    match first.checked_add(behind) {
        Some(statement) => Ok(statement),
        None => Err(AllocError),
    }
}

// Adds statements.
fn push_statements(
    rows: &mut Vec<Row>,
    group: &mut Vec<RowId>,
    statements: Statements,
) -> Result<(), AllocError>
    requires { length rows.old.items + length (spec.statement_rows statements) < 2 ^ 32 }
    ensures rows { OnOk result (rows.new.items ≡ rows.old.items ++ spec.statement_rows statements) }
    ensures group { OnOk result (group.new.items
        ≡ group.old.items ++ spec.numbers (spec.statement_rows statements) (length rows.old.items)) }
{
    for behind in 0..statements.count {
        let statement = statement_behind(statements.first, behind)?;
        push_row(rows, group, Row::Statement { statement })?;
    }
    Ok(())
}

// Adds a skip of so many bits, where they are some.
fn push_skip(rows: &mut Vec<Row>, group: &mut Vec<RowId>, bits: u32) -> Result<(), AllocError>
    requires { length rows.old.items < 2 ^ 32 }
    ensures rows { OnOk result (rows.new.items ≡ rows.old.items ++ spec.skip_rows bits) }
    ensures group { OnOk result (group.new.items
        ≡ group.old.items ++ spec.numbers (spec.skip_rows bits) (length rows.old.items)) }
{
    if bits == 0 {
        return Ok(());
    }
    push_row(rows, group, Row::Skip { bits })
}

// Adds an alignment to so many bits, where they are more than one.
fn push_align(rows: &mut Vec<Row>, group: &mut Vec<RowId>, bits: u32) -> Result<(), AllocError>
    requires { length rows.old.items < 2 ^ 32 }
    ensures rows { OnOk result (rows.new.items ≡ rows.old.items ++ spec.align_rows bits) }
    ensures group { OnOk result (group.new.items
        ≡ group.old.items ++ spec.numbers (spec.align_rows bits) (length rows.old.items)) }
{
    if bits <= 1 {
        return Ok(());
    }
    push_row(rows, group, Row::Align { bits })
}

// Adds an initiator, where there is one.
fn push_initiator(
    rows: &mut Vec<Row>,
    group: &mut Vec<RowId>,
    initiator: Option<Delimiter>,
) -> Result<(), AllocError>
    requires { length rows.old.items < 2 ^ 32 }
    ensures rows { OnOk result (rows.new.items ≡ rows.old.items ++ spec.initiator_rows initiator) }
    ensures group { OnOk result (group.new.items
        ≡ group.old.items ++ spec.numbers (spec.initiator_rows initiator) (length rows.old.items)) }
{
    match initiator {
        Some(delimiter) => push_row(rows, group, Row::Initiator { delimiter }),
        None => Ok(()),
    }
}

// Adds a terminator, where there is one, behind a content with separators of a list, or with none.
fn push_terminator(
    rows: &mut Vec<Row>,
    group: &mut Vec<RowId>,
    terminator: Option<Delimiter>,
    separator: Option<u32>,
) -> Result<(), AllocError>
    requires { length rows.old.items < 2 ^ 32 }
    ensures rows { OnOk result (rows.new.items ≡ rows.old.items ++ spec.terminator_rows terminator separator) }
    ensures group { OnOk result (group.new.items
        ≡ group.old.items ++ spec.numbers (spec.terminator_rows terminator separator) (length rows.old.items)) }
{
    match terminator {
        Some(delimiter) => push_row(
            rows,
            group,
            Row::Terminator {
                delimiter,
                separator,
            },
        ),
        None => Ok(()),
    }
}

// Adds the rows before a content.
fn push_before(
    rows: &mut Vec<Row>,
    group: &mut Vec<RowId>,
    framing: Framing,
) -> Result<(), AllocError>
    requires { length rows.old.items + length (spec.rows_before framing) < 2 ^ 32 }
    ensures rows { OnOk result (rows.new.items ≡ rows.old.items ++ spec.rows_before framing) }
    ensures group { OnOk result (group.new.items
        ≡ group.old.items ++ spec.numbers (spec.rows_before framing) (length rows.old.items)) }
{
    push_statements(rows, group, framing.before)?;
    push_set(rows, group, framing)?;
    Ok(())
}

// Adds the rows before a content that aren't tests of patterns.
fn push_set(rows: &mut Vec<Row>, group: &mut Vec<RowId>, framing: Framing) -> Result<(), AllocError>
    requires { length rows.old.items + length (spec.statement_rows framing.settings ++ spec.fill_rows framing) < 2 ^ 32 }
    ensures rows { OnOk result (rows.new.items
        ≡ rows.old.items ++ (spec.statement_rows framing.settings ++ spec.fill_rows framing)) }
    ensures group { OnOk result (group.new.items
        ≡ group.old.items ++ spec.numbers (spec.statement_rows framing.settings ++ spec.fill_rows framing) (length rows.old.items)) }
{
    push_statements(rows, group, framing.settings)?;
    push_fill(rows, group, framing)?;
    Ok(())
}

// Adds the rows before a content that aren't statements.
fn push_fill(
    rows: &mut Vec<Row>,
    group: &mut Vec<RowId>,
    framing: Framing,
) -> Result<(), AllocError>
    requires { length rows.old.items + length (spec.fill_rows framing) < 2 ^ 32 }
    ensures rows { OnOk result (rows.new.items ≡ rows.old.items ++ spec.fill_rows framing) }
    ensures group { OnOk result (group.new.items
        ≡ group.old.items ++ spec.numbers (spec.fill_rows framing) (length rows.old.items)) }
{
    push_skip(rows, group, framing.leading_skip)?;
    push_align(rows, group, framing.alignment)?;
    push_initiator(rows, group, framing.initiator)?;
    Ok(())
}

// Adds the rows behind a content.
fn push_behind(
    rows: &mut Vec<Row>,
    group: &mut Vec<RowId>,
    framing: Framing,
    separators: Option<u32>,
) -> Result<(), AllocError>
    requires { length rows.old.items + length (spec.rows_behind framing separators) < 2 ^ 32 }
    ensures rows { OnOk result (rows.new.items ≡ rows.old.items ++ spec.rows_behind framing separators) }
    ensures group { OnOk result (group.new.items
        ≡ group.old.items ++ spec.numbers (spec.rows_behind framing separators) (length rows.old.items)) }
{
    push_terminator(rows, group, framing.terminator, separators)?;
    push_skip(rows, group, framing.trailing_skip)?;
    Ok(())
}

/// Adds the rows that frame the row of a content with separators of a list, or with none, and gives the row that stands for all of them.
pub(crate) fn push_framed(
    alloc: Global,
    rows: &mut Vec<Row>,
    framing: Framing,
    separators: Option<u32>,
    content: RowId,
) -> Result<RowId, AllocError>
    requires { length rows.old.items + spec.framing_size framing separators < 2 ^ 32 }
    ensures rows { OnOk result (rows.new.items ≡ rows.old.items ++ spec.framed framing separators content (length rows.old.items)) }
    ensures whole { IfOk result (λ whole. whole ≡ spec.framed_row framing separators content (length rows.old.items)) }
{
    if !has_framing(framing) {
        return Ok(content);
    }
    let mut group = Vec::new(alloc);
    push_before(rows, &mut group, framing)?;
    group.push(content)?;
    push_behind(rows, &mut group, framing, separators)?;
    let whole = RowId::new(rows.len() as u32);
    rows.push(Row::Group {
        children: RowList::new(group),
    })?;
    Ok(whole)
}

// What frames a content but for its tests of patterns.
fn untested(framing: Framing) -> Framing
    ensures { result ≡ spec.untested framing }
{
    Framing {
        before: Framing::none().before,
        ..framing
    }
}

// The tests of patterns alone.
fn tests_alone(framing: Framing) -> Framing
    ensures { result ≡ spec.tests_alone framing }
{
    Framing {
        before: framing.before,
        ..Framing::none()
    }
}

// Whether instances are open in a content.
fn has_openings(framing: Framing) -> bool
    ensures { result ≡ nat_lt 0 framing.openings.count }
{
    framing.openings.count > 0
}

// How many rows stand around a content inside of which instances are open.
fn instances_size(framing: Framing, separators: Option<u32>) -> u64
    ensures size { result ≡ spec.instances_size framing separators }
    ensures few { result < 2 ^ 36 }
{
    let inside = framing_size(untested(framing), separators);
    let tests = framing_size(tests_alone(framing), None);
    inside + u64::from(framing.openings.count) + tests
}

/// How many rows stand around the content of a sequence or choice.
pub(crate) fn opened_size(framing: Framing, separators: Option<u32>) -> u64
    ensures size { result ≡ spec.opened_size framing separators }
    ensures few { result < 2 ^ 36 }
{
    if !has_openings(framing) {
        return framing_size(framing, separators);
    }
    instances_size(framing, separators)
}

// Adds the rows of the instances that these statements open around the row of a content, and gives that of the outermost one.
fn push_instances(
    rows: &mut Vec<Row>,
    openings: Statements,
    content: RowId,
) -> Result<RowId, AllocError>
    requires { length rows.old.items + openings.count < 2 ^ 32 }
    ensures rows { OnOk result (rows.new.items ≡ rows.old.items ++ spec.instance_rows openings content (length rows.old.items)) }
    ensures outermost { IfOk result (λ outermost. outermost ≡ spec.outermost openings.count content (length rows.old.items)) }
{
    let mut body = content;
    for behind in (0..openings.count).rev() {
        let statement = statement_behind(openings.first, behind)?;
        body = push_last(rows, Row::Instance { statement, body })?;
    }
    Ok(body)
}

// Adds the rows around the row of a content inside of which instances are open.
fn push_with_instances(
    alloc: Global,
    rows: &mut Vec<Row>,
    framing: Framing,
    separators: Option<u32>,
    content: RowId,
) -> Result<(), AllocError>
    requires { length rows.old.items + spec.instances_size framing separators < 2 ^ 32 }
    ensures { OnOk result (rows.new.items ≡ rows.old.items ++ spec.with_instances framing separators content (length rows.old.items)) }
{
    let body = push_framed(alloc, rows, untested(framing), separators, content)?;
    let outermost = push_instances(rows, framing.openings, body)?;
    push_framed(alloc, rows, tests_alone(framing), None, outermost)?;
    Ok(())
}

/// Adds the rows around the row of the content of a sequence or choice with separators of a list, or with none: what frames it, the instances
/// that are open in it, and the tests around these.
pub(crate) fn push_opened(
    alloc: Global,
    rows: &mut Vec<Row>,
    framing: Framing,
    separators: Option<u32>,
    content: RowId,
) -> Result<(), AllocError>
    requires { length rows.old.items + spec.opened_size framing separators < 2 ^ 32 }
    ensures { OnOk result (rows.new.items ≡ rows.old.items ++ spec.opened framing separators content (length rows.old.items)) }
{
    if !has_openings(framing) {
        push_framed(alloc, rows, framing, separators, content)?;
        return Ok(());
    }
    push_with_instances(alloc, rows, framing, separators, content)
}

/// How many rows the row is behind which statements are done.
pub(crate) fn conclusion_size(behind: Statements) -> u64
    ensures size { result ≡ spec.conclusion_size behind }
    ensures few { result ≤ 1 }
{
    if behind.count > 0 { 1 } else { 0 }
}

/// Adds the row behind which statements are done, where there are some. The last of the rows is in it.
pub(crate) fn push_conclusion(rows: &mut Vec<Row>, behind: Statements) -> Result<(), AllocError>
    requires { length rows.old.items + spec.conclusion_size behind < 2 ^ 32 }
    ensures { OnOk result (rows.new.items ≡ rows.old.items ++ spec.conclusion behind (length rows.old.items - 1)) }
{
    if behind.count == 0 {
        return Ok(());
    }
    let body = RowId::new(rows.len().saturating_sub(1) as u32);
    rows.push(Row::Concluded { behind, body })?;
    Ok(())
}
