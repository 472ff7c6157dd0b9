// What the statements of a schema come to.
ghost use Rattle.std.specs.Prelude.{◌≡◌, ◌<◌, ◌+◌, ◌^◌, ◌++◌, ◌∷◌, ℕ, List, [], None, Some, Option, Ok, Err, Result, IfOk, OnOk, length, option_map, slice_index_or, slice_set, vec_len};
ghost use Rattle.std.specs.List.{AllZip};
ghost use Rattle.dfdl_expression_tree.specs.Trees.{Formula};
ghost use Rattle.dfdl_report.specs.declared.cause.SchemaCause.{SchemaCause as CauseOf};
ghost use Rattle.dfdl_terms.specs.declared.row.Row.{Row as RowOf};
ghost use Rattle.dfdl_terms.specs.declared.statement.Statement.{Statement as StatementOf};
ghost use Rattle.dfdl_statements.specs.declared.written.Written.{Written as WrittenOf};
ghost use Rattle.dfdl_statements.specs.Elements.{arounds as arounds_of, or_else};
ghost use Rattle.dfdl_statements.specs.Children.{children_in, slots_in};
ghost use Rattle.dfdl_statements.specs.Standing.{slot_asked, slots_asked, standings};
ghost use Rattle.dfdl_statements.specs.Texts.{ReadsTexts};
ghost use Rattle.dfdl_statements.specs.Making.{IsMadeOf, unused as unused_source};
ghost use Rattle.dfdl_statements.specs.MakingShown.{Gives};
ghost use Rattle.dfdl_statements.specs.Settled as spec;
ghost use Rattle.dfdl_statements.specs.SettledShown.{LooksAt, Settles, SettlesOne};

use crate::fault::{Fault, GivenRefusal, Refusal, StatementFault};
use crate::making::{judge, make, unused};
use crate::rows::{children_of, counted_of, slots_of};
use crate::sight::{Sight, statics};
use crate::standing::{Scene, Standing};
use crate::tops::arounds;
use crate::written::Written;
use dfdl_expression_types::Place;
use dfdl_report::{Place as PlaceInDocument, SchemaCause};
use dfdl_terms::{Row, RowId, Slot, Statement};
use std::alloc::{AllocError, Global};

// The refusal of a cause.
fn refused_at(written: &Written<'_>, cause: Option<SchemaCause>) -> Option<Refusal>
    ensures { result ≡ option_map (λ why. spec.refused_at written.now why) cause }
{
    match cause {
        Some(cause) => Some(Refusal {
            cause,
            place: written.place,
        }),
        None => None,
    }
}

// Why a statement is refused at a place, if it is.
fn refusal_by(
    alloc: Global,
    sight: &Sight<'_>,
    written: &Written<'_>,
    place: Place,
) -> Result<Option<Refusal>, AllocError>
    ensures { (read : List ℕ → Option Formula) → ReadsTexts read
        → IfOk result (λ found. found ≡ spec.refusal_by read sight.now (Some written.now) place) }
{
    let cause = judge(alloc, &statics(sight, written, place), &written.source)?;
    Ok(refused_at(written, cause))
}

fn refusal_of(
    alloc: Global,
    sight: &Sight<'_>,
    written: &[Written<'_>],
    standing: Standing,
) -> Result<Option<Refusal>, AllocError>
    ensures { (read : List ℕ → Option Formula) → ReadsTexts read
        → IfOk result (λ found. found ≡ spec.refusal_of read sight.now written.now standing) }
{
    match written.get(standing.statement) {
        Some(written) => refusal_by(alloc, sight, written, standing.place),
        None => Ok(None),
    }
}

// Whether a refusal's cause has a lower number than another's.
fn is_lower(refusal: Refusal, other: Refusal) -> bool
    ensures { result ≡ spec.is_lower refusal other }
{
    refusal.cause.number() < other.cause.number()
}

// Of two refusals that with the lower number, and of one number the first.
fn lower(first: Option<Refusal>, second: Option<Refusal>) -> Option<Refusal>
    ensures { result ≡ spec.lower first second }
{
    match (first, second) {
        (None, other) => other,
        (Some(first), None) => Some(first),
        (Some(first), Some(second)) => {
            if is_lower(second, first) {
                Some(second)
            } else {
                Some(first)
            }
        }
    }
}

// A refusal that is given, where it is of this row.
fn given_at(given: Option<GivenRefusal>, row: RowId) -> Option<Refusal>
    ensures { result ≡ spec.given_at given row }
{
    match given {
        Some(given) => {
            if given.row == u64::from(row.number()) {
                Some(given.refusal)
            } else {
                None
            }
        }
        None => None,
    }
}

// The same, where there may be no row.
fn given_in(given: Option<GivenRefusal>, row: Option<RowId>) -> Option<Refusal>
    ensures { result ≡ spec.given_in given row }
{
    match row {
        Some(row) => given_at(given, row),
        None => None,
    }
}

// The refusal that is given, wherever it is.
fn given_of(given: Option<GivenRefusal>) -> Option<Refusal>
    ensures { result ≡ spec.given_of given }
{
    match given {
        Some(given) => Some(given.refusal),
        None => None,
    }
}

// The refusal that is found of what is asked for a row, where one is, or the one that is given of that row, where its
// number is lower.
fn beside(given: Option<Refusal>, found: Option<Refusal>) -> Option<Refusal>
    ensures { result ≡ spec.beside given found }
{
    match found {
        Some(found) => lower(given, Some(found)),
        None => None,
    }
}

// Of a refusal and those of some statements that with the lowest number.
fn lowest(
    alloc: Global,
    sight: &Sight<'_>,
    written: &[Written<'_>],
    first: Option<Refusal>,
    standings: &[Standing],
) -> Result<Option<Refusal>, AllocError>
    ensures { (read : List ℕ → Option Formula) → ReadsTexts read
        → IfOk result (λ found. found ≡ spec.lowest read sight.now written.now first standings.now) }
{
    let mut found = first;
    for standing in standings {
        found = lower(found, refusal_of(alloc, sight, written, *standing)?);
    }
    Ok(found)
}

fn entry(table: &[Option<Refusal>], row: RowId) -> Option<Refusal>
    ensures { result ≡ slice_index_or table.now row None }
{
    match table.get(row.number() as usize) {
        Some(refusal) => *refusal,
        None => None,
    }
}

// The first of the refusals of some rows.
fn first_told(table: &[Option<Refusal>], rows: &[RowId]) -> Option<Refusal>
    ensures { result ≡ spec.first_told table.now rows.now }
{
    for row in rows {
        let refusal = entry(table, *row);
        if refusal.is_some() {
            return refusal;
        }
    }
    None
}

// The first of two refusals, if it is one, and else the second.
fn or_else(first: Option<Refusal>, second: Option<Refusal>) -> Option<Refusal>
    ensures { result ≡ or_else first second }
{
    match first {
        Some(refusal) => Some(refusal),
        None => second,
    }
}

// The statements of a row's component.
fn standings_at(
    alloc: Global,
    scene: &Scene<'_, '_>,
    number: usize,
) -> Result<Vec<Standing>, AllocError>
    requires few { length scene.now.rows.now < 2 ^ 32 }
    requires within { number < length scene.now.rows.now }
    ensures { IfOk result (λ list. list.items ≡ standings scene.now.rows.now scene.now.written.now scene.now.arounds.now number) }
{
    let mut list = Vec::new(alloc);
    scene.push_standings(&mut list, RowId::new(number as u32), &scene.rows[number])?;
    Ok(list)
}

// The statements that the slots of a row ask.
fn slots_asked_at(
    alloc: Global,
    scene: &Scene<'_, '_>,
    number: usize,
) -> Result<Vec<Standing>, AllocError>
    requires few { length scene.now.rows.now < 2 ^ 32 }
    requires within { number < length scene.now.rows.now }
    ensures { IfOk result (λ list. list.items ≡ slots_asked scene.now.rows.now scene.now.written.now scene.now.arounds.now number) }
{
    let mut list = Vec::new(alloc);
    scene.push_slots_asked(&mut list, RowId::new(number as u32), &scene.rows[number])?;
    Ok(list)
}

// The refusal of what a slot of a row asks for, as far as statements tell it.
fn asked_refusal(
    alloc: Global,
    sight: &Sight<'_>,
    scene: &Scene<'_, '_>,
    row: RowId,
    slot: Slot,
) -> Result<Option<Refusal>, AllocError>
    requires arounds { scene.now.arounds.now ≡ arounds_of scene.now.rows.now }
    ensures { (read : List ℕ → Option Formula) → ReadsTexts read
        → IfOk result (λ found. found ≡ spec.lowest read sight.now scene.now.written.now None
        (slot_asked scene.now.rows.now scene.now.written.now (arounds_of scene.now.rows.now) row slot)) }
{
    let mut list = Vec::new(alloc);
    scene.push_slot_asked(&mut list, row, slot)?;
    lowest(alloc, sight, scene.written, None, list.as_slice())
}

// The refusal of what a slot of a row asks for.
fn slot_refusal(
    alloc: Global,
    sight: &Sight<'_>,
    scene: &Scene<'_, '_>,
    given: Option<GivenRefusal>,
    row: RowId,
    slot: &Slot,
) -> Result<Option<Refusal>, AllocError>
    requires arounds { scene.now.arounds.now ≡ arounds_of scene.now.rows.now }
    ensures { (read : List ℕ → Option Formula) → ReadsTexts read
        → IfOk result (λ found. found ≡ spec.slot_refusal read sight.now scene.now.rows.now scene.now.written.now given row slot.now) }
{
    let found = asked_refusal(alloc, sight, scene, row, *slot)?;
    Ok(beside(given_at(given, slot.body), found))
}

// The first refusal of what slots of a row ask for, or of what is in them.
fn first_asked(
    alloc: Global,
    sight: &Sight<'_>,
    scene: &Scene<'_, '_>,
    given: Option<GivenRefusal>,
    row: RowId,
    slots: &[Slot],
    table: &[Option<Refusal>],
) -> Result<Option<Refusal>, AllocError>
    requires arounds { scene.now.arounds.now ≡ arounds_of scene.now.rows.now }
    ensures { (read : List ℕ → Option Formula) → ReadsTexts read
        → IfOk result (λ found. found
        ≡ spec.first_asked read sight.now scene.now.rows.now scene.now.written.now given row table.now slots.now) }
{
    for slot in slots {
        let asked = slot_refusal(alloc, sight, scene, given, row, slot)?;
        let refusal = or_else(asked, entry(table, slot.body));
        if refusal.is_some() {
            return Ok(refusal);
        }
    }
    Ok(None)
}

// The refusal of the statements of a row, or of the row, where one is given of it.
fn own_refusal(
    alloc: Global,
    sight: &Sight<'_>,
    scene: &Scene<'_, '_>,
    given: Option<GivenRefusal>,
    number: usize,
) -> Result<Option<Refusal>, AllocError>
    requires few { length scene.now.rows.now < 2 ^ 32 }
    requires within { number < length scene.now.rows.now }
    requires arounds { scene.now.arounds.now ≡ arounds_of scene.now.rows.now }
    ensures { (read : List ℕ → Option Formula) → ReadsTexts read
        → IfOk result (λ found. found ≡ spec.own_refusal read sight.now scene.now.rows.now scene.now.written.now given number) }
{
    let list = standings_at(alloc, scene, number)?;
    let here = given_at(given, RowId::new(number as u32));
    let found = lowest(alloc, sight, scene.written, here, list.as_slice())?;
    Ok(beside(given_in(given, counted_of(&scene.rows[number])), found))
}

// The refusal of what is inside of a row.
fn inner_refusal(
    alloc: Global,
    sight: &Sight<'_>,
    scene: &Scene<'_, '_>,
    given: Option<GivenRefusal>,
    id: RowId,
    row: &Row,
    table: &[Option<Refusal>],
) -> Result<Option<Refusal>, AllocError>
    requires arounds { scene.now.arounds.now ≡ arounds_of scene.now.rows.now }
    ensures { (read : List ℕ → Option Formula) → ReadsTexts read
        → IfOk result (λ found. found
        ≡ or_else (spec.first_asked read sight.now scene.now.rows.now scene.now.written.now given id table.now (slots_in (Some row.now)))
        (spec.first_told table.now (children_in (Some row.now)))) }
{
    let asked = first_asked(alloc, sight, scene, given, id, slots_of(row), table)?;
    let children = children_of(alloc, row)?;
    Ok(or_else(asked, first_told(table, children.as_slice())))
}

// The refusal of a row, or of what is inside of it.
fn row_refusal(
    alloc: Global,
    sight: &Sight<'_>,
    scene: &Scene<'_, '_>,
    given: Option<GivenRefusal>,
    number: usize,
    table: &[Option<Refusal>],
) -> Result<Option<Refusal>, AllocError>
    requires few { length scene.now.rows.now < 2 ^ 32 }
    requires within { number < length scene.now.rows.now }
    requires arounds { scene.now.arounds.now ≡ arounds_of scene.now.rows.now }
    ensures { (read : List ℕ → Option Formula) → ReadsTexts read
        → IfOk result (λ found. found ≡ spec.row_refusal read sight.now scene.now.rows.now scene.now.written.now given number table.now) }
{
    let own = own_refusal(alloc, sight, scene, given, number)?;
    let id = RowId::new(number as u32);
    let inner = inner_refusal(alloc, sight, scene, given, id, &scene.rows[number], table)?;
    Ok(or_else(own, inner))
}

// The refusals of all rows.
fn refusals(
    alloc: Global,
    sight: &Sight<'_>,
    scene: &Scene<'_, '_>,
    given: Option<GivenRefusal>,
) -> Result<Vec<Option<Refusal>>, AllocError>
    requires few { length scene.now.rows.now < 2 ^ 32 }
    requires arounds { scene.now.arounds.now ≡ arounds_of scene.now.rows.now }
    ensures { (read : List ℕ → Option Formula) → ReadsTexts read
        → IfOk result (λ table. table.items ≡ spec.refusals read sight.now scene.now.rows.now scene.now.written.now given (length scene.now.rows.now)) }
{
    let mut table = Vec::new(alloc);
    for number in 0..scene.rows.len() {
        let refusal = row_refusal(alloc, sight, scene, given, number, table.as_slice())?;
        table.push(refusal)?;
    }
    Ok(table)
}

// The refusal of the last row, and else the one that is given.
fn last_refusal(
    alloc: Global,
    sight: &Sight<'_>,
    scene: &Scene<'_, '_>,
    given: Option<GivenRefusal>,
) -> Result<Option<Refusal>, AllocError>
    requires few { length scene.now.rows.now < 2 ^ 32 }
    requires arounds { scene.now.arounds.now ≡ arounds_of scene.now.rows.now }
    ensures { (read : List ℕ → Option Formula) → ReadsTexts read
        → IfOk result (λ found. found ≡ spec.refusal read sight.now scene.now.rows.now scene.now.written.now given) }
{
    let table = refusals(alloc, sight, scene, given)?;
    let last = entry_at(table.as_slice(), scene.rows.len().saturating_sub(1));
    Ok(or_else(last, given_of(given)))
}

fn entry_at(table: &[Option<Refusal>], number: usize) -> Option<Refusal>
    ensures { result ≡ slice_index_or table.now number None }
{
    match table.get(number) {
        Some(refusal) => *refusal,
        None => None,
    }
}

// Puts where a statement stands, if there is such a statement.
fn put(places: &mut Vec<Option<Place>>, statement: usize, place: Place)
    ensures { places.new.items ≡ slice_set places.old.items statement (Some place) }
{
    if statement < places.len() {
        places[statement] = Some(place);
    }
}

fn note(places: &mut Vec<Option<Place>>, standings: &[Standing])
    ensures { places.new.items ≡ spec.noted standings.now places.old.items }
{
    for standing in standings {
        put(places, standing.statement, standing.place);
    }
}

// Where each statement stands.
fn places(alloc: Global, scene: &Scene<'_, '_>) -> Result<Vec<Option<Place>>, AllocError>
    requires few { length scene.now.rows.now < 2 ^ 32 }
    requires arounds { scene.now.arounds.now ≡ arounds_of scene.now.rows.now }
    ensures { IfOk result (λ all. all.items ≡ spec.places scene.now.rows.now scene.now.written.now) }
{
    let mut all = vec![in alloc; None; scene.written.len()]?;
    for number in 0..scene.rows.len() {
        let list = standings_at(alloc, scene, number)?;
        note(&mut all, list.as_slice());
        let asked = slots_asked_at(alloc, scene, number)?;
        note(&mut all, asked.as_slice());
    }
    Ok(all)
}

fn place_of(places: &[Option<Place>], number: usize) -> Option<Place>
    ensures { result ≡ slice_index_or places.now number None }
{
    match places.get(number) {
        Some(place) => *place,
        None => None,
    }
}

// What is told of a statement whose component has its start tag there.
fn refused(at: PlaceInDocument, fault: Fault) -> StatementFault
    ensures { (written : WrittenOf) (due : Result StatementOf CauseOf) → written.place ≡ at → Gives due (Err fault) → SettlesOne written due (Err result) }
{
    match fault {
        Fault::Cause(cause) => StatementFault::Refused(Refusal { cause, place: at }),
        Fault::OutOfMemory => StatementFault::OutOfMemory,
    }
}

// The statement that is made at a place.
fn made_at(
    alloc: Global,
    sight: &Sight<'_>,
    written: Written<'_>,
    place: Place,
) -> Result<Statement, StatementFault>
    ensures answer { (read : List ℕ → Option Formula) → ReadsTexts read
        → SettlesOne written.entry (spec.made_at read sight.now written.entry place) result }
    ensures kind { IfOk result (IsMadeOf written.entry) }
{
    let statics = statics(sight, &written, place);
    let at = written.place;
    match make(alloc, &statics, written.source) {
        Ok(statement) => Ok(statement),
        Err(fault) => Err(refused(at, fault)),
    }
}

// The statement that stands for one which no row has.
fn unused_of(alloc: Global, written: Written<'_>) -> Result<Statement, StatementFault>
    ensures answer { SettlesOne written.entry (Ok (unused_source written.entry.source)) result }
    ensures kind { IfOk result (IsMadeOf written.entry) }
{
    let at = written.place;
    match unused(alloc, written.source) {
        Ok(statement) => Ok(statement),
        Err(fault) => Err(refused(at, fault)),
    }
}

// The statement that is made where it may stand.
fn made_where(
    alloc: Global,
    sight: &Sight<'_>,
    written: Written<'_>,
    place: Option<Place>,
) -> Result<Statement, StatementFault>
    ensures answer { (read : List ℕ → Option Formula) → ReadsTexts read
        → SettlesOne written.entry (spec.made_where read sight.now written.entry place) result }
    ensures kind { IfOk result (IsMadeOf written.entry) }
{
    match place {
        Some(place) => made_at(alloc, sight, written, place),
        None => unused_of(alloc, written),
    }
}

// The statements that are made, each where it stands.
fn made(
    alloc: Global,
    sight: &Sight<'_>,
    places: &[Option<Place>],
    written: Vec<Written<'_>>,
) -> Result<Vec<Statement>, StatementFault>
    ensures answer { (rows : List RowOf) (read : List ℕ → Option Formula) → ReadsTexts read → places.now ≡ spec.places rows written.entry.items
        → Settles (spec.made_from read sight.now rows written.entry.items 0 written.entry.items) result }
    ensures made { IfOk result (λ made. AllZip IsMadeOf written.entry.items made.items) }
{
    let mut statements = Vec::new(alloc);
    for one in written {
        let number = statements.len();
        let place = place_of(places, number);
        match made_where(alloc, sight, one, place) {
            Ok(statement) => push(&mut statements, statement)?,
            Err(fault) => return Err(fault),
        }
    }
    Ok(statements)
}

fn push(statements: &mut Vec<Statement>, statement: Statement) -> Result<(), AllocError>
    ensures items { OnOk result (statements.new.items ≡ statements.old.items ++ statement ∷ []) }
    ensures many { OnOk result (vec_len statements.new ≡ vec_len statements.old + 1) }
{
    statements.push(statement)?;
    Ok(())
}

// Where each statement stands, or the refusal of one, or that which is given.
fn looked_at(
    alloc: Global,
    rows: &[Row],
    sight: &Sight<'_>,
    written: &[Written<'_>],
    given: Option<GivenRefusal>,
) -> Result<Result<Vec<Option<Place>>, Refusal>, AllocError>
    requires { length rows.now < 2 ^ 32 }
    ensures { (read : List ℕ → Option Formula) → ReadsTexts read
        → IfOk result (LooksAt rows.now written.now (spec.refusal read sight.now rows.now written.now given)) }
{
    let arounds = arounds(alloc, rows)?;
    let scene = Scene {
        rows,
        written,
        arounds: arounds.as_slice(),
    };
    let refusal = last_refusal(alloc, sight, &scene, given)?;
    match refusal {
        Some(refusal) => Ok(Err(refusal)),
        None => Ok(Ok(places(alloc, &scene)?)),
    }
}

/// The statements of rows, each made of what is written under its number, or the first refusal of one, wherever it stands. A refusal of
/// another kind that is given has its place among these, and is told where none stands before it.
///
/// Rows are looked at from the last one on, what is inside of a row in its order. Of the statements of one component, and of a refusal that is
/// given of it, the refusal with the lowest number is told, and of these the first. `read` stands for what texts are read as.
pub fn settle(
    alloc: Global,
    rows: &[Row],
    sight: &Sight<'_>,
    written: Vec<Written<'_>>,
    given: Option<GivenRefusal>,
) -> Result<Vec<Statement>, StatementFault>
    requires { length rows.now < 2 ^ 32 }
    ensures answer { (read : List ℕ → Option Formula) → ReadsTexts read
        → Settles (spec.settled read sight.now rows.now written.entry.items given) result }
    ensures made { IfOk result (λ made. AllZip IsMadeOf written.entry.items made.items) }
{
    let looked = looked_at(alloc, rows, sight, written.as_slice(), given)?;
    match looked {
        Ok(places) => made(alloc, sight, places.as_slice(), written),
        Err(refusal) => Err(StatementFault::Refused(refusal)),
    }
}
