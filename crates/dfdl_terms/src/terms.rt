ghost use Rattle.dfdl_terms.specs.Rows.{most_rows, Nests, IsFirstBad, ChildrenBelow};
ghost use Rattle.dfdl_terms.specs.Messages.{message_in, message_of};
ghost use Rattle.std.specs.Prelude.{ℕ, option_map, IfSome, IfNone, ◌≡◌, ◌<◌, ◌≤◌, ◌↔◌, ◌-◌, List, length, All, IsTrue, IfOk, IsOk, IsErrOf, Some, slice_get, vec_len};

use super::keys::Key;
use super::row::{Row, RowId, Tables};
use super::slots::Slot;
use super::statement::Statement;
use dfdl_value::TextValue;
use std::alloc::Global;
use std::marker::Model;
use thiserror::Error;

/// The rows of a schema with what they name, each row's children below it. The last row is the root element's.
#[derive(Debug, Drop)]
pub struct Terms {
    rows: Vec<Row>,
    tables: Tables,
}

impl Model for Terms {
    ghost use Rattle.dfdl_terms.specs.Rows.{Table, IsTable, table_of};

    ghost Value = { Table };

    ghost view = { λ t. table_of t.rows.items t.tables };

    ghost invariant = { λ t. IsTable (table_of t.rows.items t.tables) };
}

/// Why rows are no terms.
#[derive(Debug, Clone, Copy, PartialEq, Eq, Error)]
pub enum TermFault {
    /// There are more than 65,535 rows.
    #[error("more rows than a schema may have")]
    TooMany,
    /// A child of this row isn't below it; it is the first such row.
    #[error("a row that is not above its children")]
    BadChild { row: RowId },
    /// Answered by no call of today: a place is kept for tables that are copied.
    #[error("out of memory")]
    OutOfMemory,
}

/// The most rows of one schema.
pub const MOST_ROWS: usize = 65535;

// The first row with a child that isn't below it.
fn first_bad(rows: &[Row]) -> Option<RowId>
    requires { length rows.now ≤ most_rows }
    ensures some { IfSome result (IsFirstBad rows.now) }
    ensures none { IfNone result (Nests rows.now) }
{
    for (at, row) in rows.iter().enumerate() {
        let id = RowId::new(at as u32);
        if !has_children_below(row, id) {
            return Some(id);
        }
    }
    None
}

// Whether each child of the row is below the bound.
fn has_children_below(row: &Row, bound: RowId) -> bool
    ensures { IsTrue result ↔ ChildrenBelow bound row.now }
{
    match row {
        Row::Leaf { .. } => true,
        Row::Elem { body, .. } => body.number() < bound.number(),
        Row::Group { children } => are_below(children.as_slice(), bound),
        Row::Skip { .. } => true,
        Row::Align { .. } => true,
        Row::Initiator { .. } => true,
        Row::Terminator { .. } => true,
        Row::Separator => true,
        Row::Scope { body, .. } => body.number() < bound.number(),
        Row::Boxed { body, .. } => body.number() < bound.number(),
        Row::PrefixedLeaf { .. } => true,
        Row::PrefixedBox { body, .. } => body.number() < bound.number(),
        Row::MeasuredLeaf { .. } => true,
        Row::MeasuredBox { body, .. } => body.number() < bound.number(),
        Row::Repeat { body, .. } => body.number() < bound.number(),
        Row::Counted { body, .. } => body.number() < bound.number(),
        Row::Optional { body, .. } => body.number() < bound.number(),
        Row::Choice { branches, .. } => are_below(branches.as_slice(), bound),
        Row::Dispatch { keys, .. } => keys_are_below(keys.as_slice(), bound),
        Row::Statement { .. } => true,
        Row::Concluded { body, .. } => body.number() < bound.number(),
        Row::Hidden { body } => body.number() < bound.number(),
        Row::Spanned { body } => body.number() < bound.number(),
        Row::Instance { body, .. } => body.number() < bound.number(),
        Row::Separated { slots, .. } => slots_are_below(slots.as_slice(), bound),
    }
}

// What the schema says of a statement that is a test, if it says anything.
fn said(statement: &Statement) -> Option<&str>
    ensures { option_map (λ m. m.now) result ≡ message_in (Some statement.now) }
{
    match statement {
        Statement::Pattern(test) => text_of(&test.message),
        Statement::Expression(test) => text_of(&test.message),
        Statement::Setting(_) => None,
        Statement::Calculation(_) => None,
        Statement::Question(_) => None,
        Statement::Opening(_) => None,
    }
}

fn text_of(message: &Option<TextValue>) -> Option<&str>
    ensures { option_map (λ m. m.now) result ≡ message.now }
{
    match message {
        Some(message) => Some(message.as_str()),
        None => None,
    }
}

// Whether each of the rows is below the bound.
fn are_below(rows: &[RowId], bound: RowId) -> bool
    ensures { IsTrue result ↔ All (λ row. row < bound) rows.now }
{
    rows.iter().all(|row| row.number() < bound.number())
}

// Whether the row of each of the slots is below the bound.
fn slots_are_below(slots: &[Slot], bound: RowId) -> bool
    ensures { IsTrue result ↔ All (λ slot. slot.body < bound) slots.now }
{
    slots.iter().all(|slot| slot.body.number() < bound.number())
}

// Whether the row of each of the keys is below the bound.
fn keys_are_below(keys: &[Key], bound: RowId) -> bool
    ensures { IsTrue result ↔ All (λ key. key.body < bound) keys.now }
{
    keys.iter().all(|key| key.body.number() < bound.number())
}

impl Terms {
    ghost use Rattle.dfdl_terms.specs.Rows.{most_rows, Nests, ChildrenBelow, NamesWithin, IsPrimitive, IsFirstBad, IsTable, named_by, table_of};

    pub fn build(_alloc: Global, rows: Vec<Row>, tables: Tables) -> Result<Terms, TermFault>
        requires some { 0 < vec_len rows }
        requires named { All (NamesWithin tables) rows.items }
        requires bounded { All IsPrimitive tables.primitives }
        ensures ok { IfOk result (λ t. t ≡ table_of rows.items tables) }
        ensures too_many { IsErrOf result TermFault.TooMany ↔ most_rows < vec_len rows }
        ensures bad_child { (row : ℕ) → result ≡ Err (TermFault.BadChild row) → IsFirstBad rows.items row }
        ensures nests { IsOk result ↔ ((vec_len rows ≤ most_rows) × Nests rows.items) }
        ensures memory { IsErrOf result TermFault.OutOfMemory → ⊥ }
    {
        if rows.len() > MOST_ROWS {
            return Err(TermFault::TooMany);
        }
        match first_bad(&rows) {
            Some(row) => Err(TermFault::BadChild { row }),
            None => Ok(Terms { rows, tables }),
        }
    }

    pub fn rows(&self) -> u32
        ensures count { result ≡ length self.now.rows }
        ensures table { IsTable self.now }
    {
        self.rows.len() as u32
    }

    pub fn row(&self, id: RowId) -> &Row
        requires { id < length self.now.rows }
        ensures row { slice_get self.now.rows id ≡ Some result.now }
        ensures nests { ChildrenBelow id result.now }
        ensures named { NamesWithin (named_by self.now) result.now }
    {
        &self.rows[id.number() as usize]
    }

    pub fn tables(&self) -> &Tables
        ensures tables { result.now ≡ named_by self.now }
        ensures bounded { All IsPrimitive result.now.primitives }
    {
        &self.tables
    }

    /// What the schema says of the test of a number in the tables, if it says anything.
    pub fn message(&self, test: u32) -> Option<&str>
        ensures { option_map (λ m. m.now) result ≡ message_of self.now test }
    {
        match self.tables.statements().get(test as usize) {
            Some(statement) => said(statement),
            None => None,
        }
    }
}
