// The rows of a root, or why there are none.
ghost use Rattle.std.specs.Prelude.{◌≡◌, ◌<◌, ◌≤◌, ◌^◌, ℕ, length, All, IfOk, IfErr, option_map, vec_len};
ghost use Rattle.dfdl_terms.specs.Rows.{most_rows as table_rows, Nests, NamesWithin, IsPrimitive, HasPlainRows, table_of};
ghost use Rattle.dfdl_terms.specs.Tables.{Named};
ghost use Rattle.dfdl_rows.specs.Components.{component_at, HasPrimitive, HasDelimiters, HasStatements, IsBareComponent};
ghost use Rattle.dfdl_rows.specs.Leaves.{HaveLeaves, HaveBareLeaves};
ghost use Rattle.dfdl_rows.specs.Answers.{asked, AreRowsOf, IsFaultOf, EndsWith, past_rows};
ghost use Rattle.dfdl_rows.specs.Positions as positions;
ghost use Rattle.dfdl_rows.specs.Sizes.{size_of};

use crate::depths::depth;
use crate::positions::refused_row;
use crate::refusals::first_refusal;
use crate::sizes::size;
use crate::walk::all_rows;
use crate::{Components, Refusal, RefusedRow, RowsFault};
use dfdl_report::LimitCause;
use dfdl_terms::{Row, Tables, Terms};
use std::alloc::{AllocError, Global};

/// The rows of a root, and the first refusal of a component that is reached from it, if there is one, at its row.
#[derive(Drop)]
pub struct LaidRows {
    pub rows: Vec<Row>,
    pub refused: Option<RefusedRow>,
}

// A refusal of the components that are reached from a root, if there is one, at its row.
fn at_row(
    alloc: Global,
    components: &Components,
    root: u32,
    refusal: Option<Refusal>,
) -> Result<Option<RefusedRow>, AllocError>
    requires within { root < length components.now.uses }
    requires few { size_of components.now root < 2 ^ 32 }
    ensures { IfOk result (λ found. found ≡ option_map (positions.refused_row components.now root) refusal) }
{
    match refusal {
        Some(refusal) => Ok(Some(refused_row(alloc, components, root, refusal)?)),
        None => Ok(None),
    }
}

// Why there are no rows where there are more than so many.
fn past_rows(most_rows: u32, refusal: Option<Refusal>) -> RowsFault
    ensures { result ≡ past_rows most_rows refusal }
{
    match refusal {
        Some(refusal) => RowsFault::Refused(refusal),
        None => RowsFault::Limit {
            cause: LimitCause::Rows,
            quantity: most_rows,
        },
    }
}

/// The rows of a component as the root, where elements are nested no deeper than `most_depth`, and there are no more
/// rows than `most_rows`. Else the first of these that fails; a component that is refused counts before the rows.
pub fn rows_of(
    alloc: Global,
    components: &Components,
    root: u32,
    most_depth: u32,
    most_rows: u32,
) -> Result<LaidRows, RowsFault>
    requires { root < length components.now.uses }
    ensures rows { IfOk result (λ made. AreRowsOf (asked components.now root most_depth most_rows) made.rows.items made.refused) }
    ensures fault { IfErr result (IsFaultOf (asked components.now root most_depth most_rows)) }
    ensures some { IfOk result (λ made. 0 < vec_len made.rows) }
    ensures few { IfOk result (λ made. vec_len made.rows ≤ most_rows) }
    ensures nests { IfOk result (λ made. Nests made.rows.items) }
    ensures root { IfOk result (λ made. EndsWith (component_at components.now.components root) made.rows.items) }
    ensures named { (named : Named) → All (HasPrimitive (length named.primitives)) components.now.components
        → All (HasDelimiters (length named.delimiters)) components.now.components
        → All (HasStatements (length named.statements)) components.now.components
        → IfOk result (λ made. All (NamesWithin named) made.rows.items) }
    ensures leaves { IfOk result (λ made. HaveLeaves components.now.components made.rows.items) }
    ensures bare { All IsBareComponent components.now.components
        → IfOk result (λ made. HaveBareLeaves components.now.components made.rows.items) }
    ensures plain { All IsBareComponent components.now.components → IfOk result (λ made. HasPlainRows made.rows.items) }
{
    components.facts();
    if depth(alloc, components, root)? > u64::from(most_depth) {
        return Err(RowsFault::Limit {
            cause: LimitCause::Depth,
            quantity: most_depth,
        });
    }
    let refusal = first_refusal(alloc, components, root)?;
    if size(alloc, components, root)? > u64::from(most_rows) {
        return Err(past_rows(most_rows, refusal));
    }
    let refused = at_row(alloc, components, root, refusal)?;
    let rows = all_rows(alloc, components, root)?;
    Ok(LaidRows { rows, refused })
}

/// Rows as terms, with what they name by numbers.
pub fn terms_from(alloc: Global, rows: Vec<Row>, tables: Tables) -> Terms
    requires some { 0 < vec_len rows }
    requires few { vec_len rows ≤ table_rows }
    requires nests { Nests rows.items }
    requires named { All (NamesWithin tables) rows.items }
    requires bounded { All IsPrimitive tables.primitives }
    ensures { result ≡ table_of rows.items tables }
{
    match Terms::build(alloc, rows, tables) {
        Ok(terms) => terms,
        Err(_) => unreachable!(),
    }
}
