// The statements of rows, settled.
ghost use Rattle.std.specs.Prelude.{◌≡◌, ◌≤◌, length, option_map, All, Ok, Err, IfOk, IfErr};
ghost use Rattle.std.specs.List.{AllZip};
ghost use Rattle.dfdl_terms.specs.Rows.{most_rows};
ghost use Rattle.dfdl_statements.specs.Elements.{name_numbers};
ghost use Rattle.dfdl_variables.specs.Variables.{variables_of};
ghost use Rattle.dfdl_written.specs.Noting.{IsNotedWithin};
ghost use Rattle.dfdl_compile.specs.Compiled.{Laid};
ghost use Rattle.dfdl_compile.specs.Faults.{IsSettledFault};
ghost use Rattle.dfdl_compile.specs.FaultsShown as shown;
ghost use Rattle.dfdl_compile.specs.Settling.{Sees, Settles, given_of, table_with};
ghost use Rattle.dfdl_compile.specs.Shown.{IsAsWritten};

use crate::fault::CompileFault;
use dfdl_components::Schema;
use dfdl_rows::RefusedRow;
use dfdl_statements::{
    Declared as DeclaredElements, GivenRefusal, Refusal, Sight, StatementFault, declare, settle,
};
use dfdl_terms::{NameNumbers, Row, Statement};
use dfdl_variables::Declared;
use dfdl_written::{Noted, namespaces_of, variables_by_name, written_with};
use std::alloc::Global;

/// The statements of rows, and the numbers of the names of their elements.
#[derive(Drop)]
pub(crate) struct SettledRows {
    pub(crate) statements: Vec<Statement>,
    pub(crate) numbers: NameNumbers,
}

// A fault of statements as one of a schema.
fn statement_fault(fault: StatementFault) -> CompileFault
    ensures { result ≡ shown.statement_fault fault }
{
    match fault {
        StatementFault::Refused(refusal) => CompileFault::Refused {
            cause: refusal.cause,
            place: refusal.place,
        },
        StatementFault::OutOfMemory => CompileFault::OutOfMemory,
    }
}

// The refusal of a component, as it is given where statements are settled.
fn given_of(refused: Option<RefusedRow>) -> Option<GivenRefusal>
    ensures { result ≡ option_map given_of refused }
{
    match refused {
        Some(refused) => Some(GivenRefusal {
            row: refused.row,
            refusal: Refusal {
                cause: refused.refusal.cause,
                place: refused.refusal.place,
            },
        }),
        None => None,
    }
}

// The statements of rows with the refusal of a component, which are noted so, over what expressions may name.
fn settle_with(
    alloc: Global,
    schema: &Schema,
    rows: &[Row],
    refused: Option<RefusedRow>,
    noted: Vec<Noted>,
    sight: &Sight<'_>,
) -> Result<Vec<Statement>, CompileFault>
    requires few { length rows.now ≤ most_rows }
    requires within { All (IsNotedWithin schema.now) noted.items }
    requires sees { Sees schema.now rows.now sight.now }
    ensures settled { (laid : Laid) → laid.rows ≡ rows.now → laid.refused ≡ refused → laid.told.noted ≡ noted.items
        → IfOk result (λ made. Settles schema.now laid (Ok (table_with laid made.items))) }
    ensures written { IfOk result (λ made. AllZip IsAsWritten noted.items made.items) }
    ensures counted { IfOk result (λ made. length made.items ≡ length noted.items) }
    ensures fault { (laid : Laid) → laid.rows ≡ rows.now → laid.refused ≡ refused → laid.told.noted ≡ noted.items → IfErr result (IsSettledFault schema.now laid) }
{
    let namespaces = namespaces_of(alloc, schema, noted.as_slice())?;
    let written = written_with(alloc, schema, noted, namespaces.as_slice())?;
    match settle(alloc, rows, sight, written, given_of(refused)) {
        Ok(statements) => Ok(statements),
        Err(fault) => Err(statement_fault(fault)),
    }
}

/// The statements of rows, which are noted so, over the variables of a schema. With the refusal of a component there are none.
pub(crate) fn settle_rows(
    alloc: Global,
    schema: &Schema,
    rows: &[Row],
    refused: Option<RefusedRow>,
    noted: Vec<Noted>,
    variables: &[Declared],
) -> Result<SettledRows, CompileFault>
    requires few { length rows.now ≤ most_rows }
    requires within { All (IsNotedWithin schema.now) noted.items }
    requires variables { variables.now ≡ variables_of schema.now }
    ensures settled { (laid : Laid) → laid.rows ≡ rows.now → laid.refused ≡ refused → laid.told.noted ≡ noted.items
        → IfOk result (λ made. Settles schema.now laid (Ok (table_with laid made.statements.items))) }
    ensures numbers { IfOk result (λ made. made.numbers ≡ name_numbers rows.now) }
    ensures written { IfOk result (λ made. AllZip IsAsWritten noted.items made.statements.items) }
    ensures counted { IfOk result (λ made. length made.statements.items ≡ length noted.items) }
    ensures fault { (laid : Laid) → laid.rows ≡ rows.now → laid.refused ≡ refused → laid.told.noted ≡ noted.items → IfErr result (IsSettledFault schema.now laid) }
{
    let DeclaredElements {
        elements,
        names,
        numbers,
    } = declare(alloc, rows)?;
    let named = variables_by_name(alloc, variables)?;
    let sight = Sight {
        elements: elements.as_slice(),
        names: &names,
        variables: &named,
    };
    let statements = settle_with(alloc, schema, rows, refused, noted, &sight)?;
    Ok(SettledRows {
        statements,
        numbers,
    })
}
