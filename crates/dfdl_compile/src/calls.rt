// The calls that compile a schema.
ghost use Rattle.std.specs.Prelude.{◌≡◌, ◌≤◌, All, Ok, IfOk, IfErr};
ghost use Rattle.dfdl_terms.specs.Rows.{HasElementLast, HasPlainRows, most_rows};
ghost use Rattle.dfdl_components.specs.Rules.{AllKeep, loading_rules};
ghost use Rattle.dfdl_checks.specs.Forms.{IsWhole};
ghost use Rattle.dfdl_checks.specs.declared.purpose.Purpose.TheVariants.{Parsing, Unparsing};
ghost use Rattle.dfdl_compile.specs.Builds.{ComesTo, ComesToFault};
ghost use Rattle.dfdl_compile.specs.Primitives.{HasTypedLeaves, HasBareTypedLeaves};
ghost use Rattle.dfdl_compile.specs.Whole.{IsCompiled, IsOfOne};

use crate::compiling::compile_root;
use crate::fault::CompileFault;
use crate::whole::CompiledSchema;
use dfdl_breaches::{breaches, root_of};
use dfdl_checks::Purpose;
use dfdl_components::Schema;
use dfdl_edge::Patterns;
use dfdl_report::{Place, SchemaCause};
use dfdl_terms::Terms;
use std::alloc::Global;

// A schema for a purpose. The patterns of all elements are built, reached or not.
fn compile_for<P: Patterns>(
    alloc: Global,
    schema: &Schema,
    purpose: Purpose,
    depth: u32,
    rows: u32,
    patterns: &mut P,
) -> Result<CompiledSchema, CompileFault>
    requires keeps { AllKeep (loading_rules schema.now) schema.now }
    requires few { rows ≤ most_rows }
    ensures compiled { IfOk result (IsCompiled purpose schema.now depth rows
        (record { faults = P.faults patterns.old; last = P.last_refused patterns.old })
        (record { faults = P.faults patterns.new; last = P.last_refused patterns.new })) }
    ensures fault { IfErr result (ComesToFault purpose schema.now depth rows
        (record { faults = P.faults patterns.old; last = P.last_refused patterns.old })
        (record { faults = P.faults patterns.new; last = P.last_refused patterns.new })) }
    ensures of_one { IfOk result IsOfOne }
    ensures element { IfOk result (λ whole. HasElementLast whole.terms) }
    ensures leaves { IfOk result (λ whole. HasTypedLeaves whole.terms) }
    ensures whole { purpose ≡ Unparsing → IfOk result (λ whole. All IsWhole whole.terms.primitives) }
    ensures bare { purpose ≡ Unparsing → IfOk result (λ whole. HasBareTypedLeaves whole.terms) }
    ensures plain { purpose ≡ Unparsing → IfOk result (λ whole. HasPlainRows whole.terms.rows) }
{
    let judgements = breaches(alloc, schema, purpose, patterns)?;
    match root_of(schema) {
        Some(root) => compile_root(alloc, schema, purpose, judgements, root, depth, rows),
        None => Err(CompileFault::Refused {
            cause: SchemaCause::NameNotFound,
            place: Place { document: 0, at: 0 },
        }),
    }
}

/// A schema, whose documents keep the rules of loading, with all that parsing and unparsing ask of it: the terms that `compile` gives
/// under the same conditions, the components that these come from, how each component is written, and the root. It is refused as `compile`
/// refuses it. The patterns of lengths are built by `patterns`, each once.
pub fn compile_for_both<P: Patterns>(
    alloc: Global,
    schema: &Schema,
    depth: u32,
    rows: u32,
    patterns: &mut P,
) -> Result<CompiledSchema, CompileFault>
    requires keeps { AllKeep (loading_rules schema.now) schema.now }
    requires few { rows ≤ most_rows }
    ensures compiled { IfOk result (IsCompiled Parsing schema.now depth rows
        (record { faults = P.faults patterns.old; last = P.last_refused patterns.old })
        (record { faults = P.faults patterns.new; last = P.last_refused patterns.new })) }
    ensures fault { IfErr result (ComesToFault Parsing schema.now depth rows
        (record { faults = P.faults patterns.old; last = P.last_refused patterns.old })
        (record { faults = P.faults patterns.new; last = P.last_refused patterns.new })) }
    ensures of_one { IfOk result IsOfOne }
    ensures element { IfOk result (λ whole. HasElementLast whole.terms) }
    ensures leaves { IfOk result (λ whole. HasTypedLeaves whole.terms) }
{
    compile_for(alloc, schema, Purpose::Parsing, depth, rows, patterns)
}

/// The terms by which data of a schema are parsed, whose documents keep the rules of loading. Elements may be nested in
/// one another `depth` deep, and there may be `rows` rows. The patterns of lengths are built by `patterns`, each once.
pub fn compile<P: Patterns>(
    alloc: Global,
    schema: &Schema,
    depth: u32,
    rows: u32,
    patterns: &mut P,
) -> Result<Terms, CompileFault>
    requires keeps { AllKeep (loading_rules schema.now) schema.now }
    requires few { rows ≤ most_rows }
    ensures rows { IfOk result (λ t. ComesTo Parsing schema.now depth rows
        (record { faults = P.faults patterns.old; last = P.last_refused patterns.old })
        (record { faults = P.faults patterns.new; last = P.last_refused patterns.new }) (Ok t)) }
    ensures fault { IfErr result (ComesToFault Parsing schema.now depth rows
        (record { faults = P.faults patterns.old; last = P.last_refused patterns.old })
        (record { faults = P.faults patterns.new; last = P.last_refused patterns.new })) }
    ensures element { IfOk result HasElementLast }
    ensures leaves { IfOk result HasTypedLeaves }
{
    let CompiledSchema { terms, .. } = compile_for(
        alloc,
        schema,
        Purpose::Parsing,
        depth,
        rows,
        patterns,
    )?;
    Ok(terms)
}

/// The terms by which infosets of a schema are unparsed, under the same conditions. Fewer forms are built for unparsing:
/// each leaf is a whole unsigned integer, and there is neither fill nor a box nor a length prefix, and no pattern is built.
pub fn compile_for_unparse<P: Patterns>(
    alloc: Global,
    schema: &Schema,
    depth: u32,
    rows: u32,
    patterns: &mut P,
) -> Result<Terms, CompileFault>
    requires keeps { AllKeep (loading_rules schema.now) schema.now }
    requires few { rows ≤ most_rows }
    ensures rows { IfOk result (λ t. ComesTo Unparsing schema.now depth rows
        (record { faults = P.faults patterns.old; last = P.last_refused patterns.old })
        (record { faults = P.faults patterns.new; last = P.last_refused patterns.new }) (Ok t)) }
    ensures fault { IfErr result (ComesToFault Unparsing schema.now depth rows
        (record { faults = P.faults patterns.old; last = P.last_refused patterns.old })
        (record { faults = P.faults patterns.new; last = P.last_refused patterns.new })) }
    ensures element { IfOk result HasElementLast }
    ensures leaves { IfOk result HasBareTypedLeaves }
    ensures whole { IfOk result (λ t. All IsWhole t.primitives) }
    ensures plain { IfOk result (λ t. HasPlainRows t.rows) }
{
    let CompiledSchema { terms, .. } = compile_for(
        alloc,
        schema,
        Purpose::Unparsing,
        depth,
        rows,
        patterns,
    )?;
    Ok(terms)
}
