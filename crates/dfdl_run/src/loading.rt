// The loading of a schema.
ghost use Rattle.std.specs.Prelude.{◌≡◌, ◌⊎◌, Ok, IfOk, IfErr};
ghost use Rattle.dfdl_components.specs.Rules.{AllKeep, loading_rules};
ghost use Rattle.dfdl_documents.specs.Loading.{document_at};
ghost use Rattle.dfdl_terms.specs.Rows.{HasElementLast, HasPlainRows};
ghost use Rattle.dfdl_compile.specs.Settling.{Free};
ghost use Rattle.dfdl_compile.specs.Builds.{ComesTo, ComesToFault};
ghost use Rattle.dfdl_pieces.specs.Whole.{AreWholeFields};
ghost use Rattle.dfdl_run.specs.Decided.{AreFewLoads, IsDescribed, IsLoadFault};
ghost use Rattle.dfdl_run.specs.Schemas.{most_depth, most_rows, purpose_of, schema_stop};
ghost use Rattle.dfdl_run.specs.declared.command.Verb.TheVariants.{Unparse};

use crate::command::Verb;
use crate::stop::Stop;
use dfdl_compile::{CompileFault, compile, compile_for_unparse};
use dfdl_components::{Schema, SchemaFault, load};
use dfdl_edge::{Files, Patterns};
use dfdl_report::{LimitCause, Place, SchemaCause};
use dfdl_terms::Terms;
use dfdl_value::TextValue;
use std::alloc::Global;

/// The most bytes of a schema document.
pub const MOST_SCHEMA: u32 = 4_194_304;

/// The most documents of a schema.
pub const MOST_SCHEMAS: u32 = 64;

/// The most elements of a schema that are nested in one another.
pub const MOST_DEPTH: u32 = 60;

/// The most rows of a schema.
pub const MOST_ROWS: u32 = 65_535;

// What stops a run whose schema is not loaded.
fn stop_of(fault: SchemaFault) -> Stop
    ensures { result ≡ schema_stop fault }
{
    match fault {
        SchemaFault::Files { name } => Stop::FilesFailed { name },
        SchemaFault::Doc { cause, place, name } => Stop::NoDocument {
            cause,
            document: name,
            at: place.at,
        },
        SchemaFault::Schema { cause, place, name } => Stop::Refused {
            cause,
            document: name,
            at: place.at,
        },
        SchemaFault::Limit { cause, quantity } => limit(cause, quantity),
        SchemaFault::OutOfMemory => Stop::OutOfMemory,
    }
}

// The name of a document; of none it is empty.
fn name_of(schema: &Schema, document: u32) -> &str
    ensures { result.now ≡ (document_at schema.now document).name }
{
    if document < schema.count() {
        schema.name(document)
    } else {
        ""
    }
}

// What stops a run where a schema is refused at a place, or want of memory for the name of its document.
fn refused(alloc: Global, schema: &Schema, cause: SchemaCause, place: Place) -> Stop
    ensures { (result ≡ Stop.Refused cause (document_at schema.now place.document).name place.at) ⊎ (result ≡ Stop.OutOfMemory) }
{
    match TextValue::from_str(alloc, name_of(schema, place.document)) {
        Ok(document) => Stop::Refused {
            cause,
            document,
            at: place.at,
        },
        Err(_) => Stop::OutOfMemory,
    }
}

// What stops a run at a limit.
pub(crate) fn limit(cause: LimitCause, quantity: u64) -> Stop
    ensures { result ≡ Stop.Limit cause quantity }
{
    Stop::Limit { cause, quantity }
}

// The terms of a loaded schema for a verb.
fn compiled<P: Patterns>(
    alloc: Global,
    verb: Verb,
    schema: &Schema,
    patterns: &mut P,
) -> Result<Terms, CompileFault>
    requires keeps { AllKeep (loading_rules schema.now) schema.now }
    ensures rows { IfOk result (λ t. ComesTo (purpose_of verb) schema.now most_depth most_rows
        (record { faults = P.faults patterns.old; last = P.last_refused patterns.old })
        (record { faults = P.faults patterns.new; last = P.last_refused patterns.new }) (Ok t)) }
    ensures fault { IfErr result (ComesToFault (purpose_of verb) schema.now most_depth most_rows
        (record { faults = P.faults patterns.old; last = P.last_refused patterns.old })
        (record { faults = P.faults patterns.new; last = P.last_refused patterns.new })) }
    ensures element { IfOk result HasElementLast }
    ensures whole { verb ≡ Unparse → IfOk result AreWholeFields }
    ensures plain { verb ≡ Unparse → IfOk result (λ t. HasPlainRows t.rows) }
{
    match verb {
        Verb::Parse => compile(alloc, schema, MOST_DEPTH, MOST_ROWS, patterns),
        Verb::Unparse => compile_for_unparse(alloc, schema, MOST_DEPTH, MOST_ROWS, patterns),
    }
}

// The terms for a verb of the schema whose first document has this name, or what stops the run in their place.
pub(crate) fn load_terms<F: Files, P: Patterns>(
    alloc: Global,
    files: &mut F,
    patterns: &mut P,
    verb: Verb,
    name: &str,
) -> Result<Terms, Stop>
    ensures element { IfOk result HasElementLast }
    ensures whole { verb ≡ Unparse → IfOk result AreWholeFields }
    ensures plain { verb ≡ Unparse → IfOk result (λ t. HasPlainRows t.rows) }
    ensures ok { IfOk result (λ t. (free : Free) × IsDescribed verb free (F.seen files.old) (F.seen files.new)
        (record { faults = P.faults patterns.old; last = P.last_refused patterns.old })
        (record { faults = P.faults patterns.new; last = P.last_refused patterns.new }) name.now t) }
    ensures err { IfErr result (λ stop. (free : Free) × IsLoadFault verb free (F.seen files.old) (F.seen files.new)
        (record { faults = P.faults patterns.old; last = P.last_refused patterns.old })
        (record { faults = P.faults patterns.new; last = P.last_refused patterns.new }) name.now stop) }
    ensures few { AreFewLoads (F.seen files.old) (F.seen files.new) }
{
    let schema = match load(alloc, files, name, MOST_SCHEMA, MOST_SCHEMAS) {
        Ok(schema) => schema,
        Err(fault) => return Err(stop_of(fault)),
    };
    match compiled(alloc, verb, &schema, patterns) {
        Ok(terms) => Ok(terms),
        Err(CompileFault::Refused { cause, place }) => Err(refused(alloc, &schema, cause, place)),
        Err(CompileFault::Limit { cause, quantity }) => Err(limit(cause, u64::from(quantity))),
        Err(CompileFault::OutOfMemory) => Err(Stop::OutOfMemory),
    }
}
