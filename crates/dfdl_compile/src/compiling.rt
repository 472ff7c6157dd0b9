// The terms of a schema, or why it has none.
ghost use Rattle.std.specs.Prelude.{◌≡◌, ◌<◌, ◌≤◌, ◌++◌, Bool, true, length, map, vec_len, All, Ok, Some, None, IfOk, IfErr};
ghost use Rattle.std.specs.List.{AllZip};
ghost use Rattle.dfdl_terms.specs.Rows.{HasElementLast, HasPlainRows, IsPrimitive, NamesWithin, Nests, most_rows};
ghost use Rattle.dfdl_terms.specs.Tables.{Named};
ghost use Rattle.dfdl_rows.specs.Leaves.{HaveBareLeaves, HaveLeaves};
ghost use Rattle.dfdl_report.specs.declared.cause.SchemaCause.TheVariants.{Recursive};
ghost use Rattle.dfdl_components.specs.Recursion.{number_of};
ghost use Rattle.dfdl_components.specs.Sites.{IsSite, role_of};
ghost use Rattle.dfdl_components.specs.declared.site.Site as declared_site;
ghost use Rattle.dfdl_chains.specs.Everywhere as everywhere;
ghost use Rattle.dfdl_chains.specs.Shown.{AreNumbers};
ghost use Rattle.dfdl_breaches.specs.Elements.{place_of};
ghost use Rattle.dfdl_compile.specs.declared.fault.CompileFault.TheVariants.{Refused, OutOfMemory};
ghost use Rattle.dfdl_variables.specs.Variables.{variables_of};
ghost use Rattle.dfdl_written.specs.Noting.{IsNotedWithin, noted_each, stated_by};
ghost use Rattle.dfdl_compile.specs.Components.{components_of, delimiters_of, primitives_of};
ghost use Rattle.dfdl_compile.specs.Compiled.{by_root, first_recursive, laid, told_of};
ghost use Rattle.dfdl_compile.specs.Delimiters.{initiator_list_by, separator_list_by, terminator_list_by};
ghost use Rattle.dfdl_compile.specs.Primitives.{HasTypedLeaves, HasBareTypedLeaves, HasWrittenText, empty_primitive_by, nil_primitive_by, prefix_primitive_by, primitive_by, tried_primitive_by};
ghost use Rattle.dfdl_compile.specs.Settling.{Ends, Settles};
ghost use Rattle.dfdl_compile.specs.Statements.{noted_of};
ghost use Rattle.dfdl_compile.specs.Whole.{IsOfOne, writing_by, writings_of};
ghost use Rattle.dfdl_checks.specs.Forms.{IsWhole};
ghost use Rattle.dfdl_checks.specs.declared.purpose.Purpose.TheVariants.{Unparsing};
ghost use Rattle.dfdl_chains.specs.Everywhere.{for_each};
ghost use Rattle.dfdl_breaches.specs.Judging.{judgement_at};
ghost use Rattle.dfdl_breaches.specs.Roots.{is_global_element};
ghost use Rattle.dfdl_compile.specs.Faults.{IsEndFault, IsFaultOf, IsRecursionFault, IsSettledFault};
ghost use Rattle.dfdl_compile.specs.FaultsShown.{fault_of};
ghost use Rattle.dfdl_compile.specs.Shown.{AreGathered, EndsWithElement, HidesElement, IsAsWritten, IsStatedWithin, told_shown};

use crate::fault::CompileFault;
use crate::gathering::{components, refusals};
use crate::parts::{place_at, places, uses};
use crate::primitives::{Naming, named};
use crate::settling::{SettledRows, settle_rows};
use crate::whole::{CompiledSchema, with_terms};
use dfdl_breaches::Judgement;
use dfdl_breaches::laws::{
    calculated_elements_are_simple, hidden_groups_are_within,
    sound_elements_have_bounded_primitives, statements_are_for_parsing, told_statements_are_within,
};
use dfdl_chains::{Numbers, all_sites};
use dfdl_checks::Purpose;
use dfdl_components::{Schema, Site};
use dfdl_order::laws::nothing_in_an_order_reaches_itself;
use dfdl_order::{OrderFault, Uses, order_of};
use dfdl_report::{Place, SchemaCause};
use dfdl_rows::{
    Component, Components, LaidRows, Refusal, RefusedRow, RowsFault, rows_of, terms_from,
};
use dfdl_terms::{Delimiters, Primitive, Row, Tables, Terms, Writing};
use dfdl_variables::{Declared, variables_of};
use dfdl_written::{Noted, definitions, note};
use std::alloc::{AllocError, Global};

// A fault of rows as one of a schema.
fn fault_of(fault: RowsFault) -> CompileFault
    ensures { result ≡ fault_of fault }
{
    match fault {
        RowsFault::Refused(refusal) => CompileFault::Refused {
            cause: refusal.cause,
            place: refusal.place,
        },
        RowsFault::Limit { cause, quantity } => CompileFault::Limit { cause, quantity },
        RowsFault::OutOfMemory => CompileFault::OutOfMemory,
    }
}

// The components of a schema for a purpose, and the elements that they are.
#[derive(Drop)]
struct Gathered {
    purpose: Purpose,
    sites: Vec<Site>,
    uses: Uses,
    components: Vec<Component>,
    refusals: Vec<Option<Refusal>>,
    places: Vec<Place>,
}

// What each element of the documents is as a component, of which this is told.
fn gather(
    alloc: Global,
    schema: &Schema,
    numbers: &Numbers,
    purpose: Purpose,
    judgements: &[Judgement],
) -> Result<Gathered, CompileFault>
    requires numbers { AreNumbers schema.now numbers.now }
    requires told { length judgements.now ≡ length (everywhere.all_sites schema.now) }
    requires hidden { All (HidesElement schema.now) judgements.now }
    ensures gathered { (refused : declared_site.Site → Bool)
        → judgements.now ≡ for_each schema.now (judgement_at purpose refused schema.now)
        → IfOk result (AreGathered refused schema.now) }
    ensures purpose { IfOk result (λ g. g.purpose ≡ purpose) }
    ensures only_memory { IfErr result (λ e. e ≡ OutOfMemory) }
{
    let sites = all_sites(alloc, schema)?;
    let components = components(
        alloc,
        schema,
        numbers,
        purpose,
        sites.as_slice(),
        judgements,
    )?;
    let refusals = refusals(alloc, judgements)?;
    let places = places(alloc, schema, sites.as_slice())?;
    let Ok(uses) = uses(
        alloc,
        schema,
        numbers,
        purpose,
        sites.as_slice(),
        judgements,
    ) else {
        return Err(CompileFault::OutOfMemory);
    };
    Ok(Gathered {
        purpose,
        sites,
        uses,
        components,
        refusals,
        places,
    })
}

// The fault of a schema with a component that reaches itself.
fn recursive(schema: &Schema, sites: &[Site], component: u32) -> CompileFault
    requires sites { sites.now ≡ everywhere.all_sites schema.now }
    requires within { component < length sites.now }
    ensures { result ≡ Refused Recursive (place_of schema.now (everywhere.site_at schema.now component)) }
{
    CompileFault::Refused {
        cause: SchemaCause::Recursive,
        place: place_at(schema, sites[component as usize]),
    }
}

// The components in an order, or the fault of one that reaches itself.
fn ordered(alloc: Global, schema: &Schema, gathered: Gathered) -> Result<Components, CompileFault>
    requires { (refused : declared_site.Site → Bool) × AreGathered refused schema.now gathered }
    ensures components { (refused : declared_site.Site → Bool) → AreGathered refused schema.now gathered
        → IfOk result (λ made. made ≡ components_of gathered.purpose refused schema.now) }
    ensures none { (refused : declared_site.Site → Bool) → AreGathered refused schema.now gathered
        → IfOk result (λ made. first_recursive (components_of gathered.purpose refused schema.now).uses ≡ None) }
    ensures fault { (refused : declared_site.Site → Bool) → AreGathered refused schema.now gathered
        → IfErr result (IsRecursionFault gathered.purpose refused schema.now) }
{
    nothing_in_an_order_reaches_itself();
    hidden_groups_are_within();
    calculated_elements_are_simple();
    let Gathered {
        sites,
        uses,
        components,
        refusals,
        places,
        ..
    } = gathered;
    match order_of(alloc, &uses) {
        Ok(order) => Ok(Components::new(uses, order, components, refusals, places)),
        Err(OrderFault::Recursive { component }) => {
            Err(recursive(schema, sites.as_slice(), component))
        }
        Err(OrderFault::OutOfMemory) => Err(CompileFault::OutOfMemory),
    }
}

// The rows of a root, with the first refusal of a component, and the components that they come from.
#[derive(Drop)]
struct LaidSchema {
    rows: Vec<Row>,
    refused: Option<RefusedRow>,
    components: Components,
}

// The same of a schema with this root, of whose elements this is told, or why there are no rows.
fn lay(
    alloc: Global,
    schema: &Schema,
    numbers: &Numbers,
    purpose: Purpose,
    judgements: &[Judgement],
    root: Site,
    depth: u32,
    rows: u32,
) -> Result<LaidSchema, CompileFault>
    requires told { (refused : declared_site.Site → Bool)
        × (judgements.now ≡ for_each schema.now (judgement_at purpose refused schema.now)) }
    requires numbers { AreNumbers schema.now numbers.now }
    requires within { IsSite schema.now root }
    requires global { is_global_element (role_of schema.now root) ≡ true }
    ensures rows { (refused : declared_site.Site → Bool)
        → judgements.now ≡ for_each schema.now (judgement_at purpose refused schema.now)
        → IfOk result (λ made. by_root purpose refused schema.now depth rows (Some root) ≡ Ok (laid made.rows.items made.refused (told_of purpose refused schema.now))) }
    ensures fault { (refused : declared_site.Site → Bool)
        → judgements.now ≡ for_each schema.now (judgement_at purpose refused schema.now)
        → IfErr result (IsFaultOf (by_root purpose refused schema.now depth rows (Some root))) }
    ensures some { IfOk result (λ made. 0 < vec_len made.rows) }
    ensures few { IfOk result (λ made. vec_len made.rows ≤ rows) }
    ensures nests { IfOk result (λ made. Nests made.rows.items) }
    ensures named { (refused : declared_site.Site → Bool)
        → judgements.now ≡ for_each schema.now (judgement_at purpose refused schema.now)
        → (named : Named) → named.primitives ≡ primitives_of purpose refused schema.now → named.delimiters ≡ delimiters_of purpose refused schema.now
        → length named.statements ≡ length (noted_of purpose refused schema.now)
        → IfOk result (λ made. All (NamesWithin named) made.rows.items) }
    ensures components { (refused : declared_site.Site → Bool)
        → judgements.now ≡ for_each schema.now (judgement_at purpose refused schema.now)
        → IfOk result (λ made. made.components ≡ components_of purpose refused schema.now) }
    ensures element { IfOk result (λ made. EndsWithElement made.rows.items) }
    ensures leaves { (refused : declared_site.Site → Bool)
        → judgements.now ≡ for_each schema.now (judgement_at purpose refused schema.now)
        → IfOk result (λ made. HaveLeaves (components_of purpose refused schema.now).components made.rows.items) }
    ensures bare { purpose ≡ Unparsing → (refused : declared_site.Site → Bool)
        → judgements.now ≡ for_each schema.now (judgement_at purpose refused schema.now)
        → IfOk result (λ made. HaveBareLeaves (components_of purpose refused schema.now).components made.rows.items) }
    ensures plain { purpose ≡ Unparsing → IfOk result (λ made. HasPlainRows made.rows.items) }
{
    sound_elements_have_bounded_primitives();
    statements_are_for_parsing();
    hidden_groups_are_within();
    let gathered = gather(alloc, schema, numbers, purpose, judgements)?;
    let components = ordered(alloc, schema, gathered)?;
    let number = numbers.number(schema, root);
    match rows_of(alloc, &components, number, depth, rows) {
        Ok(made) => {
            let LaidRows {
                rows: laid,
                refused,
            } = made;
            Ok(LaidSchema {
                rows: laid,
                refused,
                components,
            })
        }
        Err(fault) => Err(fault_of(fault)),
    }
}

// What the documents say of all rows.
#[derive(Drop)]
struct ToldLists {
    primitives: Vec<Primitive>,
    delimiters: Vec<Delimiters>,
    noted: Vec<Noted>,
}

// The same, and how the elements are written.
#[derive(Drop)]
struct ToldSchema {
    lists: ToldLists,
    writings: Vec<Writing>,
}

// The same of a schema with these variables, of whose elements this is told.
fn tell(
    alloc: Global,
    schema: &Schema,
    numbers: &Numbers,
    variables: &[Declared],
    judgements: Vec<Judgement>,
) -> Result<ToldSchema, AllocError>
    requires numbers { AreNumbers schema.now numbers.now }
    requires variables { variables.now ≡ variables_of schema.now }
    requires told { length judgements.items ≡ length (everywhere.all_sites schema.now) }
    requires stated { All (IsStatedWithin schema.now) judgements.items }
    ensures primitives { IfOk result (λ told. told.lists.primitives.items ≡ map primitive_by judgements.items
        ++ (map prefix_primitive_by judgements.items
        ++ (map nil_primitive_by judgements.items
        ++ (map empty_primitive_by judgements.items ++ map tried_primitive_by judgements.items)))) }
    ensures delimiters { IfOk result (λ told. told.lists.delimiters.items ≡ map initiator_list_by judgements.items
        ++ (map terminator_list_by judgements.items ++ map separator_list_by judgements.items)) }
    ensures noted { IfOk result (λ told. told.lists.noted.items
        ≡ noted_each schema.now (everywhere.all_sites schema.now) (map stated_by judgements.items)) }
    ensures within { IfOk result (λ told. All (IsNotedWithin schema.now) told.lists.noted.items) }
    ensures written { IfOk result (λ told. All HasWrittenText told.lists.primitives.items) }
    ensures writings { IfOk result (λ told. told.writings.items ≡ map writing_by judgements.items) }
{
    let sites = all_sites(alloc, schema)?;
    let Naming {
        primitives,
        delimiters,
        stated,
        writings,
    } = named(alloc, judgements)?;
    let noted = note(alloc, schema, numbers, variables, sites.as_slice(), stated)?;
    Ok(ToldSchema {
        lists: ToldLists {
            primitives,
            delimiters,
            noted,
        },
        writings,
    })
}

// The terms of rows over what the documents say of them and the variables of these, or why a component or a statement is refused.
fn finish(
    alloc: Global,
    schema: &Schema,
    rows: Vec<Row>,
    refused: Option<RefusedRow>,
    told: ToldLists,
    variables: Vec<Declared>,
) -> Result<Terms, CompileFault>
    requires some { 0 < vec_len rows }
    requires few { vec_len rows ≤ most_rows }
    requires nests { Nests rows.items }
    requires named { (named : Named) → named.primitives ≡ told.primitives.items → named.delimiters ≡ told.delimiters.items
        → length named.statements ≡ length told.noted.items → All (NamesWithin named) rows.items }
    requires bounded { All IsPrimitive told.primitives.items }
    requires within { All (IsNotedWithin schema.now) told.noted.items }
    requires variables { variables.items ≡ variables_of schema.now }
    ensures rows { IfOk result (λ t. t.rows ≡ rows.items) }
    ensures primitives { IfOk result (λ t. t.primitives ≡ told.primitives.items) }
    ensures written { IfOk result (λ t. AllZip IsAsWritten told.noted.items t.statements) }
    ensures settled { IfOk result (λ t. Settles schema.now (laid rows.items refused (told_shown told variables.items)) (Ok t)) }
    ensures fault { IfErr result (IsSettledFault schema.now (laid rows.items refused (told_shown told variables.items))) }
{
    let ToldLists {
        primitives,
        delimiters,
        noted,
    } = told;
    let SettledRows {
        statements,
        numbers,
    } = settle_rows(
        alloc,
        schema,
        rows.as_slice(),
        refused,
        noted,
        variables.as_slice(),
    )?;
    let variables = definitions(alloc, variables)?;
    let tables = Tables::new(primitives, delimiters, statements, numbers, variables);
    Ok(terms_from(alloc, rows, tables))
}

/// A schema with this root, of whose elements this is told, or why it has no terms.
#[tactic(auto, using(crate::proofs::Finishing::rows_fault))]
pub(crate) fn compile_root(
    alloc: Global,
    schema: &Schema,
    purpose: Purpose,
    judgements: Vec<Judgement>,
    root: Site,
    depth: u32,
    rows: u32,
) -> Result<CompiledSchema, CompileFault>
    requires told { (refused : declared_site.Site → Bool)
        × (judgements.items ≡ for_each schema.now (judgement_at purpose refused schema.now)) }
    requires within { IsSite schema.now root }
    requires global { is_global_element (role_of schema.now root) ≡ true }
    requires few { rows ≤ most_rows }
    ensures rows { (refused : declared_site.Site → Bool)
        → judgements.items ≡ for_each schema.now (judgement_at purpose refused schema.now)
        → IfOk result (λ whole. Ends schema.now (by_root purpose refused schema.now depth rows (Some root)) (Ok whole.terms)) }
    ensures fault { (refused : declared_site.Site → Bool)
        → judgements.items ≡ for_each schema.now (judgement_at purpose refused schema.now)
        → IfErr result (IsEndFault schema.now (by_root purpose refused schema.now depth rows (Some root))) }
    ensures components { (refused : declared_site.Site → Bool)
        → judgements.items ≡ for_each schema.now (judgement_at purpose refused schema.now)
        → IfOk result (λ whole. whole.components ≡ components_of purpose refused schema.now) }
    ensures root { IfOk result (λ whole. whole.root ≡ number_of schema.now root) }
    ensures writings { (refused : declared_site.Site → Bool)
        → judgements.items ≡ for_each schema.now (judgement_at purpose refused schema.now)
        → IfOk result (λ whole. whole.writings.items ≡ writings_of purpose refused schema.now) }
    ensures of_one { IfOk result IsOfOne }
    ensures element { IfOk result (λ whole. HasElementLast whole.terms) }
    ensures leaves { IfOk result (λ whole. HasTypedLeaves whole.terms) }
    ensures whole { purpose ≡ Unparsing → IfOk result (λ whole. All IsWhole whole.terms.primitives) }
    ensures bare { purpose ≡ Unparsing → IfOk result (λ whole. HasBareTypedLeaves whole.terms) }
    ensures plain { purpose ≡ Unparsing → IfOk result (λ whole. HasPlainRows whole.terms.rows) }
{
    sound_elements_have_bounded_primitives();
    told_statements_are_within();
    let numbers = Numbers::of(alloc, schema)?;
    let LaidSchema {
        rows: made,
        refused,
        components,
    } = lay(
        alloc,
        schema,
        &numbers,
        purpose,
        judgements.as_slice(),
        root,
        depth,
        rows,
    )?;
    let variables = variables_of(alloc, schema, &numbers)?;
    let ToldSchema {
        lists: told,
        writings,
    } = tell(alloc, schema, &numbers, variables.as_slice(), judgements)?;
    let terms = finish(alloc, schema, made, refused, told, variables);
    with_terms(terms, components, numbers.number(schema, root), writings)
}
