// The components of a schema's documents.
ghost use Rattle.std.specs.Prelude.{◌≡◌, ◌+◌, ◌<◌, ◌++◌, ◌∷◌, [], Bool, length, map, All, IfOk, OnOk, IfErr, option_map, unwrap_or};
ghost use Rattle.dfdl_forms.specs.declared.simple.Simple.TheVariants.{UnsignedByte};
ghost use Rattle.dfdl_checks.specs.Subjects.{simple_of};
ghost use Rattle.dfdl_components.specs.Recursion.{count_of, number_of};
ghost use Rattle.dfdl_components.specs.Sites.{IsSite};
ghost use Rattle.dfdl_chains.specs.Kinds.{kind_at};
ghost use Rattle.dfdl_chains.specs.Shown.{AreNumbers};
ghost use Rattle.dfdl_breaches.specs.Judging.{judgement_at};
ghost use Rattle.dfdl_components.specs.declared.site.Site as declared_site;
ghost use Rattle.dfdl_chains.specs.Everywhere.{all_sites};
ghost use Rattle.dfdl_compile.specs.Components as spec;
ghost use Rattle.dfdl_rows.specs.declared.component.Component.TheVariants.{Sequence};
ghost use Rattle.dfdl_compile.specs.Delimiters as delimiters;
ghost use Rattle.dfdl_compile.specs.Empties.{is_framed_alike};
ghost use Rattle.dfdl_compile.specs.Primitives.{primitive_by};
ghost use Rattle.dfdl_compile.specs.Shown.{HidesElement};
ghost use Rattle.dfdl_compile.specs.Statements as statements;

use crate::empties::{is_framed_alike, reads_as_normal};
use crate::keying::{dispatch_of, keyed_by};
use crate::measuring::{box_by, counted_by, leaf_length_by, measure_by, question_if};
use crate::primitives::{is_scanned_by, type_by};
use crate::stating::{
    StatedAround, calculation_number, count_number, first_behind, is_set_first, measure_number,
    stated_around,
};
use dfdl_breaches::Judgement;
use dfdl_chains::{Numbers, declaration, kind_at};
use dfdl_checks::{Breach, Delimiting, EmptyRepresentation, Kind, OtherRepresentations, Purpose};
use dfdl_components::{Schema, Site};
use dfdl_constructs::plain;
use dfdl_forms::Simple;
use dfdl_rows::{Component, Counted, Refusal, Separated};
use dfdl_terms::{Delimiter, Framing, Measure, Prefix, Primitive, Representations, WhereTried};
use dfdl_value::TextValue;
use std::alloc::{AllocError, Global};

// The local name of an element.
fn element_name(alloc: Global, schema: &Schema, site: Site) -> Result<TextValue, AllocError>
    requires { IsSite schema.now site }
    ensures { IfOk result (λ name. name ≡ spec.element_name schema.now site) }
{
    let declared = declaration(schema, site);
    let name = plain(schema.tree(declared.document), declared.element, "name");
    TextValue::from_str(alloc, name.unwrap_or(""))
}

// The length prefix of an element of which this is told, whose primitive has this number.
fn prefix_by(number: u32, judgement: &Judgement) -> Option<Prefix>
    ensures { result ≡ option_map (spec.prefix_by number) judgement.now.prefix }
{
    match &judgement.prefix {
        Some(form) => Some(Prefix {
            prim: number,
            unit: form.unit,
            own: form.own,
        }),
        None => None,
    }
}

// The number of a primitive, where there is one.
fn number_if(number: u32, primitive: &Option<Primitive>) -> Option<u32>
    ensures { result ≡ spec.number_if number primitive.now }
{
    match primitive {
        Some(_) => Some(number),
        None => None,
    }
}

// The number of the primitive of an empty representation, which is framed as the normal one or isn't, where it is needed.
fn number_if_needed(alike: bool, number: u32, own: &EmptyRepresentation) -> Option<u32>
    ensures { result ≡ spec.number_if_needed alike number own.now }
{
    if reads_as_normal(own) && alike {
        return None;
    }
    number_if(number, &own.empty)
}

// The empty representation of an occurrence that is tried, framed as the normal one or not, where its primitive has this number.
fn where_tried_by(alike: bool, number: u32, own: &EmptyRepresentation) -> WhereTried
    ensures { result ≡ spec.where_tried_by alike number own.now }
{
    WhereTried {
        empty: number_if_needed(alike, number, own),
        refuses_empty: own.refuses_empty,
        are_several: own.are_several,
    }
}

// The representations that are tried before an element's normal one, where the empty ones are framed as that or not, and where the primitives
// of its nil one and of the empty ones of a required occurrence and of one that is tried have these numbers.
fn tried_by(
    alike: bool,
    nil: u32,
    empty: u32,
    tried: u32,
    others: &OtherRepresentations,
) -> Representations
    ensures { result ≡ spec.tried_by alike nil empty tried others.now }
{
    Representations {
        nil: number_if(nil, &others.nil),
        empty: number_if_needed(alike, empty, &others.required),
        refuses_empty: others.required.refuses_empty,
        are_several: others.required.are_several,
        where_tried: where_tried_by(alike, tried, &others.where_tried),
    }
}

// A delimiter, where there is one, whose literals have this number.
fn delimiter_by(number: u32, delimiter: &Option<Delimiting>) -> Option<Delimiter>
    ensures { result ≡ option_map (delimiters.delimiter_by number) delimiter.now }
{
    match delimiter {
        Some(delimiter) => Some(Delimiter {
            list: number,
            in_nil: delimiter.in_nil,
            in_empty: delimiter.in_empty,
            resolves: delimiter.resolves,
        }),
        None => None,
    }
}

// What frames the content of a component of which this is told, around which these statements stand, and the literals of whose initiator and
// terminator have these numbers.
fn framing_with(
    stated: StatedAround,
    initiator: u32,
    terminator: u32,
    judgement: &Judgement,
) -> Framing
    ensures { result ≡ delimiters.framing_with stated initiator terminator judgement.now }
{
    Framing {
        before: stated.before,
        openings: stated.openings,
        settings: stated.settings,
        behind: stated.behind,
        initiator: delimiter_by(initiator, &judgement.markup.initiator),
        terminator: delimiter_by(terminator, &judgement.markup.terminator),
        ..judgement.framing
    }
}

// The separators of an element of which this is told, whose literals have this number.
fn separated_by(number: u32, judgement: &Judgement) -> Option<Separated>
    ensures { result ≡ option_map (delimiters.separated_by number) judgement.now.markup.separator }
{
    match &judgement.markup.separator {
        Some(separator) => Some(Separated {
            list: number,
            position: separator.position,
            policy: separator.policy,
        }),
        None => None,
    }
}

// What an element has that names things in the tables by their numbers.
#[derive(Clone, Copy)]
struct Numbered {
    // The number of its primitive.
    prim: u32,
    framing: Framing,
    prefix: Option<Prefix>,
    measure: Option<Measure>,
    tried: Representations,
    separated: Option<Separated>,
    counted: Counted,
}

// A choice with this framing and these separators, whose content is initiated or isn't. For unparsing it is refused.
fn choice_by(
    purpose: Purpose,
    framing: Framing,
    separated: Option<Separated>,
    initiated: bool,
) -> Component
    ensures { result ≡ spec.choice_by purpose framing separated initiated }
{
    match purpose {
        Purpose::Parsing => Component::Choice {
            framing,
            initiated,
            dispatch: None,
        },
        Purpose::Unparsing => sequence_by(framing, separated, initiated),
    }
}

// A sequence with this framing and these separators, whose content is initiated or isn't.
fn sequence_by(framing: Framing, separated: Option<Separated>, initiated: bool) -> Component
    ensures { result ≡ Sequence framing separated initiated }
{
    Component::Sequence {
        framing,
        separated,
        initiated,
    }
}

// A component that hides the group of this sequence or choice, or none.
fn hiding_by(hidden: Option<Site>, component: Component) -> Component
    ensures { result ≡ spec.hiding_by hidden component }
{
    match hidden {
        Some(_) => Component::Hidden,
        None => component,
    }
}

// An element or a group of this name, of which this is told for a purpose, with what names things in the tables.
fn component_by(
    purpose: Purpose,
    name: TextValue,
    judgement: &Judgement,
    numbered: Numbered,
    kind: Kind,
) -> Component
    ensures { result ≡ spec.component_by purpose name (primitive_by judgement.now) numbered.prim numbered.framing judgement.now.size numbered.prefix numbered.measure numbered.tried
        numbered.separated judgement.now.initiates judgement.now.occurs numbered.counted kind }
{
    let simple = type_by(judgement);
    let is_scanned = is_scanned_by(judgement);
    let Numbered {
        prim,
        framing,
        prefix,
        measure,
        tried,
        separated,
        counted,
    } = numbered;
    let initiated = judgement.initiates;
    let occurs = judgement.occurs;
    let length = leaf_length_by(prefix, measure);
    match kind {
        Kind::ComplexElement => Component::ComplexElement {
            name,
            framing,
            content_box: box_by(judgement.size, prefix, measure),
            occurs,
            counted,
        },
        Kind::SimpleElement(_) => Component::SimpleElement {
            name,
            simple,
            prim,
            framing,
            length,
            tried,
            is_scanned,
            occurs,
            counted,
        },
        Kind::UncarriedElement => Component::SimpleElement {
            name,
            simple,
            prim,
            framing,
            length,
            tried,
            is_scanned,
            occurs,
            counted,
        },
        Kind::CalculatedElement(_) => Component::SimpleElement {
            name,
            simple,
            prim,
            framing,
            length,
            tried,
            is_scanned,
            occurs,
            counted,
        },
        Kind::Sequence | Kind::HiddenSequence => sequence_by(framing, separated, initiated),
        Kind::Choice => choice_by(purpose, framing, separated, initiated),
        Kind::PrefixNumber(_) => sequence_by(framing, separated, initiated),
    }
}

// The type of a value that is calculated, of an element of this kind.
fn calculated_type(kind: Kind) -> Simple
    ensures { result ≡ unwrap_or (simple_of kind) UnsignedByte }
{
    match kind {
        Kind::SimpleElement(simple) | Kind::PrefixNumber(simple) => simple,
        _ => Simple::UnsignedByte,
    }
}

// What an element of a kind is for a purpose of which this is told: an element whose value the statement of this number calculates, or an
// element or a group of its own.
fn calculated_by(
    purpose: Purpose,
    name: TextValue,
    judgement: &Judgement,
    numbered: Numbered,
    statement: u32,
    kind: Kind,
) -> Component
    ensures { result ≡ spec.calculated_by judgement.now.calculation name (unwrap_or (simple_of kind) UnsignedByte) statement numbered.framing
        (spec.component_by purpose name (primitive_by judgement.now) numbered.prim numbered.framing judgement.now.size numbered.prefix numbered.measure numbered.tried
        numbered.separated judgement.now.initiates judgement.now.occurs numbered.counted kind) }
{
    match &judgement.calculation {
        Some(_) => Component::CalculatedElement {
            name,
            simple: calculated_type(kind),
            statement,
            framing: numbered.framing,
        },
        None => component_by(purpose, name, judgement, numbered, kind),
    }
}

// The number of what stands so many behind this one as there are elements. There is no memory for 2^32 primitives or lists.
fn one_list_behind(schema: &Schema, numbers: &Numbers, number: u32) -> Result<u32, AllocError>
    requires { AreNumbers schema.now numbers.now }
    ensures { IfOk result (λ behind. behind ≡ count_of schema.now + number) }
{
    let _ = schema;
    match numbers.count().checked_add(number) {
        Some(behind) => Ok(behind),
        None => Err(AllocError),
    }
}

// What frames the content of an element of the documents of which this is told, where its first statement has this number.
#[tactic(auto, using(crate::proofs::Fitting::framed))]
fn framing_of(
    schema: &Schema,
    numbers: &Numbers,
    first: u32,
    site: Site,
    judgement: &Judgement,
) -> Result<Framing, AllocError>
    requires site { IsSite schema.now site }
    requires numbers { AreNumbers schema.now numbers.now }
    ensures { IfOk result (λ framing. framing ≡ spec.framing_of schema.now first site judgement.now) }
{
    let initiator = numbers.number(schema, site);
    let terminator = one_list_behind(schema, numbers, initiator)?;
    let is_first = is_set_first(kind_at(schema, numbers, site));
    let stated = stated_around(is_first, first, judgement)?;
    Ok(framing_with(stated, initiator, terminator, judgement))
}

// What an element of the documents of which this is told has by numbers, where its first statement has this one.
fn by_numbers(
    schema: &Schema,
    numbers: &Numbers,
    first: u32,
    site: Site,
    judgement: &Judgement,
) -> Result<Numbered, AllocError>
    requires site { IsSite schema.now site }
    requires numbers { AreNumbers schema.now numbers.now }
    ensures prim { IfOk result (λ found. found.prim ≡ number_of schema.now site) }
    ensures framing { IfOk result (λ found. found.framing ≡ spec.framing_of schema.now first site judgement.now) }
    ensures prefix { IfOk result (λ found. found.prefix ≡ option_map (spec.prefix_by (spec.prefix_number schema.now site)) judgement.now.prefix) }
    ensures measure { IfOk result (λ found. found.measure
        ≡ option_map (spec.measure_by (statements.measure_number first judgement.now)) judgement.now.measure) }
    ensures tried { IfOk result (λ found. found.tried
        ≡ spec.tried_by (is_framed_alike judgement.now) (spec.nil_number schema.now site) (spec.empty_number schema.now site) (spec.tried_number schema.now site)
        judgement.now.others) }
    ensures separated { IfOk result (λ found. found.separated
        ≡ option_map (delimiters.separated_by (spec.separator_number schema.now site)) judgement.now.markup.separator) }
    ensures counted { IfOk result (λ found. found.counted
        ≡ spec.counted_by judgement.now.is_parsed (spec.number_if (statements.count_number first judgement.now) judgement.now.count)) }
{
    let prim = numbers.number(schema, site);
    let prefix = one_list_behind(schema, numbers, prim)?;
    let nil = one_list_behind(schema, numbers, prefix)?;
    let empty = one_list_behind(schema, numbers, nil)?;
    let tried = one_list_behind(schema, numbers, empty)?;
    let framing = framing_of(schema, numbers, first, site, judgement)?;
    // Those of separators stand as far behind as those of nil representations.
    let separator = nil;
    let measure = measure_number(first, judgement)?;
    let count = count_number(first, judgement)?;
    let count = question_if(count, &judgement.count);
    Ok(Numbered {
        prim,
        framing,
        prefix: prefix_by(prefix, judgement),
        measure: measure_by(measure, &judgement.measure),
        tried: tried_by(
            is_framed_alike(judgement),
            nil,
            empty,
            tried,
            &judgement.others,
        ),
        separated: separated_by(separator, judgement),
        counted: counted_by(judgement.is_parsed, count),
    })
}

// What an element of the documents is for a purpose, of which this is told, where its first statement has this number.
fn component_with(
    alloc: Global,
    schema: &Schema,
    numbers: &Numbers,
    purpose: Purpose,
    first: u32,
    site: Site,
    judgement: &Judgement,
) -> Result<Component, AllocError>
    requires site { IsSite schema.now site }
    requires numbers { AreNumbers schema.now numbers.now }
    ensures { IfOk result (λ component. component ≡ spec.component_with purpose schema.now first site judgement.now) }
{
    let name = element_name(alloc, schema, site)?;
    let numbered = by_numbers(schema, numbers, first, site, judgement)?;
    let statement = calculation_number(first, judgement)?;
    let kind = kind_at(schema, numbers, site);
    let component = calculated_by(purpose, name, judgement, numbered, statement, kind);
    Ok(hiding_by(judgement.hidden, component))
}

/// What each element of the documents is for a purpose.
pub(crate) fn components(
    alloc: Global,
    schema: &Schema,
    numbers: &Numbers,
    purpose: Purpose,
    sites: &[Site],
    judgements: &[Judgement],
) -> Result<Vec<Component>, AllocError>
    requires sites { sites.now ≡ all_sites schema.now }
    requires numbers { AreNumbers schema.now numbers.now }
    requires told { length judgements.now ≡ length sites.now }
    requires hidden { All (HidesElement schema.now) judgements.now }
    ensures { (refused : declared_site.Site → Bool)
        → judgements.now ≡ map (judgement_at purpose refused schema.now) sites.now
        → IfOk result (λ made. made.items ≡ map (spec.component_at purpose refused schema.now) sites.now) }
{
    let mut made = Vec::new(alloc);
    let mut first = 0u32;
    for at in 0..sites.len() {
        let site = sites[at];
        let judgement = &judgements[at];
        let component = component_with(alloc, schema, numbers, purpose, first, site, judgement)?;
        let dispatch = dispatch_of(alloc, schema, numbers, judgements, first, site, judgement)?;
        made.push(keyed_by(dispatch, component))?;
        first = first_behind(first, judgement)?;
    }
    Ok(made)
}

// The breach of a rule as the refusal of a component.
fn refusal_of(breach: Option<Breach>) -> Option<Refusal>
    ensures { result ≡ option_map spec.refusal_of breach }
{
    match breach {
        Some(Breach { cause, place }) => Some(Refusal { cause, place }),
        None => None,
    }
}

/// The refusal of each element's own.
pub(crate) fn refusals(
    alloc: Global,
    judgements: &[Judgement],
) -> Result<Vec<Option<Refusal>>, AllocError>
    ensures { IfOk result (λ made. made.items ≡ map (λ j. option_map spec.refusal_of j.breach) judgements.now) }
{
    let mut made = Vec::new(alloc);
    for judgement in judgements {
        made.push(refusal_of(judgement.breach))?;
    }
    Ok(made)
}
