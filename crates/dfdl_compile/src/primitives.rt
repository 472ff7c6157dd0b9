// What the rows of a schema name: the primitives that its leaves, their length prefixes and their other representations are read by, the
// literals of its delimiters, its tests, and how its components are written.
ghost use Rattle.std.specs.Prelude.{◌≡◌, [], ◌++◌, All, IfOk, map, unwrap_or};
ghost use Rattle.dfdl_checks.specs.Numbers as numbers;
ghost use Rattle.dfdl_compile.specs.Delimiters as delimiters;
ghost use Rattle.dfdl_compile.specs.Primitives as spec;
ghost use Rattle.dfdl_compile.specs.Whole.{writing_by};
ghost use Rattle.dfdl_written.specs.Noting.{stated_by};

use dfdl_breaches::Judgement;
use dfdl_checks::{Delimiting, PrefixForm, Separating};
use dfdl_forms::{
    BitOrder, BitTruthForm, ByteOrder, Encoding, Form, IntForm, Justify, Literals, PadForm, Simple,
};
use dfdl_terms::row::default_is_written;
use dfdl_terms::{Delimiters, OctetForm, Primitive, TextContent, TextForm, TextSize, Writing};
use dfdl_written::Stated;
use std::alloc::{AllocError, Global};

// The primitive that stands for a number.
fn a_byte() -> Primitive
    ensures { result ≡ spec.a_byte }
{
    Primitive::Integer(IntForm {
        bits: 8,
        bytes_by: ByteOrder::Big,
        bits_by: BitOrder::MostFirst,
        point: 0,
        kind: Simple::UnsignedByte,
    })
}

// The one that stands for a boolean.
fn a_truth() -> Primitive
    ensures { result ≡ spec.a_truth }
{
    Primitive::Truth(BitTruthForm {
        bits: 8,
        bytes_by: ByteOrder::Big,
        bits_by: BitOrder::MostFirst,
        truth: None,
        falsity: 0,
    })
}

// The one that stands for bytes.
fn no_octets() -> Primitive
    ensures { result ≡ spec.no_octets }
{
    Primitive::Octets(OctetForm {
        bits: 0,
        bits_by: BitOrder::MostFirst,
    })
}

// The one that stands for a text.
fn no_text() -> Primitive
    ensures { result ≡ spec.no_text }
{
    Primitive::Text(TextForm {
        encoding: Encoding::Utf8,
        replaces: false,
        size: TextSize::Bits(0),
        pad: PadForm {
            justify: Justify::Left,
            pad: None,
            trim: None,
            truncate: false,
            keeps_zero: false,
        },
        content: TextContent::Plain,
    })
}

// The one that stands for an element without one of its own, whose values are of this type.
fn stand_in(simple: Option<Simple>) -> Primitive
    ensures { result ≡ spec.stand_in simple }
{
    match simple {
        Some(simple) => one_of_form(simple.form()),
        None => a_byte(),
    }
}

// The one that stands for values of this form.
fn one_of_form(form: Form) -> Primitive
    ensures { result ≡ spec.one_of_form form }
{
    match form {
        Form::Signed { .. } | Form::Unsigned { .. } | Form::Fixed => a_byte(),
        Form::Characters => no_text(),
        Form::Truths => a_truth(),
        Form::Octets => no_octets(),
    }
}

// The type of the values that a text's characters are read as.
fn text_type(content: &TextContent) -> Simple
    ensures { result ≡ numbers.text_type content.now }
{
    match content {
        TextContent::Plain => Simple::String,
        TextContent::Octets => Simple::HexBinary,
        TextContent::Number { kind, .. } => *kind,
        TextContent::Zoned(form) => form.kind,
        TextContent::Truth(_) => Simple::Boolean,
        TextContent::Nil(_) => Simple::String,
    }
}

// The type of a primitive's values.
fn type_of(primitive: &Primitive) -> Simple
    ensures { result ≡ numbers.type_of primitive.now }
{
    match primitive {
        Primitive::Integer(form) => form.kind,
        Primitive::Packed(form) => form.kind,
        Primitive::Truth(_) => Simple::Boolean,
        Primitive::Octets(_) => Simple::HexBinary,
        Primitive::Text(form) => text_type(&form.content),
        Primitive::NilOctets(_) => Simple::HexBinary,
        Primitive::Default(_) => Simple::HexBinary,
        Primitive::NilValues(_) => Simple::HexBinary,
        Primitive::Pattern(_) => Simple::HexBinary,
    }
}

/// The type of the values of an element of which this is told.
pub(crate) fn type_by(judgement: &Judgement) -> Simple
    ensures { result ≡ numbers.type_of (spec.primitive_by judgement.now) }
{
    match &judgement.primitive {
        Some(primitive) => type_of(primitive),
        None => type_of(&stand_in(judgement.simple)),
    }
}

// Whether markup ends a content of a size.
fn is_scanned_size(size: TextSize) -> bool
    ensures { result ≡ spec.is_scanned_size size }
{
    match size {
        TextSize::Bits(_) | TextSize::Characters(_) => false,
        TextSize::Delimited(_) => true,
    }
}

// Whether markup ends a content that is read by a primitive.
fn is_scanned(primitive: &Primitive) -> bool
    ensures { result ≡ spec.is_scanned primitive.now }
{
    match primitive {
        Primitive::Text(form) => is_scanned_size(form.size),
        Primitive::Default(form) => is_scanned_size(form.size),
        _ => false,
    }
}

/// Whether markup ends the content of an element of which this is told.
pub(crate) fn is_scanned_by(judgement: &Judgement) -> bool
    ensures { result ≡ spec.is_scanned (spec.primitive_by judgement.now) }
{
    match &judgement.primitive {
        Some(primitive) => is_scanned(primitive),
        None => is_scanned(&stand_in(judgement.simple)),
    }
}

// The primitive of an element, or the one that stands for none.
fn primitive_or(primitive: Option<Primitive>, simple: Option<Simple>) -> Primitive
    ensures { result ≡ unwrap_or primitive (spec.stand_in simple) }
{
    match primitive {
        Some(primitive) => primitive,
        None => stand_in(simple),
    }
}

// The primitive of one of its other representations, or the one that stands for none.
fn primitive_or_byte(primitive: Option<Primitive>) -> Primitive
    ensures { result ≡ unwrap_or primitive spec.a_byte }
{
    match primitive {
        Some(primitive) => primitive,
        None => a_byte(),
    }
}

// The primitive of a prefix, or the one that stands for none.
fn primitive_if(prefix: Option<PrefixForm>) -> Primitive
    ensures { result ≡ spec.primitive_if prefix }
{
    match prefix {
        Some(form) => form.primitive,
        None => a_byte(),
    }
}

// The texts that no bits stand for are texts of characters. The call changes nothing.
fn texts_are_written(primitives: &[Primitive])
    ensures { All spec.HasWrittenText primitives.now }
{
    for primitive in primitives {
        default_is_written(primitive);
    }
}

// The literals of a delimiter, or the list that stands for none.
fn list_if(alloc: Global, delimiter: Option<Delimiting>) -> Delimiters
    ensures { result ≡ delimiters.list_if delimiter }
{
    match delimiter {
        Some(delimiter) => delimiter.list,
        None => Delimiters {
            literals: Literals::new(Vec::new(alloc)),
            encoding: Encoding::Utf8,
            fold: false,
        },
    }
}

// The literals of a separator, or the list that stands for none.
fn separator_list_if(alloc: Global, separator: Option<Separating>) -> Delimiters
    ensures { result ≡ delimiters.separator_list_if separator }
{
    match separator {
        Some(separator) => separator.list,
        None => list_if(alloc, None),
    }
}

// What some elements name: the primitives of their values, and of their prefixes and other representations, and the literals of
// their delimiters; what they state, and how they are written.
#[derive(Drop)]
struct Lists {
    own: Vec<Primitive>,
    prefixes: Vec<Primitive>,
    nils: Vec<Primitive>,
    empties: Vec<Primitive>,
    tried: Vec<Primitive>,
    initiators: Vec<Delimiters>,
    terminators: Vec<Delimiters>,
    separators: Vec<Delimiters>,
    stated: Vec<Stated>,
    writings: Vec<Writing>,
}

impl Lists {
    fn new(alloc: Global) -> Lists
        ensures own { result.own.items ≡ [] }
        ensures prefixes { result.prefixes.items ≡ [] }
        ensures nils { result.nils.items ≡ [] }
        ensures empties { result.empties.items ≡ [] }
        ensures tried { result.tried.items ≡ [] }
        ensures initiators { result.initiators.items ≡ [] }
        ensures terminators { result.terminators.items ≡ [] }
        ensures separators { result.separators.items ≡ [] }
        ensures stated { result.stated.items ≡ [] }
        ensures writings { result.writings.items ≡ [] }
    {
        Lists {
            own: Vec::new(alloc),
            prefixes: Vec::new(alloc),
            nils: Vec::new(alloc),
            empties: Vec::new(alloc),
            tried: Vec::new(alloc),
            initiators: Vec::new(alloc),
            terminators: Vec::new(alloc),
            separators: Vec::new(alloc),
            stated: Vec::new(alloc),
            writings: Vec::new(alloc),
        }
    }
}

// Those of elements of which this is told.
fn lists_of(alloc: Global, judgements: Vec<Judgement>) -> Result<Lists, AllocError>
    ensures own { IfOk result (λ lists. lists.own.items ≡ map spec.primitive_by judgements.items) }
    ensures prefixes { IfOk result (λ lists. lists.prefixes.items ≡ map spec.prefix_primitive_by judgements.items) }
    ensures nils { IfOk result (λ lists. lists.nils.items ≡ map spec.nil_primitive_by judgements.items) }
    ensures empties { IfOk result (λ lists. lists.empties.items ≡ map spec.empty_primitive_by judgements.items) }
    ensures tried { IfOk result (λ lists. lists.tried.items ≡ map spec.tried_primitive_by judgements.items) }
    ensures initiators { IfOk result (λ lists. lists.initiators.items ≡ map delimiters.initiator_list_by judgements.items) }
    ensures terminators { IfOk result (λ lists. lists.terminators.items ≡ map delimiters.terminator_list_by judgements.items) }
    ensures separators { IfOk result (λ lists. lists.separators.items ≡ map delimiters.separator_list_by judgements.items) }
    ensures stated { IfOk result (λ lists. lists.stated.items ≡ map stated_by judgements.items) }
    ensures writings { IfOk result (λ lists. lists.writings.items ≡ map writing_by judgements.items) }
{
    let mut lists = Lists::new(alloc);
    for judgement in judgements {
        let Judgement {
            primitive,
            simple,
            markup,
            prefix,
            others,
            tests,
            settings,
            checks,
            output,
            calculation,
            measure,
            count,
            key,
            writing,
            ..
        } = judgement;
        lists.own.push(primitive_or(primitive, simple))?;
        lists.prefixes.push(primitive_if(prefix))?;
        lists.nils.push(primitive_or_byte(others.nil))?;
        lists
            .empties
            .push(primitive_or_byte(others.required.empty))?;
        lists
            .tried
            .push(primitive_or_byte(others.where_tried.empty))?;
        lists.initiators.push(list_if(alloc, markup.initiator))?;
        lists.terminators.push(list_if(alloc, markup.terminator))?;
        lists
            .separators
            .push(separator_list_if(alloc, markup.separator))?;
        lists.stated.push(Stated {
            tests,
            settings,
            checks,
            output,
            calculation,
            measure,
            count,
            key,
        })?;
        lists.writings.push(writing)?;
    }
    Ok(lists)
}

/// What the rows of elements name of which this is told, what these state, and how they are written.
#[derive(Drop)]
pub(crate) struct Naming {
    pub(crate) primitives: Vec<Primitive>,
    pub(crate) delimiters: Vec<Delimiters>,
    pub(crate) stated: Vec<Stated>,
    pub(crate) writings: Vec<Writing>,
}

/// What the rows of elements name of which this is told: their primitives, and behind them those of their length prefixes, of their nil
/// representations and of the empty ones of their required and of their tried occurrences; the literals of their initiators, and behind them those of their terminators and separators;
/// what they state, and how they are written.
pub(crate) fn named(alloc: Global, judgements: Vec<Judgement>) -> Result<Naming, AllocError>
    ensures primitives { IfOk result (λ named. named.primitives.items ≡ map spec.primitive_by judgements.items
        ++ (map spec.prefix_primitive_by judgements.items
        ++ (map spec.nil_primitive_by judgements.items
        ++ (map spec.empty_primitive_by judgements.items ++ map spec.tried_primitive_by judgements.items)))) }
    ensures delimiters { IfOk result (λ named. named.delimiters.items ≡ map delimiters.initiator_list_by judgements.items
        ++ (map delimiters.terminator_list_by judgements.items ++ map delimiters.separator_list_by judgements.items)) }
    ensures stated { IfOk result (λ named. named.stated.items ≡ map stated_by judgements.items) }
    ensures writings { IfOk result (λ named. named.writings.items ≡ map writing_by judgements.items) }
    ensures written { IfOk result (λ named. All spec.HasWrittenText named.primitives.items) }
{
    let Lists {
        mut own,
        mut prefixes,
        mut nils,
        mut empties,
        mut tried,
        mut initiators,
        mut terminators,
        mut separators,
        stated,
        writings,
    } = lists_of(alloc, judgements)?;
    empties.append(&mut tried)?;
    nils.append(&mut empties)?;
    prefixes.append(&mut nils)?;
    own.append(&mut prefixes)?;
    terminators.append(&mut separators)?;
    initiators.append(&mut terminators)?;
    texts_are_written(own.as_slice());
    Ok(Naming {
        primitives: own,
        delimiters: initiators,
        stated,
        writings,
    })
}
