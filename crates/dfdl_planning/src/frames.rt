// What stands around the content of a component.
ghost use Rattle.std.specs.Prelude.{◌≡◌, IfOk, option_copied};
ghost use Rattle.dfdl_rows.specs.Components.{framing_in};
ghost use Rattle.dfdl_cells.specs.Pieces.{bits_of, delimiter_of};
ghost use Rattle.dfdl_planning.specs.Planned as spec;

use crate::sizes::{is_pattern, prefix_bits};
use crate::source::Source;
use dfdl_outline::{Around, Edge, LengthPrefix};
use dfdl_rows::Component;
use dfdl_terms::{Delimiter, Delimiters, Framing, Prefix, Writing};
use dfdl_writings::{WritingFault, delimiter_of as written};
use std::alloc::{AllocError, Global};

// How many bits a delimiter is written as; one without a writing has none.
fn written_bits(alloc: Global, writing: &Writing, list: &Delimiters) -> Result<u64, AllocError>
    ensures { IfOk result (λ bits. bits ≡ spec.written_bits writing.now list.now) }
{
    match written(alloc, &writing.text.new_line, list) {
        Ok(one) => Ok(one.bits),
        Err(WritingFault::Unwritten(_)) => Ok(0),
        Err(WritingFault::OutOfMemory) => Err(AllocError),
    }
}

// How many bits the delimiter of a list has that a component writes.
fn delimiter_bits(
    alloc: Global,
    source: &Source<'_>,
    component: u32,
    list: u32,
) -> Result<u64, AllocError>
    ensures { IfOk result (λ bits. bits ≡ bits_of (delimiter_of source.now component list)) }
{
    match (source.writing(component), source.list(list)) {
        (Some(writing), Some(list)) => written_bits(alloc, writing, list),
        _ => Ok(0),
    }
}

// An initiator or a terminator of a component.
fn edge(
    alloc: Global,
    source: &Source<'_>,
    component: u32,
    delimiter: Option<Delimiter>,
) -> Result<Option<Edge>, AllocError>
    ensures { IfOk result (λ made. made ≡ spec.edge_if source.now component delimiter) }
{
    let Some(own) = delimiter else {
        return Ok(None);
    };
    let bits = delimiter_bits(alloc, source, component, own.list)?;
    Ok(Some(Edge {
        list: own.list,
        bits,
        in_nil: own.in_nil,
        in_empty: own.in_empty,
    }))
}

// The bits of fill of a component.
fn fill_of(writing: Option<&Writing>) -> u8
    ensures { result ≡ spec.fill_in (option_copied writing.entry) }
{
    match writing {
        Some(writing) => writing.fill,
        None => 0,
    }
}

// What stands around the content of a component with this framing.
fn around_framing(
    alloc: Global,
    source: &Source<'_>,
    component: u32,
    framing: &Framing,
) -> Result<Around, AllocError>
    ensures { IfOk result (λ made. made ≡ spec.around_framing source.now component framing.now) }
{
    let initiator = edge(alloc, source, component, framing.initiator)?;
    let terminator = edge(alloc, source, component, framing.terminator)?;
    Ok(Around {
        fill: fill_of(source.writing(component)),
        leading_skip: framing.leading_skip,
        alignment: framing.alignment,
        initiator,
        terminator,
        trailing_skip: framing.trailing_skip,
    })
}

/// What frames a component.
pub(crate) fn framing_of(component: &Component) -> Framing
    ensures { result ≡ framing_in component.now }
{
    match component {
        Component::Sequence { framing, .. } => *framing,
        Component::Choice { framing, .. } => *framing,
        Component::ComplexElement { framing, .. } => *framing,
        Component::SimpleElement { framing, .. } => *framing,
        Component::CalculatedElement { framing, .. } => *framing,
        Component::Hidden => Framing::none(),
    }
}

/// What stands around the content of the component of a number, which is this.
pub(crate) fn around_of(
    alloc: Global,
    source: &Source<'_>,
    number: u32,
    component: &Component,
) -> Result<Around, AllocError>
    ensures { IfOk result (λ made. made ≡ spec.around_by source.now number component.now) }
{
    let framing = framing_of(component);
    around_framing(alloc, source, number, &framing)
}

/// A length prefix; a pattern is none.
pub(crate) fn length_prefix(source: &Source<'_>, prefix: Prefix) -> Option<LengthPrefix>
    ensures { result ≡ spec.length_prefix source.now prefix }
{
    if is_pattern(source, prefix) {
        return None;
    }
    Some(LengthPrefix {
        prefix,
        bits: prefix_bits(source, prefix),
    })
}
