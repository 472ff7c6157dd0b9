// What components are for laying.
ghost use Rattle.std.specs.Prelude.{◌≡◌, IfOk, option_copied};
ghost use Rattle.dfdl_planning.specs.Planned as spec;

use crate::frames::length_prefix;
use crate::outlines::are_computing;
use crate::source::Source;
use dfdl_forms::Simple;
use dfdl_outline::{ContentSize, LengthPrefix, Separating, SimpleSort, Sort};
use dfdl_rows::{Component, ContentBox, LeafLength, Separated};
use dfdl_terms::{Delimiter, Framing, Primitive, TextSize, Writing};
use dfdl_value::Value;
use std::alloc::{AllocError, Global};

// The separators of a sequence.
fn separating_of(separated: Option<Separated>) -> Option<Separating>
    ensures { result ≡ spec.separating_of separated }
{
    match separated {
        Some(own) => Some(Separating {
            list: own.list,
            position: own.position,
        }),
        None => None,
    }
}

// The size of a box behind a prefix, if that is one.
fn box_or(prefix: Option<LengthPrefix>) -> ContentSize
    ensures { result ≡ spec.box_or prefix }
{
    match prefix {
        Some(prefix) => ContentSize::Prefixed(prefix),
        None => ContentSize::Unbounded,
    }
}

// An element with parts in this box.
fn complex_sort(source: &Source<'_>, content_box: ContentBox) -> Sort
    ensures { result ≡ spec.complex_sort source.now content_box }
{
    match content_box {
        ContentBox::Unbounded => Sort::Complex {
            size: ContentSize::Unbounded,
        },
        ContentBox::Sized(bits) => Sort::Complex {
            size: ContentSize::Sized(bits),
        },
        ContentBox::Prefixed(prefix) => Sort::Complex {
            size: box_or(length_prefix(source, prefix)),
        },
        ContentBox::Measured(_) => Sort::Unbuilt,
    }
}

// The prefix of a simple content.
fn leaf_prefix(source: &Source<'_>, length: LeafLength) -> Option<LengthPrefix>
    ensures { result ≡ spec.leaf_prefix source.now length }
{
    match length {
        LeafLength::Own => None,
        LeafLength::Prefixed(prefix) => length_prefix(source, prefix),
        LeafLength::Measured(_) => None,
    }
}

// An expression gives the length.
fn is_measured(length: LeafLength) -> bool
    ensures { result ≡ spec.is_measured length }
{
    match length {
        LeafLength::Own => false,
        LeafLength::Prefixed(_) => false,
        LeafLength::Measured(_) => true,
    }
}

// Values of a type have an empty representation.
fn is_emptiable(simple: Simple) -> bool
    ensures { result ≡ spec.is_emptiable simple }
{
    matches!(simple, Simple::String | Simple::HexBinary)
}

// The value of a missing element, if it has a default.
fn default_in(alloc: Global, writing: Option<&Writing>) -> Result<Option<Value>, AllocError>
    ensures { IfOk result (λ made. made ≡ spec.default_in (option_copied writing.entry)) }
{
    let Some(writing) = writing else {
        return Ok(None);
    };
    match &writing.default {
        Some(value) => Ok(Some(value.copy(alloc)?)),
        None => Ok(None),
    }
}

// The list of a terminator.
fn list_if(delimiter: Option<Delimiter>) -> Option<u32>
    ensures { result ≡ spec.list_if delimiter }
{
    match delimiter {
        Some(own) => Some(own.list),
        None => None,
    }
}

// The list of its own terminator, where that ends a content.
fn scanned_by(is_scanned: bool, framing: &Framing) -> Option<u32>
    ensures { result ≡ spec.scanned_by is_scanned framing.now }
{
    if is_scanned {
        list_if(framing.terminator)
    } else {
        None
    }
}

// A text of this size is in no box of bits or bytes.
fn is_moved_size(size: TextSize) -> bool
    ensures { result ≡ spec.is_moved_size size }
{
    match size {
        TextSize::Bits(_) => false,
        TextSize::Characters(_) => true,
        TextSize::Delimited(_) => true,
    }
}

// A primitive is a text that is in no box of bits or bytes.
fn is_moved_prim(prim: Option<&Primitive>) -> bool
    ensures { result ≡ spec.is_moved_prim (option_copied prim.entry) }
{
    match prim {
        Some(Primitive::Text(form)) => is_moved_size(form.size),
        _ => false,
    }
}

/// What the component of a number is, which is this; something in the schema may leave a place that is on no whole byte, or nothing does.
pub(crate) fn sort_of(
    alloc: Global,
    source: &Source<'_>,
    moves: bool,
    number: u32,
    component: &Component,
) -> Result<Sort, AllocError>
    ensures { IfOk result (λ made. made ≡ spec.sort_by source.now moves number component.now) }
{
    match component {
        Component::Sequence { separated, .. } => Ok(Sort::Sequence {
            separating: separating_of(*separated),
        }),
        Component::Choice { .. } => Ok(Sort::Choice),
        Component::ComplexElement { content_box, .. } => Ok(complex_sort(source, *content_box)),
        Component::SimpleElement {
            simple,
            prim,
            framing,
            length,
            tried,
            is_scanned,
            ..
        } => {
            if is_measured(*length) || are_computing(source, framing.behind) {
                return Ok(Sort::Unbuilt);
            }
            let default = default_in(alloc, source.writing(number))?;
            Ok(Sort::Simple(SimpleSort {
                default,
                prefix: leaf_prefix(source, *length),
                nillable: tried.nil.is_some(),
                empties: is_emptiable(*simple),
                is_text: moves && is_moved_prim(source.primitive(*prim)),
                scanned: scanned_by(*is_scanned, framing),
            }))
        }
        Component::CalculatedElement { .. } => Ok(Sort::Calculated),
        Component::Hidden => Ok(Sort::Hidden),
    }
}
