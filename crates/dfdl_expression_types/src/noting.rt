// What each node of a tree is, by what its operands are.
ghost use Rattle.std.specs.Prelude.{◌≡◌, IfOk};
ghost use Rattle.dfdl_expression_types.specs.Notes as notes;

use crate::callee::{Argument, ArgumentList, Callee, given_by, is_call};
use crate::naming::callee_of;
use crate::note::{Faults, Note, Shape};
use crate::operating::{conditional, operation_note};
use crate::places::{PlaceList, children_of, elements_of, is_nowhere, parents_of};
use crate::statics::{Place, Statics, Variable, name_number, variable_named};
use crate::types::{Types, ValueType};
use crate::words::{local_of, word};
use dfdl_expression_tree::{Binary, Leaf, Unary};
use std::alloc::{AllocError, Global};

/// Whether a text in quotes is a unit of length.
#[tactic(auto, unfolding(crate::specs::Notes::is_unit_text))]
fn is_unit_text(text: &[u8]) -> bool
    ensures { result ≡ notes.is_unit_text text.now }
{
    text == b"'bits'".as_slice()
        || text == b"'bytes'".as_slice()
        || text == b"\"bits\"".as_slice()
        || text == b"\"bytes\"".as_slice()
}

fn text_shape(text: &[u8]) -> Shape
    ensures { result ≡ notes.text_shape text.now }
{
    if is_unit_text(text) {
        Shape::Unit
    } else {
        Shape::Value(Types::only(ValueType::Text))
    }
}

fn variable_note(variable: Option<Variable>) -> Note
    ensures { result ≡ notes.variable_note variable }
{
    match variable {
        Some(variable) => Note::sound(Shape::Value(Types::only(ValueType::of(variable.simple)))),
        None => Note {
            shape: Shape::Value(Types::every()),
            faults: Faults {
                types: false,
                path: false,
                variable: true,
            },
        },
    }
}

/// The variable of a name.
fn named_note(statics: &Statics<'_>, name: &[u8]) -> Note
    ensures { result ≡ notes.named_note statics.now name.now }
{
    variable_note(variable_named(statics, local_of(name)))
}

/// What a part without operands is.
pub(crate) fn leaf_note(
    alloc: Global,
    statics: &Statics<'_>,
    text: &[u8],
    leaf: Leaf,
) -> Result<Note, AllocError>
    ensures { IfOk result (λ n. n ≡ notes.leaf_note statics.now text.now leaf) }
{
    match leaf {
        Leaf::Number(_) => Ok(Note::sound(Shape::Value(Types::only(ValueType::Number)))),
        Leaf::Text(span) => Ok(Note::sound(text_shape(word(text, span)))),
        Leaf::Variable(span) => Ok(named_note(statics, word(text, span))),
        Leaf::Context => Ok(Note::sound(Shape::Path(PlaceList::of(alloc, statics.place)?))),
        Leaf::Root => Ok(Note::sound(Shape::Path(PlaceList::of(alloc, Place::Above)?))),
        Leaf::NoArguments => Ok(Note::sound(Shape::Arguments(ArgumentList::new(alloc)))),
    }
}

/// A path that leads to these places.
fn path_note(places: PlaceList, faults: Faults) -> Note
    ensures { result ≡ notes.path_note places faults }
{
    let nowhere = is_nowhere(places.as_slice());
    Note {
        shape: Shape::Path(places),
        faults: faults.or_path(nowhere),
    }
}

/// A path with a step by this name behind these places.
fn child_note(
    alloc: Global,
    statics: &Statics<'_>,
    name: &[u8],
    places: &[Place],
    faults: Faults,
) -> Result<Note, AllocError>
    ensures { IfOk result (λ n. n ≡ notes.child_note statics.now name.now places.now faults) }
{
    let found = children_of(alloc, statics, name_number(statics, local_of(name)), places)?;
    Ok(path_note(found, faults))
}

/// A call with these arguments.
fn call_note(function: Option<Callee>, arguments: &[Argument], faults: Faults) -> Note
    ensures { result ≡ notes.call_note function arguments.now faults }
{
    Note {
        shape: Shape::Value(given_by(function)),
        faults: faults.or_types(!is_call(function, arguments)),
    }
}

/// A value with its sign changed.
fn negative_note(types: Types, faults: Faults) -> Note
    ensures { result ≡ notes.negative_note types faults }
{
    let number = Types::only(ValueType::Number);
    Note {
        shape: Shape::Value(number),
        faults: faults.or_types(types.is_apart(number)),
    }
}

/// What a part with one operand is.
pub(crate) fn unary_note(
    alloc: Global,
    statics: &Statics<'_>,
    text: &[u8],
    unary: Unary,
    operand: Note,
) -> Result<Note, AllocError>
    ensures { IfOk result (λ n. n ≡ notes.unary_note statics.now text.now unary operand) }
{
    let Note { shape, faults } = operand;
    match unary {
        Unary::Here => {
            let places = shape.into_places(alloc);
            Ok(path_note(elements_of(alloc, places.as_slice())?, faults))
        }
        Unary::Parent => {
            let places = shape.into_places(alloc);
            Ok(path_note(parents_of(alloc, statics, places.as_slice())?, faults))
        }
        Unary::Child(span) => {
            let places = shape.into_places(alloc);
            child_note(alloc, statics, word(text, span), places.as_slice(), faults)
        }
        Unary::Call(span) => {
            let arguments = shape.into_arguments(alloc);
            let function = callee_of(statics, word(text, span));
            Ok(call_note(function, arguments.as_slice(), faults))
        }
        Unary::Negative => Ok(negative_note(shape.types(statics), faults)),
    }
}

/// A path with an index of these types behind it.
fn item_note(places: PlaceList, index: Types, faults: Faults) -> Note
    ensures { result ≡ notes.item_note places index faults }
{
    Note {
        shape: Shape::Path(places),
        faults: faults.or_types(index.is_apart(Types::only(ValueType::Number))),
    }
}

/// What a part with two operands is.
pub(crate) fn binary_note(
    alloc: Global,
    statics: &Statics<'_>,
    binary: Binary,
    left: Note,
    right: Note,
) -> Result<Note, AllocError>
    ensures { IfOk result (λ n. n ≡ notes.binary_note statics.now binary left right) }
{
    let faults = left.faults.join(right.faults);
    match binary {
        Binary::Operation(operator) => {
            let types = left.shape.types(statics);
            Ok(operation_note(operator, types, right.shape.types(statics), faults))
        }
        Binary::Argument => {
            let argument = right.shape.as_argument(statics);
            let arguments = left.shape.into_arguments(alloc).with(argument)?;
            Ok(Note {
                shape: Shape::Arguments(arguments),
                faults,
            })
        }
        Binary::Item => {
            let index = right.shape.types(statics);
            Ok(item_note(left.shape.into_places(alloc), index, faults))
        }
    }
}

/// What a conditional is.
pub(crate) fn choice_note(statics: &Statics<'_>, test: &Note, first: &Note, second: &Note) -> Note
    ensures { result ≡ notes.choice_note statics.now test.now first.now second.now }
{
    let faults = test.faults.join(first.faults.join(second.faults));
    conditional(
        test.shape.types(statics),
        first.shape.types(statics),
        second.shape.types(statics),
        faults,
    )
}
