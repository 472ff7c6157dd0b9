// A component as the rules see it.
use crate::occurring::Bounds;
use crate::purpose::Purpose;
use dfdl_escape_schemes::NamedScheme;
use dfdl_forms::{BitOrder, Simple};
use dfdl_report::{Place, SchemaCause};
use dfdl_scope::Component;

/// What kind of component it is.
#[derive(Debug, Clone, Copy, PartialEq, Eq)]
pub enum Kind {
    /// An element of a complex type.
    ComplexElement,
    /// An element of a simple type that is carried.
    SimpleElement(Simple),
    /// An element of a simple type that is not carried.
    UncarriedElement,
    /// An element of a simple type that is carried, whose value is calculated: it has no representation, and no property of one has an
    /// effect.
    CalculatedElement(Simple),
    Sequence,
    /// A sequence that stands for a hidden group: no other property of it, and no statement, has an effect.
    HiddenSequence,
    Choice,
    /// The type of a length prefix, an integer type.
    PrefixNumber(Simple),
}

/// What a component states besides its properties.
#[derive(Debug, Clone, Copy)]
pub struct Facts<'c> {
    /// Of an element: minOccurs and maxOccurs. Another component occurs once.
    pub bounds: Bounds,
    /// Of an element: it may be nil.
    pub is_nillable: bool,
    /// Of an element: the text of its default value, if it has one.
    pub default: Option<&'c str>,
    /// A newVariableInstance stands at it.
    pub opens_instances: bool,
    /// Of an element: it is declared where it stands, and neither global nor a reference.
    pub is_local: bool,
    /// Of a sequence or a choice: nothing is in it.
    pub is_empty: bool,
    /// Of an element of a simple type: the least length of its values, where the type has one; a number past 64 bits is the greatest of
    /// these.
    pub min_length: Option<u64>,
    /// Of an element of a simple type: the greatest length of its values, where the type has one; a number past 64 bits is the
    /// greatest of these.
    pub max_length: Option<u64>,
}

/// An assert or a discriminator as it is written ('DFDL Schema Component Model', on asserts and discriminators).
#[derive(Debug, Clone, Copy)]
pub struct StatedTest<'c> {
    /// The number of the document that it stands in.
    pub document: u32,
    /// Its element there.
    pub element: u32,
    /// It is a discriminator.
    pub discriminates: bool,
    /// Its testKind.
    pub kind: Option<&'c str>,
    /// Its failureType.
    pub failure: Option<&'c str>,
    /// The text of its pattern.
    pub pattern: Option<&'c str>,
    /// The text of its expression.
    pub test: Option<&'c str>,
    pub message: Option<&'c str>,
}

/// Where a component stands.
#[derive(Debug, Clone, Copy, PartialEq, Eq)]
pub struct Standing {
    /// In a group with initiated content ('Sequence Groups').
    pub is_initiated: bool,
    /// Among slots none of which may be unbounded ('Sequence Groups', on separatorSuppressionPolicy).
    pub needs_bound: bool,
    /// Among the branches of a choice by a key ('Choices', on choiceDispatchKey).
    pub needs_key: bool,
    /// It has a key twice, or one of a branch before it.
    pub repeats_key: bool,
    /// Among the branches of a choice by a key whose content is initiated: where its initiator is found, the innermost point of
    /// uncertainty around the choice is resolved ('Choices').
    pub resolves: bool,
}

/// The type that a component's property prefixLengthType names.
#[derive(Clone, Copy)]
pub struct PrefixType<'s, 'e, 'c> {
    /// The simple type that it comes to, if that is carried.
    pub simple: Option<Simple>,
    /// Its start tag.
    pub place: Place,
    /// What its properties are asked of.
    pub chain: &'s Component<'e, 'c>,
    /// What its property escapeSchemeRef names.
    pub scheme: &'s NamedScheme,
}

/// A component of a schema, with what the rules ask of it.
#[derive(Clone, Copy)]
pub struct Subject<'s, 'e, 'c> {
    /// What its rows are made for.
    pub purpose: Purpose,
    pub kind: Kind,
    /// Its start tag.
    pub place: Place,
    /// What its properties are asked of.
    pub chain: &'s Component<'e, 'c>,
    pub facts: Facts<'c>,
    /// The order of bits of the schema's root.
    pub root_bits_by: BitOrder,
    /// The type that its property prefixLengthType names, if it names one.
    pub prefix: Option<PrefixType<'s, 'e, 'c>>,
    /// What its property escapeSchemeRef names.
    pub scheme: &'s NamedScheme,
    /// The pattern of its length, or that of one of its tests, can't be built.
    pub pattern_is_refused: bool,
    /// Its asserts and discriminators, in their order.
    pub tests: &'s [StatedTest<'c>],
    /// A setVariable stands at it.
    pub sets_variables: bool,
    /// Where it stands.
    pub standing: Standing,
    /// Its property hiddenGroupRef names nothing.
    pub group_is_unknown: bool,
}

/// A rule that a component breaks, by its cause, and where that is told.
#[derive(Debug, Clone, Copy, PartialEq, Eq)]
pub struct Breach {
    pub cause: SchemaCause,
    pub place: Place,
}
