// Which constructs may stand in which.
ghost use Rattle.std.specs.Prelude.{◌≡◌, map};
ghost use Rattle.dfdl_constructs.specs.Parts.{annotated, annotations, complex_type_parts};
ghost use Rattle.dfdl_constructs.specs.Parts.{define_escape_scheme_parts, define_format_parts};
ghost use Rattle.dfdl_constructs.specs.Parts.{element_parts, group_parts, namespace_in};
ghost use Rattle.dfdl_constructs.specs.Parts.{otherwise_in, particles, parts_in, properties};
ghost use Rattle.dfdl_constructs.specs.Parts.{restriction_parts, schema_parts, simple_type_parts};
ghost use Rattle.dfdl_constructs.specs.declared.role.AnnotationPoint.TheVariants as point;
ghost use Rattle.dfdl_constructs.specs.Shown.{part_shown};

use crate::elements::{dfdl_namespace, schema_namespace};
use crate::part::Part::{self, Many, Single};
use crate::role::{AnnotationPoint, Role};

const OF_ELEMENT: Part = Many("annotation", Role::Annotation(AnnotationPoint::Element));

const OF_GROUP: Part = Many(
    "annotation",
    Role::Annotation(AnnotationPoint::GroupReference),
);

const OF_OTHER: Part = Many("annotation", Role::Annotation(AnnotationPoint::Other));

#[tactic(auto, unfolding(crate::specs::Parts::schema_parts))]
fn schema_parts() -> &'static [Part]
    ensures { map part_shown result.now ≡ schema_parts }
{
    &[
        Many("annotation", Role::Annotation(AnnotationPoint::Schema)),
        Many("include", Role::Include),
        Many("import", Role::Import),
        Many("element", Role::GlobalElement),
        Many("complexType", Role::GlobalComplexType),
        Many("simpleType", Role::GlobalSimpleType),
        Many("group", Role::GlobalGroup),
    ]
}

#[tactic(auto, unfolding(crate::specs::Parts::element_parts))]
fn element_parts() -> &'static [Part]
    ensures { map part_shown result.now ≡ element_parts }
{
    &[
        OF_ELEMENT,
        Single("complexType", Role::LocalComplexType),
        Single("simpleType", Role::LocalSimpleType),
    ]
}

#[tactic(auto, unfolding(crate::specs::Parts::complex_type_parts))]
fn complex_type_parts() -> &'static [Part]
    ensures { map part_shown result.now ≡ complex_type_parts }
{
    &[
        OF_OTHER,
        Single("sequence", Role::Sequence),
        Single("choice", Role::Choice),
        Single("group", Role::GroupReference),
    ]
}

#[tactic(auto, unfolding(crate::specs::Parts::group_parts))]
fn group_parts() -> &'static [Part]
    ensures { map part_shown result.now ≡ group_parts }
{
    &[
        OF_OTHER,
        Single("sequence", Role::Sequence),
        Single("choice", Role::Choice),
    ]
}

#[tactic(auto, unfolding(crate::specs::Parts::particles))]
fn sequence_parts() -> &'static [Part]
    ensures { map part_shown result.now ≡ particles point.Sequence }
{
    &[
        Many("annotation", Role::Annotation(AnnotationPoint::Sequence)),
        Many("element", Role::LocalElement),
        Many("sequence", Role::Sequence),
        Many("choice", Role::Choice),
        Many("group", Role::GroupReference),
    ]
}

#[tactic(auto, unfolding(crate::specs::Parts::particles))]
fn choice_parts() -> &'static [Part]
    ensures { map part_shown result.now ≡ particles point.Choice }
{
    &[
        Many("annotation", Role::Annotation(AnnotationPoint::Choice)),
        Many("element", Role::LocalElement),
        Many("sequence", Role::Sequence),
        Many("choice", Role::Choice),
        Many("group", Role::GroupReference),
    ]
}

#[tactic(auto, unfolding(crate::specs::Parts::simple_type_parts))]
fn simple_type_parts() -> &'static [Part]
    ensures { map part_shown result.now ≡ simple_type_parts }
{
    &[
        Many("annotation", Role::Annotation(AnnotationPoint::SimpleType)),
        Single("restriction", Role::Restriction),
    ]
}

#[tactic(auto, unfolding(crate::specs::Parts::restriction_parts))]
fn restriction_parts() -> &'static [Part]
    ensures { map part_shown result.now ≡ restriction_parts }
{
    &[
        OF_OTHER,
        Many("minLength", Role::MinLength),
        Many("maxLength", Role::MaxLength),
        Many("length", Role::Facet),
        Many("minInclusive", Role::Facet),
        Many("maxInclusive", Role::Facet),
        Many("minExclusive", Role::Facet),
        Many("maxExclusive", Role::Facet),
        Many("totalDigits", Role::Facet),
        Many("fractionDigits", Role::Facet),
        Many("enumeration", Role::Facet),
        Many("whiteSpace", Role::Facet),
        Many("pattern", Role::Facet),
    ]
}

#[tactic(auto, unfolding(crate::specs::Parts::annotations))]
fn schema_annotations() -> &'static [Part]
    ensures { map part_shown result.now ≡ annotations point.Schema }
{
    &[
        Many("format", Role::DefaultFormat),
        Many("defineFormat", Role::DefineFormat),
        Many("defineEscapeScheme", Role::DefineEscapeScheme),
        Many("defineVariable", Role::DefineVariable),
    ]
}

#[tactic(auto, unfolding(crate::specs::Parts::annotations))]
fn element_annotations() -> &'static [Part]
    ensures { map part_shown result.now ≡ annotations point.Element }
{
    &[
        Many("element", Role::ComponentProperties),
        Many("assert", Role::Assert),
        Many("discriminator", Role::Discriminator),
        Many("setVariable", Role::SetVariable),
    ]
}

#[tactic(auto, unfolding(crate::specs::Parts::annotations))]
fn simple_type_annotations() -> &'static [Part]
    ensures { map part_shown result.now ≡ annotations point.SimpleType }
{
    &[
        Many("simpleType", Role::ComponentProperties),
        Many("assert", Role::Assert),
        Many("discriminator", Role::Discriminator),
        Many("setVariable", Role::SetVariable),
    ]
}

#[tactic(auto, unfolding(crate::specs::Parts::annotations))]
fn sequence_annotations() -> &'static [Part]
    ensures { map part_shown result.now ≡ annotations point.Sequence }
{
    &[
        Many("sequence", Role::ComponentProperties),
        Many("newVariableInstance", Role::NewVariableInstance),
        Many("assert", Role::Assert),
        Many("discriminator", Role::Discriminator),
        Many("setVariable", Role::SetVariable),
    ]
}

#[tactic(auto, unfolding(crate::specs::Parts::annotations))]
fn choice_annotations() -> &'static [Part]
    ensures { map part_shown result.now ≡ annotations point.Choice }
{
    &[
        Many("choice", Role::ComponentProperties),
        Many("newVariableInstance", Role::NewVariableInstance),
        Many("assert", Role::Assert),
        Many("discriminator", Role::Discriminator),
        Many("setVariable", Role::SetVariable),
    ]
}

#[tactic(auto, unfolding(crate::specs::Parts::annotations))]
fn group_annotations() -> &'static [Part]
    ensures { map part_shown result.now ≡ annotations point.GroupReference }
{
    &[
        Many("group", Role::ComponentProperties),
        Many("newVariableInstance", Role::NewVariableInstance),
        Many("assert", Role::Assert),
        Many("discriminator", Role::Discriminator),
        Many("setVariable", Role::SetVariable),
    ]
}

// Which annotation elements may stand at an annotation point.
#[tactic(auto, unfolding(crate::specs::Parts::annotations))]
fn annotations(at: AnnotationPoint) -> &'static [Part]
    ensures { map part_shown result.now ≡ annotations at }
{
    match at {
        AnnotationPoint::Schema => schema_annotations(),
        AnnotationPoint::Element => element_annotations(),
        AnnotationPoint::SimpleType => simple_type_annotations(),
        AnnotationPoint::Sequence => sequence_annotations(),
        AnnotationPoint::Choice => choice_annotations(),
        AnnotationPoint::GroupReference => group_annotations(),
        AnnotationPoint::Other => &[],
    }
}

#[tactic(auto, unfolding(crate::specs::Parts::define_format_parts))]
fn define_format_parts() -> &'static [Part]
    ensures { map part_shown result.now ≡ define_format_parts }
{
    &[Single("format", Role::DefinedFormat)]
}

#[tactic(auto, unfolding(crate::specs::Parts::define_escape_scheme_parts))]
fn define_escape_scheme_parts() -> &'static [Part]
    ensures { map part_shown result.now ≡ define_escape_scheme_parts }
{
    &[Single("escapeScheme", Role::EscapeScheme)]
}

#[tactic(auto, unfolding(crate::specs::Parts::properties))]
fn properties() -> &'static [Part]
    ensures { map part_shown result.now ≡ properties }
{
    &[Many("property", Role::Property)]
}

// What may stand in a construct.
#[tactic(auto, unfolding(crate::specs::Parts::parts_in))]
pub(crate) fn parts_in(role: Role) -> &'static [Part]
    ensures { map part_shown result.now ≡ parts_in role }
{
    match role {
        Role::Schema => schema_parts(),
        Role::Include | Role::Import => &[OF_OTHER],
        Role::GlobalElement | Role::LocalElement => element_parts(),
        Role::ElementReference => &[OF_ELEMENT],
        Role::GlobalComplexType | Role::LocalComplexType => complex_type_parts(),
        Role::GlobalSimpleType | Role::LocalSimpleType => simple_type_parts(),
        Role::Restriction => restriction_parts(),
        Role::MinLength | Role::MaxLength | Role::Facet => &[OF_OTHER],
        Role::GlobalGroup => group_parts(),
        Role::GroupReference => &[OF_GROUP],
        Role::Sequence => sequence_parts(),
        Role::Choice => choice_parts(),
        Role::Annotations(at) => annotations(at),
        Role::DefineFormat => define_format_parts(),
        Role::DefineEscapeScheme => define_escape_scheme_parts(),
        Role::DefaultFormat
        | Role::DefinedFormat
        | Role::EscapeScheme
        | Role::ComponentProperties => properties(),
        _ => &[],
    }
}

// The namespace of what may stand in a construct.
pub(crate) fn namespace_in(role: Role) -> &'static str
    ensures { result.now ≡ namespace_in role }
{
    match role {
        Role::Annotations(_)
        | Role::DefineFormat
        | Role::DefineEscapeScheme
        | Role::DefaultFormat
        | Role::DefinedFormat
        | Role::EscapeScheme
        | Role::ComponentProperties => dfdl_namespace(),
        _ => schema_namespace(),
    }
}

// What every other element in a construct is.
pub(crate) fn otherwise_in(role: Role) -> Role
    ensures { result ≡ otherwise_in role }
{
    match role {
        Role::Annotations(_)
        | Role::DefineFormat
        | Role::DefineEscapeScheme
        | Role::DefaultFormat
        | Role::DefinedFormat
        | Role::EscapeScheme
        | Role::ComponentProperties => Role::UnknownAnnotation,
        Role::DefineVariable
        | Role::Property
        | Role::Assert
        | Role::Discriminator
        | Role::SetVariable
        | Role::NewVariableInstance
        | Role::Information
        | Role::OutsideSubset
        | Role::UnknownAnnotation
        | Role::Skipped => Role::Skipped,
        _ => Role::OutsideSubset,
    }
}
