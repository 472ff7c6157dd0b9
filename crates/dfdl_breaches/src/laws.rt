// Laws of the definitions that the contracts cite. The calls do nothing.
ghost use Rattle.std.specs.Prelude.{◌≡◌, ◌≢◌, ℕ, [], All, Bool, false, List, Some, None, IsTrue, IsSome};
ghost use Rattle.dfdl_terms.specs.Rows.{IsPrimitive, IsWritten};
ghost use Rattle.dfdl_terms.specs.declared.row.Primitive.{Primitive};
ghost use Rattle.dfdl_terms.specs.declared.row.Primitive.TheVariants.{Default};
ghost use Rattle.dfdl_terms.specs.declared.text.DefaultForm.{DefaultForm};
ghost use Rattle.dfdl_edge.specs.Faults.{Rose};
ghost use Rattle.dfdl_documents.specs.Documents.{SchemaDocument};
ghost use Rattle.dfdl_components.specs.Sites.{IsSite};
ghost use Rattle.dfdl_components.specs.declared.site.Site.{Site};
ghost use Rattle.dfdl_checks.specs.Forms.{IsWhole};
ghost use Rattle.dfdl_checks.specs.Numbers.{type_of};
ghost use Rattle.dfdl_checks.specs.Representations.{no_representations};
ghost use Rattle.dfdl_checks.specs.Subjects.{is_simple, simple_of};
ghost use Rattle.dfdl_checks.specs.declared.purpose.Purpose.{Purpose};
ghost use Rattle.dfdl_checks.specs.declared.purpose.Purpose.TheVariants.{Unparsing};
ghost use Rattle.dfdl_chains.specs.Kinds.{kind_at};
ghost use Rattle.dfdl_chains.specs.Settings.{IsSetterOf};
ghost use Rattle.dfdl_checks.specs.declared.prefixes.PrefixForm.{PrefixForm};
ghost use Rattle.dfdl_breaches.specs.Builds.{AreAllBuilt, PatternsSeen, patterns_at};
ghost use Rattle.dfdl_breaches.specs.Judging.{IsCheckOf, breach_at, built_checks_at, built_settings_at, built_tests_at, calculation_at, count_at, form_of_prefix, hidden_at, initiates_at, is_parsed_at, key_at, measure_at, others_at, primitive_at};

use dfdl_chains::{named_groups_are_within, statements_are_within};
use dfdl_checks::laws::{
    prefixes_are_bounded, primitives_are_bounded, primitives_for_unparsing_are_whole,
    representations_are_bounded, sound_elements_have_primitives,
};

/// A simple element without a breach has a primitive, unless its value is calculated. Each primitive, of an element with breaches too,
/// keeps the bounds of its type, which is that of the element, and each one for unparsing is a whole
/// unsigned integer. So does each primitive of a length prefix or a pattern, of which there is none for unparsing, and each one of a nil
/// representation, or of an empty one whose text is one of characters; for unparsing only the normal representation is tried.
pub fn sound_elements_have_bounded_primitives()
    ensures sound { (purpose : Purpose) (refused : Site → Bool) (documents : List SchemaDocument) (own : Site) → breach_at purpose refused documents own ≡ None
        → calculation_at purpose refused documents own ≡ None → IsTrue (is_simple (kind_at documents own)) → IsSome (primitive_at purpose refused documents own) }
    ensures prefix { (purpose : Purpose) (refused : Site → Bool) (documents : List SchemaDocument) (own : Site) (f : PrefixForm)
        → form_of_prefix purpose refused documents own ≡ Some f → IsPrimitive f.primitive }
    ensures parsing { (refused : Site → Bool) (documents : List SchemaDocument) (own : Site) → form_of_prefix Unparsing refused documents own ≡ None }
    ensures nil { (purpose : Purpose) (refused : Site → Bool) (documents : List SchemaDocument) (own : Site) (p : Primitive)
        → (others_at purpose refused documents own).nil ≡ Some p → IsPrimitive p }
    ensures required { (purpose : Purpose) (refused : Site → Bool) (documents : List SchemaDocument) (own : Site) (p : Primitive)
        → (others_at purpose refused documents own).required.empty ≡ Some p → ((form : DefaultForm) → p ≡ Default form → IsWritten form.value)
        → IsPrimitive p }
    ensures where_tried { (purpose : Purpose) (refused : Site → Bool) (documents : List SchemaDocument) (own : Site) (p : Primitive)
        → (others_at purpose refused documents own).where_tried.empty ≡ Some p → ((form : DefaultForm) → p ≡ Default form → IsWritten form.value)
        → IsPrimitive p }
    ensures normal { (refused : Site → Bool) (documents : List SchemaDocument) (own : Site) → others_at Unparsing refused documents own ≡ no_representations }
    ensures bounded { (purpose : Purpose) (refused : Site → Bool) (documents : List SchemaDocument) (own : Site) (p : Primitive)
        → primitive_at purpose refused documents own ≡ Some p → IsPrimitive p }
    ensures kind { (purpose : Purpose) (refused : Site → Bool) (documents : List SchemaDocument) (own : Site) (p : Primitive)
        → primitive_at purpose refused documents own ≡ Some p → simple_of (kind_at documents own) ≡ Some (type_of p) }
    ensures whole { (refused : Site → Bool) (documents : List SchemaDocument) (own : Site) (p : Primitive)
        → primitive_at Unparsing refused documents own ≡ Some p → IsWhole p }
{
    sound_elements_have_primitives();
    primitives_are_bounded();
    prefixes_are_bounded();
    representations_are_bounded();
    primitives_for_unparsing_are_whole();
}

/// For unparsing no test and no setting is built, no value is calculated, no component hides a group, no content is initiated, no
/// occurrence is of kind parsed, and no expression tells a length, a number of occurrences or a key.
#[tactic(auto, using(crate::proofs::HiddenKinds::untested, crate::proofs::HiddenKinds::unhidden))]
pub fn statements_are_for_parsing()
    ensures tests { (refused : Site → Bool) (documents : List SchemaDocument) (own : Site) → built_tests_at Unparsing refused documents own ≡ [] }
    ensures checks { (refused : Site → Bool) (documents : List SchemaDocument) (own : Site) → built_checks_at Unparsing refused documents own ≡ [] }
    ensures settings { (documents : List SchemaDocument) (own : Site) → built_settings_at Unparsing documents own ≡ [] }
    ensures calculated { (refused : Site → Bool) (documents : List SchemaDocument) (own : Site) → calculation_at Unparsing refused documents own ≡ None }
    ensures hidden { (documents : List SchemaDocument) (own : Site) → hidden_at Unparsing documents own ≡ None }
    ensures initiated { (refused : Site → Bool) (documents : List SchemaDocument) (own : Site) → initiates_at Unparsing refused documents own ≡ false }
    ensures counted { (refused : Site → Bool) (documents : List SchemaDocument) (own : Site) → is_parsed_at Unparsing refused documents own ≡ false }
    ensures unmeasured { (refused : Site → Bool) (documents : List SchemaDocument) (own : Site) → measure_at Unparsing refused documents own ≡ None }
    ensures uncounted { (refused : Site → Bool) (documents : List SchemaDocument) (own : Site) → count_at Unparsing refused documents own ≡ None }
    ensures unkeyed { (refused : Site → Bool) (documents : List SchemaDocument) (own : Site) → key_at Unparsing refused documents own ≡ None }
{}

/// A group that a component hides is one of the documents'.
#[tactic(auto, using(crate::proofs::HiddenKinds::hidden_within))]
pub fn hidden_groups_are_within()
    ensures { (purpose : Purpose) (documents : List SchemaDocument) (own content : Site) → hidden_at purpose documents own ≡ Some content
        → IsSite documents content }
{
    named_groups_are_within();
}

/// A component whose value is calculated is an element of a simple type that is carried.
#[tactic(auto, using(crate::proofs::Calculating::calculated_typed))]
pub fn calculated_elements_are_simple()
    ensures { (purpose : Purpose) (refused : Site → Bool) (documents : List SchemaDocument) (own : Site) (text : List ℕ)
        → calculation_at purpose refused documents own ≡ Some text → IsSome (simple_of (kind_at documents own)) }
{}

/// The tests of expressions and the settings that are told of a component are elements of the documents.
#[tactic(auto, using(crate::proofs::Stated::checks_within, crate::proofs::Stated::settings_within))]
pub fn told_statements_are_within()
    ensures checks { (purpose : Purpose) (refused : Site → Bool) (documents : List SchemaDocument) (own : Site) → IsSite documents own
        → All (IsCheckOf documents) (built_checks_at purpose refused documents own) }
    ensures settings { (purpose : Purpose) (documents : List SchemaDocument) (own : Site) → IsSite documents own
        → All (IsSetterOf documents) (built_settings_at purpose documents own) }
{
    statements_are_within();
}

/// What the builds of the patterns of a schema tell: one that is refused is one of those of an element that has some, and the count of refused
/// builds rises. Where none is refused, and for unparsing, what builds patterns is left as it was.
#[tactic(auto, using(crate::proofs::Refusals::has_pattern, crate::proofs::Refusals::rises, crate::proofs::Refusals::still, crate::proofs::Refusals::unparsed))]
pub fn refused_patterns_are_told()
    ensures told { (purpose : Purpose) (refused : Site → Bool) (documents : List SchemaDocument) (old new : PatternsSeen) (own : Site)
        → AreAllBuilt purpose refused documents old new → IsSite documents own → IsTrue (refused own)
        → patterns_at purpose documents own ≢ [] }
    ensures rose { (purpose : Purpose) (refused : Site → Bool) (documents : List SchemaDocument) (old new : PatternsSeen) (own : Site)
        → AreAllBuilt purpose refused documents old new → IsSite documents own → IsTrue (refused own) → Rose old.faults new.faults }
    ensures still { (purpose : Purpose) (refused : Site → Bool) (documents : List SchemaDocument) (old new : PatternsSeen)
        → AreAllBuilt purpose refused documents old new → ((own : Site) → IsSite documents own → refused own ≡ false) → new ≡ old }
    ensures unparsing { (refused : Site → Bool) (documents : List SchemaDocument) (old new : PatternsSeen)
        → AreAllBuilt Unparsing refused documents old new → new ≡ old }
{}
