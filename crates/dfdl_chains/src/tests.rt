// The asserts and discriminators that stand at components.
ghost use Rattle.std.specs.Prelude.{◌≡◌, ◌<◌, ◌++◌, length, map, All, OnOk, option_copied};
ghost use Rattle.std.specs.List.{flat_map};
ghost use Rattle.dfdl_markup.specs.Trees.{node_at};
ghost use Rattle.dfdl_components.specs.Sites.{IsSite, nodes_of};
ghost use Rattle.dfdl_checks.specs.JudgedShown.{test_judged_of};
ghost use Rattle.dfdl_chains.specs.Chains.{chain_sites};
ghost use Rattle.dfdl_chains.specs.Tests as spec;

use crate::declaring::attribute;
use crate::facts::is_annotation_at;
use dfdl_checks::StatedTest;
use dfdl_components::{Schema, Site};
use dfdl_constructs::Role;
use dfdl_properties::trimmed;
use std::alloc::AllocError;

// An assert or a discriminator.
fn is_test(role: Role) -> bool
    ensures { result ≡ spec.is_test role }
{
    match role {
        Role::Assert | Role::Discriminator => true,
        _ => false,
    }
}

// A discriminator.
fn is_discriminator(role: Role) -> bool
    ensures { result ≡ spec.is_discriminator role }
{
    match role {
        Role::Discriminator => true,
        _ => false,
    }
}

// An element of the document is an assert or a discriminator.
fn is_test_at(schema: &Schema, site: Site) -> bool
    requires { site.document < length schema.now }
    ensures { result ≡ spec.is_test_at (nodes_of schema.now site.document) site.element }
{
    site.element < schema.tree(site.document).count() && is_test(schema.role(site))
}

// A text, where it isn't empty.
fn text_if_any(text: &str) -> Option<&str>
    ensures { option_copied result ≡ spec.text_if_any text.now }
{
    if text.is_empty() { None } else { Some(text) }
}

// The attribute's value, else what stands in the element.
fn given_or_inside<'s>(given: Option<&'s str>, inside: &'s str) -> Option<&'s str>
    ensures { option_copied result ≡ spec.given_or_inside (option_copied given.entry) inside.now }
{
    match given {
        Some(given) => Some(given),
        None => text_if_any(trimmed(inside)),
    }
}

// What the attribute of a name gives, else the text of the element.
fn given_by<'s>(schema: &'s Schema, site: Site, name: &str) -> Option<&'s str>
    requires { IsSite schema.now site }
    ensures { option_copied result ≡ spec.given_by name.now schema.now site }
{
    let given = attribute(schema, site, name);
    given_or_inside(given, schema.tree(site.document).text(site.element))
}

// The pattern of a test.
fn pattern_of<'s>(schema: &'s Schema, site: Site) -> Option<&'s str>
    requires { IsSite schema.now site }
    ensures { option_copied result ≡ spec.pattern_of schema.now site }
{
    given_by(schema, site, "testPattern")
}

// The expression of a test.
fn expression_of<'s>(schema: &'s Schema, site: Site) -> Option<&'s str>
    requires { IsSite schema.now site }
    ensures { option_copied result ≡ spec.expression_of schema.now site }
{
    given_by(schema, site, "test")
}

// A test, as it is written at an element.
fn test_at<'s>(schema: &'s Schema, site: Site) -> StatedTest<'s>
    requires { IsSite schema.now site }
    ensures { test_judged_of result ≡ spec.test_at schema.now site }
{
    StatedTest {
        document: site.document,
        element: site.element,
        discriminates: is_discriminator(schema.role(site)),
        kind: attribute(schema, site, "testKind"),
        failure: attribute(schema, site, "failureType"),
        pattern: pattern_of(schema, site),
        test: expression_of(schema, site),
        message: attribute(schema, site, "message"),
    }
}

// Adds the test that an element is, if it is one.
fn push_test<'s>(
    schema: &'s Schema,
    site: Site,
    tests: &mut Vec<StatedTest<'s>>,
) -> Result<(), AllocError>
    requires { site.document < length schema.now }
    ensures { OnOk result (map test_judged_of tests.new.items ≡ map test_judged_of tests.old.items ++ spec.test_if schema.now site.document site.element) }
{
    if is_test_at(schema, site) {
        tests.push(test_at(schema, site))?;
    }
    Ok(())
}

// Adds the tests among the children of an element.
fn push_children<'s>(
    schema: &'s Schema,
    site: Site,
    tests: &mut Vec<StatedTest<'s>>,
) -> Result<(), AllocError>
    requires { IsSite schema.now site }
    ensures { OnOk result (map test_judged_of tests.new.items
        ≡ map test_judged_of tests.old.items
        ++ flat_map (spec.test_if schema.now site.document) (node_at (nodes_of schema.now site.document) site.element).children) }
{
    let document = site.document;
    for child in schema.tree(document).children(site.element) {
        let element = *child;
        push_test(schema, Site { document, element }, tests)?;
    }
    Ok(())
}

// Adds the tests in the annotations of DFDL's at an element.
fn push_tests_in<'s>(
    schema: &'s Schema,
    site: Site,
    tests: &mut Vec<StatedTest<'s>>,
) -> Result<(), AllocError>
    requires { site.document < length schema.now }
    ensures { OnOk result (map test_judged_of tests.new.items ≡ map test_judged_of tests.old.items ++ spec.tests_in schema.now site.document site.element) }
{
    if is_annotation_at(schema, site) {
        push_children(schema, site, tests)?;
    }
    Ok(())
}

// Adds the tests in the annotations of DFDL's that stand in an element.
fn push_inside<'s>(
    schema: &'s Schema,
    site: Site,
    tests: &mut Vec<StatedTest<'s>>,
) -> Result<(), AllocError>
    requires { IsSite schema.now site }
    ensures { OnOk result (map test_judged_of tests.new.items
        ≡ map test_judged_of tests.old.items
        ++ flat_map (spec.tests_in schema.now site.document) (node_at (nodes_of schema.now site.document) site.element).children) }
{
    let document = site.document;
    for child in schema.tree(document).children(site.element) {
        let element = *child;
        push_tests_in(schema, Site { document, element }, tests)?;
    }
    Ok(())
}

// Adds the tests in an annotation.
fn push_tests_within<'s>(
    schema: &'s Schema,
    site: Site,
    tests: &mut Vec<StatedTest<'s>>,
) -> Result<(), AllocError>
    requires { site.document < length schema.now }
    ensures { OnOk result (map test_judged_of tests.new.items ≡ map test_judged_of tests.old.items ++ spec.tests_within schema.now site.document site.element) }
{
    if is_annotation_at(schema, site) {
        push_inside(schema, site, tests)?;
    }
    Ok(())
}

// Adds the tests in the annotations of an element.
fn push_own_tests<'s>(
    schema: &'s Schema,
    site: Site,
    tests: &mut Vec<StatedTest<'s>>,
) -> Result<(), AllocError>
    requires { IsSite schema.now site }
    ensures { OnOk result (map test_judged_of tests.new.items ≡ map test_judged_of tests.old.items ++ spec.own_tests schema.now site) }
{
    let document = site.document;
    for child in schema.tree(document).children(site.element) {
        let element = *child;
        push_tests_within(schema, Site { document, element }, tests)?;
    }
    Ok(())
}

// Adds the tests in the annotations of these.
fn push_tests<'s>(
    schema: &'s Schema,
    chain: &[Site],
    tests: &mut Vec<StatedTest<'s>>,
) -> Result<(), AllocError>
    requires { All (IsSite schema.now) chain.now }
    ensures { OnOk result (map test_judged_of tests.new.items ≡ map test_judged_of tests.old.items ++ flat_map (spec.own_tests schema.now) chain.now) }
{
    for site in chain {
        push_own_tests(schema, *site, tests)?;
    }
    Ok(())
}

/// The asserts and discriminators of a component with this chain, in its order, in place of the tests before.
#[tactic(auto, using(crate::proofs::Within::chain_within), unfolding(crate::specs::Tests::tests_at))]
pub fn tests_at<'s>(
    schema: &'s Schema,
    site: Site,
    chain: &[Site],
    tests: &mut Vec<StatedTest<'s>>,
) -> Result<(), AllocError>
    requires site { IsSite schema.now site }
    requires chain { chain.now ≡ chain_sites schema.now site }
    ensures { OnOk result (map test_judged_of tests.new.items ≡ spec.tests_at schema.now site) }
{
    let _ = site;
    tests.clear();
    push_tests(schema, chain, tests)
}
