// What is written at the definition of a variable.
ghost use Rattle.std.specs.Prelude.{◌≡◌, option_copied};
ghost use Rattle.dfdl_components.specs.Sites.{IsSite};
ghost use Rattle.dfdl_chains.specs.Declarations.{attribute_of};
ghost use Rattle.dfdl_chains.specs.Facts as facts;
ghost use Rattle.dfdl_chains.specs.Tests as tests;
ghost use Rattle.dfdl_variables.specs.Defaults as defaults;
ghost use Rattle.dfdl_variables.specs.Variables as spec;

use dfdl_components::{Schema, Site};
use dfdl_constructs::plain;
use dfdl_properties::trimmed;

/// The value of an attribute of no namespace.
pub(crate) fn attribute<'s>(schema: &'s Schema, site: Site, name: &str) -> Option<&'s str>
    requires { IsSite schema.now site }
    ensures { option_copied result ≡ attribute_of schema.now site name.now }
{
    plain(schema.tree(site.document), site.element, name)
}

// A text, where it isn't empty.
fn text_if_any(text: &str) -> Option<&str>
    ensures { option_copied result ≡ tests.text_if_any text.now }
{
    if text.is_empty() { None } else { Some(text) }
}

// The attribute's value, else what stands in the element.
fn given_or_inside<'s>(given: Option<&'s str>, inside: &'s str) -> Option<&'s str>
    ensures { option_copied result ≡ tests.given_or_inside (option_copied given.entry) inside.now }
{
    match given {
        Some(given) => Some(given),
        None => text_if_any(trimmed(inside)),
    }
}

/// The text of a default, if there is one.
pub(crate) fn default_text(schema: &Schema, site: Site) -> Option<&str>
    requires { IsSite schema.now site }
    ensures { option_copied result ≡ defaults.default_text schema.now site }
{
    let given = attribute(schema, site, "defaultValue");
    given_or_inside(given, schema.tree(site.document).text(site.element))
}

// A truth value that is true.
fn is_true(text: Option<&str>) -> bool
    ensures { result ≡ facts.is_true (option_copied text.entry) }
{
    match text {
        Some(text) => text == "true" || text == "1",
        None => false,
    }
}

/// Whether a variable's value may be given from outside.
pub(crate) fn is_external(schema: &Schema, site: Site) -> bool
    requires { IsSite schema.now site }
    ensures { result ≡ spec.is_external schema.now site }
{
    is_true(attribute(schema, site, "external"))
}

// A text, or an empty one where there isn't one.
fn text_or_empty(text: Option<&str>) -> &str
    ensures { result.now ≡ spec.text_or_empty (option_copied text.entry) }
{
    match text {
        Some(text) => text,
        None => "",
    }
}

/// The local name of a variable, empty where none is given.
pub(crate) fn name_at(schema: &Schema, site: Site) -> &str
    requires { IsSite schema.now site }
    ensures { result.now ≡ spec.name_at schema.now site }
{
    text_or_empty(attribute(schema, site, "name"))
}
