// What is written at the elements of documents.
ghost use Rattle.std.specs.Prelude.{◌≡◌, option_copied};
ghost use Rattle.dfdl_components.specs.Sites.{IsSite};
ghost use Rattle.dfdl_chains.specs.Declarations.{attribute_of};
ghost use Rattle.dfdl_chains.specs.Tests as tests;
ghost use Rattle.dfdl_variables.specs.Variables.{text_or_empty};

use dfdl_components::{Schema, Site};
use dfdl_constructs::plain;
use dfdl_properties::trimmed;

/// The value of an attribute of no namespace.
pub(crate) fn attribute<'s>(schema: &'s Schema, site: Site, name: &str) -> Option<&'s str>
    requires { IsSite schema.now site }
    ensures { option_copied result ≡ attribute_of schema.now site name.now }
{
    plain(schema.tree(site.document), site.element, name)
}

// A text, where it isn't empty.
fn text_if_any(text: &str) -> Option<&str>
    ensures { option_copied result ≡ tests.text_if_any text.now }
{
    if text.is_empty() { None } else { Some(text) }
}

// The attribute's value, else what stands in the element.
fn given_or_inside<'s>(given: Option<&'s str>, inside: &'s str) -> Option<&'s str>
    ensures { option_copied result ≡ tests.given_or_inside (option_copied given.entry) inside.now }
{
    match given {
        Some(given) => Some(given),
        None => text_if_any(trimmed(inside)),
    }
}

/// What the attribute of a name gives, else the text of the element.
pub(crate) fn given_by<'s>(schema: &'s Schema, site: Site, name: &str) -> Option<&'s str>
    requires { IsSite schema.now site }
    ensures { option_copied result ≡ tests.given_by name.now schema.now site }
{
    let given = attribute(schema, site, name);
    given_or_inside(given, schema.tree(site.document).text(site.element))
}

/// A text, or an empty one where there isn't one.
pub(crate) fn text_or_empty(text: Option<&str>) -> &str
    ensures { result.now ≡ text_or_empty (option_copied text.entry) }
{
    match text {
        Some(text) => text,
        None => "",
    }
}
