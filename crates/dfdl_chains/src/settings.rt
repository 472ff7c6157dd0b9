// The elements that set variables at components, and those that open instances of variables.
ghost use Rattle.std.specs.Prelude.{◌≡◌, ◌<◌, ◌++◌, List, length, All, true, false, OnOk};
ghost use Rattle.std.specs.List.{flat_map};
ghost use Rattle.dfdl_markup.specs.Trees.{node_at};
ghost use Rattle.dfdl_documents.specs.Documents.{SchemaDocument};
ghost use Rattle.dfdl_components.specs.Sites.{IsSite, nodes_of};
ghost use Rattle.dfdl_components.specs.declared.site.Site as declared_site;
ghost use Rattle.dfdl_chains.specs.Chains.{chain_sites};
ghost use Rattle.dfdl_chains.specs.Settings as spec;
ghost use Rattle.dfdl_chains.specs.Tests.{IsTestOf, tests_at};

use crate::facts::{is_annotation_at, is_opening};
use dfdl_components::{Schema, Site};
use dfdl_constructs::Role;
use std::alloc::AllocError;

/// An element that sets a variable.
#[derive(Debug, Clone, Copy, PartialEq, Eq)]
pub struct Setter {
    pub site: Site,
    /// It opens an instance of the variable: it is a newVariableInstance, and else a setVariable.
    pub opens: bool,
}

// A setVariable.
fn is_setting(role: Role) -> bool
    ensures { result ≡ spec.is_setting role }
{
    match role {
        Role::SetVariable => true,
        _ => false,
    }
}

// A newVariableInstance, or a setVariable.
fn is_setter(opens: bool, role: Role) -> bool
    ensures { result ≡ spec.is_setter opens role }
{
    if opens {
        is_opening(role)
    } else {
        is_setting(role)
    }
}

// An element of the document is such.
fn is_setter_at(schema: &Schema, opens: bool, site: Site) -> bool
    requires { site.document < length schema.now }
    ensures { result ≡ spec.is_setter_at opens (nodes_of schema.now site.document) site.element }
{
    site.element < schema.tree(site.document).count() && is_setter(opens, schema.role(site))
}

// Adds the element, if it is such.
fn push_setter(
    schema: &Schema,
    opens: bool,
    site: Site,
    settings: &mut Vec<Setter>,
) -> Result<(), AllocError>
    requires { site.document < length schema.now }
    ensures { OnOk result (settings.new.items ≡ settings.old.items ++ spec.setter_if opens schema.now site.document site.element) }
{
    if is_setter_at(schema, opens, site) {
        settings.push(Setter { site, opens })?;
    }
    Ok(())
}

// Adds those among the children of an element.
fn push_children(
    schema: &Schema,
    opens: bool,
    site: Site,
    settings: &mut Vec<Setter>,
) -> Result<(), AllocError>
    requires { IsSite schema.now site }
    ensures { OnOk result (settings.new.items
        ≡ settings.old.items
        ++ flat_map (spec.setter_if opens schema.now site.document) (node_at (nodes_of schema.now site.document) site.element).children) }
{
    let document = site.document;
    for child in schema.tree(document).children(site.element) {
        let element = *child;
        push_setter(schema, opens, Site { document, element }, settings)?;
    }
    Ok(())
}

// Adds those in the annotations of DFDL's at an element.
fn push_setters_in(
    schema: &Schema,
    opens: bool,
    site: Site,
    settings: &mut Vec<Setter>,
) -> Result<(), AllocError>
    requires { site.document < length schema.now }
    ensures { OnOk result (settings.new.items ≡ settings.old.items ++ spec.setters_in opens schema.now site.document site.element) }
{
    if is_annotation_at(schema, site) {
        push_children(schema, opens, site, settings)?;
    }
    Ok(())
}

// Adds those in the annotations of DFDL's that stand in an element.
fn push_inside(
    schema: &Schema,
    opens: bool,
    site: Site,
    settings: &mut Vec<Setter>,
) -> Result<(), AllocError>
    requires { IsSite schema.now site }
    ensures { OnOk result (settings.new.items
        ≡ settings.old.items
        ++ flat_map (spec.setters_in opens schema.now site.document) (node_at (nodes_of schema.now site.document) site.element).children) }
{
    let document = site.document;
    for child in schema.tree(document).children(site.element) {
        let element = *child;
        push_setters_in(schema, opens, Site { document, element }, settings)?;
    }
    Ok(())
}

// Adds those in an annotation.
fn push_setters_within(
    schema: &Schema,
    opens: bool,
    site: Site,
    settings: &mut Vec<Setter>,
) -> Result<(), AllocError>
    requires { site.document < length schema.now }
    ensures { OnOk result (settings.new.items ≡ settings.old.items ++ spec.setters_within opens schema.now site.document site.element) }
{
    if is_annotation_at(schema, site) {
        push_inside(schema, opens, site, settings)?;
    }
    Ok(())
}

// Adds those in the annotations of an element.
fn push_own_setters(
    schema: &Schema,
    opens: bool,
    site: Site,
    settings: &mut Vec<Setter>,
) -> Result<(), AllocError>
    requires { IsSite schema.now site }
    ensures { OnOk result (settings.new.items ≡ settings.old.items ++ spec.own_setters opens schema.now site) }
{
    let document = site.document;
    for child in schema.tree(document).children(site.element) {
        let element = *child;
        push_setters_within(schema, opens, Site { document, element }, settings)?;
    }
    Ok(())
}

// Adds those in the annotations of these.
fn push_setters(
    schema: &Schema,
    opens: bool,
    chain: &[Site],
    settings: &mut Vec<Setter>,
) -> Result<(), AllocError>
    requires { All (IsSite schema.now) chain.now }
    ensures { OnOk result (settings.new.items ≡ settings.old.items ++ flat_map (spec.own_setters opens schema.now) chain.now) }
{
    for site in chain {
        push_own_setters(schema, opens, *site, settings)?;
    }
    Ok(())
}

/// What opens instances of variables at a component with this chain, and then what sets variables there, each in its order, in place of the elements
/// before.
#[tactic(auto, using(crate::proofs::Within::chain_within), unfolding(crate::specs::Settings::settings_at))]
pub fn settings_at(
    schema: &Schema,
    site: Site,
    chain: &[Site],
    settings: &mut Vec<Setter>,
) -> Result<(), AllocError>
    requires site { IsSite schema.now site }
    requires chain { chain.now ≡ chain_sites schema.now site }
    ensures { OnOk result (settings.new.items ≡ spec.settings_at schema.now site) }
{
    let _ = site;
    settings.clear();
    push_setters(schema, true, chain, settings)?;
    push_setters(schema, false, chain, settings)
}

/// What sets variables at a component, and its tests, are elements of the documents. The call does nothing.
#[tactic(auto, using(crate::proofs::Stated::settings_stand, crate::proofs::Stated::tests_stand))]
pub fn statements_are_within()
    ensures settings { (documents : List SchemaDocument) (own : declared_site.Site) → IsSite documents own
        → All (spec.IsSetterOf documents) (spec.settings_at documents own) }
    ensures tests { (documents : List SchemaDocument) (own : declared_site.Site) → IsSite documents own
        → All (IsTestOf documents) (tests_at documents own) }
{}
