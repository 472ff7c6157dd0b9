// Properties that attributes write.
ghost use Rattle.std.specs.Prelude.{◌≡◌, ◌<◌, length, OnOk};
ghost use Rattle.dfdl_markup.specs.Trees.{node_at};
ghost use Rattle.dfdl_xml_tree.specs.Texts.{attribute_at};
ghost use Rattle.dfdl_constructs.specs.Elements.{dfdl_namespace};
ghost use Rattle.dfdl_properties.specs.Forms.{attribute_form, by_attributes, short_form, writes_property};
ghost use Rattle.dfdl_properties.specs.Shown.{IsWith};

use dfdl_scope::{Properties, is_property};
use dfdl_xml_tree::Tree;
use std::alloc::AllocError;

// The namespace of DFDL.
#[tactic(auto, unfolding(dfdl_constructs::specs::Elements::dfdl_namespace))]
fn dfdl_namespace() -> &'static str
    ensures { result.now ≡ dfdl_namespace }
{
    "http://www.ogf.org/dfdl/dfdl-1.0/"
}

// Whether the attribute of this number writes a property, where its name is in this namespace.
fn writes_property(tree: &Tree, element: u32, at: u32, namespace: &str) -> bool
    requires element { element < length tree.now }
    requires at { at < length (node_at tree.now element).attributes }
    ensures { result ≡ writes_property tree.now element namespace.now (attribute_at (node_at tree.now element) at) }
{
    !tree.is_declaration(element, at)
        && is_property(tree.attribute_name(element, at))
        && tree.attribute_namespace(element, at) == namespace
}

// Adds the properties that those attributes write whose names are in this namespace.
fn add_attributes<'t>(
    own: &mut Properties<'t>,
    tree: &'t Tree,
    element: u32,
    namespace: &str,
) -> Result<(), AllocError>
    requires { element < length tree.now }
    ensures { OnOk result (IsWith own.old (by_attributes tree.now element namespace.now) own.new) }
{
    for at in 0..tree.attributes(element) {
        if writes_property(tree, element, at, namespace) {
            own.add(
                tree.attribute_name(element, at),
                tree.attribute_value(element, at),
            )?;
        }
    }
    Ok(())
}

/// Adds the properties in short form at a component.
pub(crate) fn add_short_form<'t>(
    own: &mut Properties<'t>,
    tree: &'t Tree,
    component: u32,
) -> Result<(), AllocError>
    requires { component < length tree.now }
    ensures { OnOk result (IsWith own.old (short_form tree.now component) own.new) }
{
    add_attributes(own, tree, component, dfdl_namespace())
}

/// Adds the properties in attribute form at an annotation element.
pub(crate) fn add_attribute_form<'t>(
    own: &mut Properties<'t>,
    tree: &'t Tree,
    element: u32,
) -> Result<(), AllocError>
    requires { element < length tree.now }
    ensures { OnOk result (IsWith own.old (attribute_form tree.now element) own.new) }
{
    add_attributes(own, tree, element, "")
}
