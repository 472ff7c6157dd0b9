// The attributes of an element, by namespace and local name.
ghost use Rattle.std.specs.Prelude.{◌≡◌, ◌<◌, length, option_copied};
ghost use Rattle.dfdl_markup.specs.Trees.{node_at};
ghost use Rattle.dfdl_xml_tree.specs.Texts.{attribute_at};
ghost use Rattle.dfdl_constructs.specs.Elements.{dfdl_namespace, dfdl_of, has, is_attribute};
ghost use Rattle.dfdl_constructs.specs.Elements.{plain_of, schema_namespace, value_of};

use dfdl_xml_tree::Tree;

// The namespace of XML Schema.
#[tactic(auto, unfolding(crate::specs::Elements::schema_namespace))]
pub(crate) fn schema_namespace() -> &'static str
    ensures { result.now ≡ schema_namespace }
{
    "http://www.w3.org/2001/XMLSchema"
}

// The namespace of DFDL's annotation elements and properties.
#[tactic(auto, unfolding(crate::specs::Elements::dfdl_namespace))]
pub(crate) fn dfdl_namespace() -> &'static str
    ensures { result.now ≡ dfdl_namespace }
{
    "http://www.ogf.org/dfdl/dfdl-1.0/"
}

// Whether the attribute of this number declares no namespace, and has this namespace and local
// name.
fn is_attribute(tree: &Tree, element: u32, at: u32, namespace: &str, name: &str) -> bool
    requires element { element < length tree.now }
    requires at { at < length (node_at tree.now element).attributes }
    ensures { result ≡ is_attribute tree.now element namespace.now name.now
        (attribute_at (node_at tree.now element) at) }
{
    !tree.is_declaration(element, at)
        && tree.attribute_name(element, at) == name
        && tree.attribute_namespace(element, at) == namespace
}

// The value of an element's attribute of this namespace and local name.
fn attribute<'t>(tree: &'t Tree, element: u32, namespace: &str, name: &str) -> Option<&'t str>
    requires { element < length tree.now }
    ensures { option_copied result ≡ value_of tree.now element namespace.now name.now }
{
    for at in 0..tree.attributes(element) {
        if is_attribute(tree, element, at, namespace, name) {
            return Some(tree.attribute_value(element, at));
        }
    }
    None
}

/// The value of an element's attribute of no namespace, as it is.
pub fn plain<'t>(tree: &'t Tree, element: u32, name: &str) -> Option<&'t str>
    requires { element < length tree.now }
    ensures { option_copied result ≡ plain_of tree.now element name.now }
{
    attribute(tree, element, "", name)
}

/// The value of an element's attribute of DFDL's namespace, as it is.
pub fn dfdl<'t>(tree: &'t Tree, element: u32, name: &str) -> Option<&'t str>
    requires { element < length tree.now }
    ensures { option_copied result ≡ dfdl_of tree.now element name.now }
{
    attribute(tree, element, dfdl_namespace(), name)
}

// Whether an element has an attribute of no namespace with this name.
pub(crate) fn has(tree: &Tree, element: u32, name: &str) -> bool
    requires { element < length tree.now }
    ensures { result ≡ has tree.now element name.now }
{
    plain(tree, element, name).is_some()
}
