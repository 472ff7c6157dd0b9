// The elements and attributes of a schema document that name other documents.
ghost use Rattle.std.specs.Prelude.{◌≡◌, ◌<◌, IsTrue, IsSome, length, option_copied, bytes_eq};
ghost use Rattle.dfdl_markup.specs.Trees.{node_at};
ghost use Rattle.dfdl_xml_tree.specs.Texts.{attribute_at};
ghost use Rattle.dfdl_documents.specs.References.{schema_namespace, is_schema_element};
ghost use Rattle.dfdl_documents.specs.References.{is_plain_attribute, plain_of, location_at, kind_at};

use crate::reference::ReferenceKind;
use dfdl_xml_tree::Tree;

// Whether a namespace is XML Schema's.
#[tactic(auto, unfolding(crate::specs::References::schema_namespace))]
fn is_schema_namespace(namespace: &str) -> bool
    ensures { result ≡ bytes_eq namespace.now schema_namespace }
{
    namespace == "http://www.w3.org/2001/XMLSchema"
}

/// Whether there is an element of this number that is XML Schema's of this local name.
pub(crate) fn is_schema_element(tree: &Tree, element: u32, name: &str) -> bool
    requires { 0 < length name.now }
    ensures value { result ≡ is_schema_element tree.now element name.now }
    ensures within { IsTrue result → element < length tree.now }
{
    element < tree.count()
        && tree.name(element) == name
        && is_schema_namespace(tree.namespace(element))
}

// Whether the attribute of this number declares no namespace, has none, and has this name.
fn is_plain_attribute(tree: &Tree, element: u32, at: u32, name: &str) -> bool
    requires element { element < length tree.now }
    requires at { at < length (node_at tree.now element).attributes }
    ensures { result ≡ is_plain_attribute tree.now element name.now
        (attribute_at (node_at tree.now element) at) }
{
    !tree.is_declaration(element, at)
        && tree.attribute_name(element, at) == name
        && tree.attribute_namespace(element, at) == ""
}

// The value of an element's attribute of no namespace.
fn attribute<'t>(tree: &'t Tree, element: u32, name: &str) -> Option<&'t str>
    requires { element < length tree.now }
    ensures { option_copied result ≡ plain_of tree.now element name.now }
{
    for at in 0..tree.attributes(element) {
        if is_plain_attribute(tree, element, at, name) {
            return Some(tree.attribute_value(element, at));
        }
    }
    None
}

/// The attribute `schemaLocation` of an element.
pub(crate) fn location_at<'t>(tree: &'t Tree, element: u32) -> Option<&'t str>
    requires { element < length tree.now }
    ensures { option_copied result ≡ location_at tree.now element }
{
    attribute(tree, element, "schemaLocation")
}

/// How an element names a document, if there is one of this number that does.
pub(crate) fn kind_at(tree: &Tree, element: u32) -> Option<ReferenceKind>
    ensures value { result ≡ kind_at tree.now element }
    ensures within { IsSome result → element < length tree.now }
{
    if is_schema_element(tree, element, "include") {
        Some(ReferenceKind::Include)
    } else if is_schema_element(tree, element, "import") {
        Some(ReferenceKind::Import)
    } else {
        None
    }
}
