// The tree of a document.
ghost use Rattle.std.specs.Prelude.{◌≡◌, ◌<◌, ◌^◌, length, map, chars, option_map, is_some, Some, encode_utf8_all};
ghost use Rattle.dfdl_markup.specs.Trees.{attribute_namespace_at, local_part};
ghost use Rattle.dfdl_markup.specs.Trees.{namespace_at, node_at, or_empty, prefix_at, unless_empty};
ghost use Rattle.dfdl_markup.specs.Values.{declares};
ghost use Rattle.dfdl_xml_names.specs.Shown.{lent_text, name_of};
ghost use Rattle.dfdl_xml_tree.specs.Shown.{node_of};
ghost use Rattle.dfdl_xml_tree.specs.Texts.{attribute_at};

use crate::element::Element;
use crate::scope::find_from;
use dfdl_xml_names::Name;
use std::marker::Model;

/// A document's elements, numbered from 0 in the order of their start tags.
#[derive(Drop)]
pub struct Tree {
    elements: Vec<Element>,
    ghost few: { length elements.items < 2 ^ 32 },
}

impl Model for Tree {
    ghost use Rattle.std.specs.Prelude.{List, map};
    ghost use Rattle.dfdl_markup.specs.Trees.{Node};
    ghost use Rattle.dfdl_xml_tree.specs.Shown.{node_of};

    ghost Value = { List Node };

    ghost view = { λ t. map node_of t.elements.items };
}

// The text, which is UTF-8.
fn spelled(text: &str) -> &str
    ensures { result.now ≡ encode_utf8_all (chars text.now) }
{
    text
}

// The namespace, where it is not the empty one, which undeclares.
fn if_some(namespace: &str) -> Option<&str>
    ensures { lent_text result ≡ unless_empty (Some (chars namespace.now)) }
{
    if namespace.is_empty() {
        None
    } else {
        Some(namespace)
    }
}

// The namespace, or the empty text where there is none.
#[tactic(auto, using(crate::proofs::Texts::no_letters))]
fn or_empty(namespace: Option<&str>) -> &str
    ensures { chars result.now ≡ or_empty (lent_text namespace.entry) }
{
    match namespace {
        Some(namespace) => namespace,
        None => "",
    }
}

// The name declares a namespace.
fn declares(name: &Name) -> bool
    ensures { result ≡ is_some (declares (name_of name.now)) }
{
    name.declares().is_some()
}

impl Tree {
    pub(crate) fn new(elements: Vec<Element>) -> Tree
        requires { length elements.items < 2 ^ 32 }
        ensures { result ≡ map node_of elements.items }
    {
        Tree { elements }
    }

    /// How many elements the document has.
    pub fn count(&self) -> u32
        ensures { result ≡ length self.now }
    {
        self.elements.len() as u32
    }

    /// The local part of an element's name.
    pub fn name(&self, element: u32) -> &str
        requires { element < length self.now }
        ensures { result.now ≡ encode_utf8_all (local_part (node_at self.now element).name) }
    {
        spelled(self.elements[element as usize].name.local())
    }

    /// How many attributes an element has, declarations of namespaces among them.
    pub fn attributes(&self, element: u32) -> u32
        requires { element < length self.now }
        ensures { result ≡ length (node_at self.now element).attributes }
    {
        self.elements[element as usize].attributes.len() as u32
    }

    /// The value of an attribute.
    pub fn attribute_value(&self, element: u32, at: u32) -> &str
        requires element { element < length self.now }
        requires at { at < length (node_at self.now element).attributes }
        ensures { result.now ≡ encode_utf8_all (attribute_at (node_at self.now element) at).value }
    {
        spelled(
            self.elements[element as usize].attributes[at as usize]
                .value
                .as_str(),
        )
    }

    /// The numbers of an element's children, in their order.
    pub fn children(&self, element: u32) -> &[u32]
        requires { element < length self.now }
        ensures { result.now ≡ (node_at self.now element).children }
    {
        self.elements[element as usize].children.as_slice()
    }

    /// The characters directly inside of an element, joined.
    pub fn text(&self, element: u32) -> &str
        requires { element < length self.now }
        ensures { result.now ≡ encode_utf8_all (node_at self.now element).text }
    {
        spelled(self.elements[element as usize].text.as_str())
    }

    /// The byte of the document at which an element's start tag begins.
    pub fn at(&self, element: u32) -> u64
        requires { element < length self.now }
        ensures { result ≡ (node_at self.now element).at }
    {
        self.elements[element as usize].at
    }

    /// The namespace that a prefix, or the empty one, stands for at an element.
    pub fn prefix(&self, element: u32, prefix: &str) -> Option<&str>
        requires { element < length self.now }
        ensures { lent_text result ≡ prefix_at self.now element (chars prefix.now) }
    {
        let namespace = find_from(&self.elements, element + 1, Some(element), prefix)?;
        if_some(namespace)
    }

    /// The namespace of an element's name, empty where it has none.
    pub fn namespace(&self, element: u32) -> &str
        requires { element < length self.now }
        ensures { result.now ≡ encode_utf8_all (namespace_at self.now element) }
    {
        let prefix = self.elements[element as usize].name.prefix();
        spelled(or_empty(self.prefix(element, prefix)))
    }

    /// The local part of an attribute's name. Of a declaration of a namespace that is the prefix that
    /// it declares, or `xmlns`.
    pub fn attribute_name(&self, element: u32, at: u32) -> &str
        requires element { element < length self.now }
        requires at { at < length (node_at self.now element).attributes }
        ensures { result.now ≡ encode_utf8_all (local_part (attribute_at (node_at self.now element) at).name) }
    {
        spelled(
            self.elements[element as usize].attributes[at as usize]
                .name
                .local(),
        )
    }

    /// Whether an attribute declares a namespace.
    pub fn is_declaration(&self, element: u32, at: u32) -> bool
        requires element { element < length self.now }
        requires at { at < length (node_at self.now element).attributes }
        ensures { result ≡ is_some (declares (attribute_at (node_at self.now element) at).name) }
    {
        declares(&self.elements[element as usize].attributes[at as usize].name)
    }

    /// The namespace of an attribute's name: empty where it has no prefix, and where it declares a
    /// namespace.
    pub fn attribute_namespace(&self, element: u32, at: u32) -> &str
        requires element { element < length self.now }
        requires at { at < length (node_at self.now element).attributes }
        ensures { result.now ≡ encode_utf8_all
            (attribute_namespace_at self.now element (attribute_at (node_at self.now element) at).name) }
    {
        let name = &self.elements[element as usize].attributes[at as usize].name;
        spelled(self.namespace_of(element, name))
    }

    // The namespace of this name of an attribute at an element.
    #[tactic(auto, using(crate::proofs::Texts::no_letters))]
    fn namespace_of(&self, element: u32, name: &Name) -> &str
        requires { element < length self.now }
        ensures { chars result.now ≡ attribute_namespace_at self.now element (name_of name.now) }
    {
        match name {
            Name::Prefixed { prefix, .. } => {
                if declares(name) {
                    ""
                } else {
                    or_empty(self.prefix(element, prefix.as_str()))
                }
            }
            Name::Plain(_) => "",
        }
    }
}
