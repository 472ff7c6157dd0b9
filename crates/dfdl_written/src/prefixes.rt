// The prefixes that documents declare, and what they stand for at an element.
ghost use Rattle.std.specs.Prelude.{◌≡◌, ◌<◌, ◌||◌, [], ℕ, List, length, map, IfOk, OnOk, option_copied, option_map, chars, encode_utf8_all, string_bytes, bytes_eq};
ghost use Rattle.std.specs.BTreeMap.{get_by_text};
ghost use Rattle.std.specs.Map.{update};
ghost use Rattle.std.specs.Prelude.{Some};
ghost use Rattle.dfdl_markup.specs.Trees.{node_at};
ghost use Rattle.dfdl_xml_tree.specs.Texts.{attribute_at};
ghost use Rattle.dfdl_documents.specs.Loading.{is_among};
ghost use Rattle.dfdl_components.specs.Sites.{IsSite};
ghost use Rattle.dfdl_written.specs.Prefixes as spec;

use dfdl_components::{Schema, Site};
use dfdl_documents::Names;
use dfdl_xml_tree::Tree;
use std::alloc::{AllocError, Global};
use std::collections::BTreeMap;
use std::marker::Model;

/// The prefixes that each document of a schema declares.
#[derive(Drop)]
pub struct Prefixes {
    documents: Vec<Names>,
}

impl Model for Prefixes {
    ghost use Rattle.std.specs.Prelude.{ℕ, List};

    ghost Value = { List (List (List ℕ)) };

    ghost view = { λ p. p.documents.items };
}

// The prefixes with that which an attribute declares, if it declares one.
#[tactic(auto, using(crate::proofs::Gathered::declared_more, crate::proofs::Gathered::declared_same))]
fn with_attribute(tree: &Tree, element: u32, at: u32, prefixes: Names) -> Result<Names, AllocError>
    requires element { element < length tree.now }
    requires at { at < length (node_at tree.now element).attributes }
    ensures { IfOk result (λ more. (q : List ℕ) → is_among more q
        ≡ (is_among prefixes q || spec.declares q (attribute_at (node_at tree.now element) at))) }
{
    if tree.is_declaration(element, at) {
        let more = prefixes.with(tree.attribute_name(element, at))?;
        Ok(more)
    } else {
        Ok(prefixes)
    }
}

// The prefixes with those that the attributes of an element declare.
fn with_element(tree: &Tree, element: u32, prefixes: Names) -> Result<Names, AllocError>
    requires { element < length tree.now }
    ensures { IfOk result (λ more. (q : List ℕ) → is_among more q
        ≡ (is_among prefixes q || spec.declares_among q (node_at tree.now element))) }
{
    let mut more = prefixes;
    for at in 0..tree.attributes(element) {
        more = with_attribute(tree, element, at, more)?;
    }
    Ok(more)
}

// The prefixes that the elements of a document declare.
fn declared_in(alloc: Global, tree: &Tree) -> Result<Names, AllocError>
    ensures { IfOk result (spec.AreDeclaredIn tree.now) }
{
    let mut prefixes = Names::new(alloc);
    for element in 0..tree.count() {
        prefixes = with_element(tree, element, prefixes)?;
    }
    Ok(prefixes)
}

/// The prefixes that each document of a schema declares.
#[tactic(auto, using(crate::proofs::Gathered::declared_behind))]
pub fn prefixes_of(alloc: Global, schema: &Schema) -> Result<Prefixes, AllocError>
    ensures { IfOk result (spec.AreDeclared schema.now) }
{
    let mut documents = Vec::new(alloc);
    for document in 0..schema.count() {
        documents.push(declared_in(alloc, schema.tree(document))?)?;
    }
    Ok(Prefixes { documents })
}

// The text, which is UTF-8.
fn spelled(text: &str) -> &str
    ensures { result.now ≡ encode_utf8_all (chars text.now) }
{
    text
}

// The namespace that a prefix stands for at an element.
fn namespace_in<'t>(tree: &'t Tree, element: u32, prefix: &str) -> Option<&'t str>
    requires { element < length tree.now }
    ensures { option_copied result ≡ spec.namespace_in tree.now element prefix.now }
{
    match tree.prefix(element, prefix) {
        Some(namespace) => Some(spelled(namespace)),
        None => None,
    }
}

// One more prefix with its namespace, in place of what has it.
fn add(
    namespaces: &mut BTreeMap<String, String>,
    prefix: String,
    namespace: String,
) -> Result<(), AllocError>
    ensures { OnOk result ((q : List ℕ) → get_by_text namespaces.new q
        ≡ update bytes_eq (get_by_text namespaces.old) (string_bytes prefix) (Some namespace) q) }
{
    namespaces.insert(prefix, namespace)?;
    Ok(())
}

// One more prefix with its namespace, where it has one.
fn put(
    alloc: Global,
    namespaces: &mut BTreeMap<String, String>,
    prefix: &str,
    namespace: Option<&str>,
) -> Result<(), AllocError>
    ensures { OnOk result ((q : List ℕ) → option_map string_bytes (get_by_text namespaces.new q)
        ≡ spec.namespace_with prefix.now (option_copied namespace.entry) q (option_map string_bytes (get_by_text namespaces.old q))) }
{
    let Some(namespace) = namespace else {
        return Ok(());
    };
    let prefix = String::from_str(alloc, prefix)?;
    let namespace = String::from_str(alloc, namespace)?;
    add(namespaces, prefix, namespace)
}

// What some prefixes stand for at an element.
fn namespaces(
    alloc: Global,
    tree: &Tree,
    prefixes: &[String],
    element: u32,
) -> Result<BTreeMap<String, String>, AllocError>
    requires { element < length tree.now }
    ensures { IfOk result (λ made. (q : List ℕ) → option_map string_bytes (get_by_text made q)
        ≡ spec.namespace_among (map (λ name. string_bytes name) prefixes.now) tree.now element q) }
{
    let mut made = BTreeMap::new(alloc);
    for at in 0..prefixes.len() {
        let prefix = prefixes[at].as_str();
        put(
            alloc,
            &mut made,
            prefix,
            namespace_in(tree, element, prefix),
        )?;
    }
    Ok(made)
}

/// The namespaces of the prefixes in scope at an element.
#[tactic(auto, using(crate::proofs::Mapped::namespaces_are))]
pub fn prefixes_at(
    alloc: Global,
    schema: &Schema,
    prefixes: &Prefixes,
    site: Site,
) -> Result<BTreeMap<String, String>, AllocError>
    requires site { IsSite schema.now site }
    requires prefixes { spec.AreDeclared schema.now prefixes.now }
    ensures { IfOk result (spec.HasNamespaces schema.now site) }
{
    let declared = &prefixes.documents[site.document as usize];
    namespaces(
        alloc,
        schema.tree(site.document),
        declared.as_slice(),
        site.element,
    )
}
