// The documents of a schema, and what is known of each.
ghost use Rattle.std.specs.Prelude.{◌≡◌, ◌<◌, ◌^◌, ℕ, List, length, IfOk, Some, option_copied, is_some};
ghost use Rattle.dfdl_markup.specs.Trees.{node_at};
ghost use Rattle.dfdl_constructs.specs.Roles.{AreRoles};
ghost use Rattle.dfdl_documents.specs.Loading.{document_at};
ghost use Rattle.dfdl_components.specs.Sites.{IsSite, nodes_of, role_of};
ghost use Rattle.dfdl_components.specs.Namespaces.{AreIncluders, namespace_of, own_namespace};
ghost use Rattle.dfdl_components.specs.Globals.{first_in, global, global_in};
ghost use Rattle.dfdl_components.specs.Shown.{AreIndexed, IsIndex};

use crate::kind::ComponentKind;
use crate::names::Names;
use crate::namespaces::{namespace_of, own_namespace};
use crate::site::Site;
use dfdl_constructs::{Role, Roles, roles_of};
use dfdl_documents::Documents;
use dfdl_report::Place;
use dfdl_xml_tree::Tree;
use std::alloc::{AllocError, Global};
use std::marker::Model;

/// What is kept of a document: the roles of its elements, its target namespace and whether that is its
/// own, and the names that it defines.
#[derive(Drop)]
pub(crate) struct Index {
    pub(crate) roles: Roles,
    pub(crate) namespace: String,
    pub(crate) is_own: bool,
    pub(crate) names: Names,
}

/// The documents of a schema, and what their names name.
#[derive(Drop)]
pub struct Schema {
    documents: Documents,
    indexes: Vec<Index>,
}

impl Model for Schema {
    ghost use Rattle.std.specs.Prelude.{List, length, ◌<◌, ◌^◌};
    ghost use Rattle.dfdl_documents.specs.Documents.{SchemaDocument};
    ghost use Rattle.dfdl_components.specs.Shown.{AreIndexed};

    ghost Value = { List SchemaDocument };

    ghost view = { λ s. s.documents };

    ghost invariant = { λ s. (length s.documents < 2 ^ 32) × AreIndexed s.documents s.indexes.items };
}

// What is kept of a document.
fn index_of(
    alloc: Global,
    documents: &Documents,
    includers: &[Option<u32>],
    document: u32,
) -> Result<Index, AllocError>
    requires few { length documents.now < 2 ^ 32 }
    requires includers { AreIncluders documents.now includers.now }
    requires within { document < length documents.now }
    ensures { IfOk result (IsIndex documents.now document) }
{
    let tree = documents.tree(document as usize);
    let roles = roles_of(alloc, tree)?;
    let names = Names::of(alloc, tree, &roles)?;
    Ok(Index {
        roles,
        namespace: String::from_str(alloc, namespace_of(documents, includers, document))?,
        is_own: own_namespace(documents, document).is_some(),
        names,
    })
}

// What is kept of each document.
fn indexes_of(
    alloc: Global,
    documents: &Documents,
    includers: &[Option<u32>],
) -> Result<Vec<Index>, AllocError>
    requires few { length documents.now < 2 ^ 32 }
    requires includers { AreIncluders documents.now includers.now }
    ensures { IfOk result (λ indexes. AreIndexed documents.now indexes.items) }
{
    let mut indexes = Vec::new(alloc);
    for document in 0..documents.count() {
        indexes.push(index_of(alloc, documents, includers, document as u32)?)?;
    }
    Ok(indexes)
}

impl Schema {
    /// The schema of these documents, with the first document that includes each of them.
    pub fn of(
        alloc: Global,
        documents: Documents,
        includers: &[Option<u32>],
    ) -> Result<Schema, AllocError>
        requires few { length documents < 2 ^ 32 }
        requires includers { AreIncluders documents includers.now }
        ensures { IfOk result (λ schema. schema ≡ documents) }
    {
        let indexes = indexes_of(alloc, &documents, includers)?;
        Ok(Schema { documents, indexes })
    }

    /// How many documents there are.
    pub fn count(&self) -> u32
        ensures { result ≡ length self.now }
    {
        self.documents.count() as u32
    }

    /// The name by which a document was loaded.
    pub fn name(&self, document: u32) -> &str
        requires { document < length self.now }
        ensures { result.now ≡ (document_at self.now document).name }
    {
        self.documents.name(document as usize)
    }

    /// The elements of a document.
    pub fn tree(&self, document: u32) -> &Tree
        requires { document < length self.now }
        ensures { result.now ≡ nodes_of self.now document }
    {
        self.documents.tree(document as usize)
    }

    /// What an element stands for.
    pub fn role(&self, site: Site) -> Role
        requires { IsSite self.now site }
        ensures { result ≡ role_of self.now site }
    {
        self.index(site.document).roles.of(site.element)
    }

    /// What the elements of a document stand for.
    pub fn roles(&self, document: u32) -> &Roles
        requires { document < length self.now }
        ensures { AreRoles (nodes_of self.now document) result.now }
    {
        &self.index(document).roles
    }

    /// The byte at which an element begins.
    pub fn place(&self, site: Site) -> Place
        requires { IsSite self.now site }
        ensures document { result.document ≡ site.document }
        ensures at { result.at ≡ (node_at (nodes_of self.now site.document) site.element).at }
    {
        Place {
            document: site.document,
            at: self.tree(site.document).at(site.element),
        }
    }

    /// The target namespace of a document, empty where it has none.
    pub fn namespace(&self, document: u32) -> &str
        requires { document < length self.now }
        ensures { result.now ≡ namespace_of self.now document }
    {
        self.index(document).namespace.as_str()
    }

    // Whether a document's target namespace is its own.
    pub(crate) fn has_own_namespace(&self, document: u32) -> bool
        requires { document < length self.now }
        ensures { result ≡ is_some (own_namespace self.now document) }
    {
        self.index(document).is_own
    }

    // What is kept of a document.
    pub(crate) fn index(&self, document: u32) -> &Index
        requires { document < length self.now }
        ensures { IsIndex self.now document result.now }
    {
        &self.indexes[document as usize]
    }

    // The first component of this kind and name in a document, where that has the namespace.
    fn global_in(
        &self,
        kind: ComponentKind,
        namespace: &str,
        local: &str,
        document: u32,
    ) -> Option<Site>
        requires { document < length self.now }
        ensures { result ≡ global_in self.now kind namespace.now local.now document }
    {
        let index = self.index(document);
        if namespace != index.namespace.as_str() {
            return None;
        }
        let element = index.names.get(kind, local)?;
        Some(Site { document, element })
    }

    /// The first global component of this kind, namespace and local name. The namespace is empty where
    /// there is none.
    #[tactic(auto, using(crate::proofs::Searching::first_none, crate::proofs::Searching::none_more, crate::proofs::Searching::found_at))]
    pub fn global(&self, kind: ComponentKind, namespace: &str, local: &str) -> Option<Site>
        ensures { result ≡ global self.now kind namespace.now local.now }
    {
        for document in 0..self.count() {
            if let Some(site) = self.global_in(kind, namespace, local, document) {
                return Some(site);
            }
        }
        None
    }
}
