// The documents of a schema.
ghost use Rattle.std.specs.Prelude.{◌≡◌, ◌+◌, ◌<◌, ◌^◌, ◌++◌, ◌∷◌, [], OnOk, IfOk, length, map};
ghost use Rattle.dfdl_documents.specs.Loading.{document_at};
ghost use Rattle.dfdl_documents.specs.References.{references_of};
ghost use Rattle.dfdl_documents.specs.Shown.{document_of, reference_shown};

use crate::reference::DocumentReference;
use crate::references::references_of;
use dfdl_value::TextValue;
use dfdl_xml_tree::Tree;
use std::alloc::{AllocError, Global};
use std::marker::Model;

/// A document that is loaded.
#[derive(Drop)]
pub(crate) struct Loaded {
    pub(crate) name: TextValue,
    pub(crate) tree: Tree,
}

/// The documents of a schema, numbered from 0 in the order in which they were loaded.
#[derive(Drop)]
pub struct Documents {
    items: Vec<Loaded>,
}

impl Model for Documents {
    ghost use Rattle.std.specs.Prelude.{List, map};
    ghost use Rattle.dfdl_documents.specs.Documents.{SchemaDocument};
    ghost use Rattle.dfdl_documents.specs.Shown.{document_of};

    ghost Value = { List SchemaDocument };

    ghost view = { λ d. map document_of d.items.items };
}

impl Documents {
    pub(crate) fn new(alloc: Global) -> Documents
        ensures { result ≡ [] }
    {
        Documents {
            items: Vec::new(alloc),
        }
    }

    /// How many documents there are.
    pub fn count(&self) -> usize
        ensures { result ≡ length self.now }
    {
        self.items.len()
    }

    /// The name by which a document was loaded.
    pub fn name(&self, document: usize) -> &str
        requires { document < length self.now }
        ensures { result.now ≡ (document_at self.now document).name }
    {
        self.items[document].name.as_str()
    }

    /// The elements of a document.
    pub fn tree(&self, document: usize) -> &Tree
        requires { document < length self.now }
        ensures { result.now ≡ (document_at self.now document).nodes }
    {
        &self.items[document].tree
    }

    /// The references of a document, in their order.
    pub fn references(
        &self,
        alloc: Global,
        document: usize,
    ) -> Result<Vec<DocumentReference>, AllocError>
        requires { document < length self.now }
        ensures { IfOk result (λ references. map reference_shown references.items
            ≡ references_of (document_at self.now document)) }
    {
        references_of(alloc, &self.items[document])
    }

    /// One more document.
    pub(crate) fn push(&mut self, loaded: Loaded) -> Result<(), AllocError>
        ensures { OnOk result (self.new ≡ self.old ++ document_of loaded ∷ []) }
    {
        self.items.push(loaded)?;
        Ok(())
    }
}
