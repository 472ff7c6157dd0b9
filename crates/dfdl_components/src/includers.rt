// The first document that includes each document of a schema.
ghost use Rattle.std.specs.Prelude.{◌≡◌, ◌<◌, ◌^◌, ◌&&◌, [], length, map, get_or, if◌then◌else◌, Some, None, IfOk};
ghost use Rattle.dfdl_documents.specs.Loading.{document_at};
ghost use Rattle.dfdl_documents.specs.References.{references_of};
ghost use Rattle.dfdl_components.specs.Searching.{first_below};
ghost use Rattle.dfdl_components.specs.Namespaces.{AreIncluders, includer_of, includes_in, is_include, includer_among, AreReferences};

use dfdl_documents::{DocumentReference, Documents, ReferenceKind};
use std::alloc::{AllocError, Global};
use std::marker::Model;

// The references of a document.
#[derive(Drop)]
struct References {
    items: Vec<DocumentReference>,
}

impl Model for References {
    ghost use Rattle.std.specs.Prelude.{List, map};
    ghost use Rattle.dfdl_documents.specs.Documents.{Reference};
    ghost use Rattle.dfdl_documents.specs.Shown.{reference_shown};

    ghost Value = { List Reference };

    ghost view = { λ r. map reference_shown r.items.items };
}

// The reference includes, and does not import.
fn is_include(kind: ReferenceKind) -> bool
    ensures { result ≡ is_include kind }
{
    match kind {
        ReferenceKind::Include => true,
        ReferenceKind::Import => false,
    }
}

impl References {
    // Those of a document.
    fn of(alloc: Global, documents: &Documents, document: usize) -> Result<References, AllocError>
        requires { document < length documents.now }
        ensures { IfOk result (λ references. references ≡ references_of (document_at documents.now document)) }
    {
        let items = documents.references(alloc, document)?;
        Ok(References { items })
    }

    // The document of this name is included.
    fn includes(&self, name: &str) -> bool
        ensures { result ≡ includes_in self.now name.now }
    {
        for reference in self.items.as_slice() {
            if is_include(reference.kind) && reference.name.as_str() == name {
                return true;
            }
        }
        false
    }
}

// The references of each document.
fn all_references(alloc: Global, documents: &Documents) -> Result<Vec<References>, AllocError>
    ensures { IfOk result (λ all. AreReferences documents.now (length documents.now) all.items) }
{
    let mut all = Vec::new(alloc);
    for document in 0..documents.count() {
        all.push(References::of(alloc, documents, document)?)?;
    }
    Ok(all)
}

// The first of some documents that includes the one of this name.
#[tactic(auto, using(crate::proofs::Searching::first_none, crate::proofs::Searching::none_more, crate::proofs::Searching::found_at))]
fn includer_among(all: &[References], name: &str) -> Option<u32>
    requires { length all.now < 2 ^ 32 }
    ensures { result ≡ includer_among all.now name.now (length all.now) }
{
    for other in 0..all.len() as u32 {
        if all[other as usize].includes(name) {
            return Some(other);
        }
    }
    None
}

/// The first document that includes each one.
pub(crate) fn includers_of(
    alloc: Global,
    documents: &Documents,
) -> Result<Vec<Option<u32>>, AllocError>
    requires { length documents.now < 2 ^ 32 }
    ensures { IfOk result (λ includers. AreIncluders documents.now includers.items) }
{
    let all = all_references(alloc, documents)?;
    let mut includers = Vec::new(alloc);
    for document in 0..documents.count() {
        includers.push(includer_among(all.as_slice(), documents.name(document)))?;
    }
    Ok(includers)
}
