// All elements of all documents, in the order of their numbers.
ghost use Rattle.std.specs.Prelude.{◌≡◌, ◌<◌, ◌++◌, length, IfOk, OnOk};
ghost use Rattle.dfdl_components.specs.Sites.{nodes_of};
ghost use Rattle.dfdl_chains.specs.Everywhere as everywhere;

use dfdl_components::{Schema, Site};
use std::alloc::{AllocError, Global};

// Adds the elements of a document.
fn push_sites(sites: &mut Vec<Site>, schema: &Schema, document: u32) -> Result<(), AllocError>
    requires { document < length schema.now }
    ensures { OnOk result (sites.new.items ≡ sites.old.items
        ++ everywhere.sites_in document (length (nodes_of schema.now document))) }
{
    for element in 0..schema.tree(document).count() {
        sites.push(Site { document, element })?;
    }
    Ok(())
}

/// The elements of all documents, in the order of their numbers.
#[tactic(auto, using(crate::proofs::Numbering::one_document_more), unfolding(crate::specs::Everywhere::all_sites))]
pub fn all_sites(alloc: Global, schema: &Schema) -> Result<Vec<Site>, AllocError>
    ensures { IfOk result (λ sites. sites.items ≡ everywhere.all_sites schema.now) }
{
    let mut sites = Vec::new(alloc);
    for document in 0..schema.count() {
        push_sites(&mut sites, schema, document)?;
    }
    Ok(sites)
}
