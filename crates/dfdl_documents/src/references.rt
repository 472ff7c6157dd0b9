// The references of a document.
ghost use Rattle.std.specs.Prelude.{◌≡◌, ◌++◌, [], IfOk, OnOk, map, option_map};
ghost use Rattle.std.specs.List.{cons_option};
ghost use Rattle.dfdl_documents.specs.Locations.{resolved, folder_of};
ghost use Rattle.dfdl_documents.specs.References.{reference_at, references_of};
ghost use Rattle.dfdl_documents.specs.Shown.{document_of, reference_shown, texts};

use crate::documents::Loaded;
use crate::elements::{is_schema_element, kind_at, location_at};
use crate::locations::{folder_of, write_name};
use crate::reference::DocumentReference;
use dfdl_value::TextValue;
use std::alloc::{AllocError, Global};

// The reference that an element of a document is.
fn reference_at<'t>(
    alloc: Global,
    loaded: &'t Loaded,
    folder: &[&'t str],
    element: u32,
) -> Result<Option<DocumentReference>, AllocError>
    requires { texts folder.now ≡ resolved [] (folder_of loaded.now.name) }
    ensures { IfOk result (λ reference. option_map reference_shown reference
        ≡ reference_at (document_of loaded.now) element) }
{
    let Some(kind) = kind_at(&loaded.tree, element) else {
        return Ok(None);
    };
    let Some(location) = location_at(&loaded.tree, element) else {
        return Ok(None);
    };
    let mut segments = Vec::new(alloc);
    let mut text = String::new(alloc);
    write_name(
        &mut text,
        &mut segments,
        loaded.name.as_str(),
        folder,
        location,
    )?;
    Ok(Some(DocumentReference {
        kind,
        element,
        name: TextValue::from_string(text),
    }))
}

// Adds a reference, if there is one.
fn add(
    references: &mut Vec<DocumentReference>,
    reference: Option<DocumentReference>,
) -> Result<(), AllocError>
    ensures { OnOk result (map reference_shown references.new.items
        ≡ map reference_shown references.old.items ++ cons_option (option_map reference_shown reference) []) }
{
    if let Some(reference) = reference {
        references.push(reference)?;
    }
    Ok(())
}

/// The references of a document, in their order.
#[tactic(auto, using(crate::proofs::Named::one_referred))]
pub(crate) fn references_of(
    alloc: Global,
    loaded: &Loaded,
) -> Result<Vec<DocumentReference>, AllocError>
    ensures { IfOk result (λ references. map reference_shown references.items
        ≡ references_of (document_of loaded.now)) }
{
    let mut references = Vec::new(alloc);
    if !is_schema_element(&loaded.tree, 0, "schema") {
        return Ok(references);
    }
    let folder = folder_of(alloc, loaded.name.as_str())?;
    for element in loaded.tree.children(0) {
        let reference = reference_at(alloc, loaded, &folder, *element)?;
        add(&mut references, reference)?;
    }
    Ok(references)
}
