// The names of the documents that a document names.
ghost use Rattle.std.specs.Prelude.{◌≡◌, [], IfOk};
ghost use Rattle.std.specs.List.{cons_option};
ghost use Rattle.dfdl_documents.specs.Locations.{resolved, folder_of};
ghost use Rattle.dfdl_documents.specs.References.{reference_at, names_in, names_of};
ghost use Rattle.dfdl_documents.specs.Names.{with_names};
ghost use Rattle.dfdl_documents.specs.Shown.{document_of, texts};

use crate::documents::Loaded;
use crate::elements::{is_schema_element, kind_at, location_at};
use crate::locations::{folder_of, write_name};
use crate::names::Names;
use std::alloc::{AllocError, Global};

// The names with the one that an element of a document names, if it names one.
fn with_name_at<'t>(
    names: Names,
    loaded: &'t Loaded,
    folder: &[&'t str],
    element: u32,
    segments: &mut Vec<&'t str>,
    text: &mut String,
) -> Result<Names, AllocError>
    requires { texts folder.now ≡ resolved [] (folder_of loaded.now.name) }
    ensures { IfOk result (λ more. more
        ≡ with_names names (names_in (cons_option (reference_at (document_of loaded.now) element) []))) }
{
    if kind_at(&loaded.tree, element).is_none() {
        return Ok(names);
    }
    let Some(location) = location_at(&loaded.tree, element) else {
        return Ok(names);
    };
    write_name(text, segments, loaded.name.as_str(), folder, location)?;
    names.with(text.as_str())
}

#[tactic(auto, using(crate::proofs::Named::one_named))]
/// The names with those that a document names, one after the other.
pub(crate) fn with_names_of(
    alloc: Global,
    names: Names,
    loaded: &Loaded,
) -> Result<Names, AllocError>
    ensures { IfOk result (λ more. more ≡ with_names names (names_of (document_of loaded.now))) }
{
    if !is_schema_element(&loaded.tree, 0, "schema") {
        return Ok(names);
    }
    let folder = folder_of(alloc, loaded.name.as_str())?;
    let mut segments = Vec::new(alloc);
    let mut text = String::new(alloc);
    let mut names = names;
    for element in loaded.tree.children(0) {
        names = with_name_at(names, loaded, &folder, *element, &mut segments, &mut text)?;
    }
    Ok(names)
}
