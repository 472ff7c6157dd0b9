// The loading of the documents of a schema.
ghost use Rattle.std.specs.Prelude.{◌≡◌, ℕ, IfOk, IfErr, length};
ghost use Rattle.dfdl_documents.specs.Loading.{AreLoaded, IsCounted, after_loads};
ghost use Rattle.dfdl_documents.specs.Faults.{EndsBy, UnlessFiles, request};
ghost use Rattle.dfdl_documents.specs.Shown.{LoadEndsBy, LoadGives, document_fault_of, load_fault_of, load_of};

use crate::documents::{Documents, Loaded};
use crate::fault::DocumentsFault;
use crate::names::Names;
use crate::naming::with_names_of;
use dfdl_doc_tree::DocFault;
use dfdl_edge::{Files, LoadFault};
use dfdl_report::{LimitCause, Place};
use dfdl_value::TextValue;
use dfdl_xml_tree::Tree;
use std::alloc::Global;

// Why the file of this name was not loaded.
fn load_fault(name: TextValue, most: usize, fault: LoadFault) -> DocumentsFault
    ensures { result ≡ load_fault_of name most fault }
{
    match fault {
        LoadFault::Failed => DocumentsFault::Files { name },
        LoadFault::TooLarge { .. } => DocumentsFault::Limit {
            cause: LimitCause::Schema,
            quantity: most as u64,
        },
        LoadFault::OutOfMemory => DocumentsFault::OutOfMemory,
    }
}

// Why the document of this name and number has no tree.
fn document_fault(name: TextValue, number: u32, fault: DocFault) -> DocumentsFault
    ensures { result ≡ document_fault_of name number fault }
{
    match fault {
        DocFault::Bad { cause, at } => DocumentsFault::Document {
            cause,
            place: Place {
                document: number,
                at,
            },
            name,
        },
        DocFault::OutOfMemory => DocumentsFault::OutOfMemory,
    }
}

// The document of this name and number.
fn load_document<F: Files>(
    alloc: Global,
    files: &mut F,
    name: &str,
    most: usize,
    number: u32,
) -> Result<Loaded, DocumentsFault>
    ensures document { IfOk result (LoadGives (F.seen files.old) (F.seen files.new) (load_of name.now most number)) }
    ensures fault { IfErr result (LoadEndsBy (F.seen files.old) (F.seen files.new) (load_of name.now most number)) }
    ensures still { UnlessFiles result ((F.seen files.new).faults ≡ (F.seen files.old).faults) }
    ensures last_kept { UnlessFiles result ((F.seen files.new).last_failed ≡ (F.seen files.old).last_failed) }
    ensures content_kept { (F.seen files.new).content ≡ (F.seen files.old).content }
    ensures missing_kept { (F.seen files.new).is_missing ≡ (F.seen files.old).is_missing }
    ensures counted { IsCounted 1 (F.seen files.old).loads (F.seen files.new).loads }
{
    let kept = TextValue::from_str(alloc, name)?;
    let bytes = match files.load(alloc, name, most) {
        Ok(bytes) => bytes,
        Err(fault) => return Err(load_fault(kept, most, fault)),
    };
    match dfdl_doc_tree::read(alloc, &bytes) {
        Ok(tree) => Ok(Loaded { name: kept, tree }),
        Err(fault) => Err(document_fault(kept, number, fault)),
    }
}

/// All documents of a schema, from the name of the first one. A file may have `most` bytes, and
/// there may be `schemas` documents; either limit is told with that number.
pub fn load_documents<F: Files>(
    alloc: Global,
    files: &mut F,
    name: &str,
    most: usize,
    schemas: u32,
) -> Result<Documents, DocumentsFault>
    ensures loaded { IfOk result (AreLoaded (F.seen files.old) most schemas name.now) }
    ensures loads { IfOk result (λ documents.
        F.seen files.new ≡ after_loads (length documents) (F.seen files.old)) }
    ensures fault { IfErr result (EndsBy (F.seen files.old) (F.seen files.new) (request most schemas name.now)) }
    ensures still { UnlessFiles result ((F.seen files.new).faults ≡ (F.seen files.old).faults) }
    ensures last_kept { UnlessFiles result ((F.seen files.new).last_failed ≡ (F.seen files.old).last_failed) }
    ensures content_kept { (F.seen files.new).content ≡ (F.seen files.old).content }
    ensures missing_kept { (F.seen files.new).is_missing ≡ (F.seen files.old).is_missing }
    ensures counted { IsCounted schemas (F.seen files.old).loads (F.seen files.new).loads }
{
    let mut names = Names::new(alloc).with(name)?;
    let mut documents = Documents::new(alloc);
    for number in 0..schemas {
        let Some(next) = names.get(number as usize) else {
            return Ok(documents);
        };
        let loaded = match load_document(alloc, files, next, most, number) {
            Ok(loaded) => loaded,
            Err(fault) => return Err(fault),
        };
        names = with_names_of(alloc, names, &loaded)?;
        documents.push(loaded)?;
    }
    if names.get(schemas as usize).is_some() {
        return Err(DocumentsFault::Limit {
            cause: LimitCause::Schemas,
            quantity: u64::from(schemas),
        });
    }
    Ok(documents)
}
