// Statements with the namespaces of the prefixes in scope where their texts stand.
ghost use Rattle.std.specs.Prelude.{◌≡◌, List, All, IfOk, length};
ghost use Rattle.std.specs.List.{AllZip};
ghost use Rattle.dfdl_documents.specs.Documents.{SchemaDocument};
ghost use Rattle.dfdl_written.specs.Noting as spec;

use crate::noted::Noted;
use crate::prefixes::{prefixes_at, prefixes_of};
use dfdl_components::Schema;
use dfdl_statements::Written;
use std::alloc::{AllocError, Global};
use std::collections::BTreeMap;

/// For each statement the namespaces of the prefixes in scope where its text stands.
pub fn namespaces_of(
    alloc: Global,
    schema: &Schema,
    noted: &[Noted],
) -> Result<Vec<BTreeMap<String, String>>, AllocError>
    requires { All (spec.IsNotedWithin schema.now) noted.now }
    ensures { IfOk result (λ made. AllZip (spec.HasItsNamespaces schema.now) noted.now made.items) }
{
    let prefixes = prefixes_of(alloc, schema)?;
    let mut made = Vec::new(alloc);
    for at in 0..noted.len() {
        made.push(prefixes_at(alloc, schema, &prefixes, noted[at].site)?)?;
    }
    Ok(made)
}

/// The statements as they are written, each with its namespaces.
pub fn written_with<'s>(
    alloc: Global,
    schema: &Schema,
    noted: Vec<Noted>,
    namespaces: &'s [BTreeMap<String, String>],
) -> Result<Vec<Written<'s>>, AllocError>
    requires { AllZip (spec.HasItsNamespaces schema.now) noted.items namespaces.now }
    ensures { IfOk result (λ made. spec.AreAsNoted schema.now noted.items made.items) }
{
    let _ = schema;
    let mut made = Vec::new(alloc);
    let mut at = 0usize;
    for one in noted {
        let Noted { source, place, .. } = one;
        made.push(Written {
            source,
            place,
            prefixes: &namespaces[at],
        })?;
        at += 1;
    }
    Ok(made)
}
