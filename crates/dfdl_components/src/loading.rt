// The loading of a schema.
ghost use Rattle.std.specs.Prelude.{◌≡◌, ◌<◌, ◌^◌, length, IfOk, IfErr};
ghost use Rattle.dfdl_documents.specs.Faults.{request};
ghost use Rattle.dfdl_documents.specs.Loading.{IsCounted};
ghost use Rattle.dfdl_components.specs.Rules.{loading_rules, AllKeep, IsFirst};
ghost use Rattle.dfdl_components.specs.Faults.{SchemaEndsBy, IsLoadedSchema, IsCheckFault, UnlessFiles};
ghost use Rattle.dfdl_components.specs.Sites.{IsSite};

use crate::checking::Breach;
use crate::fault::SchemaFault;
use crate::includers::includers_of;
use crate::recursion::recursion_of;
use crate::schema::Schema;
use dfdl_documents::{Documents, DocumentsFault, load_documents};
use dfdl_edge::Files;
use dfdl_value::TextValue;
use std::alloc::Global;

// The fault of a schema that breaks a rule.
fn refused(alloc: Global, schema: &Schema, breach: Breach) -> SchemaFault
    requires { IsFirst (loading_rules schema.now) schema.now breach.site breach.cause }
    ensures { IsCheckFault schema.now result }
{
    let Breach { cause, site } = breach;
    match TextValue::from_str(alloc, schema.name(site.document)) {
        Ok(name) => SchemaFault::Schema {
            cause,
            place: schema.place(site),
            name,
        },
        Err(_) => SchemaFault::OutOfMemory,
    }
}

// The schema of documents that are loaded, where they keep all rules.
fn checked(alloc: Global, documents: Documents) -> Result<Schema, SchemaFault>
    requires { length documents < 2 ^ 32 }
    ensures same { IfOk result (λ schema. schema ≡ documents) }
    ensures keeps { IfOk result (λ schema. AllKeep (loading_rules schema) schema) }
    ensures fault { IfErr result (IsCheckFault documents) }
{
    let includers = includers_of(alloc, &documents)?;
    let schema = Schema::of(alloc, documents, includers.as_slice())?;
    let Ok(recursion) = recursion_of(alloc, &schema) else {
        return Err(SchemaFault::OutOfMemory);
    };
    match schema.breach(&recursion) {
        None => Ok(schema),
        Some(breach) => Err(refused(alloc, &schema, breach)),
    }
}

/// The schema of a document and of all that it names, where they keep all rules. A file may have
/// `schema` bytes, and there may be `schemas` documents.
pub fn load<F: Files>(
    alloc: Global,
    files: &mut F,
    name: &str,
    schema: u32,
    schemas: u32,
) -> Result<Schema, SchemaFault>
    ensures loaded { IfOk result (IsLoadedSchema (F.seen files.old) (F.seen files.new) (request schema schemas name.now)) }
    ensures fault { IfErr result (SchemaEndsBy (F.seen files.old) (F.seen files.new) (request schema schemas name.now)) }
    ensures still { UnlessFiles result ((F.seen files.new).faults ≡ (F.seen files.old).faults) }
    ensures counted { IsCounted schemas (F.seen files.old).loads (F.seen files.new).loads }
    ensures last_kept { UnlessFiles result ((F.seen files.new).last_failed ≡ (F.seen files.old).last_failed) }
    ensures content_kept { (F.seen files.new).content ≡ (F.seen files.old).content }
    ensures missing_kept { (F.seen files.new).is_missing ≡ (F.seen files.old).is_missing }
{
    let documents = match load_documents(alloc, files, name, schema as usize, schemas) {
        Ok(documents) => documents,
        Err(DocumentsFault::Files { name }) => return Err(SchemaFault::Files { name }),
        Err(DocumentsFault::Document { cause, place, name }) => {
            return Err(SchemaFault::Doc { cause, place, name });
        }
        Err(DocumentsFault::Limit { cause, quantity }) => {
            return Err(SchemaFault::Limit { cause, quantity });
        }
        Err(DocumentsFault::OutOfMemory) => return Err(SchemaFault::OutOfMemory),
    };
    checked(alloc, documents)
}
