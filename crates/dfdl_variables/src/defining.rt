// The variables that documents define.
ghost use Rattle.std.specs.Prelude.{◌≡◌, ◌<◌, ◌++◌, length, All, IfOk, OnOk};
ghost use Rattle.std.specs.List.{flat_map};
ghost use Rattle.dfdl_components.specs.Sites.{IsSite, nodes_of};
ghost use Rattle.dfdl_chains.specs.Everywhere.{sites_in};
ghost use Rattle.dfdl_chains.specs.Shown.{AreNumbers};
ghost use Rattle.dfdl_variables.specs.Variables as spec;

use crate::defaults::start_by;
use crate::reading::{default_text, is_external, name_at};
use crate::types::type_at;
use crate::variable::Declared;
use dfdl_chains::Numbers;
use dfdl_components::{Schema, Site};
use dfdl_constructs::Role;
use dfdl_value::TextValue;
use std::alloc::{AllocError, Global};

// The element defines a variable.
fn is_definition(role: Role) -> bool
    ensures { result ≡ spec.is_definition role }
{
    match role {
        Role::DefineVariable => true,
        _ => false,
    }
}

// The variable that an element defines.
#[tactic(auto, unfolding(crate::specs::Variables::declared_at))]
fn declared_at(
    alloc: Global,
    schema: &Schema,
    numbers: &Numbers,
    site: Site,
) -> Result<Declared, AllocError>
    requires site { IsSite schema.now site }
    requires numbers { AreNumbers schema.now numbers.now }
    ensures declared { IfOk result (λ declared. declared ≡ spec.declared_at schema.now site) }
    ensures typed { IfOk result spec.IsTyped }
{
    let simple = type_at(alloc, schema, numbers, site)?;
    let name = TextValue::from_str(alloc, name_at(schema, site))?;
    let start = start_by(alloc, simple, default_text(schema, site))?;
    Ok(Declared {
        name,
        site,
        simple,
        is_external: is_external(schema, site),
        start,
    })
}

// Adds the variable that an element defines, if it does.
fn push_declared(
    alloc: Global,
    schema: &Schema,
    numbers: &Numbers,
    site: Site,
    variables: &mut Vec<Declared>,
) -> Result<(), AllocError>
    requires site { IsSite schema.now site }
    requires numbers { AreNumbers schema.now numbers.now }
    requires typed { All spec.IsTyped variables.old.items }
    ensures items { OnOk result (variables.new.items ≡ variables.old.items ++ spec.declared_if schema.now site) }
    ensures typed { OnOk result (All spec.IsTyped variables.new.items) }
{
    if is_definition(schema.role(site)) {
        variables.push(declared_at(alloc, schema, numbers, site)?)?;
    }
    Ok(())
}

// Adds the variables that a document defines.
#[tactic(auto, using(crate::proofs::Gathering::one_element_more))]
fn push_document(
    alloc: Global,
    schema: &Schema,
    numbers: &Numbers,
    document: u32,
    variables: &mut Vec<Declared>,
) -> Result<(), AllocError>
    requires document { document < length schema.now }
    requires numbers { AreNumbers schema.now numbers.now }
    requires typed { All spec.IsTyped variables.old.items }
    ensures items { OnOk result (variables.new.items ≡ variables.old.items
        ++ flat_map (spec.declared_if schema.now) (sites_in document (length (nodes_of schema.now document)))) }
    ensures typed { OnOk result (All spec.IsTyped variables.new.items) }
{
    for element in 0..schema.tree(document).count() {
        push_declared(
            alloc,
            schema,
            numbers,
            Site { document, element },
            variables,
        )?;
    }
    Ok(())
}

/// The variables that the documents of a schema define, in the order of the elements that define them. A variable's number is its
/// place in the list.
#[tactic(auto, using(crate::proofs::Gathering::one_document_more), unfolding(crate::specs::Variables::variables_of, dfdl_chains::specs::Everywhere::all_sites))]
pub fn variables_of(
    alloc: Global,
    schema: &Schema,
    numbers: &Numbers,
) -> Result<Vec<Declared>, AllocError>
    requires { AreNumbers schema.now numbers.now }
    ensures items { IfOk result (λ variables. variables.items ≡ spec.variables_of schema.now) }
    ensures typed { IfOk result (λ variables. All spec.IsTyped variables.items) }
{
    let mut variables = Vec::new(alloc);
    for document in 0..schema.count() {
        push_document(alloc, schema, numbers, document, &mut variables)?;
    }
    Ok(variables)
}
