// What each element of a schema consists of, by the numbers of elements.
ghost use Rattle.std.specs.Prelude.{◌≡◌, ◌<◌, ◌+◌, ◌++◌, [], length, map, IfOk, IfErr, OnOk, option_copied};
ghost use Rattle.std.specs.List.{flat_map};
ghost use Rattle.dfdl_order.specs.declared.fault.OrderFault.TheVariants.{OutOfMemory};
ghost use Rattle.dfdl_markup.specs.Trees.{node_at};
ghost use Rattle.dfdl_components.specs.Sites.{IsSite, nodes_of, role_of};
ghost use Rattle.dfdl_components.specs.Recursion.{all_uses, if_element, number_inside, numbers_referred, parts_of, uses_in, component_numbers};
ghost use Rattle.dfdl_components.specs.Recursion.{count_of, number_of, start_of};
ghost use Rattle.dfdl_components.specs.Counting.{AreNumbers};
ghost use Rattle.dfdl_components.specs.Shown.{referring_shown};

use crate::named::Named;
use crate::referring::{Referring, naming_properties, referring_attributes};
use crate::schema::Schema;
use crate::site::Site;
use dfdl_order::{OrderFault, Uses};
use std::alloc::{AllocError, Global};

// The number of the first element of each document, and how many elements there are.
#[derive(Drop)]
pub(crate) struct Numbers {
    pub(crate) starts: Vec<u32>,
    pub(crate) count: u32,
}

// The numbers of the elements of a schema.
pub(crate) fn numbers_of(alloc: Global, schema: &Schema) -> Result<Numbers, OrderFault>
    ensures numbers { IfOk result (AreNumbers schema.now) }
    ensures only_memory { IfErr result (λ e. e ≡ OutOfMemory) }
{
    let mut starts = Vec::new(alloc);
    let mut count: u32 = 0;
    for document in 0..schema.count() {
        starts.push(count)?;
        let Some(sum) = count.checked_add(schema.tree(document).count()) else {
            return Err(OrderFault::OutOfMemory);
        };
        count = sum;
    }
    Ok(Numbers { starts, count })
}

// Adds the number of an element, if there is such an element.
#[tactic(auto, using(crate::proofs::Consisting::nothing_past))]
fn add(
    numbers: &Numbers,
    schema: &Schema,
    site: Site,
    parts: &mut Vec<u32>,
) -> Result<(), AllocError>
    requires numbers { AreNumbers schema.now numbers.now }
    ensures { OnOk result (parts.new.items ≡ parts.old.items ++ if_element schema.now (number_of schema.now site)) }
{
    let _ = schema;
    if site.document as usize >= numbers.starts.len() {
        return Ok(());
    }
    let number = u64::from(numbers.starts[site.document as usize]) + u64::from(site.element);
    if number < u64::from(numbers.count) {
        parts.push(number as u32)?;
    }
    Ok(())
}

// Adds the elements that stand in one.
fn add_inside(
    numbers: &Numbers,
    schema: &Schema,
    site: Site,
    parts: &mut Vec<u32>,
) -> Result<(), AllocError>
    requires numbers { AreNumbers schema.now numbers.now }
    requires site { IsSite schema.now site }
    ensures { OnOk result (parts.new.items ≡ parts.old.items
        ++ flat_map (number_inside schema.now site) (node_at (nodes_of schema.now site.document) site.element).children) }
{
    let document = site.document;
    for child in schema.tree(document).children(site.element) {
        let element = *child;
        add(numbers, schema, Site { document, element }, parts)?;
    }
    Ok(())
}

// Adds the component that an attribute of an element refers to.
fn add_referred(
    numbers: &Numbers,
    schema: &Schema,
    site: Site,
    row: &Referring,
    parts: &mut Vec<u32>,
) -> Result<(), AllocError>
    requires numbers { AreNumbers schema.now numbers.now }
    requires site { IsSite schema.now site }
    ensures { OnOk result (parts.new.items ≡ parts.old.items ++ numbers_referred schema.now site (referring_shown row.now)) }
{
    let Some(text) = row.name(schema.tree(site.document), site.element) else {
        return Ok(());
    };
    match schema.resolve(site, row.kind(), text) {
        Some(Named::Component(component)) => add(numbers, schema, component, parts),
        _ => Ok(()),
    }
}

// Adds the components that attributes of an element refer to.
fn add_all_referred(
    numbers: &Numbers,
    schema: &Schema,
    site: Site,
    rows: &[Referring],
    parts: &mut Vec<u32>,
) -> Result<(), AllocError>
    requires numbers { AreNumbers schema.now numbers.now }
    requires site { IsSite schema.now site }
    ensures { OnOk result (parts.new.items ≡ parts.old.items
        ++ flat_map (numbers_referred schema.now site) (map referring_shown rows.now)) }
{
    for row in rows {
        add_referred(numbers, schema, site, row, parts)?;
    }
    Ok(())
}

// What an element consists of, in place of the parts before.
fn find_parts(
    numbers: &Numbers,
    schema: &Schema,
    site: Site,
    parts: &mut Vec<u32>,
) -> Result<(), AllocError>
    requires numbers { AreNumbers schema.now numbers.now }
    requires site { IsSite schema.now site }
    ensures { OnOk result (parts.new.items ≡ parts_of schema.now site) }
{
    parts.clear();
    let role = schema.role(site);
    add_inside(numbers, schema, site, parts)?;
    add_all_referred(numbers, schema, site, referring_attributes(role), parts)?;
    add_all_referred(numbers, schema, site, naming_properties(role), parts)?;
    Ok(())
}

// Adds what each element of a document consists of.
fn add_document(
    uses: &mut Uses,
    numbers: &Numbers,
    schema: &Schema,
    document: u32,
    parts: &mut Vec<u32>,
) -> Result<(), OrderFault>
    requires numbers { AreNumbers schema.now numbers.now }
    requires within { document < length schema.now }
    ensures added { OnOk result (uses.new ≡ uses.old ++ uses_in schema.now document (length (nodes_of schema.now document))) }
    ensures only_memory { IfErr result (λ e. e ≡ OutOfMemory) }
{
    for element in 0..schema.tree(document).count() {
        find_parts(numbers, schema, Site { document, element }, parts)?;
        uses.push(parts.as_slice())?;
    }
    Ok(())
}

// What each element of a schema consists of.
#[tactic(auto, using(crate::proofs::Consisting::before_more), unfolding(crate::specs::Recursion::all_uses))]
pub(crate) fn uses_of(alloc: Global, numbers: &Numbers, schema: &Schema) -> Result<Uses, OrderFault>
    requires { AreNumbers schema.now numbers.now }
    ensures uses { IfOk result (λ uses. uses ≡ all_uses schema.now) }
    ensures only_memory { IfErr result (λ e. e ≡ OutOfMemory) }
{
    let mut uses = Uses::new(alloc);
    let mut parts = Vec::new(alloc);
    for document in 0..schema.count() {
        add_document(&mut uses, numbers, schema, document, &mut parts)?;
    }
    Ok(uses)
}
