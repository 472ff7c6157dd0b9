// The numbers of variables, and the variables that names refer to.
ghost use Rattle.std.specs.Prelude.{◌≡◌, ◌<◌, ◌≤◌, length, IfSome};
ghost use Rattle.dfdl_components.specs.Sites.{IsSite, is_same};
ghost use Rattle.dfdl_chains.specs.Declarations.{component_of};
ghost use Rattle.dfdl_chains.specs.Shown.{AreNumbers};
ghost use Rattle.dfdl_variables.specs.Numbers as spec;
ghost use Rattle.dfdl_variables.specs.Ordered.{AreOrdered, IsDivided, stands_before};
ghost use Rattle.dfdl_variables.specs.Variables.{variables_of};

use crate::variable::Declared;
use dfdl_chains::Numbers;
use dfdl_components::{ComponentKind, Named, Schema, Site};

// One element stands before another.
fn stands_before(first: Site, second: Site) -> bool
    ensures { result ≡ stands_before first second }
{
    first.document < second.document
        || first.document == second.document && first.element < second.element
}

// Two are one element.
fn is_same(first: Site, second: Site) -> bool
    ensures { result ≡ is_same first second }
{
    first.document == second.document && first.element == second.element
}

// How many variables are defined before an element.
fn count_before(variables: &[Declared], site: Site) -> usize
    requires { AreOrdered variables.now }
    ensures divided { IsDivided variables.now site result }
    ensures within { result ≤ length variables.now }
{
    variables.partition_point(|variable| stands_before(variable.site, site))
}

// The number of the variable that an element defines, if it is among these.
fn number_in(variables: &[Declared], site: Site) -> Option<usize>
    requires { AreOrdered variables.now }
    ensures number { result ≡ spec.number_in variables.now site }
    ensures within { IfSome result (λ number. number < length variables.now) }
{
    let at = count_before(variables, site);
    if at >= variables.len() {
        return None;
    }
    if is_same(variables[at].site, site) {
        Some(at)
    } else {
        None
    }
}

// The global component, where that is what is named.
fn component_of(named: Option<Named>) -> Option<Site>
    ensures { result ≡ component_of named }
{
    match named {
        Some(Named::Component(site)) => Some(site),
        _ => None,
    }
}

// The element that defines the variable which a name that is written at an element refers to, if it refers to one.
fn definition_named(schema: &Schema, writer: Site, text: &str) -> Option<Site>
    requires { IsSite schema.now writer }
    ensures { result ≡ spec.definition_named schema.now writer text.now }
{
    component_of(schema.resolve(writer, ComponentKind::Variable, text))
}

// The place of the variable that an element defines among those of a schema, if it defines one.
#[tactic(auto, using(crate::proofs::Ordered::all_ordered))]
fn place_of(schema: &Schema, variables: &[Declared], site: Site) -> Option<usize>
    requires { variables.now ≡ variables_of schema.now }
    ensures number { result ≡ spec.number_in (variables_of schema.now) site }
    ensures within { IfSome result (λ number. number < length variables.now) }
{
    let _ = schema;
    number_in(variables, site)
}

// The number of the variable that an element defines, if it defines one.
fn number_of(schema: &Schema, numbers: &Numbers, variables: &[Declared], site: Site) -> Option<u32>
    requires numbers { AreNumbers schema.now numbers.now }
    requires variables { variables.now ≡ variables_of schema.now }
    ensures number { result ≡ spec.number_in (variables_of schema.now) site }
    ensures within { IfSome result (λ number. number < length variables.now) }
{
    let _ = numbers;
    match place_of(schema, variables, site) {
        Some(place) => Some(place as u32),
        None => None,
    }
}

/// The number of the variable which a name that is written at an element refers to, if it refers to one. Takes no memory.
pub fn variable_named(
    schema: &Schema,
    numbers: &Numbers,
    variables: &[Declared],
    writer: Site,
    text: &str,
) -> Option<u32>
    requires site { IsSite schema.now writer }
    requires numbers { AreNumbers schema.now numbers.now }
    requires variables { variables.now ≡ variables_of schema.now }
    ensures number { result ≡ spec.variable_named schema.now writer text.now }
    ensures within { IfSome result (λ number. number < length variables.now) }
{
    match definition_named(schema, writer, text) {
        Some(site) => number_of(schema, numbers, variables, site),
        None => None,
    }
}
