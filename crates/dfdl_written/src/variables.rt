// The variables that documents define, in the tables and as expressions see them.
ghost use Rattle.std.specs.Prelude.{◌≡◌, ℕ, List, map, IfOk, OnOk, Some, None, bytes_eq, string_bytes, if◌then◌else◌};
ghost use Rattle.std.specs.BTreeMap.{get_by_text};
ghost use Rattle.std.specs.Map.{update};
ghost use Rattle.dfdl_components.specs.Searching.{or_else};
ghost use Rattle.dfdl_written.specs.Variables as spec;

use dfdl_expression_types::Variable;
use dfdl_forms::Simple;
use dfdl_value::Value;
use dfdl_variables::{Declared, Malformed};
use dfdl_vars::VarDef;
use std::alloc::{AllocError, Global};
use std::collections::BTreeMap;

// What a variable starts with, if with something.
fn start_with(start: Result<Option<Value>, Malformed>) -> Option<Value>
    ensures { result ≡ spec.start_with start }
{
    match start {
        Ok(start) => start,
        Err(_) => None,
    }
}

/// The definitions of some variables in the tables.
pub fn definitions(alloc: Global, variables: Vec<Declared>) -> Result<Vec<VarDef>, AllocError>
    ensures { IfOk result (λ made. made.items ≡ map spec.definition_of variables.items) }
{
    let mut made = Vec::new(alloc);
    for variable in variables {
        let Declared {
            name,
            simple,
            is_external,
            start,
            ..
        } = variable;
        made.push(VarDef {
            name,
            kind: simple.unwrap_or(Simple::String),
            start: start_with(start),
            external: is_external,
        })?;
    }
    Ok(made)
}

/// The type of a variable whose definition is sound.
pub(crate) fn sound_type(variable: &Declared) -> Option<Simple>
    ensures { result ≡ spec.sound_type variable.now }
{
    match &variable.start {
        Ok(_) => variable.simple,
        Err(_) => None,
    }
}

// A variable of a number, where it has a type.
fn variable_by(number: u32, simple: Option<Simple>) -> Option<Variable>
    ensures { result ≡ spec.variable_by number simple }
{
    match simple {
        Some(simple) => Some(Variable { number, simple }),
        None => None,
    }
}

// One more variable, in place of what has its name.
fn add(
    named: &mut BTreeMap<String, Variable>,
    name: String,
    variable: Variable,
) -> Result<(), AllocError>
    ensures { OnOk result ((q : List ℕ) → get_by_text named.new q
        ≡ update bytes_eq (get_by_text named.old) (string_bytes name) (Some variable) q) }
{
    named.insert(name, variable)?;
    Ok(())
}

// One more variable, unless one has its name.
fn put(
    alloc: Global,
    named: &mut BTreeMap<String, Variable>,
    name: &str,
    variable: Variable,
) -> Result<(), AllocError>
    ensures { OnOk result ((q : List ℕ) → get_by_text named.new q
        ≡ or_else (get_by_text named.old q) (if bytes_eq name.now q then Some variable else None)) }
{
    if named.contains_key(name) {
        return Ok(());
    }
    add(named, String::from_str(alloc, name)?, variable)?;
    Ok(())
}

// The same, where there is a variable.
#[tactic(auto, using(crate::proofs::Mapped::put_none))]
fn put_if(
    alloc: Global,
    named: &mut BTreeMap<String, Variable>,
    name: &str,
    variable: Option<Variable>,
) -> Result<(), AllocError>
    ensures { OnOk result ((q : List ℕ) → get_by_text named.new q
        ≡ or_else (get_by_text named.old q) (if bytes_eq name.now q then variable else None)) }
{
    let Some(variable) = variable else {
        return Ok(());
    };
    put(alloc, named, name, variable)
}

// The number of a variable. There is no memory for 2^32 of them.
fn number_of(place: usize) -> Result<u32, AllocError>
    ensures { IfOk result (λ number. number ≡ place) }
{
    match u32::try_from(place) {
        Ok(number) => Ok(number),
        Err(_) => Err(AllocError),
    }
}

/// The variables whose definitions are sound by their local names; of several of one name it is the first.
pub fn variables_by_name(
    alloc: Global,
    variables: &[Declared],
) -> Result<BTreeMap<String, Variable>, AllocError>
    ensures { IfOk result (spec.HasVariables variables.now) }
{
    let mut named = BTreeMap::new(alloc);
    for at in 0..variables.len() {
        let number = number_of(at)?;
        let variable = &variables[at];
        put_if(
            alloc,
            &mut named,
            variable.name.as_str(),
            variable_by(number, sound_type(variable)),
        )?;
    }
    Ok(named)
}
