// By which keys the branches of choices are taken.
ghost use Rattle.std.specs.Prelude.{◌≡◌, ◌++◌, ℕ, List, All, map, option_map, IfOk, OnOk, IfSome, Some};
ghost use Rattle.dfdl_components.specs.Sites.{IsSite};
ghost use Rattle.dfdl_chains.specs.Shown.{AreNumbers};
ghost use Rattle.dfdl_compile.specs.Components as spec;
ghost use Rattle.dfdl_compile.specs.Keying as keying;
ghost use Rattle.dfdl_compile.specs.Statements as statements;

use crate::measuring::question_if;
use crate::parts::parts_by;
use crate::stating::key_number;
use dfdl_breaches::Judgement;
use dfdl_chains::Numbers;
use dfdl_components::{Schema, Site};
use dfdl_rows::{BranchKey, BranchKeys, Component, Dispatch};
use dfdl_value::TextValue;
use std::alloc::{AllocError, Global};

// Adds the keys of the branch at a place.
fn push_keys(
    alloc: Global,
    branch: u32,
    keys: &[TextValue],
    made: &mut Vec<BranchKey>,
) -> Result<(), AllocError>
    ensures { OnOk result (made.new.items ≡ made.old.items ++ map (spec.branch_key branch) keys.now) }
{
    for key in keys {
        made.push(BranchKey {
            branch,
            text: key.copy(alloc)?,
        })?;
    }
    Ok(())
}

// A place among branches. There is no memory for 2^32 branches.
fn place(at: usize) -> Result<u32, AllocError>
    ensures { IfOk result (λ place. place ≡ at) }
{
    match u32::try_from(at) {
        Ok(place) => Ok(place),
        Err(_) => Err(AllocError),
    }
}

// Adds the keys that are told of the branch of this number, which stands at a place.
fn push_told(
    alloc: Global,
    place: u32,
    judgements: &[Judgement],
    number: u32,
    made: &mut Vec<BranchKey>,
) -> Result<(), AllocError>
    ensures { OnOk result (made.new.items ≡ made.old.items ++ map (spec.branch_key place) (keying.keys_told judgements.now number)) }
{
    match judgements.get(number as usize) {
        Some(judgement) => push_keys(alloc, place, judgement.keys.as_slice(), made),
        None => Ok(()),
    }
}

// The keys of branches, of each of which something is told at its number.
fn branch_keys(
    alloc: Global,
    schema: &Schema,
    numbers: &Numbers,
    judgements: &[Judgement],
    branches: &[Site],
) -> Result<BranchKeys, AllocError>
    requires branches { All (IsSite schema.now) branches.now }
    requires numbers { AreNumbers schema.now numbers.now }
    ensures { IfOk result (λ keys. keys ≡ spec.branch_keys (keying.keys_at_number schema.now judgements.now) 0 branches.now) }
{
    let mut made = Vec::new(alloc);
    for at in 0..branches.len() {
        let number = numbers.number(schema, branches[at]);
        push_told(alloc, place(at)?, judgements, number, &mut made)?;
    }
    Ok(BranchKeys::from_vec(made))
}

// What takes a branch by a key, which the question of this number tells, of an element that hides the group of this sequence or choice,
// or none.
fn dispatch_by(
    alloc: Global,
    schema: &Schema,
    numbers: &Numbers,
    judgements: &[Judgement],
    question: u32,
    site: Site,
    hidden: Option<Site>,
) -> Result<Dispatch, AllocError>
    requires site { IsSite schema.now site }
    requires hidden { IfSome hidden (IsSite schema.now) }
    requires numbers { AreNumbers schema.now numbers.now }
    ensures { IfOk result (λ dispatch. dispatch
        ≡ spec.dispatch_with (spec.branch_keys (keying.keys_at_number schema.now judgements.now) 0 (spec.parts_by schema.now site hidden)) question) }
{
    let mut parts = Vec::new(alloc);
    parts_by(schema, numbers, site, hidden, &mut parts)?;
    let keys = branch_keys(alloc, schema, numbers, judgements, parts.as_slice())?;
    Ok(Dispatch { question, keys })
}

/// What takes a branch of an element of which this is told by a key, if that is a choice by a key, where its first statement has this number.
pub(crate) fn dispatch_of(
    alloc: Global,
    schema: &Schema,
    numbers: &Numbers,
    judgements: &[Judgement],
    first: u32,
    site: Site,
    judgement: &Judgement,
) -> Result<Option<Dispatch>, AllocError>
    requires site { IsSite schema.now site }
    requires hidden { IfSome judgement.now.hidden (IsSite schema.now) }
    requires numbers { AreNumbers schema.now numbers.now }
    ensures { IfOk result (λ dispatch. dispatch ≡ keying.dispatch_told schema.now judgements.now first site judgement.now) }
{
    let number = key_number(first, judgement)?;
    match question_if(number, &judgement.key) {
        Some(question) => Ok(Some(dispatch_by(
            alloc,
            schema,
            numbers,
            judgements,
            question,
            site,
            judgement.hidden,
        )?)),
        None => Ok(None),
    }
}

/// A component, where it is a choice with what takes its branch by a key, if something does.
pub(crate) fn keyed_by(dispatch: Option<Dispatch>, component: Component) -> Component
    ensures { result ≡ spec.keyed_by dispatch component }
{
    match dispatch {
        Some(dispatch) => with_dispatch(dispatch, component),
        None => component,
    }
}

// The same, where something does.
fn with_dispatch(dispatch: Dispatch, component: Component) -> Component
    ensures { result ≡ spec.keyed_by (Some dispatch) component }
{
    match component {
        Component::Choice {
            framing,
            initiated,
            ..
        } => Component::Choice {
            framing,
            initiated,
            dispatch: Some(dispatch),
        },
        other => other,
    }
}
