// Changes of instances, which are kept, and the instances of definitions.
ghost use Rattle.std.specs.Prelude.{◌≡◌, ℕ, ◌<◌, ◌≤◌, ◌*◌, ◌++◌, ◌∷◌, [], false, Some, IfOk, OnOk, length, vec_capacity};
ghost use Rattle.dfdl_vars.specs.Instances.{at_place, has, is_set};
ghost use Rattle.dfdl_vars.specs.Kept.{IsSound, with_setting, with_read, all_defined, all_given, start_as};
ghost use Rattle.dfdl_vars.specs.VarsShown.{kept_as};

use crate::instances::{Change, Instance};
use crate::journal::{add_change, add_instance, give_setting, is_read_at, set_read};
use crate::values::{VarDef, VarValues};
use dfdl_value::Value;
use std::alloc::{AllocError, Global};

pub(crate) fn note_setting(
    instances: &mut Vec<Instance>,
    changes: &mut Vec<Change>,
    place: usize,
    value: Value,
)
    requires place { place < length instances.old.items }
    requires free { has is_set instances.old.items place ≡ false }
    requires sound { IsSound instances.old.items changes.old.items }
    requires room { 2 * length instances.old.items ≤ vec_capacity changes.old }
    ensures kept { (globals deep : ℕ) → kept_as instances.new.items changes.new.items globals deep
        ≡ with_setting (kept_as instances.old.items changes.old.items globals deep) place value }
    ensures sound { IsSound instances.new.items changes.new.items }
    ensures length { length instances.new.items ≡ length instances.old.items }
    ensures room { vec_capacity instances.old ≤ vec_capacity instances.new }
    ensures room_too { vec_capacity changes.old ≤ vec_capacity changes.new }
{
    give_setting(instances, place, Some(value));
    add_change(changes, Change::Set(place));
}

pub(crate) fn note_read(instances: &mut Vec<Instance>, changes: &mut Vec<Change>, place: usize)
    requires place { place < length instances.old.items }
    requires sound { IsSound instances.old.items changes.old.items }
    requires room { 2 * length instances.old.items ≤ vec_capacity changes.old }
    ensures kept { (globals deep : ℕ) → kept_as instances.new.items changes.new.items globals deep
        ≡ with_read (kept_as instances.old.items changes.old.items globals deep) place }
    ensures sound { IsSound instances.new.items changes.new.items }
    ensures length { length instances.new.items ≡ length instances.old.items }
    ensures room { vec_capacity instances.old ≤ vec_capacity instances.new }
    ensures room_too { vec_capacity changes.old ≤ vec_capacity changes.new }
{
    if is_read_at(instances.as_slice(), place) {
        return;
    }
    set_read(instances, place, true);
    add_change(changes, Change::Read(place));
}

fn copied(alloc: Global, value: &Option<Value>) -> Result<Option<Value>, AllocError>
    ensures { IfOk result (λ v. v ≡ value.now) }
{
    match value {
        None => Ok(None),
        Some(value) => Ok(Some(value.copy(alloc)?)),
    }
}

// The instances of definitions.
pub(crate) fn define(
    alloc: Global,
    instances: &mut Vec<Instance>,
    definitions: &[VarDef],
) -> Result<(), AllocError>
    requires none { instances.old.items ≡ [] }
    requires room { length definitions.now ≤ vec_capacity instances.old }
    ensures items { OnOk result (instances.new.items ≡ all_defined 0 definitions.now) }
    ensures room { vec_capacity instances.old ≤ vec_capacity instances.new }
{
    'defining: for var in 0..definitions.len() {
        let start = copied(alloc, &definitions[var].start)?;
        let instance = Instance {
            var,
            start,
            setting: None,
            was_read: false,
        };
        add_instance(instances, instance);
    }
    Ok(())
}

fn set_start(instances: &mut Vec<Instance>, place: usize, start: Option<Value>)
    requires { place < length instances.old.items }
    ensures items { instances.new.items ≡ at_place (start_as start) place instances.old.items }
    ensures capacity { vec_capacity instances.old ≤ vec_capacity instances.new }
{
    let instance = &mut instances[place];
    instance.start = start;
}

// One value that is given, where there is such a variable.
fn give_one(
    alloc: Global,
    instances: &mut Vec<Instance>,
    var: u32,
    value: &Value,
) -> Result<(), AllocError>
    ensures items { OnOk result (instances.new.items ≡ at_place (start_as (Some value.now)) var instances.old.items) }
    ensures room { vec_capacity instances.old ≤ vec_capacity instances.new }
{
    if var as usize >= instances.len() {
        return Ok(());
    }
    let value = value.copy(alloc)?;
    set_start(instances, var as usize, Some(value));
    Ok(())
}

// The values that are given.
pub(crate) fn give(
    alloc: Global,
    instances: &mut Vec<Instance>,
    given: &VarValues,
) -> Result<(), AllocError>
    ensures items { OnOk result (instances.new.items ≡ all_given given.now instances.old.items) }
    ensures room { vec_capacity instances.old ≤ vec_capacity instances.new }
{
    'giving: for at in 0..given.len() {
        let pair = given.pair(at);
        give_one(alloc, instances, pair.0, &pair.1)?;
    }
    Ok(())
}
