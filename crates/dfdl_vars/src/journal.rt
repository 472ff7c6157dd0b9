// Instances in the order in which they were opened, and the changes in them.
ghost use Rattle.std.specs.Prelude.{◌≡◌, ◌<◌, ◌≤◌, ◌-◌, ◌++◌, ◌∷◌, [], Some, None, true, false, length, take, drop, vec_capacity, option_copied};
ghost use Rattle.std.specs.List.{slice_get};
ghost use Rattle.dfdl_vars.specs.Instances.{at_place, set_to, read_as, has, is_set, is_read, clear, cleared};
ghost use Rattle.dfdl_vars.specs.Kept.{elsewhere, innermost, is_of, start_of, value_in};
ghost use Rattle.dfdl_vars.specs.Marks.{of_first};

use crate::instances::{Change, Instance};
use dfdl_value::Value;

pub(crate) fn is_set_at(instances: &[Instance], place: usize) -> bool
    requires { place < length instances.now }
    ensures { result ≡ has is_set instances.now place }
{
    instances[place].setting.is_some()
}

pub(crate) fn is_read_at(instances: &[Instance], place: usize) -> bool
    requires { place < length instances.now }
    ensures { result ≡ has is_read instances.now place }
{
    instances[place].was_read
}

fn is_of_at(instances: &[Instance], var: usize, place: usize) -> bool
    requires { place < length instances.now }
    ensures { result ≡ has (is_of var) instances.now place }
{
    instances[place].var == var
}

// What an instance begins with, where it is there.
fn start_at(instances: &[Instance], place: usize) -> Option<&Value>
    ensures { option_copied result ≡ start_of (slice_get instances.now place) }
{
    match instances.get(place) {
        Some(instance) => instance.start.as_ref(),
        None => None,
    }
}

// The value of an instance.
pub(crate) fn value_at(instances: &[Instance], place: usize) -> Option<&Value>
    requires { place < length instances.now }
    ensures { option_copied result ≡ value_in instances.now (slice_get instances.now place) }
{
    let instance = &instances[place];
    if let Some(value) = &instance.setting {
        return Some(value);
    }
    if let Some(value) = &instance.start {
        return Some(value);
    }
    start_at(instances, instance.var)
}

// The place of the innermost entered instance of a variable, else of the one of its definition.
pub(crate) fn innermost(instances: &[Instance], globals: usize, var: usize) -> usize
    requires few { globals ≤ length instances.now }
    requires var { var < globals }
    ensures place { result ≡ innermost instances.now globals var (length instances.now - globals) }
    ensures within { result < length instances.now }
{
    'seeking: for place in (globals..instances.len()).rev() {
        if is_of_at(instances, var, place) {
            return place;
        }
    }
    var
}

pub(crate) fn give_setting(instances: &mut Vec<Instance>, place: usize, setting: Option<Value>)
    requires { place < length instances.old.items }
    ensures items { instances.new.items ≡ at_place (set_to setting) place instances.old.items }
    ensures capacity { vec_capacity instances.old ≤ vec_capacity instances.new }
{
    let instance = &mut instances[place];
    instance.setting = setting;
}

pub(crate) fn set_read(instances: &mut Vec<Instance>, place: usize, was_read: bool)
    requires { place < length instances.old.items }
    ensures items { instances.new.items ≡ at_place (read_as was_read) place instances.old.items }
    ensures capacity { vec_capacity instances.old ≤ vec_capacity instances.new }
{
    let instance = &mut instances[place];
    instance.was_read = was_read;
}

fn clear_setting(instances: &mut Vec<Instance>, place: usize)
    ensures items { instances.new.items ≡ at_place (set_to None) place instances.old.items }
    ensures capacity { vec_capacity instances.old ≤ vec_capacity instances.new }
{
    if place < instances.len() {
        give_setting(instances, place, None);
    }
}

fn clear_read(instances: &mut Vec<Instance>, place: usize)
    ensures items { instances.new.items ≡ at_place (read_as false) place instances.old.items }
    ensures capacity { vec_capacity instances.old ≤ vec_capacity instances.new }
{
    if place < instances.len() {
        set_read(instances, place, false);
    }
}

// Takes a change back, where its instance is there.
fn take_back(instances: &mut Vec<Instance>, change: Change)
    ensures items { instances.new.items ≡ clear change instances.old.items }
    ensures capacity { vec_capacity instances.old ≤ vec_capacity instances.new }
{
    match change {
        Change::Set(place) => clear_setting(instances, place),
        Change::Read(place) => clear_read(instances, place),
    }
}

// Takes the last changes back, until so many are left.
pub(crate) fn go_back(instances: &mut Vec<Instance>, changes: &mut Vec<Change>, count: usize)
    ensures instances { instances.new.items ≡ cleared (drop count changes.old.items) instances.old.items }
    ensures changes { changes.new.items ≡ take count changes.old.items }
    ensures room { vec_capacity instances.old ≤ vec_capacity instances.new }
    ensures room_too { vec_capacity changes.old ≤ vec_capacity changes.new }
{
    'back: while changes.len() > count {
        match changes.pop() {
            Some(change) => take_back(instances, change),
            None => break,
        }
    }
}

// Forgets what changed behind the first so many instances, of which there are some if any were there.
pub(crate) fn forget_behind(changes: &mut Vec<Change>, count: usize, were_more: bool)
    requires { were_more ≡ false → of_first count changes.old.items ≡ changes.old.items }
    ensures items { changes.new.items ≡ of_first count changes.old.items }
    ensures capacity { vec_capacity changes.old ≤ vec_capacity changes.new }
{
    if were_more {
        changes.retain(|change| change.place() < count);
    }
}

// Puts a change behind the others, where there is room for it.
pub(crate) fn add_change(changes: &mut Vec<Change>, change: Change)
    requires { length changes.old.items < vec_capacity changes.old }
    ensures items { changes.new.items ≡ changes.old.items ++ change ∷ [] }
    ensures capacity { vec_capacity changes.old ≤ vec_capacity changes.new }
{
    match changes.push(change) {
        Ok(()) => {}
        Err(_) => unreachable!(),
    }
}

// Puts an instance behind the others, where there is room for it.
pub(crate) fn add_instance(instances: &mut Vec<Instance>, instance: Instance)
    requires { length instances.old.items < vec_capacity instances.old }
    ensures items { instances.new.items ≡ instances.old.items ++ instance ∷ [] }
    ensures capacity { vec_capacity instances.old ≤ vec_capacity instances.new }
{
    match instances.push(instance) {
        Ok(()) => {}
        Err(_) => unreachable!(),
    }
}

// Forgets what changed in an instance.
pub(crate) fn forget(changes: &mut Vec<Change>, place: usize)
    ensures items { changes.new.items ≡ elsewhere place changes.old.items }
    ensures capacity { vec_capacity changes.old ≤ vec_capacity changes.new }
{
    changes.retain(|change| change.place() != place);
}
