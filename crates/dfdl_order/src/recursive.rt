ghost use Rattle.std.specs.Prelude.{◌≡◌, ℕ, suc, ◌<◌, ◌≤◌, ◌^◌, List, length, All, get_or, IfOk, IsTrue, IsFalse, OnOk, true, false};
ghost use Rattle.dfdl_order.specs.Parts.{uses_of, IsClosed};
ghost use Rattle.dfdl_order.specs.Filling.{IsPart, NoneReady, IsUnplaced};
ghost use Rattle.dfdl_order.specs.Reaching.{AreReached, AreNext, AreListed, Keeps, IsReach, IsRecursive, NeverRises};
ghost use Rattle.dfdl_order.specs.Cycles.{leads, reaches_itself, IsFirstRecursive};

use crate::{Order, Uses};
use std::alloc::{AllocError, Global};

// The first component that reaches itself, where one has no place in the largest order. Levels that fall from a
// component to all its parts and rise nowhere tell that it doesn't reach itself, so that few are searched from.
pub(crate) fn first_recursive(
    alloc: Global,
    uses: &Uses,
    order: &Order,
    start: u32,
    levels: &[u32],
) -> Result<u32, AllocError>
    requires closed { IsClosed uses.now }
    requires part { IsPart uses.now order.now }
    requires full { NoneReady uses.now order.now }
    requires unplaced { IsUnplaced uses.now order.now start }
    ensures { IfOk result (IsFirstRecursive uses.now) }
{
    let last = some_recursive(alloc, uses, order, start)?;
    let told = never_rise(uses, levels);
    for component in 0..last {
        if is_recursive(alloc, uses, levels, told, component)? {
            return Ok(component);
        }
    }
    Ok(last)
}

// A component that reaches itself: a way along parts that have no place comes back to where it was.
fn some_recursive(alloc: Global, uses: &Uses, order: &Order, start: u32) -> Result<u32, AllocError>
    requires closed { IsClosed uses.now }
    requires part { IsPart uses.now order.now }
    requires full { NoneReady uses.now order.now }
    requires unplaced { IsUnplaced uses.now order.now start }
    ensures { IfOk result (IsRecursive uses.now) }
{
    let count = uses.count();
    let mut way = Order::empty(alloc, uses)?;
    let mut component = start;
    while !way.has(component, count) {
        way.put(component, count)?;
        if let Some(part) = order.unplaced_part(uses, component) {
            component = part;
        }
    }
    Ok(component)
}

// A component reaches itself. Levels that are told to rise nowhere may save the search.
fn is_recursive(
    alloc: Global,
    uses: &Uses,
    levels: &[u32],
    told: bool,
    component: u32,
) -> Result<bool, AllocError>
    requires closed { IsClosed uses.now }
    requires within { component < length uses.now }
    requires levels { IsTrue told → NeverRises uses.now levels.now }
    ensures { IfOk result (λ answer. answer ≡ reaches_itself uses.now component) }
{
    if told && fall(uses, levels, component) {
        return Ok(false);
    }
    let reached = reach(alloc, uses, component)?;
    Ok(reached.has(component, uses.count()))
}

// The components that one reaches.
fn reach(alloc: Global, uses: &Uses, from: u32) -> Result<Order, AllocError>
    requires closed { IsClosed uses.now }
    requires within { from < length uses.now }
    ensures { IfOk result (IsReach uses.now from) }
{
    let mut reached = Order::empty(alloc, uses)?;
    put_new(&mut reached, uses, from, uses.of(from))?;
    let mut next = 0;
    while next < reached.list().len() {
        let component = reached.list()[next];
        put_new(&mut reached, uses, from, uses.of(component))?;
        next += 1;
    }
    Ok(reached)
}

// Adds those of some components that aren't there yet. All of them are reached.
fn put_new(reached: &mut Order, uses: &Uses, from: u32, parts: &[u32]) -> Result<(), AllocError>
    requires reached { AreReached uses.now from reached.old }
    requires next { AreNext uses.now from reached.old parts.now }
    ensures reached { OnOk result (AreReached uses.now from reached.new) }
    ensures keeps { OnOk result (Keeps reached.old reached.new) }
    ensures all { OnOk result (AreListed (length uses.now) reached.new parts.now) }
{
    for part in parts {
        put_one(reached, uses, from, *part)?;
    }
    Ok(())
}

// Adds a component that is reached, if it isn't there yet.
fn put_one(reached: &mut Order, uses: &Uses, from: u32, part: u32) -> Result<(), AllocError>
    requires reached { AreReached uses.now from reached.old }
    requires within { part < length uses.now }
    requires next { leads (uses_of uses.now) (suc (length reached.old.list)) from part ≡ true }
    ensures reached { OnOk result (AreReached uses.now from reached.new) }
    ensures keeps { OnOk result (Keeps reached.old reached.new) }
    ensures has { OnOk result (get_or reached.new.rank part 0 < length uses.now) }
{
    let count = uses.count();
    if reached.has(part, count) {
        return Ok(());
    }
    reached.put(part, count)?;
    Ok(())
}

// No part has a higher level than its component.
fn never_rise(uses: &Uses, levels: &[u32]) -> bool
    ensures { IsTrue result → NeverRises uses.now levels.now }
{
    for component in 0..uses.count() {
        let level = level_of(levels, component);
        if !uses
            .of(component)
            .iter()
            .all(|part| level_of(levels, *part) <= level)
        {
            return false;
        }
    }
    true
}

// Each part has a lower level than its component.
fn fall(uses: &Uses, levels: &[u32], component: u32) -> bool
    requires { component < length uses.now }
    ensures { IsTrue result → All (λ p. get_or levels.now p 0 < get_or levels.now component 0) (uses_of uses.now component) }
{
    let level = level_of(levels, component);
    uses.of(component)
        .iter()
        .all(|part| level_of(levels, *part) < level)
}

// The level of a component, 0 where it has none.
fn level_of(levels: &[u32], component: u32) -> u32
    ensures { result ≡ get_or levels.now component 0 }
{
    levels.get(component as usize).copied().unwrap_or(0)
}
