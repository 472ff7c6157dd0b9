ghost use Rattle.std.specs.Prelude.{◌≡◌, ℕ, ◌+◌, ◌<◌, ◌≤◌, ◌^◌, List, [], length, All, get_or, IfOk, IfErr, IfSome, IsSome, OnOk, OnErr, MatchOption, nat_lt, true, false};
ghost use Rattle.dfdl_order.specs.Parts.{uses_of, IsClosed, IsOrder};
ghost use Rattle.dfdl_order.specs.Filling.{IsListing, IsPart, with_one, all_ranked, is_ready, NoneReady, IsNextReady, AllPlaced, IsUnplaced};
ghost use Rattle.dfdl_order.specs.Reaching.{IsOpenPart};
ghost use Rattle.dfdl_order.specs.Cycles.{IsFaultOf};

use crate::recursive::first_recursive;
use crate::search::walk_all;
use crate::{OrderFault, Uses};
use std::alloc::{AllocError, Global};
use std::marker::Model;

/// All components, each behind its parts, and the place of each one.
#[derive(Drop)]
pub struct Order {
    list: Vec<u32>,
    rank: Vec<u32>,
}

impl Model for Order {
    ghost use Rattle.dfdl_order.specs.Parts.{Places};
    ghost use Rattle.dfdl_order.specs.Filling.{placed};

    ghost Value = { Places };

    ghost view = { λ o. placed o.list.items o.rank.items };
}

impl Order {
    /// The components, each behind its parts.
    pub fn list(&self) -> &[u32]
        ensures { result.now ≡ self.now.list }
    {
        self.list.as_slice()
    }

    /// The place of each component in the list.
    pub fn ranks(&self) -> &[u32]
        ensures { result.now ≡ self.now.rank }
    {
        self.rank.as_slice()
    }

    // No component has a place yet.
    pub(crate) fn empty(alloc: Global, uses: &Uses) -> Result<Order, AllocError>
        ensures part { IfOk result (IsPart uses.now) }
        ensures none { IfOk result (λ order. order.list ≡ []) }
    {
        let rank = vec![in alloc; u32::MAX; uses.count() as usize]?;
        Ok(Order {
            list: Vec::new(alloc),
            rank,
        })
    }

    // Each of these components has a place.
    fn has_all(&self, parts: &[u32], count: u32) -> bool
        requires { All (λ p. p < length self.now.rank) parts.now }
        ensures { result ≡ all_ranked count self.now parts.now }
    {
        for part in parts {
            if self.rank[*part as usize] >= count {
                return false;
            }
        }
        true
    }

    // A component has no place, and all its parts have one.
    fn is_ready(&self, uses: &Uses, component: u32) -> bool
        requires closed { IsClosed uses.now }
        requires part { IsPart uses.now self.now }
        requires within { component < length uses.now }
        ensures { result ≡ is_ready uses.now self.now component }
    {
        let count = uses.count();
        self.rank[component as usize] >= count && self.has_all(uses.of(component), count)
    }

    // A component has a place.
    pub(crate) fn has(&self, component: u32, count: u32) -> bool
        requires { component < length self.now.rank }
        ensures { result ≡ nat_lt (get_or self.now.rank component 0) count }
    {
        self.rank[component as usize] < count
    }

    // Puts a component that has no place behind the others.
    pub(crate) fn put(&mut self, component: u32, count: u32) -> Result<(), AllocError>
        requires listing { IsListing count self.old }
        requires within { component < count }
        requires unplaced { count ≤ get_or self.old.rank component 0 }
        ensures listing { IsListing count self.new }
        ensures put { OnOk result (self.new ≡ with_one self.old component) }
        ensures kept { OnErr result (self.new ≡ self.old) }
    {
        let place = self.list.len() as u32;
        prove!(place < count);
        self.list.push(component)?;
        self.rank[component as usize] = place;
        Ok(())
    }

    // Puts a component that is ready behind the others.
    fn add(&mut self, uses: &Uses, component: u32) -> Result<(), AllocError>
        requires closed { IsClosed uses.now }
        requires part { IsPart uses.now self.old }
        requires within { component < length uses.now }
        requires ready { is_ready uses.now self.old component ≡ true }
        ensures part { IsPart uses.now self.new }
        ensures grown { OnOk result (length self.new.list ≡ length self.old.list + 1) }
    {
        self.put(component, uses.count())?;
        Ok(())
    }

    // The first component that is ready.
    fn first_ready(&self, uses: &Uses) -> Option<u32>
        requires closed { IsClosed uses.now }
        requires part { IsPart uses.now self.now }
        ensures { MatchOption result (NoneReady uses.now self.now) (IsNextReady uses.now self.now) }
    {
        for component in 0..uses.count() {
            if self.is_ready(uses, component) {
                return Some(component);
            }
        }
        None
    }

    // Gives a place to each component that can have one, in the order of a list of components and then by number.
    fn fill(&mut self, uses: &Uses, first: &[u32]) -> Result<(), AllocError>
        requires closed { IsClosed uses.now }
        requires part { IsPart uses.now self.old }
        ensures part { IsPart uses.now self.new }
        ensures full { OnOk result (NoneReady uses.now self.new) }
    {
        self.follow(uses, first)?;
        while let Some(component) = self.first_ready(uses) {
            self.add(uses, component)?;
        }
        Ok(())
    }

    // Gives a place to each component that is ready, in the order of a list.
    fn follow(&mut self, uses: &Uses, list: &[u32]) -> Result<(), AllocError>
        requires closed { IsClosed uses.now }
        requires part { IsPart uses.now self.old }
        ensures part { IsPart uses.now self.new }
    {
        for component in list {
            if *component < uses.count() && self.is_ready(uses, *component) {
                self.add(uses, *component)?;
            }
        }
        Ok(())
    }

    // A component that has no place.
    fn unplaced(&self, uses: &Uses) -> Option<u32>
        requires part { IsPart uses.now self.now }
        ensures { MatchOption result (AllPlaced uses.now self.now) (IsUnplaced uses.now self.now) }
    {
        let count = uses.count();
        for component in 0..count {
            if !self.has(component, count) {
                return Some(component);
            }
        }
        None
    }

    // A part that has no place, of a component without one.
    pub(crate) fn unplaced_part(&self, uses: &Uses, component: u32) -> Option<u32>
        requires closed { IsClosed uses.now }
        requires part { IsPart uses.now self.now }
        requires full { NoneReady uses.now self.now }
        requires unplaced { IsUnplaced uses.now self.now component }
        ensures found { IsSome result }
        ensures part { IfSome result (IsOpenPart uses.now self.now component) }
    {
        let count = uses.count();
        for part in uses.of(component) {
            if !self.has(*part, count) {
                return Some(*part);
            }
        }
        None
    }
}

/// An order of components, or the first one that reaches itself.
pub fn order_of(alloc: Global, uses: &Uses) -> Result<Order, OrderFault>
    requires { IsClosed uses.now }
    ensures ordered { IfOk result (IsOrder uses.now) }
    ensures fault { IfErr result (IsFaultOf uses.now) }
{
    let Ok(hint) = walk_all(alloc, uses) else {
        return Err(OrderFault::OutOfMemory);
    };
    let Ok(order) = largest(alloc, uses, hint.order()) else {
        return Err(OrderFault::OutOfMemory);
    };
    let Some(component) = order.unplaced(uses) else {
        return Ok(order);
    };
    let Ok(component) = first_recursive(alloc, uses, &order, component, hint.levels()) else {
        return Err(OrderFault::OutOfMemory);
    };
    Err(OrderFault::Recursive { component })
}

// An order of all components that can have a place.
fn largest(alloc: Global, uses: &Uses, first: &[u32]) -> Result<Order, AllocError>
    requires { IsClosed uses.now }
    ensures part { IfOk result (IsPart uses.now) }
    ensures full { IfOk result (NoneReady uses.now) }
{
    let mut order = Order::empty(alloc, uses)?;
    order.fill(uses, first)?;
    Ok(order)
}
