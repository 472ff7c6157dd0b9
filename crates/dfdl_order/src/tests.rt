use super::*;
use std::alloc::Global;
use std::test::Fail;

// None where there is an order, else the component that the fault names.
fn recursive(alloc: Global, uses: &Uses) -> Result<Option<u32>, OrderFault> {
    if !uses.is_closed() {
        return Ok(Some(u32::MAX));
    }
    match order_of(alloc, uses) {
        Ok(_) => Ok(None),
        Err(OrderFault::Recursive { component }) => Ok(Some(component)),
        Err(fault) => Err(fault),
    }
}

fn uses_of(alloc: Global, graph: &[&[u32]]) -> Result<Uses, OrderFault> {
    let mut uses = Uses::new(alloc);
    for parts in graph {
        uses.push(parts)?;
    }
    Ok(uses)
}

// Each component has the next one as its part, and the last one has one more.
fn chain(alloc: Global, count: u32, last: &[u32]) -> Result<Uses, OrderFault> {
    let mut uses = Uses::new(alloc);
    for next in 1..count {
        uses.push(&[next])?;
    }
    uses.push(last)?;
    Ok(uses)
}

// The answers are those of a search from each component.
#[test]
fn finds_the_first_component_that_reaches_itself(rt: HostRuntime) -> Result<(), Fail> {
    let alloc = rt.alloc();
    let cases: [(&[&[u32]], Option<u32>); 13] = [
        (&[&[], &[3], &[3], &[4, 5], &[2], &[3, 1, 0]], Some(1)),
        (&[&[1], &[0, 1, 1]], Some(0)),
        (
            &[&[], &[3, 6, 4], &[0], &[], &[], &[], &[4, 1], &[2, 3]],
            Some(1),
        ),
        (&[&[], &[1], &[]], Some(1)),
        (&[&[3], &[4, 0], &[2, 3], &[4], &[]], Some(2)),
        (&[&[2, 6], &[], &[0, 3], &[2], &[], &[], &[], &[6]], Some(0)),
        (&[&[0, 0]], Some(0)),
        (&[&[], &[4, 0], &[], &[4, 3], &[4, 1, 1], &[]], Some(1)),
        (&[&[], &[0], &[], &[], &[]], None),
        (&[&[1], &[2, 3], &[2], &[]], Some(2)),
        (&[&[2], &[4], &[3], &[1], &[]], None),
        (&[&[4], &[], &[6], &[5], &[], &[], &[0, 1, 5], &[]], None),
        (&[&[2, 2], &[], &[4, 6], &[4, 6], &[], &[], &[1]], None),
    ];
    for (graph, expected) in cases {
        let uses = uses_of(alloc, graph)?;
        assert_eq!(rt; recursive(alloc, &uses)?, expected);
    }
    Ok(())
}

#[test]
fn places_parts_first(rt: HostRuntime) -> Result<(), Fail> {
    let alloc = rt.alloc();
    let uses = uses_of(alloc, &[&[2], &[], &[1, 3], &[1]])?;
    assert_eq!(rt; uses.is_closed(), true);
    if uses.is_closed() {
        let order = order_of(alloc, &uses)?;
        assert_eq!(rt; order.list(), [1, 3, 2, 0].as_slice());
        assert_eq!(rt; order.ranks(), [3, 0, 2, 1].as_slice());
    }
    Ok(())
}

#[test]
fn tells_parts_that_are_no_components(rt: HostRuntime) -> Result<(), Fail> {
    let uses = uses_of(rt.alloc(), &[&[1], &[2]])?;
    assert_eq!(rt; uses.is_closed(), false);
    Ok(())
}

#[test]
fn orders_a_long_chain(rt: HostRuntime) -> Result<(), Fail> {
    let alloc = rt.alloc();
    let uses = chain(alloc, 100_000, &[])?;
    assert_eq!(rt; recursive(alloc, &uses)?, None);
    Ok(())
}

#[test]
fn refuses_a_long_cycle(rt: HostRuntime) -> Result<(), Fail> {
    let alloc = rt.alloc();
    let uses = chain(alloc, 100_000, &[0])?;
    assert_eq!(rt; recursive(alloc, &uses)?, Some(0));
    Ok(())
}

#[test]
fn refuses_a_long_way_to_a_cycle(rt: HostRuntime) -> Result<(), Fail> {
    let alloc = rt.alloc();
    let uses = chain(alloc, 100_000, &[50_000])?;
    assert_eq!(rt; recursive(alloc, &uses)?, Some(50_000));
    Ok(())
}
