// Paths over a small document: `r` has `a` twice and `b`; the first `a` has `x` twice, the second once. The names are r, a, x and b.
ghost use Rattle.std.specs.Prelude.{◌≡◌, IfOk, length};

use crate::*;
use dfdl_expressions::StepList;
use dfdl_terms::RowId;
use std::alloc::{AllocError, Global};
use std::test::Fail;

fn names(alloc: Global) -> Result<NameNumbers, AllocError> {
    let numbers = vec![in alloc; Some(0), Some(1), Some(2), Some(3)]?;
    Ok(NameNumbers::from_vec(numbers))
}

fn node(element: u32, parent: u32, content: Content) -> Node {
    Node {
        element: RowId::new(element),
        parent,
        content,
        lengths: None,
    }
}

fn path(alloc: Global, absolute: bool, steps: &[Step]) -> Result<Path, AllocError> {
    Ok(Path {
        absolute,
        steps: StepList::from_vec(Vec::from_slice(alloc, steps)?),
    })
}

fn down(name: u32) -> Step {
    Step::Down {
        name,
        indexed: false,
    }
}

fn nth(name: u32) -> Step {
    Step::Down {
        name,
        indexed: true,
    }
}

// A document of seven elements.
fn nodes(alloc: Global) -> Result<Vec<Node>, AllocError>
    ensures { IfOk result (λ nodes. length nodes.items ≡ 7) }
{
    let nodes = vec![in alloc;
        node(0, 0, Content::Complex),
        node(1, 0, Content::Complex),
        node(2, 1, Content::Unsigned(7)),
        node(2, 1, Content::Nil),
        node(1, 0, Content::Complex),
        node(2, 4, Content::Unsigned(9)),
        node(3, 0, Content::Begun),
    ]?;
    Ok(nodes)
}

fn only(alloc: Global, start: Start, steps: &[Step], indexes: &[u64]) -> Result<Found, AllocError> {
    let names = names(alloc)?;
    let nodes = nodes(alloc)?;
    let path = path(alloc, false, steps)?;
    Ok(only_item(&names, &nodes, start, &path, indexes))
}

fn count(
    alloc: Global,
    absolute: bool,
    steps: &[Step],
    indexes: &[u64],
) -> Result<u64, AllocError> {
    let names = names(alloc)?;
    let nodes = nodes(alloc)?;
    let path = path(alloc, absolute, steps)?;
    Ok(count_items(&names, &nodes, Start::At(6), &path, indexes))
}

#[test]
fn items_are_counted(rt: HostRuntime) -> Result<(), Fail> {
    let alloc = rt.alloc();
    assert_eq!(rt; count(alloc, true, &[down(0), down(1), down(2)], &[])?, 3);
    assert_eq!(rt; count(alloc, false, &[Step::Up, down(1), nth(2)], &[1])?, 2);
    Ok(())
}

#[test]
fn indexes_count_from_one(rt: HostRuntime) -> Result<(), Fail> {
    let alloc = rt.alloc();
    let steps = [Step::Up, nth(1), down(2)];
    assert_eq!(rt; only(alloc, Start::At(6), &steps, &[2])?, Found::One(5));
    assert_eq!(rt; only(alloc, Start::At(6), &steps, &[3])?, Found::None);
    assert_eq!(rt; only(alloc, Start::At(6), &steps, &[0])?, Found::None);
    Ok(())
}

#[test]
fn groups_stand_inside(rt: HostRuntime) -> Result<(), Fail> {
    let alloc = rt.alloc();
    assert_eq!(rt;
        only(alloc, Start::At(1), &[Step::Here], &[])?,
        Found::One(1)
    );
    assert_eq!(rt;
        only(alloc, Start::Inside(1), &[Step::Here], &[])?,
        Found::None
    );
    assert_eq!(rt;
        only(alloc, Start::Inside(1), &[Step::Up], &[])?,
        Found::One(1)
    );
    assert_eq!(rt; only(alloc, Start::At(0), &[Step::Up], &[])?, Found::None);
    assert_eq!(rt;
        only(alloc, Start::At(0), &[down(1), Step::Up], &[])?,
        Found::One(0)
    );
    Ok(())
}
