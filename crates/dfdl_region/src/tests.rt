// The elements of a small document, by hand.
use crate::*;
use std::test::Fail;

#[test]
fn nodes_are_added_and_read(rt: HostRuntime) -> Result<(), Fail> {
    let mut region = NodeRegion::open(rt.alloc(), 2)?;
    let root = Node {
        element: RowId::new(4),
        parent: 0,
        content: Content::Begun,
        lengths: None,
    };
    let child = Node {
        element: RowId::new(1),
        parent: 0,
        content: Content::Unsigned(7),
        lengths: None,
    };
    assert_eq!(rt; (region.count(), region.most()), (0, 2));
    assert_eq!(rt; region.add(root), Ok(0));
    assert_eq!(rt; region.add(child), Ok(1));
    assert_eq!(rt; region.add(child), Err(Full));
    assert_eq!(rt; region.count(), 2);
    region.set_content(0, Content::Complex);
    assert_eq!(rt; region.get(0).content, Content::Complex);
    region.set_content(0, Content::Signed(-2));
    assert_eq!(rt; region.get(0).content, Content::Signed(-2));
    region.set_content(1, Content::Truth(true));
    assert_eq!(rt; region.get(1).content, Content::Truth(true));
    let known = Some(Lengths {
        content: 16,
        value: 8,
    });
    region.set_lengths(1, known);
    assert_eq!(rt; region.get(1).lengths, known);
    region.set_lengths(1, None);
    region.set_content(1, child.content);
    assert_eq!(rt; region.nodes()[1], child);
    region.undo_to(2);
    assert_eq!(rt; region.count(), 2);
    region.undo_to(1);
    assert_eq!(rt; region.count(), 1);
    assert_eq!(rt; region.get(0).content, Content::Signed(-2));
    region.clear();
    assert_eq!(rt; region.count(), 0);
    Ok(())
}

#[test]
fn texts_are_added_and_read(rt: HostRuntime) -> Result<(), Fail> {
    let mut region = TextRegion::open(rt.alloc(), 6)?;
    assert_eq!(rt; (region.count(), region.most()), (0, 6));
    assert_eq!(rt; region.add(&[0xCA, 0xFE]), Ok(0));
    assert_eq!(rt; region.add_characters(&['a', '\u{E9}']), Ok(2));
    assert_eq!(rt; region.count(), 5);
    assert_eq!(rt; region.bytes(2, 3), [0x61, 0xC3, 0xA9].as_slice());
    assert_eq!(rt; region.add_characters(&['\u{E9}']), Err(Full));
    assert_eq!(rt; region.add(&[1, 2]), Err(Full));
    assert_eq!(rt; region.all(), [0xCA, 0xFE, 0x61, 0xC3, 0xA9].as_slice());
    assert_eq!(rt; region.add(&[7]), Ok(5));
    assert_eq!(rt; region.add_characters(&[]), Ok(6));
    region.undo_to(2);
    assert_eq!(rt; region.all(), [0xCA, 0xFE].as_slice());
    region.clear();
    assert_eq!(rt; region.count(), 0);
    Ok(())
}
