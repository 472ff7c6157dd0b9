// Infosets of `r`, whose content is in a box behind a prefix. It has `a`, whose content is in a box, with `x` and, in a group
// inside, `y`, and behind `a` and fill the number `b`, which has a prefix.
ghost use Rattle.std.specs.Prelude.{◌≡◌, ◌≤◌, IfOk, None, false};
ghost use Rattle.dfdl_forms.specs.Types.{form_of};
ghost use Rattle.dfdl_forms.specs.Binary.{most_bits};
ghost use Rattle.dfdl_terms.specs.Rows.{HasElementLast, IsPrimitive, NamesWithin};
ghost use Rattle.dfdl_terms.specs.Tables.{Named};
ghost use Rattle.dfdl_terms.specs.declared.row.Row.TheVariants.{Elem, Group};

use crate::{InfosetFault, OpenElements, events_of, events_of_json, line_of, name_of};
use dfdl_decimal::Fixed;
use dfdl_forms::{BitOrder, ByteOrder, IntForm};
use dfdl_region::{Content, Node};
use dfdl_terms::{
    Event, LengthUnit, NameNumbers, Prefix, Primitive, Representations, Row, RowId, RowList,
    Statements, Tables, Terms, WhereTried,
};
use dfdl_value::{Simple, TextValue, Value};
use std::alloc::{AllocError, Global};
use std::test::Fail;

pub(crate) fn form(bits: u32, kind: Simple) -> Primitive
    requires some { 1 ≤ bits }
    requires few { bits ≤ most_bits (form_of kind) }
    requires short { bits ≤ 128 }
    ensures { IsPrimitive result }
{
    Primitive::Integer(IntForm {
        bits,
        bytes_by: ByteOrder::Big,
        bits_by: BitOrder::MostFirst,
        point: 0,
        kind,
    })
}

pub(crate) fn element(
    alloc: Global,
    name: &str,
    simple: Option<Simple>,
    body: u32,
) -> Result<Row, AllocError>
    ensures row { IfOk result (λ row. row
        ≡ Elem name.now simple (record {
          nil = None;
          empty = None;
          refuses_empty = false;
          are_several = false;
          where_tried = record { empty = None; refuses_empty = false; are_several = false };
        }) (record { first = 0; count = 0 }) body) }
    ensures within { IfOk result (λ row. (named : Named) → NamesWithin named row) }
{
    Ok(Row::Elem {
        name: TextValue::from_str(alloc, name)?,
        simple,
        tried: Representations {
            nil: None,
            empty: None,
            refuses_empty: false,
            are_several: false,
            where_tried: WhereTried {
                empty: None,
                refuses_empty: false,
                are_several: false,
            },
        },
        behind: Statements { first: 0, count: 0 },
        body: RowId::new(body),
    })
}

pub(crate) fn group(alloc: Global, children: &[RowId]) -> Result<Row, AllocError>
    ensures row { IfOk result (λ row. row ≡ Group children.now) }
    ensures within { IfOk result (λ row. (named : Named) → NamesWithin named row) }
{
    Ok(Row::Group {
        children: RowList::new(Vec::from_slice(alloc, children)?),
    })
}

// A prefix that counts bytes.
const IN_BYTES: Prefix = Prefix {
    prim: 0,
    unit: LengthUnit::Bytes,
    own: 0,
};

// The rows of the elements without elements inside.
#[derive(Drop)]
struct NumberRows {
    x: Row,
    y: Row,
    b: Row,
}

fn numbers(alloc: Global) -> Result<NumberRows, AllocError>
    ensures x { IfOk result (λ rows. (named : Named) → NamesWithin named rows.x) }
    ensures y { IfOk result (λ rows. (named : Named) → NamesWithin named rows.y) }
    ensures b { IfOk result (λ rows. (named : Named) → NamesWithin named rows.b) }
{
    let byte = Some(Simple::UnsignedByte);
    Ok(NumberRows {
        x: element(alloc, "x", byte, 0)?,
        y: element(alloc, "y", byte, 0)?,
        b: element(alloc, "b", byte, 7)?,
    })
}

// The rows of groups: the one with y, that of a and that of r.
#[derive(Drop)]
struct GroupRows {
    of_y: Row,
    of_a: Row,
    of_r: Row,
}

fn groups(alloc: Global) -> Result<GroupRows, AllocError>
    ensures of_y { IfOk result (λ rows. (named : Named) → NamesWithin named rows.of_y) }
    ensures of_a { IfOk result (λ rows. (named : Named) → NamesWithin named rows.of_a) }
    ensures of_r { IfOk result (λ rows. (named : Named) → NamesWithin named rows.of_r) }
{
    Ok(GroupRows {
        of_y: group(alloc, &[RowId::new(2)])?,
        of_a: group(alloc, &[RowId::new(1), RowId::new(3)])?,
        of_r: group(alloc, &[RowId::new(6), RowId::new(9), RowId::new(8)])?,
    })
}

// The row 12 is the root element.
fn nested(alloc: Global) -> Result<Terms, Fail>
    ensures { IfOk result HasElementLast }
{
    let numbers = numbers(alloc)?;
    let groups = groups(alloc)?;
    let rows = vec![in alloc;
        Row::Leaf { prim: 0 },
        numbers.x,
        numbers.y,
        groups.of_y,
        groups.of_a,
        Row::Boxed {
            bits: 24,
            body: RowId::new(4)
        },
        element(alloc, "a", None, 5)?,
        Row::PrefixedLeaf {
            prefix: IN_BYTES,
            prim: 0
        },
        numbers.b,
        Row::Skip { bits: 8 },
        groups.of_r,
        Row::PrefixedBox {
            prefix: IN_BYTES,
            body: RowId::new(10)
        },
        element(alloc, "r", None, 11)?,
    ]?;
    let forms = vec![in alloc; form(8, Simple::UnsignedByte)]?;
    let tables = Tables::new(
        forms,
        Vec::new(alloc),
        Vec::new(alloc),
        NameNumbers::from_vec(Vec::new(alloc)),
        Vec::new(alloc),
    );
    Ok(Terms::build(alloc, rows, tables)?)
}

fn event_shown(alloc: Global, terms: &Terms, event: &Event) -> Result<String, AllocError> {
    match event {
        Event::Start { elem } => format!(in alloc; "{} ", name_of(terms, *elem)),
        Event::Simple {
            elem,
            value: Value::Uns(number),
        } => format!(in alloc; "{} is {number}, ", name_of(terms, *elem)),
        Event::Nil { elem } => format!(in alloc; "nil {}, ", name_of(terms, *elem)),
        Event::End => String::from_str(alloc, "end, "),
        _ => String::from_str(alloc, "other, "),
    }
}

pub(crate) fn answer_shown(alloc: Global, terms: &Terms, text: &str) -> Result<String, Fail>
    requires { HasElementLast terms.now }
{
    match events_of_json(alloc, terms, text.as_bytes()) {
        Ok(events) => {
            let mut shown = String::new(alloc);
            for event in &events {
                let part = event_shown(alloc, terms, event)?;
                shown.push_str(part.as_str())?;
            }
            Ok(shown)
        }
        Err(InfosetFault::Bad { cause, path }) => {
            Ok(format!(in alloc; "I{} in {}", cause.number(), path.as_str())?)
        }
        Err(fault) => Err(fault.into()),
    }
}

#[test]
fn infosets_give_events_in_schema_order(rt: HostRuntime) -> Result<(), Fail> {
    let terms = nested(rt.alloc())?;
    for (text, events) in [
        (
            r#"{"r":{"a":{"x":"1","y":"2"},"b":"3"}}"#,
            "r a x is 1, y is 2, end, b is 3, end, ",
        ),
        (
            r#"{"r":{"b":"3","a":{"y":" 2 ","x":"+1"}}}"#,
            "r a x is 1, y is 2, end, b is 3, end, ",
        ),
        (r#"{"r":{"a":{"y":"\u0032"}}}"#, "r a y is 2, end, end, "),
        (r#"{"r":{}}"#, "r end, "),
    ] {
        let shown = answer_shown(rt.alloc(), &terms, text)?;
        assert_eq!(rt; shown.as_str(), events, "{text}");
    }
    Ok(())
}

#[test]
fn the_outermost_refusal_counts_and_of_one_level_the_first(rt: HostRuntime) -> Result<(), Fail> {
    let terms = nested(rt.alloc())?;
    for (text, refusal) in [
        ("{", "I1 in /"),
        ("[]", "I2 in /"),
        (r#"{"q":{}}"#, "I2 in /"),
        (r#"{"q":{},"r":{}}"#, "I2 in /"),
        (r#"{"r":[]}"#, "I4 in /r"),
        (r#"{"r":null}"#, "I8 in /r"),
        (r#"{"r":{"zz":"2","a":null}}"#, "I3 in /r"),
        (r#"{"r":{"a":{"x":1},"b":1}}"#, "I6 in /r/b"),
        (r#"{"r":{"a":{"x":1,"zz":1},"b":"1"}}"#, "I3 in /r/a"),
        (
            r#"{"r":{"a":{"x":"256","y":null},"b":"1"}}"#,
            "I7 in /r/a/x",
        ),
        (r#"{"r":{"a":{"x":"1","y":null},"b":"1"}}"#, "I8 in /r/a/y"),
        (r#"{"r":{"a":"1","b":{}}}"#, "I4 in /r/a"),
    ] {
        let shown = answer_shown(rt.alloc(), &terms, text)?;
        assert_eq!(rt; shown.as_str(), refusal, "{text}");
    }
    Ok(())
}

fn node(element: u32, parent: u32, content: Content) -> Node
    ensures { result.content ≡ content }
{
    Node {
        element: RowId::new(element),
        parent,
        content,
        lengths: None,
    }
}

#[test]
fn the_members_of_a_line_are_in_the_order_of_their_names(rt: HostRuntime) -> Result<(), Fail> {
    let terms = nested(rt.alloc())?;
    let nodes = [
        node(12, 0, Content::Complex),
        node(8, 0, Content::Unsigned(3)),
        node(6, 0, Content::Complex),
        node(2, 2, Content::Unsigned(2)),
        node(1, 2, Content::Unsigned(1)),
    ];
    let line = line_of(rt.alloc(), &terms, &nodes, &[])?;
    assert_eq!(rt;
        line.as_str(),
        "{\"r\":{\"a\":{\"x\":\"1\",\"y\":\"2\"},\"b\":\"3\"}}\n"
    );
    Ok(())
}

#[test]
fn numbers_of_a_line_are_in_plain_decimal_digits(rt: HostRuntime) -> Result<(), Fail> {
    let terms = nested(rt.alloc())?;
    let nodes = [
        node(12, 0, Content::Complex),
        node(6, 0, Content::Complex),
        node(1, 1, Content::Signed(-2)),
        node(2, 1, Content::Decimal(Fixed::new(-1234, 2))),
        node(8, 0, Content::Decimal(Fixed::new(5, 0))),
    ];
    let line = line_of(rt.alloc(), &terms, &nodes, &[])?;
    assert_eq!(rt;
        line.as_str(),
        "{\"r\":{\"a\":{\"x\":\"-2\",\"y\":\"-12.34\"},\"b\":\"5\"}}\n"
    );
    Ok(())
}

#[test]
fn booleans_of_a_line_are_true_and_false(rt: HostRuntime) -> Result<(), Fail> {
    let terms = nested(rt.alloc())?;
    let nodes = [
        node(12, 0, Content::Complex),
        node(6, 0, Content::Complex),
        node(1, 1, Content::Truth(true)),
        node(2, 1, Content::Truth(false)),
    ];
    let line = line_of(rt.alloc(), &terms, &nodes, &[])?;
    assert_eq!(rt;
        line.as_str(),
        "{\"r\":{\"a\":{\"x\":\"true\",\"y\":\"false\"}}}\n"
    );
    Ok(())
}

#[test]
fn strings_of_a_line_are_escaped_and_hex_binary_is_in_upper_case(
    rt: HostRuntime,
) -> Result<(), Fail> {
    let terms = nested(rt.alloc())?;
    let text = [0xCA, 0xFE, 0x22, 0xC3, 0xA9, 0x09];
    let nodes = [
        node(12, 0, Content::Complex),
        node(6, 0, Content::Complex),
        node(1, 1, Content::Octets { from: 0, len: 2 }),
        node(2, 1, Content::Text { from: 2, len: 4 }),
    ];
    let line = line_of(rt.alloc(), &terms, &nodes, &text)?;
    assert_eq!(rt;
        line.as_str(),
        "{\"r\":{\"a\":{\"x\":\"CAFE\",\"y\":\"\\\"\u{E9}\\t\"}}}\n"
    );
    Ok(())
}

#[test]
fn empty_values_of_a_line_are_empty_strings(rt: HostRuntime) -> Result<(), Fail> {
    let terms = nested(rt.alloc())?;
    let text = [0x61];
    let nodes = [
        node(12, 0, Content::Complex),
        node(6, 0, Content::Complex),
        node(1, 1, Content::Octets { from: 1, len: 0 }),
        node(2, 1, Content::Text { from: 0, len: 0 }),
    ];
    let line = line_of(rt.alloc(), &terms, &nodes, &text)?;
    assert_eq!(rt; line.as_str(), "{\"r\":{\"a\":{\"x\":\"\",\"y\":\"\"}}}\n");
    Ok(())
}

// The row 5 is the root element, in which `x` and `y` stand twice, one after the other.
fn repeated(alloc: Global) -> Result<Terms, Fail> {
    let byte = Some(Simple::UnsignedByte);
    let rows = vec![in alloc;
        Row::Leaf { prim: 0 },
        element(alloc, "x", byte, 0)?,
        element(alloc, "y", byte, 0)?,
        group(alloc, &[RowId::new(1), RowId::new(2)])?,
        Row::Repeat {
            count: 2,
            body: RowId::new(3)
        },
        element(alloc, "r", None, 4)?,
    ]?;
    let forms = vec![in alloc; form(8, Simple::UnsignedByte)]?;
    let tables = Tables::new(
        forms,
        Vec::new(alloc),
        Vec::new(alloc),
        NameNumbers::from_vec(Vec::new(alloc)),
        Vec::new(alloc),
    );
    Ok(Terms::build(alloc, rows, tables)?)
}

#[test]
fn items_of_a_line_are_in_arrays(rt: HostRuntime) -> Result<(), Fail> {
    let terms = repeated(rt.alloc())?;
    let nodes = [
        node(5, 0, Content::Complex),
        node(1, 0, Content::Unsigned(1)),
        node(2, 0, Content::Unsigned(2)),
        node(1, 0, Content::Unsigned(3)),
        node(2, 0, Content::Nil),
    ];
    let line = line_of(rt.alloc(), &terms, &nodes, &[])?;
    assert_eq!(rt;
        line.as_str(),
        "{\"r\":{\"x\":[\"1\",\"3\"],\"y\":[\"2\",null]}}\n"
    );
    Ok(())
}

// The row 5 is the root element, in which a hidden `x` stands before `y`.
fn hiding(alloc: Global) -> Result<Terms, Fail> {
    let byte = Some(Simple::UnsignedByte);
    let rows = vec![in alloc;
        Row::Leaf { prim: 0 },
        element(alloc, "x", byte, 0)?,
        element(alloc, "y", byte, 0)?,
        Row::Hidden {
            body: RowId::new(1)
        },
        group(alloc, &[RowId::new(3), RowId::new(2)])?,
        element(alloc, "r", None, 4)?,
    ]?;
    let forms = vec![in alloc; form(8, Simple::UnsignedByte)]?;
    let tables = Tables::new(
        forms,
        Vec::new(alloc),
        Vec::new(alloc),
        NameNumbers::from_vec(Vec::new(alloc)),
        Vec::new(alloc),
    );
    Ok(Terms::build(alloc, rows, tables)?)
}

#[test]
fn a_line_leaves_hidden_elements_out(rt: HostRuntime) -> Result<(), Fail> {
    let terms = hiding(rt.alloc())?;
    let nodes = [
        node(5, 0, Content::Complex),
        node(1, 0, Content::Unsigned(1)),
        node(2, 0, Content::Unsigned(2)),
    ];
    let line = line_of(rt.alloc(), &terms, &nodes, &[])?;
    assert_eq!(rt; line.as_str(), "{\"r\":{\"y\":\"2\"}}\n");
    Ok(())
}

#[test]
fn a_nil_element_of_a_line_is_null(rt: HostRuntime) -> Result<(), Fail> {
    let terms = nested(rt.alloc())?;
    let nodes = [
        node(12, 0, Content::Complex),
        node(6, 0, Content::Complex),
        node(1, 1, Content::Nil),
        node(2, 1, Content::Unsigned(2)),
        node(8, 0, Content::Nil),
    ];
    let line = line_of(rt.alloc(), &terms, &nodes, &[])?;
    assert_eq!(rt;
        line.as_str(),
        "{\"r\":{\"a\":{\"x\":null,\"y\":\"2\"},\"b\":null}}\n"
    );
    Ok(())
}

#[test]
fn a_value_in_memory_is_read(rt: HostRuntime) -> Result<(), Fail> {
    let terms = nested(rt.alloc())?;
    let value = serde_json::Value::from_str(rt.alloc(), r#"{"r":{}}"#)?;
    let events = events_of(rt.alloc(), &terms, &value)?;
    assert_eq!(rt; events.len(), 2);
    let open = OpenElements::new(rt.alloc());
    assert_eq!(rt; open.depth(), 0);
    Ok(())
}
