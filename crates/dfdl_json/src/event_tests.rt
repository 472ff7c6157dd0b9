// Infosets of `r`, in which `a` stands twice, and behind it `b` and a hidden `c`. In `a` is `x`, which can be nil.
ghost use Rattle.std.specs.Prelude.{◌≡◌, IfOk, None, Some, false};
ghost use Rattle.dfdl_forms.specs.declared.simple.Simple.TheVariants.{UnsignedByte};
ghost use Rattle.dfdl_terms.specs.Rows.{HasElementLast};
ghost use Rattle.dfdl_terms.specs.declared.row.Row.TheVariants.{Elem};

use crate::tests::{answer_shown, element, form, group};
use dfdl_terms::{NameNumbers, Representations, Row, RowId, Statements, Tables, Terms, WhereTried};
use dfdl_value::{Simple, TextValue};
use std::alloc::{AllocError, Global};
use std::test::Fail;

// An element of numbers that can be nil.
fn nillable(alloc: Global, name: &str) -> Result<Row, AllocError>
    ensures row { IfOk result (λ row. row
        ≡ Elem name.now (Some UnsignedByte) (record {
          nil = Some 0;
          empty = None;
          refuses_empty = false;
          are_several = false;
          where_tried = record { empty = None; refuses_empty = false; are_several = false };
        }) (record { first = 0; count = 0 }) 0) }
{
    Ok(Row::Elem {
        name: TextValue::from_str(alloc, name)?,
        simple: Some(Simple::UnsignedByte),
        tried: Representations {
            nil: Some(0),
            empty: None,
            refuses_empty: false,
            are_several: false,
            where_tried: WhereTried {
                empty: None,
                refuses_empty: false,
                are_several: false,
            },
        },
        behind: Statements { first: 0, count: 0 },
        body: RowId::new(0),
    })
}

// The row 8 is the root element.
fn with_array(alloc: Global) -> Result<Terms, Fail>
    ensures { IfOk result HasElementLast }
{
    let byte = Some(Simple::UnsignedByte);
    let rows = vec![in alloc;
        Row::Leaf { prim: 0 },
        nillable(alloc, "x")?,
        element(alloc, "a", None, 1)?,
        Row::Repeat {
            count: 2,
            body: RowId::new(2)
        },
        element(alloc, "b", byte, 0)?,
        element(alloc, "c", byte, 0)?,
        Row::Hidden {
            body: RowId::new(5)
        },
        group(alloc, &[RowId::new(3), RowId::new(4), RowId::new(6)])?,
        element(alloc, "r", None, 7)?,
    ]?;
    let forms = vec![in alloc; form(8, Simple::UnsignedByte)]?;
    let tables = Tables::new(
        forms,
        Vec::new(alloc),
        Vec::new(alloc),
        NameNumbers::from_vec(Vec::new(alloc)),
        Vec::new(alloc),
    );
    Ok(Terms::build(alloc, rows, tables)?)
}

#[test]
fn items_of_arrays_and_nil_elements_give_events(rt: HostRuntime) -> Result<(), Fail> {
    let terms = with_array(rt.alloc())?;
    for (text, events) in [
        (
            r#"{"r":{"a":[{"x":"1"},{"x":null}],"b":"2"}}"#,
            "r a x is 1, end, a nil x, end, b is 2, end, ",
        ),
        (r#"{"r":{"a":[],"b":"2"}}"#, "r b is 2, end, "),
    ] {
        let shown = answer_shown(rt.alloc(), &terms, text)?;
        assert_eq!(rt; shown.as_str(), events, "{text}");
    }
    Ok(())
}

#[test]
fn items_are_refused_by_their_places(rt: HostRuntime) -> Result<(), Fail> {
    let terms = with_array(rt.alloc())?;
    for (text, refusal) in [
        (r#"{"r":{"a":{"x":"1"}}}"#, "I5 in /r/a"),
        (r#"{"r":{"a":[{},"1"],"b":1}}"#, "I4 in /r/a[2]"),
        (r#"{"r":{"a":[{},null]}}"#, "I8 in /r/a[2]"),
        (r#"{"r":{"a":[{"y":"1"}]}}"#, "I3 in /r/a[1]"),
        (r#"{"r":{"a":[{},{"x":"256"}]}}"#, "I7 in /r/a[2]/x"),
        (r#"{"r":{"a":[{"x":"256"}],"b":["1"]}}"#, "I6 in /r/b"),
        (r#"{"r":{"c":"1"}}"#, "I3 in /r"),
    ] {
        let shown = answer_shown(rt.alloc(), &terms, text)?;
        assert_eq!(rt; shown.as_str(), refusal, "{text}");
    }
    Ok(())
}
