// What compiled expressions come to. The element r has items of x; each path leads to these numbers, 10 and 3, of 16 bits each, and
// the variable v is 9.
#![tactic(auto)]

use crate::resolve;
use dfdl_expression_eval::{Evaluated, Listing, Scratch, eval};
use dfdl_expression_tree::parse;
use dfdl_expression_types::{Element, Place, Statics, TypeFault, Variable};
use dfdl_forms::Simple;
use std::alloc::{AllocError, Global};
use std::collections::BTreeMap;
use std::test::Fail;

fn elements(alloc: Global) -> Result<Vec<Element>, AllocError> {
    let mut all = Vec::new(alloc);
    all.push(Element {
        parent: None,
        name: 0,
        simple: None,
        children: Vec::from_slice(alloc, &[1usize])?,
    })?;
    all.push(Element {
        parent: Some(0),
        name: 1,
        simple: Some(Simple::Int),
        children: Vec::new(alloc),
    })?;
    Ok(all)
}

fn names(alloc: Global) -> Result<BTreeMap<String, u32>, AllocError> {
    let mut map = BTreeMap::new(alloc);
    map.insert(String::from_str(alloc, "r")?, 0)?;
    map.insert(String::from_str(alloc, "x")?, 1)?;
    Ok(map)
}

fn prefixes(alloc: Global) -> Result<BTreeMap<String, String>, AllocError> {
    let mut map = BTreeMap::new(alloc);
    for (prefix, namespace) in [
        ("xs", "http://www.w3.org/2001/XMLSchema"),
        ("dfdl", "http://www.ogf.org/dfdl/dfdl-1.0/"),
    ] {
        map.insert(
            String::from_str(alloc, prefix)?,
            String::from_str(alloc, namespace)?,
        )?;
    }
    Ok(map)
}

fn variables(alloc: Global) -> Result<BTreeMap<String, Variable>, AllocError> {
    let mut map = BTreeMap::new(alloc);
    let variable = Variable {
        number: 0,
        simple: Simple::Int,
    };
    map.insert(String::from_str(alloc, "v")?, variable)?;
    Ok(map)
}

fn listing(alloc: Global) -> Result<Listing, AllocError> {
    Ok(Listing {
        items: Vec::from_slice(alloc, &[10i128, 3])?,
        complete: true,
        bits: 16,
        variable: Some(9),
        was_read: false,
    })
}

/// Whether the value of an expression is written so.
fn comes_to(
    alloc: Global,
    statics: &Statics<'_>,
    expression: &str,
    expected: &str,
) -> Result<bool, Fail> {
    let tree = parse(alloc, expression)?;
    let resolved = resolve(alloc, expression, &tree, statics)?;
    let mut scratch = Scratch::open(alloc, resolved.expression.count() as usize)?;
    let mut env = listing(alloc)?;
    match eval(alloc, &resolved.expression, &mut scratch, &mut env)? {
        Evaluated::Known(value) => Ok(value.text(alloc)?.as_str() == expected),
        Evaluated::Fault(cause) => Ok(cause == 4 && expected == "E4"),
        Evaluated::Wait(_) => Ok(false),
    }
}

#[test]
fn values_of_compiled_expressions(rt: HostRuntime) -> Result<(), Fail> {
    let alloc = rt.alloc();
    let elements = elements(alloc)?;
    let names = names(alloc)?;
    let prefixes = prefixes(alloc)?;
    let variables = variables(alloc)?;
    let statics = Statics {
        elements: elements.as_slice(),
        names: &names,
        prefixes: &prefixes,
        variables: &variables,
        place: Place::At(1),
    };
    let rows = [
        ("1 + 2 * 3", "7"),
        ("10 div 4", "2.5"),
        ("1.50", "1.5"),
        ("if (2 lt 1) then 'a' else 'it''s'", "it's"),
        ("concat('bits', \"b\", xs:string(7))", "bitsb7"),
        ("substring('hello', 2, 3)", "ell"),
        ("fn:substring('hello', 4)", "lo"),
        ("count(../x)", "2"),
        ("not(exists(../x)) or empty(/r/x)", "false"),
        ("../x[2] - ../x[1]", "-7"),
        ("-../x[../x[2] - 2]", "-10"),
        ("$v idiv 2", "4"),
        ("abs(-3) mod 2", "1"),
        ("dfdl:valueLength(../x[1], 'bytes')", "2"),
        ("dfdl:contentLength(../x[1], \"bits\")", "16"),
        ("dfdl:occursIndex()", "1"),
        (
            "340282366920938463463374607431768211455",
            "340282366920938463463374607431768211455",
        ),
        ("340282366920938463463374607431768211456", "E4"),
    ];
    for (expression, expected) in rows {
        assert!(&rt; comes_to(alloc, &statics, expression, expected)?);
    }
    let tree = parse(alloc, "../y")?;
    assert!(&rt;
        match resolve(alloc, "../y", &tree, &statics) {
            Err(TypeFault::NoPath) => true,
            _ => false,
        }
    );
    Ok(())
}
