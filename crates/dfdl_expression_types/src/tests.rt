// What expressions give, over a small schema: r has x (int), s (string), b (boolean), h (hexBinary), and c with another x, a string;
// and in two branches of a choice y, an int in one and a string in the other.
#![tactic(auto)]

use crate::{Element, Place, Statics, TypeFault, Types, ValueType, Variable, check_types};
use dfdl_expression_tree::parse;
use dfdl_forms::Simple;
use std::alloc::{AllocError, Global};
use std::collections::BTreeMap;
use std::test::Fail;

const NAMES: [&str; 7] = ["r", "x", "s", "b", "h", "c", "y"];

fn element(
    alloc: Global,
    parent: Option<usize>,
    name: u32,
    simple: Option<Simple>,
    children: &[usize],
) -> Result<Element, AllocError> {
    Ok(Element {
        parent,
        name,
        simple,
        children: Vec::from_slice(alloc, children)?,
    })
}

fn elements(alloc: Global) -> Result<Vec<Element>, AllocError> {
    let mut all = Vec::new(alloc);
    all.push(element(alloc, None, 0, None, &[1, 2, 3, 4, 5, 7, 8])?)?;
    all.push(element(alloc, Some(0), 1, Some(Simple::Int), &[])?)?;
    all.push(element(alloc, Some(0), 2, Some(Simple::String), &[])?)?;
    all.push(element(alloc, Some(0), 3, Some(Simple::Boolean), &[])?)?;
    all.push(element(alloc, Some(0), 4, Some(Simple::HexBinary), &[])?)?;
    all.push(element(alloc, Some(0), 5, None, &[6])?)?;
    all.push(element(alloc, Some(5), 1, Some(Simple::String), &[])?)?;
    all.push(element(alloc, Some(0), 6, Some(Simple::Int), &[])?)?;
    all.push(element(alloc, Some(0), 6, Some(Simple::String), &[])?)?;
    Ok(all)
}

fn names(alloc: Global) -> Result<BTreeMap<String, u32>, AllocError> {
    let mut map = BTreeMap::new(alloc);
    for (number, name) in NAMES.iter().enumerate() {
        map.insert(String::from_str(alloc, *name)?, number as u32)?;
    }
    Ok(map)
}

fn prefixes(alloc: Global) -> Result<BTreeMap<String, String>, AllocError> {
    let mut map = BTreeMap::new(alloc);
    for (prefix, namespace) in [
        ("xs", "http://www.w3.org/2001/XMLSchema"),
        ("dfdl", "http://www.ogf.org/dfdl/dfdl-1.0/"),
    ] {
        map.insert(
            String::from_str(alloc, prefix)?,
            String::from_str(alloc, namespace)?,
        )?;
    }
    Ok(map)
}

fn variables(alloc: Global) -> Result<BTreeMap<String, Variable>, AllocError> {
    let mut map = BTreeMap::new(alloc);
    let variable = Variable {
        number: 0,
        simple: Simple::Boolean,
    };
    map.insert(String::from_str(alloc, "v")?, variable)?;
    Ok(map)
}

fn number() -> Result<Types, TypeFault> {
    Ok(Types::only(ValueType::Number))
}

fn text() -> Result<Types, TypeFault> {
    Ok(Types::only(ValueType::Text))
}

fn truth() -> Result<Types, TypeFault> {
    Ok(Types::only(ValueType::Truth))
}

#[test]
fn types_and_faults(rt: HostRuntime) -> Result<(), Fail> {
    let alloc = rt.alloc();
    let elements = elements(alloc)?;
    let names = names(alloc)?;
    let prefixes = prefixes(alloc)?;
    let variables = variables(alloc)?;
    let statics = Statics {
        elements: elements.as_slice(),
        names: &names,
        prefixes: &prefixes,
        variables: &variables,
        place: Place::At(1),
    };
    let rows = [
        (". + 1", number()),
        ("../s eq 'a'", truth()),
        ("/r/c/x", text()),
        ("if (../b) then ../y else 1", number()),
        ("../y eq 1 and ../y eq 'a'", truth()),
        ("../b lt $v", truth()),
        ("../c", Ok(Types::every())),
        ("xs:int('5') + fn:string-length(../s)", number()),
        ("substring(../s, 2, count(../x[1]))", text()),
        ("dfdl:valueLength(../h, 'bits')", number()),
        ("../s + 1", Err(TypeFault::Types)),
        ("if (../b) then ../s else 1", Err(TypeFault::Types)),
        ("not(../x)", Err(TypeFault::Types)),
        ("concat('a')", Err(TypeFault::Types)),
        ("count(1)", Err(TypeFault::Types)),
        ("nothing()", Err(TypeFault::Types)),
        ("q:true()", Err(TypeFault::Types)),
        ("../x['1']", Err(TypeFault::Types)),
        ("dfdl:contentLength(../h, 'nibbles')", Err(TypeFault::Types)),
        ("../z", Err(TypeFault::NoPath)),
        ("../../..", Err(TypeFault::NoPath)),
        ("/x", Err(TypeFault::NoPath)),
        ("$w", Err(TypeFault::NoVariable)),
        ("$w eq ../z", Err(TypeFault::NoPath)),
        ("$w eq ../z and 1", Err(TypeFault::Types)),
    ];
    for (expression, expected) in rows {
        let tree = parse(alloc, expression)?;
        assert!(&rt; check_types(alloc, expression, &tree, &statics) == expected);
    }
    Ok(())
}
