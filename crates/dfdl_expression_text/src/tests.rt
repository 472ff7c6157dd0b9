// Which texts are expressions, and where the others are refused.
#![tactic(auto)]

use crate::{ExpressionFault, check};
use std::alloc::{AllocError, Global};
use std::string::String;
use std::test::Fail;

/// The byte at which the text is refused.
fn refused(alloc: Global, text: &str) -> Option<usize> {
    match check(alloc, text) {
        Err(ExpressionFault::Malformed { at }) => Some(at),
        Ok(()) | Err(ExpressionFault::OutOfMemory) => None,
    }
}

/// The texts behind one another, the middle one so often.
fn joined(
    alloc: Global,
    first: &str,
    middle: &str,
    times: u32,
    last: &str,
) -> Result<String, AllocError> {
    let mut text = String::new(alloc);
    text.push_str(first)?;
    for _ in 0..times {
        text.push_str(middle)?;
    }
    text.push_str(last)?;
    Ok(text)
}

#[test]
fn operators(rt: HostRuntime) -> Result<(), Fail> {
    let texts = [
        "1",
        " 1.5 + .5*2.- -3 ",
        "-a div 2 idiv 3 mod (4)",
        "a eq 1 and b ne 2 or c lt 3 and d le 4",
        "a gt 1 or b ge 2",
        "a=1 and a!=2 and a<3 and a<=4 and a>5 and a>=6",
        "if (a) then 1 else if (b) then 2 else 3",
        "(a = b) = (c = d)",
    ];
    for text in texts {
        check(rt.alloc(), text)?;
    }
    Ok(())
}

#[test]
fn operands(rt: HostRuntime) -> Result<(), Fail> {
    let texts = [
        "true()",
        "fn:concat('it''s', \"a\"\"b\", $p:v)",
        "xs:int('1')",
        "dfdl:valueLength(../x, 'bytes')",
        "substring($if, 1, 2)",
        "/r/a[1]/b[a + 1]/../.",
        ".",
        "..",
        "if",
        "if/if[if]",
        "and and or or div div mod",
        "\u{e9}\u{e8}:\u{e9}1 + '\u{1f600}'",
    ];
    for text in texts {
        check(rt.alloc(), text)?;
    }
    Ok(())
}

#[test]
fn refused_operators(rt: HostRuntime) -> Result<(), Fail> {
    let texts = [
        ("", 0),
        ("1 +", 3),
        ("1 2", 2),
        ("--1", 1),
        ("a + if (b) then 1 else 2", 7),
        ("a = b = c", 6),
        ("a andx", 5),
        ("a eq1", 4),
        ("1and 2", 1),
        ("if (a) then 1", 13),
        ("if (a) else 1", 7),
        ("(1", 2),
        ("1)", 1),
        ("a ! b", 3),
    ];
    for (text, at) in texts {
        assert_eq!(rt; refused(rt.alloc(), text), Some(at));
    }
    Ok(())
}

#[test]
fn refused_operands(rt: HostRuntime) -> Result<(), Fail> {
    let texts = [
        ("$1", 1),
        ("$ a 1", 4),
        ("'a", 2),
        ("1a", 1),
        ("1.2.3", 3),
        ("xs:", 3),
        ("a:b:c", 3),
        ("a[]", 2),
        ("a[1][2]", 4),
        ("..[1]", 2),
        ("a()/b", 3),
        ("concat(a,)", 9),
        ("/", 1),
        ("a#", 1),
        ("1 \u{e9}", 2),
        ("'\u{1}'", 1),
    ];
    for (text, at) in texts {
        assert_eq!(rt; refused(rt.alloc(), text), Some(at));
    }
    Ok(())
}

#[test]
fn chains_of_tokens(rt: HostRuntime) -> Result<(), Fail> {
    let alloc = rt.alloc();
    let least = joined(alloc, "", "1+", 499, "1")?;
    check(alloc, least.as_str())?;
    let most = joined(alloc, "-", "1+", 499, "1")?;
    check(alloc, most.as_str())?;
    let many = joined(alloc, "", "1+", 500, "1")?;
    assert_eq!(rt; refused(alloc, many.as_str()), Some(999));
    Ok(())
}

#[test]
fn names_and_variables(rt: HostRuntime) -> Result<(), Fail> {
    let alloc = rt.alloc();
    let names = joined(alloc, "-", "a:b+", 499, "a:b")?;
    check(alloc, names.as_str())?;
    let variables = joined(alloc, "", "$a+", 333, "1")?;
    check(alloc, variables.as_str())?;
    let many = joined(alloc, "", "$a+", 333, "$a")?;
    assert_eq!(rt; refused(alloc, many.as_str()), Some(999));
    let texts = joined(alloc, "-", "'a + b'+", 499, "\u{e9}")?;
    check(alloc, texts.as_str())?;
    Ok(())
}

#[test]
fn nested(rt: HostRuntime) -> Result<(), Fail> {
    let alloc = rt.alloc();
    let opened = joined(alloc, "", "(", 499, "1")?;
    let text = joined(alloc, opened.as_str(), ")", 499, "")?;
    check(alloc, text.as_str())?;
    let many = joined(alloc, "", "(", 500, "1")?;
    assert_eq!(rt; refused(alloc, many.as_str()), Some(499));
    Ok(())
}

#[test]
fn nested_conditions(rt: HostRuntime) -> Result<(), Fail> {
    let alloc = rt.alloc();
    let most = joined(alloc, "", "if(1)then 1 else ", 142, "1+1+1+1")?;
    assert_eq!(rt; refused(alloc, most.as_str()), Some(2419));
    let fewer = joined(alloc, "", "if(1)then 1 else ", 142, "-1+1+1")?;
    check(alloc, fewer.as_str())?;
    Ok(())
}
