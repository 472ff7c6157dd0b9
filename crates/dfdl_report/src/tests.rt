// The lines as they are printed.
use crate::{
    DocCause, InfosetCause, LimitCause, ParseCause, SchemaCause, UnparseCause, VariableCause, line,
};
use std::test::Fail;

// Each kind of line once, in the form that users match on.
#[test]
fn lines_are_told(rt: HostRuntime) -> Result<(), Fail> {
    let alloc = rt.alloc();
    let told = line::of_parse(alloc, ParseCause::DataEnds, 8, "/r/b")?;
    assert_eq!(rt; told.as_str(), "error P4 at bit 8 in /r/b: data ends\n");
    let cause = ParseCause::AssertionFalse { test: 3 };
    let told = line::of_test(alloc, cause, 8, "/r/b", "too big")?;
    assert_eq!(rt;
        told.as_str(),
        "error P10 at bit 8 in /r/b: assertion false: too big\n"
    );
    let cause = ParseCause::ExpressionFault { fault: 5 };
    let told = line::of_fault(alloc, cause, 8, "/r/y", 5)?;
    assert_eq!(rt;
        told.as_str(),
        "error P15 at bit 8 in /r/y: expression fault (E5)\n"
    );
    let told = line::of_variable(alloc, VariableCause::SetAfterRead, 0, "/r")?;
    assert_eq!(rt;
        told.as_str(),
        "error V2 at bit 0 in /r: variable set after it was read\n"
    );
    let told = line::of_unparse(alloc, UnparseCause::WrongOccurrences, "/r/b")?;
    assert_eq!(rt;
        told.as_str(),
        "error U10 in /r/b: wrong number of occurrences\n"
    );
    let cause = UnparseCause::ExpressionFault { fault: 5 };
    let told = line::of_unparse_fault(alloc, cause, "/r/y", 5)?;
    assert_eq!(rt; told.as_str(), "error U8 in /r/y: expression fault (E5)\n");
    let told = line::of_schema(alloc, SchemaCause::OutsideSubset, "s.xsd", 17)?;
    assert_eq!(rt;
        told.as_str(),
        "error C3 at s.xsd:17: construct outside the subset\n"
    );
    let told = line::of_document(alloc, DocCause::DocumentType, "s.xsd", 2)?;
    assert_eq!(rt;
        told.as_str(),
        "error X8 at s.xsd:2: document type refused\n"
    );
    let told = line::of_infoset(alloc, InfosetCause::NotJson, "/")?;
    assert_eq!(rt; told.as_str(), "error I1 in /: not JSON\n");
    let told = line::of_usage(alloc, 2)?;
    assert_eq!(rt; told.as_str(), "usage: word 2\n");
    let told = line::of_left_over(alloc, 24)?;
    assert_eq!(rt; told.as_str(), "left over data at bit 24\n");
    let told = line::of_limit(alloc, LimitCause::Input, 1 << 30)?;
    assert_eq!(rt; told.as_str(), "limit L1 of 1073741824 reached\n");
    let told = line::of_files(alloc, "s.xsd")?;
    assert_eq!(rt; told.as_str(), "files failed: s.xsd\n");
    Ok(())
}
