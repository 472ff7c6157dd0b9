// The tests of expressions of components.
ghost use Rattle.std.specs.Prelude.{◌≡◌, ◌++◌, IfOk, OnOk, Some, map, option_copied};
ghost use Rattle.dfdl_checks.specs.JudgedShown.{judged_of, test_judged_of};
ghost use Rattle.dfdl_checks.specs.Tests as spec;

use crate::subject::{StatedTest, Subject};
use crate::tests::{is_expression_test, tests_for};
use dfdl_value::TextValue;
use std::alloc::{AllocError, Global};

/// A test of an expression, of which the text alone is known ('DFDL Schema Component Model', on asserts and discriminators).
#[derive(Debug, Drop)]
pub struct CheckForm {
    /// The number of the document that it stands in.
    pub document: u32,
    /// Its element there.
    pub element: u32,
    /// Where it holds, it resolves the innermost point of uncertainty: it is a discriminator, and else an assert.
    pub discriminates: bool,
    /// The text of its expression.
    pub text: TextValue,
    /// What the schema says of a test that fails.
    pub message: Option<TextValue>,
}

/// The tests of expressions of a component, in their order; for unparsing there are none.
pub fn checks(alloc: Global, subject: &Subject<'_, '_, '_>) -> Result<Vec<CheckForm>, AllocError>
    ensures { IfOk result (λ checks. checks.items ≡ spec.checks_of (judged_of subject.now)) }
{
    checks_by(alloc, tests_for(subject.purpose, subject.tests))
}

/// The message of a test, where there is one.
pub fn message_of(alloc: Global, message: Option<&str>) -> Result<Option<TextValue>, AllocError>
    ensures { IfOk result (λ made. made ≡ option_copied message.entry) }
{
    match message {
        Some(message) => Ok(Some(TextValue::from_str(alloc, message)?)),
        None => Ok(None),
    }
}

// Those of these tests that are of expressions.
fn checks_by(alloc: Global, tests: &[StatedTest<'_>]) -> Result<Vec<CheckForm>, AllocError>
    ensures { IfOk result (λ checks. checks.items ≡ spec.checks_by (map test_judged_of tests.now)) }
{
    let mut checks = Vec::new(alloc);
    for test in tests {
        push_check(alloc, test, &mut checks)?;
    }
    Ok(checks)
}

// Adds a test, if it is of an expression.
fn push_check(
    alloc: Global,
    test: &StatedTest<'_>,
    checks: &mut Vec<CheckForm>,
) -> Result<(), AllocError>
    ensures { OnOk result (checks.new.items ≡ checks.old.items ++ spec.check_of (test_judged_of test.now)) }
{
    match check_text(test) {
        Some(text) => push_text(alloc, test, text, checks),
        None => Ok(()),
    }
}

// The text of the expression of a test, if it is one of an expression.
fn check_text<'c>(test: &StatedTest<'c>) -> Option<&'c str>
    ensures { option_copied result ≡ spec.check_text (test_judged_of test.now) }
{
    if is_expression_test(test) {
        test.test
    } else {
        None
    }
}

// Adds a test of an expression of this text.
fn push_text(
    alloc: Global,
    test: &StatedTest<'_>,
    text: &str,
    checks: &mut Vec<CheckForm>,
) -> Result<(), AllocError>
    ensures { OnOk result (checks.new.items ≡ checks.old.items ++ spec.check_by (test_judged_of test.now) (Some text.now)) }
{
    let text = TextValue::from_str(alloc, text)?;
    let message = message_of(alloc, test.message)?;
    checks.push(CheckForm {
        document: test.document,
        element: test.element,
        discriminates: test.discriminates,
        text,
        message,
    })?;
    Ok(())
}
