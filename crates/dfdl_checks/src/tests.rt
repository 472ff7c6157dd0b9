// The asserts and discriminators of components.
ghost use Rattle.std.specs.Prelude.{◌≡◌, length, map, nat_lt, option_copied};
ghost use Rattle.std.specs.List.{list_any};
ghost use Rattle.dfdl_checks.specs.JudgedShown.{judged_of, test_judged_of};
ghost use Rattle.dfdl_checks.specs.Tests as spec;

use crate::purpose::Purpose;
use crate::subject::{StatedTest, Subject};

/// Whether it is a test of a pattern.
pub fn is_pattern_test(test: &StatedTest<'_>) -> bool
    ensures { result ≡ spec.is_pattern_test (test_judged_of test.now) }
{
    is_this(test.kind, "pattern")
}

/// The pattern that is built of a test.
pub fn test_pattern<'c>(test: &StatedTest<'c>) -> Option<&'c str>
    ensures { option_copied result ≡ spec.test_pattern (test_judged_of test.now) }
{
    if is_pattern_test(test) {
        test.pattern
    } else {
        None
    }
}

/// The tests that are built for a purpose.
pub fn tests_for<'p, 'c>(purpose: Purpose, tests: &'p [StatedTest<'c>]) -> &'p [StatedTest<'c>]
    ensures { map test_judged_of result.now ≡ spec.tests_for purpose (map test_judged_of tests.now) }
{
    match purpose {
        Purpose::Parsing => tests,
        Purpose::Unparsing => &[],
    }
}

/// Whether a word that may be lacking is this one.
fn is_this(text: Option<&str>, word: &str) -> bool
    ensures { result ≡ spec.is_this word.now (option_copied text.entry) }
{
    match text {
        Some(text) => text == word,
        None => false,
    }
}

/// Whether it is a test of an expression.
pub(crate) fn is_expression_test(test: &StatedTest<'_>) -> bool
    ensures { result ≡ spec.is_expression_test (test_judged_of test.now) }
{
    test.kind.is_none() || is_this(test.kind, "expression")
}

/// Whether it is a test of another kind, or with another type of failure than processingError.
fn is_test_other(test: &StatedTest<'_>) -> bool
    ensures { result ≡ spec.is_test_other (test_judged_of test.now) }
{
    !(is_pattern_test(test) || is_expression_test(test))
        || (test.failure.is_some() && !is_this(test.failure, "processingError"))
}

/// Whether it is a test of a pattern that gives none, or one of an expression that gives none.
fn is_without_text(test: &StatedTest<'_>) -> bool
    ensures { result ≡ spec.is_without_text (test_judged_of test.now) }
{
    (is_pattern_test(test) && test.pattern.is_none())
        || (is_expression_test(test) && test.test.is_none())
}

/// Whether one of some tests is of a pattern.
fn some_by_pattern(tests: &[StatedTest<'_>]) -> bool
    ensures { result ≡ list_any spec.is_pattern_test (map test_judged_of tests.now) }
{
    for test in tests {
        if is_pattern_test(test) {
            return true;
        }
    }
    false
}

/// Whether one of some tests is of a pattern or of an expression and has none.
fn some_without_text(tests: &[StatedTest<'_>]) -> bool
    ensures { result ≡ list_any spec.is_without_text (map test_judged_of tests.now) }
{
    for test in tests {
        if is_without_text(test) {
            return true;
        }
    }
    false
}

/// Whether one of some tests has a kind that is none, or a failure that is to be recovered from.
fn some_other(tests: &[StatedTest<'_>]) -> bool
    ensures { result ≡ list_any spec.is_test_other (map test_judged_of tests.now) }
{
    for test in tests {
        if is_test_other(test) {
            return true;
        }
    }
    false
}

/// Whether one of some tests is a discriminator.
fn some_discriminator(tests: &[StatedTest<'_>]) -> bool
    ensures { result ≡ list_any spec.is_discriminator (map test_judged_of tests.now) }
{
    for test in tests {
        if test.discriminates {
            return true;
        }
    }
    false
}

/// Whether one of a component's tests is of a pattern.
pub(crate) fn is_tested(subject: &Subject<'_, '_, '_>) -> bool
    ensures { result ≡ spec.is_tested (judged_of subject.now) }
{
    some_by_pattern(subject.tests)
}

/// Whether a component has a statement that is built later, as for unparsing each is.
pub(crate) fn has_later_statements(subject: &Subject<'_, '_, '_>) -> bool
    ensures { result ≡ spec.has_later_statements subject.now.purpose (judged_of subject.now) }
{
    match subject.purpose {
        Purpose::Parsing => false,
        Purpose::Unparsing => {
            subject.facts.opens_instances
                || subject.sets_variables
                || has_more_than(subject.tests, 0)
        }
    }
}

/// Whether there are more tests than so many.
fn has_more_than(tests: &[StatedTest<'_>], count: usize) -> bool
    ensures { result ≡ nat_lt count (length (map test_judged_of tests.now)) }
{
    tests.len() > count
}

/// Whether one of a component's tests is of a pattern or of an expression and has none.
pub(crate) fn is_test_text_missing(subject: &Subject<'_, '_, '_>) -> bool
    ensures { result ≡ spec.is_test_text_missing (judged_of subject.now) }
{
    some_without_text(subject.tests)
}

/// Whether one of a component's tests has a kind that is none, or a failure that is to be recovered from.
pub(crate) fn are_tests_other(subject: &Subject<'_, '_, '_>) -> bool
    ensures { result ≡ spec.are_tests_other (judged_of subject.now) }
{
    some_other(subject.tests)
}

/// Whether a component has a discriminator beside another test.
pub(crate) fn are_tests_together(subject: &Subject<'_, '_, '_>) -> bool
    ensures { result ≡ spec.are_tests_together (judged_of subject.now) }
{
    has_more_than(subject.tests, 1) && some_discriminator(subject.tests)
}
