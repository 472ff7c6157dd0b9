// The tests of components that are built.
ghost use Rattle.std.specs.Prelude.{◌≡◌, ◌++◌, ◌∷◌, [], OnOk, Some, map};
ghost use Rattle.dfdl_length_patterns.specs.Patterns.{anchored};
ghost use Rattle.dfdl_checks.specs.JudgedShown.{judged_of, test_judged_of};
ghost use Rattle.dfdl_checks.specs.Patterns as texts;
ghost use Rattle.dfdl_checks.specs.Tests as spec;
ghost use Rattle.dfdl_breaches.specs.BuildsShown.{BuildsBehind, BuildsTo};

use crate::test_list::TestList;
use dfdl_checks::{StatedTest, Subject, message_of, pattern_encoding, test_pattern, tests_for};
use dfdl_edge::{PatternRefusal, Patterns};
use dfdl_forms::Encoding;
use dfdl_length_patterns::LengthPattern;
use dfdl_terms::{PatternForm, PatternTest};
use std::alloc::{AllocError, Global};

// Adds a test of this pattern, which is of this text, where its encoding is told.
fn push_built(
    alloc: Global,
    encoding: Option<Encoding>,
    test: &StatedTest<'_>,
    text: &str,
    pattern: LengthPattern,
    built: &mut Vec<PatternTest>,
) -> Result<(), AllocError>
    requires { pattern ≡ anchored text.now }
    ensures { OnOk result (built.new.items ≡ built.old.items ++ spec.test_by (test_judged_of test.now) encoding (Some text.now)) }
{
    let _ = text;
    let Some(encoding) = encoding else {
        return Ok(());
    };
    let message = message_of(alloc, test.message)?;
    built.push(PatternTest {
        form: PatternForm { encoding, pattern },
        discriminates: test.discriminates,
        message,
    })?;
    Ok(())
}

// Adds what is built of a test with a pattern of this text.
fn build_text<P: Patterns>(
    alloc: Global,
    encoding: Option<Encoding>,
    test: &StatedTest<'_>,
    text: &str,
    patterns: &mut P,
    built: &mut Vec<PatternTest>,
) -> Result<(), PatternRefusal>
    ensures { BuildsBehind (spec.test_by (test_judged_of test.now) encoding (Some text.now)) (text.now ∷ [])
        (record { faults = P.faults patterns.old; last = P.last_refused patterns.old })
        (record { faults = P.faults patterns.new; last = P.last_refused patterns.new }) built.old.items built.new.items result }
{
    match LengthPattern::build(alloc, patterns, text) {
        Ok(pattern) => match push_built(alloc, encoding, test, text, pattern, built) {
            Ok(()) => Ok(()),
            Err(_) => Err(PatternRefusal::OutOfMemory),
        },
        Err(PatternRefusal::Refused) => Err(PatternRefusal::Refused),
        Err(PatternRefusal::OutOfMemory) => Err(PatternRefusal::OutOfMemory),
    }
}

// Adds what is built of a test.
fn build_test<P: Patterns>(
    alloc: Global,
    encoding: Option<Encoding>,
    test: &StatedTest<'_>,
    patterns: &mut P,
    built: &mut Vec<PatternTest>,
) -> Result<(), PatternRefusal>
    ensures { BuildsBehind (spec.built_of_test encoding (test_judged_of test.now)) (spec.pattern_listed (test_judged_of test.now))
        (record { faults = P.faults patterns.old; last = P.last_refused patterns.old })
        (record { faults = P.faults patterns.new; last = P.last_refused patterns.new }) built.old.items built.new.items result }
{
    match test_pattern(test) {
        Some(text) => build_text(alloc, encoding, test, text, patterns, built),
        None => Ok(()),
    }
}

// What is built of tests, whose data are read in this encoding.
fn build_tests<P: Patterns>(
    alloc: Global,
    encoding: Option<Encoding>,
    tests: &[StatedTest<'_>],
    patterns: &mut P,
) -> Result<TestList, PatternRefusal>
    ensures { BuildsTo (spec.tests_by encoding (map test_judged_of tests.now)) (spec.test_patterns (map test_judged_of tests.now))
        (record { faults = P.faults patterns.old; last = P.last_refused patterns.old })
        (record { faults = P.faults patterns.new; last = P.last_refused patterns.new }) result }
{
    let mut built = Vec::new(alloc);
    for test in tests {
        match build_test(alloc, encoding, test, patterns, &mut built) {
            Ok(()) => {}
            Err(refusal) => return Err(refusal),
        }
    }
    Ok(TestList::from_vec(built))
}

/// The tests of a component that are built for its purpose, one after another.
pub(crate) fn tests_of<P: Patterns>(
    alloc: Global,
    subject: &Subject<'_, '_, '_>,
    patterns: &mut P,
) -> Result<TestList, PatternRefusal>
    ensures { BuildsTo (spec.tests_by (texts.pattern_encoding (judged_of subject.now)) (spec.tests_for subject.now.purpose (judged_of subject.now).tests))
        (spec.test_patterns (spec.tests_for subject.now.purpose (judged_of subject.now).tests))
        (record { faults = P.faults patterns.old; last = P.last_refused patterns.old })
        (record { faults = P.faults patterns.new; last = P.last_refused patterns.new }) result }
{
    let tests = tests_for(subject.purpose, subject.tests);
    build_tests(alloc, pattern_encoding(subject), tests, patterns)
}
