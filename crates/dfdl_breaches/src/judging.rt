// What is told of a component, with its patterns.
ghost use Rattle.std.specs.Prelude.{◌≡◌, true, false, IfOk, Some};
ghost use Rattle.dfdl_length_patterns.specs.Patterns.{anchored};
ghost use Rattle.dfdl_checks.specs.JudgedShown.{judged_of};
ghost use Rattle.dfdl_checks.specs.Patterns.{form_by, length_pattern, pattern_prefix};
ghost use Rattle.dfdl_checks.specs.Tests as tested;
ghost use Rattle.dfdl_breaches.specs.BuildsShown.{IsToldBy, with_refused};
ghost use Rattle.dfdl_breaches.specs.Judging.{form_or, simple_of_kind, simple_told};
ghost use Rattle.dfdl_breaches.specs.JudgementShown.{judgement_of};

use crate::check_list::CheckList;
use crate::judgement::Judgement;
use crate::setting_list::SettingList;
use crate::test_list::TestList;
use crate::testing::tests_of;
use dfdl_checks::{
    Kind, PrefixForm, Purpose, Subject, branch_keys, breach, calculation, checks, count,
    delimiters_at, framing, initiates, is_count_parsed, key, length_pattern, measure, message_of,
    occurrences, other_representations, output_calculation, pattern_encoding, prefix, primitive,
    size_of_box, writing,
};
use dfdl_components::Site;
use dfdl_edge::{PatternRefusal, Patterns};
use dfdl_forms::{Encoding, Simple};
use dfdl_length_patterns::LengthPattern;
use dfdl_terms::{LengthUnit, PatternForm, Primitive};
use std::alloc::{AllocError, Global};

// The first of two forms that is there.
fn form_or(form: Option<PrefixForm>, other: Option<PrefixForm>) -> Option<PrefixForm>
    ensures { result ≡ form_or form other }
{
    match form {
        Some(form) => Some(form),
        None => other,
    }
}

// What tells the length of a content by this pattern, which is of this text.
fn form_by(encoding: Option<Encoding>, text: &str, pattern: LengthPattern) -> Option<PrefixForm>
    requires { pattern ≡ anchored text.now }
    ensures { result ≡ form_by encoding (Some text.now) }
{
    let _ = text;
    match encoding {
        Some(encoding) => Some(PrefixForm {
            primitive: Primitive::Pattern(PatternForm { encoding, pattern }),
            unit: LengthUnit::Bytes,
            own: 0,
        }),
        None => None,
    }
}

// The type of the values of a component of a kind, where it is one that is carried.
fn simple_of_kind(kind: Kind) -> Option<Simple>
    ensures { result ≡ simple_of_kind kind }
{
    match kind {
        Kind::SimpleElement(simple) | Kind::CalculatedElement(simple) => Some(simple),
        _ => None,
    }
}

// The same of a component as the rules see it: no expression of unparsing asks for it.
fn simple_told(subject: &Subject<'_, '_, '_>) -> Option<Simple>
    ensures { result ≡ simple_told (judged_of subject.now) }
{
    match subject.purpose {
        Purpose::Parsing => simple_of_kind(subject.kind),
        Purpose::Unparsing => None,
    }
}

// What is told of a component that hides a group or none, by what the rules see of it, its settings, its tests and its pattern.
fn told_of(
    alloc: Global,
    subject: &Subject<'_, '_, '_>,
    hidden: Option<Site>,
    settings: SettingList,
    tests: TestList,
    pattern: Option<PrefixForm>,
) -> Result<Judgement, AllocError>
    requires tests { tests ≡ tested.tests_of (judged_of subject.now) }
    requires pattern { pattern ≡ pattern_prefix (judged_of subject.now) }
    ensures { IfOk result (λ judgement. judgement ≡ judgement_of hidden settings (judged_of subject.now)) }
{
    let breach = breach(alloc, subject)?;
    let primitive = primitive(alloc, subject)?;
    let markup = delimiters_at(alloc, subject)?;
    let prefix = prefix(alloc, subject)?;
    let others = other_representations(alloc, subject)?;
    let checks = CheckList::from_vec(checks(alloc, subject)?);
    let output = message_of(alloc, output_calculation(subject))?;
    let calculation = message_of(alloc, calculation(subject))?;
    let measure = measure(alloc, subject)?;
    let count = count(alloc, subject)?;
    let key = key(alloc, subject)?;
    let keys = branch_keys(alloc, subject)?;
    let writing = writing(alloc, subject)?;
    Ok(Judgement {
        breach,
        primitive,
        simple: simple_told(subject),
        framing: framing(subject),
        markup,
        size: size_of_box(subject),
        prefix: form_or(prefix, pattern),
        others,
        occurs: occurrences(subject),
        is_parsed: is_count_parsed(subject),
        initiates: initiates(subject),
        tests,
        checks,
        output,
        settings,
        calculation,
        measure,
        count,
        key,
        keys,
        writing,
        hidden,
    })
}

// What is told of a component one of whose patterns can't be built.
fn told_of_refused(
    alloc: Global,
    subject: &Subject<'_, '_, '_>,
    hidden: Option<Site>,
    settings: SettingList,
) -> Result<Judgement, AllocError>
    ensures { IfOk result (λ judgement. judgement ≡ judgement_of hidden settings (with_refused true (judged_of subject.now))) }
{
    let subject = Subject {
        pattern_is_refused: true,
        ..*subject
    };
    let tests = TestList::from_vec(Vec::new(alloc));
    told_of(alloc, &subject, hidden, settings, tests, None)
}

// What is told of a component with these tests, whose length a pattern of this text tells.
fn judge_by<P: Patterns>(
    alloc: Global,
    subject: &Subject<'_, '_, '_>,
    hidden: Option<Site>,
    settings: SettingList,
    tests: TestList,
    text: &str,
    patterns: &mut P,
) -> Result<Judgement, AllocError>
    requires subject { subject.now.pattern_is_refused ≡ false }
    requires tests { tests ≡ tested.tests_of (judged_of subject.now) }
    requires text { Some text.now ≡ length_pattern (judged_of subject.now) }
    ensures { IsToldBy (tested.listed (length_pattern (judged_of subject.now)))
        (λ is_refused. judgement_of hidden settings (with_refused is_refused (judged_of subject.now)))
        (record { faults = P.faults patterns.old; last = P.last_refused patterns.old })
        (record { faults = P.faults patterns.new; last = P.last_refused patterns.new }) result }
{
    match LengthPattern::build(alloc, patterns, text) {
        Ok(pattern) => {
            let form = form_by(pattern_encoding(subject), text, pattern);
            told_of(alloc, subject, hidden, settings, tests, form)
        }
        Err(PatternRefusal::Refused) => told_of_refused(alloc, subject, hidden, settings),
        Err(PatternRefusal::OutOfMemory) => Err(AllocError),
    }
}

// What is told of a component with these tests. The pattern that tells its length is built.
fn judge_tested<P: Patterns>(
    alloc: Global,
    subject: &Subject<'_, '_, '_>,
    hidden: Option<Site>,
    settings: SettingList,
    tests: TestList,
    patterns: &mut P,
) -> Result<Judgement, AllocError>
    requires subject { subject.now.pattern_is_refused ≡ false }
    requires tests { tests ≡ tested.tests_of (judged_of subject.now) }
    ensures { IsToldBy (tested.listed (length_pattern (judged_of subject.now)))
        (λ is_refused. judgement_of hidden settings (with_refused is_refused (judged_of subject.now)))
        (record { faults = P.faults patterns.old; last = P.last_refused patterns.old })
        (record { faults = P.faults patterns.new; last = P.last_refused patterns.new }) result }
{
    match length_pattern(subject) {
        Some(text) => judge_by(alloc, subject, hidden, settings, tests, text, patterns),
        None => told_of(alloc, subject, hidden, settings, tests, None),
    }
}

/// What is told of a component that hides a group or none. Each of its patterns is built once, those of its tests first.
pub(crate) fn judge<P: Patterns>(
    alloc: Global,
    subject: &Subject<'_, '_, '_>,
    hidden: Option<Site>,
    settings: SettingList,
    patterns: &mut P,
) -> Result<Judgement, AllocError>
    requires { subject.now.pattern_is_refused ≡ false }
    ensures { IsToldBy (tested.patterns_of (judged_of subject.now))
        (λ is_refused. judgement_of hidden settings (with_refused is_refused (judged_of subject.now)))
        (record { faults = P.faults patterns.old; last = P.last_refused patterns.old })
        (record { faults = P.faults patterns.new; last = P.last_refused patterns.new }) result }
{
    match tests_of(alloc, subject, patterns) {
        Ok(tests) => judge_tested(alloc, subject, hidden, settings, tests, patterns),
        Err(PatternRefusal::Refused) => told_of_refused(alloc, subject, hidden, settings),
        Err(PatternRefusal::OutOfMemory) => Err(AllocError),
    }
}
