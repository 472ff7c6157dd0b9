use super::*;
use dfdl_edge::{MemoryPatterns, PatternRefusal, RegexPatterns};
use std::test::Fail;

// Builds a pattern and searches one text for it.
fn found(rt: &HostRuntime, pattern: &str, text: &str) -> Result<Option<PatternMatch>, Fail> {
    let mut patterns = RegexPatterns::new();
    let pattern = LengthPattern::build(rt.alloc(), &mut patterns, pattern)?;
    Ok(pattern.find(rt.alloc(), text)?)
}

fn between(begin: usize, end: usize) -> Option<PatternMatch> {
    Some(PatternMatch { begin, end })
}

#[test]
fn the_first_branch_that_matches_is_taken(rt: HostRuntime) -> Result<(), Fail> {
    assert_eq!(rt; found(&rt, "a|ab", "ab")?, between(0, 1));
    assert_eq!(rt; found(&rt, "ab|a", "ab")?, between(0, 2));
    Ok(())
}

#[test]
fn a_match_begins_with_the_text(rt: HostRuntime) -> Result<(), Fail> {
    assert_eq!(rt; found(&rt, "[a-z]*", "abc1de")?, between(0, 3));
    assert_eq!(rt; found(&rt, "[a-z]*", "1abc")?, between(0, 0));
    assert_eq!(rt; found(&rt, "[a-z]+", "1abc")?, None);
    assert_eq!(rt; found(&rt, "x|b", "ab")?, None);
    Ok(())
}

#[test]
fn places_are_told_in_bytes(rt: HostRuntime) -> Result<(), Fail> {
    assert_eq!(rt; found(&rt, ".{1,3}", "é€𝄞z")?, between(0, 9));
    assert_eq!(rt; found(&rt, ".{1,3}", "é\nz")?, between(0, 2));
    Ok(())
}

#[test]
fn a_half_outside_of_the_group_is_found_anywhere(rt: HostRuntime) -> Result<(), Fail> {
    assert_eq!(rt; found(&rt, "a)|(b", "xb")?, between(1, 2));
    assert_eq!(rt; found(&rt, "a)|(b", "xa")?, None);
    Ok(())
}

#[test]
fn one_matcher_searches_many_texts(rt: HostRuntime) -> Result<(), Fail> {
    let mut patterns = RegexPatterns::new();
    let pattern = LengthPattern::build(rt.alloc(), &mut patterns, "[0-9]+;")?;
    let mut matcher = pattern.matcher(rt.alloc())?;
    assert_eq!(rt; matcher.find("12;3;"), between(0, 3));
    assert_eq!(rt; matcher.find("12"), None);
    assert_eq!(rt; matcher.find("4;"), between(0, 2));
    Ok(())
}

#[test]
fn a_text_that_is_no_pattern_is_refused(rt: HostRuntime) -> Result<(), Fail> {
    let mut patterns = RegexPatterns::new();
    let open = LengthPattern::build(rt.alloc(), &mut patterns, "[a");
    assert_eq!(rt; open.err(), Some(PatternRefusal::Refused));
    let ahead = LengthPattern::build(rt.alloc(), &mut patterns, "a(?=b)");
    assert_eq!(rt; ahead.err(), Some(PatternRefusal::Refused));
    Ok(())
}

#[test]
fn a_build_that_is_listed_is_refused(rt: HostRuntime) -> Result<(), Fail> {
    let mut patterns = MemoryPatterns::new([2].to_vec(rt.alloc())?);
    let first = LengthPattern::build(rt.alloc(), &mut patterns, "a")?;
    let second = LengthPattern::build(rt.alloc(), &mut patterns, "b");
    assert_eq!(rt; second.err(), Some(PatternRefusal::Refused));
    assert_eq!(rt; patterns.last_refused(), Some("\\A(?:b)"));
    assert_eq!(rt; patterns.faults(), 1);
    assert_eq!(rt; first.find(rt.alloc(), "ab")?, between(0, 1));
    Ok(())
}

// How long an element is, as a schema may say it.
#[derive(Debug, Drop)]
enum Length {
    Of(u64),
    Matched(LengthPattern),
}

#[test]
fn a_pattern_is_printed_as_the_text_that_was_built(rt: HostRuntime) -> Result<(), Fail> {
    let mut patterns = RegexPatterns::new();
    let pattern = LengthPattern::build(rt.alloc(), &mut patterns, "a|b")?;
    let printed = format!(in rt.alloc(); "{:?} {:?}", Length::Of(3), Length::Matched(pattern))?;
    assert_eq!(rt;
        printed.as_str(),
        r#"Of(3) Matched(LengthPattern("\\A(?:a|b)"))"#
    );
    Ok(())
}
