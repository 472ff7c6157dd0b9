use crate::{NumberForm, PatternFault, Point, Rounding, read_pattern};
use std::alloc::Global;
use std::test::Fail;

/// The digits of a pattern: least and greatest integer digits, group size, least and greatest fraction digits, implied.
fn digits_of(alloc: Global, text: &str) -> Result<[u16; 6], PatternFault> {
    let pattern = read_pattern(alloc, text)?;
    Ok([
        pattern.least_integer,
        pattern.greatest_integer,
        pattern.group_size,
        pattern.least_fraction,
        pattern.greatest_fraction,
        pattern.implied,
    ])
}

fn fault_of(alloc: Global, text: &str) -> Option<PatternFault> {
    match read_pattern(alloc, text) {
        Ok(_) => None,
        Err(fault) => Some(fault),
    }
}

fn malformed(at: usize) -> Option<PatternFault> {
    Some(PatternFault::Malformed { at })
}

#[test]
fn reads_digits(rt: HostRuntime) -> Result<(), Fail> {
    assert_eq!(rt; digits_of(rt.alloc(), "#,##0.00")?, [1, 4, 3, 2, 2, 0]);
    assert_eq!(rt; digits_of(rt.alloc(), "000V00")?, [3, 3, 0, 0, 0, 2]);
    assert_eq!(rt; digits_of(rt.alloc(), "#0.0#")?, [1, 2, 0, 1, 2, 0]);
    assert_eq!(rt; digits_of(rt.alloc(), "#0.")?, [1, 2, 0, 0, 0, 0]);
    assert_eq!(rt; digits_of(rt.alloc(), "#0V")?, [1, 2, 0, 0, 0, 0]);
    Ok(())
}

#[test]
fn tells_how_the_fraction_is_written(rt: HostRuntime) -> Result<(), Fail> {
    assert_eq!(rt; read_pattern(rt.alloc(), "#0")?.point, Point::Absent);
    assert_eq!(rt; read_pattern(rt.alloc(), "#0.")?.point, Point::Written);
    assert_eq!(rt; read_pattern(rt.alloc(), "#0V")?.point, Point::Implied);
    Ok(())
}

#[test]
fn reads_affixes(rt: HostRuntime) -> Result<(), Fail> {
    let signed = read_pattern(rt.alloc(), "+#0")?;
    assert_eq!(rt; signed.prefix.as_slice(), ['+'].as_slice());
    assert_eq!(rt; signed.negative_prefix.as_slice(), ['-', '+'].as_slice());
    let quoted = read_pattern(rt.alloc(), "''#0'#'")?;
    assert_eq!(rt; quoted.prefix.as_slice(), ['\''].as_slice());
    assert_eq!(rt; quoted.suffix.as_slice(), ['#'].as_slice());
    Ok(())
}

#[test]
fn refuses_other_texts(rt: HostRuntime) {
    assert_eq!(rt; fault_of(rt.alloc(), ",#0"), malformed(0));
    assert_eq!(rt; fault_of(rt.alloc(), "#,"), malformed(2));
    assert_eq!(rt; fault_of(rt.alloc(), "#,##,##0"), malformed(7));
    assert_eq!(rt;
        fault_of(rt.alloc(), "00000000000000000000000000000000000000#"),
        malformed(38)
    );
}

#[test]
fn leaves_room_for_affixes(rt: HostRuntime) -> Result<(), Fail> {
    let pattern = read_pattern(rt.alloc(), "#0;(#0\u{20AC})")?;
    assert_eq!(rt;
        pattern.negative_suffix.as_slice(),
        ['\u{20AC}', ')'].as_slice()
    );
    let form = NumberForm::new(10, Some(pattern), '.', ',', Rounding::HalfEven);
    assert_eq!(rt; form.ok_or("form")?.room(), 131);
    Ok(())
}

#[test]
fn reads_long_affixes(rt: HostRuntime) -> Result<(), Fail> {
    let mut text = String::new(rt.alloc());
    for _ in 0..100_000 {
        text.push_str("a")?;
    }
    text.push_str("0b")?;
    let pattern = read_pattern(rt.alloc(), text.as_str())?;
    assert_eq!(rt; pattern.prefix.len(), 100_000);
    assert_eq!(rt; pattern.negative_prefix.len(), 100_001);
    assert_eq!(rt; pattern.negative_suffix.as_slice(), ['b'].as_slice());
    Ok(())
}

#[test]
fn refuses_separators_that_are_digits_or_equal(rt: HostRuntime) -> Result<(), Fail> {
    let table = [
        ("#,##0.0", '.', ',', true),
        ("#,##0.0", ',', ',', false),
        ("#,##0.0", '.', '5', false),
        ("0.0", '5', ',', false),
        ("0.0", ',', ',', true),
        ("#,##0", '5', ',', true),
        ("0", '5', '5', true),
    ];
    for (text, decimal, grouping, stands) in table {
        let pattern = read_pattern(rt.alloc(), text)?;
        let form = NumberForm::new(10, Some(pattern), decimal, grouping, Rounding::Up);
        assert_eq!(rt; form.is_some(), stands, "{text} {decimal} {grouping}");
    }
    assert!(rt; NumberForm::new(10, None, '.', ',', Rounding::Up).is_none());
    assert!(rt; NumberForm::new(16, None, '.', ',', Rounding::Up).is_some());
    assert!(rt; NumberForm::new(3, None, '.', ',', Rounding::Up).is_none());
    Ok(())
}
