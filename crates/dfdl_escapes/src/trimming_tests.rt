// Contents that a person trimmed.
#![tactic(auto)]

use crate::{Character, laws, trim_content};
use dfdl_forms::{Justify, PadForm};

fn plain(c: char) -> Character {
    Character {
        c,
        is_escaped: false,
    }
}

fn escaped(c: char) -> Character {
    Character {
        c,
        is_escaped: true,
    }
}

fn by(justify: Justify, trim: char, keeps_zero: bool) -> PadForm {
    PadForm {
        justify,
        pad: Some(trim),
        trim: Some(trim),
        truncate: false,
        keeps_zero,
    }
}

#[test]
fn trimming_stops_at_escaped_characters(rt: HostRuntime) {
    laws::contents_without_escapes_are_trimmed_as_texts();
    laws::escaped_characters_stay();
    let content = [
        plain('*'),
        escaped('*'),
        plain('a'),
        plain('*'),
        escaped('*'),
        plain('*'),
        plain('*'),
    ];
    assert!(rt; trim_content(&by(Justify::Left, '*', false), &content) == (0, 5));
    assert!(rt; trim_content(&by(Justify::Right, '*', false), &content) == (1, 7));
    assert!(rt; trim_content(&by(Justify::Center, '*', false), &content) == (1, 5));
}

#[test]
fn one_zero_is_kept_of_zeros(rt: HostRuntime) {
    let zeros = [plain('0'), plain('0'), plain('0')];
    assert!(rt; trim_content(&by(Justify::Left, '0', true), &zeros) == (0, 1));
    assert!(rt; trim_content(&by(Justify::Right, '0', true), &zeros) == (2, 3));
    assert!(rt; trim_content(&by(Justify::Center, '0', true), &zeros) == (2, 3));
    assert!(rt; trim_content(&by(Justify::Left, '0', false), &zeros) == (0, 0));
    assert!(rt; trim_content(&by(Justify::Right, '0', true), &[]) == (0, 0));
    let one = [plain('0'), escaped('0'), plain('0')];
    assert!(rt; trim_content(&by(Justify::Right, '0', true), &one) == (1, 3));
    assert!(rt; trim_content(&by(Justify::Center, '0', true), &one) == (1, 2));
}
