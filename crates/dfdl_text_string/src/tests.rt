// Texts that a person padded, cut and matched.
#![tactic(auto)]

use crate::{
    Justify, NoTruth, PadForm, PlainTexts, TooLong, TruthForm, cut, laws, pad, read_truth, trim,
    truth_length, write_truth,
};
use std::alloc::Global;
use std::test::Fail;

fn stars(justify: Justify, truncate: bool) -> PadForm {
    PadForm {
        justify,
        pad: Some('*'),
        trim: Some('*'),
        truncate,
        keeps_zero: false,
    }
}

#[test]
fn padded_texts(rt: HostRuntime) {
    laws::padding_is_trimmed();
    let rows = [
        (Justify::Left, ['a', 'b', '*', '*', '*'], 0),
        (Justify::Right, ['*', '*', '*', 'a', 'b'], 3),
        (Justify::Center, ['*', 'a', 'b', '*', '*'], 1),
    ];
    for (justify, wanted, begin) in rows {
        let mut chars = ['a', 'b', '.', '.', '.'];
        assert!(rt; pad(&stars(justify, false), 2, &mut chars) == begin);
        assert!(rt; chars == wanted);
    }
    let bare = PadForm {
        justify: Justify::Right,
        pad: None,
        trim: None,
        truncate: false,
        keeps_zero: false,
    };
    let mut chars = ['a', '.'];
    assert!(rt; pad(&bare, 1, &mut chars) == 0);
    assert!(rt; chars == ['a', '.']);
}

#[test]
fn trimmed_texts(rt: HostRuntime) {
    let text = ['*', 'a', '*', 'b', '*', '*'];
    assert!(rt; trim(&stars(Justify::Left, false), &text) == (0, 4));
    assert!(rt; trim(&stars(Justify::Right, false), &text) == (1, 6));
    assert!(rt; trim(&stars(Justify::Center, false), &text) == (1, 4));
    let none = ['*', '*', '*'];
    assert!(rt; trim(&stars(Justify::Left, false), &none) == (0, 0));
    assert!(rt; trim(&stars(Justify::Right, false), &none) == (3, 3));
    assert!(rt; trim(&stars(Justify::Center, false), &none) == (3, 3));
}

#[test]
fn cut_texts(rt: HostRuntime) {
    assert!(rt; cut(&stars(Justify::Left, true), 5, 3) == Ok((0, 3)));
    assert!(rt; cut(&stars(Justify::Center, true), 5, 3) == Ok((0, 3)));
    assert!(rt; cut(&stars(Justify::Right, true), 5, 3) == Ok((2, 5)));
    assert!(rt; cut(&stars(Justify::Right, false), 3, 3) == Ok((0, 3)));
    assert!(rt; cut(&stars(Justify::Left, false), 5, 3) == Err(TooLong));
}

// A text number whose pad character is a zero.
fn zeros(justify: Justify) -> PadForm {
    PadForm {
        justify,
        pad: Some('0'),
        trim: Some('0'),
        truncate: false,
        keeps_zero: true,
    }
}

#[test]
fn one_zero_is_kept(rt: HostRuntime) {
    let none = ['0', '0', '0'];
    assert!(rt; trim(&zeros(Justify::Left), &none) == (0, 1));
    assert!(rt; trim(&zeros(Justify::Right), &none) == (2, 3));
    assert!(rt; trim(&zeros(Justify::Center), &none) == (2, 3));
    assert!(rt; trim(&zeros(Justify::Right), &['0', '0', '7']) == (2, 3));
    assert!(rt; trim(&zeros(Justify::Right), &[]) == (0, 0));
    let string = PadForm {
        keeps_zero: false,
        ..zeros(Justify::Right)
    };
    assert!(rt; trim(&string, &none) == (3, 3));
}

fn texts(alloc: Global, words: &[&str]) -> Result<PlainTexts, Fail> {
    let mut texts = Vec::new(alloc);
    for word in words {
        let mut text = Vec::new(alloc);
        for c in word.chars() {
            text.push(c)?;
        }
        texts.push(text)?;
    }
    Ok(PlainTexts::new(texts).ok_or("no texts")?)
}

fn form(alloc: Global, truths: &[&str], falses: &[&str], fold: bool) -> Result<TruthForm, Fail> {
    Ok(TruthForm {
        truths: texts(alloc, truths)?,
        falses: texts(alloc, falses)?,
        fold,
    })
}

#[test]
fn truths_and_falses(rt: HostRuntime) -> Result<(), Fail> {
    let exact = form(rt.alloc(), &["true", "1"], &["false", "0", "1"], false)?;
    laws::truth_is_read_back(&exact);
    assert!(rt; read_truth(&exact, &['t', 'r', 'u', 'e']) == Ok(true));
    assert!(rt; read_truth(&exact, &['1']) == Ok(true));
    assert!(rt; read_truth(&exact, &['0']) == Ok(false));
    assert!(rt; read_truth(&exact, &['T', 'R', 'U', 'E']) == Err(NoTruth));
    assert!(rt; read_truth(&exact, &['0', '0']) == Err(NoTruth));
    assert!(rt; read_truth(&exact, &[]) == Err(NoTruth));
    let folded = form(rt.alloc(), &["true", "1"], &["false", "0"], true)?;
    assert!(rt; read_truth(&folded, &['T', 'R', 'U', 'E']) == Ok(true));
    assert!(rt; read_truth(&folded, &['F', 'a', 'l', 's', 'e']) == Ok(false));
    Ok(())
}

#[test]
fn written_truths(rt: HostRuntime) -> Result<(), Fail> {
    let form = form(rt.alloc(), &["y\n", "1"], &["n o\u{E9}"], false)?;
    let mut into = ['.', '.', '.', '.', '.'];
    assert!(rt; truth_length(&form, true) == 2);
    assert!(rt; write_truth(&form, true, &mut into) == 2);
    assert!(rt; into == ['y', '\n', '.', '.', '.']);
    assert!(rt; truth_length(&form, false) == 4);
    assert!(rt; write_truth(&form, false, &mut into) == 4);
    assert!(rt; into == ['n', ' ', 'o', '\u{E9}', '.']);
    Ok(())
}

// A text of 5,000 characters that differs from the text of true in its last.
#[test]
fn long_texts(rt: HostRuntime) -> Result<(), Fail> {
    let mut word = String::new(rt.alloc());
    let mut chars = Vec::new(rt.alloc());
    for _ in 0..5000 {
        word.push('y')?;
        chars.push('y')?;
    }
    let form = form(rt.alloc(), &[word.as_str()], &["no"], false)?;
    assert!(rt; read_truth(&form, &chars) == Ok(true));
    let _ = chars.pop();
    chars.push('z')?;
    assert!(rt; read_truth(&form, &chars) == Err(NoTruth));
    Ok(())
}
