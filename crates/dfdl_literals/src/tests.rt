// Lists as they are read, and where they are refused.
#![tactic(auto)]

use crate::{
    FillByte, LiteralFault, PadCharacter, Piece, PlainFault, TextList, can_match_nothing,
    fill_byte, pad_character, plain_texts, read_literals, text_list,
};
use std::test::Fail;

#[test]
fn names(rt: HostRuntime) -> Result<(), Fail> {
    let table = [
        ("%NUL;", '\u{0}'),
        ("%SOH;", '\u{1}'),
        ("%STX;", '\u{2}'),
        ("%ETX;", '\u{3}'),
        ("%EOT;", '\u{4}'),
        ("%ENQ;", '\u{5}'),
        ("%ACK;", '\u{6}'),
        ("%BEL;", '\u{7}'),
        ("%BS;", '\u{8}'),
        ("%HT;", '\u{9}'),
        ("%LF;", '\u{a}'),
        ("%VT;", '\u{b}'),
        ("%FF;", '\u{c}'),
        ("%CR;", '\u{d}'),
        ("%SO;", '\u{e}'),
        ("%SI;", '\u{f}'),
        ("%DLE;", '\u{10}'),
        ("%DC1;", '\u{11}'),
        ("%DC2;", '\u{12}'),
        ("%DC3;", '\u{13}'),
        ("%DC4;", '\u{14}'),
        ("%NAK;", '\u{15}'),
        ("%SYN;", '\u{16}'),
        ("%ETB;", '\u{17}'),
        ("%CAN;", '\u{18}'),
        ("%EM;", '\u{19}'),
        ("%SUB;", '\u{1a}'),
        ("%ESC;", '\u{1b}'),
        ("%FS;", '\u{1c}'),
        ("%GS;", '\u{1d}'),
        ("%RS;", '\u{1e}'),
        ("%US;", '\u{1f}'),
        ("%SP;", '\u{20}'),
        ("%DEL;", '\u{7f}'),
        ("%NEL;", '\u{85}'),
        ("%NBSP;", '\u{a0}'),
        ("%LS;", '\u{2028}'),
    ];
    for (text, character) in table {
        let literals = read_literals(rt.alloc(), text, false)?;
        assert_eq!(rt; literals.len(), 1);
        assert_eq!(rt; literals.pieces(0), [Piece::Char(character)].as_slice());
    }
    Ok(())
}

#[test]
fn pieces(rt: HostRuntime) -> Result<(), Fail> {
    let literals = read_literals(
        rt.alloc(),
        " a%%%#65;\t%#x1F600;%#rFe;%NL;%WSP;%WSP+;%WSP*;  %ES; ",
        true,
    )?;
    assert_eq!(rt; literals.len(), 3);
    assert_eq!(rt;
        literals.pieces(0),
        [Piece::Char('a'), Piece::Char('%'), Piece::Char('A')].as_slice()
    );
    assert_eq!(rt;
        literals.pieces(1),
        [
            Piece::Char('\u{1f600}'),
            Piece::Byte(0xfe),
            Piece::NewLine,
            Piece::Space,
            Piece::Spaces,
            Piece::MaybeSpaces
        ]
        .as_slice()
    );
    assert_eq!(rt; literals.pieces(2), [Piece::Nothing].as_slice());
    assert!(rt; can_match_nothing(&literals));
    Ok(())
}

#[test]
fn faults(rt: HostRuntime) -> Result<(), Fail> {
    let table = [
        ("%%; %NL;", false, LiteralFault::Malformed { at: 2 }),
        ("%WSP*;", false, LiteralFault::MatchesNothing),
        ("a %WSP*;%WSP*; b", false, LiteralFault::MatchesNothing),
        ("%#x110000;", false, LiteralFault::Malformed { at: 8 }),
        ("%#55296;", false, LiteralFault::Malformed { at: 7 }),
        ("\u{e9}%\u{e9}", false, LiteralFault::Malformed { at: 3 }),
        ("a%ES;", true, LiteralFault::Malformed { at: 4 }),
        ("%ES;", false, LiteralFault::Malformed { at: 3 }),
        ("%NL", true, LiteralFault::Malformed { at: 3 }),
    ];
    for (text, empty_allowed, expected) in table {
        match read_literals(rt.alloc(), text, empty_allowed) {
            Ok(_) => assert!(rt; false, "{text} was read"),
            Err(fault) => assert_eq!(rt; fault, expected),
        }
    }
    Ok(())
}

#[test]
fn texts_of_literals(rt: HostRuntime) -> Result<(), Fail> {
    let literals = read_literals(rt.alloc(), "yes %#x4A;a %%", false)?;
    let texts = plain_texts(rt.alloc(), &literals)?;
    assert_eq!(rt; texts.len(), 3);
    assert_eq!(rt; texts.text(1), ['J', 'a'].as_slice());
    assert_eq!(rt; texts.text(2), ['%'].as_slice());
    for text in ["y%NL;", "n %#rFF;", "%WSP;", ""] {
        let literals = read_literals(rt.alloc(), text, false)?;
        match plain_texts(rt.alloc(), &literals) {
            Ok(_) => assert!(rt; false, "{text}"),
            Err(fault) => assert_eq!(rt; fault, PlainFault::NotPlain),
        }
    }
    Ok(())
}

#[test]
fn a_long_list(rt: HostRuntime) -> Result<(), Fail> {
    let mut text = String::new(rt.alloc());
    for _ in 0..3000 {
        text.push_str("ab%SP; ")?;
    }
    let literals = read_literals(rt.alloc(), text.as_str(), false)?;
    assert_eq!(rt; literals.len(), 3000);
    let copy = literals.copy(rt.alloc())?;
    assert_eq!(rt; copy.pieces(2999), literals.pieces(2999));
    let texts = plain_texts(rt.alloc(), &copy)?;
    assert_eq!(rt; texts.text(2999), ['a', 'b', ' '].as_slice());
    Ok(())
}

#[test]
fn pad_characters(rt: HostRuntime) -> Result<(), Fail> {
    let table = [
        ("0", '0'),
        ("\u{e9}", '\u{e9}'),
        (";", ';'),
        ("%%", '%'),
        ("%SP;", ' '),
        ("%NBSP;", '\u{a0}'),
        ("%#233;", '\u{e9}'),
        ("%#xE9;", '\u{e9}'),
        ("%#x10FFFF;", '\u{10ffff}'),
    ];
    for (text, character) in table {
        assert_eq!(rt; pad_character(text), PadCharacter::Character(character));
        let literals = read_literals(rt.alloc(), text, true)?;
        assert_eq!(rt; literals.len(), 1);
        assert_eq!(rt; literals.pieces(0), [Piece::Char(character)].as_slice());
    }
    Ok(())
}

#[test]
fn no_pad_characters(rt: HostRuntime) -> Result<(), Fail> {
    let table = [
        "", " ", "\t", " 0", "0 ", "%SP; ", "00", "%SP;%SP;", "0 0", "%#r30;", "%NL;", "%WSP;",
        "%WSP+;", "%WSP*;", "%ES;", "0 %ES;",
    ];
    for text in table {
        assert_eq!(rt; pad_character(text), PadCharacter::Other);
        assert!(rt; read_literals(rt.alloc(), text, true).is_ok());
    }
    Ok(())
}

#[test]
fn malformed_pad_characters(rt: HostRuntime) -> Result<(), Fail> {
    let table = [
        ("%", 1),
        ("%;", 1),
        ("% ", 1),
        ("%SP", 3),
        ("%sp;", 1),
        ("%NBSPX;", 5),
        ("%%;", 2),
        ("%#;", 2),
        ("%#xD800;", 7),
        ("0%ES;", 4),
        ("%ES;0", 4),
    ];
    for (text, at) in table {
        assert_eq!(rt; pad_character(text), PadCharacter::Malformed);
        match read_literals(rt.alloc(), text, true) {
            Ok(_) => assert!(rt; false, "{text} was read"),
            Err(fault) => assert_eq!(rt; fault, LiteralFault::Malformed { at }),
        }
    }
    Ok(())
}

#[test]
fn lists_of_texts(rt: HostRuntime) -> Result<(), Fail> {
    match text_list(rt.alloc(), "yes Y\t%SP;t%%\n1 ")? {
        TextList::Texts(texts) => {
            assert_eq!(rt; texts.len(), 4);
            assert_eq!(rt; texts.text(0), ['y', 'e', 's'].as_slice());
            assert_eq!(rt; texts.text(1), ['Y'].as_slice());
            assert_eq!(rt; texts.text(2), [' ', 't', '%'].as_slice());
            assert_eq!(rt; texts.text(3), ['1'].as_slice());
        }
        _ => assert!(rt; false),
    }
    Ok(())
}

#[test]
fn no_lists_of_texts(rt: HostRuntime) -> Result<(), Fail> {
    for text in ["", " \t", "y%NL;", "y n%WSP;", "%WSP+;", "%WSP*;", "%#r41;"] {
        assert!(rt;
            matches!(text_list(rt.alloc(), text)?, TextList::Other),
            "{text}"
        );
    }
    for text in ["%ES;", "y %ES;", "a%", "%yes;", "%%;"] {
        assert!(rt;
            matches!(text_list(rt.alloc(), text)?, TextList::Malformed),
            "{text}"
        );
    }
    Ok(())
}

#[test]
fn fill_bytes(rt: HostRuntime) -> Result<(), Fail> {
    let table = [
        ("x", 0x78),
        (";", 0x3b),
        ("%%", 0x25),
        ("%SP;", 0x20),
        ("%NUL;", 0),
        ("%DEL;", 0x7f),
        ("%#65;", 0x41),
        ("%#x41;", 0x41),
        ("%#r00;", 0),
        ("%#r80;", 0x80),
        ("%#rFf;", 0xff),
    ];
    for (text, byte) in table {
        assert_eq!(rt; fill_byte(text), FillByte::Byte(byte));
    }
    Ok(())
}

#[test]
fn no_fill_bytes(rt: HostRuntime) -> Result<(), Fail> {
    let others = [
        "",
        " ",
        "\t",
        " x",
        "x ",
        "%#r00; ",
        "xx",
        "x y",
        "%#r00;%#r00;",
        "x%#r00;",
        "\u{e9}",
        "%#x80;",
        "%#128;",
        "%NEL;",
        "%NL;",
        "%WSP;",
        "%WSP+;",
        "%WSP*;",
    ];
    for text in others {
        assert_eq!(rt; fill_byte(text), FillByte::Other);
    }
    let malformed = [
        "%",
        "%%;",
        "%#r0;",
        "%#r000;",
        "%#rG0;",
        "%#x110000;",
        "%ES;",
        "x %ES;",
    ];
    for text in malformed {
        assert_eq!(rt; fill_byte(text), FillByte::Malformed);
    }
    Ok(())
}
