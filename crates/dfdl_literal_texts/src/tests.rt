// Texts of literals, in bytes that were written out by hand.
#![tactic(auto)]

use crate::{Encoding, Literals, Piece, is_repeated, is_text_of_any};
use std::alloc::{AllocError, Global};
use std::test::Fail;

// Whether the bytes are a text of one literal of these pieces.
fn is_text(
    alloc: Global,
    encoding: Encoding,
    fold: bool,
    pieces: &[Piece],
    bytes: &[u8],
) -> Result<bool, AllocError> {
    let mut literals = Vec::new(alloc);
    literals.push(Vec::from_slice(alloc, pieces)?)?;
    let mut places = Vec::new(alloc);
    is_text_of_any(encoding, fold, &Literals::new(literals), bytes, &mut places)
}

#[test]
fn characters(rt: HostRuntime) -> Result<(), Fail> {
    let e_acute = [Piece::Char('\u{e9}')];
    assert!(rt; is_text(rt.alloc(), Encoding::Utf8, false, &e_acute, b"\xc3\xa9")?);
    assert!(rt; !is_text(rt.alloc(), Encoding::Utf8, false, &e_acute, b"\xc3")?);
    assert!(rt; !is_text(rt.alloc(), Encoding::Utf8, false, &e_acute, b"\xc3\xa9\xa9")?);
    assert!(rt; is_text(rt.alloc(), Encoding::Iso88591, false, &e_acute, b"\xe9")?);
    assert!(rt; !is_text(rt.alloc(), Encoding::UsAscii, false, &e_acute, b"\xe9")?);
    assert!(rt; is_text(rt.alloc(), Encoding::Utf16Be, false, &e_acute, b"\0\xe9")?);
    assert!(rt; is_text(rt.alloc(), Encoding::Utf16Le, false, &e_acute, b"\xe9\0")?);
    assert!(rt;
        is_text(
            rt.alloc(),
            Encoding::Utf16Be,
            false,
            &[Piece::Char('\u{1f600}')],
            b"\xd8\x3d\xde\0"
        )?
    );
    Ok(())
}

#[test]
fn cases(rt: HostRuntime) -> Result<(), Fail> {
    let nil = [Piece::Char('n'), Piece::Char('I'), Piece::Char('l')];
    assert!(rt; is_text(rt.alloc(), Encoding::Utf8, false, &nil, b"nIl")?);
    assert!(rt; !is_text(rt.alloc(), Encoding::Utf8, false, &nil, b"NIL")?);
    assert!(rt; is_text(rt.alloc(), Encoding::Utf8, true, &nil, b"NIL")?);
    assert!(rt; is_text(rt.alloc(), Encoding::Utf16Le, true, &nil, b"N\0i\0L\0")?);
    // Cases of ASCII letters alone, and of no raw byte.
    assert!(rt;
        !is_text(
            rt.alloc(),
            Encoding::Iso88591,
            true,
            &[Piece::Char('\u{e9}')],
            b"\xc9"
        )?
    );
    assert!(rt; !is_text(rt.alloc(), Encoding::Utf8, true, &[Piece::Char('@')], b"`")?);
    assert!(rt; !is_text(rt.alloc(), Encoding::Utf8, true, &[Piece::Char('[')], b"{")?);
    assert!(rt; !is_text(rt.alloc(), Encoding::Utf8, true, &[Piece::Byte(0x61)], b"A")?);
    Ok(())
}

#[test]
fn raw_bytes(rt: HostRuntime) -> Result<(), Fail> {
    let pieces = [Piece::Byte(0xff), Piece::Char('a'), Piece::Byte(0)];
    assert!(rt; is_text(rt.alloc(), Encoding::Utf8, false, &pieces, b"\xffa\0")?);
    assert!(rt; is_text(rt.alloc(), Encoding::Utf16Be, false, &pieces, b"\xff\0a\0")?);
    assert!(rt; !is_text(rt.alloc(), Encoding::Utf8, false, &pieces, b"\xfea\0")?);
    assert!(rt; !is_text(rt.alloc(), Encoding::Utf8, false, &pieces, b"\xffa")?);
    Ok(())
}

#[test]
fn line_breaks(rt: HostRuntime) -> Result<(), Fail> {
    let utf8 = [
        b"\r\n".as_slice(),
        b"\n",
        b"\r",
        b"\xc2\x85",
        b"\xe2\x80\xa8",
    ];
    for bytes in utf8 {
        assert!(rt; is_text(rt.alloc(), Encoding::Utf8, false, &[Piece::NewLine], bytes)?);
    }
    let none = [b"".as_slice(), b"\n\r", b"\r\n\n", b"\x85", b"\x0b", b" "];
    for bytes in none {
        assert!(rt; !is_text(rt.alloc(), Encoding::Utf8, false, &[Piece::NewLine], bytes)?);
    }
    assert!(rt;
        is_text(
            rt.alloc(),
            Encoding::Iso88591,
            false,
            &[Piece::NewLine],
            b"\x85"
        )?
    );
    assert!(rt;
        !is_text(
            rt.alloc(),
            Encoding::UsAscii,
            false,
            &[Piece::NewLine],
            b"\x85"
        )?
    );
    assert!(rt;
        is_text(
            rt.alloc(),
            Encoding::Utf16Be,
            false,
            &[Piece::NewLine],
            b"\0\r\0\n"
        )?
    );
    assert!(rt;
        is_text(
            rt.alloc(),
            Encoding::Utf16Le,
            false,
            &[Piece::NewLine],
            b"\x28\x20"
        )?
    );
    // One break, or two.
    let two = [Piece::NewLine, Piece::NewLine];
    assert!(rt; is_text(rt.alloc(), Encoding::Utf8, false, &two, b"\r\n")?);
    assert!(rt; is_text(rt.alloc(), Encoding::Utf8, false, &two, b"\r\n\r\n")?);
    assert!(rt; !is_text(rt.alloc(), Encoding::Utf8, false, &two, b"\n")?);
    Ok(())
}

#[test]
fn white_space(rt: HostRuntime) -> Result<(), Fail> {
    let ones = [
        b"\t".as_slice(),
        b"\n",
        b"\r",
        b" ",
        b"\xc2\xa0",
        b"\xe1\xa0\x8e",
        b"\xe3\x80\x80",
    ];
    for bytes in ones {
        assert!(rt; is_text(rt.alloc(), Encoding::Utf8, false, &[Piece::Space], bytes)?);
        assert!(rt; is_text(rt.alloc(), Encoding::Utf8, false, &[Piece::Spaces], bytes)?);
        assert!(rt;
            is_text(
                rt.alloc(),
                Encoding::Utf8,
                false,
                &[Piece::MaybeSpaces],
                bytes
            )?
        );
    }
    let others = [b"a".as_slice(), b"\xa0", b"\xe2\x80\x8b", b"  a", b"\x1f"];
    for bytes in others {
        assert!(rt; !is_text(rt.alloc(), Encoding::Utf8, false, &[Piece::Spaces], bytes)?);
        assert!(rt;
            !is_text(
                rt.alloc(),
                Encoding::Utf8,
                false,
                &[Piece::MaybeSpaces],
                bytes
            )?
        );
    }
    assert!(rt; !is_text(rt.alloc(), Encoding::Utf8, false, &[Piece::Space], b"  ")?);
    assert!(rt;
        is_text(
            rt.alloc(),
            Encoding::Utf8,
            false,
            &[Piece::Spaces],
            b" \r\n\t \xe3\x80\x80 "
        )?
    );
    assert!(rt; !is_text(rt.alloc(), Encoding::Utf8, false, &[Piece::Spaces], b"")?);
    assert!(rt;
        is_text(
            rt.alloc(),
            Encoding::Utf8,
            false,
            &[Piece::MaybeSpaces],
            b""
        )?
    );
    assert!(rt;
        is_text(
            rt.alloc(),
            Encoding::Utf16Be,
            false,
            &[Piece::Spaces],
            b"\0 \x20\x09"
        )?
    );
    Ok(())
}

#[test]
fn white_space_before_others(rt: HostRuntime) -> Result<(), Fail> {
    let pieces = [Piece::MaybeSpaces, Piece::Char(' '), Piece::Char('a')];
    assert!(rt; is_text(rt.alloc(), Encoding::Utf8, false, &pieces, b" a")?);
    assert!(rt; is_text(rt.alloc(), Encoding::Utf8, false, &pieces, b" \t  a")?);
    assert!(rt; !is_text(rt.alloc(), Encoding::Utf8, false, &pieces, b"a")?);
    assert!(rt; !is_text(rt.alloc(), Encoding::Utf8, false, &pieces, b" \ta")?);
    let between = [
        Piece::Char('a'),
        Piece::Spaces,
        Piece::NewLine,
        Piece::MaybeSpaces,
    ];
    assert!(rt; is_text(rt.alloc(), Encoding::Utf8, false, &between, b"a \r\n")?);
    assert!(rt; is_text(rt.alloc(), Encoding::Utf8, false, &between, b"a\r\n")?);
    assert!(rt; !is_text(rt.alloc(), Encoding::Utf8, false, &between, b"a\n")?);
    Ok(())
}

#[test]
fn nothing(rt: HostRuntime) -> Result<(), Fail> {
    assert!(rt; is_text(rt.alloc(), Encoding::Utf8, false, &[Piece::Nothing], b"")?);
    assert!(rt; !is_text(rt.alloc(), Encoding::Utf8, false, &[Piece::Nothing], b" ")?);
    let mut places = Vec::new(rt.alloc());
    let none = Literals::new(Vec::new(rt.alloc()));
    assert!(rt; !is_text_of_any(Encoding::Utf8, false, &none, b"", &mut places)?);
    Ok(())
}

#[test]
fn several_literals(rt: HostRuntime) -> Result<(), Fail> {
    let mut list = Vec::new(rt.alloc());
    list.push(Vec::from_slice(rt.alloc(), &[Piece::Char('n'), Piece::Char('a')])?)?;
    list.push(Vec::from_slice(rt.alloc(), &[Piece::Nothing])?)?;
    list.push(Vec::from_slice(rt.alloc(), &[Piece::Char('-')])?)?;
    let literals = Literals::new(list);
    let mut places = Vec::new(rt.alloc());
    assert!(rt; is_text_of_any(Encoding::Utf8, false, &literals, b"na", &mut places)?);
    assert!(rt; is_text_of_any(Encoding::Utf8, false, &literals, b"", &mut places)?);
    assert!(rt; is_text_of_any(Encoding::Utf8, false, &literals, b"-", &mut places)?);
    assert!(rt; !is_text_of_any(Encoding::Utf8, false, &literals, b"n", &mut places)?);
    assert!(rt; !is_text_of_any(Encoding::Utf8, false, &literals, b"na-", &mut places)?);
    Ok(())
}

#[test]
fn repeated(rt: HostRuntime) -> Result<(), Fail> {
    assert!(rt; is_repeated(Encoding::Utf8, false, ' ', b" "));
    assert!(rt; is_repeated(Encoding::Utf8, false, ' ', b"    "));
    assert!(rt; !is_repeated(Encoding::Utf8, false, ' ', b""));
    assert!(rt; !is_repeated(Encoding::Utf8, false, ' ', b"  x"));
    assert!(rt; is_repeated(Encoding::Utf8, false, '\u{e9}', b"\xc3\xa9\xc3\xa9"));
    assert!(rt; !is_repeated(Encoding::Utf8, false, '\u{e9}', b"\xc3\xa9\xc3"));
    assert!(rt; !is_repeated(Encoding::UsAscii, false, '\u{e9}', b"\xe9"));
    assert!(rt; is_repeated(Encoding::Utf8, true, 'n', b"nNNn"));
    assert!(rt; !is_repeated(Encoding::Utf8, false, 'n', b"nNNn"));
    assert!(rt; is_repeated(Encoding::Utf16Be, true, 'N', b"\0n\0N"));
    assert!(rt; !is_repeated(Encoding::Utf16Be, true, 'N', b"\0n\0"));
    Ok(())
}
