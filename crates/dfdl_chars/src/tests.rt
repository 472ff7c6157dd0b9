// Bytes that a person sorted by the Unicode Standard's table, read through a window and written back.
ghost use Rattle.std.specs.Prelude.{◌≡◌, ◌<◌, ◌^◌, length};

use super::{Chars, Encoding, NoSuchChar, decode_at, encode};
use dfdl_bits::{Steps, Window};
use std::alloc::Global;
use std::marker::Brand;
use std::process::Abort;
use std::sync::ledger::{Blank, Ledger};
use std::test::Fail;

/// The characters of the bytes: a bad unit is shown as U+FFFD for each of its bytes, the end as `|`, and a byte that has not come as `~`.
fn shown<L: Ledger>(
    alloc: Global,
    enc: Encoding,
    bytes: &[u8],
    ended: bool,
    blank: Blank,
) -> Result<String, Fail>
    requires name { blank.name ≡ L.name }
    requires parts { blank.parts ≡ L.parts }
    requires some { 0 < L.parts }
    requires few { length bytes.now < 2 ^ 32 }
{
    let mut steps = Steps::<L>::open(blank);
    let mut window = Window::open(alloc, 64)?;
    let _ = window.append(bytes);
    if ended {
        window.tell_end();
    }
    let mut text = String::new(alloc);
    let mut place = 0u32;
    for _ in 0..64 {
        let (chars, _) = decode_at(enc, &window, u64::from(place) * 8, u64::MAX, &mut steps);
        match chars {
            Chars::Char { c, bits } => {
                text.push(c)?;
                place = place.wrapping_add(bits / 8);
            }
            Chars::Bad { bits } => {
                for _ in 0..bits / 8 {
                    text.push('\u{FFFD}')?;
                }
                place = place.wrapping_add(bits / 8);
            }
            Chars::End => {
                text.push('|')?;
                break;
            }
            Chars::NotYet => {
                text.push('~')?;
                break;
            }
            Chars::Over => break,
        }
    }
    Ok(text)
}

#[test]
fn characters_and_bad_units(rt: HostRuntime) -> Result<(), Fail> {
    let rows: [(Encoding, &[u8], bool, &str); 22] = [
        (Encoding::Utf8, b"\xC3\x28", true, "\u{FFFD}(|"),
        (
            Encoding::Utf8,
            b"a\xC3\xA9\xE2\x82\xAC\xF0\x9F\x98\x80",
            true,
            "a\u{E9}\u{20AC}\u{1F600}|",
        ),
        // overlong forms of two, three and four bytes
        (
            Encoding::Utf8,
            b"\xC0\x80\xC1\xBF",
            true,
            "\u{FFFD}\u{FFFD}\u{FFFD}\u{FFFD}|",
        ),
        (
            Encoding::Utf8,
            b"\xE0\x9F\xBF",
            true,
            "\u{FFFD}\u{FFFD}\u{FFFD}|",
        ),
        (
            Encoding::Utf8,
            b"\xF0\x8F\xBF\xBF",
            true,
            "\u{FFFD}\u{FFFD}\u{FFFD}\u{FFFD}|",
        ),
        // a surrogate, and what is past U+10FFFF
        (
            Encoding::Utf8,
            b"\xED\xA0\x80",
            true,
            "\u{FFFD}\u{FFFD}\u{FFFD}|",
        ),
        (
            Encoding::Utf8,
            b"\xF4\x90\x80\x80",
            true,
            "\u{FFFD}\u{FFFD}\u{FFFD}\u{FFFD}|",
        ),
        (Encoding::Utf8, b"\xF5\x80", true, "\u{FFFD}\u{FFFD}|"),
        // the greatest and the least of each length
        (
            Encoding::Utf8,
            b"\x7F\xC2\x80\xDF\xBF",
            true,
            "\u{7F}\u{80}\u{7FF}|",
        ),
        (
            Encoding::Utf8,
            b"\xE0\xA0\x80\xED\x9F\xBF\xEE\x80\x80\xEF\xBF\xBF",
            true,
            "\u{800}\u{D7FF}\u{E000}\u{FFFF}|",
        ),
        (
            Encoding::Utf8,
            b"\xF0\x90\x80\x80\xF4\x8F\xBF\xBF",
            true,
            "\u{10000}\u{10FFFF}|",
        ),
        // cut sequences, and bytes that only go on
        (Encoding::Utf8, b"\xE2\x82", true, "\u{FFFD}\u{FFFD}|"),
        (Encoding::Utf8, b"\xE2\x82", false, "~"),
        (
            Encoding::Utf8,
            b"\xF0\x9F\x98A",
            true,
            "\u{FFFD}\u{FFFD}\u{FFFD}A|",
        ),
        (Encoding::Utf8, b"\x80\xBFA", true, "\u{FFFD}\u{FFFD}A|"),
        (Encoding::UsAscii, b"A\x80", true, "A\u{FFFD}|"),
        (Encoding::Iso88591, b"\xE9\xFF", true, "\u{E9}\u{FF}|"),
        (
            Encoding::Utf16Be,
            b"\x00A\xD8\x3D\xDE\x00",
            true,
            "A\u{1F600}|",
        ),
        (
            Encoding::Utf16Le,
            b"A\x00\x3D\xD8\x00\xDE",
            true,
            "A\u{1F600}|",
        ),
        // a lone low surrogate, a high one before another unit, and a unit that is cut
        (
            Encoding::Utf16Be,
            b"\xDC\x00\xD8\x3D\x00AB",
            true,
            "\u{FFFD}\u{FFFD}\u{FFFD}\u{FFFD}A\u{FFFD}|",
        ),
        (Encoding::Utf16Be, b"\xD8\x3D\xDE", false, "~"),
        (
            Encoding::Utf16Be,
            b"\xD8\x3D\xDE",
            true,
            "\u{FFFD}\u{FFFD}\u{FFFD}|",
        ),
    ];
    for (enc, bytes, ended, wanted) in rows {
        let text = shown::<Brand>(rt.alloc(), enc, bytes, ended, Blank::new(1))?;
        assert_eq!(rt; text.as_str(), wanted);
    }
    Ok(())
}

/// Whether each byte is a bad unit of its own, as UTF-8.
fn are_bad_bytes<L: Ledger>(alloc: Global, bytes: &[u8], blank: Blank) -> Result<bool, Fail>
    requires name { blank.name ≡ L.name }
    requires parts { blank.parts ≡ L.parts }
    requires some { 0 < L.parts }
    requires few { length bytes.now < 2 ^ 32 }
{
    let mut steps = Steps::<L>::open(blank);
    let mut window = Window::open(alloc, 64)?;
    let _ = window.append(bytes);
    window.tell_end();
    for place in 0..bytes.len() as u64 {
        let (chars, _) = decode_at(Encoding::Utf8, &window, place * 8, u64::MAX, &mut steps);
        if chars != (Chars::Bad { bits: 8 }) {
            return Ok(false);
        }
    }
    Ok(true)
}

#[test]
fn malformed_sequences_are_bad_byte_by_byte(rt: HostRuntime) -> Result<(), Fail> {
    let rows: [&[u8]; 13] = [
        b"\xC0\x80",
        b"\xE0\x80\x80",
        b"\xF0\x80\x80\x80",
        b"\xED\xA0\x80",
        b"\xED\xBF\xBF",
        b"\xF4\x90\x80\x80",
        b"\xF5\x80\x80\x80",
        b"\xF8\x88\x80\x80\x80",
        b"\xFE\xFF",
        b"\x80\xBF",
        b"\xC3",
        b"\xE2\x82",
        b"\xF0\x9F\x98",
    ];
    for bytes in rows {
        assert!(rt; are_bad_bytes::<Brand>(rt.alloc(), bytes, Blank::new(1))?);
    }
    Ok(())
}

fn pieces<L: Ledger>(rt: &impl Abort, alloc: Global, blank: Blank) -> Result<(), Fail>
    requires name { blank.name ≡ L.name }
    requires parts { blank.parts ≡ L.parts }
    requires some { 0 < L.parts }
{
    let mut steps = Steps::<L>::open(blank);
    let mut window = Window::open(alloc, 4)?;
    let _ = window.append(b"\xD8\x3D\xDE");
    let cut = decode_at(Encoding::Utf16Be, &window, 0, 64, &mut steps);
    assert!(rt; cut == (Chars::NotYet, 4));
    let _ = window.append(b"\x00A");
    let pair = decode_at(Encoding::Utf16Be, &window, 0, 64, &mut steps);
    assert!(rt;
        pair == (
            Chars::Char {
                c: '\u{1F600}',
                bits: 32
            },
            4
        )
    );
    // The box ends within the second byte, which is not looked at.
    let boxed = decode_at(Encoding::Utf16Be, &window, 0, 12, &mut steps);
    assert!(rt; boxed == (Chars::Bad { bits: 8 }, 1));
    assert!(rt; decode_at(Encoding::Utf8, &window, 8, 12, &mut steps) == (Chars::End, 0));
    // The window holds no byte past the fourth.
    let past = decode_at(Encoding::Utf16Le, &window, 24, 64, &mut steps);
    assert!(rt; past == (Chars::Over, 4));
    Ok(())
}

#[test]
fn a_pair_in_pieces_and_the_end_of_a_box(rt: HostRuntime) -> Result<(), Fail> {
    pieces::<Brand>(&rt, rt.alloc(), Blank::new(1))
}

#[test]
fn bytes_of_characters(rt: HostRuntime) {
    let rows: [(Encoding, char, &[u8]); 8] = [
        (Encoding::Utf8, 'A', b"A"),
        (Encoding::Utf8, '\u{7FF}', b"\xDF\xBF"),
        (Encoding::Utf8, '\u{20AC}', b"\xE2\x82\xAC"),
        (Encoding::Utf8, '\u{10FFFF}', b"\xF4\x8F\xBF\xBF"),
        (Encoding::UsAscii, '\u{7F}', b"\x7F"),
        (Encoding::Iso88591, '\u{FF}', b"\xFF"),
        (Encoding::Utf16Be, '\u{1F600}', b"\xD8\x3D\xDE\x00"),
        (Encoding::Utf16Le, '\u{20AC}', b"\xAC\x20"),
    ];
    for (enc, c, wanted) in rows {
        let mut room = [0; 4];
        let count = encode(enc, c, &mut room).unwrap_or(0);
        assert!(rt; room.get(..count) == Some(wanted));
    }
    let mut room = [7; 4];
    assert!(rt; encode(Encoding::UsAscii, '\u{80}', &mut room) == Err(NoSuchChar));
    assert!(rt; encode(Encoding::Iso88591, '\u{100}', &mut room) == Err(NoSuchChar));
    assert!(rt; room == [7; 4]);
}
