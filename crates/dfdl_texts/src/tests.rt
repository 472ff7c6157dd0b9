// Texts whose characters follow from the tables of the encodings, read through a window.
ghost use Rattle.std.specs.Prelude.{◌≡◌, ◌<◌};

use crate::{Extent, Found, Glance, laws, read_text};
use dfdl_bits::{Steps, Window};
use dfdl_chars::Encoding;
use std::alloc::Global;
use std::marker::Brand;
use std::process::Abort;
use std::sync::ledger::{Blank, Ledger};
use std::test::Fail;

/// What the text that begins at byte `byte` comes to; with no characters, if it doesn't read.
fn read_in<L: Ledger>(
    rt: &impl Abort,
    alloc: Global,
    text: (Encoding, bool, Extent),
    bytes: &[u8],
    ended: bool,
    byte: u8,
    stop: u64,
    blank: Blank,
) -> Result<(String, Glance), Fail>
    requires name { blank.name ≡ L.name }
    requires parts { blank.parts ≡ L.parts }
    requires some { 0 < L.parts }
{
    let (enc, replaces, extent) = text;
    let mut steps = Steps::<L>::open(blank);
    let mut window = Window::open(alloc, 12)?;
    assert!(rt; bytes.len() <= 12);
    let _ = window.append(bytes);
    if ended {
        window.tell_end();
    }
    assert!(rt; window.base() == 0);
    let mut into = Vec::new(alloc);
    into.push('x')?;
    let byte = u64::from(byte);
    let glance = read_text(
        enc, replaces, extent, &window, byte, stop, &mut into, &mut steps,
    )?;
    let mut read = String::new(alloc);
    if let Found::Reads { .. } = glance.found {
        for c in &into {
            read.push(*c)?;
        }
    }
    Ok((read, glance))
}

#[test]
fn texts_in_a_box(rt: HostRuntime) -> Result<(), Fail> {
    let utf8 = Encoding::Utf8;
    let big = Encoding::Utf16Be;
    let little = Encoding::Utf16Le;
    let rows: [(Encoding, bool, &[u8], u64, &str, (Found, u64)); 12] = [
        (
            utf8,
            false,
            b"a\xC3\xA9\xE2\x82\xAC\xF0\x9F\x98\x80",
            80,
            "a\u{E9}\u{20AC}\u{1F600}",
            (Found::Reads { end: 10 }, 10),
        ),
        (
            utf8,
            true,
            b"\xC3\x28",
            16,
            "\u{FFFD}(",
            (Found::Reads { end: 2 }, 2),
        ),
        (utf8, false, b"\xC3\x28", 16, "", (Found::HasBad, 2)),
        // a sequence that the box cuts off, and one that the data cut off
        (
            utf8,
            true,
            b"\xE2\x82\xAC",
            23,
            "\u{FFFD}\u{FFFD}",
            (Found::Reads { end: 2 }, 2),
        ),
        (utf8, true, b"\xE2\x82", 24, "", (Found::IsCut, 3)),
        (utf8, false, b"\xE2\x82", 24, "", (Found::HasBad, 3)),
        // a pair of surrogates, a lone one, and a unit that is cut off
        (
            big,
            false,
            b"\x00A\xD8\x3D\xDE\x00",
            48,
            "A\u{1F600}",
            (Found::Reads { end: 6 }, 6),
        ),
        (
            little,
            false,
            b"A\x00\x3D\xD8\x00\xDE",
            48,
            "A\u{1F600}",
            (Found::Reads { end: 6 }, 6),
        ),
        (
            big,
            true,
            b"\xDC\x00\x00A",
            32,
            "\u{FFFD}A",
            (Found::Reads { end: 4 }, 4),
        ),
        (big, false, b"\xDC\x00\x00A", 32, "", (Found::HasBad, 2)),
        (
            big,
            true,
            b"\x00AB",
            24,
            "A\u{FFFD}",
            (Found::Reads { end: 3 }, 3),
        ),
        // no byte of the text lies in the box
        (utf8, false, b"ab", 7, "", (Found::Reads { end: 0 }, 0)),
    ];
    for (enc, replaces, bytes, stop, text, wanted) in rows {
        let asked = (enc, replaces, Extent::Box);
        let (read, glance) = read_in::<Brand>(
            &rt,
            rt.alloc(),
            asked,
            bytes,
            true,
            0,
            stop,
            Blank::new(1),
        )?;
        assert!(rt; read.as_str() == text && (glance.found, glance.far) == wanted);
    }
    Ok(())
}

#[test]
fn counted_texts(rt: HostRuntime) -> Result<(), Fail> {
    let utf8 = Encoding::Utf8;
    let ascii = Encoding::UsAscii;
    let latin = Encoding::Iso88591;
    let rows: [(Encoding, u64, &[u8], bool, u64, &str, (Found, u64)); 9] = [
        (
            utf8,
            3,
            b"a\xC3\xA9bc",
            true,
            64,
            "a\u{E9}b",
            (Found::Reads { end: 4 }, 4),
        ),
        (
            latin,
            2,
            b"\xE9bc",
            true,
            64,
            "\u{E9}b",
            (Found::Reads { end: 2 }, 2),
        ),
        (utf8, 0, b"ab", true, 0, "", (Found::Reads { end: 0 }, 0)),
        // two bad units, the second look for which finds the end of the data
        (
            utf8,
            2,
            b"\xE2\x82",
            true,
            64,
            "\u{FFFD}\u{FFFD}",
            (Found::Reads { end: 2 }, 3),
        ),
        // the box ends early, and the data
        (ascii, 3, b"abc", true, 23, "", (Found::IsBoxed, 2)),
        (ascii, 3, b"ab", true, 64, "", (Found::IsCut, 3)),
        // bytes that haven't come, and one that the window has no room for
        (ascii, 3, b"ab", false, 64, "", (Found::NotYet, 2)),
        (utf8, 2, b"a\xE2\x82", false, 64, "", (Found::NotYet, 3)),
        (
            ascii,
            13,
            b"abcdefghijkl",
            false,
            104,
            "",
            (Found::TooFar, 12),
        ),
    ];
    for (enc, count, bytes, ended, stop, text, wanted) in rows {
        let asked = (enc, true, Extent::Characters(count));
        let (read, glance) = read_in::<Brand>(
            &rt,
            rt.alloc(),
            asked,
            bytes,
            ended,
            0,
            stop,
            Blank::new(1),
        )?;
        assert!(rt; read.as_str() == text && (glance.found, glance.far) == wanted);
    }
    Ok(())
}

#[test]
fn a_text_begins_at_its_byte(rt: HostRuntime) -> Result<(), Fail> {
    let asked = (Encoding::Utf8, false, Extent::Box);
    let (read, glance) = read_in::<Brand>(
        &rt,
        rt.alloc(),
        asked,
        b"\xFF\xFFabc",
        false,
        2,
        37,
        Blank::new(1),
    )?;
    assert!(rt;
        read.as_str() == "ab" && (glance.found, glance.far) == (Found::Reads { end: 4 }, 4)
    );
    Ok(())
}

#[test]
fn laws_are_there(_rt: HostRuntime) {
    laws::units_are_decoded();
    laws::texts_begin();
    laws::texts_end();
    laws::texts_are_characters();
    laws::texts_are_read_back();
}
