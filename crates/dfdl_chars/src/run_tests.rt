// Runs of random bytes, made by a program in Python with seed 128: decoded at once, and one character after the other.
ghost use Rattle.std.specs.Prelude.{◌≡◌, ◌<◌};

use super::{Chars, Encoding, TextFault, decode_at, decode_run, encode_run};
use dfdl_bits::{Steps, Window};
use std::alloc::Global;
use std::marker::Brand;
use std::process::Abort;
use std::sync::ledger::{Blank, Ledger};
use std::test::Fail;

// encoding, data, end of the box in bits, how many are asked for, run
const RUNS: [(Encoding, &'static [u8], u64, usize, &'static [u8]); 40] = [
    (Encoding::UsAscii, b"\x7F\x7F\x20", 24, 7, b"\x7F\x7F\x20"),
    (
        Encoding::Iso88591,
        b"\x00\x00\x30\x30",
        37,
        7,
        b"\x00\x00\x30\x30",
    ),
    (
        Encoding::Utf16Be,
        b"\x7F\x41\x7F\xF5\x20\x20\x41\x00\x00\xF2",
        47,
        7,
        b"",
    ),
    (
        Encoding::Iso88591,
        b"\x7F\x41\x41\x30\xCA\x20\x20\x20\x9C\x20\x7F\x30",
        96,
        7,
        b"\x7F\x41\x41\x30\xCA\x20\x20",
    ),
    (
        Encoding::Iso88591,
        b"\x30\xF7\x20\x20\x30\x41\x41\x41\x7F\x41\x00\x41",
        96,
        20,
        b"\x30\xF7\x20\x20\x30\x41\x41\x41\x7F\x41\x00\x41",
    ),
    (Encoding::Iso88591, b"\x87\xD8\x7F", 24, 20, b"\x87\xD8\x7F"),
    (Encoding::Utf16Be, b"", 0, 7, b""),
    (
        Encoding::UsAscii,
        b"\x30\x41\x7F\x20\x41",
        140,
        7,
        b"\x30\x41\x7F\x20\x41",
    ),
    (
        Encoding::UsAscii,
        b"\x30\x20\x41\x7F\x20\x41\x7F\x20\x7F\x30\x41",
        188,
        20,
        b"\x30\x20\x41\x7F\x20\x41\x7F\x20\x7F\x30\x41",
    ),
    (
        Encoding::Iso88591,
        b"\x20\x7F\x7F\x41\x7F\x00\x7F",
        3,
        0,
        b"",
    ),
    (
        Encoding::Iso88591,
        b"\x41\x20\xCF\x00",
        31,
        3,
        b"\x41\x20\xCF",
    ),
    (
        Encoding::Utf8,
        b"\x7F\x20\x20\x30\x20\x20\xB0\x7F\x7F\x7F\x20\xA3",
        96,
        3,
        b"\x7F\x20\x20",
    ),
    (Encoding::Utf8, b"\x00\x7F\x30\x7F", 32, 3, b"\x00\x7F\x30"),
    (Encoding::Utf8, b"\xF6\x30\x20\x00\x00", 140, 7, b""),
    (Encoding::Utf16Be, b"\x00\xF4\x7F\x20\x7F", 140, 0, b""),
    (
        Encoding::Utf8,
        b"\x41\x41\xEF\x00\x41\xDF\xDE\x30",
        64,
        7,
        b"\x41\x41",
    ),
    (Encoding::UsAscii, b"", 0, 7, b""),
    (
        Encoding::Utf16Be,
        b"\x20\x41\x30\x00\x00\x00\x7F\x20\x41",
        71,
        0,
        b"",
    ),
    (
        Encoding::Utf8,
        b"\xC0\x20\x41\xB7\x41\xA7\x20\x7F\xB7",
        72,
        20,
        b"",
    ),
    (Encoding::Utf8, b"\x30\x41\x7F\xF7\x7F\x7F", 148, 0, b""),
    (Encoding::Utf8, b"\x30", 8, 0, b""),
    (
        Encoding::UsAscii,
        b"\x30\x30\x41\x7F",
        132,
        3,
        b"\x30\x30\x41",
    ),
    (Encoding::Iso88591, b"\x30\x7F", 16, 3, b"\x30\x7F"),
    (
        Encoding::UsAscii,
        b"\x00\x00\x20\x7F\x7F\x00\x41\x30\x00",
        17,
        3,
        b"\x00\x00",
    ),
    (Encoding::Utf8, b"\x30\x7F", 116, 20, b"\x30\x7F"),
    (Encoding::Utf16Be, b"\x20\x7F\x30", 25, 0, b""),
    (Encoding::Utf8, b"\x00\x30\x00\x20\x7F\x7F", 11, 0, b""),
    (
        Encoding::UsAscii,
        b"\x7F\xCC\x30\xDF\x20\xAE\x41",
        156,
        3,
        b"\x7F",
    ),
    (Encoding::Iso88591, b"", 7, 0, b""),
    (Encoding::UsAscii, b"\x41\x00", 116, 7, b"\x41\x00"),
    (
        Encoding::Utf8,
        b"\x20\x30\x7F\x41\x7F\x30\x30\x97\xEC\x41\x00\x00",
        35,
        0,
        b"",
    ),
    (
        Encoding::Utf8,
        b"\xDF\x20\x00\xE4\x90\xA4\x20\x91\x20\x41",
        180,
        0,
        b"",
    ),
    (Encoding::Utf8, b"\x00\x41\x20\x00", 132, 3, b"\x00\x41\x20"),
    (Encoding::Utf16Be, b"\x7F\x41\x20\x7F\x30\x30", 48, 20, b""),
    (
        Encoding::UsAscii,
        b"\xAD\x20\x41\x7F\x7F\x30\x41\x00\x20",
        24,
        3,
        b"",
    ),
    (
        Encoding::UsAscii,
        b"\x41\x00\xA9\xC4\xB7\x00\xAE\x7F\x30",
        72,
        20,
        b"\x41\x00",
    ),
    (Encoding::Utf8, b"\x41\x7F", 20, 20, b"\x41\x7F"),
    (
        Encoding::Utf16Be,
        b"\x00\x7F\x41\x41\x20\x20\x00\x7F\x00",
        72,
        3,
        b"",
    ),
    (
        Encoding::Iso88591,
        b"\x30\x00\x41\x30\x20\x30\x00\x41",
        15,
        3,
        b"\x30",
    ),
    (Encoding::UsAscii, b"\x30\x20", 16, 3, b"\x30\x20"),
];

/// Whether a run is that of the row, and each of its characters the one that stands there; and none of one byte stands
/// behind a run that is shorter than asked.
fn is_run<L: Ledger>(
    rt: &impl Abort,
    window: &Window,
    row: (Encoding, &'static [u8], u64, usize, &'static [u8]),
    steps: &mut Steps<L>,
) -> bool {
    let (enc, _, stop, most, wanted) = row;
    assert!(rt; window.base() == 0);
    let run = decode_run(enc, window, 0, stop, most, steps);
    if run != wanted {
        return false;
    }
    for (at, code) in wanted.iter().enumerate() {
        assert!(rt; at < 100);
        let place = at as u64;
        let c = char::from(*code);
        let single = decode_at(enc, window, 8 * place, stop, steps);
        if single != (Chars::Char { c, bits: 8 }, place + 1) {
            return false;
        }
    }
    assert!(rt; wanted.len() < 100);
    let (behind, _) = decode_at(enc, window, 8 * wanted.len() as u64, stop, steps);
    wanted.len() == most || !matches!(behind, Chars::Char { bits: 8, .. })
}

fn are_runs<L: Ledger>(rt: &impl Abort, alloc: Global, blank: Blank) -> Result<(), Fail>
    requires name { blank.name ≡ L.name }
    requires parts { blank.parts ≡ L.parts }
    requires some { 0 < L.parts }
{
    let mut steps = Steps::<L>::open(blank);
    for row in RUNS {
        let mut window = Window::open(alloc, 64)?;
        assert!(rt; !window.ended() && window.end() < 1000 && row.1.len() < 64);
        let _ = window.append(row.1);
        window.tell_end();
        assert!(rt; is_run(rt, &window, row, &mut steps));
    }
    Ok(())
}

#[test]
fn a_run_is_its_characters(rt: HostRuntime) -> Result<(), Fail> {
    are_runs::<Brand>(&rt, rt.alloc(), Blank::new(1))
}

#[test]
fn texts_have_the_bytes_of_their_characters(rt: HostRuntime) -> Result<(), Fail> {
    // by Python's codecs
    let rows: [(Encoding, &str, &[u8]); 7] = [
        (
            Encoding::Utf8,
            "a\u{E9}\u{20AC}\u{1F600}",
            b"\x61\xC3\xA9\xE2\x82\xAC\xF0\x9F\x98\x80",
        ),
        (Encoding::UsAscii, "Az09~", b"\x41\x7A\x30\x39\x7E"),
        (Encoding::Iso88591, "a\u{E9}\u{FF}", b"\x61\xE9\xFF"),
        (Encoding::Iso88591, "abc", b"\x61\x62\x63"),
        (
            Encoding::Utf16Be,
            "a\u{20AC}\u{1F600}",
            b"\x00\x61\x20\xAC\xD8\x3D\xDE\x00",
        ),
        (
            Encoding::Utf16Le,
            "a\u{20AC}\u{1F600}",
            b"\x61\x00\xAC\x20\x3D\xD8\x00\xDE",
        ),
        (Encoding::Utf16Le, "", b""),
    ];
    for (enc, text, wanted) in rows {
        let mut bytes = Vec::new(rt.alloc());
        bytes.push(7)?;
        assert!(rt; encode_run(enc, text, &mut bytes).is_ok());
        assert!(rt; bytes.get(1..) == Some(wanted));
    }
    let mut bytes = Vec::new(rt.alloc());
    let lacking = encode_run(Encoding::UsAscii, "a\u{80}", &mut bytes);
    assert!(rt; lacking == Err(TextFault::NoSuchChar));
    let lacking = encode_run(Encoding::Iso88591, "\u{100}", &mut bytes);
    assert!(rt; lacking == Err(TextFault::NoSuchChar));
    Ok(())
}
