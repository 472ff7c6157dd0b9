// Numbers of bit ranges, computed by an independent program, and a window fed in pieces.
ghost use Rattle.std.specs.Prelude.{◌≡◌, ◌<◌};

use crate::*;
use BitOrder::{LeastFirst, MostFirst};
use ByteOrder::{Big, Little};
use std::alloc::Global;
use std::marker::Brand;
use std::process::Abort;
use std::sync::ledger::{Blank, Ledger};
use std::test::Fail;

const DATA: [u8; 20] = [
    0xFD, 0xF3, 0xA8, 0x0E, 0x4B, 0x5C, 0x5C, 0xE0, 0x4C, 0xCB, 0x74, 0x82, 0x1A, 0xAE, 0x7B, 0xF0,
    0x9D, 0x9D, 0x75, 0x4E,
];

// first bit, bits, byte order, bit order, number of these bits of DATA
const NUMBERS: [(u8, u8, ByteOrder, BitOrder, u128); 60] = [
    (0, 0, Little, LeastFirst, 0x0),
    (3, 1, Little, LeastFirst, 0x1),
    (0, 8, Big, MostFirst, 0xFD),
    (0, 8, Little, MostFirst, 0xFD),
    (0, 8, Little, LeastFirst, 0xFD),
    (7, 8, Big, MostFirst, 0xF9),
    (7, 8, Little, MostFirst, 0xF9),
    (7, 8, Little, LeastFirst, 0xE7),
    (5, 3, Big, MostFirst, 0x5),
    (5, 3, Little, MostFirst, 0x5),
    (5, 3, Little, LeastFirst, 0x7),
    (2, 5, Big, MostFirst, 0x1E),
    (2, 5, Little, MostFirst, 0x1E),
    (2, 5, Little, LeastFirst, 0x1F),
    (0, 16, Big, MostFirst, 0xFDF3),
    (0, 16, Little, MostFirst, 0xF3FD),
    (0, 16, Little, LeastFirst, 0xF3FD),
    (16, 32, Big, MostFirst, 0xA80E4B5C),
    (16, 32, Little, MostFirst, 0x5C4B0EA8),
    (16, 32, Little, LeastFirst, 0x5C4B0EA8),
    (24, 64, Big, MostFirst, 0xE4B5C5CE04CCB74),
    (24, 64, Little, MostFirst, 0x74CB4CE05C5C4B0E),
    (24, 64, Little, LeastFirst, 0x74CB4CE05C5C4B0E),
    (8, 128, Big, MostFirst, 0xF3A80E4B5C5CE04CCB74821AAE7BF09D),
    (
        8,
        128,
        Little,
        MostFirst,
        0x9DF07BAE1A8274CB4CE05C5C4B0EA8F3,
    ),
    (
        8,
        128,
        Little,
        LeastFirst,
        0x9DF07BAE1A8274CB4CE05C5C4B0EA8F3,
    ),
    (32, 128, Big, MostFirst, 0x4B5C5CE04CCB74821AAE7BF09D9D754E),
    (
        32,
        128,
        Little,
        MostFirst,
        0x4E759D9DF07BAE1A8274CB4CE05C5C4B,
    ),
    (
        32,
        128,
        Little,
        LeastFirst,
        0x4E759D9DF07BAE1A8274CB4CE05C5C4B,
    ),
    (3, 16, Big, MostFirst, 0xEF9D),
    (3, 16, Little, MostFirst, 0x9DEF),
    (3, 16, Little, LeastFirst, 0x1E7F),
    (13, 31, Big, MostFirst, 0x3A80E4B5),
    (13, 31, Little, MostFirst, 0x35C90175),
    (13, 31, Little, LeastFirst, 0x62587547),
    (1, 63, Big, MostFirst, 0x7DF3A80E4B5C5CE0),
    (1, 63, Little, MostFirst, 0x60B9B8961C50E7FB),
    (1, 63, Little, LeastFirst, 0x702E2E25875479FE),
    (5, 128, Big, MostFirst, 0xBE7501C96B8B9C09996E904355CF7E13),
    (
        5,
        128,
        Little,
        MostFirst,
        0x137ECF5543906E99099C8B6BC90175BE,
    ),
    (
        5,
        128,
        Little,
        LeastFirst,
        0xEF83DD70D413A65A6702E2E25875479F,
    ),
    (31, 127, Big, MostFirst, 0x12D717381332DD2086AB9EFC27675D53),
    (
        31,
        127,
        Little,
        MostFirst,
        0x53BACE4EF83D570D41BA6526702EAE25,
    ),
    (
        31,
        127,
        Little,
        LeastFirst,
        0x1CEB3B3BE0F75C3504E99699C0B8B896,
    ),
    (29, 12, Big, MostFirst, 0xC96),
    (29, 12, Little, MostFirst, 0x6C9),
    (29, 12, Little, LeastFirst, 0x258),
    (160, 0, Little, LeastFirst, 0x0),
    (0, 12, Big, MostFirst, 0xFDF),
    (0, 12, Little, MostFirst, 0xFFD),
    (0, 12, Little, LeastFirst, 0x3FD),
    (64, 24, Big, MostFirst, 0x4CCB74),
    (64, 24, Little, MostFirst, 0x74CB4C),
    (64, 24, Little, LeastFirst, 0x74CB4C),
    (64, 20, Big, MostFirst, 0x4CCB7),
    (64, 20, Little, MostFirst, 0x7CB4C),
    (64, 20, Little, LeastFirst, 0x4CB4C),
    (150, 10, Big, MostFirst, 0x14E),
    (150, 10, Little, MostFirst, 0x253),
    (150, 10, Little, LeastFirst, 0x139),
];

#[test]
fn numbers_of_ranges_are_read(rt: HostRuntime) {
    let data = DATA;
    for (bit, len, bytes_by, bits_by, number) in NUMBERS {
        assert!(rt; len <= 128);
        assert!(rt; u32::from(bit) + u32::from(len) <= 160);
        let read = number_at(&data, u64::from(bit), u32::from(len), bytes_by, bits_by);
        assert_eq!(rt;
            read,
            number,
            "{len} bits at {bit}, {bytes_by:?}, {bits_by:?}"
        );
    }
}

#[test]
fn numbers_of_ranges_are_written_and_other_bits_stay(rt: HostRuntime) {
    for (bit, len, bytes_by, bits_by, _) in NUMBERS {
        assert!(rt; len <= 128);
        assert!(rt; u32::from(bit) + u32::from(len) <= 160);
        let (bit, len) = (u64::from(bit), u32::from(len));
        // The same number written over its own bits changes nothing.
        let mut data = DATA;
        let read = number_at(&data, bit, len, bytes_by, bits_by);
        put_number(&mut data, bit, len, read, bytes_by, bits_by);
        assert!(rt;
            data == DATA,
            "{len} bits at {bit}, {bytes_by:?}, {bits_by:?}"
        );
    }
}

#[test]
fn three_bytes_are_two_numbers_of_twelve_bits(rt: HostRuntime) {
    let falling = [0xAB, 0xCD, 0xEF];
    assert_eq!(rt; number_at(&falling, 0, 12, Big, MostFirst), 2748);
    assert_eq!(rt; number_at(&falling, 12, 12, Big, MostFirst), 3567);
    let rising = [0x21, 0x43, 0x65];
    assert_eq!(rt; number_at(&rising, 0, 12, Little, LeastFirst), 801);
    assert_eq!(rt; number_at(&rising, 12, 12, Little, LeastFirst), 1620);
    assert_eq!(rt; number_at(&[0xAB, 0xC0], 0, 12, Little, MostFirst), 3243);

    let mut bytes = [0, 0, 0];
    put_number(&mut bytes, 0, 12, 2748, Big, MostFirst);
    put_number(&mut bytes, 12, 12, 3567, Big, MostFirst);
    assert!(rt; bytes == [0xAB, 0xCD, 0xEF]);
    let mut bytes = [0xFF, 0xFF, 0xFF];
    put_number(&mut bytes, 4, 12, 0, Little, MostFirst);
    assert!(rt; bytes == [0xF0, 0x00, 0xFF]);

    assert_eq!(rt; nibble_at(&falling, 4, 2, MostFirst), 0xD);
    assert_eq!(rt; nibble_at(&rising, 4, 2, LeastFirst), 0x4);
    put_nibble(&mut bytes, 4, 1, 0xA, MostFirst);
    assert!(rt; bytes == [0xF0, 0xA0, 0xFF]);
    put_pair(&mut bytes, 4, 1, 0x1, 0x2, MostFirst);
    assert!(rt; bytes == [0xF0, 0xA1, 0x2F]);
    put_pair(&mut bytes, 0, 0, 0x3, 0x4, LeastFirst);
    assert!(rt; bytes == [0x43, 0xA1, 0x2F]);
    put_pair(&mut bytes, 2, 1, 0x1, 0x2, LeastFirst);
    assert!(rt; bytes == [0x43, 0x85, 0x2C]);
}

#[test]
fn a_window_slides_over_pieces(rt: HostRuntime) -> Result<(), Fail> {
    slide::<Brand>(&rt, rt.alloc(), Blank::new(1))
}

fn slide<L: Ledger>(rt: &impl Abort, alloc: Global, blank: Blank) -> Result<(), Fail>
    requires name { blank.name ≡ L.name }
    requires parts { blank.parts ≡ L.parts }
    requires some { 0 < L.parts }
{
    let mut steps = Steps::<L>::open(blank);
    let mut window = Window::open(alloc, 4)?;
    assert_eq!(rt; window.append(b"abcdef"), 4);
    assert_eq!(rt; window.look(3, &mut steps), Seen::Byte(b'd'));
    assert_eq!(rt; window.look(4, &mut steps), Seen::Over);
    window.drop_before(3);
    assert_eq!(rt; window.append(b"ef"), 2);
    assert_eq!(rt; window.look(5, &mut steps), Seen::Byte(b'f'));
    assert_eq!(rt; window.look(6, &mut steps), Seen::NotYet);
    window.drop_after(4);
    assert_eq!(rt; window.append(b"xyz!"), 3);
    assert_eq!(rt; window.look(4, &mut steps), Seen::Byte(b'x'));
    assert_eq!(rt; window.look(6, &mut steps), Seen::Byte(b'z'));
    window.drop_before(5);
    window.tell_end();
    assert_eq!(rt; window.look(7, &mut steps), Seen::End);
    assert_eq!(rt; window.look(9, &mut steps), Seen::Over);
    assert_eq!(rt; (window.base(), window.end()), (5, 7));
    Ok(())
}

#[test]
fn a_set_has_its_bytes(rt: HostRuntime) -> Result<(), Fail> {
    let set = ByteSet::of(b'/').or(ByteSet::of(0)).or(ByteSet::of(191));
    assert!(rt; set.has(0) && set.has(b'/') && set.has(191));
    assert!(rt; !set.has(1) && !set.has(b'o') && !set.has(127) && !set.has(255));
    assert!(rt; ByteSet::high().has(128) && !ByteSet::high().has(127) && !ByteSet::none().has(64));
    Ok(())
}
