// Numbers of random ranges of bits, made by a program in Python with seed 64: read at once, read bit by bit, and written.
ghost use Rattle.std.specs.Prelude.{◌≤◌};

use crate::*;
use BitOrder::{LeastFirst, MostFirst};
use ByteOrder::{Big, Little};
use std::process::Abort;

const RANDOM: [u8; 20] = [
    0xF3, 0x3F, 0xCE, 0x08, 0x68, 0x89, 0x67, 0x4B, 0x28, 0xD5, 0xE1, 0x65, 0x0C, 0x2A, 0xCE, 0x02,
    0x20, 0x59, 0x35, 0x17,
];

// first bit, bits, byte order, bit order, number of these bits of RANDOM
const RANGES: [(u8, u8, ByteOrder, BitOrder, u128); 80] = [
    (48, 34, Little, MostFirst, 0x3D5284B67),
    (84, 76, Little, LeastFirst, 0x1735592002CE2A0C65E),
    (40, 47, Big, MostFirst, 0x44B3A5946AF0),
    (8, 16, Big, MostFirst, 0x3FCE),
    (72, 16, Big, MostFirst, 0xD5E1),
    (72, 64, Little, MostFirst, 0x2002CE2A0C65E1D5),
    (32, 8, Big, LeastFirst, 0x68),
    (64, 32, Little, MostFirst, 0x65E1D528),
    (68, 82, Little, LeastFirst, 0x35592002CE2A0C65E1D52),
    (80, 19, Little, MostFirst, 0x65E1),
    (104, 32, Little, LeastFirst, 0x2002CE2A),
    (58, 16, Little, LeastFirst, 0x4A12),
    (72, 32, Little, MostFirst, 0xC65E1D5),
    (88, 64, Big, LeastFirst, 0x35592002CE2A0C65),
    (152, 6, Little, MostFirst, 0x5),
    (39, 16, Little, LeastFirst, 0xCF12),
    (0, 54, Big, MostFirst, 0x3CCFF3821A2259),
    (104, 11, Little, MostFirst, 0x62A),
    (80, 64, Little, LeastFirst, 0x592002CE2A0C65E1),
    (48, 16, Little, MostFirst, 0x4B67),
    (2, 8, Little, LeastFirst, 0xFC),
    (107, 53, Little, MostFirst, 0x17A8C902117056),
    (44, 64, Little, MostFirst, 0xC250165E8DB27496),
    (40, 6, Little, MostFirst, 0x22),
    (96, 64, Little, MostFirst, 0x1735592002CE2A0C),
    (53, 16, Big, LeastFirst, 0x425B),
    (7, 64, Big, LeastFirst, 0x5096CF12D0119C7F),
    (62, 30, Big, MostFirst, 0x328D5E16),
    (15, 8, Little, MostFirst, 0xE7),
    (96, 64, Big, MostFirst, 0xC2ACE0220593517),
    (144, 16, Big, LeastFirst, 0x1735),
    (125, 16, Big, LeastFirst, 0xC900),
    (112, 32, Big, LeastFirst, 0x592002CE),
    (56, 64, Little, LeastFirst, 0xCE2A0C65E1D5284B),
    (48, 12, Big, MostFirst, 0x674),
    (135, 8, Big, MostFirst, 0x2C),
    (144, 16, Big, MostFirst, 0x3517),
    (6, 64, Little, MostFirst, 0xCAD259221A82F3CF),
    (104, 56, Little, LeastFirst, 0x1735592002CE2A),
    (31, 31, Little, MostFirst, 0x52B34434),
    (144, 16, Big, MostFirst, 0x3517),
    (100, 16, Little, MostFirst, 0xACC2),
    (20, 71, Big, MostFirst, 0x7043444B3A5946AF0B),
    (128, 14, Big, LeastFirst, 0x1920),
    (136, 8, Big, MostFirst, 0x59),
    (16, 64, Big, LeastFirst, 0xD5284B67896808CE),
    (96, 64, Big, LeastFirst, 0x1735592002CE2A0C),
    (136, 16, Little, MostFirst, 0x3559),
    (34, 8, Little, LeastFirst, 0x5A),
    (3, 32, Little, LeastFirst, 0x119C7FE),
    (96, 64, Big, LeastFirst, 0x1735592002CE2A0C),
    (17, 38, Little, MostFirst, 0x3312D1109C),
    (85, 38, Big, MostFirst, 0xB28615670),
    (16, 8, Big, MostFirst, 0xCE),
    (80, 16, Little, MostFirst, 0x65E1),
    (41, 64, Big, MostFirst, 0x12CE9651ABC2CA18),
    (152, 8, Big, MostFirst, 0x17),
    (128, 32, Little, MostFirst, 0x17355920),
    (128, 32, Little, MostFirst, 0x17355920),
    (131, 16, Little, LeastFirst, 0xAB24),
    (40, 8, Big, MostFirst, 0x89),
    (51, 16, Big, MostFirst, 0x3A59),
    (26, 114, Big, LeastFirst, 0x24800B38A831978754A12D9E25A02),
    (20, 48, Little, MostFirst, 0xB274968886E0),
    (93, 52, Little, MostFirst, 0x20B44C05985A1),
    (80, 64, Little, LeastFirst, 0x592002CE2A0C65E1),
    (40, 16, Big, LeastFirst, 0x6789),
    (8, 104, Big, MostFirst, 0x3FCE086889674B28D5E1650C2A),
    (88, 8, Big, MostFirst, 0x65),
    (142, 18, Big, MostFirst, 0x13517),
    (32, 32, Little, MostFirst, 0x4B678968),
    (121, 16, Big, MostFirst, 0x440),
    (49, 111, Big, LeastFirst, 0xB9AAC900167150632F0EA9425B3),
    (45, 59, Little, MostFirst, 0x4A12CBC1A65E92C),
    (96, 64, Little, MostFirst, 0x1735592002CE2A0C),
    (128, 16, Little, LeastFirst, 0x5920),
    (119, 16, Big, MostFirst, 0x110),
    (32, 52, Big, MostFirst, 0x6889674B28D5E),
    (77, 32, Little, MostFirst, 0x85A12CBC),
    (63, 64, Little, MostFirst, 0x1671586B2F06A94),
];

/// The number, by its definition: each bit with its weight.
fn bit_by_bit(bytes: &[u8; 20], bit: u64, len: u32, bytes_by: ByteOrder, bits_by: BitOrder) -> u128
    requires few { len ≤ 128 }
    requires near { bit ≤ 160 }
{
    let mut number = 0;
    for i in 0..len {
        let k = bit + u64::from(i);
        let byte = bytes.get((k / 8) as usize).copied().unwrap_or(0);
        let group = i / 8 * 8;
        let (place, weight) = match bits_by {
            LeastFirst => (k % 8, i),
            MostFirst => match bytes_by {
                Big => (7 - k % 8, len - 1 - i),
                Little => (7 - k % 8, group + (len - group).min(8) - 1 - i % 8),
            },
        };
        if byte >> place & 1 == 1 {
            number |= 1 << weight;
        }
    }
    number
}

fn same(rt: &impl Abort, row: (u8, u8, ByteOrder, BitOrder, u128)) {
    let (bit, len, bytes_by, bits_by, number) = row;
    let (bit, len) = (u64::from(bit), u32::from(len));
    assert!(rt; len <= 128);
    assert!(rt; bit + u64::from(len) <= 160);
    assert!(rt; bit_by_bit(&RANDOM, bit, len, bytes_by, bits_by) == number);
    assert!(rt; number_at(&RANDOM, bit, len, bytes_by, bits_by) == number);
    if len <= 64 {
        let short = number_at_64(&RANDOM, bit, len, bytes_by, bits_by);
        assert!(rt; u128::from(short) == number);
    }
    // Written over other bits, it is read bit by bit, and the bits beside it stay.
    let mut data = [0xFF; 20];
    let held = number_at(&RANDOM, bit, len, bytes_by, bits_by);
    put_number(&mut data, bit, len, held, bytes_by, bits_by);
    assert!(rt; bit_by_bit(&data, bit, len, bytes_by, bits_by) == number);
    for k in 0..160u64 {
        if k < bit || k >= bit + u64::from(len) {
            assert!(rt; bit_by_bit(&data, k, 1, bytes_by, bits_by) == 1);
        }
    }
}

#[test]
fn numbers_are_those_of_each_bit(rt: HostRuntime) {
    for row in RANGES {
        same(&rt, row);
    }
}
