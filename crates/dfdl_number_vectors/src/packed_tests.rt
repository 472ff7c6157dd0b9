// Random fields: a slow reading and writing, digit by digit, says the same as the calls of dfdl_packed.
// Numbers, nibbles and characters were made by Python: `random.Random(20261127)`, and
// `str(abs(value)).rjust(..)` with the sign added.
ghost use Rattle.std.specs.Prelude.{◌≡◌, ◌≤◌, IfSome};
ghost use Rattle.dfdl_forms.specs.BinaryNumbers.{IsPackedForm};

use crate::slow_digits::{digit_char, digit_of, followed, front};
use PackedRep::{Bcd, Ibm4690, Packed};
use dfdl_forms::{BitOrder, ByteOrder, PackedForm, PackedRep, Simple};
use dfdl_packed::{read, write};
use dfdl_value::Value;

// representation, how many nibbles, nibbles, value
const FIELDS: [(PackedRep, u8, &str, i128); 50] = [
    (Packed, 4, "000C", 0),
    (Packed, 4, "079C", 79),
    (Packed, 6, "00390D", -390),
    (Packed, 7, "021343D", -21343),
    (Packed, 10, "037000000C", 37000000),
    (Packed, 14, "0014415018202C", 14415018202),
    (Packed, 18, "07275232724476130D", -7275232724476130),
    (Packed, 19, "083682417902000000C", 83682417902000000),
    (Packed, 20, "0924398439409990312D", -924398439409990312),
    (Packed, 21, "00988275641201591940C", 988275641201591940),
    (Packed, 20, "8961394475427750000D", -8961394475427750000),
    (Packed, 20, "1226946673521635467C", 1226946673521635467),
    (Packed, 23, "0033920661698217021801D", -33920661698217021801),
    (
        Packed,
        25,
        "000192454875794811438326D",
        -192454875794811438326,
    ),
    (
        Packed,
        31,
        "000680657119371987614044946188D",
        -680657119371987614044946188,
    ),
    (
        Packed,
        35,
        "0051742601769046571147300000000000D",
        -51742601769046571147300000000000,
    ),
    (
        Packed,
        37,
        "339415945875996592735617832186513186C",
        339415945875996592735617832186513186,
    ),
    (
        Packed,
        39,
        "05270328814555407409221529209645560234D",
        -5270328814555407409221529209645560234,
    ),
    (
        Packed,
        39,
        "60946650190217685700000000000000000000D",
        -60946650190217685700000000000000000000,
    ),
    (
        Packed,
        39,
        "63785694321419000000000000000000000000D",
        -63785694321419000000000000000000000000,
    ),
    (Bcd, 4, "0007", 7),
    (Bcd, 5, "00067", 67),
    (Bcd, 5, "06013", 6013),
    (Bcd, 10, "0131975295", 131975295),
    (Bcd, 16, "0421885495964895", 421885495964895),
    (Bcd, 17, "83264252083902787", 83264252083902787),
    (Bcd, 19, "0177034204949432943", 177034204949432943),
    (Bcd, 20, "00913010773045357540", 913010773045357540),
    (Bcd, 21, "003566036486500000000", 3566036486500000000),
    (Bcd, 21, "006149739878413839111", 6149739878413839111),
    (Bcd, 20, "28854319055857586925", 28854319055857586925),
    (
        Bcd,
        26,
        "06515994106416272670850753",
        6515994106416272670850753,
    ),
    (
        Bcd,
        33,
        "291663300000000000000000000000000",
        291663300000000000000000000000000,
    ),
    (
        Bcd,
        38,
        "58326717192097391643610848101346467769",
        58326717192097391643610848101346467769,
    ),
    (Ibm4690, 3, "FF0", 0),
    (Ibm4690, 4, "D157", -157),
    (Ibm4690, 8, "FD542391", -542391),
    (Ibm4690, 11, "D2186758041", -2186758041),
    (Ibm4690, 18, "FF8904541417805211", 8904541417805211),
    (Ibm4690, 20, "FFD68368334575904336", -68368334575904336),
    (Ibm4690, 19, "D677172484302519675", -677172484302519675),
    (Ibm4690, 20, "FD653557932770850509", -653557932770850509),
    (Ibm4690, 20, "D9598650281435480000", -9598650281435480000),
    (Ibm4690, 23, "FFFF2490084924638915931", 2490084924638915931),
    (
        Ibm4690,
        24,
        "FFFD76636888409200000000",
        -76636888409200000000,
    ),
    (
        Ibm4690,
        24,
        "D24075000000000000000000",
        -24075000000000000000000,
    ),
    (
        Ibm4690,
        34,
        "FFFD890000000000000000000000000000",
        -890000000000000000000000000000,
    ),
    (
        Ibm4690,
        38,
        "D3028625574073979553774839593692622938",
        -3028625574073979553774839593692622938,
    ),
    (
        Ibm4690,
        39,
        "F78424386275582564478507898937970607487",
        78424386275582564478507898937970607487,
    ),
    (
        Ibm4690,
        39,
        "F29000000000000000000000000000000000000",
        29000000000000000000000000000000000000,
    ),
];

fn slow_number(negative: bool, digits: &[u8]) -> Option<(bool, u128)> {
    let mut number = 0;
    for c in digits {
        number = followed(number, digit_of(*c)?)?;
    }
    Some((negative, number))
}

fn slow_packed(nibbles: &[u8]) -> Option<(bool, u128)> {
    let [digits @ .., sign] = nibbles else {
        return None;
    };
    slow_number(*sign == b'D', digits)
}

fn slow_ibm(nibbles: &[u8]) -> Option<(bool, u128)> {
    let filled = nibbles.iter().position(|c| *c != b'F')?;
    match nibbles.get(filled..)? {
        [b'D', digits @ ..] => slow_number(true, digits),
        digits => slow_number(false, digits),
    }
}

fn slow_field(rep: PackedRep, nibbles: &[u8]) -> Option<(bool, u128)> {
    match rep {
        Packed => slow_packed(nibbles),
        Bcd => slow_number(false, nibbles),
        Ibm4690 => slow_ibm(nibbles),
    }
}

fn stands(size: u128, behind: usize) -> bool {
    behind == 0 || front(size, behind) > 0
}

fn slow_ibm_char(negative: bool, size: u128, behind: usize) -> u8 {
    if stands(size, behind) {
        digit_char(size, behind)
    } else if negative && stands(size, behind.saturating_sub(1)) {
        b'D'
    } else {
        b'F'
    }
}

fn slow_packed_char(negative: bool, size: u128, behind: usize) -> u8 {
    match behind.checked_sub(1) {
        Some(digits) => digit_char(size, digits),
        None if negative => b'D',
        None => b'C',
    }
}

// The nibble with so many nibbles behind it, as a hexadecimal digit.
fn slow_char(rep: PackedRep, negative: bool, size: u128, behind: usize) -> u8 {
    match rep {
        Packed => slow_packed_char(negative, size, behind),
        Bcd => digit_char(size, behind),
        Ibm4690 => slow_ibm_char(negative, size, behind),
    }
}

fn one_nibble(rep: PackedRep) -> PackedForm
    ensures { IsPackedForm result }
{
    PackedForm {
        nibbles: 1,
        rep,
        codes: [12, 13, 15, 12],
        strict: true,
        point: 0,
        kind: Simple::Integer,
        bytes_by: ByteOrder::Big,
        bits_by: BitOrder::MostFirst,
    }
}

fn form_of(rep: PackedRep, nibbles: u8) -> Option<PackedForm>
    ensures form { IfSome result IsPackedForm }
    ensures nibbles { IfSome result (λ form. form.nibbles ≡ nibbles) }
{
    one_nibble(rep).with_bits(4 * u64::from(nibbles))
}

fn nibble_of(c: u8) -> u8 {
    if c.is_ascii_digit() {
        c.saturating_sub(48)
    } else {
        c.saturating_sub(55)
    }
}

// The nibbles at the end of twenty bytes.
fn bytes_of(text: &[u8]) -> [u8; 20] {
    let mut bytes = [0; 20];
    for (at, c) in text.iter().enumerate() {
        let place = 40_usize.saturating_sub(text.len()).saturating_add(at);
        if let Some(byte) = bytes.get_mut(place / 2) {
            *byte = (*byte << 4) | nibble_of(*c);
        }
    }
    bytes
}

#[test]
fn slow_fields_are_those_of_the_vectors(rt: HostRuntime) {
    for (rep, _, text, value) in FIELDS {
        let (negative, size) = (value < 0, value.unsigned_abs());
        let nibbles = text.as_bytes();
        assert!(rt;
            slow_field(rep, nibbles) == Some((negative, size)),
            "{text}"
        );
        for (at, c) in nibbles.iter().enumerate() {
            let behind = nibbles.len().saturating_sub(at).saturating_sub(1);
            assert_eq!(rt; slow_char(rep, negative, size, behind), *c, "{text}");
        }
    }
}

#[test]
fn fields_are_the_slow_ones(rt: HostRuntime) {
    for (rep, nibbles, text, value) in FIELDS {
        assert!(rt; nibbles <= 40);
        let bit = 160 - 4 * u64::from(nibbles);
        match form_of(rep, nibbles) {
            Some(form) => {
                let bytes = bytes_of(text.as_bytes());
                assert_eq!(rt; read(&bytes, bit, &form), Ok(Value::Int(value)), "{text}");
                let mut written = [0; 20];
                assert_eq!(rt; write(&Value::Int(value), &form, &mut written, bit), Ok(()));
                assert!(rt; written == bytes, "{text}");
            }
            None => assert!(rt; false, "{text}"),
        }
    }
}
