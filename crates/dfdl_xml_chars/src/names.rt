// The characters of names, which are letters, digits and the like.
#![tactic(auto)]

ghost use Rattle.std.specs.Prelude.{◌≡◌};
ghost use Rattle.dfdl_xml_chars.specs.Characters.{high_mark_rows, high_name_rows, high_start_rows, low_name_rows};
ghost use Rattle.dfdl_xml_chars.specs.Characters.{low_start_rows, is_in};
ghost use Rattle.dfdl_xml_chars.specs.Characters.{is_name_char as is_of_name};
ghost use Rattle.dfdl_xml_chars.specs.Characters.{is_name_start as begins_name, meets};
ghost use Rattle.dfdl_xml_chars.specs.Shown.{bytes_of};

use crate::Begun;

// Code points from the first to the second.
type Row = (u32, u32);

static NAME_STARTS: [Row; 12] = [
    (0xC0, 0xD6),
    (0xD8, 0xF6),
    (0xF8, 0x2FF),
    (0x370, 0x37D),
    (0x37F, 0x1FFF),
    (0x200C, 0x200D),
    (0x2070, 0x218F),
    (0x2C00, 0x2FEF),
    (0x3001, 0xD7FF),
    (0xF900, 0xFDCF),
    (0xFDF0, 0xFFFD),
    (0x1_0000, 0xE_FFFF),
];

static NAME_MARKS: [Row; 3] = [(0xB7, 0xB7), (0x300, 0x36F), (0x203F, 0x2040)];

// The code point lies in one of the rows.
fn lies_in(rows: &[Row], code: u32) -> bool
    ensures { result ≡ is_in rows.now code }
{
    rows.iter().any(|row| row.0 <= code && code <= row.1)
}

// Some code point of the rows is that of a character that begins so.
fn reaches(rows: &[Row], begun: Begun) -> bool
    ensures { result ≡ meets rows.now (bytes_of begun) }
{
    let low = begun.low();
    let high = begun.high();
    rows.iter().any(|row| row.0 <= high && low <= row.1)
}

#[tactic(auto, unfolding(crate::specs::Characters::high_start_rows))]
fn is_high_start(code: u32) -> bool
    ensures { result ≡ is_in high_start_rows code }
{
    lies_in(&NAME_STARTS, code)
}

#[tactic(auto, unfolding(crate::specs::Characters::high_mark_rows))]
fn is_high_mark(code: u32) -> bool
    ensures { result ≡ is_in high_mark_rows code }
{
    lies_in(&NAME_MARKS, code)
}

#[tactic(auto, using(crate::proofs::Tables::in_name_rows))]
fn is_high_char(code: u32) -> bool
    ensures { result ≡ is_in high_name_rows code }
{
    is_high_mark(code) || is_high_start(code)
}

#[tactic(auto, unfolding(crate::specs::Characters::low_start_rows))]
fn is_low_start(c: char) -> bool
    ensures { result ≡ is_in low_start_rows c }
{
    matches!(c, 'A'..='Z' | '_' | 'a'..='z')
}

#[tactic(auto, unfolding(crate::specs::Characters::low_name_rows, crate::specs::Characters::low_start_rows))]
fn is_low_char(c: char) -> bool
    ensures { result ≡ is_in low_name_rows c }
{
    matches!(c, '-' | '.' | '0'..='9' | 'A'..='Z' | '_' | 'a'..='z')
}

/// A part of a name may begin with the character.
#[tactic(auto, using(crate::proofs::Tables::low_start, crate::proofs::Tables::high_start))]
pub fn is_name_start(c: char) -> bool
    ensures { result ≡ begins_name c }
{
    if c < '\u{80}' {
        is_low_start(c)
    } else {
        is_high_start(u32::from(c))
    }
}

/// A part of a name may have the character.
#[tactic(auto, using(crate::proofs::Tables::low_char, crate::proofs::Tables::high_char))]
pub fn is_name_char(c: char) -> bool
    ensures { result ≡ is_of_name c }
{
    if c < '\u{80}' {
        is_low_char(c)
    } else {
        is_high_char(u32::from(c))
    }
}

/// A part of a name may begin with some character that begins so, where the bytes are a part of
/// one.
#[tactic(auto, unfolding(crate::specs::Characters::high_start_rows))]
pub fn meets_name_start(begun: Begun) -> bool
    ensures { result ≡ meets high_start_rows (bytes_of begun) }
{
    reaches(&NAME_STARTS, begun)
}

#[tactic(auto, unfolding(crate::specs::Characters::high_mark_rows))]
fn meets_name_mark(begun: Begun) -> bool
    ensures { result ≡ meets high_mark_rows (bytes_of begun) }
{
    reaches(&NAME_MARKS, begun)
}

/// A part of a name may have some character that begins so, where the bytes are a part of one.
#[tactic(auto, using(crate::proofs::Tables::meets_name_rows))]
pub fn meets_name_char(begun: Begun) -> bool
    ensures { result ≡ meets high_name_rows (bytes_of begun) }
{
    meets_name_mark(begun) || meets_name_start(begun)
}
