// Characters that a person looked up in the Unicode Standard and in the productions of XML.
use super::{
    Begun, Taken, is_allowed, is_name_char, is_name_start, meets_name_char, meets_name_start,
};

// What the last of the bytes makes of those before it, which are parts of a character.
fn seen(bytes: &[u8]) -> Taken {
    let mut begun = Begun::Nothing;
    let mut seen = Taken::Bad;
    for byte in bytes {
        seen = begun.with(*byte);
        if let Taken::Part(more) = seen {
            begun = more;
        }
    }
    seen
}

#[test]
fn sequences_are_characters_parts_or_bad(rt: HostRuntime) {
    let rows: [(&[u8], Taken); 14] = [
        (b"A", Taken::Whole('A')),
        (b"\xC3\xA9", Taken::Whole('\u{E9}')),
        (b"\xE2\x82\xAC", Taken::Whole('\u{20AC}')),
        (b"\xF0\x9F\x98\x80", Taken::Whole('\u{1F600}')),
        (b"\xF4\x8F\xBF\xBF", Taken::Whole('\u{10FFFF}')),
        (b"\xED\x9F", Taken::Part(Begun::Two(0xED, 0x9F))),
        // overlong forms of two, three and four bytes
        (b"\xC1", Taken::Bad),
        (b"\xE0\x9F", Taken::Bad),
        (b"\xF0\x8F", Taken::Bad),
        // a surrogate, and what is past U+10FFFF
        (b"\xED\xA0", Taken::Bad),
        (b"\xF4\x90", Taken::Bad),
        (b"\xF5", Taken::Bad),
        // a byte that goes on where none is begun, and one that does not go on
        (b"\x80", Taken::Bad),
        (b"\xE2\x82\x2C", Taken::Bad),
    ];
    for (bytes, want) in rows {
        assert!(rt; seen(bytes) == want);
    }
}

#[test]
fn letters_of_all_alphabets_are_of_names(rt: HostRuntime) {
    for c in ['_', 'z', '\u{E9}', '\u{3B1}', '\u{4E00}', '\u{1_0000}'] {
        assert!(rt; is_name_start(c) && is_name_char(c));
    }
    for c in ['-', '.', '7', '\u{B7}', '\u{301}'] {
        assert!(rt; !is_name_start(c) && is_name_char(c));
    }
    for c in [
        ':',
        ' ',
        '\u{D7}',
        '\u{F7}',
        '\u{37E}',
        '\u{2028}',
        '\u{F_0000}',
    ] {
        assert!(rt; !is_name_start(c) && !is_name_char(c));
    }
    for c in ['\t', '\u{85}', '\u{FFFD}', '\u{10_FFFF}'] {
        assert!(rt; is_allowed(c));
    }
    for c in ['\u{0}', '\u{B}', '\u{1F}', '\u{FFFE}', '\u{FFFF}'] {
        assert!(rt; !is_allowed(c));
    }
}

#[test]
fn parts_meet_names_and_begin_characters(rt: HostRuntime) {
    // U+00C0 to U+00FF, U+0300 to U+033F, U+2080 to U+20BF
    let letters = Begun::One(0xC3);
    let accents = Begun::One(0xCC);
    let signs = Begun::Two(0xE2, 0x82);
    assert!(rt; meets_name_start(letters) && meets_name_char(letters));
    assert!(rt; !meets_name_start(accents) && meets_name_char(accents));
    assert!(rt; meets_name_start(signs));
    assert!(rt;
        signs.begins('\u{20AC}') && !signs.begins('\u{20C0}') && !letters.begins('\u{101}')
    );
}
