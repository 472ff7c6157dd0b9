// Delimited texts that are scanned to their ends: each character, `^` before an escaped one, `|` for a mark, and how it ends.
ghost use Rattle.std.specs.Prelude.{◌≡◌, ◌<◌};

use crate::{Character, Ending, Refusal, Scan, Scanned, escape, laws, read_content};
use dfdl_bits::{Steps, Window};
use dfdl_delims::{Candidates, Markup, OpenLists};
use dfdl_forms::{CharList, Encoding, EscapeKind, EscapeScheme, Literals, Piece};
use dfdl_report::ParseCause;
use std::alloc::Global;
use std::marker::Brand;
use std::process::Abort;
use std::sync::ledger::{Blank, Ledger};
use std::test::Fail;

/// A scheme of the escape character and the escape-escape character.
fn by_character(alloc: Global, escape: char, escape_escape: Option<char>) -> EscapeScheme {
    EscapeScheme {
        kind: EscapeKind::Character,
        escape: Some(escape),
        escape_escape,
        start: None,
        end: None,
        extra: CharList::new(Vec::new(alloc)),
        always: false,
    }
}

/// A scheme of the block start, the block end and the escape-escape character.
fn by_block(alloc: Global, mark: char, escape_escape: Option<char>) -> EscapeScheme {
    EscapeScheme {
        kind: EscapeKind::Block,
        escape: None,
        escape_escape,
        start: Some(mark),
        end: Some(mark),
        extra: CharList::new(Vec::new(alloc)),
        always: false,
    }
}

fn no_scheme(alloc: Global) -> EscapeScheme {
    EscapeScheme {
        kind: EscapeKind::Absent,
        escape: None,
        escape_escape: None,
        start: None,
        end: None,
        extra: CharList::new(Vec::new(alloc)),
        always: false,
    }
}

/// The list of one literal of characters.
fn list_of(alloc: Global, text: &str) -> Result<Literals, Fail> {
    let mut literal = Vec::new(alloc);
    for c in text.chars() {
        literal.push(Piece::Char(c))?;
    }
    let mut literals = Vec::new(alloc);
    literals.push(literal)?;
    Ok(Literals::new(literals))
}

/// The lists that are open: the separator `,` outside of the terminators `;` and `||`.
const OPEN: [u32; 3] = [3, 1, 2];

/// A list that isn't open, the terminators, and the separator.
fn markup(rt: &impl Abort, alloc: Global, enc: Encoding) -> Result<Markup, Fail> {
    let mut lists = Markup::open(alloc, 4, 5)?;
    let closed = list_of(alloc, "a")?;
    let separator = list_of(alloc, ",")?;
    let terminator = list_of(alloc, ";")?;
    let bars = list_of(alloc, "||")?;
    assert!(rt; lists.push(&closed, enc, false).is_ok());
    assert!(rt; lists.push(&terminator, enc, false).is_ok());
    assert!(rt; lists.push(&bars, enc, false).is_ok());
    assert!(rt; lists.push(&separator, enc, false).is_ok());
    Ok(lists)
}

/// Writes what a step came to, and answers whether the scan goes on.
fn put(scanned: Scanned, into: &mut String) -> Result<bool, Fail> {
    match scanned {
        Scanned::Content(c) => {
            into.push(c)?;
            return Ok(true);
        }
        Scanned::Escaped(c) => {
            into.push('^')?;
            into.push(c)?;
            return Ok(true);
        }
        Scanned::Skipped => {
            into.push('|')?;
            return Ok(true);
        }
        Scanned::Ends { which } if which == 0 => into.push_str(" separator")?,
        Scanned::Ends { .. } => into.push_str(" terminator")?,
        Scanned::EndOfBox => into.push_str(" end")?,
        Scanned::Broken(ParseCause::DataEnds) => into.push_str(" P4")?,
        Scanned::Broken(ParseCause::BadCharacter) => into.push_str(" P5")?,
        Scanned::Broken(_) => into.push_str(" broken")?,
        Scanned::NotYet => into.push_str(" not yet")?,
        Scanned::Over => into.push_str(" over")?,
    }
    Ok(false)
}

/// What the text that begins at the first byte is scanned as, in a box that ends at bit `stop`.
fn scanned_in<L: Ledger>(
    rt: &impl Abort,
    alloc: Global,
    scan: Scan,
    bytes: &[u8],
    ended: bool,
    blank: Blank,
) -> Result<String, Fail>
    requires name { blank.name ≡ L.name }
    requires parts { blank.parts ≡ L.parts }
    requires some { 0 < L.parts }
{
    let mut scan = scan;
    let register = markup(rt, alloc, scan.form.enc)?;
    let lists = OpenLists {
        markup: &register,
        numbers: &OPEN,
    };
    let mut candidates = Candidates::new(alloc);
    let mut steps = Steps::<L>::open(blank);
    let mut window = Window::open(alloc, 12)?;
    assert!(rt; bytes.len() <= 12);
    let _ = window.append(bytes);
    if ended {
        window.tell_end();
    }
    let mut read = String::new(alloc);
    for _ in 0..16 {
        assert!(rt; window.base() <= scan.at.byte && scan.at.byte <= 12);
        let glance = scan.step(lists, &window, &mut candidates, &mut steps)?;
        if !put(glance.scanned, &mut read)? {
            return Ok(read);
        }
    }
    Ok(read)
}

/// The same in UTF-8, in a box that goes past the data, where no pad character is trimmed at the left.
fn scanned<L: Ledger>(
    rt: &impl Abort,
    alloc: Global,
    scheme: &EscapeScheme,
    bytes: &[u8],
    blank: Blank,
) -> Result<String, Fail>
    requires name { blank.name ≡ L.name }
    requires parts { blank.parts ≡ L.parts }
    requires some { 0 < L.parts }
{
    let scan = Scan::open(scheme, Encoding::Utf8, false, None, 0, 800);
    scanned_in::<L>(rt, alloc, scan, bytes, true, blank)
}

#[test]
fn an_escape_character_escapes(rt: HostRuntime) -> Result<(), Fail> {
    let alloc = rt.alloc();
    let scheme = by_character(alloc, '\\', Some('\\'));
    let read = scanned::<Brand>(&rt, alloc, &scheme, b"a\\,b,c", Blank::new(1))?;
    assert!(rt; read.as_str() == "a^,b separator");
    let read = scanned::<Brand>(&rt, alloc, &scheme, b"a\\\\,", Blank::new(1))?;
    assert!(rt; read.as_str() == "a^\\ separator");
    let read = scanned::<Brand>(&rt, alloc, &scheme, b"a\\b;", Blank::new(1))?;
    assert!(rt; read.as_str() == "a^b terminator");
    Ok(())
}

#[test]
fn an_escape_escape_character_escapes_the_escape_character(rt: HostRuntime) -> Result<(), Fail> {
    let alloc = rt.alloc();
    let scheme = by_character(alloc, '/', Some('\\'));
    let read = scanned::<Brand>(&rt, alloc, &scheme, b"\\//,", Blank::new(1))?;
    assert!(rt; read.as_str() == "^/^, end");
    let read = scanned::<Brand>(&rt, alloc, &scheme, b"\\,", Blank::new(1))?;
    assert!(rt; read.as_str() == "\\ separator");
    Ok(())
}

#[test]
fn an_escape_character_at_the_end_is_content(rt: HostRuntime) -> Result<(), Fail> {
    let alloc = rt.alloc();
    let scheme = by_character(alloc, '?', None);
    let read = scanned::<Brand>(&rt, alloc, &scheme, b"a?+?", Blank::new(1))?;
    assert!(rt; read.as_str() == "a^+? end");
    let scan = Scan::open(&scheme, Encoding::Utf8, false, None, 0, 16);
    let read = scanned_in::<Brand>(&rt, alloc, scan, b"a?,", true, Blank::new(1))?;
    assert!(rt; read.as_str() == "a? end");
    let scan = Scan::open(&scheme, Encoding::Utf8, false, None, 0, 800);
    let read = scanned_in::<Brand>(&rt, alloc, scan, b"a?", false, Blank::new(1))?;
    assert!(rt; read.as_str() == "a not yet");
    Ok(())
}

#[test]
fn blocks_hide_markup(rt: HostRuntime) -> Result<(), Fail> {
    let alloc = rt.alloc();
    let scheme = by_block(alloc, '\'', Some('\''));
    let read = scanned::<Brand>(&rt, alloc, &scheme, b"'a''b',", Blank::new(1))?;
    assert!(rt; read.as_str() == "|^a^'^b| separator");
    let read = scanned::<Brand>(&rt, alloc, &scheme, b"'a,'b'c;", Blank::new(1))?;
    assert!(rt; read.as_str() == "|^a^,|b'c terminator");
    let read = scanned::<Brand>(&rt, alloc, &scheme, b"a'b,", Blank::new(1))?;
    assert!(rt; read.as_str() == "a'b separator");
    let read = scanned::<Brand>(&rt, alloc, &scheme, b"'a,", Blank::new(1))?;
    assert!(rt; read.as_str() == "|^a^, P4");
    Ok(())
}

#[test]
fn blocks_hold_their_end(rt: HostRuntime) -> Result<(), Fail> {
    let alloc = rt.alloc();
    let scheme = by_block(alloc, '"', Some('\\'));
    let read = scanned::<Brand>(&rt, alloc, &scheme, b"\"a\\\"b\"", Blank::new(1))?;
    assert!(rt; read.as_str() == "|^a^\"^b| end");
    let read = scanned::<Brand>(&rt, alloc, &scheme, b"\"a\\b\"", Blank::new(1))?;
    assert!(rt; read.as_str() == "|^a^\\^b| end");
    Ok(())
}

#[test]
fn pad_characters_stand_before_a_block(rt: HostRuntime) -> Result<(), Fail> {
    let alloc = rt.alloc();
    let scheme = by_block(alloc, '\'', None);
    let scan = Scan::open(&scheme, Encoding::Utf8, false, Some(' '), 0, 800);
    let read = scanned_in::<Brand>(&rt, alloc, scan, b"  'a,' ,", true, Blank::new(1))?;
    assert!(rt; read.as_str() == "  |^a^,|  separator");
    let read = scanned_in::<Brand>(&rt, alloc, scan, b" ,", true, Blank::new(1))?;
    assert!(rt; read.as_str() == "  separator");
    let scan = Scan::open(&scheme, Encoding::Utf8, false, Some(','), 0, 800);
    let read = scanned_in::<Brand>(&rt, alloc, scan, b",'a'", true, Blank::new(1))?;
    assert!(rt; read.as_str() == " separator");
    Ok(())
}

#[test]
fn texts_without_a_scheme(rt: HostRuntime) -> Result<(), Fail> {
    let alloc = rt.alloc();
    let scheme = no_scheme(alloc);
    let read = scanned::<Brand>(&rt, alloc, &scheme, b"a\\'b;", Blank::new(1))?;
    assert!(rt; read.as_str() == "a\\'b terminator");
    let scan = Scan::open(&scheme, Encoding::Utf8, false, None, 0, 16);
    let read = scanned_in::<Brand>(&rt, alloc, scan, b"ab,", true, Blank::new(1))?;
    assert!(rt; read.as_str() == "ab end");
    let scan = Scan::open(&scheme, Encoding::Utf8, false, None, 8, 800);
    let read = scanned_in::<Brand>(&rt, alloc, scan, b"abc", false, Blank::new(1))?;
    assert!(rt; read.as_str() == "bc not yet");
    let read = scanned_in::<Brand>(&rt, alloc, scan, b"abcdefghijkl", false, Blank::new(1))?;
    assert!(rt; read.as_str() == "bcdefghijkl over");
    Ok(())
}

#[test]
fn encodings_of_contents(rt: HostRuntime) -> Result<(), Fail> {
    let alloc = rt.alloc();
    let scheme = by_character(alloc, '\\', None);
    let scan = Scan::open(&scheme, Encoding::Utf16Be, false, None, 0, 800);
    let read = scanned_in::<Brand>(
        &rt,
        alloc,
        scan,
        b"\x00a\x00\\\x00,\x00,",
        true,
        Blank::new(1),
    )?;
    assert!(rt; read.as_str() == "a^, separator");
    let scan = Scan::open(&scheme, Encoding::Utf8, true, None, 0, 800);
    let read = scanned_in::<Brand>(&rt, alloc, scan, b"\xC3\\\xFFa", true, Blank::new(1))?;
    assert!(rt; read.as_str() == "\u{FFFD}^\u{FFFD}a end");
    let scan = Scan::open(&scheme, Encoding::Utf8, false, None, 0, 800);
    let read = scanned_in::<Brand>(&rt, alloc, scan, b"a\xC3,", true, Blank::new(1))?;
    assert!(rt; read.as_str() == "a P5");
    Ok(())
}

/// Puts the characters that were read, and how the reading ended.
fn put_read(read: &[Character], ending: Ending, into: &mut String) -> Result<(), Fail> {
    for character in read {
        if character.is_escaped {
            into.push('^')?;
        }
        into.push(character.c)?;
    }
    match ending {
        Ending::Ends { which } if which == 0 => into.push_str(" separator ")?,
        Ending::Ends { .. } => into.push_str(" terminator ")?,
        Ending::EndOfBox => into.push_str(" end ")?,
        Ending::Broken(_) => into.push_str(" broken ")?,
        Ending::NotYet => into.push_str(" not yet ")?,
        Ending::Over => into.push_str(" over ")?,
    }
    Ok(())
}

/// What a text is read as whose bytes come in two pieces, behind each of them.
fn read_in_pieces<L: Ledger>(
    rt: &impl Abort,
    alloc: Global,
    scan: Scan,
    first: &[u8],
    second: &[u8],
    blank: Blank,
) -> Result<String, Fail>
    requires name { blank.name ≡ L.name }
    requires parts { blank.parts ≡ L.parts }
    requires some { 0 < L.parts }
{
    let mut scan = scan;
    let register = markup(rt, alloc, scan.form.enc)?;
    let lists = OpenLists {
        markup: &register,
        numbers: &OPEN,
    };
    let mut candidates = Candidates::new(alloc);
    let mut steps = Steps::<L>::open(blank);
    let mut window = Window::open(alloc, 12)?;
    let mut read = Vec::new(alloc);
    let mut told = String::new(alloc);
    assert!(rt; first.len() <= 6 && second.len() <= 6);
    let _ = window.append(first);
    assert!(rt; window.base() <= scan.at.byte && scan.at.byte <= 12);
    let now = read_content(
        &mut scan,
        lists,
        &window,
        &mut candidates,
        &mut steps,
        &mut read,
    )?;
    put_read(&read, now.ending, &mut told)?;
    assert!(rt; window.end() <= 12);
    let _ = window.append(second);
    assert!(rt; window.base() <= scan.at.byte && scan.at.byte <= 12);
    let now = read_content(
        &mut scan,
        lists,
        &window,
        &mut candidates,
        &mut steps,
        &mut read,
    )?;
    put_read(&read, now.ending, &mut told)?;
    Ok(told)
}

#[test]
fn contents_are_read_in_pieces(rt: HostRuntime) -> Result<(), Fail> {
    let alloc = rt.alloc();
    let scheme = by_character(alloc, '\\', Some('\\'));
    let scan = Scan::open(&scheme, Encoding::Utf8, false, None, 0, 800);
    let told = read_in_pieces::<Brand>(&rt, alloc, scan, b"a\\", b",b,c", Blank::new(1))?;
    assert!(rt; told.as_str() == "a not yet a^,b separator ");
    let scheme = by_block(alloc, '\'', Some('\''));
    let scan = Scan::open(&scheme, Encoding::Utf8, false, None, 0, 800);
    let told = read_in_pieces::<Brand>(&rt, alloc, scan, b"'a'", b"'b';", Blank::new(1))?;
    assert!(rt; told.as_str() == "^a not yet ^a^'^b terminator ");
    let scheme = no_scheme(alloc);
    let scan = Scan::open(&scheme, Encoding::Utf8, false, None, 0, 40);
    let told = read_in_pieces::<Brand>(&rt, alloc, scan, b"abcd", b"efg,", Blank::new(1))?;
    assert!(rt; told.as_str() == "abcd not yet abcde end ");
    let scan = Scan::open(&scheme, Encoding::Utf8, false, None, 0, 800);
    let told = read_in_pieces::<Brand>(&rt, alloc, scan, b"ab\xc3", b"\xa9c,", Blank::new(1))?;
    assert!(rt; told.as_str() == "ab not yet ab\u{e9}c separator ");
    Ok(())
}

/// What the text is written as, or why it isn't.
fn written(
    rt: &impl Abort,
    alloc: Global,
    scheme: &EscapeScheme,
    enc: Encoding,
    text: &str,
) -> Result<String, Fail> {
    let register = markup(rt, alloc, enc)?;
    let lists = OpenLists {
        markup: &register,
        numbers: &OPEN,
    };
    let mut characters = Vec::new(alloc);
    for c in text.chars() {
        characters.push(c)?;
    }
    let mut into = Vec::new(alloc);
    into.push('x')?;
    let mut told = String::new(alloc);
    match escape(scheme, enc, lists, &characters, alloc, &mut into) {
        Ok(()) => {
            for c in &into {
                told.push(*c)?;
            }
        }
        Err(Refusal::Impossible) => told.push_str("impossible")?,
        Err(Refusal::NoSuchChar) => told.push_str("no such character")?,
        Err(Refusal::OutOfMemory) => told.push_str("out of memory")?,
    }
    Ok(told)
}

#[test]
fn texts_are_escaped_by_a_character(rt: HostRuntime) -> Result<(), Fail> {
    let alloc = rt.alloc();
    let utf8 = Encoding::Utf8;
    let same = by_character(alloc, '\\', Some('\\'));
    let told = written(&rt, alloc, &same, utf8, "a,b\\c;")?;
    assert!(rt; told.as_str() == "a\\,b\\\\c\\;");
    let told = written(&rt, alloc, &same, utf8, "|a|||")?;
    assert!(rt; told.as_str() == "|a\\|\\||");
    let other = by_character(alloc, '/', Some('\\'));
    let told = written(&rt, alloc, &other, utf8, "a/b\\,")?;
    assert!(rt; told.as_str() == "a\\/b/\\/,");
    let told = written(&rt, alloc, &other, Encoding::Utf16Le, "\u{2C}\u{12C}")?;
    assert!(rt; told.as_str() == "/,\u{12C}");
    Ok(())
}

#[test]
fn an_escape_character_stands_as_it_is(rt: HostRuntime) -> Result<(), Fail> {
    let alloc = rt.alloc();
    let mut extra = Vec::new(alloc);
    extra.push('+')?;
    extra.push(',')?;
    let scheme = EscapeScheme {
        extra: CharList::new(extra),
        ..by_character(alloc, '?', None)
    };
    let told = written(&rt, alloc, &scheme, Encoding::Utf8, "a?+,'")?;
    assert!(rt; told.as_str() == "a??+?,'");
    let told = written(&rt, alloc, &scheme, Encoding::UsAscii, "\u{E9}")?;
    assert!(rt; told.as_str() == "no such character");
    Ok(())
}

#[test]
fn texts_are_written_as_blocks(rt: HostRuntime) -> Result<(), Fail> {
    let alloc = rt.alloc();
    let utf8 = Encoding::Utf8;
    let same = by_block(alloc, '\'', Some('\''));
    let told = written(&rt, alloc, &same, utf8, "it's")?;
    assert!(rt; told.as_str() == "it's");
    let told = written(&rt, alloc, &same, utf8, "it's,")?;
    assert!(rt; told.as_str() == "'it''s,'");
    let told = written(&rt, alloc, &same, utf8, "'a'")?;
    assert!(rt; told.as_str() == "'''a'''");
    Ok(())
}

#[test]
fn a_block_is_always_written(rt: HostRuntime) -> Result<(), Fail> {
    let alloc = rt.alloc();
    let utf8 = Encoding::Utf8;
    let scheme = EscapeScheme {
        always: true,
        ..by_block(alloc, '"', Some('\\'))
    };
    let told = written(&rt, alloc, &scheme, utf8, "")?;
    assert!(rt; told.as_str() == "\"\"");
    let told = written(&rt, alloc, &scheme, utf8, "a\"")?;
    assert!(rt; told.as_str() == "\"a\\\"\"");
    let told = written(&rt, alloc, &scheme, utf8, "a\\")?;
    assert!(rt; told.as_str() == "impossible");
    Ok(())
}

#[test]
fn texts_that_no_block_can_hold(rt: HostRuntime) -> Result<(), Fail> {
    let alloc = rt.alloc();
    let utf8 = Encoding::Utf8;
    let scheme = by_block(alloc, '\'', None);
    let told = written(&rt, alloc, &scheme, utf8, "a'")?;
    assert!(rt; told.as_str() == "a'");
    let told = written(&rt, alloc, &scheme, utf8, "a',")?;
    assert!(rt; told.as_str() == "impossible");
    let told = written(&rt, alloc, &scheme, utf8, "a,")?;
    assert!(rt; told.as_str() == "'a,'");
    let plain = no_scheme(alloc);
    let told = written(&rt, alloc, &plain, utf8, "a',")?;
    assert!(rt; told.as_str() == "a',");
    Ok(())
}

#[test]
fn laws_are_there(_rt: HostRuntime) {
    laws::steps_begin();
    laws::steps_move();
    laws::steps_give_contents();
    laws::contents_go_on();
    laws::steps_stay();
}
