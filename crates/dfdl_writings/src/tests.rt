// Writings that a person made of values.
#![tactic(auto)]

ghost use Rattle.std.specs.Prelude.{◌≡◌, ◌≤◌, IfSome, IfOk};
ghost use Rattle.dfdl_forms.specs.NumberForms.{IsNumberPattern};
ghost use Rattle.dfdl_terms.specs.Rows.{IsPrimitive, IsTextForm};
ghost use Rattle.dfdl_writings.specs.Rooms.{IsRoom};

use crate::{
    Room, Unwritten, WritingFault, WritingForm, Written, binary_bits, binary_of, content_of, nil_of,
};
use dfdl_delims::{Markup, OpenLists};
use dfdl_forms::{
    BitOrder, ByteOrder, CharList, Encoding, EscapeKind, EscapeScheme, IntForm, Justify, Literals,
    NumberForm, NumberPattern, PackedForm, PackedRep, PadForm, Piece, Point, Rounding, Simple,
};
use dfdl_terms::{NilForm, NilTexts, Primitive, TextContent, TextForm, TextSize};
use dfdl_value::{TextValue, Value};
use std::alloc::{AllocError, Global};

/// A content that is padded with `*`.
fn text(encoding: Encoding, justify: Justify, truncate: bool) -> TextForm
    ensures { IsTextForm result }
{
    TextForm {
        encoding,
        replaces: false,
        size: TextSize::Characters(0),
        pad: PadForm {
            justify,
            pad: Some('*'),
            trim: None,
            truncate,
            keeps_zero: false,
        },
        content: TextContent::Plain,
    }
}

fn scheme(alloc: Global) -> EscapeScheme {
    EscapeScheme {
        kind: EscapeKind::Block,
        escape: None,
        escape_escape: Some('"'),
        start: Some('"'),
        end: Some('"'),
        extra: CharList::new(Vec::new(alloc)),
        always: false,
    }
}

fn writing(alloc: Global) -> WritingForm {
    WritingForm {
        least: 4,
        new_line: CharList::new(Vec::new(alloc)),
        scheme: scheme(alloc),
    }
}

/// The literal of one character.
fn literals(alloc: Global, c: char) -> Result<Literals, AllocError> {
    let mut literal = Vec::new(alloc);
    literal.push(Piece::Char(c))?;
    let mut all = Vec::new(alloc);
    all.push(literal)?;
    Ok(Literals::new(all))
}

/// The separator `,`.
fn markup(alloc: Global) -> Result<Markup, AllocError> {
    let mut lists = Markup::open(alloc, 1, 1)?;
    let _pushed = lists.push(&literals(alloc, ',')?, Encoding::Utf8, false);
    Ok(lists)
}

/// What a string is written as.
fn written(alloc: Global, form: &TextForm, room: Room, said: &str) -> Result<Written, WritingFault>
    requires room { IsRoom room }
    requires form { IsTextForm form.now }
{
    let Ok(markup) = markup(alloc) else {
        return Err(WritingFault::OutOfMemory);
    };
    let Ok(said) = TextValue::from_str(alloc, said) else {
        return Err(WritingFault::OutOfMemory);
    };
    let lists = OpenLists {
        markup: &markup,
        numbers: &[0],
    };
    content_of(
        alloc,
        &writing(alloc),
        form,
        room,
        lists,
        &Value::Text(said),
    )
}

/// Whether these bytes are written, and so many bits of fill.
fn is_this(written: Result<Written, WritingFault>, bytes: &[u8], fill: u64) -> bool {
    match written {
        Ok(written) => {
            written.bytes.as_slice() == bytes
                && written.bits / 8 == bytes.len() as u64
                && written.fill == fill
        }
        Err(_) => false,
    }
}

fn is_refused(written: Result<Written, WritingFault>, cause: Unwritten) -> bool {
    match written {
        Ok(_) => false,
        Err(fault) => fault == WritingFault::Unwritten(cause),
    }
}

#[test]
fn strings_in_boxes(rt: HostRuntime) {
    let alloc = rt.alloc();
    let center = text(Encoding::Utf8, Justify::Center, false);
    let left = text(Encoding::Utf8, Justify::Left, true);
    let right = text(Encoding::Utf8, Justify::Right, true);
    let five = Room::Characters(5);
    assert!(rt; is_this(written(alloc, &center, five, "ab"), b"*ab**", 0));
    assert!(rt; is_refused(written(alloc, &center, five, "abcdef"), Unwritten::TooLong));
    assert!(rt;
        is_this(
            written(alloc, &left, Room::Characters(3), "abcde"),
            b"abc",
            0
        )
    );
    assert!(rt;
        is_this(
            written(alloc, &right, Room::Characters(3), "abcde"),
            b"cde",
            0
        )
    );
    assert!(rt; is_this(written(alloc, &left, Room::Bits(20), "abc"), b"ab", 4));
    assert!(rt;
        is_this(
            written(alloc, &left, Room::Bits(24), "\u{e9}\u{e9}"),
            b"\xc3\xa9*",
            0
        )
    );
    assert!(rt; is_this(written(alloc, &right, Room::Open, "ab"), b"**ab", 0));
    let narrow = text(Encoding::UsAscii, Justify::Left, true);
    assert!(rt;
        is_refused(
            written(alloc, &narrow, five, "\u{e9}"),
            Unwritten::NotInEncoding
        )
    );
}

#[test]
fn strings_escaped(rt: HostRuntime) {
    let alloc = rt.alloc();
    let left = text(Encoding::Utf8, Justify::Left, false);
    assert!(rt; is_this(written(alloc, &left, Room::Delimited, "b,c"), b"\"b,c\"", 0));
    assert!(rt; is_this(written(alloc, &left, Room::Delimited, "bc"), b"bc**", 0));
    assert!(rt; is_this(written(alloc, &left, Room::Open, "b,c"), b"b,c*", 0));
}

/// Without a pad character what a box lacks is fill.
#[test]
fn strings_filled(rt: HostRuntime) {
    let alloc = rt.alloc();
    let mut wide = text(Encoding::Utf16Be, Justify::Left, false);
    wide.pad.pad = None;
    assert!(rt; is_this(written(alloc, &wide, Room::Characters(3), "a"), b"\0a", 32));
    assert!(rt; is_this(written(alloc, &wide, Room::Open, "a"), b"\0a", 0));
}

/// `#,##0.00`, in groups of three digits.
fn pattern(alloc: Global) -> Result<NumberPattern, AllocError>
    ensures { IfOk result IsNumberPattern }
{
    let mut minus = Vec::new(alloc);
    minus.push('-')?;
    Ok(NumberPattern {
        prefix: CharList::new(Vec::new(alloc)),
        suffix: CharList::new(Vec::new(alloc)),
        negative_prefix: CharList::new(minus),
        negative_suffix: CharList::new(Vec::new(alloc)),
        least_integer: 1,
        greatest_integer: 4,
        group_size: 3,
        point: Point::Written,
        least_fraction: 2,
        greatest_fraction: 2,
        implied: 0,
    })
}

/// 1234.5 by the pattern, in a room.
fn number(alloc: Global, room: Room) -> Result<Written, WritingFault>
    requires { IsRoom room }
{
    let Ok(pattern) = pattern(alloc) else {
        return Err(WritingFault::OutOfMemory);
    };
    let Some(number) = NumberForm::new(10, Some(pattern), '.', ',', Rounding::HalfEven) else {
        return Err(WritingFault::OutOfMemory);
    };
    let Ok(value) = Value::read(alloc, Simple::Decimal, "1234.5") else {
        return Err(WritingFault::OutOfMemory);
    };
    let Ok(markup) = markup(alloc) else {
        return Err(WritingFault::OutOfMemory);
    };
    let lists = OpenLists {
        markup: &markup,
        numbers: &[0],
    };
    let mut form = text(Encoding::Utf8, Justify::Right, false);
    form.content = TextContent::Number {
        form: number,
        kind: Simple::Decimal,
    };
    content_of(alloc, &writing(alloc), &form, room, lists, &value)
}

#[test]
fn numbers_by_pattern(rt: HostRuntime) {
    let alloc = rt.alloc();
    assert!(rt; is_this(number(alloc, Room::Open), b"1,234.50", 0));
    assert!(rt; is_this(number(alloc, Room::Characters(10)), b"**1,234.50", 0));
    assert!(rt; is_refused(number(alloc, Room::Characters(7)), Unwritten::TextForm));
}

/// A packed number of four nibbles.
fn packed(rep: PackedRep) -> Primitive
    ensures { IsPrimitive result }
{
    Primitive::Packed(PackedForm {
        nibbles: 4,
        rep,
        codes: [0xC, 0xD, 0xF, 0xC],
        strict: false,
        point: 0,
        kind: Simple::Int,
        bytes_by: ByteOrder::Big,
        bits_by: BitOrder::MostFirst,
    })
}

/// Twelve bits of an unsigned number.
fn twelve() -> Primitive
    ensures { IsPrimitive result }
{
    Primitive::Integer(IntForm {
        bits: 12,
        bytes_by: ByteOrder::Big,
        bits_by: BitOrder::MostFirst,
        point: 0,
        kind: Simple::UnsignedShort,
    })
}

#[test]
fn numbers_in_bits(rt: HostRuntime) {
    let alloc = rt.alloc();
    let signed = packed(PackedRep::Packed);
    let bcd = packed(PackedRep::Bcd);
    let ibm = packed(PackedRep::Ibm4690);
    assert!(rt; is_this(binary_of(alloc, &signed, &Value::Int(-123)), b"\x12\x3d", 0));
    assert!(rt; is_this(binary_of(alloc, &signed, &Value::Int(0)), b"\x00\x0c", 0));
    assert!(rt; is_this(binary_of(alloc, &bcd, &Value::Int(123)), b"\x01\x23", 0));
    assert!(rt;
        is_refused(
            binary_of(alloc, &bcd, &Value::Int(-1)),
            Unwritten::PackedForm
        )
    );
    assert!(rt; is_this(binary_of(alloc, &ibm, &Value::Int(-12)), b"\xfd\x12", 0));
    assert!(rt; binary_bits(&signed, &Value::Int(1234)) == Ok(24));
    match binary_of(alloc, &twelve(), &Value::Uns(2748)) {
        Ok(written) => {
            assert!(rt; written.bytes.as_slice() == b"\xab\xc0".as_slice());
            assert!(rt; written.bits == 12);
        }
        Err(_) => assert!(rt; false),
    }
    assert!(rt;
        is_refused(
            binary_of(alloc, &twelve(), &Value::Uns(4096)),
            Unwritten::BinaryForm
        )
    );
}

/// What nil of these texts is written as in a room.
fn nil_in(alloc: Global, texts: NilTexts, room: Room) -> Result<Written, WritingFault>
    requires { IsRoom room }
{
    let form = text(Encoding::Utf8, Justify::Left, false);
    let nil = NilForm {
        texts,
        encoding: Encoding::Utf8,
        fold: false,
    };
    nil_of(alloc, &writing(alloc), &nil, &form.pad, room)
}

/// What nil is written as in a room that is the literal `-`.
fn literal_in(alloc: Global, room: Room) -> Result<Written, WritingFault>
    requires { IsRoom room }
{
    match literals(alloc, '-') {
        Ok(literals) => nil_in(alloc, NilTexts::Literals(literals), room),
        Err(_) => Err(WritingFault::OutOfMemory),
    }
}

#[test]
fn nil_in_boxes(rt: HostRuntime) {
    let alloc = rt.alloc();
    assert!(rt; is_this(literal_in(alloc, Room::Bits(20)), b"-*", 4));
    assert!(rt; is_refused(literal_in(alloc, Room::Bits(7)), Unwritten::TooLong));
    let dash = NilTexts::Character('-');
    assert!(rt; is_this(nil_in(alloc, dash, Room::Characters(3)), b"---", 0));
    let dash = NilTexts::Character('-');
    assert!(rt; is_this(nil_in(alloc, dash, Room::Bits(20)), b"--", 4));
    let byte = NilTexts::Byte(0xc8);
    assert!(rt; is_this(nil_in(alloc, byte, Room::Bits(24)), b"\xc8\xc8\xc8", 0));
    let byte = NilTexts::Byte(0xc8);
    assert!(rt; is_this(nil_in(alloc, byte, Room::Bits(20)), b"\xc8\xc8", 4));
    let byte = NilTexts::Byte(0);
    assert!(rt; is_this(nil_in(alloc, byte, Room::Open), b"\0", 0));
}
