// Delimiters and length prefixes that a person wrote.
#![tactic(auto)]

ghost use Rattle.std.specs.Prelude.{IfOk};
ghost use Rattle.dfdl_forms.specs.NumberForms.{IsNumberForm, IsNumberPattern};
ghost use Rattle.dfdl_terms.specs.Rows.{IsPrimitive};

use crate::{Unwritten, WritingFault, WritingForm, Written, delimiter_of, prefix_of, units_of};
use dfdl_forms::{
    BitOrder, ByteOrder, CharList, Encoding, EscapeKind, EscapeScheme, IntForm, Justify, Literals,
    NumberForm, NumberPattern, PadForm, Piece, Point, Rounding, Simple,
};
use dfdl_terms::{Delimiters, LengthUnit, Prefix, Primitive, TextContent, TextForm, TextSize};
use std::alloc::{AllocError, Global};

fn characters(alloc: Global, first: char, second: char) -> Result<CharList, AllocError> {
    let mut all = Vec::new(alloc);
    all.push(first)?;
    all.push(second)?;
    Ok(CharList::new(all))
}

fn literal(alloc: Global, first: Piece, second: Piece) -> Result<Vec<Piece>, AllocError> {
    let mut pieces = Vec::new(alloc);
    pieces.push(first)?;
    pieces.push(second)?;
    Ok(pieces)
}

/// `;%NL;`, or `%WSP+;%#rFF;`.
fn literals(alloc: Global) -> Result<Literals, AllocError> {
    let mut all = Vec::new(alloc);
    all.push(literal(alloc, Piece::Char(';'), Piece::NewLine)?)?;
    all.push(literal(alloc, Piece::Spaces, Piece::Byte(0xFF))?)?;
    Ok(Literals::new(all))
}

/// The terminator in an encoding, with a line break of two characters.
fn terminator(alloc: Global, encoding: Encoding, second: char) -> Result<Written, WritingFault> {
    let Ok(new_line) = characters(alloc, '\r', second) else {
        return Err(WritingFault::OutOfMemory);
    };
    let Ok(literals) = literals(alloc) else {
        return Err(WritingFault::OutOfMemory);
    };
    let list = Delimiters {
        literals,
        encoding,
        fold: false,
    };
    delimiter_of(alloc, &new_line, &list)
}

/// Whether these bytes are written, and no fill.
fn is_this(written: Result<Written, WritingFault>, bytes: &[u8]) -> bool {
    match written {
        Ok(written) => {
            written.bytes.as_slice() == bytes
                && written.bits / 8 == bytes.len() as u64
                && written.fill == 0
        }
        Err(_) => false,
    }
}

fn is_refused(written: Result<Written, WritingFault>, cause: Unwritten) -> bool {
    match written {
        Ok(_) => false,
        Err(fault) => fault == WritingFault::Unwritten(cause),
    }
}

#[test]
fn line_breaks_in_terminators(rt: HostRuntime) {
    let alloc = rt.alloc();
    assert!(rt; is_this(terminator(alloc, Encoding::Utf8, '\n'), b";\r\n"));
    assert!(rt; is_this(terminator(alloc, Encoding::Utf16Be, '\n'), b"\0;\0\r\0\n"));
    assert!(rt;
        is_refused(
            terminator(alloc, Encoding::UsAscii, '\u{85}'),
            Unwritten::NotInEncoding
        )
    );
}

fn writing(alloc: Global) -> WritingForm {
    WritingForm {
        least: 0,
        new_line: CharList::new(Vec::new(alloc)),
        scheme: EscapeScheme {
            kind: EscapeKind::Absent,
            escape: None,
            escape_escape: None,
            start: None,
            end: None,
            extra: CharList::new(Vec::new(alloc)),
            always: false,
        },
    }
}

/// One byte.
fn byte() -> Primitive
    ensures { IsPrimitive result }
{
    Primitive::Integer(IntForm {
        bits: 8,
        bytes_by: ByteOrder::Big,
        bits_by: BitOrder::MostFirst,
        point: 0,
        kind: Simple::UnsignedByte,
    })
}

#[test]
fn prefixes_of_one_byte(rt: HostRuntime) {
    let alloc = rt.alloc();
    let primitive = byte();
    let form = writing(alloc);
    let bytes = Prefix {
        prim: 0,
        unit: LengthUnit::Bytes,
        own: 1,
    };
    assert!(rt;
        is_this(
            prefix_of(alloc, &form, &primitive, units_of(bytes, 40, 5)),
            b"\x06"
        )
    );
    assert!(rt;
        is_this(
            prefix_of(alloc, &form, &primitive, units_of(bytes, 2032, 254)),
            b"\xff"
        )
    );
    assert!(rt;
        is_refused(
            prefix_of(alloc, &form, &primitive, units_of(bytes, 2040, 255)),
            Unwritten::Prefix
        )
    );
    assert!(rt;
        is_refused(
            prefix_of(alloc, &form, &primitive, units_of(bytes, 12, 1)),
            Unwritten::Prefix
        )
    );
    assert!(rt;
        is_refused(
            prefix_of(alloc, &form, &primitive, Some(300)),
            Unwritten::Prefix
        )
    );
}

/// `000`, without a second sub-pattern.
fn pattern(alloc: Global) -> Result<NumberPattern, AllocError>
    ensures { IfOk result IsNumberPattern }
{
    let mut minus = Vec::new(alloc);
    minus.push('-')?;
    Ok(NumberPattern {
        prefix: CharList::new(Vec::new(alloc)),
        suffix: CharList::new(Vec::new(alloc)),
        negative_prefix: CharList::new(minus),
        negative_suffix: CharList::new(Vec::new(alloc)),
        least_integer: 3,
        greatest_integer: 3,
        group_size: 0,
        point: Point::Absent,
        least_fraction: 0,
        greatest_fraction: 0,
        implied: 0,
    })
}

/// Three characters.
fn digits(number: NumberForm, kind: Simple) -> Primitive
    requires { IsNumberForm number }
    ensures { IsPrimitive result }
{
    Primitive::Text(TextForm {
        encoding: Encoding::Utf8,
        replaces: false,
        size: TextSize::Characters(3),
        pad: PadForm {
            justify: Justify::Right,
            pad: None,
            trim: None,
            truncate: false,
            keeps_zero: true,
        },
        content: TextContent::Number { form: number, kind },
    })
}

/// A prefix of three digits that tells so many units.
fn in_digits(alloc: Global, kind: Simple, units: u128) -> Result<Written, WritingFault> {
    let Ok(pattern) = pattern(alloc) else {
        return Err(WritingFault::OutOfMemory);
    };
    let Some(number) = NumberForm::new(10, Some(pattern), '.', ',', Rounding::HalfEven) else {
        return Err(WritingFault::OutOfMemory);
    };
    let primitive = digits(number, kind);
    prefix_of(alloc, &writing(alloc), &primitive, Some(units))
}

#[test]
fn prefixes_in_digits(rt: HostRuntime) {
    let alloc = rt.alloc();
    assert!(rt; is_this(in_digits(alloc, Simple::UnsignedShort, 5), b"005"));
    assert!(rt;
        is_refused(
            in_digits(alloc, Simple::UnsignedShort, 1000),
            Unwritten::Prefix
        )
    );
    assert!(rt;
        is_refused(
            in_digits(alloc, Simple::UnsignedByte, 300),
            Unwritten::Prefix
        )
    );
}
