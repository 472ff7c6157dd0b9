// Texts that are found in the lists that are open: which are open, at what places, and how far was seen.
ghost use Rattle.std.specs.Prelude.{◌≡◌, ◌<◌};

use crate::longest::longest;
use crate::{
    Candidates, Encoding, Found, Glance, Literals, Markup, OpenLists, Piece, first_bytes, laws,
};
use dfdl_bits::{Steps, Window};
use std::alloc::Global;
use std::marker::Brand;
use std::process::Abort;
use std::sync::ledger::{Blank, Ledger};
use std::test::Fail;

/// The list of one literal of characters.
fn list_of(alloc: Global, text: &str) -> Result<Literals, Fail> {
    let mut literal = Vec::new(alloc);
    for c in text.chars() {
        literal.push(Piece::Char(c))?;
    }
    let mut literals = Vec::new(alloc);
    literals.push(literal)?;
    Ok(Literals::new(literals))
}

/// The lists `a`, `ab` and `abc`.
fn register(rt: &impl Abort, alloc: Global) -> Result<Markup, Fail> {
    let mut register = Markup::open(alloc, 3, 6)?;
    let one = list_of(alloc, "a")?;
    let two = list_of(alloc, "ab")?;
    let three = list_of(alloc, "abc")?;
    assert!(rt; register.push(&one, Encoding::Utf8, false).is_ok());
    assert!(rt; register.push(&two, Encoding::Utf8, false).is_ok());
    assert!(rt; register.push(&three, Encoding::Utf8, false).is_ok());
    assert!(rt; register.push(&one, Encoding::Utf8, false).is_err());
    assert!(rt; register.len() == 3);
    Ok(register)
}

/// What `abx` begins with, where the lists of these numbers are open.
fn found_in<L: Ledger>(
    rt: &impl Abort,
    alloc: Global,
    numbers: &[u32],
    blank: Blank,
) -> Result<Glance, Fail>
    requires name { blank.name ≡ L.name }
    requires parts { blank.parts ≡ L.parts }
    requires some { 0 < L.parts }
{
    let register = register(rt, alloc)?;
    let lists = OpenLists {
        markup: &register,
        numbers,
    };
    let mut candidates = Candidates::new(alloc);
    let mut steps = Steps::<L>::open(blank);
    let mut window = Window::open(alloc, 4)?;
    let _ = window.append(b"abx");
    assert!(rt; window.base() == 0);
    let glance = longest(lists, &window, 0, 800, &mut candidates, &mut steps)?;
    Ok(glance)
}

fn is_match(glance: Glance, place: usize, length: u64, seen: u64) -> bool {
    match glance.found {
        Found::Match { which, bits } => which == place && bits == length && glance.far == seen,
        _ => false,
    }
}

#[test]
fn a_list_is_named_by_its_place(rt: HostRuntime) -> Result<(), Fail> {
    let alloc = rt.alloc();
    let glance = found_in::<Brand>(&rt, alloc, &[1, 0], Blank::new(1))?;
    assert!(rt; is_match(glance, 0, 16, 2));
    let glance = found_in::<Brand>(&rt, alloc, &[2, 1, 0, 1], Blank::new(1))?;
    assert!(rt; is_match(glance, 3, 16, 3));
    Ok(())
}

#[test]
fn a_list_that_is_not_open_is_not_found(rt: HostRuntime) -> Result<(), Fail> {
    let alloc = rt.alloc();
    let glance = found_in::<Brand>(&rt, alloc, &[0], Blank::new(1))?;
    assert!(rt; is_match(glance, 0, 8, 1));
    let glance = found_in::<Brand>(&rt, alloc, &[], Blank::new(1))?;
    assert!(rt; matches!(glance.found, Found::None) && glance.far == 0);
    Ok(())
}

#[test]
fn room_is_counted(rt: HostRuntime) -> Result<(), Fail> {
    let alloc = rt.alloc();
    let empty = list_of(alloc, "")?;
    let two = list_of(alloc, "ab")?;
    assert!(rt; Markup::with_units(0, &empty) == Some(1));
    assert!(rt; Markup::with_units(1, &two) == Some(3));
    assert!(rt; Markup::with_units(u32::MAX - 2, &two) == Some(u32::MAX));
    assert!(rt; Markup::with_units(u32::MAX - 1, &two).is_none());
    Ok(())
}

#[test]
fn a_list_is_taken_off(rt: HostRuntime) -> Result<(), Fail> {
    let mut register = register(&rt, rt.alloc())?;
    register.pop();
    assert!(rt; register.len() == 2);
    let first = first_bytes(OpenLists {
        markup: &register,
        numbers: &[0, 1],
    });
    assert!(rt; first.looks && first.set.has(b'a') && !first.set.has(b'b'));
    laws::longer_texts_are_decided();
    laws::other_bytes_begin_no_text();
    laws::texts_begin();
    laws::no_list_has_texts();
    laws::lists_fill_registers();
    Ok(())
}
