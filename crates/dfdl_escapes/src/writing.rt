// Texts written by an escape scheme.
ghost use Rattle.std.specs.Prelude.{◌≡◌, ◌++◌, ◌∷◌, [], ◌||◌, if◌then◌else◌, Some, None, OnOk, IsErrOf};
ghost use Rattle.std.specs.List.{list_any};
ghost use Rattle.dfdl_forms.specs.declared.text.EscapeKind.TheVariants.{Block};
ghost use Rattle.dfdl_escapes.specs.declared.refusal.Refusal.TheVariants.{Impossible, NoSuchChar};
ghost use Rattle.dfdl_escapes.specs.Steps.{is_mark};
ghost use Rattle.dfdl_escapes.specs.Written.{begins_block, block_of, block_text, escaped_character, escaped_text, is_extra, is_given, is_impossible, is_lone_escape, last_of, mark_text, marked, needs_block, plain_text, written_by};

use crate::placed::Placed;
use crate::refusal::Refusal;
use crate::turn::is_mark;
use dfdl_forms::{EscapeKind, EscapeScheme};
use std::alloc::AllocError;

// Puts a mark, if there is such a mark.
fn put_mark(mark: Option<char>, into: &mut Vec<char>) -> Result<(), AllocError>
    ensures { OnOk result (into.new.items ≡ into.old.items ++ mark_text mark) }
{
    match mark {
        None => Ok(()),
        Some(mark) => {
            into.push(mark)?;
            Ok(())
        }
    }
}

// Puts a character behind a mark, if there is such a mark.
fn put_marked(mark: Option<char>, c: char, into: &mut Vec<char>) -> Result<(), AllocError>
    ensures { OnOk result (into.new.items ≡ into.old.items ++ marked mark c) }
{
    match mark {
        None => {
            into.push(c)?;
            Ok(())
        }
        Some(mark) => {
            into.push(mark)?;
            into.push(c)?;
            Ok(())
        }
    }
}

fn is_extra(scheme: &EscapeScheme, c: char) -> bool
    ensures { result ≡ is_extra scheme.now c }
{
    for other in scheme.extra.as_slice() {
        if *other == c {
            return true;
        }
    }
    false
}

// Whether the character is escaped where no terminating markup matches.
fn is_special(scheme: &EscapeScheme, place: Placed) -> bool
    ensures { result ≡ (place.is_markup || (is_extra scheme.now place.c || is_mark scheme.now.escape_escape place.c)) }
{
    if place.is_markup {
        return true;
    }
    if is_extra(scheme, place.c) {
        return true;
    }
    is_mark(scheme.escape_escape, place.c)
}

// Puts a character with an escape character.
fn put_escaped(scheme: &EscapeScheme, place: Placed, into: &mut Vec<char>) -> Result<(), AllocError>
    ensures { OnOk result (into.new.items ≡ into.old.items ++ escaped_character scheme.now place) }
{
    if is_mark(scheme.escape, place.c) {
        return put_marked(scheme.escape_escape, place.c, into);
    }
    if is_special(scheme, place) {
        return put_marked(scheme.escape, place.c, into);
    }
    put_marked(None, place.c, into)
}

// Puts the characters of a text with an escape character.
fn put_escaped_text(
    scheme: &EscapeScheme,
    places: &[Placed],
    into: &mut Vec<char>,
) -> Result<(), AllocError>
    ensures { OnOk result (into.new.items ≡ into.old.items ++ escaped_text scheme.now places.now) }
{
    for place in places {
        put_escaped(scheme, *place, into)?;
    }
    Ok(())
}

// Puts the characters of a text as they are.
fn put_plain_text(places: &[Placed], into: &mut Vec<char>) -> Result<(), AllocError>
    ensures { OnOk result (into.new.items ≡ into.old.items ++ plain_text places.now) }
{
    for place in places {
        into.push(place.c)?;
    }
    Ok(())
}

// Puts a character in a block.
fn put_in_block(scheme: &EscapeScheme, c: char, into: &mut Vec<char>) -> Result<(), AllocError>
    ensures { OnOk result (into.new.items ≡ into.old.items ++ (if is_mark scheme.now.end c then marked scheme.now.escape_escape c else c ∷ [])) }
{
    if is_mark(scheme.end, c) {
        return put_marked(scheme.escape_escape, c, into);
    }
    put_marked(None, c, into)
}

// Puts the characters of a text in a block.
fn put_block_text(
    scheme: &EscapeScheme,
    places: &[Placed],
    into: &mut Vec<char>,
) -> Result<(), AllocError>
    ensures { OnOk result (into.new.items ≡ into.old.items ++ block_text scheme.now places.now) }
{
    for place in places {
        put_in_block(scheme, place.c, into)?;
    }
    Ok(())
}

fn begins_block(scheme: &EscapeScheme, places: &[Placed]) -> bool
    ensures { result ≡ begins_block scheme.now places.now }
{
    match places {
        [] => false,
        [first, ..] => is_mark(scheme.start, first.c),
    }
}

// Whether the character asks for a block.
fn asks_block(scheme: &EscapeScheme, place: Placed) -> bool
    ensures { result ≡ (place.is_markup || is_extra scheme.now place.c) }
{
    if place.is_markup {
        return true;
    }
    is_extra(scheme, place.c)
}

fn some_ask_block(scheme: &EscapeScheme, places: &[Placed]) -> bool
    ensures { result ≡ list_any (λ place. place.is_markup || is_extra scheme.now place.c) places.now }
{
    for place in places {
        if asks_block(scheme, *place) {
            return true;
        }
    }
    false
}

fn needs_block(scheme: &EscapeScheme, places: &[Placed]) -> bool
    ensures { result ≡ needs_block scheme.now places.now }
{
    if scheme.always {
        return true;
    }
    if begins_block(scheme, places) {
        return true;
    }
    some_ask_block(scheme, places)
}

// Whether a block end is inside.
fn has_end(scheme: &EscapeScheme, places: &[Placed]) -> bool
    ensures { result ≡ list_any (λ place. is_mark scheme.now.end place.c) places.now }
{
    for place in places {
        if is_mark(scheme.end, place.c) {
            return true;
        }
    }
    false
}

fn last_of(places: &[Placed]) -> Option<char>
    ensures { result ≡ last_of None places.now }
{
    let mut last = None;
    for place in places {
        last = Some(place.c);
    }
    last
}

// Whether the character is an escape-escape character that isn't the block end.
fn is_lone_escape(scheme: &EscapeScheme, last: Option<char>) -> bool
    ensures { result ≡ is_lone_escape scheme.now last }
{
    match last {
        None => false,
        Some(c) => is_mark(scheme.escape_escape, c) && !is_mark(scheme.end, c),
    }
}

fn is_impossible(scheme: &EscapeScheme, places: &[Placed]) -> bool
    ensures { result ≡ is_impossible scheme.now places.now }
{
    if scheme.escape_escape.is_none() && has_end(scheme, places) {
        return true;
    }
    is_lone_escape(scheme, last_of(places))
}

// Puts a text as a block.
fn put_block(
    scheme: &EscapeScheme,
    places: &[Placed],
    into: &mut Vec<char>,
) -> Result<(), AllocError>
    ensures { OnOk result (into.new.items ≡ into.old.items ++ block_of scheme.now places.now) }
{
    put_mark(scheme.start, into)?;
    put_block_text(scheme, places, into)?;
    put_mark(scheme.end, into)?;
    Ok(())
}

// Writes a text by a scheme of blocks.
fn write_by_block(
    scheme: &EscapeScheme,
    places: &[Placed],
    into: &mut Vec<char>,
) -> Result<(), Refusal>
    requires { into.old.items ≡ [] }
    ensures written { OnOk result (written_by Block scheme.now places.now ≡ Some into.new.items) }
    ensures impossible { IsErrOf result Impossible → written_by Block scheme.now places.now ≡ None }
    ensures other { IsErrOf result NoSuchChar → ⊥ }
{
    if !needs_block(scheme, places) {
        put_plain_text(places, into)?;
        return Ok(());
    }
    if is_impossible(scheme, places) {
        return Err(Refusal::Impossible);
    }
    put_block(scheme, places, into)?;
    Ok(())
}

/// Writes a text by a scheme.
pub(crate) fn write(
    scheme: &EscapeScheme,
    places: &[Placed],
    into: &mut Vec<char>,
) -> Result<(), Refusal>
    requires { into.old.items ≡ [] }
    ensures written { OnOk result (written_by scheme.now.kind scheme.now places.now ≡ Some into.new.items) }
    ensures impossible { IsErrOf result Impossible → written_by scheme.now.kind scheme.now places.now ≡ None }
    ensures other { IsErrOf result NoSuchChar → ⊥ }
{
    match scheme.kind {
        EscapeKind::Absent => {
            put_plain_text(places, into)?;
            Ok(())
        }
        EscapeKind::Character => {
            put_escaped_text(scheme, places, into)?;
            Ok(())
        }
        EscapeKind::Block => write_by_block(scheme, places, into),
    }
}
