// Texts escaped by a scheme.
ghost use Rattle.std.specs.Prelude.{◌≡◌, List, Some, None, OnOk, IsErrOf};
ghost use Rattle.dfdl_chars.specs.Encodings.{encoded_text};
ghost use Rattle.dfdl_delims.specs.Lists.{Opened};
ghost use Rattle.dfdl_delims.specs.Opening.{Opens};
ghost use Rattle.dfdl_escapes.specs.declared.refusal.Refusal.TheVariants.{Impossible, NoSuchChar};
ghost use Rattle.dfdl_escapes.specs.Written.{written};

use crate::placing::place;
use crate::refusal::Refusal;
use crate::writing::write;
use dfdl_delims::OpenLists;
use dfdl_forms::{Encoding, EscapeScheme};
use std::alloc::Global;
use std::marker::Brand;
use std::sync::ledger::Blank;

/// Writes the characters of a text with an escape scheme, where the lists are the terminating markup and `enc` is the encoding of
/// the text. `into` is cleared; if the text can be written, what it is written as stands there then.
pub fn escape(
    scheme: &EscapeScheme,
    enc: Encoding,
    lists: OpenLists<'_>,
    text: &[char],
    alloc: Global,
    into: &mut Vec<char>,
) -> Result<(), Refusal>
    ensures written { OnOk result ((opened : List Opened) → Opens lists.entry opened → written scheme.now enc opened text.now ≡ Some into.new.items) }
    ensures impossible { IsErrOf result Impossible → (opened : List Opened) → Opens lists.entry opened → written scheme.now enc opened text.now ≡ None }
    ensures lacks { IsErrOf result NoSuchChar → encoded_text enc text.now ≡ None }
{
    into.clear();
    let mut places = Vec::new(alloc);
    place::<Brand>(enc, lists, text, alloc, Blank::new(1), &mut places)?;
    write(scheme, &places, into)
}
