// What is kept of the first bytes of the lists that are open.
#![tactic(auto)]

ghost use Rattle.std.specs.Prelude.{◌≡◌, ◌≤◌, ℕ, ◌<◌, Bool, List, [], None, false, true, slice_get};
ghost use Rattle.dfdl_bits.specs.ByteSets.{has_byte};
ghost use Rattle.dfdl_delims.specs.Firsts.{BeginsNone};
ghost use Rattle.dfdl_delims.specs.Lists.{Decides, Opened};
ghost use Rattle.dfdl_delims.specs.Opening.{Opens};
ghost use Rattle.dfdl_delims.specs.Verdicts.{ArePlain, Told, begins_with, has_some, if_some, is_empty, named_firsts, some_first, verdict_of};

use crate::firsts::{FirstBytes, Firsts};
use crate::hit::counted;
use crate::open_lists::OpenLists;
use crate::verdict::Verdict;
use dfdl_bits::ByteSet;

// What is kept of a list, if there is one.
fn first_at(firsts: &[Firsts], number: u32) -> Option<Firsts>
    ensures { result ≡ slice_get firsts.now number }
{
    firsts.get(number as usize).copied()
}

fn is_empty(first: Option<Firsts>) -> bool
    ensures { result ≡ if_some is_empty first }
{
    match first {
        Some(first) => first.empty,
        None => false,
    }
}

fn has_some(first: Option<Firsts>) -> bool
    ensures { result ≡ if_some has_some first }
{
    match first {
        Some(first) => first.some,
        None => false,
    }
}

// Whether some list has a text of no byte.
fn some_empty(firsts: &[Firsts], numbers: &[u32]) -> bool
    ensures { result ≡ some_first is_empty (named_firsts firsts.now numbers.now) }
{
    for number in numbers {
        if is_empty(first_at(firsts, *number)) {
            return true;
        }
    }
    false
}

// Whether some list has a text with a byte.
fn some_longer(firsts: &[Firsts], numbers: &[u32]) -> bool
    ensures { result ≡ some_first has_some (named_firsts firsts.now numbers.now) }
{
    for number in numbers {
        if has_some(first_at(firsts, *number)) {
            return true;
        }
    }
    false
}

/// Whether the open lists have a text with a byte, and none without one.
pub(crate) fn are_plain(lists: OpenLists<'_>) -> bool
    ensures { result ≡ true → (opened : List Opened) → Opens lists.entry opened → ArePlain opened }
{
    let firsts = lists.markup.firsts();
    if some_empty(firsts, lists.numbers) {
        return false;
    }
    some_longer(firsts, lists.numbers)
}

// What a byte tells of the texts of the lists that the numbers name.
fn verdict(firsts: &[Firsts], numbers: &[u32], byte: u8) -> Verdict
    ensures { result ≡ verdict_of byte 0 None (named_firsts firsts.now numbers.now) }
{
    let mut best = None;
    for place in 0..numbers.len() {
        match first_at(firsts, numbers[place]) {
            None => {}
            Some(first) => {
                if first.more.has(byte) {
                    return Verdict::Longer;
                }
                best = counted(best, place, first.ones.has(byte));
            }
        }
    }
    Verdict::Alone(best)
}

/// What a byte tells of the texts of the open lists.
pub(crate) fn by_byte(lists: OpenLists<'_>, byte: u8) -> Verdict
    ensures { (opened : List Opened) → Opens lists.entry opened → Told opened byte result }
{
    verdict(lists.markup.firsts(), lists.numbers, byte)
}

// The bytes with which texts begin of the lists that the numbers name.
fn begins_in(firsts: &[Firsts], numbers: &[u32]) -> ByteSet
    ensures { (byte : ℕ) → byte < 256 → has_byte result byte ≡ some_first (begins_with byte) (named_firsts firsts.now numbers.now) }
{
    let mut set = ByteSet::none();
    for number in numbers {
        match first_at(firsts, *number) {
            None => {}
            Some(first) => {
                set = set.or(first.ones.or(first.more));
            }
        }
    }
    set
}

/// The bytes with which texts of the open lists begin, and whether a search for a text looks at a byte at all, in a box that has one
/// more: a byte that isn't of the set begins no text.
pub fn first_bytes(lists: OpenLists<'_>) -> FirstBytes
    ensures none { (opened : List Opened) → Opens lists.entry opened → (byte : ℕ) → byte < 256 → has_byte result.set byte ≡ false
        → BeginsNone opened byte }
    ensures looks { (opened : List Opened) (test : List ℕ → Bool) → Opens lists.entry opened → Decides opened test → result.looks ≡ test [] }
{
    let firsts = lists.markup.firsts();
    FirstBytes {
        set: begins_in(firsts, lists.numbers),
        looks: some_longer(firsts, lists.numbers),
    }
}
