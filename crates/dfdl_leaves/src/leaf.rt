// The content of a leaf, by looks at the bytes that its bits lie in.
ghost use Rattle.std.specs.Prelude.{◌≡◌, ℕ, ◌+◌, ◌-◌, ◌*◌, ◌/◌, ◌%◌, ◌^◌, ◌<◌, ◌≤◌, [], IfOk, List, Some, length, true};
ghost use Rattle.dfdl_bits.specs.Window.{end_of, seen_at};
ghost use Rattle.dfdl_delims.specs.Lists.{Opened};
ghost use Rattle.dfdl_delims.specs.Opening.{Opens};
ghost use Rattle.dfdl_forms.specs.BinaryNumbers.{IsIntForm, IsPackedForm, IsTruthForm};
ghost use Rattle.dfdl_terms.specs.declared.row.Primitive.TheVariants.{Integer, Packed, Truth};
ghost use Rattle.dfdl_grammar.specs.Leaves.{bits_of, bytes_spanned, find_in, find_of, has_room, packed_find, program, program_for};
ghost use Rattle.dfdl_looks.specs.Asks.{Told, ask};
ghost use Rattle.dfdl_looks.specs.Tallies.{nothing};
ghost use Rattle.dfdl_bits.specs.declared.window.Seen.TheVariants.{Byte};
ghost use Rattle.dfdl_leaves.specs.declared.leaf.Scratch.{Scratch as AnyScratch};
ghost use Rattle.dfdl_leaves.specs.Readings.{Answers, CutShort, HasNone, HasPiece, IsNumber, IsPlain, IsWithin, far_of_run, found_shown};
ghost use Rattle.dfdl_leaves.specs.Views.{IsSound, primitive_of, wanted as wanted_of};

use crate::defaults::read_default;
use crate::nil_values::nil_value_found;
use crate::nils::read_nil_octets;
use crate::octets::read_octets;
use crate::patterns::read_pattern;
use crate::spans::filled;
use crate::strings::read_string;
use crate::view::{Leaf, Wanted, number_bits};
use dfdl_bits::{Seen, Steps, Window, number_at};
use dfdl_delims::{Candidates, OpenLists};
use dfdl_escapes::Character;
use dfdl_forms::{BitTruthForm, Form, IntForm, PackedForm};
use dfdl_grammar::Span;
use dfdl_int_binary::{read, read_truth};
use dfdl_packed::PackedFault;
use dfdl_region::Content;
use dfdl_report::ParseCause;
use dfdl_value::Value;
use std::alloc::{AllocError, Global};
use std::sync::ledger::Ledger;

/// What is read before it has a place in the regions.
#[derive(Drop)]
pub struct Scratch {
    /// the characters of a string, before they are trimmed, or those in which a pattern is sought
    pub characters: Vec<char>,
    /// the characters of a content that markup ends, each escaped or not
    pub(crate) content: Vec<Character>,
    /// the bytes of a hexBinary, of a default, or of characters that may be nil
    pub octets: Vec<u8>,
    /// the places of a text that a literal can end at
    pub(crate) places: Vec<bool>,
    /// the text in which a pattern is sought
    pub text: String,
    /// where these lists and the text lie
    pub alloc: Global,
}

impl Scratch {
    /// Nothing is read yet.
    pub fn open(alloc: Global) -> Scratch
        ensures characters { result.characters.items ≡ [] }
        ensures octets { result.octets.items ≡ [] }
        ensures places { result.places.items ≡ [] }
    {
        Scratch {
            characters: Vec::new(alloc),
            content: Vec::new(alloc),
            octets: Vec::new(alloc),
            places: Vec::new(alloc),
            text: String::new(alloc),
            alloc,
        }
    }
}

/// What a leaf comes to.
#[derive(Debug, Clone, Copy, PartialEq, Eq)]
pub enum Found {
    /// Its content, the bit behind its box, and the length of its value.
    Reads {
        content: Content,
        span: Span,
    },
    /// A hexBinary, whose bytes are those of the scratch.
    Octets {
        span: Span,
    },
    /// A string, whose bytes are those of the scratch, as UTF-8.
    Utf8 {
        span: Span,
    },
    /// A string, whose characters are those of the scratch from one on and before another, the bit behind its box, and how many bits its
    /// value has, where these aren't those of its bytes as UTF-8.
    Text {
        from: usize,
        to: usize,
        end: u64,
        value: Option<u64>,
    },
    /// It has none, for this cause.
    Fails(ParseCause),
    /// A byte of it is too far from the first that is still needed.
    Past,
    /// A byte of it hasn't come.
    NotYet,
}

/// What a leaf comes to, and the greatest byte that it has seen or missed, plus one.
#[derive(Debug, Clone, Copy, PartialEq, Eq)]
pub struct Glance {
    pub found: Found,
    pub far: u64,
}

/// Reads a leaf whose box begins at bit `bit`, inside of a box that ends at bit `stop`; the texts of the open lists are terminating
/// markup. The characters of a string and the bytes of a hexBinary stand in the scratch then. A fault is want of memory for these. Chapter 'Simple Types'.
pub(crate) fn read_leaf<L: Ledger>(
    leaf: Leaf<'_>,
    lists: OpenLists<'_>,
    bit: u64,
    stop: u64,
    sight: &Window,
    scratch: &mut Scratch,
    candidates: &mut Candidates,
    steps: &mut Steps<L>,
) -> Result<Glance, AllocError>
    requires base { sight.now.base ≤ bit / 8 }
    requires at { bit ≤ 8 * end_of sight.now }
    requires bound { end_of sight.now ≤ 2 ^ 60 }
    requires sound { IsSound (primitive_of leaf) }
    requires room { has_room (primitive_of leaf) bit stop ≡ true }
    ensures answers { IfOk result (λ g. (opened : List Opened) → Opens lists.entry opened
        → Answers (ask (seen_at sight.now) (program opened (primitive_of leaf.entry) bit stop) nothing) scratch.new g (steps.new - steps.old)) }
    ensures steps { steps.old ≤ steps.new }
    ensures within { IfOk result (λ g. IsWithin g.found (end_of sight.now)) }
    ensures pieces { IfOk result (λ g. HasPiece g.found scratch.new) }
{
    match leaf {
        Leaf::Integer(_) => Ok(read_number(leaf, bit, sight, steps)),
        Leaf::Packed(_) => Ok(read_number(leaf, bit, sight, steps)),
        Leaf::Truth(_) => Ok(read_number(leaf, bit, sight, steps)),
        Leaf::Octets(form) => {
            let glance = read_octets(form, bit, sight, scratch, steps)?;
            Ok(glance)
        }
        Leaf::Text { form, size } => {
            let glance = read_string(
                form, size, lists, bit, stop, sight, scratch, candidates, steps,
            )?;
            Ok(glance)
        }
        Leaf::NilOctets { form, bits } => {
            let glance = read_nil_octets(form, bits, bit, sight, scratch, steps)?;
            Ok(glance)
        }
        Leaf::Default { form, size } => {
            let glance = read_default(
                form, size, lists, bit, stop, sight, scratch, candidates, steps,
            )?;
            Ok(glance)
        }
        Leaf::NilValues(_) => Ok(Glance {
            found: Found::Fails(ParseCause::RequiredEmpty),
            far: 0,
        }),
        Leaf::Pattern(form) => {
            let glance = read_pattern(form, bit, stop, sight, scratch, steps)?;
            Ok(glance)
        }
    }
}

/// Reads a leaf of which these values are wanted, and whose box begins at bit `bit`, inside of a box that ends at bit `stop`; the texts
/// of the open lists are terminating markup. The characters of a string and the bytes of a hexBinary stand in the scratch then. A
/// fault is want of memory for these. Chapter 'Simple Types'.
pub fn read_wanted<L: Ledger>(
    wanted: Wanted<'_>,
    leaf: Leaf<'_>,
    lists: OpenLists<'_>,
    bit: u64,
    stop: u64,
    sight: &Window,
    scratch: &mut Scratch,
    candidates: &mut Candidates,
    steps: &mut Steps<L>,
) -> Result<Glance, AllocError>
    requires base { sight.now.base ≤ bit / 8 }
    requires at { bit ≤ 8 * end_of sight.now }
    requires bound { end_of sight.now ≤ 2 ^ 60 }
    requires sound { IsSound (primitive_of leaf) }
    requires room { has_room (primitive_of leaf) bit stop ≡ true }
    ensures answers { IfOk result (λ g. (opened : List Opened) → Opens lists.entry opened
        → Answers (ask (seen_at sight.now) (program_for (wanted_of wanted.entry) opened (primitive_of leaf.entry) bit stop) nothing) scratch.new g (steps.new - steps.old)) }
    ensures steps { steps.old ≤ steps.new }
    ensures within { IfOk result (λ g. IsWithin g.found (end_of sight.now)) }
    ensures pieces { IfOk result (λ g. HasPiece g.found scratch.new) }
{
    let glance = read_leaf(leaf, lists, bit, stop, sight, scratch, candidates, steps)?;
    match wanted {
        Wanted::Any => Ok(glance),
        Wanted::OneOf(values) => {
            let found = nil_value_found(values, glance.found, scratch)?;
            Ok(Glance {
                found,
                far: glance.far,
            })
        }
    }
}

// Reads the leaf of a number or boolean.
fn read_number<L: Ledger>(leaf: Leaf<'_>, bit: u64, sight: &Window, steps: &mut Steps<L>) -> Glance
    requires base { sight.now.base ≤ bit / 8 }
    requires at { bit ≤ 8 * end_of sight.now }
    requires bound { end_of sight.now ≤ 2 ^ 60 }
    requires sound { IsSound (primitive_of leaf) }
    requires number { IsNumber (primitive_of leaf) }
    ensures answers { (opened : List Opened) (stop : ℕ) (scratch : AnyScratch) → Answers (ask (seen_at sight.now) (program opened (primitive_of leaf.entry) bit stop) nothing) scratch result (steps.new - steps.old) }
    ensures steps { steps.old ≤ steps.new }
    ensures within { IsWithin result.found (end_of sight.now) }
    ensures piece { (scratch : AnyScratch) → HasPiece result.found scratch }
{
    let first = bit / 8;
    let count = spanned(bit, number_bits(leaf));
    let run = sight.run(first, count, steps);
    if run.len() < count {
        return cut(first, run.len(), sight, steps);
    }
    let found = found_in(leaf, bit, run);
    Glance {
        found,
        far: first + count as u64,
    }
}

// What a leaf whose box begins at a bit is found as in the bytes that its bits lie in.
fn found_in(leaf: Leaf<'_>, bit: u64, bytes: &[u8]) -> Found
    requires bound { bit ≤ 2 ^ 63 }
    requires sound { IsSound (primitive_of leaf) }
    requires number { IsNumber (primitive_of leaf) }
    requires inside { bit % 8 + bits_of (primitive_of leaf) ≤ 8 * length bytes.now }
    ensures found { (scratch : AnyScratch) → found_shown scratch result ≡ Told (find_in (primitive_of leaf.entry) bit bytes.now) }
    ensures plain { IsPlain result (bit + bits_of (primitive_of leaf.entry)) }
{
    match leaf {
        Leaf::Integer(form) => integer_in(form, bit, bytes),
        Leaf::Packed(form) => packed_in(form, bit, bytes),
        Leaf::Truth(form) => truth_in(form, bit, bytes),
        Leaf::Octets(_) => unreachable!(),
        Leaf::Text { .. } => unreachable!(),
        Leaf::NilOctets { .. } => unreachable!(),
        Leaf::Default { .. } => unreachable!(),
        Leaf::NilValues(_) => unreachable!(),
        Leaf::Pattern(_) => unreachable!(),
    }
}

// What a binary number is found as.
fn integer_in(form: IntForm, bit: u64, bytes: &[u8]) -> Found
    requires bound { bit ≤ 2 ^ 63 }
    requires form { IsIntForm form }
    requires inside { bit % 8 + form.bits ≤ 8 * length bytes.now }
    ensures found { (scratch : AnyScratch) → found_shown scratch result ≡ Told (find_in (Integer form) bit bytes.now) }
    ensures plain { IsPlain result (bit + form.bits) }
{
    let span = filled(bit, u64::from(form.bits));
    if let Form::Unsigned { .. } = form.kind.form() {
        let number = number_at(bytes, bit % 8, form.bits, form.bytes_by, form.bits_by);
        return Found::Reads {
            content: Content::Unsigned(number),
            span,
        };
    }
    match read(bytes, bit % 8, &form) {
        Ok(value) => found_of(&value, span),
        Err(_) => Found::Fails(ParseCause::PastType),
    }
}

// What a packed number is found as.
fn packed_in(form: PackedForm, bit: u64, bytes: &[u8]) -> Found
    requires bound { bit ≤ 2 ^ 63 }
    requires form { IsPackedForm form }
    requires inside { bit % 8 + 4 * form.nibbles ≤ 8 * length bytes.now }
    ensures found { (scratch : AnyScratch) → found_shown scratch result ≡ Told (find_in (Packed form) bit bytes.now) }
    ensures plain { IsPlain result (bit + 4 * form.nibbles) }
{
    let span = filled(bit, 4 * u64::from(form.nibbles));
    packed_found(&dfdl_packed::read(bytes, bit % 8, &form), span)
}

/// What the reading of a packed or zoned number of this span is found as.
pub(crate) fn packed_found(read: &Result<Value, PackedFault>, span: Span) -> Found
    ensures found { (scratch : AnyScratch) → found_shown scratch result ≡ Told (packed_find span read.now) }
    ensures plain { IsPlain result span.end }
{
    match read {
        Ok(value) => found_of(value, span),
        Err(PackedFault::BadNibble) => Found::Fails(ParseCause::BadNibble),
        Err(PackedFault::PastType) => Found::Fails(ParseCause::PastType),
    }
}

// What a boolean is found as.
fn truth_in(form: BitTruthForm, bit: u64, bytes: &[u8]) -> Found
    requires bound { bit ≤ 2 ^ 63 }
    requires form { IsTruthForm form }
    requires inside { bit % 8 + form.bits ≤ 8 * length bytes.now }
    ensures found { (scratch : AnyScratch) → found_shown scratch result ≡ Told (find_in (Truth form) bit bytes.now) }
    ensures plain { IsPlain result (bit + form.bits) }
{
    let span = filled(bit, u64::from(form.bits));
    match read_truth(bytes, bit % 8, &form) {
        Ok(truth) => Found::Reads {
            content: Content::Truth(truth),
            span,
        },
        Err(_) => Found::Fails(ParseCause::UnknownBoolean),
    }
}

/// What a value of this span is found as.
pub(crate) fn found_of(value: &Value, span: Span) -> Found
    ensures found { (scratch : AnyScratch) → found_shown scratch result ≡ Told (find_of span (Some value.now)) }
    ensures plain { IsPlain result span.end }
{
    match value {
        Value::Int(number) => Found::Reads {
            content: Content::Signed(*number),
            span,
        },
        Value::Uns(number) => Found::Reads {
            content: Content::Unsigned(*number),
            span,
        },
        Value::Dec(number) => Found::Reads {
            content: Content::Decimal(*number),
            span,
        },
        Value::Text(_) => Found::Fails(ParseCause::PastType),
        Value::Truth(_) => Found::Fails(ParseCause::PastType),
        Value::Bytes(_) => Found::Fails(ParseCause::PastType),
    }
}

/// What the look behind so many bytes of a leaf makes of it.
pub(crate) fn cut<L: Ledger>(
    first: u64,
    count: usize,
    sight: &Window,
    steps: &mut Steps<L>,
) -> Glance
    requires base { sight.now.base ≤ first }
    requires bound { first + count ≤ 2 ^ 61 }
    requires whole { (byte : ℕ) → seen_at sight.now (first + count) ≡ Byte byte → ⊥ }
    ensures cut { CutShort (seen_at sight.now (first + count)) first count result }
    ensures cost { steps.new ≡ steps.old + 1 }
    ensures none { HasNone result.found }
{
    let next = first + count as u64;
    match sight.look(next, steps) {
        Seen::Byte(_) => unreachable!(),
        Seen::End => Glance {
            found: Found::Fails(ParseCause::DataEnds),
            far: next + 1,
        },
        Seen::NotYet => Glance {
            found: Found::NotYet,
            far: far_of_run(first, count),
        },
        Seen::Over => Glance {
            found: Found::Past,
            far: far_of_run(first, count),
        },
    }
}

// How far a run of so many bytes has seen.
fn far_of_run(first: u64, count: usize) -> u64
    requires { first + count ≤ 2 ^ 61 }
    ensures { result ≡ far_of_run first count }
{
    if count == 0 { 0 } else { first + count as u64 }
}

/// How many bytes the bits of a leaf lie in.
pub(crate) fn spanned(bit: u64, bits: u64) -> usize
    requires { bit + bits < 2 ^ 64 }
    ensures count { result ≡ bytes_spanned bit bits }
    ensures few { result ≤ 2 ^ 61 }
    ensures less { 8 * result ≤ bit % 8 + bits + 7 }
{
    (bit % 8 + bits).div_ceil(8) as usize
}
