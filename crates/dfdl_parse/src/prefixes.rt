// Length prefixes, and what stands behind them.
ghost use Rattle.std.specs.Prelude.{◌≡◌, ℕ, ◌+◌, ◌-◌, ◌*◌, ◌/◌, ◌^◌, ◌<◌, ◌≤◌, Some, true, false, IfOk, IfSome, IfNone, OnOk, length, slice_get};
ghost use Rattle.dfdl_bits.specs.Window.{Held, end_of, from_byte, seen_at};
ghost use Rattle.dfdl_terms.specs.declared.row.Primitive.{Primitive as AnyPrimitive};
ghost use Rattle.dfdl_grammar.specs.Delimiters.{lists_of, markup};
ghost use Rattle.dfdl_grammar.specs.Leaves.{Find, content_begins, has_room, nil_values, program};
ghost use Rattle.dfdl_grammar.specs.Prefixes.{bits_of_units, size_of, units_left, units_told};
ghost use Rattle.dfdl_looks.specs.Asks.{Reading, ask};
ghost use Rattle.dfdl_looks.specs.Tallies.{nothing};
ghost use Rattle.dfdl_grammar.specs.States.{anchor};
ghost use Rattle.dfdl_parse.specs.Opens.{IsHeld};
ghost use Rattle.dfdl_parse.specs.Prefixed.{behind_units, can_fit, prefix_move, read_prefix, read_sized, sized_begins, units_begin};
ghost use Rattle.dfdl_leaves.specs.Readings.{Answers, IsWithin};
ghost use Rattle.dfdl_parse.specs.Steps.{Moved};
ghost use Rattle.dfdl_parse.specs.Registered.{IsRegistered};
ghost use Rattle.dfdl_parse.specs.Shown.{Becomes, HasSameLimits, limits_of, state_of};
ghost use Rattle.dfdl_leaves.specs.Views.{IsSound, primitive_of};

use crate::boxes::inner_end;
use crate::frame::{Behind, Focus};
use crate::landing::failing_bit;
use crate::parser::Parser;
use dfdl_bits::{Steps, Window};
use dfdl_grammar::End;
use dfdl_leaves::{Found, Glance, Leaf, Wanted, content_begins, has_room};
use dfdl_region::Content;
use dfdl_report::{LimitCause, ParseCause};
use dfdl_terms::{LengthUnit, Prefix, RowId, Terms, TextSize};
use std::alloc::AllocError;
use std::sync::ledger::Ledger;

impl Parser {
    // A row with a length prefix begins: the prefix is read, and what stands behind it begins.
    pub(crate) fn begin_prefix<L: Ledger>(
        &mut self,
        terms: &Terms,
        id: RowId,
        prefix: &Prefix,
        behind: Behind,
        sight: &mut Window,
        steps: &mut Steps<L>,
    ) -> Result<bool, AllocError>
        requires focus { self.old.focus ≡ Focus.Enter id }
        requires base { IsHeld sight.old.base self.old.at (state_of self.old) }
        requires at { self.old.at ≤ 8 * end_of sight.old }
        requires registered { IsRegistered terms.now self.old }
        requires by { prefix.now.prim < length terms.now.primitives }
        ensures moved { IfOk result (λ waits. Moved
            (read_prefix (limits_of self.old sight.old) id sight.old terms.now.delimiters prefix.now.own (behind_units terms.now.primitives prefix.now.unit behind)
            (slice_get terms.now.primitives prefix.now.prim) self.old.stack (state_of self.old))
            waits self.old.far self.new sight.new (steps.new - steps.old)) }
        ensures steps { steps.old ≤ steps.new }
        ensures most { OnOk result (HasSameLimits self.old self.new) }
        ensures at { OnOk result (self.new.at ≤ 8 * end_of sight.new) }
    {
        let _end = sight.end();
        let primitive = &terms.tables().primitives()[prefix.prim as usize];
        let leaf = Leaf::of(primitive);
        if !has_room(leaf, self.at, self.stop) {
            self.fail(ParseCause::LengthOutOfRange);
            return Ok(false);
        }
        let waits = self.prefix_in_box(terms, leaf, *prefix, behind, sight, steps)?;
        Ok(waits)
    }

    // A prefix is read whose box ends in the one around it, and what stands behind it begins.
    fn prefix_in_box<L: Ledger>(
        &mut self,
        terms: &Terms,
        leaf: Leaf<'_>,
        prefix: Prefix,
        behind: Behind,
        sight: &mut Window,
        steps: &mut Steps<L>,
    ) -> Result<bool, AllocError>
        requires base { IsHeld sight.old.base self.old.at (state_of self.old) }
        requires at { self.old.at ≤ 8 * end_of sight.old }
        requires registered { IsRegistered terms.now self.old }
        requires sound { IsSound (primitive_of leaf) }
        requires room { has_room (primitive_of leaf) self.old.at self.old.stop ≡ true }
        ensures moved { IfOk result (λ waits. (id : ℕ) → self.old.focus ≡ Focus.Enter id → Moved
            (prefix_move (limits_of self.old sight.old) id prefix.own (content_begins (primitive_of leaf.entry) self.old.at)
            (behind_units terms.now.primitives prefix.unit behind) (from_byte sight.old (anchor (state_of self.old)))
            (ask (seen_at (from_byte sight.old (anchor (state_of self.old))))
            (program (lists_of terms.now.delimiters (markup (state_of self.old))) (primitive_of leaf.entry) self.old.at self.old.stop) nothing)
            self.old.stack (state_of self.old))
            waits self.old.far self.new sight.new (steps.new - steps.old)) }
        ensures steps { steps.old ≤ steps.new }
        ensures most { OnOk result (HasSameLimits self.old self.new) }
        ensures at { OnOk result (self.new.at ≤ 8 * end_of sight.new) }
    {
        let _end = sight.end();
        let first = content_begins(leaf, self.at);
        let glance = self.glance(leaf, Wanted::Any, sight, steps)?;
        let window = sight.size() as u64;
        let waits = self.land_prefix(terms, glance, prefix, behind, first, window)?;
        Ok(waits)
    }

    // The reading of a prefix is taken whose content begins at a bit.
    fn land_prefix(
        &mut self,
        terms: &Terms,
        glance: Glance,
        prefix: Prefix,
        behind: Behind,
        first: u64,
        window: u64,
    ) -> Result<bool, AllocError>
        ensures moved { IfOk result (λ waits. (sight : Held) (id looks : ℕ) (reading : Reading Find) → self.old.focus ≡ Focus.Enter id
            → Answers reading self.old.scratch glance looks → sight.size ≡ window
            → Moved (prefix_move (limits_of self.old sight) id prefix.own first (behind_units terms.now.primitives prefix.unit behind) sight reading
            self.old.stack (state_of self.old)) waits self.old.far self.new sight looks) }
        ensures most { OnOk result (HasSameLimits self.old self.new) }
        ensures at { OnOk result ((end : ℕ) → self.old.at ≤ 8 * end → IsWithin glance.found end → self.new.at ≤ 8 * end) }
    {
        match &glance.found {
            Found::NotYet => return Ok(true),
            Found::Reads { content, span } => {
                let units = units_told(prefix.own, content);
                self.go_behind(terms, units, span.end, prefix.unit, behind)?;
            }
            Found::Octets { .. } => self.fail(ParseCause::LengthOutOfRange),
            Found::Utf8 { .. } => self.fail(ParseCause::LengthOutOfRange),
            Found::Text { .. } => self.fail(ParseCause::LengthOutOfRange),
            Found::Fails(cause) => {
                self.fail_at(*cause, failing_bit(*cause, self.at, first));
            }
            Found::Past => self.stop_at(LimitCause::Window, window),
        }
        self.far = self.far.max(glance.far);
        Ok(false)
    }

    // Behind a prefix before a bit what stands there begins, by the number of units that the prefix tells.
    fn go_behind(
        &mut self,
        terms: &Terms,
        units: Option<u128>,
        end: u64,
        unit: LengthUnit,
        behind: Behind,
    ) -> Result<(), AllocError>
        ensures becomes { OnOk result (Becomes self.old
            (units_begin end (behind_units terms.now.primitives unit behind) units self.old.stack (state_of self.old)) self.new) }
        ensures at { OnOk result ((last : ℕ) → self.old.at ≤ 8 * last → end ≤ 8 * last → self.new.at ≤ 8 * last) }
    {
        match units {
            None => {
                self.fail(ParseCause::LengthOutOfRange);
                Ok(())
            }
            Some(count) => {
                self.at = end;
                self.begin_behind(terms, count, unit, behind)
            }
        }
    }

    // What stands behind a prefix begins, which has so many units.
    pub(crate) fn begin_behind(
        &mut self,
        terms: &Terms,
        units: u128,
        unit: LengthUnit,
        behind: Behind,
    ) -> Result<(), AllocError>
        ensures becomes { OnOk result (Becomes self.old
            (behind_units terms.now.primitives unit behind units self.old.stack (state_of self.old)) self.new) }
        ensures at { OnOk result (self.new.at ≡ self.old.at) }
    {
        match behind {
            Behind::Leaf(prim) => {
                self.begin_leaf(terms, prim, units, unit);
                Ok(())
            }
            Behind::Box(body) => match inner_bits(unit, units, self.at, self.stop) {
                Some(bits) => {
                    self.begin_box(bits, body)?;
                    Ok(())
                }
                None => {
                    self.fail(ParseCause::LengthOutOfRange);
                    Ok(())
                }
            },
        }
    }

    // The leaf of a primitive of the tables begins, which has so many units.
    fn begin_leaf(&mut self, terms: &Terms, prim: u32, units: u128, unit: LengthUnit)
        ensures becomes { Becomes self.old
            (sized_begins (slice_get terms.now.primitives prim) prim (size_of unit units) self.old.stack (state_of self.old)) self.new }
        ensures at { self.new.at ≡ self.old.at }
    {
        match terms.tables().primitives().get(prim as usize) {
            None => {
                self.focus = Focus::Leave(End::Done);
            }
            Some(_) => self.begin_sized(prim, units, unit),
        }
    }

    // A leaf of so many units begins. It can't pass the end of the box.
    fn begin_sized(&mut self, prim: u32, units: u128, unit: LengthUnit)
        ensures becomes { (primitive : AnyPrimitive) → Becomes self.old
            (sized_begins (Some primitive) prim (size_of unit units) self.old.stack (state_of self.old)) self.new }
        ensures at { self.new.at ≡ self.old.at }
    {
        match told_size(unit, units, self.at, self.stop) {
            Some(size) => {
                self.focus = Focus::Sized { prim, size };
            }
            None => self.fail(ParseCause::LengthOutOfRange),
        }
    }

    // The leaf of a primitive is read that has this size in place of its own.
    pub(crate) fn read_sized<L: Ledger>(
        &mut self,
        terms: &Terms,
        prim: u32,
        size: TextSize,
        sight: &mut Window,
        steps: &mut Steps<L>,
    ) -> Result<bool, AllocError>
        requires focus { self.old.focus ≡ Focus.Sized prim size }
        requires base { IsHeld sight.old.base self.old.at (state_of self.old) }
        requires at { self.old.at ≤ 8 * end_of sight.old }
        requires registered { IsRegistered terms.now self.old }
        ensures moved { IfOk result (λ waits. Moved
            (read_sized (limits_of self.old sight.old) sight.old terms.now.delimiters prim size (nil_values terms.now.primitives self.old.instead) (slice_get terms.now.primitives prim) self.old.stack (state_of self.old))
            waits self.old.far self.new sight.new (steps.new - steps.old)) }
        ensures steps { steps.old ≤ steps.new }
        ensures most { OnOk result (HasSameLimits self.old self.new) }
        ensures at { OnOk result (self.new.at ≤ 8 * end_of sight.new) }
    {
        let primitives = terms.tables().primitives();
        if prim as usize >= primitives.len() {
            self.focus = Focus::Leave(End::Done);
            return Ok(false);
        }
        match Leaf::in_box(&primitives[prim as usize], size) {
            None => {
                self.fail(ParseCause::LengthOutOfRange);
                Ok(false)
            }
            Some(leaf) => {
                let wanted = self.wanted(terms);
                let waits = self.read(leaf, wanted, sight, steps)?;
                Ok(waits)
            }
        }
    }
}

// How many units a prefix tells behind those that are its own, if it tells a number of them.
fn units_told(own: u64, content: &Content) -> Option<u128>
    ensures { result ≡ units_told own content.now }
{
    match content {
        Content::Unsigned(number) => number.checked_sub(u128::from(own)),
        Content::Signed(number) => signed_units(own, *number),
        Content::Begun => None,
        Content::Complex => None,
        Content::Nil => None,
        Content::Decimal(_) => None,
        Content::Truth(_) => None,
        Content::Text { .. } => None,
        Content::Octets { .. } => None,
    }
}

// How many units a signed number tells behind those that are the prefix's own.
fn signed_units(own: u64, number: i128) -> Option<u128>
    ensures { result ≡ units_left own number }
{
    if number < 0 {
        return None;
    }
    number.unsigned_abs().checked_sub(u128::from(own))
}

// So many units as the size of a content that begins at a bit, if it can end in a box that ends at another bit.
fn told_size(unit: LengthUnit, units: u128, at: u64, stop: u64) -> Option<TextSize>
    ensures some { IfSome result (λ size. (size ≡ size_of unit units) × (can_fit size at stop ≡ true)) }
    ensures none { IfNone result (can_fit (size_of unit units) at stop ≡ false) }
{
    match unit {
        LengthUnit::Characters => {
            let count = units.min(u128::from(u64::MAX)) as u64;
            Some(TextSize::Characters(count))
        }
        LengthUnit::Bits => match inner_bits(unit, units, at, stop) {
            Some(bits) => Some(TextSize::Bits(bits)),
            None => None,
        },
        LengthUnit::Bytes => match inner_bits(unit, units, at, stop) {
            Some(bits) => Some(TextSize::Bits(bits)),
            None => None,
        },
    }
}

// So many units as the bits of a box that begins at a bit, if the one around it doesn't end before.
fn inner_bits(unit: LengthUnit, units: u128, at: u64, stop: u64) -> Option<u64>
    ensures some { IfSome result (λ bits. (bits ≡ bits_of_units unit units) × (at + bits ≤ stop)) }
    ensures none { IfNone result (stop < at + bits_of_units unit units) }
{
    match bits_of_units(unit, units) {
        Some(bits) if inner_end(at, bits, stop).is_some() => Some(bits),
        _ => None,
    }
}

// So many units in bits, if 64 bits count them.
fn bits_of_units(unit: LengthUnit, units: u128) -> Option<u64>
    ensures some { IfSome result (λ bits. bits ≡ bits_of_units unit units) }
    ensures none { IfNone result (2 ^ 64 ≤ bits_of_units unit units) }
{
    if units > u128::from(u64::MAX) {
        return None;
    }
    let count = units as u64;
    match unit {
        LengthUnit::Bits => Some(count),
        LengthUnit::Bytes => count.checked_mul(8),
        LengthUnit::Characters => count.checked_mul(8),
    }
}
