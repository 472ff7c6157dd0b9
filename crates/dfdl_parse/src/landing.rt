// A leaf is read, and what it comes to is taken.
ghost use Rattle.std.specs.Prelude.{◌≡◌, ℕ, ◌+◌, ◌-◌, ◌*◌, ◌/◌, ◌^◌, ◌≤◌, Some, true, IfOk, List, OnOk, slice_get, take, drop, length};
ghost use Rattle.dfdl_bits.specs.Window.{Held, end_of, from_byte, seen_at};
ghost use Rattle.dfdl_region.specs.Bytes.{utf8_of};
ghost use Rattle.dfdl_report.specs.declared.cause.LimitCause.TheVariants.{Text};
ghost use Rattle.dfdl_grammar.specs.declared.end.End.{End as AnyEnd};
ghost use Rattle.dfdl_grammar.specs.declared.end.End.TheVariants.{Done};
ghost use Rattle.dfdl_grammar.specs.declared.end.Halt.TheVariants.{Limit};
ghost use Rattle.dfdl_grammar.specs.Outcomes.{ended};
ghost use Rattle.dfdl_terms.specs.declared.delimiters.Delimiters.{Delimiters};
ghost use Rattle.dfdl_grammar.specs.Delimiters.{lists_of, markup};
ghost use Rattle.dfdl_grammar.specs.Leaves.{Find, content_begins, failing_bit, has_room, hold, nil_values, program_for, read_by, taken_as, values_in};
ghost use Rattle.dfdl_looks.specs.Asks.{Reading, ask};
ghost use Rattle.dfdl_looks.specs.Tallies.{Tally, nothing};
ghost use Rattle.dfdl_grammar.specs.States.{anchor};
ghost use Rattle.dfdl_parse.specs.Opens.{IsHeld};
ghost use Rattle.dfdl_parse.specs.Moves.{read_leaf, read_move};
ghost use Rattle.dfdl_leaves.specs.Readings.{Answers, HasPiece, IsWithin, text_span};
ghost use Rattle.dfdl_parse.specs.Steps.{IsFree, Moved};
ghost use Rattle.dfdl_parse.specs.Registered.{HasOpen, IsRegistered};
ghost use Rattle.dfdl_parse.specs.Shown.{Comes, HasSameLimits, limits_of, state_of};
ghost use Rattle.dfdl_leaves.specs.Views.{IsSound, primitive_of, wanted as wanted_of};

use crate::frame::Focus;
use crate::parser::Parser;
use dfdl_bits::{Steps, Window};
use dfdl_delims::OpenLists;
use dfdl_grammar::{End, Instead, Span};
use dfdl_leaves::{Found, Glance, Leaf, Wanted, content_begins, has_room, read_wanted, text_span};
use dfdl_region::Content;
use dfdl_report::{LimitCause, ParseCause};
use dfdl_terms::{Primitive, Terms};
use std::alloc::AllocError;
use std::sync::ledger::Ledger;

impl Parser {
    // The leaf of a row begins, which is read by this primitive, or by another in its place.
    pub(crate) fn begin_leaf_of<L: Ledger>(
        &mut self,
        terms: &Terms,
        prim: u32,
        sight: &mut Window,
        steps: &mut Steps<L>,
    ) -> Result<bool, AllocError>
        requires base { IsHeld sight.old.base self.old.at (state_of self.old) }
        requires at { self.old.at ≤ 8 * end_of sight.old }
        requires registered { IsRegistered terms.now self.old }
        ensures moved { IfOk result (λ waits. (cost : Tally) → IsFree cost → Moved
            (read_leaf cost (limits_of self.old sight.old) self.old.focus sight.old terms.now.delimiters (nil_values terms.now.primitives self.old.instead)
            (slice_get terms.now.primitives (read_by terms.now.primitives self.old.instead prim)) self.old.stack (state_of self.old))
            waits self.old.far self.new sight.new (steps.new - steps.old)) }
        ensures steps { steps.old ≤ steps.new }
        ensures most { OnOk result (HasSameLimits self.old self.new) }
        ensures at { OnOk result (self.new.at ≤ 8 * end_of sight.new) }
    {
        let prim = self.read_by(terms, prim);
        let wanted = self.wanted(terms);
        match terms.tables().primitives().get(prim as usize) {
            None => {
                self.focus = Focus::Leave(End::Done);
                Ok(false)
            }
            Some(primitive) => {
                let waits = self.read(Leaf::of(primitive), wanted, sight, steps)?;
                Ok(waits)
            }
        }
    }

    // The primitive by which a leaf is read whose own has this number.
    pub(crate) fn read_by(&self, terms: &Terms, prim: u32) -> u32
        ensures { result ≡ read_by terms.now.primitives self.now.instead prim }
    {
        match self.instead {
            Instead::Nothing => prim,
            Instead::Nil(instead) => match values_at(terms, instead) {
                Wanted::Any => instead,
                Wanted::OneOf(_) => prim,
            },
            Instead::Empty(instead) => instead,
            Instead::Tried => prim,
        }
    }

    // Which values of a leaf are wanted.
    pub(crate) fn wanted<'t>(&self, terms: &'t Terms) -> Wanted<'t>
        ensures { wanted_of result ≡ nil_values terms.now.primitives self.now.instead }
    {
        match self.instead {
            Instead::Nothing => Wanted::Any,
            Instead::Nil(instead) => values_at(terms, instead),
            Instead::Empty(_) => Wanted::Any,
            Instead::Tried => Wanted::Any,
        }
    }

    // A leaf is read. Its box can't pass the end of the one around it.
    pub(crate) fn read<L: Ledger>(
        &mut self,
        leaf: Leaf<'_>,
        wanted: Wanted<'_>,
        sight: &mut Window,
        steps: &mut Steps<L>,
    ) -> Result<bool, AllocError>
        requires base { IsHeld sight.old.base self.old.at (state_of self.old) }
        requires at { self.old.at ≤ 8 * end_of sight.old }
        requires sound { IsSound (primitive_of leaf) }
        ensures moved { IfOk result (λ waits. (cost : Tally) (delimiters : List Delimiters) → IsFree cost → HasOpen delimiters self.old → Moved
            (read_leaf cost (limits_of self.old sight.old) self.old.focus sight.old delimiters (wanted_of wanted.entry) (Some (primitive_of leaf.entry)) self.old.stack (state_of self.old))
            waits self.old.far self.new sight.new (steps.new - steps.old)) }
        ensures steps { steps.old ≤ steps.new }
        ensures most { OnOk result (HasSameLimits self.old self.new) }
        ensures at { OnOk result (self.new.at ≤ 8 * end_of sight.new) }
    {
        let _end = sight.end();
        if !has_room(leaf, self.at, self.stop) {
            self.fail(ParseCause::LengthOutOfRange);
            return Ok(false);
        }
        let waits = self.read_in_box(leaf, wanted, sight, steps)?;
        Ok(waits)
    }

    // A leaf is read whose box ends in the one around it.
    fn read_in_box<L: Ledger>(
        &mut self,
        leaf: Leaf<'_>,
        wanted: Wanted<'_>,
        sight: &mut Window,
        steps: &mut Steps<L>,
    ) -> Result<bool, AllocError>
        requires base { IsHeld sight.old.base self.old.at (state_of self.old) }
        requires at { self.old.at ≤ 8 * end_of sight.old }
        requires sound { IsSound (primitive_of leaf) }
        requires room { has_room (primitive_of leaf) self.old.at self.old.stop ≡ true }
        ensures moved { IfOk result (λ waits. (cost : Tally) (delimiters : List Delimiters) → IsFree cost → HasOpen delimiters self.old → Moved
            (read_move cost (limits_of self.old sight.old) self.old.focus (content_begins (primitive_of leaf.entry) self.old.at) (from_byte sight.old (anchor (state_of self.old)))
            (ask (seen_at (from_byte sight.old (anchor (state_of self.old))))
            (program_for (wanted_of wanted.entry) (lists_of delimiters (markup (state_of self.old))) (primitive_of leaf.entry) self.old.at self.old.stop) nothing)
            self.old.stack (state_of self.old))
            waits self.old.far self.new sight.new (steps.new - steps.old)) }
        ensures steps { steps.old ≤ steps.new }
        ensures most { OnOk result (HasSameLimits self.old self.new) }
        ensures at { OnOk result (self.new.at ≤ 8 * end_of sight.new) }
    {
        let _end = sight.end();
        let first = content_begins(leaf, self.at);
        let glance = self.glance(leaf, wanted, sight, steps)?;
        Ok(self.land(glance, first, sight.size() as u64))
    }

    // The bytes before a leaf are given up, and it is read, where its box ends in the one around it. What it comes to isn't taken.
    #[tactic(auto, using(crate::proofs::Windows::end_from))]
    pub(crate) fn glance<L: Ledger>(
        &mut self,
        leaf: Leaf<'_>,
        wanted: Wanted<'_>,
        sight: &mut Window,
        steps: &mut Steps<L>,
    ) -> Result<Glance, AllocError>
        requires base { IsHeld sight.old.base self.old.at (state_of self.old) }
        requires at { self.old.at ≤ 8 * end_of sight.old }
        requires sound { IsSound (primitive_of leaf) }
        requires room { has_room (primitive_of leaf) self.old.at self.old.stop ≡ true }
        ensures answers { IfOk result (λ g. (delimiters : List Delimiters) → HasOpen delimiters self.old → Answers
            (ask (seen_at sight.new) (program_for (wanted_of wanted.entry) (lists_of delimiters (markup (state_of self.old))) (primitive_of leaf.entry) self.old.at self.old.stop) nothing)
            self.new.scratch g (steps.new - steps.old)) }
        ensures held { sight.new ≡ from_byte sight.old (anchor (state_of self.old)) }
        ensures end { end_of sight.new ≡ end_of sight.old }
        ensures steps { steps.old ≤ steps.new }
        ensures within { IfOk result (λ g. IsWithin g.found (end_of sight.new)) }
        ensures pieces { IfOk result (λ g. HasPiece g.found self.new.scratch) }
        ensures same { self.new ≡ record self.old { scratch = self.new.scratch; candidates = self.new.candidates } }
    {
        let _end = sight.end();
        sight.drop_before(self.anchor_at(self.at));
        let lists = OpenLists {
            markup: &self.markup,
            numbers: self.lists.from(self.hidden),
        };
        let glance = read_wanted(
            wanted,
            leaf,
            lists,
            self.at,
            self.stop,
            sight,
            &mut self.scratch,
            &mut self.candidates,
            steps,
        )?;
        Ok(glance)
    }

    // The reading of a leaf is taken whose content begins at a bit.
    fn land(&mut self, glance: Glance, first: u64, window: u64) -> bool
        requires pieces { HasPiece glance.found self.old.scratch }
        ensures moved { (sight : Held) (looks : ℕ) (reading : Reading Find) (cost : Tally)
            → Answers reading self.old.scratch glance looks → sight.size ≡ window → IsFree cost
            → Moved (read_move cost (limits_of self.old sight) self.old.focus first sight reading self.old.stack (state_of self.old))
            result self.old.far self.new sight looks }
        ensures most { HasSameLimits self.old self.new }
        ensures at { (end : ℕ) → self.old.at ≤ 8 * end → IsWithin glance.found end → self.new.at ≤ 8 * end }
    {
        match &glance.found {
            Found::NotYet => return true,
            Found::Reads { content, span } => self.put(*content, *span),
            Found::Octets { span } => self.hold_octets(*span),
            Found::Utf8 { span } => self.hold_utf8(*span),
            Found::Text {
                from,
                to,
                end,
                value,
            } => self.hold_text(*from, *to, *end, *value),
            Found::Fails(cause) => {
                self.fail_at(*cause, failing_bit(*cause, self.at, first));
            }
            Found::Past => self.stop_at(LimitCause::Window, window),
        }
        self.far = self.far.max(glance.far);
        false
    }

    // The innermost open element gets a content of this span.
    pub(crate) fn put(&mut self, content: Content, span: Span)
        ensures { Comes self.old (ended Done (taken_as content span (state_of self.old))) self.new }
    {
        let length = span.end.saturating_sub(self.at);
        self.region.set_content(self.inside, content);
        self.tell_lengths(length, span.value);
        self.at = span.end;
        self.focus = Focus::Leave(End::Done);
    }

    // The innermost open element gets the bytes that were read as its content of this span.
    fn hold_octets(&mut self, span: Span)
        ensures { Comes self.old (hold self.old.text.most Content.Octets self.old.scratch.octets.items span (state_of self.old)) self.new }
    {
        match self.text.add(self.scratch.octets.as_slice()) {
            Ok(from) => {
                let len = self.text.count() - from;
                self.put(Content::Octets { from, len }, span);
            }
            Err(_) => self.stop_at_text(),
        }
    }

    // The innermost open element gets the bytes that were read as a string of this span.
    fn hold_utf8(&mut self, span: Span)
        ensures { Comes self.old (hold self.old.text.most Content.Text self.old.scratch.octets.items span (state_of self.old)) self.new }
    {
        match self.text.add(self.scratch.octets.as_slice()) {
            Ok(from) => {
                let len = self.text.count() - from;
                self.put(Content::Text { from, len }, span);
            }
            Err(_) => self.stop_at_text(),
        }
    }

    // The innermost open element gets the characters that were read, from one place to another, as its content, whose box ends at
    // a bit. Its value has so many bits, where these aren't those of its bytes as UTF-8.
    fn hold_text(&mut self, from: usize, to: usize, end: u64, value: Option<u64>)
        requires { (from ≤ to) × (to ≤ length self.old.scratch.characters.items) }
        ensures { Comes self.old (hold self.old.text.most Content.Text
            (utf8_of (take (to - from) (drop from self.old.scratch.characters.items)))
            (text_span (length (utf8_of (take (to - from) (drop from self.old.scratch.characters.items)))) end value) (state_of self.old)) self.new }
    {
        match self.text.add_characters(&self.scratch.characters[from..to]) {
            Ok(from) => {
                let len = self.text.count() - from;
                let span = text_span(u64::from(len), end, value);
                self.put(Content::Text { from, len }, span);
            }
            Err(_) => self.stop_at_text(),
        }
    }

    // There are as many bytes of texts as there may be.
    pub(crate) fn stop_at_text(&mut self)
        ensures { self.new ≡ record self.old { focus = Focus.Leave (AnyEnd.Stopped (Limit Text) self.old.text.most) } }
    {
        let most = u64::from(self.text.most());
        self.stop_at(LimitCause::Text, most);
    }
}

// Which values are nil, where the primitive of a number tells them.
fn values_at(terms: &Terms, prim: u32) -> Wanted<'_>
    ensures { wanted_of result ≡ values_in (slice_get terms.now.primitives prim) }
{
    match terms.tables().primitives().get(prim as usize) {
        Some(Primitive::NilValues(form)) => Wanted::OneOf(form.values.as_slice()),
        _ => Wanted::Any,
    }
}

/// The bit at which a leaf fails: that of its box where this is longer than it can be, and else that of its content.
pub(crate) fn failing_bit(cause: ParseCause, of_box: u64, of_content: u64) -> u64
    ensures { result ≡ failing_bit cause of_box of_content }
{
    match cause {
        ParseCause::LengthOutOfRange => of_box,
        _ => of_content,
    }
}
