// Which slot of a sequence with separators comes next.
ghost use Rattle.std.specs.Prelude.{◌≡◌, ◌+◌, ◌^◌, ◌≤◌, ◌&&◌, ◌∷◌, Bool, Option, [], IfNone, IfSome, length, slice_get};
ghost use Rattle.dfdl_report.specs.declared.cause.ParseCause.{ParseCause as AnyCause};
ghost use Rattle.dfdl_grammar.specs.Slots.{has_mark, is_blank, is_taken_back, is_tried, opens_before};
ghost use Rattle.dfdl_separators.specs.declared.progress.Progress.{Progress as AnyProgress};
ghost use Rattle.dfdl_parse.specs.declared.frame.Coming.{Coming as AnyComing};
ghost use Rattle.dfdl_separators.specs.Verdicts.{outcome};
ghost use Rattle.dfdl_parse.specs.Slots.{begins_by, cause_of, coming_from, first_here, first_in, first_of, first_row, first_told, later_than, or_next, separation_at, separation_of, slots_from, then_tried};

use crate::frame::{Coming, SlotPlace};
use dfdl_grammar::End;
use dfdl_report::ParseCause;
use dfdl_separators::{Here, Progress, SlotMove, SlotRule, SlotSeen, rule_of};
use dfdl_terms::{Row, RowId, Slot, Terms};

/// The row of a slot, if there is one.
pub(crate) fn own_of(terms: &Terms, slot: SlotPlace) -> Option<&Slot>
    ensures some { IfSome result (λ own. slots_from terms.now slot ≡ own.now ∷ later_than terms.now slot) }
    ensures few { IfSome result (λ _. slot.place + 1 + length (later_than terms.now slot) ≤ 2 ^ 63) }
    ensures none { IfNone result (slots_from terms.now slot ≡ []) }
{
    let slots = slots_of(terms, RowId::new(slot.sequence));
    slots.get(slot.place)
}

/// The slots behind that of a row.
pub(crate) fn later_than(terms: &Terms, slot: SlotPlace) -> &[Slot]
    requires { slot.place + 1 ≤ 2 ^ 63 }
    ensures { result.now ≡ later_than terms.now slot }
{
    let slots = slots_of(terms, RowId::new(slot.sequence));
    let next = slot.place + 1;
    if next <= slots.len() {
        &slots[next..]
    } else {
        &[]
    }
}

// The slots of the sequence of a row.
fn slots_of(terms: &Terms, id: RowId) -> &[Slot]
    ensures { result.now ≡ (separation_of (slice_get terms.now.rows id)).slots }
{
    if id.number() >= terms.rows() {
        return &[];
    }
    match terms.row(id) {
        Row::Separated { slots, .. } => slots.as_slice(),
        _ => &[],
    }
}

/// Whether an initiator resolves the points of the slots of a sequence.
pub(crate) fn is_initiated(terms: &Terms, slot: SlotPlace) -> bool
    ensures { result ≡ (separation_at terms.now slot).initiated }
{
    let id = RowId::new(slot.sequence);
    if id.number() >= terms.rows() {
        return false;
    }
    match terms.row(id) {
        Row::Separated { initiated, .. } => *initiated,
        _ => false,
    }
}

/// The slot of a row from a place on, or the first one behind them.
pub(crate) fn coming_from(slot: SlotPlace, own: &Slot, later: &[Slot]) -> Coming
    requires few { slot.place + 1 + length later.now ≤ 2 ^ 63 }
    ensures { result ≡ coming_from slot own.now later.now }
{
    let first = first_here(slot, own);
    match past(first) {
        Some(progress) => first_in(behind(slot, progress), later),
        None => first,
    }
}

/// The first slot of the rows from a place on.
pub(crate) fn first_behind(terms: &Terms, slot: SlotPlace) -> Coming
    ensures { result ≡ first_in slot (slots_from terms.now slot) }
{
    let slots = slots_of(terms, RowId::new(slot.sequence));
    let place = slot.place;
    if place <= slots.len() {
        first_in(slot, &slots[place..])
    } else {
        Coming::Past(slot.progress)
    }
}

// How far the sequence has come, where none of the slots begins that were asked for.
fn past(coming: Coming) -> Option<Progress>
    ensures some { IfSome result (λ progress. coming ≡ Coming.Past progress) }
    ensures none { IfNone result ((next : AnyProgress → AnyComing) → or_next coming next ≡ coming) }
{
    match coming {
        Coming::Past(progress) => Some(progress),
        Coming::Seeks { .. } => None,
        Coming::Parses { .. } => None,
        Coming::Counts { .. } => None,
        Coming::Aside { .. } => None,
        Coming::Lacks => None,
        Coming::Over => None,
    }
}

// The place behind that of a slot.
fn behind(slot: SlotPlace, progress: Progress) -> SlotPlace
    requires { slot.place + 1 ≤ 2 ^ 63 }
    ensures { result ≡ record slot { place = slot.place + 1; progress = progress } }
{
    SlotPlace {
        place: slot.place + 1,
        progress,
        ..slot
    }
}

/// The first slot of some rows, of which the first has this place.
pub(crate) fn first_in(slot: SlotPlace, slots: &[Slot]) -> Coming
    requires few { slot.place + length slots.now ≤ 2 ^ 63 }
    ensures { result ≡ first_in slot slots.now }
{
    let mut next = slot;
    for own in slots {
        let first = first_row(next, own);
        match past(first) {
            Some(progress) => next = behind(next, progress),
            None => return first,
        }
    }
    Coming::Past(next.progress)
}

// The first slot of a row, of which a question may tell how many are required, or the row itself, if it has none.
fn first_row(slot: SlotPlace, own: &Slot) -> Coming
    requires { slot.place + 1 ≤ 2 ^ 63 }
    ensures { result ≡ first_row slot own.now }
{
    if own.is_slotless {
        return Coming::Aside {
            slot: behind(slot, slot.progress),
            body: own.body.number(),
        };
    }
    first_told(slot, own)
}

// The first slot of a row, of which a question may tell how many are required.
fn first_told(slot: SlotPlace, own: &Slot) -> Coming
    ensures { result ≡ first_told slot own.now own.now.question }
{
    match own.question {
        None => first_here(begin(slot, own), own),
        Some(question) => Coming::Counts { slot, question },
    }
}

// The place of the first slot of a row.
fn begin(slot: SlotPlace, own: &Slot) -> SlotPlace
    ensures { result ≡ record slot { optional = Bool.false; left = own.now.least } }
{
    SlotPlace {
        optional: false,
        left: u128::from(own.least),
        ..slot
    }
}

// The first slot of a row from a place on.
fn first_here(slot: SlotPlace, own: &Slot) -> Coming
    ensures { result ≡ first_here slot own.now }
{
    let first = first_of(slot, own);
    match past(first) {
        Some(progress) => then_tried(slot, own, progress),
        None => first,
    }
}

// Behind those of a row that are required those follow that are tried.
fn then_tried(slot: SlotPlace, own: &Slot, progress: Progress) -> Coming
    ensures { result ≡ then_tried slot own.now progress }
{
    if slot.optional {
        return Coming::Past(progress);
    }
    let tried = SlotPlace {
        optional: true,
        left: u128::from(own.further),
        progress,
        ..slot
    };
    first_of(tried, own)
}

// The first of some slots of one row, of which so many are left.
fn first_of(slot: SlotPlace, own: &Slot) -> Coming
    ensures { result ≡ first_of slot own.now }
{
    if slot.left == 0 {
        return Coming::Past(slot.progress);
    }
    let parsed = slot.optional && own.is_parsed;
    let rule = rule_of(slot.progress.policy, slot.optional, parsed);
    let seen = SlotSeen::Slot {
        optional: slot.optional,
        parsed,
    };
    begins_by(
        slot,
        own,
        rule,
        slot.progress.after(seen),
        slot.progress.move_at(seen),
    )
}

// A slot that begins, by the first move in it.
fn begins_by(slot: SlotPlace, own: &Slot, rule: SlotRule, after: Progress, to: SlotMove) -> Coming
    ensures { result ≡ begins_by slot own.now rule after to }
{
    let here = slot.progress.here_of(rule);
    let begun = SlotPlace {
        rule,
        left: slot.left.saturating_sub(1),
        progress: after,
        ..slot
    };
    match to {
        SlotMove::TakeSeparator => Coming::Seeks { slot: begun, here },
        SlotMove::Parse => Coming::Parses {
            slot: begun,
            body: own.body.number(),
        },
        SlotMove::EndArray => Coming::Past(after),
        SlotMove::Fail(_) => Coming::Lacks,
        SlotMove::LookForSeparator => Coming::Over,
        SlotMove::Keep => Coming::Over,
        SlotMove::Drop => Coming::Over,
        SlotMove::EndGroup => Coming::Over,
    }
}

/// Whether the occurrence of such a slot is tried.
pub(crate) fn is_tried(rule: SlotRule) -> bool
    ensures { result ≡ is_tried rule }
{
    match rule {
        SlotRule::Required => false,
        SlotRule::NeverMissing => true,
        SlotRule::TrailingMissing => true,
        SlotRule::AnyMissing => true,
    }
}

// Whether parsing goes back to before such a slot where it isn't there.
fn is_taken_back(rule: SlotRule) -> bool
    ensures { result ≡ is_taken_back rule }
{
    match rule {
        SlotRule::Required => false,
        SlotRule::NeverMissing => false,
        SlotRule::TrailingMissing => true,
        SlotRule::AnyMissing => true,
    }
}

/// Whether the point of a slot is opened before the separator that it begins with.
pub(crate) fn opens_before(here: Here) -> bool
    ensures { result ≡ opens_before here }
{
    is_taken_back(here.rule) && here.begins()
}

/// Whether a mark that is no point is open around that of a slot.
pub(crate) fn has_mark(here: Here) -> bool
    ensures { result ≡ has_mark here }
{
    let at_its_end = is_taken_back(here.rule) && here.ends();
    opens_before(here) || at_its_end
}

/// Whether an occurrence gives no item, and neither its failure nor its place counts.
pub(crate) fn is_blank(
    moved: bool,
    empty: bool,
    failure: Option<ParseCause>,
    resolved: bool,
) -> bool
    ensures { result ≡ is_blank (outcome moved empty failure resolved) }
{
    match failure {
        None => !moved && empty,
        Some(_) => !resolved && empty,
    }
}

/// The cause of a failure.
pub(crate) fn cause_of(end: End) -> Option<ParseCause>
    ensures { result ≡ cause_of end }
{
    match end {
        End::Done => None,
        End::Failed { cause, .. } => Some(cause),
        End::Stopped { .. } => None,
    }
}
