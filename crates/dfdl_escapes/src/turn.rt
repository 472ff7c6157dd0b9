// What is made of what stands where a scan does.
ghost use Rattle.std.specs.Prelude.{◌≡◌, ℕ, ◌+◌, ◌^◌, ◌<◌, ◌≤◌, ◌&&◌, if◌then◌else◌, Bool, false, List};
ghost use Rattle.dfdl_bits.specs.declared.window.Seen.{Seen as AnySeen};
ghost use Rattle.dfdl_looks.specs.Asks.{Answer, Told, ask, go_on};
ghost use Rattle.dfdl_looks.specs.Tallies.{Tally};
ghost use Rattle.dfdl_delims.specs.Lists.{Opened};
ghost use Rattle.dfdl_escapes.specs.declared.form.Form.{Form as AnyForm};
ghost use Rattle.dfdl_escapes.specs.declared.form.Mode.TheVariants.{Escaping, Plain};
ghost use Rattle.dfdl_escapes.specs.declared.form.Stand.{Stand as AnyStand};
ghost use Rattle.dfdl_escapes.specs.declared.turn.Last.TheVariants.{Gives, Unless};
ghost use Rattle.dfdl_escapes.specs.declared.turn.Rest.TheVariants.{Taken};
ghost use Rattle.dfdl_escapes.specs.Readings.{FirstWithin, GoesTo, LastWithin, UnitFits, end_shown, first_reading, last_reading, rest_shown, step_shown, unit_shown};
ghost use Rattle.dfdl_escapes.specs.Steps.{as_content, before_case, case_in, escaping_case, in_block, in_block_escaped, inside_case, is_mark, pair_case, stand, unless_closed, unless_markup, Step, Takes};

use crate::end::End;
use crate::form::{Form, Mode, Stand};
use crate::scanned::Scanned;
use crate::unit::Unit;
use dfdl_report::ParseCause;

/// What a step comes to, and where the scan stands behind it.
#[derive(Debug, Clone, Copy)]
pub(crate) struct Turn {
    pub scanned: Scanned,
    pub at: Stand,
}

/// What comes where no terminating markup does.
#[derive(Debug, Clone, Copy)]
pub(crate) enum Rest {
    Taken { c: char, at: Stand },
    Bad,
}

/// What is left of a step: it is told, or told unless terminating markup stands there.
#[derive(Debug, Clone, Copy)]
pub(crate) enum Last {
    Gives(Turn),
    Unless(Rest),
}

/// What is left of a step behind its first unit: the last of it, or what stands behind a character that may escape, where the
/// escape character escapes or in a block.
#[derive(Debug, Clone, Copy)]
pub(crate) enum First {
    Settled(Last),
    Pair { c: char, next: u64 },
    BlockPair { c: char, next: u64 },
}

/// Whether the character is this mark.
pub(crate) fn is_mark(mark: Option<char>, c: char) -> bool
    ensures { result ≡ is_mark mark c }
{
    match mark {
        None => false,
        Some(mark) => c == mark,
    }
}

// A character, and where the scan stands behind it.
fn gives(scanned: Scanned, mode: Mode, byte: u64) -> Last
    ensures { result ≡ Gives (record { scanned = scanned; at = stand mode byte }) }
{
    Last::Gives(Turn {
        scanned,
        at: Stand { mode, byte },
    })
}

// A character that is content where no terminating markup stands.
fn unless(c: char, mode: Mode, byte: u64) -> Last
    ensures { result ≡ Unless (Taken c (stand mode byte)) }
{
    Last::Unless(Rest::Taken {
        c,
        at: Stand { mode, byte },
    })
}

// What stays where it stands.
fn stays(scanned: Scanned, at: Stand) -> Last
    ensures { result ≡ Gives (record { scanned = scanned; at = at }) }
{
    Last::Gives(Turn { scanned, at })
}

// What is left of a step behind the first unit in plain text.
fn first_in_plain(at: Stand, unit: Unit) -> Last
    requires { at.byte ≤ 2 ^ 60 }
    ensures left { (look : ℕ → AnySeen) (test : List ℕ → Bool) (lists : List Opened) (form : AnyForm) (t : Tally)
        → go_on look (λ piece. Answer (as_content Plain at.byte piece)) (unit_shown unit) t ≡ last_reading look test lists form at result t }
    ensures within { (come : ℕ) → UnitFits unit at.byte come → LastWithin at result come }
{
    match unit {
        Unit::Holds { c, bytes } => gives(
            Scanned::Content(c),
            Mode::Plain,
            at.byte + u64::from(bytes),
        ),
        Unit::Bad { .. } => stays(Scanned::Broken(ParseCause::BadCharacter), at),
        Unit::NoMore => stays(Scanned::EndOfBox, at),
        Unit::NotYet => stays(Scanned::NotYet, at),
        Unit::Over => stays(Scanned::Over, at),
    }
}

// What is left of a step behind the first unit where the escape character escapes.
fn first_in_escaping(form: &Form, at: Stand, unit: Unit) -> First
    requires { at.byte ≤ 2 ^ 60 }
    ensures left { (look : ℕ → AnySeen) (test : List ℕ → Bool) (lists : List Opened) (t : Tally)
        → go_on look (λ piece. escaping_case test lists form.now at.byte piece) (unit_shown unit) t ≡ first_reading look test lists form.now at result t }
    ensures within { (come : ℕ) → UnitFits unit at.byte come → FirstWithin at result come }
{
    match unit {
        Unit::Holds { c, bytes } => {
            let next = at.byte + u64::from(bytes);
            if is_mark(form.escape_escape, c) || is_mark(form.escape, c) {
                return First::Pair { c, next };
            }
            First::Settled(unless(c, Mode::Escaping, next))
        }
        Unit::Bad { .. } => First::Settled(Last::Unless(Rest::Bad)),
        Unit::NoMore => First::Settled(stays(Scanned::EndOfBox, at)),
        Unit::NotYet => First::Settled(stays(Scanned::NotYet, at)),
        Unit::Over => First::Settled(stays(Scanned::Over, at)),
    }
}

// What is left of a step behind the first unit where a block may begin.
fn first_before(form: &Form, at: Stand, unit: Unit) -> Last
    requires { at.byte ≤ 2 ^ 60 }
    ensures left { (look : ℕ → AnySeen) (test : List ℕ → Bool) (lists : List Opened) (t : Tally)
        → go_on look (λ piece. before_case test lists form.now at.byte piece) (unit_shown unit) t ≡ last_reading look test lists form.now at result t }
    ensures within { (come : ℕ) → UnitFits unit at.byte come → LastWithin at result come }
{
    match unit {
        Unit::Holds { c, bytes } => {
            let next = at.byte + u64::from(bytes);
            if is_mark(form.lead, c) {
                return unless(c, Mode::Before, next);
            }
            if is_mark(form.start, c) {
                return gives(Scanned::Skipped, Mode::Inside, next);
            }
            unless(c, Mode::Plain, next)
        }
        Unit::Bad { .. } => Last::Unless(Rest::Bad),
        Unit::NoMore => stays(Scanned::EndOfBox, at),
        Unit::NotYet => stays(Scanned::NotYet, at),
        Unit::Over => stays(Scanned::Over, at),
    }
}

// A character in a block.
fn in_block(form: &Form, c: char, next: u64) -> Turn
    ensures shown { step_shown result.at result.scanned ≡ Told (in_block form.now c next) }
    ensures within { (at : AnyStand) (last : ℕ) → at.byte ≤ next → next ≤ last → GoesTo result.scanned at result.at last }
{
    if is_mark(form.end, c) {
        return Turn {
            scanned: Scanned::Skipped,
            at: Stand {
                mode: Mode::Plain,
                byte: next,
            },
        };
    }
    Turn {
        scanned: Scanned::Escaped(c),
        at: Stand {
            mode: Mode::Inside,
            byte: next,
        },
    }
}

// What is left of a step behind the first unit in a block.
fn first_inside(form: &Form, at: Stand, unit: Unit) -> First
    requires { at.byte ≤ 2 ^ 60 }
    ensures left { (look : ℕ → AnySeen) (test : List ℕ → Bool) (lists : List Opened) (t : Tally)
        → go_on look (λ piece. inside_case form.now at.byte piece) (unit_shown unit) t ≡ first_reading look test lists form.now at result t }
    ensures within { (come : ℕ) → UnitFits unit at.byte come → FirstWithin at result come }
{
    match unit {
        Unit::Holds { c, bytes } => {
            let next = at.byte + u64::from(bytes);
            if is_mark(form.escape_escape, c) {
                return First::BlockPair { c, next };
            }
            First::Settled(Last::Gives(in_block(form, c, next)))
        }
        Unit::Bad { .. } => { First::Settled(stays(Scanned::Broken(ParseCause::BadCharacter), at)) }
        Unit::NoMore => First::Settled(stays(Scanned::Broken(ParseCause::DataEnds), at)),
        Unit::NotYet => First::Settled(stays(Scanned::NotYet, at)),
        Unit::Over => First::Settled(stays(Scanned::Over, at)),
    }
}

/// What is left of a step behind its first unit.
pub(crate) fn by_first(form: &Form, at: Stand, unit: Unit) -> First
    requires { at.byte ≤ 2 ^ 60 }
    ensures left { (look : ℕ → AnySeen) (test : List ℕ → Bool) (lists : List Opened) (t : Tally)
        → go_on look (λ piece. case_in test lists form.now at.mode at.byte piece) (unit_shown unit) t ≡ first_reading look test lists form.now at result t }
    ensures within { (come : ℕ) → UnitFits unit at.byte come → FirstWithin at result come }
{
    match at.mode {
        Mode::Plain => First::Settled(first_in_plain(at, unit)),
        Mode::Escaping => first_in_escaping(form, at, unit),
        Mode::Before => First::Settled(first_before(form, at, unit)),
        Mode::Inside => first_inside(form, at, unit),
    }
}

// What is left of a step at the character c, where this is what comes if it escapes what stands behind it.
fn choose(form: &Form, at: Stand, c: char, next: u64, is_escape: bool, given: Last) -> Last
    ensures left { (look : ℕ → AnySeen) (test : List ℕ → Bool) (lists : List Opened) (t : Tally) (step : Step)
        → last_reading look test lists form.now at given t ≡ record { reached = Told step; tally = t }
        → ask look (if is_mark form.now.escape_escape c && is_escape then Answer step else if is_mark form.now.escape c then Answer step
        else unless_markup test lists form.now at.byte (Answer (Takes c false (stand Escaping next)))) t
        ≡ last_reading look test lists form.now at result t }
    ensures within { (come : ℕ) → at.byte ≤ next → next ≤ come → LastWithin at given come → LastWithin at result come }
{
    if is_mark(form.escape_escape, c) && is_escape {
        return given;
    }
    if is_mark(form.escape, c) {
        return given;
    }
    unless(c, Mode::Escaping, next)
}

/// What is left of a step behind the second unit where the escape character escapes.
pub(crate) fn by_pair(form: &Form, at: Stand, c: char, next: u64, unit: Unit) -> Last
    requires { next ≤ 2 ^ 60 }
    ensures left { (look : ℕ → AnySeen) (test : List ℕ → Bool) (lists : List Opened) (t : Tally)
        → go_on look (λ piece. pair_case test lists form.now at.byte c next piece) (unit_shown unit) t ≡ last_reading look test lists form.now at result t }
    ensures within { (come : ℕ) → at.byte ≤ next → next ≤ come → UnitFits unit next come → LastWithin at result come }
{
    match unit {
        Unit::Holds { c: d, bytes } => choose(
            form,
            at,
            c,
            next,
            is_mark(form.escape, d),
            gives(Scanned::Escaped(d), Mode::Escaping, next + u64::from(bytes)),
        ),
        Unit::Bad { .. } => choose(
            form,
            at,
            c,
            next,
            false,
            stays(Scanned::Broken(ParseCause::BadCharacter), at),
        ),
        Unit::NoMore => choose(
            form,
            at,
            c,
            next,
            false,
            gives(Scanned::Content(c), Mode::Escaping, next),
        ),
        Unit::NotYet => stays(Scanned::NotYet, at),
        Unit::Over => stays(Scanned::Over, at),
    }
}

/// What is left of a step behind the second unit in a block.
pub(crate) fn by_block_pair(form: &Form, at: Stand, c: char, next: u64, unit: Unit) -> Turn
    requires { next ≤ 2 ^ 60 }
    ensures left { (look : ℕ → AnySeen) (t : Tally)
        → go_on look (λ piece. Answer (in_block_escaped form.now c next piece)) (unit_shown unit) t ≡ record { reached = step_shown result.at result.scanned; tally = t } }
    ensures within { (come : ℕ) → at.byte ≤ next → next ≤ come → UnitFits unit next come → GoesTo result.scanned at result.at come }
{
    match unit {
        Unit::Holds { c: d, bytes } => {
            if is_mark(form.end, d) {
                return Turn {
                    scanned: Scanned::Escaped(d),
                    at: Stand {
                        mode: Mode::Inside,
                        byte: next + u64::from(bytes),
                    },
                };
            }
            in_block(form, c, next)
        }
        Unit::Bad { .. } | Unit::NoMore => in_block(form, c, next),
        Unit::NotYet => Turn {
            scanned: Scanned::NotYet,
            at,
        },
        Unit::Over => Turn {
            scanned: Scanned::Over,
            at,
        },
    }
}

/// What a step comes to by what is found of terminating markup.
pub(crate) fn by_end(at: Stand, rest: Rest, end: End) -> Turn
    ensures left { (look : ℕ → AnySeen) (t : Tally)
        → go_on look (λ found. unless_closed (Answer (rest_shown rest)) found) (end_shown end) t ≡ record { reached = step_shown result.at result.scanned; tally = t } }
    ensures within { (come : ℕ) → LastWithin at (Unless rest) come → GoesTo result.scanned at result.at come }
{
    match end {
        End::None => match rest {
            Rest::Taken { c, at: next } => Turn {
                scanned: Scanned::Content(c),
                at: next,
            },
            Rest::Bad => Turn {
                scanned: Scanned::Broken(ParseCause::BadCharacter),
                at,
            },
        },
        End::At { which } => Turn {
            scanned: Scanned::Ends { which },
            at,
        },
        End::NotYet => Turn {
            scanned: Scanned::NotYet,
            at,
        },
        End::Over => Turn {
            scanned: Scanned::Over,
            at,
        },
    }
}
