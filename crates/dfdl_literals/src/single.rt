// What the literals of a text come to where one literal of one piece is looked for; needs no memory.
#![tactic(auto)]

ghost use Rattle.std.specs.Prelude.{◌≡◌, if◌then◌else◌, Some, None};
ghost use Rattle.std.specs.List.{list_any};
ghost use Rattle.std.specs.Str.{chars};
ghost use Rattle.dfdl_literals.specs.Lists.{is_divider};
ghost use Rattle.dfdl_literals.specs.SingleSteps.{found_more, found_text, found_whole, single_acted, single_start, single_step};

use crate::letters::Letters;
use crate::scan::{Act, Mark, act_at, is_space};
use crate::{Ending, Piece};
use std::marker::Model;

// What the literals so far come to.
#[derive(Clone, Copy)]
pub enum Found {
    // No literal.
    Blank,
    // One literal, of this piece alone.
    One(Piece),
    // Anything else.
    More,
}

fn with_piece(found: Found, piece: Piece) -> Found
    ensures { result ≡ found_more found piece }
{
    match found {
        Found::Blank => Found::One(piece),
        _ => Found::More,
    }
}

// A list that is being read, as far as one piece is looked for.
#[derive(Drop)]
struct SingleScan {
    found: Found,
    // The open literal has no piece.
    is_fresh: bool,
    name: Letters,
    mark: Mark,
}

impl Model for SingleScan {
    ghost use Rattle.dfdl_literals.specs.SingleSteps.{SingleState};

    ghost Value = { SingleState };

    ghost view = { λ s. record {
      found = s.found;
      is_fresh = s.is_fresh;
      name = s.name;
      mark = s.mark;
    } };
}

impl SingleScan {
    fn new() -> SingleScan
        ensures { result ≡ single_start }
    {
        SingleScan {
            found: Found::Blank,
            is_fresh: true,
            name: Letters::new(),
            mark: Mark::Whole(Ending::Ordinary),
        }
    }

    // Whether the list could go on by the character.
    fn step(&mut self, c: char, empty_allowed: bool) -> bool
        ensures { single_step empty_allowed self.old c ≡ (if result then Some self.new else None) }
    {
        let alone = empty_allowed && self.is_fresh;
        match act_at(alone, self.name.as_slice(), self.mark, c) {
            Some(act) => self.take(act),
            None => false,
        }
    }

    fn take(&mut self, act: Act) -> bool
        ensures { single_acted self.old act ≡ (if result then Some self.new else None) }
    {
        match act {
            Act::Move(mark) => self.mark = mark,
            Act::Add(piece, before) => {
                self.found = with_piece(self.found, piece);
                self.is_fresh = false;
                self.name = Letters::new();
                self.mark = Mark::Whole(before);
            }
            Act::Close => {
                self.is_fresh = true;
                self.name = Letters::new();
                self.mark = Mark::Whole(Ending::Ordinary);
            }
            Act::Letter(c) => {
                self.mark = Mark::Name;
                return self.name.push(c);
            }
        }
        true
    }

    // What the literals come to, where the list may end.
    fn finish(self) -> Option<Found>
        ensures { result ≡ found_whole self }
    {
        match self.mark {
            Mark::Whole(_) => Some(self.found),
            _ => None,
        }
    }
}

// What the literals of a text come to, if it is a list of literals.
pub fn found_in_text(text: &str, empty_allowed: bool) -> Option<Found>
    ensures { result ≡ found_text empty_allowed (chars text.now) }
{
    let mut scan = SingleScan::new();
    for c in text.chars() {
        if !scan.step(c, empty_allowed) {
            return None;
        }
    }
    scan.finish()
}

// Whether white space stands in a text, which divides literals.
pub fn has_space(text: &str) -> bool
    ensures { result ≡ list_any is_divider (chars text.now) }
{
    text.chars().any(is_space)
}
