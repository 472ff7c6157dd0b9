// What a list of literals has become so far, and how one character changes it.
#![tactic(auto)]

ghost use Rattle.std.specs.Prelude.{◌≡◌, map, ◌≤◌, ◌&&◌, ◌==◌, length, IfOk, OnOk, if◌then◌else◌, Some, None};
ghost use Rattle.std.specs.Option.{option_and_then};
ghost use Rattle.dfdl_literals.specs.Names.{named};
ghost use Rattle.dfdl_literals.specs.Lists.{closed, is_divider, is_scalar, with_digit};
ghost use Rattle.dfdl_literals.specs.Steps.{State, accepts, act, acted, at_hash, code_end, entity, in_name, raw_low, start, step, whole};

use crate::letters::Letters;
use crate::names::{names_nothing, piece_named};
use crate::{Ending, Literals, Piece};
use std::alloc::{AllocError, Global};
use std::marker::Model;
use std::mem;

// Where a list stands: behind a whole item, or inside an entity.
#[derive(Clone, Copy)]
pub enum Mark {
    Whole(Ending),
    Name,
    Hash,
    Decimal(u32),
    Hex,
    Hexadecimal(u32),
    Raw,
    RawHigh(u32),
    RawByte(u8),
}

// What a character does.
#[derive(Clone, Copy)]
pub enum Act {
    Move(Mark),
    Add(Piece, Ending),
    Close,
    Letter(char),
}

pub fn is_space(c: char) -> bool
    ensures { result ≡ is_divider c }
{
    matches!(c, ' ' | '\t' | '\r' | '\n')
}

fn grown(base: u32, number: u32, c: char) -> Option<u32>
    requires low { 2 ≤ base }
    requires high { base ≤ 36 }
    ensures { result ≡ with_digit base number c }
{
    let digit = c.to_digit(base)?;
    let number = number.checked_mul(base)?.checked_add(digit)?;
    if number < 0x11_0000 {
        Some(number)
    } else {
        None
    }
}

fn act_whole(before: Ending, c: char) -> Option<Act>
    ensures { result ≡ whole before c }
{
    if is_space(c) {
        return Some(Act::Close);
    }
    match before {
        Ending::Alone => None,
        Ending::Doubled if c == ';' => None,
        _ if c == '%' => Some(Act::Move(Mark::Name)),
        _ => Some(Act::Add(Piece::Char(c), Ending::Ordinary)),
    }
}

fn act_entity(alone: bool, name: &[char]) -> Option<Act>
    ensures { result ≡ entity alone name.now (named name.now) }
{
    match piece_named(name) {
        Some(piece) => Some(Act::Add(piece, Ending::Ordinary)),
        None => {
            if alone && names_nothing(name) {
                Some(Act::Add(Piece::Nothing, Ending::Alone))
            } else {
                None
            }
        }
    }
}

fn act_name(alone: bool, name: &[char], c: char) -> Option<Act>
    ensures { result ≡ in_name alone name.now c }
{
    if c == ';' {
        act_entity(alone, name)
    } else if name.is_empty() && c == '%' {
        Some(Act::Add(Piece::Char('%'), Ending::Doubled))
    } else if name.is_empty() && c == '#' {
        Some(Act::Move(Mark::Hash))
    } else {
        Some(Act::Letter(c))
    }
}

fn act_hash(c: char) -> Option<Act>
    ensures { result ≡ at_hash (with_digit 10 0 c) c }
{
    match (grown(10, 0, c), c) {
        (Some(number), _) => Some(Act::Move(Mark::Decimal(number))),
        (None, 'x') => Some(Act::Move(Mark::Hex)),
        (None, 'r') => Some(Act::Move(Mark::Raw)),
        (None, _) => None,
    }
}

fn act_code_end(number: u32, c: char) -> Option<Act>
    ensures { result ≡ code_end number c }
{
    if c != ';' {
        return None;
    }
    let code = char::from_u32(number)?;
    Some(Act::Add(Piece::Char(code), Ending::Ordinary))
}

fn act_raw_low(high: u32, c: char) -> Option<Act>
    ensures { result ≡ raw_low (with_digit 16 high c) }
{
    let number = grown(16, high, c)?;
    let byte = u8::try_from(number).ok()?;
    Some(Act::Move(Mark::RawByte(byte)))
}

// What a character does at a mark; `alone` where the literal may be `%ES;`.
pub fn act_at(alone: bool, name: &[char], mark: Mark, c: char) -> Option<Act>
    ensures { result ≡ act alone name.now mark c }
{
    match mark {
        Mark::Whole(before) => act_whole(before, c),
        Mark::Name => act_name(alone, name, c),
        Mark::Hash => act_hash(c),
        Mark::Decimal(number) => match grown(10, number, c) {
            Some(more) => Some(Act::Move(Mark::Decimal(more))),
            None => act_code_end(number, c),
        },
        Mark::Hex => Some(Act::Move(Mark::Hexadecimal(grown(16, 0, c)?))),
        Mark::Hexadecimal(number) => match grown(16, number, c) {
            Some(more) => Some(Act::Move(Mark::Hexadecimal(more))),
            None => act_code_end(number, c),
        },
        Mark::Raw => Some(Act::Move(Mark::RawHigh(grown(16, 0, c)?))),
        Mark::RawHigh(high) => act_raw_low(high, c),
        Mark::RawByte(byte) => {
            if c == ';' {
                Some(Act::Add(Piece::Byte(byte), Ending::Ordinary))
            } else {
                None
            }
        }
    }
}

// A list that is being read.
#[derive(Drop)]
pub struct Scan {
    ended: Vec<Vec<Piece>>,
    pieces: Vec<Piece>,
    name: Letters,
    mark: Mark,
}

impl Model for Scan {
    ghost Value = { State };

    ghost view = { λ s. record {
      ended = map (λ v. v.items) s.ended.items;
      open_pieces = s.pieces.items;
      name = s.name;
      mark = s.mark;
    } };
}

impl Scan {
    pub fn new(alloc: Global) -> Scan
        ensures { result ≡ start }
    {
        Scan {
            ended: Vec::new(alloc),
            pieces: Vec::new(alloc),
            name: Letters::new(),
            mark: Mark::Whole(Ending::Ordinary),
        }
    }

    // Whether the list could go on by the character.
    pub fn step(&mut self, alloc: Global, c: char, empty_allowed: bool) -> Result<bool, AllocError>
        ensures { IfOk result (λ goes. step empty_allowed self.old c
            ≡ (if goes then Some self.new else None)) }
    {
        let alone = empty_allowed && self.pieces.is_empty();
        match act_at(alone, self.name.as_slice(), self.mark, c) {
            Some(act) => self.take(alloc, act),
            None => Ok(false),
        }
    }

    fn take(&mut self, alloc: Global, act: Act) -> Result<bool, AllocError>
        ensures { IfOk result (λ goes. acted self.old act
            ≡ (if goes then Some self.new else None)) }
    {
        match act {
            Act::Move(mark) => self.mark = mark,
            Act::Add(piece, before) => {
                self.pieces.push(piece)?;
                self.name = Letters::new();
                self.mark = Mark::Whole(before);
            }
            Act::Close => self.close(alloc)?,
            Act::Letter(c) => {
                self.mark = Mark::Name;
                return Ok(self.name.push(c));
            }
        }
        Ok(true)
    }

    fn close(&mut self, alloc: Global) -> Result<(), AllocError>
        ensures { OnOk result (acted self.old Act.Close ≡ Some self.new) }
    {
        if !self.pieces.is_empty() {
            let literal = mem::replace(&mut self.pieces, Vec::new(alloc));
            self.ended.push(literal)?;
        }
        self.name = Letters::new();
        self.mark = Mark::Whole(Ending::Ordinary);
        Ok(())
    }

    // Whether the list may end here.
    pub fn is_whole(&self) -> bool
        ensures { result ≡ accepts self.now }
    {
        matches!(self.mark, Mark::Whole(_))
    }

    // The literals, with the one that was still open.
    pub fn finish(self) -> Result<Literals, AllocError>
        ensures { IfOk result (λ l. l ≡ closed self.ended self.open_pieces) }
    {
        let Scan {
            mut ended,
            pieces,
            ..
        } = self;
        if !pieces.is_empty() {
            ended.push(pieces)?;
        }
        Ok(Literals::new(ended))
    }
}
