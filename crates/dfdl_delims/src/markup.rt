// A register of lists of literals.
#![tactic(auto)]

ghost use Rattle.std.specs.Prelude.{◌≡◌, ◌↔◌, [], ◌∷◌, ◌++◌, List, ◌<◌, length, IfOk, OnOk, OnErr, IsErrOf};
ghost use Rattle.dfdl_delims.specs.Lists.{Opened};
ghost use Rattle.dfdl_delims.specs.Registers.{Holds, IsFull, with_units};
ghost use Rattle.dfdl_delims.specs.declared.refusal.Refusal.TheVariants.{Full};

use crate::candidate::Candidate;
use crate::filling::{fits, put_list, with_units};
use crate::firsts::Firsts;
use crate::mark::Mark;
use crate::refusal::Refusal;
use dfdl_forms::{Encoding, Literals, Piece};
use std::alloc::{AllocError, Global};
use std::marker::Model;

/// Lists of literals. A list is named by its number, 0 the one that was put first.
#[derive(Drop)]
pub struct Markup {
    marks: Vec<Mark>,
    starts: Vec<Candidate>,
    pieces: Vec<Piece>,
    firsts: Vec<Firsts>,
    scratch: Vec<Candidate>,
    lists: u32,
    units: u32,
}

impl Model for Markup {
    ghost use Rattle.dfdl_delims.specs.Registers.{Register};

    ghost Value = { Register };

    ghost view = { λ m. record {
      flat = record { marks = m.marks.items; starts = m.starts.items; pieces = m.pieces.items };
      firsts = m.firsts.items;
      lists = m.lists;
      units = m.units;
    } };
}

impl Markup {
    /// A register of no lists with room for so many, and for so many units of their literals: characters, raw bytes and classes, and
    /// one for a literal of none.
    pub fn open(alloc: Global, lists: u32, units: u32) -> Result<Markup, AllocError>
        ensures holds { IfOk result (λ markup. Holds markup []) }
        ensures room { IfOk result (λ markup. (markup.lists ≡ lists) × (markup.units ≡ units)) }
    {
        Ok(Markup {
            marks: Vec::with_capacity(alloc, lists as usize)?,
            starts: Vec::with_capacity(alloc, units as usize)?,
            pieces: Vec::with_capacity(alloc, units as usize)?,
            firsts: Vec::with_capacity(alloc, lists as usize)?,
            scratch: Vec::new(alloc),
            lists,
            units,
        })
    }

    /// So many units of literals and those of one list more, if a register can have room for so many.
    pub fn with_units(before: u32, literals: &Literals) -> Option<u32>
        ensures { result ≡ with_units before literals.now }
    {
        with_units(before, literals)
    }

    /// Puts a list behind the others: copies its literals. With `fold` an ASCII letter is its other case too.
    pub fn push(
        &mut self,
        literals: &Literals,
        encoding: Encoding,
        fold: bool,
    ) -> Result<(), Refusal>
        ensures pushed { OnOk result ((lists : List Opened) → Holds self.old lists
            → Holds self.new (lists ++ record { encoding = encoding; fold = fold; literals = literals.now } ∷ [])) }
        ensures full { IsErrOf result Full ↔ IsFull self.old literals.now }
        ensures still { OnErr result (self.new ≡ self.old) }
        ensures room { (self.new.lists ≡ self.old.lists) × (self.new.units ≡ self.old.units) }
    {
        if self.marks.len() >= self.lists as usize {
            return Err(Refusal::Full);
        }
        let units = self.units as usize;
        if self.pieces.len() > units {
            return Err(Refusal::Full);
        }
        if !fits(literals, units - self.pieces.len()) {
            return Err(Refusal::Full);
        }
        let place = self.marks.len();
        let starts = self.starts.len();
        let pieces = self.pieces.len();
        self.marks.push(Mark { starts, pieces })?;
        match put_list(
            place,
            encoding,
            fold,
            literals,
            &mut self.starts,
            &mut self.pieces,
            &mut self.firsts,
            &mut self.scratch,
        ) {
            Ok(()) => Ok(()),
            Err(_) => {
                self.marks.truncate(place);
                self.starts.truncate(starts);
                self.pieces.truncate(pieces);
                Err(Refusal::OutOfMemory)
            }
        }
    }

    /// How many lists there are.
    #[tactic(auto, using(crate::proofs::Held::held))]
    pub fn len(&self) -> usize
        ensures { (lists : List Opened) → Holds self.now lists → result ≡ length lists }
    {
        self.marks.len()
    }

    /// How much stands before each list.
    pub(crate) fn marks(&self) -> &[Mark]
        ensures { result.now ≡ self.now.flat.marks }
    {
        self.marks.as_slice()
    }

    /// The begins of the literals.
    pub(crate) fn starts(&self) -> &[Candidate]
        ensures { result.now ≡ self.now.flat.starts }
    {
        self.starts.as_slice()
    }

    /// The pieces of all literals.
    pub(crate) fn pieces(&self) -> &[Piece]
        ensures { result.now ≡ self.now.flat.pieces }
    {
        self.pieces.as_slice()
    }

    /// What is kept of the first bytes of each list's texts.
    pub(crate) fn firsts(&self) -> &[Firsts]
        ensures { result.now ≡ self.now.firsts }
    {
        self.firsts.as_slice()
    }

    /// Takes the last list off.
    pub fn pop(&mut self)
        ensures popped { (lists : List Opened) (list : Opened) → Holds self.old (lists ++ list ∷ []) → Holds self.new lists }
        ensures none { Holds self.old [] → Holds self.new [] }
        ensures room { (self.new.lists ≡ self.old.lists) × (self.new.units ≡ self.old.units) }
    {
        match self.marks.pop() {
            None => {}
            Some(mark) => {
                self.starts.truncate(mark.starts);
                self.pieces.truncate(mark.pieces);
                self.firsts.truncate(self.marks.len());
            }
        }
    }
}
