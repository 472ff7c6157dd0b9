// A name as far as it was read.
ghost use Rattle.std.specs.Prelude.{◌≡◌, ◌≢◌, [], ◌∷◌, OnOk, IfOk, IsTrue, IsSome, ◌↔◌, true, false, ◌≤◌, length, take};
ghost use Rattle.std.specs.List.{list_all};
ghost use Rattle.dfdl_doc_tree.specs.Plain.{ReadsOn, is_of};
ghost use Rattle.dfdl_doc_tree.specs.declared.plain.Class.TheVariants as Class;
ghost use Rattle.dfdl_xml_chars.specs.Shown.{bytes_of};
ghost use Rattle.dfdl_markup.specs.Machine.{First, name_next, whole_name};
ghost use Rattle.dfdl_doc_tree.specs.Shown.{goes_on, meets_in, name_seen};

use crate::plain::Class as Kind;
use dfdl_xml_chars::{Begun, is_name_char, is_name_start, meets_name_char, meets_name_start};
use dfdl_xml_names::Name;
use dfdl_xml_tree::Text;
use std::alloc::{AllocError, Global};
use std::marker::Model;
use std::mem;

/// Which part of a name is read.
#[derive(Clone, Copy, Debug, PartialEq, Eq, Drop)]
pub enum Part {
    First,
    /// Behind the `:`.
    Colon,
    Second,
}

/// A name as far as it was read.
#[derive(Drop)]
pub struct Reading {
    at: Part,
    prefix: Text,
    part: Text,
}

impl Model for Reading {
    ghost use Rattle.dfdl_markup.specs.Machine as machine;
    ghost use Rattle.dfdl_doc_tree.specs.Shown.{reading_seen};

    ghost Value = { machine.Reading };

    ghost view = { λ r. reading_seen r.at r.prefix r.part };
}

impl Reading {
    pub fn new(alloc: Global) -> Reading
        ensures { result ≡ First [] }
    {
        Reading {
            at: Part::First,
            prefix: Text::new(alloc),
            part: Text::new(alloc),
        }
    }

    /// Begins a name with this character.
    pub fn begin(&mut self, c: char) -> Result<(), AllocError>
        ensures { OnOk result (self.new ≡ First (c ∷ [])) }
    {
        self.at = Part::First;
        self.part.begin(c)
    }

    /// Goes on by a character, and answers whether it did.
    #[tactic(auto, unfolding(dfdl_markup::specs::Machine::name_next), using(crate::proofs::NameLetters::no_greater, crate::proofs::NameLetters::no_start_greater))]
    pub fn next(&mut self, c: char) -> Result<bool, AllocError>
        ensures next { IfOk result (λ goes. goes_on goes self.new ≡ name_next self.old c) }
        ensures same { IfOk result (λ goes. goes ≡ false → self.new ≡ self.old) }
        ensures other { IfOk result (λ goes. goes ≡ true → c ≢ 62) }
    {
        match self.at {
            Part::First if is_name_char(c) => {
                self.part.push(c)?;
                Ok(true)
            }
            Part::First if c == ':' => {
                mem::swap(&mut self.prefix, &mut self.part);
                self.at = Part::Colon;
                Ok(true)
            }
            Part::Colon if is_name_start(c) => {
                self.part.begin(c)?;
                self.at = Part::Second;
                Ok(true)
            }
            Part::Second if is_name_char(c) => {
                self.part.push(c)?;
                Ok(true)
            }
            _ => Ok(false),
        }
    }

    /// Goes on by as many characters at the head of the bytes as are plain characters of names, and
    /// answers how many; by none behind a `:`.
    #[tactic(auto, using(crate::proofs::Passes::first_goes, crate::proofs::Passes::second_goes))]
    pub fn pass(&mut self, bytes: &[u8]) -> Result<usize, AllocError>
        ensures within { IfOk result (λ count. count ≤ length bytes.now) }
        ensures class { IfOk result (λ count. list_all (is_of Class.Name) (take count bytes.now) ≡ true) }
        ensures reading { IfOk result (λ count. ReadsOn self.old (take count bytes.now) self.new) }
    {
        match self.at {
            Part::Colon => Ok(0),
            Part::First | Part::Second => Kind::Name.lengthen(&mut self.part, bytes),
        }
    }

    /// Some character that begins so goes on in the name.
    pub fn meets(&self, begun: Begun) -> bool
        ensures { result ≡ meets_in self.now (bytes_of begun) }
    {
        match self.at {
            Part::Colon => meets_name_start(begun),
            _ => meets_name_char(begun),
        }
    }

    /// A name may end here.
    pub fn is_whole(&self) -> bool
        ensures { IsTrue result ↔ IsSome (whole_name self.now) }
    {
        self.at != Part::Colon
    }

    /// Takes the name, if it may end here.
    pub fn take_name(&mut self, alloc: Global) -> Option<Name>
        ensures { name_seen result ≡ whole_name self.old }
    {
        match self.at {
            Part::First => Some(Name::Plain(self.part.take(alloc))),
            Part::Colon => None,
            Part::Second => Some(Name::Prefixed {
                prefix: self.prefix.take(alloc),
                part: self.part.take(alloc),
            }),
        }
    }
}
