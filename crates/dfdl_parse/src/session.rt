// The documents of a stream, each parsed while its data come.
ghost use Rattle.std.specs.Prelude.{◌≡◌, ◌+◌, ◌-◌, ◌*◌, ◌/◌, ◌^◌, ◌<◌, ◌≤◌, ◌⊎◌, ℕ, List, [], ◌++◌, true, false, IfOk, IsErr, OnErr, OnOk, if◌then◌else◌, length, max, string_bytes};
ghost use Rattle.dfdl_bits.specs.Window.{end_of, from_byte, room_of, up_to_byte};
ghost use Rattle.dfdl_grammar.specs.Documents.{front_at};
ghost use Rattle.dfdl_grammar.specs.Paths.{path_of};
ghost use Rattle.dfdl_parse.specs.Machines.{HasEnded};
ghost use Rattle.dfdl_parse.specs.Opens.{NeedsFrom};
ghost use Rattle.dfdl_parse.specs.Registered.{IsRegistered};
ghost use Rattle.dfdl_parse.specs.Running.{Advanced, Reaches, Waited};
ghost use Rattle.dfdl_parse.specs.Shown.{HasSameLimits, state_of};
ghost use Rattle.dfdl_parse.specs.Sessions.{HasTaken, StandsFor, IsReady, IsSound, Ends, Finished, byte_behind, document_of, still_needed};
ghost use Rattle.dfdl_parse.specs.Answers.{answer_at, answer_of};
ghost use Rattle.dfdl_grammar.specs.Outcomes.{Outcome as Meaning};

use crate::outcome::{Fed, Outcome};
use crate::parser::Parser;
use crate::path::path_of;
use crate::run::run;
use dfdl_bits::{Steps, Window};
use dfdl_grammar::Limits;
use dfdl_region::Node;
use dfdl_terms::Terms;
use std::alloc::{AllocError, Global};
use std::sync::ledger::Ledger;

/// The parsing of a stream of documents by the rows of a schema, one after another. Bits and bytes count from the front of
/// the stream.
#[derive(Drop)]
pub struct Session<'t> {
    pub(crate) terms: &'t Terms,
    pub(crate) limits: Limits,
    pub(crate) sight: Window,
    pub(crate) parser: Parser,
    pub(crate) start: u64,
    pub(crate) lost: bool,
}

impl<'t> Session<'t> {
    /// A session over no data yet, with the memory for the window, the elements and the bytes of their texts.
    pub fn open(alloc: Global, terms: &'t Terms, limits: Limits) -> Result<Session<'t>, AllocError>
        requires window { 1 ≤ limits.window }
        requires nodes { 1 ≤ limits.nodes }
        ensures ready { IfOk result (λ s. IsReady s) }
        ensures stands { IfOk result (λ s. StandsFor s [] 0 0 0) }
        ensures terms { IfOk result (λ s. s.terms.now ≡ terms.now) }
        ensures limits { IfOk result (λ s. s.limits ≡ limits) }
        ensures open { IfOk result (λ s. s.lost ≡ false) }
    {
        Ok(Session {
            terms,
            limits,
            sight: Window::open(alloc, limits.window)?,
            parser: Parser::open(alloc, terms, limits)?,
            start: 0,
            lost: false,
        })
    }

    /// Takes the next bytes of the data, however many they are, and answers whether more are needed. Where they are, the bytes are
    /// held from the first one on that the look needs which found none: fewer than the window's size. A session that has lost stays
    /// lost.
    pub fn feed<L: Ledger>(&mut self, piece: &[u8], steps: &mut Steps<L>) -> Result<Fed, AllocError>
        requires ready { self.old.lost ≡ true ⊎ IsReady self.old }
        requires bound { end_of self.old.sight + length piece.now ≤ 2 ^ 60 }
        ensures ready { OnOk result (IsReady self.new) }
        ensures room { IfOk result (λ fed. fed ≡ Fed.More → 0 < room_of self.new.sight) }
        ensures same { (self.new.terms ≡ self.old.terms) × (self.new.limits ≡ self.old.limits) × (self.new.start ≡ self.old.start) }
        ensures far { IfOk result (λ fed. fed ≡ Fed.More → (stream : List ℕ) (start spent allowed : ℕ) → StandsFor self.old stream start spent allowed
            → length (stream ++ piece.now) < (document_of self.old (stream ++ piece.now)).tally.far) }
        ensures held { IfOk result (λ fed. fed ≡ Fed.More → (stream : List ℕ) (start spent allowed : ℕ) → StandsFor self.old stream start spent allowed
            → length self.new.sight.bytes ≡ still_needed self.old (stream ++ piece.now)) }
        ensures more { IfOk result (λ fed. fed ≡ Fed.More → (stream : List ℕ) (start spent allowed : ℕ) → StandsFor self.old stream start spent allowed
            → StandsFor self.new (stream ++ piece.now) start (spent + (steps.new - steps.old)) (allowed + (document_of self.old (stream ++ piece.now)).tally.tail)) }
        ensures done { IfOk result (λ fed. (taken : ℕ) → fed ≡ Fed.Done taken → (stream : List ℕ) (start spent allowed : ℕ) → StandsFor self.old stream start spent allowed
            → Finished self.old self.new stream piece.now taken (spent + (steps.new - steps.old)) allowed) }
        ensures lost { OnErr result (self.new.lost ≡ true) }
        ensures again { self.old.lost ≡ true → IsErr result × (self.new ≡ self.old) }
    {
        if !self.can_go_on() {
            return Err(AllocError);
        }
        let before = self.sight.end();
        if let Err(fault) = self.sight.append_all(piece) {
            self.lost = true;
            return Err(fault);
        }
        let waits = self.run(steps)?;
        if waits {
            return Ok(Fed::More);
        }
        let taken = self.give_back(before);
        Ok(Fed::Done { taken })
    }

    // Whether no memory was wanting so far.
    fn can_go_on(&self) -> bool
        requires ready { self.now.lost ≡ true ⊎ IsReady self.now }
        ensures ready { result ≡ true → IsReady self.now }
        ensures on { result ≡ true → self.now.lost ≡ false }
        ensures lost { result ≡ false → self.now.lost ≡ true }
    {
        !self.lost
    }

    // Gives up those of the bytes from one on that weren't looked at, and answers how many of these are left.
    fn give_back(&mut self, before: u64) -> usize
        requires going_on { self.old.sight.ended ≡ false }
        requires base { self.old.sight.base ≤ max self.old.parser.far before }
        requires end { max self.old.parser.far before ≤ end_of self.old.sight }
        ensures held { self.new.sight ≡ up_to_byte self.old.sight (max self.old.parser.far before) }
        ensures taken { before + result ≡ max self.old.parser.far before }
        ensures same { self.new ≡ record self.old { sight = self.new.sight } }
    {
        let end = self.parser.far.max(before);
        self.sight.drop_after(end);
        (end - before) as usize
    }

    // Runs the machine, and keeps in mind where memory was wanting.
    fn run<L: Ledger>(&mut self, steps: &mut Steps<L>) -> Result<bool, AllocError>
        requires base { NeedsFrom self.old.sight.base self.old.parser.focus self.old.parser.stack (state_of self.old.parser) }
        requires at { self.old.parser.at ≤ 8 * end_of self.old.sight }
        requires some { 0 < self.old.sight.size }
        requires seen { self.old.sight.ended ≡ false → self.old.parser.far ≤ end_of self.old.sight }
        requires registered { IsRegistered self.old.terms.now self.old.parser }
        ensures waits { IfOk result (λ waits. waits ≡ true
            → Waited self.old.terms.now self.old.parser self.new.parser self.old.sight self.new.sight (steps.new - steps.old)) }
        ensures ended { IfOk result (λ waits. waits ≡ false
            → Advanced self.old.terms.now self.old.parser self.new.parser self.old.sight self.new.sight (steps.new - steps.old)) }
        ensures over { IfOk result (λ waits. waits ≡ false → HasEnded self.new.parser.focus self.new.parser.stack) }
        ensures reaches { OnOk result ((last : ℕ) → Reaches last self.old.sight self.old.parser.focus (state_of self.old.parser)
            → Reaches (max last self.new.parser.far) self.new.sight self.new.parser.focus (state_of self.new.parser)) }
        ensures seen { OnOk result (self.new.sight.ended ≡ false → self.new.parser.far ≤ end_of self.new.sight) }
        ensures steps { steps.old ≤ steps.new }
        ensures most { OnOk result (HasSameLimits self.old.parser self.new.parser) }
        ensures low { OnOk result (NeedsFrom self.new.sight.base self.new.parser.focus self.new.parser.stack (state_of self.new.parser)) }
        ensures at { OnOk result (self.new.parser.at ≤ 8 * end_of self.new.sight) }
        ensures registered { OnOk result (IsRegistered self.new.terms.now self.new.parser) }
        ensures same { (self.new.terms ≡ self.old.terms) × (self.new.limits ≡ self.old.limits) × (self.new.start ≡ self.old.start) }
        ensures kept { OnOk result (self.new.lost ≡ self.old.lost) }
        ensures lost { OnErr result (self.new.lost ≡ true) }
    {
        match run(self.terms, &mut self.parser, &mut self.sight, steps) {
            Ok(waits) => Ok(waits),
            Err(fault) => {
                self.lost = true;
                Err(fault)
            }
        }
    }

    /// Says that the data end behind the bytes that were taken.
    pub fn finish<L: Ledger>(&mut self, steps: &mut Steps<L>) -> Result<(), AllocError>
        requires sound { IsSound self.old }
        ensures sound { OnOk result (IsSound self.new) }
        ensures done { IfOk result (λ _. (stream : List ℕ) (start spent allowed : ℕ) → StandsFor self.old stream start spent allowed
            → Ends self.new (document_of self.old stream) (spent + (steps.new - steps.old)) allowed) }
        ensures taken { IfOk result (λ _. (stream : List ℕ) (start spent allowed : ℕ) → StandsFor self.old stream start spent allowed
            → HasTaken self.new stream) }
        ensures same { (self.new.terms ≡ self.old.terms) × (self.new.limits ≡ self.old.limits) × (self.new.start ≡ self.old.start) }
        ensures lost { OnErr result (self.new.lost ≡ true) }
    {
        self.sight.tell_end();
        self.run(steps)?;
        Ok(())
    }

    /// Begins with the next document of the stream, at the first whole byte behind the one that is done, with no elements, no
    /// texts and no steps, where each variable begins with its default again. The bytes before it are given up; those behind it that have
    /// come are kept.
    pub fn next_document(&mut self) -> Result<(), AllocError>
        requires sound { IsSound self.old }
        requires done { answer_at self.old.parser.focus self.old.parser.stack ≡ Outcome.Done }
        ensures sound { OnOk result (IsSound self.new) }
        ensures begins { OnOk result (self.new.start ≡ byte_behind self.old.parser.at) }
        ensures front { OnOk result (state_of self.new.parser ≡ front_at self.new.terms.now self.new.start) }
        ensures stands { OnOk result ((stream : List ℕ) → HasTaken self.old stream
            → StandsFor self.new stream (byte_behind self.old.parser.at) 0 0) }
        ensures held { OnOk result (self.new.sight ≡ from_byte self.old.sight self.new.start) }
        ensures going_on { OnOk result (self.new.sight.ended ≡ self.old.sight.ended) }
        ensures same { (self.new.terms ≡ self.old.terms) × (self.new.limits ≡ self.old.limits) }
        ensures lost { OnErr result (self.new.lost ≡ true) }
    {
        let _end = self.sight.end();
        let start = (self.parser.at + 7) / 8;
        self.sight.drop_before(start);
        if let Err(fault) = self.parser.begin(self.terms, start) {
            self.lost = true;
            return Err(fault);
        }
        self.start = start;
        Ok(())
    }

    /// What the session has come to.
    pub fn outcome(&self) -> Outcome
        ensures now { result ≡ (if self.now.lost then Outcome.OutOfMemory else answer_at self.now.parser.focus self.now.parser.stack) }
        ensures ended { (o : Meaning) (steps allowed : ℕ) → Ends self.now o steps allowed → result ≡ answer_of o.end }
    {
        if self.lost {
            return Outcome::OutOfMemory;
        }
        self.parser.outcome()
    }

    /// The byte at which the document begins.
    pub fn start(&self) -> u64
        ensures { result ≡ self.now.start }
    {
        self.start
    }

    /// The bit behind the last one that was read.
    pub fn position(&self) -> u64
        ensures now { result ≡ self.now.parser.at }
        ensures ended { (o : Meaning) (steps allowed : ℕ) → Ends self.now o steps allowed → result ≡ o.state.at }
    {
        self.parser.at
    }

    /// The elements that have begun, in this order.
    pub fn nodes(&self) -> &[Node]
        ensures now { result.now ≡ self.now.parser.region.nodes }
        ensures ended { (o : Meaning) (steps allowed : ℕ) → Ends self.now o steps allowed → result.now ≡ o.state.nodes }
    {
        self.parser.region.nodes()
    }

    /// The bytes of the strings, as UTF-8, and hexBinary values of these elements, in the order in which they were read.
    pub fn text(&self) -> &[u8]
        ensures now { result.now ≡ self.now.parser.text.bytes }
        ensures ended { (o : Meaning) (steps allowed : ℕ) → Ends self.now o steps allowed → result.now ≡ o.state.text }
    {
        self.parser.text.all()
    }

    /// The number of the innermost element that is open.
    pub fn inside(&self) -> u32
        ensures now { result ≡ self.now.parser.inside }
        ensures ended { (o : Meaning) (steps allowed : ℕ) → Ends self.now o steps allowed → result ≡ o.state.inside }
    {
        self.parser.inside
    }

    /// The path of the innermost element that is open: its names from the root element down, each behind a `/`, and behind the
    /// name of an item its place in its array, counted from 1, in brackets.
    pub fn path(&self, alloc: Global) -> Result<String, AllocError>
        ensures { IfOk result (λ text. string_bytes text
            ≡ path_of self.now.terms.now self.now.parser.region.nodes self.now.parser.inside) }
    {
        let path = path_of(
            alloc,
            self.terms,
            self.parser.region.nodes(),
            self.parser.inside,
        )?;
        Ok(path)
    }

    /// How many bytes of the data were taken.
    pub fn taken(&self) -> u64
        ensures taken { result ≡ end_of self.now.sight }
        ensures few { result ≤ 2 ^ 60 }
    {
        self.sight.end()
    }

    /// How many bytes of the data are held, which are the last of those that were taken. Where more are needed, these are as few as
    /// `feed` says.
    pub fn held(&self) -> usize
        ensures { result ≡ length self.now.sight.bytes }
    {
        (self.sight.end() - self.sight.base()) as usize
    }
}
