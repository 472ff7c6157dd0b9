// Reads a document and builds its tree.
ghost use Rattle.std.specs.Prelude.{◌≡◌, ◌+◌, ◌<◌, ◌≤◌, ◌^◌, ◌∷◌, ◌++◌, [], OnOk, OnErr, IfOk, IfErr, length, take, get_or, false};
ghost use Rattle.dfdl_layers.specs.Tellers.{run};
ghost use Rattle.dfdl_layers.specs.Allowed.{allowed_step};
ghost use Rattle.dfdl_layers.specs.Bytes.{behind, waits};
ghost use Rattle.dfdl_xml_chars.specs.Beyond.{could_by};
ghost use Rattle.dfdl_xml_chars.specs.Characters.{is_allowed as allows};
ghost use Rattle.dfdl_xml_chars.specs.Shown.{IfPart, bytes_of, seen_of};
ghost use Rattle.dfdl_xml_chars.specs.Utf8.{see};
ghost use Rattle.dfdl_markup.specs.Machine.{beyond};
ghost use Rattle.dfdl_markup.specs.Trees.{size};
ghost use Rattle.dfdl_markup.specs.Building.{build, build_step, read_accepts, read_start, read_step};
ghost use Rattle.dfdl_doc_tree.specs.ScannerShown.{effect_seen, state_seen};
ghost use Rattle.dfdl_doc_tree.specs.ReaderShown.{Becomes, IfWhole, count_of, inside_seen, reader_seen};

use crate::effect::Effect;
use crate::plain::{Passed, as_text};
use crate::rule::{Refusal, Rule};
use crate::scanner::Scanner;
use dfdl_xml_chars::laws::bytes_are_seen;
use dfdl_xml_chars::{Begun, Taken, is_allowed};
use dfdl_xml_tree::{Growing, Tree};
use std::alloc::{AllocError, Global};

/// Reads a document byte by byte, and builds its tree.
#[derive(Drop)]
pub struct Reader {
    scanner: Scanner,
    growing: Growing,
    /// The bytes of a character that is not whole.
    begun: Begun,
}

/// Does to the tree what a character of so many bytes does.
fn grow(growing: &mut Growing, effect: Effect, bytes: u64) -> Result<(), AllocError>
    requires { growing.old.at + bytes < 2 ^ 64 }
    ensures { OnOk result (growing.new ≡ build (effect_seen effect) bytes growing.old) }
{
    match effect {
        Effect::Stays => growing.stays(bytes),
        Effect::Opens => growing.opens(bytes),
        Effect::Closes => growing.closes(bytes),
        Effect::Reads { held, c } => growing.reads(held.held(), c, bytes)?,
        Effect::Refers(c) => growing.refers(c, bytes)?,
        Effect::Enters(tag) => growing.enters(Box::into_inner(tag), bytes)?,
        Effect::Adds(tag) => growing.adds(Box::into_inner(tag), bytes)?,
        Effect::Leaves => growing.leaves(bytes),
    }
    Ok(())
}

/// What the bytes are with one more behind them.
fn taken(begun: Begun, byte: u8) -> Taken
    ensures seen { seen_of result ≡ see (bytes_of begun ++ byte ∷ []) }
    ensures part { IfPart result (λ more. bytes_of more ≡ bytes_of begun ++ byte ∷ []) }
    ensures whole { IfWhole result (λ c. size (c ∷ []) ≡ length (bytes_of begun) + 1) }
{
    bytes_are_seen();
    begun.with(byte)
}

impl Reader {
    pub fn new(alloc: Global) -> Reader
        ensures { inside_seen result ≡ read_start }
    {
        Reader {
            scanner: Scanner::new(alloc),
            growing: Growing::new(alloc),
            begun: Begun::Nothing,
        }
    }

    /// Reads a whole character.
    #[tactic(auto, using(crate::proofs::Sizes::counted))]
    fn read(&mut self, c: char) -> Result<(), Refusal>
        requires { self.old.growing.at + size (c ∷ []) < 2 ^ 64 }
        ensures read { Becomes (build_step (reader_seen self.old) c) result (reader_seen self.new) }
        ensures at { OnOk result (self.new.growing.at ≡ self.old.growing.at + size (c ∷ [])) }
        ensures begun { self.new.begun ≡ self.old.begun }
    {
        let effect = self.scanner.step(c)?;
        grow(&mut self.growing, effect, c.len_utf8() as u64)?;
        Ok(())
    }

    /// Reads a character whose bytes end here.
    fn take(&mut self, c: char) -> Result<(), Refusal>
        requires { self.old.growing.at + size (c ∷ []) < 2 ^ 64 }
        ensures read { Becomes (behind (allowed_step 2 allows build_step (reader_seen self.old) c)) result (inside_seen self.new) }
        ensures at { OnOk result (count_of self.new ≡ self.old.growing.at + size (c ∷ [])) }
    {
        if !is_allowed(c) {
            return Err(Refusal::Broken(Rule::Allowed));
        }
        self.begun = Begun::Nothing;
        self.read(c)
    }

    /// Reads bytes of a character that is not whole.
    fn wait(&mut self, begun: Begun) -> Result<(), Refusal>
        ensures read { Becomes (waits (reader_seen self.old) (bytes_of begun)
            (could_by (beyond (state_seen self.old.scanner)) (bytes_of begun))) result (inside_seen self.new) }
        ensures at { OnOk result (count_of self.new ≡ self.old.growing.at + length (bytes_of begun)) }
    {
        match self.scanner.could(begun) {
            Some(rule) => Err(Refusal::Broken(rule)),
            None => {
                self.begun = begun;
                Ok(())
            }
        }
    }

    /// Reads a byte.
    #[tactic(auto, unfolding(dfdl_markup::specs::Building::read_step))]
    pub fn step(&mut self, byte: u8) -> Result<(), Refusal>
        requires { count_of self.old + 1 < 2 ^ 64 }
        ensures read { Becomes (read_step (inside_seen self.old) byte) result (inside_seen self.new) }
        ensures at { OnOk result (count_of self.new ≡ count_of self.old + 1) }
    {
        match taken(self.begun, byte) {
            Taken::Whole(c) => self.take(c),
            Taken::Part(begun) => self.wait(begun),
            Taken::Bad => Err(Refusal::Broken(Rule::Utf8)),
        }
    }

    /// Reads a run of plain characters.
    #[tactic(auto, using(crate::proofs::RunsRead::quiet_run, crate::proofs::RunsRead::text_run))]
    fn pass(&mut self, bytes: &[u8]) -> Result<usize, Refusal>
        requires between { self.old.begun ≡ Begun.Nothing }
        requires line { self.old.growing.behind_cr ≡ false }
        requires fits { self.old.growing.at + length bytes.now < 2 ^ 64 }
        ensures within { IfOk result (λ count. count ≤ length bytes.now) }
        ensures read { IfOk result (λ count. run read_step (inside_seen self.old) (take count bytes.now) ≡ Ok (inside_seen self.new)) }
        ensures at { IfOk result (λ count. count_of self.new ≡ count_of self.old + count) }
        ensures memory { OnErr result (result ≡ Err Refusal.OutOfMemory) }
    {
        match self.scanner.pass(bytes)? {
            Passed::Quiet(count) => {
                self.growing.stays(count as u64);
                Ok(count)
            }
            Passed::Text(count) => {
                let text = as_text(&bytes[..count]);
                self.growing.reads_all(text, count as u64)?;
                Ok(count)
            }
        }
    }

    /// Reads a run of plain characters, or one byte, and answers how many bytes.
    pub fn read_on(&mut self, bytes: &[u8]) -> Result<usize, Refusal>
        requires some { 0 < length bytes.now }
        requires fits { count_of self.old + length bytes.now < 2 ^ 64 }
        ensures within { IfOk result (λ count. count ≤ length bytes.now) }
        ensures some { IfOk result (λ count. 0 < count) }
        ensures read { IfOk result (λ count. run read_step (inside_seen self.old) (take count bytes.now) ≡ Ok (inside_seen self.new)) }
        ensures at { IfOk result (λ count. count_of self.new ≡ count_of self.old + count) }
        ensures refused { IfErr result (λ refusal. Becomes (read_step (inside_seen self.old) (get_or bytes.now 0 0)) (Err refusal) (inside_seen self.new)) }
    {
        if self.begun == Begun::Nothing && !self.growing.is_behind_cr() {
            let count = self.pass(bytes)?;
            if count > 0 {
                return Ok(count);
            }
        }
        self.step(bytes[0])?;
        Ok(1)
    }

    /// The document may end here.
    pub fn accepts(&self) -> bool
        ensures { result ≡ read_accepts (inside_seen self.now) }
    {
        self.begun == Begun::Nothing && self.scanner.accepts()
    }

    /// The tree that was built.
    pub fn finish(self) -> Tree
        ensures { result ≡ self.growing.nodes }
    {
        self.growing.finish()
    }
}
