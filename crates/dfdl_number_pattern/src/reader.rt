ghost use Rattle.std.specs.Prelude.{◌≡◌, IfOk, IfSome, OnOk, IsTrue, IsUtf8, ◌∷◌};
ghost use Rattle.dfdl_number_pattern.specs.Machine.{told, with_digits, second_next, prefix_next, number_next, suffix_next, step, accepts, value, start, digit_next};

use crate::digits::Digits;
use crate::quote::Quote;
use dfdl_forms::NumberPattern;
use std::alloc::{AllocError, Global};
use std::mem;

/// Where in a sub-pattern the reader stands.
#[derive(Clone, Copy, Debug, PartialEq, Eq)]
pub(crate) enum Place {
    Prefix(Quote),
    /// In the digits or behind them.
    Number,
    Suffix(Quote),
}

/// The sub-pattern before the `;`.
#[derive(Drop)]
pub(crate) struct First {
    prefix: Vec<u8>,
    suffix: Vec<u8>,
    digits: Digits,
}

/// Reads a pattern a byte at a time.
#[derive(Drop)]
pub(crate) struct Reader {
    alloc: Global,
    place: Place,
    prefix: Vec<u8>,
    suffix: Vec<u8>,
    digits: Digits,
    first: Option<First>,
}

/// Adds the byte to the text, if it is one of its meaning.
fn tell(text: &mut Vec<u8>, quote: Quote, byte: u8) -> Result<(), AllocError>
    ensures { OnOk result (text.new.items ≡ told quote byte text.old.items) }
{
    if quote.says(byte) {
        text.push(byte)?;
    }
    Ok(())
}

/// The negative prefix of a pattern with one sub-pattern, which has this prefix.
fn behind_minus(alloc: Global, prefix: &[u8]) -> Result<Vec<u8>, AllocError>
    ensures { IfOk result (λ text. text.items ≡ 45 ∷ prefix.now) }
{
    let mut text = Vec::new(alloc);
    text.push(b'-')?;
    text.extend_from_slice(prefix)?;
    Ok(text)
}

impl Reader {
    ghost use Rattle.dfdl_number_pattern.specs.ReaderShown.{state_seen};
    ghost use Rattle.dfdl_number_pattern.specs.Taken.{Takes};

    pub(crate) fn new(alloc: Global) -> Reader
        ensures { state_seen result ≡ start }
    {
        Reader {
            alloc,
            place: Place::Prefix(Quote::Bare),
            prefix: Vec::new(alloc),
            suffix: Vec::new(alloc),
            digits: Digits::new(),
            first: None,
        }
    }

    /// Begins the second sub-pattern.
    #[tactic(auto, unfolding(crate::specs::Machine::second_next))]
    fn step_second(&mut self) -> bool
        ensures { Takes (second_next (state_seen self.old)) result (state_seen self.new) }
    {
        if self.first.is_some() {
            return false;
        }
        let prefix = mem::replace(&mut self.prefix, Vec::new(self.alloc));
        let suffix = mem::replace(&mut self.suffix, Vec::new(self.alloc));
        self.first = Some(First {
            prefix,
            suffix,
            digits: self.digits,
        });
        self.digits = Digits::new();
        self.place = Place::Prefix(Quote::Bare);
        true
    }

    fn step_digits(&mut self, byte: u8) -> bool
        ensures { Takes (with_digits (digit_next self.old.digits byte) (state_seen self.old)) result (state_seen self.new) }
    {
        match self.digits.next(byte) {
            Some(digits) => {
                self.digits = digits;
                self.place = Place::Number;
                true
            }
            None => false,
        }
    }

    #[tactic(auto, unfolding(crate::specs::Machine::prefix_next))]
    fn step_prefix(&mut self, quote: Quote, byte: u8) -> Result<bool, AllocError>
        ensures { IfOk result (λ taken. Takes (prefix_next quote (state_seen self.old) byte) taken (state_seen self.new)) }
    {
        match quote.next(byte) {
            Some(next) => {
                tell(&mut self.prefix, quote, byte)?;
                self.place = Place::Prefix(next);
                Ok(true)
            }
            None => {
                if quote.is_whole() {
                    Ok(self.step_digits(byte))
                } else {
                    Ok(false)
                }
            }
        }
    }

    #[tactic(auto, unfolding(crate::specs::Machine::number_next))]
    fn step_number(&mut self, byte: u8) -> Result<bool, AllocError>
        ensures { IfOk result (λ taken. Takes (number_next (state_seen self.old) byte) taken (state_seen self.new)) }
    {
        match Quote::Bare.next(byte) {
            Some(next) => {
                if !self.digits.is_complete() {
                    return Ok(false);
                }
                tell(&mut self.suffix, Quote::Bare, byte)?;
                self.place = Place::Suffix(next);
                Ok(true)
            }
            None => {
                if byte == b';' {
                    if self.digits.is_complete() {
                        Ok(self.step_second())
                    } else {
                        Ok(false)
                    }
                } else {
                    Ok(self.step_digits(byte))
                }
            }
        }
    }

    #[tactic(auto, unfolding(crate::specs::Machine::suffix_next))]
    fn step_suffix(&mut self, quote: Quote, byte: u8) -> Result<bool, AllocError>
        ensures { IfOk result (λ taken. Takes (suffix_next quote (state_seen self.old) byte) taken (state_seen self.new)) }
    {
        match quote.next(byte) {
            Some(next) => {
                tell(&mut self.suffix, quote, byte)?;
                self.place = Place::Suffix(next);
                Ok(true)
            }
            None => {
                if byte == b';' && quote.is_whole() {
                    Ok(self.step_second())
                } else {
                    Ok(false)
                }
            }
        }
    }

    /// Takes one more byte, and answers whether a pattern can go on with it.
    pub(crate) fn step(&mut self, byte: u8) -> Result<bool, AllocError>
        ensures { IfOk result (λ taken. Takes (step (state_seen self.old) byte) taken (state_seen self.new)) }
    {
        match self.place {
            Place::Prefix(quote) => self.step_prefix(quote, byte),
            Place::Number => self.step_number(byte),
            Place::Suffix(quote) => self.step_suffix(quote, byte),
        }
    }

    /// Whether a pattern may end here.
    pub(crate) fn accepts(&self) -> bool
        ensures { result ≡ accepts (state_seen self.now) }
    {
        match self.place {
            Place::Prefix(_) => false,
            Place::Number => self.digits.is_complete(),
            Place::Suffix(quote) => quote.is_whole(),
        }
    }

    /// The pattern that was read, which may end here.
    pub(crate) fn finish(self) -> Result<NumberPattern, AllocError>
        requires utf8_prefix { IsUtf8 self.prefix.items }
        requires utf8_suffix { IsUtf8 self.suffix.items }
        requires utf8_first { IfSome self.first (λ f. IsUtf8 f.prefix.items × IsUtf8 f.suffix.items) }
        ensures { IfOk result (λ pattern. pattern ≡ value (state_seen self)) }
    {
        let Reader {
            alloc,
            place: _,
            prefix,
            suffix,
            digits,
            first,
        } = self;
        match first {
            Some(
                First {
                    prefix: first_prefix,
                    suffix: first_suffix,
                    digits: first_digits,
                },
            ) => first_digits.pattern(alloc, &first_prefix, &first_suffix, &prefix, &suffix),
            None => {
                let negative_prefix = behind_minus(alloc, &prefix)?;
                digits.pattern(alloc, &prefix, &suffix, &negative_prefix, &suffix)
            }
        }
    }
}
