// Reads an expression character by character, and its bytes as characters.
ghost use Rattle.std.specs.Prelude.{drop, ◌≡◌, ◌+◌, ◌<◌, ◌≤◌, IfOk, is_some, is_none, Ok, Err, ◌&&◌, ◌++◌, ◌∷◌, [], ◌^◌, if◌then◌else◌, ◌==◌, false};
ghost use Rattle.dfdl_expression_text.specs.Machine.{At, next, start, refuse, on, begin, hold, or_at, word_begins, letter_begins, begin_by, begin_at, end_before, named_at, name_step, stage_next, step_piece, step, accepts, accepts_piece, may_end_if};
ghost use Rattle.dfdl_layers.specs.Allowed.{allowed_step};
ghost use Rattle.dfdl_layers.specs.Bytes.{behind, waits, between, byte_accepts};
ghost use Rattle.dfdl_xml_chars.specs.Beyond.{could_by};
ghost use Rattle.dfdl_xml_chars.specs.Characters.{is_allowed as allows, high_start_rows, meets};
ghost use Rattle.dfdl_xml_chars.specs.Shown.{bytes_of, seen_of, IfPart};
ghost use Rattle.dfdl_xml_chars.specs.Utf8.{see};
ghost use Rattle.dfdl_expression_text.specs.Machine.{beyond_names};
ghost use Rattle.dfdl_expression_text.specs.Limit.{beside, left_open, passed, least, is_within, limited_step, limited_beyond, if_room, room_for_name};
ghost use Rattle.dfdl_expression_text.specs.Syntax.{most_tokens};
ghost use Rattle.dfdl_expression_text.specs.Counting.{read_step, read_start};
ghost use Rattle.dfdl_expression_text.specs.Shown.{at_seen, state_seen, inside_seen, Steps, ByteSteps};

use crate::class::{class_of, is_digit};
use crate::kind::Kind;
use crate::piece::{Class, Piece, Quote, Stage, Word};
use crate::standing::Standing;
use dfdl_xml_chars::{
    Begun, Taken, is_allowed, is_name_char, is_name_start, meets_name_char, meets_name_start,
};
use std::alloc::{AllocError, Global};

/// An expression has no more tokens.
const MOST_TOKENS: u32 = 1000;

/// What has been read of an expression.
#[derive(Drop)]
pub(crate) struct Scanner {
    piece: Piece,
    /// Where the token of the piece stands or, where its kind is known, the next one.
    at: Standing,
    /// How many tokens have begun.
    count: u32,
}

impl Scanner {
    pub(crate) fn new(alloc: Global) -> Scanner
        ensures { state_seen result ≡ start }
    {
        Scanner {
            piece: Piece::Ready,
            at: Standing::new(alloc),
            count: 0,
        }
    }

    /// Goes on with the token, whose kind is known now.
    fn on(&mut self, piece: Piece, kind: Kind) -> Result<bool, AllocError>
        ensures { IfOk result (λ taken. Steps (on piece self.old.count (next (at_seen self.old.at) kind)) taken (state_seen self.new)) }
    {
        if !self.at.take(kind)? {
            return Ok(false);
        }
        self.piece = piece;
        Ok(true)
    }

    /// Begins a token of this kind.
    fn begin(&mut self, piece: Piece, kind: Kind) -> Result<bool, AllocError>
        requires { self.old.count + 1 < 2 ^ 32 }
        ensures { IfOk result (λ taken. Steps (begin piece self.old.count (next (at_seen self.old.at) kind)) taken (state_seen self.new)) }
    {
        if !self.at.take(kind)? {
            return Ok(false);
        }
        self.piece = piece;
        self.count += 1;
        Ok(true)
    }

    /// Begins a `.`, which may be a step or a number's begin.
    fn begin_point(&mut self) -> bool
        requires { self.old.count + 1 < 2 ^ 32 }
        ensures { Steps (hold Piece.Point self.old.count (at_seen self.old.at) (next (at_seen self.old.at) Kind.Dot)) result (state_seen self.new) }
    {
        if !self.at.allows(Kind::Dot) {
            return false;
        }
        self.piece = Piece::Point;
        self.count += 1;
        true
    }

    /// Begins `eq` or `else`.
    fn begin_either(&mut self) -> bool
        requires { self.old.count + 1 < 2 ^ 32 }
        ensures { Steps (hold Piece.Either self.old.count (at_seen self.old.at) (or_at (next (at_seen self.old.at) Kind.Comparison) (next (at_seen self.old.at) Kind.Else))) result (state_seen self.new) }
    {
        let compares = self.at.allows(Kind::Comparison);
        if !compares && !self.at.allows(Kind::Else) {
            return false;
        }
        self.piece = Piece::Either;
        self.count += 1;
        true
    }

    /// Begins an operator that is a word.
    #[tactic(auto, unfolding(crate::specs::Machine::word_begins))]
    fn begin_word(&mut self, c: char) -> Result<bool, AllocError>
        requires { self.old.count + 1 < 2 ^ 32 }
        ensures { IfOk result (λ taken. Steps (word_begins (at_seen self.old.at) self.old.count c) taken (state_seen self.new)) }
    {
        if c == 'a' {
            self.begin(Piece::Word(Word::Nd), Kind::Junction)
        } else if c == 'o' {
            self.begin(Piece::Word(Word::R), Kind::Junction)
        } else if c == 'd' {
            self.begin(Piece::Word(Word::Iv), Kind::Calculation)
        } else if c == 'i' {
            self.begin(Piece::Word(Word::Div), Kind::Calculation)
        } else if c == 'm' {
            self.begin(Piece::Word(Word::Od), Kind::Calculation)
        } else if c == 'e' {
            Ok(self.begin_either())
        } else if c == 'n' {
            self.begin(Piece::Word(Word::E), Kind::Comparison)
        } else if c == 'l' || c == 'g' {
            self.begin(Piece::Order, Kind::Comparison)
        } else if c == 't' {
            self.begin(Piece::Word(Word::Hen), Kind::Then)
        } else {
            Ok(false)
        }
    }

    /// Begins a name where one may stand, and else an operator.
    fn begin_letter(&mut self, c: char) -> Result<bool, AllocError>
        requires { self.old.count + 1 < 2 ^ 32 }
        ensures { IfOk result (λ taken. Steps (letter_begins (at_seen self.old.at) self.old.count c (next (at_seen self.old.at) Kind.Name)) taken (state_seen self.new)) }
    {
        if !self.at.allows(Kind::Name) {
            return self.begin_word(c);
        }
        self.piece = Piece::Named(first_stage(c));
        self.count += 1;
        Ok(true)
    }

    /// Takes a character behind a whole token.
    fn begin_at(&mut self, c: char) -> Result<bool, AllocError>
        requires { self.old.count + 1 < 2 ^ 32 }
        ensures { IfOk result (λ taken. Steps (begin_at (at_seen self.old.at) self.old.count c) taken (state_seen self.new)) }
    {
        match class_of(c) {
            Class::White => {
                self.piece = Piece::Ready;
                Ok(true)
            }
            Class::Sign(kind) => self.begin(Piece::Ready, kind),
            Class::Quote(quote) => self.begin(Piece::Text(quote), Kind::Literal),
            Class::Digit => self.begin(Piece::Digits(false), Kind::Literal),
            Class::Point => Ok(self.begin_point()),
            Class::Angle => self.begin(Piece::MayEqual, Kind::Comparison),
            Class::Bang => self.begin(Piece::MustEqual, Kind::Comparison),
            Class::Letter => self.begin_letter(c),
            Class::Other => Ok(false),
        }
    }

    /// Ends a token of this kind before the character.
    fn end_before(&mut self, kind: Kind, c: char) -> Result<bool, AllocError>
        requires { self.old.count + 1 < 2 ^ 32 }
        ensures { IfOk result (λ taken. Steps (end_before (next (at_seen self.old.at) kind) self.old.count c) taken (state_seen self.new)) }
    {
        if !self.at.take(kind)? {
            return Ok(false);
        }
        self.begin_at(c)
    }

    fn step_named(&mut self, stage: Stage, c: char) -> Result<bool, AllocError>
        requires { self.old.count + 1 < 2 ^ 32 }
        ensures { IfOk result (λ taken. Steps (name_step (stage_next stage c) stage (at_seen self.old.at) self.old.count c) taken (state_seen self.new)) }
    {
        match stage.next(c) {
            Some(next) => {
                self.piece = Piece::Named(next);
                Ok(true)
            }
            None => match stage {
                Stage::Colon => Ok(false),
                Stage::AfterIf => self.end_before(Kind::If, c),
                Stage::AfterI | Stage::First | Stage::Second => self.end_before(Kind::Name, c),
            },
        }
    }

    fn step_digits(&mut self, pointed: bool, c: char) -> Result<bool, AllocError>
        requires { self.old.count + 1 < 2 ^ 32 }
        ensures { IfOk result (λ taken. Steps (step_piece (Piece.Digits pointed) (at_seen self.old.at) self.old.count c) taken (state_seen self.new)) }
    {
        if is_digit(c) {
            self.piece = Piece::Digits(pointed);
            Ok(true)
        } else if c == '.' {
            if pointed {
                Ok(false)
            } else {
                self.piece = Piece::Digits(true);
                Ok(true)
            }
        } else if is_name_start(c) {
            Ok(false)
        } else {
            self.begin_at(c)
        }
    }

    fn step_point(&mut self, c: char) -> Result<bool, AllocError>
        requires { self.old.count + 1 < 2 ^ 32 }
        ensures { IfOk result (λ taken. Steps (step_piece Piece.Point (at_seen self.old.at) self.old.count c) taken (state_seen self.new)) }
    {
        if c == '.' {
            self.on(Piece::Ready, Kind::Dot)
        } else if is_digit(c) {
            self.on(Piece::Digits(true), Kind::Literal)
        } else {
            self.end_before(Kind::Dot, c)
        }
    }

    /// Goes on by this character alone, to this piece.
    fn step_by(&mut self, goes: bool, piece: Piece) -> bool
        ensures { Steps (if goes then Ok (record { piece = piece; at = at_seen self.old.at; count = self.old.count }) else refuse) result (state_seen self.new) }
    {
        if goes {
            self.piece = piece;
        }
        goes
    }

    /// Goes on by this character to this piece, or behind a whole token.
    fn step_or_begin(&mut self, goes: bool, piece: Piece, c: char) -> Result<bool, AllocError>
        requires { self.old.count + 1 < 2 ^ 32 }
        ensures { IfOk result (λ taken. Steps (if goes then Ok (record { piece = piece; at = at_seen self.old.at; count = self.old.count }) else begin_at (at_seen self.old.at) self.old.count c) taken (state_seen self.new)) }
    {
        if goes {
            self.piece = piece;
            Ok(true)
        } else {
            self.begin_at(c)
        }
    }

    fn step_text(&mut self, quote: Quote, c: char) -> bool
        ensures { Steps (step_piece (Piece.Text quote) (at_seen self.old.at) self.old.count c) result (state_seen self.new) }
    {
        self.piece = if c == quote.mark() {
            Piece::Quoted(quote)
        } else {
            Piece::Text(quote)
        };
        true
    }

    fn step_either(&mut self, c: char) -> Result<bool, AllocError>
        ensures { IfOk result (λ taken. Steps (step_piece Piece.Either (at_seen self.old.at) self.old.count c) taken (state_seen self.new)) }
    {
        if c == 'q' {
            self.on(Piece::Spelled, Kind::Comparison)
        } else if c == 'l' {
            self.on(Piece::Word(Word::Se), Kind::Else)
        } else {
            Ok(false)
        }
    }

    fn step_spelled(&mut self, c: char) -> Result<bool, AllocError>
        requires { self.old.count + 1 < 2 ^ 32 }
        ensures { IfOk result (λ taken. Steps (step_piece Piece.Spelled (at_seen self.old.at) self.old.count c) taken (state_seen self.new)) }
    {
        if is_name_char(c) {
            Ok(false)
        } else {
            self.begin_at(c)
        }
    }

    /// Takes one more character, and answers whether an expression of any number of tokens can go on with it.
    fn step_freely(&mut self, c: char) -> Result<bool, AllocError>
        requires { self.old.count + 1 < 2 ^ 32 }
        ensures { IfOk result (λ taken. Steps (step (state_seen self.old) c) taken (state_seen self.new)) }
    {
        match self.piece {
            Piece::Ready => self.begin_at(c),
            Piece::Named(stage) => self.step_named(stage, c),
            Piece::Digits(pointed) => self.step_digits(pointed, c),
            Piece::Point => self.step_point(c),
            Piece::MayEqual => self.step_or_begin(c == '=', Piece::Ready, c),
            Piece::MustEqual => Ok(self.step_by(c == '=', Piece::Ready)),
            Piece::Text(quote) => Ok(self.step_text(quote, c)),
            Piece::Quoted(quote) => self.step_or_begin(c == quote.mark(), Piece::Text(quote), c),
            Piece::Word(word) => Ok(self.step_by(c == word.letter(), word.rest())),
            Piece::Order => Ok(self.step_by(c == 't' || c == 'e', Piece::Spelled)),
            Piece::Either => self.step_either(c),
            Piece::Spelled => self.step_spelled(c),
        }
    }

    /// How many tokens have begun or come at least before anything may end.
    fn needed(&self) -> u32
        requires { self.now.count + 4 < 2 ^ 32 }
        ensures { result ≡ self.now.count + beside self.now.piece (at_seen self.now.at) }
    {
        let owed = match self.piece {
            Piece::Named(_) | Piece::Point => 0,
            Piece::Either => 1,
            Piece::Ready
            | Piece::Digits(_)
            | Piece::MayEqual
            | Piece::MustEqual
            | Piece::Text(_)
            | Piece::Quoted(_)
            | Piece::Word(_)
            | Piece::Order
            | Piece::Spelled => self.at.owed_before(),
        };
        self.count + owed
    }

    /// How much of what is open ends with the open piece.
    fn passed_over(&self) -> usize
        ensures { drop result (at_seen self.now.at).opened ≡ left_open self.now.piece (at_seen self.now.at) }
    {
        let closes = self.piece == Piece::Either && self.at.allows(Kind::Else);
        if closes { 1 } else { 0 }
    }

    /// Whether an expression can go on from here that has no more tokens than one may have.
    fn is_within(&self) -> bool
        ensures { result ≡ is_within (state_seen self.now) }
    {
        if self.count > MOST_TOKENS {
            return false;
        }
        let needed = self.needed();
        needed <= MOST_TOKENS
            && self
                .at
                .owes_at_most(self.passed_over(), MOST_TOKENS - needed)
    }

    /// Takes one more character, and answers whether an expression can go on with it.
    pub(crate) fn step(&mut self, c: char) -> Result<bool, AllocError>
        requires { self.old.count + 1 < 2 ^ 32 }
        ensures { IfOk result (λ taken. Steps (limited_step (state_seen self.old) c) taken (state_seen self.new)) }
    {
        if !self.step_freely(c)? {
            return Ok(false);
        }
        Ok(self.is_within())
    }

    /// Ends a token of this kind, and answers whether an expression may end behind it.
    fn ends_behind(&mut self, kind: Kind) -> Result<bool, AllocError>
        ensures { IfOk result (λ ends. ends ≡ may_end_if (next (at_seen self.old.at) kind)) }
    {
        if !self.at.take(kind)? {
            return Ok(false);
        }
        Ok(self.at.may_end())
    }

    /// Ends what was read, and answers whether an expression may end there.
    pub(crate) fn ends(&mut self) -> Result<bool, AllocError>
        ensures { IfOk result (λ ends. ends ≡ accepts (state_seen self.old)) }
    {
        match self.piece {
            Piece::Ready | Piece::Digits(_) | Piece::MayEqual | Piece::Quoted(_) | Piece::Spelled =>
                Ok(self.at.may_end()),
            Piece::Named(stage) => match stage {
                Stage::Colon => Ok(false),
                Stage::AfterIf => self.ends_behind(Kind::If),
                Stage::AfterI | Stage::First | Stage::Second => self.ends_behind(Kind::Name),
            },
            Piece::Point => self.ends_behind(Kind::Dot),
            Piece::MustEqual | Piece::Text(_) | Piece::Word(_) | Piece::Order | Piece::Either => Ok(
                false,
            ),
        }
    }

    /// Whether a name may begin here, and one token more than have begun.
    fn has_room_for_name(&self) -> bool
        requires { self.now.count + 1 < 2 ^ 32 }
        ensures { result ≡ is_some (room_for_name (state_seen self.now)) }
    {
        let needed = self.count + 1;
        let allowed = self.at.allows(Kind::Name);
        allowed && (needed <= MOST_TOKENS && self.at.owes_at_most(0, MOST_TOKENS - needed))
    }

    /// Whether a name may begin with some character that begins so.
    #[tactic(auto, using(crate::proofs::Could::names_could))]
    fn could_begin_name(&self, begun: Begun) -> bool
        requires { self.now.count + 1 < 2 ^ 32 }
        ensures { result ≡ is_none (could_by (beyond_names (room_for_name (state_seen self.now))) (bytes_of begun)) }
    {
        let allowed = self.has_room_for_name();
        allowed && meets_name_start(begun)
    }

    /// Whether an expression can go on with some character that begins so.
    #[tactic(auto, using(crate::proofs::Could::only_could))]
    pub(crate) fn could(&self, begun: Begun) -> bool
        requires { self.now.count + 1 < 2 ^ 32 }
        ensures { result ≡ is_none (could_by (limited_beyond (state_seen self.now)) (bytes_of begun)) }
    {
        match self.piece {
            Piece::Ready | Piece::MayEqual | Piece::Quoted(_) => self.could_begin_name(begun),
            Piece::Named(stage) => match stage {
                Stage::Colon => meets_name_start(begun),
                Stage::AfterI | Stage::AfterIf | Stage::First | Stage::Second => {
                    meets_name_char(begun)
                }
            },
            Piece::Text(_) => true,
            Piece::Digits(_)
            | Piece::Point
            | Piece::MustEqual
            | Piece::Word(_)
            | Piece::Order
            | Piece::Either
            | Piece::Spelled => false,
        }
    }
}

/// Where a name stands behind its first character.
fn first_stage(c: char) -> Stage
    ensures { result ≡ (if c == 105 then Stage.AfterI else Stage.First) }
{
    if c == 'i' {
        Stage::AfterI
    } else {
        Stage::First
    }
}

/// What has been read of an expression's bytes.
#[derive(Drop)]
pub(crate) struct Reader {
    scanner: Scanner,
    /// The bytes of a character that is not whole.
    begun: Begun,
}

impl Reader {
    pub(crate) fn new(alloc: Global) -> Reader
        ensures { inside_seen result ≡ read_start }
    {
        Reader {
            scanner: Scanner::new(alloc),
            begun: Begun::Nothing,
        }
    }

    /// Takes a character whose bytes end here.
    fn take(&mut self, c: char) -> Result<bool, AllocError>
        requires { self.old.scanner.count + 1 < 2 ^ 32 }
        ensures { IfOk result (λ taken. ByteSteps (behind (allowed_step 2 allows limited_step (state_seen self.old.scanner) c)) taken (inside_seen self.new)) }
    {
        if !is_allowed(c) {
            return Ok(false);
        }
        self.begun = Begun::Nothing;
        self.scanner.step(c)
    }

    /// Takes bytes of a character that is not whole.
    fn wait(&mut self, begun: Begun) -> bool
        requires { self.old.scanner.count + 1 < 2 ^ 32 }
        ensures { ByteSteps (waits (state_seen self.old.scanner) (bytes_of begun) (could_by (limited_beyond (state_seen self.old.scanner)) (bytes_of begun))) result (inside_seen self.new) }
    {
        let could = self.scanner.could(begun);
        if could {
            self.begun = begun;
        }
        could
    }

    /// Takes one more byte, and answers whether an expression can go on with it.
    #[tactic(auto, unfolding(crate::specs::Counting::read_step))]
    pub(crate) fn step(&mut self, byte: u8) -> Result<bool, AllocError>
        requires { (inside_seen self.old).state.count + 1 < 2 ^ 32 }
        ensures { IfOk result (λ taken. ByteSteps (read_step (inside_seen self.old) byte) taken (inside_seen self.new)) }
    {
        match self.begun.with(byte) {
            Taken::Whole(c) => self.take(c),
            Taken::Part(begun) => Ok(self.wait(begun)),
            Taken::Bad => Ok(false),
        }
    }

    /// Ends what was read, and answers whether an expression may end there.
    pub(crate) fn ends(&mut self) -> Result<bool, AllocError>
        ensures { IfOk result (λ ends. ends ≡ byte_accepts accepts (inside_seen self.old)) }
    {
        if self.begun != Begun::Nothing {
            return Ok(false);
        }
        self.scanner.ends()
    }
}
