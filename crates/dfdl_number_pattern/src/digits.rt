ghost use Rattle.std.specs.Prelude.{◌≡◌, ◌≤◌, IfOk, IsTrue, IsUtf8};
ghost use Rattle.dfdl_number_pattern.specs.Digits.{none, sign_count, may_sign, may_group, group_more, group_next, may_end, is_complete, group_size};
ghost use Rattle.dfdl_number_pattern.specs.Pattern.{point_of, pattern_of};
ghost use Rattle.dfdl_number_pattern.specs.Machine.{hash_next, zero_next, comma_next, part_next, integer_next, fraction_next, implied_next, digit_next};

use crate::affix::characters;
use dfdl_forms::{NumberPattern, Point};
use std::alloc::{AllocError, Global};

/// Which part of the digits of a pattern is read.
#[derive(Clone, Copy, Debug, PartialEq, Eq)]
pub(crate) enum Part {
    Integer,
    /// Behind the `.`.
    Fraction,
    /// Behind the `V`.
    Implied,
}

/// The signs of the integer part as they are grouped.
#[derive(Clone, Copy, Debug, PartialEq, Eq)]
pub(crate) enum Groups {
    /// No `,` stands.
    Ungrouped,
    /// One `,` stands, and so many signs behind it.
    Grouped { signs: u8 },
    /// Two or more `,` stand, with `size` signs between them, and so many signs behind the last one.
    Equal { size: u8, signs: u8 },
}

/// The signs of a sub-pattern.
#[derive(Clone, Copy, Debug, PartialEq, Eq)]
pub(crate) struct Digits {
    pub(crate) part: Part,
    pub(crate) groups: Groups,
    pub(crate) hashes: u8,
    pub(crate) zeros: u8,
    pub(crate) fraction_zeros: u8,
    pub(crate) fraction_hashes: u8,
    pub(crate) implied: u8,
}

impl Part {
    /// How the fraction of digits that end in this part is written.
    fn point(self) -> Point
        ensures { result ≡ point_of self }
    {
        match self {
            Part::Integer => Point::Absent,
            Part::Fraction => Point::Written,
            Part::Implied => Point::Implied,
        }
    }
}

impl Groups {
    /// Whether one more sign may follow in the group.
    fn may_more(self) -> bool
        ensures { result ≡ may_group self }
    {
        match self {
            Groups::Ungrouped => true,
            Groups::Grouped { signs } => signs < 38,
            Groups::Equal { size, signs } => signs < size,
        }
    }

    /// The groups with one more sign.
    fn more(self) -> Groups
        requires { IsTrue (may_group self) }
        ensures { result ≡ group_more self }
    {
        match self {
            Groups::Ungrouped => Groups::Ungrouped,
            Groups::Grouped { signs } => Groups::Grouped { signs: signs + 1 },
            Groups::Equal { size, signs } => Groups::Equal {
                size,
                signs: signs + 1,
            },
        }
    }

    /// Whether the integer part may end behind them.
    fn may_end(self) -> bool
        ensures { result ≡ may_end self }
    {
        match self {
            Groups::Ungrouped => true,
            Groups::Grouped { signs } => 0 < signs,
            Groups::Equal { size, signs } => signs == size,
        }
    }

    /// The groups behind one more `,`, where so many signs stand in all.
    fn next(self, count: u16) -> Option<Groups>
        requires { count ≤ 60000 }
        ensures { result ≡ group_next count self }
    {
        match self {
            Groups::Ungrouped => {
                if 0 < count && count < 38 {
                    Some(Groups::Grouped { signs: 0 })
                } else {
                    None
                }
            }
            Groups::Grouped { signs } => {
                if 0 < signs && count + signs as u16 <= 38 {
                    Some(Groups::Equal {
                        size: signs,
                        signs: 0,
                    })
                } else {
                    None
                }
            }
            Groups::Equal { size, signs } => {
                if signs == size && count + size as u16 <= 38 {
                    Some(Groups::Equal { size, signs: 0 })
                } else {
                    None
                }
            }
        }
    }

    /// How many signs stand behind the last `,`, or 0 where there is none.
    pub(crate) fn size(self) -> u8
        ensures { result ≡ group_size self }
    {
        match self {
            Groups::Ungrouped => 0,
            Groups::Grouped { signs } => signs,
            Groups::Equal { size: _, signs } => signs,
        }
    }
}

impl Digits {
    pub(crate) fn new() -> Digits
        ensures { result ≡ none }
    {
        Digits {
            part: Part::Integer,
            groups: Groups::Ungrouped,
            hashes: 0,
            zeros: 0,
            fraction_zeros: 0,
            fraction_hashes: 0,
            implied: 0,
        }
    }

    fn count(self) -> u16
        ensures value { result ≡ sign_count self }
        ensures few { result ≤ 60000 }
    {
        self.hashes as u16
            + self.zeros as u16
            + self.fraction_zeros as u16
            + self.fraction_hashes as u16
            + self.implied as u16
    }

    fn may_sign(self) -> bool
        ensures { result ≡ may_sign self }
    {
        self.count() < 38
    }

    /// Whether digits may end here.
    pub(crate) fn is_complete(self) -> bool
        ensures { result ≡ is_complete self }
    {
        0 < self.count() && self.groups.may_end()
    }

    fn hash_next(self) -> Option<Digits>
        ensures { result ≡ hash_next self }
    {
        if self.zeros == 0 && self.groups.may_more() && self.may_sign() {
            Some(Digits {
                hashes: self.hashes + 1,
                groups: self.groups.more(),
                ..self
            })
        } else {
            None
        }
    }

    fn zero_next(self) -> Option<Digits>
        ensures { result ≡ zero_next self }
    {
        if self.groups.may_more() && self.may_sign() {
            Some(Digits {
                zeros: self.zeros + 1,
                groups: self.groups.more(),
                ..self
            })
        } else {
            None
        }
    }

    fn comma_next(self) -> Option<Digits>
        ensures { result ≡ comma_next self }
    {
        match self.groups.next(self.count()) {
            Some(groups) => Some(Digits { groups, ..self }),
            None => None,
        }
    }

    fn part_next(self, part: Part) -> Option<Digits>
        ensures { result ≡ part_next part self }
    {
        if self.groups.may_end() {
            Some(Digits { part, ..self })
        } else {
            None
        }
    }

    #[tactic(auto, unfolding(crate::specs::Machine::integer_next))]
    fn integer_next(self, byte: u8) -> Option<Digits>
        ensures { result ≡ integer_next self byte }
    {
        match byte {
            b'#' => self.hash_next(),
            b'0' => self.zero_next(),
            b',' => self.comma_next(),
            b'.' => self.part_next(Part::Fraction),
            b'V' => self.part_next(Part::Implied),
            _ => None,
        }
    }

    #[tactic(auto, unfolding(crate::specs::Machine::fraction_next))]
    fn fraction_next(self, byte: u8) -> Option<Digits>
        ensures { result ≡ fraction_next self byte }
    {
        if byte == b'0' {
            if self.fraction_hashes == 0 && self.may_sign() {
                Some(Digits {
                    fraction_zeros: self.fraction_zeros + 1,
                    ..self
                })
            } else {
                None
            }
        } else if byte == b'#' && self.may_sign() {
            Some(Digits {
                fraction_hashes: self.fraction_hashes + 1,
                ..self
            })
        } else {
            None
        }
    }

    #[tactic(auto, unfolding(crate::specs::Machine::implied_next))]
    fn implied_next(self, byte: u8) -> Option<Digits>
        ensures { result ≡ implied_next self byte }
    {
        if byte == b'0' && self.may_sign() {
            Some(Digits {
                implied: self.implied + 1,
                ..self
            })
        } else {
            None
        }
    }

    /// The digits with this byte behind them, if it may stand there.
    pub(crate) fn next(self, byte: u8) -> Option<Digits>
        ensures { result ≡ digit_next self byte }
    {
        match self.part {
            Part::Integer => self.integer_next(byte),
            Part::Fraction => self.fraction_next(byte),
            Part::Implied => self.implied_next(byte),
        }
    }

    /// The pattern with these digits.
    pub(crate) fn pattern(
        self,
        alloc: Global,
        prefix: &[u8],
        suffix: &[u8],
        negative_prefix: &[u8],
        negative_suffix: &[u8],
    ) -> Result<NumberPattern, AllocError>
        requires utf8_prefix { IsUtf8 prefix.now }
        requires utf8_suffix { IsUtf8 suffix.now }
        requires utf8_negative_prefix { IsUtf8 negative_prefix.now }
        requires utf8_negative_suffix { IsUtf8 negative_suffix.now }
        ensures { IfOk result (λ pattern. pattern
            ≡ pattern_of self prefix.now suffix.now negative_prefix.now negative_suffix.now) }
    {
        let prefix = characters(alloc, prefix)?;
        let suffix = characters(alloc, suffix)?;
        let negative_prefix = characters(alloc, negative_prefix)?;
        let negative_suffix = characters(alloc, negative_suffix)?;
        Ok(NumberPattern {
            prefix,
            suffix,
            negative_prefix,
            negative_suffix,
            least_integer: self.zeros as u16,
            greatest_integer: self.hashes as u16 + self.zeros as u16,
            group_size: self.groups.size() as u16,
            point: self.part.point(),
            least_fraction: self.fraction_zeros as u16,
            greatest_fraction: self.fraction_zeros as u16 + self.fraction_hashes as u16,
            implied: self.implied as u16,
        })
    }
}
