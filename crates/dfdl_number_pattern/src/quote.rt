ghost use Rattle.std.specs.Prelude.{◌≡◌};
ghost use Rattle.dfdl_number_pattern.specs.Affix.{is_special, is_plain, is_whole};
ghost use Rattle.dfdl_number_pattern.specs.Machine.{plain_next, character_next, apostrophe_next, quote_next, doubles, says};

/// Where in a prefix or a suffix the reader stands.
#[derive(Clone, Copy, Debug, PartialEq, Eq)]
pub(crate) enum Quote {
    /// Outside of quoted text, between characters.
    Bare,
    /// Behind the byte `C2`, with which U+00A4 begins.
    AfterC2,
    /// Behind the byte `E2`, with which U+2030 begins.
    AfterE2,
    /// Behind the bytes `E2 80`.
    AfterE280,
    /// Behind an apostrophe that opens quoted text or is the first of two.
    Opened,
    /// In quoted text.
    Quoted,
    /// Behind an apostrophe in quoted text, which ends it or is the first of two.
    Closed,
}

/// Whether this byte has a meaning of its own in a pattern.
fn is_special(byte: u8) -> bool
    ensures { result ≡ is_special byte }
{
    (48 <= byte && byte <= 57)
        || (byte == b'#'
            || (byte == b','
                || (byte == b'.'
                    || (byte == b'V'
                        || (byte == b'P'
                            || (byte == b';'
                                || (byte == b'E'
                                    || (byte == b'@' || (byte == b'*' || byte == b'%')))))))))
}

/// Whether this byte may stand unquoted in a prefix or a suffix, and is no apostrophe.
#[tactic(auto, unfolding(crate::specs::Affix::is_plain))]
pub(crate) fn is_plain(byte: u8) -> bool
    ensures { result ≡ is_plain byte }
{
    !is_special(byte)
}

fn plain_next(byte: u8) -> Option<Quote>
    ensures { result ≡ plain_next byte }
{
    if byte == 0xC2 {
        Some(Quote::AfterC2)
    } else if byte == 0xE2 {
        Some(Quote::AfterE2)
    } else if is_plain(byte) {
        Some(Quote::Bare)
    } else {
        None
    }
}

impl Quote {
    /// Whether a prefix or a suffix may end here.
    pub(crate) fn is_whole(self) -> bool
        ensures { result ≡ is_whole self }
    {
        self == Quote::Bare || self == Quote::Closed
    }

    fn character_next(self, byte: u8) -> Option<Quote>
        ensures { result ≡ character_next self byte }
    {
        match self {
            Quote::Bare => plain_next(byte),
            Quote::Closed => plain_next(byte),
            Quote::AfterC2 => {
                if byte == 0xA4 {
                    None
                } else {
                    Some(Quote::Bare)
                }
            }
            Quote::AfterE2 => {
                if byte == 0x80 {
                    Some(Quote::AfterE280)
                } else {
                    Some(Quote::Bare)
                }
            }
            Quote::AfterE280 => {
                if byte == 0xB0 {
                    None
                } else {
                    Some(Quote::Bare)
                }
            }
            Quote::Opened => Some(Quote::Quoted),
            Quote::Quoted => Some(Quote::Quoted),
        }
    }

    fn apostrophe_next(self) -> Option<Quote>
        ensures { result ≡ apostrophe_next self }
    {
        match self {
            Quote::Bare => Some(Quote::Opened),
            Quote::Opened => Some(Quote::Bare),
            Quote::Quoted => Some(Quote::Closed),
            Quote::Closed => Some(Quote::Quoted),
            Quote::AfterC2 => None,
            Quote::AfterE2 => None,
            Quote::AfterE280 => None,
        }
    }

    #[tactic(auto, unfolding(crate::specs::Machine::quote_next))]
    /// Where the prefix or the suffix goes on to by this byte.
    pub(crate) fn next(self, byte: u8) -> Option<Quote>
        ensures { result ≡ quote_next self byte }
    {
        if byte == b'\'' {
            self.apostrophe_next()
        } else {
            self.character_next(byte)
        }
    }

    /// Whether an apostrophe stands for itself here.
    fn doubles(self) -> bool
        ensures { result ≡ doubles self }
    {
        self == Quote::Opened || self == Quote::Closed
    }

    #[tactic(auto, unfolding(crate::specs::Machine::says))]
    /// Whether this byte is one of the text that is meant, and not of its quotation.
    pub(crate) fn says(self, byte: u8) -> bool
        ensures { result ≡ says self byte }
    {
        byte != b'\'' || self.doubles()
    }
}
