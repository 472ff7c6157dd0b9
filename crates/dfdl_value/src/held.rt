// Texts and bytes that a value holds. A contract sees a text as the list of its UTF-8 bytes, and
// bytes as their list.
ghost use Rattle.std.specs.Prelude.{◌≡◌, IfOk, string_bytes};

use std::alloc::{AllocError, Global};
use std::marker::Model;

/// A text of a value.
#[derive(Debug, Drop)]
pub struct TextValue {
    text: String,
}

impl Model for TextValue {
    ghost use Rattle.std.specs.Prelude.{List, ℕ, string_bytes};

    ghost Value = { List ℕ };

    ghost view = { λ t. string_bytes t.text };
}

impl TextValue {
    pub fn from_str(alloc: Global, text: &str) -> Result<TextValue, AllocError>
        ensures { IfOk result (λ t. t ≡ text.now) }
    {
        Ok(TextValue {
            text: String::from_str(alloc, text)?,
        })
    }

    /// Takes the text as it is, and no memory.
    pub fn from_string(text: String) -> TextValue
        ensures { result ≡ string_bytes text }
    {
        TextValue { text }
    }

    pub fn as_str(&self) -> &str
        ensures { result.now ≡ self.now }
    {
        self.text.as_str()
    }

    pub fn copy(&self, alloc: Global) -> Result<TextValue, AllocError>
        ensures { IfOk result (λ t. t ≡ self.now) }
    {
        TextValue::from_str(alloc, self.as_str())
    }
}

impl PartialEq for TextValue {
    ghost use Rattle.std.proofs.Common.{rules};
    ghost use Rattle.std.specs.Cmp.Rules.{comparing};
    ghost use Rattle.std.specs.Str.{bytes_eq};

    ghost eq = { bytes_eq };

    ghost laws = { Prim.search (comparing, rules) };

    fn eq(&self, other: &TextValue) -> bool {
        self.as_str() == other.as_str()
    }
}

impl Eq for TextValue {
    ghost use Rattle.std.proofs.Common.{rules};
    ghost use Rattle.std.specs.Cmp.Rules.{comparing};

    ghost laws = { Prim.search (comparing, rules) };
}

/// The bytes of a value.
#[derive(Debug, Drop)]
pub struct ByteValue {
    bytes: Vec<u8>,
}

impl Model for ByteValue {
    ghost use Rattle.std.specs.Prelude.{List, ℕ};

    ghost Value = { List ℕ };

    ghost view = { λ b. b.bytes.items };
}

impl ByteValue {
    pub fn from_slice(alloc: Global, bytes: &[u8]) -> Result<ByteValue, AllocError>
        ensures { IfOk result (λ b. b ≡ bytes.now) }
    {
        Ok(ByteValue {
            bytes: Vec::from_slice(alloc, bytes)?,
        })
    }

    /// Takes the bytes as they are, and no memory.
    pub fn from_vec(bytes: Vec<u8>) -> ByteValue
        ensures { result ≡ bytes.items }
    {
        ByteValue { bytes }
    }

    pub fn as_slice(&self) -> &[u8]
        ensures { result.now ≡ self.now }
    {
        self.bytes.as_slice()
    }

    pub fn copy(&self, alloc: Global) -> Result<ByteValue, AllocError>
        ensures { IfOk result (λ b. b ≡ self.now) }
    {
        ByteValue::from_slice(alloc, self.as_slice())
    }
}

impl PartialEq for ByteValue {
    ghost use Rattle.std.proofs.Common.{rules};
    ghost use Rattle.std.specs.Cmp.Rules.{comparing};
    ghost use Rattle.std.specs.Str.{bytes_eq};

    ghost eq = { bytes_eq };

    ghost laws = { Prim.search (comparing, rules) };

    fn eq(&self, other: &ByteValue) -> bool {
        self.as_slice() == other.as_slice()
    }
}

impl Eq for ByteValue {
    ghost use Rattle.std.proofs.Common.{rules};
    ghost use Rattle.std.specs.Cmp.Rules.{comparing};

    ghost laws = { Prim.search (comparing, rules) };
}
