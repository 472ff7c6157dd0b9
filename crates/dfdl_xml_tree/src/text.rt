// A text that clauses see as its characters.
ghost use Rattle.std.specs.Prelude.{◌≡◌, [], ◌∷◌, ◌++◌, OnOk};
ghost use Rattle.dfdl_xml_names.specs.Shown.{text_of};

use std::alloc::{AllocError, Global};
use std::marker::Model;
use std::mem;

/// How many bytes a text has room for where it begins.
const ROOM: usize = 24;

/// Characters.
#[derive(Drop)]
pub struct Text {
    text: String,
}

impl Model for Text {
    ghost use Rattle.std.specs.Prelude.{ℕ, List};
    ghost use Rattle.std.specs.Str.{chars};
    ghost use Rattle.std.specs.String.{string_bytes};

    ghost Value = { List ℕ };

    ghost view = { λ t. chars (string_bytes t.text) };
}

impl Text {
    ghost use Rattle.std.specs.Str.{chars};

    pub fn new(alloc: Global) -> Text
        ensures { result ≡ [] }
    {
        Text {
            text: String::new(alloc),
        }
    }

    /// Appends a character.
    pub fn push(&mut self, c: char) -> Result<(), AllocError>
        ensures { OnOk result (self.new ≡ self.old ++ c ∷ []) }
    {
        self.text.push(c)
    }

    /// Makes it this character alone, with room for some more.
    pub fn begin(&mut self, c: char) -> Result<(), AllocError>
        ensures { OnOk result (self.new ≡ c ∷ []) }
    {
        self.clear();
        self.reserve()?;
        self.push(c)
    }

    // Makes room for a short text.
    fn reserve(&mut self) -> Result<(), AllocError>
        ensures { self.new ≡ self.old }
    {
        self.text.reserve(ROOM)
    }

    /// Appends a text.
    pub fn push_str(&mut self, text: &str) -> Result<(), AllocError>
        ensures { OnOk result (self.new ≡ self.old ++ chars text.now) }
    {
        self.text.push_str(text)
    }

    /// Takes all characters away.
    pub fn clear(&mut self)
        ensures { self.new ≡ [] }
    {
        self.text.clear();
    }

    /// Takes the text, and leaves an empty one.
    pub fn take(&mut self, alloc: Global) -> String
        ensures taken { text_of result ≡ self.old }
        ensures empty { self.new ≡ [] }
    {
        mem::replace(self, Text::new(alloc)).into_string()
    }

    pub fn into_string(self) -> String
        ensures { text_of result ≡ self }
    {
        self.text
    }

    pub fn as_str(&self) -> &str
        ensures { chars result.now ≡ self.now }
    {
        self.text.as_str()
    }
}
