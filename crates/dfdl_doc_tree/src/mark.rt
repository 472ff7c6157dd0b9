// Where in a document the reader stands.
ghost use Rattle.std.specs.Prelude.{◌≡◌};
ghost use Rattle.dfdl_markup.specs.Rules.{brackets};
ghost use Rattle.dfdl_doc_tree.specs.Shown.{run_number};
ghost use Rattle.dfdl_xml_tree.specs.Held.{held_of};

use crate::said::Said;
use dfdl_xml_tree::Held;

/// What may come before all else.
#[derive(Clone, Copy, Debug, PartialEq, Eq, Drop)]
pub enum Ahead {
    /// A byte order mark or an XML declaration.
    Mark,
    /// An XML declaration.
    Declaration,
    Nothing,
}

/// How many of the same character stand right before; where there are more, two.
#[derive(Clone, Copy, Debug, PartialEq, Eq, Drop)]
pub enum Run {
    None,
    One,
    Two,
}

/// Where a reference stands.
#[derive(Clone, Copy, Debug, PartialEq, Eq, Drop)]
pub enum Within {
    Content,
    Value,
}

/// The piece of markup that is open, without what was read of it.
#[derive(Clone, Copy, Debug, PartialEq, Eq, Drop)]
pub enum Mark {
    /// Between pieces of markup, behind so many `]`.
    Content {
        before: Run,
    },
    /// Behind `<`.
    Opened,
    /// Behind `<!`.
    Bang,
    /// Behind `<!-`.
    Dash,
    /// Behind `<!--`, with so many `-` right before.
    Comment {
        dashes: Run,
    },
    /// Behind `<![` and so many characters of the word of a CDATA section.
    SectionWord {
        read: usize,
    },
    /// In a CDATA section, behind so many `]`.
    Section {
        before: Run,
    },
    /// Behind `<?`.
    Question,
    /// In the target of a processing instruction.
    Target,
    /// Behind the `?` right behind a target.
    TargetEnd,
    /// In the text of a processing instruction, behind a `?` or not.
    Instruction {
        mark: bool,
    },
    /// In the name of a start tag.
    TagName,
    /// In a start tag, behind white space or not.
    Tag {
        spaced: bool,
    },
    /// In an attribute's name.
    AttributeName,
    /// Behind an attribute's name and white space.
    Named,
    /// Behind the `=` of an attribute.
    Equals,
    /// In an attribute's value.
    Value,
    /// Behind the `/` of a start tag.
    Slash,
    /// Behind `</`.
    EndTag,
    /// In the name of an end tag, behind so many of its characters.
    EndName {
        read: usize,
    },
    /// Behind the name of an end tag and white space.
    EndSpace,
    /// Behind `&`.
    Reference {
        within: Within,
    },
    /// In the name of an entity.
    Entity {
        within: Within,
    },
    /// Behind `&#`.
    Hash {
        within: Within,
    },
    /// Behind `&#x`.
    Hexadecimal {
        within: Within,
    },
    /// Behind digits of this number.
    Number {
        within: Within,
        hexadecimal: bool,
        value: u32,
    },
    /// In the XML declaration behind what was said last, with white space or without.
    Declaration {
        last: Option<Said>,
        spaced: bool,
    },
    /// In a word of the XML declaration, behind so many of its characters.
    SaidWord {
        said: Said,
        read: usize,
    },
    /// Behind a word of the XML declaration and white space.
    SaidName {
        said: Said,
    },
    /// Behind its `=`.
    SaidEquals {
        said: Said,
    },
    /// In its value.
    SaidValue {
        said: Said,
    },
    /// Behind the `?` of the XML declaration.
    DeclarationEnd,
}

impl Run {
    /// As many `]` that are held.
    pub fn held(self) -> Held
        ensures { held_of result ≡ run_number self }
    {
        match self {
            Run::None => Held::None,
            Run::One => Held::One,
            Run::Two => Held::Two,
        }
    }

    /// How many `]` stand behind one character more.
    pub fn behind(self, c: char) -> Run
        ensures { run_number result ≡ brackets (run_number self) c }
    {
        if c != ']' {
            Run::None
        } else if self == Run::None {
            Run::One
        } else {
            Run::Two
        }
    }
}
