ghost use Rattle.std.specs.Prelude.{◌≡◌, ◌<◌, List};
ghost use Rattle.dfdl_terms.specs.Rows.{IsWritten};

use crate::delimiters::{Delimiter, Delimiters};
use crate::keys::KeyList;
use crate::names::NameNumbers;
use crate::prefix::{Measure, Prefix};
use crate::representations::Representations;
use crate::slots::SlotList;
use crate::statement::{Statement, Statements};
use crate::text::{
    DefaultForm, NilOctets, NilValues, OctetForm, PatternForm, TextForm, text_is_written,
};
use dfdl_forms::{BitTruthForm, IntForm, PackedForm};
use dfdl_separators::{SeparatorPosition, SeparatorSuppressionPolicy};
use dfdl_value::{Simple, TextValue};
use dfdl_vars::VarDef;
use std::marker::Model;

/// The number of a row, counted from 0.
#[derive(Debug, Clone, Copy, PartialEq, Eq)]
pub struct RowId {
    number: u32,
}

impl Model for RowId {
    ghost use Rattle.std.specs.Prelude.{ℕ};

    ghost Value = { ℕ };

    ghost view = { λ r. r.number };

    ghost inverse = { λ n. record { number = n } };
}

impl RowId {
    pub fn new(number: u32) -> RowId
        ensures { result ≡ number }
    {
        RowId { number }
    }

    pub fn number(self) -> u32
        ensures { result ≡ self }
    {
        self.number
    }
}

/// Rows in the order of the schema.
#[derive(Debug, Drop)]
pub struct RowList {
    ids: Vec<RowId>,
}

impl Model for RowList {
    ghost use Rattle.std.specs.Prelude.{List, ℕ};

    ghost Value = { List ℕ };

    ghost view = { λ r. r.ids.items };
}

impl RowList {
    pub fn new(ids: Vec<RowId>) -> RowList
        ensures { result ≡ ids.items }
    {
        RowList { ids }
    }

    pub fn as_slice(&self) -> &[RowId]
        ensures { result.now ≡ self.now }
    {
        self.ids.as_slice()
    }
}

/// How the content of a simple element lies in its box.
#[derive(Debug, Drop)]
pub enum Primitive {
    /// A binary integer or decimal ('Simple Types').
    Integer(IntForm),
    /// A packed decimal, BCD or IBM 4690 packed number ('Simple Types').
    Packed(PackedForm),
    /// A binary boolean ('Simple Types').
    Truth(BitTruthForm),
    /// Bytes ('Simple Types', hexBinary).
    Octets(OctetForm),
    /// Characters: a string, a text number or a text boolean ('Simple Types').
    Text(TextForm),
    /// Bytes that stand for nil, and nothing else ('DFDL Data Syntax Grammar').
    NilOctets(NilOctets),
    /// No bits, which stand for a value ('DFDL Data Syntax Grammar').
    Default(DefaultForm),
    /// The value that the element's own primitive gives, which stands for nil where it is one of these ('DFDL Data Syntax
    /// Grammar').
    NilValues(NilValues),
    /// Characters that a pattern matches, and which are a length in bytes ('Lengths', lengthKind pattern).
    Pattern(PatternForm),
}

/// The text that a primitive stands for is one of characters. The call does nothing.
pub fn default_is_written(primitive: &Primitive)
    ensures { (form : DefaultForm) → primitive.now ≡ Primitive.Default form → IsWritten form.value }
{
    if let Primitive::Default(form) = primitive {
        text_is_written(&form.value);
    }
}

/// One step of the data syntax grammar.
#[derive(Debug, Drop)]
pub enum Row {
    /// Reads the box by the primitive of this number in the tables.
    Leaf {
        prim: u32,
    },
    /// One element: its local name, its simple type if it has one, the representations that are tried before its normal one,
    /// the statements that are done behind it, and its content.
    Elem {
        name: TextValue,
        simple: Option<Simple>,
        tried: Representations,
        behind: Statements,
        body: RowId,
    },
    /// A sequence of rows.
    Group {
        children: RowList,
    },
    /// Passes over so many bits of fill ('Framing').
    Skip {
        bits: u32,
    },
    /// Passes over fill up to the next multiple of so many bits from the start of the data ('Framing').
    Align {
        bits: u32,
    },
    /// Passes over a text of an initiator ('Framing').
    Initiator {
        delimiter: Delimiter,
    },
    /// Passes over a text of a terminator, of a component that may have separators of this list of the tables ('Framing').
    Terminator {
        delimiter: Delimiter,
        separator: Option<u32>,
    },
    /// Passes over a text of the innermost list that is open, as a separator ('Sequence Groups').
    Separator,
    /// A row inside of which a text of this list of the tables ends a content ('Framing').
    Scope {
        list: u32,
        body: RowId,
    },
    /// A box of so many bits, with a row in it; what the row leaves of the box is passed over ('Lengths').
    Boxed {
        bits: u64,
        body: RowId,
    },
    /// A length prefix, and behind it the content of the primitive of this number, which has the length that the prefix
    /// tells in place of one of its own ('Lengths').
    PrefixedLeaf {
        prefix: Prefix,
        prim: u32,
    },
    /// A length prefix, and behind it a box of so many units, with a row in it; what the row leaves of the box is passed
    /// over ('Lengths').
    PrefixedBox {
        prefix: Prefix,
        body: RowId,
    },
    /// The content of the primitive of this number, which has the length that an expression gives in place of one of its own
    /// ('Lengths').
    MeasuredLeaf {
        measure: Measure,
        prim: u32,
    },
    /// A box of as many units as an expression gives, with a row in it; what the row leaves of the box is passed over ('Lengths').
    MeasuredBox {
        measure: Measure,
        body: RowId,
    },
    /// A row so many times, one after the other ('Arrays and Optional Elements').
    Repeat {
        count: u32,
        body: RowId,
    },
    /// A row that is an item of an array, as many times as the question of this number in the tables tells, one after the other ('Arrays and
    /// Optional Elements').
    Counted {
        question: u32,
        body: RowId,
    },
    /// A row at most so many times, one after the other, each of which is tried: one that fails, or that passes over no bit, is
    /// dropped and ends them ('Arrays and Optional Elements').
    Optional {
        most: u64,
        /// The row is that of an item of an array.
        is_item: bool,
        /// An initiator that is found at the begin of one tells that it is the one that stands there.
        initiated: bool,
        body: RowId,
    },
    /// Rows that are tried in this order at one place, the first of which that doesn't fail is taken ('Choices').
    Choice {
        branches: RowList,
        /// An initiator that is found at the begin of one tells that it is the one that stands there.
        initiated: bool,
    },
    /// The row whose key is the text that the question of this number in the tables tells ('Choices').
    Dispatch {
        question: u32,
        keys: KeyList,
    },
    /// Does the statement of this number in the tables ('DFDL Schema Component Model').
    Statement {
        statement: u32,
    },
    /// A row of a sequence or a choice, behind which statements are done ('DFDL Schema Component Model').
    Concluded {
        behind: Statements,
        body: RowId,
    },
    /// A row whose elements the infoset doesn't have ('Sequence Groups', on hidden groups).
    Hidden {
        body: RowId,
    },
    /// The content of a complex element that has no box: how long it is, is kept with the element ('DFDL Expression Language', on
    /// lengths).
    Spanned {
        body: RowId,
    },
    /// A row inside of which an instance of a variable is open, which the statement of this number in the tables opens ('DFDL
    /// Expression Language', on variables).
    Instance {
        statement: u32,
        body: RowId,
    },
    /// The children of a sequence with separators, some of whose occurrences are tried ('Sequence Groups').
    Separated {
        policy: SeparatorSuppressionPolicy,
        position: SeparatorPosition,
        /// An initiator that is found at the begin of one that is tried tells that it is the one that stands there.
        initiated: bool,
        slots: SlotList,
    },
}

/// What rows name by numbers.
#[derive(Debug, Drop)]
pub struct Tables {
    primitives: Vec<Primitive>,
    delimiters: Vec<Delimiters>,
    statements: Vec<Statement>,
    names: NameNumbers,
    variables: Vec<VarDef>,
}

impl Model for Tables {
    ghost use Rattle.dfdl_terms.specs.Tables.{Named};

    ghost Value = { Named };

    ghost view = { λ t. record {
      primitives = t.primitives.items;
      delimiters = t.delimiters.items;
      statements = t.statements.items;
      names = t.names;
      variables = t.variables.items;
    } };
}

impl Tables {
    pub fn new(
        primitives: Vec<Primitive>,
        delimiters: Vec<Delimiters>,
        statements: Vec<Statement>,
        names: NameNumbers,
        variables: Vec<VarDef>,
    ) -> Tables
        ensures { result ≡ record {
          primitives = primitives.items;
          delimiters = delimiters.items;
          statements = statements.items;
          names = names;
          variables = variables.items;
        } }
    {
        Tables {
            primitives,
            delimiters,
            statements,
            names,
            variables,
        }
    }

    pub fn primitives(&self) -> &[Primitive]
        ensures { result.now ≡ self.now.primitives }
    {
        self.primitives.as_slice()
    }

    /// The lists of literals of initiators, terminators and separators.
    pub fn delimiters(&self) -> &[Delimiters]
        ensures { result.now ≡ self.now.delimiters }
    {
        self.delimiters.as_slice()
    }

    pub fn statements(&self) -> &[Statement]
        ensures { result.now ≡ self.now.statements }
    {
        self.statements.as_slice()
    }

    /// The numbers of the local names of elements, by the numbers of their rows.
    pub fn names(&self) -> &NameNumbers
        ensures { result.now ≡ self.now.names }
    {
        &self.names
    }

    /// The variables that the schema defines, by their numbers.
    pub fn variables(&self) -> &[VarDef]
        ensures { result.now ≡ self.now.variables }
    {
        self.variables.as_slice()
    }
}
