use dfdl_forms::Simple;
use dfdl_separators::{SeparatorPosition, SeparatorSuppressionPolicy};
use dfdl_terms::{Framing, Measure, Occurs, Prefix, Representations};
use dfdl_value::TextValue;
use std::marker::Model;

/// The box around a content ('Lengths').
#[derive(Debug, Clone, Copy, PartialEq, Eq)]
pub enum ContentBox {
    /// No box.
    Unbounded,
    /// So many bits.
    Sized(u64),
    /// As many units as a length prefix before it tells.
    Prefixed(Prefix),
    /// As many units as an expression gives.
    Measured(Measure),
}

/// What gives the length of a simple content ('Lengths').
#[derive(Debug, Clone, Copy, PartialEq, Eq)]
pub enum LeafLength {
    /// The primitive that it is read by has one of its own.
    Own,
    /// A length prefix before it.
    Prefixed(Prefix),
    /// An expression.
    Measured(Measure),
}

/// What gives how often an element occurs where it stands in a group ('Arrays and Optional Elements').
#[derive(Debug, Clone, Copy, PartialEq, Eq)]
pub enum Counted {
    /// Its bounds. Those occurrences that are tried aren't of occursCountKind parsed.
    ByBounds,
    /// Its bounds. Those occurrences that are tried are of occursCountKind parsed.
    Parsed,
    /// The question of this number in the tables, by occursCountKind expression. The bounds play no part.
    Told(u32),
}

/// The separators of a sequence ('Sequence Groups').
#[derive(Debug, Clone, Copy, PartialEq, Eq)]
pub struct Separated {
    /// The number in the tables of their list.
    pub list: u32,
    /// Where they stand.
    pub position: SeparatorPosition,
    /// Which slots may be there without content or be missing, where some occurrences are tried.
    pub policy: SeparatorSuppressionPolicy,
}

/// A text by which a branch of a choice is taken ('Choices', choiceBranchKey).
#[derive(Debug, Drop)]
pub struct BranchKey {
    /// The place of the branch among the parts of the choice, from 0.
    pub branch: u32,
    pub text: TextValue,
}

/// Keys in the order of the branches. A contract sees them as their list.
#[derive(Debug, Drop)]
pub struct BranchKeys {
    keys: Vec<BranchKey>,
}

impl Model for BranchKeys {
    ghost use Rattle.std.specs.Prelude.{List};
    ghost use Rattle.dfdl_rows.specs.declared.component.BranchKey.{BranchKey as KeyOf};

    ghost Value = { List KeyOf };

    ghost view = { λ k. k.keys.items };
}

impl BranchKeys {
    ghost use Rattle.std.specs.Prelude.{◌≡◌};

    /// Takes the keys as they are, and no memory.
    pub fn from_vec(keys: Vec<BranchKey>) -> BranchKeys
        ensures { result ≡ keys.items }
    {
        BranchKeys { keys }
    }

    pub fn as_slice(&self) -> &[BranchKey]
        ensures { result.now ≡ self.now }
    {
        self.keys.as_slice()
    }
}

/// How a choice is decided by a key ('Choices', choiceDispatchKey).
#[derive(Debug, Drop)]
pub struct Dispatch {
    /// The number in the tables of the question that tells the key.
    pub question: u32,
    pub keys: BranchKeys,
}

/// What a schema component is, with what its own rows need. Its parts are other components.
#[derive(Debug, Drop)]
pub enum Component {
    /// A sequence of its parts.
    Sequence {
        /// What frames its group.
        framing: Framing,
        /// Its separators, if it has some.
        separated: Option<Separated>,
        /// Initiators tell what stands in it ('Sequence Groups', on initiatedContent).
        initiated: bool,
    },
    /// A choice of one of its parts.
    Choice {
        /// What frames its row.
        framing: Framing,
        /// Initiators tell what stands in it ('Sequence Groups', on initiatedContent).
        initiated: bool,
        /// How its branch is told, where its branches aren't tried.
        dispatch: Option<Dispatch>,
    },
    /// An element whose one part is its content.
    ComplexElement {
        /// The local name.
        name: TextValue,
        /// What frames its content, outside of the box.
        framing: Framing,
        /// The box around its content.
        content_box: ContentBox,
        /// The bounds of how often it occurs where it stands in a group ('Arrays and Optional Elements').
        occurs: Occurs,
        /// What gives how often it occurs there.
        counted: Counted,
    },
    /// An element without parts.
    SimpleElement {
        /// The local name.
        name: TextValue,
        simple: Simple,
        /// The number in the tables of the primitive that its content is read by.
        prim: u32,
        /// What frames its content, outside of the prefix.
        framing: Framing,
        /// What gives the length of its content.
        length: LeafLength,
        /// The representations that are tried before its normal one ('DFDL Data Syntax Grammar').
        tried: Representations,
        /// Markup ends its content ('Lengths', on lengthKind delimited).
        is_scanned: bool,
        /// The bounds of how often it occurs where it stands in a group ('Arrays and Optional Elements').
        occurs: Occurs,
        /// What gives how often it occurs there.
        counted: Counted,
    },
    /// An element without parts and without a representation, whose value is calculated ('Calculated Values').
    CalculatedElement {
        /// The local name.
        name: TextValue,
        simple: Simple,
        /// The number in the tables of the statement that calculates its value.
        statement: u32,
        /// The statements at it. There is neither fill nor a delimiter.
        framing: Framing,
    },
    /// A sequence that hides the group that is its one part ('Sequence Groups', on hidden groups).
    Hidden,
}
