// The rules of documents, and why a character is refused.
ghost use Rattle.std.specs.Prelude.{◌≡◌};
ghost use Rattle.dfdl_doc_tree.specs.declared.rule.Refusal.TheVariants.{OutOfMemory};

use std::alloc::{AllocError, AllocFailed};

/// The rules of documents, in their order.
#[derive(Clone, Copy, Debug, PartialEq, Eq, Drop)]
pub enum Rule {
    /// The bytes are UTF-8.
    Utf8,
    /// XML allows each character.
    Allowed,
    /// The markup is well formed.
    Syntax,
    /// An end tag has the name of its start tag.
    EndTag,
    /// No attribute is given twice.
    Attribute,
    /// Each entity is known.
    Entity,
    /// Each prefix is declared.
    Prefix,
    /// The encoding is UTF-8.
    Encoding,
    /// There is one root, with white space around it alone.
    Root,
    /// Elements are not nested deeper than is allowed.
    Depth,
    /// XML allows each character that a reference stands for.
    Referred,
    /// The document ends.
    End,
}

/// Why a character is refused.
#[derive(Clone, Copy, Debug, PartialEq, Eq, Drop)]
pub enum Refusal {
    /// It breaks the rule.
    Broken(Rule),
    /// There is no memory for what is read.
    OutOfMemory,
}

impl From<AllocError> for Refusal {
    ghost from_gives = { λ _ e. e ≡ OutOfMemory };

    fn from(_error: AllocError) -> Refusal {
        Refusal::OutOfMemory
    }
}

impl<T: Drop> From<AllocFailed<T>> for Refusal {
    ghost from_gives = { λ _ e. e ≡ OutOfMemory };

    fn from(_error: AllocFailed<T>) -> Refusal {
        Refusal::OutOfMemory
    }
}
