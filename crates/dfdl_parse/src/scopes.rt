// The lists of delimiters that are open.
ghost use Rattle.std.specs.Prelude.{◌≡◌, [], ◌∷◌, ◌++◌, OnOk, IfOk, length, drop, take};

use std::alloc::{AllocError, Global};
use std::marker::Model;

/// The numbers of the lists of the tables whose texts end a content, those of the outermost component first.
#[derive(Drop)]
pub struct Scopes {
    lists: Vec<u32>,
}

impl Model for Scopes {
    ghost use Rattle.std.specs.Prelude.{List, ℕ};

    ghost Value = { List ℕ };

    ghost view = { λ s. s.lists.items };
}

impl Scopes {
    /// No lists, with the memory for so many. More are taken as they are needed.
    pub fn open(alloc: Global, room: usize) -> Result<Scopes, AllocError>
        ensures { IfOk result (λ scopes. scopes ≡ []) }
    {
        Ok(Scopes {
            lists: Vec::with_capacity(alloc, room)?,
        })
    }

    pub(crate) fn push(&mut self, list: u32) -> Result<(), AllocError>
        ensures { OnOk result (self.new ≡ self.old ++ list ∷ []) }
    {
        self.lists.push(list)?;
        Ok(())
    }

    /// Leaves so many lists.
    pub(crate) fn close_to(&mut self, count: usize)
        ensures { self.new ≡ take count self.old }
    {
        self.lists.truncate(count);
    }

    pub(crate) fn len(&self) -> usize
        ensures { result ≡ length self.now }
    {
        self.lists.len()
    }

    /// All lists but so many.
    pub(crate) fn from(&self, hidden: usize) -> &[u32]
        ensures { result.now ≡ drop hidden self.now }
    {
        match self.lists.get(hidden..) {
            Some(lists) => lists,
            None => &[],
        }
    }
}
