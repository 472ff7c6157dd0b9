// Literals of a schema: the pieces that each is made of.
ghost use Rattle.std.specs.Prelude.{◌≡◌, length, map, slice_index_or, ◌<◌, IfOk};

use std::alloc::{AllocError, Global};
use std::marker::Model;

/// What a literal is made of.
#[derive(Debug, Clone, Copy, PartialEq, Eq)]
pub enum Piece {
    /// A character.
    Char(char),
    /// One raw byte.
    Byte(u8),
    /// `%NL;`: a line break.
    NewLine,
    /// `%WSP;`: one white space character.
    Space,
    /// `%WSP+;`: one or more white space characters.
    Spaces,
    /// `%WSP*;`: none or more white space characters.
    MaybeSpaces,
    /// `%ES;`: nothing, alone in its literal.
    Nothing,
}

/// A list of literals. A contract sees it as the list of their pieces.
#[derive(Debug, Drop)]
pub struct Literals {
    literals: Vec<Vec<Piece>>,
}

impl Model for Literals {
    ghost use Rattle.std.specs.Prelude.{List, map};
    ghost use Rattle.dfdl_forms.specs.declared.literals.Piece.{Piece as PieceOf};

    ghost Value = { List (List PieceOf) };

    ghost view = { λ l. map (λ v. v.items) l.literals.items };
}

impl Literals {
    pub fn new(literals: Vec<Vec<Piece>>) -> Literals
        ensures { result ≡ map (λ v. v.items) literals.items }
    {
        Literals { literals }
    }

    pub fn len(&self) -> usize
        ensures { result ≡ length self.now }
    {
        self.literals.len()
    }

    /// The pieces of one literal.
    pub fn pieces(&self, at: usize) -> &[Piece]
        requires { at < length self.now }
        ensures { result.now ≡ slice_index_or self.now at result.now }
    {
        self.literals[at].as_slice()
    }

    pub fn copy(&self, alloc: Global) -> Result<Literals, AllocError>
        ensures { IfOk result (λ l. l ≡ self.now) }
    {
        Ok(Literals {
            literals: copied(alloc, &self.literals)?,
        })
    }
}

fn copied(alloc: Global, literals: &[Vec<Piece>]) -> Result<Vec<Vec<Piece>>, AllocError>
    ensures { IfOk result (λ l. map (λ v. v.items) l.items ≡ map (λ v. v.items) literals.now) }
{
    let mut copies = Vec::new(alloc);
    for literal in literals {
        copies.push(Vec::from_slice(alloc, literal)?)?;
    }
    Ok(copies)
}
