// What stands around an expression, as the environment that it is evaluated in.
ghost use Rattle.std.specs.Prelude.{◌≡◌, false, refl};
ghost use Rattle.dfdl_surroundings.specs.Answers.{answer_in, read_in};
ghost use Rattle.dfdl_surroundings.specs.Steady.{same_answers};

use super::document::Document;
use super::variables::read_variable;
use dfdl_expression_eval::{Env, Evaluated, OutOfMemory};
use dfdl_expressions::{Extent, Path};
use dfdl_vars::Vars;
use std::alloc::Global;
use std::marker::Model;

/// What stands around an expression while data is parsed. Its calls may take memory, since a text is copied out of the document or
/// out of a variable.
#[derive(Drop)]
pub(crate) struct Surroundings<'d> {
    pub(crate) document: Document<'d>,
    pub(crate) variables: Vars,
}

impl<'d> Model for Surroundings<'d> {
    ghost use Rattle.dfdl_surroundings.specs.Around.{Around};
    ghost use Rattle.dfdl_surroundings.specs.Answers.{around};

    ghost Value = { Around };

    ghost view = { λ s. around s.document s.variables };
}

impl<'d> Env for Surroundings<'d> {
    ghost answers = { answer_in };

    ghost read = { read_in };

    ghost is_lean = { λ s. false };

    ghost steady = { λ s number. same_answers s.seen s.variables number };

    ghost lean_stays = { λ s number. refl };

    fn item(
        &mut self,
        alloc: Global,
        path: &Path,
        places: &[u64],
    ) -> Result<Evaluated, OutOfMemory> {
        self.document.item(alloc, path, places)
    }

    fn count(
        &mut self,
        _alloc: Global,
        path: &Path,
        places: &[u64],
    ) -> Result<Evaluated, OutOfMemory> {
        Ok(self.document.count(path, places))
    }

    fn length(
        &mut self,
        _alloc: Global,
        path: &Path,
        places: &[u64],
        extent: Extent,
    ) -> Result<Evaluated, OutOfMemory> {
        Ok(self.document.length(path, places, extent))
    }

    fn variable(&mut self, alloc: Global, number: u32) -> Result<Evaluated, OutOfMemory> {
        read_variable(alloc, &mut self.variables, number)
    }

    fn occurs_index(&mut self, _alloc: Global) -> Result<Evaluated, OutOfMemory> {
        Ok(self.document.occurs_index())
    }
}
