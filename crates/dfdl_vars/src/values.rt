// What a processor is told of variables.
ghost use Rattle.std.specs.Prelude.{◌≡◌, ◌++◌, ◌∷◌, [], ◌<◌, length, slice_get, IsTrue, ◌↔◌, Some, OnOk, OnErr};

use dfdl_forms::Simple;
use dfdl_value::{TextValue, Value};
use std::alloc::{AllocError, Global};
use std::marker::Model;

/// The definition of a variable. What it starts with is a value of its type.
#[derive(Debug, Drop)]
pub struct VarDef {
    pub name: TextValue,
    pub kind: Simple,
    pub start: Option<Value>,
    pub external: bool,
}

/// Values of variables, each with its variable's number.
#[derive(Debug, Drop)]
pub struct VarValues {
    pairs: Vec<(u32, Value)>,
}

impl Model for VarValues {
    ghost use Rattle.std.specs.Prelude.{List, ℕ};
    ghost use Rattle.dfdl_value.specs.declared.value.Value.{Value as ValueOf};

    ghost Value = { List (ℕ × ValueOf) };

    ghost view = { λ v. v.pairs.items };
}

impl VarValues {
    pub fn new(alloc: Global) -> VarValues
        ensures { result ≡ [] }
    {
        VarValues {
            pairs: Vec::new(alloc),
        }
    }

    pub fn push(&mut self, var: u32, value: Value) -> Result<(), AllocError>
        ensures ok { OnOk result (self.new ≡ self.old ++ (var, value) ∷ []) }
        ensures err { OnErr result (self.new ≡ self.old) }
    {
        self.pairs.push((var, value))?;
        Ok(())
    }

    pub fn len(&self) -> usize
        ensures { result ≡ length self.now }
    {
        self.pairs.len()
    }

    pub fn is_empty(&self) -> bool
        ensures { IsTrue result ↔ (self.now ≡ []) }
    {
        self.pairs.is_empty()
    }

    pub fn pair(&self, at: usize) -> &(u32, Value)
        requires { at < length self.now }
        ensures { slice_get self.now at ≡ Some result.now }
    {
        &self.pairs[at]
    }
}
