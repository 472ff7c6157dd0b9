use super::held::{ByteValue, TextValue};
use dfdl_decimal::Fixed;
use std::alloc::{AllocError, Global};

/// A value of a simple type. Which values a type has, `IsOfType` of specs/Types.antt says.
#[derive(Debug, PartialEq, Eq, Drop)]
pub enum Value {
    /// byte, short, int, long and integer
    Int(i128),
    /// their unsigned forms and nonNegativeInteger
    Uns(u128),
    /// decimal
    Dec(Fixed),
    /// string
    Text(TextValue),
    /// boolean
    Truth(bool),
    /// hexBinary
    Bytes(ByteValue),
}

impl Value {
    ghost use Rattle.std.specs.Prelude.{◌≡◌, IfOk, IsOk};
    ghost use Rattle.dfdl_value.specs.Types.{IsPlain};

    /// An equal value. Only a text and bytes take memory.
    pub fn copy(&self, alloc: Global) -> Result<Value, AllocError>
        ensures ok { IfOk result (λ v. v ≡ self.now) }
        ensures plain { IsPlain self.now → IsOk result }
    {
        match self {
            Value::Int(number) => Ok(Value::Int(*number)),
            Value::Uns(number) => Ok(Value::Uns(*number)),
            Value::Dec(number) => Ok(Value::Dec(*number)),
            Value::Text(text) => Ok(Value::Text(text.copy(alloc)?)),
            Value::Truth(truth) => Ok(Value::Truth(*truth)),
            Value::Bytes(bytes) => Ok(Value::Bytes(bytes.copy(alloc)?)),
        }
    }
}
