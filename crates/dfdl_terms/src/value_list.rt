// Lists of values.
use dfdl_value::Value;
use std::marker::Model;

/// Values, one after the other. A contract sees them as their list.
#[derive(Debug, Drop)]
pub struct ValueList {
    values: Vec<Value>,
}

impl Model for ValueList {
    ghost use Rattle.std.specs.Prelude.{List};
    ghost use Rattle.dfdl_value.specs.declared.value.Value.{Value as ValueOf};

    ghost Value = { List ValueOf };

    ghost view = { λ l. l.values.items };
}

impl ValueList {
    ghost use Rattle.std.specs.Prelude.{◌≡◌};

    /// Takes the values as they are, and no memory.
    pub fn from_vec(values: Vec<Value>) -> ValueList
        ensures { result ≡ values.items }
    {
        ValueList { values }
    }

    pub fn as_slice(&self) -> &[Value]
        ensures { result.now ≡ self.now }
    {
        self.values.as_slice()
    }
}
