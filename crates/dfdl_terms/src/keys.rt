// The keys of a choice that is decided by an expression.
use crate::row::RowId;
use dfdl_value::TextValue;
use std::marker::Model;

/// The row that is taken where an expression gives this text ('Choices').
#[derive(Debug, Drop)]
pub struct Key {
    pub text: TextValue,
    pub body: RowId,
}

/// Keys in the order of the schema. A contract sees them as their list.
#[derive(Debug, Drop)]
pub struct KeyList {
    keys: Vec<Key>,
}

impl Model for KeyList {
    ghost use Rattle.std.specs.Prelude.{List};
    ghost use Rattle.dfdl_terms.specs.declared.keys.Key.{Key as KeyOf};

    ghost Value = { List KeyOf };

    ghost view = { λ l. l.keys.items };
}

impl KeyList {
    ghost use Rattle.std.specs.Prelude.{◌≡◌};

    /// Takes the keys as they are, and no memory.
    pub fn from_vec(keys: Vec<Key>) -> KeyList
        ensures { result ≡ keys.items }
    {
        KeyList { keys }
    }

    pub fn as_slice(&self) -> &[Key]
        ensures { result.now ≡ self.now }
    {
        self.keys.as_slice()
    }
}
