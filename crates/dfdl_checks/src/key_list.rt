// Lists of keys of branches.
use dfdl_value::TextValue;
use std::marker::Model;

/// Keys of a branch, in their order. A contract sees them as the list of their UTF-8 bytes.
#[derive(Debug, Drop)]
pub struct KeyList {
    keys: Vec<TextValue>,
}

impl Model for KeyList {
    ghost use Rattle.std.specs.Prelude.{List, ℕ};

    ghost Value = { List (List ℕ) };

    ghost view = { λ l. l.keys.items };
}

impl KeyList {
    ghost use Rattle.std.specs.Prelude.{◌≡◌};

    /// Takes the keys as they are, and no memory.
    pub fn from_vec(keys: Vec<TextValue>) -> KeyList
        ensures { result ≡ keys.items }
    {
        KeyList { keys }
    }

    pub fn as_slice(&self) -> &[TextValue]
        ensures { result.now ≡ self.now }
    {
        self.keys.as_slice()
    }

    /// The keys as they are. Takes no memory.
    pub fn into_vec(self) -> Vec<TextValue>
        ensures { result.items ≡ self }
    {
        self.keys
    }
}
