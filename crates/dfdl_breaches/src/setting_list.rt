// Lists of elements that set variables.
use dfdl_chains::Setter;
use std::marker::Model;

/// What opens instances of variables at a component, and then what sets variables there. A contract sees them as their list.
#[derive(Debug, Drop)]
pub struct SettingList {
    settings: Vec<Setter>,
}

impl Model for SettingList {
    ghost use Rattle.std.specs.Prelude.{List};
    ghost use Rattle.dfdl_chains.specs.declared.settings.Setter.{Setter as SetterOf};

    ghost Value = { List SetterOf };

    ghost view = { λ l. l.settings.items };
}

impl SettingList {
    ghost use Rattle.std.specs.Prelude.{◌≡◌};

    /// Takes the elements as they are, and no memory.
    pub fn from_vec(settings: Vec<Setter>) -> SettingList
        ensures { result ≡ settings.items }
    {
        SettingList { settings }
    }

    pub fn as_slice(&self) -> &[Setter]
        ensures { result.now ≡ self.now }
    {
        self.settings.as_slice()
    }

    /// The elements as they are. Takes no memory.
    pub fn into_vec(self) -> Vec<Setter>
        ensures { result.items ≡ self }
    {
        self.settings
    }
}
