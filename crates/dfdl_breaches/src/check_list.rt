// Lists of tests of expressions.
use dfdl_checks::CheckForm;
use std::marker::Model;

/// Tests of expressions, one after the other. A contract sees them as their list.
#[derive(Debug, Drop)]
pub struct CheckList {
    checks: Vec<CheckForm>,
}

impl Model for CheckList {
    ghost use Rattle.std.specs.Prelude.{List};
    ghost use Rattle.dfdl_checks.specs.declared.expression_tests.CheckForm.{CheckForm as CheckOf};

    ghost Value = { List CheckOf };

    ghost view = { λ l. l.checks.items };
}

impl CheckList {
    ghost use Rattle.std.specs.Prelude.{◌≡◌};

    /// Takes the tests as they are, and no memory.
    pub fn from_vec(checks: Vec<CheckForm>) -> CheckList
        ensures { result ≡ checks.items }
    {
        CheckList { checks }
    }

    pub fn as_slice(&self) -> &[CheckForm]
        ensures { result.now ≡ self.now }
    {
        self.checks.as_slice()
    }

    /// The tests as they are. Takes no memory.
    pub fn into_vec(self) -> Vec<CheckForm>
        ensures { result.items ≡ self }
    {
        self.checks
    }
}
