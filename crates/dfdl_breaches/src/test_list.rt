// Lists of tests.
use dfdl_terms::PatternTest;
use std::marker::Model;

/// Tests of patterns, one after the other. A contract sees them as their list.
#[derive(Debug, Drop)]
pub struct TestList {
    tests: Vec<PatternTest>,
}

impl Model for TestList {
    ghost use Rattle.std.specs.Prelude.{List};
    ghost use Rattle.dfdl_terms.specs.declared.statement.PatternTest.{PatternTest as TestOf};

    ghost Value = { List TestOf };

    ghost view = { λ l. l.tests.items };
}

impl TestList {
    ghost use Rattle.std.specs.Prelude.{◌≡◌};

    /// Takes the tests as they are, and no memory.
    pub fn from_vec(tests: Vec<PatternTest>) -> TestList
        ensures { result ≡ tests.items }
    {
        TestList { tests }
    }

    pub fn as_slice(&self) -> &[PatternTest]
        ensures { result.now ≡ self.now }
    {
        self.tests.as_slice()
    }

    /// The tests as they are. Takes no memory.
    pub fn into_vec(self) -> Vec<PatternTest>
        ensures { result.items ≡ self }
    {
        self.tests
    }
}
