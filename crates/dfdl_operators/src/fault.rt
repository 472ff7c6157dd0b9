// Why an operator or a function has no result.
ghost use Rattle.std.specs.Prelude.{◌≡◌};
ghost use Rattle.dfdl_operators.specs.Faults.{fault_number};

use thiserror::Error;

/// The faults of expressions that operators and functions on values have.
#[derive(Clone, Copy, Debug, PartialEq, Eq, Error)]
pub enum OperatorFault {
    /// No value carries the result: it is whole and below -2^127 or above 2^128 - 1, or it has a
    /// fraction and more than 38 digits or more than 255 of them after the point.
    #[error("a result past the range of numbers")]
    PastRange,
    /// A divisor is zero, or a quotient takes more than 18 digits after its point.
    #[error("no exact quotient")]
    NoQuotient,
    /// An operand is no value of the type that is wanted.
    #[error("no value of the wanted type")]
    WrongType,
}

impl OperatorFault {
    /// The number E of the fault.
    pub fn number(&self) -> u8
        ensures { result ≡ fault_number self.now }
    {
        match self {
            OperatorFault::PastRange => 4,
            OperatorFault::NoQuotient => 5,
            OperatorFault::WrongType => 6,
        }
    }
}

/// Why a function that may take memory has no result.
#[derive(Clone, Copy, Debug, PartialEq, Eq, Error)]
pub enum FunctionFault {
    #[error("a fault of the expression")]
    Fault(OperatorFault),
    #[error("out of memory")]
    OutOfMemory,
}
