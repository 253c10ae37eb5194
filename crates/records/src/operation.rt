// The seven operations of a node: their numbers and how many operands each takes.
ghost use Rattle.std.specs.Prelude.{◌≡◌};
ghost use Rattle.records.specs.Operations.{ReadsOperation, arity, operation_number};

use std::error::Error;
use std::fmt;

/// An operation; its discriminant is the number that stands for it in node and code records.
#[derive(Clone, Copy, Debug, PartialEq, Eq)]
pub enum Operation {
    Input = 1,
    Literal,
    Negate,
    Add,
    Subtract,
    Multiply,
    Divide,
}

/// A number that no operation has.
#[derive(Clone, Copy, Debug, PartialEq, Eq)]
pub struct UnknownOperation(pub u8);

impl From<Operation> for u8 {
    ghost from_gives = { λ operation number. number ≡ operation_number operation };

    fn from(operation: Operation) -> u8 {
        operation as u8
    }
}

impl TryFrom<u8> for Operation {
    type Error = UnknownOperation;

    ghost try_from_gives = { ReadsOperation };

    fn try_from(number: u8) -> Result<Operation, UnknownOperation> {
        match number {
            1 => Ok(Operation::Input),
            2 => Ok(Operation::Literal),
            3 => Ok(Operation::Negate),
            4 => Ok(Operation::Add),
            5 => Ok(Operation::Subtract),
            6 => Ok(Operation::Multiply),
            7 => Ok(Operation::Divide),
            _ => Err(UnknownOperation(number)),
        }
    }
}

impl Operation {
    /// How many operands the operation takes.
    pub fn arity(&self) -> usize
        ensures { result ≡ arity self.now }
    {
        match self {
            Operation::Input | Operation::Literal => 0,
            Operation::Negate => 1,
            Operation::Add | Operation::Subtract | Operation::Multiply | Operation::Divide => 2,
        }
    }
}

impl fmt::Display for UnknownOperation {
    ghost use Rattle.std.specs.Prelude.{Some, ◌++◌, codes, decimal};

    ghost output = { λ e. Some (codes "no operation has the number " ++ decimal e.0) };

    fn fmt<W: fmt::Write>(&self, f: &mut fmt::Formatter<W>) -> fmt::Result {
        write!(f, "no operation has the number {}", self.0)
    }
}

impl Error for UnknownOperation {}
