ghost use Rattle.std.specs.Prelude.{◌≡◌, Some};
ghost use Rattle.text.specs.Decodes.{Decodes};
ghost use Rattle.text.specs.Operator.{coded_by, holds_of, sign_of};

use std::cmp::Ordering;
use std::fmt;
use thiserror::Error;

/// The operators of conditions.
#[derive(Clone, Copy, PartialEq, Eq, Debug)]
pub enum Operator {
    Equal,
    Less,
    Greater,
    AtMost,
    AtLeast,
    Unequal,
}

/// A code that names no operator.
#[derive(Clone, Copy, PartialEq, Eq, Debug, Error)]
#[error("no operator has the code {0:02X}")]
pub struct UnknownOperator(pub u8);

/// The operator of a code.
impl TryFrom<u8> for Operator {
    type Error = UnknownOperator;

    ghost try_from_gives = { Decodes coded_by (λ e. e.0) };

    fn try_from(code: u8) -> Result<Operator, UnknownOperator> {
        match code {
            0x3D => Ok(Operator::Equal),
            0x3C => Ok(Operator::Less),
            0x3E => Ok(Operator::Greater),
            0x4C => Ok(Operator::AtMost),
            0x47 => Ok(Operator::AtLeast),
            0x23 => Ok(Operator::Unequal),
            _ => Err(UnknownOperator(code)),
        }
    }
}

impl Operator {
    /// Whether a string that stands so to another meets the operator with it.
    pub fn holds(self, order: Ordering) -> bool
        ensures { result ≡ holds_of self order }
    {
        match self {
            Operator::Equal => order.is_eq(),
            Operator::Less => order.is_lt(),
            Operator::Greater => order.is_gt(),
            Operator::AtMost => order.is_le(),
            Operator::AtLeast => order.is_ge(),
            Operator::Unequal => order.is_ne(),
        }
    }
}

/// The sign of the operator.
// Written out, since a derived `Display` promises no words.
impl fmt::Display for Operator {
    ghost output = { λ o. Some (sign_of o) };

    ghost styled_output = { λ o _. Some (sign_of o) };

    fn fmt<W: fmt::Write>(&self, f: &mut fmt::Formatter<W>) -> fmt::Result {
        f.write_str(match self {
            Operator::Equal => "=",
            Operator::Less => "<",
            Operator::Greater => ">",
            Operator::AtMost => "<=",
            Operator::AtLeast => ">=",
            Operator::Unequal => "<>",
        })
    }
}
