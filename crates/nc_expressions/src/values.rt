//! The values of expressions.

ghost use Rattle.std.specs.Prelude.{◌≡◌, ◌≤◌, ℕ, ℤ, ◌^◌, ◌<◌, pos, neg_ℤ, IfOk};
ghost use Rattle.std.specs.Int.RustNames.{unsigned_abs};
ghost use Rattle.micro_units.specs.Num.{FitsNum};
ghost use Rattle.nc_expressions.specs.Symbols.{truth, index_of};
ghost use Rattle.nc_expressions.specs.Tree.{tree_of, IndicesFit};
ghost use Rattle.nc_expressions.specs.Value.{value_of, in_range_or_alarm, quotient_or_alarm, root_or_alarm, unary_value, binary_value, is_true, at_index, number_or_alarm};
ghost use Rattle.nc_expressions.specs.declared.limits.TheConstants.{LAST_PARAMETER};

use crate::symbols::{index_of, truth};
use crate::trees::{BinaryOp, Expr, UnaryOp};
use fault_codes::alarms::{DIVISION_BY_ZERO, NEGATIVE_ROOT, NUMBER_TOO_LARGE, PARAMETER_INDEX};
use micro_units::{Num, NumFault};

/// What an expression reads: the values of the 1,000 parameters.
pub trait Names {
    ghost use Rattle.std.specs.Prelude.{◌≡◌, ◌≤◌};
    ghost use Rattle.nc_expressions.specs.Values.{Values};
    ghost use Rattle.nc_expressions.specs.declared.limits.TheConstants.{LAST_PARAMETER};

    /// What an expression reads.
    ghost values: { Self → Values };

    /// The value of the parameter of this number, at most `LAST_PARAMETER`.
    fn parameter(&self, index: u16) -> Num
        requires { index ≤ LAST_PARAMETER }
        ensures { result ≡ (values self.now).parameter index };
}

/// The value of an expression, or the first alarm from left to right: 1 where a result is out of
/// range, 2 where a divisor is 0, 3 where the root of a negative number is asked for, 4 where an
/// index in brackets is no number of a parameter.
pub fn eval<N: Names>(expr: &Expr, names: &N) -> Result<Num, u16>
    requires { IndicesFit (tree_of expr.now) }
    ensures { result ≡ value_of (N.values names.now) (tree_of expr.now) }
{
    match expr {
        Expr::Number(number) => Ok(*number),
        Expr::Parameter(index) => Ok(names.parameter(*index)),
        Expr::Indexed(index) => {
            let index = eval(index, names)?;
            at_index(names, index)
        }
        Expr::Unary(op, operand) => {
            let operand = eval(operand, names)?;
            unary(*op, operand)
        }
        Expr::Binary(op, left, right) => {
            let left = eval(left, names)?;
            let right = eval(right, names)?;
            binary(*op, left, right)
        }
    }
}

/// The parameter whose number is a value.
fn at_index<N: Names>(names: &N, index: Num) -> Result<Num, u16>
    ensures { result ≡ at_index (N.values names.now) (index_of index) }
{
    match index_of(index) {
        Some(index) => Ok(names.parameter(index)),
        None => Err(PARAMETER_INDEX),
    }
}

/// The number, or the alarm in place of its fault.
fn alarmed(number: Result<Num, NumFault>) -> Result<Num, u16>
    ensures value { result ≡ number_or_alarm number }
    ensures range { IfOk result (λ n. FitsNum n) }
{
    match number {
        Ok(number) => {
            let _range = number.millionths;
            Ok(number)
        }
        Err(NumFault::DivideByZero) => Err(DIVISION_BY_ZERO),
        Err(NumFault::NegativeRoot) => Err(NEGATIVE_ROOT),
        Err(NumFault::TooLarge | NumFault::NotANumber) => Err(NUMBER_TOO_LARGE),
    }
}

/// Whether a number counts as true.
fn is_true(number: Num) -> bool
    ensures { result ≡ is_true number }
{
    number.millionths != 0
}

/// The number with the other sign.
pub fn negated(number: Num) -> Num
    ensures { result ≡ neg_ℤ number }
{
    Num {
        millionths: -number.millionths,
    }
}

/// The size of a number.
fn size(number: Num) -> Num
    ensures { result ≡ pos (unsigned_abs number) }
{
    Num {
        millionths: number.millionths.abs(),
    }
}

/// The value of an operator or a function of one value.
#[tactic(auto, using(crate::proofs::Alarms::alarms), unfolding(crate::specs::Value::unary_value))]
fn unary(op: UnaryOp, operand: Num) -> Result<Num, u16>
    ensures { result ≡ unary_value op operand }
{
    match op {
        UnaryOp::Minus => Ok(negated(operand)),
        UnaryOp::Not => Ok(truth(!is_true(operand))),
        UnaryOp::Abs => Ok(size(operand)),
        UnaryOp::Sqrt => alarmed(operand.sqrt()),
        UnaryOp::Pot => alarmed(operand.mul(operand)),
        UnaryOp::Trunc => Ok(operand.trunc()),
        UnaryOp::Round => alarmed(operand.round()),
    }
}

/// The value of an operator between two values.
#[tactic(auto, using(crate::proofs::Alarms::alarms), unfolding(crate::specs::Value::binary_value))]
fn binary(op: BinaryOp, left: Num, right: Num) -> Result<Num, u16>
    ensures { result ≡ binary_value op left right }
{
    match op {
        BinaryOp::Add => alarmed(left.add(right)),
        BinaryOp::Sub => alarmed(left.sub(right)),
        BinaryOp::Mul => alarmed(left.mul(right)),
        BinaryOp::Div => alarmed(left.div(right)),
        BinaryOp::WholeDiv => alarmed(left.whole_div(right)),
        BinaryOp::Modulo => alarmed(left.modulo(right)),
        BinaryOp::And => Ok(truth(is_true(left) && is_true(right))),
        BinaryOp::Or => Ok(truth(is_true(left) || is_true(right))),
        BinaryOp::Xor => Ok(truth(is_true(left) != is_true(right))),
        BinaryOp::Equal => Ok(truth(left.millionths == right.millionths)),
        BinaryOp::NotEqual => Ok(truth(left.millionths != right.millionths)),
        BinaryOp::Greater => Ok(truth(left.millionths > right.millionths)),
        BinaryOp::Less => Ok(truth(left.millionths < right.millionths)),
        BinaryOp::GreaterEqual => Ok(truth(left.millionths >= right.millionths)),
        BinaryOp::LessEqual => Ok(truth(left.millionths <= right.millionths)),
    }
}
