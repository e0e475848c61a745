//! How tightly operators bind, and what may stand at one level outside brackets.

ghost use Rattle.std.specs.Prelude.{◌≡◌};
ghost use Rattle.nc_expressions.specs.Levels.{rank, kind, joint_level, clash};
ghost use Rattle.nc_expressions.specs.Limits.{all_limits};

use crate::trees::BinaryOp;

/// What stands at a level outside brackets.
#[derive(Clone, Copy)]
pub enum Level {
    /// Neither a comparison nor AND, OR, XOR or NOT.
    Plain,
    /// A comparison.
    Compares,
    /// AND, OR, XOR or NOT.
    Connects,
}

/// How tightly an operator binds.
pub fn rank(op: BinaryOp) -> u8
    ensures { result ≡ rank op }
{
    match op {
        BinaryOp::Equal
        | BinaryOp::NotEqual
        | BinaryOp::Greater
        | BinaryOp::Less
        | BinaryOp::GreaterEqual
        | BinaryOp::LessEqual => 0,
        BinaryOp::Or => 1,
        BinaryOp::Xor => 2,
        BinaryOp::And => 3,
        BinaryOp::Add | BinaryOp::Sub => 4,
        BinaryOp::Mul | BinaryOp::Div | BinaryOp::WholeDiv | BinaryOp::Modulo => 5,
    }
}

/// What an operator makes of the level where it stands.
pub fn kind(op: BinaryOp) -> Level
    ensures { result ≡ kind all_limits op }
{
    match op {
        BinaryOp::Equal
        | BinaryOp::NotEqual
        | BinaryOp::Greater
        | BinaryOp::Less
        | BinaryOp::GreaterEqual
        | BinaryOp::LessEqual => Level::Compares,
        BinaryOp::And | BinaryOp::Or | BinaryOp::Xor => Level::Connects,
        BinaryOp::Add
        | BinaryOp::Sub
        | BinaryOp::Mul
        | BinaryOp::Div
        | BinaryOp::WholeDiv
        | BinaryOp::Modulo => Level::Plain,
    }
}

/// The level of two parts that stand beside one another, or `None` where they may not.
pub fn together(level: Level, more: Level) -> Option<Level>
    ensures { result ≡ joint_level level more }
{
    match (level, more) {
        (Level::Plain, _) => Some(more),
        (_, Level::Plain) => Some(level),
        (Level::Connects, Level::Connects) => Some(Level::Connects),
        _ => None,
    }
}

/// The refusal where two parts may not stand beside one another.
pub fn clash(level: Level, more: Level) -> u16
    ensures { result ≡ clash level more }
{
    match (level, more) {
        (Level::Compares, Level::Compares) => 22,
        _ => 23,
    }
}
