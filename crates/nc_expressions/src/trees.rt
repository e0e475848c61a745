//! The trees of expressions.

use micro_units::Num;

/// An operator or a function of one value.
#[derive(Clone, Copy, Debug, PartialEq, Eq)]
pub enum UnaryOp {
    /// A minus sign.
    Minus,
    /// NOT: 1 for 0, and 0 for any other number.
    Not,
    /// ABS: the size.
    Abs,
    /// SQRT: the root.
    Sqrt,
    /// POT: the square.
    Pot,
    /// TRUNC: the whole part.
    Trunc,
    /// ROUND: the nearest whole number.
    Round,
}

/// An operator between two values.
#[derive(Clone, Copy, Debug, PartialEq, Eq)]
pub enum BinaryOp {
    /// `+`
    Add,
    /// `-`
    Sub,
    /// `*`
    Mul,
    /// `/`
    Div,
    /// DIV: the whole part of the quotient.
    WholeDiv,
    /// MOD: what is left over by it.
    Modulo,
    /// AND
    And,
    /// OR
    Or,
    /// XOR
    Xor,
    /// `==`
    Equal,
    /// `<>`
    NotEqual,
    /// `>`
    Greater,
    /// `<`
    Less,
    /// `>=`
    GreaterEqual,
    /// `<=`
    LessEqual,
}

/// An expression as its value is found: parentheses and unary plus signs leave nothing in it.
#[derive(Debug, Drop)]
pub enum Expr {
    /// A constant. TRUE is 1 and FALSE is 0.
    Number(Num),
    /// The parameter of this number.
    Parameter(u16),
    /// The parameter whose number is the value of an expression.
    Indexed(Box<Expr>),
    /// An operator or a function of one value.
    Unary(UnaryOp, Box<Expr>),
    /// An operator between the values of a left and a right operand.
    Binary(BinaryOp, Box<Expr>, Box<Expr>),
}
