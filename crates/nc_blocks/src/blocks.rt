//! Blocks.

use micro_units::Num;
use nc_expressions::{Expr, NameText};

/// A block of a part program: one line.
#[derive(Debug, Drop)]
pub struct Block {
    /// Whether it begins with `/`.
    pub skip: bool,
    /// Its number, N with one to eight digits.
    pub number: Option<u32>,
    /// Its label.
    pub label: Option<NameText>,
    /// What it says.
    pub stmt: Stmt,
}

/// Where a jump searches for its target.
#[derive(Clone, Copy, Debug, PartialEq, Eq)]
pub enum Way {
    /// GOTOF: after the jump.
    Forward,
    /// GOTOB: before the jump.
    Backward,
    /// GOTO: after the jump, and then before it.
    Either,
    /// GOTOC: as GOTO; a missing target is no fault.
    Optional,
}

/// The target of a jump.
#[derive(Debug, Drop, PartialEq, Eq)]
pub enum Target {
    /// The block with this label.
    Label(NameText),
    /// The block with this number.
    Number(u32),
}

/// A jump.
#[derive(Debug, Drop, PartialEq, Eq)]
pub struct JumpTo {
    /// Where it searches.
    pub way: Way,
    /// What it searches for.
    pub target: Target,
}

/// What a block says. Lists are in the order as written.
#[derive(Debug, Drop)]
pub enum Stmt {
    /// Nothing.
    Empty,
    /// Words.
    Words(Vec<Word>),
    /// A jump.
    Jump(JumpTo),
    /// IF with a jump.
    IfJump(Expr, JumpTo),
    /// IF
    If(Expr),
    /// ELSE
    Else,
    /// ENDIF
    EndIf,
    /// WHILE
    While(Expr),
    /// ENDWHILE
    EndWhile,
    /// REPEAT of a loop.
    Repeat,
    /// UNTIL
    Until(Expr),
    /// LOOP
    Loop,
    /// ENDLOOP
    EndLoop,
    /// FOR: the parameter, its first value and its bound.
    For(u16, Expr, Expr),
    /// ENDFOR
    EndFor,
    /// CASE: the value, the pairs of a number and a jump, and the jump of DEFAULT.
    Case(Expr, Vec<(Num, JumpTo)>, Option<JumpTo>),
    /// REPEAT with a label, and how often.
    RepeatFrom(NameText, Option<Expr>),
    /// REPEATB with a label, and how often.
    RepeatBlock(NameText, Option<Expr>),
    /// A call of a program, so many times.
    Call(NameText, u16),
    /// RET
    Return,
    /// PROC with the name of the program.
    Proc(NameText),
    /// A frame word with the workpiece axes that stand after it, 0, 1 and 2 for X, Y and Z.
    Shape(FrameWord, Vec<(u8, Expr)>),
    /// ROT, or AROT where this is true, with the angle of RPL.
    Turn(bool, Option<Expr>),
    /// A coordination word with its arguments.
    Coord(CoordWord, Vec<Operand>),
    /// A message, or another block that does nothing.
    Message,
}

/// What a variable of a program holds.
#[derive(Clone, Copy, Debug, Default, PartialEq, Eq)]
pub enum VarKind {
    /// INT: a whole number.
    #[default]
    Int,
    /// REAL: a number.
    Real,
}

/// A word of a word block.
#[derive(Debug, Drop)]
pub enum Word {
    /// The parameter of this number gets a value.
    Assign(u16, Expr),
    /// The parameter whose number is the first value gets the second.
    AssignAt(Expr, Expr),
    /// A word of a group: the group and the code.
    G(u8, u16),
    /// An axis or centre address in upper case, how its value is meant, and the value.
    Axis(Vec<u8>, Measure, Expr),
    /// CR
    Radius(Expr),
    /// A word that moves nothing: its letter and digits or its name, what stands in brackets after
    /// it, and its value.
    Aux(Vec<u8>, Option<Expr>, Operand),
    /// M2, M30 or M17.
    End,
}

/// An argument.
#[derive(Debug, Drop)]
pub enum Operand {
    /// A value.
    Value(Expr),
    /// A text, without its quotes.
    Text(Vec<u8>),
    /// An axis name or a slot letter, in upper case.
    Axis(Vec<u8>),
}

/// How the value of an axis word is meant.
#[derive(Clone, Copy, Debug, PartialEq, Eq)]
pub enum Measure {
    /// As G90 and G91 say.
    Modal,
    /// AC: absolute.
    Absolute,
    /// IC: incremental.
    Incremental,
}

/// A word that makes or adds to a frame.
#[derive(Clone, Copy, Debug, PartialEq, Eq)]
pub enum FrameWord {
    /// TRANS
    Trans,
    /// ATRANS
    Atrans,
    /// SCALE
    Scale,
    /// ASCALE
    Ascale,
    /// MIRROR
    Mirror,
    /// AMIRROR
    Amirror,
}

/// A word by which channels are coordinated.
#[derive(Clone, Copy, Debug, PartialEq, Eq)]
pub enum CoordWord {
    /// WAITM
    WaitM,
    /// WAITMC
    WaitMC,
    /// SETM
    SetM,
    /// CLEARM
    ClearM,
    /// INIT
    Init,
    /// START
    Start,
    /// WAITE
    WaitE,
    /// RELEASE
    Release,
    /// GET
    Get,
    /// CPROT
    CProt,
}
