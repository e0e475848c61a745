//! Whether the structures of a program match.

ghost use Rattle.std.specs.Prelude.{◌≡◌, option_map, slice_get};
ghost use Rattle.nc_blocks.specs.Statement.{statement_view};
ghost use Rattle.nc_control_flow.specs.Nest.{ends as ends_of, nest_with, nest_without, nest_with_else, nest_after, Nests};

use crate::limits::STRUCTURE_LIMIT;
use arrayvec::ArrayVec;
use nc_blocks::Stmt;
use std::marker::Model;

/// A structure of statements.
#[derive(Clone, Copy)]
pub(crate) enum Structure {
    /// IF
    If,
    /// IF, after its ELSE.
    IfElse,
    /// WHILE
    While,
    /// REPEAT, to its UNTIL.
    Repeat,
    /// LOOP
    Loop,
    /// FOR
    For,
}

impl Structure {
    /// Whether the end of this structure ends another one, which is open.
    fn ends(self, other: Structure) -> bool
        ensures { result ≡ ends_of self other }
    {
        matches!(
            (self, other),
            (Structure::If, Structure::If | Structure::IfElse)
                | (Structure::While, Structure::While)
                | (Structure::Repeat, Structure::Repeat)
                | (Structure::Loop, Structure::Loop)
                | (Structure::For, Structure::For)
        )
    }
}

/// A structure that is open, with its line.
#[derive(Clone, Copy)]
pub(crate) struct Opened {
    /// What is open.
    pub structure: Structure,
    /// The line that opened it.
    pub line: u32,
}

impl Default for Opened {
    ghost use Rattle.nc_control_flow.specs.declared.nest.Structure.TheVariants as structure;

    ghost is_default = { λ nest_with. nest_with ≡ record { structure = structure.If; line = 0 } };

    fn default() -> Opened {
        Opened {
            structure: Structure::If,
            line: 0,
        }
    }
}

/// The structures of a program that are open, line by line; a contract sees them as a list, the
/// innermost first.
#[derive(Drop)]
pub struct Nest {
    open: ArrayVec<Opened, STRUCTURE_LIMIT>,
}

impl Model for Nest {
    ghost use Rattle.std.specs.Prelude.{List};
    ghost use Rattle.nc_control_flow.specs.declared.nest.Opened.{Opened};

    ghost Value = { List Opened };

    ghost view = { λ n. n.«open».items };
}

impl Default for Nest {
    ghost use Rattle.std.specs.Prelude.{[]};

    ghost is_default = { λ nest. nest ≡ [] };

    fn default() -> Nest {
        Nest::new()
    }
}

impl Nest {
    ghost use Rattle.std.specs.Prelude.{[]};

    /// No structure is open.
    pub fn new() -> Nest
        ensures { result ≡ [] }
    {
        Nest {
            open: ArrayVec::new(),
        }
    }

    /// Takes one more line of the program.
    ///
    /// Refusal 25: it ends or goes on with a structure that is not the innermost open one, or is a
    /// second ELSE of one IF. Refusal 26: it opens a seventeenth. The nest is then unchanged.
    #[tactic(auto, unfolding(crate::specs::Nest::nest_after))]
    pub fn step(&mut self, line: u32, stmt: &Stmt) -> Result<(), u16>
        ensures { Nests (nest_after self.old line (statement_view stmt.now)) result self.old self.new }
    {
        match stmt {
            Stmt::If(_) => self.enter(Structure::If, line),
            Stmt::While(_) => self.enter(Structure::While, line),
            Stmt::Repeat => self.enter(Structure::Repeat, line),
            Stmt::Loop => self.enter(Structure::Loop, line),
            Stmt::For(_, _, _) => self.enter(Structure::For, line),
            Stmt::Else => self.branch(),
            Stmt::EndIf => self.leave(Structure::If),
            Stmt::EndWhile => self.leave(Structure::While),
            Stmt::Until(_) => self.leave(Structure::Repeat),
            Stmt::EndLoop => self.leave(Structure::Loop),
            Stmt::EndFor => self.leave(Structure::For),
            _ => Ok(()),
        }
    }

    /// The line of the structure that was opened last and is open.
    pub fn open_line(&self) -> Option<u32>
        ensures { result ≡ option_map (λ innermost. innermost.line) (slice_get self.now 0) }
    {
        match self.open.as_slice() {
            [innermost, ..] => Some(innermost.line),
            [] => None,
        }
    }

    /// Opens a structure.
    fn enter(&mut self, structure: Structure, line: u32) -> Result<(), u16>
        ensures { Nests (nest_with self.old structure line) result self.old self.new }
    {
        if self.open.len() == STRUCTURE_LIMIT {
            return Err(26);
        }
        self.open.insert(0, Opened { structure, line });
        Ok(())
    }

    /// Ends the innermost structure.
    fn leave(&mut self, structure: Structure) -> Result<(), u16>
        ensures { Nests (nest_without structure self.old) result self.old self.new }
    {
        match self.open.as_slice() {
            [innermost, ..] if structure.ends(innermost.structure) => {
                self.open.remove(0);
                Ok(())
            }
            _ => Err(25),
        }
    }

    /// Goes on with the innermost structure, an IF, at its ELSE.
    fn branch(&mut self) -> Result<(), u16>
        ensures { Nests (nest_with_else self.old) result self.old self.new }
    {
        match self.open.as_slice() {
            [
                Opened {
                    structure: Structure::If,
                    line,
                },
                ..
            ] => {
                let line = *line;
                self.open.remove(0);
                self.open.insert(
                    0,
                    Opened {
                        structure: Structure::IfElse,
                        line,
                    },
                );
                Ok(())
            }
            _ => Err(25),
        }
    }
}
