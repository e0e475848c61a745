//! What statements do to the structures round them.

ghost use Rattle.std.specs.Prelude.{◌≡◌, map, IfOk};
ghost use Rattle.nc_blocks.specs.Statement.{statement_view};
ghost use Rattle.nc_control_flow.specs.Parts.{part_of, parts as parts_of, views};
ghost use Rattle.nc_control_flow.specs.Matching.{part_in_search};

use nc_blocks::{Block, Stmt};
use std::alloc::{AllocError, Global};

/// What a statement does to the structure round it.
#[derive(Clone, Copy)]
pub(crate) enum Part {
    /// It begins one.
    Opens,
    /// It is the ELSE of one.
    Branches,
    /// It ends one.
    Closes,
    /// It stands in one.
    Neither,
}

/// What a search looks for.
#[derive(Clone, Copy)]
pub(crate) enum Sought {
    /// The end of the structure.
    End,
    /// Its ELSE, or its end where that comes first.
    Branch,
    /// Its beginning, backwards.
    Opener,
}

impl Part {
    /// The part of a statement.
    pub(crate) fn of(statement: &Stmt) -> Part
        ensures { result ≡ part_of (statement_view statement.now) }
    {
        match statement {
            Stmt::If(_) | Stmt::While(_) | Stmt::Repeat | Stmt::Loop | Stmt::For(_, _, _) =>
                Part::Opens,
            Stmt::Else => Part::Branches,
            Stmt::EndIf | Stmt::EndWhile | Stmt::Until(_) | Stmt::EndLoop | Stmt::EndFor =>
                Part::Closes,
            _ => Part::Neither,
        }
    }

    /// How a search sees the part.
    pub(crate) fn seen_by(self, sought: Sought) -> Part
        ensures { result ≡ part_in_search sought self }
    {
        match (sought, self) {
            (Sought::End, Part::Branches) => Part::Neither,
            (Sought::End, part) => part,
            (Sought::Branch, part) => part,
            (Sought::Opener, Part::Opens) => Part::Closes,
            (Sought::Opener, Part::Closes) => Part::Opens,
            (Sought::Opener, _) => Part::Neither,
        }
    }
}

/// The parts of the blocks of a program.
pub(crate) fn parts(alloc: Global, blocks: &[(u32, Block)]) -> Result<Vec<Part>, AllocError>
    ensures { IfOk result (λ v. v.items ≡ parts_of (views blocks.now)) }
{
    let mut parts = Vec::new(alloc);
    for (_, block) in blocks {
        parts.push(Part::of(&block.stmt))?;
    }
    Ok(parts)
}
