//! The programs of an input that is being read: those that are resolved, and the one whose lines come.
ghost use Rattle.std.specs.Prelude.{◌≡◌, [], ◌∷◌, ◌++◌, false, option_map, OnOk, OnErr, IfErr};
ghost use Rattle.std.specs.Str.{bytes_eq};
ghost use Rattle.nc_blocks.specs.Statement.{view_of};
ghost use Rattle.tape_job.specs.Reading.{FaultIsListed};
ghost use Rattle.tape_job.specs.Rules.{has_program};
ghost use Rattle.tape_job.specs.Steps.{is_last, last_fault, last_with, Adds};
ghost use Rattle.job_lines.specs.declared.limits.TheConstants.{PROGRAM_LIMIT};

use crate::reading::LineFault;
use indexmap::IndexMap;
use job_lines::PROGRAM_LIMIT;
use job_types::Program;
use nc_blocks::{Block, NameText};
use nc_control_flow::{Nest, resolve};
use nc_variables::VarTable;
use out_of_memory::NoMemory;
use std::alloc::{AllocError, Global};
use std::marker::Model;

/// Whether the two names are the same.
fn is_same(a: &NameText, b: &NameText) -> bool
    ensures { result ≡ bytes_eq a.now b.now }
{
    a.as_bytes() == b.as_bytes()
}

/// A program whose lines are being read.
#[derive(Drop)]
struct Unresolved {
    name: NameText,
    line: u32,
    blocks: Vec<(u32, Block)>,
    nest: Nest,
}

impl Model for Unresolved {
    ghost use Rattle.std.specs.Prelude.{◌≡◌, ℕ, List, Ok, map};
    ghost use Rattle.std.specs.Coded.{codes};
    ghost use Rattle.nc_control_flow.specs.Nested.{nest_of};
    ghost use Rattle.job_types.specs.TreeCode.{tree_code};
    ghost use Rattle.job_types.specs.Job.{ProgramView, block_entry, program_of};

    ghost Value = { List ℕ × ProgramView };

    ghost coded = { Prim.hlevel (codes, tree_code) };

    ghost view = { λ p. (p.name, program_of p.line (map block_entry p.blocks.items)) };

    ghost invariant = { λ p. nest_of (map block_entry p.blocks.items) ≡ Ok p.nest };
}

impl Unresolved {
    ghost use Rattle.std.specs.Prelude.{◌≡◌, ◌<◌, ◌^◌, length, [], ◌∷◌, ◌++◌, IfOk, IfErr};
    ghost use Rattle.job_types.specs.Job.{program_of};
    ghost use Rattle.nc_blocks.specs.Statement.{view_of};
    ghost use Rattle.tape_job.specs.Reading.{FaultIsListed};
    ghost use Rattle.tape_job.specs.Rules.{open_line, structure_fault};
    ghost use Rattle.tape_job.specs.Steps.{Adds};

    /// A program without blocks.
    fn new(alloc: Global, line: u32, name: NameText) -> Unresolved
        ensures { result ≡ (name, program_of line []) }
    {
        Unresolved {
            name,
            line,
            blocks: Vec::new(alloc),
            nest: Nest::new(),
        }
    }

    /// Whether this is its name.
    fn is_named(&self, name: &NameText) -> bool
        ensures { result ≡ bytes_eq name.now self.now.0 }
    {
        is_same(name, &self.name)
    }

    /// The line of the structure that is open and was opened last.
    #[tactic(auto, unfolding(crate::specs::Rules::open_line))]
    fn open_line(&self) -> Option<u32>
        ensures { result ≡ open_line self.now.1.blocks }
    {
        self.nest.open_line()
    }

    /// Puts a block after the others, unless it breaks their structures.
    #[tactic(auto, using(crate::proofs::NestLemmas::nest_goes_on, crate::proofs::NestLemmas::fault_is, crate::proofs::NestLemmas::nested_code))]
    fn push(&mut self, line: u32, block: Block) -> Result<(), LineFault>
        ensures exact { Adds (structure_fault self.old.1.blocks (line, view_of block))
            (self.old.0, program_of self.old.1.line (self.old.1.blocks ++ (line, view_of block) ∷ [])) result
            self.new }
        ensures listed { IfErr result FaultIsListed }
        ensures named { self.new.0 ≡ self.old.0 }
    {
        self.blocks.reserve(1)?;
        match self.nest.step(line, &block.stmt) {
            Ok(()) => {
                self.blocks.push_reserved((line, block));
                Ok(())
            }
            Err(code) => Err(LineFault::Broken(code)),
        }
    }

    /// Its name, and the program that it is.
    fn resolve(self, alloc: Global) -> Result<(NameText, Program), AllocError>
        requires { length self.1.blocks < 2 ^ 32 }
        ensures { IfOk result (λ entry. entry ≡ self) }
    {
        let Unresolved {
            name,
            line,
            blocks,
            nest: _,
        } = self;
        match resolve(alloc, blocks) {
            Ok(flow) => {
                let table = VarTable::new();
                Ok((name, Program { line, flow, table }))
            }
            Err(NoMemory) => Err(AllocError),
        }
    }
}

/// Puts a program after the others, whose name is new.
fn insert_program(
    programs: &mut IndexMap<NameText, Program>,
    name: NameText,
    program: Program,
) -> Result<(), AllocError>
    requires { has_program programs.old.entries name ≡ false }
    ensures exact { OnOk result (programs.new.entries ≡ programs.old.entries ++ (name, program) ∷ []) }
    ensures unchanged { OnErr result (programs.new.entries ≡ programs.old.entries) }
{
    programs.insert(name, program)?;
    Ok(())
}

/// Whether one of the programs has this name.
#[tactic(auto, unfolding(crate::specs::Rules::has_program))]
fn has_resolved(programs: &IndexMap<NameText, Program>, name: &NameText) -> bool
    ensures { result ≡ has_program programs.now.entries name.now }
{
    programs.keys().any(|key| is_same(name, key))
}

/// Whether there is a last program of this name.
fn is_last(last: &Option<Unresolved>, name: &NameText) -> bool
    ensures { result ≡ is_last last.now name.now }
{
    match last {
        Some(last) => last.is_named(name),
        None => false,
    }
}

/// Puts a block after those of the last program, if there is one, unless it breaks their structures.
fn push_to(last: &mut Option<Unresolved>, line: u32, block: Block) -> Result<(), LineFault>
    ensures exact { Adds (last_fault last.old (line, view_of block))
        (last_with last.old (line, view_of block)) result last.new }
    ensures listed { IfErr result FaultIsListed }
    ensures named { option_map (λ program. program.0) last.new ≡ option_map (λ program. program.0) last.old }
{
    match last {
        Some(last) => last.push(line, block),
        None => Ok(()),
    }
}

/// The programs so far.
#[derive(Drop)]
pub(crate) struct Library {
    resolved: IndexMap<NameText, Program>,
    last: Option<Unresolved>,
}

impl Model for Library {
    ghost use Rattle.std.specs.Prelude.{ℕ, List};
    ghost use Rattle.std.specs.Coded.{codes};
    ghost use Rattle.job_types.specs.TreeCode.{tree_code};
    ghost use Rattle.job_types.specs.Job.{ProgramView};
    ghost use Rattle.tape_job.specs.Steps.{IsLibrary, with_entry};

    ghost Value = { List (List ℕ × ProgramView) };

    ghost coded = { Prim.hlevel (codes, tree_code) };

    ghost view = { λ l. with_entry l.resolved.entries l.last };

    ghost invariant = { λ l. IsLibrary l.resolved.entries l.last };
}

impl Library {
    ghost use Rattle.std.specs.Prelude.{◌≡◌, ◌<◌, ◌^◌, nat_le, length, [], ◌∷◌, ◌++◌, false, IfOk, IfErr, OnOk};
    ghost use Rattle.job_types.specs.Job.{program_of};
    ghost use Rattle.nc_blocks.specs.Statement.{view_of};
    ghost use Rattle.tape_job.specs.Reading.{FaultIsListed};
    ghost use Rattle.tape_job.specs.Rules.{has_program, last_count, left_open, structure_rule};
    ghost use Rattle.tape_job.specs.Steps.{Adds, with_block};

    /// No program.
    pub(crate) fn new(alloc: Global) -> Library
        ensures { result ≡ [] }
    {
        Library {
            resolved: IndexMap::new(alloc),
            last: None,
        }
    }

    /// Whether a program has this name.
    pub(crate) fn has(&self, name: &NameText) -> bool
        ensures { result ≡ has_program self.now name.now }
    {
        has_resolved(&self.resolved, name) || is_last(&self.last, name)
    }

    /// Whether it has room for no more.
    pub(crate) fn is_full(&self) -> bool
        ensures { result ≡ nat_le PROGRAM_LIMIT (length self.now) }
    {
        match &self.last {
            Some(_) => self.resolved.len() + 1 >= PROGRAM_LIMIT,
            None => self.resolved.len() >= PROGRAM_LIMIT,
        }
    }

    /// The line of the structure of the last program that is open and was opened last.
    #[tactic(auto, using(crate::proofs::LibraryLemmas::last_program_is), unfolding(crate::specs::Rules::left_open))]
    pub(crate) fn left_open(&self) -> Option<u32>
        ensures { result ≡ left_open self.now }
    {
        match &self.last {
            Some(last) => last.open_line(),
            None => None,
        }
    }

    /// Begins a program, whose name is new.
    #[tactic(auto, using(crate::proofs::LibraryLemmas::last_count_is, crate::proofs::LibraryLemmas::new_to_resolved))]
    pub(crate) fn begin(
        &mut self,
        alloc: Global,
        line: u32,
        name: NameText,
    ) -> Result<(), AllocError>
        requires named { has_program self.old name ≡ false }
        requires short { last_count self.old < 2 ^ 32 }
        ensures { OnOk result (self.new ≡ self.old ++ (name, program_of line []) ∷ []) }
    {
        match self.last.replace(Unresolved::new(alloc, line, name)) {
            Some(last) => {
                let (name, program) = last.resolve(alloc)?;
                insert_program(&mut self.resolved, name, program)
            }
            None => Ok(()),
        }
    }

    /// Puts a block after those of the last program, if there is one, unless it breaks their structures.
    pub(crate) fn push(&mut self, line: u32, block: Block) -> Result<(), LineFault>
        ensures exact { Adds (structure_rule self.old (line, view_of block))
            (with_block self.old (line, view_of block)) result self.new }
        ensures listed { IfErr result FaultIsListed }
    {
        push_to(&mut self.last, line, block)
    }

    /// All of them resolved.
    #[tactic(auto, using(crate::proofs::LibraryLemmas::last_count_is))]
    pub(crate) fn resolve(self, alloc: Global) -> Result<IndexMap<NameText, Program>, AllocError>
        requires { last_count self < 2 ^ 32 }
        ensures { IfOk result (λ programs. programs.entries ≡ self) }
    {
        let Library { mut resolved, last } = self;
        if let Some(last) = last {
            let (name, program) = last.resolve(alloc)?;
            insert_program(&mut resolved, name, program)?;
        }
        Ok(resolved)
    }
}
