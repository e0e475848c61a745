//! A job whose lines are being read.
use crate::programs::Library;
use crate::tool_lines::ToolLines;
use indexmap::IndexMap;
use job_lines::FIRST_VERSION;
use job_types::Job;
use micro_units::Um;
use std::alloc::{AllocError, Global};
use std::marker::Model;

/// The version of the job lists that are read.
pub(crate) const VERSION: u8 = FIRST_VERSION;

/// Which options lines gave.
#[derive(Clone, Copy, PartialEq, Eq)]
pub(crate) struct GivenOptions {
    /// Whether one gave the margin.
    pub margin: bool,
    /// Whether one gave the depth.
    pub depth: bool,
    /// Whether one gave the budget.
    pub budget: bool,
}

/// A job whose lines are being read.
#[derive(Drop)]
pub(crate) struct Draft {
    /// Which options lines gave.
    pub options: GivenOptions,
    /// What the job lines declare; an option that none of them gave has its value from the start.
    pub job: Job,
    /// The programs, which the job has once they are resolved.
    pub programs: Library,
    /// The tools, which the job has in the end.
    pub tools: ToolLines,
}

impl Model for Draft {
    ghost use Rattle.std.specs.Coded.{codes};
    ghost use Rattle.job_types.specs.TreeCode.{tree_code};
    ghost use Rattle.tape_job.specs.Draft.{DraftView};

    ghost Value = { DraftView };

    ghost coded = { Prim.hlevel (codes, tree_code) };

    ghost view = { λ d. record { options = d.options; job = record d.job { programs = d.programs; tools = d.tools } } };
}

impl Draft {
    ghost use Rattle.std.specs.Prelude.{◌≡◌, ◌<◌, ◌^◌, IfOk};
    ghost use Rattle.tape_job.specs.Rules.{last_count};
    ghost use Rattle.tape_job.specs.Draft.{no_options, nothing_told};

    /// A job of which nothing is told.
    pub(crate) fn new(alloc: Global) -> Draft
        ensures { result ≡ record { options = no_options; job = nothing_told } }
    {
        Draft {
            options: GivenOptions {
                margin: false,
                depth: false,
                budget: false,
            },
            job: Job {
                version: VERSION,
                number: 1,
                line: 0,
                channels: Vec::new(alloc),
                axes: Vec::new(alloc),
                geo: Vec::new(alloc),
                offsets: Vec::new(alloc),
                zones: Vec::new(alloc),
                margin: Um { micrometres: 0 },
                depth: 0,
                budget: 1_000_000,
                compensation: false,
                skip: false,
                tools: Vec::new(alloc),
                timeline: false,
                feeds: Vec::new(alloc),
                times: Vec::new(alloc),
                programs: IndexMap::new(alloc),
            },
            programs: Library::new(alloc),
            tools: ToolLines::new(alloc),
        }
    }

    /// The job, with its programs resolved.
    pub(crate) fn resolve(self, alloc: Global) -> Result<Job, AllocError>
        requires { last_count self.job.programs < 2 ^ 32 }
        ensures { IfOk result (λ job. job ≡ self.job) }
    {
        let Draft {
            options: _,
            mut job,
            programs,
            tools,
        } = self;
        job.tools = tools.into_tools();
        job.programs = programs.resolve(alloc)?;
        Ok(job)
    }
}
