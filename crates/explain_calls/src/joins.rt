//! One input from the files that a call names.
ghost use Rattle.std.specs.Prelude.{◌≤◌, IfOk, length};
ghost use Rattle.job_lines.specs.declared.limits.TheConstants.{INPUT_LIMIT};

use crate::ends::Ends;
use crate::files::read_file;
use exit_statuses::Status;
use explain_joins::{ControlFile, begins_with_job, joined_input, other_parts};
use job_lines::INPUT_LIMIT;
use out_of_memory::NoMemory;
use std::rt::Files;

/// What the input of several files is called.
const JOINED: &str = "the joined files";

impl<R: Files + Input> Ends<'_, R> {
    /// What a file holds; where it is at fault, that is said, and the status is given.
    fn read(&self, name: &str) -> Result<Vec<u8>, Status> {
        match read_file(self.rt, self.alloc, name) {
            Ok(input) => Ok(input),
            Err(fault) => Err(self.say_fault(name, &fault)),
        }
    }

    /// What the files of these names hold, up to the first that is at fault.
    fn read_each(&self, names: &[&str]) -> Result<Vec<Vec<u8>>, Status> {
        let mut inputs = Vec::new(self.alloc);
        for name in names {
            let input = self.read(name)?;
            if inputs.push(input).is_err() {
                return Err(self.say_no_memory());
            }
        }
        Ok(inputs)
    }

    /// Says which parts of a file are left out.
    fn say_parts(&self, file: &ControlFile) -> Result<(), NoMemory> {
        let parts = other_parts(self.alloc, file.bytes)?;
        for part in parts.as_slice() {
            self.say_part(file.path, part);
        }
        Ok(())
    }

    /// Joins a job list and the files of a control. Says where the list does not begin as one does, and what is left out.
    fn join(&self, name: &str, list: &[u8], files: &[ControlFile]) -> Result<Vec<u8>, NoMemory> {
        if !begins_with_job(self.alloc, list)? {
            self.say_no_job(name);
        }
        for file in files {
            self.say_parts(file)?;
        }
        joined_input(self.alloc, list, files)
    }

    /// Joins files of these names and with these bytes; the first is the job list.
    fn join_inputs(&self, names: &[&str], inputs: &[Vec<u8>]) -> Result<Vec<u8>, NoMemory> {
        let mut files = Vec::new(self.alloc);
        for place in 1..names.len().min(inputs.len()) {
            files.push(ControlFile {
                path: names[place],
                bytes: inputs[place].as_slice(),
            })?;
        }
        match (names.first(), inputs.first()) {
            (Some(name), Some(list)) => self.join(name, list.as_slice(), files.as_slice()),
            _ => Ok(Vec::new(self.alloc)),
        }
    }

    /// The files of these `names`, joined to one input; the first is the job list. Where one is at fault, that is said, and the status
    /// is given.
    pub fn joined(&self, names: &[&str]) -> Result<Vec<u8>, Status> {
        let inputs = self.read_each(names)?;
        match self.join_inputs(names, inputs.as_slice()) {
            Ok(input) => Ok(input),
            Err(NoMemory) => Err(self.say_no_memory()),
        }
    }

    /// The input that files of these names are, and what it is called: the only one as it is, several joined.
    fn input<'n>(&self, names: &[&'n str]) -> Result<(Vec<u8>, &'n str), Status> {
        match names {
            [name] => Ok((self.read(name)?, name)),
            _ => Ok((self.joined(names)?, JOINED)),
        }
    }

    /// The input that files of these `names` are: the only one as it is, several joined. Where one is at fault, or the input is too
    /// long, that is said, and the status is given.
    pub fn short_input(&self, names: &[&str]) -> Result<Vec<u8>, Status>
        ensures { IfOk result (λ input. length input.items ≤ INPUT_LIMIT) }
    {
        let (input, name) = self.input(names)?;
        if input.len() > INPUT_LIMIT {
            return Err(self.say_too_long(name));
        }
        Ok(input)
    }
}
