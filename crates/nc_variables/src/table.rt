//! The table of the variables of a program.
use crate::limits::VARIABLE_LIMIT;
use arrayvec::ArrayVec;
use nc_blocks::{NameText, VarKind};
use std::marker::Model;

/// The variables of a program.
#[derive(Drop)]
pub struct VarTable {
    /// The name of each variable, with what it holds: first the parameters, in the order in which they are given.
    pub names: ArrayVec<(NameText, VarKind), VARIABLE_LIMIT>,
    /// How many of them are parameters.
    pub parameters: u8,
}

impl Model for VarTable {
    ghost use Rattle.nc_variables.specs.Table.{TableView};

    ghost Value = { TableView };

    ghost view = { λ t. record { names = t.names.items; parameters = t.parameters } };
}

impl VarTable {
    ghost use Rattle.std.specs.Prelude.{◌≡◌};
    ghost use Rattle.nc_variables.specs.Table.{no_variables};

    /// The table of a program without variables.
    pub fn new() -> VarTable
        ensures { result ≡ no_variables }
    {
        VarTable {
            names: ArrayVec::new(),
            parameters: 0,
        }
    }
}
