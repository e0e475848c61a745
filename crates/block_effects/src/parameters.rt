//! The parameters of a channel.

ghost use Rattle.std.specs.Prelude.{◌≡◌, ◌≤◌, pos, ◌+ℤ◌, slice_set, IfOk, IfSome, MatchOption};
ghost use Rattle.nc_expressions.specs.Tree.{tree_of, IndicesFit};
ghost use Rattle.nc_expressions.specs.Value.{in_range_or_alarm};
ghost use Rattle.block_effects.specs.Words as model;
ghost use Rattle.block_effects.specs.Words.{parameters_before, zeros, IsGiven, IsUndone};
ghost use Rattle.nc_expressions.specs.declared.limits.TheConstants.{LAST_PARAMETER};

use fault_codes::alarms::{NUMBER_TOO_LARGE, PARAMETER_INDEX};
use micro_units::Num;
use nc_expressions::{Expr, Names, PARAMETER_LIMIT, eval, index_of};
use std::alloc::{AllocError, Global};
use std::marker::Model;

/// The values of the parameters, on the heap. A contract sees them as a list.
#[derive(Drop)]
pub struct Parameters {
    values: Vec<Num>,
}

/// How a parameter was before it got a value.
#[derive(Clone, Copy)]
pub(crate) struct Change {
    /// Its number.
    pub index: u16,
    /// The value that it had.
    pub before: Num,
}

impl Model for Parameters {
    ghost use Rattle.std.specs.Prelude.{◌≡◌, ℤ, List, length};
    ghost use Rattle.nc_expressions.specs.declared.limits.TheConstants.{PARAMETER_LIMIT};

    ghost Value = { List ℤ };

    ghost view = { λ p. p.values.items };

    ghost invariant = { λ p. length p.values.items ≡ PARAMETER_LIMIT };
}

impl Names for Parameters {
    ghost use Rattle.block_effects.specs.Words.{values_in};

    ghost values = { values_in };

    fn parameter(&self, index: u16) -> Num {
        self.values[usize::from(index)]
    }
}

impl Parameters {
    /// The parameters at the start, all 0.
    #[tactic(auto, unfolding(crate::specs::Words::zeros))]
    pub fn new(alloc: Global) -> Result<Parameters, AllocError>
        ensures { IfOk result (λ p. p ≡ zeros) }
    {
        let values = vec![in alloc; Num { millionths: 0 }; PARAMETER_LIMIT as usize]?;
        Ok(Parameters { values })
    }

    /// The same values, to be changed apart.
    pub fn copied(&self) -> Result<Parameters, AllocError>
        ensures { IfOk result (λ p. p ≡ self.now) }
    {
        let values = self.values.clone()?;
        Ok(Parameters { values })
    }

    /// Gives the parameter of this number a value.
    pub(crate) fn set(&mut self, index: u16, value: Num)
        requires { index ≤ LAST_PARAMETER }
        ensures { self.new ≡ slice_set self.old index value }
    {
        self.values[usize::from(index)] = value;
    }

    /// Gives the parameter of this number a value, and answers how it was before.
    #[tactic(auto, using(crate::proofs::Changes::set_back))]
    fn replace(&mut self, index: u16, value: Num) -> Change
        requires { index ≤ LAST_PARAMETER }
        ensures set { self.new ≡ slice_set self.old index value }
        ensures index { result.index ≡ index }
        ensures parameters_before { parameters_before self.new result ≡ self.old }
    {
        let before = self.parameter(index);
        self.set(index, value);
        Change { index, before }
    }

    /// Takes a change back.
    pub(crate) fn undo(&mut self, change: Change)
        requires { change.index ≤ LAST_PARAMETER }
        ensures { self.new ≡ parameters_before self.old change }
    {
        self.set(change.index, change.before);
    }

    /// Takes a change back, if there is one.
    pub(crate) fn undo_some(&mut self, change: Option<Change>)
        requires { IfSome change (λ made. made.index ≤ LAST_PARAMETER) }
        ensures { MatchOption change (self.new ≡ self.old) (λ made. self.new ≡ parameters_before self.old made) }
    {
        if let Some(change) = change {
            self.undo(change);
        }
    }

    /// Gives the parameter of this number the value of an expression, and answers how it was before.
    pub(crate) fn give(&mut self, index: u16, value: &Expr) -> Result<Change, u16>
        requires index { index ≤ LAST_PARAMETER }
        requires fits { IndicesFit (tree_of value.now) }
        ensures given { IsGiven (model.assignment self.old index (tree_of value.now)) result self.new }
        ensures parameters_before { IsUndone result self.old self.new }
    {
        let value = eval(value, self)?;
        Ok(self.replace(index, value))
    }

    /// Gives the parameter whose number is the value of an expression the value of another, and answers how it was before.
    pub(crate) fn give_at(&mut self, index: &Expr, value: &Expr) -> Result<Change, u16>
        requires index { IndicesFit (tree_of index.now) }
        requires fits { IndicesFit (tree_of value.now) }
        ensures given { IsGiven (model.given_at self.old (tree_of index.now) (tree_of value.now)) result self.new }
        ensures parameters_before { IsUndone result self.old self.new }
    {
        let index = eval(index, self)?;
        match index_of(index) {
            Some(index) => self.give(index, value),
            None => Err(PARAMETER_INDEX),
        }
    }

    /// Adds 1 to the parameter of this number and answers how it was before, or alarm 1 where it leaves the range.
    pub(crate) fn count(&mut self, index: u16) -> Result<Change, u16>
        requires { index ≤ LAST_PARAMETER }
        ensures given { IsGiven (model.increment self.old index) result self.new }
        ensures parameters_before { IsUndone result self.old self.new }
    {
        let value = one_more(self.parameter(index))?;
        Ok(self.replace(index, value))
    }
}

/// The number that is 1 more, or alarm 1 where it is out of range.
#[tactic(auto, using(crate::proofs::Counts::too_large, crate::proofs::Counts::in_range))]
fn one_more(value: Num) -> Result<Num, u16>
    ensures { result ≡ in_range_or_alarm (value +ℤ pos 1000000) }
{
    match value.add(Num {
        millionths: 1_000_000,
    }) {
        Ok(sum) => Ok(sum),
        Err(_) => Err(NUMBER_TOO_LARGE),
    }
}
