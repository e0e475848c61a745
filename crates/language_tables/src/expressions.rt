//! Values of expressions and of constants.

ghost use Rattle.block_scanner.specs.Scanned.{IsScanned};
ghost use Rattle.nc_expressions.specs.Tree.{tree_of, IndicesFit};

use block_scanner::Words;
use micro_units::Num;
use nc_expressions::{Expr, Names, eval, parse_constant, parse_expr};
use std::alloc::Global;
use std::io;

/// The parameters of the tables: R1 is 5, R2 is 3, R3 is 2, and all others are 0.
#[derive(Drop)]
struct Few;

impl Names for Few {
    ghost use Rattle.std.specs.Prelude.{ℕ, pos, ◌==◌, if◌then◌else◌};

    ghost values = { λ _. record {
      parameter = λ i. if i == 1 then pos 5000000 else if i == 2 then pos 3000000 else if i == 3
          then pos 2000000 else pos 0;
    } };

    fn parameter(&self, index: u16) -> Num {
        let millionths = if index == 1 {
            5_000_000
        } else if index == 2 {
            3_000_000
        } else if index == 3 {
            2_000_000
        } else {
            0
        };
        Num { millionths }
    }
}

/// Tells the value of a tree in millionths, or its alarm.
fn tell_number(rt: &impl Print, tree: &Expr) -> io::Result<()>
    requires { IndicesFit (tree_of tree.now) }
{
    match eval(tree, &Few) {
        Ok(number) => println!(rt; "{}", number.millionths),
        Err(code) => println!(rt; "alarm {code}"),
    }
}

/// Tells the value of a line that should be one expression.
pub(crate) fn tell_value(rt: &impl Print, alloc: Global, words: &Words<'_>) -> io::Result<()>
    requires { IsScanned words.now }
{
    match parse_expr(alloc, words, 0) {
        Ok((tree, end)) => {
            if end < words.tokens.len() {
                println!(rt; "ends before token {end}")
            } else {
                tell_number(rt, &tree)
            }
        }
        Err(fault) => println!(rt; "{fault}"),
    }
}

/// Tells the value of the constant at the second token of a line, and the place after it.
pub(crate) fn tell_constant(rt: &impl Print, words: &Words<'_>) -> io::Result<()>
    requires { IsScanned words.now }
{
    if words.tokens.is_empty() {
        return println!(rt; "no token");
    }
    match parse_constant(words, 1) {
        Ok((tree, end)) => {
            print!(rt; "ends before token {end}: ")?;
            tell_number(rt, &tree)
        }
        Err(code) => println!(rt; "refused with code {code}"),
    }
}
