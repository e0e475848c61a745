//! What the grammar of expressions gives.

ghost use Rattle.std.specs.Prelude.{◌≡◌};
ghost use Rattle.nc_expressions.specs.Syntax.{Syntax, spelling, tree, IsExpression};

/// A law: what is spelled alike has one tree.
#[tactic(auto, using(crate::proofs::Parsed::one_tree))]
pub fn one_tree_at_most()
    ensures { (x y : Syntax) → IsExpression x → IsExpression y → spelling x ≡ spelling y → tree x ≡ tree y }
{}
