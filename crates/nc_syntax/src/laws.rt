//! What the definition of spelled blocks gives.

ghost use Rattle.std.specs.Prelude.{◌≡◌};
ghost use Rattle.block_scanner.specs.WordsView.{WordsView};
ghost use Rattle.nc_blocks.specs.Statement.{BlockView};
ghost use Rattle.nc_syntax.specs.Spelled.{Spells};

/// A law: a line spells at most one block.
#[tactic(auto, using(crate::proofs::BlockLaws::one_block))]
pub fn one_block_at_most()
    ensures { (words : WordsView) (a b : BlockView) → Spells words a → Spells words b → a ≡ b }
{}
