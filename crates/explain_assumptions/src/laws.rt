//! What holds of the remarks on every block.
ghost use Rattle.std.specs.Prelude.{◌≡◌, ℕ, ℤ};
ghost use Rattle.std.specs.List.{list_any};
ghost use Rattle.explain_readings.specs.Reads as readings;
ghost use Rattle.nc_blocks.specs.Statement.{Statement};
ghost use Rattle.nc_expressions.specs.Values.{Values};
ghost use Rattle.explain_assumptions.specs.Reads as model;

/// A block is told to read a parameter exactly where it reads it by `block_reads` of `explain_readings`.
pub fn readings_are_told()
    ensures { (values : Values) (line number : ℕ) (opener statement : Statement)
        → list_any (model.is_reading number) (model.block_reads values line opener statement)
        ≡ readings.block_reads values opener statement number }
{}
