//! Laws of tokens. No code runs here.

ghost use Rattle.std.specs.Prelude.{◌≡◌, ℕ, List, Result};
ghost use Rattle.block_scanner.specs.declared.ScanFault.{ScanFault};
ghost use Rattle.block_scanner.specs.declared.Token.{Token};
ghost use Rattle.block_scanner.specs.Tokenisation.{Says};

/// Each line says one thing alone: tokens, or a fault at one place.
pub fn lines_say_one_thing()
    ensures said { (line : List ℕ) → (what : Result (List Token) ScanFault) × Says line what }
    ensures alone { (line : List ℕ) (one other : Result (List Token) ScanFault) → Says line one → Says line other
        → one ≡ other }
{}
