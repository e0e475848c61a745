//! Texts and addresses that a block keeps.

ghost use Rattle.std.specs.Prelude.{◌≡◌, ◌∷◌, IfOk};
ghost use Rattle.nc_expressions.specs.NameTexts.{upper};
ghost use Rattle.nc_blocks.specs.Texts.{text_within_quotes};

use std::alloc::{AllocError, Global};

/// The address of a letter and what stands after it.
pub fn address(alloc: Global, letter: u8, following: &[u8]) -> Result<Vec<u8>, AllocError>
    ensures { IfOk result (λ v. v.items ≡ letter ∷ following.now) }
{
    let mut text = Vec::with_capacity(alloc, 1 + following.len())?;
    text.push(letter)?;
    text.extend_from_slice(following)?;
    Ok(text)
}

/// A text in upper case.
pub(crate) fn upper_text(alloc: Global, text: &[u8]) -> Result<Vec<u8>, AllocError>
    ensures { IfOk result (λ v. v.items ≡ upper text.now) }
{
    text.iter()
        .map(|byte| byte.to_ascii_uppercase())
        .collect(alloc)
}

/// A text as it is.
pub fn same_text(alloc: Global, text: &[u8]) -> Result<Vec<u8>, AllocError>
    ensures { IfOk result (λ v. v.items ≡ text.now) }
{
    Vec::from_slice(alloc, text)
}

/// A text without its quotes.
#[tactic(auto, unfolding(crate::specs::Texts::text_within_quotes))]
pub fn unquoted(text: &[u8]) -> &[u8]
    ensures { result.now ≡ text_within_quotes text.now }
{
    if text.len() < 2 {
        &[]
    } else {
        &text[1..text.len() - 1]
    }
}
