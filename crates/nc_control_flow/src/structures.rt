//! Where the structures of a program branch, begin and end.
//!
//! A stack holds what a search would find from where a pass over the program stands: its top is the
//! place of the structure round there, below it stand those of the structures round that one.

ghost use Rattle.std.specs.Prelude.{◌≡◌, ℕ, ◌^◌, ◌<◌, length, vec_len, reverse, slice_get, slice_index, unwrap_or, OnOk, IfOk};
ghost use Rattle.nc_control_flow.specs.Places.{those_after, those_before};
ghost use Rattle.nc_control_flow.specs.Matching.{matching};
ghost use Rattle.nc_control_flow.specs.Pending.{places_with_part};

use crate::parts::{Part, Sought};
use std::alloc::{AllocError, Global};

/// What a search in the blocks after each block finds, or 0.
pub(crate) fn found_ahead(
    alloc: Global,
    parts: &[Part],
    sought: Sought,
) -> Result<Vec<u32>, AllocError>
    requires { length parts.now < 2 ^ 32 }
    ensures len { IfOk result (λ v. vec_len v ≡ length parts.now) }
    ensures each { IfOk result (λ v. (k : ℕ) → k < length parts.now
        → slice_index v.items k ≡ unwrap_or (matching sought 0 (those_after k parts.now)) 0) }
{
    let mut table = vec![in alloc; 0; parts.len()]?;
    let mut pending = Vec::new(alloc);
    let mut place = parts.len();
    while place > 0 {
        place -= 1;
        table[place] = top(&pending);
        stack(parts[place].seen_by(sought), place as u32, &mut pending)?;
    }
    Ok(table)
}

/// What a search in the blocks before each block finds, or 0.
pub(crate) fn found_before(
    alloc: Global,
    parts: &[Part],
    sought: Sought,
) -> Result<Vec<u32>, AllocError>
    requires { length parts.now < 2 ^ 32 }
    ensures len { IfOk result (λ v. vec_len v ≡ length parts.now) }
    ensures each { IfOk result (λ v. (k : ℕ) → k < length parts.now
        → slice_index v.items k ≡ unwrap_or (matching sought 0 (those_before k parts.now)) 0) }
{
    let mut table = Vec::new(alloc);
    let mut pending = Vec::new(alloc);
    for (place, part) in parts.iter().enumerate() {
        table.push(top(&pending))?;
        stack(part.seen_by(sought), place as u32, &mut pending)?;
    }
    Ok(table)
}

/// Takes one more block to a stack.
fn stack(part: Part, place: u32, places: &mut Vec<u32>) -> Result<(), AllocError>
    ensures { OnOk result (reverse places.new.items ≡ places_with_part part place (reverse places.old.items)) }
{
    match part {
        Part::Closes => places.push(place)?,
        Part::Branches => {
            let _ = places.pop();
            places.push(place)?;
        }
        Part::Opens => {
            let _ = places.pop();
        }
        Part::Neither => {}
    }
    Ok(())
}

/// The place that a search finds, or 0.
fn top(places: &[u32]) -> u32
    ensures { result ≡ unwrap_or (slice_get (reverse places.now) 0) 0 }
{
    match places {
        [.., top] => *top,
        [] => 0,
    }
}
