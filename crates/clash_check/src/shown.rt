//! Of the stretches of a zone those with boxes, one after another.
ghost use Rattle.clash_check.specs.Shown as model;
ghost use Rattle.std.specs.Prelude.{◌≡◌, ℕ, ◌+◌, ◌-◌, ◌≤◌, IfOk, length, vec_len, slice_index};

use out_of_memory::NoMemory;
use std::alloc::Global;
use zone_stretches::Stretch;

/// Zeros, one more than there are stretches.
fn zeros(alloc: Global, stretches: &[Stretch]) -> Result<Vec<usize>, NoMemory>
    ensures { IfOk result (λ zeros. vec_len zeros ≡ length stretches.now + 1) }
{
    let mut zeros = Vec::new(alloc);
    zeros.push(0)?;
    for _stretch in stretches {
        zeros.push(0)?;
    }
    Ok(zeros)
}

/// Writes for each place, and the one after the last, the place of the first stretch from there on that has boxes.
fn fill(stretches: &[Stretch], next: &mut [usize])
    requires { length next.old ≡ length stretches.now + 1 }
    ensures { model.IsNext stretches.now next.new }
{
    let last = stretches.len();
    next[last] = last;
    for done in 0..last {
        let place = last - 1 - done;
        let stretch = &stretches[place];
        next[place] = if stretch.boxes.is_empty() {
            next[place + 1]
        } else {
            place
        };
    }
}

/// For each place, and the one after the last, the place of the first stretch from there on that has boxes.
pub(crate) fn next_shown(alloc: Global, stretches: &[Stretch]) -> Result<Vec<usize>, NoMemory>
    ensures { IfOk result (λ next. model.IsNext stretches.now next.items) }
{
    let mut next = zeros(alloc, stretches)?;
    fill(stretches, next.as_mut_slice());
    Ok(next)
}
