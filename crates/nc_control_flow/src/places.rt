//! Ascending places, and the nearest of them.

ghost use Rattle.std.specs.Prelude.{◌≡◌, ℕ, ◌<◌, ◌≤◌, nat_lt, find, length, reverse, slice_index, AllPairs};

/// The first of these ascending places that stands after a place.
pub(crate) fn first_after(places: &[u32], pc: u32) -> Option<u32>
    requires { AllPairs (λ a b. a < b) places.now }
    ensures { result ≡ find (λ place. nat_lt pc place) places.now }
{
    places.get(count_below(places, pc as usize + 1)).copied()
}

/// The last of these ascending places that stands before a place.
pub(crate) fn last_before(places: &[u32], pc: u32) -> Option<u32>
    requires { AllPairs (λ a b. a < b) places.now }
    ensures { result ≡ find (λ place. nat_lt place pc) (reverse places.now) }
{
    match count_below(places, pc as usize) {
        0 => None,
        count => Some(places[count - 1]),
    }
}

/// How many of these ascending places stand before a bound.
fn count_below(places: &[u32], bound: usize) -> usize
    requires { AllPairs (λ a b. a < b) places.now }
    ensures within { result ≤ length places.now }
    ensures below { (k : ℕ) → k < result → slice_index places.now k < bound }
    ensures above { (k : ℕ) → result ≤ k → k < length places.now → bound ≤ slice_index places.now k }
{
    let mut low = 0;
    let mut high = places.len();
    while low < high {
        let middle = low + (high - low) / 2;
        if (places[middle] as usize) < bound {
            low = middle + 1;
        } else {
            high = middle;
        }
    }
    low
}
