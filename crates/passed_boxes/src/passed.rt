//! Boxes that passed a test.
ghost use Rattle.std.specs.Prelude.{◌≡◌, ◌⊎◌, ◌++◌, Bool, true, false, [], ◌∷◌, All, IfOk, Option, option_copied};
ghost use Rattle.passed_boxes.specs.Latest.{latest};
ghost use Rattle.path_geometry.specs.declared.motion.Motion.{Motion};
ghost use Rattle.swept_boxes.specs.declared.Box3.{Box3};

use crate::motions::is_same_motion;
use out_of_memory::NoMemory;
use path_geometry::Motion;
use std::alloc::Global;
use std::marker::Model;
use swept_boxes::Box3;

/// How many boxes are kept at most.
const PASSED_LIMIT: usize = 64;

/// A box with its motion.
#[derive(Drop)]
pub struct PassedBox {
    /// The box.
    pub cover: Box3,
    /// The motion in which a zone sweeps it; none where it stands.
    pub motion: Option<Motion>,
}

/// The latest 64 boxes that passed a test, as far as there is memory for them, the earliest first. What all of them pass, an equal
/// box of an equal motion passes too.
#[derive(Drop)]
pub struct PassedBoxes {
    boxes: Vec<PassedBox>,
    next: usize,
}

impl Model for PassedBoxes {
    ghost use Rattle.std.specs.Prelude.{◌≡◌, ◌<◌, ◌≤◌, List, length};
    ghost use Rattle.passed_boxes.specs.Latest.{from_place};
    ghost use Rattle.passed_boxes.specs.declared.passed.PassedBox.{PassedBox};
    ghost use Rattle.passed_boxes.specs.declared.passed.TheConstants.{PASSED_LIMIT};

    ghost Value = { List PassedBox };

    ghost view = { λ passed. from_place passed.next passed.boxes.items };

    ghost invariant = { λ passed. (length passed.boxes.items ≤ PASSED_LIMIT) × (passed.next ≤ length passed.boxes.items)
        × (length passed.boxes.items < PASSED_LIMIT → passed.next ≡ 0) };
}

/// Whether two boxes both stand, or have the same motion.
fn move_alike(kept: &Option<Motion>, motion: Option<&Motion>) -> bool
    ensures same { result ≡ true → kept.now ≡ option_copied motion.entry }
    ensures all { kept.now ≡ option_copied motion.entry → result ≡ true }
{
    match kept {
        None => motion.is_none(),
        Some(one) => match motion {
            None => false,
            Some(other) => is_same_motion(one, other),
        },
    }
}

/// Whether it is this box with this motion.
fn is_same(kept: &PassedBox, cover: &Box3, motion: Option<&Motion>) -> bool
    ensures same { result ≡ true → (kept.now.cover ≡ cover.now) × (kept.now.motion ≡ option_copied motion.entry) }
    ensures all { kept.now.cover ≡ cover.now → kept.now.motion ≡ option_copied motion.entry → result ≡ true }
{
    kept.cover == *cover && move_alike(&kept.motion, motion)
}

/// A box with its motion, to be kept.
fn passed_box(cover: &Box3, motion: Option<&Motion>) -> Result<PassedBox, NoMemory>
    ensures { IfOk result (λ kept. (kept.cover ≡ cover.now) × (kept.motion ≡ option_copied motion.entry)) }
{
    Ok(PassedBox {
        cover: *cover,
        motion: motion.cloned()?,
    })
}

impl PassedBoxes {
    /// None yet.
    pub fn new(alloc: Global) -> PassedBoxes
        ensures { result ≡ [] }
    {
        PassedBoxes {
            boxes: Vec::new(alloc),
            next: 0,
        }
    }

    /// Whether an equal box of an equal motion is kept.
    pub fn has(&self, cover: &Box3, motion: Option<&Motion>) -> bool
        ensures passes { result ≡ true → (test : Box3 → Option Motion → Bool)
            → All (λ kept. test kept.cover kept.motion ≡ true) self.now
            → test cover.now (option_copied motion.entry) ≡ true }
        ensures none { result ≡ false
            → All (λ kept. kept.cover ≡ cover.now → kept.motion ≡ option_copied motion.entry → ⊥) self.now }
    {
        for kept in &self.boxes {
            if is_same(kept, cover, motion) {
                return true;
            }
        }
        false
    }

    /// Keeps a box with its motion, in the place of the earliest where there are 64.
    pub fn keep(&mut self, cover: &Box3, motion: Option<&Motion>)
        ensures passes { (test : Box3 → Option Motion → Bool)
            → All (λ kept. test kept.cover kept.motion ≡ true) self.old
            → test cover.now (option_copied motion.entry) ≡ true
            → All (λ kept. test kept.cover kept.motion ≡ true) self.new }
        ensures latest { (self.new ≡ self.old)
            ⊎ (self.new ≡ latest (self.old ++ record { cover = cover.now; motion = option_copied motion.entry } ∷ [])) }
    {
        let Ok(kept) = passed_box(cover, motion) else {
            return;
        };
        if self.boxes.len() < PASSED_LIMIT {
            let _ = self.boxes.push(kept);
        } else {
            let place = self.next % self.boxes.len();
            self.boxes[place] = kept;
            self.next = place + 1;
        }
    }
}
