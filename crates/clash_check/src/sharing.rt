//! The pairs of zones are shared out to threads, in chunks.
ghost use Rattle.std.specs.Prelude.{◌≡◌, ℕ, ◌*◌, ◌<◌, ◌≤◌, All, IfOk, length};
ghost use Rattle.clash_check.specs.Chunks as model;
ghost use Rattle.clash_check.specs.Contexts.{case_of};
ghost use Rattle.clash_check.specs.FirstAnswer.{first_some};
ghost use Rattle.clash_check.specs.ZonePairs.{first_of_pairs};
ghost use Rattle.order_clocks.specs.Tells.{is_before_in};
ghost use Rattle.zone_stretches.specs.Ascents.{AreAscents, IsTimed};
ghost use Rattle.zone_stretches.specs.Times.{lists_in};
ghost use Rattle.zone_stretches.specs.ZoneBoxes.{IsFit};

use crate::contexts::Scene;
use crate::nearby::KEPT_LIMIT;
use crate::zone_pairs::first_of_pairs;
use axis_sets::ZONE_LIMIT;
use std::alloc::{AllocError, Global};
use std::thread;
use std::thread::Threads;
use sync_types::PlaceName;
use zone_stretches::Stretch;

/// Into how many chunks the pairs are cut at most. There is a thread for each, where one can be made.
const CHUNK_LIMIT: usize = 16;

const _: () = prove!(CHUNK_LIMIT <= 16);

/// Something that finds the first two boxes that meet, of the zones of some pairs.
///
/// The threads share it by this bound: that it may be shared is then asked of the type alone.
trait Seeks {
    ghost use Rattle.std.specs.Prelude.{ℕ, List, Option};
    ghost use Rattle.clash_check.specs.Meetings.{Names};

    /// What it needs to seek.
    ghost ready: { Self → Type 0 };

    /// Whether so many have room that seek by it at one time.
    ghost has_room: { Self → ℕ → Type 0 };

    /// What it finds.
    ghost found: { Self → List (ℕ × ℕ) → Option Names };

    /// The names of the first two boxes that meet of the zones of these pairs, one pair after another.
    fn seek(&self, pairs: &[(usize, usize)]) -> Option<(PlaceName, PlaceName)>
        requires { ready self.now }
        ensures { result ≡ found self.now pairs.now };
}

/// The zones of a job with their stretches, and how these are compared.
#[derive(Clone, Copy)]
struct Zones<'a, 'b> {
    scene: Scene<'a>,
    lists: &'b [Vec<Stretch>],
    ascents: &'b [bool; ZONE_LIMIT],
}

impl Seeks for Zones<'_, '_> {
    ghost use Rattle.std.specs.Prelude.{◌*◌, ◌≤◌, All};
    ghost use Rattle.clash_check.specs.Contexts.{case_of};
    ghost use Rattle.clash_check.specs.ZonePairs.{first_of_pairs};
    ghost use Rattle.clash_check.specs.declared.nearby.TheConstants.{KEPT_LIMIT};
    ghost use Rattle.order_clocks.specs.Tells.{is_before_in};
    ghost use Rattle.zone_stretches.specs.Ascents.{AreAscents, IsTimed};
    ghost use Rattle.zone_stretches.specs.Times.{lists_in};
    ghost use Rattle.zone_stretches.specs.ZoneBoxes.{IsFit};

    ghost ready = { λ zones. All (All IsFit) zones.scene.run.now.items
        × IsTimed (is_before_in zones.scene.clocks.now.rows) (lists_in zones.lists.now)
        × AreAscents (is_before_in zones.scene.clocks.now.rows) (lists_in zones.lists.now) zones.ascents.now };

    ghost has_room = { λ zones count. zones.scene.room * count ≤ KEPT_LIMIT };

    ghost found = { λ zones pairs. first_of_pairs (case_of zones.scene) (lists_in zones.lists.now) pairs };

    fn seek(&self, pairs: &[(usize, usize)]) -> Option<(PlaceName, PlaceName)> {
        first_of_pairs(&self.scene, self.lists, self.ascents, pairs)
    }
}

/// What is found in each chunk of the pairs, in their order: each chunk in a thread of its own, where one can be made.
fn seek_in_chunks<R: Threads + Sync, S: Seeks + Sync>(
    rt: &R,
    alloc: Global,
    seeker: &S,
    pairs: &[(usize, usize)],
    size: usize,
) -> Result<Vec<Option<(PlaceName, PlaceName)>>, AllocError>
    requires size { 0 < size }
    requires few { model.chunk_count (length pairs.now) size ≤ CHUNK_LIMIT }
    requires ready { S.ready seeker.now }
    requires room { S.has_room seeker.now (model.chunk_count (length pairs.now) size) }
    ensures few { IfOk result (λ answers. length answers.items ≤ CHUNK_LIMIT) }
    ensures chunks { IfOk result (λ answers. model.AreOfChunks (S.found seeker.now) size pairs.now answers.items) }
{
    thread::map_chunks(
        rt,
        alloc,
        pairs,
        size,
        &|_start: usize, part: &[(usize, usize)]| -> Option<(PlaceName, PlaceName)>
            requires { S.ready seeker.now }
            ensures { result ≡ S.found seeker.entry.now part.now }
        { seeker.seek(part) },
    )
}

/// The first answer, if there is one.
fn first_answer(answers: &[Option<(PlaceName, PlaceName)>]) -> Option<(PlaceName, PlaceName)>
    ensures { result ≡ first_some (λ answer. answer) answers.now }
{
    for answer in answers {
        if let Some(names) = answer {
            return Some(*names);
        }
    }
    None
}

/// Into how many chunks so many pairs are cut.
fn chunks_of(count: usize) -> usize
    ensures some { 0 < result }
    ensures few { result ≤ CHUNK_LIMIT }
{
    count.min(CHUNK_LIMIT).max(1)
}

/// How many pairs a chunk has, where so many are cut into so many chunks.
fn chunk_size(count: usize, chunks: usize) -> usize
    requires { 0 < chunks }
    ensures some { 0 < result }
    ensures few { model.chunk_count count result ≤ chunks }
{
    count.div_ceil(chunks).max(1)
}

/// How much room each of so many chunks has, so that they have no more than this together.
fn room_for(room: usize, chunks: usize) -> usize
    requires { 0 < chunks }
    ensures { result * chunks ≤ room }
{
    room / chunks
}

/// The names of the first two boxes that meet of the zones of these pairs, sought by threads. The only error is want of memory for
/// what is found in the chunks.
fn seek_by_threads<R: Threads + Sync>(
    rt: &R,
    scene: &Scene,
    lists: &[Vec<Stretch>],
    ascents: &[bool; ZONE_LIMIT],
    pairs: &[(usize, usize)],
) -> Result<Option<(PlaceName, PlaceName)>, AllocError>
    requires fit { All (All IsFit) scene.now.run.now.items }
    requires timed { IsTimed (is_before_in scene.now.clocks.now.rows) (lists_in lists.now) }
    requires ascents { AreAscents (is_before_in scene.now.clocks.now.rows) (lists_in lists.now) ascents.now }
    requires room { scene.now.room ≤ KEPT_LIMIT }
    ensures { IfOk result (λ names. names ≡ first_of_pairs
        (case_of scene.now)
        (lists_in lists.now) pairs.now) }
{
    let count = pairs.len();
    let chunks = chunks_of(count);
    let size = chunk_size(count, chunks);
    let zones = Zones {
        scene: Scene {
            alloc: scene.alloc,
            room: room_for(scene.room, chunks),
            job: scene.job,
            run: scene.run,
            clocks: scene.clocks,
        },
        lists,
        ascents,
    };
    let answers = seek_in_chunks(rt, scene.alloc, &zones, pairs, size)?;
    Ok(first_answer(&answers))
}

/// The names of the first two boxes that meet of the zones of these pairs. The pairs are shared out to threads, in chunks, and the
/// first answer in their order is taken. Where there is too little memory for that, one pair is looked at after another.
pub(crate) fn first_by_threads<R: Threads + Sync>(
    rt: &R,
    scene: &Scene,
    lists: &[Vec<Stretch>],
    ascents: &[bool; ZONE_LIMIT],
    pairs: &[(usize, usize)],
) -> Option<(PlaceName, PlaceName)>
    requires fit { All (All IsFit) scene.now.run.now.items }
    requires timed { IsTimed (is_before_in scene.now.clocks.now.rows) (lists_in lists.now) }
    requires ascents { AreAscents (is_before_in scene.now.clocks.now.rows) (lists_in lists.now) ascents.now }
    requires room { scene.now.room ≤ KEPT_LIMIT }
    ensures { result ≡ first_of_pairs (case_of scene.now) (lists_in lists.now) pairs.now }
{
    match seek_by_threads(rt, scene, lists, ascents, pairs) {
        Ok(names) => names,
        Err(_) => first_of_pairs(scene, lists, ascents, pairs),
    }
}
