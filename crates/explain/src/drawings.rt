//! A judged job, drawn.
ghost use Rattle.std.specs.Prelude.{◌≡◌, ◌≤◌, All, IfOk, slice_get};
ghost use Rattle.explain.specs.Drawn.{IsDrawn};
ghost use Rattle.explain.specs.Explained.{zones_told};
ghost use Rattle.explain.specs.Focused as model;
ghost use Rattle.explain_texts.specs.Headlines.{first_line, headline, yes_line};
ghost use Rattle.job_lines.specs.declared.limits.TheConstants.{DEPTH_LIMIT};
ghost use Rattle.job_types.specs.SoundJob.{IsSoundJob};
ghost use Rattle.order_clocks.specs.Tells.{is_before_in};
ghost use Rattle.zone_stretches.specs.Overlaps.{compared_pairs};
ghost use Rattle.zone_stretches.specs.Told.{IsTold};
ghost use Rattle.zone_stretches.specs.ZoneBoxes.{IsFit};

use crate::judged::Judged;
use explain_drawing::draw;
use explain_meetings::{Near, nearest_of, zone_pairs_of};
use explain_pictures::{Scene, picture_of};
use explain_places::Meeting;
use explain_texts::{say_headline, say_yes_line};
use growing_text::Text;
use out_of_memory::NoMemory;
use std::alloc::Global;
use sync_types::Verdict;

/// The nearer of two pairs of boxes.
fn nearer(one: &Near, other: Option<Near>) -> Near
    ensures { result ≡ model.nearer one.now other }
{
    match other {
        Some(other) => { if other.reach < one.reach { *one } else { other } }
        None => *one,
    }
}

/// The nearest of some pairs of boxes; none where there is none.
#[tactic(auto, unfolding(crate::specs::Focused::nearest_in))]
fn nearest_in(rows: &[Near]) -> Option<Near>
    ensures { result ≡ model.nearest_in rows.now }
{
    let mut nearest = None;
    for near in rows {
        nearest = Some(nearer(near, nearest));
    }
    nearest
}

/// The two boxes of a pair.
fn as_meeting(near: Option<Near>) -> Option<Meeting>
    ensures { result ≡ model.as_meeting near }
{
    match near {
        Some(near) => Some(Meeting {
            left: near.left,
            right: near.right,
        }),
        None => None,
    }
}

/// The nearest compared boxes of all.
fn nearest_met(alloc: Global, judged: &Judged) -> Result<Option<Meeting>, NoMemory>
    requires sound { IsSoundJob judged.now.job.now }
    requires whole { IsTold judged.now.job.now judged.now.run.now judged.now.stretches.now judged.now.clocks.now }
    requires fit { All (All IsFit) judged.now.run.now.items }
    ensures { IfOk result (λ met. model.IsNearestOfAll judged.now.job.now judged.now.run.now
        (compared_pairs (is_before_in judged.now.clocks.now.rows) judged.now.job.now judged.now.stretches.now) met) }
{
    let rows = nearest_of(
        alloc,
        judged.job,
        judged.run,
        judged.stretches,
        judged.clocks,
    )?;
    Ok(as_meeting(nearest_in(rows.as_slice())))
}

/// The first boxes that meet, if any do.
fn first_met(met: &[Meeting]) -> Option<Meeting>
    ensures { result ≡ slice_get met.now 0 }
{
    met.first().copied()
}

/// What a drawing looks at: the first boxes that meet at NO, and the nearest ones at YES; else nothing.
fn focus_of(alloc: Global, judged: &Judged) -> Result<Option<Meeting>, NoMemory>
    requires sound { IsSoundJob judged.now.job.now }
    requires whole { IsTold judged.now.job.now judged.now.run.now judged.now.stretches.now judged.now.clocks.now }
    requires fit { All (All IsFit) judged.now.run.now.items }
    ensures { IfOk result (λ met. model.IsFocus judged.now.job.now judged.now.run.now
        (compared_pairs (is_before_in judged.now.clocks.now.rows) judged.now.job.now judged.now.stretches.now)
        (slice_get judged.now.met.now 0) judged.now.verdict.now met) }
{
    match judged.verdict {
        Verdict::No(_, _) => Ok(first_met(judged.met)),
        Verdict::Yes => nearest_met(alloc, judged),
        Verdict::Race(_)
        | Verdict::Stuck(_, _)
        | Verdict::Alarm(_, _)
        | Verdict::Undecided { .. } => Ok(None),
    }
}

/// The verdict YES in one line.
fn yes_title(alloc: Global, judged: &Judged) -> Result<Text, NoMemory>
    requires sound { IsSoundJob judged.now.job.now }
    requires whole { IsTold judged.now.job.now judged.now.run.now judged.now.stretches.now judged.now.clocks.now }
    requires fit { All (All IsFit) judged.now.run.now.items }
    ensures { IfOk result (λ title. title ≡ yes_line
        (zones_told judged.now.job.now judged.now.run.now judged.now.clocks.now judged.now.stretches.now)) }
{
    let zones = zone_pairs_of(
        alloc,
        judged.job,
        judged.run,
        judged.stretches,
        judged.clocks,
    )?;
    let mut text = Text::new(alloc);
    say_yes_line(&mut text, zones.as_slice());
    Ok(text)
}

/// A verdict that is not YES in one line.
fn other_title(alloc: Global, verdict: &Verdict) -> Text
    ensures { result ≡ headline verdict.now }
{
    let mut text = Text::new(alloc);
    say_headline(&mut text, verdict);
    text
}

/// The first line of a text on a judged job: the verdict.
fn title_of(alloc: Global, judged: &Judged) -> Result<Text, NoMemory>
    requires sound { IsSoundJob judged.now.job.now }
    requires whole { IsTold judged.now.job.now judged.now.run.now judged.now.stretches.now judged.now.clocks.now }
    requires fit { All (All IsFit) judged.now.run.now.items }
    ensures { IfOk result (λ title. title ≡ first_line judged.now.verdict.now
        (zones_told judged.now.job.now judged.now.run.now judged.now.clocks.now judged.now.stretches.now)) }
{
    match judged.verdict {
        Verdict::Yes => yes_title(alloc, judged),
        Verdict::No(_, _) => Ok(other_title(alloc, judged.verdict)),
        Verdict::Race(_) => Ok(other_title(alloc, judged.verdict)),
        Verdict::Stuck(_, _) => Ok(other_title(alloc, judged.verdict)),
        Verdict::Alarm(_, _) => Ok(other_title(alloc, judged.verdict)),
        Verdict::Undecided { .. } => Ok(other_title(alloc, judged.verdict)),
    }
}

/// The drawing of a judged job.
pub(crate) fn drawing_of(alloc: Global, judged: &Judged) -> Result<Vec<u8>, NoMemory>
    requires sound { IsSoundJob judged.now.job.now }
    requires whole { IsTold judged.now.job.now judged.now.run.now judged.now.stretches.now judged.now.clocks.now }
    requires fit { All (All IsFit) judged.now.run.now.items }
    requires deep { judged.now.job.now.depth ≤ DEPTH_LIMIT }
    ensures { IfOk result (λ text. IsDrawn judged.now.lines.now judged.now.job.now judged.now.run.now
        judged.now.clocks.now judged.now.stretches.now (slice_get judged.now.met.now 0)
        judged.now.verdict.now text.items) }
{
    let scene = Scene {
        job: judged.job,
        run: judged.run,
        stretches: judged.stretches,
        clocks: judged.clocks,
        focus: focus_of(alloc, judged)?,
    };
    let picture = picture_of(alloc, &scene, judged.met.first())?;
    let title = title_of(alloc, judged)?.finish()?;
    let told = judged.told();
    draw(alloc, &told, title.as_slice(), judged.verdict, &picture)
}
