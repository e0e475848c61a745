//! The two lines of a sample.
ghost use Rattle.std.specs.Prelude.{◌≡◌, ◌+◌, ◌*◌, ◌≤◌, ◌++◌, length};
ghost use Rattle.job_report.specs.Summary as model;

use crate::page::{COUNT_ROOM, LINE_ROOM, PAGE_ROOM, Page};
use crate::verdicts::push_verdict_line;
use sync_types::Verdict;

/// The figures of a sample.
#[derive(Clone, Copy, PartialEq, Eq)]
pub struct Figures {
    /// The number of the sample.
    pub number: u32,
    /// How many motions its channels make.
    pub moves: u64,
    /// How many steps its channels make on the board.
    pub steps: u64,
    /// How many pairs of boxes are compared.
    pub count: u64,
    /// How many bytes its report has.
    pub bytes: u64,
}

/// The most bytes of the name of a figure.
const NAME_ROOM: usize = 8;

/// Puts a figure with its name.
#[tactic(auto, unfolding(crate::specs::Summary::figure_text))]
fn push_figure(page: &mut Page, name: &str, figure: u64)
    requires name { length name.now ≤ NAME_ROOM }
    requires room { length page.old + NAME_ROOM + COUNT_ROOM ≤ PAGE_ROOM }
    ensures text { page.new ≡ page.old ++ model.figure_text name.now figure }
    ensures room { length page.new ≤ length page.old + NAME_ROOM + COUNT_ROOM }
{
    page.push(name);
    page.push_count(figure);
}

/// Puts the line of the figures.
#[tactic(auto, unfolding(crate::specs::Summary::figures_line))]
fn push_figures(page: &mut Page, figures: &Figures)
    requires { length page.old + LINE_ROOM ≤ PAGE_ROOM }
    ensures text { page.new ≡ page.old ++ model.figures_line figures.now }
    ensures room { length page.new ≤ length page.old + LINE_ROOM }
{
    push_figure(page, "SAMPLE ", u64::from(figures.number));
    push_figure(page, " MOVES ", figures.moves);
    push_figure(page, " STEPS ", figures.steps);
    push_figure(page, " COUNT ", figures.count);
    push_figure(page, " BYTES ", figures.bytes);
    page.push("\n");
}

/// Puts both lines of a sample.
#[tactic(auto, unfolding(crate::specs::Summary::summary_bytes))]
pub(crate) fn push_summary(page: &mut Page, figures: &Figures, verdict: &Verdict)
    requires { length page.old + 2 * LINE_ROOM ≤ PAGE_ROOM }
    ensures { page.new ≡ page.old ++ model.summary_bytes figures.now verdict.now }
{
    push_figures(page, figures);
    push_verdict_line(page, verdict);
}
