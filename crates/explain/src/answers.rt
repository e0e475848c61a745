//! What an input is answered with: the text, and the status.
ghost use Rattle.std.specs.Prelude.{◌≡◌, ◌++◌, ◌≤◌, All, IfOk, ◌<◌, ◌^◌, length, slice_get};
ghost use Rattle.channel_machine.specs.StartStates.{start_of};
ghost use Rattle.explain.specs.Answers.{IsAnswer, IsJobAnswer, IsRefusalAnswer, text_with};
ghost use Rattle.explain.specs.Drawn.{IsDrawn};
ghost use Rattle.explain.specs.Explained.{IsExplained};
ghost use Rattle.explain.specs.Judgements.{IsExplainedBy};
ghost use Rattle.job_lines.specs.declared.limits.TheConstants.{DEPTH_LIMIT, INPUT_LIMIT};
ghost use Rattle.job_types.specs.SoundJob.{BlocksFit, IsSoundJob};
ghost use Rattle.zone_stretches.specs.Told.{IsTold};
ghost use Rattle.zone_stretches.specs.ZoneBoxes.{IsFit};
ghost use Rattle.explain_ready.specs.Copies.{left_out_text};
ghost use Rattle.explain_refused.specs.Listing.{refusals_text};
ghost use Rattle.sync_types.specs.Boards.{first_board};
ghost use Rattle.sync_types.specs.Runs.{ComesFrom};
ghost use Rattle.sync_types.specs.Turns.{AreEntries};

use crate::data::data_of;
use crate::drawings::drawing_of;
use crate::explaining::explain;
use crate::judged::Judged;
use crate::judging::{Judgement, judge_job, met_in};
use crate::progress::{Stage, Watch};
use crate::words::Form;
use channel_machine::start_state;
use exit_statuses::Status;
use explain_data::refusal_data;
use explain_lines::Lines;
use explain_places::Meeting;
use explain_ready::left_out_text;
use explain_refused::{RefusedLine, explain_refusals, refused_lines};
use fault_codes::Refusal;
use job_types::Job;
use out_of_memory::NoMemory;
use std::alloc::Global;
use tape_job::{JobFault, line_refusals, read_job};

/// A text, and the status that it comes with.
#[derive(Drop)]
pub(crate) struct Answer {
    /// The text.
    pub(crate) text: Vec<u8>,
    /// The status: that of `turnmill check` on the same input.
    pub(crate) status: Status,
}

/// The text on a judged job.
fn text_of(alloc: Global, judged: &Judged, form: Form) -> Result<Vec<u8>, NoMemory>
    requires sound { IsSoundJob judged.now.job.now }
    requires blocks { BlocksFit judged.now.job.now }
    requires whole { IsTold judged.now.job.now judged.now.run.now judged.now.stretches.now judged.now.clocks.now }
    requires fit { All (All IsFit) judged.now.run.now.items }
    requires deep { judged.now.job.now.depth ≤ DEPTH_LIMIT }
    requires few { length judged.now.run.now.entries < 2 ^ 32 }
    requires comes { ComesFrom judged.now.start.now judged.now.run.now }
    requires made { AreEntries (first_board (start_of judged.now.job.now)) judged.now.run.now.entries }
    ensures told { IfOk result (λ text. form ≡ Form.Text
        → IsExplained judged.now.lines.now judged.now.job.now judged.now.start.now judged.now.run.now
        judged.now.clocks.now judged.now.stretches.now judged.now.met.now judged.now.verdict.now text.items) }
    ensures drawn { IfOk result (λ text. form ≡ Form.Drawing
        → IsDrawn judged.now.lines.now judged.now.job.now judged.now.run.now judged.now.clocks.now
        judged.now.stretches.now (slice_get judged.now.met.now 0) judged.now.verdict.now text.items) }
{
    match form {
        Form::Text => explain(alloc, judged),
        Form::Data => data_of(alloc, judged),
        Form::Drawing => drawing_of(alloc, judged),
    }
}

/// The text on a job that was judged, of which these boxes meet.
fn text_on(
    alloc: Global,
    lines: &Lines,
    job: &Job,
    judgement: &Judgement,
    met: &[Meeting],
    form: Form,
) -> Result<Vec<u8>, NoMemory>
    requires accepted { IsSoundJob job.now }
    requires indices { BlocksFit job.now }
    requires judged { IsExplainedBy job.now judgement.now.run judgement.now.clocks
        judgement.now.stretches judgement.now.verdict }
    ensures told { IfOk result (λ text. form ≡ Form.Text
        → IsExplained lines.now job.now (start_of job.now) judgement.now.run judgement.now.clocks
        judgement.now.stretches met.now judgement.now.verdict text.items) }
    ensures drawn { IfOk result (λ text. form ≡ Form.Drawing
        → IsDrawn lines.now job.now judgement.now.run judgement.now.clocks judgement.now.stretches
        (slice_get met.now 0) judgement.now.verdict text.items) }
{
    let start = start_state(job);
    let judged = Judged {
        lines,
        job,
        start: &start,
        run: &judgement.run,
        stretches: &judgement.stretches,
        clocks: &judgement.clocks,
        verdict: &judgement.verdict,
        met,
    };
    text_of(alloc, &judged, form)
}

/// Explains an accepted job.
fn answer_job<W: Watch>(
    alloc: Global,
    lines: &Lines,
    job: &Job,
    form: Form,
    watch: &mut W,
) -> Result<Answer, NoMemory>
    requires accepted { IsSoundJob job.now }
    requires indices { BlocksFit job.now }
    ensures { IfOk result (λ answer. IsJobAnswer form lines.now job.now answer.text.items answer.status) }
{
    let judgement = judge_job(alloc, job, watch)?;
    watch.begins(Stage::Listing);
    let met = met_in(alloc, job, &judgement)?;
    let text = text_on(alloc, lines, job, &judgement, met.as_slice(), form)?;
    Ok(Answer {
        text,
        status: Status::of_verdict(&judgement.verdict),
    })
}

/// The text on a refused input, of whose lines these are refused by themselves. There is nothing to draw of it: the text says so.
fn refused_text(
    alloc: Global,
    lines: &Lines,
    refusal: &Refusal,
    rows: &[RefusedLine],
    form: Form,
) -> Result<Vec<u8>, NoMemory>
    ensures told { IfOk result (λ text. form ≡ Form.Text → text.items ≡ refusals_text lines.now refusal.now rows.now) }
    ensures undrawn { IfOk result (λ text. form ≡ Form.Drawing
        → text.items ≡ refusals_text lines.now refusal.now rows.now) }
{
    match form {
        Form::Data => refusal_data(alloc, lines, refusal, rows),
        Form::Text | Form::Drawing => explain_refusals(alloc, lines, refusal, rows),
    }
}

/// Explains a refused input.
fn answer_refusal(
    alloc: Global,
    lines: &Lines,
    input: &[u8],
    refusal: &Refusal,
    form: Form,
) -> Result<Answer, NoMemory>
    requires short { length input.now ≤ INPUT_LIMIT }
    requires same { lines.now ≡ input.now }
    ensures { IfOk result (λ answer. IsRefusalAnswer form input.now refusal.now answer.text.items answer.status) }
{
    let refusals = line_refusals(alloc, input)?;
    let rows = refused_lines(alloc, lines, refusals.as_slice())?;
    let text = refused_text(alloc, lines, refusal, rows.as_slice(), form)?;
    Ok(Answer {
        text,
        status: Status::Refused,
    })
}

/// Adds to an answer how many lines the input has left out.
fn with_left_out_text(alloc: Global, input: &[u8], answer: Answer) -> Result<Answer, NoMemory>
    ensures { IfOk result (λ told. (told.text.items ≡ answer.text.items ++ left_out_text input.now)
        × (told.status ≡ answer.status)) }
{
    let Answer { mut text, status } = answer;
    let left_out = left_out_text(alloc, input)?;
    text.extend_from_slice(left_out.as_slice())?;
    Ok(Answer { text, status })
}

/// Adds to an answer how many lines the input has left out, where it is plain text.
fn with_left_out(
    alloc: Global,
    input: &[u8],
    form: Form,
    answer: Answer,
) -> Result<Answer, NoMemory>
    ensures { IfOk result (λ told. (told.text.items ≡ text_with form input.now answer.text.items)
        × (told.status ≡ answer.status)) }
{
    match form {
        Form::Text => with_left_out_text(alloc, input, answer),
        Form::Drawing | Form::Data => Ok(answer),
    }
}

/// Explains an input. `NoMemory` where too little memory is found.
pub(crate) fn answer_input<W: Watch>(
    alloc: Global,
    input: &[u8],
    form: Form,
    watch: &mut W,
) -> Result<Answer, NoMemory>
    requires { length input.now ≤ INPUT_LIMIT }
    ensures { IfOk result (λ answer. IsAnswer form input.now answer.text.items answer.status) }
{
    watch.begins(Stage::Reading);
    let lines = Lines::of(alloc, input)?;
    match read_job(alloc, input) {
        Ok(job) => {
            let answer = answer_job(alloc, &lines, &job, form, watch)?;
            with_left_out(alloc, input, form, answer)
        }
        Err(JobFault::Refused(refusal)) => answer_refusal(alloc, &lines, input, &refusal, form),
        Err(JobFault::NoMemory) => Err(NoMemory),
    }
}
