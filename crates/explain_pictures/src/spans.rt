//! The times of the two boxes that the verdict names.
ghost use Rattle.std.specs.Prelude.{◌≡◌, IfOk, option_copied};
ghost use Rattle.explain_pictures.specs.Spans as model;

use explain_places::{Meeting, Place};
use explain_views::Span;
use out_of_memory::NoMemory;
use std::alloc::Global;
use sync_types::EventId;

/// The step of an event, if there is one.
fn step_of(event: Option<EventId>) -> Option<u32>
    ensures { result ≡ model.step_of event }
{
    match event {
        Some(event) => Some(event.step),
        None => None,
    }
}

/// The time of a box: from the step with which its stretch begins to the one with which it ends.
fn span_of(place: &Place) -> Span
    ensures { result ≡ model.span_of place.now }
{
    Span {
        name: place.name,
        first: step_of(place.first),
        last: step_of(place.last),
    }
}

/// The times of both boxes that the verdict names, if it names any. `NoMemory` where too little memory is found.
#[tactic(auto, unfolding(crate::specs::Spans::named_spans))]
pub(crate) fn named_spans(alloc: Global, first: Option<&Meeting>) -> Result<Vec<Span>, NoMemory>
    ensures { IfOk result (λ spans. spans.items ≡ model.named_spans (option_copied first.entry)) }
{
    let mut spans = Vec::new(alloc);
    if let Some(met) = first {
        spans.push(span_of(&met.left))?;
        spans.push(span_of(&met.right))?;
    }
    Ok(spans)
}
