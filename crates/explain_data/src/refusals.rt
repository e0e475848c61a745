//! A refused input as JSON.
use crate::blocks::{origin_data, text_of};
use crate::lines::line_of;
use exit_statuses::Status;
use explain_advice::{refusal_advice, refusal_cause, refusal_name};
use explain_lines::{Lines, origin_of};
use explain_refused::{Effect, RefusedLine, Slip, refused_line, slip_advice};
use fault_codes::Refusal;
use out_of_memory::NoMemory;
use serde::Serialize;
use serde_json::{Value, json, to_value};
use std::alloc::{AllocError, Global};

/// The word of what a refused line would do.
fn effect_word(effect: Effect) -> &'static str {
    match effect {
        Effect::MayMove => "MAY_MOVE",
        Effect::MovesNothing => "MOVES_NOTHING",
    }
}

/// A value as data.
fn value_of<T: Serialize>(alloc: Global, value: &T) -> Result<Value, AllocError> {
    match to_value(alloc, value) {
        Ok(value) => Ok(value),
        Err(_) => Err(AllocError),
    }
}

/// What a slip is and what to write; nothing where a line has none.
fn slip_data(alloc: Global, slip: Option<Slip>) -> Result<Value, AllocError> {
    match slip {
        Some(slip) => value_of(alloc, &slip_advice(slip)),
        None => Ok(Value::Null),
    }
}

/// A line that is refused by itself.
fn row_data(alloc: Global, lines: &Lines, row: &RefusedLine) -> Result<Value, AllocError> {
    let origin = value_of(alloc, &origin_data(alloc, origin_of(lines, row.line))?)?;
    let text = value_of(alloc, &text_of(alloc, lines.text(row.line))?)?;
    let slip = slip_data(alloc, row.slip)?;
    json!(in alloc; {
        "code": row.code,
        "line": row.line,
        "place": row.place,
        "name": refusal_name(row.code),
        "effect": effect_word(row.effect),
        "slip": slip,
        "text": text,
        "origin": origin
    })
}

/// Lines that are refused by themselves.
fn rows_data(alloc: Global, lines: &Lines, rows: &[RefusedLine]) -> Result<Vec<Value>, AllocError> {
    let mut values = Vec::new(alloc);
    for row in rows {
        values.push(row_data(alloc, lines, row)?)?;
    }
    Ok(values)
}

/// The facts of an input of these lines that is refused so, as a line of JSON; `rows` are all lines that are refused by themselves.
pub fn refusal_data(
    alloc: Global,
    lines: &Lines,
    refusal: &Refusal,
    rows: &[RefusedLine],
) -> Result<Vec<u8>, NoMemory> {
    let first = refused_line(alloc, lines, refusal)?;
    let slip = slip_data(alloc, first.slip)?;
    let refusals = rows_data(alloc, lines, rows)?;
    let value = json!(in alloc; {
        "verdict": "REFUSED",
        "status": Status::Refused.number(),
        "code": refusal.code,
        "line": refusal.line,
        "place": first.place,
        "name": refusal_name(refusal.code),
        "cause": refusal_cause(refusal.code),
        "advice": refusal_advice(refusal.code),
        "slip": slip,
        "refusals": refusals
    })?;
    line_of(alloc, &value)
}
