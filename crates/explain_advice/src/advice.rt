//! What a refusal or an alarm is called, when it comes and what to do, by its code.
ghost use Rattle.std.specs.Prelude.{◌≡◌, ◌==◌, map};
ghost use Rattle.std.specs.List.{find};
ghost use Rattle.explain_advice.specs.Advice as model;

use crate::tables::{ALARMS, REFUSALS, Row};

/// The row of a code; none where the table has it not.
fn row_of(rows: &[Row], code: u16) -> Option<Row>
    ensures { result ≡ find (λ row. row.0 == code) rows.now }
{
    rows.iter().copied().find(|row| row.0 == code)
}

/// What the row of a code says that it is called; nothing where the table has it not.
fn name_of(rows: &[Row], code: u16) -> &'static str
    ensures { result.now ≡ model.name_of (map (λ row. (row.0, row.1.now, row.2.now, row.3.now)) rows.now) code }
{
    match row_of(rows, code) {
        Some(row) => row.1,
        None => "",
    }
}

/// When it comes, as the row of its code says; nothing where the table has it not.
fn cause_of(rows: &[Row], code: u16) -> &'static str
    ensures { result.now ≡ model.cause_of (map (λ row. (row.0, row.1.now, row.2.now, row.3.now)) rows.now) code }
{
    match row_of(rows, code) {
        Some(row) => row.2,
        None => "",
    }
}

/// What to do, as the row of its code says; nothing where the table has it not.
fn advice_of(rows: &[Row], code: u16) -> &'static str
    ensures { result.now ≡ model.advice_of (map (λ row. (row.0, row.1.now, row.2.now, row.3.now)) rows.now) code }
{
    match row_of(rows, code) {
        Some(row) => row.3,
        None => "",
    }
}

/// What a refusal is called, by its code; nothing where the table has it not.
pub fn refusal_name(code: u16) -> &'static str
    ensures { result.now ≡ model.name_of model.refusals code }
{
    name_of(&REFUSALS, code)
}

/// When a refusal comes, by its code; nothing where the table has it not.
pub fn refusal_cause(code: u16) -> &'static str
    ensures { result.now ≡ model.cause_of model.refusals code }
{
    cause_of(&REFUSALS, code)
}

/// What to do about a refusal, by its code; nothing where the table has it not.
pub fn refusal_advice(code: u16) -> &'static str
    ensures { result.now ≡ model.advice_of model.refusals code }
{
    advice_of(&REFUSALS, code)
}

/// What an alarm is called, by its code; nothing where the table has it not.
pub fn alarm_name(code: u16) -> &'static str
    ensures { result.now ≡ model.name_of model.alarms code }
{
    name_of(&ALARMS, code)
}

/// When an alarm comes, by its code; nothing where the table has it not.
pub fn alarm_cause(code: u16) -> &'static str
    ensures { result.now ≡ model.cause_of model.alarms code }
{
    cause_of(&ALARMS, code)
}

/// What to do about an alarm, by its code; nothing where its cause says it, or the table has it not.
pub fn alarm_advice(code: u16) -> &'static str
    ensures { result.now ≡ model.advice_of model.alarms code }
{
    advice_of(&ALARMS, code)
}
