//! Numbers and readings, said.
ghost use Rattle.std.specs.Prelude.{◌≡◌, ◌<◌, ◌++◌};
ghost use Rattle.std.specs.List.{flat_map};
ghost use Rattle.explain_readings.specs.Numbers as model;

use crate::readings::Reading;
use growing_text::Text;
use micro_units::Num;

/// Says the next digit of a part that is less than ten of these units; nothing where nothing is left.
#[tactic(auto, unfolding(crate::specs::Numbers::digit_text))]
fn say_digit(text: &mut Text, part: u64, unit: u64)
    requires { 0 < unit }
    ensures { text.new ≡ text.old ++ model.digit_text unit part }
{
    if part != 0 {
        text.number(part / unit);
    }
}

/// Says the first three decimals of so many millionths.
#[tactic(auto, unfolding(crate::specs::Numbers::first_text))]
fn say_first(text: &mut Text, part: u64)
    ensures { text.new ≡ text.old ++ model.first_text part }
{
    say_digit(text, part, 100_000);
    say_digit(text, part % 100_000, 10_000);
    say_digit(text, part % 10_000, 1_000);
}

/// Says the last three decimals of so many millionths.
#[tactic(auto, unfolding(crate::specs::Numbers::last_text))]
fn say_last(text: &mut Text, part: u64)
    ensures { text.new ≡ text.old ++ model.last_text part }
{
    say_digit(text, part % 1_000, 100);
    say_digit(text, part % 100, 10);
    say_digit(text, part % 10, 1);
}

/// Says so many millionths, less than 1, after a point; nothing where there are none.
#[tactic(auto, unfolding(crate::specs::Numbers::fraction_text))]
fn say_fraction(text: &mut Text, part: u64)
    ensures { text.new ≡ text.old ++ model.fraction_text part }
{
    if part != 0 {
        text.say(".");
        say_first(text, part);
        say_last(text, part);
    }
}

/// Says so many millionths as a decimal number.
#[tactic(auto, unfolding(crate::specs::Numbers::size_text))]
fn say_size(text: &mut Text, size: u64)
    ensures { text.new ≡ text.old ++ model.size_text size }
{
    text.number(size / 1_000_000);
    say_fraction(text, size % 1_000_000);
}

/// Says a number as a decimal number without zeros at its end, with a sign where it is below 0.
#[tactic(auto, unfolding(crate::specs::Numbers::value_text))]
pub fn say_value(text: &mut Text, value: Num)
    ensures { text.new ≡ text.old ++ model.value_text value }
{
    let millionths = value.millionths;
    if millionths < 0 {
        text.say("-");
    }
    say_size(text, millionths.unsigned_abs());
}

/// Says a parameter and its value.
#[tactic(auto, unfolding(crate::specs::Numbers::reading_text))]
fn say_reading(text: &mut Text, reading: &Reading)
    ensures { text.new ≡ text.old ++ model.reading_text reading.now }
{
    text.say("R");
    text.number(u64::from(reading.number));
    text.say(" = ");
    say_value(text, reading.value);
}

/// Says a parameter more.
#[tactic(auto, unfolding(crate::specs::Numbers::further_text))]
fn say_further(text: &mut Text, reading: &Reading)
    ensures { text.new ≡ text.old ++ model.further_text reading.now }
{
    text.say(", ");
    say_reading(text, reading);
}

/// Says more parameters.
fn say_rest(text: &mut Text, readings: &[Reading])
    ensures { text.new ≡ text.old ++ flat_map model.further_text readings.now }
{
    for reading in readings {
        say_further(text, reading);
    }
}

/// Says parameters and their values, one after another, as `R1 = 0, R4 = 12.5`.
#[tactic(auto, unfolding(crate::specs::Numbers::readings_text))]
pub fn say_readings(text: &mut Text, readings: &[Reading])
    ensures { text.new ≡ text.old ++ model.readings_text readings.now }
{
    if let [first, rest @ ..] = readings {
        say_reading(text, first);
        say_rest(text, rest);
    }
}
