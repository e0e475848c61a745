//! The words of a call, and what they ask for.
ghost use Rattle.std.specs.Prelude.{◌≡◌, ◌≤◌, ◌&&◌, ℕ, true, codes, Some, IfOk, IfErr, IsErr, is_some, option_map};
ghost use Rattle.std.specs.Char.{is_ascii_digit};
ghost use Rattle.std.specs.List.{list_all};
ghost use Rattle.std.specs.Str.{bytes_eq};
ghost use Rattle.clap.specs.Words.{first_value, found_of, kind_of};
ghost use Rattle.sample_jobs.specs.declared.TheConstants.{GREATEST_NUMBER};
ghost use Rattle.turnmill.specs.Input.{is_check};
ghost use Rattle.turnmill.specs.Words.{is_number, is_run, number_of, number_text, request_of, sample_number, text_after, words_of};
ghost use Rattle.turnmill.specs.declared.words.Request.TheVariants as requests;

use clap::error::ErrorKind;
use clap::{Arg, ArgMatches, Command, Error};
use out_of_memory::NoMemory;
use std::alloc::Global;

/// What a call is asked for.
#[derive(Clone, Copy, PartialEq, Eq)]
pub enum Request {
    /// To check the input of the source.
    Check,
    /// To judge the job of a number.
    Sample(u32),
}

/// The most digits of the number of a sample.
const DIGIT_LIMIT: usize = 9;

/// Whether the words are `check` alone.
fn is_check(words: &[&str]) -> bool
    ensures { result ≡ is_check (words_of words.now) }
{
    match words {
        [word] => *word == "check",
        _ => false,
    }
}

/// Whether the words are `run` alone.
pub(crate) fn is_run(words: &[&str]) -> bool
    ensures { result ≡ is_run (words_of words.now) }
{
    match words {
        [word] => *word == "run",
        _ => false,
    }
}

/// What follows these bytes in a text that begins with them.
fn text_after<'a>(front: &str, text: &'a str) -> Option<&'a str>
    ensures { option_map (λ rest. rest.now) result ≡ text_after front.now text.now }
{
    text.strip_prefix(front)
}

/// Whether these are the two words before the number.
fn names_number(first: &str, second: &str) -> bool
    ensures { result ≡ (bytes_eq first.now (codes "sample") && bytes_eq second.now (codes "--number")) }
{
    first == "sample" && second == "--number"
}

/// N in the words `sample --number N` and `sample --number=N`.
fn number_text<'a>(words: &[&'a str]) -> Option<&'a str>
    ensures { option_map (λ text. text.now) result ≡ number_text (words_of words.now) }
{
    match words {
        [first, second] => {
            if *first == "sample" {
                text_after("--number=", second)
            } else {
                None
            }
        }
        [first, second, third] => {
            if names_number(first, second) {
                Some(third)
            } else {
                None
            }
        }
        _ => None,
    }
}

/// Whether each byte is a decimal digit.
fn has_digits_only(text: &[u8]) -> bool
    ensures { result ≡ list_all is_ascii_digit text.now }
{
    text.iter().all(|byte| byte.is_ascii_digit())
}

/// Whether a text has one to nine decimal digits.
fn is_number(text: &str) -> bool
    ensures { result ≡ is_number text.now }
{
    if text.is_empty() || text.len() > DIGIT_LIMIT {
        return false;
    }
    has_digits_only(text.as_bytes())
}

/// Whether the words ask for a sample.
fn is_sample(words: &[&str]) -> bool
    ensures { result ≡ is_some (sample_number (words_of words.now)) }
{
    match number_text(words) {
        Some(text) => is_number(text),
        None => false,
    }
}

/// The matches of words that ask for a sample.
fn matches_of<'a>(alloc: Global, words: &'a [&'a str]) -> Result<ArgMatches<'a>, Error>
    requires { is_some (sample_number (words_of words.now)) ≡ true }
    ensures number { IfOk result (λ matches. first_value (found_of matches) (codes "number")
        ≡ number_text (words_of words.now)) }
    ensures fault { IfErr result (λ fault. kind_of fault ≡ ErrorKind.OutOfMemory) }
{
    let number = Arg::new(alloc, "number").long("number");
    let command = Command::new(alloc, "sample").arg(number)?;
    command.try_get_matches_from(words)
}

/// The number of one to nine digits.
fn value_of(text: &str) -> u32
    requires { is_number text.now ≡ true }
    ensures value { number_of text.now ≡ Some result }
    ensures small { result ≤ GREATEST_NUMBER }
{
    let Ok(number) = text.parse::<u32>() else {
        unreachable!()
    };
    number
}

/// The number of the sample that the words ask for, as `clap` reads it.
fn sample_number(alloc: Global, words: &[&str]) -> Result<u32, NoMemory>
    requires { is_some (sample_number (words_of words.now)) ≡ true }
    ensures value { IfOk result (λ number. sample_number (words_of words.now) ≡ Some number) }
    ensures small { IfOk result (λ number. number ≤ GREATEST_NUMBER) }
{
    let Ok(matches) = matches_of(alloc, words) else {
        return Err(NoMemory);
    };
    let Some(text) = matches.get_str("number") else {
        unreachable!()
    };
    Ok(value_of(text))
}

/// What the words ask for, `None` where they have no accepted form.
pub(crate) fn request_of(alloc: Global, words: &[&str]) -> Result<Option<Request>, NoMemory>
    ensures value { IfOk result (λ request. request ≡ request_of (words_of words.now)) }
    ensures small { IfOk result (λ request. (number : ℕ)
        → request ≡ Some (requests.Sample number) → number ≤ GREATEST_NUMBER) }
    ensures fault { IsErr result → is_some (sample_number (words_of words.now)) ≡ true }
{
    if is_check(words) {
        return Ok(Some(Request::Check));
    }
    if !is_sample(words) {
        return Ok(None);
    }
    let number = sample_number(alloc, words)?;
    Ok(Some(Request::Sample(number)))
}
