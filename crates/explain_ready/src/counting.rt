//! How many lines of an input are left out.
ghost use Rattle.std.specs.Prelude.{◌≡◌, ◌++◌, IfOk, cond};
ghost use Rattle.explain_ready.specs.Copies as model;
ghost use Rattle.explain_ready.specs.Copies.{left_out_count};

use crate::marking::is_left_out;
use growing_text::Text;
use out_of_memory::NoMemory;
use std::alloc::Global;
use tape_job::first_length;

/// 1 where it is so, else 0.
fn one_if(is: bool) -> usize
    ensures { result ≡ cond is 1 0 }
{
    if is { 1 } else { 0 }
}

/// How many lines of an input a copy for the check has left out: their first `;` begins `;LEFT OUT `.
#[tactic(auto, using(crate::proofs::CopyLaws::count_step))]
pub fn left_out_count(input: &[u8]) -> usize
    ensures { result ≡ left_out_count input.now }
{
    let mut count: usize = 0;
    let mut rest = input;
    while !rest.is_empty() {
        let length = first_length(rest);
        count += one_if(is_left_out(&rest[..length]));
        rest = &rest[length..];
    }
    count
}

/// Says that so many lines are left out.
#[tactic(auto, unfolding(crate::specs::Copies::count_text))]
fn say_count(text: &mut Text, count: usize)
    ensures { text.new ≡ text.old ++ model.count_text count }
{
    text.say("\nLines that this copy leaves out, as ;LEFT OUT says: ");
    text.number(count as u64);
    text.say("\n");
}

/// How many lines an input has left out, in plain text; nothing where it has left out none. `NoMemory` where too little memory is
/// found.
pub fn left_out_text(alloc: Global, input: &[u8]) -> Result<Vec<u8>, NoMemory>
    ensures { IfOk result (λ text. text.items ≡ model.left_out_text input.now) }
{
    let count = left_out_count(input);
    let mut text = Text::new(alloc);
    if count > 0 {
        say_count(&mut text, count);
    }
    text.finish()
}
