//! Large jobs for trials: each number from 0 to 999,999,999 gives one.
//!
//! Two channels make random moves, and wait for each other after every hundredth. Their zones stay apart.
#![tactic(auto)]

ghost use Rattle.std.specs.Prelude.{◌≡◌, ◌+◌, ◌*◌, ◌%◌, ◌<◌, ◌≤◌, ◌++◌, IfOk, OnOk, length};
ghost use Rattle.std.specs.Fmt.{decimal};
ghost use Rattle.sample_jobs.specs.Samples as model;

use itoa::Buffer;
use out_of_memory::NoMemory;
use std::alloc::Global;

/// The greatest number of a sample.
pub const GREATEST_NUMBER: u32 = 999_999_999;

/// How many moves a program makes.
const MOVES: u32 = 10_000;

/// How many moves it makes between two waits.
const MOVES_TO_A_WAIT: u32 = 100;

/// The most bytes of the job list.
const LIST_ROOM: usize = 320;

/// The most bytes of the first line of a program, and of a wait.
const LINE_ROOM: usize = 12;

/// The most digits of a number.
const NUMBER_ROOM: usize = 10;

/// The most bytes of a move.
const MOVE_ROOM: usize = 28;

/// The most bytes of the moves of a program, with its waits.
const ROWS_ROOM: usize = 400_000;

/// The most bytes of a sample.
pub const SAMPLE_ROOM: usize = 1_000_000;

/// The two programs of a sample.
#[derive(Clone, Copy)]
pub enum Program {
    /// That of channel 1, at positive X.
    First,
    /// That of channel 2, at negative X.
    Second,
}

/// The job list.
fn list_text() -> &'static str
    ensures text { result.now ≡ model.list_text }
    ensures short { length result.now ≤ LIST_ROOM }
{
    "JOB 1
CHANNEL 1 S1 START
CHANNEL 2 S2 START
AXIS X1 1 100
AXIS Z1 1 0
AXIS X2 2 -100
AXIS Z2 2 0
GEO 1 X X1
GEO 1 Z Z1
GEO 2 X X2
GEO 2 Z Z2
ZONE 1 1 1 ON +X1 -10 10 - -10 10 +Z1 -10 10
ZONE 2 2 2 ON +X2 -10 10 - -10 10 +Z2 -10 10
BUDGET 100000000
"
}

/// The line before the blocks of a program.
fn head_line(program: Program) -> &'static str
    ensures text { result.now ≡ model.head_line program }
    ensures short { length result.now ≤ LINE_ROOM }
{
    match program {
        Program::First => "%_N_S1_MPF\n",
        Program::Second => "%_N_S2_MPF\n",
    }
}

/// The number from which the random numbers of a program are made.
fn seed_of(program: Program, number: u32) -> u32
    requires { number ≤ GREATEST_NUMBER }
    ensures { result ≡ model.seed_of program number }
{
    match program {
        Program::First => number,
        Program::Second => number + 1,
    }
}

/// The sign of X in a program.
fn sign_of(program: Program) -> &'static str
    ensures text { result.now ≡ model.sign_of program }
    ensures short { length result.now ≤ 1 }
{
    match program {
        Program::First => "",
        Program::Second => "-",
    }
}

/// The block in which a program waits for the other one's channel.
fn wait_line(program: Program) -> &'static str
    ensures text { result.now ≡ model.wait_line program }
    ensures short { length result.now ≤ LINE_ROOM }
{
    match program {
        Program::First => "WAITM(1,2)\n",
        Program::Second => "WAITM(1,1)\n",
    }
}

/// The random number after this one.
fn next_random(random: u32) -> u32
    ensures { result ≡ (1664525 * random + 1013904223) % 4294967296 }
{
    ((1_664_525 * u64::from(random) + 1_013_904_223) % 4_294_967_296) as u32
}

/// Puts a text at the end.
fn push(bytes: &mut Vec<u8>, text: &str) -> Result<(), NoMemory>
    ensures text { OnOk result (bytes.new.items ≡ bytes.old.items ++ text.now) }
    ensures room { OnOk result (length bytes.new.items ≡ length bytes.old.items + length text.now) }
{
    bytes.extend_from_slice(text.as_bytes())?;
    Ok(())
}

/// Puts the digits of a number at the end.
fn push_number(bytes: &mut Vec<u8>, number: u32) -> Result<(), NoMemory>
    ensures text { OnOk result (bytes.new.items ≡ bytes.old.items ++ decimal number) }
    ensures room { OnOk result (length bytes.new.items ≤ length bytes.old.items + NUMBER_ROOM) }
{
    push(bytes, Buffer::new().format(number))
}

/// Puts the move that a random number gives.
#[tactic(auto, unfolding(crate::specs::Samples::move_line))]
fn push_move(bytes: &mut Vec<u8>, program: Program, random: u32) -> Result<(), NoMemory>
    ensures text { OnOk result (bytes.new.items ≡ bytes.old.items ++ model.move_line program random) }
    ensures room { OnOk result (length bytes.new.items ≤ length bytes.old.items + MOVE_ROOM) }
{
    push(bytes, "G1 X")?;
    push(bytes, sign_of(program))?;
    push_number(bytes, 50 + random % 100)?;
    push(bytes, " Z")?;
    push_number(bytes, random / 100 % 500)?;
    push(bytes, "\n")
}

/// Puts the move of this number of a program, counted from 1, and the wait after every hundredth.
#[tactic(auto, unfolding(crate::specs::Samples::move_lines))]
fn push_moves(
    bytes: &mut Vec<u8>,
    program: Program,
    random: u32,
    count: u32,
) -> Result<(), NoMemory>
    ensures text { OnOk result (bytes.new.items ≡ bytes.old.items ++ model.move_lines program random count) }
    ensures room { OnOk result (length bytes.new.items ≤ length bytes.old.items + MOVE_ROOM + LINE_ROOM) }
{
    push_move(bytes, program, random)?;
    if count % MOVES_TO_A_WAIT == 0 {
        push(bytes, wait_line(program))?;
    }
    Ok(())
}

/// Puts the moves of a program, with its waits.
fn push_rows(bytes: &mut Vec<u8>, program: Program, seed: u32) -> Result<(), NoMemory>
    ensures text { OnOk result (bytes.new.items ≡ bytes.old.items ++ model.rows program seed 10000) }
    ensures room { OnOk result (length bytes.new.items ≤ length bytes.old.items + ROWS_ROOM) }
{
    let mut random = seed;
    for index in 0..MOVES {
        random = next_random(random);
        push_moves(bytes, program, random, index + 1)?;
    }
    Ok(())
}

/// Puts a program.
#[tactic(auto, unfolding(crate::specs::Samples::program_text))]
fn push_program(bytes: &mut Vec<u8>, program: Program, number: u32) -> Result<(), NoMemory>
    requires { number ≤ GREATEST_NUMBER }
    ensures text { OnOk result (bytes.new.items ≡ bytes.old.items ++ model.program_text program number) }
    ensures room { OnOk result (length bytes.new.items ≤ length bytes.old.items + ROWS_ROOM + 2 * LINE_ROOM) }
{
    push(bytes, head_line(program))?;
    push_rows(bytes, program, seed_of(program, number))?;
    push(bytes, "M30\n")
}

/// The job of a number, as its job list and its two programs.
#[tactic(auto, unfolding(crate::specs::Samples::sample_bytes))]
pub fn sample(alloc: Global, number: u32) -> Result<Vec<u8>, NoMemory>
    requires { number ≤ GREATEST_NUMBER }
    ensures exact { IfOk result (λ bytes. bytes.items ≡ model.sample_bytes number) }
    ensures short { IfOk result (λ bytes. length bytes.items ≤ SAMPLE_ROOM) }
{
    let mut bytes = Vec::with_capacity(alloc, SAMPLE_ROOM)?;
    push(&mut bytes, list_text())?;
    push_program(&mut bytes, Program::First, number)?;
    push_program(&mut bytes, Program::Second, number)?;
    Ok(bytes)
}
