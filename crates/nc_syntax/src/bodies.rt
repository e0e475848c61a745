//! The body of a block: its first token chooses the form.

ghost use Rattle.nc_blocks.specs.Indices.{StatementIndicesFit};
ghost use Rattle.std.specs.Prelude.{◌≡◌, ◌<◌, ◌≤◌, length, IfOk};
ghost use Rattle.block_scanner.specs.Scanned.{IsScanned};
ghost use Rattle.nc_syntax.specs.Bodies.{jump_name, structure_name, control_name, frame_name, coordination_name, form_of, control_form, form_body, named_body, lettered_body, body_at};
ghost use Rattle.nc_blocks.specs.Reading.{Gives};
ghost use Rattle.nc_blocks.specs.Statement.{statement_view};

use crate::jumps::{case_form, if_form, jump_form, way_of};
use crate::structures::{
    call_form, for_form, last_expression, number_call_form, proc_form, repeat_block_form,
    repeat_form,
};
use block_scanner::Words;
use name_tables::is_table_word;
use nc_blocks::{
    CoordWord, FrameWord, NameText, Piece, Stmt, Way, is_word, piece_at, text_at, words_form,
};
use nc_expressions::SyntaxFault;
use nc_forms::{
    alone, coordination_form, msg_form, setms_form, shape_form, turn_form, workpiece_form,
};
use std::alloc::Global;

/// A control word that is no jump.
#[derive(Clone, Copy)]
pub(crate) enum Control {
    /// IF
    If,
    /// ELSE
    Else,
    /// ENDIF
    EndIf,
    /// WHILE
    While,
    /// ENDWHILE
    EndWhile,
    /// UNTIL
    Until,
    /// LOOP
    Loop,
    /// ENDLOOP
    EndLoop,
    /// FOR
    For,
    /// ENDFOR
    EndFor,
    /// CASE
    Case,
    /// REPEAT
    Repeat,
    /// REPEATB
    RepeatBlock,
    /// RET
    Return,
    /// PROC
    Proc,
}

/// What a first name begins.
#[derive(Clone, Copy)]
pub(crate) enum Form {
    /// A jump.
    Jump(Way),
    /// Another control word.
    Control(Control),
    /// A frame word.
    Shape(FrameWord),
    /// ROT, or AROT where this is true.
    Turn(bool),
    /// A coordination word.
    Coord(CoordWord),
    /// MSG
    Msg,
    /// STOPRE
    Stopre,
    /// SETMS
    Setms,
    /// WORKPIECE
    Workpiece,
}

fn jump_name(way: Option<Way>) -> Option<Form>
    ensures { result ≡ jump_name way }
{
    match way {
        Some(way) => Some(Form::Jump(way)),
        None => None,
    }
}

#[tactic(auto, unfolding(crate::specs::Bodies::structure_name))]
fn structure_name(text: &[u8]) -> Option<Form>
    ensures { result ≡ structure_name text.now }
{
    if is_word(text, b"IF") {
        Some(Form::Control(Control::If))
    } else if is_word(text, b"ELSE") {
        Some(Form::Control(Control::Else))
    } else if is_word(text, b"ENDIF") {
        Some(Form::Control(Control::EndIf))
    } else if is_word(text, b"WHILE") {
        Some(Form::Control(Control::While))
    } else if is_word(text, b"ENDWHILE") {
        Some(Form::Control(Control::EndWhile))
    } else if is_word(text, b"UNTIL") {
        Some(Form::Control(Control::Until))
    } else if is_word(text, b"LOOP") {
        Some(Form::Control(Control::Loop))
    } else if is_word(text, b"ENDLOOP") {
        Some(Form::Control(Control::EndLoop))
    } else if is_word(text, b"FOR") {
        Some(Form::Control(Control::For))
    } else if is_word(text, b"ENDFOR") {
        Some(Form::Control(Control::EndFor))
    } else {
        None
    }
}

#[tactic(auto, unfolding(crate::specs::Bodies::control_name))]
fn control_name(text: &[u8]) -> Option<Form>
    ensures { result ≡ control_name text.now }
{
    if is_word(text, b"CASE") {
        Some(Form::Control(Control::Case))
    } else if is_word(text, b"REPEAT") {
        Some(Form::Control(Control::Repeat))
    } else if is_word(text, b"REPEATB") {
        Some(Form::Control(Control::RepeatBlock))
    } else if is_word(text, b"RET") {
        Some(Form::Control(Control::Return))
    } else if is_word(text, b"PROC") {
        Some(Form::Control(Control::Proc))
    } else if is_word(text, b"MSG") {
        Some(Form::Msg)
    } else if is_word(text, b"STOPRE") {
        Some(Form::Stopre)
    } else if is_word(text, b"SETMS") {
        Some(Form::Setms)
    } else if is_word(text, b"WORKPIECE") {
        Some(Form::Workpiece)
    } else {
        None
    }
}

#[tactic(auto, unfolding(crate::specs::Bodies::frame_name))]
fn frame_name(text: &[u8]) -> Option<Form>
    ensures { result ≡ frame_name text.now }
{
    if is_word(text, b"TRANS") {
        Some(Form::Shape(FrameWord::Trans))
    } else if is_word(text, b"ATRANS") {
        Some(Form::Shape(FrameWord::Atrans))
    } else if is_word(text, b"SCALE") {
        Some(Form::Shape(FrameWord::Scale))
    } else if is_word(text, b"ASCALE") {
        Some(Form::Shape(FrameWord::Ascale))
    } else if is_word(text, b"MIRROR") {
        Some(Form::Shape(FrameWord::Mirror))
    } else if is_word(text, b"AMIRROR") {
        Some(Form::Shape(FrameWord::Amirror))
    } else if is_word(text, b"ROT") {
        Some(Form::Turn(false))
    } else if is_word(text, b"AROT") {
        Some(Form::Turn(true))
    } else {
        None
    }
}

#[tactic(auto, unfolding(crate::specs::Bodies::coordination_name))]
fn coordination_name(text: &[u8]) -> Option<Form>
    ensures { result ≡ coordination_name text.now }
{
    if is_word(text, b"WAITM") {
        Some(Form::Coord(CoordWord::WaitM))
    } else if is_word(text, b"WAITMC") {
        Some(Form::Coord(CoordWord::WaitMC))
    } else if is_word(text, b"SETM") {
        Some(Form::Coord(CoordWord::SetM))
    } else if is_word(text, b"CLEARM") {
        Some(Form::Coord(CoordWord::ClearM))
    } else if is_word(text, b"INIT") {
        Some(Form::Coord(CoordWord::Init))
    } else if is_word(text, b"START") {
        Some(Form::Coord(CoordWord::Start))
    } else if is_word(text, b"WAITE") {
        Some(Form::Coord(CoordWord::WaitE))
    } else if is_word(text, b"RELEASE") {
        Some(Form::Coord(CoordWord::Release))
    } else if is_word(text, b"GET") {
        Some(Form::Coord(CoordWord::Get))
    } else if is_word(text, b"CPROT") {
        Some(Form::Coord(CoordWord::CProt))
    } else {
        None
    }
}

/// The form that a name begins.
#[tactic(auto, unfolding(crate::specs::Bodies::form_of))]
fn form_of(text: &[u8]) -> Option<Form>
    ensures { result ≡ form_of text.now }
{
    match jump_name(way_of(text)) {
        Some(form) => Some(form),
        None => match structure_name(text) {
            Some(form) => Some(form),
            None => match control_name(text) {
                Some(form) => Some(form),
                None => match frame_name(text) {
                    Some(form) => Some(form),
                    None => coordination_name(text),
                },
            },
        },
    }
}

/// The form of a control word, after its name.
#[tactic(auto, using(nc_blocks::proofs::Passing::passing), unfolding(crate::specs::Bodies::control_form))]
fn control_form(
    alloc: Global,
    words: &Words<'_>,
    which: Control,
    at: usize,
) -> Result<Stmt, SyntaxFault>
    requires scanned { IsScanned words.now }
    requires within { at ≤ length words.now.tokens }
    ensures exact { Gives statement_view (control_form words.now which at) result }
    ensures indices { IfOk result (λ s. StatementIndicesFit (statement_view s)) }
{
    match which {
        Control::If => if_form(alloc, words, at),
        Control::Else => alone(words, at, Stmt::Else),
        Control::EndIf => alone(words, at, Stmt::EndIf),
        Control::While => Ok(Stmt::While(last_expression(alloc, words, at)?)),
        Control::EndWhile => alone(words, at, Stmt::EndWhile),
        Control::Until => Ok(Stmt::Until(last_expression(alloc, words, at)?)),
        Control::Loop => alone(words, at, Stmt::Loop),
        Control::EndLoop => alone(words, at, Stmt::EndLoop),
        Control::For => for_form(alloc, words, at),
        Control::EndFor => alone(words, at, Stmt::EndFor),
        Control::Case => case_form(alloc, words, at),
        Control::Repeat => repeat_form(alloc, words, at),
        Control::RepeatBlock => repeat_block_form(alloc, words, at),
        Control::Return => alone(words, at, Stmt::Return),
        Control::Proc => proc_form(words, at),
    }
}

/// A form, after its first name.
#[tactic(auto, unfolding(crate::specs::Bodies::form_body))]
fn form_body(alloc: Global, words: &Words<'_>, form: Form, at: usize) -> Result<Stmt, SyntaxFault>
    requires scanned { IsScanned words.now }
    requires within { at ≤ length words.now.tokens }
    ensures exact { Gives statement_view (form_body words.now form at) result }
    ensures indices { IfOk result (λ s. StatementIndicesFit (statement_view s)) }
{
    match form {
        Form::Jump(way) => jump_form(words, way, at),
        Form::Control(which) => control_form(alloc, words, which, at),
        Form::Shape(which) => shape_form(alloc, words, which, at),
        Form::Turn(more) => turn_form(alloc, words, more, at),
        Form::Coord(which) => coordination_form(alloc, words, which, at),
        Form::Msg => msg_form(words, at),
        Form::Stopre => alone(words, at, Stmt::Message),
        Form::Setms => setms_form(alloc, words, at),
        Form::Workpiece => workpiece_form(words, at),
    }
}

/// A body that begins with a name of this text.
#[tactic(auto, unfolding(crate::specs::Bodies::named_body))]
fn named_body(alloc: Global, words: &Words<'_>, text: &[u8], at: usize) -> Result<Stmt, SyntaxFault>
    requires scanned { IsScanned words.now }
    requires within { at < length words.now.tokens }
    ensures exact { Gives statement_view (named_body words.now text.now at) result }
    ensures indices { IfOk result (λ s. StatementIndicesFit (statement_view s)) }
{
    match form_of(text) {
        Some(form) => form_body(alloc, words, form, at + 1),
        None => {
            if is_table_word(text) {
                words_form(alloc, words, at)
            } else {
                call_form(words, NameText::of_word(text), at + 1)
            }
        }
    }
}

/// A body that begins with this letter.
#[tactic(auto, unfolding(crate::specs::Bodies::lettered_body))]
fn lettered_body(
    alloc: Global,
    words: &Words<'_>,
    letter: u8,
    at: usize,
) -> Result<Stmt, SyntaxFault>
    requires scanned { IsScanned words.now }
    requires within { at < length words.now.tokens }
    ensures exact { Gives statement_view (lettered_body words.now letter at) result }
    ensures indices { IfOk result (λ s. StatementIndicesFit (statement_view s)) }
{
    if letter != b'L' {
        return words_form(alloc, words, at);
    }
    match piece_at(words, at + 1) {
        Piece::Number(_) => number_call_form(words, at + 1),
        _ => words_form(alloc, words, at),
    }
}

/// The body from a place on.
#[tactic(auto, unfolding(crate::specs::Bodies::body_at))]
pub(crate) fn body_at(alloc: Global, words: &Words<'_>, at: usize) -> Result<Stmt, SyntaxFault>
    requires scanned { IsScanned words.now }
    requires within { at ≤ length words.now.tokens }
    ensures exact { Gives statement_view (body_at words.now at) result }
    ensures indices { IfOk result (λ s. StatementIndicesFit (statement_view s)) }
{
    match piece_at(words, at) {
        Piece::End => Ok(Stmt::Empty),
        Piece::Name => named_body(alloc, words, text_at(words, at), at),
        Piece::Letter(letter) => lettered_body(alloc, words, letter, at),
        _ => words_form(alloc, words, at),
    }
}
