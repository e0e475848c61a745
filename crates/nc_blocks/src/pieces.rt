//! What each token of a line is to a block.

ghost use Rattle.std.specs.Prelude.{◌≡◌, ◌<◌, ◌≤◌, Bool, not, length};
ghost use Rattle.block_scanner.specs.Scanned.{IsScanned};
ghost use Rattle.micro_units.specs.NumberText.{number_of};
ghost use Rattle.nc_expressions.specs.Symbols.{number_symbol};
ghost use Rattle.nc_blocks.specs.Pieces.{sign_piece, number_piece, plain_piece, piece_of, is_end, is_read_by_kind, piece_at, text_at, Stands};

use block_scanner::{Kind, Sign, Token, Words};
use micro_units::Num;
use nc_expressions::{NAME_LIMIT, Symbol, symbol_at};

/// What stands at a place of a line.
#[derive(Clone, Copy)]
pub enum Piece {
    /// Nothing: the line has ended.
    End,
    /// A letter, in upper case.
    Letter(u8),
    /// A name of at most `NAME_LIMIT` bytes.
    Name,
    /// A number.
    Number(Num),
    /// A text.
    Text,
    /// `+`
    Plus,
    /// `-`
    Minus,
    /// `/`
    Slash,
    /// `=`
    Assign,
    /// `(`
    Open,
    /// `)`
    Close,
    /// `[`
    OpenBracket,
    /// `]`
    CloseBracket,
    /// `,`
    Comma,
    /// `:`
    Colon,
    /// Another sign.
    Other,
    /// What fits no form: a longer name, an exponent.
    Broken,
}

#[tactic(auto, unfolding(crate::specs::Pieces::sign_piece))]
fn sign_piece(sign: Sign) -> Piece
    ensures { result ≡ sign_piece sign }
{
    match sign {
        Sign::Plus => Piece::Plus,
        Sign::Minus => Piece::Minus,
        Sign::Slash => Piece::Slash,
        Sign::Assign => Piece::Assign,
        Sign::OpenParenthesis => Piece::Open,
        Sign::CloseParenthesis => Piece::Close,
        Sign::OpenBracket => Piece::OpenBracket,
        Sign::CloseBracket => Piece::CloseBracket,
        Sign::Comma => Piece::Comma,
        Sign::Colon => Piece::Colon,
        Sign::Times
        | Sign::Equal
        | Sign::NotEqual
        | Sign::Less
        | Sign::Greater
        | Sign::LessEqual
        | Sign::GreaterEqual
        | Sign::Dollar => Piece::Other,
    }
}

#[tactic(auto, unfolding(crate::specs::Pieces::number_piece))]
fn number_piece(symbol: Symbol) -> Piece
    ensures { result ≡ number_piece symbol }
{
    match symbol {
        Symbol::Number(number, _) => Piece::Number(number),
        _ => Piece::Broken,
    }
}

#[tactic(auto, unfolding(crate::specs::Pieces::plain_piece))]
fn plain_piece(kind: Kind, start: u16, end: u16, symbol: Symbol) -> Piece
    ensures { result ≡ plain_piece kind start end symbol }
{
    match kind {
        Kind::Letter(letter) => Piece::Letter(letter),
        Kind::Name => {
            if usize::from(start) + NAME_LIMIT < usize::from(end) {
                Piece::Broken
            } else {
                Piece::Name
            }
        }
        Kind::Number => number_piece(symbol),
        Kind::Text => Piece::Text,
        Kind::Sign(sign) => sign_piece(sign),
    }
}

#[tactic(auto, unfolding(crate::specs::Pieces::piece_of))]
fn piece_of(token: Token, symbol: Symbol) -> Piece
    ensures { result ≡ piece_of token symbol }
{
    match symbol {
        Symbol::Exponent => Piece::Broken,
        _ => plain_piece(token.kind, token.start, token.end, symbol),
    }
}

/// What a number is to a block.
#[tactic(auto, unfolding(crate::specs::Pieces::number_piece, nc_expressions::specs::Symbols::number_symbol))]
fn number_of_text(text: &[u8]) -> Piece
    ensures { (digits : Bool) → result ≡ number_piece (number_symbol (number_of text.now) digits) }
{
    match Num::parse(text) {
        Ok(number) => Piece::Number(number),
        Err(_) => Piece::Broken,
    }
}

/// Whether a token is read by its kind alone: it is no name, no number and no E, which a number before it makes an exponent.
fn is_read_by_kind(kind: Kind) -> bool
    ensures { result ≡ is_read_by_kind kind }
{
    match kind {
        Kind::Letter(letter) => letter != b'E',
        Kind::Text | Kind::Sign(_) => true,
        Kind::Name | Kind::Number => false,
    }
}

/// What the token at a place is to a block.
#[tactic(auto, using(crate::proofs::Places::tokens))]
fn token_piece(words: &Words<'_>, at: usize) -> Piece
    requires scanned { IsScanned words.now }
    requires within { at < length words.now.tokens }
    ensures { result ≡ piece_at words.now at }
{
    let token = words.token(at);
    if is_read_by_kind(token.kind) {
        plain_piece(token.kind, token.start, token.end, Symbol::Other)
    } else {
        match token.kind {
            Kind::Number => number_of_text(words.text(&token)),
            _ => piece_of(token, symbol_at(words, at)),
        }
    }
}

/// What stands at a place.
#[tactic(auto, using(crate::proofs::Places::piece_past))]
pub fn piece_at(words: &Words<'_>, at: usize) -> Piece
    requires { IsScanned words.now }
    ensures value { result ≡ piece_at words.now at }
    ensures within { Stands result (at < length words.now.tokens) }
{
    if at < words.tokens.len() {
        token_piece(words, at)
    } else {
        Piece::End
    }
}

/// Whether the line goes on at a place.
pub(crate) fn has_more(words: &Words<'_>, at: usize) -> bool
    ensures { result ≡ not (is_end (piece_at words.now at)) }
{
    at < words.tokens.len()
}

/// The text of the token at a place.
#[tactic(auto, using(crate::proofs::Places::text_read))]
pub fn text_at<'a>(words: &'a Words<'_>, at: usize) -> &'a [u8]
    requires scanned { IsScanned words.now }
    requires within { at < length words.now.tokens }
    ensures { result.now ≡ text_at words.now at }
{
    let token = words.token(at);
    words.text(&token)
}
