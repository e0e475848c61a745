//! The symbols of expressions: what a token means to an expression.

ghost use Rattle.std.specs.Prelude.{◌≡◌, ◌≤◌, ◌<◌, IfSome, None, length, slice_index_or};
ghost use Rattle.block_scanner.specs.Scanned.{IsScanned, IsTokenOf};
ghost use Rattle.block_scanner.specs.Texts.{text_of};
ghost use Rattle.micro_units.specs.NumberText.{number_of};
ghost use Rattle.nc_expressions.specs.Symbols.{truth, index_of, sign_symbol, is_word, value_symbol, name_symbol, is_digits, number_symbol, kind_symbol, is_exponent, is_number_kind, touches_number, symbol_of, symbols_of, token_before};
ghost use Rattle.nc_expressions.specs.declared.limits.TheConstants.{LAST_PARAMETER};

use crate::limits::PARAMETER_LIMIT;
use crate::trees::{BinaryOp, UnaryOp};
use block_scanner::{Kind, Sign, Token, Words};
use micro_units::Num;

/// What a token means to an expression.
#[derive(Clone, Copy)]
pub enum Symbol {
    /// A number, and whether it is digits alone, without a point.
    Number(Num, bool),
    /// TRUE or FALSE.
    Truth(bool),
    /// An operator between two operands; `+` and `-` may also be signs.
    Operator(BinaryOp),
    /// NOT.
    Not,
    /// The name of a function.
    Function(UnaryOp),
    /// The letter R.
    Letter,
    /// `(`
    Open,
    /// `)`
    Close,
    /// `[`
    OpenBracket,
    /// `]`
    CloseBracket,
    /// An E or EX directly after a number: an exponent, which is not read.
    Exponent,
    /// What stands in no expression.
    Other,
}

/// The value of TRUE and of FALSE.
pub fn truth(holds: bool) -> Num
    ensures { result ≡ truth holds }
{
    Num {
        millionths: if holds { 1_000_000 } else { 0 },
    }
}

/// The parameter number that a number is: whole, and at most `LAST_PARAMETER`.
#[tactic(auto, unfolding(crate::specs::Symbols::index_of))]
pub fn index_of(number: Num) -> Option<u16>
    ensures value { result ≡ index_of number }
    ensures few { IfSome result (λ index. index ≤ LAST_PARAMETER) }
{
    let millionths = number.millionths;
    if 0 <= millionths
        && millionths < i64::from(PARAMETER_LIMIT) * 1_000_000
        && millionths % 1_000_000 == 0
    {
        Some((millionths / 1_000_000) as u16)
    } else {
        None
    }
}

/// What a sign means to an expression.
#[tactic(auto, unfolding(crate::specs::Symbols::sign_symbol))]
fn sign_symbol(sign: Sign) -> Symbol
    ensures { result ≡ sign_symbol sign }
{
    match sign {
        Sign::Plus => Symbol::Operator(BinaryOp::Add),
        Sign::Minus => Symbol::Operator(BinaryOp::Sub),
        Sign::Times => Symbol::Operator(BinaryOp::Mul),
        Sign::Slash => Symbol::Operator(BinaryOp::Div),
        Sign::Equal => Symbol::Operator(BinaryOp::Equal),
        Sign::NotEqual => Symbol::Operator(BinaryOp::NotEqual),
        Sign::Less => Symbol::Operator(BinaryOp::Less),
        Sign::Greater => Symbol::Operator(BinaryOp::Greater),
        Sign::LessEqual => Symbol::Operator(BinaryOp::LessEqual),
        Sign::GreaterEqual => Symbol::Operator(BinaryOp::GreaterEqual),
        Sign::OpenParenthesis => Symbol::Open,
        Sign::CloseParenthesis => Symbol::Close,
        Sign::OpenBracket => Symbol::OpenBracket,
        Sign::CloseBracket => Symbol::CloseBracket,
        Sign::Assign | Sign::Comma | Sign::Colon | Sign::Dollar => Symbol::Other,
    }
}

/// Whether a text is this word, in upper or lower case.
fn is_word(text: &[u8], word: &[u8]) -> bool
    ensures { result ≡ is_word text.now word.now }
{
    text.eq_ignore_ascii_case(word)
}

/// What a name that is no operator means to an expression.
#[tactic(auto, unfolding(crate::specs::Symbols::value_symbol))]
fn value_symbol(text: &[u8]) -> Symbol
    ensures { result ≡ value_symbol text.now }
{
    if is_word(text, b"TRUE") {
        Symbol::Truth(true)
    } else if is_word(text, b"FALSE") {
        Symbol::Truth(false)
    } else if is_word(text, b"ABS") {
        Symbol::Function(UnaryOp::Abs)
    } else if is_word(text, b"SQRT") {
        Symbol::Function(UnaryOp::Sqrt)
    } else if is_word(text, b"POT") {
        Symbol::Function(UnaryOp::Pot)
    } else if is_word(text, b"TRUNC") {
        Symbol::Function(UnaryOp::Trunc)
    } else if is_word(text, b"ROUND") {
        Symbol::Function(UnaryOp::Round)
    } else {
        Symbol::Other
    }
}

/// What a name means to an expression.
#[tactic(auto, unfolding(crate::specs::Symbols::name_symbol))]
fn name_symbol(text: &[u8]) -> Symbol
    ensures { result ≡ name_symbol text.now }
{
    if is_word(text, b"DIV") {
        Symbol::Operator(BinaryOp::WholeDiv)
    } else if is_word(text, b"MOD") {
        Symbol::Operator(BinaryOp::Modulo)
    } else if is_word(text, b"AND") {
        Symbol::Operator(BinaryOp::And)
    } else if is_word(text, b"OR") {
        Symbol::Operator(BinaryOp::Or)
    } else if is_word(text, b"XOR") {
        Symbol::Operator(BinaryOp::Xor)
    } else if is_word(text, b"NOT") {
        Symbol::Not
    } else {
        value_symbol(text)
    }
}

/// Whether a text is nothing but digits.
pub fn is_digits(text: &[u8]) -> bool
    ensures { result ≡ is_digits text.now }
{
    text.iter().all(|byte| byte.is_ascii_digit())
}

/// What the text of a number means to an expression.
#[tactic(auto, unfolding(crate::specs::Symbols::number_symbol))]
fn number_symbol(text: &[u8]) -> Symbol
    ensures { result ≡ number_symbol (number_of text.now) (is_digits text.now) }
{
    match Num::parse(text) {
        Ok(number) => Symbol::Number(number, is_digits(text)),
        Err(_) => Symbol::Other,
    }
}

/// What a token of this kind and text means to an expression.
#[tactic(auto, unfolding(crate::specs::Symbols::kind_symbol))]
fn kind_symbol(kind: Kind, text: &[u8]) -> Symbol
    ensures { result ≡ kind_symbol kind text.now }
{
    match kind {
        Kind::Letter(b'R') => Symbol::Letter,
        Kind::Letter(_) | Kind::Text => Symbol::Other,
        Kind::Name => name_symbol(text),
        Kind::Number => number_symbol(text),
        Kind::Sign(sign) => sign_symbol(sign),
    }
}

/// Whether a name is EX alone or with digits after it.
#[tactic(auto, using(crate::proofs::Beginnings::split_short), unfolding(crate::specs::Symbols::is_exponent))]
fn is_exponent_name(text: &[u8]) -> bool
    ensures { result ≡ is_exponent Kind.Name text.now }
{
    let (letters, digits) = text.split_at(text.len().min(2));
    is_word(letters, b"EX") && is_digits(digits)
}

/// Whether a token of this kind and text begins an exponent.
#[tactic(auto, unfolding(crate::specs::Symbols::is_exponent))]
fn is_exponent(kind: Kind, text: &[u8]) -> bool
    ensures { result ≡ is_exponent kind text.now }
{
    match kind {
        Kind::Letter(letter) => letter == b'E',
        Kind::Name => is_exponent_name(text),
        Kind::Number | Kind::Text | Kind::Sign(_) => false,
    }
}

/// Whether a token stands directly after a number, with no blank between.
fn touches_number(before: Option<Token>, token: Token) -> bool
    ensures { result ≡ touches_number before token }
{
    match before {
        Some(before) => matches!(before.kind, Kind::Number) && before.end == token.start,
        None => false,
    }
}

/// The token before a place.
#[tactic(auto, using(crate::proofs::Beginnings::befores))]
fn token_before(words: &Words<'_>, at: usize) -> Option<Token>
    requires scanned { IsScanned words.now }
    requires within { at < length words.now.tokens }
    ensures { result ≡ token_before None words.now.tokens at }
{
    if at == 0 {
        None
    } else {
        Some(words.token(at - 1))
    }
}

/// What a token means to an expression, with the token before it.
#[tactic(auto, unfolding(crate::specs::Symbols::symbol_of))]
fn symbol_of(words: &Words<'_>, before: Option<Token>, token: Token) -> Symbol
    requires { IsTokenOf words.now.line token }
    ensures { result ≡ symbol_of words.now.line before token }
{
    let text = words.text(&token);
    if touches_number(before, token) && is_exponent(token.kind, text) {
        Symbol::Exponent
    } else {
        kind_symbol(token.kind, text)
    }
}

/// The symbol at a place of a line.
#[tactic(auto, using(crate::proofs::Beginnings::symbol_read))]
pub fn symbol_at(words: &Words<'_>, at: usize) -> Symbol
    requires scanned { IsScanned words.now }
    requires within { at < length words.now.tokens }
    ensures { result ≡ slice_index_or (symbols_of words.now) at result }
{
    symbol_of(words, token_before(words, at), words.token(at))
}
