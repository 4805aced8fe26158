//! The tokens of a text as a grammar sees them: each with its symbol and its number.

ghost use Rattle.std.specs.Prelude.{◌≡◌, ◌≤◌, All, IfOk, drop, length, map};
ghost use Rattle.trick_body_symbols.specs.Lexemes.{lexeme_of, lexemes_of, symbol_as};
ghost use Rattle.trick_body_symbols.specs.Symbols.{decimal_of, decimal_symbol, looked_up, mark_symbols, name_symbol, named_symbols, numbered, plain_name, text_symbols, whole_of, whole_symbol};
ghost use Rattle.trick_body_symbols.specs.declared.symbol.Symbol.TheVariants as the;
ghost use Rattle.trick_text.specs.Numbers.{plain_number, whole_value};
ghost use Rattle.trick_text.specs.Tokens.{ReadsAsToken, spelling};
ghost use Rattle.trick_text.specs.Values.{number_of as number_as};
ghost use Rattle.trick_text.specs.declared.token.TokenKind.TheVariants as kind;

use crate::limits::PHASE_LIMIT;
use crate::symbol::{Symbol, Token};
use std::alloc::{AllocError, Global};
use trick_grammar::Lexeme;
use trick_lang::BOUND_LIMIT;
use trick_text::{TimeFault, TokenKind, is_plain_number, plain_number, seconds, whole};

// Bytes and the symbol of a token that has them.
type Row = (&'static [u8], Symbol);

// Keywords and other names with a symbol of their own.
const NAMED: [Row; 40] = [
    (b"include", Symbol::Include),
    (b"enum", Symbol::Enum),
    (b"struct", Symbol::Struct),
    (b"class", Symbol::Class),
    (b"public", Symbol::Public),
    (b"bool", Symbol::Bool),
    (b"char", Symbol::Char),
    (b"short", Symbol::Short),
    (b"int", Symbol::Int),
    (b"long", Symbol::Long),
    (b"unsigned", Symbol::Unsigned),
    (b"void", Symbol::Void),
    (b"return", Symbol::Return),
    (b"if", Symbol::If),
    (b"else", Symbol::Else),
    (b"for", Symbol::For),
    (b"true", Symbol::True),
    (b"false", Symbol::False),
    (b"double", Symbol::Outside),
    (b"float", Symbol::Outside),
    (b"string", Symbol::Outside),
    (b"template", Symbol::Outside),
    (b"while", Symbol::Outside),
    (b"do", Symbol::Outside),
    (b"switch", Symbol::Outside),
    (b"break", Symbol::Outside),
    (b"continue", Symbol::Outside),
    (b"goto", Symbol::Outside),
    (b"static", Symbol::Outside),
    (b"const", Symbol::Outside),
    (b"protected", Symbol::Outside),
    (b"private", Symbol::Outside),
    (b"virtual", Symbol::Outside),
    (b"collect", Symbol::Outside),
    (b"vcollect", Symbol::Outside),
    (b"integrate", Symbol::Outside),
    (b"job_class_order", Symbol::Outside),
    (b"Trick", Symbol::UpperTrick),
    (b"SimObject", Symbol::SimObject),
    (b"trick", Symbol::LowerTrick),
];

// Strings with a symbol of their own.
const TEXTS: [Row; 11] = [
    (b"\"sim_objects/default_trick_sys.sm\"", Symbol::KnownFile),
    (b"\"default_data\"", Symbol::DefaultData),
    (b"\"initialization\"", Symbol::Initialization),
    (b"\"scheduled\"", Symbol::Scheduled),
    (b"\"top_of_frame\"", Symbol::TopOfFrame),
    (b"\"end_of_frame\"", Symbol::EndOfFrame),
    (b"\"freeze\"", Symbol::Freeze),
    (b"\"unfreeze\"", Symbol::Unfreeze),
    (b"\"checkpoint\"", Symbol::Checkpoint),
    (b"\"restart\"", Symbol::Restart),
    (b"\"shutdown\"", Symbol::Shutdown),
];

// Marks.
const MARKS: [Row; 48] = [
    (b"##", Symbol::Outside),
    (b"%{", Symbol::Outside),
    (b"#", Symbol::Hash),
    (b"{", Symbol::OpenBrace),
    (b"}", Symbol::CloseBrace),
    (b"(", Symbol::OpenParen),
    (b")", Symbol::CloseParen),
    (b"[", Symbol::OpenBracket),
    (b"]", Symbol::CloseBracket),
    (b";", Symbol::Semicolon),
    (b",", Symbol::Comma),
    (b":", Symbol::Colon),
    (b"::", Symbol::DoubleColon),
    (b".", Symbol::Dot),
    (b"?", Symbol::Question),
    (b"=", Symbol::Assign),
    (b"+=", Symbol::PlusAssign),
    (b"-=", Symbol::MinusAssign),
    (b"*=", Symbol::TimesAssign),
    (b"/=", Symbol::DivideAssign),
    (b"%=", Symbol::RemainderAssign),
    (b"&=", Symbol::AndAssign),
    (b"|=", Symbol::OrAssign),
    (b"^=", Symbol::XorAssign),
    (b"<<=", Symbol::ShiftLeftAssign),
    (b">>=", Symbol::ShiftRightAssign),
    (b"++", Symbol::Increment),
    (b"--", Symbol::Decrement),
    (b"+", Symbol::Plus),
    (b"-", Symbol::Minus),
    (b"!", Symbol::Not),
    (b"~", Symbol::Complement),
    (b"*", Symbol::Times),
    (b"/", Symbol::Divide),
    (b"%", Symbol::Remainder),
    (b"<<", Symbol::ShiftLeft),
    (b">>", Symbol::ShiftRight),
    (b"<", Symbol::Less),
    (b"<=", Symbol::AtMost),
    (b">", Symbol::Greater),
    (b">=", Symbol::AtLeast),
    (b"==", Symbol::Equal),
    (b"!=", Symbol::NotEqual),
    (b"&", Symbol::BitAnd),
    (b"^", Symbol::BitXor),
    (b"|", Symbol::BitOr),
    (b"&&", Symbol::And),
    (b"||", Symbol::Or),
];

// The symbol of the first row with these bytes, and else the given one.
fn looked_up(bytes: &[u8], rows: &[Row], other: Symbol) -> Symbol
    ensures { result ≡ looked_up bytes.now (map (λ row. (row.0.now, row.1)) rows.now) other }
{
    for row in rows {
        if bytes == row.0 {
            return row.1;
        }
    }
    other
}

// `C` or `P` with digits of this number: whether it is from 1 to the limit, or another one.
fn numbered(
    limit: u64,
    inside: Symbol,
    outside: Symbol,
    digits: &[u8],
    number: Option<u64>,
) -> Symbol
    requires limit { limit ≤ 65534 }
    requires number { number ≡ plain_number digits.now }
    ensures { result ≡ numbered limit inside outside digits.now }
{
    if !is_plain_number(digits) {
        return Symbol::Name;
    }
    match number {
        Some(number) if number >= 1 && number <= limit => inside,
        _ => outside,
    }
}

// A name, after whose first letter this number stands.
fn plain_name(bytes: &[u8], number: Option<u64>) -> Symbol
    requires { number ≡ plain_number (drop 1 bytes.now) }
    ensures { result ≡ plain_name bytes.now }
{
    match bytes {
        [b'C', digits @ ..] => numbered(15, Symbol::Thread, Symbol::OtherThread, digits, number),
        [b'P', digits @ ..] => {
            numbered(
                PHASE_LIMIT,
                Symbol::Phase,
                Symbol::OtherPhase,
                digits,
                number,
            )
        }
        _ => Symbol::Name,
    }
}

// What a token means to a grammar: its symbol, and the number that it stands for.
#[derive(Clone, Copy)]
struct Meaning {
    symbol: Symbol,
    number: u64,
}

// A name, whose number stands after its first letter.
fn name_meaning(bytes: &[u8]) -> Meaning
    requires { 1 ≤ length bytes.now }
    ensures symbol { result.symbol ≡ name_symbol bytes.now }
    ensures number { result.number ≡ number_as kind.Name bytes.now }
{
    let number = plain_number(&bytes[1..]);
    Meaning {
        symbol: looked_up(bytes, &NAMED, plain_name(bytes, number)),
        number: number.unwrap_or(0),
    }
}

fn whole_of(value: u64) -> Symbol
    ensures { result ≡ whole_of value }
{
    if value == 0 {
        Symbol::LongZero
    } else if value <= BOUND_LIMIT {
        Symbol::Small
    } else if value <= 1_000_000_000 {
        Symbol::Large
    } else {
        Symbol::Huge
    }
}

fn decimal_of(tics: Result<u64, TimeFault>) -> Symbol
    ensures { result ≡ decimal_of tics }
{
    match tics {
        Err(_) => Symbol::BadDecimal,
        Ok(0) => Symbol::DecimalZero,
        Ok(_) => Symbol::Decimal,
    }
}

fn whole_symbol(bytes: &[u8], value: u64) -> Symbol
    requires { value ≡ whole_value bytes.now }
    ensures { result ≡ whole_symbol bytes.now }
{
    if bytes == b"0".as_slice() {
        Symbol::Zero
    } else if bytes == b"1".as_slice() {
        Symbol::One
    } else {
        whole_of(value)
    }
}

// The symbol of a string with these bytes.
fn text_symbol(bytes: &[u8]) -> Symbol
    ensures { result ≡ looked_up bytes.now text_symbols the.Text }
{
    looked_up(bytes, &TEXTS, Symbol::Text)
}

// The symbol of a mark with these bytes.
fn mark_symbol(bytes: &[u8]) -> Symbol
    ensures { result ≡ looked_up bytes.now mark_symbols the.OtherMark }
{
    looked_up(bytes, &MARKS, Symbol::OtherMark)
}

// A whole number.
fn whole_meaning(text: &[u8], token: &trick_text::Token) -> Meaning
    requires token { ReadsAsToken text.now token.now }
    requires kind { token.now.kind ≡ kind.Whole }
    ensures symbol { result.symbol ≡ whole_symbol (spelling text.now token.now) }
    ensures number { result.number ≡ number_as kind.Whole (spelling text.now token.now) }
{
    let number = whole(token, text);
    Meaning {
        symbol: whole_symbol(token.spelling(text), number),
        number,
    }
}

// A decimal number of seconds, in tics.
fn decimal_meaning(text: &[u8], token: &trick_text::Token) -> Meaning
    requires token { ReadsAsToken text.now token.now }
    requires kind { token.now.kind ≡ kind.Decimal }
    ensures symbol { result.symbol ≡ decimal_symbol (spelling text.now token.now) }
    ensures number { result.number ≡ number_as kind.Decimal (spelling text.now token.now) }
{
    let tics = seconds(token, text);
    Meaning {
        symbol: decimal_of(tics),
        number: tics.unwrap_or(0),
    }
}

// What a token of this text means.
fn meaning_of(text: &[u8], token: &trick_text::Token) -> Meaning
    requires { ReadsAsToken text.now token.now }
    ensures symbol { result.symbol ≡ symbol_as token.now.kind (spelling text.now token.now) }
    ensures number { result.number ≡ number_as token.now.kind (spelling text.now token.now) }
{
    let bytes = token.spelling(text);
    match token.kind {
        TokenKind::Name => name_meaning(bytes),
        TokenKind::Whole => whole_meaning(text, token),
        TokenKind::Decimal => decimal_meaning(text, token),
        TokenKind::Text => Meaning {
            symbol: text_symbol(bytes),
            number: 0,
        },
        TokenKind::Mark => Meaning {
            symbol: mark_symbol(bytes),
            number: 0,
        },
    }
}

fn lexeme_of(text: &[u8], token: &trick_text::Token) -> Token
    requires { ReadsAsToken text.now token.now }
    ensures { result ≡ lexeme_of text.now token.now }
{
    let Meaning { symbol, number } = meaning_of(text, token);
    Lexeme {
        class: symbol,
        start: token.start,
        end: token.end,
        number,
        line: token.line,
    }
}

/// The tokens of this text with their symbols and their numbers, in order.
pub fn lexemes(
    alloc: Global,
    text: &[u8],
    tokens: &[trick_text::Token],
) -> Result<Vec<Token>, AllocError>
    requires { All (ReadsAsToken text.now) tokens.now }
    ensures { IfOk result (λ found. found.items ≡ lexemes_of text.now tokens.now) }
{
    let mut found = Vec::new(alloc);
    for token in tokens {
        found.push(lexeme_of(text, token))?;
    }
    Ok(found)
}
