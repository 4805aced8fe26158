use trick_grammar::{Class, Lexeme};

/// A terminal symbol of the grammars of bodies, conditions and simulation definitions: the class
/// of a token, which follows from its bytes.
#[derive(Clone, Copy, PartialEq, Eq)]
pub enum Symbol {
    // Keywords.
    Include,
    Enum,
    Struct,
    Class,
    Public,
    Bool,
    Char,
    Short,
    Int,
    Long,
    Unsigned,
    Void,
    Return,
    If,
    Else,
    For,
    True,
    False,
    /// A keyword outside the profile, `##` and `%{`.
    Outside,
    // Names.
    Name,
    /// `Trick`
    UpperTrick,
    /// `SimObject`
    SimObject,
    /// `trick`
    LowerTrick,
    /// `C` and a number from 1 to 15.
    Thread,
    /// `C` and another number.
    OtherThread,
    /// `P` and a number from 1 to 65534.
    Phase,
    /// `P` and another number.
    OtherPhase,
    // Whole numbers.
    /// `0`
    Zero,
    /// Another spelling of 0.
    LongZero,
    /// `1`
    One,
    /// Another whole number up to 1,000,000.
    Small,
    /// A whole number above 1,000,000 that is a time in seconds.
    Large,
    /// A whole number that is too large for a time.
    Huge,
    // Decimal numbers.
    /// A decimal number that is 0.
    DecimalZero,
    /// A decimal number that is a time in seconds other than 0.
    Decimal,
    /// A decimal number that is no whole number of tics, or too large for a time.
    BadDecimal,
    // Strings.
    /// The one file that may be included.
    KnownFile,
    DefaultData,
    Initialization,
    Scheduled,
    TopOfFrame,
    EndOfFrame,
    Freeze,
    Unfreeze,
    Checkpoint,
    Restart,
    Shutdown,
    /// Another string.
    Text,
    // Marks.
    Hash,
    OpenBrace,
    CloseBrace,
    OpenParen,
    CloseParen,
    OpenBracket,
    CloseBracket,
    Semicolon,
    Comma,
    Colon,
    DoubleColon,
    Dot,
    Question,
    Assign,
    PlusAssign,
    MinusAssign,
    TimesAssign,
    DivideAssign,
    RemainderAssign,
    AndAssign,
    OrAssign,
    XorAssign,
    ShiftLeftAssign,
    ShiftRightAssign,
    Increment,
    Decrement,
    Plus,
    Minus,
    Not,
    Complement,
    Times,
    Divide,
    Remainder,
    ShiftLeft,
    ShiftRight,
    Less,
    AtMost,
    Greater,
    AtLeast,
    Equal,
    NotEqual,
    BitAnd,
    BitXor,
    BitOr,
    And,
    Or,
    /// Another mark.
    OtherMark,
}

/// The symbols of names.
pub const NAMES: [Symbol; 8] = [
    Symbol::Name,
    Symbol::UpperTrick,
    Symbol::SimObject,
    Symbol::LowerTrick,
    Symbol::Thread,
    Symbol::OtherThread,
    Symbol::Phase,
    Symbol::OtherPhase,
];

/// The symbols of whole numbers.
pub const WHOLES: [Symbol; 6] = [
    Symbol::Zero,
    Symbol::LongZero,
    Symbol::One,
    Symbol::Small,
    Symbol::Large,
    Symbol::Huge,
];

/// The symbols of scalar types that are one word.
pub const SCALARS: [Symbol; 5] = [
    Symbol::Bool,
    Symbol::Char,
    Symbol::Short,
    Symbol::Int,
    Symbol::Long,
];

/// What may stand after `unsigned`.
pub const UNSIGNED: [Symbol; 3] = [Symbol::Char, Symbol::Short, Symbol::Int];

/// The operators of assignment.
pub const ASSIGNMENTS: [Symbol; 11] = [
    Symbol::Assign,
    Symbol::PlusAssign,
    Symbol::MinusAssign,
    Symbol::TimesAssign,
    Symbol::DivideAssign,
    Symbol::RemainderAssign,
    Symbol::AndAssign,
    Symbol::OrAssign,
    Symbol::XorAssign,
    Symbol::ShiftLeftAssign,
    Symbol::ShiftRightAssign,
];

/// `++` and `--`.
pub const COUNTING: [Symbol; 2] = [Symbol::Increment, Symbol::Decrement];

/// The operators of assignment, `++` and `--`.
pub const OPERATIONS: [Symbol; 13] = [
    Symbol::Assign,
    Symbol::PlusAssign,
    Symbol::MinusAssign,
    Symbol::TimesAssign,
    Symbol::DivideAssign,
    Symbol::RemainderAssign,
    Symbol::AndAssign,
    Symbol::OrAssign,
    Symbol::XorAssign,
    Symbol::ShiftLeftAssign,
    Symbol::ShiftRightAssign,
    Symbol::Increment,
    Symbol::Decrement,
];

/// What a type of keywords begins with.
pub const BASIC: [Symbol; 6] = [
    Symbol::Bool,
    Symbol::Char,
    Symbol::Short,
    Symbol::Int,
    Symbol::Long,
    Symbol::Unsigned,
];

/// The whole numbers up to 1,000,000.
pub const BOUNDS: [Symbol; 4] = [Symbol::Zero, Symbol::LongZero, Symbol::One, Symbol::Small];

/// What a statement begins with.
pub const STATEMENTS: [Symbol; 20] = [
    Symbol::OpenBrace,
    Symbol::If,
    Symbol::For,
    Symbol::Name,
    Symbol::UpperTrick,
    Symbol::SimObject,
    Symbol::LowerTrick,
    Symbol::Thread,
    Symbol::OtherThread,
    Symbol::Phase,
    Symbol::OtherPhase,
    Symbol::Bool,
    Symbol::Char,
    Symbol::Short,
    Symbol::Int,
    Symbol::Long,
    Symbol::Unsigned,
    Symbol::Increment,
    Symbol::Decrement,
    Symbol::Semicolon,
];

/// A token with its symbol.
pub type Token = Lexeme<Symbol>;

impl Class for Symbol {
    ghost use Rattle.trick_body_symbols.specs.Symbols.{number_of, symbol_of, spelling_of, each_is_spelled};

    ghost number = { number_of };

    ghost of_bytes = { symbol_of };

    ghost spelling = { spelling_of };

    ghost is_spelled = { each_is_spelled };

    fn is(self, other: Self) -> bool {
        self == other
    }
}
