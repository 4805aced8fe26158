//! The table of the forms of lines.

ghost use Rattle.std.specs.Prelude.{◌≡◌};
ghost use Rattle.trick_input.specs.Forms.{fits, pieces, rows};

use crate::class::Class;

/// A sort of token.
#[derive(Clone, Copy, PartialEq, Eq)]
pub enum Sort {
    /// A token of this class.
    Is(Class),
    /// A name, but for `trick` and the words that are left out.
    Head,
    /// A name, but for the words that are left out.
    Variable,
    /// Any name.
    Name,
    /// A whole number.
    Number,
    /// A number of seconds.
    Time,
    /// A whole number, `True` or `False`.
    Literal,
    /// A string.
    Quoted,
    /// A process type.
    Process,
    /// `DR_Always` or `DR_Changes`.
    Recording,
}

/// A piece of a form.
#[derive(Clone, Copy, PartialEq, Eq)]
pub enum Piece {
    /// One token.
    One(Sort),
    /// The rest of a full name, and the `=` after it.
    Path,
}

/// A form of a line. `Minus` at the end of its name says that its literal has a `-`.
#[derive(Clone, Copy, PartialEq, Eq)]
pub enum Row {
    ThisOwn,
    ThisOwnMinus,
    Assign,
    AssignMinus,
    TrickAssign,
    TrickAssignMinus,
    TrickIndexed,
    TrickIndexedMinus,
    SoftwareFrame,
    Stop,
    TerminateTime,
    Freeze,
    ProcessType,
    AmfCycle,
    DependsOn,
    SetJob,
    SetJobMinus,
    Declare,
    AddRead,
    NewGroup,
    NewEvent,
    SetCycle,
    AddVariable,
    Enable,
    Disable,
    SetChanges,
    AddGroup,
    AddGroupBuffer,
    SetCondition,
    SetAction,
    Activate,
    AddEvent,
}

/// Whether a token of the class is one of the sort.
pub fn fits(sort: Sort, class: Class) -> bool
    ensures { result ≡ fits sort class }
{
    match sort {
        Sort::Is(other) => class.is(other),
        Sort::Head => class.is_name() && !class.is(Class::Trick) && !class.is(Class::LeftOut),
        Sort::Variable => class.is_name() && !class.is(Class::LeftOut),
        Sort::Name => class.is_name(),
        Sort::Number => class.is(Class::Zero) || class.is(Class::Whole),
        Sort::Time => class.is(Class::Zero) || class.is(Class::Whole) || class.is(Class::Decimal),
        Sort::Literal => {
            class.is(Class::Zero)
                || class.is(Class::Whole)
                || class.is(Class::True)
                || class.is(Class::False)
        }
        Sort::Quoted => class.is(Class::NameText) || class.is(Class::Text),
        Sort::Process => {
            class.is(Class::ScheduledType) || class.is(Class::AsyncType) || class.is(Class::AmfType)
        }
        Sort::Recording => class.is(Class::Always) || class.is(Class::Changes),
    }
}

macro_rules! word {
    ($class:ident) => {
        Piece::One(Sort::Is(Class::$class))
    };
}

// The call of a word of `trick`, with pieces between its parentheses.
macro_rules! call {
    ($name:ident $(, $piece:expr)*) => {
        &[word!(Trick), word!(Dot), word!($name), word!(Open), $($piece,)* word!(Close)]
    };
}

// The call of a word of a variable.
macro_rules! method {
    ($name:ident $(, $piece:expr)*) => {
        &[HEAD, word!(Dot), word!($name), word!(Open), $($piece,)* word!(Close)]
    };
}

// A variable for the call of a word of `trick` with a name.
macro_rules! new {
    ($name:ident) => {
        &[
            Piece::One(Sort::Variable),
            word!(Assign),
            word!(Trick),
            word!(Dot),
            word!($name),
            word!(Open),
            word!(NameText),
            word!(Close),
        ]
    };
}

const HEAD: Piece = Piece::One(Sort::Head);

const NAME: Piece = Piece::One(Sort::Name);

const NUMBER: Piece = Piece::One(Sort::Number);

const TIME: Piece = Piece::One(Sort::Time);

const LITERAL: Piece = Piece::One(Sort::Literal);

const STRING: Piece = Piece::One(Sort::Quoted);

const COMMA: Piece = word!(Comma);

const MINUS: Piece = word!(Minus);

const ASSIGN: Piece = word!(Assign);

const TRICK: Piece = word!(Trick);

const DOT: Piece = word!(Dot);

const OPEN: Piece = word!(OpenBracket);

const CLOSE: Piece = word!(CloseBracket);

const PROCESS: Piece = Piece::One(Sort::Process);

const RECORDING: Piece = Piece::One(Sort::Recording);

/// The pieces of a form.
pub fn pieces(row: Row) -> &'static [Piece]
    ensures { result.now ≡ pieces row }
{
    match row {
        Row::ThisOwn => &[HEAD, DOT, word!(ThisOwn), ASSIGN, LITERAL],
        Row::ThisOwnMinus => &[HEAD, DOT, word!(ThisOwn), ASSIGN, MINUS, NUMBER],
        Row::Assign => &[HEAD, Piece::Path, LITERAL],
        Row::AssignMinus => &[HEAD, Piece::Path, MINUS, NUMBER],
        Row::TrickAssign => &[TRICK, ASSIGN, LITERAL],
        Row::TrickAssignMinus => &[TRICK, ASSIGN, MINUS, NUMBER],
        Row::TrickIndexed => &[TRICK, OPEN, NUMBER, CLOSE, Piece::Path, LITERAL],
        Row::TrickIndexedMinus => &[TRICK, OPEN, NUMBER, CLOSE, Piece::Path, MINUS, NUMBER],
        Row::SoftwareFrame => call!(SoftwareFrame, TIME),
        Row::Stop => call!(Stop, TIME),
        Row::TerminateTime => call!(TerminateTime, TIME),
        Row::Freeze => call!(Freeze),
        Row::ProcessType => call!(ProcessType, NUMBER, COMMA, TRICK, DOT, PROCESS),
        Row::AmfCycle => call!(AmfCycle, NUMBER, COMMA, TIME),
        Row::DependsOn => call!(
            DependsOn, STRING, COMMA, NUMBER, COMMA, STRING, COMMA, NUMBER
        ),
        Row::SetJob => call!(SetJob, STRING, COMMA, NUMBER, COMMA, LITERAL),
        Row::SetJobMinus => call!(SetJob, STRING, COMMA, NUMBER, COMMA, MINUS, NUMBER),
        Row::Declare => call!(Declare, STRING),
        Row::AddRead => call!(AddRead, TIME, COMMA, STRING),
        Row::NewGroup => new!(NewGroup),
        Row::NewEvent => new!(NewEvent),
        Row::SetCycle => method!(SetCycle, TIME),
        Row::AddVariable => method!(AddVariable, STRING),
        Row::Enable => method!(Enable),
        Row::Disable => method!(Disable),
        Row::SetChanges => &[HEAD, DOT, word!(Frequency), ASSIGN, TRICK, DOT, RECORDING],
        Row::AddGroup => call!(AddGroup, NAME),
        Row::AddGroupBuffer => call!(AddGroup, NAME, COMMA, TRICK, DOT, word!(Buffer)),
        Row::SetCondition => method!(Condition, word!(Zero), COMMA, STRING),
        Row::SetAction => method!(Action, NUMBER, COMMA, STRING),
        Row::Activate => method!(Activate),
        Row::AddEvent => call!(AddEvent, NAME),
    }
}

/// The forms, in the order in which they count where a line has two.
pub fn rows() -> &'static [Row]
    ensures { result.now ≡ rows }
{
    &[
        Row::ThisOwn,
        Row::ThisOwnMinus,
        Row::Assign,
        Row::AssignMinus,
        Row::TrickAssign,
        Row::TrickAssignMinus,
        Row::TrickIndexed,
        Row::TrickIndexedMinus,
        Row::SoftwareFrame,
        Row::Stop,
        Row::TerminateTime,
        Row::Freeze,
        Row::ProcessType,
        Row::AmfCycle,
        Row::DependsOn,
        Row::SetJob,
        Row::SetJobMinus,
        Row::Declare,
        Row::AddRead,
        Row::NewGroup,
        Row::NewEvent,
        Row::SetCycle,
        Row::AddVariable,
        Row::Enable,
        Row::Disable,
        Row::SetChanges,
        Row::AddGroup,
        Row::AddGroupBuffer,
        Row::SetCondition,
        Row::SetAction,
        Row::Activate,
        Row::AddEvent,
    ]
}
