//! The classes of tokens of an input.

ghost use Rattle.std.specs.Prelude.{◌≡◌, nat_eq, nat_lt};
ghost use Rattle.trick_input.specs.Classes.{is_name, number_of};

/// The class of a token: all that the forms of lines see of it. Names, and words of forms, stand first.
#[derive(Clone, Copy, PartialEq, Eq)]
pub enum Class {
    /// Another name.
    Name,
    /// `trick`
    Trick,
    /// `import`, `from`, `for`, `if`, `while` and `def`
    LeftOut,
    /// `sim_services`
    Services,
    SoftwareFrame,
    Stop,
    TerminateTime,
    Freeze,
    ProcessType,
    AmfCycle,
    DependsOn,
    SetJob,
    Declare,
    AddRead,
    NewGroup,
    NewEvent,
    AddGroup,
    AddEvent,
    ScheduledType,
    AsyncType,
    AmfType,
    Always,
    Changes,
    /// What is said of the buffer of a group, which changes nothing.
    Buffer,
    SetCycle,
    AddVariable,
    Enable,
    Disable,
    Frequency,
    ThisOwn,
    Condition,
    Action,
    Activate,
    True,
    False,
    /// A whole number that is 0.
    Zero,
    /// Another whole number.
    Whole,
    Decimal,
    /// A string with a name in it.
    NameText,
    /// Another string.
    Text,
    Dot,
    OpenBracket,
    CloseBracket,
    Open,
    Close,
    Comma,
    Assign,
    Minus,
    /// Another mark.
    Other,
}

impl Class {
    /// Whether the two are the same class.
    pub fn is(self, other: Class) -> bool
        ensures { result ≡ nat_eq (number_of self) (number_of other) }
    {
        self == other
    }

    /// Whether a token of the class is a name.
    pub fn is_name(self) -> bool
        ensures { result ≡ is_name self }
    {
        match self {
            Class::Zero
            | Class::Whole
            | Class::Decimal
            | Class::NameText
            | Class::Text
            | Class::Dot
            | Class::OpenBracket
            | Class::CloseBracket
            | Class::Open
            | Class::Close
            | Class::Comma
            | Class::Assign
            | Class::Minus
            | Class::Other => false,
            _ => true,
        }
    }
}
