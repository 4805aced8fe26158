use trick_base::Word;
use trick_model::Process;
use trick_text::TimeFault;

/// A time of an input in tics, at most 10^15, or why it is none. A line with a time that is none reads
/// all the same: the plan refuses it.
pub type Time = Result<u64, TimeFault>;

/// One line of an input.
#[derive(Drop)]
pub struct Call {
    /// What the line says.
    pub form: Form,
    /// The line, from 1.
    pub line: u32,
}

/// What a line of an input says. The page FORMATS of the documents has the form of each. Names of
/// variables, jobs, groups and events are as they are written; nothing here is looked up.
#[derive(Drop)]
pub enum Form {
    /// The cell of this full name begins with a number, from -(2^63) to 2^63.
    Assign { name: Word, number: i128 },
    /// Cells are declared, by a text of its own.
    Declare { declaration: Word },
    /// Of the run or of one of its threads, whatever the order of the lines.
    Run(RunForm),
    /// Of jobs.
    Job(JobForm),
    /// Of a data record group.
    Group(GroupForm),
    /// Of an event, without a text of its own.
    Event(EventForm),
    /// Of the group or the event that a variable stands for.
    Variable(VariableForm),
    /// Of actions or of a condition, by a text of their own.
    Text(TextForm),
}

/// What a line says of the run or of one of its threads. It holds for the whole input, and of two lines that say
/// one thing the last counts.
#[derive(Drop)]
pub enum RunForm {
    /// The software frame.
    SoftwareFrame { time: Time },
    /// The run stops after this time.
    Stop { time: Time },
    /// The run starts in Freeze.
    Freeze,
    /// How the jobs of a thread run.
    ProcessType { thread: u64, process: Process },
    /// The cycle of a must-finish thread.
    AmfCycle { thread: u64, time: Time },
}

/// What a line says of jobs. Each goes by its name and its instance.
#[derive(Drop)]
pub enum JobForm {
    /// A job waits for another one.
    DependsOn {
        target: Word,
        instance: u64,
        depended: Word,
        depended_instance: u64,
    },
    /// A job begins on or off.
    SetJob {
        name: Word,
        instance: u64,
        on: bool,
    },
}

/// What a line says of a data record group.
#[derive(Drop)]
pub enum GroupForm {
    /// A variable stands for a new group.
    NewGroup { variable: Word, name: Word },
    /// A cell is recorded by a group.
    AddVariable { variable: Word, name: Word },
    /// A group begins on or off.
    SetGroup { variable: Word, on: bool },
    /// Whether a group records changes alone.
    SetChanges { variable: Word, changes: bool },
    /// A group is added.
    AddGroup { variable: Word },
}

/// What a line says of an event, but for its condition and its actions.
#[derive(Drop)]
pub enum EventForm {
    /// A variable stands for a new event.
    NewEvent { variable: Word, name: Word },
    /// An event begins active.
    Activate { variable: Word },
    /// An event is added.
    AddEvent { variable: Word },
}

/// What a line says of a group and of an event alike.
#[derive(Drop)]
pub enum VariableForm {
    /// Its cycle.
    SetCycle { variable: Word, time: Time },
    /// It is accepted and changes nothing.
    ThisOwn { variable: Word },
}

/// What a line says by a text of its own, of what is done or when.
#[derive(Drop)]
pub enum TextForm {
    /// Actions at a time.
    AddRead {
        time: Time,
        actions: Word,
    },
    /// The condition of an event.
    SetCondition {
        variable: Word,
        condition: Word,
    },
    /// A list of actions of an event.
    SetAction {
        variable: Word,
        number: u64,
        actions: Word,
    },
}
