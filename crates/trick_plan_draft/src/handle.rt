/// What a variable of an input stands for, by the place among the groups or among the events of a
/// draft, from 0.
#[derive(Clone, Copy, Debug, PartialEq, Eq)]
pub enum Handle {
    Group(usize),
    Event(usize),
}
