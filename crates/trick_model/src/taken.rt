use crate::Flags;
use trick_base::Items;

/// What a thread beside the tics was given: the numbers of the cells of its scope, in cell order,
/// and the flags of its jobs, in program order. Where nothing is held it has neither.
#[derive(Debug, Drop)]
pub struct Taken {
    pub held: bool,
    pub cells: Items<i64>,
    pub on: Flags,
}
