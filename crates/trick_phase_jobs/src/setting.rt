use trick_model::{Flags, Plan};

/// With what jobs run: the jobs of a plan, of which those run that are on, and the tic that their
/// faults have.
#[derive(Clone, Copy)]
pub struct Setting<'a> {
    pub plan: &'a Plan,
    pub on: &'a Flags,
    /// In tics, at most 10^15 + 1.
    pub tic: u64,
}
