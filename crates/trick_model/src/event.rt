use crate::Deed;
use trick_base::{Items, Word};
use trick_lang::Expr;

/// An event of an input.
#[derive(Drop)]
pub struct Event {
    pub name: Word,
    /// An active event is due at each tic that the cycle divides; from 1 to 10^15 tics.
    pub cycle: u64,
    /// Without one it never fires. It has no `/`, no `%` and literal indexes alone.
    pub condition: Option<Expr>,
    /// What its actions ask for: lists by rising number, from 0 to 15.
    pub actions: Items<(u8, Items<Deed>)>,
}
