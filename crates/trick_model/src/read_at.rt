use crate::Deed;
use trick_base::Items;

/// What the actions of a read ask for, at a tic of at most 10^15.
#[derive(Debug, Drop)]
pub struct ReadAt {
    pub tic: u64,
    pub actions: Items<Deed>,
}
