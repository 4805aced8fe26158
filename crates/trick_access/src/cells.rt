use trick_base::Items;
use trick_lang::CellRange;

/// The cells that a job may read and those that it may write: in both branches of every test, in
/// every turn of a loop and in called methods, whatever the memory is. `docs/RULES.md` has the rule.
#[derive(Debug, Drop)]
pub struct Access {
    pub reads: Items<CellRange>,
    pub writes: Items<CellRange>,
}
