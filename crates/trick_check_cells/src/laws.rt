//! Laws of the definitions: public functions with empty bodies, whose contracts are the laws.

ghost use Rattle.std.specs.Prelude.{◌≡◌, ◌≤◌, [], length, true};
ghost use Rattle.trick_base.specs.Capped.{capped};
ghost use Rattle.trick_check_cells.specs.Cells.{all_groups, group_cells, memory_cells};
ghost use Rattle.trick_check_cells.specs.Counts.{counts, names_count};
ghost use Rattle.trick_check_cells.specs.Tables.{layout_of};
ghost use Rattle.trick_check_cells.specs.Unfolding.{Unfolds, are_declared_first};
ghost use Rattle.trick_check_names.specs.Kept.{AreLaid};
ghost use Rattle.trick_check_names.specs.Tables.{tables_of};

/// In a file each struct and class has members of structs before it alone.
pub fn declared_law()
    ensures { (ds : _) → are_declared_first 0 (tables_of ds).groups ≡ true }
{}

/// Where that is so, each has the cells of its members.
pub fn unfold_law()
    ensures { (groups : _) → are_declared_first 0 groups ≡ true → Unfolds groups (group_cells groups []) }
{}

/// The counts are those of the cells.
pub fn count_law()
    ensures { (tables : _) → capped (names_count (counts (all_groups tables)) tables.names)
        ≡ capped (length (memory_cells tables)) }
{}

/// Where all objects have at most 65,536 cells, the tables keep what their readers rest on.
pub fn layout_law()
    ensures { (tables : _) (done : _) → Unfolds tables.groups done → names_count (counts done) tables.names ≤ 65536 →
        AreLaid (layout_of (counts done) tables) }
{}
