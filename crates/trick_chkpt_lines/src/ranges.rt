//! The ranges of cells.

ghost use Rattle.std.specs.Prelude.{◌≡◌, IfOk};
ghost use Rattle.trick_chkpt_lines.specs.Ranges.{range_at as range_at_of, range_of as range_of_type, ranges_at as ranges_at_of};

use std::alloc::{AllocError, Global};
use trick_codes::Range;
use trick_lang::{Cell, Scalar};
use trick_model::{Plan, cell_type_or_long};

/// The numbers of a type.
pub(crate) fn range_of(scalar: Scalar) -> Range
    ensures { result ≡ range_of_type scalar }
{
    let (below, above) = match scalar {
        Scalar::Bool => (0, 1),
        Scalar::Char => (128, 127),
        Scalar::UChar => (0, 255),
        Scalar::Short => (32_768, 32_767),
        Scalar::UShort => (0, 65_535),
        Scalar::Int => (2_147_483_648, 2_147_483_647),
        Scalar::UInt => (0, 4_294_967_295),
        Scalar::Long => (9_223_372_036_854_775_808, 9_223_372_036_854_775_807),
    };
    Range { below, above }
}

/// The numbers of a cell.
pub(crate) fn range_at(plan: &Plan, cell: Cell) -> Range
    ensures { result ≡ range_at_of plan.now cell }
{
    range_of(cell_type_or_long(&plan.program, cell))
}

/// The numbers of each of these cells.
pub(crate) fn ranges_at(
    alloc: Global,
    plan: &Plan,
    cells: &[Cell],
) -> Result<Vec<Range>, AllocError>
    ensures { IfOk result (λ found. found.items ≡ ranges_at_of plan.now cells.now) }
{
    let mut found = Vec::new(alloc);
    for cell in cells {
        found.push(range_at(plan, *cell))?;
    }
    Ok(found)
}
