ghost use Rattle.std.specs.Prelude.{◌≡◌, ◌*◌};
ghost use Rattle.trick_check_blocks.specs.Places.{element_at, loosened, moved, scalar_there};
ghost use Rattle.trick_check_blocks.specs.Room.{LieIn};

use trick_check_names::{Base, Dim, Dims, Extent};

/// Where a path has come after its first computed index: somewhere among the cells of that array.
#[derive(Clone, Copy)]
pub struct Loose {
    /// How many cells the array has.
    pub span: u32,
    /// What the members and literal indexes after it add.
    pub offset: u32,
}

/// Where a path has come.
#[derive(Clone, Copy)]
pub struct Spot {
    /// Whether `first` is counted from the first cell of the job's object, and not from cell 0.
    pub own: bool,
    /// The first cell of what the path names before its first computed index.
    pub first: u32,
    pub loose: Option<Loose>,
    /// What is there.
    pub extent: Extent,
}

/// The array that a place is, and what its elements are.
#[derive(Clone, Copy)]
pub struct Element {
    pub dim: Dim,
    pub inner: Extent,
}

/// So many cells on.
pub fn move_on(spot: Spot, by: u32, extent: Extent) -> Spot
    requires { LieIn 65536 by spot.first spot.loose }
    ensures { result ≡ moved by extent spot }
{
    match spot.loose {
        None => Spot {
            own: spot.own,
            first: spot.first + by,
            loose: None,
            extent,
        },
        Some(loose) => Spot {
            own: spot.own,
            first: spot.first,
            loose: Some(Loose {
                span: loose.span,
                offset: loose.offset + by,
            }),
            extent,
        },
    }
}

/// The array that is there.
pub fn array_of(at: Option<Spot>) -> Option<Element>
    ensures { result ≡ element_at at }
{
    match at {
        None => None,
        Some(spot) => match spot.extent.dims {
            Dims::Plain => None,
            Dims::One(dim) => Some(Element {
                dim,
                inner: Extent {
                    dims: Dims::Plain,
                    base: spot.extent.base,
                },
            }),
            Dims::Two(dim, more) => Some(Element {
                dim,
                inner: Extent {
                    dims: Dims::One(more),
                    base: spot.extent.base,
                },
            }),
        },
    }
}

/// Somewhere among the cells of an array, or of the first array that a path led into.
pub fn loosen(cells: u32, loose: Option<Loose>) -> Option<Loose>
    ensures { result ≡ loosened cells loose }
{
    match loose {
        None => Some(Loose {
            span: cells,
            offset: 0,
        }),
        Some(known) => Some(known),
    }
}

/// So many strides on.
pub fn element_on(k: u32, found: Element, spot: Spot) -> Spot
    requires room { LieIn 65536 (k * found.dim.stride) spot.first spot.loose }
    ensures { result ≡ moved (k * found.dim.stride) found.inner spot }
{
    move_on(spot, k * found.dim.stride, found.inner)
}

/// The place that is there, where it is a number.
pub fn scalar(at: Option<Spot>) -> Option<Spot>
    ensures { result ≡ scalar_there at }
{
    match at {
        None => None,
        Some(spot) => match (spot.extent.dims, spot.extent.base) {
            (Dims::Plain, Base::Single(_)) => Some(spot),
            _ => None,
        },
    }
}
