//! The plan that a value behind a lock belongs to.
use std::marker::Brand;

/// The plan that a value shared by threads belongs to, as a part of its type: what comes out of a lock
/// then belongs to the plan of who asked for it. A caller that passes `Brand` picks the plan in its proof.
pub trait Planned {
    ghost use Rattle.std.specs.Prelude.{Option};
    ghost use Rattle.trick_model.specs.declared.plan.Plan.{Plan};

    /// The plan, or none where nobody picked one.
    ghost plan: { Option Plan };
}

impl Planned for Brand {
    ghost use Rattle.std.specs.Prelude.{None};

    ghost plan = { None };
}
