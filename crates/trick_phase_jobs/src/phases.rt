ghost use Rattle.std.specs.Prelude.{◌≡◌};
ghost use Rattle.trick_model.specs.FaultList.{with_faults};
ghost use Rattle.trick_model.specs.PlanOf.{plan_of};
ghost use Rattle.trick_model.specs.Running.{serial};
ghost use Rattle.trick_model.specs.declared.plan.Plan.{Plan};
ghost use Rattle.trick_phase_jobs.specs.Given.{IsGiven};

use trick_lang::{Cells, JobId};
use trick_model::{Accepted, Faults, Flags};

/// Runs the due jobs of a tic, in whatever way. They come to what one thread makes of them, one job
/// after another in key order.
pub trait Phases<M: Cells> {
    /// The value was made for this plan.
    ghost is_for: { Self → Plan → Type 0 };

    /// The due jobs of a tic. The memory comes back after them, and their faults are added, with this
    /// tic. Takes no memory.
    fn tic(
        &mut self,
        accepted: &Accepted,
        memory: M,
        on: &Flags,
        due: &[JobId],
        tic: u64,
        faults: &mut Faults,
    ) -> M
        requires own { is_for self.old accepted.now.plan }
        requires given { IsGiven accepted.now.plan (M.numbers memory) (M.scalars memory) on.now due.now tic }
        ensures memory { M.numbers result ≡ (serial (plan_of accepted.now.plan) on.now tic (M.numbers memory)).memory }
        ensures scalars { M.scalars result ≡ M.scalars memory }
        ensures faults { faults.new ≡ with_faults
            (serial (plan_of accepted.now.plan) on.now tic (M.numbers memory)).faults faults.old }
        ensures own { is_for self.new accepted.now.plan };
}
