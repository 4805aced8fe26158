//! What the work of a thread comes to, and the parcel in which it travels.

ghost use Rattle.std.specs.Prelude.{◌≡◌, IfOk, List, None, length, map, min};
ghost use Rattle.trick_lang.specs.declared.fault.JobFault.{JobFault};
ghost use Rattle.trick_model.specs.FaultList.{kept, with_faults};
ghost use Rattle.trick_post_trays.specs.Outputs.{AreParcelsOf, IsParcelOf, dated, no_faults};

use crate::tray::{THREADS, Tray};
use std::alloc::{AllocError, Global};
use trick_lang::JobFault;
use trick_model::{Faults, Plan};

/// What the work of a thread comes to.
#[derive(Drop)]
pub struct Outputs {
    /// The number that each cell of the thread's scope ends with, in order.
    pub cells: Vec<i64>,
    /// The faults of its jobs, with tic 0.
    pub faults: Faults,
}

/// A tray with what its work comes to. It goes from hand to hand.
#[derive(Drop)]
pub struct Parcel {
    pub tray: Tray,
    pub outputs: Outputs,
}

impl Outputs {
    /// Adds the faults to others, with this tic. Takes no memory.
    pub(crate) fn add_faults(&self, faults: &mut Faults, tic: u64)
        requires kept { length self.now.faults.first ≡ min self.now.faults.count kept }
        ensures { (early : List JobFault) → self.now.faults ≡ with_faults early no_faults
            → faults.new ≡ with_faults (map (dated tic) early) faults.old }
    {
        for fault in self.faults.first() {
            faults.add(JobFault {
                tic,
                job: fault.job,
                kind: fault.kind,
                line: fault.line,
            });
        }
        let more = self.faults.count() - self.faults.first().len() as u64;
        if more > 0 {
            faults.count_more(more);
        }
    }
}

impl Parcel {
    /// For the thread of a number, with no work. This call alone takes memory.
    pub fn new(alloc: Global, plan: &Plan, number: u8) -> Result<Self, AllocError>
        ensures own { IfOk result (IsParcelOf plan.now number) }
        ensures empty { IfOk result (λ parcel. parcel.tray.work ≡ None) }
    {
        let tray = Tray::new(alloc, plan, number)?;
        let cells = Vec::with_capacity(alloc, tray.scope.len())?;
        let faults = Faults::new(alloc)?;
        let outputs = Outputs { cells, faults };
        Ok(Parcel { tray, outputs })
    }

    /// A parcel for each thread, by its number, with no work. This call alone takes memory.
    pub fn all(alloc: Global, plan: &Plan) -> Result<Vec<Self>, AllocError>
        ensures { IfOk result (λ parcels. AreParcelsOf plan.now parcels.items) }
    {
        let mut parcels = Vec::new(alloc);
        for number in 0..THREADS {
            parcels.push(Parcel::new(alloc, plan, number)?)?;
        }
        Ok(parcels)
    }
}
