//! Boards of plans that are drawn, driven beside their plain form.

ghost use Rattle.std.specs.Prelude.{◌≡◌, ◌≤◌};
ghost use Rattle.trick_base.specs.Time.{tic_limit};
ghost use Rattle.trick_phase_cases.specs.Trial.{IsTrial};

use crate::drawn::Numbers;
use crate::plain::Doing;
use crate::trial::Trial;
use std::alloc::{AllocError, Global};
use trick_lang::JobId;
use trick_model::Accepted;
use trick_phase_board::Commit;

// A board that is driven, and what was done of its due jobs.
#[derive(Drop)]
struct Drive {
    trial: Trial,
    doing: Doing,
}

impl Drive {
    // Takes a job of a thread, and tells whether the answer is that of the plain form.
    fn take(&mut self, accepted: &Accepted, thread: u8) -> Result<bool, AllocError>
        requires { IsTrial accepted.now.plan self.old.trial.board self.old.trial.bench self.old.trial.other }
        ensures { IsTrial accepted.now.plan self.new.trial.board self.new.trial.bench self.new.trial.other }
    {
        let (want, job) = self.doing.take(accepted.plan(), thread);
        let got = self.trial.take(accepted, thread);
        if got != Some(want) {
            return Ok(false);
        }
        match job {
            Some(job) => self.hold(job),
            None => Ok(true),
        }
    }

    // Notes that a job is taken, and tells whether it is in the bench.
    fn hold(&mut self, job: JobId) -> Result<bool, AllocError>
        ensures { self.new.trial ≡ self.old.trial }
    {
        self.doing.taken.push(job)?;
        Ok(self.trial.held() == Some(job))
    }

    // Commits a job, which is in the bench, and tells whether it is committed.
    fn commit(&mut self, accepted: &Accepted, job: JobId) -> Result<bool, AllocError>
        requires { IsTrial accepted.now.plan self.old.trial.board self.old.trial.bench self.old.trial.other }
        ensures { IsTrial accepted.now.plan self.new.trial.board self.new.trial.bench self.new.trial.other }
    {
        let got = self.trial.commit(accepted);
        self.doing.committed.push(job)?;
        Ok(got == Some(Commit::Committed))
    }

    // One act that is drawn: a take into an empty bench, a commit of a job in the bench, or the other bench.
    fn act(&mut self, accepted: &Accepted, numbers: &mut Numbers) -> Result<bool, AllocError>
        requires { IsTrial accepted.now.plan self.old.trial.board self.old.trial.bench self.old.trial.other }
        ensures { IsTrial accepted.now.plan self.new.trial.board self.new.trial.bench self.new.trial.other }
    {
        if numbers.below(3) == 0 {
            self.trial.swap();
            return Ok(true);
        }
        match self.trial.held() {
            Some(job) => self.commit(accepted, job),
            None => self.take(accepted, numbers.below(4).min(3) as u8),
        }
    }

    // The number of the first of 96 acts at which the board and the plain form differ.
    fn acts(
        &mut self,
        accepted: &Accepted,
        numbers: &mut Numbers,
    ) -> Result<Option<u64>, AllocError>
        requires { IsTrial accepted.now.plan self.old.trial.board self.old.trial.bench self.old.trial.other }
    {
        for act in 0..96u64 {
            if !self.act(accepted, numbers)? {
                return Ok(Some(act));
            }
        }
        Ok(None)
    }

    // Opens a tic, and does acts.
    fn tic(
        &mut self,
        alloc: Global,
        accepted: &Accepted,
        tic: u64,
        numbers: &mut Numbers,
    ) -> Result<Option<u64>, AllocError>
        requires right { IsTrial accepted.now.plan self.old.trial.board self.old.trial.bench self.old.trial.other }
        requires tic { tic ≤ tic_limit }
    {
        self.trial.open(alloc, accepted, tic)?;
        self.acts(accepted, numbers)
    }
}

/// The number of the first act at which a board and the plain form differ, on one of tics 0 to 11. `None` where there
/// is none.
pub(crate) fn first_other_answer(
    alloc: Global,
    accepted: &Accepted,
    numbers: &mut Numbers,
) -> Result<Option<u64>, AllocError> {
    let tic = numbers.below(12).min(11);
    let doing = Doing::new(alloc, accepted.plan(), tic)?;
    let trial = Trial::new(alloc, accepted)?;
    let mut drive = Drive { trial, doing };
    let place = drive.tic(alloc, accepted, tic, numbers);
    drop(drive.trial);
    place
}
