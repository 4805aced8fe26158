//! Laws of accepted plans. A function that calls one of them may rest on what it says; the call itself
//! does nothing.

ghost use Rattle.trick_race.specs.Laws.{DueJobsAreSettled};

/// In an accepted plan two jobs that are due at one tic on two scheduled threads are independent, or one
/// of them is ordered before the other. So every order of them that keeps the ordered ones has one result.
pub fn due_jobs_are_settled()
    ensures { DueJobsAreSettled }
{
    trick_model::laws::keys_differ();
}
