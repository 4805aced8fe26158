//! Laws of a crew. A function that calls one of them may rest on what it says; the call itself does nothing.
ghost use Rattle.trick_crew_team.specs.Children.{DueThreadsAreServed};

/// Each job that is due at a tic is on thread 0, or on a child thread that gets a worker.
pub fn due_threads_are_served()
    ensures { DueThreadsAreServed }
{}
